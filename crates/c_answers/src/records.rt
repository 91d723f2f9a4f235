// Response records. The array of numbers is the header's.
ghost use Rattle.record_read.specs.Reading.{paper_record_read};
ghost use Rattle.c_numbers.specs.Records.{record_numbers};
ghost use Rattle.c_answers.specs.Returned.{GivesNumbers};

use crate::give;
use c_numbers::records::record_numbers;
use counts::Refusal;
use record_read::Record;

pub fn give_record(answer: Result<Record, Refusal>, numbers: &mut [u64; 8]) -> u64
    ensures { GivesNumbers record_numbers (paper_record_read answer) result numbers.old numbers.new }
{
    give(answer.map(record_numbers), numbers)
}
