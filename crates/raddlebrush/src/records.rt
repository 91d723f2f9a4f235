// Response records.
ghost use Rattle.std.specs.Prelude.{◌≡◌};
ghost use Rattle.counts.specs.Limits.{commands};
ghost use Rattle.record.specs.Record.{content};
ghost use Rattle.record_read.specs.Reading.{record_read};
ghost use Rattle.record.specs.Writing.{written, written_bytes};
ghost use Rattle.c_numbers.specs.Records.{outcome_given, record_numbers};
ghost use Rattle.c_answers.specs.Returned.{GivesCount, GivesNumbers};

use c_answers::give_count;
use c_answers::records::give_record;
use c_numbers::records::outcome_given;
use counts::CommandNumber;

pub fn rb_write_record(
    number: u32,
    outcome: u32,
    class: u32,
    code: u32,
    text: &[u8],
    date: u32,
    time: u32,
    out: &mut [u8],
    used: &mut usize,
) -> u64
    ensures { GivesCount (written commands (content number (outcome_given outcome class code) text.now date time) out.old)
        result used.old used.new
        × (out.new ≡ written_bytes commands (content number (outcome_given outcome class code) text.now date time) out.old) }
{
    let o = outcome_given(outcome, class, code);
    give_count(
        record::write_record(CommandNumber(number), o, date, time, text, out),
        used,
    )
}

pub fn rb_read_record_numbers(bytes: &[u8], numbers: &mut [u64; 8]) -> u64
    ensures { GivesNumbers record_numbers (record_read commands bytes.now) result numbers.old numbers.new }
{
    give_record(record_read::read_record(bytes), numbers)
}
