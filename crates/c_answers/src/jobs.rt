// Statements of a job file. The array of numbers is the header's.
ghost use Rattle.job.specs.Statement.{paper_statement_at};
ghost use Rattle.c_answers.specs.Returned.{GivesStatement};

use crate::give_two;
use c_numbers::statements::StatementNumbers;
use counts::Refusal;
use job::StatementAt;

pub fn give_statement(
    answer: Result<StatementAt, Refusal>,
    numbers: &mut [u64; 20],
    mantissa: &mut i64,
) -> u64
    ensures { GivesStatement (paper_statement_at answer)
        result numbers.old numbers.new mantissa.old mantissa.new }
{
    let fields = answer.map(|x| {
        let StatementNumbers { numbers, mantissa } = x.into();
        (numbers, mantissa)
    });
    give_two(fields, numbers, mantissa)
}
