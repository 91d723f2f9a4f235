// Report files.
ghost use Rattle.report.specs.Answer.{paper_report_read};
ghost use Rattle.c_answers.specs.Returned.{GivesReport};

use crate::give_two;
use counts::Refusal;

pub fn give_report(
    answer: Result<(usize, usize), Refusal>,
    columns: &mut usize,
    lines: &mut usize,
) -> u64
    ensures { GivesReport (paper_report_read answer) result columns.old columns.new lines.old lines.new }
{
    give_two(answer, columns, lines)
}
