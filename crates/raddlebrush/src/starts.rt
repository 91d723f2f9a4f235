// Whether to start.
ghost use Rattle.meaning.specs.Paper.{paper_start};
ghost use Rattle.start.specs.Decision.{present_value, given, decision};
ghost use Rattle.c_numbers.specs.Starts.{operand_given, start_given, present_given};
ghost use Rattle.c_answers.specs.Returned.{GivesDue};

use c_answers::starts::give_decision;
use c_numbers::starts::present_given;
use c_numbers::statements::StartFields;
use statement::Start;

pub fn rb_is_due_numbers(
    file: &[u8],
    start_kind: u32,
    start_time: u32,
    start_date: u32,
    operator_kind: u32,
    operand_kind: u32,
    operand_quote: usize,
    scale: u32,
    mantissa: i64,
    date: u32,
    time: u32,
    taken_up: u32,
    value_kind: u32,
    value_scale: u32,
    value_mantissa: i64,
    value_text: &[u8],
    due: &mut u32,
) -> u64
    ensures { GivesDue (decision
        (given file.now date time taken_up (present_value (present_given value_kind value_scale value_mantissa) value_text.now))
        (paper_start (start_given start_kind start_time start_date operator_kind (operand_given operand_kind operand_quote scale mantissa))))
        result due.old due.new }
{
    let clause = Start::from(StartFields {
        kind: start_kind,
        time: start_time,
        date: start_date,
        operator: operator_kind,
        operand: operand_kind,
        quote: operand_quote,
        scale,
        mantissa,
        ..StartFields::default()
    });
    let value = present_given(value_kind, value_scale, value_mantissa);
    give_decision(
        start::is_due(clause, file, date, time, taken_up, value, value_text),
        due,
    )
}
