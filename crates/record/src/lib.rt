// Response records: which are permitted, and how they are written.
#![tactic(auto)]

ghost use Rattle.std.specs.Prelude.{◌≡◌, true, ◌+◌, ◌≤◌, length};
ghost use Rattle.counts.specs.Limits.{commands, text_bytes, class_most, code_most};
ghost use Rattle.counts.specs.Result.{refused_by};
ghost use Rattle.field.specs.Part.{Wrote};
ghost use Rattle.decimal.specs.Digits.{plain_width};
ghost use Rattle.record.specs.Record.{content, is_outcome, in_range, outcome_bytes, record_bytes, fixed_length};
ghost use Rattle.record.specs.Writing.{Fits, write_refusal, written, written_bytes, paper_record_written};

use counts::{CLASS_MOST, CODE_MOST, COMMANDS, CommandNumber, Reason, Refusal, TEXT_BYTES};

// What a command came to: PROCESSED, or ERROR with class and code.
#[derive(Clone, Copy, Debug, PartialEq, Eq, Hash)]
pub enum Outcome {
    Processed,
    Error(u32, u32),
}

pub fn is_outcome(outcome: Outcome) -> bool
    ensures { result ≡ is_outcome outcome }
{
    match outcome {
        Outcome::Processed => true,
        Outcome::Error(class, code) => (class <= CLASS_MOST) & (code <= CODE_MOST),
    }
}

fn in_range(number: CommandNumber, outcome: Outcome, text: &[u8]) -> bool
    ensures { result ≡ in_range commands number.0 outcome text.now }
{
    let n = number.0;
    let text_fits = (text.len() <= TEXT_BYTES) & scan::is_all_text(text);
    (1 <= n) & (n <= COMMANDS) & is_outcome(outcome) & text_fits
}

// The bytes of a record besides its number and its text. Every Error has the same, so it is no conversion.
fn fixed_length(outcome: Outcome) -> usize
    ensures { result ≡ fixed_length outcome }
{
    match outcome {
        Outcome::Processed => 42,
        Outcome::Error(_, _) => 50,
    }
}

// How many bytes a record with a text of that size takes.
pub fn record_length(number: CommandNumber, outcome: Outcome, size: usize) -> usize
    requires { size ≤ text_bytes }
    ensures { result ≡ fixed_length outcome + plain_width number.0 + size }
{
    let n = number.0;
    fixed_length(outcome) + decimal::plain_width(u64::from(n)) + size
}

// Whether a record may be written, and why not.
fn may_write(
    number: CommandNumber,
    outcome: Outcome,
    date: u32,
    time: u32,
    text: &[u8],
    room: usize,
) -> Result<(), Reason>
    ensures { refused_by result ≡ write_refusal commands (content number.0 outcome text.now date time) room }
{
    if !in_range(number, outcome, text) {
        return Err(Reason::NotARecord);
    }
    if !moment::is_real(date, time) {
        return Err(Reason::NotReal);
    }
    if room < record_length(number, outcome, text.len()) {
        return Err(Reason::TooLittleRoom);
    }
    Ok(())
}

// Writes ERROR with class and code, and the quote that opens the text.
fn put_error(out: &mut [u8], at: usize, class: u32, code: u32) -> usize
    requires { (class ≤ class_most) × (code ≤ code_most) × (at + 20 ≤ length out.old) }
    ensures { Wrote out.old at (outcome_bytes (Outcome.Error class code)) out.new result }
{
    let after_class = labelled::put_after(out, at, b" ERROR ", 2, class);
    let after_code = labelled::put_after(out, after_class, b" ", 8, code);
    field::put_bytes(out, after_code, b" \"")
}

// Writes the outcome, and the quote that opens the text.
fn put_outcome(out: &mut [u8], at: usize, outcome: Outcome) -> usize
    requires { (is_outcome outcome ≡ true) × (at + length (outcome_bytes outcome) ≤ length out.old) }
    ensures { Wrote out.old at (outcome_bytes outcome) out.new result }
{
    match outcome {
        Outcome::Processed => field::put_bytes(out, at, b" PROCESSED \""),
        Outcome::Error(class, code) => put_error(out, at, class, code),
    }
}

// Writes a permitted record from at on, where there is room for it, and gives the place after it.
pub fn put_record(
    out: &mut [u8],
    at: usize,
    number: CommandNumber,
    outcome: Outcome,
    date: u32,
    time: u32,
    text: &[u8],
) -> usize
    requires { Fits commands (content number.0 outcome text.now date time) at out.old }
    ensures { Wrote out.old at (record_bytes (content number.0 outcome text.now date time)) out.new result }
{
    let n = number.0;
    let after_number = labelled::put_after(
        out,
        at,
        b"COMMAND ",
        decimal::plain_width(u64::from(n)),
        n,
    );
    let start = put_outcome(out, after_number, outcome);
    let end = field::put_bytes(out, start, text);
    let after_moment = moment::put_moment(out, end, b"\" ", date, time);
    field::put_bytes(out, after_moment, b";\r\n")
}

// Writes a record at the start of out. Every other byte of out stays.
pub fn write_record(
    number: CommandNumber,
    outcome: Outcome,
    date: u32,
    time: u32,
    text: &[u8],
    out: &mut [u8],
) -> Result<usize, Refusal>
    ensures { (paper_record_written result ≡ written commands (content number.0 outcome text.now date time) out.old) × (out.new ≡ written_bytes commands (content number.0 outcome text.now date time) out.old) }
{
    may_write(number, outcome, date, time, text, out.len())?;
    Ok(put_record(out, 0, number, outcome, date, time, text))
}
