// Response records read: at a place of longer bytes, and as the whole of bytes.
// Each field's answer is taken apart with let else, and not by `?`: 01 names that form for the reader of a record.
#![tactic(auto)]

ghost use Rattle.std.specs.Prelude.{◌≡◌, ◌+◌, ◌≤◌, length};
ghost use Rattle.counts.specs.Limits.{commands};
ghost use Rattle.record_read.specs.Reading.{command_field, number_in, outcome_read, rest_read, record_at, record_read, paper_record_read, text_of};

use counts::{COMMANDS, CommandNumber, Reason, Refusal, TEXT_BYTES};
use record::Outcome;

// A record as it was read: its text is the length bytes of the input from start on.
#[derive(Clone, Copy, Debug, PartialEq, Eq, Hash)]
pub struct Record {
    pub number: CommandNumber,
    pub outcome: Outcome,
    pub start: usize,
    pub length: usize,
    pub date: u32,
    pub time: u32,
}

// Reads COMMAND and the number in the width digits after it.
fn number_in(s: &[u8], at: usize, width: usize) -> Option<CommandNumber>
    ensures { command_field result ≡ number_in commands s.now at width }
{
    if !((1 <= width) & (width <= 8)) {
        return None;
    }
    let Some(n) = labelled::field_after(s, at, b"COMMAND ", width) else {
        return None;
    };
    if (1 <= n) & (n <= COMMANDS) & (decimal::plain_width(u64::from(n)) == width) {
        Some(CommandNumber(n))
    } else {
        None
    }
}

// Reads PROCESSED, or ERROR with class and code, and the quote that opens the text.
fn outcome_at(s: &[u8], at: usize) -> Option<(Outcome, usize)>
    requires { at ≤ length s.now + 24 }
    ensures { result ≡ outcome_read s.now at }
{
    if field::has_at(s, at, b" PROCESSED \"") {
        return Some((Outcome::Processed, at + 12));
    }
    let Some(class) = labelled::field_after(s, at, b" ERROR ", 2) else {
        return None;
    };
    let Some(code) = labelled::field_after(s, at + 9, b" ", 8) else {
        return None;
    };
    if field::has_at(s, at + 18, b" \"") {
        Some((Outcome::Error(class, code), at + 20))
    } else {
        None
    }
}

// Reads what follows the text, which runs from start to end.
fn rest_at(
    s: &[u8],
    number: CommandNumber,
    outcome: Outcome,
    start: usize,
    end: usize,
) -> Option<(Record, usize)>
    requires { start ≤ end }
    ensures { result ≡ rest_read s.now number.0 outcome start end }
{
    let length = end - start;
    if TEXT_BYTES < length {
        return None;
    }
    let Some((date, time)) = moment::moment_after(s, end, b"\" ") else {
        return None;
    };
    if !field::has_at(s, end + 19, b";\r\n") {
        return None;
    }
    let record = Record {
        number,
        outcome,
        start,
        length,
        date,
        time,
    };
    Some((record, end + 22))
}

// The record that the bytes from at on begin with, and the place after it.
pub fn record_at(bytes: &[u8], at: usize) -> Option<(Record, usize)>
    requires { at ≤ length bytes.now }
    ensures { result ≡ record_at commands bytes.now at }
{
    let digits = at + 8;
    let width = scan::digits_end(bytes, digits) - digits;
    let Some(number) = number_in(bytes, at, width) else {
        return None;
    };
    let n = number.0;
    let after_number = digits + decimal::plain_width(u64::from(n));
    let Some((outcome, start)) = outcome_at(bytes, after_number) else {
        return None;
    };
    let end = scan::text_end(bytes, start);
    rest_at(bytes, number, outcome, start, end)
}

// Reads the whole of bytes as one record.
pub fn read_record(bytes: &[u8]) -> Result<Record, Refusal>
    ensures { paper_record_read result ≡ record_read commands bytes.now }
{
    let Some((record, end)) = record_at(bytes, 0) else {
        return Err(Reason::NotARecord.into());
    };
    if end == bytes.len() {
        return Ok(record);
    }
    Err(Reason::NotARecord.into())
}

// The text of a record, as a part of its bytes. Where the bytes are no record it is the empty part.
pub fn record_text(bytes: &[u8]) -> &[u8]
    ensures { result.now ≡ text_of bytes.now (record_read commands bytes.now) }
{
    let Ok(record) = read_record(bytes) else {
        return &bytes[0..0];
    };
    let start = record.start;
    let end = start + record.length;
    &bytes[start..end]
}
