// Report files: a line of names, and lines of as many values. A report is judged in one pass and its cells are filled in a second, so that a
// refusal changes nothing that is lent.
#![tactic(auto)]

ghost use Rattle.std.specs.Prelude.{◌≡◌, true, suc, ◌≤◌, ◌<◌, length, get_or};
ghost use Rattle.field.specs.Part.{put};
ghost use Rattle.delimited.specs.Separators.{byte_of};
ghost use Rattle.report.specs.Reading.{is_value, name_at, figures_at, string_end, value_at, field_at, cell_at, line_at, lines_from, judged, cells_from, read_report};
ghost use Rattle.report.specs.Answer.{sized, filled, paper_report_read};

use counts::{COLUMNS, NUMBER_DIGITS, Reason, Refusal, TEXT_BYTES};
use delimited::{Delimiter, Separator, separator_at};
use field::byte_at;
use scan::{digits_end, is_letter, text_end};
use word::{is_name, word_at};

// The name at i: the place after it.
fn name_at(s: &[u8], i: usize) -> Option<usize>
    ensures { result ≡ name_at s.now i }
{
    if !is_letter(*s.get(i)?) {
        return None;
    }
    let (word, end) = word_at(s, i)?;
    is_name(word).then_some(end)
}

// The digits from d on, with a point between two of them where one stands, at most 16: the place after them.
fn figures_at(s: &[u8], d: usize) -> Option<usize>
    requires { d ≤ length s.now }
    ensures { result ≡ figures_at s.now d }
{
    let whole = digits_end(s, d);
    if whole == d {
        return None;
    }
    if byte_at(s, whole) == b'.' {
        let end = digits_end(s, whole + 1);
        ((whole + 1 < end) & (end <= d + NUMBER_DIGITS + 1)).then_some(end)
    } else {
        (whole <= d + NUMBER_DIGITS).then_some(whole)
    }
}

// The string that opens at i: the place after it.
fn string_at(s: &[u8], i: usize) -> Option<usize>
    requires { (i < length s.now) × (get_or s.now i 0 ≡ 34) }
    ensures { result ≡ string_end s.now i }
{
    let end = text_end(s, i + 1);
    ((end - (i + 1) <= TEXT_BYTES) & (byte_at(s, end) == b'"')).then_some(end + 1)
}

// The value at i, a string or a number with or without a sign: the place after it.
fn value_at(s: &[u8], i: usize) -> Option<usize>
    ensures { result ≡ value_at s.now i }
{
    match *s.get(i)? {
        b'"' => string_at(s, i),
        b'-' => figures_at(s, i + 1),
        _ => figures_at(s, i),
    }
}

// What stands in a line: names in the first, values in those after it.
#[derive(Clone, Copy, Debug, PartialEq, Eq, Hash)]
pub enum Field {
    Name,
    Value,
}

impl Field {
    // The one at i: the place after it.
    pub fn end_at(self, s: &[u8], i: usize) -> Option<usize>
        ensures { result ≡ field_at (is_value self) s.now i }
    {
        match self {
            Field::Name => name_at(s, i),
            Field::Value => value_at(s, i),
        }
    }
}

// The name or the value at i: the place after it.
fn cell_at(s: &[u8], i: usize) -> Option<usize>
    ensures { result ≡ cell_at s.now i }
{
    if is_letter(byte_at(s, i)) {
        name_at(s, i)
    } else {
        value_at(s, i)
    }
}

// The bytes of a file, with what separates its fields.
#[derive(Clone, Copy, Debug, PartialEq, Eq, Hash)]
struct File<'a> {
    bytes: &'a [u8],
    delimiter: Delimiter,
}

// In its loops a turn begins where the field or the line before it ended: no range and no iterator of the library gives these places.
impl File<'_> {
    // The line that begins at i: how many fields it has, and the place after it.
    fn line_at(&self, i: usize, field: Field) -> Option<(usize, usize)>
        ensures { result ≡ line_at (is_value field) (byte_of self.now.delimiter) self.now.bytes.now i }
    {
        let mut at = i;
        let mut k = 0;
        while at < self.bytes.len() {
            let end = field.end_at(self.bytes, at)?;
            k += 1;
            match separator_at(self.bytes, end, self.delimiter.byte()) {
                Separator::Field(next) => at = next,
                Separator::Line(next) => return Some((k, next)),
                Separator::Neither => return None,
            }
        }
        None
    }

    // The lines of values from the place i on, of as many values as there are columns: the columns and how many lines there are, or the start of
    // the first line that does not fit.
    fn lines_from(&self, i: usize, columns: usize) -> Result<(usize, usize), usize>
        requires { i ≤ length self.now.bytes.now }
        ensures { result ≡ lines_from (suc (length self.now.bytes.now)) (byte_of self.now.delimiter) self.now.bytes.now columns i 0 }
    {
        let mut at = i;
        let mut k = 0;
        while at < self.bytes.len() {
            match self.line_at(at, Field::Value) {
                Some((n, next)) if n == columns => {
                    k += 1;
                    at = next;
                }
                _ => return Err(at),
            }
        }
        Ok((columns, k))
    }

    // The whole report: its columns and its lines of values, or the start of the first line that does not fit.
    fn judge(&self) -> Result<(usize, usize), usize>
        ensures { result ≡ judged (byte_of self.now.delimiter) self.now.bytes.now }
    {
        match self.line_at(0, Field::Name) {
            Some((columns, next)) if columns <= COLUMNS => self.lines_from(next, columns),
            _ => Err(0),
        }
    }

    // Writes the place and the length of each field to the front of the cells. They are numbers in a row, since C lends them so.
    fn fill(&self, cells: &mut [usize])
        requires { length (cells_from (length self.now.bytes.now) (byte_of self.now.delimiter) self.now.bytes.now 0) ≤ length cells.old }
        ensures { cells.new ≡ put cells.old 0 (cells_from (length self.now.bytes.now) (byte_of self.now.delimiter) self.now.bytes.now 0) }
    {
        let mut at = 0;
        let mut k = 0;
        while at < self.bytes.len() {
            let Some(end) = cell_at(self.bytes, at) else {
                return;
            };
            cells[k] = at;
            cells[k + 1] = end - at;
            k += 2;
            match separator_at(self.bytes, end, self.delimiter.byte()) {
                Separator::Field(next) | Separator::Line(next) => at = next,
                Separator::Neither => return,
            }
        }
    }
}

// Reads a report: the place and the length in the file of each name and each value, in order, go to the front of the lent cells. It gives how many
// columns and lines of values there are.
pub fn read_report(
    file: &[u8],
    delimiter: u8,
    cells: &mut [usize],
) -> Result<(usize, usize), Refusal>
    ensures { (paper_report_read result ≡ sized (read_report delimiter file.now (length cells.old))) × (cells.new ≡ filled (read_report delimiter file.now (length cells.old)) cells.old) }
{
    let file = File {
        bytes: file,
        delimiter: Delimiter::try_from(delimiter)?,
    };
    match file.judge() {
        Ok((columns, lines)) => {
            if cells.len() < 2 * (columns * (lines + 1)) {
                return Err(Reason::TooLittleRoom.into());
            }
            file.fill(cells);
            Ok((columns, lines))
        }
        Err(place) => Err(Refusal {
            reason: Reason::NotARecord,
            place,
        }),
    }
}
