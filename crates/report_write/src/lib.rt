// Report files written: names and values are given as parts of a source, by place and length, in order, as the reader tells them.
#![tactic(auto)]

ghost use Rattle.std.specs.Prelude.{◌≡◌, true, false, cond, ◌++◌, ◌+◌, ◌≤◌, eqb, leb, length};
ghost use Rattle.counts.specs.Result.{counted, refused_by};
ghost use Rattle.field.specs.Part.{part, Wrote};
ghost use Rattle.delimited.specs.Lines.{separator};
ghost use Rattle.delimited.specs.Separators.{byte_of};
ghost use Rattle.report.specs.Reading.{is_value};
ghost use Rattle.report_write.specs.Writing.{InRange, is_field, is_cell, left_after, are_lines, text_from, write_refusal, written, filled, paper_report_written};

use counts::{COLUMNS, Reason, Refusal};
use delimited::{Delimiter, put_separator};
use field::put_bytes;
use report::Field;

// Whether the bytes are one name, or one value.
fn is_field(x: &[u8], field: Field) -> bool
    ensures { result ≡ is_field (is_value field) x.now }
{
    field.end_at(x, 0) == Some(x.len())
}

// Whether the n bytes of the source from p on are one.
fn is_cell(source: &[u8], p: usize, n: usize, field: Field) -> bool
    ensures { result ≡ is_cell (is_value field) source.now p n }
{
    p <= source.len() && n <= source.len() - p && is_field(&source[p..p + n], field)
}

// How many bytes follow a field, by how many fields of its line are left.
fn separator_length(left: usize) -> usize
    ensures { result ≡ cond (eqb left 1) 2 1 }
{
    if left == 1 { 2 } else { 1 }
}

// What a report is written from: a cell for each name and each value, line by line, which is its place and its length in the source; how many
// cells a line has; what separates them. The cells are numbers in a row, since C lends them so.
#[derive(Clone, Copy, Debug, PartialEq, Eq, Hash)]
struct Draft<'a> {
    source: &'a [u8],
    cells: &'a [usize],
    columns: usize,
    delimiter: Delimiter,
    ghost in_range: { InRange columns },
}

impl Draft<'_> {
    // How many fields of a line are left after one of those left.
    fn left_after(&self, left: usize) -> usize
        requires { 1 ≤ left }
        ensures { result ≡ left_after self.now.columns left }
    {
        if left == 1 { self.columns } else { left - 1 }
    }

    // Whether the cells are a line of names and whole lines of values.
    fn are_lines(&self) -> bool
        ensures { result ≡ are_lines self.now.source.now self.now.columns false self.now.columns self.now.cells.now }
    {
        let mut rest = self.cells;
        let mut left = self.columns;
        let mut field = Field::Name;
        while let [place, length, after @ ..] = rest {
            if !is_cell(self.source, *place, *length, field) {
                return false;
            }
            if left == 1 {
                field = Field::Value;
            }
            left = self.left_after(left);
            rest = after;
        }
        rest.is_empty() & (field == Field::Value) & (left == self.columns)
    }

    // Whether there is room for the text of the cells.
    fn has_room(&self, room: usize) -> bool
        requires { are_lines self.now.source.now self.now.columns false self.now.columns self.now.cells.now ≡ true }
        ensures { result ≡ leb (length (text_from (byte_of self.now.delimiter) self.now.source.now self.now.columns self.now.columns self.now.cells.now)) room }
    {
        let mut rest = self.cells;
        let mut left = self.columns;
        let mut free = room;
        while let [_, length, after @ ..] = rest {
            let needed = *length + separator_length(left);
            if free < needed {
                return false;
            }
            free -= needed;
            left = self.left_after(left);
            rest = after;
        }
        true
    }

    // Why the cells and the room for their text are refused, if they are.
    fn check(&self, room: usize) -> Result<(), Reason>
        ensures { refused_by result ≡ write_refusal self.now.source.now self.now.cells.now self.now.columns (byte_of self.now.delimiter) room }
    {
        if !self.are_lines() {
            return Err(Reason::NotARecord);
        }
        if !self.has_room(room) {
            return Err(Reason::TooLittleRoom);
        }
        Ok(())
    }

    // Writes one cell and what follows it, and gives the place after that.
    fn put_cell(&self, out: &mut [u8], at: usize, p: usize, n: usize, last: bool) -> usize
        requires { (p + n ≤ length self.now.source.now) × (at + (n + length (separator (byte_of self.now.delimiter) last)) ≤ length out.old) }
        ensures { Wrote out.old at (part self.now.source.now p n ++ separator (byte_of self.now.delimiter) last) out.new result }
    {
        let end = put_bytes(out, at, &self.source[p..p + n]);
        put_separator(out, end, self.delimiter.byte(), last)
    }

    // Writes the text of the cells from the start of out on, and gives the place after it.
    fn put_cells(&self, out: &mut [u8]) -> usize
        requires { (are_lines self.now.source.now self.now.columns false self.now.columns self.now.cells.now ≡ true) × (length (text_from (byte_of self.now.delimiter) self.now.source.now self.now.columns self.now.columns self.now.cells.now) ≤ length out.old) }
        ensures { Wrote out.old 0 (text_from (byte_of self.now.delimiter) self.now.source.now self.now.columns self.now.columns self.now.cells.now) out.new result }
    {
        let mut rest = self.cells;
        let mut left = self.columns;
        let mut at = 0;
        while let [place, length, after @ ..] = rest {
            at = self.put_cell(out, at, *place, *length, left == 1);
            left = self.left_after(left);
            rest = after;
        }
        at
    }
}

// Writes the report of the cells at the start of out, and gives how many bytes it wrote. Every other byte of out stays.
pub fn write_report(
    source: &[u8],
    cells: &[usize],
    columns: usize,
    delimiter: u8,
    out: &mut [u8],
) -> Result<usize, Refusal>
    ensures { (paper_report_written result ≡ counted (written source.now cells.now columns delimiter (length out.old))) × (out.new ≡ filled (written source.now cells.now columns delimiter (length out.old)) out.old) }
{
    let delimiter = Delimiter::try_from(delimiter)?;
    if columns < 1 || COLUMNS < columns {
        return Err(Reason::OutOfRange.into());
    }
    let draft = Draft {
        source,
        cells,
        columns,
        delimiter,
    };
    draft.check(out.len())?;
    Ok(draft.put_cells(out))
}
