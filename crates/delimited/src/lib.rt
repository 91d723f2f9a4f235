// Lines of fields: the four delimiters, and what follows a field. Report files and alarm logs share it.
#![tactic(auto)]

ghost use Rattle.std.specs.Prelude.{◌≡◌, ◌+◌, ◌≤◌, length};
ghost use Rattle.field.specs.Part.{Wrote};
ghost use Rattle.delimited.specs.Lines.{separator};
ghost use Rattle.delimited.specs.Separators.{byte_of, IsDelimiterOf, separator_at};

use counts::Reason;
use field::{byte_at, has_at, put_bytes};

// The four delimiters, each by its byte.
#[derive(Clone, Copy, Debug, PartialEq, Eq, Hash)]
pub enum Delimiter {
    Tab = 9,
    Comma = 44,
    Semicolon = 59,
    Bar = 124,
}

impl Delimiter {
    // Its byte.
    pub fn byte(self) -> u8
        ensures { result ≡ byte_of self }
    {
        self as u8
    }
}

impl TryFrom<u8> for Delimiter {
    type Error = Reason;

    ghost try_from_gives = { IsDelimiterOf };

    fn try_from(b: u8) -> Result<Self, Reason> {
        match b {
            b'\t' => Ok(Delimiter::Tab),
            b',' => Ok(Delimiter::Comma),
            b';' => Ok(Delimiter::Semicolon),
            b'|' => Ok(Delimiter::Bar),
            _ => Err(Reason::OutOfRange),
        }
    }
}

// What follows a field: another field, or the end of the line, each with the place after what separates; or neither.
#[derive(Clone, Copy, Debug, PartialEq, Eq, Hash)]
pub enum Separator {
    Field(usize),
    Line(usize),
    Neither,
}

// What follows a field that ends before e.
pub fn separator_at(s: &[u8], e: usize, d: u8) -> Separator
    requires { e ≤ length s.now }
    ensures { result ≡ separator_at d s.now e }
{
    if byte_at(s, e) == d {
        return Separator::Field(e + 1);
    }
    if has_at(s, e, b"\r\n") {
        return Separator::Line(e + 2);
    }
    Separator::Neither
}

// Writes what follows a field, which is the last of its line or not, and gives the place after it.
pub fn put_separator(out: &mut [u8], at: usize, d: u8, last: bool) -> usize
    requires { at + length (separator d last) ≤ length out.old }
    ensures { Wrote out.old at (separator d last) out.new result }
{
    if last {
        return put_bytes(out, at, b"\r\n");
    }
    out[at] = d;
    at + 1
}
