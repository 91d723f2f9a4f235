// The names of session files, SESSnnnn.REQ and SESSnnnn.RSP: read and written.
#![tactic(auto)]

ghost use Rattle.std.specs.Prelude.{◌≡◌, ◌+◌, ◌≤◌, ◌<◌, length};
ghost use Rattle.counts.specs.Result.{refused_by};
ghost use Rattle.field.specs.Part.{Wrote};
ghost use Rattle.session_name.specs.Name.{ending, name_of, is_max, write_refusal, kind_read, number_read, is_framed, name_read, written, written_bytes, paper_name_read, paper_name_written};

use counts::{Reason, Refusal, SESSIONS, SessionNumber};

// A request that a program puts on the share, or the response that the machine puts there.
#[derive(Clone, Copy, Debug, PartialEq, Eq, Hash)]
pub enum Kind {
    Request,
    Response,
}

pub const NAME_BYTES: usize = 12;

fn is_max(max: u32) -> bool
    ensures { result ≡ is_max max }
{
    (1 <= max) & (max <= SESSIONS)
}

// The name's last four bytes, once its number is read.
fn kind_read(name: &[u8], number: SessionNumber) -> Result<(SessionNumber, Kind), Refusal>
    ensures { paper_name_read result ≡ kind_read number.0 name.now }
{
    if field::has_at(name, 8, b".REQ") {
        return Ok((number, Kind::Request));
    }
    if field::has_at(name, 8, b".RSP") {
        return Ok((number, Kind::Response));
    }
    Err(Reason::OutOfRange.into())
}

// Whether SESS begins 12 bytes, and MaxSessions is in its range.
fn is_framed(name: &[u8], max: u32) -> bool
    ensures { result ≡ is_framed max name.now }
{
    is_max(max) & (name.len() == NAME_BYTES) & field::has_at(name, 0, b"SESS")
}

// The rest, once its four digits are read.
fn number_read(name: &[u8], max: u32, digits: Option<u64>) -> Result<(SessionNumber, Kind), Refusal>
    ensures { paper_name_read result ≡ number_read max name.now digits }
{
    match digits {
        Some(n) if n < u64::from(max) => kind_read(name, SessionNumber(n as u32)),
        _ => Err(Reason::OutOfRange.into()),
    }
}

// Reads the whole of name as a file name of a table with that MaxSessions.
pub fn read_name(name: &[u8], max: u32) -> Result<(SessionNumber, Kind), Refusal>
    ensures { paper_name_read result ≡ name_read max name.now }
{
    if is_framed(name, max) {
        number_read(name, max, decimal::digits_at(name, 4, 4))
    } else {
        Err(Reason::OutOfRange.into())
    }
}

// Whether a name may be written, and why not.
fn may_write(max: u32, number: SessionNumber, room: usize) -> Result<(), Reason>
    ensures { refused_by result ≡ write_refusal max number.0 room }
{
    if !is_max(max) | (max <= number.0) {
        return Err(Reason::OutOfRange);
    }
    if room < NAME_BYTES {
        return Err(Reason::TooLittleRoom);
    }
    Ok(())
}

fn put_ending(out: &mut [u8], at: usize, kind: Kind) -> usize
    requires { at + 4 ≤ length out.old }
    ensures { Wrote out.old at (ending kind) out.new result }
{
    match kind {
        Kind::Request => field::put_bytes(out, at, b".REQ"),
        Kind::Response => field::put_bytes(out, at, b".RSP"),
    }
}

fn put_name(out: &mut [u8], number: SessionNumber, kind: Kind) -> usize
    requires { (12 ≤ length out.old) × (number.0 < 10000) }
    ensures { Wrote out.old 0 (name_of number.0 kind) out.new result }
{
    let n = number.0;
    let digits = field::put_bytes(out, 0, b"SESS");
    let last = decimal::put_digits(out, digits, 4, n as u64);
    put_ending(out, last, kind)
}

// Writes the name of a session's file at the start of out. Every other byte of out stays.
pub fn write_name(
    number: SessionNumber,
    kind: Kind,
    max: u32,
    out: &mut [u8],
) -> Result<usize, Refusal>
    ensures { (paper_name_written result ≡ written max number.0 out.old) × (out.new ≡ written_bytes max number.0 kind out.old) }
{
    may_write(max, number, out.len())?;
    Ok(put_name(out, number, kind))
}
