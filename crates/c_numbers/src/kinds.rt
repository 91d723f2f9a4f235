// Kinds of session file.
ghost use Rattle.std.specs.Prelude.{◌≡◌, Ok, Err, cond, leb};
ghost use Rattle.c_numbers.specs.Kinds.{kind_number, kind_given, number_under};

use crate::{CaseNumber, NoCase};
use counts::SESSIONS;
use session_name::Kind;

pub const FILE_REQUEST: u32 = 0;

pub const FILE_RESPONSE: u32 = 1;

impl From<Kind> for CaseNumber {
    ghost from_gives = { λ kind number. number.0 ≡ kind_number kind };

    fn from(kind: Kind) -> Self {
        CaseNumber(match kind {
            Kind::Request => FILE_REQUEST,
            Kind::Response => FILE_RESPONSE,
        })
    }
}

impl TryFrom<CaseNumber> for Kind {
    type Error = NoCase;

    ghost try_from_gives = { λ number r. r ≡ cond (leb number.0 1) (Ok (kind_given number.0)) (Err (record { 0 = number.0 })) };

    fn try_from(number: CaseNumber) -> Result<Self, NoCase> {
        match number.0 {
            FILE_REQUEST => Ok(Kind::Request),
            FILE_RESPONSE => Ok(Kind::Response),
            unknown => Err(NoCase(unknown)),
        }
    }
}

// The kind that a number stands for, where any number is given: one that is neither is a response here, and `number_under` takes its name away.
pub fn kind_given(kind: u32) -> Kind
    ensures { result ≡ kind_given kind }
{
    if kind == FILE_REQUEST {
        Kind::Request
    } else {
        Kind::Response
    }
}

// Under a kind that is neither, no number is in its range.
pub fn number_under(kind: u32, number: u32) -> u32
    ensures { result ≡ number_under kind number }
{
    if kind <= FILE_RESPONSE {
        number
    } else {
        SESSIONS
    }
}
