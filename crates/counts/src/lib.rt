// The three counts, the limits and the refusals of documents 01 and 02. Each limit and each refusal number is said once here, and once in specs/.
#![tactic(auto)]

ghost use Rattle.std.specs.Prelude.{◌≡◌, Some};
ghost use Rattle.counts.specs.Refusals.{number_of, refusal};
ghost use Rattle.counts.specs.Printed.{printed_refusal};

use std::fmt;

// "Session numbers, command numbers and tickets are three counts kept apart."
#[derive(Clone, Copy, Debug, PartialEq, Eq, Hash)]
pub struct SessionNumber(pub u32);

#[derive(Clone, Copy, Debug, PartialEq, Eq, Hash)]
pub struct CommandNumber(pub u32);

#[derive(Clone, Copy, Debug, PartialEq, Eq, Hash)]
pub struct Ticket(pub u32);

// Why a call refuses, by the refusal numbers: each row of them is one reason.
#[derive(Clone, Copy, Debug, PartialEq, Eq, Hash)]
pub enum Reason {
    // job file over 65,535 bytes
    FileTooLong = 1,
    // legal job file with more statements than the lent offset table has places
    TooFewPlaces = 2,
    // a byte that starts no token, a lone !, / or - too
    NoToken = 3,
    // a token that no legal file has after the tokens before it, the byte limit put aside
    Unexpected = 4,
    // right shape of time or date where one may stand, but not a real one; or a time or date number not real
    NotReal = 5,
    // any token after the most statements of a file
    TooManyStatements = 6,
    // record field out of range, or bytes that are not a record; a report: its first line that does not fit; a start decision: a number or string
    // that 01 does not permit
    NotARecord = 7,
    // lent output too short for the whole answer
    TooLittleRoom = 8,
    // every session number taken
    AllTaken = 9,
    // ticket, program or command isn't the one this call may name now
    NotTheOne = 10,
    // a number, offset or file name out of its range
    OutOfRange = 11,
    // last ticket is 4,294,967,295
    NoTicketLeft = 12,
    // lent session table unsound
    Unsound = 13,
    // take up: no unanswered command
    NothingUnanswered = 14,
    // a string that meets the end of the file first
    OpenString = 15,
    // a string that first meets a forbidden byte or its 256th content byte
    BrokenString = 16,
    // an overlong word or misshapen numeric run
    Misshapen = 17,
    // the end of the file, that no legal file has after the tokens before it
    EndOfFile = 18,
    // a number against a string, or an order between strings
    NotComparable = 19,
}

impl Reason {
    // Its refusal number.
    pub fn number(self) -> u32
        ensures { result ≡ number_of self }
    {
        self as u32
    }
}

// A refusal: its reason, and the place for 3 to 6 and 15 to 18 in a job file and for 7 in a report, else 0.
#[derive(Clone, Copy, Debug, PartialEq, Eq, Hash)]
pub struct Refusal {
    pub reason: Reason,
    pub place: usize,
}

// A refusal that has no place: so `?` makes it of a reason alone.
impl From<Reason> for Refusal {
    ghost from_gives = { λ reason refused. refused ≡ refusal reason 0 };

    fn from(reason: Reason) -> Self {
        Refusal { reason, place: 0 }
    }
}

// As the programs print it: the word of the listing program of document 01, the number and the place.
impl fmt::Display for Refusal {
    ghost output = { λ refusal. Some (printed_refusal refusal) };

    fn fmt<W: fmt::Write>(&self, f: &mut fmt::Formatter<W>) -> fmt::Result {
        let number = self.reason.number();
        let place = self.place;
        write!(f, "REFUSED {number} {place}")
    }
}

// The limits.

pub const FILE_BYTES: usize = 65535;

pub const WORD_BYTES: usize = 255;

pub const INDEX_DIGITS: usize = 3;

pub const TEXT_BYTES: usize = 255;

pub const NUMBER_DIGITS: usize = 16;

pub const STATEMENTS: u32 = 200;

pub const COMMANDS: u32 = 200;

pub const SESSIONS: u32 = 32;

pub const PROGRAMS: u32 = 8;

pub const CLASS_MOST: u32 = 99;

pub const CODE_MOST: u32 = 99999999;

pub const TICKET_MOST: u32 = 4294967295;

pub const COLUMNS: usize = 64;
