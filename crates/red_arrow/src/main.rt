// Last month's fault, replayed on the session table, a line for each step: A's reply lies uncollected while B places a request. B is given another
// number, and so another file on the share, A collects its own reply, and the old ticket is refused from then on.
#![tactic(auto)]

use counts::{CommandNumber, Refusal, SessionNumber, Ticket};
use record::Outcome;
use session_name::{Kind, NAME_BYTES};
use std::{fmt, io, str};
use table_layout::Table;

const MAX_SESSIONS: u32 = 2;

const A: u32 = 1;

const B: u32 = 2;

const DATE: u32 = 20240430;

// A session's request, shown by its file's name on the share.
#[derive(Clone, Copy, Debug, PartialEq, Eq, Hash)]
struct Request(SessionNumber);

impl fmt::Display for Request {
    fn fmt<W: fmt::Write>(&self, f: &mut fmt::Formatter<W>) -> fmt::Result {
        let mut name = [0u8; NAME_BYTES];
        session_name::write_name(self.0, Kind::Request, MAX_SESSIONS, &mut name).map_err(
            |_| fmt::Error,
        )?;
        f.write_str(str::from_utf8(&name).map_err(|_| fmt::Error)?)
    }
}

// A refusal, shown by its number, as none of these has a place.
#[derive(Clone, Copy, Debug, PartialEq, Eq, Hash)]
struct Refused(Refusal);

impl fmt::Display for Refused {
    fn fmt<W: fmt::Write>(&self, f: &mut fmt::Formatter<W>) -> fmt::Result {
        write!(f, "refused with {}", self.0.reason.number())
    }
}

fn make(rt: &impl Print, table: &mut [u8]) -> io::Result<()> {
    print!(rt; "a fresh table of two sessions: ")?;
    match session_table::make(table, MAX_SESSIONS) {
        Ok(()) => println!(rt; "made"),
        Err(refusal) => println!(rt; "{}", Refused(refusal)),
    }
}

fn place(rt: &impl Print, who: &str, table: &mut [u8], program: u32, count: u32) -> io::Result<()> {
    print!(rt; "{who} places a request, commands: {count}: ")?;
    match session_table::place(table, program, count) {
        Ok((session, ticket)) => println!(rt; "{}, ticket {}", Request(session), ticket.0),
        Err(refusal) => println!(rt; "{}", Refused(refusal)),
    }
}

fn take_up(rt: &impl Print, table: &mut [u8]) -> io::Result<()> {
    print!(rt; "the machine takes up: ")?;
    match session_table::take_up(table) {
        Ok((session, ticket, command)) => {
            println!(rt;
                "{}, ticket {}, command {}",
                Request(session),
                ticket.0,
                command.0
            )
        }
        Err(refusal) => println!(rt; "{}", Refused(refusal)),
    }
}

fn answer(
    rt: &impl Print,
    table: &mut [u8],
    ticket: u32,
    command: u32,
    outcome: Outcome,
    time: u32,
) -> io::Result<()> {
    print!(rt; "the machine answers command {command} under ticket {ticket}: ")?;
    match session_table::answer(
        table,
        Ticket(ticket),
        CommandNumber(command),
        outcome,
        DATE,
        time,
    ) {
        Ok(()) => println!(rt; "accepted"),
        Err(refusal) => println!(rt; "{}", Refused(refusal)),
    }
}

fn collect(
    rt: &impl Print,
    who: &str,
    table: &mut [u8],
    program: u32,
    ticket: u32,
) -> io::Result<()> {
    print!(rt; "{who} collects under ticket {ticket}: ")?;
    let mut reply = [0u8; 4096];
    match session_table::collect(table, program, Ticket(ticket), &mut reply) {
        Ok(n) => {
            println!(rt; "{n} bytes")?;
            rt.write_all(reply.get(..n).unwrap_or_default())
        }
        Err(refusal) => println!(rt; "{}", Refused(refusal)),
    }
}

// All memory is fixed: the program takes none from the heap, so that no further C function is trusted.
fn main(rt: HostRuntime) -> io::Result<()> {
    let mut table = [0u8; Table::SIZE];
    make(&rt, &mut table)?;
    place(&rt, "A", &mut table, A, 2)?;
    take_up(&rt, &mut table)?;
    answer(&rt, &mut table, 1, 1, Outcome::Processed, 101500)?;
    take_up(&rt, &mut table)?;
    answer(&rt, &mut table, 1, 2, Outcome::Error(6, 16), 101532)?;
    // A's request file is gone, and its reply lies uncollected. This is where B was given A's number.
    place(&rt, "B", &mut table, B, 1)?;
    take_up(&rt, &mut table)?;
    answer(&rt, &mut table, 2, 1, Outcome::Processed, 101601)?;
    collect(&rt, "A", &mut table, A, 1)?;
    collect(&rt, "A", &mut table, A, 1)?;
    collect(&rt, "B", &mut table, B, 2)?;
    // Only now is A's number open again; the tickets go on.
    place(&rt, "B", &mut table, B, 1)
}
