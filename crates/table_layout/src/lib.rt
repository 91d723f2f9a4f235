// The session table in lent bytes: rows of four numbers, each of four bytes, low byte first; how many rows there are, and the table's own. What
// stands in the rows of a session is the crate `slot`'s.
#![tactic(auto)]

ghost use Rattle.std.specs.Prelude.{◌≡◌, ◌<◌, ◌≤◌, length, replicate};
ghost use Rattle.table_layout.specs.Layout.{table_bytes, table_numbers, number, put_number, last_at, mark_at, hand_at, fresh_table, hand_read, hand_number, table_of, put_table};

use counts::{SessionNumber, Ticket};

// The table's own row: MaxSessions, the last ticket, the number last taken up, and the session whose lowest unanswered command is in hand.
#[derive(Clone, Copy, Debug, PartialEq, Eq, Hash)]
pub struct Table {
    pub max: u32,
    pub last: Ticket,
    pub mark: SessionNumber,
    pub hand: Option<SessionNumber>,
}

impl Table {
    // The limits of a table: of MaxSessions, of its programs, of a session's commands, of its tickets.
    pub const SESSIONS: u32 = counts::SESSIONS;

    pub const PROGRAMS: u32 = counts::PROGRAMS;

    pub const COMMANDS: u32 = counts::COMMANDS;

    pub const TICKET_MOST: u32 = counts::TICKET_MOST;

    // The numbers in a row, and the rows of a session: two for its head, and one for each command's answer.
    pub const ROW: usize = 4;

    pub const HEAD_ROWS: usize = 2;

    pub const SESSION_ROWS: usize = Table::HEAD_ROWS + Table::COMMANDS as usize;

    // The bytes of a table, for every MaxSessions.
    pub const SIZE: usize = 4 * Table::ROW * (1 + Table::SESSION_ROWS * Table::SESSIONS as usize);

    // "A fresh table has no session, last ticket 0, nothing in hand, and 0 comes first in the turn."
    pub fn fresh(max: u32) -> Self
        requires { 1 ≤ max }
        ensures { result ≡ fresh_table max }
    {
        Table {
            max,
            last: Ticket(0),
            mark: SessionNumber(max - 1),
            hand: None,
        }
    }

    // All bytes 0: no session, whatever stood there. The loop counts by hand, and is no fill: on its measure rests that clearing ends, and an edit shows it.
    pub fn clear(b: &mut [u8])
        ensures { b.new ≡ replicate (length b.old) 0 }
    {
        let mut i = 0;
        while i < b.len() {
            b[i] = 0;
            i += 1;
        }
    }
}

// The number at a place, counted in numbers.
pub fn number_at(b: &[u8], i: usize) -> u32
    requires { (length b.now ≡ table_bytes) × (i < table_numbers) }
    ensures { result ≡ number b.now i }
{
    field::get32(b, 4 * i)
}

pub fn put_number(b: &mut [u8], i: usize, v: u32)
    requires { (length b.old ≡ table_bytes) × (i < table_numbers) }
    ensures { b.new ≡ put_number b.old i v }
{
    field::put32(b, 4 * i, v)
}

// What is in hand stands as a number: 0 for nothing, else one more than the session's.
fn hand_read(number: u32) -> Option<SessionNumber>
    ensures { result ≡ hand_read number }
{
    number.checked_sub(1).map(SessionNumber)
}

fn hand_number(hand: Option<SessionNumber>) -> u32
    requires { hand_number hand ≤ 4294967295 }
    ensures { result ≡ hand_number hand }
{
    match hand {
        None => 0,
        Some(s) => s.0 + 1,
    }
}

pub fn get_table(b: &[u8]) -> Table
    requires { length b.now ≡ table_bytes }
    ensures { result ≡ table_of b.now }
{
    Table {
        max: number_at(b, 0),
        last: Ticket(number_at(b, 1)),
        mark: SessionNumber(number_at(b, 2)),
        hand: hand_read(number_at(b, 3)),
    }
}

pub fn put_table(b: &mut [u8], t: Table)
    requires { (length b.old ≡ table_bytes) × (hand_number t.hand ≤ 4294967295) }
    ensures { b.new ≡ put_table b.old t }
{
    put_number(b, 0, t.max);
    put_number(b, 1, t.last.0);
    put_number(b, 2, t.mark.0);
    put_number(b, 3, hand_number(t.hand));
}

pub fn put_last(b: &mut [u8], t: Ticket)
    requires { length b.old ≡ table_bytes }
    ensures { b.new ≡ put_number b.old last_at t.0 }
{
    put_number(b, 1, t.0)
}

pub fn put_mark(b: &mut [u8], s: SessionNumber)
    requires { length b.old ≡ table_bytes }
    ensures { b.new ≡ put_number b.old mark_at s.0 }
{
    put_number(b, 2, s.0)
}

pub fn put_hand(b: &mut [u8], hand: Option<SessionNumber>)
    requires { (length b.old ≡ table_bytes) × (hand_number hand ≤ 4294967295) }
    ensures { b.new ≡ put_number b.old hand_at (hand_number hand) }
{
    put_number(b, 3, hand_number(hand))
}
