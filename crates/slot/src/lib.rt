// The rows of one session, in two rows for its head and one for each answer. Every question of a head is asked here, of the head by value:
// whether its number is open, whether the session waits or is closed, whom it is ready for, its lowest unanswered command. Nobody above looks
// at an offset, and nobody tests a field of a head.
#![tactic(auto)]

ghost use Rattle.std.specs.Prelude.{◌≡◌, true, ◌+◌, ◌<◌, ◌≤◌, length};
ghost use Rattle.counts.specs.Limits.{commands, sessions};
ghost use Rattle.sessions.specs.Table.{is_open, is_waiting, is_closed, is_ready, lowest, names};
ghost use Rattle.table_layout.specs.Layout.{table_bytes, table_numbers, slot_numbers, head_at, put_number};
ghost use Rattle.slot.specs.Fields.{is_taken_at, answered_at, entry_at, head_of, outcome_of, entry_of, Tells};
ghost use Rattle.slot.specs.Stored.{new_head, put_head, kind_of, code_of, put_entry, with_entry, taken_out, put_slot};

use counts::{CommandNumber, SessionNumber, Ticket};
use record::Outcome;
use sessions::Answer;
use table_layout::{Table, number_at, put_number};

// The head of a session. Where the number is not taken it is open, and the others say nothing; their bytes stay as they were. It is no Option: every
// question of a head is asked of an open number too, so each caller would open the Option for each question.
#[derive(Clone, Copy, Debug, PartialEq, Eq, Hash)]
pub struct Head {
    pub taken: bool,
    pub program: u32,
    pub count: u32,
    pub answered: u32,
    pub ticket: Ticket,
}

impl Head {
    // A session that has just been placed.
    pub fn placed(program: u32, count: u32, ticket: Ticket) -> Self
        ensures { result ≡ new_head program count ticket }
    {
        Head {
            taken: true,
            program,
            count,
            answered: 0,
            ticket,
        }
    }

    // "A number is taken from its placing until its collection."
    pub fn is_open(self) -> bool
        ensures { Tells self is_open result }
    {
        !self.taken
    }

    // "a session with an unanswered command"
    pub fn is_waiting(self) -> bool
        ensures { Tells self is_waiting result }
    {
        self.taken & (self.answered < self.count)
    }

    // "The last command's answer closes the session."
    pub fn is_closed(self) -> bool
        ensures { Tells self is_closed result }
    {
        self.taken & (self.answered == self.count)
    }

    // "a closed session of that program and ticket"
    pub fn is_ready(self, program: u32, ticket: Ticket) -> bool
        ensures { Tells self (is_ready program ticket.0) result }
    {
        let closed = self.is_closed();
        (self.program == program) & (self.ticket.0 == ticket.0) & closed
    }

    // Its ticket, 0 where the number is open.
    pub fn ticket_held(self) -> Ticket
        ensures { Tells self (λ x. x.ticket) result.0 }
    {
        if self.taken { self.ticket } else { Ticket(0) }
    }

    // The lowest unanswered command.
    pub fn lowest(self) -> CommandNumber
        requires { (self.taken ≡ true) × (self.answered < commands) }
        ensures { Tells self lowest result.0 }
    {
        CommandNumber(self.answered + 1)
    }

    // Whether ticket and command are those of its lowest unanswered command.
    pub fn names(self, ticket: Ticket, command: CommandNumber) -> bool
        requires { (self.taken ≡ true) × (self.answered < commands) }
        ensures { Tells self (λ x. names x ticket.0 command.0) result }
    {
        let low = self.lowest();
        (self.ticket.0 == ticket.0) & (low.0 == command.0)
    }
}

fn head_at(s: SessionNumber) -> usize
    requires { s.0 < sessions }
    ensures { (result ≡ head_at s.0) × (result + slot_numbers ≤ table_numbers) }
{
    Table::ROW * (1 + Table::SESSION_ROWS * (s.0 as usize))
}

fn entry_at(s: SessionNumber, c: CommandNumber) -> usize
    requires { (s.0 < sessions) × (1 ≤ c.0) × (c.0 ≤ commands) }
    ensures { (result ≡ entry_at s.0 c.0) × (result + 4 ≤ table_numbers) }
{
    head_at(s) + Table::ROW * (Table::HEAD_ROWS - 1 + c.0 as usize)
}

pub fn get_head(b: &[u8], s: SessionNumber) -> Head
    requires { (length b.now ≡ table_bytes) × (s.0 < sessions) }
    ensures { result ≡ head_of b.now s.0 }
{
    let at = head_at(s);
    Head {
        taken: number_at(b, at) != 0,
        program: number_at(b, at + 1),
        count: number_at(b, at + 2),
        answered: number_at(b, at + 3),
        ticket: Ticket(number_at(b, at + 4)),
    }
}

pub fn put_head(b: &mut [u8], s: SessionNumber, h: Head)
    requires { (length b.old ≡ table_bytes) × (s.0 < sessions) }
    ensures { b.new ≡ put_head b.old s.0 h }
{
    let at = head_at(s);
    put_number(b, at, u32::from(h.taken));
    put_number(b, at + 1, h.program);
    put_number(b, at + 2, h.count);
    put_number(b, at + 3, h.answered);
    put_number(b, at + 4, h.ticket.0);
}

// The number is open: its other bytes stay, and say nothing.
pub fn open_number(b: &mut [u8], s: SessionNumber)
    requires { (length b.old ≡ table_bytes) × (s.0 < sessions) }
    ensures { b.new ≡ put_number b.old (is_taken_at s.0) 0 }
{
    let at = head_at(s);
    put_number(b, at, 0)
}

fn put_answered(b: &mut [u8], s: SessionNumber, answered: u32)
    requires { (length b.old ≡ table_bytes) × (s.0 < sessions) }
    ensures { b.new ≡ put_number b.old (answered_at s.0) answered }
{
    let at = head_at(s);
    put_number(b, at + 3, answered)
}

// How an outcome stands as two numbers is said by the layout alone, so it is no conversion of the type itself.
fn outcome_of(kind: u32, code: u32) -> Outcome
    ensures { result ≡ outcome_of kind code }
{
    match kind.checked_sub(1) {
        None => Outcome::Processed,
        Some(class) => Outcome::Error(class, code),
    }
}

// Its kind and its code.
fn numbers_of(o: Outcome) -> (u32, u32)
    requires { kind_of o ≤ 4294967295 }
    ensures { (result.0 ≡ kind_of o) × (result.1 ≡ code_of o) }
{
    match o {
        Outcome::Processed => (0, 0),
        Outcome::Error(class, code) => (class + 1, code),
    }
}

// The answer to a command.
pub fn get_entry(b: &[u8], s: SessionNumber, c: CommandNumber) -> Answer
    requires { (length b.now ≡ table_bytes) × ((s.0 < sessions) × (1 ≤ c.0) × (c.0 ≤ commands)) }
    ensures { result ≡ entry_of b.now s.0 c.0 }
{
    let at = entry_at(s, c);
    let kind = number_at(b, at);
    let code = number_at(b, at + 1);
    Answer {
        outcome: outcome_of(kind, code),
        date: number_at(b, at + 2),
        time: number_at(b, at + 3),
    }
}

fn put_entry(b: &mut [u8], s: SessionNumber, c: CommandNumber, a: Answer)
    requires { (length b.old ≡ table_bytes) × ((s.0 < sessions) × (1 ≤ c.0) × (c.0 ≤ commands)) × (kind_of a.outcome ≤ 4294967295) }
    ensures { b.new ≡ put_entry b.old s.0 c.0 a }
{
    let at = entry_at(s, c);
    let (kind, code) = numbers_of(a.outcome);
    put_number(b, at, kind);
    put_number(b, at + 1, code);
    put_number(b, at + 2, a.date);
    put_number(b, at + 3, a.time);
}

// A slot taken out to store an answer in: the head, and the answer that is stored.
#[derive(Clone, Copy, Debug, PartialEq, Eq, Hash)]
pub struct Slot {
    pub head: Head,
    pub entry: Answer,
}

// The core, by value.
fn with_answer(slot: Slot, a: Answer) -> Slot
    requires { slot.head.answered < commands }
    ensures { result ≡ with_entry slot a }
{
    let head = Head {
        answered: slot.head.answered + 1,
        ..slot.head
    };
    Slot { head, entry: a }
}

// One slot lent mutably: the answer is stored in it.
fn store_answer(slot: &mut Slot, a: Answer)
    requires { slot.old.head.answered < commands }
    ensures { slot.new ≡ with_entry slot.old a }
{
    *slot = with_answer(*slot, a);
}

// Nothing is stored yet, and no entry is read: what stands in the bytes is overwritten.
fn get_slot(b: &[u8], s: SessionNumber) -> Slot
    requires { (length b.now ≡ table_bytes) × (s.0 < sessions) }
    ensures { result ≡ taken_out b.now s.0 }
{
    Slot {
        head: get_head(b, s),
        entry: Answer {
            outcome: Outcome::Processed,
            date: 0,
            time: 0,
        },
    }
}

fn put_slot(b: &mut [u8], s: SessionNumber, slot: Slot)
    requires { (length b.old ≡ table_bytes) × (s.0 < sessions) × (1 ≤ slot.head.answered) × (slot.head.answered ≤ commands) × (kind_of slot.entry.outcome ≤ 4294967295) }
    ensures { b.new ≡ put_slot b.old s.0 slot }
{
    let n = slot.head.answered;
    let a = slot.entry;
    put_entry(b, s, CommandNumber(n), a);
    put_answered(b, s, n);
}

// The slot is taken out, the answer stored in it, and what changed is put back.
pub fn answer_slot(b: &mut [u8], s: SessionNumber, a: Answer)
    requires { (length b.old ≡ table_bytes) × (s.0 < sessions) × ((head_of b.old s.0).answered < commands) × (kind_of a.outcome ≤ 4294967295) }
    ensures { b.new ≡ put_slot b.old s.0 (with_entry (taken_out b.old s.0) a) }
{
    let mut slot = get_slot(b, s);
    store_answer(&mut slot, a);
    put_slot(b, s, slot);
}
