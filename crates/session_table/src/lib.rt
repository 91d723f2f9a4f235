// The session table: make, place, take up, answer, collect. Making and answering each ask first whether they may, in document 01's order, and
// then do what the call does. The others are one way through, so that they search the sessions once.
#![tactic(auto)]

ghost use Rattle.std.specs.Prelude.{◌≡◌, ◌&&◌, true, false, ◌+◌, ◌<◌, MatchOption, MatchResult};
ghost use Rattle.counts.specs.Refusals.{number_of};
ghost use Rattle.counts.specs.Limits.{commands, programs, sessions};
ghost use Rattle.counts.specs.Result.{done, refused_by};
ghost use Rattle.sessions.specs.Table.{within, is_waiting, given_from};
ghost use Rattle.slot.specs.Fields.{slot_of};
ghost use Rattle.table_layout.specs.Layout.{number, hand_at};
ghost use Rattle.table_sound.specs.Bytes.{hand_of, abs, sound_bytes};
ghost use Rattle.session_table.specs.Paper.{paper_made, paper_placed, paper_taken_up, paper_answered};
ghost use Rattle.session_table.specs.Calls.{names_hand, IsNamed, verdict, only, making, made_bytes, placing, placed_bytes, taking_up, taken_bytes, answering, answered_bytes};
ghost use Rattle.session_table.specs.Collect.{Collects};

use counts::{CommandNumber, Reason, Refusal, SessionNumber, Ticket};
use record::Outcome;
use sessions::Answer;
use slot::{Head, answer_slot, get_head, open_number, put_head};
use table_layout::{Table, get_table, put_hand, put_last, put_mark, put_table};
use table_reply::{reply_length, write_reply};
use table_search::{lowest_open, next_waiting, ready_session};
use table_sound::is_sound;

fn is_max(max: u32) -> bool
    ensures { result ≡ within 1 max sessions }
{
    (1 <= max) & (max <= Table::SESSIONS)
}

fn is_program(program: u32) -> bool
    ensures { result ≡ within 1 program programs }
{
    (1 <= program) & (program <= Table::PROGRAMS)
}

// Whether a table may be made of lent memory, and why not.
fn may_make(b: &[u8], max: u32) -> Result<(), Reason>
    ensures { verdict (refused_by result) ≡ only (making b.now max) }
{
    if !is_max(max) {
        return Err(Reason::OutOfRange);
    }
    if b.len() != Table::SIZE {
        return Err(Reason::Unsound);
    }
    Ok(())
}

// Makes a fresh table of lent memory, whatever stood there.
pub fn make(b: &mut [u8], max: u32) -> Result<(), Refusal>
    ensures { (paper_made result ≡ making b.old max) × (b.new ≡ made_bytes b.old max) }
{
    may_make(b, max)?;
    Table::clear(b);
    put_table(b, Table::fresh(max));
    Ok(())
}

fn is_placeable(program: u32, count: u32) -> bool
    ensures { result ≡ (within 1 program programs && within 1 count commands) }
{
    is_program(program) & ((1 <= count) & (count <= Table::COMMANDS))
}

// The lowest open number is taken, or none is open, or no ticket is left.
fn place_lowest(b: &mut [u8], program: u32, count: u32) -> Result<(SessionNumber, Ticket), Refusal>
    requires { (sound_bytes b.old ≡ true) × ((within 1 program programs && within 1 count commands) ≡ true) }
    ensures { (paper_placed result ≡ placing b.old program count) × (b.new ≡ placed_bytes b.old program count) }
{
    let s = lowest_open(b).ok_or(Reason::AllTaken)?;
    let last = get_table(b).last;
    if Table::TICKET_MOST <= last.0 {
        return Err(Reason::NoTicketLeft.into());
    }
    let ticket = Ticket(last.0 + 1);
    put_head(b, s, Head::placed(program, count, ticket));
    put_last(b, ticket);
    Ok((s, ticket))
}

// Takes the lowest open number for a program's commands.
pub fn place(b: &mut [u8], program: u32, count: u32) -> Result<(SessionNumber, Ticket), Refusal>
    ensures { (paper_placed result ≡ placing b.old program count) × (b.new ≡ placed_bytes b.old program count) }
{
    if !is_sound(b) {
        return Err(Reason::Unsound.into());
    }
    if !is_placeable(program, count) {
        return Err(Reason::OutOfRange.into());
    }
    place_lowest(b, program, count)
}

// The session's lowest unanswered command.
fn given(b: &[u8], s: SessionNumber) -> (SessionNumber, Ticket, CommandNumber)
    requires { (sound_bytes b.now ≡ true) × (is_waiting (slot_of b.now s.0) ≡ true) }
    ensures { done (result.0.0, result.1.0, result.2.0) ≡ given_from (abs b.now) s.0 }
{
    let head = get_head(b, s);
    (s, head.ticket, head.lowest())
}

// The session is next in turn: its command is in hand now.
fn take_up_at(b: &mut [u8], s: SessionNumber) -> (SessionNumber, Ticket, CommandNumber)
    requires { (only (taking_up b.old) ≡ done tt) × (number b.old hand_at ≡ 0) × (is_waiting (slot_of b.old s.0) ≡ true) × (given_from (abs b.old) s.0 ≡ taking_up b.old) }
    ensures { (done (result.0.0, result.1.0, result.2.0) ≡ taking_up b.old) × (b.new ≡ taken_bytes b.old) }
{
    let command = given(b, s);
    put_mark(b, s);
    put_hand(b, Some(s));
    command
}

// Nothing is in hand.
fn take_up_next(b: &mut [u8]) -> Result<(SessionNumber, Ticket, CommandNumber), Refusal>
    requires { (sound_bytes b.old ≡ true) × (number b.old hand_at ≡ 0) }
    ensures { (paper_taken_up result ≡ taking_up b.old) × (b.new ≡ taken_bytes b.old) }
{
    let s = next_waiting(b).ok_or(Reason::NothingUnanswered)?;
    Ok(take_up_at(b, s))
}

// Gives the command in hand again, or takes up the next.
pub fn take_up(b: &mut [u8]) -> Result<(SessionNumber, Ticket, CommandNumber), Refusal>
    ensures { (paper_taken_up result ≡ taking_up b.old) × (b.new ≡ taken_bytes b.old) }
{
    if !is_sound(b) {
        return Err(Reason::Unsound.into());
    }
    match get_table(b).hand {
        Some(s) => Ok(given(b, s)),
        None => take_up_next(b),
    }
}

// The session whose command is in hand, where ticket and command are that one's.
fn named_in_hand(b: &[u8], ticket: Ticket, command: CommandNumber) -> Option<SessionNumber>
    requires { sound_bytes b.now ≡ true }
    ensures { MatchOption result (names_hand (abs b.now) ticket.0 command.0 (hand_of (number b.now hand_at)) ≡ false) (IsNamed b.now ticket.0 command.0) }
{
    let s = get_table(b).hand?;
    if get_head(b, s).names(ticket, command) {
        Some(s)
    } else {
        None
    }
}

// The session whose answer it is, or why it is not accepted.
fn may_answer(
    b: &[u8],
    ticket: Ticket,
    command: CommandNumber,
    a: Answer,
) -> Result<SessionNumber, Reason>
    ensures { MatchResult result (λ s. (done tt ≡ only (answering b.now ticket.0 command.0 a)) × IsNamed b.now ticket.0 command.0 s) (λ reason. verdict (number_of reason) ≡ only (answering b.now ticket.0 command.0 a)) }
{
    if !is_sound(b) {
        return Err(Reason::Unsound);
    }
    let s = named_in_hand(b, ticket, command).ok_or(Reason::NotTheOne)?;
    if !moment::is_real(a.date, a.time) {
        return Err(Reason::NotReal);
    }
    if !record::is_outcome(a.outcome) {
        return Err(Reason::NotARecord);
    }
    Ok(s)
}

// Accepts the answer to the command in hand.
pub fn answer(
    b: &mut [u8],
    ticket: Ticket,
    command: CommandNumber,
    outcome: Outcome,
    date: u32,
    time: u32,
) -> Result<(), Refusal>
    ensures { (paper_answered result ≡ answering b.old ticket.0 command.0 (record { outcome = outcome; date = date; time = time })) × (b.new ≡ answered_bytes b.old ticket.0 command.0 (record { outcome = outcome; date = date; time = time })) }
{
    let a = Answer {
        outcome,
        date,
        time,
    };
    let s = may_answer(b, ticket, command, a)?;
    answer_slot(b, s, a);
    put_hand(b, None);
    Ok(())
}

// The reply of the session that is ready is written and its number opened, or none is ready, or there is too little room.
fn collect_ready(
    b: &mut [u8],
    program: u32,
    ticket: Ticket,
    out: &mut [u8],
) -> Result<usize, Refusal>
    requires { (sound_bytes b.old ≡ true) × (within 1 program programs ≡ true) }
    ensures { Collects b.old program ticket.0 out.old result b.new out.new }
{
    let s = ready_session(b, program, ticket).ok_or(Reason::NotTheOne)?;
    let n = get_head(b, s).count;
    if out.len() < reply_length(b, s, n) {
        return Err(Reason::TooLittleRoom.into());
    }
    let written = write_reply(b, s, n, out);
    open_number(b, s);
    Ok(written)
}

// Writes the reply of a closed session, and opens its number. Output beyond the reply stays.
pub fn collect(b: &mut [u8], program: u32, ticket: Ticket, out: &mut [u8]) -> Result<usize, Refusal>
    ensures { Collects b.old program ticket.0 out.old result b.new out.new }
{
    if !is_sound(b) {
        return Err(Reason::Unsound.into());
    }
    if !is_program(program) {
        return Err(Reason::OutOfRange.into());
    }
    collect_ready(b, program, ticket, out)
}
