// Whether lent bytes are a sound session table, for any bytes of any length. The table's own row is read once, and each session's head once as
// the sessions are gone through; the tickets seen so far are kept beside.
#![tactic(auto)]

ghost use Rattle.std.specs.Prelude.{◌≡◌, true, ◌&&◌, not, cond, ◌+◌, ◌<◌, ◌≤◌, eqb, ltb, length, get_or};
ghost use Rattle.counts.specs.Limits.{commands, sessions};
ghost use Rattle.sessions.specs.Find.{all};
ghost use Rattle.sessions.specs.Sound.{head_sound, in_range_and_real, slot_sound, hand_sound};
ghost use Rattle.sessions.specs.Table.{within, is_waiting};
ghost use Rattle.slot.specs.Fields.{head_of, entry_of, slot_of, Tells};
ghost use Rattle.table_layout.specs.Layout.{table_bytes, hand_number, table_of};
ghost use Rattle.table_sound.specs.Bytes.{hand_of, abs, sound_bytes, Seen};

use counts::{CommandNumber, SessionNumber, Ticket};
use sessions::Answer;
use slot::{Head, get_entry, get_head};
use table_layout::{Table, get_table};

// MaxSessions in range, and the turn's mark below it.
fn limits_are_sound(t: Table) -> bool
    ensures { result ≡ (within 1 t.max sessions && ltb t.mark.0 t.max) }
{
    (1 <= t.max) & (t.max <= Table::SESSIONS) & (t.mark.0 < t.max)
}

fn head_is_sound(t: Table, s: SessionNumber, h: Head) -> bool
    requires { h.taken ≡ true }
    ensures { Tells h (head_sound t.max t.last.0 s.0) result }
{
    (s.0 < t.max)
        & ((1 <= h.program)
            & (h.program <= Table::PROGRAMS)
            & ((1 <= h.count) & (h.count <= Table::COMMANDS))
            & ((1 <= h.ticket.0) & (h.ticket.0 <= Table::TICKET_MOST)))
        & (h.ticket.0 <= t.last.0)
        & (h.answered <= h.count)
}

// Whether the ticket is none of those seen.
fn is_new(seen: &[u32], t: Ticket) -> bool
    ensures { result ≡ all (length seen.now) (λ i. not (eqb (get_or seen.now i 0) t.0)) }
{
    !seen.contains(&t.0)
}

fn in_range_and_real(a: Answer) -> bool
    ensures { result ≡ in_range_and_real a }
{
    moment::is_real(a.date, a.time) && record::is_outcome(a.outcome)
}

// Whether each of the first n answers of the session is in range with a real date and time.
fn answers_are_real(b: &[u8], s: SessionNumber, n: u32) -> bool
    requires { (length b.now ≡ table_bytes) × (s.0 < sessions) × (n ≤ commands) }
    ensures { result ≡ all n (λ i. in_range_and_real (entry_of b.now s.0 (i + 1))) }
{
    (0..n).all(|i| in_range_and_real(get_entry(b, s, CommandNumber(i + 1))))
}

fn slot_is_sound(b: &[u8], t: Table, s: SessionNumber, h: Head, seen: &[u32]) -> bool
    requires { (length b.now ≡ table_bytes) × (s.0 < sessions) × (t ≡ table_of b.now) × (h ≡ head_of b.now s.0) × Seen b.now s.0 seen.now × (length seen.now ≡ s.0) }
    ensures { result ≡ slot_sound (abs b.now) s.0 (slot_of b.now s.0) }
{
    if h.is_open() {
        return true;
    }
    head_is_sound(t, s, h) && is_new(seen, h.ticket) && answers_are_real(b, s, h.answered)
}

// Whether the session in hand waits, once it is passed: known is what was known before this one.
fn waits_in_hand(hand: Option<SessionNumber>, s: SessionNumber, h: Head, known: bool) -> bool
    requires { s.0 < sessions }
    ensures { Tells h (λ x. cond (eqb (s.0 + 1) (hand_number hand)) (is_waiting x) known) result }
{
    match hand {
        Some(in_hand) if in_hand.0 == s.0 => h.is_waiting(),
        _ => known,
    }
}

// Whether each session is sound, and the command in hand is the lowest unanswered of its session. One pass, in which each head is read once.
fn sessions_are_sound(b: &[u8], t: Table) -> bool
    requires { (length b.now ≡ table_bytes) × (t ≡ table_of b.now) }
    ensures { result ≡ (all sessions (λ s. slot_sound (abs b.now) s (slot_of b.now s)) && hand_sound (abs b.now) (hand_of (hand_number t.hand))) }
{
    // The tickets so far, in an array, as nothing here takes memory of its own.
    let mut seen = [0u32; Table::SESSIONS as usize];
    let mut waits = t.hand.is_none();
    for s in 0..Table::SESSIONS {
        let h = get_head(b, SessionNumber(s));
        if !slot_is_sound(b, t, SessionNumber(s), h, &seen[..s as usize]) {
            return false;
        }
        seen[s as usize] = h.ticket_held().0;
        waits = waits_in_hand(t.hand, SessionNumber(s), h, waits);
    }
    waits
}

pub fn is_sound(b: &[u8]) -> bool
    ensures { result ≡ sound_bytes b.now }
{
    if b.len() != Table::SIZE {
        return false;
    }
    let t = get_table(b);
    limits_are_sound(t) && sessions_are_sound(b, t)
}
