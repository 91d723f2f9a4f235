// The reply of a session: the records of its answers in order, text empty.
#![tactic(auto)]

ghost use Rattle.std.specs.Prelude.{◌≡◌, true, [], ◌+◌, ◌<◌, ◌≤◌, length};
ghost use Rattle.counts.specs.Limits.{commands, sessions};
ghost use Rattle.field.specs.Part.{Wrote};
ghost use Rattle.record.specs.Record.{content};
ghost use Rattle.record.specs.Writing.{Fits};
ghost use Rattle.sessions.specs.Find.{all};
ghost use Rattle.sessions.specs.Records.{record_of};
ghost use Rattle.sessions.specs.Sound.{in_range_and_real};
ghost use Rattle.slot.specs.Fields.{entry_of};
ghost use Rattle.table_layout.specs.Layout.{table_bytes};
ghost use Rattle.table_reply.specs.Reply.{reply_of};

use counts::{CommandNumber, SessionNumber};
use sessions::Answer;
use slot::get_entry;

// How many bytes the first n records take.
pub fn reply_length(b: &[u8], s: SessionNumber, n: u32) -> usize
    requires { (length b.now ≡ table_bytes) × (s.0 < sessions) × (n ≤ commands) }
    ensures { result ≡ length (reply_of b.now s.0 n) }
{
    let mut total: usize = 0;
    for i in 0..n {
        let command = CommandNumber(i + 1);
        let outcome = get_entry(b, s, command).outcome;
        total += record::record_length(command, outcome, 0);
    }
    total
}

// Writes the record of the answer to a command, text empty, and gives the place after it.
fn put_answer(out: &mut [u8], at: usize, command: CommandNumber, a: Answer) -> usize
    requires { Fits commands (content command.0 a.outcome [] a.date a.time) at out.old }
    ensures { Wrote out.old at (record_of command.0 a) out.new result }
{
    let outcome = a.outcome;
    record::put_record(out, at, command, outcome, a.date, a.time, b"")
}

// Writes the first n records from the start of out on, and gives the place after them.
pub fn write_reply(b: &[u8], s: SessionNumber, n: u32, out: &mut [u8]) -> usize
    requires { (length b.now ≡ table_bytes) × (s.0 < sessions) × (n ≤ commands) × (all n (λ i. in_range_and_real (entry_of b.now s.0 (i + 1))) ≡ true) × (length (reply_of b.now s.0 n) ≤ length out.old) }
    ensures { Wrote out.old 0 (reply_of b.now s.0 n) out.new result }
{
    let mut at: usize = 0;
    for i in 0..n {
        let command = CommandNumber(i + 1);
        at = put_answer(out, at, command, get_entry(b, s, command));
    }
    at
}
