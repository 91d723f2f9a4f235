// The searches of the session table's calls: the lowest open number, the next session in turn, the session that may be collected.
#![tactic(auto)]

ghost use Rattle.std.specs.Prelude.{◌≡◌, ◌<◌, ◌≤◌};
ghost use Rattle.counts.specs.Limits.{sessions};
ghost use Rattle.sessions.specs.Table.{turn_from};
ghost use Rattle.table_search.specs.Limited.{Limited};
ghost use Rattle.table_search.specs.Search.{paper_found, open_in, waiting_in, ready_found};

use counts::{SessionNumber, Ticket};
use slot::get_head;
use table_layout::{Table, get_table};

// "takes the lowest open number"
pub fn lowest_open(b: &[u8]) -> Option<SessionNumber>
    requires { Limited b.now }
    ensures { paper_found result ≡ open_in b.now }
{
    let max = get_table(b).max;
    (0..max)
        .find(|s| get_head(b, SessionNumber(*s)).is_open())
        .map(SessionNumber)
}

// The number that comes i places after the one that follows the mark, going round.
fn in_turn(t: Table, i: u32) -> SessionNumber
    requires { (t.mark.0 < t.max) × (t.max ≤ sessions) × (i < t.max) }
    ensures { (result.0 ≡ turn_from t.mark.0 t.max i) × (result.0 < t.max) }
{
    let s = t.mark.0 + 1 + i;
    if s < t.max {
        SessionNumber(s)
    } else {
        SessionNumber(s - t.max)
    }
}

// "beginning after the number last taken up and going round, the first session with an unanswered command"
pub fn next_waiting(b: &[u8]) -> Option<SessionNumber>
    requires { Limited b.now }
    ensures { paper_found result ≡ waiting_in b.now }
{
    let t = get_table(b);
    (0..t.max)
        .find(|i| get_head(b, in_turn(t, *i)).is_waiting())
        .map(|i| in_turn(t, i))
}

// "a closed session of that program and ticket"
pub fn ready_session(b: &[u8], program: u32, ticket: Ticket) -> Option<SessionNumber>
    requires { Limited b.now }
    ensures { paper_found result ≡ ready_found b.now program ticket.0 }
{
    let max = get_table(b).max;
    (0..max)
        .find(|s| get_head(b, SessionNumber(*s)).is_ready(program, ticket))
        .map(SessionNumber)
}
