// The session table as document 01 has it, with no bytes: its words stand in specs/, its claims over every history in proofs/.
// No function. The answer to a command is the one type that the table in lent bytes shares with it.
#![tactic(auto)]

use record::Outcome;

// What a command's answer carries.
#[derive(Clone, Copy, Debug, PartialEq, Eq, Hash)]
pub struct Answer {
    pub outcome: Outcome,
    pub date: u32,
    pub time: u32,
}
