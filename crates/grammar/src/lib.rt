// The job grammar of document 01, written as points with edges and as productions, and what a list of tokens reads as; and the setting that document 02's
// P7 gives it. No function.

// Whether an UPLOAD or DOWNLOAD must have a start clause, as the caller asks. Required: a missing one is refused. Optional: it reads as START IMMEDIATE.
#![tactic(auto)]

#[derive(Clone, Copy, Debug, PartialEq, Eq, Hash)]
pub enum StartClause {
    Required,
    Optional,
}
