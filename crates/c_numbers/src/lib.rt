// What document 01 has as cases, as the numbers that the header gives them.
#![tactic(auto)]

ghost use Rattle.std.specs.Prelude.{◌≡◌};
ghost use Rattle.counts.specs.Refusals.{refusal};
ghost use Rattle.counts.specs.declared.Reason.TheVariants.{OutOfRange};

pub mod clauses;
pub mod kinds;
pub mod records;
pub mod starts;
pub mod statements;

use counts::{Reason, Refusal};

// A number that the header gives a case. The header's numbers are constants, as the C interface fixes them: code and clauses hold cases, and come to
// them by a match on the constants.
#[derive(Clone, Copy, Debug, PartialEq, Eq, Hash)]
pub struct CaseNumber(pub u32);

// A number that no case has.
#[derive(Clone, Copy, Debug, PartialEq, Eq, Hash)]
pub struct NoCase(pub u32);

impl From<NoCase> for Refusal {
    ghost from_gives = { λ _ r. r ≡ refusal OutOfRange 0 };

    fn from(_: NoCase) -> Self {
        Reason::OutOfRange.into()
    }
}
