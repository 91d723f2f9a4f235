// Names of session files.
ghost use Rattle.session_name.specs.Name.{paper_name_read};
ghost use Rattle.c_answers.specs.Returned.{GivesName};

use crate::give_two;
use c_numbers::CaseNumber;
use counts::{Refusal, SessionNumber};
use session_name::Kind;

pub fn give_name(
    answer: Result<(SessionNumber, Kind), Refusal>,
    number: &mut u32,
    kind: &mut u32,
) -> u64
    ensures { GivesName (paper_name_read answer) result number.old number.new kind.old kind.new }
{
    give_two(
        answer.map(|(n, k)| (n.0, CaseNumber::from(k).0)),
        number,
        kind,
    )
}
