// Whether to start.
ghost use Rattle.start.specs.Decision.{paper_decision};
ghost use Rattle.c_answers.specs.Returned.{GivesDue};

use crate::give;
use counts::Refusal;

pub fn give_decision(answer: Result<bool, Refusal>, due: &mut u32) -> u64
    ensures { GivesDue (paper_decision answer) result due.old due.new }
{
    give(answer.map(u32::from), due)
}
