// The session table.
ghost use Rattle.session_table.specs.Paper.{paper_placed, paper_taken_up};
ghost use Rattle.c_answers.specs.Returned.{GivesPlaced, GivesTaken};

use crate::{give_three, give_two};
use counts::{CommandNumber, Refusal, SessionNumber, Ticket};

pub fn give_placed(
    answer: Result<(SessionNumber, Ticket), Refusal>,
    number: &mut u32,
    ticket: &mut u32,
) -> u64
    ensures { GivesPlaced (paper_placed answer) result number.old number.new ticket.old ticket.new }
{
    give_two(answer.map(|(s, t)| (s.0, t.0)), number, ticket)
}

pub fn give_taken(
    answer: Result<(SessionNumber, Ticket, CommandNumber), Refusal>,
    number: &mut u32,
    ticket: &mut u32,
    command: &mut u32,
) -> u64
    ensures { GivesTaken (paper_taken_up answer)
        result number.old number.new ticket.old ticket.new command.old command.new }
{
    give_three(
        answer.map(|(s, t, c)| (s.0, t.0, c.0)),
        number,
        ticket,
        command,
    )
}
