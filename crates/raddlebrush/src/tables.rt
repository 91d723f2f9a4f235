// The session table.
ghost use Rattle.std.specs.Prelude.{◌≡◌, length};
ghost use Rattle.counts.specs.Result.{counted};
ghost use Rattle.table_sound.specs.Bytes.{sound_bytes};
ghost use Rattle.session_table.specs.Calls.{making, made_bytes, placing, placed_bytes, taking_up, taken_bytes, answering, answered_bytes, collecting, collected_bytes, collected_out};
ghost use Rattle.c_numbers.specs.Records.{answer_given};
ghost use Rattle.c_answers.specs.Returned.{returned, GivesCount, GivesPlaced, GivesTaken};

use c_answers::tables::{give_placed, give_taken};
use c_answers::{give_count, give_done};
use c_numbers::records::outcome_given;
use counts::{CommandNumber, Ticket};

pub fn rb_table_make(table: &mut [u8], max: u32) -> u64
    ensures { (result ≡ returned (making table.old max)) × (table.new ≡ made_bytes table.old max) }
{
    give_done(session_table::make(table, max))
}

pub fn rb_table_place(
    table: &mut [u8],
    program: u32,
    commands: u32,
    number: &mut u32,
    ticket: &mut u32,
) -> u64
    ensures { GivesPlaced (placing table.old program commands)
        result number.old number.new ticket.old ticket.new
        × (table.new ≡ placed_bytes table.old program commands) }
{
    give_placed(
        session_table::place(table, program, commands),
        number,
        ticket,
    )
}

pub fn rb_table_take_up(
    table: &mut [u8],
    number: &mut u32,
    ticket: &mut u32,
    command: &mut u32,
) -> u64
    ensures { GivesTaken (taking_up table.old)
        result number.old number.new ticket.old ticket.new command.old command.new
        × (table.new ≡ taken_bytes table.old) }
{
    give_taken(session_table::take_up(table), number, ticket, command)
}

pub fn rb_table_answer(
    table: &mut [u8],
    ticket: u32,
    command: u32,
    outcome: u32,
    class: u32,
    code: u32,
    date: u32,
    time: u32,
) -> u64
    ensures { (result ≡ returned (answering table.old ticket command (answer_given outcome class code date time)))
        × (table.new ≡ answered_bytes table.old ticket command (answer_given outcome class code date time)) }
{
    let o = outcome_given(outcome, class, code);
    give_done(session_table::answer(table, Ticket(ticket), CommandNumber(command), o, date, time))
}

pub fn rb_table_collect(
    table: &mut [u8],
    program: u32,
    ticket: u32,
    out: &mut [u8],
    used: &mut usize,
) -> u64
    ensures { GivesCount (counted (collecting table.old program ticket (length out.old))) result used.old used.new
        × (table.new ≡ collected_bytes table.old program ticket (length out.old))
        × (out.new ≡ collected_out table.old program ticket out.old) }
{
    give_count(
        session_table::collect(table, program, Ticket(ticket), out),
        used,
    )
}

pub fn rb_is_sound(table: &[u8]) -> bool
    ensures { result ≡ sound_bytes table.now }
{
    table_sound::is_sound(table)
}
