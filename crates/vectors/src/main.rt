// Runs the examples: each argument names a file of data/, which is read as a record where its name ends with .rec, as a report where it ends with
// .rep, as the date of an answer that is given (.ans) or that a table stores (.tab), as a start clause to be decided (.due), and else as a job file,
// and a line says what it read as. A job file's start clauses are required; where it reads as something else with optional ones, the line goes on with that. The files are the examples of
// documents 01 and 02 that are not proved, the traps, the places where two readers could differ, and the job files, records and reports of
// EUROMAP 63's worked examples with their scan damage mended.
#![tactic(auto)]

use counts::{CommandNumber, Refusal, STATEMENTS, SessionNumber, Ticket};
use grammar::StartClause;
use record::Outcome;
use sessions::Answer;
use start::Present;
use statement::{Operand, Start, Statement};
use std::env::{Env, FillError};
use std::fs::File;
use std::io::Read;
use std::rt::Files;
use std::{fmt, io, str};
use table_layout::Table;

// What an example is: by the end of its name, and a report's delimiter by its beginning.
#[derive(Clone, Copy, Debug, PartialEq, Eq, Hash)]
enum Kind {
    Job,
    Record,
    Report(u8),
    Answer,
    Stored,
    Decision,
}

// ---- job files

// Places for the offsets of every file that is taken. All memory is fixed: the program takes none from the heap, so that no further C function is
// trusted.
const PLACES: usize = STATEMENTS as usize;

// What a job file read as: its offsets in a row. They are a part of an array, for which no Display of this program can be.
fn print_offsets(
    rt: &impl Print,
    answer: Result<usize, Refusal>,
    offsets: &[u32],
) -> io::Result<()> {
    match answer {
        Ok(count) => {
            print!(rt; " taken {count} at")?;
            for offset in offsets.iter().take(count) {
                print!(rt; " {offset}")?;
            }
            Ok(())
        }
        Err(refusal) => print!(rt; " {refusal}"),
    }
}

// A file that is refused with required start clauses is read with optional ones too.
fn run_job(rt: &impl Print, file: &[u8]) -> io::Result<()> {
    let mut offsets = [0u32; PLACES];
    let required = job::read_job(file, StartClause::Required, &mut offsets);
    print_offsets(rt, required, &offsets)?;
    if required.is_ok() {
        return Ok(());
    }
    let optional = job::read_job(file, StartClause::Optional, &mut offsets);
    if optional == required {
        return Ok(());
    }
    print!(rt; " optional")?;
    print_offsets(rt, optional, &offsets)
}

// ---- records

#[derive(Clone, Copy, Debug, PartialEq, Eq, Hash)]
struct Shown(Outcome);

impl fmt::Display for Shown {
    fn fmt<W: fmt::Write>(&self, f: &mut fmt::Formatter<W>) -> fmt::Result {
        match self.0 {
            Outcome::Processed => write!(f, "PROCESSED"),
            Outcome::Error(class, code) => write!(f, "ERROR {class} {code}"),
        }
    }
}

fn run_record(rt: &impl Print, bytes: &[u8]) -> io::Result<()> {
    match record_read::read_record(bytes) {
        Ok(read) => {
            print!(rt; " record {} {}", read.number.0, Shown(read.outcome))?;
            let text = record_read::record_text(bytes);
            print!(rt;
                " text {} date {} time {}",
                text.len(),
                read.date,
                read.time
            )
        }
        Err(refusal) => print!(rt; " {refusal}"),
    }
}

// ---- reports

// There is room for 64 fields: of each the place and the length. None is empty: where the length is 0, no field was written.
fn run_report(rt: &impl Print, file: &[u8], delimiter: u8) -> io::Result<()> {
    let mut cells = [0usize; 128];
    match report::read_report(file, delimiter, &mut cells) {
        Ok((columns, lines)) => {
            print!(rt; " report {columns} columns {lines} lines at")?;
            let (fields, _) = cells.as_chunks::<2>();
            for [place, length] in fields.iter().filter(|[_, length]| *length > 0) {
                print!(rt; " {place} {length}")?;
            }
            Ok(())
        }
        Err(refusal) => print!(rt; " {refusal}"),
    }
}

// ---- session tables

// The date that a file has after the word DATE, and 0, which is none, where it has not eight digits there.
fn date_in(file: &[u8]) -> u32 {
    labelled::field_after(file, 0, b"DATE ", 8).unwrap_or(0)
}

// Makes a table in which program 1 has placed one command. It is lent: one that was handed back would take its bytes of the stack twice.
fn make_with_one(table: &mut [u8; Table::SIZE]) {
    let _ = session_table::make(table, 32);
    let _ = session_table::place(table, 1, 1);
}

fn place(rt: &impl Print, table: &mut [u8]) -> io::Result<()> {
    match session_table::place(table, 2, 1) {
        Ok((number, ticket)) => print!(rt; " place {} {}", number.0, ticket.0),
        Err(refusal) => print!(rt; " place {refusal}"),
    }
}

fn take_up(rt: &impl Print, table: &mut [u8]) -> io::Result<()> {
    match session_table::take_up(table) {
        Ok((number, ticket, command)) => {
            print!(rt; " take-up {} {} {}", number.0, ticket.0, command.0)
        }
        Err(refusal) => print!(rt; " take-up {refusal}"),
    }
}

fn answer(rt: &impl Print, table: &mut [u8], ticket: Ticket, date: u32) -> io::Result<()> {
    match session_table::answer(
        table,
        ticket,
        CommandNumber(1),
        Outcome::Processed,
        date,
        235959,
    ) {
        Ok(()) => print!(rt; " answer accepted"),
        Err(refusal) => print!(rt; " answer {refusal}"),
    }
}

// More than a record without text takes.
const REPLY_ROOM: usize = 60;

// A reply of one record.
fn collect(rt: &impl Print, table: &mut [u8]) -> io::Result<()> {
    let mut reply = [0u8; REPLY_ROOM];
    print!(rt; " collect")?;
    match session_table::collect(table, 1, Ticket(1), &mut reply) {
        Ok(n) => run_record(rt, reply.get(..n).unwrap_or_default()),
        Err(refusal) => print!(rt; " {refusal}"),
    }
}

// The command is taken up, and answered with the date of the file.
fn run_answer(rt: &impl Print, file: &[u8]) -> io::Result<()> {
    let mut table = [0u8; Table::SIZE];
    make_with_one(&mut table);
    let _ = session_table::take_up(&mut table);
    answer(rt, &mut table, Ticket(1), date_in(file))?;
    collect(rt, &mut table)
}

// Stores an answer to the command with any date, which the call does not.
fn store(table: &mut [u8; Table::SIZE], date: u32) {
    let head = slot::get_head(table, SessionNumber(0));
    if head.answered < Table::COMMANDS {
        let stored = Answer {
            outcome: Outcome::Processed,
            date,
            time: 235959,
        };
        slot::answer_slot(table, SessionNumber(0), stored);
    }
}

// The table stores the date of the file; then each call is made on it.
fn run_stored(rt: &impl Print, file: &[u8]) -> io::Result<()> {
    let mut table = [0u8; Table::SIZE];
    make_with_one(&mut table);
    store(&mut table, date_in(file));
    if table_sound::is_sound(&table) {
        print!(rt; " sound")?;
    } else {
        print!(rt; " unsound")?;
    }
    place(rt, &mut table)?;
    take_up(rt, &mut table)?;
    answer(rt, &mut table, Ticket(2), 20240430)?;
    collect(rt, &mut table)
}

// ---- start clauses

// A number that is not there is one that is not real.
const NOT_THERE: u32 = 99999999;

// The start clause of the statement at a place, and the place after its ;. A statement that is refused has none.
fn clause_at(rt: &impl Print, file: &[u8], at: usize) -> io::Result<(Start, usize)> {
    match job::read_statement(file, StartClause::Required, at) {
        Ok(read) => {
            let start = match read.statement {
                Statement::Upload { start, .. } | Statement::Download { start, .. } => start,
                _ => Start::Immediate,
            };
            Ok((start, read.next))
        }
        Err(refusal) => {
            print!(rt; " {refusal}")?;
            Ok((Start::Immediate, at))
        }
    }
}

// What a file says of the moment: NOW, date and time, TAKEN, and the date on which the command was taken up. After it stand two statements: the constant
// of the first one's condition is the parameter's present value, and the clause of the second is decided.
fn run_decision(rt: &impl Print, file: &[u8]) -> io::Result<()> {
    let date = labelled::field_after(file, 0, b"NOW ", 8).unwrap_or(NOT_THERE);
    let time = labelled::field_after(file, 12, b" ", 6).unwrap_or(NOT_THERE);
    let taken_up = labelled::field_after(file, 19, b" TAKEN ", 8).unwrap_or(NOT_THERE);
    let (first, next) = clause_at(rt, file, 34)?;
    let (clause, _) = clause_at(rt, file, next)?;
    let constant = match first {
        Start::When(condition) => condition.operand,
        _ => Operand::Text(0),
    };
    let (value, text) = match constant {
        Operand::Number(n) => (Present::Number(n), &file[..0]),
        Operand::Text(quote) => (Present::Text, job::text_at(file, quote)),
    };
    match start::is_due(clause, file, date, time, taken_up, value, text) {
        Ok(true) => print!(rt; " due"),
        Ok(false) => print!(rt; " not due"),
        Err(refusal) => print!(rt; " {refusal}"),
    }
}

// ---- files

// One byte more than the longest job file.
const ROOM: usize = 65536;

fn run_file(rt: &impl Print, input: &mut impl Read, kind: Kind) -> io::Result<()> {
    let mut room = [0u8; ROOM];
    let n = io::copy(&mut input.by_ref().take(ROOM as u64), &mut &mut room[..])?;
    let file = &room[..ROOM.min(n as usize)];
    match kind {
        Kind::Job => run_job(rt, file)?,
        Kind::Record => run_record(rt, file)?,
        Kind::Report(delimiter) => run_report(rt, file, delimiter)?,
        Kind::Answer => run_answer(rt, file)?,
        Kind::Stored => run_stored(rt, file)?,
        Kind::Decision => run_decision(rt, file)?,
    }
    println!(rt)
}

// The delimiter that a report's name begins with; 0, which is none, where it begins with another word.
fn delimiter(name: &str) -> u8 {
    match name.split_once('_') {
        Some(("comma", _)) => b',',
        Some(("semicolon", _)) => b';',
        Some(("bar", _)) => b'|',
        Some(("tab", _)) => b'\t',
        _ => 0,
    }
}

fn kind_of(name: &str) -> Kind {
    match name.rsplit_once('.') {
        Some((_, "rec")) => Kind::Record,
        Some((_, "rep")) => Kind::Report(delimiter(name)),
        Some((_, "ans")) => Kind::Answer,
        Some((_, "tab")) => Kind::Stored,
        Some((_, "due")) => Kind::Decision,
        _ => Kind::Job,
    }
}

// The example that argument i names.
fn run(rt: &(impl Print + Eprint + Files), i: usize, path: &[u8]) -> io::Result<()> {
    let Ok(name) = str::from_utf8(path) else {
        return eprintln!(rt; "argument {i} is not text");
    };
    match File::open(rt, name) {
        Ok(mut input) => {
            print!(rt; "{name}")?;
            run_file(rt, &mut input, kind_of(name))
        }
        Err(e) => eprintln!(rt; "{name}: {e}"),
    }
}

// A path that is too long names no file. The arguments are counted here, as the library's iterator over them takes memory of its own.
fn main(rt: HostRuntime) -> io::Result<()> {
    let mut path = [0u8; 64];
    for i in 1..usize::MAX {
        match rt.arg(i, &mut path) {
            Ok(n) => run(&rt, i, &path[..n])?,
            Err(FillError::TooLong) => run(&rt, i, b"")?,
            Err(FillError::NotPresent) => break,
        }
    }
    Ok(())
}
