// Reads a report from standard input, with the delimiter as its argument, and prints a line for each row: its ordinal, 0 for the names, and its
// names or values as they stand. On refusal it prints REFUSED, the number and the place.
#![tactic(auto)]

use counts::{Reason, Refusal};
use delimited::Delimiter;
use std::env::Env;
use std::io;
use std::io::Read;

// One byte more than the longest report that the program has room for: a report that fills it is refused. As many cells are enough, as a field
// with what stands behind it takes two bytes or more. They are 2 MiB of the stack. All memory is fixed: the program takes none from the heap, so
// that no further C function is trusted.
const ROOM: usize = 262144;

// The rows, from the names to the last line of values. Of each field the cells have its place and its length. The bytes are handed on as they stand
// and need not be text, so this is no Display.
fn print_rows(
    rt: &impl Print,
    file: &[u8],
    cells: &[usize],
    columns: usize,
    lines: usize,
) -> io::Result<()> {
    let (fields, _) = cells.as_chunks::<2>();
    let mut fields = fields.iter();
    for row in 0..=lines {
        print!(rt; "{row}")?;
        for [place, length] in fields.by_ref().take(columns) {
            print!(rt; " ")?;
            if let Some(field) = file.get(*place..).and_then(|rest| rest.get(..*length)) {
                rt.write_all(field)?;
            }
        }
        println!(rt)?;
    }
    Ok(())
}

// A report that is too long for the program is refused before it is read: the delimiter goes first, as in the call.
fn read_report(file: &[u8], delimiter: u8, cells: &mut [usize]) -> Result<(usize, usize), Refusal> {
    if file.len() < ROOM {
        return report::read_report(file, delimiter, cells);
    }
    Delimiter::try_from(delimiter)?;
    Err(Reason::TooLittleRoom.into())
}

// The delimiter is an argument of one byte; of any other there is none.
fn delimiter(rt: &impl Env) -> u8 {
    let mut argument = [0u8; 2];
    match rt.arg(1, &mut argument) {
        Ok(1) => argument[0],
        _ => 0,
    }
}

// No Display, for the same reason.
fn print_report(rt: &impl Print, file: &[u8], delimiter: u8) -> io::Result<()> {
    let mut cells = [0usize; ROOM];
    match read_report(file, delimiter, &mut cells) {
        Ok((columns, lines)) => print_rows(rt, file, &cells, columns, lines),
        Err(refusal) => println!(rt; "{refusal}"),
    }
}

// What is behind the room is read too, so that who writes there is not cut off.
fn main(rt: HostRuntime) -> io::Result<()> {
    let mut input = rt.reader();
    let mut file = [0u8; ROOM];
    let n = io::copy(&mut input.by_ref().take(ROOM as u64), &mut &mut file[..])?;
    if n == ROOM as u64 {
        io::copy(&mut input, &mut io::sink())?;
    }
    print_report(&rt, &file[..ROOM.min(n as usize)], delimiter(&rt))
}
