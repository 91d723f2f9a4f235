// The listing program of document 01: reads a job file from standard input and prints a line for each statement, its ordinal, keyword and
// offset. On refusal it prints REFUSED, the number and the place. A missing start clause reads as START IMMEDIATE: it asks for P7's earlier reading.
#![tactic(auto)]

use counts::STATEMENTS;
use grammar::StartClause;
use statement::Statement;
use std::io::Read;
use std::{fmt, io};

// One byte more than the longest job file: a file that fills it is too long. All memory is fixed: the program takes none from the heap, so that no
// further C function is trusted.
const ROOM: usize = 65536;

// A statement, shown by its keyword.
#[derive(Clone, Copy, Debug, PartialEq, Eq, Hash)]
struct Keyword(Statement);

impl fmt::Display for Keyword {
    fn fmt<W: fmt::Write>(&self, f: &mut fmt::Formatter<W>) -> fmt::Result {
        f.write_str(match self.0 {
            Statement::Job { .. } => "JOB",
            Statement::Upload { .. } => "UPLOAD",
            Statement::Download { .. } => "DOWNLOAD",
            Statement::GetInfo { .. } => "GETINFO",
            Statement::Abort { .. } => "ABORT",
        })
    }
}

// Each statement is read on its own from its offset.
fn list(rt: &impl Print, file: &[u8]) -> io::Result<()> {
    let mut offsets = [0u32; STATEMENTS as usize];
    match job::read_job(file, StartClause::Optional, &mut offsets) {
        Ok(count) => {
            for (k, offset) in offsets.iter().take(count).enumerate() {
                let read = job::read_statement(file, StartClause::Optional, *offset as usize);
                if let Ok(read) = read {
                    println!(rt; "{} {} {offset}", k + 1, Keyword(read.statement))?;
                }
            }
            Ok(())
        }
        Err(refusal) => println!(rt; "{refusal}"),
    }
}

// What is behind the room is read too, so that who writes there is not cut off.
fn main(rt: HostRuntime) -> io::Result<()> {
    let mut input = rt.reader();
    let mut file = [0u8; ROOM];
    let n = io::copy(&mut input.by_ref().take(ROOM as u64), &mut &mut file[..])?;
    io::copy(&mut input, &mut io::sink())?;
    list(&rt, &file[..ROOM.min(n as usize)])
}
