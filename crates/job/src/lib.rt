// Job files: the whole file with its offsets, one statement from its offset, and the text of a quoted string.
#![tactic(auto)]

ghost use Rattle.std.specs.Prelude.{◌≡◌, ◌+◌, ◌≤◌, length};
ghost use Rattle.counts.specs.Limits.{file_bytes, statements};
ghost use Rattle.counts.specs.Result.{counted};
ghost use Rattle.token.specs.Token.{is_text_at};
ghost use Rattle.statement.specs.Statement.{paper_read};
ghost use Rattle.job.specs.Job.{read_job, filled, paper_job};
ghost use Rattle.job.specs.Statement.{statement_in, read_statement, paper_statement_at, text_at};
ghost use Rattle.job.specs.Loop.{paper_step, step_read, step_of, rest_of, BlockRead, answered, entered};

use counts::{FILE_BYTES, Reason, Refusal, STATEMENTS};
use grammar::StartClause;
use item::{Class, Item, next_item, refusal_reason};
use scan::text_end;
use statement::{Statement, statement_of};
use token::is_text;

// A statement, its own offset and the place after its ;
#[derive(Clone, Copy, Debug, PartialEq, Eq, Hash)]
pub struct StatementAt {
    pub statement: Statement,
    pub offset: usize,
    pub next: usize,
}

// Offsets are kept until the whole file is judged, so that the file is read once and a refusal changes no entry of the caller's table. They are
// kept by so many: a file of few statements makes room for few, and one with the most of them nests few calls.
pub const BLOCK: usize = 16;

// The next statements of a file, a block at most: their offsets, and the place after them where the block is full and the file may go on. An array
// with a count, since nothing here takes memory of its own.
#[derive(Clone, Copy, Debug, PartialEq, Eq, Hash)]
pub struct StatementsFound {
    pub places: [u32; BLOCK],
    pub count: usize,
    pub then: Option<usize>,
}

// The first statement of a file, which begins with t: it is JOB.
fn first_read(file: &[u8], clause: StartClause, t: Item) -> Result<(Statement, usize), Refusal>
    requires { length file.now ≤ file_bytes }
    ensures { step_read (paper_read result) ≡ step_of clause file.now 0 t }
{
    match t.class {
        Class::Job => statement_of(file, 0, clause, t),
        _ => Err(t.refused(refusal_reason(t.class))),
    }
}

// What stands after k statements, of which the first was JOB and no other is: one more that ends before a place, or the end of the file.
fn step_of(file: &[u8], clause: StartClause, k: usize, t: Item) -> Result<Option<usize>, Refusal>
    requires { (length file.now ≤ file_bytes) × (1 ≤ k) }
    ensures { paper_step result ≡ step_of clause file.now k t }
{
    match t.class {
        Class::End => Ok(None),
        Class::NoToken(_) => Err(t.refused(refusal_reason(t.class))),
        _ => {
            if k == STATEMENTS as usize {
                return Err(t.refused(Reason::TooManyStatements));
            }
            match t.class {
                Class::Job => Err(t.refused(Reason::Unexpected)),
                _ => {
                    let (_, next) = statement_of(file, 0, clause, t)?;
                    Ok(Some(next))
                }
            }
        }
    }
}

// The statements from the place at on, after k statements, until the file ends or the block is full.
fn block_of(
    file: &[u8],
    clause: StartClause,
    k: usize,
    at: usize,
) -> Result<StatementsFound, Refusal>
    requires { (length file.now ≤ file_bytes) × (1 ≤ k) × (k ≤ statements) }
    ensures { BlockRead clause file.now k at result }
{
    let mut places = [0u32; BLOCK];
    let mut next = at;
    for count in 0..BLOCK {
        let t = next_item(file, 0, next);
        let Some(after) = step_of(file, clause, k + count, t)? else {
            return Ok(StatementsFound {
                places,
                count,
                then: None,
            });
        };
        places[count] = t.place as u32;
        next = after;
    }
    Ok(StatementsFound {
        places,
        count: BLOCK,
        then: Some(next),
    })
}

// The statements from the place at on, after k statements. The offsets of each block are written on the way back, once the whole file is taken.
fn rest_of(
    file: &[u8],
    clause: StartClause,
    k: usize,
    at: usize,
    offsets: &mut [u32],
) -> Result<usize, Refusal>
    requires { (length file.now ≤ file_bytes) × (1 ≤ k) × (k ≤ statements) }
    ensures { (paper_job result ≡ answered k (length offsets.old) (rest_of clause file.now k at)) × (offsets.new ≡ entered k (rest_of clause file.now k at) offsets.old) }
{
    let found = block_of(file, clause, k, at)?;
    let all = k + found.count;
    let taken = match found.then {
        Some(next) => rest_of(file, clause, all, next, offsets)?,
        None => {
            if offsets.len() < all {
                return Err(Reason::TooFewPlaces.into());
            }
            all
        }
    };
    offsets[k..all].copy_from_slice(&found.places[..found.count]);
    Ok(taken)
}

// A whole job file, with a start clause required or optional: the offsets of its statements go to the front of the lent table.
pub fn read_job(file: &[u8], clause: StartClause, offsets: &mut [u32]) -> Result<usize, Refusal>
    ensures { (paper_job result ≡ counted (read_job clause file.now (length offsets.old))) × (offsets.new ≡ filled (read_job clause file.now (length offsets.old)) offsets.old) }
{
    if FILE_BYTES < file.len() {
        return Err(Reason::FileTooLong.into());
    }
    let t = next_item(file, 0, 0);
    let (_, next) = first_read(file, clause, t)?;
    let taken = rest_of(file, clause, 1, next, offsets)?;
    offsets[0] = t.place as u32;
    Ok(taken)
}

// The statement at the front of the bytes s, which stand in the file from the place base on.
fn statement_in(s: &[u8], base: usize, clause: StartClause) -> Result<StatementAt, Refusal>
    requires { base + length s.now ≤ file_bytes }
    ensures { paper_statement_at result ≡ statement_in clause base s.now }
{
    let t = next_item(s, base, base);
    let (statement, next) = statement_of(s, base, clause, t)?;
    Ok(StatementAt {
        statement,
        offset: t.place,
        next,
    })
}

// One statement, from the offset at on: the file from there is handed on as a part.
pub fn read_statement(file: &[u8], clause: StartClause, at: usize) -> Result<StatementAt, Refusal>
    ensures { paper_statement_at result ≡ read_statement clause file.now at }
{
    if FILE_BYTES < file.len() {
        return Err(Reason::FileTooLong.into());
    }
    let rest = file.get(at..).ok_or(Reason::OutOfRange)?;
    statement_in(rest, at, clause)
}

// Whether a whole string begins at the place of its opening quote.
pub fn is_text_at(file: &[u8], quote: usize) -> bool
    ensures { result ≡ is_text_at file.now quote }
{
    is_text(file, quote)
}

// The text between the quotes, or the empty part.
pub fn text_at(file: &[u8], quote: usize) -> &[u8]
    ensures { result.now ≡ text_at file.now quote }
{
    if is_text(file, quote) {
        let start = quote + 1;
        let end = text_end(file, start);
        return &file[start..end];
    }
    &file[..0]
}
