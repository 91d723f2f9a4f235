// The statements of a job file: one function to a point of the grammar, each from the place where its first token is looked for.
#![tactic(auto)]

ghost use Rattle.std.specs.Prelude.{◌≡◌};
ghost use Rattle.counts.specs.Result.{refused_as};
ghost use Rattle.item.specs.Items.{code_no, Seen};
ghost use Rattle.grammar.specs.Grammar.Point.{ending, job_name, job_response, job_file, move_file, move_source, move_start, start_kind, start_time, start_date, start_operator, start_value, info_file, abort_kind, abort_name};
ghost use Rattle.statement.specs.Statement.{unexpected_at, part_of, condition, transferred, transfer, is_number_no, paper_read, read_from, statement_of};

use counts::{Reason, Refusal};
use grammar::StartClause;
use item::{Class, Item, next_item, refusal_reason};
use number::Number;
use token::Operator;

// A part of the file: the place of its first byte, and its length. A name is held so.
#[derive(Clone, Copy, Debug, PartialEq, Eq, Hash)]
pub struct Part {
    pub place: usize,
    pub length: usize,
}

// What is moved: the active set, a file spec by the place of its opening quote, or a name.
#[derive(Clone, Copy, Debug, PartialEq, Eq, Hash)]
pub enum Source {
    Active,
    File(usize),
    Name(Part),
}

// A number, or a string by the place of its opening quote.
#[derive(Clone, Copy, Debug, PartialEq, Eq, Hash)]
pub enum Operand {
    Number(Number),
    Text(usize),
}

#[derive(Clone, Copy, Debug, PartialEq, Eq, Hash)]
pub struct Condition {
    pub name: Part,
    pub operator: Operator,
    pub operand: Operand,
}

// A start clause is one of three; a missing one, where it may be missing, reads as the first. A time is hhmmss, and its optional date yyyymmdd.
#[derive(Clone, Copy, Debug, PartialEq, Eq, Hash)]
pub enum Start {
    Immediate,
    At(u32, Option<u32>),
    When(Condition),
}

#[derive(Clone, Copy, Debug, PartialEq, Eq, Hash)]
pub enum Aborted {
    Report,
    Event,
}

// A statement. A file spec is held as the place of its opening quote.
#[derive(Clone, Copy, Debug, PartialEq, Eq, Hash)]
pub enum Statement {
    Job {
        name: Part,
        response: usize,
    },
    Upload {
        file: usize,
        source: Source,
        start: Start,
    },
    Download {
        file: usize,
        source: Source,
        start: Start,
    },
    GetInfo {
        file: usize,
    },
    Abort {
        what: Aborted,
        name: Part,
    },
}

// An UPLOAD or DOWNLOAD up to its start clause. Which way it moves is a bool: a yes or no that is tested once.
#[derive(Clone, Copy, Debug, PartialEq, Eq, Hash)]
pub struct Transfer {
    pub download: bool,
    pub file: usize,
    pub source: Source,
}

// What may not stand: the end of the file, no token, or a token.
fn unexpected(t: Item) -> Refusal
    ensures { refused_as result ≡ unexpected_at t }
{
    t.refused(refusal_reason(t.class))
}

fn part_of(t: Item) -> Part
    ensures { result ≡ part_of t }
{
    Part {
        place: t.place,
        length: t.length,
    }
}

fn start_when(name: Part, operator: Operator, operand: Operand) -> Start
    ensures { result ≡ condition name operator operand }
{
    Start::When(Condition {
        name,
        operator,
        operand,
    })
}

// The statement that a start clause completes.
fn transferred(m: Transfer, start: Start) -> Statement
    ensures { result ≡ transferred m start }
{
    let source = m.source;
    if m.download {
        return Statement::Download {
            file: m.file,
            source,
            start,
        };
    }
    Statement::Upload {
        file: m.file,
        source,
        start,
    }
}

fn transfer_of(download: bool, file: usize, source: Source) -> Transfer
    ensures { result ≡ transfer download file source }
{
    Transfer {
        download,
        file,
        source,
    }
}

// The ; that ends a statement.
fn ending(s: &[u8], base: usize, at: usize, x: Statement) -> Result<(Statement, usize), Refusal>
    requires { Seen base s.now at }
    ensures { paper_read result ≡ read_from base s.now ending x at }
{
    let t = next_item(s, base, at);
    match t.class {
        Class::Semicolon => Ok((x, t.next)),
        _ => Err(unexpected(t)),
    }
}

// JOB, name, RESPONSE: the file spec.
fn job_file(s: &[u8], base: usize, at: usize, name: Part) -> Result<(Statement, usize), Refusal>
    requires { Seen base s.now at }
    ensures { paper_read result ≡ read_from base s.now job_file name at }
{
    let t = next_item(s, base, at);
    match t.class {
        Class::Text => {
            let x = Statement::Job {
                name,
                response: t.place,
            };
            ending(s, base, t.next, x)
        }
        _ => Err(unexpected(t)),
    }
}

// JOB, name: RESPONSE.
fn job_response(s: &[u8], base: usize, at: usize, name: Part) -> Result<(Statement, usize), Refusal>
    requires { Seen base s.now at }
    ensures { paper_read result ≡ read_from base s.now job_response name at }
{
    let t = next_item(s, base, at);
    match t.class {
        Class::Response => job_file(s, base, t.next, name),
        _ => Err(unexpected(t)),
    }
}

// JOB: its name.
fn job_name(s: &[u8], base: usize, at: usize) -> Result<(Statement, usize), Refusal>
    requires { Seen base s.now at }
    ensures { paper_read result ≡ read_from base s.now job_name tt at }
{
    let t = next_item(s, base, at);
    match t.class {
        Class::Name => job_response(s, base, t.next, part_of(t)),
        _ => Err(unexpected(t)),
    }
}

// Whether a class is a number's: eight bare digits are a number too.
fn is_number(class: Class) -> bool
    ensures { result ≡ is_number_no (code_no class) }
{
    matches!(class, Class::Number | Class::Date | Class::UnrealDate)
}

// START name, operator: the number or string.
fn start_value(
    s: &[u8],
    base: usize,
    at: usize,
    m: Transfer,
    name: Part,
    o: Operator,
) -> Result<(Statement, usize), Refusal>
    requires { Seen base s.now at }
    ensures { paper_read result ≡ read_from base s.now start_value (m, name, o) at }
{
    let t = next_item(s, base, at);
    if is_number(t.class) {
        let n = t.number;
        let start = start_when(name, o, Operand::Number(n));
        return ending(s, base, t.next, transferred(m, start));
    }
    match t.class {
        Class::Text => {
            let start = start_when(name, o, Operand::Text(t.place));
            ending(s, base, t.next, transferred(m, start))
        }
        _ => Err(unexpected(t)),
    }
}

// START name: the operator.
fn start_operator(
    s: &[u8],
    base: usize,
    at: usize,
    m: Transfer,
    name: Part,
) -> Result<(Statement, usize), Refusal>
    requires { Seen base s.now at }
    ensures { paper_read result ≡ read_from base s.now start_operator (m, name) at }
{
    let t = next_item(s, base, at);
    match t.class {
        Class::Operator => {
            let o = t.operator;
            start_value(s, base, t.next, m, name, o)
        }
        _ => Err(unexpected(t)),
    }
}

// START TIME>= time: an optional date.
fn start_date(
    s: &[u8],
    base: usize,
    at: usize,
    m: Transfer,
    clock: u32,
) -> Result<(Statement, usize), Refusal>
    requires { Seen base s.now at }
    ensures { paper_read result ≡ read_from base s.now start_date (m, clock) at }
{
    let t = next_item(s, base, at);
    match t.class {
        Class::Date => {
            let start = Start::At(clock, Some(t.value));
            ending(s, base, t.next, transferred(m, start))
        }
        Class::Semicolon => Ok((transferred(m, Start::At(clock, None)), t.next)),
        Class::UnrealDate => Err(t.refused(Reason::NotReal)),
        _ => Err(unexpected(t)),
    }
}

// START TIME>=: the time.
fn start_time(s: &[u8], base: usize, at: usize, m: Transfer) -> Result<(Statement, usize), Refusal>
    requires { Seen base s.now at }
    ensures { paper_read result ≡ read_from base s.now start_time m at }
{
    let t = next_item(s, base, at);
    match t.class {
        Class::Time => start_date(s, base, t.next, m, t.value),
        Class::UnrealTime => Err(t.refused(Reason::NotReal)),
        _ => Err(unexpected(t)),
    }
}

// START: what it waits for.
fn start_kind(s: &[u8], base: usize, at: usize, m: Transfer) -> Result<(Statement, usize), Refusal>
    requires { Seen base s.now at }
    ensures { paper_read result ≡ read_from base s.now start_kind m at }
{
    let t = next_item(s, base, at);
    match t.class {
        Class::Immediate => ending(s, base, t.next, transferred(m, Start::Immediate)),
        Class::TimeGe => start_time(s, base, t.next, m),
        Class::Name => start_operator(s, base, t.next, m, part_of(t)),
        _ => Err(unexpected(t)),
    }
}

// A start clause, or the ; that stands where a missing one would begin.
fn move_start(
    s: &[u8],
    base: usize,
    at: usize,
    clause: StartClause,
    m: Transfer,
) -> Result<(Statement, usize), Refusal>
    requires { Seen base s.now at }
    ensures { paper_read result ≡ read_from base s.now (move_start clause) m at }
{
    let t = next_item(s, base, at);
    match t.class {
        Class::Start => start_kind(s, base, t.next, m),
        Class::Semicolon => match clause {
            StartClause::Required => Err(unexpected(t)),
            StartClause::Optional => Ok((transferred(m, Start::Immediate), t.next)),
        },
        _ => Err(unexpected(t)),
    }
}

// UPLOAD or DOWNLOAD, file spec: ACTIVE or a file spec or a name.
fn move_source(
    s: &[u8],
    base: usize,
    at: usize,
    clause: StartClause,
    download: bool,
    file: usize,
) -> Result<(Statement, usize), Refusal>
    requires { Seen base s.now at }
    ensures { paper_read result ≡ read_from base s.now (move_source clause) (download, file) at }
{
    let t = next_item(s, base, at);
    match t.class {
        Class::Active => move_start(
            s,
            base,
            t.next,
            clause,
            transfer_of(download, file, Source::Active),
        ),
        Class::Text => move_start(
            s,
            base,
            t.next,
            clause,
            transfer_of(download, file, Source::File(t.place)),
        ),
        Class::Name => move_start(
            s,
            base,
            t.next,
            clause,
            transfer_of(download, file, Source::Name(part_of(t))),
        ),
        _ => Err(unexpected(t)),
    }
}

// UPLOAD or DOWNLOAD: the file spec.
fn move_file(
    s: &[u8],
    base: usize,
    at: usize,
    clause: StartClause,
    download: bool,
) -> Result<(Statement, usize), Refusal>
    requires { Seen base s.now at }
    ensures { paper_read result ≡ read_from base s.now (move_file clause) download at }
{
    let t = next_item(s, base, at);
    match t.class {
        Class::Text => move_source(s, base, t.next, clause, download, t.place),
        _ => Err(unexpected(t)),
    }
}

// GETINFO: the file spec.
fn info_file(s: &[u8], base: usize, at: usize) -> Result<(Statement, usize), Refusal>
    requires { Seen base s.now at }
    ensures { paper_read result ≡ read_from base s.now info_file tt at }
{
    let t = next_item(s, base, at);
    match t.class {
        Class::Text => ending(s, base, t.next, Statement::GetInfo { file: t.place }),
        _ => Err(unexpected(t)),
    }
}

// ABORT, REPORT or EVENT: the name.
fn abort_name(
    s: &[u8],
    base: usize,
    at: usize,
    what: Aborted,
) -> Result<(Statement, usize), Refusal>
    requires { Seen base s.now at }
    ensures { paper_read result ≡ read_from base s.now abort_name what at }
{
    let t = next_item(s, base, at);
    match t.class {
        Class::Name => {
            let x = Statement::Abort {
                what,
                name: part_of(t),
            };
            ending(s, base, t.next, x)
        }
        _ => Err(unexpected(t)),
    }
}

// ABORT: REPORT or EVENT.
fn abort_kind(s: &[u8], base: usize, at: usize) -> Result<(Statement, usize), Refusal>
    requires { Seen base s.now at }
    ensures { paper_read result ≡ read_from base s.now abort_kind tt at }
{
    let t = next_item(s, base, at);
    match t.class {
        Class::Report => abort_name(s, base, t.next, Aborted::Report),
        Class::Event => abort_name(s, base, t.next, Aborted::Event),
        _ => Err(unexpected(t)),
    }
}

// A statement of any kind, from its first token t on.
pub fn statement_of(
    s: &[u8],
    base: usize,
    clause: StartClause,
    t: Item,
) -> Result<(Statement, usize), Refusal>
    requires { Seen base s.now t.next }
    ensures { paper_read result ≡ statement_of base s.now clause t }
{
    match t.class {
        Class::Job => job_name(s, base, t.next),
        Class::Upload => move_file(s, base, t.next, clause, false),
        Class::Download => move_file(s, base, t.next, clause, true),
        Class::GetInfo => info_file(s, base, t.next),
        Class::Abort => abort_kind(s, base, t.next),
        _ => Err(unexpected(t)),
    }
}
