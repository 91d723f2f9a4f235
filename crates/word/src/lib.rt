// The words of a job file: where a word ends, and whether it is reserved.
#![tactic(auto)]

ghost use Rattle.std.specs.Prelude.{◌≡◌, cond, ◌≤◌, ◌<◌, length};
ghost use Rattle.field.specs.Bytes.{has_at};
ghost use Rattle.word.specs.Word.{is_name, which_word, is_index, closed_index, group_read, indexed, word_read};

use counts::{INDEX_DIGITS, WORD_BYTES};
use field::{byte_at, has_at};
use scan::{digits_end, word_end};

// Which word it is: a reserved one, a name, or TIME>=. Other is STOP, TIME or NEVER, which no production takes. They stand in the order of
// the classes, so that a word's class costs nothing.
#[derive(Clone, Copy, Debug, PartialEq, Eq, Hash)]
pub enum Word {
    Job,
    Response,
    Upload,
    Download,
    GetInfo,
    Abort,
    Report,
    Event,
    Start,
    Active,
    Immediate,
    Other,
    Name,
    TimeGe,
}

// Whether it is a name.
pub fn is_name(w: Word) -> bool
    ensures { result ≡ is_name w }
{
    matches!(w, Word::Name)
}

// The word w where its letters stand at a, else another.
fn word_or(s: &[u8], a: usize, letters: &[u8], w: Word, other: Word) -> Word
    ensures { result ≡ cond (has_at s.now a letters.now) w other }
{
    if has_at(s, a, letters) { w } else { other }
}

// Which word the n bytes from a on are: by their number, few reserved words are left to compare.
fn which_word(s: &[u8], a: usize, n: usize) -> Word
    ensures { result ≡ which_word s.now a n }
{
    match n {
        3 => word_or(s, a, b"JOB", Word::Job, Word::Name),
        4 => {
            let w = word_or(s, a, b"TIME", Word::Other, Word::Name);
            word_or(s, a, b"STOP", Word::Other, w)
        }
        5 => {
            let w = word_or(s, a, b"NEVER", Word::Other, Word::Name);
            let w = word_or(s, a, b"START", Word::Start, w);
            let w = word_or(s, a, b"EVENT", Word::Event, w);
            word_or(s, a, b"ABORT", Word::Abort, w)
        }
        6 => {
            let w = word_or(s, a, b"ACTIVE", Word::Active, Word::Name);
            let w = word_or(s, a, b"REPORT", Word::Report, w);
            word_or(s, a, b"UPLOAD", Word::Upload, w)
        }
        7 => word_or(s, a, b"GETINFO", Word::GetInfo, Word::Name),
        8 => {
            let w = word_or(s, a, b"DOWNLOAD", Word::Download, Word::Name);
            word_or(s, a, b"RESPONSE", Word::Response, w)
        }
        9 => word_or(s, a, b"IMMEDIATE", Word::Immediate, Word::Name),
        _ => Word::Name,
    }
}

// Whether a number may have n digits.
fn is_index(n: usize) -> bool
    ensures { result ≡ is_index n }
{
    (1 <= n) & (n <= INDEX_DIGITS)
}

// The place after the number from j on and the bracket that closes its group, or no group.
fn closed_index(s: &[u8], j: usize) -> Option<usize>
    requires { j ≤ length s.now }
    ensures { result ≡ closed_index s.now j }
{
    let end = digits_end(s, j);
    if is_index(end - j) & (byte_at(s, end) == b']') {
        return Some(end + 1);
    }
    None
}

// The place after the group that the bracket at j opens.
fn group_at(s: &[u8], j: usize) -> Option<usize>
    requires { j < length s.now }
    ensures { result ≡ group_read s.now j }
{
    let end = digits_end(s, j + 1);
    if is_index(end - (j + 1)) & (byte_at(s, end) == b',') {
        return closed_index(s, end + 1);
    }
    closed_index(s, j + 1)
}

// The name that begins at i, with the group that the bracket at j opens.
fn indexed_name(s: &[u8], i: usize, j: usize) -> Option<(Word, usize)>
    requires { (i < length s.now) × (j < length s.now) }
    ensures { result ≡ indexed i (group_read s.now j) }
{
    let last = group_at(s, j)?;
    if i + WORD_BYTES < last {
        return None;
    }
    Some((Word::Name, last))
}

// The word that begins with the letter at i, and the place after it; or the run from there is no word.
pub fn word_at(s: &[u8], i: usize) -> Option<(Word, usize)>
    requires { i < length s.now }
    ensures { result ≡ word_read s.now i }
{
    if has_at(s, i, b"TIME>=") {
        return Some((Word::TimeGe, i + 6));
    }
    let end = word_end(s, i);
    if i + WORD_BYTES < end {
        return None;
    }
    Some((which_word(s, i, end - i), end))
}
