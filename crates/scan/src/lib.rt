// Scans: the kind of a byte, the end of a run of one kind, and the place of the next token.
#![tactic(auto)]

ghost use Rattle.std.specs.Prelude.{◌≡◌, ℕ, Bool, false, ◌<◌, ◌≤◌, eqb, length, get_or};
ghost use Rattle.scan.specs.Kinds.{is_separator, is_digit, is_letter, is_word_byte, is_numeric_byte, is_text_byte, is_comment_byte};
ghost use Rattle.scan.specs.Run.{run_end, blank_end, comment_at, Tests, Reached};

use field::byte_at;

// The kinds of byte. In a run the test of each byte is what costs: the kinds that long runs have ask first what most bytes answer.

fn is_separator(b: u8) -> bool
    ensures { result ≡ is_separator b }
{
    matches!(b, b' ' | b'\t' | b'\r' | b'\n')
}

pub fn is_digit(b: u8) -> bool
    ensures { result ≡ is_digit b }
{
    b.is_ascii_digit()
}

// Whether a digit stands at i.
pub fn digit_at(s: &[u8], i: usize) -> bool
    ensures { result ≡ is_digit (get_or s.now i 0) }
{
    is_digit(byte_at(s, i))
}

pub fn is_letter(b: u8) -> bool
    ensures { result ≡ is_letter b }
{
    b.is_ascii_alphabetic()
}

fn is_word_byte(b: u8) -> bool
    ensures { result ≡ is_word_byte b }
{
    if is_letter(b) {
        return true;
    }
    is_digit(b) | (b == b'_')
}

fn is_numeric_byte(b: u8) -> bool
    ensures { result ≡ is_numeric_byte b }
{
    if is_digit(b) {
        return true;
    }
    is_letter(b) | (b == b'_') | (b == b'.') | (b == b':')
}

fn is_text_byte(b: u8) -> bool
    ensures { result ≡ is_text_byte b }
{
    if b'"' < b {
        return b <= 254;
    }
    (b' ' <= b) & (b <= b'!')
}

fn is_comment_byte(b: u8) -> bool
    ensures { result ≡ is_comment_byte b }
{
    if b'\r' < b {
        return true;
    }
    (b != b'\r') & (b != b'\n')
}

// The end of a run of the bytes that a test takes: one loop for all kinds. It begins where at may lie past the bytes, which position over a part
// could not: so it is no plainer.
fn run_end<F: Fn(u8) -> bool>(s: &[u8], at: usize, is_of: F) -> usize
    requires { F.IsAlwaysCallable is_of }
    ensures { (p : ℕ → Bool) → Tests F.post is_of p → Reached s.now at (run_end p s.now at) result }
{
    let mut i = at;
    while i < s.len() {
        if !is_of(s[i]) {
            return i;
        }
        i += 1;
    }
    i
}

// The end of a run of a word's bytes.
pub fn word_end(s: &[u8], at: usize) -> usize
    ensures { Reached s.now at (run_end is_word_byte s.now at) result }
{
    run_end(s, at, |b| is_word_byte(b))
}

// The end of a numeric run.
pub fn numeric_end(s: &[u8], at: usize) -> usize
    ensures { Reached s.now at (run_end is_numeric_byte s.now at) result }
{
    run_end(s, at, |b| is_numeric_byte(b))
}

// The end of a run of digits.
pub fn digits_end(s: &[u8], at: usize) -> usize
    ensures { Reached s.now at (run_end is_digit s.now at) result }
{
    run_end(s, at, |b| is_digit(b))
}

// The end of a run of a string's bytes.
pub fn text_end(s: &[u8], at: usize) -> usize
    ensures { Reached s.now at (run_end is_text_byte s.now at) result }
{
    run_end(s, at, |b| is_text_byte(b))
}

// The end of a comment.
fn comment_end(s: &[u8], at: usize) -> usize
    ensures { Reached s.now at (run_end is_comment_byte s.now at) result }
{
    run_end(s, at, |b| is_comment_byte(b))
}

// Whether every byte may stand in a string. The loop has one way out, and the test no branch: so the compiler tests many bytes at a time.
pub fn is_all_text(s: &[u8]) -> bool
    ensures { result ≡ eqb (run_end is_text_byte s.now 0) (length s.now) }
{
    let mut all = true;
    for b in s {
        all &= (b' ' <= *b) & (*b <= b'!') | (b'#' <= *b) & (*b <= 254);
    }
    all
}

// Whether // stands at i.
fn comment_at(s: &[u8], i: usize) -> bool
    requires { i < length s.now }
    ensures { result ≡ comment_at s.now i }
{
    (byte_at(s, i) == b'/') & (byte_at(s, i + 1) == b'/')
}

// The place of the next token, or the end: past separators and comments. The place does not go on by one: a comment is passed at once.
pub fn blank_end(s: &[u8], at: usize) -> usize
    ensures { Reached s.now at (blank_end false s.now at) result }
{
    let mut i = at;
    while i < s.len() {
        if is_separator(s[i]) {
            i += 1;
        } else if comment_at(s, i) {
            i = comment_end(s, i + 1);
        } else {
            return i;
        }
    }
    i
}
