// The tokens of a job file: what stands at a place, with the place after it.
#![tactic(auto)]

ghost use Rattle.std.specs.Prelude.{◌≡◌, ◌≤◌, ◌<◌, ◌*◌, length, get_or};
ghost use Rattle.counts.specs.Limits.{file_bytes};
ghost use Rattle.word.specs.Word.{word_read};
ghost use Rattle.token.specs.declared.Token.TheVariants.{Sign};
ghost use Rattle.token.specs.Token.{word_token, string_at, is_text_at, pair_at, is_time_at, is_number_at, shaped_at, numeric_at, one_sign, sign_before_equal, sign_at, token_at, next_token};

use counts::{NUMBER_DIGITS, TEXT_BYTES};
use field::byte_at;
use scan::{blank_end, digit_at, digits_end, is_digit, is_letter, numeric_end, text_end};
use word::{Word, word_at};

#[derive(Clone, Copy, Debug, PartialEq, Eq, Hash)]
pub enum Operator {
    Equal,
    NotEqual,
    Above,
    Below,
    AtLeast,
    AtMost,
}

// Why bytes are no token: a byte that begins none; a string that meets the end of the file first; a string that meets a forbidden byte or
// its 256th content byte first; a word that is too long or a numeric run of neither shape.
#[derive(Clone, Copy, Debug, PartialEq, Eq, Hash)]
pub enum Why {
    Stray,
    OpenString,
    BrokenString,
    Misshapen,
}

// A token from start up to end; the end of the file; or a place where no token stands: a case and no Err, since a reader takes the three alike as what
// stands next.
#[derive(Clone, Copy, Debug, PartialEq, Eq, Hash)]
pub enum Token {
    End(usize),
    NoToken {
        why: Why,
        place: usize,
    },
    Word {
        start: usize,
        end: usize,
        word: Word,
    },
    Number {
        start: usize,
        end: usize,
    },
    Time {
        start: usize,
        end: usize,
    },
    Text {
        start: usize,
        end: usize,
    },
    Sign {
        operator: Operator,
        start: usize,
        end: usize,
    },
    Semicolon {
        start: usize,
        end: usize,
    },
}

fn word_token(s: &[u8], i: usize) -> Token
    requires { (i < length s.now) × (length s.now ≤ file_bytes) }
    ensures { result ≡ word_token i (word_read s.now i) }
{
    match word_at(s, i) {
        Some((word, end)) => Token::Word {
            start: i,
            end,
            word,
        },
        None => Token::NoToken {
            why: Why::Misshapen,
            place: i,
        },
    }
}

fn text_token(s: &[u8], i: usize) -> Token
    requires { (i < length s.now) × (length s.now ≤ file_bytes) × (get_or s.now i 0 ≡ 34) }
    ensures { result ≡ string_at s.now i }
{
    let end = text_end(s, i + 1);
    if end - (i + 1) <= TEXT_BYTES {
        if byte_at(s, end) == b'"' {
            return Token::Text {
                start: i,
                end: end + 1,
            };
        }
        if end < s.len() {
            return Token::NoToken {
                why: Why::BrokenString,
                place: i,
            };
        }
        return Token::NoToken {
            why: Why::OpenString,
            place: i,
        };
    }
    Token::NoToken {
        why: Why::BrokenString,
        place: i,
    }
}

// Whether a whole string begins at i.
pub fn is_text(s: &[u8], i: usize) -> bool
    ensures { result ≡ is_text_at s.now i }
{
    if i < s.len() {
        if s[i] == b'"' {
            let end = text_end(s, i + 1);
            return (end - (i + 1) <= TEXT_BYTES) & (byte_at(s, end) == b'"');
        }
    }
    false
}

fn sign(operator: Operator, start: usize, end: usize) -> Token
    ensures { result ≡ Sign operator start end }
{
    Token::Sign {
        operator,
        start,
        end,
    }
}

// A sign of one byte b.
fn one_sign(b: u8, i: usize) -> Token
    requires { i < file_bytes }
    ensures { result ≡ one_sign b i }
{
    let end = i + 1;
    match b {
        b';' => Token::Semicolon { start: i, end },
        b'=' => sign(Operator::Equal, i, end),
        b'>' => sign(Operator::Above, i, end),
        b'<' => sign(Operator::Below, i, end),
        _ => Token::NoToken {
            why: Why::Stray,
            place: i,
        },
    }
}

// The same where = follows b.
fn sign_before_equal(b: u8, i: usize) -> Token
    requires { i < file_bytes }
    ensures { result ≡ sign_before_equal b i }
{
    let end = i + 2;
    match b {
        b'!' => sign(Operator::NotEqual, i, end),
        b'>' => sign(Operator::AtLeast, i, end),
        b'<' => sign(Operator::AtMost, i, end),
        _ => one_sign(b, i),
    }
}

fn sign_token(s: &[u8], i: usize) -> Token
    requires { (i < length s.now) × (length s.now ≤ file_bytes) }
    ensures { result ≡ sign_at s.now i }
{
    if byte_at(s, i + 1) == b'=' {
        return sign_before_equal(s[i], i);
    }
    one_sign(s[i], i)
}

// Two digits at i.
fn pair_at(s: &[u8], i: usize) -> bool
    requires { i < 2 * file_bytes }
    ensures { result ≡ pair_at s.now i }
{
    digit_at(s, i) & digit_at(s, i + 1)
}

// dd:dd:dd from i to e.
fn is_time(s: &[u8], i: usize, e: usize) -> bool
    requires { (i ≤ e) × (e ≤ file_bytes) }
    ensures { result ≡ is_time_at s.now i e }
{
    if e - i == 8 {
        return pair_at(s, i)
            & (byte_at(s, i + 2) == b':')
            & pair_at(s, i + 3)
            & (byte_at(s, i + 5) == b':')
            & pair_at(s, i + 6);
    }
    false
}

// 1 to 16 digits from d to e, with at most one point between two of them.
fn is_number(s: &[u8], d: usize, e: usize) -> bool
    requires { (d ≤ e) × (e ≤ file_bytes) × (length s.now ≤ file_bytes) }
    ensures { result ≡ is_number_at s.now d e }
{
    let m = digits_end(s, d);
    if m == e {
        return e <= d + NUMBER_DIGITS;
    }
    let f = digits_end(s, m + 1);
    (byte_at(s, m) == b'.') & digit_at(s, m + 1) & (f == e) & (e <= d + NUMBER_DIGITS + 1)
}

// A numeric run that starts at i and has its first digit at d.
fn shaped_token(s: &[u8], i: usize, d: usize) -> Token
    requires { (i ≤ d) × (d ≤ length s.now) × (length s.now ≤ file_bytes) }
    ensures { result ≡ shaped_at s.now i d }
{
    let end = numeric_end(s, d);
    if is_time(s, i, end) {
        return Token::Time { start: i, end };
    }
    if is_number(s, d, end) {
        return Token::Number { start: i, end };
    }
    Token::NoToken {
        why: Why::Misshapen,
        place: i,
    }
}

fn numeric_token(s: &[u8], i: usize) -> Token
    requires { (i < length s.now) × (length s.now ≤ file_bytes) }
    ensures { result ≡ numeric_at s.now i }
{
    if s[i] == b'-' {
        if digit_at(s, i + 1) {
            return shaped_token(s, i, i + 1);
        }
        return Token::NoToken {
            why: Why::Stray,
            place: i,
        };
    }
    shaped_token(s, i, i)
}

// The token that begins at i, by its first byte.
fn token_at(s: &[u8], i: usize) -> Token
    requires { length s.now ≤ file_bytes }
    ensures { result ≡ token_at s.now i }
{
    if s.len() <= i {
        return Token::End(i);
    }
    let b = s[i];
    if is_letter(b) {
        return word_token(s, i);
    }
    if is_digit(b) {
        return numeric_token(s, i);
    }
    match b {
        b'-' => numeric_token(s, i),
        b'"' => text_token(s, i),
        _ => sign_token(s, i),
    }
}

// The next token from at on.
pub fn next_token(s: &[u8], at: usize) -> Token
    requires { length s.now ≤ file_bytes }
    ensures { result ≡ next_token s.now at }
{
    token_at(s, blank_end(s, at))
}
