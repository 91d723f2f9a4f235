// A signed number with a scale, from the bytes of a number.
#![tactic(auto)]

ghost use Rattle.std.specs.Prelude.{◌≡◌, ◌+◌, ◌^◌, ◌≤◌, ◌<◌, length};
ghost use Rattle.field.specs.Part.{part};
ghost use Rattle.decimal.specs.Digits.{value};
ghost use Rattle.number.specs.Number.{digits_of, scale_of, signed_of, number_of};

// mantissa / 10^scale
#[derive(Clone, Copy, Debug, PartialEq, Eq, Hash)]
pub struct Number {
    pub mantissa: i64,
    pub scale: u32,
}

// The number that the digits among the bytes are.
fn magnitude(bytes: &[u8]) -> u64
    requires { length bytes.now ≤ 18 }
    ensures { (result ≡ value (digits_of bytes.now)) × (result < 10 ^ 18) }
{
    let mut m: u64 = 0;
    for b in bytes {
        if b.is_ascii_digit() {
            m = m * 10 + u64::from(*b - b'0');
        }
    }
    m
}

// How many of the bytes stand after the point.
fn scale(bytes: &[u8]) -> u32
    requires { length bytes.now ≤ 18 }
    ensures { result ≡ scale_of bytes.now }
{
    match bytes.iter().position(|b| *b == b'.') {
        Some(i) => (bytes.len() - (i + 1)) as u32,
        None => 0,
    }
}

// The magnitude m with its sign.
fn signed(minus: bool, m: u64) -> i64
    requires { m < 10 ^ 18 }
    ensures { result ≡ signed_of minus m }
{
    let v = m as i64;
    if minus { -v } else { v }
}

// The number whose width bytes stand from at on: 16 digits, a sign and a point are 18.
pub fn number_at(s: &[u8], at: usize, width: usize) -> Number
    requires { (at + width ≤ length s.now) × (0 < width) × (width ≤ 18) }
    ensures { result ≡ number_of (part s.now at width) }
{
    let bytes = &s[at..at + width];
    Number {
        mantissa: signed(bytes[0] == b'-', magnitude(bytes)),
        scale: scale(bytes),
    }
}
