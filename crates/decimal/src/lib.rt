// Whole numbers as decimal digits, written and read: one function each for every width up to 16.
#![tactic(auto)]

ghost use Rattle.std.specs.Prelude.{◌≡◌, ◌+◌, ◌*◌, ◌/◌, ◌%◌, ◌^◌, ◌≤◌, ◌<◌, length};
ghost use Rattle.field.specs.Part.{part, Wrote};
ghost use Rattle.decimal.specs.Digits.{digits, plain_width};
ghost use Rattle.decimal.specs.Read.{digits_read};

// The power of ten at the k-th place of a field, from 0 on: each is ten times the one below. Where k is known to the compiler, so is the
// power.
fn ten_to(k: usize) -> u64
    requires { k ≤ 15 }
    ensures { result ≡ 10 ^ k }
{
    let mut power: u64 = 1;
    for _i in 0..k {
        power *= 10;
    }
    power
}

// How often a power goes into a number, and what is left of the number.
#[derive(Clone, Copy, Debug, PartialEq, Eq, Hash)]
struct Taken {
    times: u8,
    rest: u64,
}

// Takes power out of n as often as it goes, by subtracting it, and two of it at once where two go: the small gateway's processor does not
// divide. Of a loop that subtracts one at a time the compiler makes a division again, since it knows what such a loop comes to.
fn take_out(n: u64, power: u64) -> Taken
    requires { (n < 10 * power) × (power ≤ 10 ^ 15) }
    ensures { (result.times ≡ n / power) × (result.rest ≡ n % power) }
{
    let two = power + power;
    let mut times = 0;
    let mut rest = n;
    while power <= rest {
        if two <= rest {
            rest -= two;
            times += 2;
        } else {
            rest -= power;
            times += 1;
        }
    }
    Taken { times, rest }
}

// Writes n as width digits from at on, and gives the place after them. That n fits the width is asked for, so that each digit is what its
// power leaves of the one before it.
pub fn put_digits(out: &mut [u8], at: usize, width: usize, n: u64) -> usize
    requires { (width ≤ 16) × (n < 10 ^ width) × (at + width ≤ length out.old) }
    ensures { Wrote out.old at (digits width n) out.new result }
{
    let mut rest = n;
    for i in 0..width {
        let digit = take_out(rest, ten_to(width - i - 1));
        out[at + i] = b'0' + digit.times;
        rest = digit.rest;
    }
    at + width
}

// Reads the width digits from at on.
pub fn digits_at(s: &[u8], at: usize, width: usize) -> Option<u64>
    requires { (0 < width) × (width ≤ 16) }
    ensures { result ≡ digits_read width (part s.now at width) }
{
    if s.len() < at {
        return None;
    }
    if s.len() - at < width {
        return None;
    }
    let mut acc: u64 = 0;
    for b in &s[at..at + width] {
        if *b < b'0' {
            return None;
        }
        if b'9' < *b {
            return None;
        }
        acc = acc * 10 + u64::from(*b - b'0');
    }
    Some(acc)
}

// How many digits n has without leading zeros: so wide a field holds it, and put_digits and digits_at serve. It counts powers of ten and
// does not divide.
pub fn plain_width(n: u64) -> usize
    requires { n < 10 ^ 16 }
    ensures { result ≡ plain_width n }
{
    let mut width = 1;
    let mut power: u64 = 10;
    while power <= n {
        power *= 10;
        width += 1;
    }
    width
}
