// Whether a date yyyymmdd and a time hhmmss, given as whole numbers, are real ones, and the fields of a time. Nothing is divided: the small
// gateway's processor cannot.
#![tactic(auto)]

ghost use Rattle.std.specs.Prelude.{◌≡◌, ◌&&◌, ◌+◌, ◌*◌, ◌/◌, ◌%◌, ◌≤◌, ◌<◌, ◌⊎◌, leb};
ghost use Rattle.calendar.specs.Calendar.{february_length, month_length, is_day, real_date, real_time};

// A year divides by 100 where its last two digits are 00, and then by 400 where it divides by 16.
fn february_length(year: u32) -> u32
    requires { year < 10000 }
    ensures { result ≡ february_length year }
{
    let by_4 = year & 3 == 0;
    let by_100 = two_within(year, 1, HUNDREDTH, 0, 0);
    let by_400 = by_100 & (year & 15 == 0);
    if by_4 & !(by_100 & !by_400) { 29 } else { 28 }
}

fn month_length(year: u32, month: u32) -> u32
    requires { year < 10000 }
    ensures { result ≡ month_length year month }
{
    if month == 2 {
        return february_length(year);
    }
    if (month == 4) | (month == 6) | (month == 9) | (month == 11) {
        30
    } else {
        31
    }
}

// Day from 01 to the month's length.
fn is_day(year: u32, month: u32, day: u32) -> bool
    requires { year < 10000 }
    ensures { result ≡ is_day year month day }
{
    (1 <= day) & (day <= month_length(year, month))
}

// A number as its last two digits, the two before them and the rest: of a time its second, minute and hour.
#[derive(Clone, Copy, Debug, PartialEq, Eq, Hash)]
pub struct Fields {
    pub high: u32,
    pub middle: u32,
    pub low: u32,
}

// A number as so many times a power of ten, and a rest.
#[derive(Clone, Copy, Debug, PartialEq, Eq, Hash)]
struct Split {
    high: u32,
    low: u32,
}

// Some of the ten thousands in n, never more than there are: thirteen of them are a little less than 2 to the 17th. Below a million at
// most one is missed, and above it at most 82.
fn some_ten_thousands(n: u32) -> u32
    requires { n < 100000000 }
    ensures { result ≡ n * 13 / 131072 }
{
    n * 13 >> 17
}

// Splits n by a power of ten of which some are counted, all or all but one: the rest decides, and is had by subtracting.
fn split_by(n: u32, power: u32, some: u32) -> Split
    requires { (some * power ≤ n) × (n < some * power + 2 * power) }
    ensures { (result.high ≡ n / power) × (result.low ≡ n % power) }
{
    let rest = n - some * power;
    if rest < power {
        return Split {
            high: some,
            low: rest,
        };
    }
    Split {
        high: some + 1,
        low: rest - power,
    }
}

// Ten thousands are counted and subtracted, and then hundreds, of which 163 are a little less than 2 to the 14th.
pub fn fields_of(n: u32) -> Fields
    requires { n < 1000000 }
    ensures { (result.high ≡ n / 10000) × (result.middle ≡ n / 100 % 100) × (result.low ≡ n % 100) }
{
    let above = split_by(n, 10000, some_ten_thousands(n));
    let below = split_by(above.low, 100, above.low * 163 >> 14);
    Fields {
        high: above.high,
        middle: below.high,
        low: below.low,
    }
}

// The hundredth part of 2 to the 32nd and a little more, and the ten thousandth.
const HUNDREDTH: u32 = 42949673;

const TEN_THOUSANDTH: u32 = 429497;

// n times a part of 2 to the 32nd, without whole ones: how far n has come within its hundred, or its ten thousand. What the part is too
// large by adds up to less than one part.
fn part_of(n: u32, part: u32) -> u32
    ensures { result ≡ n * part % 4294967296 }
{
    (n as u64 * part as u64 & 4294967295) as u32
}

// Whether two digits of n are from low to high: its last two, by the unit 1, or the two before them, by the unit 100.
fn two_within(n: u32, unit: u32, part: u32, low: u32, high: u32) -> bool
    requires small { (n < 1000000) × (low < 99) × (high < 99) }
    requires parted { ((unit ≡ 1) × (part ≡ HUNDREDTH)) ⊎ ((unit ≡ 100) × (part ≡ TEN_THOUSANDTH)) }
    ensures { result ≡ (leb low (n / unit % 100) && leb (n / unit % 100) high) }
{
    let width = unit * part;
    let place = part_of(n, part);
    (low * width <= place) & (place < high * width + width)
}

// Only a day after the 28th is looked at with its month and year: a table with thousands of answers tests as many dates.
pub fn is_real_date(n: u32) -> bool
    ensures { result ≡ real_date n }
{
    if n <= 99999999 {
        let some_years = some_ten_thousands(n);
        let rest = n - some_years * 10000;
        if two_within(rest, 100, TEN_THOUSANDTH, 1, 12) {
            if two_within(rest, 1, HUNDREDTH, 1, 28) {
                return true;
            }
            let date = fields_of(rest);
            return is_day(some_years + date.high, date.middle, date.low);
        }
    }
    false
}

pub fn is_real_time(n: u32) -> bool
    ensures { result ≡ real_time n }
{
    if n < 240000 {
        return two_within(n, 100, TEN_THOUSANDTH, 0, 59) & two_within(n, 1, HUNDREDTH, 0, 59);
    }
    false
}
