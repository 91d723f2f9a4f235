// Whether a start clause is due: by the present date and time, the date on which its command was taken up, and the parameter's present value. Nothing is
// kept from one call to the next.
#![tactic(auto)]

ghost use Rattle.std.specs.Prelude.{◌≡◌, true, List, [], ℕ, ◌*◌, ◌^◌, ◌<◌, ltb, nat_abs};
ghost use Rattle.counts.specs.Result.{refused_by};
ghost use Rattle.field.specs.Bytes.{same};
ghost use Rattle.item.specs.Tokens.{paper_number, paper_operator};
ghost use Rattle.job.specs.Statement.{text_at};
ghost use Rattle.meaning.specs.Paper.{paper_start, paper_value};
ghost use Rattle.start.specs.Due.{Compared};
ghost use Rattle.start.specs.Decision.{present_value, given, paper_decision, by_order, number_holds, by_same, no_order, is_permitted, value_permitted, constant_permitted, constant_of, comparable, holds, condition_refusal, own_real, all_real, clause_refusal, is_due, decision, negative, mantissa_limit, Grown, Levelled};

use counts::{NUMBER_DIGITS, Reason, Refusal, TEXT_BYTES};
use number::Number;
use statement::{Operand, Start};
use token::Operator;

// The parameter's present value: a number, or the bytes that are given with it. C hands these bytes apart, so the value does not hold them.
#[derive(Clone, Copy, Debug, PartialEq, Eq, Hash)]
pub enum Present {
    Number(Number),
    Text,
}

// A mantissa is below this, 16 nines at most.
const MANTISSA_LIMIT: u64 = 10000000000000000;

// What a mantissa of 0 stands at, so that every number that is compared stands at 0 or above.
const ZERO_LEVEL: u64 = 100000000000000000;

// A whole number as its sign and its magnitude.
#[derive(Clone, Copy, Debug, PartialEq, Eq, Hash)]
struct SignAndSize {
    minus: bool,
    size: u64,
}

fn sign_and_size(m: i64) -> SignAndSize
    ensures { (result.minus ≡ negative m) × (result.size ≡ nat_abs m) }
{
    SignAndSize {
        minus: m < 0,
        size: m.unsigned_abs(),
    }
}

// At most 16 digits, and one of them before the point.
fn is_permitted(n: Number) -> bool
    ensures { result ≡ is_permitted (paper_number n) }
{
    let mantissa = sign_and_size(n.mantissa);
    (mantissa.size < MANTISSA_LIMIT) & (n.scale < NUMBER_DIGITS as u32)
}

// Numbers are put in exact order by grown, level and by_level: no method of the library compares mantissas with scales without a division or
// a wider word.

// m times ten, by times, or as often as it takes to go beyond every mantissa.
fn grown(m: u64, by: u32) -> u64
    requires { m < mantissa_limit }
    ensures { Grown (m * 10 ^ by) result }
{
    let mut r = m;
    for _ in 0..by {
        if MANTISSA_LIMIT <= r {
            return r;
        }
        r *= 10;
    }
    r
}

// How far m times ten to the by-th stands above the lowest of all numbers that are compared.
fn level(m: i64, by: u32) -> u64
    requires { nat_abs m < mantissa_limit }
    ensures { Levelled (negative m) (nat_abs m * 10 ^ by) result }
{
    let mantissa = sign_and_size(m);
    let size = grown(mantissa.size, by);
    if mantissa.minus {
        return ZERO_LEVEL - size;
    }
    ZERO_LEVEL + size
}

// What an operator makes of two levels.
fn by_level(o: Operator, v: u64, k: u64) -> bool
    ensures { result ≡ by_order (paper_operator o) (ltb v k) (ltb k v) }
{
    match o {
        Operator::Equal => v == k,
        Operator::NotEqual => v != k,
        Operator::Above => k < v,
        Operator::Below => v < k,
        Operator::AtLeast => k <= v,
        Operator::AtMost => v <= k,
    }
}

// Compares two numbers by their exact value. The one with fewer digits after the point gets as many as the other.
fn number_holds(o: Operator, v: Number, k: Number) -> bool
    requires { (is_permitted (paper_number v) ≡ true) × (is_permitted (paper_number k) ≡ true) }
    ensures { result ≡ number_holds (paper_operator o) (paper_number v) (paper_number k) }
{
    if v.scale <= k.scale {
        let more = k.scale - v.scale;
        return by_level(o, level(v.mantissa, more), level(k.mantissa, 0));
    }
    let more = v.scale - k.scale;
    by_level(o, level(v.mantissa, 0), level(k.mantissa, more))
}

// Whether the text of the string at its place is these bytes.
fn is_same(file: &[u8], quote: usize, text: &[u8]) -> bool
    ensures { result ≡ same (text_at file.now quote) text.now }
{
    job::text_at(file, quote) == text
}

fn by_same(o: Operator, is: bool) -> bool
    ensures { result ≡ by_same (paper_operator o) is }
{
    match o {
        Operator::Equal => is,
        Operator::NotEqual => !is,
        _ => false,
    }
}

// Whether an operator asks for no order.
fn no_order(o: Operator) -> bool
    ensures { result ≡ no_order (paper_operator o) }
{
    matches!(o, Operator::Equal | Operator::NotEqual)
}

fn value_permitted(value: Present, text: &[u8]) -> bool
    ensures { result ≡ value_permitted (present_value value text.now) }
{
    match value {
        Present::Number(n) => is_permitted(n),
        Present::Text => (text.len() <= TEXT_BYTES) & scan::is_all_text(text),
    }
}

fn constant_permitted(constant: Operand, file: &[u8]) -> bool
    ensures { result ≡ constant_permitted file.now (paper_value constant) }
{
    match constant {
        Operand::Number(n) => is_permitted(n),
        Operand::Text(quote) => token::is_text(file, quote),
    }
}

// Whether number stands against number, or string against string without an order.
fn is_comparable(o: Operator, constant: Operand, value: Present) -> bool
    ensures { result ≡ comparable (paper_operator o) (present_value value []) (constant_of [] (paper_value constant)) }
{
    match (constant, value) {
        (Operand::Number(_), Present::Number(_)) => true,
        (Operand::Text(_), Present::Text) => no_order(o),
        _ => false,
    }
}

// Whether a condition may be decided, or why not.
fn may_compare(
    o: Operator,
    constant: Operand,
    file: &[u8],
    value: Present,
    text: &[u8],
) -> Result<(), Reason>
    ensures { refused_by result ≡ condition_refusal file.now (paper_operator o) (paper_value constant) (present_value value text.now) }
{
    if constant_permitted(constant, file) & value_permitted(value, text) {
        if is_comparable(o, constant, value) {
            return Ok(());
        }
        return Err(Reason::NotComparable);
    }
    Err(Reason::NotARecord)
}

// Whether a condition holds that no refusal meets.
fn condition_holds(o: Operator, constant: Operand, file: &[u8], value: Present, text: &[u8]) -> bool
    requires { condition_refusal file.now (paper_operator o) (paper_value constant) (present_value value text.now) ≡ 0 }
    ensures { result ≡ holds (paper_operator o) (present_value value text.now) (constant_of file.now (paper_value constant)) }
{
    match (constant, value) {
        (Operand::Number(k), Present::Number(v)) => number_holds(o, v, k),
        (Operand::Text(quote), Present::Text) => by_same(o, is_same(file, quote, text)),
        _ => false,
    }
}

// Whether the date and the time of the clause, where it has them, are real.
fn own_real(clause: Start) -> bool
    ensures { result ≡ own_real (paper_start clause) }
{
    match clause {
        Start::At(time, None) => calendar::is_real_time(time),
        Start::At(time, Some(date)) => moment::is_real(date, time),
        Start::Immediate | Start::When(_) => true,
    }
}

// Whether every date and time that is given is real.
fn all_real(clause: Start, date: u32, time: u32, taken_up: u32) -> bool
    ensures { result ≡ all_real date time taken_up (paper_start clause) }
{
    moment::is_real(date, time) & calendar::is_real_date(taken_up) & own_real(clause)
}

// Whether a clause may be decided whose dates and times are real, or why not.
fn may_decide(clause: Start, file: &[u8], value: Present, text: &[u8]) -> Result<(), Reason>
    ensures { refused_by result ≡ clause_refusal file.now (present_value value text.now) (paper_start clause) }
{
    match clause {
        Start::Immediate | Start::At(_, _) => Ok(()),
        Start::When(c) => may_compare(c.operator, c.operand, file, value, text),
    }
}

// Whether a time has come. Without a date it is that of the day on which the command was taken up.
fn time_is_due(at: u32, day: Option<u32>, date: u32, time: u32, taken_up: u32) -> bool
    ensures { (s : List ℕ) (v : Compared) → result ≡ is_due (given s date time taken_up v) (paper_start (Start.At at day)) }
{
    match day {
        None => moment::is_at_or_after(date, time, taken_up, at),
        Some(on) => moment::is_at_or_after(date, time, on, at),
    }
}

// Whether a clause is due that no refusal meets.
fn clause_is_due(
    clause: Start,
    file: &[u8],
    date: u32,
    time: u32,
    taken_up: u32,
    value: Present,
    text: &[u8],
) -> bool
    requires { clause_refusal file.now (present_value value text.now) (paper_start clause) ≡ 0 }
    ensures { result ≡ is_due (given file.now date time taken_up (present_value value text.now)) (paper_start clause) }
{
    match clause {
        Start::Immediate => true,
        Start::At(at, day) => time_is_due(at, day, date, time, taken_up),
        Start::When(c) => condition_holds(c.operator, c.operand, file, value, text),
    }
}

// Whether a start clause is due. Its string stands in file, and its name is not looked at: the value is the parameter's, whoever looked that up. The bytes
// text are the value where it is one of bytes.
pub fn is_due(
    clause: Start,
    file: &[u8],
    date: u32,
    time: u32,
    taken_up: u32,
    value: Present,
    text: &[u8],
) -> Result<bool, Refusal>
    ensures { paper_decision result ≡ decision (given file.now date time taken_up (present_value value text.now)) (paper_start clause) }
{
    if all_real(clause, date, time, taken_up) {
        may_decide(clause, file, value, text)?;
        return Ok(clause_is_due(clause, file, date, time, taken_up, value, text));
    }
    Err(Reason::NotReal.into())
}
