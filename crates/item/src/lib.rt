// The next token of a job file with its class: what the grammar sees of it, as a plain struct.
#![tactic(auto)]

ghost use Rattle.std.specs.Prelude.{◌≡◌, ◌+◌, ◌-◌, ◌≤◌, ◌<◌, length};
ghost use Rattle.counts.specs.Limits.{file_bytes};
ghost use Rattle.counts.specs.Refusals.{number_of as reason_number, refusal};
ghost use Rattle.field.specs.Part.{part};
ghost use Rattle.token.specs.Token.{Short};
ghost use Rattle.number.specs.Number.{number_of};
ghost use Rattle.item.specs.Tokens.{word_class, number_class, date_number, two_at, time_class, time_number};
ghost use Rattle.token.specs.declared.Operator.TheVariants.{Equal};
ghost use Rattle.grammar.specs.Grammar.Class.{operator as operatorClass};
ghost use Rattle.item.specs.Items.{code_of, code_no, made_no, refusal_no, zero, made_of, made, Seen, Stood};

use calendar::{is_real_date, is_real_time};
use counts::{Reason, Refusal};
use decimal::digits_at;
use number::{Number, number_at};
use token::{Operator, Token, Why, next_token};
use word::Word;

// What the grammar sees of a token: its class; or that the file ends, or that no token stands, and why.
#[derive(Clone, Copy, Debug, PartialEq, Eq, Hash)]
pub enum Class {
    Job,
    Response,
    Upload,
    Download,
    GetInfo,
    Abort,
    Report,
    Event,
    Start,
    Active,
    Immediate,
    // STOP, TIME and NEVER, which no production takes
    Reserved,
    Name,
    TimeGe,
    Number,
    // numbers of eight bare digits: a real date, or not
    Date,
    UnrealDate,
    Time,
    UnrealTime,
    Text,
    Operator,
    Semicolon,
    End,
    NoToken(Why),
}

// A token by its class: its first byte and the place after it, counted from the file's start; a date's or a time's number; what a number reads
// as; and which operator it is.
#[derive(Clone, Copy, Debug, PartialEq, Eq, Hash)]
pub struct Item {
    pub class: Class,
    pub place: usize,
    pub length: usize,
    pub next: usize,
    pub value: u32,
    pub number: Number,
    pub operator: Operator,
}

impl Item {
    // Its refusal, at its place.
    pub fn refused(self, reason: Reason) -> Refusal
        ensures { result ≡ refusal reason self.place }
    {
        Refusal {
            reason,
            place: self.place,
        }
    }
}

// The class of a word.
impl From<Word> for Class {
    ghost from_gives = { λ word class. class ≡ code_of (word_class word) };

    fn from(word: Word) -> Self {
        match word {
            Word::Job => Class::Job,
            Word::Response => Class::Response,
            Word::Upload => Class::Upload,
            Word::Download => Class::Download,
            Word::GetInfo => Class::GetInfo,
            Word::Abort => Class::Abort,
            Word::Report => Class::Report,
            Word::Event => Class::Event,
            Word::Start => Class::Start,
            Word::Active => Class::Active,
            Word::Immediate => Class::Immediate,
            Word::Other => Class::Reserved,
            Word::Name => Class::Name,
            Word::TimeGe => Class::TimeGe,
        }
    }
}

// The class that a number stands for. A number that none has is taken as that of a word that no production takes, and is refused like it.
impl From<u8> for Class {
    ghost from_gives = { λ number class. code_no class ≡ made_no number };

    fn from(number: u8) -> Self {
        match number {
            0 => Class::Job,
            1 => Class::Response,
            2 => Class::Upload,
            3 => Class::Download,
            4 => Class::GetInfo,
            5 => Class::Abort,
            6 => Class::Report,
            7 => Class::Event,
            8 => Class::Start,
            9 => Class::Active,
            10 => Class::Immediate,
            11 => Class::Reserved,
            12 => Class::Name,
            13 => Class::TimeGe,
            14 => Class::Number,
            15 => Class::Date,
            16 => Class::UnrealDate,
            17 => Class::Time,
            18 => Class::UnrealTime,
            19 => Class::Text,
            20 => Class::Operator,
            21 => Class::Semicolon,
            22 => Class::End,
            23 => Class::NoToken(Why::Stray),
            24 => Class::NoToken(Why::OpenString),
            25 => Class::NoToken(Why::BrokenString),
            26 => Class::NoToken(Why::Misshapen),
            _ => Class::Reserved,
        }
    }
}

// Why an item is refused where it may not stand. Several classes have one reason, so it is no conversion.
pub fn refusal_reason(class: Class) -> Reason
    ensures { reason_number result ≡ refusal_no (code_no class) }
{
    match class {
        Class::End => Reason::EndOfFile,
        Class::NoToken(Why::Stray) => Reason::NoToken,
        Class::NoToken(Why::OpenString) => Reason::OpenString,
        Class::NoToken(Why::BrokenString) => Reason::BrokenString,
        Class::NoToken(Why::Misshapen) => Reason::Misshapen,
        _ => Reason::Unexpected,
    }
}

// The number that an item is refused with where it may not stand, by the number of its class.
pub fn refusal_number(class: u8) -> u32
    ensures { result ≡ refusal_no class }
{
    refusal_reason(Class::from(class)).number()
}

// An item of a class, from start to end of the bytes that begin at base.
fn item_with(
    base: usize,
    class: Class,
    start: usize,
    end: usize,
    value: u32,
    number: Number,
    operator: Operator,
) -> Item
    requires { (start ≤ end) × (base + end < 18446744073709551616) }
    ensures { result ≡ made_of base class start end value number operator }
{
    Item {
        class,
        place: base + start,
        length: end - start,
        next: base + end,
        value,
        number,
        operator,
    }
}

// What a token that is no number reads as.
const NO_NUMBER: Number = Number {
    mantissa: 0,
    scale: 0,
};

// The same of a token that is no number and no operator. It says what item_with is given then: that is plainer than more arguments at each call.
fn item_of(base: usize, class: Class, start: usize, end: usize, value: u32) -> Item
    requires { (start ≤ end) × (base + end < 18446744073709551616) }
    ensures { result ≡ made base class start end value }
{
    item_with(base, class, start, end, value, NO_NUMBER, Operator::Equal)
}

// The same of an operator, which is no number either: it says what item_with is given then.
fn sign_item(base: usize, start: usize, end: usize, operator: Operator) -> Item
    requires { (start ≤ end) × (base + end < 18446744073709551616) }
    ensures { result ≡ made_of base (code_of operatorClass) start end 0 zero operator }
{
    item_with(base, Class::Operator, start, end, 0, NO_NUMBER, operator)
}

// The class of the number from a to b, and the date that it is: of eight bare digits it may be one.
fn dated(s: &[u8], a: usize, b: usize) -> (Class, u32)
    requires { Short s.now a b }
    ensures { (result.0 ≡ code_of (number_class s.now a b)) × (result.1 ≡ date_number s.now a b) }
{
    if b - a == 8 {
        let Some(n) = digits_at(s, a, 8) else {
            return (Class::Number, 0);
        };
        let day = n as u32;
        if is_real_date(day) {
            return (Class::Date, day);
        }
        return (Class::UnrealDate, day);
    }
    (Class::Number, 0)
}

// The number from a to b.
fn number_item(s: &[u8], base: usize, a: usize, b: usize) -> Item
    requires { Short s.now a b × (base + b < 18446744073709551616) }
    ensures { result ≡ made_of base (code_of (number_class s.now a b)) a b (date_number s.now a b) (number_of (part s.now a (b - a))) Equal }
{
    let (class, day) = dated(s, a, b);
    let number = number_at(s, a, b - a);
    item_with(base, class, a, b, day, number, Operator::Equal)
}

// The number of two digits at a.
fn two_at(s: &[u8], a: usize) -> u32
    ensures { (result ≡ two_at s.now a) × (result < 100) }
{
    digits_at(s, a, 2).unwrap_or(0) as u32
}

// The time dd:dd:dd from a to b.
fn time_item(s: &[u8], base: usize, a: usize, b: usize) -> Item
    requires { (a ≤ b) × (base + b < 18446744073709551616) × (a ≤ file_bytes) }
    ensures { result ≡ made base (code_of (time_class s.now a)) a b (time_number s.now a) }
{
    let time = two_at(s, a) * 10000 + two_at(s, a + 3) * 100 + two_at(s, a + 6);
    let class = if is_real_time(time) {
        Class::Time
    } else {
        Class::UnrealTime
    };
    item_of(base, class, a, b, time)
}

// The next token of the bytes s, which stand from the place base on, from the place at on.
pub fn next_item(s: &[u8], base: usize, at: usize) -> Item
    requires { Seen base s.now at }
    ensures { Stood base s.now at result }
{
    match next_token(s, at - base) {
        Token::End(p) => item_of(base, Class::End, p, p, 0),
        Token::NoToken { why, place } => item_of(base, Class::NoToken(why), place, place, 0),
        Token::Word { start, end, word } => item_of(base, word.into(), start, end, 0),
        Token::Number { start, end } => number_item(s, base, start, end),
        Token::Time { start, end } => time_item(s, base, start, end),
        Token::Text { start, end } => item_of(base, Class::Text, start, end, 0),
        Token::Sign {
            operator,
            start,
            end,
        } => sign_item(base, start, end, operator),
        Token::Semicolon { start, end } => item_of(base, Class::Semicolon, start, end, 0),
    }
}
