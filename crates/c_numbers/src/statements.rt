// The fields of a statement as numbers, in the order that the header gives.
ghost use Rattle.std.specs.Prelude.{◌≡◌, ℕ};
ghost use Rattle.c_numbers.specs.Statements.{source_fields, operator_number, operand_fields, condition_fields, start_fields, aborted_number, numbers, statement_numbers};

use crate::CaseNumber;
use job::StatementAt;
use statement::{Aborted, Condition, Operand, Part, Source, Start, Statement};
use token::Operator;

pub const STATEMENT_JOB: u32 = 1;

pub const STATEMENT_UPLOAD: u32 = 2;

pub const STATEMENT_DOWNLOAD: u32 = 3;

pub const STATEMENT_GETINFO: u32 = 4;

pub const STATEMENT_ABORT: u32 = 5;

pub const ABORTED_REPORT: u32 = 1;

pub const ABORTED_EVENT: u32 = 2;

pub const SOURCE_ACTIVE: u32 = 1;

pub const SOURCE_FILE: u32 = 2;

pub const SOURCE_NAME: u32 = 3;

pub const START_IMMEDIATE: u32 = 1;

pub const START_AT_TIME: u32 = 2;

pub const START_CONDITION: u32 = 3;

pub const OPERATOR_EQUAL: u32 = 1;

pub const OPERATOR_NOT_EQUAL: u32 = 2;

pub const OPERATOR_ABOVE: u32 = 3;

pub const OPERATOR_BELOW: u32 = 4;

pub const OPERATOR_AT_LEAST: u32 = 5;

pub const OPERATOR_AT_MOST: u32 = 6;

pub const OPERAND_NUMBER: u32 = 1;

pub const OPERAND_STRING: u32 = 2;

pub const STATEMENT_NUMBERS: usize = 20;

// A string has the place of its quote, a name a place and a length. A field that is not there is 0.
#[derive(Clone, Copy, Debug, PartialEq, Eq, Hash, Default)]
pub struct SourceFields {
    pub kind: u32,
    pub quote: usize,
    pub place: usize,
    pub length: usize,
}

#[derive(Clone, Copy, Debug, PartialEq, Eq, Hash, Default)]
pub struct OperandFields {
    pub kind: u32,
    pub quote: usize,
    pub scale: u32,
    pub mantissa: i64,
}

#[derive(Clone, Copy, Debug, PartialEq, Eq, Hash, Default)]
pub struct StartFields {
    pub kind: u32,
    pub time: u32,
    pub date: u32,
    pub parameter: usize,
    pub length: usize,
    pub operator: u32,
    pub operand: u32,
    pub quote: usize,
    pub scale: u32,
    pub mantissa: i64,
}

// All fields of a statement.
#[derive(Clone, Copy, Debug, PartialEq, Eq, Hash)]
pub struct StatementNumbers {
    pub numbers: [u64; 20],
    pub mantissa: i64,
}

impl From<Source> for SourceFields {
    ghost from_gives = { λ source fields. fields ≡ source_fields source };

    fn from(source: Source) -> Self {
        match source {
            Source::Active => SourceFields {
                kind: SOURCE_ACTIVE,
                ..SourceFields::default()
            },
            Source::File(quote) => SourceFields {
                kind: SOURCE_FILE,
                quote,
                ..SourceFields::default()
            },
            Source::Name(Part { place, length }) => SourceFields {
                kind: SOURCE_NAME,
                place,
                length,
                ..SourceFields::default()
            },
        }
    }
}

impl From<Operator> for CaseNumber {
    ghost from_gives = { λ operator number. number.0 ≡ operator_number operator };

    fn from(operator: Operator) -> Self {
        CaseNumber(match operator {
            Operator::Equal => OPERATOR_EQUAL,
            Operator::NotEqual => OPERATOR_NOT_EQUAL,
            Operator::Above => OPERATOR_ABOVE,
            Operator::Below => OPERATOR_BELOW,
            Operator::AtLeast => OPERATOR_AT_LEAST,
            Operator::AtMost => OPERATOR_AT_MOST,
        })
    }
}

impl From<Operand> for OperandFields {
    ghost from_gives = { λ operand fields. fields ≡ operand_fields operand };

    fn from(operand: Operand) -> Self {
        match operand {
            Operand::Number(n) => OperandFields {
                kind: OPERAND_NUMBER,
                scale: n.scale,
                mantissa: n.mantissa,
                ..OperandFields::default()
            },
            Operand::Text(quote) => OperandFields {
                kind: OPERAND_STRING,
                quote,
                ..OperandFields::default()
            },
        }
    }
}

impl From<Condition> for StartFields {
    ghost from_gives = { λ condition fields. fields ≡ condition_fields condition };

    fn from(condition: Condition) -> Self {
        let operand = OperandFields::from(condition.operand);
        StartFields {
            kind: START_CONDITION,
            parameter: condition.name.place,
            length: condition.name.length,
            operator: CaseNumber::from(condition.operator).0,
            operand: operand.kind,
            quote: operand.quote,
            scale: operand.scale,
            mantissa: operand.mantissa,
            ..StartFields::default()
        }
    }
}

impl From<Start> for StartFields {
    ghost from_gives = { λ start fields. fields ≡ start_fields start };

    fn from(start: Start) -> Self {
        match start {
            Start::Immediate => StartFields {
                kind: START_IMMEDIATE,
                ..StartFields::default()
            },
            Start::At(time, day) => StartFields {
                kind: START_AT_TIME,
                time,
                date: day.unwrap_or(0),
                ..StartFields::default()
            },
            Start::When(condition) => condition.into(),
        }
    }
}

impl From<Aborted> for CaseNumber {
    ghost from_gives = { λ what number. number.0 ≡ aborted_number what };

    fn from(what: Aborted) -> Self {
        CaseNumber(match what {
            Aborted::Report => ABORTED_REPORT,
            Aborted::Event => ABORTED_EVENT,
        })
    }
}

// What a statement says, whatever its kind: a field that is not there is 0.
#[derive(Clone, Copy, Debug, PartialEq, Eq, Hash, Default)]
struct Fields {
    kind: u32,
    file: usize,
    place: usize,
    length: usize,
    aborted: u32,
    source: SourceFields,
    start: StartFields,
}

impl From<Statement> for Fields {
    ghost from_gives = { λ statement f. (offset next : ℕ) → numbers f.kind offset next f.file (record { place = f.place; length = f.length }) f.aborted f.source f.start ≡ statement_numbers statement offset next };

    fn from(statement: Statement) -> Self {
        match statement {
            Statement::Job {
                name: Part { place, length },
                response,
            } => Fields {
                kind: STATEMENT_JOB,
                file: response,
                place,
                length,
                ..Fields::default()
            },
            Statement::Upload {
                file,
                source,
                start,
            } => Fields {
                kind: STATEMENT_UPLOAD,
                file,
                source: source.into(),
                start: start.into(),
                ..Fields::default()
            },
            Statement::Download {
                file,
                source,
                start,
            } => Fields {
                kind: STATEMENT_DOWNLOAD,
                file,
                source: source.into(),
                start: start.into(),
                ..Fields::default()
            },
            Statement::GetInfo { file } => Fields {
                kind: STATEMENT_GETINFO,
                file,
                ..Fields::default()
            },
            Statement::Abort {
                what,
                name: Part { place, length },
            } => Fields {
                kind: STATEMENT_ABORT,
                place,
                length,
                aborted: CaseNumber::from(what).0,
                ..Fields::default()
            },
        }
    }
}

impl From<StatementAt> for StatementNumbers {
    ghost from_gives = { λ x all. all ≡ statement_numbers x.statement x.offset x.next };

    fn from(x: StatementAt) -> Self {
        let f = Fields::from(x.statement);
        StatementNumbers {
            numbers: [
                f.kind as u64,
                x.offset as u64,
                x.next as u64,
                f.file as u64,
                f.place as u64,
                f.length as u64,
                f.aborted as u64,
                f.source.kind as u64,
                f.source.quote as u64,
                f.source.place as u64,
                f.source.length as u64,
                f.start.kind as u64,
                f.start.time as u64,
                f.start.date as u64,
                f.start.parameter as u64,
                f.start.length as u64,
                f.start.operator as u64,
                f.start.operand as u64,
                f.start.quote as u64,
                f.start.scale as u64,
            ],
            mantissa: f.start.mantissa,
        }
    }
}
