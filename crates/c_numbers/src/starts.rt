// A start clause and a parameter's present value, from the numbers that the header gives them.
ghost use Rattle.std.specs.Prelude.{◌≡◌, Ok, Err, cond, leb, ◌&&◌};
ghost use Rattle.c_numbers.specs.Starts.{operator_given, operand_given, condition_given, start_given, present_given};

use crate::statements::{
    OPERAND_NUMBER, OPERAND_STRING, OPERATOR_ABOVE, OPERATOR_AT_LEAST, OPERATOR_AT_MOST,
    OPERATOR_BELOW, OPERATOR_EQUAL, OPERATOR_NOT_EQUAL, OperandFields, START_AT_TIME,
    START_CONDITION, START_IMMEDIATE, StartFields,
};
use crate::{CaseNumber, NoCase};
use counts::NUMBER_DIGITS;
use number::Number;
use start::Present;
use statement::{Condition, Operand, Part, Start};
use token::Operator;

// A number that no job file may have, as it has no digit before the point: what is none of the header's kinds gets it. An error in its place would
// go before the refusals that the exported call gives first.
const UNPERMITTED: Number = Number {
    mantissa: 0,
    scale: NUMBER_DIGITS as u32,
};

impl TryFrom<CaseNumber> for Operator {
    type Error = NoCase;

    ghost try_from_gives = { λ number r. r ≡ cond (leb 1 number.0 && leb number.0 6) (Ok (operator_given number.0)) (Err (record { 0 = number.0 })) };

    fn try_from(number: CaseNumber) -> Result<Self, NoCase> {
        match number.0 {
            OPERATOR_EQUAL => Ok(Operator::Equal),
            OPERATOR_NOT_EQUAL => Ok(Operator::NotEqual),
            OPERATOR_ABOVE => Ok(Operator::Above),
            OPERATOR_BELOW => Ok(Operator::Below),
            OPERATOR_AT_LEAST => Ok(Operator::AtLeast),
            OPERATOR_AT_MOST => Ok(Operator::AtMost),
            unknown => Err(NoCase(unknown)),
        }
    }
}

impl From<OperandFields> for Operand {
    ghost from_gives = { λ f operand. operand ≡ operand_given f.kind f.quote f.scale f.mantissa };

    fn from(f: OperandFields) -> Self {
        match f.kind {
            OPERAND_NUMBER => Operand::Number(Number {
                mantissa: f.mantissa,
                scale: f.scale,
            }),
            OPERAND_STRING => Operand::Text(f.quote),
            _ => Operand::Number(UNPERMITTED),
        }
    }
}

// A condition. The name of its parameter is not handed on, as no decision looks at it. Under a number that is no operator's, no constant is permitted.
fn condition_given(operator: u32, operand: Operand) -> Start
    ensures { result ≡ condition_given operator operand }
{
    let (operator, operand) = match Operator::try_from(CaseNumber(operator)) {
        Ok(operator) => (operator, operand),
        Err(_) => (Operator::Equal, Operand::Number(UNPERMITTED)),
    };
    Start::When(Condition {
        name: Part {
            place: 0,
            length: 0,
        },
        operator,
        operand,
    })
}

// A number that is no clause's is a condition with no operator.
impl From<StartFields> for Start {
    ghost from_gives = { λ f start. start ≡ start_given f.kind f.time f.date f.operator (operand_given f.operand f.quote f.scale f.mantissa) };

    fn from(f: StartFields) -> Self {
        let operand = OperandFields {
            kind: f.operand,
            quote: f.quote,
            scale: f.scale,
            mantissa: f.mantissa,
        };
        match f.kind {
            START_IMMEDIATE => Start::Immediate,
            // 0 is no real date.
            START_AT_TIME => Start::At(f.time, (f.date != 0).then_some(f.date)),
            START_CONDITION => condition_given(f.operator, operand.into()),
            _ => condition_given(0, operand.into()),
        }
    }
}

pub fn present_given(kind: u32, scale: u32, mantissa: i64) -> Present
    ensures { result ≡ present_given kind scale mantissa }
{
    match kind {
        OPERAND_NUMBER => Present::Number(Number { mantissa, scale }),
        OPERAND_STRING => Present::Text,
        _ => Present::Number(UNPERMITTED),
    }
}
