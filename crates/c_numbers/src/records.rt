// Outcomes and records.
ghost use Rattle.std.specs.Prelude.{◌≡◌};
ghost use Rattle.c_numbers.specs.Records.{outcome_given, record_numbers};

use counts::CLASS_MOST;
use record::Outcome;
use record_read::Record;

pub const OUTCOME_PROCESSED: u32 = 0;

pub const OUTCOME_ERROR: u32 = 1;

pub const RECORD_NUMBERS: usize = 8;

// A number that is no outcome's gets one that no call accepts: a refusal here would come before those that the calls look for first.
pub fn outcome_given(outcome: u32, class: u32, code: u32) -> Outcome
    ensures { result ≡ outcome_given outcome class code }
{
    match outcome {
        OUTCOME_PROCESSED => Outcome::Processed,
        OUTCOME_ERROR => Outcome::Error(class, code),
        _ => Outcome::Error(CLASS_MOST + 1, 0),
    }
}

pub fn record_numbers(x: Record) -> [u64; 8]
    ensures { result ≡ record_numbers x }
{
    let (outcome, class, code) = match x.outcome {
        Outcome::Processed => (OUTCOME_PROCESSED, 0, 0),
        Outcome::Error(class, code) => (OUTCOME_ERROR, class, code),
    };
    [
        x.number.0 as u64,
        outcome as u64,
        class as u64,
        code as u64,
        x.start as u64,
        x.length as u64,
        x.date as u64,
        x.time as u64,
    ]
}
