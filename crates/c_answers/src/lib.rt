// An answer as a C program gets it: what is returned, 0 or the refusal, and what is left in the numbers lent for the rest of it, which a
// refusal leaves as it was.
#![tactic(auto)]

pub mod jobs;
pub mod names;
pub mod records;
pub mod reports;
pub mod starts;
pub mod tables;

ghost use Rattle.std.specs.Prelude.{◌≡◌, ℕ};
ghost use Rattle.counts.specs.Result.{refused_as, paper};
ghost use Rattle.c_answers.specs.Returned.{returned, left_in, GivesCount};

use counts::Refusal;

// The 56 bits above a refusal's number hold the places up to this.
const PLACE_MOST: u64 = 72057594037927935;

// What is returned for a refusal: one number, as the header takes it apart.
fn returned(refusal: Refusal) -> u64
    ensures { result ≡ returned {A = ℕ} (refused_as refusal) }
{
    refusal.reason.number() as u64 + 256 * (refusal.place as u64 & PLACE_MOST)
}

// An answer that is all in what is returned.
pub fn give_done(answer: Result<(), Refusal>) -> u64
    ensures { result ≡ returned (paper (λ x. x) answer) }
{
    match answer {
        Ok(()) => 0,
        Err(refusal) => returned(refusal),
    }
}

// An answer of one value, and of two and of three: C lends a place for each.
pub fn give<T: Drop>(answer: Result<T, Refusal>, place: &mut T) -> u64
    ensures { (result ≡ returned (paper (λ x. x) answer))
        × (place.new ≡ left_in place.old (λ x. x) (paper (λ x. x) answer)) }
{
    match answer {
        Ok(x) => {
            *place = x;
            0
        }
        Err(refusal) => returned(refusal),
    }
}

pub fn give_two<T: Drop, U: Drop>(
    answer: Result<(T, U), Refusal>,
    first: &mut T,
    second: &mut U,
) -> u64
    ensures { (result ≡ returned (paper (λ x. x) answer))
        × (first.new ≡ left_in first.old (λ x. x.0) (paper (λ x. x) answer))
        × (second.new ≡ left_in second.old (λ x. x.1) (paper (λ x. x) answer)) }
{
    match answer {
        Ok((x, y)) => {
            *first = x;
            *second = y;
            0
        }
        Err(refusal) => returned(refusal),
    }
}

pub fn give_three<T: Drop, U: Drop, V: Drop>(
    answer: Result<(T, U, V), Refusal>,
    first: &mut T,
    second: &mut U,
    third: &mut V,
) -> u64
    ensures { (result ≡ returned (paper (λ x. x) answer))
        × (first.new ≡ left_in first.old (λ x. x.0) (paper (λ x. x) answer))
        × (second.new ≡ left_in second.old (λ x. x.1) (paper (λ x. x) answer))
        × (third.new ≡ left_in third.old (λ x. x.2) (paper (λ x. x) answer)) }
{
    match answer {
        Ok((x, y, z)) => {
            *first = x;
            *second = y;
            *third = z;
            0
        }
        Err(refusal) => returned(refusal),
    }
}

// A count of bytes or statements.
pub fn give_count(answer: Result<usize, Refusal>, count: &mut usize) -> u64
    ensures { GivesCount (paper (λ n. n) answer) result count.old count.new }
{
    give(answer, count)
}
