// What a C program calls, by `raddlebrush_c`, which exports it. Each call hands on to the one that it is named for and says what that says, with answers as numbers.
#![tactic(auto)]

pub mod jobs;
pub mod moments;
pub mod names;
pub mod records;
pub mod reports;
pub mod starts;
pub mod tables;

ghost use Rattle.std.specs.Prelude.{◌≡◌};
ghost use Rattle.c_answers.specs.Returned.{version};

pub const VERSION: u32 = 7;

// The version that a header is held against.
pub fn rb_version() -> u32
    ensures { result ≡ version }
{
    VERSION
}
