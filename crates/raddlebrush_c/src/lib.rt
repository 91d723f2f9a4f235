// What a C program calls: the archive's functions. Each hands on to the one of its name in `raddlebrush` and says what that says: an archive exports functions of its own, with contracts of their own.
#![tactic(auto)]

pub mod jobs;
pub mod moments;
pub mod names;
pub mod records;
pub mod reports;
pub mod starts;
pub mod tables;

ghost use Rattle.std.specs.Prelude.{◌≡◌};
ghost use Rattle.c_answers.specs.Returned.{version};

// The version that a header is held against.
#[unsafe(no_mangle)]
pub extern "C" fn rb_version() -> u32
    ensures { result ≡ version }
{
    raddlebrush::rb_version()
}
