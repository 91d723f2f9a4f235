// Names of session files.
ghost use Rattle.std.specs.Prelude.{◌≡◌};
ghost use Rattle.session_name.specs.Name.{name_read, written, written_bytes, paper_name_written};
ghost use Rattle.c_numbers.specs.Kinds.{kind_given, number_under};
ghost use Rattle.c_answers.specs.Returned.{GivesName, GivesCount};

use c_answers::give_count;
use c_answers::names::give_name;
use c_numbers::CaseNumber;
use counts::{Refusal, SessionNumber};
use session_name::Kind;

pub fn rb_read_file_name(name: &[u8], max: u32, number: &mut u32, kind: &mut u32) -> u64
    ensures { GivesName (name_read max name.now) result number.old number.new kind.old kind.new }
{
    give_name(session_name::read_name(name, max), number, kind)
}

// Under a kind that is neither, no number is in its range.
fn write_file_name(number: u32, kind: u32, max: u32, out: &mut [u8]) -> Result<usize, Refusal>
    ensures { (paper_name_written result ≡ written max (number_under kind number) out.old)
        × (out.new ≡ written_bytes max (number_under kind number) (kind_given kind) out.old) }
{
    let kind = Kind::try_from(CaseNumber(kind))?;
    session_name::write_name(SessionNumber(number), kind, max, out)
}

pub fn rb_write_file_name(number: u32, kind: u32, max: u32, out: &mut [u8], used: &mut usize) -> u64
    ensures { GivesCount (written max (number_under kind number) out.old) result used.old used.new
        × (out.new ≡ written_bytes max (number_under kind number) (kind_given kind) out.old) }
{
    give_count(write_file_name(number, kind, max, out), used)
}
