// Names of session files.
ghost use Rattle.std.specs.Prelude.{◌≡◌};
ghost use Rattle.session_name.specs.Name.{name_read, written, written_bytes};
ghost use Rattle.c_numbers.specs.Kinds.{kind_given, number_under};
ghost use Rattle.c_answers.specs.Returned.{GivesName, GivesCount};

#[unsafe(no_mangle)]
pub extern "C" fn rb_read_file_name(name: &[u8], max: u32, number: &mut u32, kind: &mut u32) -> u64
    ensures { GivesName (name_read max name.now) result number.old number.new kind.old kind.new }
{
    raddlebrush::names::rb_read_file_name(name, max, number, kind)
}

#[unsafe(no_mangle)]
pub extern "C" fn rb_write_file_name(
    number: u32,
    kind: u32,
    max: u32,
    out: &mut [u8],
    used: &mut usize,
) -> u64
    ensures { GivesCount (written max (number_under kind number) out.old) result used.old used.new
        × (out.new ≡ written_bytes max (number_under kind number) (kind_given kind) out.old) }
{
    raddlebrush::names::rb_write_file_name(number, kind, max, out, used)
}
