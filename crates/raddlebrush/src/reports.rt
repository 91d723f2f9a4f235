// Report files.
ghost use Rattle.std.specs.Prelude.{◌≡◌, length};
ghost use Rattle.counts.specs.Result.{counted};
ghost use Rattle.report.specs.Answer as reading;
ghost use Rattle.report.specs.Reading.{read_report};
ghost use Rattle.report_write.specs.Writing as writing;
ghost use Rattle.c_answers.specs.Returned.{GivesCount, GivesReport};

use c_answers::give_count;
use c_answers::reports::give_report;

pub fn rb_read_report_numbers(
    file: &[u8],
    delimiter: u8,
    cells: &mut [usize],
    columns: &mut usize,
    lines: &mut usize,
) -> u64
    ensures { GivesReport (reading.sized (read_report delimiter file.now (length cells.old)))
        result columns.old columns.new lines.old lines.new
        × (cells.new ≡ reading.filled (read_report delimiter file.now (length cells.old)) cells.old) }
{
    give_report(report::read_report(file, delimiter, cells), columns, lines)
}

pub fn rb_write_report_numbers(
    source: &[u8],
    cells: &[usize],
    columns: usize,
    delimiter: u8,
    out: &mut [u8],
    used: &mut usize,
) -> u64
    ensures { GivesCount (counted (writing.written source.now cells.now columns delimiter (length out.old)))
        result used.old used.new
        × (out.new ≡ writing.filled (writing.written source.now cells.now columns delimiter (length out.old)) out.old) }
{
    give_count(
        report_write::write_report(source, cells, columns, delimiter, out),
        used,
    )
}
