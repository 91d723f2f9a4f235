// Job files.
ghost use Rattle.std.specs.Prelude.{◌≡◌, length};
ghost use Rattle.counts.specs.Result.{counted};
ghost use Rattle.token.specs.Token.{is_text_at};
ghost use Rattle.job.specs.Job.{read_job, filled};
ghost use Rattle.job.specs.Statement.{read_statement, text_at};
ghost use Rattle.c_numbers.specs.Clauses.{clause_given};
ghost use Rattle.c_answers.specs.Returned.{GivesCount, GivesStatement};

use c_answers::give_count;
use c_answers::jobs::give_statement;
use c_numbers::clauses::clause_given;

pub fn rb_read_job(
    file: &[u8],
    clause_optional: bool,
    offsets: &mut [u32],
    statements: &mut usize,
) -> u64
    ensures { GivesCount (counted (read_job (clause_given clause_optional) file.now (length offsets.old))) result statements.old statements.new
        × (offsets.new ≡ filled (read_job (clause_given clause_optional) file.now (length offsets.old)) offsets.old) }
{
    let clause = clause_given(clause_optional);
    give_count(job::read_job(file, clause, offsets), statements)
}

pub fn rb_read_statement_numbers(
    file: &[u8],
    clause_optional: bool,
    at: usize,
    numbers: &mut [u64; 20],
    mantissa: &mut i64,
) -> u64
    ensures { GivesStatement (read_statement (clause_given clause_optional) file.now at)
        result numbers.old numbers.new mantissa.old mantissa.new }
{
    let clause = clause_given(clause_optional);
    give_statement(job::read_statement(file, clause, at), numbers, mantissa)
}

pub fn rb_is_text_at(file: &[u8], quote: usize) -> bool
    ensures { result ≡ is_text_at file.now quote }
{
    job::is_text_at(file, quote)
}

// The text is the bytes after the quote: what is returned is their count.
pub fn rb_text_length(file: &[u8], quote: usize) -> usize
    ensures { result ≡ length (text_at file.now quote) }
{
    job::text_at(file, quote).len()
}
