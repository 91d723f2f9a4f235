// Whether a start clause may be missing: C has a bool for it.
ghost use Rattle.std.specs.Prelude.{◌≡◌};
ghost use Rattle.c_numbers.specs.Clauses.{clause_given};

use grammar::StartClause;

pub fn clause_given(optional: bool) -> StartClause
    ensures { result ≡ clause_given optional }
{
    if optional {
        StartClause::Optional
    } else {
        StartClause::Required
    }
}
