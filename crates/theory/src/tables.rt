ghost use Rattle.std.specs.Prelude.{◌≡◌};
ghost use Rattle.theory.specs.Tables.{tables_check};

use crate::counts::check_counts;
use crate::data::{Fact, Theory};
use crate::faults::TableFault;
use crate::missing::check_missing;

/// The table check of a theory and its initial facts: 8 where a count is over its limit, then 9
/// where a row, a predicate or an earlier argument place is missing.
pub fn check_tables(theory: &Theory, initial: &[Fact]) -> Result<(), TableFault>
    ensures { result ≡ tables_check theory.now initial.now }
{
    check_counts(theory, initial)?;
    check_missing(theory, initial)
}
