ghost use Rattle.std.specs.Prelude.{◌≡◌, []};
ghost use Rattle.refusals.specs.Decides.{Passes};
ghost use Rattle.refusals.specs.Demands.{First};
ghost use Rattle.refusals.specs.Walks.{pass};
ghost use Rattle.theory.specs.Tables.{tables_check};
ghost use Rattle.access.specs.Checks.{AccessAnswered, Answered, Accessible, Accepted};
ghost use Rattle.access.specs.Demands.{theory_lines};

use crate::faults::{AccessFault, CheckFault};
use crate::rules::check_roles;
use crate::setting::Names;
use layouts::layout::Layout;
use theory::data::Theory;
use theory::tables::check_tables;
use types::theories::check_types;

/// The rules of a theory whose tables are whole.
fn check_rules_of<L: Layout>(layout: &L, theory: &Theory) -> Result<(), AccessFault>
    requires { tables_check theory.now [] ≡ pass }
    ensures { First (theory_lines (L.meaning layout.now) theory.now) result }
{
    let names = Names {
        declared: theory.names.as_slice(),
    };
    check_roles(layout, names, &theory.book, theory.roles.as_slice())
}

/// The access check of a theory. It begins with the table check, since it goes by the places and the
/// limits of the tables; the types need not be right.
pub fn check_access<L: Layout>(layout: &L, theory: &Theory) -> Result<(), CheckFault>
    ensures answer { AccessAnswered (L.meaning layout.now) theory.now result }
    ensures judged { Passes result (Accessible (L.meaning layout.now) theory.now) }
{
    check_tables(theory, &[])?;
    Ok(check_rules_of(layout, theory)?)
}

/// All checks of a theory: its tables, its types, its data access.
pub fn check<L: Layout>(layout: &L, theory: &Theory) -> Result<(), CheckFault>
    ensures answer { Answered (L.meaning layout.now) theory.now result }
    ensures judged { Passes result (Accepted (L.meaning layout.now) theory.now) }
{
    check_tables(theory, &[])?;
    check_types(layout, theory)?;
    check_rules_of(layout, theory)?;
    Ok(())
}
