ghost use Rattle.std.specs.Prelude.{◌≡◌};
ghost use Rattle.terms.specs.Held.{rows_of};
ghost use Rattle.types.specs.Scopes.{scope_of};
ghost use Rattle.types.specs.Facts.{ledger_of, slot_item, argument_type, arguments_check, fact_check};

use crate::faults::Ill;
use crate::forms::map_params;
use crate::marked::Marked;
use refusals::walk::demand;
use terms::book::Book;
use terms::places::at;
use terms::row::Item;
use theory::data::{Argument, Slot, Ty};

/// What a parameter means, among these arguments.
fn slot_item(book: &Book, args: &[usize], slot: Slot) -> Item
    ensures { result ≡ slot_item (rows_of book.now) args.now slot }
{
    match slot {
        Slot::Name(n) => Item::Name(n),
        // Kept a name, not an Option: name 0 is nowhere declared, so no type agrees with it.
        Slot::Place(p) => book.item(at(args, p, 0)).unwrap_or(Item::Name(0)),
    }
}

fn argument_type(book: &Book, args: &[usize], argument: Argument) -> Ty
    ensures { result ≡ argument_type (rows_of book.now) args.now argument }
{
    map_params(argument, |slot| slot_item(book, args, slot))
}

/// The first argument that lacks its type.
fn check_arguments(marked: &Marked, takes: &[Argument], args: &[usize]) -> Result<(), Ill>
    ensures { result ≡ arguments_check (scope_of marked.now.scope) (ledger_of marked.now) args.now args.now takes.now }
{
    // Tried as a `find` over the zipped lists: the proof did not close.
    for (k, of) in args.iter().zip(takes) {
        if !marked.has_type(*k, argument_type(marked.book, args, *of)) {
            return Err(Ill::Lacks(*k));
        }
    }
    Ok(())
}

/// A fact, told the argument types of its predicate.
pub(crate) fn check_fact(marked: &Marked, takes: &[Argument], args: &[usize]) -> Result<(), Ill>
    ensures { result ≡ fact_check (scope_of marked.now.scope) (ledger_of marked.now) takes.now args.now }
{
    demand(args.len() == takes.len(), Ill::Count)?;
    demand(marked.knows_all(args), Ill::Undeclared)?;
    check_arguments(marked, takes, args)
}
