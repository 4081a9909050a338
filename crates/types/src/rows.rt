ghost use Rattle.std.specs.Prelude.{◌≡◌};
ghost use Rattle.types.specs.Scopes.{scope_of};
ghost use Rattle.types.specs.Facts.{known_of};
ghost use Rattle.types.specs.Messages.{sends, key_type, seals, locks, mark_of};

use crate::forms::is_msg;
use crate::names::item_type;
use crate::scope::Scope;
use layouts::layout::{Kind, Layout};
use terms::places::{at, numbered};
use terms::row::Row;
use theory::data::Ty;

/// The type of the item that a row is.
pub(crate) fn row_type(scope: Scope, rows: &[Row], number: usize) -> Option<Ty>
    ensures { result ≡ key_type (scope_of scope.entry) rows.now number }
{
    item_type(scope, numbered(rows, number)?.item()?)
}

fn is_sent<L: Layout>(layout: &L, of: Option<Ty>) -> bool
    ensures { result ≡ sends (L.meaning layout.now) of }
{
    of.is_some_and(|of| is_msg(of) || layout.is_sendable(of.family))
}

fn does_seal<L: Layout>(layout: &L, of: Option<Ty>) -> bool
    ensures { result ≡ seals (L.meaning layout.now) of }
{
    of.is_some_and(|of| layout.kind(of.family) == Kind::Sealing)
}

// Beside `does_seal`: a key's kind tells what opens it, so one test over both would take a pattern.
fn does_lock<L: Layout>(layout: &L, of: Option<Ty>) -> bool
    ensures { result ≡ locks (L.meaning layout.now) of }
{
    of.is_some_and(|of| matches!(layout.kind(of.family), Kind::Locking(_)))
}

/// Whether a row has msg, told which of the rows before it have.
pub(crate) fn is_message<L: Layout>(
    layout: &L,
    scope: Scope,
    before: &[Row],
    marks: &[bool],
    row: Row,
) -> bool
    ensures { result ≡ mark_of (L.meaning layout.now) (scope_of scope.entry) before.now marks.now row }
{
    match row {
        Row::Item(item) => is_sent(layout, item_type(scope, item)),
        Row::Pair(a, b) => at(marks, a, false) && at(marks, b, false),
        Row::Seal { content, key } => at(marks, content, false)
            && does_seal(layout, row_type(scope, before, key)),
        Row::Lock { content, key } => at(marks, content, false)
            && does_lock(layout, row_type(scope, before, key)),
    }
}

// Kept beside `is_message`: one function for both would take three tests, and be no plainer.
/// Whether all items in a row's term are declared, told of which rows before it they are.
pub(crate) fn is_known(scope: Scope, before: &[Row], marks: &[bool], row: Row) -> bool
    ensures { result ≡ known_of (scope_of scope.entry) before.now marks.now row }
{
    match row {
        Row::Item(item) => item_type(scope, item).is_some(),
        Row::Pair(a, b) => at(marks, a, false) && at(marks, b, false),
        Row::Seal { content, key } | Row::Lock { content, key } => at(marks, content, false)
            && row_type(scope, before, key).is_some(),
    }
}
