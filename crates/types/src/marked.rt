ghost use Rattle.std.specs.Prelude.{◌≡◌};
ghost use Rattle.terms.specs.Held.{rows_of};
ghost use Rattle.types.specs.Scopes.{scope_of};
ghost use Rattle.types.specs.Facts.{ledger_of, ledger, all_flags};
ghost use Rattle.types.specs.Messages.{has_type};

use crate::forms::{is_msg, is_type};
use crate::rows::{is_known, is_message, row_type};
use crate::scope::Scope;
use layouts::layout::Layout;
use terms::book::Book;
use terms::book::marking::Marks;
use terms::places::at;
use theory::data::Ty;

/// A book, its rows marked over a scope: whether all items in a row's term are declared, and
/// whether the term has msg.
// Two marks beside each other, and no list of pairs: a row's mark is told by those of its own kind.
#[derive(Clone, Copy)]
pub struct Marked<'a> {
    pub scope: Scope<'a>,
    pub book: &'a Book,
    pub known: Marks,
    pub message: Marks,
}

impl<'a> Marked<'a> {
    /// Marks the book's rows.
    pub(crate) fn new<L: Layout>(layout: &L, scope: Scope<'a>, book: &'a Book) -> Marked<'a>
        ensures scoped { scope_of result.scope ≡ scope_of scope.entry }
        ensures marks { ledger_of result ≡ ledger (L.meaning layout.now) (scope_of scope.entry) (rows_of book.now) }
    {
        Marked {
            scope,
            book,
            known: book.mark_rows(|before, known, row| is_known(scope, before, known, row)),
            message: book.mark_rows(|before, message, row| is_message(
                layout, scope, before, message, row,
            )),
        }
    }

    /// Whether all items in the terms of these rows are declared.
    pub(crate) fn knows_all(&self, args: &[usize]) -> bool
        ensures { result ≡ all_flags (ledger_of self.now).known args.now }
    {
        args.iter().all(|k| at(self.known.as_slice(), *k, false))
    }

    /// Whether the term of a row has a type.
    pub(crate) fn has_type(&self, number: usize, of: Ty) -> bool
        ensures { result ≡ has_type (scope_of self.now.scope) (ledger_of self.now).rows (ledger_of self.now).message number of }
    {
        if is_msg(of) {
            return at(self.message.as_slice(), number, false);
        }
        let own = row_type(self.scope, self.book.rows(), number);
        is_type(self.scope.owner, own, of)
    }
}
