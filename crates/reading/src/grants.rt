ghost use Rattle.std.specs.Prelude.{◌≡◌, Some};
ghost use Rattle.judgments.specs.Access.{first_of, second_of};
ghost use Rattle.terms.specs.Held.{rows_of};
ghost use Rattle.terms.specs.Marks.{marks_of};
ghost use Rattle.theory.specs.Owners.{owner_item};
ghost use Rattle.types.specs.Types.{items};
ghost use Rattle.reading.specs.Grants.{above_grants, grants_by, type_granted, entry_grants, item_granted, row_granted, granted_rows};

use crate::reader::Reader;
use crate::scope::Entry;
use layouts::code::code;
use layouts::layout::{Layout, Params};
use terms::book::Book;
use terms::book::marking::Marks;
use terms::row::{Item, Row};
use theory::data::Ty;

fn first(params: Params<Item>) -> Option<Item>
    ensures { result ≡ first_of (items params) }
{
    match params {
        Params::Zero => None,
        Params::One(p) | Params::Two(p, _) => Some(p),
    }
}

fn second(params: Params<Item>) -> Option<Item>
    ensures { result ≡ second_of (items params) }
{
    match params {
        Params::Two(_, q) => Some(q),
        _ => None,
    }
}

impl<L: Layout> Reader<'_, L> {
    /// Whether the entry declares `above`, the first parameter of the type, so that the type's
    /// items are granted.
    fn grants_above(&self, of: Ty, above: Item, entry: Entry) -> bool
        ensures { result ≡ above_grants (L.meaning self.now.layout.now) (owner_item self.now.owner) of above entry }
    {
        entry.item == above
            && self.layout.grants(
                code(Some(self.owner.item())),
                of.family,
                code(Some(above)),
                code(second(of.params)),
                code(first(entry.of.params)),
            )
    }

    /// Whether some entry declares `above` so that the type's items are granted.
    fn is_granted_under(&self, of: Ty, above: Item) -> bool
        ensures { result ≡ grants_by (L.meaning self.now.layout.now) self.now.scope.now (owner_item self.now.owner) of (Some above) }
    {
        self.scope
            .iter()
            .any(|entry| self.grants_above(of, above, *entry))
    }

    /// Whether the owner is granted the items of the type.
    fn is_type_granted(&self, of: Ty) -> bool
        ensures { result ≡ type_granted (L.meaning self.now.layout.now) self.now.scope.now (owner_item self.now.owner) of }
    {
        match first(of.params) {
            None => self.layout.grants(
                code(Some(self.owner.item())),
                of.family,
                code(None),
                code(None),
                code(None),
            ),
            Some(above) => self.is_granted_under(of, above),
        }
    }

    /// Whether the entry declares the item so that it is granted.
    fn grants_by_entry(&self, item: Item, entry: Entry) -> bool
        ensures { result ≡ entry_grants (L.meaning self.now.layout.now) self.now.scope.now (owner_item self.now.owner) item entry }
    {
        entry.item == item && self.is_type_granted(entry.of)
    }

    /// Whether the owner is granted the item, by one of its declarations.
    pub(crate) fn is_granted(&self, item: Item) -> bool
        ensures { result ≡ item_granted (L.meaning self.now.layout.now) self.now.scope.now (owner_item self.now.owner) item }
    {
        self.scope
            .iter()
            .any(|entry| self.grants_by_entry(item, *entry))
    }

    /// Whether the row is an item that is granted to the owner.
    fn is_row_granted(&self, row: Row) -> bool
        ensures { result ≡ row_granted (L.meaning self.now.layout.now) self.now.scope.now self.now.owner row }
    {
        // No `is_some_and`: of a closure that captures the reader, the check tells no result.
        match row {
            Row::Item(item) => self.is_granted(self.owner.read(item)),
            _ => false,
        }
    }

    /// Which rows are items that are granted to the owner.
    pub(crate) fn granted_rows(&self, book: &Book) -> Marks
        ensures { marks_of result ≡ granted_rows (L.meaning self.now.layout.now) self.now.scope.now self.now.owner (rows_of book.now) }
    {
        book.mark_rows(|_, _, row| self.is_row_granted(row))
    }
}
