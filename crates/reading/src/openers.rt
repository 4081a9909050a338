ghost use Rattle.std.specs.Prelude.{◌≡◌, ◌<◌, ◌||◌, map, length, MatchOption};
ghost use Rattle.terms.specs.Held.{rows_of};
ghost use Rattle.reading.specs.Marks.{is_on};
ghost use Rattle.reading.specs.Openers.{entry_locks, locks_for, reads_as, place_of, opener_of};

use crate::reader::Reader;
use crate::scope::{Entry, MAX_DECLARED};
use arrayvec::ArrayVec;
use layouts::layout::{Kind, Layout, Params};
use terms::book::Book;
use terms::row::{Item, Row};
use theory::owner::Owner;

/// A declared item that opens what is locked under a key.
#[derive(Clone, Copy)]
pub struct Opener {
    pub key: Item,
    /// Whether the owner is granted the item.
    pub granted: bool,
    /// The place, counted from 0, of the lowest row that is the item.
    pub place: Option<usize>,
}

impl Opener {
    /// Whether the item is held: granted, or received.
    pub(crate) fn is_held(self, got: &[bool]) -> bool
        ensures { result ≡ (self.granted || is_on got.now self.place) }
    {
        self.granted
            || self
                .place
                .is_some_and(|place| got.get(place).copied().unwrap_or(false))
    }
}

/// What each declared item opens, if anything.
pub(crate) type Openers = ArrayVec<Option<Opener>, MAX_DECLARED>;

fn reads_as(owner: Owner, item: Item, row: Row) -> bool
    ensures { result ≡ reads_as owner item row }
{
    row.item().is_some_and(|own| owner.read(own) == item)
}

/// The place of the lowest row that is the item.
fn place_of(rows: &[Row], owner: Owner, item: Item) -> Option<usize>
    ensures { result ≡ place_of owner item rows.now }
{
    rows.iter().position(|row| reads_as(owner, item, *row))
}

impl<L: Layout> Reader<'_, L> {
    /// Whether the entry declares the key, and the family opens what it locks.
    fn locks_by_entry(&self, key: Item, family: u8, entry: Entry) -> bool
        ensures { result ≡ entry_locks (L.meaning self.now.layout.now) key family entry }
    {
        entry.item == key && self.layout.kind(entry.of.family) == Kind::Locking(family)
    }

    /// Whether the item is declared as a key, and the family opens what it locks.
    fn locks_for(&self, key: Item, family: u8) -> bool
        ensures { result ≡ locks_for (L.meaning self.now.layout.now) self.now.scope.now key family }
    {
        self.scope
            .iter()
            .any(|entry| self.locks_by_entry(key, family, *entry))
    }

    /// What the declared item opens, if anything.
    fn opener_of(&self, book: &Book, entry: Entry) -> Option<Opener>
        ensures { result ≡ opener_of (L.meaning self.now.layout.now) self.now.scope.now self.now.owner (rows_of book.now) entry }
    {
        match entry.of.params {
            Params::One(key) if self.locks_for(key, entry.of.family) => Some(Opener {
                key,
                granted: self.is_granted(entry.item),
                place: place_of(book.rows(), self.owner, entry.item),
            }),
            _ => None,
        }
    }

    /// What each declared item opens; `None` where more are declared than there is room for.
    pub(crate) fn find_openers(&self, book: &Book) -> Option<Openers>
        ensures { MatchOption result (144 < length self.now.scope.now) (λ v. v.items ≡ map (opener_of (L.meaning self.now.layout.now) self.now.scope.now self.now.owner (rows_of book.now)) self.now.scope.now) }
    {
        if self.scope.len() > MAX_DECLARED {
            return None;
        }
        // `extend` would tell a full vector as an error of memory.
        let mut openers = ArrayVec::new();
        for entry in self.scope {
            openers.push(self.opener_of(book, *entry));
        }
        Some(openers)
    }
}
