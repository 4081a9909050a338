ghost use Rattle.std.specs.Prelude.{◌≡◌};
ghost use Rattle.std.specs.List.{list_any};
ghost use Rattle.terms.specs.Numbered.{numbered};
ghost use Rattle.reading.specs.Marks.{sight_of, opens_now, received, held_of, closed_of, is_open, put, visit, pass, Closed, ons, put_facts};

use crate::openers::Opener;
use terms::book::Book;
use terms::places::{at, is_number, numbered};
use terms::row::{Item, Row};
use theory::data::Fact;
use theory::owner::Owner;

/// What rows are read with: for each its lowest row and whether it is granted, and what opens locks.
// Lists beside each other, and no list of records: each is worked out alone, and asked alone. An
// entry that opens nothing is `None`, so that an opener has its entry's place.
#[derive(Clone, Copy)]
pub(crate) struct View<'a> {
    pub book: &'a Book,
    pub low: &'a [usize],
    pub granted: &'a [bool],
    pub openers: &'a [Option<Opener>],
    pub owner: Owner,
}

/// Whether the opener is for the key, and is held: granted, or received.
fn opens_now(got: &[bool], key: Item, opener: Option<Opener>) -> bool
    ensures { result ≡ opens_now got.now key opener }
{
    opener.is_some_and(|opener| opener.key == key && opener.is_held(got))
}

fn count(marks: &[bool]) -> usize
    ensures { result ≡ ons marks.now }
{
    // A sum, and no `filter` with `count`: it adds several marks at a time.
    marks.iter().map(|mark| usize::from(*mark)).sum()
}

impl View<'_> {
    /// Whether some opener of the key is held.
    fn is_unlocked(self, got: &[bool], key: Item) -> bool
        ensures { result ≡ list_any (opens_now got.now key) (sight_of self.entry).openers }
    {
        self.openers
            .iter()
            .any(|opener| opens_now(got, key, *opener))
    }

    /// The number of the lowest row for the term of the row, if there is one.
    fn lowest(self, number: usize) -> Option<usize>
        ensures { result ≡ numbered (sight_of self.entry).low number }
    {
        numbered(self.low, number).copied()
    }

    /// Whether the term of the row is received: its lowest row is marked.
    fn is_received(self, got: &[bool], number: usize) -> bool
        ensures { result ≡ received (sight_of self.entry) got.now number }
    {
        self.lowest(number).is_some_and(|low| at(got, low, false))
    }

    /// Whether the item of the row is held: received, or granted.
    pub(crate) fn is_held(self, got: &[bool], number: usize) -> bool
        ensures { result ≡ held_of (sight_of self.entry) got.now number }
    {
        self.is_received(got, number) || at(self.granted, number, false)
    }

    /// Whether the row is no seal or lock, or the key of the seal is held, or an opener of the
    /// lock.
    fn is_open(self, got: &[bool], row: Row) -> bool
        ensures { result ≡ is_open (sight_of self.entry) got.now row }
    {
        match row {
            Row::Item(_) | Row::Pair(_, _) => true,
            Row::Seal { key, .. } => self.is_held(got, key),
            // No `is_some_and`: of a closure that captures the view, the check tells no result.
            Row::Lock { key, .. } => match self.book.item(key) {
                Some(item) => self.is_unlocked(got, self.owner.read(item)),
                None => false,
            },
        }
    }

    /// Whether the row is received and stays closed.
    pub(crate) fn is_closed(self, got: &[bool], number: usize, row: Row) -> bool
        ensures { result ≡ closed_of (sight_of self.entry) got.now number row }
    {
        self.is_received(got, number) && !self.is_open(got, row)
    }

    /// Marks the lowest row for the term of the row.
    fn mark(self, got: &mut [bool], number: usize)
        ensures { got.new ≡ put (sight_of self.entry).low got.old number }
    {
        let Some(lowest) = self.lowest(number) else {
            return;
        };
        if is_number(got.len(), lowest) {
            // By index, since the test has just told that it is there.
            got[lowest - 1] = true;
        }
    }

    /// Marks what the row lets one read, if it is received.
    fn visit(self, got: &mut [bool], number: usize)
        ensures { got.new ≡ visit (sight_of self.entry) got.old number }
    {
        if !at(got, number, false) {
            return;
        }
        let Some(row) = self.book.row(number) else {
            return;
        };
        match row {
            Row::Pair(a, b) => {
                self.mark(got, a);
                self.mark(got, b);
            }
            Row::Seal { content, .. } | Row::Lock { content, .. } if self.is_open(got, row) => {
                self.mark(got, content);
            }
            _ => {}
        }
    }

    /// Visits all rows. Parts come before their wholes in a book, so the last row is visited first.
    fn pass(self, got: &mut [bool])
        ensures { got.new ≡ pass (sight_of self.entry) got.old }
    {
        let rows = self.book.rows();
        for number in (1..=rows.len()).rev() {
            self.visit(got, number);
        }
    }

    /// Marks all that can be read, out of what is marked.
    pub(crate) fn close(self, got: &mut [bool])
        ensures { Closed (sight_of self.entry) got.old got.new }
    {
        let mut before = count(got);
        loop {
            self.pass(got);
            let after = count(got);
            if after == before {
                return;
            }
            before = after;
        }
    }

    /// Marks the arguments of the facts.
    pub(crate) fn mark_facts(self, got: &mut [bool], facts: &[Fact])
        ensures { got.new ≡ put_facts (sight_of self.entry).low got.old facts.now }
    {
        for fact in facts {
            for number in fact.rows.as_slice() {
                self.mark(got, *number);
            }
        }
    }
}
