ghost use Rattle.std.specs.Prelude.{◌≡◌, ◌<◌, false, length, replicate, IfSome, MatchOption};
ghost use Rattle.terms.specs.Held.{rows_of};
ghost use Rattle.terms.specs.Marks.{marks_of};
ghost use Rattle.reading.specs.Marks.{sight_of, put_facts, Closed, held_rows, closed_rows};
ghost use Rattle.reading.specs.Scopes.{context};
ghost use Rattle.reading.specs.Told.{left_terms, Told};

use crate::lows::lowest_rows;
use crate::marks::View;
use crate::reader::Reader;
use crate::scope::Entry;
use arrayvec::ArrayVec;
use layouts::layout::Layout;
use terms::book::marking::Marks;
use terms::book::{Book, MAX_ROWS};
use theory::data::Fact;
use theory::owner::Owner;

/// What is told of a rule's left facts, row by row: whether the row's item is held, and whether the
/// row is received and stays closed.
// Two marks beside each other, and no list of pairs: each is asked alone.
#[derive(Clone, Copy)]
pub struct Reading {
    pub held: Marks,
    pub closed: Marks,
}

/// The marks of what is received, which are written while rows are read.
type Received = ArrayVec<bool, MAX_ROWS>;

impl View<'_> {
    /// Marks the arguments of the facts, and all that can be read out of them.
    fn receive(self, left: &[Fact], got: &mut [bool])
        ensures { Closed (sight_of self.entry) (put_facts (sight_of self.entry).low got.old left.now) got.new }
    {
        self.mark_facts(got, left);
        self.close(got);
    }

    /// Marks what is received of the facts.
    fn received_rows(self, left: &[Fact]) -> Received
        ensures { Closed (sight_of self.entry) (put_facts (sight_of self.entry).low (replicate (length (rows_of self.entry.book.now)) false) left.now) result.items }
    {
        let mut got = Received::from([false; MAX_ROWS]);
        got.truncate(self.book.rows().len());
        self.receive(left, got.as_mut_slice());
        got
    }

    /// Which rows are items that are held.
    fn held_rows(self, got: &[bool]) -> Marks
        ensures value { marks_of result ≡ held_rows (sight_of self.entry) got.now }
        ensures long { length (marks_of result) ≡ length (rows_of self.entry.book.now) }
    {
        self.book
            .mark_rows(|seen, _, _| self.is_held(got, seen.len() + 1))
    }

    /// Which rows are received and stay closed.
    fn closed_rows(self, got: &[bool]) -> Marks
        ensures value { marks_of result ≡ closed_rows (sight_of self.entry) got.now }
        ensures long { length (marks_of result) ≡ length (rows_of self.entry.book.now) }
    {
        self.book
            .mark_rows(|seen, _, row| self.is_closed(got, seen.len() + 1, row))
    }
}

/// Reads the left facts of a rule as the owner of its role, over a scope of at most 144 items; `None`
/// where there are more. What is told has a mark for each row of the book.
pub fn read_left<L: Layout>(
    layout: &L,
    book: &Book,
    scope: &[Entry],
    owner: Owner,
    left: &[Fact],
) -> Option<Reading>
    ensures told { MatchOption result (144 < length scope.now) (λ x. Told (L.meaning layout.now) (context scope.now) owner (rows_of book.now) (left_terms owner (rows_of book.now) left.now) (marks_of x.held) (marks_of x.closed)) }
    ensures long { IfSome result (λ x. (length (marks_of x.held) ≡ length (rows_of book.now)) × (length (marks_of x.closed) ≡ length (rows_of book.now))) }
{
    let reader = Reader {
        layout,
        scope,
        owner,
    };
    let openers = reader.find_openers(book)?;
    let low = lowest_rows(owner, book);
    let granted = reader.granted_rows(book);
    let view = View {
        book,
        low: low.as_slice(),
        granted: granted.as_slice(),
        openers: openers.as_slice(),
        owner,
    };
    let got = view.received_rows(left);
    Some(Reading {
        held: view.held_rows(got.as_slice()),
        closed: view.closed_rows(got.as_slice()),
    })
}
