ghost use Rattle.std.specs.Prelude.{◌≡◌, ◌≤◌, true, [], length};
ghost use Rattle.std.specs.Option.{option_and_then};
ghost use Rattle.refusals.specs.Tables.{decided};
ghost use Rattle.terms.specs.Rows.{is_row, row_at, row_item};
ghost use Rattle.terms.specs.Books.{unfit, is_book};
ghost use Rattle.terms.specs.Held.{rows_of, capacity_of};
ghost use Rattle.terms.specs.Adding.{Added};
ghost use Rattle.terms.specs.Standing.{Exact};

use crate::book::{Book, MAX_ROWS};
use crate::faults::BookFault;
use crate::places::{is_number, numbered};
use crate::row::{Item, Row};
use std::alloc::Global;

/// The variables are 0 to 23.
const VARIABLES: u8 = 24;

impl Book {
    /// A book without rows.
    pub fn new(heap: Global) -> Self
        ensures { rows_of result ≡ [] }
    {
        Book {
            rows: Vec::new(heap),
        }
    }

    /// The row with the number, counted from 1; `None` at 0 and past the last.
    ///
    /// Each row stands for exactly one term, and no two rows for the same.
    pub fn row(&self, number: usize) -> Option<Row>
        ensures value { result ≡ row_at (rows_of self.now) number }
        ensures exact { Exact (rows_of self.now) }
    {
        numbered(self.rows(), number).copied()
    }

    /// The item that the row with the number is, if it is one.
    pub fn item(&self, number: usize) -> Option<Item>
        ensures { result ≡ option_and_then row_item (row_at (rows_of self.now) number) }
    {
        self.row(number)?.item()
    }

    /// All rows, in order.
    pub fn rows(&self) -> &[Row]
        ensures value { result.now ≡ rows_of self.now }
        ensures book { is_book result.now ≡ true }
        ensures few { length result.now ≤ 512 }
    {
        self.rows.as_slice()
    }

    /// The number of the row, which is added where it is new.
    ///
    /// It is refused, the lowest number first: 1 an item out of range, 2 a part or a key that is
    /// no row, 3 a key that is no item, 4 a new row where the book is full; 0 where the memory
    /// for a new row is wanting. A refusal leaves the book as it was.
    pub fn add(&mut self, row: Row) -> Result<usize, BookFault>
        ensures { Added (rows_of self.old) (capacity_of self.old) row (rows_of self.new) result }
    {
        self.admit(row)?;
        if let Some(place) = row.place_in(self.rows()) {
            return Ok(place + 1);
        }
        if self.rows.len() >= MAX_ROWS {
            return Err(BookFault::Full);
        }
        self.rows.push(row)?;
        Ok(self.rows.len())
    }

    /// Whether the row may stand in the book, be it new or not.
    fn admit(&self, row: Row) -> Result<(), BookFault>
        ensures { result ≡ decided (unfit (rows_of self.now) row) (tt {0}) }
    {
        match row {
            Row::Item(Item::Name(name)) => {
                if name == 0 {
                    return Err(BookFault::OutOfRange);
                }
            }
            Row::Item(Item::Variable(variable)) => {
                if variable >= VARIABLES {
                    return Err(BookFault::OutOfRange);
                }
            }
            Row::Pair(first, second) => {
                if !self.has(first) || !self.has(second) {
                    return Err(BookFault::PartMissing);
                }
            }
            Row::Seal { content, key } | Row::Lock { content, key } => {
                if !self.has(content) || !self.has(key) {
                    return Err(BookFault::PartMissing);
                }
                let Some(Row::Item(_)) = self.row(key) else {
                    return Err(BookFault::KeyNotItem);
                };
            }
        }
        Ok(())
    }

    /// Whether there is a row with the number.
    fn has(&self, number: usize) -> bool
        ensures { result ≡ is_row (length (rows_of self.now)) number }
    {
        is_number(self.rows.len(), number)
    }
}
