ghost use Rattle.std.specs.Prelude.{◌≡◌, ◌≤◌, length};
ghost use Rattle.terms.specs.Held.{rows_of};
ghost use Rattle.terms.specs.Marks.{marks_of};
ghost use Rattle.terms.specs.Filling.{Marked};

use crate::book::marking::Marks;
use crate::book::{Book, MAX_ROWS};
use crate::row::Row;

impl Marks {
    /// The marks, in the order of the rows.
    pub fn as_slice(&self) -> &[bool]
        ensures value { result.now ≡ marks_of self.now }
        ensures few { length result.now ≤ 512 }
    {
        &self.on[..self.rows]
    }
}

impl Book {
    /// Marks the rows one after the other: `mark` is told the rows before, their marks, and the row.
    // What is asked is of our own code and of no input: that the closure may be called.
    pub fn mark_rows<F: Fn(&[Row], &[bool], Row) -> bool>(&self, mark: F) -> Marks
        requires { F.IsAlwaysCallable mark }
        ensures value { Marked (F.post mark) (rows_of self.now) (marks_of result) }
        ensures long { length (marks_of result) ≡ length (rows_of self.now) }
    {
        let rows = self.rows();
        let mut on = [false; MAX_ROWS];
        for (i, row) in rows.iter().enumerate() {
            let is_on = mark(&rows[0..i], &on[0..i], *row);
            on[i] = is_on;
        }
        Marks {
            on,
            rows: rows.len(),
        }
    }
}
