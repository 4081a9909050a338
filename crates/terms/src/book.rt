ghost use Rattle.std.specs.Prelude.{◌≡◌, ◌≤◌, true, vec_len};
ghost use Rattle.terms.specs.Books.{is_book};

use crate::row::Row;

mod calls;
pub mod marking;

/// The most rows that a theory's book has.
pub const MAX_ROWS: usize = 512;

/// A theory's book: rows whose parts are earlier rows and whose keys are items, no two of them equal.
#[derive(Drop)]
pub struct Book {
    rows: Vec<Row>,
    ghost few: { vec_len rows ≤ 512 },
    ghost sound: { is_book rows.items ≡ true },
}
