ghost use Rattle.std.specs.Prelude.{◌≤◌};

use crate::book::MAX_ROWS;

// Apart, since its clauses cite `marks_of`, whose definition names the struct.
mod calls;

/// A mark for each row of a book, on or off. It needs no memory of its own.
// No `ArrayVec`: marks are copied, as what is told of a rule's left facts is.
#[derive(Clone, Copy)]
pub struct Marks {
    on: [bool; MAX_ROWS],
    rows: usize,
    ghost few: { rows ≤ 512 },
}
