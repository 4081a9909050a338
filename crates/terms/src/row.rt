ghost use Rattle.std.specs.Prelude.{◌≡◌};
ghost use Rattle.earliest.specs.Places.{earliest};
ghost use Rattle.terms.specs.Rows.{same_row, row_item};
ghost use Rattle.terms.specs.declared.row.Item.TheVariants.{Name};
ghost use Rattle.terms.specs.declared.row.Row.TheVariants as row;

use earliest::earliest_place;

/// An atom of a term: a name or a variable.
#[derive(Clone, Copy, PartialEq, Eq)]
pub enum Item {
    /// A name: a number from 1 through 4,294,967,295.
    Name(u32),
    /// A variable, 0 to 23; variable 0 is the owner of a role.
    Variable(u8),
}

/// A row of a book, which stands for a term. Rows are told by their numbers, counted from 1.
// Numbers of rows, and no boxed parts: scripts and rules tell rows by number, and no two are equal.
#[derive(Clone, Copy, PartialEq, Eq)]
pub enum Row {
    Item(Item),
    /// The pair of two earlier rows.
    Pair(usize, usize),
    /// A row encrypted under a shared key: the content, and the key, which is an item.
    Seal { content: usize, key: usize },
    /// A row encrypted under a public key: the content, and the key, which is an item.
    Lock { content: usize, key: usize },
}

/// Name 0, which is in no book: what an unused place of a list has.
impl Default for Item {
    ghost is_default = { λ i. i ≡ Name 0 };

    fn default() -> Item {
        Item::Name(0)
    }
}

/// The row of no item, which is in no book: what an unused place of a list has.
impl Default for Row {
    ghost is_default = { λ r. r ≡ row.Item (Name 0) };

    fn default() -> Row {
        Row::Item(Item::default())
    }
}

impl Row {
    /// The item that the row is, if it is one.
    pub fn item(self) -> Option<Item>
        ensures { result ≡ row_item self }
    {
        match self {
            Row::Item(item) => Some(item),
            _ => None,
        }
    }

    /// The place, counted from 0, of the earliest of the rows that equals this one.
    pub fn place_in(self, rows: &[Row]) -> Option<usize>
        ensures { result ≡ earliest same_row self rows.now }
    {
        earliest_place(rows, &self)
    }
}
