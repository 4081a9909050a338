ghost use Rattle.std.specs.Prelude.{◌≡◌, Some};
ghost use Rattle.terms.specs.Faults.{refusal_of, reason_of};
ghost use Rattle.terms.specs.declared.faults.BookFault.TheVariants.{NoMemory};

use refusals::Refusal;
use std::alloc::AllocFailed;
use std::fmt;

/// Why a row was not added.
#[derive(Clone, Copy, PartialEq, Eq)]
pub enum BookFault {
    /// The item is name 0, or a variable above 23.
    OutOfRange,
    /// A part or a key is not the number of a row.
    PartMissing,
    /// The key is a row, but not an item.
    KeyNotItem,
    /// The row is new, and the book has no room for it.
    Full,
    /// The row is new, and there was no memory for it.
    NoMemory,
}

impl BookFault {
    /// The reason in words.
    pub fn reason(self) -> &'static str
        ensures { result.now ≡ reason_of self }
    {
        match self {
            BookFault::OutOfRange => "the item is out of range",
            BookFault::PartMissing => "a part or a key is no row",
            BookFault::KeyNotItem => "the key is no item",
            BookFault::Full => "the row is new and the book is full",
            BookFault::NoMemory => "there is no memory for the row",
        }
    }
}

/// The six numbers of the fault.
impl From<BookFault> for Refusal {
    ghost from_gives = { λ f r. r ≡ refusal_of f };

    fn from(fault: BookFault) -> Refusal {
        let number = match fault {
            BookFault::NoMemory => 0,
            BookFault::OutOfRange => 1,
            BookFault::PartMissing => 2,
            BookFault::KeyNotItem => 3,
            BookFault::Full => 4,
        };
        Refusal {
            number,
            layer: 1,
            role: 0,
            rule: 0,
            spot: 0,
            row: 0,
        }
    }
}

/// The reason in words.
impl fmt::Display for BookFault {
    ghost output = { λ f. Some (reason_of f) };

    fn fmt<W: fmt::Write>(&self, f: &mut fmt::Formatter<W>) -> fmt::Result {
        f.write_str(self.reason())
    }
}

impl<T: Drop> From<AllocFailed<T>> for BookFault {
    ghost from_gives = { λ _ r. r ≡ NoMemory };

    fn from(_refused: AllocFailed<T>) -> BookFault {
        BookFault::NoMemory
    }
}
