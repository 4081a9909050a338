ghost use Rattle.std.specs.Prelude.{◌≡◌, Some};
ghost use Rattle.names.specs.Faults.{refusal_of, reason_of};
ghost use Rattle.names.specs.declared.faults.ListFault.TheVariants.{NoMemory};

use crate::roll::MAX_NAMES;
use crate::withholding::MAX_WITHHELD;
use refusals::Refusal;
use std::alloc::AllocError;
use std::fmt;

/// Why a list of numbers was not taken, or a source not made.
#[derive(Clone, Copy, PartialEq, Eq)]
pub enum ListFault {
    /// The list has more than the 512 numbers of a roll.
    RollTooLong,
    /// The list has more than the 32 numbers of a withholding layer.
    LayerTooLong,
    /// The number at the place, counted from 1, is zero or stands at an earlier place too.
    Unfit { place: usize },
    /// There was no memory.
    NoMemory,
}

impl ListFault {
    /// The reason in words.
    pub fn reason(self) -> &'static str
        ensures { result.now ≡ reason_of self }
    {
        match self {
            ListFault::RollTooLong => "a roll has at most 512 numbers",
            ListFault::LayerTooLong => "a layer withholds at most 32 numbers",
            ListFault::Unfit { .. } => "a number is zero or repeated",
            ListFault::NoMemory => "there is no memory for the list",
        }
    }
}

/// The six numbers of the fault.
impl From<ListFault> for Refusal {
    ghost from_gives = { λ f r. r ≡ refusal_of f };

    fn from(fault: ListFault) -> Refusal {
        let (number, spot) = match fault {
            ListFault::NoMemory => (0, 0),
            ListFault::RollTooLong => (5, MAX_NAMES + 1),
            ListFault::LayerTooLong => (5, MAX_WITHHELD + 1),
            ListFault::Unfit { place } => (6, place),
        };
        Refusal {
            number,
            layer: 2,
            role: 0,
            rule: 0,
            spot,
            row: 0,
        }
    }
}

/// The reason in words.
impl fmt::Display for ListFault {
    ghost output = { λ f. Some (reason_of f) };

    fn fmt<W: fmt::Write>(&self, f: &mut fmt::Formatter<W>) -> fmt::Result {
        f.write_str(self.reason())
    }
}

impl From<AllocError> for ListFault {
    ghost from_gives = { λ _ r. r ≡ NoMemory };

    fn from(_error: AllocError) -> ListFault {
        ListFault::NoMemory
    }
}
