ghost use Rattle.std.specs.Prelude.{◌≡◌, Some};
ghost use Rattle.names.specs.declared.faults.ListFault.TheVariants.{NoMemory};
ghost use Rattle.bench.specs.Faults.{refusal_of, reason_of};
ghost use Rattle.bench.specs.declared.faults.Fault.TheVariants.{Book, List, Check};

use access::faults::CheckFault;
use names::faults::ListFault;
use refusals::Refusal;
use std::alloc::AllocFailed;
use std::fmt;
use terms::faults::BookFault;

/// The fault of a refused call, whole.
#[derive(Clone, Copy)]
pub enum Fault {
    Book(BookFault),
    List(ListFault),
    Check(CheckFault),
}

impl Fault {
    /// The reason in words.
    pub fn reason(self) -> &'static str
        ensures { result.now ≡ reason_of self }
    {
        match self {
            Fault::Book(fault) => fault.reason(),
            Fault::List(fault) => fault.reason(),
            Fault::Check(fault) => fault.reason(),
        }
    }
}

/// The six numbers of the fault.
impl From<Fault> for Refusal {
    ghost from_gives = { λ f r. r ≡ refusal_of f };

    fn from(fault: Fault) -> Refusal {
        match fault {
            Fault::Book(fault) => fault.into(),
            Fault::List(fault) => fault.into(),
            Fault::Check(fault) => fault.into(),
        }
    }
}

/// The reason in words.
impl fmt::Display for Fault {
    ghost output = { λ f. Some (reason_of f) };

    fn fmt<W: fmt::Write>(&self, f: &mut fmt::Formatter<W>) -> fmt::Result {
        f.write_str(self.reason())
    }
}

impl From<BookFault> for Fault {
    ghost from_gives = { λ f r. r ≡ Book f };

    fn from(fault: BookFault) -> Fault {
        Fault::Book(fault)
    }
}

impl From<ListFault> for Fault {
    ghost from_gives = { λ f r. r ≡ List f };

    fn from(fault: ListFault) -> Fault {
        Fault::List(fault)
    }
}

/// Where there is no memory for one more in a list.
impl<T: Drop> From<AllocFailed<T>> for Fault {
    ghost from_gives = { λ _ r. r ≡ List NoMemory };

    fn from(_refused: AllocFailed<T>) -> Fault {
        Fault::List(ListFault::NoMemory)
    }
}

impl From<CheckFault> for Fault {
    ghost from_gives = { λ f r. r ≡ Check f };

    fn from(fault: CheckFault) -> Fault {
        Fault::Check(fault)
    }
}
