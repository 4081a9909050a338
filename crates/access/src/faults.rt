ghost use Rattle.std.specs.Prelude.{◌≡◌, Some};
ghost use Rattle.access.specs.Faults.{number_of, row_of, access_reason, refusal_of, reason_of};
ghost use Rattle.access.specs.declared.faults.CheckFault.TheVariants.{Table, Typing, Access};

use refusals::Refusal;
use refusals::fault::{Fault, Reason, Words};
use std::fmt;
use theory::faults::TableFault;
use types::faults::TypeFault;

/// What a role's owner may not do.
#[derive(Clone, Copy, PartialEq, Eq)]
pub enum Denied {
    /// The first argument of a memory or role fact is not the owner.
    NotOwner,
    /// This row is a received seal or lock that stays closed.
    StaysClosed(usize),
    /// Names of the variable's family are not to be made.
    NotMakeable,
    /// The term of this row cannot be built.
    NotBuildable(usize),
}

impl Reason for Denied {
    ghost layer_number = { 4 };

    ghost number_of = { number_of };

    ghost row_of = { row_of };

    fn layer() -> u8 {
        4
    }

    fn number(self) -> u8 {
        match self {
            Denied::NotOwner => 16,
            Denied::StaysClosed(_) => 17,
            Denied::NotMakeable => 18,
            Denied::NotBuildable(_) => 19,
        }
    }

    fn row(self) -> usize {
        match self {
            Denied::StaysClosed(row) | Denied::NotBuildable(row) => row,
            Denied::NotOwner | Denied::NotMakeable => 0,
        }
    }
}

impl Words for Denied {
    ghost words_of = { access_reason };

    fn words(self) -> &'static str {
        match self {
            Denied::NotOwner => "the first argument of a memory or role fact is not the owner",
            Denied::StaysClosed(_) => "a received seal or lock stays closed",
            Denied::NotMakeable => "names of the family are not to be made",
            Denied::NotBuildable(_) => "an argument cannot be built",
        }
    }
}

/// The reason in words.
impl fmt::Display for Denied {
    ghost output = { λ d. Some (access_reason d) };

    fn fmt<W: fmt::Write>(&self, f: &mut fmt::Formatter<W>) -> fmt::Result {
        f.write_str(self.words())
    }
}

/// What is denied, and where.
pub type AccessFault = Fault<Denied>;

/// The fault of a checked theory, whole: of its tables, its types or its data access.
#[derive(Clone, Copy)]
pub enum CheckFault {
    Table(TableFault),
    Typing(TypeFault),
    Access(AccessFault),
}

impl CheckFault {
    /// The reason in words.
    pub fn reason(self) -> &'static str
        ensures { result.now ≡ reason_of self }
    {
        match self {
            CheckFault::Table(fault) => fault.reason(),
            CheckFault::Typing(fault) => fault.reason(),
            CheckFault::Access(fault) => fault.reason(),
        }
    }
}

/// The six numbers of the fault.
impl From<CheckFault> for Refusal {
    ghost from_gives = { λ f r. r ≡ refusal_of f };

    fn from(fault: CheckFault) -> Refusal {
        match fault {
            CheckFault::Table(fault) => fault.into(),
            CheckFault::Typing(fault) => fault.into(),
            CheckFault::Access(fault) => fault.into(),
        }
    }
}

/// The reason in words.
impl fmt::Display for CheckFault {
    ghost output = { λ f. Some (reason_of f) };

    fn fmt<W: fmt::Write>(&self, f: &mut fmt::Formatter<W>) -> fmt::Result {
        f.write_str(self.reason())
    }
}

impl From<TableFault> for CheckFault {
    ghost from_gives = { λ f r. r ≡ Table f };

    fn from(fault: TableFault) -> CheckFault {
        CheckFault::Table(fault)
    }
}

impl From<TypeFault> for CheckFault {
    ghost from_gives = { λ f r. r ≡ Typing f };

    fn from(fault: TypeFault) -> CheckFault {
        CheckFault::Typing(fault)
    }
}

impl From<AccessFault> for CheckFault {
    ghost from_gives = { λ f r. r ≡ Access f };

    fn from(fault: AccessFault) -> CheckFault {
        CheckFault::Access(fault)
    }
}
