ghost use Rattle.std.specs.Prelude.{Some};
ghost use Rattle.theory.specs.Faults.{layer_number, number_of, row_of, reason_of};

use refusals::fault::{Fault, Reason, Words};
use std::fmt;

/// What is wrong with a table.
#[derive(Clone, Copy, PartialEq, Eq)]
pub enum Flaw {
    /// A count is over its limit.
    TooMany,
    /// A row, a predicate or an earlier argument place is missing.
    Missing,
}

/// What is wrong with a table, and where.
pub type TableFault = Fault<Flaw>;

/// The lines of layer 2. None tells a row.
impl Reason for Flaw {
    ghost layer_number = { layer_number };

    ghost number_of = { number_of };

    ghost row_of = { row_of };

    fn layer() -> u8 {
        2
    }

    fn number(self) -> u8 {
        match self {
            Flaw::TooMany => 8,
            Flaw::Missing => 9,
        }
    }

    fn row(self) -> usize {
        0
    }
}

impl Words for Flaw {
    ghost words_of = { reason_of };

    fn words(self) -> &'static str {
        match self {
            Flaw::TooMany => "a count is over its limit",
            Flaw::Missing => "a row, a predicate or an earlier argument place is missing",
        }
    }
}

/// The reason in words.
impl fmt::Display for Flaw {
    ghost output = { λ w. Some (reason_of w) };

    fn fmt<O: fmt::Write>(&self, f: &mut fmt::Formatter<O>) -> fmt::Result {
        f.write_str(self.words())
    }
}
