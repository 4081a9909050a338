ghost use Rattle.std.specs.Prelude.{Some};
ghost use Rattle.types.specs.Demands.{number_of, row_of};
ghost use Rattle.types.specs.Reasons.{reason_of};

use refusals::fault::{Fault, Reason, Words};
use std::fmt;

/// What is ill about a name, an anchor, a variable, a predicate or a fact.
#[derive(Clone, Copy, PartialEq, Eq)]
pub enum Ill {
    /// The name is zero, or declared at an earlier place too.
    Taken,
    /// A type is not well formed.
    Unformed,
    /// An anchor, or a first argument type, is absent or no principal.
    NoPrincipal,
    /// The fact has another count of arguments than its predicate takes.
    Count,
    /// An item in the fact is not declared before.
    Undeclared,
    /// The term of this row lacks the type of its argument.
    Lacks(usize),
}

/// What is ill, and where.
pub type TypeFault = Fault<Ill>;

impl Reason for Ill {
    ghost layer_number = { 3 };

    ghost number_of = { number_of };

    ghost row_of = { row_of };

    fn layer() -> u8 {
        3
    }

    fn number(self) -> u8 {
        match self {
            Ill::Taken => 10,
            Ill::Unformed => 11,
            Ill::NoPrincipal => 12,
            Ill::Count => 13,
            Ill::Undeclared => 14,
            Ill::Lacks(_) => 15,
        }
    }

    fn row(self) -> usize {
        match self {
            Ill::Lacks(row) => row,
            _ => 0,
        }
    }
}

impl Words for Ill {
    ghost words_of = { reason_of };

    fn words(self) -> &'static str {
        match self {
            Ill::Taken => "the name is zero or repeated",
            Ill::Unformed => "a type is not well formed",
            Ill::NoPrincipal => "the anchor or the first argument type is absent or no principal",
            Ill::Count => "the fact has a wrong count of arguments",
            Ill::Undeclared => "an item in the fact is not declared before",
            Ill::Lacks(_) => "a term lacks the type of its argument",
        }
    }
}

/// The reason in words.
impl fmt::Display for Ill {
    ghost output = { λ ill. Some (reason_of ill) };

    fn fmt<W: fmt::Write>(&self, f: &mut fmt::Formatter<W>) -> fmt::Result {
        f.write_str(self.words())
    }
}
