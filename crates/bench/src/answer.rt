ghost use Rattle.std.specs.Prelude.{Some};
ghost use Rattle.bench.specs.Answers.{written};

use crate::faults::Fault;
use refusals::Refusal;
use std::fmt;

/// The answer to a line of a script.
#[derive(Clone, Copy)]
pub enum Answer {
    /// The number of a row that is in the book now.
    Row(usize),
    /// The line was carried out, and there is no more to tell.
    Noted,
    /// A list of so many numbers was loaded.
    Loaded(usize),
    /// A list of so many numbers is withheld.
    Withheld(usize),
    /// The theory passed its checks.
    Passed,
    /// The call was refused.
    Refused(Fault),
    /// The line could not be read.
    NotUnderstood,
}

impl fmt::Display for Answer {
    ghost output = { λ a. Some (written a) };

    fn fmt<W: fmt::Write>(&self, f: &mut fmt::Formatter<W>) -> fmt::Result {
        match self {
            Answer::Row(number) => write!(f, "row {number}"),
            Answer::Noted => write!(f, "noted"),
            Answer::Loaded(count) => write!(f, "loaded {count}"),
            Answer::Withheld(count) => write!(f, "withheld {count}"),
            Answer::Passed => write!(f, "ok"),
            Answer::Refused(fault) => {
                let refusal = Refusal::from(*fault);
                let reason = fault.reason();
                write!(f, "refused {refusal}: {reason}")
            }
            Answer::NotUnderstood => write!(f, "not understood"),
        }
    }
}
