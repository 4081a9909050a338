ghost use Rattle.std.specs.Prelude.{◌≡◌, ℕ, List};
ghost use Rattle.refusals.specs.Faults.{refusal_by};

use crate::Refusal;
use std::fmt;

/// Why something is refused: a line of a layer's table of refusals.
pub trait Reason: Copy {
    ghost layer_number: { ℕ };

    ghost number_of: { Self → ℕ };

    ghost row_of: { Self → ℕ };

    /// The layer by its number.
    fn layer() -> u8
        ensures { result ≡ layer_number };

    /// The number of the line.
    fn number(self) -> u8
        ensures { result ≡ number_of self };

    /// The row that is told; 0 where none is.
    fn row(self) -> usize
        ensures { result ≡ row_of self };
}

/// Why something is refused, in words.
// Apart from `Reason`: what tells numbers need not tell words.
pub trait Words: Copy {
    ghost words_of: { Self → List ℕ };

    /// The words. Displaying a reason may fail where the writer does; this cannot.
    fn words(self) -> &'static str
        ensures { result.now ≡ words_of self };
}

/// Why something is refused, and where: the role and the rule, counted from 1, and the spot in it.
// 0 where there is none, and no Option: the six numbers are told as they stand here.
#[derive(Clone, Copy, PartialEq, Eq)]
pub struct Fault<W> {
    pub role: usize,
    pub rule: usize,
    pub spot: usize,
    pub why: W,
}

impl<W: Words> Fault<W> {
    /// The reason in words.
    pub fn reason(self) -> &'static str
        ensures { result.now ≡ W.words_of self.why }
    {
        self.why.words()
    }
}

/// The six numbers of a fault.
impl<W: Reason> From<Fault<W>> for Refusal {
    ghost from_gives = { λ f r. r ≡ refusal_by W.layer_number W.number_of W.row_of f };

    fn from(fault: Fault<W>) -> Refusal {
        Refusal {
            number: fault.why.number(),
            layer: W::layer(),
            role: fault.role,
            rule: fault.rule,
            spot: fault.spot,
            row: fault.why.row(),
        }
    }
}

/// The reason in words.
impl<W: fmt::Display> fmt::Display for Fault<W> {
    ghost output = { λ f. W.output f.why };

    fn fmt<O: fmt::Write>(&self, f: &mut fmt::Formatter<O>) -> fmt::Result {
        self.why.fmt(f)
    }
}
