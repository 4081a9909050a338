ghost use Rattle.std.specs.Prelude.{◌≡◌, ◌≤◌, [], vec_len, vec_capacity, MatchResult};
ghost use Rattle.names.specs.Sets.{minus};
ghost use Rattle.names.specs.Withheld.{hidden, withhold_answer, withhold_leaves, FirstKept};
ghost use Rattle.std.proofs.Common.{rules};

use crate::faults::ListFault;
use crate::lists::refill;
use crate::source::Source;
use std::alloc::{AllocFailed, Global};

/// The most numbers of a withholding layer.
pub(crate) const MAX_WITHHELD: usize = 32;

/// A source whose names ahead are those of a source below, without some that are withheld. It has
/// memory for 32 numbers from the start.
#[derive(Drop)]
pub struct Withholding<S> {
    pub(crate) below: S,
    // No `ArrayVec`: `new` promises to answer want of memory, and to give the source back.
    withheld: Vec<u32>,
    ghost few: { vec_len withheld ≤ 32 },
    ghost room: { 32 ≤ vec_capacity withheld },
}

impl<S: Source> Withholding<S> {
    /// A layer that withholds nothing yet; where there is no memory, the source comes back.
    pub fn new(heap: Global, below: S) -> Result<Self, AllocFailed<S>>
        ensures { MatchResult result (λ w. (w.below ≡ below) × (w.withheld.items ≡ [])) (λ back. back.value ≡ below) }
    {
        match Vec::with_capacity(heap, MAX_WITHHELD) {
            Ok(withheld) => Ok(Withholding { below, withheld }),
            Err(_) => Err(AllocFailed { value: below }),
        }
    }

    /// Replaces the list of withheld numbers; zeros and repeats are allowed.
    ///
    /// It is refused with 5 where there are more than 32 numbers (spot 33), and then leaves the
    /// old list.
    pub fn withhold(&mut self, numbers: &[u32]) -> Result<(), ListFault>
        ensures answer { result ≡ withhold_answer numbers.now }
        ensures after { self.new.withheld.items ≡ withhold_leaves self.old.withheld.items numbers.now result }
        ensures same { self.new.below ≡ self.old.below }
    {
        if numbers.len() > MAX_WITHHELD {
            return Err(ListFault::LayerTooLong);
        }
        refill(&mut self.withheld, numbers);
        Ok(())
    }
}

/// How many of the names ahead are listed, each counted once.
fn count_hidden<S: Source>(below: &S, numbers: &[u32]) -> usize
    ensures { result ≡ hidden (S.ahead below.now) numbers.now }
{
    numbers
        .iter()
        .enumerate()
        .filter(|(i, number)| below.is_ahead(**number) && !numbers[..*i].contains(number))
        .count()
}

impl<S: Source> Source for Withholding<S> {
    ghost ahead = { λ w. minus (S.Source.ahead w.below) w.withheld.items };

    ghost draws = { λ w r v. FirstKept S.Source.draws w.withheld.items w.below r v.below × (v.withheld.items ≡ w.withheld.items) };

    ghost names = { Prim.search rules };

    fn is_ahead(&self, name: u32) -> bool {
        self.below.is_ahead(name) && !self.withheld.contains(&name)
    }

    fn at_least(&self, count: usize) -> bool {
        let kept_back = count_hidden(&self.below, &self.withheld);
        self.below.at_least(count.saturating_add(kept_back))
    }

    fn draw(&mut self) -> Option<u32> {
        // A loop: a chain would need an iterator of draws, of which a proof knows less than of `draw`.
        while let Some(name) = self.below.draw() {
            if !self.withheld.contains(&name) {
                return Some(name);
            }
        }
        None
    }
}
