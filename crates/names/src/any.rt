ghost use Rattle.std.specs.Prelude.{◌≡◌};
ghost use Rattle.names.specs.Any.{view_of, ahead_in, Steps, Loads};
ghost use Rattle.names.specs.InRange.{names_in_range};

use crate::counter::Counter;
use crate::faults::ListFault;
use crate::roll::Roll;
use crate::source::Source;
use crate::withholding::Withholding;

/// A counter or a roll, chosen at run time.
// An enum and no trait object: there are just these two, and no heap is needed to hold one.
#[derive(Drop)]
pub enum AnySource {
    Counter(Counter),
    Roll(Roll),
}

impl AnySource {
    /// Loads the list where the source is a roll; `None` where it is a counter.
    pub fn load(&mut self, numbers: &[u32]) -> Option<Result<(), ListFault>>
        ensures { Loads (view_of self.old) numbers.now result (view_of self.new) }
    {
        match self {
            AnySource::Counter(_) => None,
            AnySource::Roll(roll) => Some(roll.load(numbers)),
        }
    }
}

impl Source for AnySource {
    ghost ahead = { λ s. ahead_in (view_of s) };

    ghost draws = { λ s r t. Steps (view_of s) r (view_of t) };

    ghost names = { names_in_range };

    fn is_ahead(&self, name: u32) -> bool {
        match self {
            AnySource::Counter(counter) => counter.is_ahead(name),
            AnySource::Roll(roll) => roll.is_ahead(name),
        }
    }

    fn at_least(&self, count: usize) -> bool {
        match self {
            AnySource::Counter(counter) => counter.at_least(count),
            AnySource::Roll(roll) => roll.at_least(count),
        }
    }

    fn draw(&mut self) -> Option<u32> {
        match self {
            AnySource::Counter(counter) => counter.draw(),
            AnySource::Roll(roll) => roll.draw(),
        }
    }
}

impl Withholding<AnySource> {
    /// Loads the source below, as `AnySource::load` does; the withheld numbers stay.
    pub fn load(&mut self, numbers: &[u32]) -> Option<Result<(), ListFault>>
        ensures loaded { Loads (view_of self.old.below) numbers.now result (view_of self.new.below) }
        ensures same { self.new.withheld.items ≡ self.old.withheld.items }
    {
        self.below.load(numbers)
    }
}
