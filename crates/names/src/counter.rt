ghost use Rattle.std.specs.Prelude.{◌≡◌, ◌<◌, ◌≤◌, max};
ghost use Rattle.names.specs.Counting.{from_next, Counts};
ghost use Rattle.std.proofs.Common.{rules};

use crate::source::Source;

/// The number after the last name.
const PAST_LAST: u64 = u32::MAX as u64 + 1;

/// The numbers from a first one through 4,294,967,295, the lowest first.
#[derive(Drop)]
pub struct Counter {
    /// The next name, or the number after the last one, which no `u32` is.
    next: u64,
    ghost low: { 0 < next },
    ghost high: { next ≤ 4294967296 },
}

impl Counter {
    /// A counter that begins with `first`, or with 1 where that is 0.
    pub fn new(first: u32) -> Self
        ensures { result.next ≡ max first 1 }
    {
        Counter {
            next: u64::from(first.max(1)),
        }
    }
}

impl Source for Counter {
    ghost ahead = { λ c. from_next c.next };

    ghost draws = { λ c r d. Counts c.next r d.next };

    ghost names = { Prim.search rules };

    fn is_ahead(&self, name: u32) -> bool {
        self.next <= u64::from(name)
    }

    fn at_least(&self, count: usize) -> bool {
        count as u64 <= PAST_LAST - self.next
    }

    fn draw(&mut self) -> Option<u32> {
        let name = u32::try_from(self.next).ok()?;
        self.next += 1;
        Some(name)
    }
}
