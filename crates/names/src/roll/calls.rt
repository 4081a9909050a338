ghost use Rattle.std.specs.Prelude.{◌≡◌, ◌<◌, [], length, IfSome, MatchResult};
ghost use Rattle.names.specs.Sets.{listed};
ghost use Rattle.names.specs.Rolls.{first_unfit, load_answer, load_leaves, Reads};
ghost use Rattle.names.specs.Unread.{unread};
ghost use Rattle.names.specs.declared.faults.ListFault.TheVariants.{NoMemory};
ghost use Rattle.names.specs.Reading.{listed_name};

use crate::faults::ListFault;
use crate::lists::refill;
use crate::roll::{MAX_NAMES, Roll};
use crate::source::Source;
use std::alloc::Global;

impl Roll {
    /// An empty roll.
    pub fn new(heap: Global) -> Result<Self, ListFault>
        ensures { MatchResult result (λ roll. unread roll ≡ []) (λ fault. fault ≡ NoMemory) }
    {
        let left = Vec::with_capacity(heap, MAX_NAMES)?;
        Ok(Roll { left })
    }

    /// Replaces the list.
    ///
    /// It is refused, in this order: 5 more than 512 numbers (spot 513); 6 a zero or a repeated
    /// number (spot: its place). A refusal leaves the old list.
    pub fn load(&mut self, numbers: &[u32]) -> Result<(), ListFault>
        ensures answer { result ≡ load_answer numbers.now }
        ensures after { unread self.new ≡ load_leaves (unread self.old) numbers.now result }
    {
        if numbers.len() > MAX_NAMES {
            return Err(ListFault::RollTooLong);
        }
        if let Some(i) = find_unfit(numbers) {
            return Err(ListFault::Unfit { place: i + 1 });
        }
        refill(&mut self.left, numbers);
        self.left.reverse();
        Ok(())
    }
}

/// The index of the first number that is zero or stands at an earlier place too.
fn find_unfit(numbers: &[u32]) -> Option<usize>
    ensures value { result ≡ first_unfit numbers.now }
    ensures within { IfSome result (λ i. i < length numbers.now) }
{
    numbers.iter().enumerate().position(|(i, number)| *number == 0 || numbers[..i].contains(number))
}

impl Source for Roll {
    ghost ahead = { λ r. listed (unread r) };

    ghost draws = { λ r x s. Reads (unread r) x (unread s) };

    ghost names = { λ s n l. listed_name (unread s) n s.once l };

    fn is_ahead(&self, name: u32) -> bool {
        self.left.contains(&name)
    }

    fn at_least(&self, count: usize) -> bool {
        count <= self.left.len()
    }

    fn draw(&mut self) -> Option<u32> {
        self.left.pop()
    }
}
