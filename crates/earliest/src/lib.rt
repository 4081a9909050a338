//! The place of the earliest element that equals a given one: one text for every element type whose
//! equality is an equivalence.
#![tactic(auto)]

ghost use Rattle.std.specs.Prelude.{◌≡◌};
ghost use Rattle.earliest.specs.Places.{earliest, First};

/// The place, counted from 0, of the first element that equals `sought`, or `None` where no element
/// does.
pub fn earliest_place<T: Eq>(items: &[T], sought: &T) -> Option<usize>
    ensures value { result ≡ earliest T.eq sought.now items.now }
    ensures first { First T.eq sought.now items.now result }
{
    items.iter().position(|item| item == sought)
}
