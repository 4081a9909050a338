ghost use Rattle.std.specs.Prelude.{◌≡◌, ◌+◌, ◌^◌, ◌<◌, length};
ghost use Rattle.refusals.specs.Faults.{Walked, WalkedByNumber};
ghost use Rattle.refusals.specs.Walks.{pass, demand};

use crate::fault::Fault;

/// Where the elements of a list stand: the role and the rule, counted from 1, and how many elements
/// of other lists count before them. The role or the rule is 0 where there is none, as in a fault.
#[derive(Clone, Copy)]
pub struct Place {
    pub role: usize,
    pub rule: usize,
    pub before: usize,
}

/// The reason, unless the demand holds.
pub fn demand<W: Drop>(holds: bool, why: W) -> Result<(), W>
    ensures { result ≡ demand holds why pass }
{
    holds.then_some(()).ok_or(why)
}

/// Checks the elements one after the other, each told those before it; the first fault is told with
/// its place.
// What is asked is of our own code and of no input: that the closure may be called, and that spots fit;
// of elements of any type, a list's length alone says too little.
pub fn check_each<T, W, F: Fn(&[T], &T) -> Result<(), W>>(
    items: &[T],
    place: Place,
    check: F,
) -> Result<(), Fault<W>>
    requires ready { F.IsAlwaysCallable check }
    requires counted { place.before + length items.now < 2 ^ 64 }
    ensures { Walked (F.post check) place items.now result }
{
    for (i, item) in items.iter().enumerate() {
        if let Err(why) = check(&items[0..i], item) {
            return Err(Fault {
                role: place.role,
                rule: place.rule,
                spot: place.before + (i + 1),
                why,
            });
        }
    }
    Ok(())
}

/// Checks the elements one after the other, each told its number, counted from 1; the first fault
/// is the answer.
// What is asked is of our own code and of no input: that the closure may be called.
pub fn check_numbered<T, W, F: Fn(usize, &T) -> Result<(), W>>(
    items: &[T],
    check: F,
) -> Result<(), W>
    requires { F.IsAlwaysCallable check }
    ensures { WalkedByNumber (F.post check) items.now result }
{
    for (i, item) in items.iter().enumerate() {
        check(i + 1, item)?;
    }
    Ok(())
}
