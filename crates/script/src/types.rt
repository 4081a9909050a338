ghost use Rattle.std.specs.Prelude.{◌≡◌, ◌<◌};
ghost use Rattle.std.specs.Option.{option_map};
ghost use Rattle.script.specs.Types.{cut, after, item_parameter, params_of, slot_parameter, ty_of};

use crate::readable::Readable;
use layouts::layout::Params;
use terms::row::Item;
use theory::data::{Slot, Ty};

/// The word before and after its first colon.
fn cut_colon(word: &str) -> Option<(&str, &str)>
    ensures { option_map (λ p. (p.0.now, p.1.now)) result ≡ cut 58 word.now }
{
    // Of its own, since std tells of `split_once` by cases, and callers need an equation.
    word.split_once(':')
}

/// What follows the letter at the word's beginning.
pub(crate) fn after_letter(word: &str, letter: char) -> Option<&str>
    requires { letter < 128 }
    ensures { option_map (λ w. w.now) result ≡ after letter word.now }
{
    // Of its own, since std tells of `strip_prefix` by cases, and callers need an equation.
    word.strip_prefix(letter)
}

/// A parameter: a name's number, or `vN` for variable N.
impl Readable for Item {
    ghost reads = { item_parameter };

    fn read(word: &str) -> Option<Item> {
        match after_letter(word, 'v') {
            Some(rest) => u8::read(rest).map(Item::Variable),
            None => u32::read(word).map(Item::Name),
        }
    }
}

/// A parameter of an argument's type: a name's number, or `#N` for the N-th argument.
impl Readable for Slot {
    ghost reads = { slot_parameter };

    fn read(word: &str) -> Option<Slot> {
        match after_letter(word, '#') {
            Some(rest) => usize::read(rest).map(Slot::Place),
            None => u32::read(word).map(Slot::Name),
        }
    }
}

/// One parameter, or two with a colon between them.
impl<P: Readable> Readable for Params<P> {
    ghost reads = { params_of P.reads };

    fn read(word: &str) -> Option<Params<P>> {
        match cut_colon(word) {
            Some((first, second)) => Some(Params::Two(P::read(first)?, P::read(second)?)),
            None => P::read(word).map(Params::One),
        }
    }
}

/// A type: its family alone, or with its parameters behind a colon.
impl<P: Readable> Readable for Ty<P> {
    ghost reads = { ty_of P.reads };

    fn read(word: &str) -> Option<Ty<P>> {
        let Some((family, rest)) = cut_colon(word) else {
            let family = u8::read(word)?;
            return Some(Ty {
                family,
                params: Params::Zero,
            });
        };
        let family = u8::read(family)?;
        let params = Params::read(rest)?;
        Some(Ty { family, params })
    }
}
