ghost use Rattle.std.specs.Prelude.{◌≡◌, ℕ, List, map, IfOk, vec_items, Option};
ghost use Rattle.std.specs.Option.{option_map};
ghost use Rattle.script.specs.Lists.{all_of, name_of, row_number_of};
ghost use Rattle.script.specs.Numbers.{number_up_to};

use crate::numbers::read_number;
use std::alloc::{AllocError, Global};

/// What one word can say.
// It is no `FromStr`, which this crate could not implement for the types of others, and whose
// `u32` takes a plus sign, too.
pub(crate) trait Readable: Sized + Drop {
    ghost reads: { List ℕ → Option Self };

    fn read(word: &str) -> Option<Self>
        ensures { result ≡ reads word.now };
}

// An impl for each width of number, since each has a definition of its own.

/// A family, or a variable, by its number.
impl Readable for u8 {
    ghost reads = { number_up_to 255 };

    fn read(word: &str) -> Option<u8> {
        u8::try_from(read_number(word, usize::from(u8::MAX))?).ok()
    }
}

/// A name by its number.
impl Readable for u32 {
    ghost reads = { name_of };

    fn read(word: &str) -> Option<u32> {
        u32::try_from(read_number(word, u32::MAX as usize)?).ok()
    }
}

/// A row, or a place, by its number.
impl Readable for usize {
    ghost reads = { row_number_of };

    fn read(word: &str) -> Option<usize> {
        read_number(word, usize::MAX)
    }
}

/// What the words say, one after the other.
pub(crate) fn read_list<T: Readable>(
    heap: Global,
    words: &[&str],
) -> Result<Option<Vec<T>>, AllocError>
    ensures { IfOk result (λ v. option_map vec_items v ≡ all_of T.reads (map (λ w. w.now) words.now)) }
{
    // A loop: `collect` into an `Option` does not say that it fails where a word says nothing.
    let mut list = Vec::new(heap);
    for word in words {
        let Some(one) = T::read(word) else {
            return Ok(None);
        };
        list.push(one)?;
    }
    Ok(Some(list))
}
