ghost use Rattle.std.specs.Prelude.{◌≡◌, map, IfOk};
ghost use Rattle.script.specs.Words.{words};

use std::alloc::{AllocError, Global};

/// The words of a line: what stands between its blanks.
pub fn split_words<'a>(heap: Global, line: &'a str) -> Result<Vec<&'a str>, AllocError>
    ensures { IfOk result (λ v. map (λ w. w.now) v.items ≡ words line.now) }
{
    line.split(' ')
        .filter(|piece| !piece.is_empty())
        .collect(heap)
}
