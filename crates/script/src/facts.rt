ghost use Rattle.std.specs.Prelude.{◌≡◌, map, IfOk};
ghost use Rattle.std.specs.Option.{option_map};
ghost use Rattle.script.specs.Facts.{said_fact, symbol_of, fact_of};

use crate::readable::{Readable, read_list};
use crate::types::after_letter;
use std::alloc::{AllocError, Global};
use theory::data::{Fact, Symbol};

/// The predicate of a fact: `N`, `Mk` or `Lk`.
impl Readable for Symbol {
    ghost reads = { symbol_of };

    fn read(word: &str) -> Option<Symbol> {
        if word == "N" {
            return Some(Symbol::Network);
        }
        match after_letter(word, 'M') {
            Some(rest) => usize::read(rest).map(Symbol::Memory),
            None => usize::read(after_letter(word, 'L')?).map(Symbol::Role),
        }
    }
}

/// A fact: its predicate and the rows of its arguments.
pub(crate) fn read_fact(heap: Global, words: &[&str]) -> Result<Option<Fact>, AllocError>
    ensures { IfOk result (λ f. option_map said_fact f ≡ fact_of (map (λ w. w.now) words.now)) }
{
    let [word, rest @ ..] = words else {
        return Ok(None);
    };
    let Some(symbol) = Symbol::read(word) else {
        return Ok(None);
    };
    Ok(read_list(heap, rest)?.map(|rows| Fact { symbol, rows }))
}
