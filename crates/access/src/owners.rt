ghost use Rattle.std.specs.Prelude.{◌≡◌, ℕ, ◌+◌, ◌^◌, ◌<◌, true, false, ◌∷◌, length, vec_items, MatchOption};
ghost use Rattle.terms.specs.Held.{rows_of};
ghost use Rattle.types.specs.Rows.{row_at};
ghost use Rattle.access.specs.Places.{setting_of};
ghost use Rattle.access.specs.Tests.{is_owner, begins, owned, owners_check};

use crate::faults::{AccessFault, Denied};
use crate::setting::Setting;
use refusals::walk::{check_each, demand};
use terms::book::Book;
use theory::data::{Fact, Symbol};
use theory::owner::Owner;

/// Whether the row with the number is the owner.
// Beside the methods: under a generic type the closure's meaning was not carried.
fn is_owner(owner: Owner, book: &Book, number: usize) -> bool
    ensures { result ≡ is_owner owner (row_at (rows_of book.now) number) }
{
    book.item(number)
        .is_some_and(|item| owner.read(item) == owner.item())
}

impl<L> Setting<'_, L> {
    /// The arguments after the first, where that is the owner.
    fn after_owner<'a>(&self, arguments: &'a [usize]) -> Option<&'a [usize]>
        ensures { MatchOption result (begins self.now.owner (rows_of self.now.book.now) arguments.now ≡ false) (λ rest. (begins self.now.owner (rows_of self.now.book.now) arguments.now ≡ true) × ((k : ℕ) × (arguments.now ≡ k ∷ rest.now))) }
    {
        // A slice pattern: the form that was asked for here.
        let [first, rest @ ..] = arguments else {
            return None;
        };
        is_owner(self.owner, self.book, *first).then_some(rest)
    }

    /// Whether the first argument of a memory or role fact is the owner.
    fn is_owned(&self, fact: &Fact) -> bool
        ensures { result ≡ owned self.now.owner (rows_of self.now.book.now) fact.now.symbol (vec_items fact.now.rows) }
    {
        match fact.symbol {
            Symbol::Network => true,
            Symbol::Memory(_) | Symbol::Role(_) => self.after_owner(fact.rows.as_slice()).is_some(),
        }
    }

    /// Facts in order; the first has the spot after `base`.
    pub(crate) fn check_owners(&self, facts: &[Fact], base: usize) -> Result<(), AccessFault>
        requires { base + length facts.now < 2 ^ 64 }
        ensures { result ≡ owners_check (setting_of self.now) base facts.now }
    {
        check_each(facts, self.after(base), |_, fact| {
            demand(self.is_owned(fact), Denied::NotOwner)
        })
    }
}
