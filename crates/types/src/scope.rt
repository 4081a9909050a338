ghost use Rattle.std.specs.Prelude.{◌≡◌, ◌++◌};
ghost use Rattle.types.specs.Scopes.{scope_of};
ghost use Rattle.types.specs.Rules.{setting_of, over};

use refusals::walk::Place;
use theory::data::{Declared, Predicate, Theory, Ty};
use theory::owner::Owner;

/// What is declared at some point of a theory: the names, the owner, and the variables, universal
/// ones before made ones.
#[derive(Clone, Copy)]
pub struct Scope<'a> {
    pub names: &'a [Declared],
    pub owner: Owner,
    // Two slices, since a rule has its universal and its made variables in two lists.
    pub universal: &'a [Ty],
    pub made: &'a [Ty],
}

/// What a rule is checked in, and its numbers.
#[derive(Drop)]
pub struct Setting<'a, L> {
    pub layout: &'a L,
    pub theory: &'a Theory,
    pub own: &'a [Predicate],
    pub owner: Owner,
    pub role: usize,
    pub rule: usize,
}

impl<'a, L> Setting<'a, L> {
    /// The names and the owner, and these variables.
    pub(crate) fn scope(&self, universal: &'a [Ty], made: &'a [Ty]) -> Scope<'a>
        ensures { scope_of result ≡ over (setting_of self.now) (universal.now ++ made.now) }
    {
        Scope {
            names: self.theory.names.as_slice(),
            owner: self.owner,
            universal,
            made,
        }
    }

    // The access check has a setting of its own, with this method too: of its fields three are others.
    /// Where the elements of a list stand in the rule, after so many others.
    pub(crate) fn after(&self, others: usize) -> Place
        ensures { result ≡ record { role = self.now.role; rule = self.now.rule; before = others } }
    {
        Place {
            role: self.role,
            rule: self.rule,
            before: others,
        }
    }
}
