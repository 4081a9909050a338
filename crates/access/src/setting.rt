ghost use Rattle.std.specs.Prelude.{◌≡◌, ◌≤◌, length};

use refusals::walk::Place;
use terms::book::Book;
use theory::data::Declared;
use theory::owner::Owner;

/// The declared names of a theory whose tables are whole.
#[derive(Clone, Copy)]
pub struct Names<'a> {
    pub declared: &'a [Declared],
    ghost few: { length declared.now ≤ 128 },
}

/// What a rule is checked in, under a layout, and its numbers.
#[derive(Drop)]
pub struct Setting<'a, L> {
    pub layout: &'a L,
    pub names: Names<'a>,
    pub book: &'a Book,
    pub owner: Owner,
    pub role: usize,
    pub rule: usize,
}

impl<L> Setting<'_, L> {
    /// Where the elements of a list stand in the rule, after so many others.
    pub(crate) fn after(&self, others: usize) -> Place
        ensures { result ≡ record { role = self.now.role; rule = self.now.rule; before = others } }
    {
        Place {
            role: self.role,
            rule: self.rule,
            before: others,
        }
    }
}
