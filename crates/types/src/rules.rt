ghost use Rattle.std.specs.Prelude.{◌≡◌, ◌+◌, ◌^◌, ◌<◌, ◌++◌, length, vec_len};
ghost use Rattle.types.specs.Scopes.{scope_of};
ghost use Rattle.types.specs.Facts.{ledger_of};
ghost use Rattle.types.specs.Rules.{setting_of, listed_fact, predicate_at, symbol_check, facts_with, variables_check, facts_check, rule_check};

use crate::facts::check_fact;
use crate::faults::{Ill, TypeFault};
use crate::forms::plain;
use crate::marked::Marked;
use crate::names::is_formed;
use crate::scope::Setting;
use layouts::layout::{Layout, MSG};
use refusals::walk::{check_each, demand};
use terms::places::numbered;
use theory::data::{Fact, Predicate, Rule, Symbol, Ty};

fn check_listed(
    marked: &Marked,
    predicates: &[Predicate],
    number: usize,
    args: &[usize],
) -> Result<(), Ill>
    ensures { result ≡ listed_fact (scope_of marked.now.scope) (ledger_of marked.now) (predicate_at predicates.now number) args.now }
{
    let predicate = numbered(predicates, number).ok_or(Ill::Count)?;
    check_fact(marked, predicate.arguments.as_slice(), args)
}

impl<'a, L: Layout> Setting<'a, L> {
    /// Variables in order, after those before them.
    fn check_variables(&self, before: &'a [Ty], variables: &'a [Ty]) -> Result<(), TypeFault>
        ensures { result ≡ variables_check (L.meaning self.now.layout.now) (setting_of self.now) before.now variables.now }
    {
        check_each(
            variables,
            self.after(before.len()),
            |seen, of| demand(
                is_formed(self.layout, self.scope(before, seen), *of),
                Ill::Unformed,
            ),
        )
    }

    fn check_symbol(&self, marked: &Marked, symbol: Symbol, args: &[usize]) -> Result<(), Ill>
        ensures { result ≡ symbol_check (scope_of marked.now.scope) (ledger_of marked.now) (setting_of self.now) symbol args.now }
    {
        match symbol {
            Symbol::Network => check_fact(marked, &[plain(MSG)], args),
            Symbol::Memory(m) => check_listed(marked, self.theory.memory.as_slice(), m, args),
            Symbol::Role(p) => check_listed(marked, self.own, p, args),
        }
    }

    /// Facts in order; the first has the spot after `base`.
    fn check_facts(&self, marked: &Marked, facts: &[Fact], base: usize) -> Result<(), TypeFault>
        requires { base + length facts.now < 2 ^ 64 }
        ensures { result ≡ facts_with (scope_of marked.now.scope) (ledger_of marked.now) (setting_of self.now) base facts.now }
    {
        check_each(
            facts,
            self.after(base),
            |_, fact| self.check_symbol(marked, fact.symbol, fact.rows.as_slice()),
        )
    }

    /// One side of a rule, over these variables.
    fn check_side(
        &self,
        before: &'a [Ty],
        made: &'a [Ty],
        facts: &[Fact],
        base: usize,
    ) -> Result<(), TypeFault>
        requires { base + length facts.now < 2 ^ 64 }
        ensures { result ≡ facts_check (L.meaning self.now.layout.now) (setting_of self.now) (before.now ++ made.now) base facts.now }
    {
        let marked = Marked::new(self.layout, self.scope(before, made), &self.theory.book);
        self.check_facts(&marked, facts, base)
    }

    /// A rule: universal variables, left facts, made variables, right facts.
    pub(crate) fn check_rule(&self, rule: &'a Rule) -> Result<(), TypeFault>
        ensures { result ≡ rule_check (L.meaning self.now.layout.now) (setting_of self.now) rule.now }
    {
        let universal = rule.universal.as_slice();
        let left = rule.left.as_slice();
        let made = rule.made.as_slice();
        self.check_variables(&[], universal)?;
        self.check_side(&[], universal, left, 0)?;
        self.check_variables(universal, made)?;
        self.check_side(universal, made, rule.right.as_slice(), left.len())
    }
}
