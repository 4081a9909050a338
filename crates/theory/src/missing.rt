ghost use Rattle.std.specs.Prelude.{◌≡◌, ◌+◌, ◌^◌, ◌<◌, length, vec_items};
ghost use Rattle.theory.specs.Missing.{slot_there, slots_there, arguments_there, symbol_there, rows_there, fact_there, predicates_missing, facts_missing, rule_missing, rules_missing, with_own, role_missing, roles_missing, sizes_of, missing_check};

use crate::data::{Argument, Fact, Predicate, Role, Rule, Slot, Symbol, Theory};
use crate::faults::{Flaw, TableFault};
use layouts::layout::Params;
use refusals::walk::{Place, check_each, check_numbered, demand};
use terms::places::is_number;

/// Whether the parameter is a name or an earlier place.
fn is_slot_there(earlier: usize, slot: Slot) -> bool
    ensures { result ≡ slot_there earlier slot }
{
    match slot {
        Slot::Name(_) => true,
        Slot::Place(place) => is_number(earlier, place),
    }
}

/// Whether each of the parameters is.
fn are_slots_there(earlier: usize, slots: Params<Slot>) -> bool
    ensures { result ≡ slots_there earlier slots }
{
    // Parameters are no list: a chain over them would first have to make one.
    match slots {
        Params::Zero => true,
        Params::One(p) => is_slot_there(earlier, p),
        Params::Two(p, q) => is_slot_there(earlier, p) && is_slot_there(earlier, q),
    }
}

/// Whether every argument type names earlier places only.
fn are_arguments_there(arguments: &[Argument]) -> bool
    ensures { result ≡ arguments_there 0 arguments.now }
{
    arguments
        .iter()
        .enumerate()
        .all(|(i, argument)| are_slots_there(i, argument.params))
}

/// Predicate by predicate; the first has the spot after `before`.
fn check_predicates(predicates: &[Predicate], role: usize, before: usize) -> Result<(), TableFault>
    requires { before + length predicates.now < 2 ^ 64 }
    ensures { result ≡ predicates_missing role before predicates.now }
{
    let place = Place {
        role,
        rule: 0,
        before,
    };
    check_each(predicates, place, |_, predicate| {
        demand(
            are_arguments_there(predicate.arguments.as_slice()),
            Flaw::Missing,
        )
    })
}

/// How many rows and predicates a fact can name; `own` is `None` where no role is told.
#[derive(Clone, Copy)]
pub(crate) struct Sizes {
    rows: usize,
    memory: usize,
    own: Option<usize>,
}

impl Sizes {
    /// Those of the theory, no role being told.
    fn of(theory: &Theory) -> Sizes
        ensures { result ≡ sizes_of theory.now }
    {
        Sizes {
            rows: theory.book.rows().len(),
            memory: theory.memory.len(),
            own: None,
        }
    }

    /// The same in a role with so many predicates.
    fn in_role(self, predicates: usize) -> Sizes
        ensures { result ≡ with_own self predicates }
    {
        Sizes {
            own: Some(predicates),
            ..self
        }
    }

    /// Whether the predicate is there.
    fn has_symbol(self, symbol: Symbol) -> bool
        ensures { result ≡ symbol_there self symbol }
    {
        match symbol {
            Symbol::Network => true,
            Symbol::Memory(number) => is_number(self.memory, number),
            Symbol::Role(number) => self.own.is_none_or(|count| is_number(count, number)),
        }
    }

    /// Whether all the rows are there.
    fn has_rows(self, rows: &[usize]) -> bool
        ensures { result ≡ rows_there self.rows rows.now }
    {
        rows.iter().all(|row| is_number(self.rows, *row))
    }

    /// Whether the predicate of a fact and all its rows are there.
    fn has(self, fact: &Fact) -> bool
        ensures { result ≡ fact_there self fact.now }
    {
        self.has_symbol(fact.symbol) && self.has_rows(fact.rows.as_slice())
    }

    /// Fact by fact.
    fn check_facts(self, facts: &[Fact], place: Place) -> Result<(), TableFault>
        requires { place.before + length facts.now < 2 ^ 64 }
        ensures { result ≡ facts_missing self place.role place.rule place.before facts.now }
    {
        check_each(facts, place, |_, fact| {
            demand(self.has(fact), Flaw::Missing)
        })
    }

    /// The left facts of a rule, then its right facts, which count on.
    fn check_rule(self, rule: &Rule, role: usize, number: usize) -> Result<(), TableFault>
        ensures { result ≡ rule_missing self role number (vec_items rule.now.left) (vec_items rule.now.right) }
    {
        let left = Place {
            role,
            rule: number,
            before: 0,
        };
        let right = Place {
            before: rule.left.len(),
            ..left
        };
        self.check_facts(rule.left.as_slice(), left)?;
        self.check_facts(rule.right.as_slice(), right)
    }

    /// Rule by rule.
    fn check_rules(self, rules: &[Rule], role: usize) -> Result<(), TableFault>
        ensures { result ≡ rules_missing self role rules.now }
    {
        check_numbered(rules, |number, rule| self.check_rule(rule, role, number))
    }

    /// The predicates of a role, then its rules.
    fn check_role(self, role: &Role, number: usize) -> Result<(), TableFault>
        ensures { result ≡ role_missing self number (vec_items role.now.predicates) (vec_items role.now.rules) }
    {
        check_predicates(role.predicates.as_slice(), number, 0)?;
        let own = self.in_role(role.predicates.len());
        own.check_rules(role.rules.as_slice(), number)
    }

    /// Role by role.
    fn check_roles(self, roles: &[Role]) -> Result<(), TableFault>
        ensures { result ≡ roles_missing self roles.now }
    {
        check_numbered(roles, |number, role| self.check_role(role, number))
    }
}

/// Everything that the theory and its initial facts name is there.
pub(crate) fn check_missing(theory: &Theory, initial: &[Fact]) -> Result<(), TableFault>
    ensures { result ≡ missing_check theory.now initial.now }
{
    check_predicates(theory.memory.as_slice(), 0, theory.names.len())?;
    let sizes = Sizes::of(theory);
    sizes.check_roles(theory.roles.as_slice())?;
    let place = Place {
        role: 0,
        rule: 0,
        before: 0,
    };
    sizes.check_facts(initial, place)
}
