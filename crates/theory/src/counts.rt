ghost use Rattle.std.specs.Prelude.{◌≡◌, ◌-◌, ◌^◌, ◌<◌, min, vec_items};
ghost use Rattle.theory.specs.Counts.{count_check, predicates_counts, rule_counts, rules_counts, role_counts, roles_counts, rules_in_all, counts_check};

use crate::data::{Fact, Predicate, Role, Rule, Theory};
use crate::faults::{Flaw, TableFault};
use refusals::walk::check_numbered;

// The limits, each as the definitions have it.
const MAX_NAMES: usize = 128;

const MAX_PREDICATES: usize = 16;

const MAX_ARGUMENTS: usize = 8;

const MAX_ROLES: usize = 16;

const MAX_RULES: usize = 64;

const MAX_ROLE_PREDICATES: usize = 4;

const MAX_UNIVERSAL: usize = 15;

const MAX_FACTS: usize = 8;

const MAX_MADE: usize = 8;

const MAX_INITIAL: usize = 128;

/// What a count belongs to, as a fault tells it: the role and the rule, counted from 1, or 0.
#[derive(Clone, Copy)]
struct Part {
    role: usize,
    rule: usize,
}

impl Part {
    /// A count is at most its limit.
    fn check_count(self, count: usize, limit: usize) -> Result<(), TableFault>
        requires { limit < 1000 }
        ensures { result ≡ count_check count limit self.role self.rule }
    {
        if count <= limit {
            return Ok(());
        }
        Err(TableFault {
            role: self.role,
            rule: self.rule,
            spot: limit + 1,
            why: Flaw::TooMany,
        })
    }
}

/// The argument types of each predicate.
fn check_predicates(predicates: &[Predicate], role: usize) -> Result<(), TableFault>
    ensures { result ≡ predicates_counts role predicates.now }
{
    let part = Part { role, rule: 0 };
    check_numbered(predicates, |_, predicate| {
        part.check_count(predicate.arguments.len(), MAX_ARGUMENTS)
    })
}

/// The variables and facts of a rule.
fn check_rule(rule: &Rule, role: usize, number: usize) -> Result<(), TableFault>
    ensures { result ≡ rule_counts role number rule.now }
{
    let part = Part { role, rule: number };
    part.check_count(rule.universal.len(), MAX_UNIVERSAL)?;
    part.check_count(rule.left.len(), MAX_FACTS)?;
    part.check_count(rule.made.len(), MAX_MADE)?;
    part.check_count(rule.right.len(), MAX_FACTS)
}

/// Rule by rule.
fn check_rules(rules: &[Rule], role: usize) -> Result<(), TableFault>
    ensures { result ≡ rules_counts role rules.now }
{
    check_numbered(rules, |number, rule| check_rule(rule, role, number))
}

/// The predicates and the rules of a role.
fn check_role(role: &Role, number: usize) -> Result<(), TableFault>
    ensures { result ≡ role_counts number (vec_items role.now.predicates) (vec_items role.now.rules) }
{
    let part = Part {
        role: number,
        rule: 0,
    };
    part.check_count(role.predicates.len(), MAX_ROLE_PREDICATES)?;
    check_predicates(role.predicates.as_slice(), number)?;
    check_rules(role.rules.as_slice(), number)
}

/// Role by role.
fn check_roles(roles: &[Role]) -> Result<(), TableFault>
    ensures { result ≡ roles_counts roles.now }
{
    check_numbered(roles, |number, role| check_role(role, number))
}

/// How many rules there are in all; the highest number where there are more.
fn rule_total(roles: &[Role]) -> usize
    ensures { result ≡ min (rules_in_all roles.now) (2 ^ 64 - 1) }
{
    roles
        .iter()
        .map(|role| role.rules.len())
        .fold(0, usize::saturating_add)
}

/// Every count of the theory and its initial facts is within its limit.
pub(crate) fn check_counts(theory: &Theory, initial: &[Fact]) -> Result<(), TableFault>
    ensures { result ≡ counts_check theory.now initial.now }
{
    let whole = Part { role: 0, rule: 0 };
    whole.check_count(theory.names.len(), MAX_NAMES)?;
    whole.check_count(theory.memory.len(), MAX_PREDICATES)?;
    check_predicates(theory.memory.as_slice(), 0)?;
    whole.check_count(theory.roles.len(), MAX_ROLES)?;
    whole.check_count(rule_total(theory.roles.as_slice()), MAX_RULES)?;
    check_roles(theory.roles.as_slice())?;
    whole.check_count(initial.len(), MAX_INITIAL)
}
