ghost use Rattle.std.specs.Prelude.{◌≡◌, [], ◌∷◌, ◌++◌};
ghost use Rattle.script.specs.Said.{said_part, said_rule_part, predicate, rule, of_rule};
ghost use Rattle.bench.specs.Answers.{answered};
ghost use Rattle.bench.specs.Changes.{Kept, Edited};
ghost use Rattle.bench.specs.Roles.{written_rule, written_role, blank_rule, blank_role, with_rule_part, with_part};

use crate::answer::Answer;
use crate::faults::Fault;
use script::command::{Part, RulePart};
use std::alloc::Global;
use theory::data::{Argument, Predicate, Role, Rule};

/// Puts one more at the end of a list.
pub(crate) fn put<T: Drop>(list: &mut Vec<T>, one: T) -> Result<Answer, Fault>
    ensures { Kept list.old.items (list.old.items ++ one ∷ []) list.new.items (answered result) }
{
    list.push(one)?;
    Ok(Answer::Noted)
}

/// Adds to a rule.
fn add_to_rule(rule: &mut Rule, part: RulePart) -> Result<Answer, Fault>
    ensures { Kept (written_rule rule.old) (with_rule_part (said_rule_part part) (written_rule rule.old)) (written_rule rule.new) (answered result) }
{
    match part {
        RulePart::Universal(of) => put(&mut rule.universal, of),
        RulePart::Made(of) => put(&mut rule.made, of),
        RulePart::Left(fact) => put(&mut rule.left, fact),
        RulePart::Right(fact) => put(&mut rule.right, fact),
    }
}

/// Adds to the last rule of a role.
fn add_to_last_rule(role: &mut Role, part: RulePart) -> Result<Answer, Fault>
    ensures { Edited (with_part (of_rule (said_rule_part part)) (written_role role.old)) (written_role role.old) (written_role role.new) (answered result) }
{
    let Some(mut last) = role.rules.pop() else {
        return Ok(Answer::NotUnderstood);
    };
    let added = add_to_rule(&mut last, part);
    role.rules.push_reserved(last);
    added
}

/// Adds a predicate to a role.
fn add_predicate(role: &mut Role, arguments: Vec<Argument>) -> Result<Answer, Fault>
    ensures { Edited (with_part (predicate arguments.items) (written_role role.old)) (written_role role.old) (written_role role.new) (answered result) }
{
    put(&mut role.predicates, Predicate { arguments })
}

/// A rule with nothing in it.
fn begun_rule(heap: Global) -> Rule
    ensures { written_rule result ≡ blank_rule }
{
    Rule {
        universal: Vec::new(heap),
        left: Vec::new(heap),
        made: Vec::new(heap),
        right: Vec::new(heap),
    }
}

/// A role with nothing in it.
pub(crate) fn begun_role(heap: Global, anchor: Option<u32>) -> Role
    ensures { written_role result ≡ blank_role anchor }
{
    Role {
        anchor,
        predicates: Vec::new(heap),
        rules: Vec::new(heap),
    }
}

/// Begins a rule of a role.
fn add_rule(heap: Global, role: &mut Role) -> Result<Answer, Fault>
    ensures { Edited (with_part rule (written_role role.old)) (written_role role.old) (written_role role.new) (answered result) }
{
    put(&mut role.rules, begun_rule(heap))
}

/// Adds to a role.
pub(crate) fn add_to_role(heap: Global, role: &mut Role, part: Part) -> Result<Answer, Fault>
    ensures { Edited (with_part (said_part part) (written_role role.old)) (written_role role.old) (written_role role.new) (answered result) }
{
    match part {
        Part::Predicate(arguments) => add_predicate(role, arguments),
        Part::Rule => add_rule(heap, role),
        Part::OfRule(part) => add_to_last_rule(role, part),
    }
}
