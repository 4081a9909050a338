ghost use Rattle.std.specs.Prelude.{◌≡◌, vec_items};
ghost use Rattle.judgments.specs.Theorems.{DeclaredOnce};
ghost use Rattle.terms.specs.Held.{rows_of};
ghost use Rattle.types.specs.Rules.{setting_of};
ghost use Rattle.types.specs.Theories.{anchor_check, rules_check, role_at, roles_check, theory_check};
ghost use Rattle.types.specs.Typed.{TheoryTyped};
ghost use Rattle.refusals.specs.Decides.{Passes};
ghost use Rattle.refusals.specs.Demands.{First};
ghost use Rattle.types.specs.Demands.{theory_lines, numbered};

use crate::faults::{Ill, TypeFault};
use crate::names::{check_names, has_family, name_type};
use crate::predicates::Signature;
use crate::scope::Setting;
use layouts::layout::{Layout, PRINCIPAL};
use refusals::walk::check_numbered;
use theory::data::{Declared, Role, Rule, Theory};
use theory::owner::Owner;

impl<'a, L: Layout> Setting<'a, L> {
    /// The rules of a role, in order.
    fn check_rules(&self, rules: &'a [Rule]) -> Result<(), TypeFault>
        ensures { result ≡ rules_check (L.meaning self.now.layout.now) (setting_of self.now) rules.now }
    {
        check_numbered(rules, |number, rule| {
            let here = Setting {
                rule: number,
                ..*self
            };
            here.check_rule(rule)
        })
    }
}

/// An anchor is a declared principal.
fn check_anchor(names: &[Declared], anchor: Option<u32>, role: usize) -> Result<(), TypeFault>
    ensures { result ≡ anchor_check names.now role anchor }
{
    match anchor {
        Some(a) if !has_family(name_type(names, a), PRINCIPAL) => Err(TypeFault {
            role,
            rule: 0,
            spot: 0,
            why: Ill::NoPrincipal,
        }),
        _ => Ok(()),
    }
}

/// A role: its anchor, its predicates, its rules.
fn check_role<L: Layout>(
    layout: &L,
    theory: &Theory,
    number: usize,
    role: &Role,
) -> Result<(), TypeFault>
    ensures { result ≡ role_at (L.meaning layout.now) (vec_items theory.now.names) (vec_items theory.now.memory) (rows_of theory.now.book) number role.now }
{
    let names = theory.names.as_slice();
    let own = role.predicates.as_slice();
    check_anchor(names, role.anchor, number)?;
    Signature { layout, names }.check_predicates(own, number, 0)?;
    let setting = Setting {
        layout,
        theory,
        own,
        owner: Owner::from(role.anchor),
        role: number,
        rule: 0,
    };
    setting.check_rules(role.rules.as_slice())
}

/// Role after role.
fn check_roles<L: Layout>(layout: &L, theory: &Theory) -> Result<(), TypeFault>
    ensures { result ≡ roles_check (L.meaning layout.now) (vec_items theory.now.names) (vec_items theory.now.memory) (rows_of theory.now.book) (vec_items theory.now.roles) }
{
    check_numbered(
        theory.roles.as_slice(),
        |number, role| check_role(layout, theory, number, role),
    )
}

/// The signature, the memory predicates, then role after role.
fn check_tables<L: Layout>(layout: &L, theory: &Theory) -> Result<(), TypeFault>
    ensures { result ≡ theory_check (L.meaning layout.now) theory.now }
{
    let names = theory.names.as_slice();
    check_names(layout, names)?;
    Signature { layout, names }.check_predicates(theory.memory.as_slice(), 0, names.len())?;
    check_roles(layout, theory)
}

/// The type check of a theory. It rests on a theorem: in a well-formed context no item has two types.
pub fn check_types<L: Layout>(layout: &L, theory: &Theory) -> Result<(), TypeFault>
    ensures answer { result ≡ theory_check (L.meaning layout.now) theory.now }
    ensures judged { Passes result (TheoryTyped (L.meaning layout.now) theory.now) }
    ensures told { First (theory_lines (L.meaning layout.now) theory.now) (numbered result) }
    ensures regular { DeclaredOnce }
{
    check_tables(layout, theory)
}
