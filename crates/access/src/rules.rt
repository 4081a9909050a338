ghost use Rattle.std.specs.Prelude.{◌≡◌, length};
ghost use Rattle.refusals.specs.Demands.{First};
ghost use Rattle.terms.specs.Held.{rows_of};
ghost use Rattle.terms.specs.Marks.{marks_of};
ghost use Rattle.access.specs.Demands.{parts_of, rule_lines, rules_lines, roles_lines};
ghost use Rattle.access.specs.Places.{setting_of};
ghost use Rattle.access.specs.Tabled.{PartsTabled, RulesTabled, RolesTabled};
ghost use Rattle.access.specs.Tests.{reading_check};

use crate::building::Builder;
use crate::entries::rule_scope;
use crate::faults::AccessFault;
use crate::setting::{Names, Setting};
use layouts::layout::Layout;
use reading::left::{Reading, read_left};
use terms::book::Book;
use theory::data::{Role, Rule};
use theory::owner::Owner;

impl<L: Layout> Setting<'_, L> {
    /// What comes after the owner: closed rows, made variables, and what the right facts are built
    /// of.
    fn check_reading(&self, rule: &Rule, reading: &Reading) -> Result<(), AccessFault>
        requires { PartsTabled (length (rows_of self.now.book.now)) (parts_of rule.now) }
        ensures { result ≡ reading_check (L.meaning self.now.layout.now) (setting_of self.now) (marks_of reading.now.held) (marks_of reading.now.closed) (parts_of rule.now) }
    {
        self.check_closed(reading.closed.as_slice())?;
        let made = rule.made.as_slice();
        let universal = rule.universal.len();
        self.check_made(made, universal)?;
        let builder = Builder {
            owner: self.owner,
            universal,
            made: made.len(),
            held: reading.held.as_slice(),
        };
        let can = builder.buildable_rows(self.book);
        self.check_built(can.as_slice(), rule.right.as_slice(), rule.left.len())
    }

    /// The parts of a rule, in the order in which they are checked.
    fn check_rule(&self, rule: &Rule) -> Result<(), AccessFault>
        requires { PartsTabled (length (rows_of self.now.book.now)) (parts_of rule.now) }
        ensures { First (rule_lines (L.meaning self.now.layout.now) (setting_of self.now) rule.now) result }
    {
        let left = rule.left.as_slice();
        self.check_owners(left, 0)?;
        self.check_owners(rule.right.as_slice(), left.len())?;
        let scope = rule_scope(self.names, self.owner, rule.universal.as_slice());
        let Some(reading) = read_left(self.layout, self.book, scope.as_slice(), self.owner, left)
        else {
            unreachable!()
        };
        self.check_reading(rule, &reading)
    }

    /// The rules of a role, in order.
    fn check_rules(&self, rules: &[Rule]) -> Result<(), AccessFault>
        requires { RulesTabled (length (rows_of self.now.book.now)) rules.now }
        ensures { First (rules_lines (L.meaning self.now.layout.now) (setting_of self.now) rules.now) result }
    {
        // No `check_numbered`: it asks for a check of any rule, and `check_rule` takes tabled ones.
        for (i, rule) in rules.iter().enumerate() {
            let here = Setting {
                rule: i + 1,
                ..*self
            };
            here.check_rule(rule)?;
        }
        Ok(())
    }
}

/// Role after role.
pub(crate) fn check_roles<'x, L: Layout>(
    layout: &'x L,
    names: Names<'x>,
    book: &'x Book,
    roles: &[Role],
) -> Result<(), AccessFault>
    requires { RolesTabled (length (rows_of book.now)) roles.now }
    ensures { First (roles_lines (L.meaning layout.now) names.entry.declared.now (rows_of book.now) roles.now) result }
{
    // No `check_numbered`, as for rules.
    for (i, role) in roles.iter().enumerate() {
        let setting = Setting {
            layout,
            names,
            book,
            owner: Owner::from(role.anchor),
            role: i + 1,
            rule: 0,
        };
        setting.check_rules(role.rules.as_slice())?;
    }
    Ok(())
}
