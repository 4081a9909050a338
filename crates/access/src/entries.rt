ghost use Rattle.std.specs.Prelude.{◌≡◌, ◌+◌, ◌<◌, ◌≤◌, ◌++◌, map, length};
ghost use Rattle.types.specs.Forms.{read_type};
ghost use Rattle.access.specs.Scopes.{name_entry, owner_entries, variable_entries, rule_scope};

use crate::setting::Names;
use arrayvec::ArrayVec;
use layouts::layout::PRINCIPAL;
use reading::scope::{Entry, MAX_DECLARED};
use terms::row::Item;
use theory::data::{Declared, Ty};
use theory::owner::Owner;
use types::forms::{plain, read_type};

/// The items declared where a rule is read.
pub(crate) type Scope = ArrayVec<Entry, MAX_DECLARED>;

/// The item with its type, as the owner reads it.
fn entry(owner: Owner, item: Item, of: Ty) -> Entry
    ensures { result ≡ record { item = item; of = read_type owner of } }
{
    Entry {
        item,
        of: read_type(owner, of),
    }
}

/// The declared names.
fn add_names(scope: &mut Scope, owner: Owner, names: &[Declared])
    requires { length scope.old.items + length names.now ≤ 144 }
    ensures { scope.new.items ≡ scope.old.items ++ map (name_entry owner) names.now }
{
    // No `extend`: it tells a full vector as want of memory, and here there is room.
    for declared in names {
        scope.push(entry(owner, Item::Name(declared.name), declared.of));
    }
}

/// The owner, where it is a variable.
fn add_owner(scope: &mut Scope, owner: Owner)
    requires { length scope.old.items < 144 }
    ensures { scope.new.items ≡ scope.old.items ++ owner_entries owner }
{
    if let Owner::Generic = owner {
        scope.push(Entry {
            item: Item::Variable(0),
            of: plain(PRINCIPAL),
        });
    }
}

/// The universal variables, from 1.
fn add_variables(scope: &mut Scope, owner: Owner, variables: &[Ty])
    requires room { length scope.old.items + length variables.now ≤ 144 }
    requires few { length variables.now ≤ 15 }
    ensures { scope.new.items ≡ scope.old.items ++ variable_entries owner 1 variables.now }
{
    // No `extend`, as for names.
    for (i, of) in variables.iter().enumerate() {
        scope.push(entry(owner, Item::Variable((i + 1) as u8), *of));
    }
}

/// What is declared before a rule's made variables, as the owner reads it.
pub(crate) fn rule_scope(names: Names, owner: Owner, universal: &[Ty]) -> Scope
    requires { length universal.now ≤ 15 }
    ensures { result.items ≡ rule_scope names.entry.declared.now owner universal.now }
{
    let mut scope = Scope::new();
    add_names(&mut scope, owner, names.declared);
    add_owner(&mut scope, owner);
    add_variables(&mut scope, owner, universal);
    scope
}
