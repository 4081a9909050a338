ghost use Rattle.std.specs.Prelude.{◌≡◌};
ghost use Rattle.types.specs.Scopes.{type_in, scope_type, scope_of};
ghost use Rattle.types.specs.Types.{has_family, type_formed};
ghost use Rattle.types.specs.Names.{name_check, names_check, names_only};
ghost use Rattle.types.specs.Judged.{context_of};
ghost use Rattle.refusals.specs.Decides.{Passes};
ghost use Rattle.judgments.specs.Typing.{Formed};

use crate::faults::{Ill, TypeFault};
use crate::forms::{is_formed_by, plain};
use crate::scope::Scope;
use layouts::layout::{Layout, PRINCIPAL};
use refusals::walk::demand;
use terms::row::Item;
use theory::data::{Declared, Ty};
use theory::owner::Owner;

/// The type of a declared name.
pub(crate) fn name_type(names: &[Declared], name: u32) -> Option<Ty>
    ensures { result ≡ type_in names.now name }
{
    names
        .iter()
        .find(|declared| declared.name == name)
        .map(|declared| declared.of)
}

/// The type that an item has by its declaration.
pub(crate) fn item_type(scope: Scope, item: Item) -> Option<Ty>
    ensures { result ≡ scope_type (scope_of scope.entry) item }
{
    match item {
        Item::Name(n) => name_type(scope.names, n),
        Item::Variable(0) => match scope.owner {
            Owner::Nobody => None,
            Owner::Generic => Some(plain(PRINCIPAL)),
            Owner::Anchored(n) => name_type(scope.names, n),
        },
        // By index, and no `nth` of a chain: that walks through the variables before.
        Item::Variable(v) => {
            let place = v as usize - 1;
            match scope.universal.get(place) {
                Some(of) => Some(*of),
                None => scope.made.get(place - scope.universal.len()).copied(),
            }
        }
    }
}

/// Whether there is a type, and it is of the family.
pub(crate) fn has_family(of: Option<Ty>, family: u8) -> bool
    ensures { result ≡ has_family of family }
{
    of.is_some_and(|of| of.family == family)
}

pub(crate) fn is_formed<L: Layout>(layout: &L, scope: Scope, of: Ty) -> bool
    ensures { result ≡ type_formed (L.meaning layout.now) (scope_of scope.entry) of }
{
    is_formed_by(
        layout,
        of,
        |p, family| has_family(item_type(scope, p), family),
    )
}

/// Whether a name may be declared after those before it.
fn check_name<L: Layout>(layout: &L, before: &[Declared], declared: Declared) -> Result<(), Ill>
    ensures { result ≡ name_check (L.meaning layout.now) before.now declared }
{
    let is_free = declared.name != 0 && name_type(before, declared.name).is_none();
    demand(is_free, Ill::Taken)?;
    let scope = Scope {
        names: before,
        owner: Owner::Nobody,
        universal: &[],
        made: &[],
    };
    demand(is_formed(layout, scope, declared.of), Ill::Unformed)
}

/// The signature; a fault's spot is the place of the name.
pub(crate) fn check_names<L: Layout>(layout: &L, names: &[Declared]) -> Result<(), TypeFault>
    ensures answer { result ≡ names_check (L.meaning layout.now) names.now }
    ensures judged { Passes result (Formed (L.meaning layout.now) (context_of (names_only names.now))) }
{
    // A `for` with the index as spot, and no `check_each`: the form that was asked for here.
    for (i, declared) in names.iter().enumerate() {
        if let Err(why) = check_name(layout, &names[0..i], *declared) {
            return Err(TypeFault {
                role: 0,
                rule: 0,
                spot: i + 1,
                why,
            });
        }
    }
    Ok(())
}
