ghost use Rattle.std.specs.Prelude.{◌≡◌};
ghost use Rattle.layouts.specs.declared.layout.Params.TheVariants.{Zero};
ghost use Rattle.types.specs.Forms.{FormedBy, Mapped, read_type};
ghost use Rattle.types.specs.Messages.{is_msg, same_type, is_type};

use layouts::layout::{Layout, MSG, Params};
use theory::data::Ty;
use theory::owner::Owner;

/// The type of a family that takes no parameters.
pub fn plain<P>(family: u8) -> Ty<P>
    ensures { result ≡ record { family = family; params = Zero } }
{
    Ty {
        family,
        params: Params::Zero,
    }
}

pub(crate) fn is_msg(of: Ty) -> bool
    ensures { result ≡ is_msg of }
{
    of == plain(MSG)
}

/// The type with its parameters made others, one by one.
pub(crate) fn map_params<P: Copy, Q, F: Fn(P) -> Q>(of: Ty<P>, change: F) -> Ty<Q>
    requires { F.IsAlwaysCallable change }
    ensures { Mapped (F.post change) of result }
{
    let params = match of.params {
        Params::Zero => Params::Zero,
        Params::One(p) => Params::One(change(p)),
        Params::Two(p, q) => Params::Two(change(p), change(q)),
    };
    Ty {
        family: of.family,
        params,
    }
}

/// The type as a role reads it.
pub fn read_type(owner: Owner, of: Ty) -> Ty
    ensures { result ≡ read_type owner of }
{
    map_params(of, |item| owner.read(item))
}

/// Whether a role reads the two types as one.
fn is_same_type(owner: Owner, a: Ty, b: Ty) -> bool
    ensures { result ≡ same_type owner a b }
{
    read_type(owner, a) == read_type(owner, b)
}

/// Whether there is a type, and a role reads it as the other.
pub(crate) fn is_type(owner: Owner, of: Option<Ty>, other: Ty) -> bool
    ensures { result ≡ is_type owner of other }
{
    of.is_some_and(|of| is_same_type(owner, of, other))
}

/// Whether the layout has the family, and it takes these parameters, each of which `suits` its own.
pub(crate) fn is_formed_by<L: Layout, P: Copy, F: Fn(P, u8) -> bool>(
    layout: &L,
    of: Ty<P>,
    suits: F,
) -> bool
    requires { F.IsAlwaysCallable suits }
    ensures { FormedBy (F.post suits) (L.meaning layout.now) of result }
{
    of.family < layout.families()
        && match (of.params, layout.parameters(of.family)) {
            (Params::Zero, Params::Zero) => true,
            (Params::One(p), Params::One(f)) => suits(p, f),
            (Params::Two(p, q), Params::Two(f, g)) => suits(p, f) && suits(q, g),
            _ => false,
        }
}
