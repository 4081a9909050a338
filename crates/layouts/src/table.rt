ghost use Rattle.std.specs.Prelude.{◌≡◌};
ghost use Rattle.layouts.specs.Tables.{grants_by};

use crate::layout::{Kind, Params};

/// To whom the items of a family are granted.
#[derive(Clone, Copy)]
pub enum Grant {
    Nobody,
    Everybody,
    /// The first parameter.
    First,
    /// The first parameter, or the second.
    Either,
    /// The first parameter of the first one's type.
    OfFirst,
}

impl Grant {
    /// Whether that is the owner; the last code is that of the first parameter of the first
    /// parameter's type.
    pub fn covers(self, owner: u64, first: u64, second: u64, of_first: u64) -> bool
        ensures { result ≡ grants_by self owner first second of_first }
    {
        match self {
            Grant::Nobody => false,
            Grant::Everybody => true,
            Grant::First => owner == first,
            Grant::Either => owner == first || owner == second,
            Grant::OfFirst => owner == of_first,
        }
    }
}

/// What a layout says of a family: a line of its table.
#[derive(Clone, Copy)]
pub struct Line {
    /// The families of the parameters.
    pub params: Params<u8>,
    /// Whether the items may be sent, being messages too.
    pub sendable: bool,
    /// What the items do as keys.
    pub kind: Kind,
    /// Whether a rule may make names of the family.
    pub makeable: bool,
    pub granted: Grant,
}
