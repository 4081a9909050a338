ghost use Rattle.std.specs.Prelude.{◌≡◌};
ghost use Rattle.layouts.specs.Meanings.{Meaning, listed};
ghost use Rattle.layouts.specs.Laws.{Lawful};

/// The family of msg, the type of what can be sent.
pub const MSG: u8 = 0;

/// The family of principals, the stations.
pub const PRINCIPAL: u8 = 1;

/// The parameters of a type, each told by a `P`: of a family by families, of a type by items.
#[derive(Clone, Copy, PartialEq, Eq, Default)]
pub enum Params<P> {
    #[default]
    Zero,
    One(P),
    Two(P, P),
}

/// What the items of a family do as keys.
#[derive(Clone, Copy, PartialEq, Eq)]
pub enum Kind {
    /// Nothing.
    Plain,
    /// They seal: they are shared keys.
    Sealing,
    /// They lock: they are public keys, and those of the family opening it are the private ones.
    Locking(u8),
}

/// A layout of types.
///
/// Types are grouped in families, which are numbered from 0. Every answer is read off the layout's
/// meaning, and none changes it. Of a family that the layout lacks each question has an answer too:
/// it has no parameters, is not sendable, plain, not to be made, and granted to nobody.
// Families are numbers, and no enum: a layout may have families of its own.
pub trait Layout {
    ghost meaning: { Self → Meaning };

    /// How many families there are.
    fn families(&self) -> u8
        ensures { result ≡ (meaning self.now).families };

    /// The families of the parameters of a type of the family.
    fn parameters(&self, family: u8) -> Params<u8>
        ensures { listed result ≡ (meaning self.now).params family };

    /// Whether the items of the family may be sent, being messages too.
    fn is_sendable(&self, family: u8) -> bool
        ensures { result ≡ (meaning self.now).sendable family };

    /// What the items of the family do as keys.
    fn kind(&self, family: u8) -> Kind
        ensures { result ≡ (meaning self.now).kind family };

    /// Whether a rule may make names of the family.
    fn may_be_made(&self, family: u8) -> bool
        ensures { result ≡ (meaning self.now).makeable family };

    /// Whether the owner is granted the items of the family with these parameters; the last code is
    /// that of the first parameter of the first parameter's type.
    fn grants(&self, owner: u64, family: u8, first: u64, second: u64, of_first: u64) -> bool
        ensures { result ≡ (meaning self.now).grants owner family first second of_first };

    ghost lawful: { (l : Self) → Lawful (meaning l) };
}
