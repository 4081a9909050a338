ghost use Rattle.std.specs.Prelude.{◌≡◌};
ghost use Rattle.theory.specs.Owners.{owner_of, owner_item, item_of};

use terms::row::Item;

/// Who variable 0 is: nobody, some principal, or a declared name.
#[derive(Clone, Copy)]
pub enum Owner {
    Nobody,
    Generic,
    Anchored(u32),
}

/// Who variable 0 is in a role with this anchor.
impl From<Option<u32>> for Owner {
    ghost from_gives = { λ anchor owner. owner ≡ owner_of anchor };

    fn from(anchor: Option<u32>) -> Owner {
        anchor.map_or(Owner::Generic, Owner::Anchored)
    }
}

impl Owner {
    /// The item that the owner is: variable 0, or the name of an anchor.
    pub fn item(self) -> Item
        ensures { result ≡ owner_item self }
    {
        self.read(Item::Variable(0))
    }

    /// The item as a role reads it.
    pub fn read(self, item: Item) -> Item
        ensures { result ≡ item_of self item }
    {
        match (self, item) {
            (Owner::Anchored(a), Item::Variable(0)) => Item::Name(a),
            _ => item,
        }
    }
}
