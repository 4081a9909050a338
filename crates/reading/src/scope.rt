use terms::row::Item;
use theory::data::Ty;

/// A declared item with its type, as the owner of a role reads them.
#[derive(Clone, Copy, Default)]
pub struct Entry {
    pub item: Item,
    pub of: Ty,
}

/// The most items that are declared where a rule is read: names, the owner, universal variables.
pub const MAX_DECLARED: usize = 144;
