use crate::scope::Entry;
use theory::owner::Owner;

/// Who reads: the owner of a role, under a layout and over a scope.
#[derive(Drop)]
pub(crate) struct Reader<'a, L> {
    pub layout: &'a L,
    pub scope: &'a [Entry],
    pub owner: Owner,
}
