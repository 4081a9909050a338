ghost use Rattle.std.specs.Prelude.{◌≡◌, ◌≤◌, true, reverse, vec_capacity};
ghost use Rattle.names.specs.Rolls.{once_each};

// Apart, since its clauses cite `unread`, whose definition names the struct.
mod calls;

/// The most names of a roll.
pub(crate) const MAX_NAMES: usize = 512;

/// A list of names that is read in order. It has memory for 512 names from the start.
#[derive(Drop)]
pub struct Roll {
    // No `ArrayVec`: `new` promises to answer want of memory.
    /// The names still to be read, the next one last.
    left: Vec<u32>,
    ghost room: { 512 ≤ vec_capacity left },
    ghost once: { once_each (reverse left.items) ≡ true },
}
