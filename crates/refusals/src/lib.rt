//! How a refused call is told: six numbers and a reason in words, the same in every layer of the
//! bench; and how a list is checked until its first fault.
#![tactic(auto)]

ghost use Rattle.std.specs.Prelude.{◌++◌, Some};
ghost use Rattle.refusals.specs.Written.{written};

pub mod fault;
pub mod walk;

use std::fmt;

// Numbers, and no enum: they are the form in which every layer tells a refusal. The reasons behind
// them are enums.
/// The six numbers of a refusal. A number that does not apply is 0.
#[derive(Clone, Copy, PartialEq, Eq)]
pub struct Refusal {
    /// The condition that was met, by its number in the tables of refusals; 0 is want of memory.
    pub number: u8,
    /// The layer that refused: 1 the book of terms, 2 lists and tables, 3 types, 4 data access,
    /// 5 the session.
    pub layer: u8,
    /// The role, counted from 1.
    pub role: usize,
    /// The rule of that role, counted from 1.
    pub rule: usize,
    /// The place of what was refused, counted from 1.
    pub spot: usize,
    /// The row of the book that was refused.
    pub row: usize,
}

/// The six numbers in their order, with a blank between each two.
impl fmt::Display for Refusal {
    ghost output = { λ x. Some (written x) };

    fn fmt<W: fmt::Write>(&self, f: &mut fmt::Formatter<W>) -> fmt::Result {
        let Refusal {
            number,
            layer,
            role,
            rule,
            spot,
            row,
        } = *self;
        write!(f, "{number} {layer} {role} {rule} {spot} {row}")
    }
}
