//! What a rule's owner reads out of its left facts: which items the owner then holds, and which
//! seals and locks stay closed.
#![tactic(auto)]

mod grants;
pub mod left;
mod lows;
mod marks;
mod openers;
mod reader;
pub mod scope;
