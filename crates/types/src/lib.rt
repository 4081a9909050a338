//! The type check of a theory, over any layout.
#![tactic(auto)]

mod facts;
pub mod faults;
pub mod forms;
mod marked;
mod names;
mod predicates;
mod rows;
mod rules;
mod scope;
pub mod theories;
