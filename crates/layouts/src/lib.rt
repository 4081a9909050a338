//! Layouts of types: which families of types there are, what their items do, and to whom names are
//! granted. Two layouts come with the bench.
#![tactic(auto)]

pub mod any;
pub mod code;
pub mod layout;
pub mod table;
