//! The language of scripts: the words of a line, the numbers among them, and the command that
//! they give.
#![tactic(auto)]

pub mod command;
mod facts;
pub mod numbers;
mod readable;
mod types;
pub mod words;
