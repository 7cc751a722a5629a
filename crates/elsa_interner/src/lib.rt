//! The interner of one thread: names with their numbers.
#![tactic(auto)]

pub mod interner;
pub mod names;
pub mod reader;
pub mod symbol;
