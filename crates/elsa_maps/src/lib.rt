//! Single-threaded maps in which the first value of a key stays. Values are stored in an arena that
//! the caller passes in.
#![tactic(auto)]

pub mod index_map;
pub mod map;
