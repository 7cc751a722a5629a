//! Replays of commands on the single-threaded collections, each with one contract for every list of
//! commands.
//!
//! The collections don't depend on this crate: callers and tests use [`run`]. It depends only on
//! the collections' contracts.
#![tactic(auto)]

pub mod run;
pub mod run_index;
pub mod run_map;
pub mod run_set;
pub mod run_vec;
