//! Storing values in an arena that the caller passes in, and the single-threaded append-only
//! vector.
#![tactic(auto)]

mod search;
pub mod stable;
pub mod vec;
pub mod vec_laws;
