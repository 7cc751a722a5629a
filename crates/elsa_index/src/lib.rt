//! Index sets: sets that only grow, whose values have the indices of their first insertions.
//!
//! [`index_set`] has the set, [`look_up`] the lookup of a value by its target, and [`index_laws`]
//! the laws across several calls, for index maps too. The layers above use only the contracts of
//! these modules.
#![tactic(auto)]

pub mod index_laws;
pub mod index_set;
pub mod look_up;
