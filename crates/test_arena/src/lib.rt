//! Tests of `FrozenVec` and of its name as an arena, used as by any other crate: each value is
//! dropped once, at its arena's end, no block is left, and a walk visits the right values.
#![tactic(auto)]

#[cfg(test)]
mod arena_tests;
#[cfg(test)]
mod search_tests;
#[cfg(test)]
mod vec_tests;
