//! Tests of names and of the shared interner, used as by any other crate: worked cases, threads
//! that overlap, and allocation failures.
#![tactic(auto)]

#[cfg(test)]
mod hash_tests;
#[cfg(test)]
mod interner_tests;
#[cfg(test)]
mod push_at_tests;
#[cfg(test)]
mod shard_tests;
#[cfg(test)]
mod text_tests;
#[cfg(test)]
mod thread_tests;
#[cfg(test)]
mod try_tests;
