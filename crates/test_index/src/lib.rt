//! Tests of the index collections, the runs, the interner and the cache, used as by any other
//! crate: examples, unusual but lawful keys, malformed lines, and devices that fail.
#![tactic(auto)]

#[cfg(test)]
mod cache_tests;
#[cfg(test)]
mod device_tests;
#[cfg(test)]
mod engine_tests;
#[cfg(test)]
mod hasher_tests;
#[cfg(test)]
mod index_tests;
#[cfg(test)]
mod name_tests;
#[cfg(test)]
mod odd_keys;
#[cfg(test)]
mod run_tests;
