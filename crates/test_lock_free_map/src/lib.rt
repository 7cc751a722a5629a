//! Tests of the lock-free map, used as by any other crate.
#![tactic(auto)]

#[cfg(test)]
mod counted_tests;
#[cfg(test)]
mod made_tests;
#[cfg(test)]
mod once_tests;
#[cfg(test)]
mod owned_tests;
#[cfg(test)]
mod seen_tests;
#[cfg(test)]
mod thread_tests;
#[cfg(test)]
mod try_tests;
