//! Tests of `elsa_vec` and `elsa_maps`, used as by any other crate: worked cases, the calls of a
//! search, unusual keys, values that own memory, and allocation failures.
#![tactic(auto)]

#[cfg(test)]
mod map_tests;
#[cfg(test)]
mod owned;
#[cfg(test)]
mod printed;
#[cfg(test)]
mod refusals;
#[cfg(test)]
mod search_tests;
#[cfg(test)]
mod set_tests;
#[cfg(test)]
mod text_keys;
#[cfg(test)]
mod vec_tests;
