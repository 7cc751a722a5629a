//! Tests of the map for large collections through its public calls: worked cases, keys with an odd
//! `Hash`, allocation failures, reserved room, and maps of thousands of entries. `test_calls`
//! compares its calls with a plain list.
#![tactic(auto)]

#[cfg(test)]
mod entries;
#[cfg(test)]
mod large;
#[cfg(test)]
mod odd_keys;
#[cfg(test)]
mod queries;
#[cfg(test)]
mod refusals;
