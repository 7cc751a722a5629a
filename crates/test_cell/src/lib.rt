//! Tests of the collections that grow through `&self`, used as by any other crate: many keys,
//! values that own memory, calls from inside other calls, loaders, and allocation failures
//! over `test_alloc`.
#![tactic(auto)]

#[cfg(test)]
mod fault_tests;
#[cfg(test)]
mod includes;
#[cfg(test)]
mod index_tests;
#[cfg(test)]
mod inside;
#[cfg(test)]
mod ordered_tests;
#[cfg(test)]
mod plain_tests;
#[cfg(test)]
mod refusals;
