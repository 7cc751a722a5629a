//! Upstream's four examples and the lookups of its documentation, written anew with values that own
//! memory where upstream has them, by `elsa` alone.
#![tactic(auto)]

#[cfg(test)]
mod arena;
#[cfg(test)]
mod fluent_resource;
#[cfg(test)]
mod look_ups;
#[cfg(test)]
mod owned_interner;
#[cfg(test)]
mod string_interner;
#[cfg(test)]
mod threads;
