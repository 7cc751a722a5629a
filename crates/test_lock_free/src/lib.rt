//! Tests of `elsa_machine`, `elsa_slots` and `elsa_lock_free`, used as by any other crate:
//! examples, allocation failures, and threads that run to their end.
#![tactic(auto)]

#[cfg(test)]
mod extend_tests;
#[cfg(test)]
mod geometry_tests;
#[cfg(test)]
mod into_vec_tests;
#[cfg(test)]
mod lock_free_tests;
#[cfg(test)]
mod machine_tests;
#[cfg(test)]
mod news_tests;
#[cfg(test)]
mod owner_tests;
#[cfg(test)]
mod pass_tests;
#[cfg(test)]
mod push_with_tests;
#[cfg(test)]
mod schedule_rows;
#[cfg(test)]
mod slots_tests;
#[cfg(test)]
mod try_tests;
