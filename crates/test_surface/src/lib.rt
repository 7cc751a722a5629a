//! What depends on `elsa` alone: its calls, written as any other crate would make them, the
//! sentences of its errors, the workers, and the command line that starts them.
#![tactic(auto)]

#[cfg(test)]
mod collection_tests;
#[cfg(test)]
mod error_tests;
#[cfg(test)]
mod history_tests;
#[cfg(test)]
mod job_tests;
#[cfg(test)]
mod shared_map_tests;
#[cfg(test)]
mod shared_name_tests;
#[cfg(test)]
mod state_tests;
#[cfg(test)]
mod upstream_tests;
#[cfg(test)]
mod vector_tests;
#[cfg(test)]
mod worker_tests;
