//! Threads that fill one hash index and look it up.
#![tactic(auto)]

#[cfg(test)]
mod load_tests;
#[cfg(test)]
mod long_row_tests;
#[cfg(test)]
mod row_tests;
