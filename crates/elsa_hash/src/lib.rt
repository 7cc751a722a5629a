//! A hash with a secret, for tables with untrusted keys.
#![tactic(auto)]

pub mod seeded;
