//! The parts of the program `elsa` that don't need its `main`: the parser of its arguments, the
//! engine that replies to lines about names, and the workers of `elsa shared`.
#![tactic(auto)]

mod ahead;
mod chunk;
pub mod command;
pub mod devices;
pub mod digits;
pub mod engine;
mod jobs;
mod pending;
mod reply;
mod request;
pub mod shared;

pub use jobs::Job;
