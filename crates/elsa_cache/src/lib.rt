//! Caches of loaded files: the text of each path is loaded once, and the value that is made of it
//! is kept.
//!
//! `ParsedCache` is built on two `FrozenMap`s, in which the first value of a key stays.
//! `ResourceCache` is a `ParsedCache` whose values are the first characters of the texts.
#![tactic(auto)]

mod parsed_cache;
mod resource_cache;

pub use parsed_cache::{CacheFault, ParsedCache};
pub use resource_cache::{LoadFault, Resource, ResourceCache};
