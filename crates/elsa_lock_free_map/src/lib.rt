//! A map that threads share, whose look-ups take no lock: the first insertion of a key wins, for
//! every thread. A shared interner is such a map without values.
#![tactic(auto)]

pub mod entries;
pub mod handle;
pub mod interner;
mod into_pairs;
pub mod iter;
pub mod map;
pub mod name;
mod name_bytes;
mod names;
pub mod once;
mod pairs;
pub mod place_text;
pub mod room;
mod text;
