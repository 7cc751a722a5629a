//! Allocation failures in the maps, the index collections, the runs, the interner, the engine and
//! the cache. Each request for memory, and each allocation in the arena, is denied in turn. Other
//! tests make the calls that must not allocate.
#![tactic(auto)]

#[cfg(test)]
mod lines_refused;
#[cfg(test)]
mod map_refusals;
#[cfg(test)]
mod refusals;
#[cfg(test)]
mod room_refusals;
#[cfg(test)]
mod run_refusals;
