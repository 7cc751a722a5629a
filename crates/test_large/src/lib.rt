//! Cases that are larger than in the other test crates, by `elsa` alone: runs of a thousand calls,
//! a hundred thousand names, and devices that are interrupted a thousand times. Others check calls
//! that must not allocate though there is room, the number of bytes, requests, hashes and
//! comparisons of a call, a cache of parsed texts over a budget, names that are in the arena
//! already, and readers of an interner on four threads.
#![tactic(auto)]

#[cfg(test)]
mod counted_keys;
#[cfg(test)]
mod interrupted;
#[cfg(test)]
mod large;
#[cfg(test)]
mod parsed;
#[cfg(test)]
mod reserved;
#[cfg(test)]
mod roomy;
#[cfg(test)]
mod shared_reader;
#[cfg(test)]
mod spent;
