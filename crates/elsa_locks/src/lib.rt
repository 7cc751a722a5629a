//! Append-only collections that threads share through a lock.
//!
//! Each collection has a *state*, whose contracts define the effect of each call, and a *locked
//! type* over it. A call of a locked type takes the lock, makes the call of the state, and releases
//! the lock before it returns. Values are stored as `Arc<V>`, because no reference outlives a lock
//! guard: a call returns an `Arc` that shares the stored value, or a copy of the value.
//!
//! - [`map`]: hashed and ordered maps in which the first value of a key stays.
//! - [`vec`]: a vector that only grows.
//!
//! A call that may block takes the permission to block, `rt`. A call that may allocate returns a
//! `Result`; if it fails, the content is unchanged.
#![tactic(auto)]

pub mod map;
pub mod vec;
