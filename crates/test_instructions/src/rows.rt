//! What the rows of maps have in common.
use crate::{CALLS, Draws, key};
use std::alloc::AllocError;

/// A map whose keys are made from indices.
pub trait Map: Drop {
    /// Inserts the key of the index, and returns its value.
    fn insert(&mut self, index: usize) -> Result<u64, AllocError>;

    /// Returns the value of the key of the index, or 1.
    fn get(&mut self, index: usize) -> u64;
}

/// Inserts the keys of the first indices.
#[inline(always)]
pub fn filled<M: Map>(map: M, entries: usize) -> Result<M, AllocError> {
    let mut map = map;
    for index in 0..entries {
        let _value = map.insert(index)?;
    }
    Ok(map)
}

/// Looks up random keys of `entries` indices, the first of which is `from`.
#[inline(always)]
pub fn reads<M: Map>(map: &mut M, entries: usize, from: usize) -> u64 {
    let mut draws = Draws::new();
    let mut sum = 0u64;
    for _turn in 0..CALLS {
        sum = sum.wrapping_add(map.get(draws.below(entries).wrapping_add(from)));
    }
    sum
}

/// Inserts random keys that are there.
#[inline(always)]
pub fn again<M: Map>(map: &mut M, entries: usize) -> Result<u64, AllocError> {
    let mut draws = Draws::new();
    let mut sum = 0u64;
    for _turn in 0..CALLS {
        sum = sum.wrapping_add(map.insert(draws.below(entries))?);
    }
    Ok(sum)
}

/// The number of collections of `entries` entries that have `CALLS` entries in all.
#[inline(always)]
pub fn turns(entries: usize) -> usize {
    CALLS.checked_div(entries).unwrap_or(1)
}
