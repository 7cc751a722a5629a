//! The collections that grow through `&self`: COUNT insertions of new keys or pushes, COUNT reads
//! of random present keys or at random indices, and ten walks over COUNT items.
use crate::draws::{Draws, key};
use elsa::cell::{Fault, FrozenMap, FrozenVec};
use std::alloc::Global;
use std::io;
use std::rt::Clock;
use std::time::Instant;

/// The number of walks, so that they take long enough to be timed.
const TIMES: usize = 10;

/// What is timed.
#[derive(Clone, Copy)]
pub enum CellCall {
    Push,
    At,
    Walk,
    Insert,
    Get,
}

fn pushes(items: &FrozenVec<u64>, count: u64) -> Result<u64, Fault> {
    for item in 0..count {
        let _index = items.push(item)?;
    }
    Ok(items.last().copied().unwrap_or(0))
}

fn reads(items: &FrozenVec<u64>, count: usize) -> u64 {
    let mut draws = Draws::new(0);
    let mut sum = 0u64;
    for _turn in 0..count {
        if let Some(item) = items.get(draws.below(count)) {
            sum = sum.wrapping_add(*item);
        }
    }
    sum
}

fn walks(items: &FrozenVec<u64>) -> u64 {
    let seen = items.observed();
    let mut sum = 0u64;
    for _turn in 0..TIMES {
        for item in seen.iter() {
            sum = sum.wrapping_add(*item);
        }
    }
    sum
}

fn insertions(map: &FrozenMap<u64, u64>, count: usize) -> Result<u64, Fault> {
    let mut sum = 0u64;
    for index in 0..count {
        let value = map.insert(key(index), index as u64)?;
        sum = sum.wrapping_add(*value);
    }
    Ok(sum)
}

fn look_ups(map: &FrozenMap<u64, u64>, count: usize) -> u64 {
    let mut draws = Draws::new(0);
    let mut sum = 0u64;
    for _turn in 0..count {
        if let Some(value) = map.get(&key(draws.below(count))) {
            sum = sum.wrapping_add(*value);
        }
    }
    sum
}

/// Returns the nanoseconds that the calls on a vector took, and their sum.
///
/// # Errors
/// Fails if the clock or an allocation fails.
fn timed_vector<R: Clock>(
    rt: &R,
    alloc: Global,
    call: CellCall,
    count: usize,
) -> io::Result<(u128, u64)> {
    let items = FrozenVec::new(alloc)?;
    let mut start = Instant::now(rt)?;
    let mut sum = pushes(&items, count as u64)?;
    if !matches!(&call, CellCall::Push) {
        start = Instant::now(rt)?;
        sum = match call {
            CellCall::Walk => walks(&items),
            _ => reads(&items, count),
        };
    }
    Ok((start.elapsed(rt)?.as_nanos(), sum))
}

/// Returns the nanoseconds that the calls on a map took, and their sum.
///
/// # Errors
/// Fails if the clock or an allocation fails.
fn timed_map<R: Clock>(
    rt: &R,
    alloc: Global,
    call: CellCall,
    count: usize,
) -> io::Result<(u128, u64)> {
    let map = FrozenMap::new(alloc)?;
    let mut start = Instant::now(rt)?;
    let mut sum = insertions(&map, count)?;
    if matches!(&call, CellCall::Get) {
        start = Instant::now(rt)?;
        sum = look_ups(&map, count);
    }
    Ok((start.elapsed(rt)?.as_nanos(), sum))
}

/// Returns the nanoseconds that the calls took, and their sum.
///
/// # Errors
/// Fails if the clock or an allocation fails.
pub fn timed<R: Clock>(
    rt: &R,
    alloc: Global,
    call: CellCall,
    count: usize,
) -> io::Result<(u128, u64)> {
    match &call {
        CellCall::Insert | CellCall::Get => timed_map(rt, alloc, call, count),
        _ => timed_vector(rt, alloc, call, count),
    }
}
