//! `FrozenVec`: COUNT pushes, COUNT reads at random indices, and ten walks, clones and collections
//! of COUNT items.
use crate::draws::Draws;
use bumpalo::Bump;
use elsa::{FrozenVec, Own};
use std::alloc::{AllocError, Global};
use std::io;
use std::rt::Clock;
use std::time::Instant;

/// The number of walks, clones or collections, so that they take long enough to be timed.
const TIMES: usize = 10;

/// What is timed.
#[derive(Clone, Copy)]
pub enum ItemCall {
    Push,
    Get,
    Walk,
    Clone,
    Collect,
}

fn fill(items: &mut FrozenVec<'_, Own<u64>>, count: u64) -> Result<u64, AllocError> {
    for item in 0..count {
        items.push(Own(item))?;
    }
    Ok(items.last().copied().unwrap_or(0))
}

fn read(items: &FrozenVec<'_, Own<u64>>, count: usize) -> u64 {
    let mut draws = Draws::new(0);
    let mut sum = 0u64;
    for _turn in 0..count {
        if let Some(item) = items.get(draws.below(count)) {
            sum = sum.wrapping_add(*item);
        }
    }
    sum
}

fn walk(items: &FrozenVec<'_, Own<u64>>) -> u64 {
    let mut sum = 0u64;
    for item in items.iter() {
        sum = sum.wrapping_add(*item);
    }
    sum
}

fn walks(items: &FrozenVec<'_, Own<u64>>) -> u64 {
    let mut sum = 0u64;
    for _turn in 0..TIMES {
        sum = sum.wrapping_add(walk(items));
    }
    sum
}

fn clones(items: &FrozenVec<'_, Own<u64>>) -> Result<u64, AllocError> {
    let mut sum = 0u64;
    for _turn in 0..TIMES {
        let copy = items.clone()?;
        sum = sum.wrapping_add(copy.len() as u64);
    }
    Ok(sum)
}

fn collect(alloc: Global, count: u64) -> Result<u64, AllocError> {
    let arena = Bump::new(alloc);
    let items = FrozenVec::from_iter(alloc, &arena, (0..count).map(|item| Own(item)))?;
    Ok(items.len() as u64)
}

fn collections(alloc: Global, count: u64) -> Result<u64, AllocError> {
    let mut sum = 0u64;
    for _turn in 0..TIMES {
        sum = sum.wrapping_add(collect(alloc, count)?);
    }
    Ok(sum)
}

/// Returns the nanoseconds that the calls took, and their sum.
///
/// # Errors
/// Fails if the clock or an allocation fails.
pub fn timed<R: Clock>(
    rt: &R,
    alloc: Global,
    call: ItemCall,
    count: usize,
) -> io::Result<(u128, u64)> {
    let arena = Bump::new(alloc);
    let mut items = FrozenVec::new(alloc, &arena);
    let mut start = Instant::now(rt)?;
    let mut sum = fill(&mut items, count as u64)?;
    if !matches!(&call, ItemCall::Push) {
        start = Instant::now(rt)?;
        sum = match call {
            ItemCall::Get => read(&items, count),
            ItemCall::Walk => walks(&items),
            ItemCall::Clone => clones(&items)?,
            _ => collections(alloc, count as u64)?,
        };
    }
    Ok((start.elapsed(rt)?.as_nanos(), sum))
}
