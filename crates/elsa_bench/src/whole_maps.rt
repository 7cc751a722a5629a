//! Ten clones of a map of COUNT entries, and ten collections of COUNT pairs.
use crate::draws::key;
use bumpalo::Bump;
use elsa::append_map::AppendMap;
use elsa::{FrozenAppendMap, FrozenMap, Own};
use std::alloc::{AllocError, Global};
use std::hash::{BuildHasherDefault, FoldHasher};
use std::io;
use std::rt::Clock;
use std::time::Instant;

/// The number of clones or collections.
const TIMES: usize = 10;

/// A map that is collected and cloned as a whole.
#[derive(Clone, Copy)]
pub enum WholeMap {
    /// `FrozenMap`.
    Hashed,
    /// `FrozenAppendMap`.
    Append,
}

fn collect<'a>(
    alloc: Global,
    arena: &'a Bump,
    count: usize,
) -> Result<FrozenMap<'a, u64, Own<u64>>, AllocError> {
    let pairs = (0..count).map(|index| (key(index), Own(index as u64)));
    FrozenMap::from_iter(alloc, arena, BuildHasherDefault::<FoldHasher>::new(), pairs)
}

/// Collects pairs into a map for large collections, which has no `from_iter`: it reserves capacity
/// and inserts each pair.
fn collect_append<'a>(
    alloc: Global,
    arena: &'a Bump,
    count: usize,
) -> Result<FrozenAppendMap<'a, u64, Own<u64>>, AllocError> {
    let mut table = AppendMap::new(alloc);
    let Ok(()) = table.reserve(count) else {
        return Err(AllocError);
    };
    let mut map = FrozenAppendMap::over(alloc, arena, table);
    for index in 0..count {
        map.insert(key(index), Own(index as u64))?;
    }
    Ok(map)
}

fn collected(alloc: Global, of: WholeMap, count: usize) -> Result<u64, AllocError> {
    let arena = Bump::new(alloc);
    let length = match of {
        WholeMap::Hashed => collect(alloc, &arena, count)?.len(),
        WholeMap::Append => collect_append(alloc, &arena, count)?.len(),
    };
    Ok(length as u64)
}

fn clones(map: &FrozenMap<'_, u64, Own<u64>>) -> Result<u64, AllocError> {
    let mut sum = 0u64;
    for _turn in 0..TIMES {
        let copy = map.clone()?;
        sum = sum.wrapping_add(copy.len() as u64);
    }
    Ok(sum)
}

fn append_clones(map: &AppendMap<u64, &u64>) -> Result<u64, AllocError> {
    let mut sum = 0u64;
    for _turn in 0..TIMES {
        let copy = map.clone()?;
        sum = sum.wrapping_add(copy.entries().len() as u64);
    }
    Ok(sum)
}

/// Returns the nanoseconds that the collections took, and their sum.
///
/// # Errors
/// Fails if the clock or an allocation fails.
pub fn timed_collections<R: Clock>(
    rt: &R,
    alloc: Global,
    of: WholeMap,
    count: usize,
) -> io::Result<(u128, u64)> {
    let start = Instant::now(rt)?;
    let mut sum = 0u64;
    for _turn in 0..TIMES {
        sum = sum.wrapping_add(collected(alloc, of, count)?);
    }
    Ok((start.elapsed(rt)?.as_nanos(), sum))
}

/// Returns the nanoseconds that the clones took, and their sum.
///
/// # Errors
/// Fails if the clock or an allocation fails.
pub fn timed_clones<R: Clock>(
    rt: &R,
    alloc: Global,
    of: WholeMap,
    count: usize,
) -> io::Result<(u128, u64)> {
    let arena = Bump::new(alloc);
    if let WholeMap::Append = of {
        let map = collect_append(alloc, &arena, count)?.into_map();
        let start = Instant::now(rt)?;
        let sum = append_clones(&map)?;
        return Ok((start.elapsed(rt)?.as_nanos(), sum));
    }
    let map = collect(alloc, &arena, count)?;
    let start = Instant::now(rt)?;
    let sum = clones(&map)?;
    Ok((start.elapsed(rt)?.as_nanos(), sum))
}
