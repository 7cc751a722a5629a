//! The locked maps, one of them of shards: COUNT calls in all, a tenth of them insertions.
ghost use Rattle.std.specs.Prelude.{◌<◌};

use crate::draws::Draws;
use elsa::sync::{FrozenMap, ShardedMap};
use std::alloc::Global;
use std::rt::Clock;
use std::sync::Wait;
use std::thread::Threads;
use std::time::Instant;
use std::{io, thread};

/// The number of keys.
pub const KEYS: u64 = 65536;

/// The last key. It is one below a power of two.
pub const LAST: u64 = 65535;

/// The last key of a map that fits in the L1 cache. It is one below a power of two too.
pub const LAST_OF_FEW: u64 = 255;

/// A locked map. Each call returns a value, or `None` if the key is absent or the call fails.
pub trait Locked {
    fn copy_or_insert<R: Wait>(&self, rt: &R, key: u64) -> Option<u64>;

    fn copy<R: Wait>(&self, rt: &R, key: u64) -> Option<u64>;

    fn owner_or_insert<R: Wait>(&self, rt: &R, key: u64) -> Option<u64>;

    fn owner<R: Wait>(&self, rt: &R, key: u64) -> Option<u64>;
}

impl Locked for FrozenMap<u64, u64> {
    #[inline(always)]
    fn copy_or_insert<R: Wait>(&self, rt: &R, key: u64) -> Option<u64> {
        self.get_copy_or_insert(rt, key, key).ok()
    }

    #[inline(always)]
    fn copy<R: Wait>(&self, rt: &R, key: u64) -> Option<u64> {
        self.get_copy(rt, &key)
    }

    #[inline(always)]
    fn owner_or_insert<R: Wait>(&self, rt: &R, key: u64) -> Option<u64> {
        let owner = self.insert(rt, key, key).ok()?;
        Some(*owner)
    }

    #[inline(always)]
    fn owner<R: Wait>(&self, rt: &R, key: u64) -> Option<u64> {
        let owner = self.get(rt, &key).ok()??;
        Some(*owner)
    }
}

impl Locked for ShardedMap<u64, u64> {
    #[inline(always)]
    fn copy_or_insert<R: Wait>(&self, rt: &R, key: u64) -> Option<u64> {
        self.get_copy_or_insert(rt, key, key).ok()
    }

    #[inline(always)]
    fn copy<R: Wait>(&self, rt: &R, key: u64) -> Option<u64> {
        self.get_copy(rt, &key)
    }

    #[inline(always)]
    fn owner_or_insert<R: Wait>(&self, rt: &R, key: u64) -> Option<u64> {
        let owner = self.insert(rt, key, key).ok()?;
        Some(*owner)
    }

    #[inline(always)]
    fn owner<R: Wait>(&self, rt: &R, key: u64) -> Option<u64> {
        let owner = self.get(rt, &key).ok()??;
        Some(*owner)
    }
}

fn copies<R: Wait, M: Locked>(rt: &R, map: &M, last: u64, thread: usize, calls: usize) -> u64 {
    let mut draws = Draws::new(thread);
    let mut sum = 0u64;
    for call in 0..calls {
        let key = draws.next() & last;
        let found = if call % 10 == 0 {
            map.copy_or_insert(rt, key)
        } else {
            map.copy(rt, key)
        };
        sum = sum.wrapping_add(found.unwrap_or(0));
    }
    sum
}

fn owners<R: Wait, M: Locked>(rt: &R, map: &M, thread: usize, calls: usize) -> u64 {
    let mut draws = Draws::new(thread);
    let mut sum = 0u64;
    for call in 0..calls {
        let key = draws.next() % KEYS;
        let found = if call % 10 == 0 {
            map.owner_or_insert(rt, key)
        } else {
            map.owner(rt, key)
        };
        sum = sum.wrapping_add(found.unwrap_or(0));
    }
    sum
}

/// Returns the nanoseconds that the calls which copy values took, and their sum. The map is empty
/// before, and the keys are those up to `last`.
///
/// # Errors
/// Fails if the clock or an allocation fails, or if a thread can't be started.
pub fn timed_copies<R: Wait + Threads + Sync + Clock, M: Locked + Sync>(
    rt: &R,
    alloc: Global,
    map: &M,
    last: u64,
    threads: usize,
    count: usize,
) -> io::Result<(u128, u64)>
    requires { 0 < threads }
{
    let start = Instant::now(rt)?;
    let sums = thread::map_indices(
        rt,
        alloc,
        threads,
        &|i| copies(rt, map, last, i, count / threads),
    )?;
    let nanos = start.elapsed(rt)?.as_nanos();
    Ok((
        nanos,
        sums.iter().fold(0u64, |sum, one| sum.wrapping_add(*one)),
    ))
}

/// Returns the nanoseconds that the calls which return an `Arc` took, and their sum. The map is
/// empty before.
///
/// # Errors
/// Fails if the clock or an allocation fails, or if a thread can't be started.
pub fn timed_owners<R: Wait + Threads + Sync + Clock, M: Locked + Sync>(
    rt: &R,
    alloc: Global,
    map: &M,
    threads: usize,
    count: usize,
) -> io::Result<(u128, u64)>
    requires { 0 < threads }
{
    let start = Instant::now(rt)?;
    let sums = thread::map_indices(rt, alloc, threads, &|i| owners(rt, map, i, count / threads))?;
    let nanos = start.elapsed(rt)?.as_nanos();
    Ok((
        nanos,
        sums.iter().fold(0u64, |sum, one| sum.wrapping_add(*one)),
    ))
}
