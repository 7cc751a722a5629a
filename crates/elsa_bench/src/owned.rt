//! `LockFreeFrozenVec` and `LockFreeFrozenMap` of values that own memory: COUNT reads in all, by
//! reference, each of a number that the value owns.
ghost use Rattle.std.specs.Prelude.{◌≡◌, ◌<◌};

use crate::draws::{Draws, Indices, Random, STOCK, key, rank};
use elsa::sync::{LockFreeFrozenMap, LockFreeFrozenVec};
use std::alloc::{AllocError, Global};
use std::rt::Clock;
use std::sync::{Arc, Wait};
use std::thread::Threads;
use std::time::Instant;
use std::{io, thread};

/// The number of keys.
const RANKS: usize = 65_535;

/// A value that owns memory.
pub trait Owned: Sized + Drop {
    /// Makes the value of a number.
    fn new(alloc: Global, number: u64) -> Result<Self, AllocError>;

    /// Reads the memory that the value owns.
    fn number(&self) -> u64;
}

impl Owned for Arc<u64, Global> {
    fn new(alloc: Global, number: u64) -> Result<Arc<u64, Global>, AllocError> {
        Ok(Arc::new(alloc, number)?)
    }

    fn number(&self) -> u64 {
        **self
    }
}

impl Owned for String<Global> {
    fn new(alloc: Global, number: u64) -> Result<String<Global>, AllocError> {
        format!(in alloc; "{number}")
    }

    fn number(&self) -> u64 {
        let last = self.as_bytes().last().copied();
        u64::from(last.unwrap_or(0)).wrapping_add(self.len() as u64)
    }
}

fn fill_vector<R: Wait, T: Owned>(
    rt: &R,
    alloc: Global,
    vector: &LockFreeFrozenVec<T>,
) -> Result<(), AllocError> {
    let mut handle = vector.handle();
    for number in 0..STOCK {
        handle.push(rt, T::new(alloc, number)?)?;
    }
    Ok(())
}

fn read_vector<T: Owned>(vector: &LockFreeFrozenVec<T>, thread: usize, each: usize) -> u64 {
    let mut handle = vector.handle();
    handle.len();
    let mut indices = Random::new(thread);
    let mut sum = 0u64;
    for _turn in 0..each {
        if let Some(item) = handle.get_ref(indices.next()) {
            sum = sum.wrapping_add(item.number());
        }
    }
    sum
}

/// Returns the nanoseconds that the reads of all threads took, at random indices, and their sum.
///
/// # Errors
/// Fails if the clock or an allocation fails, or if a thread can't be started.
pub fn timed_vector<T: Owned + Send + Sync, R: Wait + Threads + Sync + Clock>(
    rt: &R,
    alloc: Global,
    threads: usize,
    count: usize,
) -> io::Result<(u128, u64)>
    requires { 0 < threads }
{
    let vector = LockFreeFrozenVec::<T>::new(alloc)?;
    let shared = &vector;
    let each = count / threads;
    fill_vector(rt, alloc, shared)?;
    let start = Instant::now(rt)?;
    let sums = thread::map_indices(rt, alloc, threads, &|i| read_vector(shared, i, each))?;
    let nanos = start.elapsed(rt)?.as_nanos();
    Ok((
        nanos,
        sums.iter().fold(0u64, |sum, one| sum.wrapping_add(*one)),
    ))
}

fn fill_map<R: Wait, T: Owned>(
    rt: &R,
    alloc: Global,
    map: &LockFreeFrozenMap<u64, T>,
) -> Result<(), AllocError> {
    let mut handle = map.handle();
    for number in 0..RANKS {
        handle.insert_ref(rt, key(number), T::new(alloc, number as u64)?)?;
    }
    Ok(())
}

fn read_map<T: Owned>(map: &LockFreeFrozenMap<u64, T>, thread: usize, each: usize) -> u64 {
    let mut handle = map.handle();
    handle.len();
    let mut draws = Draws::new(thread);
    let mut sum = 0u64;
    for _turn in 0..each {
        let key = key(rank(&mut draws) as usize);
        if let Some(value) = handle.get_ref(&key) {
            sum = sum.wrapping_add(value.number());
        }
    }
    sum
}

/// Returns the nanoseconds that the look-ups of all threads took, by Zipf's law, and their sum.
///
/// # Errors
/// Fails if the clock or an allocation fails, or if a thread can't be started.
pub fn timed_map<T: Owned + Send + Sync, R: Wait + Threads + Sync + Clock>(
    rt: &R,
    alloc: Global,
    threads: usize,
    count: usize,
) -> io::Result<(u128, u64)>
    requires { 0 < threads }
{
    let map = LockFreeFrozenMap::<u64, T>::new(alloc)?;
    let shared = &map;
    let each = count / threads;
    fill_map(rt, alloc, shared)?;
    let start = Instant::now(rt)?;
    let sums = thread::map_indices(rt, alloc, threads, &|i| read_map(shared, i, each))?;
    let nanos = start.elapsed(rt)?.as_nanos();
    Ok((
        nanos,
        sums.iter().fold(0u64, |sum, one| sum.wrapping_add(*one)),
    ))
}
