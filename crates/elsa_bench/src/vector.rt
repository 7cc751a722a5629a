//! The concurrent vector: COUNT pushes in all, one by one or in batches; COUNT reads in all, alone
//! or while another thread pushes; and walks over COUNT items.
ghost use Rattle.std.specs.Prelude.{◌≡◌, ◌<◌};

use crate::draws::{InOrder, Indices, Random, STOCK};
use elsa::sync::LockFreeFrozenVec;
use std::alloc::Global;
use std::rt::Clock;
use std::sync::Wait;
use std::sync::atomic::{AtomicBool, AtomicU64, Ordering};
use std::thread::Threads;
use std::time::Instant;
use std::{io, thread};

/// The greatest number of items that a thread pushes during reads.
const BESIDE: u64 = 100_000_000;

/// The number of items in a batch.
const BATCH: usize = 64;

/// The number of walks, so that they take long enough to be timed.
const WALKS: usize = 10;

/// How the vector is read.
#[derive(Clone, Copy)]
pub enum Reads {
    /// By a view that has observed each index that is read, at random indices.
    Seen,
    /// The same, at consecutive indices.
    SeenInOrder,
    /// By a view, at consecutive indices, and from the first again if the next one has no item yet.
    Growing,
    /// Without a view, at random indices.
    Plain,
    /// The same, at consecutive indices.
    PlainInOrder,
}

fn push<R: Wait>(rt: &R, vector: &LockFreeFrozenVec<u64>, count: u64) -> u64 {
    let mut pass = vector.pass();
    let mut sum = 0u64;
    for item in 0..count {
        if let Ok(index) = vector.push_as(rt, &mut pass, item) {
            sum = sum.wrapping_add(index as u64);
        }
    }
    sum
}

fn extend<R: Wait>(rt: &R, vector: &LockFreeFrozenVec<u64>, count: u64) -> u64 {
    let mut handle = vector.handle();
    let batch = [1u64; BATCH];
    let mut sum = 0u64;
    for _ in 0..count / BATCH as u64 {
        if let Ok(index) = handle.extend(rt, &batch) {
            sum = sum.wrapping_add(index as u64);
        }
    }
    sum
}

/// Pushes until the reads have ended.
fn push_beside<R: Wait>(rt: &R, vector: &LockFreeFrozenVec<u64>, done: &AtomicBool) {
    let mut pass = vector.pass();
    for item in 0..BESIDE {
        if done.load(Ordering::SeqCst) || vector.push_as(rt, &mut pass, item).is_err() {
            return;
        }
    }
}

fn read_seen<P: Indices>(vector: &LockFreeFrozenVec<u64>, thread: usize, count: usize) -> u64 {
    let mut pass = vector.pass();
    vector.len_as(&mut pass);
    let mut indices = P::new(thread);
    let mut sum = 0u64;
    for _turn in 0..count {
        if let Some(item) = vector.get_as(&mut pass, indices.next()) {
            sum = sum.wrapping_add(item);
        }
    }
    sum
}

fn read_growing(vector: &LockFreeFrozenVec<u64>, count: usize) -> u64 {
    let mut pass = vector.pass();
    let mut index: usize = 0;
    let mut sum = 0u64;
    for _turn in 0..count {
        match vector.get_as(&mut pass, index) {
            Some(item) => {
                sum = sum.wrapping_add(item);
                index = index.wrapping_add(1);
            }
            None => index = 0,
        }
    }
    sum
}

fn read_plain<P: Indices>(vector: &LockFreeFrozenVec<u64>, thread: usize, count: usize) -> u64 {
    let mut indices = P::new(thread);
    let mut sum = 0u64;
    for _turn in 0..count {
        if let Some(item) = vector.get(indices.next()) {
            sum = sum.wrapping_add(item);
        }
    }
    sum
}

fn read(reads: Reads, vector: &LockFreeFrozenVec<u64>, thread: usize, count: usize) -> u64 {
    match reads {
        Reads::Seen => read_seen::<Random>(vector, thread, count),
        Reads::SeenInOrder => read_seen::<InOrder>(vector, thread, count),
        Reads::Growing => read_growing(vector, count),
        Reads::Plain => read_plain::<Random>(vector, thread, count),
        Reads::PlainInOrder => read_plain::<InOrder>(vector, thread, count),
    }
}

/// Returns the nanoseconds that the pushes of all threads took, in batches or one by one, and their
/// sum.
///
/// # Errors
/// Fails if the clock or an allocation fails, or if a thread can't be started.
pub fn timed_pushes<R: Wait + Threads + Sync + Clock>(
    rt: &R,
    alloc: Global,
    batched: bool,
    threads: usize,
    count: usize,
) -> io::Result<(u128, u64)>
    requires { 0 < threads }
{
    let vector = LockFreeFrozenVec::new(alloc)?;
    let shared = &vector;
    let each = (count / threads) as u64;
    let work = |_| {
        if batched {
            extend(rt, shared, each)
        } else {
            push(rt, shared, each)
        }
    };
    let start = Instant::now(rt)?;
    let sums = thread::map_indices(rt, alloc, threads, &work)?;
    let nanos = start.elapsed(rt)?.as_nanos();
    Ok((
        nanos,
        sums.iter().fold(0u64, |sum, one| sum.wrapping_add(*one)),
    ))
}

fn timed<R: Wait + Threads + Sync + Clock>(
    rt: &R,
    alloc: Global,
    reads: Reads,
    vector: &LockFreeFrozenVec<u64>,
    threads: usize,
    each: usize,
) -> io::Result<(u128, u64)> {
    let start = Instant::now(rt)?;
    let sums = thread::map_indices(rt, alloc, threads, &|i| read(reads, vector, i, each))?;
    let nanos = start.elapsed(rt)?.as_nanos();
    Ok((
        nanos,
        sums.iter().fold(0u64, |sum, one| sum.wrapping_add(*one)),
    ))
}

/// Returns the nanoseconds that the reads of all threads took, and their sum. If `beside` is true,
/// another thread pushes meanwhile.
///
/// # Errors
/// Fails if the clock or an allocation fails, or if a thread can't be started.
pub fn timed_reads<R: Wait + Threads + Sync + Clock>(
    rt: &R,
    alloc: Global,
    reads: Reads,
    beside: bool,
    threads: usize,
    count: usize,
) -> io::Result<(u128, u64)>
    requires { 0 < threads }
{
    let vector = LockFreeFrozenVec::new(alloc)?;
    let shared = &vector;
    let each = count / threads;
    push(rt, shared, STOCK);
    if !beside {
        return timed(rt, alloc, reads, shared, threads, each);
    }
    let done = AtomicBool::new(false);
    let (_pushed, answer) = thread::join(
        rt,
        || push_beside(rt, shared, &done),
        || -> io::Result<(u128, u64)> {
            let answer = timed(rt, alloc, reads, shared, threads, each);
            done.store(true, Ordering::SeqCst);
            answer
        },
    );
    answer
}

fn walk(vector: &LockFreeFrozenVec<u64>) -> u64 {
    let mut handle = vector.handle();
    handle.len();
    let mut sum = 0u64;
    for item in handle.iter() {
        sum = sum.wrapping_add(item);
    }
    sum
}

/// Returns the nanoseconds that ten walks over a vector of `count` items took, and their sum.
///
/// # Errors
/// Fails if the clock or an allocation fails.
pub fn timed_walks<R: Wait + Clock>(
    rt: &R,
    alloc: Global,
    count: usize,
) -> io::Result<(u128, u64)> {
    let vector = LockFreeFrozenVec::new(alloc)?;
    push(rt, &vector, count as u64);
    let mut sum = 0u64;
    let start = Instant::now(rt)?;
    for _ in 0..WALKS {
        sum = sum.wrapping_add(walk(&vector));
    }
    Ok((start.elapsed(rt)?.as_nanos(), sum))
}

/// Returns the nanoseconds that `count` times two exchanges of one word took, as a push makes them,
/// by one thread, and the word at the end.
///
/// # Errors
/// Fails if the clock fails.
pub fn timed_exchanges<R: Clock>(rt: &R, count: usize) -> io::Result<(u128, u64)> {
    let word = AtomicU64::new(0);
    let start = Instant::now(rt)?;
    for turn in 0..count as u64 {
        let now = turn.wrapping_mul(2);
        let _ = word.compare_exchange(now, now.wrapping_add(1), Ordering::SeqCst, Ordering::SeqCst);
        let _ = word.compare_exchange(
            now.wrapping_add(1),
            now.wrapping_add(2),
            Ordering::SeqCst,
            Ordering::SeqCst,
        );
    }
    Ok((start.elapsed(rt)?.as_nanos(), word.load(Ordering::SeqCst)))
}
