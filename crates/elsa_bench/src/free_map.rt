//! The lock-free maps, one of them of shards: COUNT insertions in all, and COUNT look-ups in all,
//! alone or while another thread inserts.
ghost use Rattle.std.specs.Prelude.{◌≡◌, ◌<◌};

use crate::draws::{Draws, Numbers, Words, key, rank};
use elsa::sync::{LockFreeFrozenMap, LockFreeShardedMap, MapHandle, ShardedHandle};
use std::alloc::Global;
use std::rt::Clock;
use std::sync::Wait;
use std::sync::atomic::{AtomicBool, Ordering};
use std::thread::Threads;
use std::time::Instant;
use std::{io, thread};

/// The number of keys by Zipf's law.
const RANKS: usize = 65_535;

/// The number of keys otherwise.
const KEYS: usize = 1_000_000;

/// The number at which the insertions during look-ups end.
const BESIDE: u64 = 100_000_000;

/// The keys that are looked up.
#[derive(Clone, Copy)]
pub enum Sought {
    /// 65,535 keys by Zipf's law, all of them present.
    Zipf,
    /// Random keys, of 1,000,000 present ones.
    Present,
    /// Random keys, of 1,000,000 absent ones. 1,000,000 other keys are present.
    Absent,
}

impl Sought {
    /// Returns the number of keys in the map.
    fn keys(self) -> usize {
        match self {
            Sought::Zipf => RANKS,
            _ => KEYS,
        }
    }

    #[inline(always)]
    fn next(self, draws: &mut Draws) -> usize {
        match self {
            Sought::Zipf => rank(draws) as usize,
            Sought::Present => draws.below(KEYS),
            Sought::Absent => draws.below(KEYS).wrapping_add(KEYS),
        }
    }
}

/// A handle of a lock-free map.
trait Calls {
    /// Inserts a key unless the map has it, and returns the value that it has. `None` if the call
    /// fails.
    fn put<R: Wait>(&mut self, rt: &R, key: u64, value: u64) -> Option<u64>;

    /// Returns the value of a key.
    fn find(&mut self, key: u64) -> Option<u64>;

    /// Observes all entries.
    fn observe(&mut self);
}

impl Calls for MapHandle<'_, u64, u64> {
    #[inline(always)]
    fn put<R: Wait>(&mut self, rt: &R, key: u64, value: u64) -> Option<u64> {
        let put = self.insert(rt, key, value).ok()?;
        Some(put.value)
    }

    #[inline(always)]
    fn find(&mut self, key: u64) -> Option<u64> {
        self.get(key)
    }

    fn observe(&mut self) {
        self.len();
    }
}

impl Calls for ShardedHandle<'_, u64, u64> {
    #[inline(always)]
    fn put<R: Wait>(&mut self, rt: &R, key: u64, value: u64) -> Option<u64> {
        let put = self.insert_ref(rt, key, value).ok()?;
        Some(*put.value)
    }

    #[inline(always)]
    fn find(&mut self, key: u64) -> Option<u64> {
        self.get_ref(&key).copied()
    }

    fn observe(&mut self) {
        self.len();
    }
}

/// A lock-free map.
pub trait Free {
    /// Inserts the keys of one thread by a handle, and returns the sum of the values that the map
    /// has for them.
    fn insert<R: Wait>(&self, rt: &R, words: Words, thread: usize, each: usize) -> u64;

    /// Inserts new keys until the look-ups have ended. None of these keys is looked up.
    fn insert_beside<R: Wait>(&self, rt: &R, done: &AtomicBool);

    /// Looks up the keys of one thread by a handle, and returns the sum of the values, with 1 for
    /// each absent key.
    fn look_up(&self, sought: Sought, thread: usize, each: usize) -> u64;

    /// Inserts `count` distinct keys, and returns the nanoseconds of the longest insertion, and the
    /// sum of the values.
    ///
    /// # Errors
    /// Fails if the clock or an allocation fails.
    fn longest<R: Wait + Clock>(&self, rt: &R, count: usize) -> io::Result<(u128, u64)>;
}

impl Free for LockFreeFrozenMap<u64, u64> {
    fn insert<R: Wait>(&self, rt: &R, words: Words, thread: usize, each: usize) -> u64 {
        insert_by(rt, self.handle(), words, thread, each)
    }

    fn insert_beside<R: Wait>(&self, rt: &R, done: &AtomicBool) {
        insert_until(rt, self.handle(), done);
    }

    fn look_up(&self, sought: Sought, thread: usize, each: usize) -> u64 {
        look_up_by(self.handle(), sought, thread, each)
    }

    fn longest<R: Wait + Clock>(&self, rt: &R, count: usize) -> io::Result<(u128, u64)> {
        longest_by(rt, self.handle(), count)
    }
}

impl Free for LockFreeShardedMap<u64, u64> {
    fn insert<R: Wait>(&self, rt: &R, words: Words, thread: usize, each: usize) -> u64 {
        match self.handle() {
            Ok(handle) => insert_by(rt, handle, words, thread, each),
            Err(_) => 0,
        }
    }

    fn insert_beside<R: Wait>(&self, rt: &R, done: &AtomicBool) {
        if let Ok(handle) = self.handle() {
            insert_until(rt, handle, done);
        }
    }

    fn look_up(&self, sought: Sought, thread: usize, each: usize) -> u64 {
        match self.handle() {
            Ok(handle) => look_up_by(handle, sought, thread, each),
            Err(_) => 0,
        }
    }

    fn longest<R: Wait + Clock>(&self, rt: &R, count: usize) -> io::Result<(u128, u64)> {
        let handle = self.handle()?;
        longest_by(rt, handle, count)
    }
}

fn insert_by<R: Wait, H: Calls + Drop>(
    rt: &R,
    handle: H,
    words: Words,
    thread: usize,
    each: usize,
) -> u64 {
    let mut handle = handle;
    let mut numbers = Numbers::new(words, thread, each);
    let mut sum = 0u64;
    for _call in 0..each {
        let number = numbers.next();
        let stands = handle.put(rt, key(number as usize), number);
        sum = sum.wrapping_add(stands.unwrap_or(0));
    }
    sum
}

fn insert_until<R: Wait, H: Calls + Drop>(rt: &R, handle: H, done: &AtomicBool) {
    let mut handle = handle;
    for number in 2 * KEYS as u64..BESIDE {
        if done.load(Ordering::SeqCst) || handle.put(rt, key(number as usize), number).is_none() {
            return;
        }
    }
}

fn look_up_by<H: Calls + Drop>(handle: H, sought: Sought, thread: usize, each: usize) -> u64 {
    let mut handle = handle;
    handle.observe();
    let mut draws = Draws::new(thread);
    let mut sum = 0u64;
    for _call in 0..each {
        let found = handle.find(key(sought.next(&mut draws)));
        sum = sum.wrapping_add(found.unwrap_or(1));
    }
    sum
}

fn longest_by<R: Wait + Clock, H: Calls + Drop>(
    rt: &R,
    handle: H,
    count: usize,
) -> io::Result<(u128, u64)> {
    let mut handle = handle;
    let mut most = 0u128;
    let mut sum = 0u64;
    for number in 0..count {
        let start = Instant::now(rt)?;
        let stands = handle.put(rt, key(number), number as u64);
        most = most.max(start.elapsed(rt)?.as_nanos());
        sum = sum.wrapping_add(stands.unwrap_or(0));
    }
    Ok((most, sum))
}

/// Returns the nanoseconds that the insertions of all threads into an empty map took, and their
/// sum.
///
/// # Errors
/// Fails if the clock or an allocation fails, or if a thread can't be started.
pub fn timed_insertions<R: Wait + Threads + Sync + Clock, M: Free + Sync>(
    rt: &R,
    alloc: Global,
    map: &M,
    words: Words,
    threads: usize,
    count: usize,
) -> io::Result<(u128, u64)>
    requires { 0 < threads }
{
    let each = count / threads;
    let start = Instant::now(rt)?;
    let sums = thread::map_indices(rt, alloc, threads, &|i| map.insert(rt, words, i, each))?;
    let nanos = start.elapsed(rt)?.as_nanos();
    Ok((
        nanos,
        sums.iter().fold(0u64, |sum, one| sum.wrapping_add(*one)),
    ))
}

fn timed<R: Wait + Threads + Sync + Clock, M: Free + Sync>(
    rt: &R,
    alloc: Global,
    sought: Sought,
    map: &M,
    threads: usize,
    each: usize,
) -> io::Result<(u128, u64)> {
    let start = Instant::now(rt)?;
    let sums = thread::map_indices(rt, alloc, threads, &|i| map.look_up(sought, i, each))?;
    let nanos = start.elapsed(rt)?.as_nanos();
    Ok((
        nanos,
        sums.iter().fold(0u64, |sum, one| sum.wrapping_add(*one)),
    ))
}

/// Returns the nanoseconds that the look-ups of all threads took, and their sum. The map is empty
/// before, and the keys are inserted first. If `beside` is true, another thread inserts meanwhile.
///
/// # Errors
/// Fails if the clock or an allocation fails, or if a thread can't be started.
pub fn timed_look_ups<R: Wait + Threads + Sync + Clock, M: Free + Sync>(
    rt: &R,
    alloc: Global,
    map: &M,
    sought: Sought,
    beside: bool,
    threads: usize,
    count: usize,
) -> io::Result<(u128, u64)>
    requires { 0 < threads }
{
    let each = count / threads;
    map.insert(rt, Words::Distinct, 0, sought.keys());
    if !beside {
        return timed(rt, alloc, sought, map, threads, each);
    }
    let done = AtomicBool::new(false);
    let (_inserted, answer) = thread::join(
        rt,
        || map.insert_beside(rt, &done),
        || -> io::Result<(u128, u64)> {
            let answer = timed(rt, alloc, sought, map, threads, each);
            done.store(true, Ordering::SeqCst);
            answer
        },
    );
    answer
}
