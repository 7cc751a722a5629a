//! The first COUNT lines of standard input as texts: insertions into the map for large collections,
//! against whose hasher they may be crafted; puts of all threads into an interner that they share.
ghost use Rattle.std.specs.Prelude.{◌≡◌, ◌<◌};

use bumpalo::Bump;
use elsa::interner::{ShardedInterner, SharedInterner};
use elsa::sync::LockFreeFrozenMap;
use elsa::{FrozenAppendMap, Own, SeededState};
use std::alloc::{AllocError, Global};
use std::hash::{BuildHasher, BuildHasherDefault, FoldHasher};
use std::io::{self, BufRead, BufReader, Input};
use std::random::RandomSource;
use std::rt::Clock;
use std::sync::Wait;
use std::thread;
use std::thread::Threads;
use std::time::Instant;

/// The hasher of the map.
#[derive(Clone, Copy)]
pub enum Hashed {
    /// The default hasher, whose seed is fixed.
    Default,
    /// `SeededState`, whose seed is secret.
    Seeded,
}

/// Reads the first `count` lines, without the `put ` that each begins with.
fn read_texts<R: Input>(rt: &R, alloc: Global, count: usize) -> io::Result<Vec<String>> {
    let mut texts = Vec::new(alloc);
    for line in BufReader::new(alloc, rt.reader())?.lines(alloc) {
        let line = line?;
        if texts.len() >= count {
            break;
        }
        let text = line.as_str();
        texts.push(String::from_str(alloc, text.strip_prefix("put ").unwrap_or(text))?)?;
    }
    Ok(texts)
}

/// Inserts each text with its index as its value, and returns the sum of the values that the map
/// then has for the texts. A new text is copied into the arena.
fn insertions<'a, S: BuildHasher + Drop>(
    map: &mut FrozenAppendMap<'a, &'a str, Own<u64>, S>,
    texts: &[String],
) -> Result<u64, AllocError> {
    let mut sum = 0u64;
    let mut index = 0u64;
    for text in texts {
        sum = sum.wrapping_add(*map.insert_text(text.as_str(), Own(index))?);
        index = index.wrapping_add(1);
    }
    Ok(sum)
}

/// Returns the nanoseconds that the insertions took, and their sum.
fn timed_insertions<R: Clock, S: BuildHasher + Drop>(
    rt: &R,
    alloc: Global,
    hash_builder: S,
    texts: &[String],
) -> io::Result<(u128, u64)> {
    let arena = Bump::new(alloc);
    let mut map = FrozenAppendMap::with_hasher(alloc, &arena, hash_builder);
    let start = Instant::now(rt)?;
    let sum = insertions(&mut map, texts)?;
    Ok((start.elapsed(rt)?.as_nanos(), sum))
}

/// Returns the nanoseconds that the insertions of the first `count` texts of standard input took,
/// and their sum.
///
/// # Errors
/// Fails if the clock, an allocation, the source of random bytes or standard input fails.
pub fn timed<R: Clock + Input + RandomSource>(
    rt: &R,
    alloc: Global,
    hashed: Hashed,
    count: usize,
) -> io::Result<(u128, u64)> {
    let texts = read_texts(rt, alloc, count)?;
    match hashed {
        Hashed::Default => {
            let fixed = BuildHasherDefault::<FoldHasher>::new();
            timed_insertions(rt, alloc, fixed, texts.as_slice())
        }
        Hashed::Seeded => timed_insertions(rt, alloc, SeededState::new(rt)?, texts.as_slice()),
    }
}

/// What all threads put texts into.
#[derive(Clone, Copy)]
pub enum Interned {
    /// `SharedInterner` of the texts where they are.
    Shared,
    /// `ShardedInterner` of the texts where they are.
    Shards,
    /// A lock-free map of copies of the texts, which is what `elsa_c` has.
    Copied,
}

/// The map of [`Interned::Copied`].
type Copies = LockFreeFrozenMap<String, (), SeededState>;

fn puts<'t, R: Wait>(
    rt: &R,
    names: &SharedInterner<&'t str, SeededState>,
    texts: &'t [String],
    first: usize,
    each: usize,
) -> u64 {
    let mut names = names.handle();
    let mut sum = 0u64;
    for index in first..first.saturating_add(each) {
        if let Some(text) = texts.get(index) {
            if let Ok(number) = names.put(rt, text.as_str()) {
                sum = sum.wrapping_add(number as u64);
            }
        }
    }
    sum
}

fn puts_in_shards<'t, R: Wait>(
    rt: &R,
    names: &ShardedInterner<&'t str, SeededState>,
    texts: &'t [String],
    first: usize,
    each: usize,
) -> u64 {
    let mut sum = 0u64;
    let Ok(mut names) = names.handle() else {
        return sum;
    };
    for index in first..first.saturating_add(each) {
        if let Some(text) = texts.get(index) {
            if let Ok(number) = names.put(rt, text.as_str()) {
                sum = sum.wrapping_add(number as u64);
            }
        }
    }
    sum
}

fn puts_of_copies<R: Wait>(
    rt: &R,
    alloc: Global,
    names: &Copies,
    texts: &[String],
    first: usize,
    each: usize,
) -> u64 {
    let mut names = names.handle();
    let mut sum = 0u64;
    for index in first..first.saturating_add(each) {
        let Some(text) = texts.get(index) else {
            return sum;
        };
        let number = match names.find(text.as_str()) {
            Some(number) => number,
            None => {
                let Ok(name) = String::from_str(alloc, text.as_str()) else {
                    return sum;
                };
                let Ok(put) = names.insert_ref(rt, name, ()) else {
                    return sum;
                };
                put.index
            }
        };
        sum = sum.wrapping_add(number as u64);
    }
    sum
}

/// Returns the sum of the numbers of all threads.
fn sum_of(sums: &[u64]) -> u64 {
    let mut all = 0u64;
    for sum in sums {
        all = all.wrapping_add(*sum);
    }
    all
}

fn timed_shared<R: Wait + Threads + Sync + Clock>(
    rt: &R,
    alloc: Global,
    seeded: SeededState,
    threads: usize,
    texts: &[String],
) -> io::Result<(u128, u64)>
    requires { 0 < threads }
{
    let each = texts.len() / threads;
    let names = SharedInterner::with_hasher(alloc, seeded)?;
    let start = Instant::now(rt)?;
    let sums = thread::map_indices(
        rt,
        alloc,
        threads,
        &|i| puts(rt, &names, texts, i.wrapping_mul(each), each),
    )?;
    Ok((start.elapsed(rt)?.as_nanos(), sum_of(sums.as_slice())))
}

fn timed_shards<R: Wait + Threads + Sync + Clock>(
    rt: &R,
    alloc: Global,
    seeded: SeededState,
    threads: usize,
    texts: &[String],
) -> io::Result<(u128, u64)>
    requires { 0 < threads }
{
    let each = texts.len() / threads;
    let names = ShardedInterner::with_shards(alloc, 64, seeded)?;
    let start = Instant::now(rt)?;
    let sums = thread::map_indices(
        rt,
        alloc,
        threads,
        &|i| puts_in_shards(rt, &names, texts, i.wrapping_mul(each), each),
    )?;
    Ok((start.elapsed(rt)?.as_nanos(), sum_of(sums.as_slice())))
}

fn timed_copies<R: Wait + Threads + Sync + Clock>(
    rt: &R,
    alloc: Global,
    seeded: SeededState,
    threads: usize,
    texts: &[String],
) -> io::Result<(u128, u64)>
    requires { 0 < threads }
{
    let each = texts.len() / threads;
    let names = Copies::with_hasher(alloc, seeded)?;
    let start = Instant::now(rt)?;
    let sums = thread::map_indices(
        rt,
        alloc,
        threads,
        &|i| puts_of_copies(rt, alloc, &names, texts, i.wrapping_mul(each), each),
    )?;
    Ok((start.elapsed(rt)?.as_nanos(), sum_of(sums.as_slice())))
}

/// Returns the nanoseconds that the puts of all threads took, each of its part of the first `count`
/// texts of standard input, and the sum of the numbers.
///
/// # Errors
/// Fails if the clock, an allocation, the source of random bytes or standard input fails, or if a
/// thread can't be started.
pub fn timed_interned<R: Wait + Threads + Sync + Clock + Input + RandomSource>(
    rt: &R,
    alloc: Global,
    interned: Interned,
    threads: usize,
    count: usize,
) -> io::Result<(u128, u64)>
    requires { 0 < threads }
{
    let texts = read_texts(rt, alloc, count)?;
    let seeded = SeededState::new(rt)?;
    match interned {
        Interned::Shared => timed_shared(rt, alloc, seeded, threads, texts.as_slice()),
        Interned::Shards => timed_shards(rt, alloc, seeded, threads, texts.as_slice()),
        Interned::Copied => timed_copies(rt, alloc, seeded, threads, texts.as_slice()),
    }
}
