//! Interners: COUNT puts of names in all, into a shared interner and into that of one thread. The
//! names are the digits of numbers by Zipf's law or all distinct.
ghost use Rattle.std.specs.Prelude.{◌≡◌, ◌<◌};

use crate::draws::{Numbers, Words};
use bumpalo::Bump;
use elsa::interner::{Interner, Name, ShardedInterner, SharedInterner};
use itoa::Buffer;
use std::alloc::Global;
use std::rt::Clock;
use std::sync::Wait;
use std::thread::Threads;
use std::time::Instant;
use std::{io, thread};

/// Puts the names of one thread, and returns the sum of their numbers.
fn puts<R: Wait>(rt: &R, names: &SharedInterner, words: Words, thread: usize, each: usize) -> u64 {
    let mut names = names.handle();
    let mut numbers = Numbers::new(words, thread, each);
    let mut digits = Buffer::new();
    let mut sum = 0u64;
    for _put in 0..each {
        if let Ok(name) = Name::new(digits.format(numbers.next())) {
            if let Ok(number) = names.put(rt, name) {
                sum = sum.wrapping_add(number as u64);
            }
        }
    }
    sum
}

/// Returns the nanoseconds that the puts of all threads into a shared interner took, and their sum.
///
/// # Errors
/// Fails if the clock or an allocation fails, or if a thread can't be started.
pub fn timed_shared<R: Wait + Threads + Sync + Clock>(
    rt: &R,
    alloc: Global,
    words: Words,
    threads: usize,
    count: usize,
) -> io::Result<(u128, u64)>
    requires { 0 < threads }
{
    let names = SharedInterner::new(alloc)?;
    let shared = &names;
    let each = count / threads;
    let start = Instant::now(rt)?;
    let sums = thread::map_indices(rt, alloc, threads, &|i| puts(rt, shared, words, i, each))?;
    let nanos = start.elapsed(rt)?.as_nanos();
    Ok((
        nanos,
        sums.iter().fold(0u64, |sum, one| sum.wrapping_add(*one)),
    ))
}

/// Puts the names of one thread into an interner of shards, and returns the sum of their numbers.
fn puts_in_shards<R: Wait>(
    rt: &R,
    names: &ShardedInterner,
    words: Words,
    thread: usize,
    each: usize,
) -> u64 {
    let mut sum = 0u64;
    let Ok(mut names) = names.handle() else {
        return sum;
    };
    let mut numbers = Numbers::new(words, thread, each);
    let mut digits = Buffer::new();
    for _put in 0..each {
        if let Ok(name) = Name::new(digits.format(numbers.next())) {
            if let Ok(number) = names.put(rt, name) {
                sum = sum.wrapping_add(number as u64);
            }
        }
    }
    sum
}

/// Returns the nanoseconds that the puts of all threads into an interner of shards took, and their
/// sum.
///
/// # Errors
/// Fails if the clock or an allocation fails, or if a thread can't be started.
pub fn timed_shards<R: Wait + Threads + Sync + Clock>(
    rt: &R,
    alloc: Global,
    words: Words,
    threads: usize,
    count: usize,
) -> io::Result<(u128, u64)>
    requires { 0 < threads }
{
    let names = ShardedInterner::new(alloc)?;
    let shared = &names;
    let each = count / threads;
    let start = Instant::now(rt)?;
    let sums = thread::map_indices(
        rt,
        alloc,
        threads,
        &|i| { puts_in_shards(rt, shared, words, i, each) },
    )?;
    let nanos = start.elapsed(rt)?.as_nanos();
    Ok((
        nanos,
        sums.iter().fold(0u64, |sum, one| sum.wrapping_add(*one)),
    ))
}

/// Puts texts into a shared interner, by one thread, and returns the sum of their numbers.
fn puts_of_texts<'a, R: Wait>(
    rt: &R,
    names: &SharedInterner<&'a str>,
    arena: &'a Bump,
    words: Words,
    count: usize,
) -> u64 {
    let mut names = names.handle();
    let mut numbers = Numbers::new(words, 0, count);
    let mut digits = Buffer::new();
    let mut sum = 0u64;
    for _put in 0..count {
        if let Ok(number) = names.put_text(rt, arena, digits.format(numbers.next())) {
            sum = sum.wrapping_add(number as u64);
        }
    }
    sum
}

/// Returns the nanoseconds that the puts of texts into a shared interner took, by one thread, and
/// their sum.
///
/// # Errors
/// Fails if the clock or an allocation fails.
pub fn timed_texts<R: Wait + Clock>(
    rt: &R,
    alloc: Global,
    words: Words,
    count: usize,
) -> io::Result<(u128, u64)> {
    let arena = Bump::new(alloc);
    let names = SharedInterner::new(alloc)?;
    let start = Instant::now(rt)?;
    let sum = puts_of_texts(rt, &names, &arena, words, count);
    Ok((start.elapsed(rt)?.as_nanos(), sum))
}

/// Puts texts into an interner of one thread, and returns the sum of their numbers.
fn puts_alone(names: &mut Interner<'_>, words: Words, count: usize) -> u64 {
    let mut numbers = Numbers::new(words, 0, count);
    let mut digits = Buffer::new();
    let mut sum = 0u64;
    for _put in 0..count {
        if let Ok(number) = names.put(digits.format(numbers.next())) {
            sum = sum.wrapping_add(number as u64);
        }
    }
    sum
}

/// Returns the nanoseconds that the puts into an interner of one thread took, and their sum.
///
/// # Errors
/// Fails if the clock or an allocation fails.
pub fn timed_alone<R: Clock>(
    rt: &R,
    alloc: Global,
    words: Words,
    count: usize,
) -> io::Result<(u128, u64)> {
    let arena = Bump::new(alloc);
    let mut names = Interner::new(alloc, &arena);
    let start = Instant::now(rt)?;
    let sum = puts_alone(&mut names, words, count);
    Ok((start.elapsed(rt)?.as_nanos(), sum))
}
