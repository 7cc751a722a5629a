//! `TypedArena`: COUNT values that own memory are allocated, visited ten times in their order, and
//! dropped with the arena.
use elsa::TypedArena;
use std::alloc::{AllocError, Global};
use std::io;
use std::rt::Clock;
use std::time::Instant;

/// The number of walks, so that they take long enough to be timed.
const WALKS: usize = 10;

/// What is timed.
#[derive(Clone, Copy)]
pub enum OwnerCall {
    Alloc,
    Walk,
    Drop,
}

/// A value that owns memory.
#[derive(Drop)]
struct Owner {
    numbers: Vec<u64>,
}

impl Owner {
    #[inline(always)]
    fn new(alloc: Global, number: u64) -> Result<Owner, AllocError> {
        let mut numbers = Vec::with_capacity(alloc, 2)?;
        numbers.push(number).map_err(AllocError::from)?;
        Ok(Owner { numbers })
    }

    #[inline(always)]
    fn number(&self) -> u64 {
        self.numbers.first().copied().unwrap_or(0)
    }
}

fn fill(alloc: Global, arena: &TypedArena<Owner>, count: usize) -> Result<u64, AllocError> {
    let mut sum = 0u64;
    for number in 0..count {
        let Ok(owner) = arena.alloc(Owner::new(alloc, number as u64)?) else {
            return Err(AllocError);
        };
        sum = sum.wrapping_add(owner.number());
    }
    Ok(sum)
}

fn walk(arena: &TypedArena<Owner>) -> u64 {
    let mut sum = 0u64;
    for owner in arena.iter() {
        sum = sum.wrapping_add(owner.number());
    }
    sum
}

/// Returns the nanoseconds that the calls took, and their sum.
///
/// # Errors
/// Fails if the clock or an allocation fails.
pub fn timed<R: Clock>(
    rt: &R,
    alloc: Global,
    call: OwnerCall,
    count: usize,
) -> io::Result<(u128, u64)> {
    let arena = TypedArena::new(alloc)?;
    let mut start = Instant::now(rt)?;
    let mut sum = fill(alloc, &arena, count)?;
    match call {
        OwnerCall::Alloc => Ok((start.elapsed(rt)?.as_nanos(), sum)),
        OwnerCall::Walk => {
            start = Instant::now(rt)?;
            sum = 0;
            for _turn in 0..WALKS {
                sum = sum.wrapping_add(walk(&arena));
            }
            Ok((start.elapsed(rt)?.as_nanos(), sum))
        }
        OwnerCall::Drop => {
            start = Instant::now(rt)?;
            drop(arena);
            Ok((start.elapsed(rt)?.as_nanos(), sum))
        }
    }
}
