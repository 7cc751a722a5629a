//! Scripts of calls in which each request for memory, and each allocation in the arena, is denied
//! in turn.
//!
//! A [`Family`] runs a script of calls with an allocator that counts requests and denies some.
//! [`refuse_each_in_turn`] runs it once with no request denied; then no call may report an
//! allocation failure. After that it runs the script for each request with that one denied, for
//! each request with it and all later ones denied, and for each allocation in the arena with that
//! one denied. Each time exactly one call has to fail, or none if the call then requested less and
//! got it.
//!
//! [`goes_through`] makes the calls of a script. A call that fails must leave the content
//! unchanged, and must succeed when it is repeated. If no request is denied, the content is checked
//! after each call. Otherwise it is checked after the call that fails and after the last one,
//! because the earlier calls have the same results as before.
#![tactic(auto)]

use bumpalo::Bump;
use std::alloc::{AllocError, Global};
use test_alloc::Budget;

/// Sixteen texts of eight bytes, no two of which are equal: keys, values and names of a script.
pub const WORDS: [&str; 16] = [
    "aardvark", "bandicot", "capybara", "dormouse", "elephant", "flamingo", "goldfish", "hedgehog",
    "ironclad", "jackdaws", "kangaroo", "ladybird", "mongoose", "nightjar", "ocelotes", "platypus",
];

/// A collection with the calls of its script, which are numbered from 0.
pub trait Script {
    /// Makes the call with this number, and returns whether its result is the expected one.
    ///
    /// # Errors
    /// Fails if an allocation of the call fails.
    fn call(&mut self, number: usize) -> Result<bool, AllocError>;

    /// Returns whether the collection has exactly the content that the calls before this number
    /// leave.
    fn holds(&self, number: usize) -> bool;
}

/// The allocations in the arena that are denied: at the first try of the call `call`, the arena has
/// room for `room` values of eight bytes.
#[derive(Clone, Copy)]
pub struct Squeeze {
    call: usize,
    room: usize,
}

/// No allocation in the arena is denied.
pub const NO_SQUEEZE: Squeeze = Squeeze {
    call: usize::MAX,
    room: 0,
};

/// Fills the arena until it has room for `values` values of eight bytes, and sets its limit so that
/// it doesn't grow. If a chunk is larger than 125 KiB, more room stays.
pub fn leave_room(arena: &Bump, values: usize) {
    let room = values.saturating_mul(8);
    for _ in 0..64 {
        if arena.chunk_capacity() < room {
            let _ = arena.try_alloc([0u64; 8]).is_ok();
        }
    }
    arena.set_allocation_limit(Some(0));
    let most = room.saturating_add(64);
    for _ in 0..2000 {
        if arena.chunk_capacity() >= most {
            let _ = arena.try_alloc([0u8; 64]).is_ok();
        }
    }
    for _ in 0..64 {
        if arena.chunk_capacity() > room {
            let _ = arena.try_alloc(0u8).is_ok();
        }
    }
}

/// Makes the first `count` calls. A call that fails is repeated while no request is denied.
///
/// Returns the number of calls that failed, or `None` if a result or the content was not the
/// expected one, or if a call reported an allocation failure though neither `heap` nor `arena` had
/// denied a request.
pub fn goes_through<S: Script>(
    script: &mut S,
    count: usize,
    heap: &Budget<Global>,
    arena: &Bump,
    squeezed: Squeeze,
) -> Option<u64> {
    let looks_at_each = heap.is_open() && squeezed.call == NO_SQUEEZE.call;
    let mut failures = 0u64;
    for number in 0..count {
        let refused = heap.refused();
        if number == squeezed.call {
            leave_room(arena, squeezed.room);
        }
        let outcome = script.call(number);
        arena.set_allocation_limit(None);
        let good = match outcome {
            Ok(good) => good,
            Err(_) => {
                failures += 1;
                let is_refused = heap.refused() > refused || number == squeezed.call;
                heap.refuse_next(0);
                is_refused && script.holds(number) && matches!(script.call(number), Ok(true))
            }
        };
        let is_told = heap.refused() > refused || number == squeezed.call;
        let looks = looks_at_each || is_told || number + 1 == count;
        if !good || looks && !script.holds(number + 1) {
            return None;
        }
    }
    Some(failures)
}

/// A script together with the way to run it.
pub trait Family {
    /// Returns the number of calls of the script.
    fn calls(&self) -> usize;

    /// Returns the number of values of eight bytes that the call with this number stores in the
    /// arena.
    fn placings(&self, number: usize) -> usize;

    /// Runs the whole script with memory of `heap`, by [`goes_through`]. Everything is dropped
    /// before it returns that result.
    fn goes_over(&self, alloc: Global, heap: &Budget<Global>, squeezed: Squeeze) -> Option<u64>;
}

/// The number of requests and of allocations in the arena that were denied, each in turn.
#[derive(Clone, Copy, Debug)]
pub struct Refused {
    /// The number of requests of the script if none is denied.
    pub requests: u64,
    /// The number of allocations of the script in the arena.
    pub placings: u64,
}

/// The run in which a script failed, with the number of calls that failed in it. `None` means that
/// a call or the content was wrong.
#[derive(Clone, Copy, Debug, Drop)]
pub enum Wrong {
    /// The run with no request denied.
    Open(Option<u64>),
    /// A run with the request of this number denied, alone or with all later ones.
    Request(u64, Option<u64>),
    /// A run with an allocation in the arena denied that the call of this number makes.
    Placing(usize, Option<u64>),
}

/// Runs the script with no request denied, and with each request and each allocation in the arena
/// denied in turn.
///
/// # Errors
/// Returns the first run in which the script failed.
pub fn refuse_each_in_turn<F: Family>(alloc: Global, family: &F) -> Result<Refused, Wrong> {
    let open = Budget::new(alloc);
    let failures = family.goes_over(alloc, &open, NO_SQUEEZE);
    if failures != Some(0) || open.given() != open.granted() {
        return Err(Wrong::Open(failures));
    }
    let requests = open.asked();
    for number in 0..requests {
        for to in [number + 1, u64::MAX] {
            let heap = Budget::new(alloc);
            heap.refuse(number, to);
            let failures = family.goes_over(alloc, &heap, NO_SQUEEZE);
            // If one request alone is denied, the call may make another instead.
            let is_alone = to != u64::MAX;
            let is_saved = is_alone && failures == Some(0) && heap.asked() > requests;
            let is_denied = heap.refused() == 1 || !is_alone && heap.refused() > 1;
            let is_reported = failures == Some(1) || is_saved;
            if !is_reported || !is_denied || heap.given() != heap.granted() {
                return Err(Wrong::Request(number, failures));
            }
        }
    }
    let mut placings = 0;
    for call in 0..family.calls() {
        // Each allocation is denied in a run in which the arena has room for the earlier ones of
        // its call only. With room for all of them, no call fails.
        let wanted = family.placings(call);
        for room in 0..=wanted {
            let heap = Budget::new(alloc);
            let failures = family.goes_over(alloc, &heap, Squeeze { call, room });
            if failures != Some((room < wanted) as u64) || heap.given() != heap.granted() {
                return Err(Wrong::Placing(call, failures));
            }
        }
        placings += wanted as u64;
    }
    Ok(Refused { requests, placings })
}
