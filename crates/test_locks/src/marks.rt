//! Marks by which the threads of a test wait for each other. Each wait is bounded: if the threads
//! don't overlap, the test fails instead of hanging.
ghost use Rattle.std.specs.Prelude.{nat_eq};
ghost use Rattle.std.specs.Cmp.{nat_eq_equiv, on_equiv, partial_equiv_from_equiv};

use std::sync::atomic::{AtomicU64, Ordering};
use std::thread;
use std::thread::Threads;

/// The number of looks of a thread that waits for another.
const TURNS: u64 = 4_000_000;

/// The number of looks if each look is a locked call.
pub const CALLS: u64 = 1_000_000;

/// The number of looks for a change that must not happen.
const FEW_TURNS: u64 = 20_000;

/// A number that threads raise and that others wait for.
#[derive(Drop)]
pub struct Mark {
    reached: AtomicU64,
}

impl Mark {
    /// Makes a mark at 0.
    pub fn new() -> Mark {
        Mark {
            reached: AtomicU64::new(0),
        }
    }

    /// Sets the mark to `to`.
    pub fn raise(&self, to: u64) {
        self.reached.store(to, Ordering::SeqCst);
    }

    /// Increases the mark by 1.
    pub fn raise_by_one(&self) {
        let _ = self.reached.fetch_add(1, Ordering::SeqCst);
    }

    /// Returns whether the mark is at least `least` now.
    pub fn is_at(&self, least: u64) -> bool {
        self.reached.load(Ordering::SeqCst) >= least
    }

    /// Waits until the mark is at least `least`. Returns `false` if that doesn't happen within the
    /// bound.
    pub fn comes_to(&self, least: u64) -> bool {
        self.comes_within(least, TURNS)
    }

    /// Waits a short time, and returns whether the mark became at least `least`.
    pub fn comes_soon(&self, least: u64) -> bool {
        self.comes_within(least, FEW_TURNS)
    }

    fn comes_within(&self, least: u64, turns: u64) -> bool {
        for turn in 0..turns {
            if self.is_at(least) {
                return true;
            }
            // The first looks don't yield the processor, so that two threads that wait for each
            // other continue at the same time.
            if turn > 100 {
                thread::yield_now();
            }
        }
        false
    }
}

/// The marks by which code that runs under a lock and a thread that makes a call wait for each
/// other.
#[derive(Drop)]
pub struct Talk {
    runs: Mark,
    asks: Mark,
    answered: Mark,
    saw: Mark,
}

impl Talk {
    pub fn new() -> Talk {
        Talk {
            runs: Mark::new(),
            asks: Mark::new(),
            answered: Mark::new(),
            saw: Mark::new(),
        }
    }

    /// Waits until the other thread's call returns.
    pub fn shares(&self) {
        self.runs.raise(1);
        if self.answered.comes_to(1) {
            self.saw.raise(1);
        }
    }

    /// Returns whether the other thread's call returned, or didn't return, as it has to.
    pub fn is_right(&self) -> bool {
        self.saw.is_at(1)
    }

    /// Waits until the other thread makes its call, which must not return meanwhile.
    pub fn shuts_out(&self) {
        self.runs.raise(1);
        if self.asks.comes_to(1) && !self.answered.comes_soon(1) {
            self.saw.raise(1);
        }
    }

    /// Runs `holds`, which calls `shares` or `shuts_out`, and the call meanwhile. Returns what they
    /// returned, and whether the call returned, or didn't return, while `holds` waited.
    pub fn beside<R: Threads + Sync, X: Send + Drop, Y: Send + Drop>(
        &self,
        rt: &R,
        holds: impl FnOnce() -> X + Send + Drop,
        call: impl FnOnce() -> Y + Send + Drop,
    ) -> (X, Y, bool) {
        let (held, (runs, called)) = thread::join(rt, holds, || {
            let runs = self.runs.comes_to(1);
            self.asks.raise(1);
            let called = call();
            self.answered.raise(1);
            (runs, called)
        });
        (held, called, runs && self.is_right())
    }
}

/// A number whose `==` waits until the other thread's call returns.
#[derive(Clone, Copy)]
pub struct Watched<'t> {
    pub number: u64,
    pub talk: &'t Talk,
}

impl PartialEq for Watched<'_> {
    ghost eq = { λ a b. nat_eq a.number b.number };

    ghost laws = { partial_equiv_from_equiv (on_equiv (λ a. a.number) nat_eq_equiv) };

    fn eq(&self, other: &Self) -> bool {
        self.talk.shares();
        self.number == other.number
    }
}
