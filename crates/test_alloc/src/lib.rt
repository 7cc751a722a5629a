//! An allocator for tests. It denies the requests that a test chooses, passes the others on, and
//! counts all of them.
//!
//! A test passes `&Budget` to what it tests, as any other allocator. First it runs its script with
//! no request denied, and reads `asked`. Then it runs the script again for each number `n` below
//! that: with `refuse(n, n + 1)`, and with `refuse(n, u64::MAX)`, because some code requests a
//! smaller block after one failure. After the last drop, `given` equals `granted` exactly if each
//! block was deallocated.
//!
//! To test what happens during a call, a test halts the call's next request by `halt_next`, waits
//! until `is_halted`, and lets the request continue by `go_on`.
//!
//! The counts are atomic words, so threads may share one budget. No contract states a count. It is
//! proved that a `Budget` is an allocator; the counts are for comparisons in tests.
#![tactic(auto)]

use std::alloc::{AllocError, Allocator};
use std::sync::atomic::{AtomicU64, Ordering};
use std::thread;

/// The states of a budget's halt: requests continue, the next request is to halt, a request is
/// halted.
const GOES: u64 = 0;

const HALTS: u64 = 1;

const HALTED: u64 = 2;

/// The number of looks of a halted request, after which it continues by itself.
const TURNS: u64 = 10_000_000;

/// The number of granted requests.
#[derive(Drop)]
struct Count {
    count: AtomicU64,
}

/// The range of denied requests, and the other counts.
#[derive(Drop)]
struct Meter {
    from: AtomicU64,
    to: AtomicU64,
    asked: AtomicU64,
    refused: AtomicU64,
    given: AtomicU64,
    halt: AtomicU64,
}

/// An allocator that passes requests on to `B`, except for a range of them, which it denies.
///
/// Requests are numbered from 0. Growing or shrinking a block is one request; if it is granted, the
/// old block is deallocated. A collection takes `&Budget<B>`, which is `Copy`.
#[derive(Drop)]
pub struct Budget<B: Allocator> {
    inner: B,
    meter: Meter,
    granted: Count,
}

impl<B: Allocator> Budget<B> {
    /// Makes a budget over the allocator `inner`. It denies nothing, its counts are 0, and it
    /// allocates nothing.
    pub fn new(inner: B) -> Budget<B> {
        Budget {
            inner,
            meter: Meter {
                from: AtomicU64::new(u64::MAX),
                to: AtomicU64::new(u64::MAX),
                asked: AtomicU64::new(0),
                refused: AtomicU64::new(0),
                given: AtomicU64::new(0),
                halt: AtomicU64::new(GOES),
            },
            granted: Count {
                count: AtomicU64::new(0),
            },
        }
    }

    /// Denies the requests with a number in `from..to`, and no others, from now on. The next
    /// request has the number `asked`.
    pub fn refuse(&self, from: u64, to: u64) {
        self.meter.from.store(u64::MAX, Ordering::SeqCst);
        self.meter.to.store(to, Ordering::SeqCst);
        self.meter.from.store(from, Ordering::SeqCst);
    }

    /// Denies the next `count` requests, and no others, from now on. If `count` is 0, it denies
    /// none.
    pub fn refuse_next(&self, count: u64) {
        let asked = self.asked();
        self.refuse(asked, asked.saturating_add(count));
    }

    /// Returns whether no range of requests to deny was ever set.
    pub fn is_open(&self) -> bool {
        self.meter.from.load(Ordering::SeqCst) == u64::MAX
    }

    /// Halts the next request until `go_on` is called, or until it has looked ten million times.
    pub fn halt_next(&self) {
        self.meter.halt.store(HALTS, Ordering::SeqCst);
    }

    /// Returns whether a request is halted.
    pub fn is_halted(&self) -> bool {
        self.meter.halt.load(Ordering::SeqCst) == HALTED
    }

    /// Lets the halted request continue.
    pub fn go_on(&self) {
        self.meter.halt.store(GOES, Ordering::SeqCst);
    }

    /// Returns the number of requests so far, including denied ones.
    pub fn asked(&self) -> u64 {
        self.meter.asked.load(Ordering::SeqCst)
    }

    /// Returns the number of requests that the budget denied.
    pub fn refused(&self) -> u64 {
        self.meter.refused.load(Ordering::SeqCst)
    }

    /// Returns the number of requests that `inner` granted.
    pub fn granted(&self) -> u64 {
        self.granted.count.load(Ordering::SeqCst)
    }

    /// Returns the number of deallocated blocks.
    pub fn given(&self) -> u64 {
        self.meter.given.load(Ordering::SeqCst)
    }
}

/// Waits if the budget is to halt this request.
fn halts(meter: &Meter) {
    if meter.halt.load(Ordering::SeqCst) != HALTS {
        return;
    }
    meter.halt.store(HALTED, Ordering::SeqCst);
    for _ in 0..TURNS {
        if meter.halt.load(Ordering::SeqCst) == GOES {
            return;
        }
        thread::yield_now();
    }
    meter.halt.store(GOES, Ordering::SeqCst);
}

/// Counts a request, and returns whether its number is in the range of denied requests.
fn refuses(meter: &Meter) -> bool {
    halts(meter);
    let number = meter.asked.fetch_add(1, Ordering::SeqCst);
    let refused = meter.from.load(Ordering::SeqCst) <= number
        && number < meter.to.load(Ordering::SeqCst);
    if refused {
        let _ = meter.refused.fetch_add(1, Ordering::SeqCst);
    }
    refused
}

/// Counts a granted request.
fn grants(granted: &Count) {
    let _ = granted.count.fetch_add(1, Ordering::SeqCst);
}

/// Counts a deallocated block.
fn gives(meter: &Meter) {
    let _ = meter.given.fetch_add(1, Ordering::SeqCst);
}

unsafe impl<B: Allocator> Allocator for Budget<B> {
    ghost dealloc_token = { λ heap ty ptr. B.dealloc_token heap.inner ty ptr };

    fn allocate(&self, size: usize, align: usize) -> Result<*mut u8, AllocError> {
        if refuses(&self.meter) {
            return Err(AllocError);
        }
        match self.inner.allocate(size, align) {
            Ok(block) => {
                grants(&self.granted);
                Ok(block)
            }
            Err(error) => Err(error),
        }
    }

    unsafe fn deallocate(&self, ptr: *mut u8, size: usize, align: usize) {
        gives(&self.meter);
        self.inner.deallocate(ptr, size, align);
    }
}
