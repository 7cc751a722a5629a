//! A reader that continues after the last item that it has read.
ghost use Rattle.std.specs.Prelude.{◌≡◌, length};
ghost use mathlib.Core.List.{IsPrefix};

use elsa::sync::{Handle, LockFreeFrozenVec};
use std::sync::Wait;

/// A handle of a vector, and the results for the readings that it has observed.
#[derive(Drop)]
pub struct Follower<'v> {
    pub feed: Handle<'v, u64>,
    /// The number of observed readings.
    pub count: usize,
    /// Their sum.
    pub sum: u64,
}

impl<'v> Follower<'v> {
    /// Makes a follower that has observed nothing. It allocates nothing.
    pub fn new(feed: &'v LockFreeFrozenVec<u64>) -> Follower<'v> {
        Follower {
            feed: feed.handle(),
            count: 0,
            sum: 0,
        }
    }

    /// Waits for readings that the last call did not observe, and adds each of them once.
    ///
    /// # Blocks
    /// Until a reading is pushed, or until the length was read `tries` times.
    pub fn read_on<R: Wait>(&mut self, rt: &R, tries: usize)
        ensures grows { IsPrefix self.old.feed.seen self.new.feed.seen }
        ensures counted { self.new.count ≡ length self.new.feed.seen }
    {
        let mut sum = self.sum;
        for reading in self.feed.wait_for_news(rt, tries) {
            sum = sum.saturating_add(reading);
        }
        self.sum = sum;
        self.count = self.feed.seen_len();
    }
}
