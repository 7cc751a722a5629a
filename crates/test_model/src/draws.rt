//! Random numbers, and the seeds, sizes and lengths that the scripts run with.
use std::rt::Clock;
use std::test::Fail;
use std::time::{SystemTime, UNIX_EPOCH};

/// Random numbers.
#[derive(Clone, Copy)]
pub struct Draws {
    state: u64,
}

impl Draws {
    /// Makes the random numbers of a seed.
    pub fn new(seed: u64) -> Draws {
        let mut draws = Draws {
            state: seed.wrapping_mul(0x9e37_79b9_7f4a_7c15),
        };
        let _ = draws.next();
        draws
    }

    /// Returns the next random number, which has 31 bits.
    pub fn next(&mut self) -> u64 {
        self.state = self
            .state
            .wrapping_mul(6_364_136_223_846_793_005)
            .wrapping_add(1_442_695_040_888_963_407);
        self.state >> 33
    }

    /// Returns a number below `count`, which is at most 2^31.
    pub fn below(&mut self, count: u64) -> u64 {
        (self.next() * count) >> 31
    }

    /// Returns a size from 1 to `most`. Each power of two is as likely as the others.
    pub fn size(&mut self, most: u64) -> u64 {
        let mut above = 2;
        for _ in 0..self.below(18) {
            above *= 2;
        }
        self.below(above).max(1).min(most)
    }

    /// Returns true 16 times in `count`, or once in four if that is more seldom.
    pub fn seldom(&mut self, count: u64) -> bool {
        self.below(count.max(64)) < 16
    }
}

/// The number of seeds that are the same in each run.
pub const FIXED_SEEDS: u64 = 10;

/// Returns a seed from the clock.
pub fn clock_seed<R: Clock>(rt: &R) -> Result<u64, Fail> {
    let since = SystemTime::now(rt)?.duration_since(UNIX_EPOCH)?;
    Ok((since.subsec_nanos() as u64) ^ (since.as_secs() << 30))
}

/// Returns whether a collection of `count` entries is about to grow, or has just grown: whether a
/// buffer, a block or a hash table ends at this number or next to it.
pub fn is_edge(count: u64) -> bool {
    for power in 0..18 {
        for size in [1 << power, 3 << power, (9 << power) + 3] {
            if count.abs_diff(size) <= 1 {
                return true;
            }
        }
    }
    false
}

/// Returns the `n`th of `1 << bits` different keys below that number, in no order.
pub fn scattered(n: u64, bits: u64) -> u64 {
    (n * 0x9e37_79b1) & ((1 << bits) - 1)
}
