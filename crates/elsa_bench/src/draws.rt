//! Pseudo-random numbers, the same as those of the peers; random or consecutive indices; and
//! numbers by Zipf's law or all distinct.

/// The random numbers of one thread.
#[derive(Clone, Copy)]
pub struct Draws {
    state: u64,
}

impl Draws {
    pub fn new(thread: usize) -> Draws {
        Draws {
            state: (thread as u64).wrapping_add(1),
        }
    }

    #[inline(always)]
    pub fn next(&mut self) -> u64 {
        self.state = self
            .state
            .wrapping_mul(6364136223846793005)
            .wrapping_add(1442695040888963407);
        self.state >> 33
    }

    /// Returns a random index below `count`, which is at most 2^31.
    #[inline(always)]
    pub fn below(&mut self, count: usize) -> usize {
        (self.next().wrapping_mul(count as u64) >> 31) as usize
    }
}

/// Returns the key of an index. No two keys are equal, and they have no order.
#[inline(always)]
pub fn key(index: usize) -> u64 {
    (index as u64).wrapping_mul(0x9e37_79b9_7f4a_7c15)
}

/// Returns a number below 65,535, roughly by Zipf's law: each of the 16 ranges from `2^k - 1` to
/// `2^(k+1) - 2` is equally likely.
#[inline(always)]
pub fn rank(draws: &mut Draws) -> u64 {
    let size = 1u64 << (draws.next() & 15);
    (size - 1).wrapping_add(draws.next() & (size - 1))
}

/// The numbers that are inserted.
#[derive(Clone, Copy)]
pub enum Words {
    /// 65,535 numbers, roughly by Zipf's law.
    Zipf,
    /// Each number once.
    Distinct,
}

/// The numbers of one thread.
#[derive(Clone, Copy)]
pub struct Numbers {
    words: Words,
    draws: Draws,
    next: u64,
}

impl Numbers {
    pub fn new(words: Words, thread: usize, each: usize) -> Numbers {
        Numbers {
            words,
            draws: Draws::new(thread),
            next: (thread as u64).wrapping_mul(each as u64),
        }
    }

    #[inline(always)]
    pub fn next(&mut self) -> u64 {
        match self.words {
            Words::Zipf => rank(&mut self.draws),
            Words::Distinct => {
                let number = self.next;
                self.next = number.wrapping_add(1);
                number
            }
        }
    }
}

/// The number of indices that are read. It is a power of two, so that drawing one takes no
/// division.
pub const STOCK: u64 = 1 << 17;

/// A sequence of indices below `STOCK`.
pub trait Indices: Drop {
    fn new(thread: usize) -> Self;

    fn next(&mut self) -> usize;
}

/// Random indices.
#[derive(Clone, Copy)]
pub struct Random {
    draws: Draws,
}

impl Indices for Random {
    fn new(thread: usize) -> Random {
        Random {
            draws: Draws::new(thread),
        }
    }

    fn next(&mut self) -> usize {
        (self.draws.next() & (STOCK - 1)) as usize
    }
}

/// Consecutive indices, from the first to the last, repeatedly.
#[derive(Clone, Copy)]
pub struct InOrder {
    index: u64,
}

impl Indices for InOrder {
    fn new(_thread: usize) -> InOrder {
        InOrder { index: 0 }
    }

    fn next(&mut self) -> usize {
        let index = self.index & (STOCK - 1);
        self.index = index + 1;
        index as usize
    }
}
