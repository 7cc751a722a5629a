//! A fast hash whose factors are all secret, for tables with untrusted keys.
//!
//! The default hash of std's maps, `FoldHasher`, has no secret: 40,000 names can be made that have
//! one hash, and a table of them takes time proportional to the square of their number.
//! [`SeededState`] has two secret words. A key is multiplied in words of 8 bytes, two at a time,
//! and each factor of each product has a secret word in it: without the secret, no one can choose a
//! word that makes a factor zero, or a power of two.
//!
//! **What it is made to resist**: keys crafted beforehand by someone who knows this code and not
//! the seed. No bound on collisions is proved; no family of keys that we know does worse than
//! random ones, and `tools/program_checks hashes` tries a dozen.
//!
//! **What it doesn't resist**: someone who learns the seed, or learns of it bit by bit, as by
//! timing many look-ups in one run. If that matters, use std's `RandomState`: SipHash-1-3, which
//! cryptographers have studied. With it `elsa intern` takes 1.25 to 1.8 times as long.
//!
//! The hash of a key is the same in all tables that have the same [`SeededState`], and differs in
//! the next run.
ghost use Rattle.std.specs.Prelude.{◌≡◌, ◌+◌, ◌≤◌, length};
ghost use Rattle.std.specs.Hash.FoldHasher.{folded_multiply, read_short, read_u32, read_u64};
ghost use Rattle.elsa_hash.specs.Seeded as seeded;

use std::fmt::{Debug, Formatter};
use std::hash::{BuildHasher, Hasher};
use std::random::RandomSource;
use std::{fmt, io};

/// The hasher builder of a table, with two secret words.
#[derive(Clone, Copy)]
pub struct SeededState {
    // The first state of a hasher, and the word that is mixed into a factor of each product.
    start: u64,
    factor: u64,
}

impl SeededState {
    /// Makes a state with two secret words from the runtime's random source, of eight bytes each.
    /// Make one at the start of a program. It allocates nothing.
    ///
    /// # Errors
    /// Fails with the error of the random source. There is then no secret, and a program that
    /// continues without one can be flooded with colliding keys.
    pub fn new(rt: &impl RandomSource) -> io::Result<SeededState> {
        let mut bytes = [0; 16];
        rt.fill_bytes(&mut bytes)?;
        Ok(SeededState::of_bytes(bytes))
    }

    /// Makes the state of 16 bytes: the first eight make one word and the last eight make the
    /// other, each with the lowest byte first.
    fn of_bytes(bytes: [u8; 16]) -> SeededState
        ensures { seeded.first_hasher result ≡ seeded.hasher (read_u64 bytes 0) (read_u64 bytes 8) }
    {
        SeededState {
            start: word(&bytes, 0),
            factor: word(&bytes, 8),
        }
    }

    /// Makes a state with these secret words, for a run that is to be repeated. Someone who knows
    /// them can make keys that collide; words of few bits hash badly.
    pub fn with_seed(start: u64, factor: u64) -> SeededState
        ensures { seeded.first_hasher result ≡ seeded.hasher start factor }
    {
        SeededState { start, factor }
    }
}

impl BuildHasher for SeededState {
    type Hasher = SeededHasher;

    ghost build_hasher = { seeded.first_hasher };

    fn build_hasher(&self) -> SeededHasher {
        SeededHasher {
            state: self.start,
            factor: self.factor,
        }
    }
}

impl Debug for SeededState {
    /// Prints no secret.
    fn fmt<W: fmt::Write>(&self, f: &mut Formatter<W>) -> fmt::Result {
        f.debug_struct("SeededState").finish_non_exhaustive()
    }
}

/// The hash of one key while its bytes are written.
#[derive(Clone, Copy)]
pub struct SeededHasher {
    state: u64,
    factor: u64,
}

impl Debug for SeededHasher {
    /// Prints no secret.
    fn fmt<W: fmt::Write>(&self, f: &mut Formatter<W>) -> fmt::Result {
        f.debug_struct("SeededHasher").finish_non_exhaustive()
    }
}

/// Returns the two halves of the product, joined by xor.
#[inline(always)]
#[tactic(auto, unfolding(core::specs::Hash::FoldHasher::folded_multiply))]
fn folded_product(a: u64, b: u64) -> u64
    ensures { result ≡ folded_multiply a b }
{
    let product = a as u128 * b as u128;
    (product & 0xFFFF_FFFF_FFFF_FFFF) as u64 ^ (product >> 64) as u64
}

/// Returns the four bytes from index `at` as a number, the lowest byte first.
#[inline(always)]
#[tactic(auto, unfolding(core::specs::Hash::FoldHasher::read_u32))]
fn half_word(bytes: &[u8], at: usize) -> u64
    requires { at + 4 ≤ length bytes.now }
    ensures { result ≡ read_u32 bytes.now at }
{
    u32::from_le_bytes([bytes[at], bytes[at + 1], bytes[at + 2], bytes[at + 3]]) as u64
}

/// Returns the eight bytes from index `at` as a number, the lowest byte first.
#[inline(always)]
#[tactic(auto, unfolding(core::specs::Hash::FoldHasher::read_u64))]
fn word(bytes: &[u8], at: usize) -> u64
    requires { at + 8 ≤ length bytes.now }
    ensures { result ≡ read_u64 bytes.now at }
{
    half_word(bytes, at) | half_word(bytes, at + 4) << 32
}

/// Returns up to eight bytes as one word, by reads that may overlap.
#[inline(always)]
#[tactic(auto, unfolding(core::specs::Hash::FoldHasher::read_short))]
fn short_word(bytes: &[u8]) -> u64
    ensures { result ≡ read_short bytes.now }
{
    let len = bytes.len();
    if len >= 4 {
        half_word(bytes, 0) | half_word(bytes, len - 4) << 32
    } else if len > 0 {
        bytes[0] as u64 | (bytes[len / 2] as u64) << 8 | (bytes[len - 1] as u64) << 16
    } else {
        0
    }
}

impl Hasher for SeededHasher {
    ghost write = { seeded.write };

    ghost finish = { seeded.finish };

    #[inline(always)]
    fn finish(&self) -> u64 {
        self.state
    }

    #[inline(always)]
    fn write(&mut self, bytes: &[u8]) {
        let len = bytes.len();
        if len <= 8 {
            self.state = folded_product(
                self.state ^ short_word(bytes),
                self.factor ^ (2 * len as u64),
            );
            return;
        }
        let mut state = self
            .state
            .wrapping_add((len as u64).wrapping_mul(self.factor));
        let mut at = 0;
        while len - at > 16 {
            state = folded_product(word(bytes, at) ^ state, word(bytes, at + 8) ^ self.factor);
            at += 16;
        }
        self.state = folded_product(
            word(bytes, len.saturating_sub(16)) ^ state,
            word(bytes, len - 8) ^ self.factor,
        );
    }
}
