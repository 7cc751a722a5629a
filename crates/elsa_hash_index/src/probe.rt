//! How an index is found among index entries that other threads set at the same time, and how it is
//! entered.
ghost use Rattle.std.specs.Prelude.{◌≡◌, ◌≢◌, ℕ, ◌+◌, ◌*◌, ◌<◌, ◌≤◌, ◌^◌, true, false, slice_index, IfSome, IfNone, OnOk};
ghost use Rattle.std.specs.Int.{w64, trailing_zeros};
ghost use Rattle.std_collections.specs.IndexTable.Group.{IsBitSet};
ghost use Rattle.logbook.specs.Pages.{Book};
ghost use Rattle.elsa_hash_index.specs.Words.{walk, tag_of, groups_of, number_of, IsIndexed, IsLater, IsNearStart};

use std::alloc::AllocError;
use std::simd::prelude::*;

/// The number of indices for which [`enter_all`] loads words ahead.
const AHEAD: usize = 16;

/// The index entries of a row, in groups of sixteen, and what a thread has observed of them. Each
/// has a tag of 8 bits and a number of 32 bits. One that it observed as 0 may have been set since.
pub trait Words<S> {
    // The row with the builder of its hashers, the number of index entries that it was made for,
    // and the observed value of each tag, by its index entry, and of each number, by `number_of`.
    ghost whose: { Self → Book × S };

    ghost count: { Self → ℕ };

    ghost known: { Self → ℕ → ℕ };

    /// Returns the number of index entries that the row was made for. Its last group may have more.
    fn len(&self) -> usize
        ensures { result ≡ Self.count self.now };

    /// Loads the tag of an index entry and returns it, which the thread has then observed.
    fn tag(&mut self, at: usize) -> u64
        requires { at < 16 * groups_of (Self.count self.old) }
        ensures same { (Self.count self.new ≡ Self.count self.old) ×
            (Self.whose self.new ≡ Self.whose self.old) }
        ensures later { IsLater (Self.known self.old) (Self.known self.new) }
        ensures tag { result ≡ Self.known self.new at };

    /// Loads the sixteen tags of a group, one word after the other, and returns them. Each has the
    /// value that was known; those that are not 0 are known from here on. One that is 0 may have
    /// been set before the other word was loaded.
    fn tags(&mut self, group: usize) -> u8x16
        requires { group < groups_of (Self.count self.old) }
        ensures same { (Self.count self.new ≡ Self.count self.old) ×
            (Self.whose self.new ≡ Self.whose self.old) }
        ensures later { IsLater (Self.known self.old) (Self.known self.new) }
        ensures known { (lane : ℕ) → lane < 16 → 0 < Self.known self.old (16 * group + lane) →
            slice_index result lane ≡ Self.known self.old (16 * group + lane) }
        ensures tags { (lane : ℕ) → lane < 16 → 0 < slice_index result lane →
            Self.known self.new (16 * group + lane) ≡ slice_index result lane };

    /// Loads the number of an index entry and returns it, which the thread has then observed.
    fn number(&mut self, at: usize) -> u64
        requires { at < 16 * groups_of (Self.count self.old) }
        ensures same { (Self.count self.new ≡ Self.count self.old) ×
            (Self.whose self.new ≡ Self.whose self.old) }
        ensures later { IsLater (Self.known self.old) (Self.known self.new) }
        ensures number { result ≡ Self.known self.new (number_of (Self.count self.old) at) };

    /// Sets the tag of an index entry if it is 0, and returns whether it did. It may also fail if
    /// other threads set tags of the same word meanwhile.
    fn set_tag(&mut self, at: usize, tag: u64) -> bool
        requires { (at < 16 * groups_of (Self.count self.old)) × (0 < tag) × (tag < 256) }
        ensures same { (Self.count self.new ≡ Self.count self.old) ×
            (Self.whose self.new ≡ Self.whose self.old) }
        ensures later { IsLater (Self.known self.old) (Self.known self.new) }
        ensures set { result ≡ true → Self.known self.new at ≡ tag };

    /// Sets the number of an index entry if it is 0, and returns whether it did. It may also fail
    /// if other threads set numbers of the same word meanwhile.
    fn set_number(&mut self, at: usize, number: u64) -> bool
        requires { (at < 16 * groups_of (Self.count self.old)) × (0 < number) ×
            (number < 2 ^ 32) }
        ensures same { (Self.count self.new ≡ Self.count self.old) ×
            (Self.whose self.new ≡ Self.whose self.old) }
        ensures later { IsLater (Self.known self.old) (Self.known self.new) }
        ensures set { result ≡ true →
            Self.known self.new (number_of (Self.count self.old) at) ≡ number };
}

/// Returns the tag of a hash, which is never 0. All bits of the hash have an effect on it: the high
/// ones choose where a probe begins, and the low ones may have chosen a shard.
#[tactic(auto, unfolding(crate::specs::Words::tag_of, crate::specs::Words::mixed))]
#[inline(always)]
fn tagged(hash: u32) -> u64
    ensures tag { result ≡ tag_of hash }
    ensures within { (0 < result) × (result < 256) }
{
    let mixed = (hash as u64).wrapping_mul(0x9E37_79B1) / 0x100_0000 % 256;
    if mixed == 0 { 1 } else { mixed }
}

/// Returns the number of groups of sixteen that have `count` index entries. The last may have more.
#[inline(always)]
pub(crate) fn groups(count: usize) -> usize
    ensures { result ≡ groups_of count }
{
    count / 16 + (count % 16 + 15) / 16
}

/// Returns a bit for each of these tags that equals `tag`.
#[inline(always)]
fn lanes_with(tags: u8x16, tag: u64) -> u64
    requires { tag < 256 }
    ensures only { (k : ℕ) → IsBitSet result k → (k < 16) × (slice_index tags k ≡ tag) }
    ensures all { (k : ℕ) → k < 16 → slice_index tags k ≡ tag → IsBitSet result k }
{
    tags.simd_eq(u8x16::splat(tag as u8)).to_bitmask()
}

/// Returns the number of the lowest bit that is set.
#[inline(always)]
fn first_of(bits: u64) -> usize
    requires { 0 < bits }
    ensures value { result ≡ trailing_zeros w64 bits }
    ensures set { IsBitSet bits result }
{
    bits.trailing_zeros() as usize
}

/// Returns the bits without the lowest that is set.
#[inline(always)]
fn rest_of(bits: u64) -> u64
    requires { 0 < bits }
    ensures less { result < bits }
    ensures only { (k : ℕ) → IsBitSet result k → IsBitSet bits k }
    ensures others { (k : ℕ) → IsBitSet bits k → k ≢ trailing_zeros w64 bits → IsBitSet result k }
{
    bits & (bits - 1)
}

/// Returns which of `count` groups a probe for `hash` reaches after `step` steps. The product has
/// up to 96 bits.
#[tactic(auto, unfolding(crate::specs::Words::start, crate::specs::Words::walk), using(crate::proofs::WordLemmas::product_fits, crate::proofs::WordLemmas::start_within, crate::proofs::WordLemmas::small_mod, crate::proofs::WordLemmas::wrapped_mod, crate::proofs::WordLemmas::near_start))]
#[inline(always)]
fn walked(count: usize, hash: u32, step: usize) -> usize
    requires { step < count }
    ensures group { result ≡ walk count hash step }
    ensures within { result < count }
    ensures spread { (at : ℕ) → at < count → IsNearStart count at }
{
    let start = (hash as u128 * count as u128 / 0x1_0000_0000) as usize;
    let left = count - start;
    if step < left {
        start + step
    } else {
        step - left
    }
}

/// Returns an index below `n` that `is_it` accepts, from an index entry with the tag of this hash.
/// Returns `None` if `is_it` rejected each index below `n` that was known to be entered under this
/// hash when the call began. It may also call `is_it` for indices that other threads entered since,
/// and for those under other hashes with the same tag.
///
/// # Cost
/// `O(1)` if the hashes are well distributed.
pub fn find<S, W: Words<S>, F: Fn(usize) -> bool>(
    words: &mut W,
    hash: u32,
    n: usize,
    is_it: F,
) -> Option<usize>
    // `is_it` may be called for each index below `n`.
    requires limit { n < 2 ^ 32 }
    requires callable { (index : ℕ) → index < n → F.pre is_it index }

    // The index entries are as observed before, or set since.
    ensures same { (W.count words.new ≡ W.count words.old) × (W.whose words.new ≡ W.whose words.old) }
    ensures later { IsLater (W.known words.old) (W.known words.new) }

    // An index that `is_it` accepted, or `is_it` rejected each index that was known.
    ensures found { IfSome result (λ p. (p < n) × F.post is_it p true) }
    ensures absent { IfNone result ((p : ℕ) → p < n →
        IsIndexed (W.count words.old) (W.known words.old) hash p → F.post is_it p false) }
{
    let count = groups(words.len());
    let tag = tagged(hash);
    for step in 0..count {
        let group = walked(count, hash, step);
        let tags = words.tags(group);
        let mut same = lanes_with(tags, tag);
        while same != 0 {
            let number = words.number(16 * group + first_of(same)) as usize;
            if 0 < number && number <= n {
                if is_it(number - 1) {
                    return Some(number - 1);
                }
            }
            same = rest_of(same);
        }
        // An index entry is filled only if all tags of the earlier groups of its probe are set, and
        // a tag stays set: none of the hash's is in a later group than one with a free tag.
        if lanes_with(tags, 0) != 0 {
            return None;
        }
    }
    None
}

/// Enters an index under a hash, in the first index entry of its probe whose tag is 0. The tag is
/// set before the number; a thread that has loaded only the tag continues with the next tag.
///
/// # Errors
/// Fails if no tag of the row is 0. It may also fail if other threads set tags or numbers of the
/// same words meanwhile.
pub fn enter<S, W: Words<S>>(words: &mut W, hash: u32, index: usize) -> Result<(), AllocError>
    requires limit { index + 1 < 2 ^ 32 }
    ensures same { (W.count words.new ≡ W.count words.old) × (W.whose words.new ≡ W.whose words.old) }
    ensures later { IsLater (W.known words.old) (W.known words.new) }
    ensures entered { OnOk result (IsIndexed (W.count words.new) (W.known words.new) hash index) }
{
    let count = groups(words.len());
    let tag = tagged(hash);
    for step in 0..count {
        let group = walked(count, hash, step);
        let tags = words.tags(group);
        let mut free = lanes_with(tags, 0);
        while free != 0 {
            let at = 16 * group + first_of(free);
            // The processor fetches both words at the same time.
            if words.number(at) == 0 && words.set_tag(at, tag) {
                // From here on a reader that finds the tag and no number continues with the next.
                if words.set_number(at, index as u64 + 1) {
                    return Ok(());
                }
                return Err(AllocError);
            }
            // The exchange failed. If another thread has set the tag, continue with the next one.
            if words.tag(at) == 0 {
                return Err(AllocError);
            }
            free = rest_of(free);
        }
    }
    Err(AllocError)
}

/// Enters the indices below `n`, each under its hash. It first loads the words at which the probes
/// of the next 16 indices begin, so that the processor fetches them at the same time.
///
/// # Errors
/// Fails as [`enter`] does. The indices so far remain entered.
pub fn enter_all<S, W: Words<S>, H: Fn(usize) -> u32>(
    words: &mut W,
    n: usize,
    hash_of: H,
) -> Result<(), AllocError>
    requires limit { n < 2 ^ 32 }
    requires callable { (index : ℕ) → index < n → H.pre hash_of index }
    ensures same { (W.count words.new ≡ W.count words.old) × (W.whose words.new ≡ W.whose words.old) }
    ensures later { IsLater (W.known words.old) (W.known words.new) }
    ensures entered { OnOk result ((p : ℕ) → p < n → (h : ℕ) × H.post hash_of p h ×
        IsIndexed (W.count words.new) (W.known words.new) h p) }
{
    let count = groups(words.len());
    for index in 0..n {
        if index % AHEAD == 0 && 0 < count {
            for next in index..n.min(index + AHEAD) {
                let at = 16 * walked(count, hash_of(next), 0);
                words.tag(at);
                words.number(at);
            }
        }
        enter(words, hash_of(index), index)?;
    }
    Ok(())
}
