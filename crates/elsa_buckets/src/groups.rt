//! The buckets of a hash table, in groups of twelve: how they are probed, filled, and filled again
//! after growth.
ghost use Rattle.std.specs.Prelude.{◌≡◌, ◌≢◌, ◌<◌, ◌≤◌, ℕ, length, slice_index, vec_capacity, IfOk, IfSome, OnOk};
ghost use Rattle.std.specs.Int.{w32, trailing_zeros};
ghost use Rattle.std_collections.specs.IndexTable.Group.{IsBitSet};
ghost use Rattle.elsa_buckets.specs.Groups.{hash_tag, empty_group, tag_in, number_in, walk, load_limit, wider_count, AllTakenBelow, EndsAt, Fills, Indexes, IsFewest, IsSize, Stores, StoresAll, TakenBelow};

use std::alloc::{AllocError, Allocator};
use std::simd::prelude::*;

/// Twelve buckets, whose tags are compared at once. It has the 64 bytes of a cache line.
#[derive(Clone, Copy)]
pub struct Group {
    // The tag of the hash of each bucket's index, or 0 if the bucket is free. The last four tags
    // belong to no bucket.
    tags: [u8; 16],
    // The index in each bucket. That of a free bucket has no meaning.
    numbers: [u32; 12],
}

/// The bucket with the number `lane` in the group with the number `group`.
#[derive(Clone, Copy)]
pub struct Bucket {
    pub(crate) group: usize,
    pub(crate) lane: usize,
}

/// Returns the tag of a hash: its upper eight bits, but 1 instead of 0, which marks a free bucket.
#[tactic(auto, unfolding(crate::specs::Groups::hash_tag))]
#[inline(always)]
pub(crate) fn tag_of(hash: u32) -> u8
    ensures { result ≡ hash_tag hash }
{
    ((hash >> 24) as u8).max(1)
}

/// Returns the number of the lowest bit that is set.
#[inline(always)]
pub(crate) fn first_of(bits: u32) -> usize
    requires { 0 < bits }
    ensures value { result ≡ trailing_zeros w32 bits }
    ensures set { IsBitSet bits result }
{
    bits.trailing_zeros() as usize
}

/// Returns the bits without the lowest that is set.
#[inline(always)]
pub(crate) fn rest_of(bits: u32) -> u32
    requires { 0 < bits }
    ensures less { result < bits }
    ensures only { (k : ℕ) → IsBitSet result k → IsBitSet bits k }
    ensures others { (k : ℕ) → IsBitSet bits k → k ≢ trailing_zeros w32 bits → IsBitSet result k }
{
    bits & (bits - 1)
}

impl Group {
    /// Returns a group of free buckets.
    #[inline(always)]
    fn empty() -> Group
        ensures { result ≡ empty_group }
    {
        Group {
            tags: [0; 16],
            numbers: [0; 12],
        }
    }

    /// Returns a bit for each bucket with this tag.
    #[inline(always)]
    pub(crate) fn with_tag(&self, tag: u8) -> u32
        ensures only { (k : ℕ) → IsBitSet result k → (k < 12) × (tag_in self.now k ≡ tag) }
        ensures all { (k : ℕ) → k < 12 → tag_in self.now k ≡ tag → IsBitSet result k }
    {
        let same = u8x16::from_array(self.tags).simd_eq(u8x16::splat(tag));
        (same.to_bitmask() & 0xFFF) as u32
    }

    /// Returns the first bucket with this tag, or a number of 12 or greater if no bucket has it.
    #[inline(always)]
    pub(crate) fn first_with(&self, tag: u8) -> usize
        ensures found { result < 12 → tag_in self.now result ≡ tag }
        ensures absent { 12 ≤ result → (k : ℕ) → k < 12 → tag_in self.now k ≢ tag }
    {
        // All sixteen tags are compared: for twelve the compiler would load each by itself.
        let same = u8x16::from_array(self.tags).simd_eq(u8x16::splat(tag));
        same.to_bitmask().trailing_zeros() as usize
    }

    /// Returns the index in a bucket.
    #[inline(always)]
    pub(crate) fn number(&self, lane: usize) -> usize
        requires { lane < 12 }
        ensures { result ≡ number_in self.now lane }
    {
        self.numbers[lane] as usize
    }

    /// Takes a bucket for an index under a hash.
    #[inline(always)]
    pub(crate) fn fill(&mut self, lane: usize, hash: u32, number: u32)
        requires { lane < 12 }
        ensures { Fills self.old lane hash number self.new }
    {
        self.tags[lane] = tag_of(hash);
        self.numbers[lane] = number;
    }
}

/// Returns the group, of `count`, that a probe for `hash` reaches after `step` steps.
#[tactic(auto, unfolding(crate::specs::Groups::walk))]
#[inline(always)]
pub(crate) fn walk(count: usize, hash: u32, step: usize) -> usize
    requires { step < count }
    ensures group { result ≡ walk count hash step }
    ensures within { result < count }
{
    (hash as usize).wrapping_add(step) & (count - 1)
}

/// Returns the bucket at which a probe for `hash` ends: the first free one of the first group that
/// has one.
#[inline(always)]
pub(crate) fn vacant(groups: &[Group], hash: u32) -> Option<Bucket>
    ensures { IfSome result (EndsAt groups.now hash) }
{
    let count = groups.len();
    for step in 0..count {
        let at = walk(count, hash, step);
        let lane = groups[at].first_with(0);
        if lane < 12 {
            return Some(Bucket { group: at, lane });
        }
    }
    None
}

/// Returns the bucket at which a probe for `hash` ends, as [`vacant`] does. It is the bucket `lane`
/// of the group at which the probe begins, if that is free.
#[inline(always)]
fn vacant_at(groups: &[Group], hash: u32, lane: usize) -> Option<Bucket>
    ensures { IfSome result (EndsAt groups.now hash) }
{
    if lane < 12 && groups.len() > 0 {
        let group = walk(groups.len(), hash, 0);
        if groups[group].tags[lane] == 0 {
            return Some(Bucket { group, lane });
        }
    }
    vacant(groups, hash)
}

/// Returns the hash of the index in each bucket of a group. That of a free bucket has no meaning.
#[inline(always)]
fn hashes_in(group: &Group, hashes: &[u32]) -> [u32; 12]
    ensures { (lane : ℕ) → lane < 12 →
        slice_index result lane ≡ slice_index hashes.now (number_in group.now lane) }
{
    let mut read = [0u32; 12];
    for lane in 0..12 {
        read[lane] = hashes.get(group.number(lane)).copied().unwrap_or(0);
    }
    read
}

/// Enters the indices of a group under their hashes into the groups of a larger table.
///
/// # Errors
/// Fails if there are too few groups.
fn enter_all(groups: &mut [Group], from: &Group, hashes: &[u32]) -> Result<(), AllocError>
    requires known { TakenBelow from.now (length hashes.now) }
    requires only { AllTakenBelow groups.old (length hashes.now) }

    // The hashes of `from` are added to those that the groups had.
    ensures entered { OnOk result (StoresAll groups.new hashes.now from.now 12) }
    ensures stays { (hash n : ℕ) → Stores groups.old hash n → Stores groups.new hash n }
    ensures only { AllTakenBelow groups.new (length hashes.now) }
    ensures count { length groups.new ≡ length groups.old }
{
    // All hashes are read before the first one is used: they are at random places, so that their
    // reads overlap.
    let read = hashes_in(from, hashes);
    // The indices go to two groups, if the number of groups has doubled: the next bucket of each.
    let mut lanes = (0usize, 0usize);
    let half = groups.len() / 2;
    for lane in 0..12 {
        if from.tags[lane] == 0 {
            continue;
        }
        let hash = read[lane];
        let is_upper = hash as usize & half != 0;
        let likely = if is_upper { lanes.1 } else { lanes.0 };
        let Some(bucket) = vacant_at(groups, hash, likely) else {
            return Err(AllocError);
        };
        if is_upper {
            lanes.1 = bucket.lane.saturating_add(1);
        } else {
            lanes.0 = bucket.lane.saturating_add(1);
        }
        groups[bucket.group].fill(bucket.lane, hash, from.numbers[lane]);
    }
    Ok(())
}

/// Makes `count` groups that have each index of the groups `old`, under its hash.
///
/// The old groups are read in order. As the numbers of groups are powers of two, the indices of an
/// old group belong to a few new ones, which are then in the cache.
///
/// # Errors
/// Fails if an allocation fails, or if `count` is too small for the indices.
fn filled<A: Allocator>(
    alloc: A,
    old: &[Group],
    hashes: &[u32],
    count: usize,
) -> Result<Vec<Group, A>, AllocError>
    requires { Indexes old.now hashes.now }
    ensures indexes { IfOk result (λ groups. Indexes groups.items hashes.now) }
    ensures count { IfOk result (λ groups. length groups.items ≡ count) }
{
    let mut groups = Vec::with_capacity(alloc, count)?;
    groups.resize(count, Group::empty())?;
    for at in 0..old.len() {
        enter_all(groups.as_mut_slice(), &old[at], hashes)?;
    }
    Ok(groups)
}

/// Reserves capacity for the hashes of a table of this size, and makes its groups, which have each
/// index of the groups `old`.
///
/// # Errors
/// Fails if an allocation fails, or if the groups are too few for the indices.
pub(crate) fn widened<A: Allocator + Copy>(
    old: &[Group],
    hashes: &mut Vec<u32, A>,
    size: Size,
) -> Result<Vec<Group, A>, AllocError>
    requires { Indexes old.now hashes.old.items }

    // The new groups have the same hashes. If the call fails, there are none.
    ensures indexes { IfOk result (λ groups. Indexes groups.items hashes.new.items) }
    ensures count { IfOk result (λ groups. length groups.items ≡ size.count) }
    ensures hashes { hashes.new.items ≡ hashes.old.items }
    ensures room { OnOk result (size.limit ≤ vec_capacity hashes.new) }
    ensures capacity { vec_capacity hashes.old ≤ vec_capacity hashes.new }
{
    hashes.reserve_exact(size.limit.saturating_sub(hashes.len()))?;
    filled(*hashes.allocator(), old, hashes.as_slice(), size.count)
}

/// A number of groups, and the number of indices for which they suffice.
#[derive(Clone, Copy)]
pub(crate) struct Size {
    pub(crate) count: usize,
    pub(crate) limit: usize,
}

/// Returns the size of a table with this number of groups, or `None` if that is too large a number.
fn size_of(count: usize) -> Option<Size>
    ensures size { IfSome result IsSize }
    ensures count { IfSome result (λ size. size.count ≡ count) }
{
    let buckets = count.checked_mul(12)?;
    Some(Size {
        count,
        limit: buckets.min(count * 9 + 3),
    })
}

/// Returns the size to which a table with `count` groups grows. `None` if that is too large a
/// number.
pub(crate) fn wider_size(count: usize) -> Option<Size>
    ensures size { IfSome result IsSize }
    ensures wider { IfSome result (λ size. size.count ≡ wider_count count) }
{
    let four_times = count.checked_mul(4)?;
    let wider = four_times.min(16).max(2 * count).max(1);
    size_of(wider)
}

/// Returns the size of a table for `indices` indices: the number of its groups is the greater one
/// of `from` and 1, doubled until they suffice. `None` if there is no such number.
pub(crate) fn size_for(from: usize, indices: usize) -> Option<Size>
    ensures size { IfSome result IsSize }
    ensures enough { IfSome result (λ size. indices ≤ size.limit) }
    ensures fewest { IfSome result (λ size. IsFewest from indices size.count) }
{
    let mut count = from.max(1);
    for _ in 0..usize::BITS {
        let size = size_of(count)?;
        if size.limit >= indices {
            return Some(size);
        }
        count = count.checked_mul(2)?;
    }
    None
}
