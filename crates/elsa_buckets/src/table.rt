//! [`IndexTable`]: from hashes to indices, by open addressing.
//!
//! Contracts see a table as its groups of buckets, and the list of the hashes of its indices. The
//! definition `Has` states that it has an index under a hash (`specs/Table.antt`).
ghost use Rattle.std.specs.Prelude.{◌≡◌, ◌↔◌, ◌+◌, ◌<◌, ◌≤◌, ◌⊎◌, ℕ, [], true, false, length, IfOk, IfErr, IsTrue, OnOk, OnErr};
ghost use Rattle.elsa_buckets.specs.Groups.{load_limit, wider_count, Indexes, PassesFull};
ghost use Rattle.elsa_buckets.specs.Table.{most_indices, indices, groups, hashes, Has, HasRoom, HasSame, IsRoom, IsVacancy, AddsIndex, Widens};

use crate::groups::{
    Bucket, Group, first_of, rest_of, size_for, tag_of, vacant, walk, widened, wider_size,
};
use std::alloc::{AllocError, Allocator};
use std::marker::Model;

/// The greatest number of indices, of which a bucket has the 32 bits.
const MOST: usize = 0xFFFF_FFFF;

/// The bucket at which a search ended that found nothing, or in which [`IndexTable::reserve`] made
/// room. It is valid until the table changes.
#[derive(Clone, Copy)]
pub struct Vacancy {
    bucket: Bucket,
}

/// A hash table from hashes to indices. The first index that is added is 0, the next one is 1, and
/// so on. Each is stored under the hash with which it was added.
///
/// Several indices may have the same hash. `alloc` allocates the buckets, in groups of twelve that
/// take 64 bytes, and a list of the hashes, 4 bytes each. The number of groups is a power of two,
/// and on average at most nine buckets of a group are taken. So an index takes 11 to 22 bytes in a
/// table of more than 147 indices, and up to 41 bytes in one of 13 to 147. While the number of
/// groups doubles, the old groups still exist, and an index takes 30 bytes.
#[derive(Drop)]
pub struct IndexTable<A: Allocator> {
    // The buckets. A bucket is found by its group's number, and its number in the group.
    groups: Vec<Group, A>,
    // The hash of each index, by which it is entered again after growth. It has capacity for
    // `limit` hashes.
    hashes: Vec<u32, A>,
    // The number of indices for which these groups suffice.
    limit: usize,
}

impl<A: Allocator> Model for IndexTable<A> {
    ghost use Rattle.std.specs.Prelude.{◌≡◌, ◌≤◌, List, ℕ, length, vec_capacity};
    ghost use Rattle.elsa_buckets.specs.declared.groups.Group.{Group};

    ghost Value = { List Group × List ℕ };

    ghost view = { λ t. (t.groups.items, t.hashes.items) };

    ghost use Rattle.elsa_buckets.specs.Groups.{load_limit, Indexes};
    ghost use Rattle.elsa_buckets.specs.Table.{IsCount};

    // The groups have the index of each hash. There are at most `limit` indices, for which the
    // groups suffice and the list of hashes has capacity.
    ghost invariant = { λ t. Indexes t.groups.items t.hashes.items
        × IsCount (length t.hashes.items) × (t.limit ≡ load_limit (length t.groups.items))
        × length t.hashes.items ≤ t.limit × t.limit ≤ vec_capacity t.hashes };
}

impl<A: Allocator + Copy> IndexTable<A> {
    /// Makes an empty table. It allocates nothing.
    pub fn new(alloc: A) -> Self
        ensures indices { indices result ≡ 0 }
        ensures empty { (hash index : ℕ) → ¬ Has result hash index }
    {
        IndexTable {
            groups: Vec::new(alloc),
            hashes: Vec::new(alloc),
            limit: 0,
        }
    }

    /// Returns the index that `is_it` accepts, or `Err` with the bucket into which one with this
    /// hash would be added.
    ///
    /// `is_it` is called for indices whose hash has the same upper 8 bits, among them each index
    /// with this hash, until it returns `true`. The search allocates nothing.
    ///
    /// # Cost
    /// `O(1)` if the hashes are well distributed.
    #[inline(always)]
    pub fn search<F: Fn(usize) -> bool>(&self, hash: u32, is_it: F) -> Result<usize, Vacancy>
        requires { (index : ℕ) → index < indices self.now → F.pre is_it index }

        // `is_it` accepted an index; or it rejected each index with the hash, and an index can be
        // added.
        ensures found { IfOk result (λ p. (p < indices self.now) × F.post is_it p true) }
        ensures absent { OnErr result ((p : ℕ) → Has self.now hash p → F.post is_it p false) }
        ensures vacancy { IfErr result (IsVacancy self.now hash) }

        // There is a vacancy, or each group that a search for the hash reaches is full.
        ensures room { IfErr result (λ v. v.bucket.group < groups self.now
            ⊎ PassesFull self.now.0 hash (groups self.now)) }
    {
        let groups = self.groups.as_slice();
        let count = groups.len();
        let tag = tag_of(hash);
        for step in 0..count {
            let at = walk(count, hash, step);
            let group = &groups[at];
            let mut same = group.with_tag(tag);
            while same != 0 {
                let index = group.number(first_of(same));
                if is_it(index) {
                    return Ok(index);
                }
                same = rest_of(same);
            }
            let free = group.with_tag(0);
            if free != 0 {
                let lane = first_of(free);
                return Err(Vacancy {
                    bucket: Bucket { group: at, lane },
                });
            }
        }
        Err(Vacancy {
            bucket: Bucket {
                group: count,
                lane: 0,
            },
        })
    }

    /// Returns an index that may have this hash, read from one group, or any other number: nothing
    /// is proved about it. It allocates nothing.
    #[inline(always)]
    pub fn guess(&self, hash: u32) -> usize {
        let first = hash as usize & self.groups.len().wrapping_sub(1);
        let Some(group) = self.groups.get(first) else {
            return usize::MAX;
        };
        let lane = group.first_with(tag_of(hash));
        if lane < 12 {
            group.number(lane)
        } else {
            usize::MAX
        }
    }

    /// Returns whether the table has the greatest number of indices, 2^32 - 1. It allocates
    /// nothing.
    ///
    /// # Cost
    /// `O(1)`.
    #[inline]
    pub fn is_full(&self) -> bool
        ensures { IsTrue result ↔ (indices self.now ≡ most_indices) }
    {
        self.hashes.len() >= MOST
    }

    /// Makes room for another index under the hash, and returns its bucket, for
    /// [`IndexTable::add`].
    ///
    /// `vacancy` is the result of a search for this hash, after which the table was not changed. If
    /// the groups suffice for no further index, or if the search found no free bucket, their number
    /// grows, and all indices are entered again by their hashes.
    ///
    /// # Errors
    /// Fails if an allocation fails, or if the table is full ([`IndexTable::is_full`]). The table
    /// is then unchanged.
    ///
    /// # Cost
    /// `O(1)`, amortized over all additions.
    #[inline(always)]
    pub fn reserve(&mut self, hash: u32, vacancy: Vacancy) -> Result<Vacancy, AllocError>
        requires { IsVacancy self.old hash vacancy }

        // There is room for an index under the hash, and no index changes. A call that fails
        // changes nothing.
        ensures room { IfOk result (IsRoom self.new hash) }
        ensures below { OnOk result (indices self.new < most_indices) }
        ensures indices { indices self.new ≡ indices self.old }
        ensures same { HasSame self.old self.new }
        ensures grows { OnOk result (Widens self.old vacancy self.new) }
        ensures refused { OnErr result (self.new ≡ self.old) }

        // It fails only if the table is full, if its groups suffice for no further index, or if
        // there was no vacancy.
        ensures cause { OnErr result ((indices self.old ≡ most_indices)
            ⊎ load_limit (groups self.old) ≤ indices self.old
            ⊎ groups self.old ≤ vacancy.bucket.group) }
    {
        let count = self.hashes.len();
        if count >= MOST {
            return Err(AllocError);
        }
        if count < self.limit && vacancy.bucket.group < self.groups.len() {
            return Ok(vacancy);
        }
        self.grow(hash)
    }

    /// Makes more groups, and returns the bucket for an index under the hash. It is not inlined, so
    /// that a caller's own loop stays short.
    #[cold]
    #[inline(never)]
    fn grow(&mut self, hash: u32) -> Result<Vacancy, AllocError>
        ensures room { IfOk result (IsRoom self.new hash) }
        ensures indices { indices self.new ≡ indices self.old }
        ensures same { HasSame self.old self.new }
        ensures doubles { OnOk result (groups self.new ≡ wider_count (groups self.old)) }
        ensures refused { OnErr result (self.new ≡ self.old) }
    {
        let Some(next) = wider_size(self.groups.len()) else {
            return Err(AllocError);
        };
        let wider = widened(self.groups.as_slice(), &mut self.hashes, next)?;
        let Some(bucket) = vacant(wider.as_slice(), hash) else {
            return Err(AllocError);
        };
        self.limit = next.limit;
        self.groups = wider;
        Ok(Vacancy { bucket })
    }

    /// Returns the number of indices for which the groups suffice. It allocates nothing.
    ///
    /// # Cost
    /// `O(1)`.
    #[inline]
    pub fn capacity(&self) -> usize
        ensures capacity { result ≡ load_limit (groups self.now) }
        ensures indices { indices self.now ≤ result }
    {
        self.limit
    }

    /// Reserves room for `more` additional indices: that many additions allocate nothing.
    ///
    /// If the groups don't suffice, their number doubles as often as necessary, and all indices are
    /// entered again by their hashes, once.
    ///
    /// # Errors
    /// Fails if an allocation fails, or if the table would have more than 2^32 - 1 indices. The
    /// table is then unchanged.
    ///
    /// # Cost
    /// `O(n)` in the number of groups if that grows, otherwise `O(1)`.
    pub fn reserve_indices(&mut self, more: usize) -> Result<(), AllocError>
        // The groups suffice for `more` additional indices, their number is the smallest possible,
        // and no index changes. A call that fails changes nothing.
        ensures room { OnOk result (HasRoom self.old more self.new) }
        ensures indices { indices self.new ≡ indices self.old }
        ensures same { HasSame self.old self.new }
        ensures refused { OnErr result (self.new ≡ self.old) }
        ensures cause { OnErr result (load_limit (groups self.old) < indices self.old + more) }
    {
        let Some(wanted) = self.hashes.len().checked_add(more) else {
            return Err(AllocError);
        };
        if wanted <= self.limit {
            return Ok(());
        }
        if wanted > MOST {
            return Err(AllocError);
        }
        let Some(size) = size_for(self.groups.len(), wanted) else {
            return Err(AllocError);
        };
        self.groups = widened(self.groups.as_slice(), &mut self.hashes, size)?;
        self.limit = size.limit;
        Ok(())
    }

    /// Makes a copy of the table: its buckets are copied, and no index is hashed.
    ///
    /// # Errors
    /// Fails if an allocation fails.
    ///
    /// # Cost
    /// `O(n)` in the number of groups.
    pub fn clone(&self) -> Result<Self, AllocError>
        ensures { IfOk result (λ copy. copy ≡ self.now) }
    {
        let alloc = *self.groups.allocator();
        let mut groups = Vec::with_capacity(alloc, self.groups.len())?;
        groups.extend_from_slice(self.groups.as_slice())?;
        let mut hashes = Vec::with_capacity(alloc, self.limit)?;
        hashes.extend_from_slice(self.hashes.as_slice())?;
        Ok(IndexTable {
            groups,
            hashes,
            limit: self.limit,
        })
    }

    /// Adds the next index under the hash, and returns it: the number of indices before the call.
    /// It allocates nothing.
    ///
    /// `room` is the result of [`IndexTable::reserve`] for this hash, after which the table was not
    /// changed.
    ///
    /// # Cost
    /// `O(1)`.
    #[inline(always)]
    pub fn add(&mut self, hash: u32, room: Vacancy) -> usize
        requires room { IsRoom self.old hash room }
        requires below { indices self.old < most_indices }

        // The table has the next index under the hash, and the earlier ones as before.
        ensures index { result ≡ indices self.old }
        ensures indices { indices self.new ≡ indices self.old + 1 }
        ensures adds { AddsIndex self.old hash result self.new }

        // The number of groups is unchanged, and they suffice for the indices.
        ensures groups { groups self.new ≡ groups self.old }
        ensures load { indices self.new ≤ load_limit (groups self.new) }
    {
        let index = self.hashes.len();
        self.groups[room.bucket.group].fill(room.bucket.lane, hash, index as u32);
        self.hashes.push_reserved(hash);
        index
    }
}
