//! [`Hashed`]: the hash table that finds the keys of a map.
ghost use Rattle.std.specs.Prelude.{◌≡◌, ◌-◌, ◌<◌, ◌≤◌, ◌^◌, OnOk, Some, length, slice_get};
ghost use Rattle.elsa_buckets.specs.Placed.{key_hash, IsPlaced};
ghost use Rattle.elsa_buckets.specs.Table.{IsRoom, IsVacancy, most_indices, indices};

use crate::indices::{Indices, KeyList, Seeks};
use crate::map::Frozen;
use crate::map_hold::FrozenHold;
use elsa_buckets::query::{Missing, Query, search};
use elsa_buckets::table::IndexTable;
use elsa_tables::{AnyEntries, EntryRule};
use std::alloc::{AllocError, Allocator, Global};
use std::hash::{BuildHasher, BuildHasherDefault, FoldHasher, Hash};

/// A hash table that has the index of each key of a map under the key's hash: the table of a
/// [`FrozenMap`](crate::FrozenMap).
#[derive(Drop)]
pub struct Hashed<S: BuildHasher + Drop, A: Allocator + Copy> {
    pub(crate) table: IndexTable<A>,
    pub(crate) hash_builder: S,
}

/// The map that finds its keys by their hash. Its entries have an index
/// ([`get_full`](Frozen::get_full), [`get_index`](Frozen::get_index)).
///
/// Keys need `Eq` and `Hash`. The table takes 11 to 22 bytes an entry.
pub type FrozenMap<K, V, S = BuildHasherDefault<FoldHasher>, A = Global, R = AnyEntries> = Frozen<
    K,
    V,
    Hashed<S, A>,
    A,
    R,
>;

/// The [`FrozenMap`] by another name.
#[deprecated(since = "0.5.0", note = "use `FrozenMap`, which is the same type")]
pub type FrozenIndexMap<K, V, S = BuildHasherDefault<FoldHasher>, A = Global, R = AnyEntries> =
    FrozenMap<K, V, S, A, R>;

/// The lock guard of a [`FrozenMap`].
pub type MapHold<'m, K, V, S = BuildHasherDefault<FoldHasher>, A = Global, R = AnyEntries> =
    FrozenHold<'m, K, V, Hashed<S, A>, A, R>;

impl<K: Eq + Hash + Drop, V: Drop, A: Allocator + Copy> FrozenMap<
    K,
    V,
    BuildHasherDefault<FoldHasher>,
    A,
> {
    /// Makes an empty map that hashes by the default hasher.
    ///
    /// # Errors
    /// Fails if an allocation fails.
    ///
    /// # Allocates
    /// The directory of its buffers, and a block for what insertions change.
    pub fn new(alloc: A) -> Result<Self, AllocError> {
        FrozenMap::with_hasher(alloc, BuildHasherDefault::default())
    }

    /// Makes an empty map with room for `count` entries, as [`reserve`](Frozen::reserve) makes it.
    ///
    /// # Errors
    /// Fails if an allocation fails, or if `count` is above the greatest number of entries,
    /// `2^32 - 1`.
    ///
    /// # Allocates
    /// As [`new`](Self::new) and [`reserve`](Frozen::reserve) do.
    pub fn with_capacity(alloc: A, count: usize) -> Result<Self, AllocError>
        ensures limit { OnOk result (count ≤ 2 ^ 32 - 1) }
    {
        let map = FrozenMap::new(alloc)?;
        match map.reserve(count) {
            Ok(()) => Ok(map),
            Err(_) => Err(AllocError),
        }
    }
}

impl<K: Eq + Hash + Drop, V: Drop, S: BuildHasher + Drop, A: Allocator + Copy> FrozenMap<
    K,
    V,
    S,
    A,
> {
    /// Makes an empty map that hashes by `hash_builder`.
    ///
    /// # Errors
    /// Fails if an allocation fails.
    ///
    /// # Allocates
    /// The directory of its buffers, and a block for what insertions change.
    pub fn with_hasher(alloc: A, hash_builder: S) -> Result<Self, AllocError> {
        FrozenMap::with_rule(alloc, hash_builder)
    }
}

impl<
    K: Eq + Hash + Drop,
    V: Drop,
    S: BuildHasher + Drop,
    A: Allocator + Copy,
    R: EntryRule<K, V>,
> FrozenMap<K, V, S, A, R> {
    /// Makes an empty map that hashes by `hash_builder`, with the rule `R`.
    ///
    /// # Errors
    /// Fails if an allocation fails.
    ///
    /// # Allocates
    /// The directory of its buffers, and a block for what insertions change.
    pub fn with_rule(alloc: A, hash_builder: S) -> Result<Self, AllocError> {
        let table = IndexTable::new(alloc);
        Frozen::over(
            alloc,
            Hashed {
                table,
                hash_builder,
            },
        )
    }
}

impl<K: Eq + Hash, S: BuildHasher + Drop, A: Allocator + Copy> Indices<K> for Hashed<S, A> {
    ghost use Rattle.std.specs.Prelude.{◌≡◌, ◌<◌};
    ghost use Rattle.elsa_buckets.specs.Placed.{key_hash, IsPlaced};
    ghost use Rattle.elsa_buckets.specs.Table.{IsRoom, IsVacancy, most_indices, indices};

    ghost same = { K.eq };

    ghost equivalence = { K.Eq.laws };

    ghost is_for = { λ t keys. IsPlaced K.eq
        (λ k. key_hash S.BuildHasher S.Hasher.Hasher t.hash_builder (K.hash_input k)) t.table keys };

    type End = Missing;

    ghost ends = { λ t _ key m. IsVacancy t.table m.hash m.end × (m.hash
        ≡ key_hash S.BuildHasher S.Hasher.Hasher t.hash_builder (K.hash_input key)) };

    ghost has_room = { λ t _ key m. IsRoom t.table m.hash m.end × (m.hash
        ≡ key_hash S.BuildHasher S.Hasher.Hasher t.hash_builder (K.hash_input key))
        × (indices t.table < most_indices) };

    #[inline(always)]
    fn seek<L: KeyList<K>>(&self, keys: &L, key: &K) -> Result<usize, Missing> {
        let is_it = |index|
            requires { index < length (L.keys keys.now) }
            ensures { (k : K) → slice_get (L.keys keys.entry.now) index ≡ Some k →
                result ≡ K.eq key.entry.now k }
        { key.eq(keys.key_at(index)) };
        search(&self.table, &self.hash_builder, key, is_it)
    }

    #[inline(always)]
    fn reserve(&mut self, end: Missing) -> Result<Missing, AllocError> {
        let room = self.table.reserve(end.hash, end.end)?;
        Ok(Missing {
            hash: end.hash,
            end: room,
        })
    }

    fn reserve_more(&mut self, more: usize) -> Result<(), AllocError> {
        self.table.reserve_indices(more)
    }

    #[inline(always)]
    fn add(&mut self, end: Missing) {
        self.table.add(end.hash, end.end);
    }
}

impl<K: Eq + Hash, Q: Query<K>, S: BuildHasher + Drop, A: Allocator + Copy> Seeks<K, Hashed<S, A>>
    for Q {
    ghost finds = { Q.finds };

    #[inline(always)]
    fn seek<L: KeyList<K>>(self, table: &Hashed<S, A>, keys: &L) -> Option<usize> {
        let is_it = |index|
            requires { index < length (L.keys keys.now) }
            ensures { (k : K) → slice_get (L.keys keys.entry.now) index ≡ Some k →
                result ≡ Q.finds self k }
        { self.finds(keys.key_at(index)) };
        match search(&table.table, &table.hash_builder, self, is_it) {
            Ok(index) => Some(index),
            Err(_) => None,
        }
    }

    #[inline(always)]
    fn matches(&self, key: &K) -> bool {
        self.finds(key)
    }
}
