//! An append-only map that threads share, and whose look-ups take no lock.
//!
//! Its entries are a list in the order of their insertion. Threads append to it under one state
//! word. Next to each buffer of the list there is a row of index entries, by which a key is found;
//! each index entry changes once. A thread calls the map through a [`MapHandle`], which has
//! observed a prefix of the one list that all threads share. An observed key is found by the index
//! entries alone. If none of them has the key, the length is read once more; a key that is then not
//! found is in none of the observed entries.
ghost use Rattle.std.specs.Prelude.{◌≡◌, []};
ghost use Rattle.elsa_lock_free.specs.SharedList.{mine};

use crate::entries::{Entries, EntriesHistory, EntriesPass};
use crate::handle::MapHandle;
use elsa_lock_free::lock_free::LockFreeFrozenVec;
use elsa_tables::{AnyEntries, EntryRule, Inserted};
use std::alloc::{AllocError, Allocator, Global};
use std::hash::{BuildHasher, BuildHasherDefault, FoldHasher, Hash};
use std::marker::Model;

/// What a thread has observed of a map, and the right to insert as its writer.
pub type MapPass<K, V, S, A, L = AnyEntries> = EntriesPass<K, V, S, A, L>;

/// The history of a map's list, as far as a view has observed it: it has no bytes.
pub type MapHistory<K, V, S, A, L = AnyEntries> = EntriesHistory<K, V, S, A, L>;

/// Returns an insertion's result with a copy of the value.
pub(crate) fn copied<V: Copy + Drop>(inserted: Inserted<&V, usize>) -> Inserted<V, usize>
    ensures { result ≡ record {
      value = inserted.entry.value.now;
      index = inserted.entry.index;
      is_new = inserted.entry.is_new;
    } }
{
    Inserted {
        value: *inserted.value,
        index: inserted.index,
        is_new: inserted.is_new,
    }
}

/// An append-only map that threads share: look-ups take no lock, and an insertion takes one that
/// spins.
///
/// A clause sees which map it is.
/// Each entry obeys the rule `L`, which is any by default: an insertion requires it of the key and
/// the value, and a look-up ensures it of the value that it returns.
///
/// It owns its keys and values: [`MapHandle::get_ref`] returns a reference that lives as long as
/// the map is borrowed, and each is dropped once, with the map.
/// [`into_tuple_vec`](Self::into_tuple_vec) moves all of them out. The calls that copy keys or
/// values are for `Copy` types.
#[derive(Drop)]
pub struct LockFreeFrozenMap<
    K: Drop + Hash,
    V: Drop,
    S: BuildHasher + Copy + Drop = BuildHasherDefault<FoldHasher>,
    A: Allocator + Copy = Global,
    L: EntryRule<K, V> = AnyEntries,
> {
    // The entries in the order of insertion. The newest buffer also has the index of their keys.
    pub(crate) list: Entries<K, V, S, A, L>,
    pub(crate) builder: S,
    pub(crate) alloc: A,
}

impl<
    K: Drop + Hash,
    V: Drop,
    S: BuildHasher + Copy + Drop,
    A: Allocator + Copy,
    L: EntryRule<K, V>,
> Model for LockFreeFrozenMap<K, V, S, A, L> {
    ghost use Rattle.elsa_lock_free.specs.SharedList.{Vector};

    ghost Value = { Vector };

    ghost view = { λ m. m.list };
}

impl<
    K: Drop + Hash,
    V: Drop,
    S: BuildHasher + Copy + Drop,
    A: Allocator + Copy,
    L: EntryRule<K, V>,
> LockFreeFrozenMap<K, V, S, A, L> {
    /// Makes an empty map whose entries obey the rule `L`, which allocates by `alloc` and hashes by
    /// the hashers of `builder`.
    ///
    /// # Errors
    /// Fails if an allocation fails.
    ///
    /// # Allocates
    /// The directory of the buffers.
    ///
    /// # Cost
    /// `O(1)`.
    pub fn with_rule(alloc: A, builder: S) -> Result<Self, AllocError> {
        Ok(LockFreeFrozenMap {
            list: LockFreeFrozenVec::with_rule(alloc)?,
            builder,
            alloc,
        })
    }

    /// Makes a view that has observed nothing and inserted nothing. It allocates nothing and takes
    /// no atomic step.
    pub fn pass(&self) -> MapPass<K, V, S, A, L>
        ensures same_vector { result.vector ≡ self.now }
        ensures nothing_seen { result.seen ≡ [] }
        ensures nothing_mine { mine result ≡ [] }
    {
        self.list.pass()
    }

    /// Makes a handle of a new view, which has observed nothing and inserted nothing. It allocates
    /// nothing and takes no atomic step.
    pub fn handle(&self) -> MapHandle<'_, K, V, S, A, L>
        ensures same_vector { result.vector ≡ self.now }
        ensures nothing_seen { result.seen ≡ [] }
        ensures nothing_mine { mine result ≡ [] }
    {
        MapHandle::of(self, self.pass())
    }
}

impl<K: Drop + Hash, V: Drop, S: BuildHasher + Copy + Drop, A: Allocator + Copy> LockFreeFrozenMap<
    K,
    V,
    S,
    A,
> {
    /// Makes an empty map, which allocates by `alloc` and hashes by the hashers of `builder`. It
    /// allocates and fails as [`with_rule`](Self::with_rule) does.
    ///
    /// If keys come from untrusted input, pass a `SeededState` of `elsa`.
    pub fn with_hasher(alloc: A, builder: S) -> Result<Self, AllocError> {
        LockFreeFrozenMap::with_rule(alloc, builder)
    }
}

impl<K: Drop + Hash, V: Drop, A: Allocator + Copy> LockFreeFrozenMap<
    K,
    V,
    BuildHasherDefault<FoldHasher>,
    A,
> {
    /// Makes an empty map with the default hasher, which is fast and has a fixed seed. It allocates
    /// and fails as [`with_hasher`](Self::with_hasher) does.
    pub fn new(alloc: A) -> Result<Self, AllocError> {
        LockFreeFrozenMap::with_hasher(alloc, BuildHasherDefault::new())
    }
}
