//! [`FrozenIndexSet`]: a map whose values are `()`.
ghost use Rattle.std.specs.Prelude.{◌≡◌, ◌⊎◌, ◌-◌, ◌<◌, ◌≤◌, ◌^◌, true, length, map, IfErr, IfOk, IfSome, OnOk};
ghost use Rattle.std.specs.Iterator.{IsFinite};
ghost use mathlib.Core.List.{IsPrefix};
ghost use Rattle.elsa_arena.specs.Extended.{TakesAll};
ghost use Rattle.elsa_arena.specs.Faults.{GivesBack};
ghost use Rattle.elsa_cell.specs.Entries.{key_of};

use crate::map::{Entry, FrozenMap};
use crate::map_state::{MOST, SeenEntries};
use elsa_arena::fault::CellFault;
use elsa_buckets::query::Query;
use elsa_tables::Inserted;
use std::alloc::{AllocError, Allocator, Global};
use std::hash::{BuildHasher, BuildHasherDefault, FoldHasher, Hash};
use std::marker::Model;
use std::ops::Deref;

/// A set that grows through `&self`, owns its items, and numbers them in the order of their
/// insertion: references to them are valid as long as the set. Contracts see the names of its
/// buffers, which no other set has.
///
/// It is a [`FrozenMap`] from items to `()`, to which it dereferences: what was observed of the map
/// ([`ObservedEntries`](crate::ObservedEntries)) states which items there are, and its guard all of
/// them. The calls on the set itself are short forms, which state less. Reads never fail.
#[derive(Drop)]
pub struct FrozenIndexSet<
    T: Eq + Hash + Drop,
    S: BuildHasher + Drop = BuildHasherDefault<FoldHasher>,
    A: Allocator + Copy = Global,
> {
    map: FrozenMap<T, (), S, A>,
}

/// The [`FrozenIndexSet`] by another name.
#[deprecated(since = "0.5.0", note = "use `FrozenIndexSet`, which is the same type")]
pub type FrozenSet<T, S = BuildHasherDefault<FoldHasher>, A = Global> = FrozenIndexSet<T, S, A>;

impl<T: Eq + Hash + Drop, S: BuildHasher + Drop, A: Allocator + Copy> Model
    for FrozenIndexSet<T, S, A> {
    ghost use Rattle.std.specs.Prelude.{ℕ, List};

    ghost Value = { List ℕ };

    ghost view = { λ s. s.map };
}

impl<T: Eq + Hash + Drop, S: BuildHasher + Drop, A: Allocator + Copy> Deref
    for FrozenIndexSet<T, S, A> {
    ghost use Rattle.std.specs.Prelude.{◌≡◌};

    type Target = FrozenMap<T, (), S, A>;

    ghost deref_gives = { λ s m. m ≡ s };

    fn deref(&self) -> &FrozenMap<T, (), S, A> {
        &self.map
    }
}

impl<T: Eq + Hash + Drop, A: Allocator + Copy> FrozenIndexSet<
    T,
    BuildHasherDefault<FoldHasher>,
    A,
> {
    /// Makes an empty set that hashes by the default hasher.
    ///
    /// # Errors
    /// Fails if an allocation fails.
    ///
    /// # Allocates
    /// The directory of its buffers, and a block for what insertions change.
    pub fn new(alloc: A) -> Result<Self, AllocError> {
        FrozenIndexSet::with_hasher(alloc, BuildHasherDefault::default())
    }

    /// Makes an empty set with room for `count` items, as [`reserve`](crate::Frozen::reserve) makes
    /// it.
    ///
    /// # Errors
    /// Fails if an allocation fails, or if `count` is above the greatest number of items,
    /// `2^32 - 1`.
    ///
    /// # Allocates
    /// As [`new`](Self::new) and [`reserve`](crate::Frozen::reserve) do.
    pub fn with_capacity(alloc: A, count: usize) -> Result<Self, AllocError>
        ensures limit { OnOk result (count ≤ 2 ^ 32 - 1) }
    {
        Ok(FrozenIndexSet {
            map: FrozenMap::with_capacity(alloc, count)?,
        })
    }
}

impl<T: Eq + Hash + Drop, S: BuildHasher + Drop, A: Allocator + Copy> FrozenIndexSet<T, S, A> {
    /// Makes an empty set that hashes by `hash_builder`.
    ///
    /// # Errors
    /// Fails if an allocation fails.
    ///
    /// # Allocates
    /// The directory of its buffers, and a block for what insertions change.
    pub fn with_hasher(alloc: A, hash_builder: S) -> Result<Self, AllocError> {
        Ok(FrozenIndexSet {
            map: FrozenMap::with_hasher(alloc, hash_builder)?,
        })
    }

    /// Inserts an item unless the set has an equal one, and returns a reference to the item that
    /// the set then has: [`insert_new`](Self::insert_new) with the item alone.
    ///
    /// # Errors
    /// Fails with [`CellFault::Memory`] if an allocation fails, with [`CellFault::Full`] if the set
    /// has the greatest number of items, `2^32 - 1`, and with [`CellFault::InUse`] if the call is
    /// made inside another call of the set, or while a [`MapHold`](crate::MapHold) of it exists.
    /// Each contains `item`.
    ///
    /// # Allocates
    /// As [`FrozenMap::insert`](crate::FrozenMap::insert) does.
    ///
    /// # Cost
    /// One hash and one search.
    pub fn insert(&self, item: T) -> Result<&T, CellFault<T>>
        ensures equal { IfOk result (λ r. T.eq item r.now ≡ true) }
        ensures given_back { IfErr result (GivesBack item) }
    {
        let inserted = self.insert_new(item)?;
        Ok(inserted.value)
    }

    /// Inserts an item unless the set has an equal one, and returns its index in the order of
    /// insertion and a reference to it: [`insert_new`](Self::insert_new) without the flag.
    ///
    /// # Errors
    /// Fails as [`insert`](Self::insert) does, with a [`CellFault`] that contains `item`.
    ///
    /// # Allocates
    /// As [`FrozenMap::insert`](crate::FrozenMap::insert) does.
    ///
    /// # Cost
    /// One hash and one search.
    pub fn insert_full(&self, item: T) -> Result<(usize, &T), CellFault<T>>
        ensures equal { IfOk result (λ r. T.eq item r.1.now ≡ true) }
        ensures limit { IfOk result (λ r. r.0 < 2 ^ 32 - 1) }
        ensures given_back { IfErr result (GivesBack item) }
    {
        let inserted = self.insert_new(item)?;
        Ok((inserted.index, inserted.value))
    }

    /// Inserts an item unless the set has an equal one. Returns a reference to the item that the
    /// set then has, its index in the order of insertion, and whether it is new. A present item
    /// stays, and `item` is dropped.
    ///
    /// # Errors
    /// Fails as [`insert`](Self::insert) does, with a [`CellFault`] that contains `item`.
    ///
    /// # Allocates
    /// As [`FrozenMap::insert`](crate::FrozenMap::insert) does.
    ///
    /// # Cost
    /// One hash and one search.
    pub fn insert_new(&self, item: T) -> Result<Inserted<&T, usize>, CellFault<T>>
        ensures equal { IfOk result (λ r. T.eq item r.value.now ≡ true) }
        ensures own_value { IfOk result (λ r. r.is_new ≡ true → r.value.now ≡ item) }
        ensures limit { IfOk result (λ r. r.index < 2 ^ 32 - 1) }
        ensures given_back { IfErr result (GivesBack item) }
    {
        let Ok(mut hold) = self.map.hold() else {
            return Err(CellFault::InUse(item));
        };
        match hold.insert_entry(item, ()) {
            Ok(inserted) => Ok(Inserted {
                value: inserted.value.key(),
                index: inserted.index,
                is_new: inserted.is_new,
            }),
            Err(entry) => {
                let Entry {
                    key: item,
                    value: _,
                } = entry;
                Err(if hold.len() < MOST {
                    CellFault::Memory(item)
                } else {
                    CellFault::Full(item)
                })
            }
        }
    }

    /// Inserts the items in their order, each as [`insert_new`](Self::insert_new) does: the first
    /// of equal items stays. The set is locked while the iterator runs.
    ///
    /// # Errors
    /// Fails with [`CellFault::InUse`] and `None` if the call is made inside another call of the
    /// set, or while a [`MapHold`](crate::MapHold) of it exists; no item is then taken. Otherwise
    /// fails as [`insert`](Self::insert) does, with the item that was not inserted; the items
    /// before it are inserted.
    ///
    /// # Allocates
    /// As [`FrozenMap::insert`](crate::FrozenMap::insert) does.
    ///
    /// # Cost
    /// One hash and one search for each item. A look-up that the iterator makes in this set
    /// compares one item after the other: `O(n)`.
    pub fn extend<I: IntoIterator<Item = T> + Drop>(
        &self,
        items: I,
    ) -> Result<(), CellFault<Option<T>>>
        requires ends { (s : I.IntoIter) → I.into_iter_gives items s →
            I.IntoIter.can_next s × IsFinite (I.IntoIter.remaining s) }
        ensures taken { TakesAll I.into_iter_gives I.IntoIter.next_gives (λ x. x) items result }
    {
        let Ok(mut hold) = self.map.hold() else {
            return Err(CellFault::InUse(None));
        };
        for item in items {
            if let Err(entry) = hold.insert_entry(item, ()) {
                let Entry {
                    key: item,
                    value: _,
                } = entry;
                return Err(if hold.len() < MOST {
                    CellFault::Memory(Some(item))
                } else {
                    CellFault::Full(Some(item))
                });
            }
        }
        Ok(())
    }

    /// Returns a reference to the item that `query` finds, or `None` if the set has no such item.
    /// It allocates nothing.
    ///
    /// # Cost
    /// One hash and one search. Inside another call of the set, or while a guard exists, one
    /// comparison for each item: `O(n)`.
    pub fn get<Q: Query<T>>(&self, query: Q) -> Option<&T>
        ensures found_key { IfSome result (λ r. Q.finds query r.now ≡ true) }
    {
        let (_, item, _) = self.map.get_full(query)?;
        Some(item)
    }

    /// Returns whether the set has an item that `query` finds. It allocates nothing.
    ///
    /// # Cost
    /// As [`get`](Self::get).
    pub fn contains<Q: Query<T>>(&self, query: Q) -> bool
        ensures found_key { result ≡ true → (item : T) × (Q.finds query item ≡ true) }
    {
        self.map.contains_key(query)
    }

    /// Returns the index of the item that `query` finds and a reference to it, or `None` if the set
    /// has no such item. It allocates nothing.
    ///
    /// # Cost
    /// As [`get`](Self::get).
    pub fn get_full<Q: Query<T>>(&self, query: Q) -> Option<(usize, &T)>
        ensures found_key { IfSome result (λ r. Q.finds query r.1.now ≡ true) }
        ensures limit { IfSome result (λ r. r.0 < 2 ^ 32 - 1) }
    {
        let (index, item, _) = self.map.get_full(query)?;
        Some((index, item))
    }

    /// Returns a reference to the item at an index, or `None` if the index is at or above the
    /// number of items. It allocates nothing.
    ///
    /// # Cost
    /// `O(1)`.
    pub fn get_index(&self, index: usize) -> Option<&T>
        ensures limit { IfSome result (λ _. index < 2 ^ 32 - 1) }
    {
        let (item, _) = self.map.get_index(index)?;
        Some(item)
    }

    /// Moves all items into a vector of `alloc`, in the order of insertion, and drops none. `seen`
    /// is evidence of items that the set has, each as the key of an entry
    /// ([`Observed::evidence`]): the vector begins with them.
    ///
    /// # Errors
    /// Fails with [`CellFault::Memory`] if an allocation fails, and with [`CellFault::InUse`] if a
    /// guard of the set was forgotten. Both contain the set.
    ///
    /// # Allocates
    /// A block of `alloc` for the items.
    ///
    /// # Cost
    /// `O(n)`: one move of each item.
    pub fn into_vec<Z: Allocator>(
        self,
        alloc: Z,
        seen: &SeenEntries<T, (), A>,
    ) -> Result<Vec<T, Z>, CellFault<Self>>
        requires same_vector { seen.now.vector ≡ self }
        ensures items { IfOk result (λ all. IsPrefix (map key_of seen.now.seen) all.items) }
        ensures given_back { IfErr result (λ f. (f ≡ CellFault.Memory self)
            ⊎ (f ≡ CellFault.InUse self)) }
    {
        let Self { map } = self;
        match map.into_key_vec(alloc, seen) {
            Ok(items) => Ok(items),
            Err(CellFault::Memory(map)) => Err(CellFault::Memory(FrozenIndexSet { map })),
            Err(CellFault::InUse(map)) => Err(CellFault::InUse(FrozenIndexSet { map })),
            Err(CellFault::Full(map)) => Err(CellFault::Full(FrozenIndexSet { map })),
        }
    }
}
