//! What all maps have in common, for code that is written over any of them.
ghost use Rattle.std.specs.Prelude.{◌≡◌, ◌↔◌, List, Bool, false, true, None, IfOk, IsTrue, OnErr, Ok, Some, length};
ghost use Rattle.std.specs.Cmp.{IsEquivalence};
ghost use Rattle.std.specs.List.{IsDistinct};
ghost use Rattle.std.specs.Map.{keys_of};
ghost use Rattle.elsa_maps.specs.FirstWins.{AddsNew, IsRefused, value_at};

use super::Frozen;
use elsa_tables::Table;
use elsa_vec::stable::StableDeref;
use std::alloc::{AllocError, Allocator};

/// A map in which the first value of a key stays, however it finds its keys.
///
/// Its calls have the meaning of those of [`Frozen`]. Code over `M: MapForm<R>` is proved once for
/// every map. `R` is the reference to the arena, such as `&'a Bump<P>`.
pub trait MapForm<R> {
    /// The keys.
    type Key: Drop;

    /// The values, which an insertion stores in the arena.
    type Value: StableDeref<R>;

    /// The inner map, from each key to the borrow of its value.
    type Base: Drop;

    // Whether two keys are equal.
    ghost same: { Self.Key → Self.Key → Bool };

    // The entries, in an order that the map chooses.
    ghost entries: { Self → List (Self.Key × Self.Value.Borrow) };

    // The entries of an inner map.
    ghost base_entries: { Self.Base → List (Self.Key × Self.Value.Borrow) };

    // How a new entry extends the entries.
    ghost extends: { List (Self.Key × Self.Value.Borrow) → Self.Key → Self.Value.Borrow →
        List (Self.Key × Self.Value.Borrow) → Type 0 };

    /// Inserts the value unless the map has an equal key. Returns the value that the key then has,
    /// and whether the key was new.
    ///
    /// # Errors
    /// Fails if the key is new and an allocation fails. The map is then unchanged.
    fn insert_new(
        &mut self,
        key: Self::Key,
        value: Self::Value,
    ) -> Result<(<Self::Value as StableDeref<R>>::Borrow, bool), AllocError>
        ensures present { (x : Self.Value.Borrow) → value_at same (entries self.old) key ≡ Some x →
            (result ≡ Ok (x, false)) × (entries self.new ≡ entries self.old) }
        ensures value_after { IfOk result (λ r. value_at same (entries self.new) key ≡ Some r.0) }
        ensures added { value_at same (entries self.old) key ≡ None →
            IfOk result (λ r. (r.1 ≡ true) × AddsNew same Self.Value.target Self.Value.shown
            (entries self.old) key value r.0 (entries self.new)) }
        ensures new_entry { value_at same (entries self.old) key ≡ None →
            IfOk result (λ r. extends (entries self.old) key r.0 (entries self.new)) }
        ensures refused { OnErr result (IsRefused same (entries self.old) key (entries self.new)) };

    /// Inserts the value unless the map has an equal key, and returns the value that the key then
    /// has.
    ///
    /// # Errors
    /// Fails if the key is new and an allocation fails. The map is then unchanged.
    fn insert(
        &mut self,
        key: Self::Key,
        value: Self::Value,
    ) -> Result<<Self::Value as StableDeref<R>>::Borrow, AllocError>
        ensures present { (x : Self.Value.Borrow) → value_at same (entries self.old) key ≡ Some x →
            (result ≡ Ok x) × (entries self.new ≡ entries self.old) }
        ensures value_after { IfOk result (λ b. value_at same (entries self.new) key ≡ Some b) }
        ensures added { value_at same (entries self.old) key ≡ None →
            IfOk result (λ b. AddsNew same Self.Value.target Self.Value.shown (entries self.old) key
            value b (entries self.new)) }
        ensures new_entry { value_at same (entries self.old) key ≡ None →
            IfOk result (λ b. extends (entries self.old) key b (entries self.new)) }
        ensures refused { OnErr result (IsRefused same (entries self.old) key (entries self.new)) };

    /// Returns the value of `key`, or `None` if the map has no such key.
    fn get(&self, key: &Self::Key) -> Option<<Self::Value as StableDeref<R>>::Borrow>
        ensures { result ≡ value_at same (entries self.now) key.now };

    /// Returns the number of entries.
    fn len(&self) -> usize
        ensures count { result ≡ length (entries self.now) }

        // What holds of every map: the equality of keys is an equivalence, and no two keys are
        // equal.
        ensures equivalence { IsEquivalence same }
        ensures distinct { IsDistinct same (keys_of (entries self.now)) };

    /// Returns whether the map has no entry.
    fn is_empty(&self) -> bool
        ensures { IsTrue result ↔ (length (entries self.now) ≡ 0) };

    /// Replaces the content by that of `base`, and drops the earlier inner map.
    fn rebase(&mut self, base: Self::Base)
        ensures { entries self.new ≡ base_entries base };
}

impl<R: Copy, K: Drop, V, T, A: Allocator + Copy> MapForm<R> for Frozen<R, K, V, T, A>
where
    V: StableDeref<R>,
    T: Table<K, V::Borrow> + Drop,
{
    type Key = K;

    type Value = V;

    type Base = T;

    ghost same = { T.same };

    ghost entries = { λ m. m };

    ghost base_entries = { T.entries };

    ghost extends = { T.extends };

    fn insert_new(&mut self, key: K, value: V) -> Result<(V::Borrow, bool), AllocError> {
        Frozen::insert_new(self, key, value)
    }

    fn insert(&mut self, key: K, value: V) -> Result<V::Borrow, AllocError> {
        Frozen::insert(self, key, value)
    }

    fn get(&self, key: &K) -> Option<V::Borrow> {
        Frozen::get(self, key)
    }

    fn len(&self) -> usize {
        Frozen::len(self)
    }

    fn is_empty(&self) -> bool {
        Frozen::is_empty(self)
    }

    fn rebase(&mut self, base: T) {
        Frozen::rebase(self, base)
    }
}
