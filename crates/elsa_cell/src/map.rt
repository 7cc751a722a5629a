//! [`Frozen`]: a map that grows through `&self`, over any table that finds its keys.
ghost use Rattle.std.specs.Prelude.{◌≡◌, ◌⊎◌, ◌-◌, ◌<◌, ◌≤◌, ◌^◌, [], Bool, List, true, Err, Ok, Some, length, map, position, slice_get, IfErr, IfOk, IfSome, OnOk};
ghost use Rattle.std.specs.Fn.{FnOnceReturnsAt, FnOnceTakesAt};
ghost use Rattle.std.specs.Iterator.{IsFinite};
ghost use Rattle.std.specs.Map.{lookup};
ghost use Rattle.std.specs.Option.{option_map};
ghost use mathlib.Core.List.{IsPrefix};
ghost use Rattle.elsa_arena.specs.Extended.{TakesAll};
ghost use Rattle.elsa_arena.specs.Faults.{GivesBack};
ghost use Rattle.elsa_arena.specs.declared.fault.Fault.{Fault};
ghost use Rattle.elsa_cell.specs.Entries.{HoldsAtOrMade, HoldsEach, IsMapOf, key_of, pairs_of};
ghost use Rattle.elsa_cell.specs.Extended.{YieldsHolding};
ghost use Rattle.elsa_tables.specs.Rules.{HoldsAt};
ghost use Rattle.elsa_cell.specs.declared.map.Entry.{Entry};

use crate::fault::TryFault;
pub use crate::hashed::{FrozenMap, MapHold};
use crate::indices::{Indices, Seeks};
use crate::map_hold::FrozenHold;
use crate::map_state::{
    Keys, MOST, MapState, ObservedEntries, OfMap, Pairs, Parked, SeenEntries, park,
};
pub use crate::ordered::{BTreeHold, FrozenBTreeMap};
use crate::scan::scan;
use elsa_arena::fault::{CellFault, Fault, InUse};
use elsa_arena::items::Items;
use elsa_arena::shared::Shared;
use elsa_arena::state::State;
use elsa_arena::views::is_behind;
use elsa_tables::{AnyEntries, EntryRule, Inserted};
use std::alloc::{AllocError, Allocator, Global};
use std::marker::Model;
use std::ops::Deref;

/// An entry, as it is observed: its key and its value.
#[derive(Drop)]
pub struct Entry<K, V> {
    pub(crate) key: K,
    pub(crate) value: V,
}

impl<K, V> Entry<K, V> {
    /// Returns the key by reference.
    #[inline(always)]
    pub fn key(&self) -> &K
        ensures { result.now ≡ key_of self.now }
    {
        &self.key
    }

    /// Returns the value by reference.
    #[inline(always)]
    pub fn value(&self) -> &V
        ensures { result.now ≡ self.now.value }
    {
        &self.value
    }
}

/// Returns references to the key and the value of the observed entry at an index.
#[tactic(auto, using(crate::proofs::EntryLemmas::pair_at, crate::proofs::EntryLemmas::no_pair_at))]
pub(crate) fn pair_at<'m, K, V, A: Allocator + Copy, R: EntryRule<K, V>>(
    entries: &ObservedEntries<'m, K, V, A, R>,
    index: usize,
) -> Option<(&'m K, &'m V)>
    ensures entry { option_map (λ r. (r.0.now, r.1.now)) result
        ≡ slice_get (pairs_of entries.now.seen) index }
    ensures holds { IfSome result (λ r. R.holds r.0.now r.1.now) }
{
    let entry = entries.get(index)?;
    Some((entry.key(), entry.value()))
}

/// Returns the index of the observed entry whose key `query` finds, and a reference to it, by a
/// walk over all: for a read inside another call that has the table.
#[cold]
#[tactic(auto, using(crate::proofs::EntryLemmas::passes_at, crate::proofs::EntryLemmas::within_at, crate::proofs::EntryLemmas::absent_at, crate::proofs::ScanLemmas::length_keys))]
pub(crate) fn find_beside<
    'm,
    K,
    V,
    T: Indices<K>,
    Q: Seeks<K, T>,
    A: Allocator + Copy,
    R: EntryRule<K, V>,
>(entries: &ObservedEntries<'m, K, V, A, R>, query: Q) -> Option<(usize, &'m Entry<K, V>)>
    // Index, entry and value are those of the first key that the query finds.
    ensures index { option_map (λ f. f.0) result
        ≡ position (Q.finds query) (map key_of entries.now.seen) }
    ensures entry { IfSome result (λ f. slice_get entries.now.seen f.0 ≡ Some f.1.now) }
    ensures value { option_map (λ f. f.1.now.value) result
        ≡ lookup (Q.finds query) (pairs_of entries.now.seen) }
    ensures found_key { IfSome result (λ f. (Q.finds query (key_of f.1.now) ≡ true)
        × R.holds (key_of f.1.now) f.1.now.value) }
    ensures limit { IfSome result (λ f. f.0 < 2 ^ 32 - 1) }
{
    let count = entries.len();
    let index = scan::<K, T, Q, ObservedEntries<'m, K, V, A, R>>(entries, count, query)?;
    Some((index, entries.item(index)))
}

/// A map that grows through `&self`, owns its keys and values, and keeps the first value of a key:
/// references to its values are valid as long as the map. Contracts see the names of its buffers,
/// which no other map has.
///
/// Its table `T` finds the keys: [`FrozenMap`](crate::FrozenMap) is its name over a hash table, and
/// [`FrozenBTreeMap`](crate::FrozenBTreeMap) over an ordered one.
///
/// `R` is a rule over keys and values ([`EntryRule`]): an insertion requires it of its key and its
/// value, and what a look-up returns obeys it. A type that names none allows any value.
///
/// Its reads by index are those of [`Items`], to which it dereferences. What was observed of it
/// ([`ObservedEntries`]) states which entries there are. A call whose name ends in `_as` states
/// what it finds there, or what it inserts. Reads never fail.
///
/// Its entries keep the order of their insertion, and each has an index. It has at most `2^32 - 1`
/// entries. It drops each entry once, in that order: its key, then its value.
pub struct Frozen<
    K: Drop,
    V,
    T: Indices<K> + Drop,
    A: Allocator + Copy = Global,
    R: EntryRule<K, V> = AnyEntries,
> {
    pub(crate) entries: Items<Entry<K, V>, A, OfMap<R>>,
    pub(crate) cell: Shared<Parked<K, V, T, A, R>>,
}

impl<K: Drop, V, T: Indices<K> + Drop, A: Allocator + Copy, R: EntryRule<K, V>> Model
    for Frozen<K, V, T, A, R> {
    ghost use Rattle.std.specs.Prelude.{◌≡◌, ℕ, List};

    ghost Value = { List ℕ };

    ghost view = { λ m. m.entries };

    // The state is of this map's entries.
    ghost invariant = { λ m. m.cell.numbers ≡ m.entries };
}

impl<K: Drop, V, T: Indices<K> + Drop, A: Allocator + Copy, R: EntryRule<K, V>> Deref
    for Frozen<K, V, T, A, R> {
    ghost use Rattle.std.specs.Prelude.{◌≡◌};

    type Target = Items<Entry<K, V>, A, OfMap<R>>;

    ghost deref_gives = { λ m g. g ≡ m };

    #[inline(always)]
    fn deref(&self) -> &Items<Entry<K, V>, A, OfMap<R>> {
        &self.entries
    }
}

impl<K: Drop, V: Drop, T: Indices<K> + Drop, A: Allocator + Copy, R: EntryRule<K, V>> Drop
    for Frozen<K, V, T, A, R> {
    fn drop(self) {
        let Self { entries, cell } = self;
        let slots = Items::into_slots(entries);
        match cell.into_state() {
            Some(Parked { state, rule: _ }) => {
                let MapState { list, table } = Box::into_inner(state);
                list.end(slots);
                drop(table);
            }
            None => drop(slots),
        }
    }
}

impl<K: Drop, V: Drop, T: Indices<K> + Drop, A: Allocator + Copy, R: EntryRule<K, V>> Frozen<
    K,
    V,
    T,
    A,
    R,
> {
    /// Makes an empty map whose keys an empty table finds.
    ///
    /// # Errors
    /// Fails if an allocation fails.
    pub(crate) fn over(alloc: A, table: T) -> Result<Self, AllocError>
        requires { T.is_for table [] }
    {
        let (entries, further) = Items::new(alloc)?;
        let tag = Items::tag(&entries);
        let state = MapState {
            list: State::first(alloc, further),
            table,
        };
        let Ok(cell) = park(alloc, state, &tag) else {
            drop(Items::into_slots(entries));
            return Err(AllocError);
        };
        Ok(Frozen { entries, cell })
    }
}

impl<K: Drop, V: Drop, T: Indices<K> + Drop, A: Allocator + Copy, R: EntryRule<K, V>> Frozen<
    K,
    V,
    T,
    A,
    R,
> {
    /// Locks the map for one caller: until the guard is dropped, each other insertion fails with
    /// [`InUse`], and a look-up by key compares one key after the other. It allocates nothing.
    ///
    /// # Errors
    /// Fails with [`InUse`] if the call is made inside another call of the map, or while another
    /// [`FrozenHold`] of it exists.
    ///
    /// # Cost
    /// `O(1)`.
    #[inline(always)]
    pub fn hold(&self) -> Result<FrozenHold<'_, K, V, T, A, R>, InUse>
        ensures same_vector { IfOk result (λ h. h.vector ≡ self.now) }
    {
        let Some(Parked { state, rule: _ }) = self.cell.take() else {
            return Err(InUse);
        };
        Ok(FrozenHold::new(self, state))
    }

    /// Locks the map for one caller, as [`hold`](Self::hold) does. The guard has all entries that
    /// were observed. It allocates nothing.
    ///
    /// # Errors
    /// Fails with [`InUse`] if the call is made inside another call of the map, or while another
    /// [`FrozenHold`] of it exists.
    ///
    /// # Cost
    /// `O(1)`.
    pub fn hold_as(
        &self,
        observed: &ObservedEntries<'_, K, V, A, R>,
    ) -> Result<FrozenHold<'_, K, V, T, A, R>, InUse>
        requires same_vector { observed.now.vector ≡ self.now }
        ensures same_vector { IfOk result (λ h. h.vector ≡ self.now) }
        ensures items { IfOk result (λ h. IsPrefix observed.now.seen h.seen) }
    {
        let Some(Parked { state, rule: _ }) = self.cell.take() else {
            return Err(InUse);
        };
        if !is_behind(&observed.evidence(), &state.list) {
            self.cell.put(Parked::of(state));
            return Err(InUse);
        }
        Ok(FrozenHold::new(self, state))
    }

    /// Returns the index of the entry whose key `query` finds, and a reference to it.
    #[inline(always)]
    fn find<Q: Seeks<K, T>>(&self, query: Q) -> Option<(usize, &Entry<K, V>)>
        ensures found_key { IfSome result (λ f. Q.finds query (key_of f.1.now) ≡ true) }
        ensures holds { IfSome result (λ f. R.holds (key_of f.1.now) f.1.now.value) }
        ensures limit { IfSome result (λ f. f.0 < 2 ^ 32 - 1) }
    {
        match self.hold() {
            Ok(hold) => hold.find(query),
            Err(_) => find_beside::<K, V, T, Q, A, R>(&self.entries.observed(), query),
        }
    }

    /// Returns a reference to the value of the key that `query` finds, or `None` if the map has no
    /// such key. It allocates nothing. Which value comes back is not proved beyond the rule:
    /// [`get_as`](Self::get_as) promises it.
    ///
    /// A query is a reference to a key, a `&str` for `String` keys, or another that [`Seeks`]
    /// names.
    ///
    /// # Cost
    /// One search: one hash and `O(1)` comparisons if the table hashes, `O(log n)` comparisons if
    /// it is ordered. Inside another call of the map, or while a guard exists, one comparison for
    /// each key: `O(n)`.
    #[inline(always)]
    pub fn get<Q: Seeks<K, T>>(&self, query: Q) -> Option<&V>
        ensures holds { IfSome result (λ v. HoldsAt R.holds (Q.finds query) v.now) }
    {
        let (_, entry) = self.find(query)?;
        Some(entry.value())
    }

    /// Returns the index of the key that `query` finds, and references to the key and its value, or
    /// `None` if the map has no such key. It allocates nothing.
    ///
    /// # Cost
    /// As [`get`](Self::get).
    pub fn get_full<Q: Seeks<K, T>>(&self, query: Q) -> Option<(usize, &K, &V)>
        ensures found_key { IfSome result (λ r. Q.finds query r.1.now ≡ true) }
        ensures holds { IfSome result (λ r. R.holds r.1.now r.2.now) }
        ensures limit { IfSome result (λ r. r.0 < 2 ^ 32 - 1) }
    {
        let (index, entry) = self.find(query)?;
        Some((index, entry.key(), entry.value()))
    }

    /// Returns whether the map has a key that `query` finds. It allocates nothing.
    ///
    /// # Cost
    /// As [`get`](Self::get).
    pub fn contains_key<Q: Seeks<K, T>>(&self, query: Q) -> bool
        ensures found_key { result ≡ true → (key : K) × (Q.finds query key ≡ true) }
    {
        match self.find(query) {
            Some((_, entry)) => {
                let _key = entry.key();
                true
            }
            None => false,
        }
    }

    /// Returns what `f` returns for the value of the key that `query` finds, or `None` if the map
    /// has no such key. While `f` runs, no call has the map.
    ///
    /// # Cost
    /// As [`get`](Self::get), and one call of `f` for a key that is found.
    pub fn map_get<Q: Seeks<K, T>, X, F: FnOnce(&V) -> X + Drop>(&self, query: Q, f: F) -> Option<X>
        requires callable { (v : V) → HoldsAt R.holds (Q.finds query) v → FnOnceTakesAt F.FnOnce f v }
        ensures mapped { IfSome result (λ x.
            (v : V) × HoldsAt R.holds (Q.finds query) v × FnOnceReturnsAt F.FnOnce f v x) }
    {
        let value = self.get(query)?;
        Some(f(value))
    }

    /// Returns references to the key and the value at an index, or `None` if the index is at or
    /// above the number of keys. It allocates nothing.
    ///
    /// # Cost
    /// `O(1)`.
    pub fn get_index(&self, index: usize) -> Option<(&K, &V)>
        ensures limit { IfSome result (λ _. index < 2 ^ 32 - 1) }
        ensures holds { IfSome result (λ r. R.holds r.0.now r.1.now) }
    {
        pair_at::<K, V, A, R>(&self.entries.observed(), index)
    }

    /// Returns whether the map has the greatest number of entries, `2^32 - 1`. It allocates
    /// nothing.
    ///
    /// # Cost
    /// `O(1)`.
    pub fn is_full(&self) -> bool {
        self.entries.len() == MOST
    }

    /// Reserves room for `additional` more entries, as a guard's [`FrozenHold::reserve`] does.
    ///
    /// # Errors
    /// Fails with [`Fault::Memory`] if an allocation fails, with [`Fault::Full`] if the map would
    /// have more than the greatest number of entries, `2^32 - 1`, and with [`Fault::InUse`] if the
    /// call is made inside another call of the map, or while a [`FrozenHold`] of it exists. The
    /// entries are unchanged.
    ///
    /// # Allocates
    /// The buffers for these entries and a list of them, and one larger table.
    ///
    /// # Cost
    /// `O(n)` in the number of entries if the table grows.
    pub fn reserve(&self, additional: usize) -> Result<(), Fault>
        ensures limit { OnOk result (additional ≤ 2 ^ 32 - 1) }
    {
        let mut hold = self.hold()?;
        hold.reserve(additional)
    }

    /// Inserts a value unless the map has an equal key, and returns the value that the key then
    /// has: [`insert_new`](Self::insert_new) with the value alone.
    ///
    /// # Errors
    /// Fails as [`insert_new`](Self::insert_new) does.
    ///
    /// # Allocates
    /// As [`insert_new`](Self::insert_new) does.
    ///
    /// # Cost
    /// As [`insert_new`](Self::insert_new).
    pub fn insert(&self, key: K, value: V) -> Result<&V, CellFault<V>>
        requires rule { R.holds key value }
        ensures holds { IfOk result (λ v. HoldsAt R.holds (T.same key) v.now) }
        ensures given_back { IfErr result (GivesBack value) }
    {
        let inserted = self.insert_new(key, value)?;
        Ok(inserted.value)
    }

    /// Inserts a value unless the map has an equal key. Returns the value that the key then has,
    /// its index in the order of insertion, and whether the key was new. A present key keeps its
    /// value, and `key` and `value` are dropped. Which value a present key has is not proved beyond
    /// the rule: [`insert_new_as`](Self::insert_new_as) promises it.
    ///
    /// # Errors
    /// Fails with [`CellFault::Memory`] if an allocation fails, with [`CellFault::Full`] if the map
    /// has the greatest number of entries, `2^32 - 1`, and with [`CellFault::InUse`] if the call is
    /// made inside another call of the map, or while a [`FrozenHold`] of it exists. Each contains
    /// `value`; the key is dropped.
    ///
    /// # Allocates
    /// A buffer, four times as large as the one before, at the lengths where one begins. When the
    /// table is full, one of twice the size: of 8 bytes for each bucket if it hashes, of which
    /// three quarters are taken, and of 4 bytes for each key if it is ordered.
    ///
    /// # Cost
    /// One search. An ordered table then moves at most 1 kB within a block; if the block is full,
    /// it first moves some 24 bytes for each block of greater keys: `O(n)`.
    pub fn insert_new(&self, key: K, value: V) -> Result<Inserted<&V, usize>, CellFault<V>>
        requires rule { R.holds key value }
        ensures holds { IfOk result (λ r. HoldsAt R.holds (T.same key) r.value.now) }
        ensures own_value { IfOk result (λ r. r.is_new ≡ true → r.value.now ≡ value) }
        ensures limit { IfOk result (λ r. r.index < 2 ^ 32 - 1) }
        ensures given_back { IfErr result (GivesBack value) }
    {
        let Ok(mut hold) = self.hold() else {
            return Err(CellFault::InUse(value));
        };
        let inserted = hold.insert_new(key, value);
        hold.obeys_invariant();
        inserted
    }

    /// Inserts the pairs in their order, as a guard's [`FrozenHold::extend`] does, whose contract
    /// states the entries: each new key is appended with the value of its first pair. The map is
    /// locked while the iterator runs.
    ///
    /// # Errors
    /// Fails with [`CellFault::InUse`] and `None` if the call is made inside another call of the
    /// map, or while a [`FrozenHold`] of it exists; no pair is then taken. Otherwise fails as
    /// [`insert_new`](Self::insert_new) does, with the value of the pair that was not inserted; the
    /// pairs before it are inserted.
    ///
    /// # Allocates
    /// As [`insert_new`](Self::insert_new) does.
    ///
    /// # Cost
    /// That of [`insert_new`](Self::insert_new) for each pair. A look-up by key that the iterator
    /// makes in this map compares one key after the other: `O(n)`.
    pub fn extend<I: IntoIterator<Item = (K, V)> + Drop>(
        &self,
        pairs: I,
    ) -> Result<(), CellFault<Option<V>>>
        requires ends { (s : I.IntoIter) → I.into_iter_gives pairs s →
            I.IntoIter.can_next s × IsFinite (I.IntoIter.remaining s) }
        requires rule { (s : I.IntoIter) → I.into_iter_gives pairs s →
            YieldsHolding I.IntoIter.next_gives R.holds s }
        ensures taken { TakesAll I.into_iter_gives I.IntoIter.next_gives (λ p. p.1) pairs result }
    {
        let Ok(mut hold) = self.hold() else {
            return Err(CellFault::InUse(None));
        };
        match hold.extend(pairs) {
            Ok(()) => Ok(()),
            Err(CellFault::Memory(value)) => Err(CellFault::Memory(Some(value))),
            Err(CellFault::InUse(value)) => Err(CellFault::InUse(Some(value))),
            Err(CellFault::Full(value)) => Err(CellFault::Full(Some(value))),
        }
    }

    /// Inserts a key with the value that `make` returns, unless the map has an equal key, as
    /// [`insert_with_as`](Self::insert_with_as) does. While `make` runs, no call has the map.
    ///
    /// # Errors
    /// Fails as [`insert_new`](Self::insert_new) does. Each error contains the value if `make` had
    /// made it; the key is dropped.
    ///
    /// # Allocates
    /// As [`insert_new`](Self::insert_new) does.
    ///
    /// # Cost
    /// One search if the key is present; two, and one insertion, if it is new.
    pub fn insert_with<F: FnOnce() -> V + Drop>(
        &self,
        key: K,
        make: F,
    ) -> Result<Inserted<&V, usize>, CellFault<Option<V>>>
        requires callable { F.pre make }
        requires rule { (v : V) → F.post make v → R.holds key v }
        ensures holds { IfOk result (λ r. HoldsAt R.holds (T.same key) r.value.now) }
        ensures made { IfOk result (λ r. r.is_new ≡ true → F.post make r.value.now) }
        ensures limit { IfOk result (λ r. r.index < 2 ^ 32 - 1) }
    {
        let mut observed = self.entries.observed();
        let inserted = self.insert_with_as(&mut observed, key, make);
        observed.obeys_invariant();
        inserted
    }

    /// Inserts a key with the value that `make` returns, as [`insert_with`](Self::insert_with)
    /// does, if `make` may fail.
    ///
    /// # Errors
    /// Fails with [`TryFault::Value`] and the error of `make`, and with [`TryFault::Map`] as
    /// [`insert_with`](Self::insert_with) does. The key is dropped.
    ///
    /// # Allocates
    /// As [`insert_new`](Self::insert_new) does.
    ///
    /// # Cost
    /// One search if the key is present; two, and one insertion, if it is new.
    pub fn try_insert_with<E: Drop, F: FnOnce() -> Result<V, E> + Drop>(
        &self,
        key: K,
        make: F,
    ) -> Result<Inserted<&V, usize>, TryFault<V, E>>
        requires callable { F.pre make }
        requires rule { (v : V) → F.post make (Ok v) → R.holds key v }

        // A new value is one that `make` returned, and so is an error of it.
        ensures holds { IfOk result (λ r. HoldsAt R.holds (T.same key) r.value.now) }
        ensures made { IfOk result (λ r. r.is_new ≡ true → F.post make (Ok r.value.now)) }
        ensures limit { IfOk result (λ r. r.index < 2 ^ 32 - 1) }
        ensures cause { IfErr result (λ f. (e : E) → f ≡ TryFault.Value e → F.post make (Err e)) }
    {
        let mut observed = self.entries.observed();
        let inserted = self.try_insert_with_as(&mut observed, key, make);
        observed.obeys_invariant();
        inserted
    }

    /// Looks up the key that `query` finds, and inserts the entry that `make` returns if the map
    /// has no such key, as [`insert_by_as`](Self::insert_by_as) does. While `make` runs, no call
    /// has the map.
    ///
    /// # Errors
    /// Fails with the error of `make`, and with one that is made of a [`Fault`] as
    /// [`insert_new`](Self::insert_new) fails. The key and the value are dropped.
    ///
    /// # Allocates
    /// Nothing if the map has the key, otherwise as [`insert_new`](Self::insert_new) does.
    ///
    /// # Cost
    /// One search if the key is present; two, and one insertion, if it is new.
    pub fn insert_by<Q: Seeks<K, T>, E: From<Fault>, F: FnOnce() -> Result<(K, V), E> + Drop>(
        &self,
        query: Q,
        make: F,
    ) -> Result<Inserted<&V, usize>, E>
        requires callable { F.pre make }
        requires rule { (k : K) (v : V) → F.post make (Ok (k, v)) → R.holds k v }
        ensures holds { IfOk result (λ r. HoldsAtOrMade T.same (Q.finds query)
            (λ k v. F.post make (Ok (k, v))) R.holds r.value.now) }
        ensures cause { IfErr result (λ e. F.post make (Err e) ⊎ ((f : Fault) × E.from_gives f e)) }
        ensures limit { IfOk result (λ r. r.index < 2 ^ 32 - 1) }
    {
        let mut observed = self.entries.observed();
        let inserted = self.insert_by_as(&mut observed, query, make);
        observed.obeys_invariant();
        inserted
    }

    /// Returns the value of the key that `query` finds, or inserts the entry that `make` returns:
    /// [`insert_by`](Self::insert_by) with the value alone.
    ///
    /// # Errors
    /// Fails as [`insert_by`](Self::insert_by) does.
    ///
    /// # Allocates
    /// As [`insert_by`](Self::insert_by) does.
    ///
    /// # Cost
    /// As [`insert_by`](Self::insert_by).
    pub fn get_or_try_insert<
        Q: Seeks<K, T>,
        E: From<Fault>,
        F: FnOnce() -> Result<(K, V), E> + Drop,
    >(&self, query: Q, make: F) -> Result<&V, E>
        requires callable { F.pre make }
        requires rule { (k : K) (v : V) → F.post make (Ok (k, v)) → R.holds k v }
        ensures holds { IfOk result (λ v. HoldsAtOrMade T.same (Q.finds query)
            (λ k v. F.post make (Ok (k, v))) R.holds v.now) }
        ensures cause { IfErr result (λ e. F.post make (Err e) ⊎ ((f : Fault) × E.from_gives f e)) }
    {
        match self.insert_by(query, make) {
            Ok(inserted) => Ok(inserted.value),
            Err(error) => Err(error),
        }
    }

    /// Makes the map of its state again, which may be lost.
    fn again(
        entries: Items<Entry<K, V>, A, OfMap<R>>,
        state: Option<Box<MapState<K, V, T, A>, A>>,
    ) -> Self
        requires { IfSome state (λ s. IsMapOf T.is_for
            entries s.value.list s.value.table × HoldsEach R.holds s.value.list.prefix.items) }
        ensures { result ≡ entries }
    {
        let tag = Items::tag(&entries);
        let cell = match state {
            Some(state) => Shared::new(Parked::of(state), &tag),
            None => Shared::lost(&tag),
        };
        Frozen { entries, cell }
    }

    /// Moves all entries into a vector of `alloc`, in the order of insertion, and drops none.
    /// `seen` is evidence of entries that the map has ([`Observed::evidence`]): the vector begins
    /// with them.
    ///
    /// # Errors
    /// Fails with [`CellFault::Memory`] if an allocation fails, and with [`CellFault::InUse`] if a
    /// guard of the map was forgotten. Both contain the map.
    ///
    /// # Allocates
    /// A block of `alloc` for the entries.
    ///
    /// # Cost
    /// `O(n)`: one move of each entry.
    pub fn into_tuple_vec<Z: Allocator>(
        self,
        alloc: Z,
        seen: &SeenEntries<K, V, A, R>,
    ) -> Result<Vec<(K, V), Z>, CellFault<Self>>
        requires same_vector { seen.now.vector ≡ self }
        ensures items { IfOk result (λ all. IsPrefix (pairs_of seen.now.seen) all.items) }
        ensures given_back { IfErr result (λ f. (f ≡ CellFault.Memory self)
            ⊎ (f ≡ CellFault.InUse self)) }
    {
        let (entries, state) = self.into_parts(seen)?;
        let Ok(items) = Vec::with_capacity(alloc, state.list.count) else {
            return Err(CellFault::Memory(Frozen::again(entries, Some(state))));
        };
        let mut all = Pairs { items };
        Box::into_inner(state)
            .into_list()
            .move_items(Items::into_slots(entries), &mut all);
        let Pairs { items } = all;
        Ok(items)
    }

    /// Takes the map apart. `seen` is evidence of entries that the map has.
    ///
    /// # Errors
    /// Fails with the map if a guard of it was forgotten.
    fn into_parts(
        self,
        seen: &SeenEntries<K, V, A, R>,
    ) -> Result<
        (
            Items<Entry<K, V>, A, OfMap<R>>,
            Box<MapState<K, V, T, A>, A>,
        ),
        CellFault<Self>,
    >
        requires same_vector { seen.now.vector ≡ self }
        ensures state { IfOk result (λ parts. IsMapOf T.is_for
            parts.0 parts.1.value.list parts.1.value.table
            × HoldsEach R.holds parts.1.value.list.prefix.items) }
        ensures same_slots { IfOk result (λ parts. parts.0 ≡ self) }
        ensures items { IfOk result (λ parts. IsPrefix seen.now.seen parts.1.value.list.prefix.items) }
        ensures given_back { IfErr result (λ f. f ≡ CellFault.InUse self) }
    {
        let Self { entries, cell } = self;
        let Some(Parked { state, rule: _ }) = cell.into_state() else {
            return Err(CellFault::InUse(Frozen::again(entries, None)));
        };
        if !is_behind(seen, &state.list) {
            return Err(CellFault::InUse(Frozen::again(entries, Some(state))));
        }
        Ok((entries, state))
    }
}

impl<K: Drop, T: Indices<K> + Drop, A: Allocator + Copy> Frozen<K, (), T, A> {
    /// Moves all keys into a vector of `alloc`, as [`into_tuple_vec`](Self::into_tuple_vec) moves
    /// all entries.
    pub(crate) fn into_key_vec<Z: Allocator>(
        self,
        alloc: Z,
        seen: &SeenEntries<K, (), A>,
    ) -> Result<Vec<K, Z>, CellFault<Self>>
        requires same_vector { seen.now.vector ≡ self }
        ensures items { IfOk result (λ all. IsPrefix (map key_of seen.now.seen) all.items) }
        ensures given_back { IfErr result (λ f. (f ≡ CellFault.Memory self)
            ⊎ (f ≡ CellFault.InUse self)) }
    {
        let (entries, state) = self.into_parts(seen)?;
        let Ok(items) = Vec::with_capacity(alloc, state.list.count) else {
            return Err(CellFault::Memory(Frozen::again(entries, Some(state))));
        };
        let mut all = Keys { items };
        Box::into_inner(state)
            .into_list()
            .move_items(Items::into_slots(entries), &mut all);
        let Keys { items } = all;
        Ok(items)
    }
}

/// States that a value that was found of a key is found of it from then on. It does nothing when it
/// runs.
#[tactic(auto, using(crate::proofs::EntryLemmas::found_later))]
pub fn first_value_stays<K: Eq, V>()
    ensures { (test : K → Bool) (before after : List (Entry K V)) (v : V) → IsPrefix before after →
        lookup test (pairs_of before) ≡ Some v → lookup test (pairs_of after) ≡ Some v }
{}
