//! [`FrozenHold`]: the lock guard of a map.
ghost use Rattle.std.specs.Prelude.{◌≡◌, ◌↔◌, ◌+◌, ◌-◌, ◌<◌, ◌≤◌, ◌^◌, true, None, Some, length, map, position, slice_get, IfErr, IfOk, IfSome, IsTrue, OnOk};
ghost use Rattle.std.specs.Iterator.{IsFinite};
ghost use Rattle.std.specs.Map.{lookup};
ghost use Rattle.std.specs.Option.{option_map};
ghost use Rattle.elsa_cell.specs.Entries.{HoldsEach, Inserts, IsMapOf, key_of, pair_of, pairs_of};
ghost use Rattle.elsa_cell.specs.Extended.{ExtendsByFirsts, YieldsHolding};
ghost use Rattle.elsa_tables.specs.Rules.{HoldsAt};
ghost use Rattle.elsa_arena.specs.Faults.{Refuses};
ghost use Rattle.elsa_arena.specs.Observed.{Continues};

use crate::indices::{Indices, Seeks};
use crate::map::{Entry, Frozen};
use crate::map_state::{MOST, MapState, ObservedEntries, Parked};
use elsa_arena::fault::{CellFault, Fault};
use elsa_arena::items::Items;
use elsa_arena::views::{evidence_of, observe, set_observed, slots_of};
use elsa_tables::{AnyEntries, EntryRule, Inserted};
use std::alloc::{Allocator, Global};
use std::marker::Model;
use std::ops::Deref;

/// A lock guard of a map: its caller alone inserts, and each other insertion fails with [`InUse`].
/// Contracts see the map, by the names of its buffers, and all its entries.
///
/// It is the form for a loop of insertions, and for what needs the whole map unchanged. It has
/// observed all entries, and its reads by index are those of [`Observed`](elsa_arena::Observed), to
/// which it dereferences.
pub struct FrozenHold<
    'm,
    K: Drop,
    V,
    T: Indices<K> + Drop,
    A: Allocator + Copy = Global,
    R: EntryRule<K, V> = AnyEntries,
> {
    pub(crate) map: &'m Frozen<K, V, T, A, R>,
    // All entries.
    pub(crate) observed: ObservedEntries<'m, K, V, A, R>,
    pub(crate) state: Box<MapState<K, V, T, A>, A>,
}

impl<'m, K: Drop, V, T: Indices<K> + Drop, A: Allocator + Copy, R: EntryRule<K, V>> Model
    for FrozenHold<'m, K, V, T, A, R> {
    ghost use Rattle.std.specs.Prelude.{◌≡◌};
    ghost use Rattle.elsa_arena.specs.Observed.{View};
    ghost use Rattle.elsa_cell.specs.Entries.{IsMapOf};
    ghost use Rattle.elsa_cell.specs.declared.map.Entry.{Entry};

    ghost Value = { View (Entry K V) };

    ghost view = { λ h. h.observed };

    // The table has the index of each key in the state's list, all of which is observed.
    ghost invariant = { λ h. IsMapOf T.is_for
        h.map.now h.state.value.list h.state.value.table × (h.observed.vector ≡ h.map.now)
        × (h.observed.seen ≡ h.state.value.list.prefix.items) };
}

impl<K: Drop, V, T: Indices<K> + Drop, A: Allocator + Copy, R: EntryRule<K, V>> Drop
    for FrozenHold<'_, K, V, T, A, R> {
    #[inline(always)]
    fn drop(self) {
        let Self {
            map,
            observed,
            state,
        } = self;
        observed.obeys_invariant();
        drop(observed);
        map.cell.put(Parked::of(state));
    }
}

impl<'m, K: Drop, V, T: Indices<K> + Drop, A: Allocator + Copy, R: EntryRule<K, V>> Deref
    for FrozenHold<'m, K, V, T, A, R> {
    ghost use Rattle.std.specs.Prelude.{◌≡◌};

    type Target = ObservedEntries<'m, K, V, A, R>;

    ghost deref_gives = { λ h o. o ≡ h };

    #[inline(always)]
    fn deref(&self) -> &ObservedEntries<'m, K, V, A, R> {
        &self.observed
    }
}

impl<
    'm,
    K: Drop,
    V: Drop,
    T: Indices<K> + Drop,
    A: Allocator + Copy,
    R: EntryRule<K, V>,
> FrozenHold<'m, K, V, T, A, R> {
    /// Makes a guard that has the state.
    pub(crate) fn new(
        map: &'m Frozen<K, V, T, A, R>,
        state: Box<MapState<K, V, T, A>, A>,
    ) -> FrozenHold<'m, K, V, T, A, R>
        requires state { IsMapOf T.is_for map.now state.value.list state.value.table }
        requires rule { HoldsEach R.holds state.value.list.prefix.items }
        ensures vector { result.vector ≡ map.now }
        ensures entries { result.seen ≡ state.value.list.prefix.items }
    {
        let slots = Items::slots(&map.entries);
        let observed = observe(slots, evidence_of(&state.list, slots));
        FrozenHold {
            map,
            observed,
            state,
        }
    }

    /// Drops the guard. All its entries are then observed.
    pub(crate) fn release(self, observed: &mut ObservedEntries<'_, K, V, A, R>)
        requires same_vector { self.vector ≡ observed.old.vector }
        ensures same { observed.new.vector ≡ observed.old.vector }
        ensures seen { observed.new.seen ≡ self.entry.seen }
    {
        set_observed(observed, self.observed.evidence());
    }

    /// Returns whether the map has the greatest number of entries, `2^32 - 1`.
    pub fn is_full(&self) -> bool
        ensures full { IsTrue result ↔ (length self.now.seen ≡ 2 ^ 32 - 1) }
    {
        self.observed.len() == MOST
    }

    /// Reserves room for `additional` more entries.
    ///
    /// # Errors
    /// Fails with [`Fault::Memory`] if an allocation fails, and with [`Fault::Full`] if the map
    /// would have more than the greatest number of entries, `2^32 - 1`. The entries are unchanged.
    ///
    /// # Allocates
    /// The buffers for these entries and a list of them, and one larger table.
    ///
    /// # Cost
    /// `O(n)` in the number of entries if the table grows.
    pub fn reserve(&mut self, additional: usize) -> Result<(), Fault>
        ensures same { self.new ≡ self.old }
        ensures limit { OnOk result (length self.old.seen + additional ≤ 2 ^ 32 - 1) }
        ensures full { IfErr result (λ f. f ≡ Fault.Full →
            2 ^ 32 ≤ length self.old.seen + additional) }
    {
        if additional > MOST - self.state.list.count {
            return Err(Fault::Full);
        }
        let slots = slots_of(&self.observed);
        match self.state.reserve(slots, additional) {
            Ok(()) => Ok(()),
            Err(_) => Err(Fault::Memory),
        }
    }

    /// Returns the index of the entry whose key `query` finds, and a reference to it.
    #[tactic(auto, using(crate::proofs::EntryLemmas::absent_at, crate::proofs::EntryLemmas::within_at, crate::proofs::EntryLemmas::passes_at))]
    #[inline(always)]
    pub(crate) fn find<Q: Seeks<K, T>>(&self, query: Q) -> Option<(usize, &'m Entry<K, V>)>
        ensures found_key { IfSome result (λ f. (Q.finds query (key_of f.1.now) ≡ true)
            × R.holds (key_of f.1.now) f.1.now.value) }
        ensures index { option_map (λ f. f.0) result
            ≡ position (Q.finds query) (map key_of self.now.seen) }
        ensures entry { IfSome result (λ f. slice_get self.now.seen f.0 ≡ Some f.1.now) }
        ensures value { option_map (λ f. f.1.now.value) result
            ≡ lookup (Q.finds query) (pairs_of self.now.seen) }
        ensures limit { IfSome result (λ f. f.0 < 2 ^ 32 - 1) }
    {
        let index = self.state.find(&self.observed, query)?;
        Some((index, self.observed.item(index)))
    }

    /// Returns the index of the entry whose key equals `key`, and a reference to it.
    #[tactic(auto, using(crate::proofs::EntryLemmas::absent_at, crate::proofs::EntryLemmas::within_at))]
    pub(crate) fn find_key(&self, key: &K) -> Option<(usize, &'m Entry<K, V>)>
        ensures index { option_map (λ f. f.0) result
            ≡ position (T.same key.now) (map key_of self.now.seen) }
        ensures entry { IfSome result (λ f. slice_get self.now.seen f.0 ≡ Some f.1.now) }
        ensures value { option_map (λ f. f.1.now.value) result
            ≡ lookup (T.same key.now) (pairs_of self.now.seen) }
        ensures limit { IfSome result (λ f. f.0 < 2 ^ 32 - 1) }
    {
        match self.state.seek(&self.observed, key) {
            Ok(present) => Some((present, self.observed.item(present))),
            Err(_) => None,
        }
    }

    /// Returns a reference to the value of the key that `query` finds, or `None` exactly if the map
    /// has no such key. It allocates nothing.
    ///
    /// # Cost
    /// One search: one hash and `O(1)` comparisons if the table hashes, `O(log n)` comparisons if
    /// it is ordered.
    pub fn get<Q: Seeks<K, T>>(&self, query: Q) -> Option<&'m V>
        ensures found { option_map (λ v. v.now) result
            ≡ lookup (Q.finds query) (pairs_of self.now.seen) }
        ensures holds { IfSome result (λ v. HoldsAt R.holds (Q.finds query) v.now) }
    {
        let (_, entry) = self.find(query)?;
        Some(entry.value())
    }

    /// Returns the index of the key that `query` finds, and references to the key and its value, or
    /// `None` exactly if the map has no such key. It allocates nothing.
    ///
    /// # Cost
    /// One search: one hash and `O(1)` comparisons if the table hashes, `O(log n)` comparisons if
    /// it is ordered.
    #[tactic(auto, using(crate::proofs::EntryLemmas::pair_at, crate::proofs::EntryLemmas::passes_at))]
    pub fn get_full<Q: Seeks<K, T>>(&self, query: Q) -> Option<(usize, &'m K, &'m V)>
        ensures index { option_map (λ r. r.0) result
            ≡ position (Q.finds query) (map key_of self.now.seen) }
        ensures entry { IfSome result (λ r.
            slice_get (pairs_of self.now.seen) r.0 ≡ Some (r.1.now, r.2.now)) }
        ensures found_key { IfSome result (λ r. Q.finds query r.1.now ≡ true) }
        ensures value { option_map (λ r. r.2.now) result
            ≡ lookup (Q.finds query) (pairs_of self.now.seen) }
        ensures limit { IfSome result (λ r. r.0 < 2 ^ 32 - 1) }
    {
        let (index, entry) = self.find(query)?;
        Some((index, entry.key(), entry.value()))
    }

    /// Inserts a value unless the map has an equal key. Returns the value that the key then has,
    /// its index in the order of insertion, and whether the key was new. A present key keeps its
    /// value, and `key` and `value` are dropped.
    ///
    /// # Errors
    /// Fails with [`CellFault::Memory`] and `value` if an allocation fails, and with
    /// [`CellFault::Full`] and `value` if the map has the greatest number of entries, `2^32 - 1`.
    /// The map is unchanged; the key is dropped.
    ///
    /// # Allocates
    /// A buffer, four times as large as the one before, at the lengths where one begins. When the
    /// table is full, one of twice the size: of 8 bytes for each bucket if it hashes, of which
    /// three quarters are taken, and of 4 bytes for each key if it is ordered.
    ///
    /// # Cost
    /// One search. An ordered table then moves at most 1 kB within a block; if the block is full,
    /// it first moves some 24 bytes for each block of greater keys: `O(n)`.
    pub fn insert_new(&mut self, key: K, value: V) -> Result<Inserted<&'m V, usize>, CellFault<V>>
        requires rule { R.holds key value }
        ensures continues { Continues self.old self.new }
        ensures inserted { IfOk result (λ r. Inserts T.same self.old.seen self.new.seen key value
            r.value.now r.index r.is_new) }
        ensures limit { IfOk result (λ r. r.index < 2 ^ 32 - 1) }
        ensures given_back { IfErr result (Refuses (2 ^ 32 - 1) (length self.old.seen) value) }

        // It fails only for an absent key.
        ensures refused { IfErr result (λ _. (self.new ≡ self.old)
            × (lookup (T.same key) (pairs_of self.old.seen) ≡ None)) }
    {
        match self.insert_entry(key, value) {
            Ok(inserted) => Ok(Inserted {
                value: inserted.value.value(),
                index: inserted.index,
                is_new: inserted.is_new,
            }),
            Err(entry) => {
                let Entry { key: _key, value } = entry;
                Err(if self.observed.len() < MOST {
                    CellFault::Memory(value)
                } else {
                    CellFault::Full(value)
                })
            }
        }
    }

    /// Inserts the pairs in their order, each as [`insert_new`](Self::insert_new) does: each new
    /// key is appended with the value of its first pair, and a present key keeps its index and its
    /// value.
    ///
    /// It reserves no room: a caller that has the number of new keys calls
    /// [`reserve`](Self::reserve) first.
    ///
    /// # Errors
    /// Fails with the value of the first pair that was not inserted, as
    /// [`insert_new`](Self::insert_new) does. The pairs before it are inserted, and the others are
    /// not taken.
    ///
    /// # Allocates
    /// As [`insert_new`](Self::insert_new) does.
    ///
    /// # Cost
    /// That of [`insert_new`](Self::insert_new) for each pair.
    #[tactic(auto, using(crate::proofs::FirstsLemmas::firsts_none, crate::proofs::FirstsLemmas::firsts_more))]
    pub fn extend<I: IntoIterator<Item = (K, V)>>(&mut self, pairs: I) -> Result<(), CellFault<V>>
        requires ends { (s : I.IntoIter) → I.into_iter_gives pairs s →
            I.IntoIter.can_next s × IsFinite (I.IntoIter.remaining s) }
        requires rule { (s : I.IntoIter) → I.into_iter_gives pairs s →
            YieldsHolding I.IntoIter.next_gives R.holds s }
        ensures continues { Continues self.old self.new }
        ensures extended { ExtendsByFirsts I.IntoIter.next_gives I.into_iter_gives T.same
            pairs self.old.seen self.new.seen result }
    {
        for pair in pairs {
            let (key, value) = pair;
            let _inserted = self.insert_new(key, value)?;
        }
        Ok(())
    }

    /// Inserts an entry unless the map has an equal key, and returns the entry that the key then
    /// has: [`insert_new`](Self::insert_new) with the whole entry.
    ///
    /// # Errors
    /// Fails with the entry itself if an allocation fails, or if the map is full.
    pub(crate) fn insert_entry(
        &mut self,
        key: K,
        value: V,
    ) -> Result<Inserted<&'m Entry<K, V>, usize>, Entry<K, V>>
        requires rule { R.holds key value }
        ensures continues { Continues self.old self.new }
        ensures inserted { IfOk result (λ r. Inserts T.same self.old.seen self.new.seen key value
            r.value.now.value r.index r.is_new) }
        ensures entry { IfOk result (λ r. (slice_get self.new.seen r.index ≡ Some r.value.now)
            × (r.index < 2 ^ 32 - 1)) }
        ensures given_back { IfErr result (λ e. pair_of e ≡ (key, value)) }

        // It fails only for an absent key.
        ensures refused { IfErr result (λ _. (self.new ≡ self.old)
            × (lookup (T.same key) (pairs_of self.old.seen) ≡ None)) }
    {
        self.observed.obeys_invariant();
        let missing = match self.state.seek(&self.observed, &key) {
            Ok(present) => {
                return Ok(Inserted {
                    value: self.observed.item(present),
                    index: present,
                    is_new: false,
                });
            }
            Err(missing) => missing,
        };
        let map = self.map;
        let slots = slots_of(&self.observed);
        match self.state.add(slots, missing, Entry { key, value }) {
            Ok((index, entry)) => {
                let seen = evidence_of(&self.state.list, slots);
                Items::show(&map.entries, seen.again());
                set_observed(&mut self.observed, seen);
                return Ok(Inserted {
                    value: entry,
                    index,
                    is_new: true,
                });
            }
            Err(entry) => Err(entry),
        }
    }
}
