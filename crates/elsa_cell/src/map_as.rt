//! The calls of a map that state what they find among the entries that were observed, or what they
//! insert after them.
ghost use Rattle.std.specs.Prelude.{◌≡◌, ◌⊎◌, ◌-◌, ◌<◌, ◌^◌, true, None, Some, Ok, Err, map, position, slice_get, IfErr, IfOk, IfSome};
ghost use Rattle.std.specs.Map.{lookup};
ghost use Rattle.std.specs.Option.{option_map};
ghost use Rattle.elsa_cell.specs.Entries.{GetsOrInserts, InsertsOnce, key_of, pairs_of};
ghost use Rattle.elsa_tables.specs.Rules.{HoldsAt};
ghost use Rattle.elsa_arena.specs.declared.fault.Fault.{Fault};
ghost use Rattle.elsa_arena.specs.Faults.{GivesBack};
ghost use Rattle.elsa_arena.specs.Observed.{Continues};

use crate::fault::TryFault;
use crate::indices::{Indices, Seeks};
use crate::map::{Entry, Frozen, find_beside};
use crate::map_state::ObservedEntries;
use elsa_arena::fault::{CellFault, Fault, InUse};
use elsa_arena::items::Items;
use elsa_arena::views::observe;
use elsa_tables::{EntryRule, Inserted};
use std::alloc::Allocator;

impl<K: Drop, V: Drop, T: Indices<K> + Drop, A: Allocator + Copy, R: EntryRule<K, V>> Frozen<
    K,
    V,
    T,
    A,
    R,
> {
    /// Finds a key among the entries that were observed, and returns its index and a reference to
    /// its entry. An entry is one of them exactly if its index is below their number.
    #[tactic(auto, using(crate::proofs::SeenLemmas::seen_at, crate::proofs::SeenLemmas::later_at, crate::proofs::SeenLemmas::never_at, crate::proofs::SeenLemmas::seen_item, crate::proofs::EntryLemmas::absent_at))]
    fn find_as<Q: Seeks<K, T>>(
        &self,
        observed: &ObservedEntries<'_, K, V, A, R>,
        query: Q,
    ) -> Option<(usize, &Entry<K, V>)>
        requires same_vector { observed.now.vector ≡ self.now }
        ensures index { option_map (λ f. f.0) result
            ≡ position (Q.finds query) (map key_of observed.now.seen) }
        ensures entry { IfSome result (λ f. slice_get observed.now.seen f.0 ≡ Some f.1.now) }
        ensures value { option_map (λ f. f.1.now.value) result
            ≡ lookup (Q.finds query) (pairs_of observed.now.seen) }
        ensures found_key { IfSome result (λ f. (Q.finds query (key_of f.1.now) ≡ true)
            × R.holds (key_of f.1.now) f.1.now.value × (f.0 < 2 ^ 32 - 1)) }
    {
        let Ok(hold) = self.hold_as(observed) else {
            let there = observe(Items::slots(&self.entries), observed.evidence());
            return find_beside::<K, V, T, Q, A, R>(&there, query);
        };
        let (index, entry) = hold.find(query)?;
        if index >= observed.len() {
            return None;
        }
        Some((index, entry))
    }

    /// Returns a reference to the value of the key that `query` finds, or `None` exactly if no
    /// entry that was observed has such a key. Entries that are inserted later change nothing: what
    /// was observed is a consistent view of one moment of the map. It allocates nothing.
    ///
    /// # Cost
    /// As [`get`](Self::get).
    pub fn get_as<Q: Seeks<K, T>>(
        &self,
        observed: &ObservedEntries<'_, K, V, A, R>,
        query: Q,
    ) -> Option<&V>
        requires same_vector { observed.now.vector ≡ self.now }
        ensures found { option_map (λ v. v.now) result
            ≡ lookup (Q.finds query) (pairs_of observed.now.seen) }
        ensures holds { IfSome result (λ v. HoldsAt R.holds (Q.finds query) v.now) }
    {
        let (_, entry) = self.find_as(observed, query)?;
        Some(entry.value())
    }

    /// Returns the index of the key that `query` finds, and references to the key and its value, or
    /// `None` exactly if no entry that was observed has such a key, as
    /// [`get_as`](Self::get_as) does. It allocates nothing.
    ///
    /// # Cost
    /// As [`get`](Self::get).
    #[tactic(auto, using(crate::proofs::EntryLemmas::pair_at))]
    pub fn get_full_as<Q: Seeks<K, T>>(
        &self,
        observed: &ObservedEntries<'_, K, V, A, R>,
        query: Q,
    ) -> Option<(usize, &K, &V)>
        requires same_vector { observed.now.vector ≡ self.now }
        ensures index { option_map (λ r. r.0) result
            ≡ position (Q.finds query) (map key_of observed.now.seen) }
        ensures entry { IfSome result (λ r.
            slice_get (pairs_of observed.now.seen) r.0 ≡ Some (r.1.now, r.2.now)) }
        ensures found_key { IfSome result (λ r. Q.finds query r.1.now ≡ true) }
        ensures holds { IfSome result (λ r. R.holds r.1.now r.2.now) }
        ensures limit { IfSome result (λ r. r.0 < 2 ^ 32 - 1) }
    {
        let (index, entry) = self.find_as(observed, query)?;
        Some((index, entry.key(), entry.value()))
    }

    /// Observes all entries, and finds a key among them. It never fails: inside a call that has the
    /// table it compares the query with one key after the other.
    fn find_all<Q: Seeks<K, T>>(
        &self,
        observed: &mut ObservedEntries<'_, K, V, A, R>,
        query: Q,
    ) -> Option<(usize, &Entry<K, V>)>
        requires same_vector { observed.old.vector ≡ self.now }
        ensures continues { Continues observed.old observed.new }
        ensures value { option_map (λ f. f.1.now.value) result
            ≡ lookup (Q.finds query) (pairs_of observed.new.seen) }
        ensures index { option_map (λ f. f.0) result
            ≡ position (Q.finds query) (map key_of observed.new.seen) }
        ensures limit { IfSome result (λ f. f.0 < 2 ^ 32 - 1) }
    {
        self.entries.observe(observed);
        self.find_as(observed, query)
    }

    /// Observes all entries, and finds a key among them, as [`find_all`](Self::find_all) does.
    ///
    /// # Errors
    /// Fails with [`InUse`] inside a call that has the table. What was observed is unchanged.
    fn find_key(
        &self,
        observed: &mut ObservedEntries<'_, K, V, A, R>,
        key: &K,
    ) -> Result<Option<(usize, &V)>, InUse>
        requires same_vector { observed.old.vector ≡ self.now }
        ensures continues { Continues observed.old observed.new }
        ensures index { IfOk result (λ found. option_map (λ f. f.0) found
            ≡ position (T.same key.now) (map key_of observed.new.seen)) }
        ensures value { IfOk result (λ found. option_map (λ f. f.1.now) found
            ≡ lookup (T.same key.now) (pairs_of observed.new.seen)) }
        ensures refused { IfErr result (λ _. observed.new ≡ observed.old) }
        ensures limit { IfOk result (λ found. IfSome found (λ f. f.0 < 2 ^ 32 - 1)) }
    {
        let hold = self.hold_as(observed)?;
        let found = hold.find_key(key);
        hold.release(observed);
        match found {
            Some((index, entry)) => Ok(Some((index, entry.value()))),
            None => Ok(None),
        }
    }

    /// Inserts a value unless the map has an equal key, as [`insert_new`](Self::insert_new) does.
    /// All entries are then observed.
    ///
    /// # Errors
    /// Fails as [`insert_new`](Self::insert_new) does.
    ///
    /// # Allocates
    /// As [`insert_new`](Self::insert_new) does.
    ///
    /// # Cost
    /// As [`insert_new`](Self::insert_new).
    pub fn insert_new_as(
        &self,
        observed: &mut ObservedEntries<'_, K, V, A, R>,
        key: K,
        value: V,
    ) -> Result<Inserted<&V, usize>, CellFault<V>>
        requires same_vector { observed.old.vector ≡ self.now }
        requires rule { R.holds key value }

        // The first value of a key stays. If the insertion fails, the value comes back.
        ensures continues { Continues observed.old observed.new }
        ensures inserted { IfOk result (λ r. InsertsOnce T.same observed.old.seen observed.new.seen
            key value r.value.now r.index r.is_new) }
        ensures own_value { IfOk result (λ r. r.is_new ≡ true → r.value.now ≡ value) }
        ensures limit { IfOk result (λ r. r.index < 2 ^ 32 - 1) }
        ensures given_back { IfErr result (GivesBack value) }
    {
        let Ok(mut hold) = self.hold_as(observed) else {
            return Err(CellFault::InUse(value));
        };
        let inserted = hold.insert_new(key, value);
        hold.release(observed);
        inserted
    }

    /// Inserts a key with the value that `make` returns, unless the map has an equal key. `make` is
    /// called only if no such key is then observed.
    ///
    /// While `make` runs, no call has the map: `make` may use the same map. If it inserts `key`
    /// itself, that first value stays, and the result has `is_new = false`.
    ///
    /// # Errors
    /// Fails with [`CellFault::Memory`] if an allocation fails, with [`CellFault::Full`] if the map
    /// has the greatest number of entries, `2^32 - 1`, and with [`CellFault::InUse`] if the call is
    /// made inside another call of the map, or while a [`FrozenHold`] of it exists. Each contains
    /// the value if `make` had made it; the key is dropped.
    ///
    /// # Allocates
    /// As [`insert_new`](Self::insert_new) does.
    ///
    /// # Cost
    /// One search if the key is present; two, and one insertion, if it is new.
    pub fn insert_with_as<F: FnOnce() -> V + Drop>(
        &self,
        observed: &mut ObservedEntries<'_, K, V, A, R>,
        key: K,
        make: F,
    ) -> Result<Inserted<&V, usize>, CellFault<Option<V>>>
        requires same_vector { observed.old.vector ≡ self.now }
        requires callable { lookup (T.same key) (pairs_of observed.old.seen) ≡ None → F.pre make }
        requires rule { (v : V) → F.post make v → R.holds key v }

        // The first value of a key stays, and a new one was made by `make`.
        ensures continues { Continues observed.old observed.new }
        ensures inserted { IfOk result (λ r. InsertsOnce T.same observed.old.seen observed.new.seen
            key r.value.now r.value.now r.index r.is_new) }
        ensures made { IfOk result (λ r. r.is_new ≡ true → F.post make r.value.now) }
        ensures limit { IfOk result (λ r. r.index < 2 ^ 32 - 1) }
    {
        let Ok(known) = self.find_key(observed, &key) else {
            return Err(CellFault::InUse(None));
        };
        if let Some((index, value)) = known {
            return Ok(Inserted {
                value,
                index,
                is_new: false,
            });
        }
        let made = make();
        match self.insert_new_as(observed, key, made) {
            Ok(inserted) => Ok(inserted),
            Err(CellFault::Memory(made)) => Err(CellFault::Memory(Some(made))),
            Err(CellFault::InUse(made)) => Err(CellFault::InUse(Some(made))),
            Err(CellFault::Full(made)) => Err(CellFault::Full(Some(made))),
        }
    }

    /// Inserts a key with the value that `make` returns, as [`insert_with`](Self::insert_with)
    /// does, if `make` may fail.
    ///
    /// # Errors
    /// Fails with [`TryFault::Value`] and the error of `make`, and with [`TryFault::Map`] as
    /// [`insert_with`](Self::insert_with) does. The key is dropped.
    ///
    /// # Allocates
    /// As [`insert_new`](Self::insert_new) does.
    ///
    /// # Cost
    /// One search if the key is present; two, and one insertion, if it is new.
    pub fn try_insert_with_as<E: Drop, F: FnOnce() -> Result<V, E> + Drop>(
        &self,
        observed: &mut ObservedEntries<'_, K, V, A, R>,
        key: K,
        make: F,
    ) -> Result<Inserted<&V, usize>, TryFault<V, E>>
        requires same_vector { observed.old.vector ≡ self.now }
        requires callable { lookup (T.same key) (pairs_of observed.old.seen) ≡ None → F.pre make }
        requires rule { (v : V) → F.post make (Ok v) → R.holds key v }

        // The first value of a key stays, and a new one was made by `make`. An error of `make`
        // comes back.
        ensures continues { Continues observed.old observed.new }
        ensures inserted { IfOk result (λ r. InsertsOnce T.same observed.old.seen observed.new.seen
            key r.value.now r.value.now r.index r.is_new) }
        ensures made { IfOk result (λ r. r.is_new ≡ true → F.post make (Ok r.value.now)) }
        ensures limit { IfOk result (λ r. r.index < 2 ^ 32 - 1) }
        ensures cause { IfErr result (λ f. (e : E) → f ≡ TryFault.Value e → F.post make (Err e)) }
    {
        let Ok(found) = self.find_key(observed, &key) else {
            return Err(TryFault::Map(CellFault::InUse(None)));
        };
        if let Some((index, value)) = found {
            return Ok(Inserted {
                value,
                index,
                is_new: false,
            });
        }
        let made = match make() {
            Ok(made) => made,
            Err(error) => return Err(TryFault::Value(error)),
        };
        match self.insert_new_as(observed, key, made) {
            Ok(inserted) => Ok(inserted),
            Err(CellFault::Memory(made)) => Err(TryFault::Map(CellFault::Memory(Some(made)))),
            Err(CellFault::InUse(made)) => Err(TryFault::Map(CellFault::InUse(Some(made)))),
            Err(CellFault::Full(made)) => Err(TryFault::Map(CellFault::Full(Some(made)))),
        }
    }

    /// Looks up the key that `query` finds, and inserts the entry that `make` returns if the map
    /// has no such key. `make` is called only if no such key is then observed.
    ///
    /// While `make` runs, no call has the map, as in [`insert_with`](Self::insert_with). If the map
    /// then has the key that `make` returned, the first value of that key stays.
    ///
    /// # Errors
    /// Fails with the error of `make`, and with one that is made of a [`Fault`] as
    /// [`insert_new`](Self::insert_new) fails. The key and the value are dropped.
    ///
    /// # Allocates
    /// Nothing if the map has the key, otherwise as [`insert_new`](Self::insert_new) does.
    ///
    /// # Cost
    /// One search if the key is present; two, and one insertion, if it is new.
    pub fn insert_by_as<Q: Seeks<K, T>, E: From<Fault>, F: FnOnce() -> Result<(K, V), E> + Drop>(
        &self,
        observed: &mut ObservedEntries<'_, K, V, A, R>,
        query: Q,
        make: F,
    ) -> Result<Inserted<&V, usize>, E>
        requires same_vector { observed.old.vector ≡ self.now }
        requires callable { lookup (Q.finds query) (pairs_of observed.old.seen) ≡ None → F.pre make }
        requires rule { (k : K) (v : V) → F.post make (Ok (k, v)) → R.holds k v }
        ensures continues { Continues observed.old observed.new }

        // A present key keeps its value. Otherwise the entry of `make` is inserted.
        ensures inserted { IfOk result (λ r.
            GetsOrInserts T.same (Q.finds query) (λ k v. F.post make (Ok (k, v)))
            observed.old.seen observed.new.seen r.value.now r.index r.is_new) }
        ensures cause { IfErr result (λ e. F.post make (Err e) ⊎ ((f : Fault) × E.from_gives f e)) }
        ensures limit { IfOk result (λ r. r.index < 2 ^ 32 - 1) }
    {
        let known = self.find_all(observed, query);
        if let Some((index, entry)) = known {
            return Ok(Inserted {
                value: entry.value(),
                index,
                is_new: false,
            });
        }
        let (key, value) = match make() {
            Ok(made) => made,
            Err(error) => return Err(error),
        };
        match self.insert_new_as(observed, key, value) {
            Ok(inserted) => Ok(inserted),
            Err(fault) => Err(E::from(Fault::from(fault))),
        }
    }
}
