//! A handle of a map: the map together with a handle of its list.
//!
//! A handle belongs to its map by its type, so only the calls that take two handles, or a view,
//! have a condition. Each call of the map is written once: here, or for texts in `text`.
//!
//! A look-up reads through the handle itself: the entries that it has observed, and the row of
//! index entries next to each buffer of them.
ghost use Rattle.std.specs.Prelude.{◌≡◌, ◌↔◌, ◌⊎◌, ◌+◌, ◌≤◌, ◌<◌, ◌^◌, true, false, IsTrue, IfOk, IfErr, IfSome, IfNone, OnErr, Some, Ok, Err, alloc_error, length, slice_get};
ghost use Rattle.elsa_lock_free.specs.Attempts.{IfBusy};
ghost use Rattle.elsa_lock_free.specs.SharedList.{Continues, IsLaterPass, IsSamePass, Meet, SeesAlike, items_of, mine};
ghost use Rattle.elsa_lock_free.specs.Distinct.{AgreeOnIndices, IsOneToOne};
ghost use Rattle.elsa_hash_index.specs.declared.entry.Entry.{Entry};
ghost use Rattle.elsa_hash_index.specs.Entries.{keys_of};
ghost use Rattle.elsa_tables.specs.Rules.{HoldsAt};
ghost use Rattle.elsa_lock_free_map.specs.Entries.{AgreeOnEntries, FindsAt, GetsOrInserts, Has, HoldsEach, InsertsOnce, IsAt, Lacks, PushesPair, pairs_of};

use crate::entries::{
    EntriesHandle, Index, NewKeys, Query, all_obey, hash_of, one_to_one, same_index,
};
use crate::iter::{MapIter, walk};
use crate::map::{LockFreeFrozenMap, MapPass, copied};
use elsa_hash_index::entry::{Entry, Shelf, entered, lookup, regrown};
use elsa_hash_index::row::Row;
use elsa_lock_free::hold::{ATTEMPTS, Hold};
use elsa_lock_free::lock_free::Handle;
use elsa_lock_free::may_lock::{AttemptFault, Busy, LockPermit};
use elsa_tables::{AnyEntries, EntryRule, Inserted};
use indexmap::Equivalent;
use std::alloc::{AllocError, Allocator, Global};
use std::hash::{BuildHasher, BuildHasherDefault, FoldHasher, Hash};
use std::marker::Model;
use std::ops::Deref;
use std::sync::Wait;

/// The greatest number of entries: an index entry has 32 bits for an index plus 1.
const LIMIT: usize = (1 << 32) - 1;

/// A handle of a map's list, with the map's hash builder and allocator. Contracts see the handle's
/// view: its vector, its number as a writer, and the entries that it has observed. It has no
/// reference to the map, from which handles are made.
#[derive(Drop)]
pub struct MapHandle<
    'm,
    K: Drop + Hash,
    V: Drop,
    S: BuildHasher + Copy + Drop = BuildHasherDefault<FoldHasher>,
    A: Allocator + Copy = Global,
    L: EntryRule<K, V> = AnyEntries,
> {
    pub(crate) list: EntriesHandle<'m, K, V, S, A, L>,
    builder: S,
    alloc: A,
}

impl<
    'm,
    K: Drop + Hash,
    V: Drop,
    S: BuildHasher + Copy + Drop,
    A: Allocator + Copy,
    L: EntryRule<K, V>,
> Model for MapHandle<'m, K, V, S, A, L> {
    ghost use Rattle.elsa_lock_free.specs.SharedList.{View};
    ghost use Rattle.elsa_hash_index.specs.declared.entry.Entry.{Entry};

    ghost Value = { View (Entry K V S) };

    ghost view = { λ h. h.list };
}

// A handle is read as its view.
impl<
    'm,
    K: Drop + Hash,
    V: Drop,
    S: BuildHasher + Copy + Drop,
    A: Allocator + Copy,
    L: EntryRule<K, V>,
> Deref for MapHandle<'m, K, V, S, A, L> {
    ghost use Rattle.std.specs.Prelude.{◌≡◌};

    type Target = MapPass<K, V, S, A, L>;

    ghost deref_gives = { λ h p. p ≡ h };

    fn deref(&self) -> &MapPass<K, V, S, A, L> {
        &self.list
    }
}

impl<
    'm,
    K: Drop + Hash,
    V: Drop,
    S: BuildHasher + Copy + Drop,
    A: Allocator + Copy,
    L: EntryRule<K, V>,
> Shelf<K, V, S, A> for MapHandle<'m, K, V, S, A, L> {
    ghost use Rattle.std.specs.Prelude.{fold};
    ghost use Rattle.elsa_lock_free.specs.SharedList.{items_of};
    ghost use Rattle.elsa_lock_free_map.specs.Entries.{short};

    ghost seen = { λ h. items_of h.seen };

    ghost hash = { λ s k. short (S.Hasher.finish (fold S.Hasher.write (S.build_hasher s) (K.hash_input k))) };

    fn seen_len(&self) -> usize {
        self.list.obeys_rule();
        self.list.seen_len()
    }

    fn item<'b>(&'b self, index: usize) -> &'b Entry<K, V, S> {
        self.entry(index)
    }

    fn obeys_rule(&self) {
        self.list.obeys_rule();
    }

    fn row<'b>(&'b self, index: usize) -> &'b Row<S, A> {
        &self.list.beside(index).row
    }

    fn hash_of(&self, builder: S, key: &K) -> u32 {
        hash_of(&builder, key)
    }
}

impl<
    'm,
    K: Drop + Hash,
    V: Drop,
    S: BuildHasher + Copy + Drop,
    A: Allocator + Copy,
    L: EntryRule<K, V>,
> MapHandle<'m, K, V, S, A, L> {
    /// Makes a handle of a map and a view of it.
    pub fn of(map: &'m LockFreeFrozenMap<K, V, S, A, L>, pass: MapPass<K, V, S, A, L>) -> Self
        requires same_vector { pass.vector ≡ map.now }
        ensures same_view { result ≡ pass }
    {
        MapHandle {
            list: Handle::of(&map.list, pass),
            builder: map.builder,
            alloc: map.alloc,
        }
    }

    /// Returns the view, to store it or to move it to another thread.
    pub fn into_pass(self) -> MapPass<K, V, S, A, L>
        ensures same_view { result ≡ self.entry }
    {
        let MapHandle {
            list,
            builder: _,
            alloc: _,
        } = self;
        list.into_pass()
    }

    /// Returns the number of entries that the handle has observed, without an atomic step.
    ///
    /// # Cost
    /// `O(1)`.
    pub fn seen_len(&self) -> usize
        ensures length { result ≡ length self.now.seen }
        ensures limit { result < 2 ^ 32 }
    {
        self.list.obeys_rule();
        self.list.seen_len()
    }

    /// Returns the entry at an index that the handle has observed.
    pub(crate) fn entry(&self, index: usize) -> &'m Entry<K, V, S>
        requires seen { index < length self.now.seen }
        ensures { slice_get (items_of self.now.seen) index ≡ Some result.now }
    {
        self.list.item(index)
    }

    /// Returns the index of a key in the order of insertion, or `None` if none of the entries that
    /// the handle has observed has the key. It observes no more, as
    /// [`seen_get_full`](Self::seen_get_full).
    ///
    /// # Cost
    /// That of `seen_get_full`.
    // As a call of its own it costs a look-up a third more instructions.
    #[inline]
    pub fn seen_find<Q: Equivalent<K>>(&self, query: Q) -> Option<usize>
        ensures found { IfSome result (λ i.
            IsAt Q.equivalent (items_of self.now.seen) i query) }
        ensures within { IfSome result (λ i. i < length self.now.seen) }
        ensures absent { IfNone result (Lacks Q.equivalent (items_of self.now.seen) query) }
    {
        lookup(self, &Query { query })
    }

    /// Returns the index of a key in the order of insertion, and references to the key and its
    /// value, or `None` if none of the entries that the handle has observed has the key. A query is
    /// as in [`find`](Self::find). The references live as long as the map is borrowed.
    ///
    /// It doesn't read the length, so it doesn't find what other threads have inserted since: an
    /// entry is found exactly if its index is below [`seen_len`](Self::seen_len). It takes no lock,
    /// allocates nothing and never blocks.
    ///
    /// # Cost
    /// `O(1)` if the hashes differ.
    pub fn seen_get_full<Q: Equivalent<K>>(&self, query: Q) -> Option<(usize, &'m K, &'m V)>
        ensures found { IfSome result (λ r.
            FindsAt Q.equivalent (items_of self.now.seen) r.0 query r.1.now r.2.now) }
        ensures within { IfSome result (λ r. r.0 < length self.now.seen) }
        ensures holds { IfSome result (λ r. L.holds r.1.now r.2.now) }
        ensures absent { IfNone result (Lacks Q.equivalent (items_of self.now.seen) query) }
    {
        if let Some(index) = self.seen_find(query) {
            self.obeys_rule();
            let found = self.entry(index);
            return Some((index, &found.key, &found.value));
        }
        None
    }

    /// Returns a reference to the value of a key, or `None` if none of the entries that the handle
    /// has observed has the key. It observes no more, as [`seen_get_full`](Self::seen_get_full).
    ///
    /// # Cost
    /// That of `seen_get_full`.
    pub fn seen_get<Q: Equivalent<K>>(&self, query: Q) -> Option<&'m V>
        ensures found { IfSome result (λ v. Has Q.equivalent (items_of self.now.seen) query v.now) }
        ensures holds { IfSome result (λ v. HoldsAt L.holds (Q.equivalent query) v.now) }
        ensures absent { IfNone result (Lacks Q.equivalent (items_of self.now.seen) query) }
    {
        if let Some(seen) = self.seen_find(query) {
            self.obeys_rule();
            return Some(&self.entry(seen).value);
        }
        None
    }

    /// Returns the index of a key in the order of insertion, or `None` if no entry that the handle
    /// has then observed has the key. A query is a reference to a key, or another value that is
    /// [`Equivalent`] to keys.
    ///
    /// A key that the handle had observed is found without a read of the length. Otherwise the call
    /// reads the length, by one load, and looks the key up again if there are more entries. It
    /// takes no lock, allocates nothing and never blocks.
    ///
    /// # Cost
    /// `O(1)` if the hashes differ.
    pub fn find<Q: Equivalent<K>>(&mut self, query: Q) -> Option<usize>
        ensures continues { Continues self.old self.new }
        ensures found { IfSome result (λ i.
            IsAt Q.equivalent (items_of self.new.seen) i query) }
        ensures within { IfSome result (λ i. i < length self.new.seen) }
        ensures absent { IfNone result (Lacks Q.equivalent (items_of self.new.seen) query) }
    {
        let found = self.seen_find(query);
        if found.is_some() {
            return found;
        }
        let seen = self.list.seen_len();
        if self.list.len() == seen {
            return None;
        }
        self.seen_find(query)
    }

    /// Returns a reference to the value of a key, or `None` if no entry that the handle has then
    /// observed has the key. A query is as in [`find`](Self::find): a `&str`, for example, if the
    /// keys are `String`s. The reference lives as long as the map is borrowed.
    ///
    /// # Cost
    /// That of [`find`](Self::find).
    pub fn get_ref<Q: Equivalent<K>>(&mut self, query: Q) -> Option<&'m V>
        ensures continues { Continues self.old self.new }
        ensures found { IfSome result (λ v. Has Q.equivalent (items_of self.new.seen) query v.now) }
        ensures holds { IfSome result (λ v. HoldsAt L.holds (Q.equivalent query) v.now) }
        ensures absent { IfNone result (Lacks Q.equivalent (items_of self.new.seen) query) }
    {
        if let Some(index) = self.find(query) {
            self.obeys_rule();
            return Some(&self.entry(index).value);
        }
        None
    }

    /// Returns whether an entry has the key: `false` if no entry that the handle has then observed
    /// has it. A query is as in [`find`](Self::find).
    ///
    /// # Cost
    /// That of [`find`](Self::find).
    pub fn contains_key<Q: Equivalent<K>>(&mut self, query: Q) -> bool
        ensures continues { Continues self.old self.new }
        ensures present { result ≡ true →
            (v : V) × Has Q.equivalent (items_of self.new.seen) query v }
        ensures absent { result ≡ false → Lacks Q.equivalent (items_of self.new.seen) query }
    {
        self.get_ref(query).is_some()
    }

    /// Returns the number of entries, by one load of the length. It takes no lock, allocates
    /// nothing and never blocks.
    ///
    /// # Cost
    /// `O(1)`.
    pub fn len(&mut self) -> usize
        ensures continues { Continues self.old self.new }
        ensures length { result ≡ length self.new.seen }
        ensures limit { result < 2 ^ 32 }
        ensures fresh { length self.old.seen ≤ result }
    {
        let len = self.list.len();
        self.seen_len();
        len
    }

    /// Returns whether the map has `2^32 - 1` entries, the greatest number, by one load of the
    /// length. An insertion of a new key then fails. It takes no lock, allocates nothing and never
    /// blocks.
    ///
    /// # Cost
    /// `O(1)`.
    pub fn is_full(&mut self) -> bool
        ensures continues { Continues self.old self.new }
        ensures full { IsTrue result ↔ (2 ^ 32 ≤ length self.new.seen + 1) }
    {
        LIMIT <= self.list.len()
    }

    /// Ends a hold with an entry at the end, if its memory can be allocated. Where a buffer begins,
    /// its row is filled with all keys before the entry. Where it fails, the key and the value are
    /// dropped after the end of the hold: their `Drop` may use the map.
    fn publish_new(
        &mut self,
        hold: Hold<'m, Entry<K, V, S>, A, NewKeys<S, L>, Index<S, A>>,
        key: K,
        value: V,
    ) -> Result<(), AllocError>
        requires held { SeesAlike hold self.old }
        requires room { length hold.seen + 1 < 2 ^ 32 }
        requires absent { Lacks K.eq (items_of hold.seen) key }
        requires rule { L.holds key value }

        // The entry is the last, by this handle. If the call fails, nothing changes.
        ensures pushed { IfOk result (λ _. IsSamePass self.old self.new
            × PushesPair self.old self.new key value) }
        ensures refused { IfErr result (λ _. self.new ≡ self.old) }
    {
        if hold.begins_buffer() {
            let count = 6 * (self.list.seen_len() + 1);
            let Ok((row, seen)) = regrown(self, self.alloc, count, self.builder, &key) else {
                hold.release(&mut self.list);
                return Err(AllocError);
            };
            hold.publish_first(&mut self.list, Entry { key, value, seen }, Index { row })?;
            return Ok(());
        }
        let Ok(seen) = entered(self, &key) else {
            hold.release(&mut self.list);
            return Err(AllocError);
        };
        hold.publish(&mut self.list, Entry { key, value, seen });
        Ok(())
    }

    /// Pushes an entry at the length that the handle has observed, if its key is in none of those
    /// entries. Returns its index, or the key and the value if the list is longer.
    fn push_absent<R: Wait>(
        &mut self,
        rt: &R,
        key: K,
        value: V,
    ) -> Result<Result<usize, (K, V)>, AllocError>
        requires absent { Lacks K.eq (items_of self.old.seen) key }
        requires rule { L.holds key value }

        // The entry is pushed, or the list has grown and the pair comes back, or the push failed.
        ensures later { IsLaterPass self.old self.new }
        ensures pushed { IfOk result (λ a. IfOk a (λ i.
            (i ≡ length self.old.seen) × PushesPair self.old self.new key value)) }
        ensures again { IfOk result (λ a. IfErr a (λ pair. (pair ≡ (key, value))
            × (mine self.new ≡ mine self.old))) }
        ensures refused { IfErr result (λ e. mine self.new ≡ mine self.old) }
    {
        let n = self.list.seen_len();
        if n >= LIMIT {
            return Err(AllocError);
        }
        let Some(hold) = self.list.hold(rt) else {
            return Ok(Err((key, value)));
        };
        self.publish_new(hold, key, value)?;
        Ok(Ok(n))
    }

    /// Inserts a key that the handle has not observed: the entry is pushed, or another thread has
    /// inserted the key meanwhile, and key and value are dropped.
    pub(crate) fn insert_absent<R: Wait>(
        &mut self,
        rt: &R,
        key: K,
        value: V,
    ) -> Result<Inserted<&'m V, usize>, AllocError>
        requires absent { Lacks K.eq (items_of self.old.seen) key }
        requires rule { L.holds key value }

        // The first value of a key stays. If the insertion fails, the view has inserted nothing.
        ensures later { IsLaterPass self.old self.new }
        ensures inserted { IfOk result (λ r. InsertsOnce K.eq self.old self.new key
            (record { value = r.value.now; index = r.index; is_new = r.is_new })) }
        ensures own_value { IfOk result (λ r. r.is_new ≡ true → r.value.now ≡ value) }
        ensures refused { IfErr result (λ e. mine self.new ≡ mine self.old) }
    {
        let mut pair = (key, value);
        for _ in rt.forever() {
            let (key, value) = pair;
            match self.push_absent(rt, key, value)? {
                Ok(index) => {
                    return Ok(Inserted {
                        value: &self.entry(index).value,
                        index,
                        is_new: true,
                    });
                }
                Err((key, value)) => {
                    if let Some(index) = self.seen_find(&key) {
                        return Ok(Inserted {
                            value: &self.entry(index).value,
                            index,
                            is_new: false,
                        });
                    }
                    pair = (key, value);
                }
            }
        }
        unreachable!()
    }

    /// Pushes an entry at the length that the handle has observed, as
    /// [`push_absent`](Self::push_absent) does, but never blocks.
    fn try_push_absent(
        &mut self,
        may: LockPermit,
        key: K,
        value: V,
    ) -> Result<Result<usize, (K, V)>, AttemptFault<(K, V)>>
        requires absent { Lacks K.eq (items_of self.old.seen) key }
        requires rule { L.holds key value }

        // The entry is pushed, or the list has grown, or the attempt failed and the pair comes
        // back.
        ensures later { IsLaterPass self.old self.new }
        ensures pushed { IfOk result (λ a. IfOk a (λ i.
            (i ≡ length self.old.seen) × PushesPair self.old self.new key value)) }
        ensures again { IfOk result (λ a. IfErr a (λ pair. (pair ≡ (key, value))
            × (mine self.new ≡ mine self.old))) }
        ensures refused { IfErr result (λ f. (mine self.new ≡ mine self.old)
            × IfBusy f (λ pair. pair ≡ (key, value))) }
    {
        let n = self.list.seen_len();
        if n >= LIMIT {
            return Err(AttemptFault::Failed(AllocError));
        }
        match self.list.try_hold(may) {
            Ok(Some(hold)) => match self.publish_new(hold, key, value) {
                Ok(()) => Ok(Ok(n)),
                Err(AllocError) => Err(AttemptFault::Failed(AllocError)),
            },
            Ok(None) => Ok(Err((key, value))),
            Err(Busy) => Err(AttemptFault::Busy((key, value))),
        }
    }

    /// Inserts a key that the handle has not observed, as [`insert_absent`](Self::insert_absent)
    /// does, but never blocks.
    pub(crate) fn try_insert_absent(
        &mut self,
        may: LockPermit,
        key: K,
        value: V,
    ) -> Result<Inserted<&'m V, usize>, AttemptFault<(K, V)>>
        requires absent { Lacks K.eq (items_of self.old.seen) key }
        requires rule { L.holds key value }

        // The first value of a key stays. If the insertion fails, the view has inserted nothing.
        ensures later { IsLaterPass self.old self.new }
        ensures inserted { IfOk result (λ r. InsertsOnce K.eq self.old self.new key
            (record { value = r.value.now; index = r.index; is_new = r.is_new })) }
        ensures own_value { IfOk result (λ r. r.is_new ≡ true → r.value.now ≡ value) }
        ensures refused { IfErr result (λ f. (mine self.new ≡ mine self.old)
            × IfBusy f (λ pair. pair ≡ (key, value))) }
    {
        let mut pair = (key, value);
        for _ in 0..ATTEMPTS {
            let (key, value) = pair;
            match self.try_push_absent(may, key, value)? {
                Ok(index) => {
                    return Ok(Inserted {
                        value: &self.entry(index).value,
                        index,
                        is_new: true,
                    });
                }
                Err((key, value)) => {
                    if let Some(at) = self.seen_find(&key) {
                        return Ok(Inserted {
                            value: &self.entry(at).value,
                            index: at,
                            is_new: false,
                        });
                    }
                    pair = (key, value);
                }
            }
        }
        Err(AttemptFault::Busy(pair))
    }

    /// Inserts a key and its value unless a thread has inserted an equal key: the first insertion
    /// wins, for every thread. Returns a reference to the value that the key then has, its index in
    /// the order of insertion, and whether it is new. The reference lives as long as the map is
    /// borrowed. If the key isn't new, `key` and `value` are dropped.
    ///
    /// A key that the handle has observed is found without a read of the length.
    ///
    /// # Errors
    /// Fails if an allocation fails, or if the map has `2^32 - 1` entries; never for a key that the
    /// handle has observed. Then nothing is inserted, and `key` and `value` are dropped; the same
    /// insertion may succeed later.
    ///
    /// # Blocks
    /// While another thread pushes, unless the handle has observed the key.
    ///
    /// # Allocates
    /// A buffer and its row of index entries, four times as large as the ones before, if a buffer
    /// begins.
    ///
    /// # Cost
    /// `O(1)` if the hashes differ. If a buffer begins, `O(n)`: its row is filled with all keys.
    pub fn insert_ref<R: Wait>(
        &mut self,
        rt: &R,
        key: K,
        value: V,
    ) -> Result<Inserted<&'m V, usize>, AllocError>
        requires rule { L.holds key value }
        ensures later { IsLaterPass self.old self.new }
        ensures inserted { IfOk result (λ r. InsertsOnce K.eq self.old self.new key
            (record { value = r.value.now; index = r.index; is_new = r.is_new })) }
        ensures value { IfOk result (λ r. (r.is_new ≡ true → r.value.now ≡ value)
            × HoldsAt L.holds (K.eq key) r.value.now) }
        ensures refused { IfErr result (λ e. mine self.new ≡ mine self.old) }
        ensures only_new { OnErr result (Lacks K.eq (items_of self.old.seen) key) }
    {
        if let Some(earlier) = self.seen_find(&key) {
            self.one_to_one();
            self.obeys_rule();
            return Ok(Inserted {
                value: &self.entry(earlier).value,
                index: earlier,
                is_new: false,
            });
        }
        let inserted = self.insert_absent(rt, key, value)?;
        self.obeys_rule();
        Ok(inserted)
    }

    /// Inserts a key and its value, as [`insert_ref`](Self::insert_ref) does, but never waits for
    /// the lock.
    ///
    /// # Errors
    /// Fails with `Busy` if another thread has the lock, or has inserted first in each of four
    /// attempts: the error has the key and the value. Fails with `Failed` where `insert_ref` fails:
    /// `key` and `value` are dropped. In both cases nothing is inserted, and the handle had not
    /// observed the key; the same insertion may succeed later.
    ///
    /// # Allocates
    /// A buffer and its row of index entries, as `insert_ref` does. The call then has the lock
    /// while it enters all keys into the row. That takes long and waits for no thread but in the
    /// allocator; the insertions of other threads find the map busy meanwhile.
    ///
    /// # Cost
    /// That of `insert_ref`, with at most four exchanges of the state word to take the lock.
    pub fn try_insert_ref(
        &mut self,
        may: LockPermit,
        key: K,
        value: V,
    ) -> Result<Inserted<&'m V, usize>, AttemptFault<(K, V)>>
        requires rule { L.holds key value }
        ensures later { IsLaterPass self.old self.new }
        ensures inserted { IfOk result (λ r. InsertsOnce K.eq self.old self.new key
            (record { value = r.value.now; index = r.index; is_new = r.is_new })) }
        ensures value { IfOk result (λ r. (r.is_new ≡ true → r.value.now ≡ value)
            × HoldsAt L.holds (K.eq key) r.value.now) }
        ensures refused { IfErr result (λ f. (mine self.new ≡ mine self.old)
            × IfBusy f (λ pair. pair ≡ (key, value))) }
        ensures only_new { OnErr result (Lacks K.eq (items_of self.old.seen) key) }
    {
        if let Some(observed) = self.seen_find(&key) {
            self.one_to_one();
            self.obeys_rule();
            return Ok(Inserted {
                value: &self.entry(observed).value,
                index: observed,
                is_new: false,
            });
        }
        let inserted = self.try_insert_absent(may, key, value)?;
        self.obeys_rule();
        Ok(inserted)
    }

    /// Inserts a key with the value that `make` returns, unless a thread has inserted an equal key.
    /// Returns a reference to the value that the key then has, as
    /// [`insert_ref`](Self::insert_ref) does.
    ///
    /// If the handle finds the key, as [`find`](Self::find) does, the call doesn't call `make`.
    /// Otherwise `make` runs under no lock, and may use the map by another handle. If another
    /// thread then inserts the key first, `key` and the value of `make` are dropped.
    ///
    /// # Errors
    /// Fails if an allocation fails, or if the map has `2^32 - 1` entries. Then nothing is
    /// inserted, and `key` and the value of `make` are dropped; the same insertion may succeed
    /// later.
    ///
    /// # Blocks
    /// While another thread pushes, unless the key was found.
    ///
    /// # Allocates
    /// As [`insert_ref`](Self::insert_ref) does, unless the key was found.
    ///
    /// # Cost
    /// That of [`find`](Self::find) if it finds the key. Otherwise that of `insert_ref` besides.
    pub fn get_or_insert_with<R: Wait, F: FnOnce() -> V + Drop>(
        &mut self,
        rt: &R,
        key: K,
        make: F,
    ) -> Result<Inserted<&'m V, usize>, AllocError>
        requires callable { Lacks K.eq (items_of self.old.seen) key → F.pre make }
        requires rule { (v : V) → F.post make v → L.holds key v }

        // The first value of a key stays, and a new one was made by `make`.
        ensures later { IsLaterPass self.old self.new }
        ensures inserted { IfOk result (λ r. InsertsOnce K.eq self.old self.new key
            (record { value = r.value.now; index = r.index; is_new = r.is_new })) }
        ensures value { IfOk result (λ r. (r.is_new ≡ true → F.post make r.value.now)
            × HoldsAt L.holds (K.eq key) r.value.now) }
        ensures refused { IfErr result (λ e. mine self.new ≡ mine self.old) }
        ensures only_new { OnErr result (Lacks K.eq (items_of self.old.seen) key) }
    {
        if let Some(known) = self.find(&key) {
            self.one_to_one();
            self.obeys_rule();
            return Ok(Inserted {
                value: &self.entry(known).value,
                index: known,
                is_new: false,
            });
        }
        let inserted = self.insert_absent(rt, key, make())?;
        self.obeys_rule();
        Ok(inserted)
    }

    /// Looks up the key that `query` finds, and inserts the key and the value that `make` returns
    /// if there is no such key: both are made only if they are needed, and `make` may fail.
    ///
    /// `make` runs under no lock, and may use the map by another handle. If the map then has the
    /// key that `make` returned, the first value of that key stays, and the made ones are dropped.
    ///
    /// # Errors
    /// Fails with the error of `make`, or with one that is made of an `AllocError` if an allocation
    /// fails or the map has `2^32 - 1` entries. Then nothing is inserted, and what `make` returned
    /// is dropped; the same insertion may succeed later.
    ///
    /// # Blocks
    /// While another thread pushes, unless the key was found.
    ///
    /// # Allocates
    /// As [`insert_ref`](Self::insert_ref) does, unless the key was found.
    ///
    /// # Cost
    /// That of [`find`](Self::find) if it finds the key. Otherwise that of `insert_ref` besides.
    pub fn insert_by<R, Q, E, F>(
        &mut self,
        rt: &R,
        query: Q,
        make: F,
    ) -> Result<Inserted<&'m V, usize>, E>
    where
        R: Wait,
        Q: Equivalent<K>,
        E: From<AllocError>,
        F: FnOnce() -> Result<(K, V), E> + Drop,
        requires callable { Lacks Q.equivalent (items_of self.old.seen) query → F.pre make }
        requires rule { (k : K) (v : V) → F.post make (Ok (k, v)) → L.holds k v }
        ensures later { IsLaterPass self.old self.new }
        ensures inserted { IfOk result (λ r. GetsOrInserts K.eq Q.equivalent
            (λ k v. F.post make (Ok (k, v))) self.old self.new query
            (record { value = r.value.now; index = r.index; is_new = r.is_new })) }
        ensures holds { IfOk result (λ r. HoldsAt L.holds (Q.equivalent query) r.value.now
            ⊎ ((k : K) × (v : V) × F.post make (Ok (k, v))
            × HoldsAt L.holds (K.eq k) r.value.now)) }
        ensures refused { IfErr result (λ e. (mine self.new ≡ mine self.old)
            × (F.post make (Err e) ⊎ E.from_gives alloc_error e)) }
        ensures only_new { OnErr result (Lacks Q.equivalent (items_of self.old.seen) query) }
    {
        if let Some(present) = self.find(query) {
            self.one_to_one();
            self.obeys_rule();
            return Ok(Inserted {
                value: &self.entry(present).value,
                index: present,
                is_new: false,
            });
        }
        let (key, value) = match make() {
            Ok(made) => made,
            Err(error) => return Err(error),
        };
        match self.insert_ref(rt, key, value) {
            Ok(inserted) => Ok(inserted),
            Err(failed) => Err(E::from(failed)),
        }
    }

    /// Proves that each entry that the handle has observed obeys the rule. It does nothing at run
    /// time.
    pub fn obeys_rule(&self)
        ensures { HoldsEach L.holds (items_of self.now.seen) }
    {
        all_obey(&self.list);
    }

    /// Proves that equal keys that the handle has observed are at one index. It does nothing at run
    /// time.
    pub fn one_to_one(&self)
        ensures { IsOneToOne K.eq (keys_of (items_of self.now.seen)) }
    {
        one_to_one(&self.list);
    }

    /// Proves that equal keys that two handles of a map have observed are at one index and have one
    /// value, whether the handles were merged or not. It does nothing at run time.
    pub fn same_index(&self, other: &MapHandle<'_, K, V, S, A, L>)
        requires same_vector { self.now.vector ≡ other.now.vector }
        ensures index { AgreeOnIndices K.eq (keys_of (items_of self.now.seen))
            (keys_of (items_of other.now.seen)) }
        ensures value { AgreeOnEntries K.eq (items_of self.now.seen) (items_of other.now.seen) }
    {
        same_index(&self.list, &other.list);
    }

    /// Merges what two handles of a map have observed: afterwards both have observed the longer
    /// list. The indices at which each has inserted stay its own, and no index belongs to both. It
    /// takes no atomic step, allocates nothing and never blocks.
    ///
    /// # Cost
    /// `O(1)`.
    pub fn meet(&mut self, other: &mut MapHandle<'_, K, V, S, A, L>)
        requires same_vector { self.old.vector ≡ other.old.vector }
        ensures { Meet self.old self.new other.old other.new }
    {
        self.list.meet(&mut other.list)
    }

    /// Returns an iterator over the entries that the handle has observed, each once, in the order
    /// of their insertion. It yields copies of `Copy` keys and values; for any types, its
    /// [`refs`](MapIter::refs) yield references.
    ///
    /// It doesn't read the length: it takes no atomic step and no lock, and
    /// allocates nothing. It doesn't yield insertions that the handle has not observed;
    /// [`len`](Self::len) observes them.
    ///
    /// # Cost
    /// `O(1)`, also for each entry.
    pub fn iter(&self) -> MapIter<'m, K, V, S, A, L>
        ensures items { result ≡ pairs_of (items_of self.now.seen) }
    {
        walk(&self.list)
    }
}

impl<
    'm,
    K: Copy + Drop + Hash,
    V: Copy + Drop,
    S: BuildHasher + Copy + Drop,
    A: Allocator + Copy,
    L: EntryRule<K, V>,
> MapHandle<'m, K, V, S, A, L> {
    /// Returns the value of a key, or `None` if no entry that the handle has then observed has the
    /// key.
    ///
    /// # Cost
    /// That of [`find`](Self::find).
    pub fn get(&mut self, key: K) -> Option<V>
        ensures continues { Continues self.old self.new }
        ensures found { IfSome result (λ v. Has K.eq (items_of self.new.seen) key v) }
        ensures holds { IfSome result (HoldsAt L.holds (K.eq key)) }
        ensures absent { IfNone result (Lacks K.eq (items_of self.new.seen) key) }
    {
        Some(*self.get_ref(&key)?)
    }

    /// Inserts a key with its value, as [`insert_ref`](Self::insert_ref) does, and returns a copy
    /// of the value that the key has.
    ///
    /// # Errors
    /// Fails if an allocation fails, or if the map has `2^32 - 1` entries; never for a key that the
    /// handle has observed. Nothing is inserted; the same insertion may succeed later.
    ///
    /// # Blocks
    /// While another thread pushes, unless the handle has observed the key.
    pub fn insert<R: Wait>(
        &mut self,
        rt: &R,
        key: K,
        value: V,
    ) -> Result<Inserted<V, usize>, AllocError>
        requires rule { L.holds key value }
        ensures later { IsLaterPass self.old self.new }
        ensures inserted { IfOk result (λ r. InsertsOnce K.eq self.old self.new key r) }
        ensures value { IfOk result (λ r. (r.is_new ≡ true → r.value ≡ value)
            × HoldsAt L.holds (K.eq key) r.value) }
        ensures refused { IfErr result (λ e. mine self.new ≡ mine self.old) }
        ensures only_new { OnErr result (Lacks K.eq (items_of self.old.seen) key) }
    {
        Ok(copied(self.insert_ref(rt, key, value)?))
    }

    /// Inserts a key with its value, as [`try_insert_ref`](Self::try_insert_ref) does, and returns
    /// a copy of the value that the key has. It never waits for the lock.
    ///
    /// # Errors
    /// Fails as `try_insert_ref` does. Nothing is inserted; the same insertion may succeed later.
    pub fn try_insert(
        &mut self,
        may: LockPermit,
        key: K,
        value: V,
    ) -> Result<Inserted<V, usize>, AttemptFault<(K, V)>>
        requires rule { L.holds key value }
        ensures later { IsLaterPass self.old self.new }
        ensures inserted { IfOk result (λ r. InsertsOnce K.eq self.old self.new key r) }
        ensures value { IfOk result (λ r. (r.is_new ≡ true → r.value ≡ value)
            × HoldsAt L.holds (K.eq key) r.value) }
        ensures refused { IfErr result (λ f. (mine self.new ≡ mine self.old)
            × IfBusy f (λ pair. pair ≡ (key, value))) }
        ensures only_new { OnErr result (Lacks K.eq (items_of self.old.seen) key) }
    {
        Ok(copied(self.try_insert_ref(may, key, value)?))
    }

    /// Returns the key and the value at an index in the order of insertion, or `None` if the index
    /// is not below the number of entries that the handle has then observed. It takes no lock,
    /// allocates nothing and never blocks.
    ///
    /// # Cost
    /// `O(1)`.
    pub fn get_index(&mut self, index: usize) -> Option<(K, V)>
        ensures continues { Continues self.old self.new }
        ensures found { IfSome result (λ r. (e : Entry K V S) ×
            (slice_get (items_of self.new.seen) index ≡ Some e)
            × (r ≡ (e.key, e.value))) }
        ensures absent { IfNone result (length self.new.seen ≤ index) }
    {
        if index < self.list.seen_len() {
            let entry = self.entry(index);
            return Some((entry.key, entry.value));
        }
        if index < self.list.len() {
            let entry = self.entry(index);
            return Some((entry.key, entry.value));
        }
        None
    }
}
