// The state of a map: the list of its entries, and the table that finds the index of each key.
ghost use Rattle.std.specs.Prelude.{◌≡◌, ◌++◌, ◌∷◌, ◌<◌, ◌≤◌, ◌-◌, ◌^◌, [], length, map, position, slice_get, IfErr, IfOk, None, OnErr, Some};
ghost use Rattle.elsa_cell.specs.Entries.{IsMapOf, key_of};
ghost use Rattle.elsa_cell.specs.declared.map.Entry.{Entry};

use crate::indices::{Indices, KeyList, Seeks};
use crate::map::Entry;
use boxcar::tag::Tag;
use counted_slot::Fits;
use elsa_arena::invariant::Invariant;
use elsa_arena::observed::{Observed, Seen};
use elsa_arena::shared::Shared;
use elsa_arena::state::{self, State, push_item};
use elsa_slots::slots::{Sink, Slots};
use elsa_tables::{AnyEntries, EntryRule};
use std::alloc::{AllocError, Allocator, Global};
use std::marker::PhantomData;

/// The greatest number of entries: a table has 32 bits for an index plus 1.
pub(crate) const MOST: usize = 0xFFFF_FFFF;

/// The limit of a map, and its rule `R`.
pub struct OfMap<R> {
    rule: PhantomData<R>,
}

impl<K, V, R: EntryRule<K, V>> Invariant<Entry<K, V>> for OfMap<R> {
    ghost use Rattle.std.specs.Prelude.{◌-◌, ◌^◌};

    ghost most = { 2 ^ 32 - 1 };

    ghost holds = { λ e. R.holds e.key e.value };
}

/// A receiver of entries, as pairs.
#[derive(Drop)]
pub(crate) struct Pairs<K, V, Z: Allocator> {
    pub(crate) items: Vec<(K, V), Z>,
}

#[tactic(auto, using(crate::proofs::EntryLemmas::entries_push))]
impl<K, V, Z: Allocator> Sink<Entry<K, V>> for Pairs<K, V, Z> {
    ghost use Rattle.std.specs.Prelude.{vec_capacity};
    ghost use Rattle.elsa_cell.specs.Entries.{entries_of};

    ghost received = { λ p. entries_of p.items.items };

    ghost capacity = { λ p. vec_capacity p.items };

    #[inline(always)]
    fn receive(&mut self, item: Entry<K, V>) {
        let Entry { key, value } = item;
        self.items.push_reserved((key, value));
    }
}

/// A receiver of entries without values, as their keys.
#[derive(Drop)]
pub(crate) struct Keys<K, Z: Allocator> {
    pub(crate) items: Vec<K, Z>,
}

#[tactic(auto, using(crate::proofs::EntryLemmas::alone_push))]
impl<K, Z: Allocator> Sink<Entry<K, ()>> for Keys<K, Z> {
    ghost use Rattle.std.specs.Prelude.{vec_capacity};
    ghost use Rattle.elsa_cell.specs.Entries.{alone};

    ghost received = { λ p. alone p.items.items };

    ghost capacity = { λ p. vec_capacity p.items };

    #[inline(always)]
    fn receive(&mut self, item: Entry<K, ()>) {
        let Entry { key, value: _ } = item;
        self.items.push_reserved(key);
    }
}

/// What was observed of a map: a prefix of its entries.
pub type ObservedEntries<'m, K, V, A = Global, R = AnyEntries> = Observed<
    'm,
    Entry<K, V>,
    A,
    OfMap<R>,
>;

/// Evidence of what was observed of a map ([`Seen`]).
pub type SeenEntries<K, V, A = Global, R = AnyEntries> = Seen<Entry<K, V>, A, OfMap<R>>;

/// The keys of observed entries.
impl<K, V, A: Allocator + Copy, L: Invariant<Entry<K, V>>> KeyList<K>
    for Observed<'_, Entry<K, V>, A, L> {
    ghost use Rattle.std.specs.Prelude.{map};
    ghost use Rattle.elsa_cell.specs.Entries.{key_of};

    ghost keys = { λ o. map key_of o.seen };

    #[inline(always)]
    fn key_at(&self, index: usize) -> &K {
        self.item(index).key()
    }
}

/// The list of a map's entries, and the table of their indices.
#[derive(Drop)]
pub(crate) struct MapState<K: Drop, V, T: Indices<K> + Drop, A: Allocator + Copy> {
    pub(crate) list: State<Entry<K, V>, A>,
    pub(crate) table: T,
}

impl<K: Drop, V, T: Indices<K> + Drop, A: Allocator + Copy> Fits for MapState<K, V, T, A> {
    ghost use Rattle.elsa_cell.specs.Entries.{IsMapOf};

    type Tag = Tag;

    ghost fits = { λ tag state. IsMapOf T.is_for tag.numbers state.list state.table };
}

/// A state on the heap, so that a call which takes it out of its cell moves a pointer. Its entries
/// obey the rule `R`.
#[derive(Drop)]
pub(crate) struct Parked<
    K: Drop,
    V,
    T: Indices<K> + Drop,
    A: Allocator + Copy,
    R: EntryRule<K, V>,
> {
    pub(crate) state: Box<MapState<K, V, T, A>, A>,
    pub(crate) rule: PhantomData<R>,
}

impl<K: Drop, V, T: Indices<K> + Drop, A: Allocator + Copy, R: EntryRule<K, V>> Fits
    for Parked<K, V, T, A, R> {
    ghost use Rattle.elsa_cell.specs.Entries.{HoldsEach, IsMapOf};

    type Tag = Tag;

    ghost fits = { λ tag p. IsMapOf T.is_for tag.numbers p.state.value.list p.state.value.table
        × HoldsEach R.holds p.state.value.list.prefix.items };
}

impl<K: Drop, V, T: Indices<K> + Drop, A: Allocator + Copy, R: EntryRule<K, V>> Parked<
    K,
    V,
    T,
    A,
    R,
> {
    /// Marks a state, whose entries obey the rule.
    #[inline(always)]
    pub(crate) fn of(state: Box<MapState<K, V, T, A>, A>) -> Parked<K, V, T, A, R>
        ensures { result.state ≡ state }
    {
        Parked {
            state,
            rule: PhantomData,
        }
    }
}

/// Stores the first state of a map on the heap, in a cell.
///
/// # Errors
/// Fails if an allocation fails.
#[inline(always)]
pub(crate) fn park<K: Drop, V, T: Indices<K> + Drop, A: Allocator + Copy, R: EntryRule<K, V>>(
    alloc: A,
    state: MapState<K, V, T, A>,
    tag: &Tag,
) -> Result<Shared<Parked<K, V, T, A, R>>, AllocError>
    requires state { IsMapOf T.is_for tag.now.numbers state.list state.table }
    requires empty { state.list.prefix.items ≡ [] }
    ensures { IfOk result (λ s. s ≡ tag.now) }
{
    let Ok(state) = Box::new(alloc, state) else {
        return Err(AllocError);
    };
    Ok(Shared::new(Parked::of(state), tag))
}

impl<K: Drop, V, T: Indices<K> + Drop, A: Allocator + Copy> MapState<K, V, T, A> {
    /// Returns the list, and drops the table.
    pub(crate) fn into_list(self) -> State<Entry<K, V>, A>
        ensures { result ≡ self.list }
    {
        let MapState {
            list,
            table: _table,
        } = self;
        list
    }

    /// Returns the index of the key that `query` finds in the entries of the list. It allocates
    /// nothing.
    #[inline(always)]
    pub(crate) fn find<Q: Seeks<K, T>, L: Invariant<Entry<K, V>>>(
        &self,
        entries: &Observed<'_, Entry<K, V>, A, L>,
        query: Q,
    ) -> Option<usize>
        requires { T.is_for self.now.table (map key_of entries.now.seen) }
        ensures { result ≡ position (Q.finds query) (map key_of entries.now.seen) }
    {
        query.seek(&self.table, entries)
    }

    /// Returns the index of the key that equals `key`, or `Err` with the end of the search. It
    /// allocates nothing.
    #[inline(always)]
    pub(crate) fn seek<L: Invariant<Entry<K, V>>>(
        &self,
        entries: &Observed<'_, Entry<K, V>, A, L>,
        key: &K,
    ) -> Result<usize, T::End>
        requires { T.is_for self.now.table (map key_of entries.now.seen) }
        ensures found { IfOk result (λ i.
            position (T.same key.now) (map key_of entries.now.seen) ≡ Some i) }
        ensures absent { OnErr result (
            position (T.same key.now) (map key_of entries.now.seen) ≡ None) }
        ensures end { IfErr result (λ e.
            T.ends self.now.table (map key_of entries.now.seen) key.now e) }
    {
        self.table.seek(entries, key)
    }

    /// Makes room for `additional` more entries.
    ///
    /// # Errors
    /// Fails if an allocation fails.
    pub(crate) fn reserve(
        &mut self,
        slots: &Slots<Entry<K, V>, A>,
        additional: usize,
    ) -> Result<(), AllocError>
        requires { IsMapOf T.is_for slots.now self.old.list self.old.table }
        ensures state { IsMapOf T.is_for slots.now self.new.list self.new.table }
        ensures same { self.new.list.prefix.items ≡ self.old.list.prefix.items }
    {
        self.table.reserve_more(additional)?;
        state::reserve(slots, &mut self.list, additional)
    }

    /// Appends an entry whose key the map lacks, and returns its index and a reference to it. `end`
    /// is the end of a search for the key.
    ///
    /// # Errors
    /// Fails with `entry` itself if an allocation fails, or if the map has the greatest number of
    /// entries.
    pub(crate) fn add<'v>(
        &mut self,
        slots: &'v Slots<Entry<K, V>, A>,
        end: T::End,
        entry: Entry<K, V>,
    ) -> Result<(usize, &'v Entry<K, V>), Entry<K, V>>
        requires state { IsMapOf T.is_for slots.now self.old.list self.old.table }
        requires absent { position (T.same entry.key) (map key_of self.old.list.prefix.items) ≡ None }
        requires end { T.ends self.old.table (map key_of self.old.list.prefix.items) entry.key end }

        // The entry is the last one, or the list is unchanged.
        ensures state { IsMapOf T.is_for slots.now self.new.list self.new.table }
        ensures pushed { IfOk result (λ r. (r.0 ≡ length self.old.list.prefix.items)
            × (r.1.now ≡ entry)
            × (self.new.list.prefix.items ≡ self.old.list.prefix.items ++ entry ∷ [])) }
        ensures refused { IfErr result (λ e. (e ≡ entry)
            × (self.new.list.prefix.items ≡ self.old.list.prefix.items)) }
    {
        if self.list.count >= MOST {
            return Err(entry);
        }
        let Ok(room) = self.table.reserve(end) else {
            return Err(entry);
        };
        match push_item(slots, &mut self.list, entry) {
            Ok(pushed) => {
                self.table.add(room);
                Ok(pushed)
            }
            Err(entry) => Err(entry),
        }
    }
}
