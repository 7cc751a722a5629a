//! An iterator over the entries of a map that a handle has observed, and the printed form of a map.
ghost use Rattle.std.specs.Prelude.{◌≡◌, IfSome, Some, length};
ghost use Rattle.std.specs.Iterator.{UpTo, YieldsFirst, YieldsFirstBy, item_count};
ghost use Rattle.std.specs.Iterator.SizeHint.{IsWithinCount};
ghost use Rattle.elsa_lock_free.specs.SharedList.{items_of};
ghost use Rattle.elsa_lock_free_map.specs.Entries.{pair_of, pairs_of};

use crate::entries::{EntriesHandle, ObservedEntries};
use crate::map::LockFreeFrozenMap;
use elsa_hash_index::entry::Entry;
use elsa_tables::{AnyEntries, EntryRule};
use std::alloc::{Allocator, Global};
use std::fmt::{self, Debug, Formatter, Write};
use std::hash::{BuildHasher, BuildHasherDefault, FoldHasher, Hash};
use std::marker::Model;

/// An iterator over the entries that a handle has observed, each as its key and its value, in the
/// order of their insertion. Contracts see the entries that are left.
///
/// It borrows only the map, so the handle can be used meanwhile. An entry takes no atomic step, no
/// lock and no memory.
#[derive(Drop)]
pub struct MapIter<
    'm,
    K: Drop + Hash,
    V: Drop,
    S: BuildHasher + Copy + Drop = BuildHasherDefault<FoldHasher>,
    A: Allocator + Copy = Global,
    L: EntryRule<K, V> = AnyEntries,
> {
    entries: ObservedEntries<'m, K, V, S, A, L>,
    index: usize,
}

impl<
    'm,
    K: Drop + Hash,
    V: Drop,
    S: BuildHasher + Copy + Drop,
    A: Allocator + Copy,
    L: EntryRule<K, V>,
> Model for MapIter<'m, K, V, S, A, L> {
    ghost use Rattle.std.specs.Prelude.{◌≤◌, List, drop, length};
    ghost use Rattle.elsa_lock_free_map.specs.Entries.{pairs_of};

    ghost Value = { List (K × V) };

    ghost view = { λ it. drop it.index (pairs_of it.entries) };

    // `index` is an index of the entries, or the end.
    ghost invariant = { λ it. it.index ≤ length it.entries };
}

/// An iterator over the entries that a handle of the list has observed.
pub(crate) fn walk<
    'm,
    K: Drop + Hash,
    V: Drop,
    S: BuildHasher + Copy + Drop,
    A: Allocator + Copy,
    L: EntryRule<K, V>,
>(list: &EntriesHandle<'m, K, V, S, A, L>) -> MapIter<'m, K, V, S, A, L>
    ensures items { result ≡ pairs_of (items_of list.now.seen) }
{
    MapIter {
        entries: list.observed(),
        index: 0,
    }
}

impl<
    'm,
    K: Drop + Hash,
    V: Drop,
    S: BuildHasher + Copy + Drop,
    A: Allocator + Copy,
    L: EntryRule<K, V>,
> MapIter<'m, K, V, S, A, L> {
    /// Returns a reference to the next entry, which lives as long as the map is borrowed.
    #[inline]
    pub(crate) fn next_entry(&mut self) -> Option<&'m Entry<K, V, S>>
        ensures { YieldsFirstBy (λ e. pair_of e.now) (λ left. left) self.old result self.new }
    {
        if self.index >= self.entries.len() {
            return None;
        }
        let entry = self.entries.item(self.index);
        self.index += 1;
        Some(entry)
    }

    /// Returns the number of entries that are left.
    fn left(&self) -> usize
        ensures { result ≡ length self.now }
    {
        self.entries.len() - self.index
    }

    /// Returns an iterator over the entries that are left, each as references to its key and its
    /// value, in order. They live as long as the map is borrowed.
    ///
    /// # Cost
    /// `O(1)`, also for each entry.
    pub fn refs(self) -> MapRefs<'m, K, V, S, A, L>
        ensures items { result ≡ self.entry }
    {
        MapRefs { entries: self }
    }
}

impl<
    'm,
    K: Copy + Drop + Hash,
    V: Copy + Drop,
    S: BuildHasher + Copy + Drop,
    A: Allocator + Copy,
    L: EntryRule<K, V>,
> Iterator for MapIter<'m, K, V, S, A, L> {
    type Item = (K, V);

    ghost next_gives = { YieldsFirst (λ left. left) };

    ghost remaining = { item_count (λ left. left) };

    fn next(&mut self) -> Option<(K, V)> {
        let entry = self.next_entry()?;
        Some((entry.key, entry.value))
    }

    fn size_hint(&self) -> (usize, Option<usize>)
        ensures lower { IsWithinCount result.0 (item_count (λ left. left) self.now) }
        ensures upper { IfSome result.1 (UpTo (item_count (λ left. left) self.now)) }
        ensures exact { result ≡ (length self.now, Some (length self.now)) }
    {
        let left = self.left();
        (left, Some(left))
    }
}

/// An iterator over the entries that a [`MapIter`] had left, each as references to its key and its
/// value, in the order of their insertion. Contracts see the entries that are left.
#[derive(Drop)]
pub struct MapRefs<
    'm,
    K: Drop + Hash,
    V: Drop,
    S: BuildHasher + Copy + Drop = BuildHasherDefault<FoldHasher>,
    A: Allocator + Copy = Global,
    L: EntryRule<K, V> = AnyEntries,
> {
    entries: MapIter<'m, K, V, S, A, L>,
}

impl<
    'm,
    K: Drop + Hash,
    V: Drop,
    S: BuildHasher + Copy + Drop,
    A: Allocator + Copy,
    L: EntryRule<K, V>,
> Model for MapRefs<'m, K, V, S, A, L> {
    ghost use Rattle.std.specs.Prelude.{List};

    ghost Value = { List (K × V) };

    ghost view = { λ it. it.entries };
}

impl<
    'm,
    K: Drop + Hash,
    V: Drop,
    S: BuildHasher + Copy + Drop,
    A: Allocator + Copy,
    L: EntryRule<K, V>,
> Iterator for MapRefs<'m, K, V, S, A, L> {
    type Item = (&'m K, &'m V);

    ghost next_gives = { YieldsFirstBy (λ pair. (pair.0.now, pair.1.now)) (λ left. left) };

    ghost remaining = { item_count (λ left. left) };

    fn next(&mut self) -> Option<(&'m K, &'m V)> {
        let entry = self.entries.next_entry()?;
        Some((&entry.key, &entry.value))
    }

    fn size_hint(&self) -> (usize, Option<usize>)
        ensures lower { IsWithinCount result.0 (item_count (λ left. left) self.now) }
        ensures upper { IfSome result.1 (UpTo (item_count (λ left. left) self.now)) }
        ensures exact { result ≡ (length self.now, Some (length self.now)) }
    {
        let left = self.entries.left();
        (left, Some(left))
    }
}

/// `{:?}` writes the entries that one read of the length observes, in the order of their insertion,
/// as of std's maps: `{1: 10, 2: 20}`. It takes no lock, allocates nothing and never blocks.
impl<
    K: Copy + Drop + Hash + Debug,
    V: Copy + Drop + Debug,
    S: BuildHasher + Copy + Drop,
    A: Allocator + Copy,
    L: EntryRule<K, V>,
> Debug for LockFreeFrozenMap<K, V, S, A, L> {
    fn fmt<W: Write>(&self, f: &mut Formatter<W>) -> fmt::Result {
        let mut handle = self.handle();
        handle.len();
        f.debug_map().entries(handle.iter()).finish()
    }
}
