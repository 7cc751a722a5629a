//! [`Items`]: the items of a collection so far, for reads that don't need the collection's state.
ghost use Rattle.std.specs.Prelude.{◌≡◌, ◌<◌, ◌≤◌, ◌-◌, ℕ, [], length, IfOk, IfSome};
ghost use Rattle.std.specs.List.Sorted.{IsSearchInRange};
ghost use mathlib.Core.List.{IsPrefix};
ghost use Rattle.elsa_arena.specs.Observed.{Continues, EachHolds};

use crate::invariant::{Invariant, OfList};
use crate::kept::Kept;
use crate::observed::{Iter, Observed, Seen};
use crate::shared::OfSlots;
use boxcar::tag::Tag;
use elsa_slots::slots::{Buffer, Slots, WriteRights, WrittenPrefix};
use std::alloc::{AllocError, Allocator, Global};
use std::cmp::Ordering;
use std::marker::{Model, PhantomData};

/// The items of a collection so far. Lists, maps and sets dereference to it, so its reads are
/// theirs. A read never fails, also inside another call of the collection or while a guard exists.
/// Contracts see the names of the collection's buffers, which no other collection has.
///
/// The collection may grow between two reads. So the calls here state what `L` ([`Invariant`])
/// requires of each item, and the limit `most` of the number of items: `2^62 - 1` in a list, and
/// `2^32 - 1` in a map or a set. [`Observed`] states which items come back.
pub struct Items<T, A: Allocator = Global, L: Invariant<T> = OfList> {
    pub(crate) slots: Slots<T, A>,
    // The evidence of the items. It is never missing, so a read can't fail. At run time it is the
    // number of the items.
    seen: Kept<Seen<T, A, L>>,
    // Evidence of no item, which is in its place while a read copies it.
    none: WrittenPrefix<T, Buffer<T, A>>,
}

impl<T, A: Allocator, L: Invariant<T>> Model for Items<T, A, L> {
    ghost use Rattle.std.specs.Prelude.{◌≡◌, ℕ, List, []};

    ghost Value = { List ℕ };

    ghost view = { λ g. g.slots };

    // The evidence, and the empty prefix, which is what is shown before a first item, are of these
    // slots.
    ghost invariant = { λ g. (g.seen.numbers ≡ g.slots) × (g.none.buffer_slots ≡ g.slots)
        × (g.none.items ≡ []) };
}

impl<T, A: Allocator, L: Invariant<T>> Drop for Items<T, A, L> {
    fn drop(self) {
        let Self { slots, seen, none } = self;
        drop(seen);
        none.discard();
        drop(slots);
    }
}

/// Returns evidence of no item.
#[inline(always)]
fn nothing<T, A: Allocator + Copy, L: Invariant<T>>(
    none: WrittenPrefix<T, Buffer<T, A>>,
) -> Seen<T, A, L>
    requires { none.items ≡ [] }
    ensures { result.vector ≡ none.buffer_slots }
{
    Seen {
        prefix: none,
        count: 0,
        invariant: PhantomData,
    }
}

// What the collections of this crate and of `elsa_cell` are built of, and no others. None of these
// calls takes `self`, so a collection, which dereferences to its items, does not offer them.
impl<T, A: Allocator + Copy, L: Invariant<T>> Items<T, A, L> {
    /// Makes the items of an empty collection, and the rights to open their buffers.
    ///
    /// # Errors
    /// Fails if an allocation fails.
    #[doc(hidden)]
    pub fn new(alloc: A) -> Result<(Items<T, A, L>, WriteRights), AllocError>
        ensures rights { IfOk result (λ r. r.1.of ≡ r.0) }
        ensures count { IfOk result (λ r. length r.0 ≡ 31) }
    {
        let (slots, further) = Slots::new(alloc)?;
        let tag = Tag::of::<Slots<T, A>, OfSlots>(&slots);
        let seen = Kept::new(nothing(WrittenPrefix::none(&further)), &tag);
        let none = WrittenPrefix::none(&further);
        Ok((Items { slots, seen, none }, further))
    }

    /// Returns the tag of the buffers, which the cell of the collection's state has too.
    #[doc(hidden)]
    pub fn tag(items: &Items<T, A, L>) -> Tag
        ensures { result.numbers ≡ items.now }
    {
        Tag::of::<Slots<T, A>, OfSlots>(&items.slots)
    }

    /// Returns the buffers by reference.
    #[doc(hidden)]
    pub fn slots(items: &Items<T, A, L>) -> &Slots<T, A>
        ensures { result.now ≡ items.now }
    {
        &items.slots
    }

    /// Returns the buffers, and drops no item.
    #[doc(hidden)]
    pub fn into_slots(items: Items<T, A, L>) -> Slots<T, A>
        ensures { result ≡ items }
    {
        let Items { slots, seen, none } = items;
        drop(seen);
        none.discard();
        slots
    }

    /// Shows the items of the evidence to later reads.
    #[doc(hidden)]
    #[inline(always)]
    pub fn show(items: &Items<T, A, L>, seen: Seen<T, A, L>)
        requires { seen.vector ≡ items.now }
    {
        let _before = items.seen.replace(seen);
    }
}

impl<T, A: Allocator + Copy, L: Invariant<T>> Items<T, A, L> {
    /// Returns the evidence of the items so far.
    #[inline(always)]
    pub(crate) fn read(&self) -> Seen<T, A, L>
        ensures { result.vector ≡ self.now }
    {
        let seen = self.seen.replace(nothing(self.none.again()));
        let copy = seen.again();
        let _nothing = self.seen.replace(seen);
        copy
    }

    /// Observes the items so far, to read them while the collection grows. It allocates nothing.
    ///
    /// # Cost
    /// `O(1)`.
    #[inline(always)]
    pub fn observed(&self) -> Observed<'_, T, A, L>
        ensures same_vector { result.vector ≡ self.now }
    {
        Observed {
            slots: &self.slots,
            seen: self.read(),
        }
    }

    /// Observes the items so far, which begin with those of which `seen` is evidence
    /// ([`Observed::evidence`]). It allocates nothing.
    ///
    /// # Cost
    /// `O(1)`.
    pub fn since(&self, seen: &Seen<T, A, L>) -> Observed<'_, T, A, L>
        requires same_vector { seen.now.vector ≡ self.now }
        ensures same_vector { result.vector ≡ self.now }
        ensures items { IsPrefix seen.now.seen result.seen }
    {
        let mut observed = Observed {
            slots: &self.slots,
            seen: seen.again(),
        };
        self.observe(&mut observed);
        observed
    }

    /// Adds the items so far to those that were observed, and returns their number. It allocates
    /// nothing.
    ///
    /// # Cost
    /// `O(1)`.
    pub fn observe(&self, observed: &mut Observed<'_, T, A, L>) -> usize
        requires same_vector { observed.old.vector ≡ self.now }
        ensures continues { Continues observed.old observed.new }
        ensures length { result ≡ length observed.new.seen }
        ensures limit { result ≤ L.most }
    {
        let mut all = self.observed();
        observed.merge(&mut all);
        observed.len()
    }

    /// Returns the number of items. It allocates nothing.
    ///
    /// # Cost
    /// `O(1)`.
    #[inline(always)]
    pub fn len(&self) -> usize
        ensures limit { result ≤ L.most }
    {
        let observed = self.observed();
        observed.len()
    }

    /// Returns whether the collection has no item. It allocates nothing.
    ///
    /// # Cost
    /// `O(1)`.
    pub fn is_empty(&self) -> bool {
        self.len() == 0
    }

    /// Returns an iterator over the items so far, in order and each once. Items that are inserted
    /// while it runs are not among them. It allocates nothing.
    ///
    /// # Cost
    /// `O(1)`, and so is each item.
    pub fn iter(&self) -> Iter<'_, T, A>
        ensures limit { length result ≤ L.most }
        ensures holds { EachHolds L.holds result }
    {
        let observed = self.observed();
        observed.obeys_invariant();
        observed.iter()
    }

    /// Returns a reference to the item at an index, or `None` if the index is at or above the
    /// number of items. It allocates nothing.
    ///
    /// # Cost
    /// `O(1)`.
    #[inline(always)]
    pub fn get(&self, index: usize) -> Option<&T>
        ensures limit { IfSome result (λ _. index < L.most) }
        ensures holds { IfSome result (λ r. L.holds r.now) }
    {
        let observed = self.observed();
        observed.obeys_invariant();
        observed.get(index)
    }

    /// Returns a reference to the first item, or `None` if there is none. It allocates nothing.
    ///
    /// # Cost
    /// `O(1)`.
    pub fn first(&self) -> Option<&T>
        ensures holds { IfSome result (λ r. L.holds r.now) }
    {
        let observed = self.observed();
        observed.first()
    }

    /// Returns a reference to the last item, or `None` if there is none. It allocates nothing.
    ///
    /// # Cost
    /// `O(1)`.
    pub fn last(&self) -> Option<&T>
        ensures holds { IfSome result (λ r. L.holds r.now) }
    {
        let observed = self.observed();
        observed.last()
    }

    /// Searches sorted items for one that compares as equal with `target`.
    ///
    /// `Ok` has the index of such an item, and `Err` the index at which the item could be inserted.
    /// Which one comes back is not proved: [`Observed::binary_search`] promises it.
    ///
    /// # Cost
    /// `O(log n)`.
    pub fn binary_search(&self, target: &T) -> Result<usize, usize>
    where
        T: Ord,
        ensures limit { IsSearchInRange result L.most }
    {
        let items = self.observed();
        items.obeys_invariant();
        items.binary_search(target)
    }

    /// Searches for an item for which the closure returns `Equal`, as
    /// [`Observed::binary_search_by`] does. The closure may push to the list; the search is among
    /// the items that the list had before.
    ///
    /// # Cost
    /// `O(log n)`.
    pub fn binary_search_by<F: FnMut(&T) -> Ordering>(&self, order: F) -> Result<usize, usize>
        requires callable { F.IsAlwaysCallable order }
        ensures limit { IsSearchInRange result L.most }
    {
        let items = self.observed();
        items.obeys_invariant();
        items.binary_search_by(order)
    }

    /// Searches as [`binary_search_by`](Self::binary_search_by) does, by keys: `key_of(item)` is
    /// compared with `key`.
    ///
    /// # Cost
    /// `O(log n)`.
    pub fn binary_search_by_key<K: Ord + Drop, F: FnMut(&T) -> K>(
        &self,
        key: &K,
        key_of: F,
    ) -> Result<usize, usize>
        requires callable { F.IsAlwaysCallable key_of }
        ensures limit { IsSearchInRange result L.most }
    {
        let items = self.observed();
        items.obeys_invariant();
        items.binary_search_by_key(key, key_of)
    }

    /// Returns the index at which the items for which the closure returns true end, as
    /// [`Observed::partition_point`] does.
    ///
    /// # Cost
    /// `O(log n)`.
    pub fn partition_point<F: FnMut(&T) -> bool>(&self, belongs: F) -> usize
        requires callable { F.IsAlwaysCallable belongs }
        ensures limit { result ≤ L.most }
    {
        let items = self.observed();
        items.obeys_invariant();
        items.partition_point(belongs)
    }
}
