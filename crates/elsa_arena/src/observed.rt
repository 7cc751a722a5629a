//! [`Observed`]: the prefix of a list that was observed, its iterator, and [`Seen`], which outlives
//! the list.
ghost use Rattle.std.specs.Prelude.{◌≡◌, ◌⊎◌, ◌<◌, ◌≤◌, ◌-◌, ◌^◌, drop, length, slice_get, IfSome, Some};
ghost use Rattle.std.specs.Option.{option_map};
ghost use Rattle.elsa_arena.specs.Observed.{Continues, EachHolds};

use crate::invariant::{Invariant, OfList};
use crate::state::begins;
use boxcar::tag::Tag;
use counted_slot::Fits;
use elsa_slots::geometry::locate;
use elsa_slots::iter::walk_from;
use elsa_slots::slots::{Buffer, Slots, WrittenPrefix};
use std::alloc::{Allocator, Global};
use std::marker::{Model, PhantomData};

/// An iterator over observed items, in order. Contracts see the items that are left.
pub use elsa_slots::iter::Refs as Iter;

/// Evidence of a prefix of a list that was observed, without a borrow of the list: a call that
/// takes the list apart states by it what comes back. Contracts see the list, by the names of its
/// buffers, and the items of the prefix. At run time it is the number of those items.
pub struct Seen<T, A: Allocator = Global, L: Invariant<T> = OfList> {
    pub(crate) prefix: WrittenPrefix<T, Buffer<T, A>>,
    pub(crate) count: usize,
    pub(crate) invariant: PhantomData<L>,
}

impl<T, A: Allocator, L: Invariant<T>> Model for Seen<T, A, L> {
    ghost use Rattle.std.specs.Prelude.{◌≡◌, ◌<◌, ◌≤◌, ◌^◌, length};
    ghost use Rattle.elsa_arena.specs.Observed.{EachHolds, View};

    ghost Value = { View T };

    ghost view = { λ s. record { vector = s.prefix.buffer_slots; seen = s.prefix.items } };

    // `count` is the number of the items, and the invariant `L` holds of them.
    ghost invariant = { λ s. (s.count ≡ length s.prefix.items) × (s.count < 2 ^ 62)
        × (length s.prefix.items ≤ L.most) × EachHolds L.holds s.prefix.items };
}

impl<T, A: Allocator, L: Invariant<T>> Fits for Seen<T, A, L> {
    ghost use Rattle.std.specs.Prelude.{◌≡◌};

    type Tag = Tag;

    ghost fits = { λ tag s. s.vector ≡ tag.numbers };
}

impl<T, A: Allocator, L: Invariant<T>> Seen<T, A, L> {
    /// Proves that the buffers have room for the items. It does nothing when it runs.
    #[inline(always)]
    fn fits_buffers(&self)
        ensures { length self.now.seen < 2 ^ 62 }
    {
        let _ = &self.count;
    }

    /// Returns a copy of the evidence.
    #[inline(always)]
    pub fn again(&self) -> Seen<T, A, L>
        ensures { result ≡ self.now }
    {
        Seen {
            prefix: self.prefix.again(),
            count: self.count,
            invariant: PhantomData,
        }
    }
}

impl<T, A: Allocator, L: Invariant<T>> Drop for Seen<T, A, L> {
    fn drop(self) {
        let Self {
            prefix,
            count: _,
            invariant: _,
        } = self;
        prefix.discard();
    }
}

/// The prefix of a list that was observed, to read it while the list grows. Contracts see the list,
/// by the names of its buffers, and the items of the prefix.
///
/// Its items are read by reference, valid as long as the collection, by no access to what
/// insertions change. So it may be read inside any other call, and what was observed stays,
/// whatever other calls append.
#[derive(Drop)]
pub struct Observed<'v, T, A: Allocator = Global, L: Invariant<T> = OfList> {
    // Where the items are, and the evidence of them.
    pub(crate) slots: &'v Slots<T, A>,
    pub(crate) seen: Seen<T, A, L>,
}

impl<'v, T, A: Allocator, L: Invariant<T>> Model for Observed<'v, T, A, L> {
    ghost use Rattle.std.specs.Prelude.{◌≡◌};
    ghost use Rattle.elsa_arena.specs.Observed.{View};

    ghost Value = { View T };

    ghost view = { λ o. o.seen };

    // The evidence is of these slots.
    ghost invariant = { λ o. o.seen.vector ≡ o.slots.now };
}

impl<'v, T, A: Allocator + Copy, L: Invariant<T>> Observed<'v, T, A, L> {
    /// Returns evidence of the observed items, to cite after the list is moved. It allocates
    /// nothing.
    #[inline(always)]
    pub fn evidence(&self) -> Seen<T, A, L>
        ensures same_view { result ≡ self.now }
    {
        self.seen.again()
    }

    /// Returns a copy of what was observed. It allocates nothing.
    #[inline(always)]
    pub fn again(&self) -> Observed<'v, T, A, L>
        ensures same_view { result ≡ self.now }
    {
        Observed {
            slots: self.slots,
            seen: self.seen.again(),
        }
    }

    /// Proves that the invariant `L` of the collection holds of the observed items. It does nothing
    /// when it runs.
    #[inline(always)]
    pub fn obeys_invariant(&self)
        ensures limit { length self.now.seen ≤ L.most }
        ensures holds { EachHolds L.holds self.now.seen }
    {
        let _ = &self.seen.count;
    }

    /// Returns the number of observed items.
    #[inline(always)]
    pub fn len(&self) -> usize
        ensures length { result ≡ length self.now.seen }
        ensures limit { result ≤ L.most }
    {
        self.seen.count
    }

    /// Returns a reference to the item at an index, or `None` exactly if the index is at or above
    /// the number of observed items. It allocates nothing.
    ///
    /// # Cost
    /// `O(1)`.
    #[inline(always)]
    pub fn get(&self, index: usize) -> Option<&'v T>
        ensures item { option_map (λ r. r.now) result ≡ slice_get self.now.seen index }
        ensures holds { IfSome result (λ r. L.holds r.now) }
    {
        if index >= self.len() {
            return None;
        }
        Some(self.item(index))
    }

    /// Returns a reference to the first observed item, or `None` exactly if none was observed.
    pub fn first(&self) -> Option<&'v T>
        ensures item { option_map (λ r. r.now) result ≡ slice_get self.now.seen 0 }
        ensures holds { IfSome result (λ r. L.holds r.now) }
    {
        self.get(0)
    }

    /// Returns a reference to the last observed item, or `None` exactly if none was observed.
    pub fn last(&self) -> Option<&'v T>
        ensures item { option_map (λ r. r.now) result
            ≡ slice_get self.now.seen (length self.now.seen - 1) }
        ensures holds { IfSome result (λ r. L.holds r.now) }
    {
        let count = self.len();
        if count == 0 {
            return None;
        }
        self.get(count - 1)
    }

    /// Returns a reference to the item at an index that was observed. It allocates nothing.
    ///
    /// # Cost
    /// `O(1)`.
    #[inline(always)]
    pub fn item(&self, index: usize) -> &'v T
        requires seen { index < length self.now.seen }
        ensures item { slice_get self.now.seen index ≡ Some result.now }
        ensures holds { L.holds result.now }
    {
        self.seen.fits_buffers();
        let (buffer, slot) = locate(index);
        let (opened, item) = self.seen.prefix.at(index, buffer, slot);
        let slots = self.slots;
        let lent = slots.get(buffer, slot, &opened, &item);
        opened.discard();
        item.discard();
        lent
    }

    /// Returns an iterator over the observed items, in order and each once. It allocates nothing.
    ///
    /// # Cost
    /// `O(1)`, and so is each item.
    pub fn iter(&self) -> Iter<'v, T, A>
        ensures items { result ≡ self.now.seen }
    {
        self.iter_from(0)
    }

    /// Returns an iterator over the observed items, from the index `from` on, in order and each
    /// once. It allocates nothing.
    ///
    /// # Cost
    /// `O(1)`, and so is each item.
    pub fn iter_from(&self, from: usize) -> Iter<'v, T, A>
        requires within { from ≤ length self.now.seen }
        ensures items { result ≡ drop from self.now.seen }
    {
        let prefix = self.seen.prefix.again();
        walk_from(self.slots, prefix, self.seen.count, from).refs()
    }

    /// Merges what was observed of one list: both have then observed the longer prefix. It
    /// allocates nothing, and it never fails.
    ///
    /// # Cost
    /// `O(1)`.
    pub fn merge(&mut self, other: &mut Observed<'_, T, A, L>)
        requires same_vector { self.old.vector ≡ other.old.vector }
        ensures continues { Continues self.old self.new }
        ensures other_continues { Continues other.old other.new }
        ensures same { self.new.seen ≡ other.new.seen }
    {
        if self.seen.count < other.seen.count {
            begins(&self.seen.prefix, &other.seen.prefix);
            let _before = std::mem::replace(&mut self.seen, other.seen.again());
        } else {
            begins(&other.seen.prefix, &self.seen.prefix);
            let _before = std::mem::replace(&mut other.seen, self.seen.again());
        }
    }
}
