//! Two ways to walk over a vector: an iterator, and a cursor that continues after later pushes.
ghost use Rattle.std.specs.Prelude.{◌≡◌, ◌+◌, IfSome, Some, if◌then◌else◌, is_some, length, slice_get};
ghost use Rattle.std.specs.Iterator.{UpTo, YieldsFirst, YieldsLast, item_count};
ghost use Rattle.std.specs.Iterator.SizeHint.{IsWithinCount};

use crate::stable::StableDeref;
use crate::vec::FrozenVecIn;
use bumpalo::Bump;
use std::alloc::{Allocator, Global};
use std::marker::Model;

/// The index in a vector at which a reader continues. Contracts see it as that number.
#[derive(Clone, Copy, Debug, PartialEq, Eq)]
pub struct Cursor {
    index: usize,
}

impl Model for Cursor {
    ghost use Rattle.std.specs.Prelude.{ℕ};

    ghost Value = { ℕ };

    ghost view = { λ c. c.index };

    ghost inverse = { λ n. record { index = n } };
}

impl Cursor {
    /// Makes a cursor before the first item.
    pub fn new() -> Self
        ensures { result ≡ 0 }
    {
        Cursor { index: 0 }
    }

    /// Returns the item at the cursor's index and moves the cursor to the next index.
    ///
    /// At the end it returns `None` and the cursor doesn't move, so it continues after a later
    /// push. If the vector has fewer items than the cursor's index, it returns `None`.
    pub fn next<R: Copy, T: StableDeref<R>, A: Allocator + Copy>(
        &mut self,
        items: &FrozenVecIn<R, T, A>,
    ) -> Option<T::Borrow>
        ensures item { result ≡ slice_get items.now self.old }
        ensures index { self.new ≡ (if is_some result then self.old + 1 else self.old) }
    {
        if self.index < items.len() {
            let item = items.get_unchecked(self.index);
            self.index += 1;
            Some(item)
        } else {
            None
        }
    }
}

/// An iterator over the items of a vector, from the front or from the back. Contracts see it as the
/// list of the remaining items.
#[derive(Drop)]
pub struct IterIn<'v, R: Copy, T, A: Allocator + Copy = Global>
where
    T: StableDeref<R>,
{
    items: &'v FrozenVecIn<R, T, A>,
    // The index of the next item from the front, and the one after the next item from the back.
    index: usize,
    end: usize,
}

/// The iterator over a vector whose items are stored in a `Bump`.
pub type Iter<'v, 'a, T, A = Global, P = Global> = IterIn<'v, &'a Bump<P>, T, A>;

// In a clause, an iterator is the list of the items from its index to its end.
impl<'v, R: Copy, T, A: Allocator + Copy> Model for IterIn<'v, R, T, A>
where
    T: StableDeref<R>,
{
    ghost use Rattle.std.specs.Prelude.{List, ◌-◌, ◌≤◌, drop, length, take};

    ghost Value = { List T.Borrow };

    ghost view = { λ it. take (it.end - it.index) (drop it.index it.items.now) };

    // The items from `index` to `end` are left.
    ghost invariant = { λ it. (it.index ≤ it.end) × (it.end ≤ length it.items.now) };
}

impl<'v, R: Copy, T: StableDeref<R>, A: Allocator + Copy> IterIn<'v, R, T, A> {
    pub(crate) fn new(items: &'v FrozenVecIn<R, T, A>) -> Self
        ensures { result ≡ items.now }
    {
        IterIn {
            items,
            index: 0,
            end: items.len(),
        }
    }
}

impl<'v, R: Copy, T: StableDeref<R>, A: Allocator + Copy> Iterator for IterIn<'v, R, T, A> {
    type Item = T::Borrow;

    ghost next_gives = { YieldsFirst (λ left. left) };

    ghost remaining = { item_count (λ left. left) };

    fn next(&mut self) -> Option<T::Borrow> {
        if self.index == self.end {
            return None;
        }
        let item = self.items.get_unchecked(self.index);
        self.index += 1;
        Some(item)
    }

    fn size_hint(&self) -> (usize, Option<usize>)
        ensures lower { IsWithinCount result.0 (item_count (λ left. left) self.now) }
        ensures upper { IfSome result.1 (UpTo (item_count (λ left. left) self.now)) }
        ensures exact { result ≡ (length self.now, Some (length self.now)) }
    {
        let left = self.end - self.index;
        (left, Some(left))
    }
}

impl<'v, R: Copy, T: StableDeref<R>, A: Allocator + Copy> DoubleEndedIterator
    for IterIn<'v, R, T, A> {
    ghost next_back_gives = { YieldsLast (λ left. left) };

    fn next_back(&mut self) -> Option<T::Borrow> {
        if self.index == self.end {
            return None;
        }
        self.end -= 1;
        Some(self.items.get_unchecked(self.end))
    }
}

impl<'v, R: Copy, T: StableDeref<R>, A: Allocator + Copy> ExactSizeIterator
    for IterIn<'v, R, T, A> {
    fn len(&self) -> usize {
        self.end - self.index
    }
}
