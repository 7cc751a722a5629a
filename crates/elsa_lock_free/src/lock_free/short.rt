//! Short forms of a handle's calls: with a view instead of a handle, or with a handle of their own,
//! which they drop.
ghost use Rattle.std.specs.Prelude.{◌≡◌, ◌==◌, ◌≤◌, ◌<◌, ◌^◌, ◌+◌, [], length, slice_get, IfOk, IfErr, IfSome, IfNone, take};
ghost use Rattle.elsa_lock_free.specs.SharedList.{BeginsABuffer, Continues, IsLaterPass, Pushes, PushesNext, View, copied, entry, items_of, mine};
ghost use lib.Pointwise.{pointwise};

use super::{LockFreeFrozenVec, Pass};
use crate::handle::by_pass;
use crate::item_rule::ItemRule;
use elsa_slots::slots::Beside;
use std::alloc::{AllocError, Allocator};
use std::sync::Wait;

impl<T: Drop, A: Allocator + Copy> LockFreeFrozenVec<T, A> {
    /// Pushes an item by a view and returns its index, as [`Handle::push`](super::Handle::push)
    /// does.
    ///
    /// # Errors
    /// Fails if the buffer that begins at this length can't be allocated, or if the length is `2^62
    /// - 1`, the greatest. The view has then pushed nothing, and the item is dropped; the same call
    /// may succeed later. [`Handle::push`](super::Handle::push) returns the item.
    ///
    /// # Blocks
    /// While another thread pushes.
    pub fn push_as<R: Wait>(
        &self,
        rt: &R,
        pass: &mut Pass<T, A>,
        item: T,
    ) -> Result<usize, AllocError>
        requires same_vector { pass.old.vector ≡ self.now }
        ensures later { IsLaterPass pass.old pass.new }
        ensures pushed { IfOk result (λ i. Pushes pass.old pass.new i item) }
        ensures limit { IfOk result (λ i. i + 1 < 2 ^ 62) }
        ensures refused { IfErr result (λ e. (mine pass.new ≡ mine pass.old)
            × BeginsABuffer (length pass.new.seen)) }
    {
        let mut handle = by_pass(self, pass);
        let answer = handle.push(rt, item);
        *pass = handle.into_pass();
        Ok(answer?)
    }

    /// Pushes an item and returns its index, which is below the greatest length, `2^62 - 1`. It
    /// makes a handle and drops it, so it promises no more; [`Handle::push`](super::Handle::push)
    /// does.
    ///
    /// # Errors
    /// Fails if the buffer that begins at this length can't be allocated, or if the length is `2^62
    /// - 1`, the greatest. The item is then dropped.
    ///
    /// # Blocks
    /// While another thread pushes.
    pub fn push<R: Wait>(&self, rt: &R, item: T) -> Result<usize, AllocError>
        ensures limit { IfOk result (λ i. i + 1 < 2 ^ 62) }
    {
        let mut own = self.handle();
        own.len();
        Ok(own.push(rt, item)?)
    }
}

impl<T: Drop, A: Allocator + Copy, K: ItemRule<T>, X: Beside<T> + Drop> LockFreeFrozenVec<
    T,
    A,
    K,
    X,
> {
    /// Returns the number of items by a view, as [`Handle::len`](super::Handle::len) does: by one
    /// load of the length.
    pub fn len_as(&self, pass: &mut Pass<T, A, K, X>) -> usize
        requires same_vector { pass.old.vector ≡ self.now }
        ensures continues { Continues pass.old pass.new }
        ensures length { result ≡ length pass.new.seen }
        ensures limit { result < 2 ^ 62 }
    {
        let mut handle = by_pass(self, pass);
        let answer = handle.len();
        *pass = handle.into_pass();
        answer
    }

    /// Returns the number of items, which is at most the greatest length, `2^62 - 1`. It makes a
    /// handle and drops it, so it promises no more; [`Handle::len`](super::Handle::len) does.
    pub fn len(&self) -> usize
        ensures limit { result < 2 ^ 62 }
    {
        self.handle().len()
    }

    /// Returns whether the vector has no item, by one load of the length. It makes a handle and
    /// drops it, and promises the result for some view of the vector;
    /// [`Handle::len`](super::Handle::len) says for which.
    pub fn is_empty(&self) -> bool
        ensures empty { (at : View T) × (at.vector ≡ self.now)
            × (result ≡ (length at.seen == 0)) }
    {
        let mut handle = self.handle();
        handle.len() == 0
    }
}

impl<T: Copy + Drop, A: Allocator + Copy, K: ItemRule<T>> LockFreeFrozenVec<T, A, K> {
    /// Pushes an item at index `n` only, by a view, as [`Handle::push_at`](super::Handle::push_at)
    /// does: if the vector has more than `n` items, it pushes nothing and returns `None`.
    ///
    /// # Errors
    /// Fails if the buffer that begins at `n` can't be allocated, or if `n` is `2^62 - 1`, the
    /// greatest length. The view has then pushed nothing; the same call may succeed later.
    ///
    /// # Blocks
    /// While another thread pushes at this length.
    pub fn push_at_as<R: Wait>(
        &self,
        rt: &R,
        pass: &mut Pass<T, A, K>,
        n: usize,
        item: T,
    ) -> Result<Option<usize>, AllocError>
        requires same_vector { pass.old.vector ≡ self.now }
        requires index { n ≤ length pass.old.seen }
        requires obeys_rule { K.is_new (take n pass.old.seen) (entry pass.old.writer item) }

        // The pass is the same, later: its item is at the end of what it had seen, or it has pushed
        // nothing, where the list was longer, or a buffer begins at this index.
        ensures later { IsLaterPass pass.old pass.new }
        ensures pushed { IfOk result (λ a. IfSome a (λ i.
            (i ≡ n) × (length pass.old.seen ≡ n) × PushesNext pass.old pass.new item)) }
        ensures longer { IfOk result (λ a. IfNone a
            ((n < length pass.new.seen) × (mine pass.new ≡ mine pass.old))) }
        ensures refused { IfErr result (λ e. (mine pass.new ≡ mine pass.old)
            × (length pass.new.seen ≡ n) × BeginsABuffer n) }
    {
        let mut handle = by_pass(self, pass);
        let answer = handle.push_at(rt, n, item);
        *pass = handle.into_pass();
        answer
    }

    /// Returns the item at an index by a view, as [`Handle::get`](super::Handle::get) does: `None`
    /// if the index is not below the length that the view has then observed.
    pub fn get_as(&self, pass: &mut Pass<T, A, K>, index: usize) -> Option<T>
        requires same_vector { pass.old.vector ≡ self.now }
        ensures continues { Continues pass.old pass.new }
        ensures item { result ≡ slice_get (items_of pass.new.seen) index }
        ensures limit { IfSome result (λ _. index + 1 < 2 ^ 62) }
    {
        let mut handle = by_pass(self, pass);
        let answer = handle.get(index);
        *pass = handle.into_pass();
        answer
    }

    /// Makes an independent vector by a view, and a view of it, as
    /// [`Handle::clone_vector`](super::Handle::clone_vector) does.
    ///
    /// # Errors
    /// Fails if an allocation fails. All memory that was allocated is then deallocated.
    pub fn clone_as(
        &self,
        pass: &mut Pass<T, A, K>,
    ) -> Result<(LockFreeFrozenVec<T, A>, Pass<T, A>), AllocError>
        requires same_vector { pass.old.vector ≡ self.now }
        ensures continues { Continues pass.old pass.new }
        ensures clone_of { IfOk result (λ r. r.1.vector ≡ r.0) }
        ensures clone_items { IfOk result (λ r. r.1.seen ≡ copied (items_of pass.new.seen)) }
        ensures clone_mine { IfOk result (λ r. mine r.1 ≡ []) }
    {
        let mut handle = by_pass(self, pass);
        let answer = handle.clone_vector();
        *pass = handle.into_pass();
        answer
    }

    /// Returns the item at an index, or `None`. It is `None` for an index at or above the greatest
    /// length, `2^62 - 1`. It makes a handle and drops it, so it promises no more;
    /// [`Handle::get`](super::Handle::get) does.
    pub fn get(&self, index: usize) -> Option<T>
        ensures limit { IfSome result (λ _. index + 1 < 2 ^ 62) }
    {
        self.handle().get(index)
    }

    /// Makes an independent vector of the items. It makes a handle and drops it, and promises a
    /// copy of the items of some view of the vector;
    /// [`Handle::clone_vector`](super::Handle::clone_vector) says of which.
    ///
    /// # Errors
    /// Fails if an allocation fails. All memory that was allocated is then deallocated.
    pub fn clone(&self) -> Result<LockFreeFrozenVec<T, A>, AllocError>
        ensures clone_items { IfOk result (λ copy. (at of_copy : View T) × (at.vector ≡ self.now)
            × (of_copy.vector ≡ copy) × (of_copy.seen ≡ copied (items_of at.seen))) }
    {
        let (copy, _copy_pass) = self.handle().clone_vector()?;
        Ok(copy)
    }
}

impl<T: Drop + PartialEq, A: Allocator + Copy, K: ItemRule<T>> LockFreeFrozenVec<T, A, K> {
    /// Returns whether two vectors have equal items in the same order, by a view of each, as
    /// [`Handle::equals`](super::Handle::equals) does.
    pub fn equals_as<L: ItemRule<T>>(
        &self,
        pass: &mut Pass<T, A, K>,
        other: &LockFreeFrozenVec<T, A, L>,
        other_pass: &mut Pass<T, A, L>,
    ) -> bool
        requires same_vector { (pass.old.vector ≡ self.now) × (other_pass.old.vector ≡ other.now) }
        ensures continues { Continues pass.old pass.new }
        ensures other_continues { Continues other_pass.old other_pass.new }
        ensures equal { result ≡ pointwise T.eq (items_of pass.new.seen)
            (items_of other_pass.new.seen) }
    {
        let mut handle = by_pass(self, pass);
        let mut other_handle = by_pass(other, other_pass);
        let equal = handle.equals(&mut other_handle);
        *pass = handle.into_pass();
        *other_pass = other_handle.into_pass();
        equal
    }

    /// Returns whether two vectors have equal items in the same order. It makes handles and drops
    /// them, and promises the result for some view of each vector;
    /// [`Handle::equals`](super::Handle::equals) says for which.
    pub fn equals<L: ItemRule<T>>(&self, other: &LockFreeFrozenVec<T, A, L>) -> bool
        ensures equal { (at other_at : View T) × (at.vector ≡ self.now)
            × (other_at.vector ≡ other.now)
            × (result ≡ pointwise T.eq (items_of at.seen) (items_of other_at.seen)) }
    {
        self.handle().equals(&mut other.handle())
    }
}
