//! A vector that ends with its items moved out.
//!
//! A handle borrows its vector, so these calls are on the vector, and no thread pushes meanwhile. A
//! view borrows nothing: it survives the vector, and states which items came out.
ghost use Rattle.std.specs.Prelude.{◌≡◌, ◌≤◌, [], length, IfOk, IfErr};
ghost use Rattle.elsa_lock_free.specs.SharedList.{Continues, items_of};

use super::{LockFreeFrozenVec, Pass};
use crate::item_rule::ItemRule;
use elsa_slots::slots::{Beside, Collection, Sink};
use std::alloc::{AllocFailed, Allocator};

impl<T: Drop, A: Allocator + Copy, K: ItemRule<T>, X: Beside<T> + Drop> LockFreeFrozenVec<
    T,
    A,
    K,
    X,
> {
    /// Moves all items into a new collection, in order and each once, as
    /// [`into_vec_as`](Self::into_vec_as) does into a `Vec`.
    ///
    /// # Errors
    /// Fails if the collection can't be allocated. The error has the vector, with all its items.
    #[doc(hidden)]
    pub fn into_items_as<S: Collection<T, A>>(
        self,
        pass: &mut Pass<T, A, K, X>,
    ) -> Result<S, AllocFailed<Self>>
        requires same_vector { pass.old.vector ≡ self }
        ensures continues { Continues pass.old pass.new }
        ensures items { IfOk result (λ s. S.received s ≡ items_of pass.new.seen) }
        ensures refused { IfErr result (λ e. e.value ≡ self) }
    {
        let len = self.len_as(pass);
        let Ok(mut to) = S::with_capacity(self.list.slots.allocator(), len) else {
            return Err(AllocFailed { value: self });
        };
        self.move_items_as(pass, &mut to);
        Ok(to)
    }

    /// Moves the items that the view has observed to `to`, in order and each once. No thread has
    /// pushed since the view read the length, so they are all items.
    #[doc(hidden)]
    pub fn move_items_as<S: Sink<T>>(self, pass: &Pass<T, A, K, X>, to: &mut S)
        requires same_vector { pass.now.vector ≡ self }
        requires room { (S.received to.old ≡ []) × (length pass.now.seen ≤ S.capacity to.old) }
        ensures received { S.received to.new ≡ items_of pass.now.seen }
    {
        let len = pass.seen_len();
        let prefix = pass.evidence();
        let LockFreeFrozenVec { list } = self;
        list.move_items(len, &prefix, to);
        prefix.discard();
    }

    /// Returns all items, in order and each once. The view then has observed all of them.
    ///
    /// A view borrows nothing, so it can state the content: merge the views of all threads into one
    /// by [`Pass::meet`], and the result has every item that these threads have pushed or read, at
    /// its index.
    ///
    /// # Errors
    /// Fails if the memory of the result can't be allocated. The error has the vector, with all its
    /// items; by `?` it becomes an `AllocError`, which drops them.
    ///
    /// # Allocates
    /// Memory for the items, by the vector's allocator. All other memory of the vector is
    /// deallocated.
    ///
    /// # Cost
    /// `O(n)`: one move for each item.
    pub fn into_vec_as(self, pass: &mut Pass<T, A, K, X>) -> Result<Vec<T, A>, AllocFailed<Self>>
        requires same_vector { pass.old.vector ≡ self }
        ensures continues { Continues pass.old pass.new }
        ensures items { IfOk result (λ v. v.items ≡ items_of pass.new.seen) }
        ensures refused { IfErr result (λ e. e.value ≡ self) }
    {
        self.into_items_as(pass)
    }

    /// Returns all items, in order and each once. It makes a view and drops it, so it promises only
    /// what an error has; [`into_vec_as`](Self::into_vec_as) promises the items.
    ///
    /// # Errors
    /// Fails if the memory of the result can't be allocated. The error has the vector, with all its
    /// items; by `?` it becomes an `AllocError`, which drops them.
    ///
    /// # Allocates
    /// Memory for the items, by the vector's allocator. All other memory of the vector is
    /// deallocated.
    ///
    /// # Cost
    /// `O(n)`.
    pub fn into_vec(self) -> Result<Vec<T, A>, AllocFailed<Self>>
        ensures refused { IfErr result (λ e. e.value ≡ self) }
    {
        let mut pass = self.pass();
        self.into_vec_as(&mut pass)
    }
}
