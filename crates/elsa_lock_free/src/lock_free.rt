//! An append-only vector, which threads read without a lock and push to under one state word.
//!
//! A thread calls a vector through a [`Handle`]: the vector with a [`Pass`], the view of what the
//! thread has observed. It is a prefix of the one list that all threads share, so it only grows,
//! and the indices at which the handle pushed stay its own. A handle reads what it has observed
//! without an atomic step. [`Handle::meet`] merges what two handles have observed.
//!
//! The calls on the vector itself are short forms, in `short`. `push_as` takes a view instead of a
//! handle, and promises the same. `push` makes a view of its own and drops it, so its contract
//! states only the limits of indices and lengths.
ghost use Rattle.std.specs.Prelude.{◌≡◌, []};
ghost use Rattle.elsa_lock_free.specs.SharedList.{mine};

mod into_vec;
mod short;

use crate::atomic_list::AtomicList;
pub use crate::handle::{Handle, Observed};
pub use crate::history::VectorHistory;
use crate::item_rule::{AnyItems, DistinctItems, ItemRule};
pub use crate::pass::Pass;
use crate::tokens::Writer;
pub use elsa_slots::iter::{Iter, Refs};
use elsa_slots::slots::Beside;
use std::alloc::{AllocError, Allocator, Global};
use std::fmt::{self, Debug, Formatter, Write};
use std::marker::Model;

/// An append-only vector that threads share: reads take no lock, and a push takes one that spins.
///
/// A clause sees which vector it is.
/// It owns its items: [`Handle::get_ref`] returns a reference that lives as long as the vector is
/// borrowed, and each item is dropped once, with the vector. [`into_vec`](Self::into_vec) moves all
/// items out. The calls that copy items are for `Copy` items.
#[derive(Drop)]
pub struct LockFreeFrozenVec<
    T,
    A: Allocator = Global,
    K: ItemRule<T> = AnyItems,
    X: Beside<T> = (),
> {
    pub(crate) list: AtomicList<T, A, K, X>,
}

impl<T, A: Allocator, K: ItemRule<T>, X: Beside<T>> Model for LockFreeFrozenVec<T, A, K, X> {
    ghost use Rattle.elsa_lock_free.specs.SharedList.{Vector};

    ghost Value = { Vector };

    ghost view = { λ v. (v.list.first.book, v.list.first.names) };
}

impl<T: Drop, A: Allocator + Copy> LockFreeFrozenVec<T, A> {
    /// Makes an empty vector, which allocates by `alloc`.
    ///
    /// # Errors
    /// Fails if an allocation fails.
    ///
    /// # Allocates
    /// The directory of its buffers.
    ///
    /// # Cost
    /// `O(1)`.
    pub fn new(alloc: A) -> Result<Self, AllocError> {
        LockFreeFrozenVec::with_rule(alloc)
    }
}

impl<T: Copy + Drop + Eq, A: Allocator + Copy> LockFreeFrozenVec<T, A, DistinctItems> {
    /// Makes an empty vector that never has an item twice. It allocates and fails as
    /// [`new`](LockFreeFrozenVec::new) does.
    pub fn distinct(alloc: A) -> Result<Self, AllocError> {
        LockFreeFrozenVec::with_rule(alloc)
    }
}

impl<T: Drop, A: Allocator + Copy, K: ItemRule<T>, X: Beside<T> + Drop> LockFreeFrozenVec<
    T,
    A,
    K,
    X,
> {
    /// Makes an empty vector that takes items by the rule `K`. It allocates and fails as
    /// [`new`](LockFreeFrozenVec::new) does.
    pub fn with_rule(alloc: A) -> Result<Self, AllocError> {
        let (list, seen) = AtomicList::new(alloc)?;
        drop(seen);
        Ok(LockFreeFrozenVec { list })
    }

    /// Returns whether the vector never has an item twice: whether
    /// [`distinct`](LockFreeFrozenVec::distinct) made it. It allocates nothing and takes no atomic
    /// step.
    pub fn is_distinct(&self) -> bool
        ensures { result ≡ K.distinct }
    {
        K::is_distinct()
    }

    /// Makes a view that has observed nothing and pushed nothing. It allocates nothing and takes no
    /// atomic step.
    pub fn pass(&self) -> Pass<T, A, K, X>
        ensures same_vector { result.vector ≡ self.now }
        ensures nothing_seen { result.seen ≡ [] }
        ensures nothing_mine { mine result ≡ [] }
    {
        Pass::of(self.list.first.again(), Writer::new(), 0)
    }

    /// Makes a handle of a new view, which has observed nothing and pushed nothing. It allocates
    /// nothing and takes no atomic step.
    pub fn handle(&self) -> Handle<'_, T, A, K, X>
        ensures same_vector { result.vector ≡ self.now }
        ensures nothing_seen { result.seen ≡ [] }
        ensures nothing_mine { mine result ≡ [] }
    {
        Handle::of(self, self.pass())
    }
}

/// `{:?}` writes the items that one read of the length observes, in order, as of a slice: `[10,
/// 20]`. It takes no lock, allocates nothing and never blocks.
impl<T: Copy + Drop + Debug, A: Allocator + Copy, K: ItemRule<T>> Debug
    for LockFreeFrozenVec<T, A, K> {
    fn fmt<W: Write>(&self, f: &mut Formatter<W>) -> fmt::Result {
        let mut handle = self.handle();
        f.debug_list().entries(handle.news()).finish()
    }
}
