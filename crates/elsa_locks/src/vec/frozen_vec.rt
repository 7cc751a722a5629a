//! The vector under a lock, and an iterator over it.
ghost use Rattle.std.specs.Prelude.{◌≡◌, ◌+◌, ◌^◌, ◌<◌, IfOk, OnErr, IfSome, IfNone};
ghost use Rattle.std.specs.Arc.{arc_value};

use super::VecState;
use std::alloc::{AllocError, Allocator, Global};
use std::fmt::{self, Debug, Formatter, Write};
use std::marker::Model;
use std::sync::{Arc, RwLock, Wait};

/// A vector that threads share and that only grows.
///
/// Each call on `&self` takes the lock, makes the call of the same name on its [`VecState`], and
/// releases the lock before it returns. The contracts of `VecState` define the effect of that call.
/// Reads share the lock; pushes take it exclusively. The `==` of items runs under the lock too: a
/// call on the same vector in it can deadlock.
#[derive(Drop)]
pub struct FrozenVec<V, A: Allocator = Global> {
    lock: RwLock<VecState<V, A>>,
}

impl<V, A: Allocator + Copy> FrozenVec<V, A> {
    /// Makes an empty vector. It allocates nothing and takes no lock.
    pub fn new(alloc: A) -> Self {
        FrozenVec {
            lock: RwLock::new(VecState::new(alloc)),
        }
    }

    /// Makes a vector of these `Arc`s. It allocates nothing and takes no lock.
    pub fn from_vec(list: Vec<Arc<V, A>, A>) -> Self {
        FrozenVec {
            lock: RwLock::new(VecState::from_vec(list)),
        }
    }

    /// Returns the number of items, which is below `2^63`. It allocates nothing.
    ///
    /// # Blocks
    /// While a thread writes or waits to write.
    pub fn len(&self, rt: &impl Wait) -> usize
        ensures limit { result < 2 ^ 63 }
    {
        self.lock.read(rt).len()
    }

    /// Returns whether the vector has no item. It allocates nothing.
    ///
    /// # Blocks
    /// While a thread writes or waits to write.
    pub fn is_empty(&self, rt: &impl Wait) -> bool {
        self.lock.read(rt).is_empty()
    }

    /// Returns an iterator that begins at the index 0. It allocates nothing and takes no lock; each
    /// `next` takes the lock.
    pub fn iter(&self) -> Iter<'_, V, A>
        ensures { result ≡ 0 }
    {
        Iter {
            list: self,
            index: 0,
        }
    }

    /// Returns the `Arc`s of the items, in order. It allocates nothing, and takes no lock, since
    /// the caller owns the vector.
    pub fn into_vec(self) -> Vec<Arc<V, A>, A> {
        let FrozenVec { lock } = self;
        lock.into_inner().into_vec()
    }

    /// Returns the list, borrowed for writing: the caller may change or remove any item. It takes
    /// no lock, since the caller has the only reference to the vector.
    pub fn as_mut(&mut self) -> &mut Vec<Arc<V, A>, A> {
        self.lock.get_mut().list_mut()
    }
}

impl<V: Drop, A: Allocator + Copy> FrozenVec<V, A> {
    /// Appends the item.
    ///
    /// # Errors
    /// Fails if an allocation fails. The vector is then unchanged, and the item is dropped.
    ///
    /// # Blocks
    /// While another thread has the lock.
    pub fn push(&self, rt: &impl Wait, value: V) -> Result<(), AllocError> {
        self.lock.write(rt).push(value)
    }

    /// Appends the item, and returns an `Arc` of it.
    ///
    /// # Errors
    /// Fails if an allocation fails. The vector is then unchanged, and the item is dropped.
    ///
    /// # Blocks
    /// While another thread has the lock.
    pub fn push_get(&self, rt: &impl Wait, value: V) -> Result<Arc<V, A>, AllocError>
        ensures own_value { IfOk result (λ a. arc_value a ≡ value) }
    {
        self.lock.write(rt).push_get(value)
    }

    /// Appends the item, and returns its index, which is below `2^63 - 1`.
    ///
    /// # Errors
    /// Fails if an allocation fails. The vector is then unchanged, and the item is dropped.
    ///
    /// # Blocks
    /// While another thread has the lock.
    pub fn push_get_index(&self, rt: &impl Wait, value: V) -> Result<usize, AllocError>
        ensures limit { IfOk result (λ index. index + 1 < 2 ^ 63) }
    {
        self.lock.write(rt).push_get_index(value)
    }

    /// Returns an `Arc` of the item at `index`, or `None` if the index is at or above the
    /// length. It is `None` for an index of `2^63 - 1` or more.
    ///
    /// # Errors
    /// Fails if the `Arc` has the maximum number of owners.
    ///
    /// # Blocks
    /// While a thread writes or waits to write.
    pub fn get(&self, rt: &impl Wait, index: usize) -> Result<Option<Arc<V, A>>, AllocError>
        ensures limit { IfOk result (λ a. IfSome a (λ _. index + 1 < 2 ^ 63)) }
    {
        self.lock.read(rt).get(index)
    }

    /// Makes a vector of the same items, which are shared. Later pushes into one of the two don't
    /// change the other.
    ///
    /// # Errors
    /// Fails if an allocation fails, or if an `Arc` has the maximum number of owners.
    ///
    /// # Blocks
    /// While a thread writes or waits to write.
    ///
    /// # Cost
    /// `O(n)`.
    pub fn clone(&self, rt: &impl Wait) -> Result<Self, AllocError> {
        let copied = self.lock.read(rt).copy()?;
        Ok(FrozenVec {
            lock: RwLock::new(copied),
        })
    }

    /// Returns whether both vectors have the same length and, at each index, items that are equal
    /// by `==`.
    ///
    /// The call copies the content of `self` under its lock, releases the lock, and compares the
    /// copy under the lock of `other`. So a vector may be compared with itself, and two threads may
    /// compare two vectors with each other in both directions.
    ///
    /// # Errors
    /// Fails if the copy fails, as [`clone`](FrozenVec::clone) does.
    ///
    /// # Blocks
    /// While a thread writes to one of the vectors or waits to write.
    ///
    /// # Cost
    /// `O(n)`.
    pub fn equals(&self, rt: &impl Wait, other: &Self) -> Result<bool, AllocError>
    where
        V: PartialEq,
    {
        let copied = self.lock.read(rt).copy()?;
        Ok(other.lock.read(rt).same(&copied))
    }
}

/// An iterator over a [`FrozenVec`] that may grow meanwhile. Contracts see the index of the next
/// item.
#[derive(Drop)]
pub struct Iter<'a, V, A: Allocator = Global> {
    list: &'a FrozenVec<V, A>,
    index: usize,
}

impl<'a, V, A: Allocator> Model for Iter<'a, V, A> {
    ghost use Rattle.std.specs.Prelude.{ℕ};

    ghost Value = { ℕ };

    ghost view = { λ i. i.index };
}

impl<'a, V: Drop, A: Allocator + Copy> Iter<'a, V, A> {
    /// Returns an `Arc` of the item at the iterator's index, and increases the index by 1. Returns
    /// `None` if the index is at the end of the vector; the index is then unchanged, so a call
    /// after a later push returns the new item.
    ///
    /// # Errors
    /// Fails if the `Arc` has the maximum number of owners. The index is then unchanged.
    ///
    /// # Blocks
    /// While a thread writes or waits to write.
    pub fn next(&mut self, rt: &impl Wait) -> Result<Option<Arc<V, A>>, AllocError>
        ensures moves { IfOk result (λ a. IfSome a (λ _. self.new ≡ self.old + 1)) }
        ensures at_end { IfOk result (λ a. IfNone a (self.new ≡ self.old)) }
        ensures refused { OnErr result (self.new ≡ self.old) }
    {
        let Some(next) = self.index.checked_add(1) else {
            return Ok(None);
        };
        let found = self.list.get(rt, self.index)?;
        if found.is_some() {
            self.index = next;
        }
        Ok(found)
    }
}

/// Writes the items in order by `{:?}`, under the read lock. If a push has the lock or waits for
/// it, it writes `<locked>`. It never blocks.
impl<V: Debug, A: Allocator> Debug for FrozenVec<V, A> {
    fn fmt<W: Write>(&self, f: &mut Formatter<W>) -> fmt::Result {
        match self.lock.try_read() {
            Some(state) => state.fmt(f),
            None => f.write_str("<locked>"),
        }
    }
}
