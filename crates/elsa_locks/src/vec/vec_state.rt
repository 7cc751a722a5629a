//! The vector under the lock of `FrozenVec`, with contracts that define the effect of each call.
ghost use Rattle.std.specs.Prelude.{◌≡◌, [], ◌∷◌, ◌++◌, ◌+◌, ◌^◌, ◌<◌, length, slice_get, IfOk, IfSome, OnErr, OnOk, IsTrue, ◌↔◌};
ghost use Rattle.std.specs.Option.{option_map};
ghost use Rattle.std.specs.Arc.{arc_value};
ghost use Rattle.std.specs.Cmp.Lexicographic.{pointwise};
ghost use Rattle.elsa_locks.specs.Shared.{shown_items};

use std::alloc::{AllocError, Allocator, Global};
use std::fmt::{self, Debug, Formatter, Write};
use std::marker::Model;
use std::sync::Arc;

/// A vector that only grows. Values are shared as `Arc<V>`.
///
/// Contracts see the list of its values. `A` allocates the list and each `Arc`.
#[derive(Drop)]
pub struct VecState<V, A: Allocator = Global> {
    list: Vec<Arc<V, A>, A>,
    alloc: A,
}

impl<V, A: Allocator> Model for VecState<V, A> {
    ghost use Rattle.std.specs.Prelude.{List};
    ghost use Rattle.elsa_locks.specs.Shared.{shown_items};

    ghost Value = { List V };

    ghost view = { λ s. shown_items s.list.items };
}

impl<V, A: Allocator + Copy> VecState<V, A> {
    /// Makes an empty vector. It allocates nothing.
    pub fn new(alloc: A) -> Self
        ensures { result ≡ [] }
    {
        VecState {
            list: Vec::new(alloc),
            alloc,
        }
    }

    /// Makes a vector of these `Arc`s. It allocates nothing.
    pub fn from_vec(list: Vec<Arc<V, A>, A>) -> Self
        ensures { result ≡ shown_items list.items }
    {
        let alloc = *list.allocator();
        VecState { list, alloc }
    }

    /// Returns the number of items, which is below `2^63`.
    #[tactic(auto, using(crate::proofs::Shared::shows))]
    pub fn len(&self) -> usize
        ensures length { result ≡ length self.now }
        ensures limit { result < 2 ^ 63 }
    {
        self.list.len()
    }

    /// Returns whether the vector has no item.
    pub fn is_empty(&self) -> bool
        ensures { IsTrue result ↔ (self.now ≡ []) }
    {
        self.list.is_empty()
    }

    /// Returns a copy of the item at `index`, or `None` if the index is at or above the
    /// length. It allocates nothing.
    ///
    /// # Cost
    /// `O(1)`.
    #[tactic(auto, using(crate::proofs::Shared::shows))]
    pub fn get_copy(&self, index: usize) -> Option<V>
    where
        V: Copy,
        ensures { result ≡ slice_get self.now index }
    {
        self.list.get(index).map(|value| **value)
    }

    /// Returns whether both vectors have the same length and, at each index, items that are equal
    /// by `==`. It allocates nothing.
    ///
    /// # Cost
    /// `O(n)`.
    #[tactic(auto, using(crate::proofs::Shared::shows))]
    pub fn same(&self, other: &Self) -> bool
    where
        V: PartialEq,
        ensures { result ≡ pointwise V.eq self.now other.now }
    {
        self.list == other.list
    }

    /// Returns the `Arc`s of the items, in order. It allocates nothing.
    pub fn into_vec(self) -> Vec<Arc<V, A>, A>
        ensures { shown_items result.items ≡ self }
    {
        let VecState { list, alloc: _ } = self;
        list
    }

    /// Returns the list, borrowed for writing.
    pub(crate) fn list_mut(&mut self) -> &mut Vec<Arc<V, A>, A>
        ensures { shown_items result.now.items ≡ self.old }
    {
        &mut self.list
    }
}

impl<V: Drop, A: Allocator + Copy> VecState<V, A> {
    /// Returns an `Arc` of the item at `index`, or `None` if the index is at or above the
    /// length.
    ///
    /// # Errors
    /// Fails if the `Arc` has the maximum number of owners.
    ///
    /// # Cost
    /// `O(1)`.
    #[tactic(auto, using(crate::proofs::Shared::shows))]
    pub fn get(&self, index: usize) -> Result<Option<Arc<V, A>>, AllocError>
        ensures answer { IfOk result (λ a. option_map arc_value a ≡ slice_get self.now index) }
        ensures limit { IfOk result (λ a. IfSome a (λ _. index + 1 < 2 ^ 63)) }
        ensures only_present { OnErr result (index < length self.now) }
    {
        self.list.get(index).cloned()
    }

    /// Appends the item.
    ///
    /// # Errors
    /// Fails if an allocation fails. The vector is then unchanged, and the item is dropped.
    pub fn push(&mut self, value: V) -> Result<(), AllocError>
        ensures appended { OnOk result (self.new ≡ self.old ++ value ∷ []) }
        ensures refused { OnErr result (self.new ≡ self.old) }
    {
        self.push_get_index(value)?;
        Ok(())
    }

    /// Appends the item, and returns an `Arc` of it.
    ///
    /// # Errors
    /// Fails if an allocation fails. The vector is then unchanged, and the item is dropped.
    #[tactic(auto, using(crate::proofs::Shared::shows))]
    pub fn push_get(&mut self, value: V) -> Result<Arc<V, A>, AllocError>
        ensures answer { IfOk result (λ a. arc_value a ≡ value) }
        ensures appended { OnOk result (self.new ≡ self.old ++ value ∷ []) }
        ensures refused { OnErr result (self.new ≡ self.old) }
    {
        let made = Arc::new(self.alloc, value)?;
        let answer = made.clone()?;
        self.list.push(made)?;
        Ok(answer)
    }

    /// Appends the item, and returns its index.
    ///
    /// # Errors
    /// Fails if an allocation fails. The vector is then unchanged, and the item is dropped.
    #[tactic(auto, using(crate::proofs::Shared::shows))]
    pub fn push_get_index(&mut self, value: V) -> Result<usize, AllocError>
        ensures answer { IfOk result (λ index. index ≡ length self.old) }
        ensures limit { IfOk result (λ index. index + 1 < 2 ^ 63) }
        ensures appended { OnOk result (self.new ≡ self.old ++ value ∷ []) }
        ensures refused { OnErr result (self.new ≡ self.old) }
    {
        let index = self.len();
        let owner = Arc::new(self.alloc, value)?;
        self.list.push(owner)?;
        Ok(index)
    }

    /// Makes a vector of the same items, which are shared. Later pushes into one of the two don't
    /// change the other.
    ///
    /// # Errors
    /// Fails if an allocation fails, or if an `Arc` has the maximum number of owners.
    ///
    /// # Cost
    /// `O(n)`.
    #[tactic(auto, using(crate::proofs::Clones::copied_items))]
    pub fn copy(&self) -> Result<Self, AllocError>
        ensures { IfOk result (λ copied. copied ≡ self.now) }
    {
        Ok(VecState {
            list: self.list.clone()?,
            alloc: self.alloc,
        })
    }
}

/// Writes the items in order by `{:?}`, as a `Vec` of them does: `["x", "y"]`.
impl<V: Debug, A: Allocator> Debug for VecState<V, A> {
    fn fmt<W: Write>(&self, f: &mut Formatter<W>) -> fmt::Result {
        self.list.fmt(f)
    }
}
