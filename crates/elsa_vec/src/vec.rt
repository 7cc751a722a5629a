//! A vector that only grows.
//!
//! A pushed item is stored in an arena that the caller passes in, and the vector stores its borrow.
//! So each borrow that a call returns has the arena's lifetime: it stays valid after every later
//! push, and after the vector's end.
//!
//! Contracts see a `FrozenVec` as the list of its borrows; `map T.shown` of that list is its
//! content as targets. The crates built on this one use that list, the index of a cursor, and the
//! bracket of a search (`specs/Search.antt`).
ghost use Rattle.std.specs.Prelude.{◌≡◌, ◌<◌, ◌≤◌, ◌-◌, ◌++◌, ◌∷◌, ◌↔◌, [], List, Bool, ℕ, IfOk, IsOk, IsTrue, OnErr, OnOk, Some, length, map, option_map, slice_get, true, false};
ghost use Rattle.std.specs.List.{list_any};
ghost use Rattle.std.specs.Cmp.Lexicographic.{lists_equiv, lists_per, pointwise};
ghost use Rattle.std.specs.Borrow.{sem};
ghost use Rattle.std.specs.Fmt.{debug_list};
ghost use Rattle.std.specs.Iterator.{Drains, IsFinite};
ghost use Rattle.std.specs.List.Sorted.{IsBinarySearchResult, IsPartitionPoint, IsPartitionedBy};
ghost use Rattle.std.specs.Map.Iter.{GivesInOrder, GivesInReverse};
ghost use Rattle.elsa_vec.specs.Lent.{lends_items};
ghost use Rattle.elsa_arena.specs.Search.{AnswersByItem, AnswersByIndex, Answered, Brackets, CallableAtItems, Compares, ComparesAt, Falls, IsBetween, Parts, Rises, Searched, Splits};
ghost use Rattle.elsa_vec.specs.Vec.{Gains, GainsAll};

use crate::search;
use crate::stable::StableDeref;
use bumpalo::Bump;
use std::alloc::{AllocError, Allocator, Global};
use std::cmp::Ordering;
use std::fmt::{self, Debug, Formatter, Write};
use std::marker::{Model, PhantomData};
use std::ops::Index;

mod walk;

pub use walk::{Cursor, Iter, IterIn};

/// A vector whose items are stored in the arena to which an `R` refers. The list of its borrows is
/// in memory of the allocator `A`.
///
/// [`FrozenVec`] is its name if the arena is a `Bump`; code for any arena uses this type.
pub struct FrozenVecIn<R: Copy, T, A: Allocator + Copy = Global>
where
    T: StableDeref<R>,
{
    // Where values are stored, and the borrow of each.
    arena: R,
    items: Vec<T::Borrow, A>,
    of: PhantomData<T>,
}

/// A vector whose items are stored in a `Bump` of lifetime `'a` and of the allocator `P`.
pub type FrozenVec<'a, T, A = Global, P = Global> = FrozenVecIn<&'a Bump<P>, T, A>;

// In a clause, a vector is the list of its borrows.
impl<R: Copy, T, A: Allocator + Copy> Model for FrozenVecIn<R, T, A>
where
    T: StableDeref<R>,
{
    ghost use Rattle.std.specs.Prelude.{List};

    ghost Value = { List T.Borrow };

    ghost view = { λ v. v.items.items };
}

impl<R: Copy, T: StableDeref<R>, A: Allocator + Copy> Drop for FrozenVecIn<R, T, A> {
    fn drop(self) {
        let FrozenVecIn {
            arena: _arena,
            items: _items,
            of: _of,
        } = self;
    }
}

// ---- construction and content

impl<R: Copy, T: StableDeref<R>, A: Allocator + Copy> FrozenVecIn<R, T, A> {
    /// Makes an empty vector. It allocates nothing.
    pub fn new(alloc: A, arena: R) -> Self
        ensures { result ≡ [] }
    {
        FrozenVecIn::from_vec(arena, Vec::new(alloc))
    }

    /// Makes an empty vector with capacity for `count` items, as after [`reserve`](Self::reserve).
    /// It allocates nothing if `count` is 0.
    ///
    /// # Errors
    /// Fails if an allocation fails.
    pub fn with_capacity(alloc: A, arena: R, count: usize) -> Result<Self, AllocError>
        ensures empty { IfOk result (λ v. v ≡ []) }
        ensures none_is_free { count ≡ 0 → IsOk result }
    {
        Ok(FrozenVecIn::from_vec(arena, Vec::with_capacity(alloc, count)?))
    }

    /// Makes a vector of these borrows, in their order. It allocates nothing.
    pub fn from_vec(arena: R, items: Vec<T::Borrow, A>) -> Self
        ensures { result ≡ items.items }
    {
        FrozenVecIn {
            arena,
            items,
            of: PhantomData,
        }
    }

    /// Makes a vector of the iterator's items, stored in their order.
    ///
    /// It reserves capacity for the lower bound of the iterator's `size_hint`. If that fails, or if
    /// more items follow, the vector grows as they are pushed.
    ///
    /// # Errors
    /// Fails if an allocation fails. The vector and the items that were not stored are then
    /// dropped; the arena keeps those that were stored.
    ///
    /// # Cost
    /// `O(n)`.
    pub fn from_iter<I: IntoIterator<Item = T>>(
        alloc: A,
        arena: R,
        items: I,
    ) -> Result<Self, AllocError>
        requires ends { (s : I.IntoIter) → I.into_iter_gives items s →
            I.IntoIter.can_next s × IsFinite (I.IntoIter.remaining s) }
        ensures { IfOk result (λ v.
            (s : I.IntoIter) × (given : List T) × I.into_iter_gives items s
            × Drains I.IntoIter.next_gives s given
            × (map T.shown v ≡ map T.target given)) }
    {
        let items = items.into_iter();
        let mut table = Vec::new(alloc);
        // The iterator may return fewer items than its hint, so a failure is left to `push`.
        let _room = table.reserve(items.size_hint().0);
        let mut made = FrozenVecIn::from_vec(arena, table);
        for item in items {
            made.push(item)?;
        }
        Ok(made)
    }

    /// Makes a vector with the same content, arena and allocator. Later pushes into one of the two
    /// don't change the other.
    ///
    /// # Errors
    /// Fails if an allocation fails.
    ///
    /// # Cost
    /// `O(n)`: it copies the borrows, and no target.
    pub fn clone(&self) -> Result<Self, AllocError>
        ensures { IfOk result (λ copy. copy ≡ self.now) }
    {
        let items = Vec::from_slice(*self.items.allocator(), self.items.as_slice())?;
        Ok(FrozenVecIn::from_vec(self.arena, items))
    }

    /// Returns the borrows, in order. It allocates nothing.
    pub fn into_vec(self) -> Vec<T::Borrow, A>
        ensures { result.items ≡ self }
    {
        let FrozenVecIn {
            arena: _,
            items,
            of: _,
        } = self;
        items
    }

    /// Returns the number of items.
    pub fn len(&self) -> usize
        ensures { result ≡ length self.now }
    {
        self.items.len()
    }

    /// Returns whether the vector has no item.
    pub fn is_empty(&self) -> bool
        ensures { IsTrue result ↔ (self.now ≡ []) }
    {
        self.items.is_empty()
    }

    // ---- capacity

    /// Returns the number of items that the vector can have before the list of its borrows
    /// allocates.
    ///
    /// # Cost
    /// `O(1)`.
    pub fn capacity(&self) -> usize
        ensures { length self.now ≤ result }
    {
        self.items.capacity()
    }

    /// Reserves capacity for at least `additional` more items: until they are pushed, a push
    /// allocates only in the arena. The content is unchanged. It allocates nothing if the vector
    /// has that capacity.
    ///
    /// # Errors
    /// Fails if an allocation fails. The capacity is then unchanged.
    ///
    /// # Cost
    /// `O(n)`.
    pub fn reserve(&mut self, additional: usize) -> Result<(), AllocError>
        ensures content { self.new ≡ self.old }
        ensures none_is_free { additional ≡ 0 → IsOk result }
    {
        self.items.reserve(additional)
    }

    // ---- pushing

    /// Stores the item in the arena and appends its borrow.
    ///
    /// It reserves capacity first, by doubling, so no copy is left in the arena if the growth
    /// fails.
    ///
    /// # Errors
    /// Fails if an allocation fails. The content is then unchanged, and the item is dropped.
    ///
    /// # Cost
    /// `O(1)`, plus one copy into the arena.
    pub fn push(&mut self, item: T) -> Result<(), AllocError>
        ensures pushed { OnOk result (Gains T.target T.shown self.old item self.new) }
        ensures refused { OnErr result (self.new ≡ self.old) }
    {
        self.push_get(item)?;
        Ok(())
    }

    /// Stores the item in the arena, appends its borrow, and returns the borrow.
    ///
    /// It reserves capacity first, by doubling, so no copy is left in the arena if the growth
    /// fails.
    ///
    /// # Errors
    /// Fails if an allocation fails. The content is then unchanged, and the item is dropped.
    ///
    /// # Cost
    /// `O(1)`, plus one copy into the arena.
    pub fn push_get(&mut self, item: T) -> Result<T::Borrow, AllocError>
        ensures pushed { IfOk result (λ b. self.new ≡ self.old ++ b ∷ []) }
        ensures target { IfOk result (λ b. T.shown b ≡ T.target item) }
        ensures refused { OnErr result (self.new ≡ self.old) }
    {
        self.items.reserve(1)?;
        let Ok(borrow) = item.place(self.arena) else {
            return Err(AllocError);
        };
        self.items.push_reserved(borrow);
        Ok(borrow)
    }

    /// Stores the iterator's items in the arena and appends their borrows, in their order.
    ///
    /// # Errors
    /// Fails if an allocation fails. The content is then unchanged, and the items that were not
    /// stored are dropped; the arena keeps those that were stored.
    ///
    /// # Cost
    /// `O(1)` for each item, plus its copy into the arena.
    pub fn extend<I: IntoIterator<Item = T>>(&mut self, items: I) -> Result<(), AllocError>
        requires ends { (s : I.IntoIter) → I.into_iter_gives items s →
            I.IntoIter.can_next s × IsFinite (I.IntoIter.remaining s) }
        ensures extended { OnOk result (
            (s : I.IntoIter) × (given : List T) × I.into_iter_gives items s
            × Drains I.IntoIter.next_gives s given
            × GainsAll T.target T.shown self.old given self.new) }
        ensures refused { OnErr result (self.new ≡ self.old) }
    {
        let before = self.items.len();
        for item in items {
            if self.push(item).is_err() {
                self.items.truncate(before);
                return Err(AllocError);
            }
        }
        Ok(())
    }

    // ---- looking up by index

    /// Returns the item at `index`, or `None` exactly if the index is at or above the length.
    ///
    /// # Cost
    /// `O(1)`.
    pub fn get(&self, index: usize) -> Option<T::Borrow>
        ensures { result ≡ slice_get self.now index }
    {
        self.items.get(index).copied()
    }

    /// Returns the first item, or `None` exactly if the vector is empty.
    pub fn first(&self) -> Option<T::Borrow>
        ensures { result ≡ slice_get self.now 0 }
    {
        self.items.get(0).copied()
    }

    /// Returns the last item, or `None` exactly if the vector is empty.
    pub fn last(&self) -> Option<T::Borrow>
        ensures { result ≡ slice_get self.now (length self.now - 1) }
    {
        self.items.last().copied()
    }

    /// Returns whether an item equals `item`.
    ///
    /// # Cost
    /// `O(n)`: the items are compared from the front, up to the first equal one.
    pub fn contains(&self, item: T::Borrow) -> bool
    where
        <T as StableDeref<R>>::Borrow: PartialEq,
        ensures { result ≡ list_any (λ kept. T.Borrow.eq kept item) self.now }
    {
        self.items.contains(&item)
    }

    /// Returns the item at `index`, which the caller proves to be below the length. Nothing is
    /// checked when it runs.
    pub fn get_unchecked(&self, index: usize) -> T::Borrow
        requires { index < length self.now }
        ensures { slice_get self.now index ≡ Some result }
    {
        self.items[index]
    }
}

impl<'a, R: Copy, U: Copy + 'a, T, A: Allocator + Copy> FrozenVecIn<R, T, A>
where
    T: StableDeref<R, Borrow = &'a U>,
{
    /// Returns a copy of the value at `index`, or `None` exactly if the index is at or above the
    /// length.
    pub fn get_copy(&self, index: usize) -> Option<U>
        ensures { result ≡ option_map (λ b. b.now) (slice_get self.now index) }
    {
        self.get(index).copied()
    }
}

// `v[i]` is the item at index i, which the caller proves to be below the length.
impl<R: Copy, T: StableDeref<R>, A: Allocator + Copy> Index<usize> for FrozenVecIn<R, T, A> {
    type Output = T::Borrow;

    ghost can_index = { λ v i. i < length v };

    ghost index_gives = { λ v i b. slice_get v i ≡ Some b };

    fn index(&self, index: usize) -> &T::Borrow {
        &self.inner()[index]
    }
}

// ---- equality

// Two vectors are equal if they have the same length and equal items at each index.
impl<R: Copy, T: StableDeref<R>, A: Allocator + Copy> PartialEq for FrozenVecIn<R, T, A>
where
    <T as StableDeref<R>>::Borrow: PartialEq,
{
    ghost eq = { pointwise T.Borrow.eq };

    ghost laws = { lists_per T.Borrow.laws };

    fn eq(&self, other: &Self) -> bool {
        self.items.as_slice() == other.items.as_slice()
    }
}

impl<R: Copy, T: StableDeref<R>, A: Allocator + Copy> Eq for FrozenVecIn<R, T, A>
where
    <T as StableDeref<R>>::Borrow: Eq,
{
    ghost laws = { lists_equiv T.Borrow.Eq.laws };
}

// ---- printing

/// Writes the items in order by `{:?}`, as a `Vec` of them does: `["x", "y"]`.
impl<R: Copy, T: StableDeref<R>, A: Allocator + Copy> Debug for FrozenVecIn<R, T, A>
where
    <T as StableDeref<R>>::Borrow: Debug,
{
    ghost debug_output = { debug_list T.Borrow.debug_output };

    fn fmt<W: Write>(&self, f: &mut Formatter<W>) -> fmt::Result {
        self.as_slice().fmt(f)
    }
}

// ---- searching

impl<R: Copy, T: StableDeref<R>, A: Allocator + Copy> FrozenVecIn<R, T, A> {
    /// Searches a sorted vector for an item that compares as equal with `target`.
    ///
    /// `Ok` has the index of an item that compares as equal. `Err` has an index between an item
    /// that compares as less and one that compares as greater, or at an end: in a sorted vector,
    /// the index at which the item could be inserted.
    ///
    /// # Cost
    /// `O(log n)`.
    pub fn binary_search(&self, target: T::Borrow) -> Result<usize, usize>
    where
        <T as StableDeref<R>>::Borrow: Ord,
        ensures bracket { Brackets (length self.now) (ComparesAt T.Borrow.cmp target self.now)
            result }
        ensures sorted { IsBinarySearchResult (λ item. T.Borrow.cmp item target) self.now result }
        ensures within { IfOk result (λ i. i < length self.now) }
    {
        search::binary_search(self.as_slice(), &target)
    }

    /// Searches for an item for which the closure returns `Equal`, in a vector in which the items
    /// with `Less` come before it and those with `Greater` after it.
    ///
    /// `Ok` has the index of an item for which the closure returned `Equal`. `Err` has an index
    /// between an item for which it returned `Less` and one for which it returned `Greater`, or at
    /// an end. This also holds for a closure that has a state or is inconsistent. The closure is
    /// called at most as often as the length has binary digits, and at most once for each index.
    /// The caller proves that the closure may be called for the vector's items, in the states to
    /// which the calls so far lead.
    pub fn binary_search_by<F: FnMut(T::Borrow) -> Ordering>(
        &self,
        mut order: F,
    ) -> Result<usize, usize>
        requires at_items { CallableAtItems (λ p b r q. F.step p b r q) (λ p b. F.pre p b) self.now
            order }
        ensures bracket { Searched (λ p b r q. F.step p b r q) self.now order (λ calls.
            Brackets (length self.now) (Answered calls) result) }
        ensures split { (o : ℕ → Ordering) →
            AnswersByIndex (λ p b r q. F.step p b r q) self.now order o →
            Rises (length self.now) o → Splits (length self.now) o result }
        ensures by_item { (o : T.Borrow → Ordering) →
            AnswersByItem (λ p b r q. F.step p b r q) order o →
            IsBinarySearchResult o self.now result }
        ensures within { IfOk result (λ i. i < length self.now) }
    {
        search::binary_search_by(self.as_slice(), &mut order)
    }

    /// Searches as [`binary_search_by`](FrozenVecIn::binary_search_by) does, by keys:
    /// `key_of(item)` is compared with `key`, as in
    /// `v.binary_search_by_key(&3, |kept| kept.len())`.
    pub fn binary_search_by_key<K: Ord + Drop, F: FnMut(T::Borrow) -> K>(
        &self,
        key: &K,
        mut key_of: F,
    ) -> Result<usize, usize>
        requires at_items { CallableAtItems (λ p b r q. F.step p b r q) (λ p b. F.pre p b) self.now
            key_of }
        ensures bracket { Searched (Compares K.cmp key.now (λ p b r q. F.step p b r q)) self.now
            key_of (λ calls. Brackets (length self.now) (Answered calls) result) }
        ensures split { (o : ℕ → Ordering) →
            AnswersByIndex (Compares K.cmp key.now (λ p b r q. F.step p b r q)) self.now key_of o →
            Rises (length self.now) o → Splits (length self.now) o result }
        ensures by_item { (o : T.Borrow → Ordering) →
            AnswersByItem (Compares K.cmp key.now (λ p b r q. F.step p b r q)) key_of o →
            IsBinarySearchResult o self.now result }
        ensures within { IfOk result (λ i. i < length self.now) }
    {
        search::binary_search_by_key(self.as_slice(), key, &mut key_of)
    }

    /// Returns the index at which the items for which the closure returns true end, in a vector in
    /// which they come before the others.
    ///
    /// The closure returned true for the item before that index and false for the item at it, if
    /// these items exist. This also holds for a closure that has a state or is inconsistent. The
    /// closure is called at most as often as the length has binary digits, and at most once for
    /// each index. The caller proves that the closure may be called for the vector's items, in the
    /// states to which the calls so far lead.
    pub fn partition_point<F: FnMut(T::Borrow) -> bool>(&self, mut belongs: F) -> usize
        requires at_items { CallableAtItems (λ p b r q. F.step p b r q) (λ p b. F.pre p b) self.now
            belongs }
        ensures bracket { Searched (λ p b r q. F.step p b r q) self.now belongs (λ calls.
            IsBetween (length self.now) (Answered calls) true false result) }
        ensures split { (answer : ℕ → Bool) →
            AnswersByIndex (λ p b r q. F.step p b r q) self.now belongs answer →
            Falls (length self.now) answer → Parts (length self.now) answer result }
        ensures by_item { (test : T.Borrow → Bool) →
            AnswersByItem (λ p b r q. F.step p b r q) belongs test → IsPartitionedBy test self.now →
            IsPartitionPoint (λ b. test b ≡ true) (λ b. test b ≡ false) self.now result }
    {
        search::partition_point(self.as_slice(), &mut belongs)
    }

    // ---- walking, and writing

    /// Returns the borrows, in order, as a slice. It allocates nothing and never blocks.
    ///
    /// # Cost
    /// `O(1)`.
    pub fn as_slice(&self) -> &[T::Borrow]
        ensures { result.now ≡ self.now }
    {
        self.items.as_slice()
    }

    /// Returns an iterator over the items, each once and in order; from the back, in reverse order.
    /// No item can be pushed while it exists: a `Cursor` continues after pushes.
    pub fn iter(&self) -> IterIn<'_, R, T, A>
        ensures start { result ≡ self.now }
        ensures runs { GivesInOrder T.Borrow }
        ensures runs_back { GivesInReverse T.Borrow }
    {
        IterIn::new(self)
    }

    /// Returns the inner vector by reference, for each call of it that only reads. Its items are
    /// the borrows.
    ///
    /// # Cost
    /// `O(1)`. It allocates nothing.
    pub fn inner(&self) -> &Vec<T::Borrow, A>
        ensures content { result.now.items ≡ self.now }
    {
        &self.items
    }

    /// Returns the inner vector, borrowed for writing. What it contains when the borrow ends is the
    /// vector's content from then on; it may be anything.
    pub fn as_mut(&mut self) -> &mut Vec<T::Borrow, A>
        ensures* writes_back { sem 𝓛 (lends_items R.row T.row A.row T.Borrow.row T.HasTarget
            A.Allocator self.entry result) }
        ensures content { result.now.items ≡ self.old }
    {
        &mut self.items
    }
}

impl<'v, R: Copy, T: StableDeref<R>, A: Allocator + Copy> IntoIterator
    for &'v FrozenVecIn<R, T, A> {
    type Item = T::Borrow;

    type IntoIter = IterIn<'v, R, T, A>;

    ghost into_iter_gives = { λ v it. (it ≡ v.now) × GivesInOrder T.Borrow };

    fn into_iter(self) -> IterIn<'v, R, T, A> {
        self.iter()
    }
}
