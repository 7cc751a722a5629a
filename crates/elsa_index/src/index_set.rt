//! A set whose values keep the order of their first insertions.
ghost use Rattle.std.specs.Prelude.{◌≡◌, ◌++◌, ◌∷◌, ◌<◌, ◌≤◌, ◌↔◌, [], ℕ, List, length, None, Ok, Some, false, slice_get, position, find, IfOk, IsOk, IfSome, OnOk, OnErr, IsPermutation, IsTrue, is_some};
ghost use Rattle.std.specs.Borrow.{sem};
ghost use Rattle.std.specs.Cmp.{partial_equiv_from_equiv};
ghost use Rattle.std.specs.Iterator.{Drains, ExtendsWithItems, IsFinite};
ghost use Rattle.std.specs.List.{IsDistinct};
ghost use Rattle.std.specs.Map.Iter.{ShowsInOrder, ShowsInReverse, deref};
ghost use Rattle.std.specs.Option.{option_map};
ghost use Rattle.elsa_tables.specs.Insertions.{Grows, SetInserted, SetInsertedNew, SetCollects};
ghost use Rattle.elsa_index.specs.EqualityLaws.{same_set_equiv};
ghost use Rattle.elsa_index.specs.Equality.{same_set, HaveSameValues};
ghost use Rattle.elsa_index.specs.Extended.{SetExtends};
ghost use Rattle.elsa_index.specs.Lent.{lends_values};
ghost use Rattle.elsa_index.specs.Texts.{reads, TextInserted};

use crate::look_up::{LookUp, SeeksValue};
use bumpalo::Bump;
use elsa_tables::for_its_clause;
use elsa_vec::stable::StableDeref;
use indexmap::IndexSet;
use indexmap::set::Iter;
use std::alloc::{AllocError, Allocator, Global};
use std::fmt::{self, Debug, Formatter, Write};
use std::hash::{BuildHasher, BuildHasherDefault, FoldHasher, Hash};
use std::marker::{Model, PhantomData};
use std::ops::Index;

/// A set that only grows, whose values are stored in the arena to which an `R` refers. `A` is the
/// allocator of its table.
///
/// [`FrozenIndexSet`] is its name if the arena is a `Bump`; code for any arena uses this type.
pub struct FrozenIndexSetIn<
    R: Copy,
    T,
    S: BuildHasher = BuildHasherDefault<FoldHasher>,
    A: Allocator + Copy = Global,
>
where
    T: StableDeref<R>,
    T::Borrow: Eq + Hash,
{
    // Where values are stored, and the borrow of each, in the order of insertion.
    arena: R,
    set: IndexSet<T::Borrow, S, A>,
    of: PhantomData<T>,
}

/// A set whose values are stored in a `Bump` of lifetime `'a` and of the allocator `P`.
///
/// It is an interner of any type of values: `insert_full` returns the index of a value, and
/// `get_index` returns the value at an index. Use `&[u8]` for bytes, and `Own<T>` for any `T: Copy
/// + Eq + Hash`.
pub type FrozenIndexSet<'a, T, S = BuildHasherDefault<FoldHasher>, A = Global, P = Global> =
    FrozenIndexSetIn<&'a Bump<P>, T, S, A>;

/// The [`FrozenIndexSet`] by another name.
#[deprecated(since = "0.5.0", note = "use `FrozenIndexSet`, which is the same type")]
pub type FrozenSet<'a, T, S = BuildHasherDefault<FoldHasher>, A = Global, P = Global> =
    FrozenIndexSet<'a, T, S, A, P>;

impl<R: Copy, T, S: BuildHasher, A: Allocator + Copy> Model for FrozenIndexSetIn<R, T, S, A>
where
    T: StableDeref<R>,
    T::Borrow: Eq + Hash,
{
    ghost use Rattle.std.specs.Prelude.{List};

    ghost Value = { List T.Borrow };

    ghost view = { λ m. m.set.keys };
}

impl<R: Copy, T: StableDeref<R>, S: BuildHasher + Drop, A: Allocator + Copy> Drop
    for FrozenIndexSetIn<R, T, S, A>
where
    <T as StableDeref<R>>::Borrow: Eq + Hash,
{
    fn drop(self) {
        let FrozenIndexSetIn {
            arena: _arena,
            set: _set,
            of: _of,
        } = self;
    }
}

impl<R: Copy, T, A> FrozenIndexSetIn<R, T, BuildHasherDefault<FoldHasher>, A>
where
    T: StableDeref<R>,
    A: Allocator + Copy,
    <T as StableDeref<R>>::Borrow: Eq + Hash,
{
    /// Makes an empty set with the default hasher, which is fast and has a fixed seed. It allocates
    /// nothing. If the values are untrusted input, use
    /// [`with_hasher`](FrozenIndexSetIn::with_hasher) with a `SeededState` of `elsa`.
    pub fn new(alloc: A, arena: R) -> Self
        ensures { result ≡ [] }
    {
        FrozenIndexSetIn::with_hasher(alloc, arena, BuildHasherDefault::new())
    }

    /// Makes an empty set with the default hasher and with capacity for `count` values, as after
    /// [`reserve`](FrozenIndexSetIn::reserve). It allocates nothing if `count` is 0.
    ///
    /// # Errors
    /// Fails if an allocation fails.
    pub fn with_capacity(alloc: A, arena: R, count: usize) -> Result<Self, AllocError>
        ensures empty { IfOk result (λ m. m ≡ []) }
        ensures none_is_free { count ≡ 0 → IsOk result }
    {
        Ok(FrozenIndexSetIn::from_set(arena, IndexSet::with_capacity(alloc, count)?))
    }
}

impl<R: Copy, T, S: BuildHasher, A: Allocator + Copy> FrozenIndexSetIn<R, T, S, A>
where
    T: StableDeref<R>,
    <T as StableDeref<R>>::Borrow: Eq + Hash,
{
    /// Makes an empty set that hashes its values by `hash_builder`. It allocates nothing.
    pub fn with_hasher(alloc: A, arena: R, hash_builder: S) -> Self
        ensures { result ≡ [] }
    {
        FrozenIndexSetIn::from_set(arena, IndexSet::with_hasher(alloc, hash_builder))
    }

    /// Returns the index of the value that `query` finds, or `None` if the set has no such value.
    ///
    /// A `&str` is a query of a set of texts, and a reference to a value that is `LookUp` is a
    /// query of its set: [`SeeksValue`] lists them.
    ///
    /// # Cost
    /// One hash and one search.
    #[inline(always)]
    pub fn get_index_of<Q: SeeksValue<T::Borrow>>(&self, query: Q) -> Option<usize>
        ensures { result ≡ position (Q.finds query) self.now }
    {
        query.seek_index(&self.set)
    }

    /// Returns whether the set has a value that `query` finds.
    ///
    /// # Cost
    /// That of [`get_index_of`](FrozenIndexSetIn::get_index_of).
    pub fn contains<Q: SeeksValue<T::Borrow>>(&self, query: Q) -> bool
        ensures { result ≡ is_some (position (Q.finds query) self.now) }
    {
        self.get_index_of(query).is_some()
    }

    /// Returns the number of values.
    pub fn len(&self) -> usize
        ensures count { result ≡ length self.now }

        // No two values of a set are equal.
        ensures distinct { IsDistinct T.Borrow.eq self.now }
    {
        self.set.len()
    }

    /// Returns whether the set has no value.
    #[tactic(auto, using(std::proofs::lemmas::List::nil_from_length))]
    pub fn is_empty(&self) -> bool
        ensures { IsTrue result ↔ (self.now ≡ []) }
    {
        self.len() == 0
    }

    /// Returns an iterator over the borrows of the values, each once, in the order of the first
    /// insertions; from the back, in reverse order. No value can be inserted while it exists. It
    /// allocates nothing.
    ///
    /// # Cost
    /// `O(1)`, and `O(1)` for each value.
    pub fn iter(&self) -> Iter<'_, T::Borrow>
        ensures rest { result ≡ self.now }
        ensures runs { ShowsInOrder (deref {X = T.Borrow}) }
        ensures runs_back { ShowsInReverse (deref {X = T.Borrow}) }
    {
        self.set.iter()
    }

    /// Returns the value at `index`, or `None` exactly if the index is at or above the length.
    ///
    /// # Cost
    /// `O(1)`, without a hash.
    pub fn get_index(&self, index: usize) -> Option<T::Borrow>
        ensures { result ≡ slice_get self.now index }
    {
        self.set.get_index(index).copied()
    }

    /// Returns the stored value that `query` finds, or `None` if the set has no such value.
    ///
    /// # Cost
    /// That of [`get_index_of`](FrozenIndexSetIn::get_index_of).
    #[tactic(auto, using(elsa_maps::proofs::Indices::found_at, elsa_maps::proofs::Indices::found_nowhere, elsa_maps::proofs::Indices::found_within))]
    pub fn get<Q: SeeksValue<T::Borrow>>(&self, query: Q) -> Option<T::Borrow>
        ensures { result ≡ find (Q.finds query) self.now }
    {
        let index = query.seek_index(&self.set)?;
        Some(self.set[index])
    }

    /// Returns the index of the stored value that `query` finds, and the value, or `None` if the
    /// set has no such value.
    ///
    /// # Cost
    /// That of [`get_index_of`](FrozenIndexSetIn::get_index_of).
    #[tactic(auto, using(elsa_maps::proofs::Indices::found_within))]
    pub fn get_full<Q: SeeksValue<T::Borrow>>(&self, query: Q) -> Option<(usize, T::Borrow)>
        ensures index { option_map (λ r. r.0) result ≡ position (Q.finds query) self.now }
        ensures stored { IfSome result (λ r. slice_get self.now r.0 ≡ Some r.1) }
    {
        let index = query.seek_index(&self.set)?;
        Some((index, self.set[index]))
    }

    /// Makes a set with the values of `set`. Values inserted later are stored in `arena`. It
    /// allocates nothing.
    pub fn from_set(arena: R, set: IndexSet<T::Borrow, S, A>) -> Self
        ensures content { result ≡ set.keys }
    {
        FrozenIndexSetIn {
            arena,
            set,
            of: PhantomData,
        }
    }

    /// Returns the values, in the order of their first insertions. It allocates nothing.
    pub fn into_set(self) -> IndexSet<T::Borrow, S, A>
        ensures content { result.keys ≡ self }
    {
        let FrozenIndexSetIn {
            arena: _,
            set: inner,
            of: _,
        } = self;
        inner
    }

    /// Makes a set with the same content, arena and allocator, and with a clone of the hash
    /// builder. Later insertions into one of the two don't change the other.
    ///
    /// # Errors
    /// Fails if an allocation fails, or if the hash builder's `clone` fails.
    ///
    /// # Cost
    /// `O(n)`: it copies the borrows, and no target.
    pub fn clone(&self) -> Result<Self, AllocError>
    where
        S: Clone,
        ensures content { IfOk result (λ m. m ≡ self.now) }
    {
        let hash_builder = self.set.hasher().clone()?;
        let mut set = IndexSet::with_hasher(*self.set.allocator(), hash_builder);
        set.extend(self.set.iter())?;
        Ok(FrozenIndexSetIn::from_set(self.arena, set))
    }

    /// Returns the number of values that the set can have before its table allocates.
    ///
    /// # Cost
    /// `O(1)`.
    pub fn capacity(&self) -> usize
        ensures { length self.now ≤ result }
    {
        self.set.capacity()
    }

    /// Reserves capacity for at least `additional` more values: until they are inserted, an
    /// insertion allocates only in the arena. The content is unchanged. It allocates nothing if the
    /// set has that capacity.
    ///
    /// # Errors
    /// Fails if an allocation fails. The capacity is then unchanged.
    ///
    /// # Cost
    /// `O(n)`.
    pub fn reserve(&mut self, additional: usize) -> Result<(), AllocError>
        ensures content { self.new ≡ self.old }
        ensures none_is_free { additional ≡ 0 → IsOk result }
    {
        self.set.reserve(additional)
    }

    // Appends a borrow.
    #[tactic(auto, using(elsa_maps::proofs::Indices::new_value_goes_last))]
    fn add(&mut self, value: T::Borrow) -> Result<usize, AllocError>
        requires absent { position (T.Borrow.eq value) self.old ≡ None }
        ensures index { IfOk result (λ i. i ≡ length self.old) }
        ensures appended { OnOk result (self.new ≡ self.old ++ value ∷ []) }
        ensures refused { OnErr result (self.new ≡ self.old) }
        ensures unique { IsDistinct T.Borrow.eq self.new }
    {
        let index = self.set.len();
        self.set.insert(value)?;
        Ok(index)
    }

    /// Returns the inner set by reference, for each call of it that only reads, such as `is_subset`
    /// or `union`. Its values are the borrows.
    ///
    /// # Cost
    /// `O(1)`. It allocates nothing.
    pub fn inner(&self) -> &IndexSet<T::Borrow, S, A>
        ensures content { result.now.keys ≡ self.now }
    {
        &self.set
    }

    /// Returns the inner set, borrowed for writing. What it contains when the borrow ends is the
    /// set's content from then on.
    pub fn as_mut(&mut self) -> &mut IndexSet<T::Borrow, S, A>
        ensures* writes_back { sem 𝓛 (lends_values R.row T.row S.row A.row T.Borrow.row
            S.Hasher.row T.Borrow.Hash T.HasTarget S.BuildHasher S.Hasher.Hasher A.Allocator
            self.entry result) }
        ensures content { result.now.keys ≡ self.old }
    {
        &mut self.set
    }

    /// Replaces the content by that of `base`, as a write to the result of `as_mut` does. It
    /// allocates nothing.
    pub fn rebase(&mut self, base: IndexSet<T::Borrow, S, A>)
    where
        S: Drop,
        ensures { self.new ≡ base.keys }
    {
        *self.as_mut() = base;
    }
}

impl<R: Copy, T, S: BuildHasher, A: Allocator + Copy> FrozenIndexSetIn<R, T, S, A>
where
    T: StableDeref<R> + LookUp<<T as StableDeref<R>>::Borrow>,
    <T as StableDeref<R>>::Borrow: Eq + Hash,
{
    /// Stores a value that the set doesn't have in the arena, appends its borrow, and returns its
    /// index and its borrow.
    ///
    /// The caller proves that the set has no equal value, for example by the result of
    /// `get_index_of`.
    ///
    /// # Errors
    /// Fails if an allocation fails. The content is then unchanged, and the value is dropped; the
    /// set may have more capacity than before.
    ///
    /// # Cost
    /// One hash, plus one copy into the arena.
    pub fn insert_absent(&mut self, value: T) -> Result<(usize, T::Borrow), AllocError>
        requires absent { position (T.finds value) self.old ≡ None }
        ensures index { IfOk result (λ r. r.0 ≡ length self.old) }
        ensures placed { IfOk result (λ r. T.shown r.1 ≡ T.target value) }
        ensures appended { IfOk result (λ r. self.new ≡ self.old ++ r.1 ∷ []) }

        // A call that fails changes nothing. A value that was added is found.
        ensures refused { OnErr result (self.new ≡ self.old) }
        ensures unique { OnOk result (IsDistinct T.Borrow.eq self.new) }
        ensures value_after { IfOk result (λ r. slice_get self.new r.0 ≡ Some r.1) }
        ensures index_after { IfOk result (λ r. position (T.finds value) self.new ≡ Some r.0) }
    {
        self.set.reserve(1)?;
        let Ok(borrow) = value.place(self.arena) else {
            return Err(AllocError);
        };
        let index = self.add(borrow)?;
        Ok((index, borrow))
    }

    /// Inserts the value unless the set has an equal one, and returns the index of the stored
    /// value, the stored value, and whether it is new.
    ///
    /// If the set has an equal value, the call drops the given one, allocates nothing and changes
    /// nothing. Otherwise it stores the value in the arena and appends its borrow.
    ///
    /// # Errors
    /// Fails if the value is new and an allocation fails. The content is then unchanged, and the
    /// value is dropped; the set may have more capacity than before.
    ///
    /// # Cost
    /// One hash if the set has an equal value; otherwise two, plus one copy into the arena.
    #[tactic(auto, using(elsa_maps::proofs::Indices::found_at, elsa_maps::proofs::Indices::found_nowhere, elsa_maps::proofs::Indices::found_within))]
    pub fn insert_full_new(&mut self, value: T) -> Result<(usize, T::Borrow, bool), AllocError>
        // A present value keeps its index; a new one is the last.
        ensures present { (x : T.Borrow) → find (T.finds value) self.old ≡ Some x →
            (i : ℕ) × (position (T.finds value) self.old ≡ Some i)
            × (result ≡ Ok (i, x, false)) × (self.new ≡ self.old) }
        ensures accepted { IfOk result (λ r.
            SetInsertedNew T.target T.shown T.finds self.old value r.0 r.1 r.2 self.new) }

        // The call fails only for a new value, and then nothing changes.
        ensures refused { OnErr result (self.new ≡ self.old) }
        ensures only_new { OnErr result (position (T.finds value) self.old ≡ None) }

        // No two values are equal. The returned value is stored at the returned index, and the
        // given one finds it.
        ensures unique { IsDistinct T.Borrow.eq self.new }
        ensures value_after { IfOk result (λ r. slice_get self.new r.0 ≡ Some r.1) }
        ensures index_after { IfOk result (λ r. position (T.finds value) self.new ≡ Some r.0) }
    {
        // The contract of `len` has the fact that no two values are equal.
        for_its_clause(self.set.len());
        if let Some(index) = value.position(&self.set) {
            return Ok((index, self.set[index], false));
        }
        let (index, borrow) = self.insert_absent(value)?;
        Ok((index, borrow, true))
    }

    /// Inserts the value unless the set has an equal one, and returns the index of the stored
    /// value, and the stored value.
    ///
    /// # Errors
    /// Fails as [`insert_full_new`](FrozenIndexSetIn::insert_full_new) does.
    ///
    /// # Cost
    /// That of `insert_full_new`.
    pub fn insert_full(&mut self, value: T) -> Result<(usize, T::Borrow), AllocError>
        // A present value keeps its index; a new one is the last.
        ensures present { (x : T.Borrow) → find (T.finds value) self.old ≡ Some x →
            (i : ℕ) × (position (T.finds value) self.old ≡ Some i) × (result ≡ Ok (i, x))
            × (self.new ≡ self.old) }
        ensures accepted { IfOk result (λ r.
            SetInserted T.target T.shown T.finds self.old value r.0 r.1 self.new) }

        // The call fails only for a new value, and then nothing changes.
        ensures refused { OnErr result (self.new ≡ self.old) }
        ensures only_new { OnErr result (position (T.finds value) self.old ≡ None) }

        // No two values are equal. The returned value is stored at the returned index, and the
        // given one finds it.
        ensures unique { IsDistinct T.Borrow.eq self.new }
        ensures value_after { IfOk result (λ r. slice_get self.new r.0 ≡ Some r.1) }
        ensures index_after { IfOk result (λ r. position (T.finds value) self.new ≡ Some r.0) }
    {
        let (index, stored, _) = self.insert_full_new(value)?;
        Ok((index, stored))
    }

    /// Inserts the value unless the set has an equal one, and returns the stored value, and whether
    /// it is new.
    ///
    /// # Errors
    /// Fails as [`insert_full_new`](FrozenIndexSetIn::insert_full_new) does.
    ///
    /// # Cost
    /// That of `insert_full_new`.
    #[tactic(auto, using(elsa_maps::proofs::Indices::found_at))]
    pub fn insert_new(&mut self, value: T) -> Result<(T::Borrow, bool), AllocError>
        ensures present { (x : T.Borrow) → find (T.finds value) self.old ≡ Some x →
            (result ≡ Ok (x, false)) × (self.new ≡ self.old) }
        ensures accepted { IfOk result (λ r.
            (i : ℕ) × SetInsertedNew T.target T.shown T.finds self.old value i r.0 r.1 self.new) }
        ensures refused { OnErr result (self.new ≡ self.old) }
        ensures only_new { OnErr result (position (T.finds value) self.old ≡ None) }
        ensures value_after { IfOk result (λ r. find (T.finds value) self.new ≡ Some r.0) }
    {
        let (_, borrow, is_new) = self.insert_full_new(value)?;
        Ok((borrow, is_new))
    }

    /// Inserts the value unless the set has an equal one, and returns the stored value.
    ///
    /// # Errors
    /// Fails as [`insert_full_new`](FrozenIndexSetIn::insert_full_new) does.
    ///
    /// # Cost
    /// That of `insert_full_new`.
    #[tactic(auto, using(elsa_maps::proofs::Indices::found_at))]
    pub fn insert(&mut self, value: T) -> Result<T::Borrow, AllocError>
        ensures present { (x : T.Borrow) → find (T.finds value) self.old ≡ Some x →
            (result ≡ Ok x) × (self.new ≡ self.old) }
        ensures accepted { IfOk result (λ b.
            (i : ℕ) × SetInserted T.target T.shown T.finds self.old value i b self.new) }
        ensures refused { OnErr result (self.new ≡ self.old) }
        ensures only_new { OnErr result (position (T.finds value) self.old ≡ None) }
        ensures value_after { IfOk result (λ b. find (T.finds value) self.new ≡ Some b) }
    {
        let (_, borrow) = self.insert_full(value)?;
        Ok(borrow)
    }

    /// Inserts the iterator's values in their order: the first of equal new ones is appended, and a
    /// present value keeps its index.
    ///
    /// The table reserves capacity for the lower bound of the iterator's `size_hint`. If that
    /// fails, it grows value by value.
    ///
    /// # Errors
    /// Fails if an allocation fails. The values before the one that failed are inserted, and the
    /// others are dropped.
    ///
    /// # Allocates
    /// The growth of the table, and each new value in the arena.
    ///
    /// # Cost
    /// `O(1)` for each value: at most two hashes, plus one copy into the arena if it is new.
    pub fn extend<I: IntoIterator<Item = T>>(&mut self, values: I) -> Result<(), AllocError>
        requires ends { (s : I.IntoIter) → I.into_iter_gives values s →
            I.IntoIter.can_next s × IsFinite (I.IntoIter.remaining s) }
        ensures extended { ExtendsWithItems I.into_iter_gives I.IntoIter.next_gives
            (SetExtends T.Borrow.eq T.target T.shown T.finds) values self.old self.new result }
        ensures kept { Grows self.old self.new }
    {
        let values = values.into_iter();
        // Values may be present, so only a failed insertion is an error.
        let _room = self.reserve(values.size_hint().0);
        for value in values {
            self.insert_full(value)?;
        }
        Ok(())
    }

    /// Makes a set of the iterator's values, which keeps the first of equal ones and drops the
    /// others.
    ///
    /// The table reserves capacity for the lower bound of the iterator's `size_hint`. If that
    /// fails, it grows value by value.
    ///
    /// # Errors
    /// Fails if an allocation fails. The set and the values that were not stored are then dropped;
    /// the arena keeps those that were stored.
    ///
    /// # Cost
    /// `O(n)`: at most two hashes for each value.
    pub fn from_iter<I: IntoIterator<Item = T>>(
        alloc: A,
        arena: R,
        hash_builder: S,
        values: I,
    ) -> Result<Self, AllocError>
    where
        S: Drop,
        requires ends { (s : I.IntoIter) → I.into_iter_gives values s →
            I.IntoIter.can_next s × IsFinite (I.IntoIter.remaining s) }
        ensures collects { IfOk result (λ m.
            (s : I.IntoIter) × (xs : List T) × I.into_iter_gives values s
            × Drains I.IntoIter.next_gives s xs
            × SetCollects T.Borrow.eq T.target T.shown T.finds xs m) }
    {
        let mut set = FrozenIndexSetIn::with_hasher(alloc, arena, hash_builder);
        set.extend(values)?;
        Ok(set)
    }
}

// ---- texts

impl<'a, S: BuildHasher, A: Allocator + Copy, P: Allocator> FrozenIndexSet<'a, &'a str, S, A, P> {
    /// Inserts the text unless the set has an equal one, and returns the index of the stored text,
    /// and the stored text: [`insert_full`](FrozenIndexSetIn::insert_full) by a text of any
    /// lifetime.
    ///
    /// If the set has the text, the call allocates nothing and changes nothing. Otherwise it copies
    /// the text into the arena and appends the borrow of the copy.
    ///
    /// # Errors
    /// Fails if the text is new and an allocation fails. The content is then unchanged; the set may
    /// have more capacity than before.
    ///
    /// # Cost
    /// One hash if the set has the text; otherwise two, plus one copy into the arena.
    pub fn insert_full_text(&mut self, text: &str) -> Result<(usize, &'a str), AllocError>
        ensures accepted { IfOk result (λ r. TextInserted self.old text.now r.0 r.1 self.new) }
        ensures value_after { IfOk result (λ r. slice_get self.new r.0 ≡ Some r.1) }
        ensures index_after { IfOk result (λ r. position (reads text.now) self.new ≡ Some r.0) }
        ensures refused { OnErr result (
            (self.new ≡ self.old) × (position (reads text.now) self.old ≡ None)) }
    {
        if let Some(found) = self.get_full(text) {
            return Ok(found);
        }
        self.set.reserve(1)?;
        let placed = self.arena.try_alloc_str(text)?;
        self.insert_absent(placed)
    }

    /// Inserts the text unless the set has an equal one, and returns the stored text:
    /// `set.insert_text("a")`.
    ///
    /// # Errors
    /// Fails as [`insert_full_text`](FrozenIndexSetIn::insert_full_text) does.
    ///
    /// # Cost
    /// That of `insert_full_text`.
    #[tactic(auto, using(elsa_maps::proofs::Indices::found_at))]
    pub fn insert_text(&mut self, text: &str) -> Result<&'a str, AllocError>
        ensures accepted { IfOk result (λ b.
            (i : ℕ) × TextInserted self.old text.now i b self.new) }
        ensures reads { IfOk result (λ b. b.now ≡ text.now) }
        ensures value_after { IfOk result (λ b. find (reads text.now) self.new ≡ Some b) }
        ensures refused { OnErr result (
            (self.new ≡ self.old) × (position (reads text.now) self.old ≡ None)) }
    {
        let (_, stored) = self.insert_full_text(text)?;
        Ok(stored)
    }
}

impl<R: Copy, T: StableDeref<R>, S: BuildHasher, A: Allocator + Copy> Index<usize>
    for FrozenIndexSetIn<R, T, S, A>
where
    <T as StableDeref<R>>::Borrow: Eq + Hash,
{
    type Output = T::Borrow;

    ghost can_index = { λ s i. i < length s };

    ghost index_gives = { λ s i b. slice_get s i ≡ Some b };

    // The value at this index, which the caller proves to be below the length.
    fn index(&self, index: usize) -> &T::Borrow {
        &self.inner()[index]
    }
}

/// Writes the values by `{:?}`, in the order of their first insertions, as an `IndexSet` does:
/// `{"y", "x"}`.
impl<R: Copy, T: StableDeref<R>, S: BuildHasher, A: Allocator + Copy> Debug
    for FrozenIndexSetIn<R, T, S, A>
where
    <T as StableDeref<R>>::Borrow: Eq + Hash + Debug,
{
    fn fmt<W: Write>(&self, f: &mut Formatter<W>) -> fmt::Result {
        self.set.fmt(f)
    }
}

// Two sets are equal if they have the same values, in any order.
impl<R: Copy, T: StableDeref<R>, S: BuildHasher, A: Allocator + Copy> PartialEq
    for FrozenIndexSetIn<R, T, S, A>
where
    <T as StableDeref<R>>::Borrow: Eq + Hash,
{
    ghost eq = { same_set T.Borrow.eq };

    ghost laws = { partial_equiv_from_equiv (same_set_equiv T.Borrow.Eq.laws) };

    fn eq(&self, other: &Self) -> bool
        ensures decides { result ≡ same_set T.Borrow.eq self.now other.now }
        ensures as_sets { IsTrue result ↔ HaveSameValues T.Borrow.eq self.now other.now }
        ensures blind_to_order { IsPermutation self.now other.now → IsTrue result }
    {
        self.set == other.set
    }
}

impl<R: Copy, T: StableDeref<R>, S: BuildHasher, A: Allocator + Copy> Eq
    for FrozenIndexSetIn<R, T, S, A>
where
    <T as StableDeref<R>>::Borrow: Eq + Hash,
{
    ghost laws = { same_set_equiv T.Borrow.Eq.laws };
}
