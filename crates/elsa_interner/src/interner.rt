//! The interner of one thread, and the public names of the crate.
//!
//! [`Interner`] finds a name by its hash in a table of indices (`elsa_buckets`). One search
//! suffices, also for a new name.
ghost use Rattle.std.specs.Prelude.{◌≡◌, ◌↔◌, ℕ, [], List, length, None, Some, slice_get, position, map, is_some, ◌<◌, ◌≤◌, ◌-◌, ◌^◌, IfOk, IfSome, IsTrue, OnErr, OnOk};
ghost use Rattle.std.specs.Borrow.{Bor};
ghost use Rattle.std.specs.Fmt.{debug_list, debug_str};
ghost use Rattle.std.specs.Iterator.{Drains, ExtendsWithItems, IsFinite};
ghost use Rattle.std.specs.Iterator.Adapters.{IterYieldsInOrder, IterYieldsInReverse};
ghost use Rattle.std.specs.List.{IsDistinct};
ghost use Rattle.std.specs.Option.{option_map};
ghost use Rattle.std.specs.Str.{bytes_eq};
ghost use mathlib.Core.List.{IsPrefix};
ghost use Rattle.std.specs.Slice.Iter.{iter_rest};
ghost use Rattle.elsa_interner.specs.Names.{Puts, PutsAll, IsFull, IsOneToOne};

pub use crate::reader::InternerReader;
pub use crate::symbol::Symbol;
use bumpalo::Bump;
use std::alloc::{AllocError, Allocator, Global};
use std::fmt::{self, Debug, Formatter, Write};
use std::hash::{BuildHasher, BuildHasherDefault, FoldHasher};
use std::marker::Model;
use std::ops::Index;
use std::slice::Iter;

/// An interner: distinct names, numbered from 0 in the order of their first `put`.
///
/// Contracts see an interner as the list of its names, each as its bytes; the number of a name is
/// its index in the list. The names are stored in the arena that the caller passes in, so the
/// borrow that [`Interner::at`] returns outlives the interner. `alloc` allocates the table and the
/// list of names. `P` is the allocator of the arena.
#[derive(Drop)]
pub struct Interner<
    'a,
    S: BuildHasher = BuildHasherDefault<FoldHasher>,
    A: Allocator + Copy = Global,
    P: Allocator = Global,
> {
    // Where the texts are; the numbers are in `names`, which borrows them.
    arena: &'a Bump<P>,
    names: InternerReader<'a, S, A>,
}

impl<'a, S: BuildHasher, A: Allocator + Copy, P: Allocator> Model for Interner<'a, S, A, P> {
    ghost use Rattle.std.specs.Prelude.{List, ℕ};

    ghost Value = { List (List ℕ) };

    ghost view = { λ s. s.names };
}

impl<'a, A: Allocator + Copy, P: Allocator> Interner<'a, BuildHasherDefault<FoldHasher>, A, P> {
    /// Makes an empty interner with the default hasher, which is fast and has a fixed seed. It
    /// allocates nothing.
    ///
    /// The default hash has no secret. If the names are untrusted input, use
    /// [`Interner::with_hasher`] and a `SeededState` of `elsa`.
    pub fn new(alloc: A, arena: &'a Bump<P>) -> Self
        ensures { result ≡ [] }
    {
        Interner::with_hasher(alloc, arena, BuildHasherDefault::new())
    }

    /// Makes an interner of the texts with the default hasher: `Interner::from_names(alloc, &arena,
    /// ["fn", "let"])`. The names are the first of equal texts, in their order. So if the texts are
    /// distinct, the name with number `i` is the text at index `i`.
    ///
    /// It makes room for the lower bound of the iterator's `size_hint` first, as
    /// [`extend`](Interner::extend) does. For another hasher, extend the interner of
    /// [`Interner::with_hasher`].
    ///
    /// # Errors
    /// Fails if an allocation fails, or if there would be more than 2^32 - 1 names. The arena keeps
    /// the names that were stored.
    ///
    /// # Cost
    /// That of a [`put`](Interner::put) for each text.
    pub fn from_names<'t, I: IntoIterator<Item = &'t str>>(
        alloc: A,
        arena: &'a Bump<P>,
        texts: I,
    ) -> Result<Self, AllocError>
        requires ends { (s : I.IntoIter) → I.into_iter_gives texts s →
            I.IntoIter.can_next s × IsFinite (I.IntoIter.remaining s) }
        ensures names { IfOk result (λ names.
            (s : I.IntoIter) × (given : List (Bor (List ℕ))) × I.into_iter_gives texts s
            × Drains I.IntoIter.next_gives s given × PutsAll [] given names
            × (IsDistinct bytes_eq (map (λ text. text.now) given) →
            names ≡ map (λ text. text.now) given)) }
    {
        let mut names = Interner::new(alloc, arena);
        names.extend(texts)?;
        Ok(names)
    }

    /// Makes an empty interner with the default hasher and with capacity for `capacity` names, as
    /// after [`reserve`](Interner::reserve).
    ///
    /// # Errors
    /// Fails if an allocation fails, or if `capacity` is above 2^32 - 1.
    pub fn with_capacity(alloc: A, arena: &'a Bump<P>, capacity: usize) -> Result<Self, AllocError>
        ensures { IfOk result (λ names. names ≡ []) }
    {
        Interner::with_capacity_and_hasher(alloc, arena, capacity, BuildHasherDefault::new())
    }
}

impl<'a, S: BuildHasher, A: Allocator + Copy, P: Allocator> Interner<'a, S, A, P> {
    /// Makes an empty interner. `hash_builder` hashes its names. It allocates nothing.
    pub fn with_hasher(alloc: A, arena: &'a Bump<P>, hash_builder: S) -> Self
        ensures { result ≡ [] }
    {
        Interner {
            arena,
            names: InternerReader::new(alloc, hash_builder),
        }
    }

    /// Makes an empty interner with capacity for `capacity` names, as after
    /// [`reserve`](Interner::reserve). `hash_builder` hashes its names.
    ///
    /// # Errors
    /// Fails if an allocation fails, or if `capacity` is above 2^32 - 1.
    pub fn with_capacity_and_hasher(
        alloc: A,
        arena: &'a Bump<P>,
        capacity: usize,
        hash_builder: S,
    ) -> Result<Self, AllocError>
    where
        S: Drop,
        ensures { IfOk result (λ names. names ≡ []) }
    {
        let mut names = Interner::with_hasher(alloc, arena, hash_builder);
        names.reserve(capacity)?;
        Ok(names)
    }

    /// Returns the number of a name, or `None` if the text isn't a name. It allocates nothing.
    ///
    /// # Cost
    /// `O(1)` if the hashes are well distributed.
    #[inline]
    pub fn find(&self, text: &str) -> Option<usize>
        ensures index { result ≡ position (bytes_eq text.now) self.now }
        ensures named { IfSome result (λ n. slice_get self.now n ≡ Some text.now) }
        ensures fits { IfSome result (λ n. n < 2 ^ 32 - 1) }
    {
        self.names.find(text)
    }

    /// Returns the name with this number, or `None` exactly if the number is at or above
    /// [`Interner::len`]. It allocates nothing.
    ///
    /// The borrow is valid as long as the borrow of the arena.
    ///
    /// # Cost
    /// `O(1)`.
    pub fn at(&self, number: usize) -> Option<&'a str>
        ensures { option_map (λ b. b.now) result ≡ slice_get self.now number }
    {
        self.names.at(number)
    }

    /// Returns the number of names. The names are one to one with the numbers below it. It
    /// allocates nothing.
    ///
    /// # Cost
    /// `O(1)`.
    pub fn len(&self) -> usize
        ensures length { result ≡ length self.now }
        ensures one_to_one { IsOneToOne self.now }
        ensures limit { result < 2 ^ 32 }
    {
        self.names.len()
    }

    /// Returns whether there is no name. It allocates nothing.
    ///
    /// # Cost
    /// `O(1)`.
    pub fn is_empty(&self) -> bool
        ensures { IsTrue result ↔ (length self.now ≡ 0) }
    {
        self.names.is_empty()
    }

    /// Returns whether there are 2^32 - 1 names, the greatest number. A `put` of a new name then
    /// fails. It allocates nothing.
    ///
    /// # Cost
    /// `O(1)`.
    pub fn is_full(&self) -> bool
        ensures { IsTrue result ↔ IsFull self.now }
    {
        self.names.is_full()
    }

    /// Returns whether the text is a name. It allocates nothing.
    ///
    /// # Cost
    /// `O(1)` if the hashes are well distributed.
    pub fn contains(&self, text: &str) -> bool
        ensures { result ≡ is_some (position (bytes_eq text.now) self.now) }
    {
        self.names.contains(text)
    }

    /// Returns an iterator over the names, in the order of their numbers, and from the back in
    /// reverse. It allocates nothing.
    ///
    /// During the walk no name can be put. `enumerate` adds the numbers.
    ///
    /// # Cost
    /// `O(1)`, and `O(1)` for each name.
    pub fn iter(&self) -> Iter<'_, &'a str>
        ensures names { map (λ name. name.now) (iter_rest result) ≡ self.now }
        ensures runs { IterYieldsInOrder (Bor (List ℕ)) }
        ensures runs_back { IterYieldsInReverse (Bor (List ℕ)) }
    {
        self.names.iter()
    }

    /// Returns the number of names that the interner can have before the table or the list of names
    /// allocates. It is at least [`Interner::len`].
    ///
    /// # Cost
    /// `O(1)`.
    pub fn capacity(&self) -> usize
        ensures { length self.now ≤ result }
    {
        self.names.capacity()
    }

    /// Reserves capacity for at least `additional` more names: until they are put, a `put`
    /// allocates only in the arena. The names are unchanged, also if it fails.
    ///
    /// # Errors
    /// Fails if an allocation fails, or if there would be more than 2^32 - 1 names.
    ///
    /// # Allocates
    /// With `alloc`: 16 bytes for each name in the list, and 11 to 22 bytes in the table.
    ///
    /// # Cost
    /// `O(n)` if the list or the table grows, otherwise `O(1)`.
    pub fn reserve(&mut self, additional: usize) -> Result<(), AllocError>
        ensures { self.new ≡ self.old }
    {
        self.names.reserve(additional)
    }

    /// Returns the number of a name. A new name is stored, and its number is what [`Interner::len`]
    /// was. A present name allocates nothing.
    ///
    /// It makes room in the list and in the table first, and then copies the text into the arena.
    ///
    /// # Errors
    /// Fails only for a new name: if an allocation fails, or if there are 2^32 - 1 names
    /// ([`Interner::is_full`]). The names are then unchanged, and the arena has no copy.
    ///
    /// # Cost
    /// One hash and one search, `O(1)` if the hashes are well distributed. For a new name also the
    /// copy; the growth of the list and the table is amortized.
    #[inline(always)]
    pub fn put(&mut self, text: &str) -> Result<usize, AllocError>
        // The result is the number of the present name, or the next number for a new one. Only a
        // new name fails, and then nothing changes.
        ensures numbered { IfOk result (λ n. Puts self.old text.now n self.new) }
        ensures refused { OnErr result (self.new ≡ self.old) }
        ensures only_new { OnErr result (position (bytes_eq text.now) self.old ≡ None) }
        ensures limit { OnOk result (position (bytes_eq text.now) self.old ≡ None →
            ¬ IsFull self.old) }
        ensures fits { IfOk result (λ n. n < 2 ^ 32 - 1) }

        // The name is at its number, and the earlier names have the numbers that they had.
        ensures value_after { IfOk result (λ n. slice_get self.new n ≡ Some text.now) }
        ensures index_after { IfOk result (λ n. position (bytes_eq text.now) self.new ≡ Some n) }
        ensures kept { IsPrefix self.old self.new }
        ensures kept_at { (word : List ℕ) (i : ℕ) → position (bytes_eq word) self.old ≡ Some i →
            position (bytes_eq word) self.new ≡ Some i }
    {
        self.names.put_in(self.arena, text, None)
    }

    /// Returns the number of a name, as [`Interner::put`] does, for a text that lives as long as
    /// the borrow of the arena: it is in the arena already, or it is static. A new name is that
    /// text itself, so nothing is copied or allocated in the arena.
    ///
    /// # Errors
    /// Fails as [`Interner::put`] does.
    #[inline]
    pub fn put_placed(&mut self, text: &'a str) -> Result<usize, AllocError>
        // The result is the number of the present name, or the next number for a new one. Only a
        // new name fails, and then nothing changes.
        ensures numbered { IfOk result (λ n. Puts self.old text.now n self.new) }
        ensures refused { OnErr result (self.new ≡ self.old) }
        ensures only_new { OnErr result (position (bytes_eq text.now) self.old ≡ None) }
        ensures limit { OnOk result (position (bytes_eq text.now) self.old ≡ None →
            ¬ IsFull self.old) }
        ensures fits { IfOk result (λ n. n < 2 ^ 32 - 1) }

        // The name is at its number, and the earlier names have the numbers that they had.
        ensures value_after { IfOk result (λ n. slice_get self.new n ≡ Some text.now) }
        ensures index_after { IfOk result (λ n. position (bytes_eq text.now) self.new ≡ Some n) }
        ensures kept { IsPrefix self.old self.new }
        ensures kept_at { (word : List ℕ) (i : ℕ) → position (bytes_eq word) self.old ≡ Some i →
            position (bytes_eq word) self.new ≡ Some i }
    {
        self.names.put_in(self.arena, text, Some(text))
    }

    /// Puts the texts in their order. A present name keeps its number, and the first of equal new
    /// texts has the next number.
    ///
    /// It makes room for the lower bound of the iterator's `size_hint` first. If that fails, the
    /// list and the table grow name by name.
    ///
    /// # Errors
    /// Fails as [`Interner::put`] does. The texts before the one that failed are put, and the
    /// others are not.
    ///
    /// # Cost
    /// That of a `put` for each text.
    pub fn extend<'t, I: IntoIterator<Item = &'t str>>(
        &mut self,
        texts: I,
    ) -> Result<(), AllocError>
        requires ends { (s : I.IntoIter) → I.into_iter_gives texts s →
            I.IntoIter.can_next s × IsFinite (I.IntoIter.remaining s) }
        ensures extended { ExtendsWithItems I.into_iter_gives I.IntoIter.next_gives PutsAll texts
            self.old self.new result }
        ensures kept { IsPrefix self.old self.new }
    {
        let texts = texts.into_iter();
        // Texts may be names, so only a failed `put` is an error.
        let _room = self.reserve(texts.size_hint().0);
        for text in texts {
            self.put(text)?;
        }
        Ok(())
    }

    /// Returns the names in the order of their numbers, and drops the table that finds them: the
    /// name with the number `n` is at the index `n`. It allocates nothing.
    ///
    /// # Cost
    /// `O(1)`.
    pub fn into_names(self) -> Vec<&'a str, A>
    where
        S: Drop,
        ensures names { map (λ name. name.now) result.items ≡ self.entry }
    {
        self.into_reader().into_names()
    }

    /// Returns the names without the arena, for look-ups only. Threads can share the result if they
    /// can share `S` and `A`. It allocates nothing.
    ///
    /// # Cost
    /// `O(1)`.
    pub fn into_reader(self) -> InternerReader<'a, S, A>
        ensures { result ≡ self.entry }
    {
        let Interner {
            arena: _arena,
            names,
        } = self;
        names
    }
}

/// `for name in &names` visits each name, in the order of the numbers.
impl<'n, 'a, S: BuildHasher, A: Allocator + Copy, P: Allocator> IntoIterator
    for &'n Interner<'a, S, A, P> {
    type Item = &'n &'a str;

    type IntoIter = Iter<'n, &'a str>;

    ghost into_iter_gives = { λ s it. (map (λ name. name.now) (iter_rest it) ≡ s.now)
        × IterYieldsInOrder (Bor (List ℕ)) };

    fn into_iter(self) -> Iter<'n, &'a str> {
        self.iter()
    }
}

/// `names[n]` is the name with the number `n`. The caller proves that `n` is below
/// [`Interner::len`].
impl<'a, S: BuildHasher, A: Allocator + Copy, P: Allocator> Index<usize> for Interner<'a, S, A, P> {
    type Output = &'a str;

    ghost can_index = { λ s n. n < length s };

    ghost index_gives = { λ s n name. slice_get s n ≡ Some name.now };

    fn index(&self, number: usize) -> &&'a str {
        &self.names[number]
    }
}

/// `{:?}` prints the names in the order of their numbers, as a `Vec` of them prints: `["x", "y"]`.
impl<'a, S: BuildHasher, A: Allocator + Copy, P: Allocator> Debug for Interner<'a, S, A, P> {
    ghost debug_output = { debug_list debug_str };

    fn fmt<W: Write>(&self, f: &mut Formatter<W>) -> fmt::Result {
        self.names.fmt(f)
    }
}
