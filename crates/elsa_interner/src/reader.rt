//! [`InternerReader`]: the names without the arena, as the public sees them.
//!
//! An interner is a reader and an arena. Since the reader has no arena, threads can share it. Each
//! name is stored by [`InternerReader::put_in`].
ghost use Rattle.std.specs.Prelude.{◌≡◌, ◌↔◌, ℕ, [], List, length, None, Some, slice_get, position, map, is_some, slice_index_or, ◌<◌, ◌≤◌, ◌-◌, ◌^◌, IfErr, IfOk, IfSome, IsTrue, OnErr, OnOk};
ghost use Rattle.std.specs.Borrow.{Bor};
ghost use Rattle.std.specs.Fmt.{debug_list, debug_str};
ghost use Rattle.std.specs.Iterator.Adapters.{IterYieldsInOrder, IterYieldsInReverse};
ghost use Rattle.std.specs.Option.{option_map};
ghost use Rattle.std.specs.Str.{bytes_eq};
ghost use mathlib.Core.List.{IsPrefix};
ghost use Rattle.std.specs.Slice.Iter.{iter_rest};
ghost use Rattle.elsa_interner.specs.Names.{Puts, IsFull, IsOneToOne};

use crate::names::Names;
use bumpalo::Bump;
use std::alloc::{AllocError, Allocator, Global};
use std::fmt::{self, Debug, Formatter, Write};
use std::hash::{BuildHasher, BuildHasherDefault, FoldHasher};
use std::marker::Model;
use std::ops::Index;
use std::slice::Iter;

/// Distinct names with the numbers that an [`Interner`](crate::interner::Interner) gave them, for
/// look-ups only.
///
/// It has borrows of the names, which are in the arena, but not the arena. So threads can share it
/// if they can share `S` and `A`. Contracts see it as the list of its names, each as its bytes; the
/// number of a name is its index in the list.
#[derive(Drop)]
pub struct InternerReader<
    'a,
    S: BuildHasher = BuildHasherDefault<FoldHasher>,
    A: Allocator + Copy = Global,
> {
    names: Names<'a, S, A>,
}

impl<'a, S: BuildHasher, A: Allocator + Copy> Model for InternerReader<'a, S, A> {
    ghost use Rattle.std.specs.Prelude.{List, ℕ};

    ghost Value = { List (List ℕ) };

    ghost view = { λ s. s.names.0 };
}

impl<'a, S: BuildHasher, A: Allocator + Copy> InternerReader<'a, S, A> {
    /// Makes a reader without names. `hash_builder` hashes the names. It allocates nothing.
    pub(crate) fn new(alloc: A, hash_builder: S) -> Self
        ensures { result ≡ [] }
    {
        InternerReader {
            names: Names::new(alloc, hash_builder),
        }
    }

    /// Returns the number of a name, or `None` if the text isn't a name. It allocates nothing.
    ///
    /// # Cost
    /// `O(1)` if the hashes are well distributed.
    #[inline]
    pub fn find(&self, text: &str) -> Option<usize>
        ensures index { result ≡ position (bytes_eq text.now) self.now }
        ensures named { IfSome result (λ n. slice_get self.now n ≡ Some text.now) }
        ensures fits { IfSome result (λ n. n < 2 ^ 32 - 1) }
    {
        self.names.find(text)
    }

    /// Returns the name with this number, or `None` exactly if the number is at or above
    /// [`InternerReader::len`]. It allocates nothing.
    ///
    /// The borrow is valid as long as the borrow of the arena.
    ///
    /// # Cost
    /// `O(1)`.
    pub fn at(&self, number: usize) -> Option<&'a str>
        ensures { option_map (λ b. b.now) result ≡ slice_get self.now number }
    {
        self.names.as_slice().get(number).copied()
    }

    /// Returns the number of names. The names are one to one with the numbers below it. It
    /// allocates nothing.
    ///
    /// # Cost
    /// `O(1)`.
    pub fn len(&self) -> usize
        ensures length { result ≡ length self.now }
        ensures one_to_one { IsOneToOne self.now }
        ensures limit { result < 2 ^ 32 }
    {
        self.names.as_slice().len()
    }

    /// Returns whether there is no name. It allocates nothing.
    ///
    /// # Cost
    /// `O(1)`.
    pub fn is_empty(&self) -> bool
        ensures { IsTrue result ↔ (length self.now ≡ 0) }
    {
        self.len() == 0
    }

    /// Returns whether there are 2^32 - 1 names, the greatest number. It allocates nothing.
    ///
    /// # Cost
    /// `O(1)`.
    pub fn is_full(&self) -> bool
        ensures { IsTrue result ↔ IsFull self.now }
    {
        self.names.is_full()
    }

    /// Returns whether the text is a name. It allocates nothing.
    ///
    /// # Cost
    /// `O(1)` if the hashes are well distributed.
    pub fn contains(&self, text: &str) -> bool
        ensures { result ≡ is_some (position (bytes_eq text.now) self.now) }
    {
        self.find(text).is_some()
    }

    /// Returns an iterator over the names, in the order of their numbers, and from the back in
    /// reverse. It allocates nothing. `enumerate` adds the numbers.
    ///
    /// # Cost
    /// `O(1)`, and `O(1)` for each name.
    pub fn iter(&self) -> Iter<'_, &'a str>
        ensures names { map (λ name. name.now) (iter_rest result) ≡ self.now }
        ensures runs { IterYieldsInOrder (Bor (List ℕ)) }
        ensures runs_back { IterYieldsInReverse (Bor (List ℕ)) }
    {
        self.names.as_slice().iter()
    }

    /// Returns the names in the order of their numbers, and drops the table that finds them: the
    /// name with the number `n` is at the index `n`. It allocates nothing.
    ///
    /// # Cost
    /// `O(1)`.
    pub fn into_names(self) -> Vec<&'a str, A>
    where
        S: Drop,
        ensures names { map (λ name. name.now) result.items ≡ self.entry }
    {
        let InternerReader { names } = self;
        names.into_list()
    }

    /// Returns the number of names that there can be before the table or the list of names
    /// allocates.
    pub(crate) fn capacity(&self) -> usize
        ensures { length self.now ≤ result }
    {
        self.names.capacity()
    }

    /// Reserves capacity in the list and in the table for `additional` more names. The names are
    /// unchanged, also if it fails.
    ///
    /// # Errors
    /// Fails if an allocation fails, or if there would be more than 2^32 - 1 names.
    pub(crate) fn reserve(&mut self, additional: usize) -> Result<(), AllocError>
        ensures { self.new ≡ self.old }
    {
        self.names.reserve(additional)
    }

    /// Returns the number of a text. A new text becomes a name: `placed` if it is given, otherwise
    /// a copy in the arena.
    ///
    /// # Errors
    /// Fails only for a new text: if an allocation fails, or if there are 2^32 - 1 names. The names
    /// are then unchanged.
    #[inline(always)]
    pub(crate) fn put_in<P: Allocator>(
        &mut self,
        arena: &'a Bump<P>,
        text: &str,
        placed: Option<&'a str>,
    ) -> Result<usize, AllocError>
        requires placed { IfSome placed (λ p. p.now ≡ text.now) }

        // The result is the number of the present name, or the next number for a new one. Only a
        // new name fails, and then nothing changes.
        ensures numbered { IfOk result (λ n. Puts self.old text.now n self.new) }
        ensures refused { OnErr result (self.new ≡ self.old) }
        ensures only_new { OnErr result (position (bytes_eq text.now) self.old ≡ None) }
        ensures limit { OnOk result (position (bytes_eq text.now) self.old ≡ None →
            ¬ IsFull self.old) }
        ensures fits { IfOk result (λ n. n < 2 ^ 32 - 1) }

        // The name is at its number, and the earlier names have the numbers that they had.
        ensures value_after { IfOk result (λ n. slice_get self.new n ≡ Some text.now) }
        ensures index_after { IfOk result (λ n. position (bytes_eq text.now) self.new ≡ Some n) }
        ensures kept { IsPrefix self.old self.new }
        ensures kept_at { (word : List ℕ) (i : ℕ) → position (bytes_eq word) self.old ≡ Some i →
            position (bytes_eq word) self.new ≡ Some i }
    {
        let sought = self.names.sought(text, None);
        self.names.put(arena, sought, placed)
    }
}

/// `for name in &names` visits each name, in the order of the numbers.
impl<'n, 'a, S: BuildHasher, A: Allocator + Copy> IntoIterator for &'n InternerReader<'a, S, A> {
    type Item = &'n &'a str;

    type IntoIter = Iter<'n, &'a str>;

    ghost into_iter_gives = { λ s it. (map (λ name. name.now) (iter_rest it) ≡ s.now)
        × IterYieldsInOrder (Bor (List ℕ)) };

    fn into_iter(self) -> Iter<'n, &'a str> {
        self.iter()
    }
}

/// `names[n]` is the name with the number `n`. The caller proves that `n` is below
/// [`InternerReader::len`].
impl<'a, S: BuildHasher, A: Allocator + Copy> Index<usize> for InternerReader<'a, S, A> {
    type Output = &'a str;

    ghost can_index = { λ s n. n < length s };

    ghost index_gives = { λ s n name. slice_get s n ≡ Some name.now };

    fn index(&self, number: usize) -> &&'a str {
        &self.names.as_slice()[number]
    }
}

/// `{:?}` prints the names in the order of their numbers, as a `Vec` of them prints: `["x", "y"]`.
impl<'a, S: BuildHasher, A: Allocator + Copy> Debug for InternerReader<'a, S, A> {
    ghost debug_output = { debug_list debug_str };

    fn fmt<W: Write>(&self, f: &mut Formatter<W>) -> fmt::Result {
        self.names.as_slice().fmt(f)
    }
}
