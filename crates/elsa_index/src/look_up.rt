//! The lookup of a value in an index set by its target.
//!
//! An insertion takes a value that is [`LookUp`]; a lookup takes any query that is [`SeeksValue`].
//! Each hashes once, and neither iterates over the set. A reference may have any lifetime, so a
//! text on the stack finds a name in the arena.
ghost use Rattle.std.specs.Prelude.{◌≡◌, Bool};
ghost use Rattle.std.specs.Cmp.Lexicographic.{pointwise};
ghost use Rattle.std.specs.Str.{bytes_eq};
ghost use Rattle.std.specs.String.{string_bytes};
ghost use Rattle.std.proofs.Common.{ap, sym};
ghost use Rattle.indexmap.specs.IndexSet.{index_of_by};

use elsa_vec::stable::{HasTarget, Own};
use indexmap::IndexSet;
use std::alloc::Allocator;
use std::hash::{BuildHasher, Hash};

/// A query that looks up a value of an index set of `B`.
///
/// A reference to a value that is [`LookUp`] is such a query. So are a `&str` in a set of `&str`
/// and a `&[U]` in a set of `&[U]`. A type of the caller becomes a query if it implements this
/// trait.
pub trait SeeksValue<B: Eq + Hash>: Copy {
    // Whether the query finds a stored value.
    ghost finds: { Self → B → Bool };

    /// Returns the index of the value that the query finds, or `None` if the set has no such value.
    ///
    /// # Cost
    /// One hash and one search.
    fn seek_index<S: BuildHasher, A: Allocator>(self, set: &IndexSet<B, S, A>) -> Option<usize>
        ensures { result ≡ index_of_by (finds self) set.now };
}

impl<'q, B: Eq + Hash, Q: LookUp<B>> SeeksValue<B> for &'q Q {
    ghost finds = { λ q. Q.finds q.now };

    fn seek_index<S: BuildHasher, A: Allocator>(self, set: &IndexSet<B, S, A>) -> Option<usize> {
        self.position(set)
    }
}

impl<'q, 'a> SeeksValue<&'a str> for &'q str {
    ghost finds = { λ q k. bytes_eq q.now k.now };

    fn seek_index<S: BuildHasher, A: Allocator>(
        self,
        set: &IndexSet<&'a str, S, A>,
    ) -> Option<usize> {
        set.get_index_of(self)
    }
}

impl<'q, 'a, U: Eq + Hash> SeeksValue<&'a [U]> for &'q [U] {
    ghost finds = { λ q k. pointwise U.eq q.now k.now };

    fn seek_index<S: BuildHasher, A: Allocator>(
        self,
        set: &IndexSet<&'a [U], S, A>,
    ) -> Option<usize> {
        LookUp::position(&self, set)
    }
}

/// A value that can be inserted into a set of `B`, and that can be looked up there.
///
/// The types are `String` and `&str` for a set of `&str`, `Vec<U>` and `&[U]` for a set of `&[U]`,
/// and `Own<U>` and `&U` for a set of `&U`, in which `U` itself can be looked up, too.
pub trait LookUp<B: Eq + Hash>: HasTarget<B> {
    // Whether a stored value equals the target of this one.
    ghost finds: { Self → B → Bool };

    /// Returns the index of the stored value that equals the target of `self`, or `None` if the set
    /// has no such value. It allocates nothing.
    ///
    /// # Cost
    /// `O(1)`: one hash and one search.
    fn position<S: BuildHasher, A: Allocator>(&self, set: &IndexSet<B, S, A>) -> Option<usize>
        ensures { result ≡ index_of_by (finds self.now) set.now };

    // A value finds the stored values that a borrow of its target equals.
    ghost finds_target: { (q : Self) (b k : B) → Self.shown b ≡ Self.target q → finds q k ≡ B.eq b k };
}

impl<'a, B: Allocator> LookUp<&'a str> for String<B> {
    ghost finds = { λ s k. bytes_eq (string_bytes s) k.now };

    ghost finds_target = { λ q b k h. ap (λ t. bytes_eq t k.now) (sym h) };

    fn position<S: BuildHasher, A: Allocator>(
        &self,
        set: &IndexSet<&'a str, S, A>,
    ) -> Option<usize> {
        set.get_index_of(self.as_str())
    }
}

impl<'a, 'b> LookUp<&'a str> for &'b str {
    ghost finds = { λ s k. bytes_eq s.now k.now };

    ghost finds_target = { λ q b k h. ap (λ t. bytes_eq t k.now) (sym h) };

    fn position<S: BuildHasher, A: Allocator>(
        &self,
        set: &IndexSet<&'a str, S, A>,
    ) -> Option<usize> {
        let text = *self;
        set.get_index_of(text)
    }
}

impl<'a, U: Eq + Hash + Copy, B: Allocator> LookUp<&'a [U]> for Vec<U, B> {
    ghost finds = { λ s k. pointwise U.eq s.items k.now };

    ghost finds_target = { λ q b k h. ap (λ t. pointwise U.eq t k.now) (sym h) };

    fn position<S: BuildHasher, A: Allocator>(
        &self,
        set: &IndexSet<&'a [U], S, A>,
    ) -> Option<usize> {
        set.get_index_of(self.as_slice())
    }
}

impl<'a, 'b, U: Eq + Hash> LookUp<&'a [U]> for &'b [U] {
    ghost finds = { λ s k. pointwise U.eq s.now k.now };

    ghost finds_target = { λ q b k h. ap (λ t. pointwise U.eq t k.now) (sym h) };

    fn position<S: BuildHasher, A: Allocator>(
        &self,
        set: &IndexSet<&'a [U], S, A>,
    ) -> Option<usize> {
        let items = *self;
        set.get_index_of(items)
    }
}

// Returns the index of a value in a set of borrows. The borrow of the query may have a shorter
// lifetime.
fn position_of<'b, U: Eq + Hash, S: BuildHasher, A: Allocator>(
    set: &IndexSet<&'b U, S, A>,
    value: &'b U,
) -> Option<usize>
    ensures { result ≡ index_of_by (λ k. U.eq value.now k.now) set.now }
{
    set.get_index_of(&value)
}

impl<'a, U: Eq + Hash + Copy> LookUp<&'a U> for Own<U> {
    ghost finds = { λ s k. U.eq s.0 k.now };

    ghost finds_target = { λ q b k h. ap (λ t. U.eq t k.now) (sym h) };

    fn position<S: BuildHasher, A: Allocator>(&self, set: &IndexSet<&'a U, S, A>) -> Option<usize> {
        position_of(set, &self.0)
    }
}

impl<'a, 'b, U: Eq + Hash> LookUp<&'a U> for &'b U {
    ghost finds = { λ s k. U.eq s.now k.now };

    ghost finds_target = { λ q b k h. ap (λ t. U.eq t k.now) (sym h) };

    fn position<S: BuildHasher, A: Allocator>(&self, set: &IndexSet<&'a U, S, A>) -> Option<usize> {
        position_of(set, *self)
    }
}

impl<'a, U: Eq + Hash> LookUp<&'a U> for U {
    ghost finds = { λ s k. U.eq s k.now };

    ghost finds_target = { λ q b k h. ap (λ t. U.eq t k.now) (sym h) };

    fn position<S: BuildHasher, A: Allocator>(&self, set: &IndexSet<&'a U, S, A>) -> Option<usize> {
        position_of(set, self)
    }
}
