//! The queries by which a key is looked up in a table.
ghost use Rattle.std.specs.Prelude.{◌≡◌, Bool, IfSome, Some, true, option_map, position, slice_get};
ghost use Rattle.std.specs.Cmp.Lexicographic.{pointwise, slice_cmp};
ghost use Rattle.std.specs.Map.{keys_of, lookup, lookup_key};
ghost use Rattle.std.specs.Ordering.{eq_by_cmp, nat_cmp};
ghost use Rattle.std.specs.Str.{bytes_eq};
ghost use Rattle.std.specs.String.{string_bytes};
ghost use Rattle.std.proofs.lemmas.Cmp.{eq_by_cmp_equiv, lists_equiv, lists_total, nat_list_cmp_total, nat_list_eq_equiv};

use crate::table::Table;
use indexmap::IndexMap;
use std::alloc::Allocator;
use std::collections::{BTreeMap, HashMap};
use std::hash::{BuildHasher, Hash};

/// A query that looks up a key of the table `T`.
///
/// A reference to a key is a query of every table. A `&str` is a query of the tables with `String`
/// and `&str` keys, and a `&[U]` of those with `Vec<U>` and `&[U]` keys. A type of the caller's own
/// becomes a query by an implementation of this trait: a key `(String, u32)` is then looked up by a
/// struct of a `&str` and a number.
pub trait Seeks<T: Table<K, B>, K, B>: Copy {
    // Whether the query finds a key.
    ghost finds: { Self → K → Bool };

    /// Returns the key that the query finds and its value, or `None` if the table has no such key.
    ///
    /// # Cost
    /// One hash and one search in a hash table, one search by order in an ordered table.
    fn seek<'t>(self, table: &'t T) -> Option<(&'t K, &'t B)>
        ensures found_key { option_map (λ p. p.0.now) result
            ≡ lookup_key (finds self) (T.entries table.now) }
        ensures value { option_map (λ p. p.1.now) result ≡ lookup (finds self) (T.entries table.now) };

    // A query finds all keys that equal one which it finds, and no others.
    ghost finds_equals: { (query : Self) (x y : K) →
        finds query x ≡ true → finds query y ≡ T.same x y };
}

/// A query that also finds the index of the entry, in a table whose entries are numbered.
pub trait SeeksIndex<T: Table<K, B>, K, B>: Seeks<T, K, B> {
    /// Returns the index of the entry that the query finds, its key and its value, or `None` if the
    /// table has no such key.
    ///
    /// # Cost
    /// One hash and one search.
    fn seek_full<'t>(self, table: &'t T) -> Option<(usize, &'t K, &'t B)>
        ensures index { option_map (λ p. p.0) result
            ≡ position (Self.finds self) (keys_of (T.entries table.now)) }
        ensures entry { IfSome result (λ p.
            slice_get (T.entries table.now) p.0 ≡ Some (p.1.now, p.2.now)) }
        ensures value { option_map (λ p. p.2.now) result
            ≡ lookup (Self.finds self) (T.entries table.now) };
}

impl<'k, K, B, T: Table<K, B>> Seeks<T, K, B> for &'k K {
    ghost finds = { λ q. T.same q.now };

    ghost finds_equals = { λ q. T.equivalence.congr q.now };

    fn seek<'t>(self, table: &'t T) -> Option<(&'t K, &'t B)> {
        table.find_entry(self)
    }
}

impl<'k, K: Eq + Hash + Drop, B, S: BuildHasher, A: Allocator + Copy> SeeksIndex<
    IndexMap<K, B, S, A>,
    K,
    B,
> for &'k K {
    fn seek_full<'t>(self, table: &'t IndexMap<K, B, S, A>) -> Option<(usize, &'t K, &'t B)> {
        table.get_full(self)
    }
}

// ---- texts

impl<'q, B, S: BuildHasher, A: Allocator + Copy, Z: Allocator> Seeks<
    HashMap<String<Z>, B, S, A>,
    String<Z>,
    B,
> for &'q str {
    ghost finds = { λ q k. bytes_eq q.now (string_bytes k) };

    ghost finds_equals = { λ q x y. nat_list_eq_equiv.congr q.now (string_bytes x) (string_bytes y) };

    fn seek<'t>(self, table: &'t HashMap<String<Z>, B, S, A>) -> Option<(&'t String<Z>, &'t B)> {
        table.get_key_value(self)
    }
}

impl<'q, 'a, B, S: BuildHasher, A: Allocator + Copy> Seeks<HashMap<&'a str, B, S, A>, &'a str, B>
    for &'q str {
    ghost finds = { ⟦<&'a str as PartialEq>⟧.eq };

    ghost finds_equals = { λ q x y. nat_list_eq_equiv.congr q.now x.now y.now };

    fn seek<'t>(self, table: &'t HashMap<&'a str, B, S, A>) -> Option<(&'t &'a str, &'t B)> {
        table.get_key_value(self)
    }
}

impl<'q, B, A: Allocator + Copy, Z: Allocator> Seeks<BTreeMap<String<Z>, B, A>, String<Z>, B>
    for &'q str {
    ghost finds = { λ q k. eq_by_cmp (slice_cmp nat_cmp) q.now (string_bytes k) };

    ghost finds_equals = { λ q x y.
        (eq_by_cmp_equiv nat_list_cmp_total).congr q.now (string_bytes x) (string_bytes y) };

    fn seek<'t>(self, table: &'t BTreeMap<String<Z>, B, A>) -> Option<(&'t String<Z>, &'t B)> {
        table.get_key_value(self)
    }
}

impl<'q, 'a, B, A: Allocator + Copy> Seeks<BTreeMap<&'a str, B, A>, &'a str, B> for &'q str {
    ghost finds = { eq_by_cmp ⟦<&'a str as Ord>⟧.cmp };

    ghost finds_equals = { λ q x y. (eq_by_cmp_equiv nat_list_cmp_total).congr q.now x.now y.now };

    fn seek<'t>(self, table: &'t BTreeMap<&'a str, B, A>) -> Option<(&'t &'a str, &'t B)> {
        table.get_key_value(self)
    }
}

impl<'q, B, S: BuildHasher, A: Allocator + Copy, Z: Allocator> Seeks<
    IndexMap<String<Z>, B, S, A>,
    String<Z>,
    B,
> for &'q str {
    ghost finds = { λ q k. bytes_eq q.now (string_bytes k) };

    ghost finds_equals = { λ q x y. nat_list_eq_equiv.congr q.now (string_bytes x) (string_bytes y) };

    fn seek<'t>(self, table: &'t IndexMap<String<Z>, B, S, A>) -> Option<(&'t String<Z>, &'t B)> {
        table.get_key_value(self)
    }
}

impl<'q, B, S: BuildHasher, A: Allocator + Copy, Z: Allocator> SeeksIndex<
    IndexMap<String<Z>, B, S, A>,
    String<Z>,
    B,
> for &'q str {
    fn seek_full<'t>(
        self,
        table: &'t IndexMap<String<Z>, B, S, A>,
    ) -> Option<(usize, &'t String<Z>, &'t B)> {
        table.get_full(self)
    }
}

impl<'q, 'a, B, S: BuildHasher, A: Allocator + Copy> Seeks<IndexMap<&'a str, B, S, A>, &'a str, B>
    for &'q str {
    ghost finds = { ⟦<&'a str as PartialEq>⟧.eq };

    ghost finds_equals = { λ q x y. nat_list_eq_equiv.congr q.now x.now y.now };

    fn seek<'t>(self, table: &'t IndexMap<&'a str, B, S, A>) -> Option<(&'t &'a str, &'t B)> {
        table.get_key_value(self)
    }
}

impl<'q, 'a, B, S: BuildHasher, A: Allocator + Copy> SeeksIndex<
    IndexMap<&'a str, B, S, A>,
    &'a str,
    B,
> for &'q str {
    fn seek_full<'t>(
        self,
        table: &'t IndexMap<&'a str, B, S, A>,
    ) -> Option<(usize, &'t &'a str, &'t B)> {
        table.get_full(self)
    }
}

// ---- slices

impl<'q, U: Eq + Hash + Drop, B, S: BuildHasher, A: Allocator + Copy, Z: Allocator> Seeks<
    HashMap<Vec<U, Z>, B, S, A>,
    Vec<U, Z>,
    B,
> for &'q [U] {
    ghost finds = { λ q k. pointwise U.eq q.now k.items };

    ghost finds_equals = { λ q x y. (lists_equiv U.Eq.laws).congr q.now x.items y.items };

    fn seek<'t>(self, table: &'t HashMap<Vec<U, Z>, B, S, A>) -> Option<(&'t Vec<U, Z>, &'t B)> {
        table.get_key_value(self)
    }
}

impl<'q, U: Ord + Drop, B, A: Allocator + Copy, Z: Allocator> Seeks<
    BTreeMap<Vec<U, Z>, B, A>,
    Vec<U, Z>,
    B,
> for &'q [U] {
    ghost finds = { λ q k. eq_by_cmp (slice_cmp U.cmp) q.now k.items };

    ghost finds_equals = { λ q x y. (eq_by_cmp_equiv (lists_total U.Ord.total)).congr q.now x.items y.items };

    fn seek<'t>(self, table: &'t BTreeMap<Vec<U, Z>, B, A>) -> Option<(&'t Vec<U, Z>, &'t B)> {
        table.get_key_value(self)
    }
}

impl<'q, U: Eq + Hash + Drop, B, S: BuildHasher, A: Allocator + Copy, Z: Allocator> Seeks<
    IndexMap<Vec<U, Z>, B, S, A>,
    Vec<U, Z>,
    B,
> for &'q [U] {
    ghost finds = { λ q k. pointwise U.eq q.now k.items };

    ghost finds_equals = { λ q x y. (lists_equiv U.Eq.laws).congr q.now x.items y.items };

    fn seek<'t>(self, table: &'t IndexMap<Vec<U, Z>, B, S, A>) -> Option<(&'t Vec<U, Z>, &'t B)> {
        table.get_key_value(self)
    }
}

impl<'q, U: Eq + Hash + Drop, B, S: BuildHasher, A: Allocator + Copy, Z: Allocator> SeeksIndex<
    IndexMap<Vec<U, Z>, B, S, A>,
    Vec<U, Z>,
    B,
> for &'q [U] {
    fn seek_full<'t>(
        self,
        table: &'t IndexMap<Vec<U, Z>, B, S, A>,
    ) -> Option<(usize, &'t Vec<U, Z>, &'t B)> {
        table.get_full(self)
    }
}

impl<'q, 'a, U: Eq + Hash, B, S: BuildHasher, A: Allocator + Copy> Seeks<
    HashMap<&'a [U], B, S, A>,
    &'a [U],
    B,
> for &'q [U] {
    ghost finds = { ⟦<&'a [U] as PartialEq>⟧.eq };

    ghost finds_equals = { λ q x y. (lists_equiv U.Eq.laws).congr q.now x.now y.now };

    fn seek<'t>(self, table: &'t HashMap<&'a [U], B, S, A>) -> Option<(&'t &'a [U], &'t B)> {
        table.get_key_value(self)
    }
}

impl<'q, 'a, U: Ord, B, A: Allocator + Copy> Seeks<BTreeMap<&'a [U], B, A>, &'a [U], B>
    for &'q [U] {
    ghost finds = { eq_by_cmp ⟦<&'a [U] as Ord>⟧.cmp };

    ghost finds_equals = { λ q x y. (eq_by_cmp_equiv (lists_total U.Ord.total)).congr q.now x.now y.now };

    fn seek<'t>(self, table: &'t BTreeMap<&'a [U], B, A>) -> Option<(&'t &'a [U], &'t B)> {
        table.get_key_value(self)
    }
}

impl<'q, 'a, U: Eq + Hash, B, S: BuildHasher, A: Allocator + Copy> Seeks<
    IndexMap<&'a [U], B, S, A>,
    &'a [U],
    B,
> for &'q [U] {
    ghost finds = { ⟦<&'a [U] as PartialEq>⟧.eq };

    ghost finds_equals = { λ q x y. (lists_equiv U.Eq.laws).congr q.now x.now y.now };

    fn seek<'t>(self, table: &'t IndexMap<&'a [U], B, S, A>) -> Option<(&'t &'a [U], &'t B)> {
        table.get_key_value(self)
    }
}

impl<'q, 'a, U: Eq + Hash, B, S: BuildHasher, A: Allocator + Copy> SeeksIndex<
    IndexMap<&'a [U], B, S, A>,
    &'a [U],
    B,
> for &'q [U] {
    fn seek_full<'t>(
        self,
        table: &'t IndexMap<&'a [U], B, S, A>,
    ) -> Option<(usize, &'t &'a [U], &'t B)> {
        table.get_full(self)
    }
}
