//! The values by which a key is looked up ([`Query`]), and the search of a table for the index of a
//! key.
ghost use Rattle.std.specs.Prelude.{◌≡◌, ◌<◌, ℕ, Bool, IsTrue, List, None, Some, IfErr, IfOk, OnErr, position};
ghost use Rattle.std.proofs.Common.{ap};
ghost use Rattle.std.specs.Cmp.Lexicographic.{bytes_decides, lists_equiv, nat_list_eq_equiv, pointwise};
ghost use Rattle.std.specs.Hash as fed;
ghost use Rattle.std.specs.Hash.{items_Alike};
ghost use Rattle.std.specs.Str.{bytes_eq};
ghost use Rattle.std.specs.String.{string_bytes};
ghost use Rattle.elsa_buckets.specs.Placed.{key_hash, AreCompared, IsPlaced};
ghost use Rattle.elsa_buckets.specs.Table.{indices, IsVacancy};

use crate::table::{IndexTable, Vacancy};
use std::alloc::Allocator;
use std::hash::{BuildHasher, Hash};

/// A query of the maps with keys `K`: it is hashed like the keys that it finds.
///
/// A reference to a key is a query. A `&str` is a query for `String` and `&str` keys, and a `&[U]`
/// for `Vec<U>` and `&[U]` keys. A type of the caller's own becomes one by an implementation of
/// this trait: a key `(String, u32)` is then looked up by a struct of a `&str` and a number.
pub trait Query<K: Eq + Hash>: Copy + Hash {
    // Whether the query finds a key.
    ghost finds: { Self → K → Bool };

    /// Returns whether the query finds `key`.
    fn finds(&self, key: &K) -> bool
        ensures { result ≡ finds self.now key.now };

    // A query has the hash of each key that it finds.
    ghost respects_hash: { (q : Self) (k : K) → IsTrue (finds q k) → Self.hash_input q ≡ K.hash_input k };

    // A query that finds a key finds the keys that equal it, and no others.
    ghost respects_eq: { (q : Self) (x y : K) → IsTrue (finds q x) → finds q y ≡ K.eq x y };
}

impl<K: Eq + Hash> Query<K> for &K {
    ghost finds = { λ q. K.eq q.now };

    ghost respects_hash = { λ q. K.respects_eq q.now };

    ghost respects_eq = { λ q. K.Eq.laws.congr q.now };

    #[inline(always)]
    fn finds(&self, key: &K) -> bool {
        (*self).eq(key)
    }
}

impl<'b> Query<&'b str> for &str {
    ghost finds = { λ q k. bytes_eq q.now k.now };

    ghost respects_hash = { λ q k h. ap fed.str ((bytes_decides q.now k.now).0 h) };

    ghost respects_eq = { λ q x y. nat_list_eq_equiv.congr q.now x.now y.now };

    #[inline(always)]
    fn finds(&self, key: &&'b str) -> bool {
        *self == *key
    }
}

impl<A: Allocator> Query<String<A>> for &str {
    ghost finds = { λ q k. bytes_eq q.now (string_bytes k) };

    ghost respects_hash = { λ q k h. ap fed.str ((bytes_decides q.now (string_bytes k)).0 h) };

    ghost respects_eq = { λ q x y. nat_list_eq_equiv.congr q.now (string_bytes x) (string_bytes y) };

    #[inline(always)]
    fn finds(&self, key: &String<A>) -> bool {
        *self == key.as_str()
    }
}

impl<'b, U: Eq + Hash> Query<&'b [U]> for &[U] {
    ghost finds = { λ q k. pointwise U.eq q.now k.now };

    ghost respects_hash = { λ q k. (items_Alike (record { fed = U.respects_eq })).fed q.now k.now };

    ghost respects_eq = { λ q x y. (lists_equiv U.Eq.laws).congr q.now x.now y.now };

    #[inline(always)]
    fn finds(&self, key: &&'b [U]) -> bool {
        *self == *key
    }
}

impl<U: Eq + Hash, A: Allocator> Query<Vec<U, A>> for &[U] {
    ghost finds = { λ q k. pointwise U.eq q.now k.items };

    ghost respects_hash = { λ q k. (items_Alike (record { fed = U.respects_eq })).fed q.now k.items };

    ghost respects_eq = { λ q x y. (lists_equiv U.Eq.laws).congr q.now x.items y.items };

    #[inline(always)]
    fn finds(&self, key: &Vec<U, A>) -> bool {
        *self == key.as_slice()
    }
}

/// Returns the 32 bits of hash under which a table has `key`.
#[inline(always)]
pub fn hash_of<Q: Hash + Copy, S: BuildHasher>(hash_builder: &S, key: Q) -> u32
    ensures { result ≡ key_hash S.BuildHasher S.Hasher.Hasher hash_builder.now (Q.hash_input key) }
{
    let hash = hash_builder.hash_one(key);
    ((hash ^ (hash >> 32)) & 0xFFFF_FFFF) as u32
}

/// The end of a search that found no key: the hash, and the bucket for a new index.
#[derive(Clone, Copy)]
pub struct Missing {
    /// The hash of the query.
    pub hash: u32,
    /// The bucket, for [`IndexTable::reserve`].
    pub end: Vacancy,
}

/// Returns the index of the key that `query` finds, or `Err` with the end of the search, in a table
/// that has the indices of a list of distinct keys.
///
/// `is_it` returns whether the query finds the key at an index. It is called only for indices whose
/// hash has the same upper 8 bits as the query's. The search allocates nothing.
///
/// # Cost
/// One hash, and `O(1)` if the hashes are well distributed.
#[inline(always)]
pub fn search<K: Eq + Hash, Q: Query<K>, S: BuildHasher, A: Allocator + Copy, F: Fn(usize) -> bool>(
    table: &IndexTable<A>,
    hash_builder: &S,
    query: Q,
    is_it: F,
) -> Result<usize, Missing>
    requires { (index : ℕ) → index < indices table.now → F.pre is_it index }

    // If the table is for `keys`, and `is_it` compares them with the query.
    ensures found { IfOk result (λ i. (keys : List K) → IsPlaced K.eq (λ k.
        key_hash S.BuildHasher S.Hasher.Hasher hash_builder.now (K.hash_input k)) table.now keys
        → AreCompared (F.post is_it) (Q.finds query) keys → position (Q.finds query) keys ≡ Some i) }
    ensures absent { OnErr result ((keys : List K) → IsPlaced K.eq (λ k.
        key_hash S.BuildHasher S.Hasher.Hasher hash_builder.now (K.hash_input k)) table.now keys
        → AreCompared (F.post is_it) (Q.finds query) keys → position (Q.finds query) keys ≡ None) }
    ensures vacancy { IfErr result (λ m. IsVacancy table.now m.hash m.end) }
    ensures hashed { IfErr result (λ m. m.hash
        ≡ key_hash S.BuildHasher S.Hasher.Hasher hash_builder.now (Q.hash_input query)) }
{
    let hash = hash_of(hash_builder, query);
    match table.search(hash, is_it) {
        Ok(index) => Ok(index),
        Err(end) => Err(Missing { hash, end }),
    }
}
