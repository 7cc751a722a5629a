//! [`AppendMap`]: entries in a list, whose indices a hash table finds by the hash of their keys.
ghost use Rattle.std.specs.Prelude.{◌≡◌, ◌↔◌, ◌++◌, ◌∷◌, ◌+◌, ◌<◌, ◌≤◌, [], ℕ, None, Ok, Err, Some, true, IfErr, IfOk, IfSome, IsOk, IsTrue, OnErr, length, position, slice_get, slice_index_or};
ghost use Rattle.std.specs.List.{IsDistinct};
ghost use Rattle.std.specs.Map.{keys_of, lookup, lookup_key};
ghost use Rattle.std.specs.Option.{option_map};
ghost use Rattle.elsa_tables.specs.Insertions.{IsCloneOf};
ghost use Rattle.elsa_tables.specs.Tables.{AddsNew, IfValue, was_present_at};
ghost use Rattle.elsa_buckets.specs.Room.{most_entries, IfRoomFault, IsFull};
ghost use Rattle.elsa_buckets.specs.Placed.{key_hash, IsPlaced};
ghost use Rattle.elsa_buckets.specs.Table.{IsVacancy};

use crate::query::{self, Missing, Query};
use crate::table::IndexTable;
use elsa_tables::{Inserted, IntoPairs, Put, Refusal, Table};
use std::alloc::{AllocError, Allocator, Global};
use std::error::Error;
use std::fmt::{self, Debug, Formatter, Write};
use std::hash::{BuildHasher, BuildHasherDefault, FoldHasher, Hash};
use std::marker::Model;

/// The greatest number of entries.
const MOST: usize = 0xFFFF_FFFF;

/// Why an [`AppendMap`] has no room for further entries.
#[derive(Debug, Drop)]
pub enum RoomFault {
    /// An allocation failed.
    Memory,
    /// The map would have more than 2^32 - 1 entries.
    Full,
}

impl fmt::Display for RoomFault {
    fn fmt<W: Write>(&self, f: &mut Formatter<W>) -> fmt::Result {
        f.pad(match self {
            RoomFault::Memory => "out of memory: no room was reserved",
            RoomFault::Full => "a map has at most 2^32 - 1 entries",
        })
    }
}

impl Error for RoomFault {}

/// Returns the index of the entry that `query` finds, or `Err` with the end of the search.
#[inline(always)]
fn search<K: Eq + Hash, B, Q: Query<K>, S: BuildHasher, A: Allocator + Copy>(
    pairs: &[(K, B)],
    table: &IndexTable<A>,
    hash_builder: &S,
    query: Q,
) -> Result<usize, Missing>
    requires { IsPlaced K.eq (λ k.
        key_hash S.BuildHasher S.Hasher.Hasher hash_builder.now (K.hash_input k))
        table.now (keys_of pairs.now) }

    // The index of the first key that the query finds, and the entry there.
    ensures found { IfOk result (λ i. position (Q.finds query) (keys_of pairs.now) ≡ Some i) }
    ensures within { IfOk result (λ i. i < length pairs.now) }
    ensures found_key { IfOk result (λ i. (d : K × B) →
        lookup_key (Q.finds query) pairs.now ≡ Some (slice_index_or pairs.now i d).0) }
    ensures value { IfOk result (λ i. (d : K × B) →
        lookup (Q.finds query) pairs.now ≡ Some (slice_index_or pairs.now i d).1) }

    // There is none, and its index would go there.
    ensures absent { OnErr result (position (Q.finds query) (keys_of pairs.now) ≡ None) }
    ensures no_key { OnErr result (lookup_key (Q.finds query) pairs.now ≡ None) }
    ensures no_value { OnErr result (lookup (Q.finds query) pairs.now ≡ None) }
    ensures vacancy { IfErr result (λ m. IsVacancy table.now m.hash m.end) }
    ensures hashed { IfErr result (λ m. m.hash
        ≡ key_hash S.BuildHasher S.Hasher.Hasher hash_builder.now (Q.hash_input query)) }
{
    let is_it = |index|
        requires { index < length pairs.now }
        ensures { (d : K × B) →
            result ≡ Q.finds query (slice_index_or pairs.entry.now index d).0 }
    { query.finds(&pairs[index].0) };
    query::search(table, hash_builder, query, is_it)
}

/// Clones each key, and copies each value.
fn cloned_pairs<K: Eq + Clone, B: Copy, A: Allocator>(
    alloc: A,
    pairs: &[(K, B)],
) -> Result<Vec<(K, B), A>, AllocError>
    requires faithful { (x y : K) → K.is_clone x y → IsTrue (K.eq x y) }
    ensures { IfOk result (λ copy. IsCloneOf K.eq K.is_clone pairs.now copy.items) }
{
    let mut copy = Vec::with_capacity(alloc, pairs.len())?;
    for pair in pairs {
        let key = pair.0.clone()?;
        copy.push((key, pair.1))?;
    }
    Ok(copy)
}

/// A map whose entries keep the order of their insertion, and from which none is removed.
///
/// It is for millions of entries: when its buckets double, no key is read or hashed again. It has
/// at most 2^32 - 1 entries. `alloc` allocates the list of pairs and the hash table, which takes 11
/// to 22 bytes an entry. Contracts see the map as the list of its entries.
///
/// [`Table`] has its insertion.
#[derive(Drop)]
pub struct AppendMap<
    K: Eq + Hash,
    B,
    S: BuildHasher = BuildHasherDefault<FoldHasher>,
    A: Allocator + Copy = Global,
> {
    // The entries in the order of insertion, and the index of each by the hash of its key.
    pairs: Vec<(K, B), A>,
    table: IndexTable<A>,
    hash_builder: S,
}

impl<K: Eq + Hash, B, S: BuildHasher, A: Allocator + Copy> Model for AppendMap<K, B, S, A> {
    ghost use Rattle.std.specs.Prelude.{List};

    ghost Value = { List (K × B) };

    ghost view = { λ m. m.pairs.items };

    ghost use Rattle.std.specs.Map.{keys_of};
    ghost use Rattle.elsa_buckets.specs.Placed.{key_hash, IsPlaced};

    // Keys are distinct, and the table finds the index of each by its hash.
    ghost invariant = { λ m. IsPlaced K.eq (λ k.
        key_hash S.BuildHasher S.Hasher.Hasher m.hash_builder (K.hash_input k))
        m.table (keys_of m.pairs.items) };
}

impl<K: Eq + Hash, B, A: Allocator + Copy> AppendMap<K, B, BuildHasherDefault<FoldHasher>, A> {
    /// Makes an empty map that hashes by the default hasher. It allocates nothing.
    ///
    /// The default hasher is fast and has a fixed seed. For keys from untrusted input, pass a
    /// `SeededState` to [`with_hasher`](AppendMap::with_hasher).
    pub fn new(alloc: A) -> Self
        ensures { result ≡ [] }
    {
        AppendMap::with_hasher(alloc, BuildHasherDefault::new())
    }
}

impl<K: Eq + Hash, B, S: BuildHasher, A: Allocator + Copy> AppendMap<K, B, S, A> {
    /// Makes an empty map that hashes by `hash_builder`. It allocates nothing.
    pub fn with_hasher(alloc: A, hash_builder: S) -> Self
        ensures { result ≡ [] }
    {
        AppendMap {
            pairs: Vec::new(alloc),
            table: IndexTable::new(alloc),
            hash_builder,
        }
    }

    /// Returns the entries, in the order of their insertion.
    ///
    /// # Cost
    /// `O(1)`.
    pub fn entries(&self) -> &[(K, B)]
        ensures entries { result.now ≡ self.now }
        ensures distinct { IsDistinct K.eq (keys_of self.now) }
    {
        self.pairs.as_slice()
    }

    /// Returns the index of the entry that `query` finds, its key and its value, or `None` if the
    /// map has no such key.
    ///
    /// # Cost
    /// One hash and one search.
    #[inline(always)]
    pub fn get_full<Q: Query<K>>(&self, query: Q) -> Option<(usize, &K, &B)>
        ensures index { option_map (λ r. r.0) result ≡ position (Q.finds query) (keys_of self.now) }
        ensures entry { IfSome result (λ r. slice_get self.now r.0 ≡ Some (r.1.now, r.2.now)) }
        ensures found_key { option_map (λ r. r.1.now) result ≡ lookup_key (Q.finds query) self.now }
        ensures value { option_map (λ r. r.2.now) result ≡ lookup (Q.finds query) self.now }
    {
        let pairs = self.pairs.as_slice();
        match search(pairs, &self.table, &self.hash_builder, query) {
            Ok(index) => Some((index, &pairs[index].0, &pairs[index].1)),
            Err(_) => None,
        }
    }

    /// Returns whether the map has the greatest number of entries, 2^32 - 1. An insertion of a new
    /// key then fails.
    pub fn is_full(&self) -> bool
        ensures { IsTrue result ↔ IsFull self.now }
    {
        self.table.is_full()
    }

    /// Returns the number of entries that the map can have before it allocates.
    pub fn capacity(&self) -> usize
        ensures { length self.now ≤ result }
    {
        self.pairs.capacity().min(self.table.capacity())
    }

    /// Reserves capacity for at least `additional` more entries. Inserting that many does not
    /// allocate in the map.
    ///
    /// # Errors
    /// Fails with [`RoomFault::Full`] if the map would have more than 2^32 - 1 entries, and with
    /// [`RoomFault::Memory`] if an allocation fails. The entries are unchanged.
    pub fn reserve(&mut self, additional: usize) -> Result<(), RoomFault>
        ensures content { self.new ≡ self.old }
        ensures cause { IfErr result (λ e. IfRoomFault e
            (most_entries < length self.old + additional)
            (length self.old + additional ≤ most_entries)) }
        ensures full { most_entries < length self.old + additional → ¬ (IsOk result) }
    {
        match self.pairs.len().checked_add(additional) {
            Some(wanted) if wanted <= MOST => {}
            _ => return Err(RoomFault::Full),
        }
        let Ok(()) = self.pairs.reserve(additional) else {
            return Err(RoomFault::Memory);
        };
        let Ok(()) = self.table.reserve_indices(additional) else {
            return Err(RoomFault::Memory);
        };
        Ok(())
    }

    /// Looks up the key that `query` finds, and appends the entry that `make` returns if the map
    /// has no such key.
    ///
    /// Returns the value and the index of the entry, and whether it is new. `make` returns a key
    /// that `query` finds, and its value. It is called only if the map has no such key, after the
    /// map has room for it. If the map has the key, the call allocates nothing.
    ///
    /// # Errors
    /// Fails only for an absent key: with `Refusal::Room` if an allocation fails or the map has
    /// 2^32 - 1 entries, and with `Refusal::Value` if `make` fails. The entries are then unchanged.
    ///
    /// # Cost
    /// One hash and one search.
    #[inline(always)]
    pub fn insert_by<Q: Query<K>, E, F: FnOnce() -> Result<(K, B), E> + Drop>(
        &mut self,
        query: Q,
        make: F,
    ) -> Result<Inserted<B, usize>, Refusal<E>>
    where
        K: Drop,
        B: Copy,
        requires callable { lookup (Q.finds query) self.old ≡ None → F.pre make }
        requires found { (k : K) (b : B) → F.post make (Ok (k, b)) → Q.finds query k ≡ true }

        // A present key keeps its value. Otherwise the closure's pair is appended.
        ensures present { (x : B) → lookup (Q.finds query) self.old ≡ Some x →
            (i : ℕ) × (position (Q.finds query) (keys_of self.old) ≡ Some i)
            × (result ≡ Ok (was_present_at i x)) × (self.new ≡ self.old) }
        ensures value_after { IfOk result (λ r. lookup (Q.finds query) self.new ≡ Some r.value) }
        ensures added { lookup (Q.finds query) self.old ≡ None → IfOk result (λ r.
            (k : K) × F.post make (Ok (k, r.value)) × (r.is_new ≡ true) × (r.index ≡ length self.old)
            × AddsNew K.eq self.old self.new k r.value × (self.new ≡ self.old ++ (k, r.value) ∷ [])) }

        // A failed call changes nothing, and has its cause.
        ensures refused { OnErr result (
            (self.new ≡ self.old) × (lookup (Q.finds query) self.old ≡ None)) }
        ensures cause { IfErr result (λ e. IfValue e (λ c. F.post make (Err c))) }
    {
        let pairs = self.pairs.as_slice();
        let absent = match search(pairs, &self.table, &self.hash_builder, query) {
            Ok(index) => {
                return Ok(Inserted {
                    value: pairs[index].1,
                    index,
                    is_new: false,
                });
            }
            Err(absent) => absent,
        };
        let Ok(()) = self.pairs.reserve(1) else {
            return Err(Refusal::Room);
        };
        let Ok(room) = self.table.reserve(absent.hash, absent.end) else {
            return Err(Refusal::Room);
        };
        let (key, value) = match make() {
            Ok(entry) => entry,
            Err(e) => return Err(Refusal::Value(e)),
        };
        let index = self.table.add(absent.hash, room);
        self.pairs.push_reserved((key, value));
        Ok(Inserted {
            value,
            index,
            is_new: true,
        })
    }
}

impl<K: Eq + Hash + Clone, B: Copy, S: BuildHasher + Copy, A: Allocator + Copy> AppendMap<
    K,
    B,
    S,
    A,
> {
    /// Makes a map with the same entries in the same order. Keys are cloned, and none is hashed.
    ///
    /// # Errors
    /// Fails if an allocation or the clone of a key fails.
    ///
    /// # Cost
    /// `O(n)`: one clone of each key, and a copy of the buckets.
    pub fn clone(&self) -> Result<Self, AllocError>
        requires faithful { (x y : K) → K.is_clone x y → IsTrue (K.eq x y) }
        ensures content { IfOk result (IsCloneOf K.eq K.is_clone self.now) }
    {
        let pairs = cloned_pairs(*self.pairs.allocator(), self.pairs.as_slice())?;
        let table = self.table.clone()?;
        Ok(AppendMap {
            pairs,
            table,
            hash_builder: self.hash_builder,
        })
    }
}

/// Keys are compared by `==`, and found by their hash. An insertion puts the entry last.
impl<K: Eq + Hash + Drop, B, S: BuildHasher, A: Allocator + Copy> Table<K, B>
    for AppendMap<K, B, S, A> {
    ghost same = { K.eq };

    ghost entries = { λ m. m };

    ghost extends = { λ old key value new. new ≡ old ++ (key, value) ∷ [] };

    ghost in_order = { λ _. Unit {0} };

    ghost equivalence = { K.Eq.laws };

    #[inline(always)]
    fn put_with<Q, R, E, F, G>(
        &mut self,
        key: K,
        make: F,
        read: G,
    ) -> Result<Put<Q, F, R>, Refusal<E>>
    where
        F: FnOnce(&K) -> Result<(B, R), E> + Drop,
        G: FnOnce(&B) -> Q + Drop,
    {
        let pairs = self.pairs.as_slice();
        let missing = match search(pairs, &self.table, &self.hash_builder, &key) {
            Ok(index) => return Ok(Put::Found(read(&pairs[index].1), make)),
            Err(missing) => missing,
        };
        let Ok(()) = self.pairs.reserve(1) else {
            return Err(Refusal::Room);
        };
        let Ok(room) = self.table.reserve(missing.hash, missing.end) else {
            return Err(Refusal::Room);
        };
        let (value, answer) = match make(&key) {
            Ok(made) => made,
            Err(e) => return Err(Refusal::Value(e)),
        };
        self.table.add(missing.hash, room);
        self.pairs.push_reserved((key, value));
        Ok(Put::Added(answer))
    }

    #[inline(always)]
    fn find(&self, key: &K) -> Option<&B> {
        let (_, _, value) = self.get_full(key)?;
        Some(value)
    }

    #[inline(always)]
    fn find_entry(&self, key: &K) -> Option<(&K, &B)> {
        let (_, found, value) = self.get_full(key)?;
        Some((found, value))
    }

    fn len(&self) -> usize {
        self.pairs.len()
    }
}

impl<K: Eq + Hash + Drop, B: Drop, S: BuildHasher + Drop, A: Allocator + Copy> IntoPairs<K, B>
    for AppendMap<K, B, S, A> {
    fn into_pairs<Z: Allocator + Copy>(self, alloc: Z) -> Result<Vec<(K, B), Z>, AllocError> {
        let AppendMap {
            pairs,
            table: _table,
            hash_builder: _hash_builder,
        } = self;
        pairs.into_iter().collect(alloc)
    }
}

/// `{:?}` writes each entry once, in the order of their insertion: `{"x": 1}`.
impl<K: Eq + Hash + Debug, B: Debug, S: BuildHasher, A: Allocator + Copy> Debug
    for AppendMap<K, B, S, A> {
    fn fmt<W: Write>(&self, f: &mut Formatter<W>) -> fmt::Result {
        let mut out = f.debug_map();
        for pair in self.entries() {
            out.entry(&pair.0, &pair.1);
        }
        out.finish()
    }
}
