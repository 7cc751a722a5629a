//! The map for large collections.
ghost use Rattle.std.specs.Prelude.{◌≡◌, ◌↔◌, ◌++◌, ◌∷◌, ◌+◌, ◌<◌, ◌≤◌, [], ℕ, List, None, Ok, Some, true, IfErr, IfOk, IfSome, IsOk, IsTrue, OnErr, length, position, slice_get};
ghost use Rattle.std.specs.Borrow.{Bor};
ghost use Rattle.std.specs.Iterator.{ExtendsWithItems, IsFinite};
ghost use Rattle.std.specs.List.{IsDistinct};
ghost use Rattle.std.specs.Map.{keys_of, lookup};
ghost use Rattle.std.specs.Option.{option_map};
ghost use Rattle.elsa_tables.specs.Insertions.{Grows};
ghost use Rattle.elsa_maps.specs.FirstWins.{AppendsFirsts, HoldsFirst, IsRefused, value_at};
ghost use Rattle.elsa_buckets.specs.Room.{most_entries, IfRoomFault, IsFull};

use super::Frozen;
use bumpalo::Bump;
use elsa_buckets::append_map::{AppendMap, RoomFault};
use elsa_buckets::query::Query;
use elsa_vec::stable::{KeepsText, StableDeref};
use std::alloc::{AllocError, Allocator, Global};
use std::hash::{BuildHasher, BuildHasherDefault, FoldHasher, Hash};

/// A map for large collections: the first value of a key stays, and the entries keep the order of
/// their insertion. It stores its values in the arena to which an `R` refers.
///
/// It is the [`Frozen`] over an [`AppendMap`], which `into_map` returns. It has at most 2^32 - 1
/// entries.
pub type FrozenAppendMapIn<R, K, V, S = BuildHasherDefault<FoldHasher>, A = Global> = Frozen<
    R,
    K,
    V,
    AppendMap<K, <V as StableDeref<R>>::Borrow, S, A>,
    A,
>;

/// The map for large collections whose values are stored in a `Bump` of lifetime `'a`. `P` is the
/// allocator of the arena.
pub type FrozenAppendMap<'a, K, V, S = BuildHasherDefault<FoldHasher>, A = Global, P = Global> =
    FrozenAppendMapIn<&'a Bump<P>, K, V, S, A>;

impl<R: Copy, K, V, A> FrozenAppendMapIn<R, K, V, BuildHasherDefault<FoldHasher>, A>
where
    K: Eq + Hash + Drop,
    V: StableDeref<R>,
    A: Allocator + Copy,
{
    /// Makes an empty map with the default hasher. Its values are stored in `arena`, and `alloc`
    /// allocates its list of pairs and its buckets. It allocates nothing.
    ///
    /// The default hasher is fast and has a fixed seed. For keys from untrusted input, pass a
    /// `SeededState` to [`with_hasher`](FrozenAppendMapIn::with_hasher).
    pub fn new(alloc: A, arena: R) -> Self
        ensures { result ≡ [] }
    {
        FrozenAppendMapIn::with_hasher(alloc, arena, BuildHasherDefault::new())
    }
}

impl<R: Copy, K: Eq + Hash + Drop, V, S: BuildHasher, A> FrozenAppendMapIn<R, K, V, S, A>
where
    V: StableDeref<R>,
    A: Allocator + Copy,
{
    /// Makes an empty map that hashes its keys by `hash_builder`. It allocates nothing.
    pub fn with_hasher(alloc: A, arena: R, hash_builder: S) -> Self
        ensures { result ≡ [] }
    {
        Frozen::over(alloc, arena, AppendMap::with_hasher(alloc, hash_builder))
    }

    /// Returns the entries, in the order of their insertion.
    ///
    /// # Cost
    /// `O(1)`.
    pub fn entries(&self) -> &[(K, V::Borrow)]
        ensures entries { result.now ≡ self.now }
        ensures distinct { IsDistinct K.eq (keys_of self.now) }
    {
        self.table.entries()
    }

    /// Returns the index, the stored key and the value of the entry whose key `query` finds, or
    /// `None` if the map has no such key.
    ///
    /// # Cost
    /// One hash and one search.
    #[inline(always)]
    pub fn get_full<Q: Query<K>>(&self, query: Q) -> Option<(usize, K, V::Borrow)>
    where
        K: Copy,
        ensures index { option_map (λ r. r.0) result ≡ position (Q.finds query) (keys_of self.now) }
        ensures pair { IfSome result (λ r. slice_get self.now r.0 ≡ Some (r.1, r.2)) }
        ensures value { option_map (λ r. r.2) result ≡ lookup (Q.finds query) self.now }
    {
        let (index, found, value) = self.table.get_full(query)?;
        Some((index, *found, *value))
    }

    /// Returns whether the map has the greatest number of entries, 2^32 - 1. An insertion of a new
    /// key then fails.
    ///
    /// # Cost
    /// `O(1)`.
    pub fn is_full(&self) -> bool
        ensures { IsTrue result ↔ IsFull self.now }
    {
        self.table.is_full()
    }

    /// Returns the number of entries that the map can have before it allocates, but for the values
    /// in the arena.
    ///
    /// # Cost
    /// `O(1)`.
    pub fn capacity(&self) -> usize
        ensures { length self.now ≤ result }
    {
        self.table.capacity()
    }

    /// Reserves capacity for at least `additional` more entries. Inserting that many allocates only
    /// in the arena.
    ///
    /// # Errors
    /// Fails with [`RoomFault::Full`] if the map would have more than 2^32 - 1 entries, and with
    /// [`RoomFault::Memory`] if an allocation fails. The entries are unchanged.
    ///
    /// # Cost
    /// `O(n)` if the list of pairs or the buckets grow.
    pub fn reserve(&mut self, additional: usize) -> Result<(), RoomFault>
        ensures content { self.new ≡ self.old }
        ensures cause { IfErr result (λ e. IfRoomFault e
            (most_entries < length self.old + additional)
            (length self.old + additional ≤ most_entries)) }
        ensures full { most_entries < length self.old + additional → ¬ (IsOk result) }
    {
        self.table.reserve(additional)
    }

    /// Inserts the pairs in their order: each new key is appended with the value of its first pair.
    /// A present key keeps its index and its value.
    ///
    /// The map reserves capacity for the lower bound of the iterator's `size_hint`. If that fails,
    /// it grows entry by entry.
    ///
    /// # Errors
    /// Fails if an allocation fails, or for a new key if the map has 2^32 - 1 entries. The pairs
    /// before the one that failed are inserted, and the others are dropped.
    ///
    /// # Allocates
    /// The growth of the list of pairs and of the buckets, and each value of a new key in the
    /// arena.
    ///
    /// # Cost
    /// `O(1)` for each pair, with one hash and one search.
    pub fn extend<I: IntoIterator<Item = (K, V)>>(&mut self, pairs: I) -> Result<(), AllocError>
        requires ends { (s : I.IntoIter) → I.into_iter_gives pairs s →
            I.IntoIter.can_next s × IsFinite (I.IntoIter.remaining s) }
        ensures extended { ExtendsWithItems I.into_iter_gives I.IntoIter.next_gives
            (AppendsFirsts K.eq V.target V.shown) pairs self.old self.new result }
        ensures values { ExtendsWithItems I.into_iter_gives I.IntoIter.next_gives
            (HoldsFirst K.eq V.target V.shown) pairs self.old self.new result }
        ensures kept { Grows self.old self.new }
    {
        let pairs = pairs.into_iter();
        // Keys may be present, so only a failed insertion is an error.
        let _room = self.reserve(pairs.size_hint().0);
        self.insert_all(pairs)
    }
}

/// An arena that stores a key for a query.
trait KeepsKey<Q, K>: Copy {
    // Which keys it may store for a query.
    ghost keeps: { Q → K → Type 0 };

    /// Stores the key.
    fn keep_key(self, query: Q) -> Result<K, AllocError>
        ensures { IfOk result (keeps query) };
}

impl<'a, 'q, R: KeepsText<'a>> KeepsKey<&'q str, &'a str> for R {
    ghost keeps = { λ q k. k.now ≡ q.now };

    fn keep_key(self, query: &'q str) -> Result<&'a str, AllocError> {
        self.keep_text(query)
    }
}

/// Inserts the value under the key that the arena stores for `query`, unless the map has a key that
/// the query finds.
fn insert_kept<R, K, V, S, A, Q>(
    map: &mut AppendMap<K, V::Borrow, S, A>,
    arena: R,
    query: Q,
    value: V,
) -> Result<V::Borrow, AllocError>
where
    R: KeepsKey<Q, K>,
    K: Eq + Hash + Drop,
    V: StableDeref<R>,
    S: BuildHasher,
    A: Allocator + Copy,
    Q: Query<K>,
    requires found { (k : K) → R.keeps query k → Q.finds query k ≡ true }
    ensures present { (x : V.Borrow) → lookup (Q.finds query) map.old ≡ Some x →
        (result ≡ Ok x) × (map.new ≡ map.old) }
    ensures value_after { IfOk result (λ b. lookup (Q.finds query) map.new ≡ Some b) }
    ensures added { lookup (Q.finds query) map.old ≡ None → IfOk result (λ b.
        (V.shown b ≡ V.target value) × (k : K) × R.keeps query k
        × (map.new ≡ map.old ++ (k, b) ∷ [])) }
    ensures refused { OnErr result (
        (map.new ≡ map.old) × (lookup (Q.finds query) map.old ≡ None)) }
{
    let make = || -> Result<(K, V::Borrow), AllocError>
        ensures { IfOk result (λ p. R.keeps query p.0 × (V.shown p.1 ≡ V.target value)) }
    {
        let key = arena.keep_key(query)?;
        let Ok(borrow) = value.place(arena) else {
            return Err(AllocError);
        };
        Ok((key, borrow))
    };
    let Ok(done) = map.insert_by(query, make) else {
        return Err(AllocError);
    };
    Ok(done.value)
}

impl<'a, R: KeepsText<'a>, V, S: BuildHasher, A> FrozenAppendMapIn<R, &'a str, V, S, A>
where
    V: StableDeref<R>,
    A: Allocator + Copy,
{
    /// Appends an entry with the text as its key unless the map has that key, and returns the value
    /// that the text then has: [`insert`](Frozen::insert) for a text of any lifetime.
    ///
    /// If the map has the text, the given value is dropped and nothing is allocated. Otherwise the
    /// list of pairs and the buckets grow, and then the text is copied into the arena.
    ///
    /// # Errors
    /// Fails if the text is new, and an allocation fails or the map has 2^32 - 1 entries. The map
    /// is then unchanged. If the arena has room for the text but not for the value, it keeps an
    /// unused copy of the text.
    ///
    /// # Cost
    /// One hash and one search.
    pub fn insert_text(&mut self, key: &str, value: V) -> Result<V::Borrow, AllocError>
        ensures present { (x : V.Borrow) →
            value_at ⟦<&'a str as PartialEq>⟧.eq self.old key.entry ≡ Some x →
            (result ≡ Ok x) × (self.new ≡ self.old) }
        ensures value_after { IfOk result (λ b.
            value_at ⟦<&'a str as PartialEq>⟧.eq self.new key.entry ≡ Some b) }
        ensures added { value_at ⟦<&'a str as PartialEq>⟧.eq self.old key.entry ≡ None →
            IfOk result (λ b. (V.shown b ≡ V.target value) × (k : Bor (List ℕ))
            × (k.now ≡ key.now) × (self.new ≡ self.old ++ (k, b) ∷ [])) }
        ensures refused { OnErr result (
            IsRefused ⟦<&'a str as PartialEq>⟧.eq self.old key.entry self.new) }
    {
        insert_kept(&mut self.table, self.arena, key, value)
    }
}
