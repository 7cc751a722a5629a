//! The map whose entries keep the order of their insertion.
//!
//! A new key is appended, and a present key keeps its index and its value. [`Frozen`] has the calls
//! that all maps share.
ghost use Rattle.std.specs.Prelude.{◌≡◌, ◌≤◌, ◌↔◌, ◌∷◌, [], ℕ, List, length, false, true, None, Ok, Some, slice_get, position, IfOk, IsOk, IfSome, IsPermutation, IsTrue, OnErr, cond};
ghost use Rattle.std.specs.Borrow.{Bor};
ghost use Rattle.std.specs.Iterator.{Drains, ExtendsWithItems, IsFinite};
ghost use Rattle.std.specs.Map.{keys_of, lookup, values_of};
ghost use Rattle.std.specs.Map.Iter.{ShowsInOrder, ShowsInReverse, deref, deref_pair};
ghost use Rattle.std.specs.Option.{option_map};
ghost use Rattle.indexmap.specs.IndexMap.{insert_entry};
ghost use Rattle.elsa_tables.proofs.MapEquality.{same_values_equivalence, same_values_laws};
ghost use Rattle.elsa_tables.specs.FirstWins.{IsEqualMap, same_values, value_at};
ghost use Rattle.elsa_maps.specs.FirstWins.{AppendsFirsts, HoldsFirst};
ghost use Rattle.elsa_tables.specs.Insertions.{Grows, index_of, Inserted, InsertedNew, IsCloneOf, CollectsTargets};

use crate::map::Frozen;
use bumpalo::Bump;
use elsa_tables::{SeeksIndex, for_its_clause};
use elsa_vec::stable::{KeepsText, StableDeref};
use indexmap::IndexMap;
use indexmap::map::{Entry, Iter, Keys, Values};
use std::alloc::{AllocError, Allocator, Global};
use std::hash::{BuildHasher, BuildHasherDefault, FoldHasher, Hash};

/// A map in which the first value of a key stays, and whose entries keep the order of their
/// insertion. Its values are stored in the arena to which an `R` refers.
///
/// The default hasher is fast and has a fixed seed. For keys from untrusted input, pass a
/// `SeededState` of `elsa` to [`with_hasher`](FrozenIndexMapIn::with_hasher). `A` is the allocator
/// of the table.
pub type FrozenIndexMapIn<R, K, V, S = BuildHasherDefault<FoldHasher>, A = Global> = Frozen<
    R,
    K,
    V,
    IndexMap<K, <V as StableDeref<R>>::Borrow, S, A>,
    A,
>;

/// The index map whose values are stored in a `Bump` of lifetime `'a`. `P` is the allocator of the
/// arena.
pub type FrozenIndexMap<'a, K, V, S = BuildHasherDefault<FoldHasher>, A = Global, P = Global> =
    FrozenIndexMapIn<&'a Bump<P>, K, V, S, A>;

impl<R: Copy, K, V, A> FrozenIndexMapIn<R, K, V, BuildHasherDefault<FoldHasher>, A>
where
    K: Eq + Hash + Drop,
    V: StableDeref<R>,
    A: Allocator + Copy,
{
    /// Makes an empty map with the default hasher. It allocates nothing.
    pub fn new(alloc: A, arena: R) -> Self
        ensures { result ≡ [] }
    {
        FrozenIndexMapIn::with_hasher(alloc, arena, BuildHasherDefault::new())
    }

    /// Makes an empty map with the default hasher and capacity for `count` entries, as
    /// [`reserve`](FrozenIndexMapIn::reserve) does.
    ///
    /// # Errors
    /// Fails if an allocation fails. A capacity of 0 allocates nothing.
    pub fn with_capacity(alloc: A, arena: R, count: usize) -> Result<Self, AllocError>
        ensures empty { IfOk result (λ m. m ≡ []) }
        ensures none_is_free { count ≡ 0 → IsOk result }
    {
        Ok(FrozenIndexMapIn::from_map(arena, IndexMap::with_capacity(alloc, count)?))
    }
}

impl<R: Copy, K: Eq + Hash + Drop, V, S: BuildHasher, A> FrozenIndexMapIn<R, K, V, S, A>
where
    V: StableDeref<R>,
    A: Allocator + Copy,
{
    /// Makes an empty map that hashes its keys by `hash_builder`. It allocates nothing.
    pub fn with_hasher(alloc: A, arena: R, hash_builder: S) -> Self
        ensures { result ≡ [] }
    {
        FrozenIndexMapIn::from_map(arena, IndexMap::with_hasher(alloc, hash_builder))
    }

    /// Makes a map with the entries of `map`. Values inserted later are stored in `arena`. It
    /// allocates nothing.
    pub fn from_map(arena: R, map: IndexMap<K, V::Borrow, S, A>) -> Self
        ensures content { result ≡ map.entries }
    {
        Frozen::over(*map.allocator(), arena, map)
    }

    /// Returns the index of the pair whose key `query` finds, or `None` if the map has no such key.
    ///
    /// # Cost
    /// One hash and one search.
    pub fn get_index_of<Q>(&self, query: Q) -> Option<usize>
    where
        Q: SeeksIndex<IndexMap<K, V::Borrow, S, A>, K, V::Borrow>,
        ensures { result ≡ position (Q.finds query) (keys_of self.now) }
    {
        let (index, _, _) = query.seek_full(&self.table)?;
        Some(index)
    }

    /// Returns the index, the stored key and the value of the pair whose key `query` finds, or
    /// `None` if the map has no such key.
    ///
    /// # Cost
    /// One hash and one search.
    pub fn get_full<Q>(&self, query: Q) -> Option<(usize, K, V::Borrow)>
    where
        K: Copy,
        Q: SeeksIndex<IndexMap<K, V::Borrow, S, A>, K, V::Borrow>,
        ensures index { option_map (λ r. r.0) result ≡ position (Q.finds query) (keys_of self.now) }
        ensures pair { IfSome result (λ r. slice_get self.now r.0 ≡ Some (r.1, r.2)) }
        ensures value { option_map (λ r. r.2) result ≡ lookup (Q.finds query) self.now }
    {
        let (index, found, value) = query.seek_full(&self.table)?;
        Some((index, *found, *value))
    }

    /// Returns the entry at `index`, or `None` if `index` is not below the number of entries.
    ///
    /// # Cost
    /// `O(1)`, without a hash.
    pub fn get_index(&self, index: usize) -> Option<(K, V::Borrow)>
    where
        K: Copy,
        ensures { result ≡ slice_get self.now index }
    {
        let (key, value) = self.table.get_index(index)?;
        Some((*key, *value))
    }

    /// Returns an iterator over the entries, each once, in the order of their insertion. It can be
    /// used from the back. An insertion while it is used doesn't compile.
    ///
    /// # Cost
    /// `O(1)`, also for each entry. It allocates nothing.
    pub fn iter(&self) -> Iter<'_, K, V::Borrow>
        ensures rest { result ≡ self.now }
        ensures runs { ShowsInOrder (deref_pair {K = K} {X = V.Borrow}) }
        ensures runs_back { ShowsInReverse (deref_pair {K = K} {X = V.Borrow}) }
    {
        self.table.iter()
    }

    /// Returns an iterator over the keys, each once, in the order of their insertion. It can be
    /// used from the back.
    ///
    /// # Cost
    /// That of [`iter`](FrozenIndexMapIn::iter).
    pub fn keys(&self) -> Keys<'_, K, V::Borrow>
        ensures rest { result ≡ keys_of self.now }
        ensures runs { ShowsInOrder (deref {X = K}) }
        ensures runs_back { ShowsInReverse (deref {X = K}) }
    {
        self.table.keys()
    }

    /// Returns an iterator over the values, in the order of the insertions. It can be used from the
    /// back.
    ///
    /// # Cost
    /// That of [`iter`](FrozenIndexMapIn::iter).
    pub fn values(&self) -> Values<'_, K, V::Borrow>
        ensures rest { result ≡ values_of self.now }
        ensures runs { ShowsInOrder (deref {X = V.Borrow}) }
        ensures runs_back { ShowsInReverse (deref {X = V.Borrow}) }
    {
        self.table.values()
    }

    /// Returns the number of entries that the map can have before its table grows.
    ///
    /// # Cost
    /// `O(1)`.
    pub fn capacity(&self) -> usize
        ensures { length self.now ≤ result }
    {
        self.table.capacity()
    }

    /// Reserves capacity for at least `additional` more entries. Inserting that many allocates
    /// nothing in the table, only in the arena.
    ///
    /// # Errors
    /// Fails if an allocation fails. The map is then unchanged.
    ///
    /// # Cost
    /// `O(n)` if the table grows.
    pub fn reserve(&mut self, additional: usize) -> Result<(), AllocError>
        ensures content { self.new ≡ self.old }
        ensures none_is_free { additional ≡ 0 → IsOk result }
    {
        self.table.reserve(additional)
    }

    /// Inserts the pairs in their order: each new key is appended with the value of its first pair.
    /// A present key keeps its index and its value.
    ///
    /// The table reserves capacity for the lower bound of the iterator's `size_hint`. If that
    /// fails, it grows entry by entry.
    ///
    /// # Errors
    /// Fails if an allocation fails. The pairs before the one that failed are inserted, and
    /// the others are dropped.
    ///
    /// # Allocates
    /// The growth of the table, and each value of a new key in the arena.
    ///
    /// # Cost
    /// `O(1)` for each pair, with one hash and one search.
    pub fn extend<I: IntoIterator<Item = (K, V)>>(&mut self, pairs: I) -> Result<(), AllocError>
        requires ends { (s : I.IntoIter) → I.into_iter_gives pairs s →
            I.IntoIter.can_next s × IsFinite (I.IntoIter.remaining s) }
        ensures extended { ExtendsWithItems I.into_iter_gives I.IntoIter.next_gives
            (AppendsFirsts K.eq V.target V.shown) pairs self.old self.new result }
        ensures values { ExtendsWithItems I.into_iter_gives I.IntoIter.next_gives
            (HoldsFirst K.eq V.target V.shown) pairs self.old self.new result }
        ensures kept { Grows self.old self.new }
    {
        let pairs = pairs.into_iter();
        // Keys may be present, so only a failed insertion is an error.
        let _room = self.reserve(pairs.size_hint().0);
        self.insert_all(pairs)
    }

    /// Appends the entry unless the map has an equal key. Returns the index and the value that the
    /// key then has, and whether the key was new.
    ///
    /// If the map has the key, the given key and value are dropped.
    ///
    /// # Errors
    /// Fails if the key is new and an allocation fails. The map is then unchanged.
    ///
    /// # Allocates
    /// If the key is new: the growth of the table, and then the value in the arena.
    ///
    /// # Cost
    /// One hash and one search.
    #[tactic(auto, using(crate::proofs::Indices::no_index))]
    pub fn insert_full_new(
        &mut self,
        key: K,
        value: V,
    ) -> Result<(usize, V::Borrow, bool), AllocError>
        // A present key keeps its index and value; a new key has the last entry.
        ensures present { (x : V.Borrow) → value_at K.eq self.old key ≡ Some x →
            (i : ℕ) × (index_of K.eq self.old key ≡ Some i)
            × (result ≡ Ok (i, x, false)) × (self.new ≡ self.old) }
        ensures accepted { IfOk result (λ r.
            InsertedNew K.eq V.target V.shown self.old key value r.0 r.1 r.2 self.new) }

        // Only the insertion of a new key fails, and then nothing changes.
        ensures refused { OnErr result (self.new ≡ self.old) }
        ensures only_new { OnErr result (index_of K.eq self.old key ≡ None) }

        // The key is then found at its index, with its value.
        ensures value_after { IfOk result (λ r. value_at K.eq self.new key ≡ Some r.1) }
        ensures index_after { IfOk result (λ r. index_of K.eq self.new key ≡ Some r.0) }
    {
        let Ok(found) = self.table.entry(key) else {
            return Err(AllocError);
        };
        let room = match found {
            Entry::Occupied(there) => return Ok((there.index(), *there.get(), false)),
            Entry::Vacant(room) => room,
        };
        let Ok(borrow) = value.place(self.arena) else {
            let _key = room.into_key();
            return Err(AllocError);
        };
        let index = room.index();
        room.insert(borrow);
        Ok((index, borrow, true))
    }

    /// Appends the entry unless the map has an equal key, and returns the index and the value that
    /// the key then has.
    ///
    /// # Errors
    /// Fails as [`insert_full_new`](FrozenIndexMapIn::insert_full_new) does, with the same
    /// allocations and the same cost.
    pub fn insert_full(&mut self, key: K, value: V) -> Result<(usize, V::Borrow), AllocError>
        // A present key keeps its index and value; a new key has the last entry.
        ensures present { (x : V.Borrow) → value_at K.eq self.old key ≡ Some x →
            (i : ℕ) × (index_of K.eq self.old key ≡ Some i) × (result ≡ Ok (i, x))
            × (self.new ≡ self.old) }
        ensures accepted { IfOk result (λ r.
            Inserted K.eq V.target V.shown self.old key value r.0 r.1 self.new) }

        // Only the insertion of a new key fails, and then nothing changes.
        ensures refused { OnErr result (self.new ≡ self.old) }
        ensures only_new { OnErr result (index_of K.eq self.old key ≡ None) }

        // The key is then found at its index, with its value.
        ensures value_after { IfOk result (λ r. value_at K.eq self.new key ≡ Some r.1) }
        ensures index_after { IfOk result (λ r. index_of K.eq self.new key ≡ Some r.0) }
    {
        let (index, borrow, _) = self.insert_full_new(key, value)?;
        Ok((index, borrow))
    }
}

impl<'a, R: KeepsText<'a>, V, S: BuildHasher, A> FrozenIndexMapIn<R, &'a str, V, S, A>
where
    V: StableDeref<R>,
    A: Allocator + Copy,
{
    // The index and the value of the key that is the same text as `key`.
    fn get_full_text(&self, key: &str) -> Option<(usize, V::Borrow)>
        ensures index { option_map (λ r. r.0) result
            ≡ index_of ⟦<&'a str as PartialEq>⟧.eq self.now key.entry }
        ensures value { option_map (λ r. r.1) result
            ≡ value_at ⟦<&'a str as PartialEq>⟧.eq self.now key.entry }
    {
        let (index, _, found) = self.table.get_full(key)?;
        Some((index, *found))
    }

    /// Appends an entry with the text as its key unless the map has that key, and returns the index
    /// and the value that the text then has: [`insert_full`](FrozenIndexMapIn::insert_full) for a
    /// text of any lifetime.
    ///
    /// If the map has the text, the given value is dropped and nothing is allocated. Otherwise the
    /// table grows, and then the text is copied into the arena.
    ///
    /// # Errors
    /// Fails if the text is new and an allocation fails. The map is then unchanged. If the arena
    /// has room for the text but not for the value, it keeps an unused copy of the text.
    ///
    /// # Cost
    /// One hash and one search for a present text, and two of each for a new one.
    pub fn insert_full_text(
        &mut self,
        key: &str,
        value: V,
    ) -> Result<(usize, V::Borrow), AllocError>
        // A present key keeps its index and value; a new key has the last entry.
        ensures present { (x : V.Borrow) →
            value_at ⟦<&'a str as PartialEq>⟧.eq self.old key.entry ≡ Some x →
            (i : ℕ) × (index_of ⟦<&'a str as PartialEq>⟧.eq self.old key.entry ≡ Some i)
            × (result ≡ Ok (i, x)) × (self.new ≡ self.old) }
        ensures accepted { IfOk result (λ r.
            (k : Bor (List ℕ)) × (k.now ≡ key.now)
            × Inserted ⟦<&'a str as PartialEq>⟧.eq V.target V.shown self.old k value r.0 r.1
            self.new) }

        // Only the insertion of a new key fails, and then nothing changes.
        ensures refused { OnErr result (self.new ≡ self.old) }
        ensures only_new { OnErr result (
            index_of ⟦<&'a str as PartialEq>⟧.eq self.old key.entry ≡ None) }

        // The key is then found at its index, with its value.
        ensures value_after { IfOk result (λ r.
            value_at ⟦<&'a str as PartialEq>⟧.eq self.new key.entry ≡ Some r.1) }
        ensures index_after { IfOk result (λ r.
            index_of ⟦<&'a str as PartialEq>⟧.eq self.new key.entry ≡ Some r.0) }
    {
        if let Some(found) = self.get_full_text(key) {
            return Ok(found);
        }
        self.table.reserve(1)?;
        let placed = self.arena.keep_text(key)?;
        self.insert_full(placed, value)
    }

    /// Appends an entry with the text as its key unless the map has that key, and returns the value
    /// that the text then has.
    ///
    /// # Errors
    /// Fails as [`insert_full_text`](FrozenIndexMapIn::insert_full_text) does, with the same
    /// allocations and the same cost.
    pub fn insert_text(&mut self, key: &str, value: V) -> Result<V::Borrow, AllocError>
        ensures present { (x : V.Borrow) →
            value_at ⟦<&'a str as PartialEq>⟧.eq self.old key.entry ≡ Some x →
            (result ≡ Ok x) × (self.new ≡ self.old) }
        ensures accepted { IfOk result (λ b.
            (i : ℕ) × (k : Bor (List ℕ)) × (k.now ≡ key.now)
            × Inserted ⟦<&'a str as PartialEq>⟧.eq V.target V.shown self.old k value i b self.new) }
        ensures refused { OnErr result (self.new ≡ self.old) }
        ensures only_new { OnErr result (
            index_of ⟦<&'a str as PartialEq>⟧.eq self.old key.entry ≡ None) }
        ensures value_after { IfOk result (λ b.
            value_at ⟦<&'a str as PartialEq>⟧.eq self.new key.entry ≡ Some b) }
    {
        let (_, borrow) = self.insert_full_text(key, value)?;
        Ok(borrow)
    }
}

impl<R: Copy, K: Eq + Hash + Drop, V, S, A> FrozenIndexMapIn<R, K, V, S, A>
where
    V: StableDeref<R>,
    S: BuildHasher + Drop,
    A: Allocator + Copy,
{
    // Sets the value of a key, whether or not it is present.
    fn set(&mut self, key: K, value: V) -> Result<V::Borrow, AllocError>
        ensures placed { IfOk result (λ b. V.shown b ≡ V.target value) }
        ensures entries { IfOk result (λ b. self.new ≡ insert_entry K.eq self.old key b) }
        ensures values { IfOk result (λ b.
            (q : K) →
            lookup (K.eq q) self.new ≡ cond (K.eq key q) (Some b) (lookup (K.eq q) self.old)) }
    {
        let Ok(placed) = value.place(self.arena) else {
            return Err(AllocError);
        };
        self.table.insert(key, placed)?;
        Ok(placed)
    }

    /// Makes a map of the pairs, in which the last value of a key wins, unlike in insertions, and
    /// the key keeps its first index.
    ///
    /// The table reserves capacity for the lower bound of the iterator's `size_hint`. If that
    /// fails, it grows entry by entry.
    ///
    /// # Errors
    /// Fails if an allocation fails. What was collected is dropped.
    ///
    /// # Cost
    /// `O(n)`, with one hash for each pair.
    pub fn from_iter<I: IntoIterator<Item = (K, V)>>(
        alloc: A,
        arena: R,
        hash_builder: S,
        pairs: I,
    ) -> Result<Self, AllocError>
        requires ends { (s : I.IntoIter) → I.into_iter_gives pairs s →
            I.IntoIter.can_next s × IsFinite (I.IntoIter.remaining s) }
        ensures collects { IfOk result (λ m.
            (s : I.IntoIter) × (xs : List (K × V)) × I.into_iter_gives pairs s
            × Drains I.IntoIter.next_gives s xs × CollectsTargets K.eq V.target V.shown xs m) }
    {
        let pairs = pairs.into_iter();
        let mut map = FrozenIndexMapIn::with_hasher(alloc, arena, hash_builder);
        // The iterator may yield fewer keys than its hint, so only a failed `set` is an error.
        let _room = map.reserve(pairs.size_hint().0);
        for pair in pairs {
            let (key, value) = pair;
            map.set(key, value)?;
        }
        Ok(map)
    }

    /// Makes a map with the same entries over the same arena, under a clone of the hash builder. It
    /// shares the values. Later insertions into one of the two don't change the other.
    ///
    /// # Errors
    /// Fails if an allocation fails, or if the `clone` of a key or of the hash builder fails.
    ///
    /// # Cost
    /// `O(n)`: the table is copied whole, with one hash and no search for each entry. If that
    /// allocation fails, the entries are inserted one by one into a table with capacity for all.
    pub fn clone(&self) -> Result<Self, AllocError>
    where
        K: Clone,
        S: Clone,
        requires faithful { (x y : K) → K.is_clone x y → IsTrue (K.eq x y) }
        ensures content { IfOk result (IsCloneOf K.eq K.is_clone self.now) }
    {
        if let Ok(copy) = copied(&self.table) {
            return Ok(FrozenIndexMapIn::from_map(self.arena, copy));
        }
        // That a clone of the hasher hashes a key differently is no error.
        let len = self.table.len();
        let hash_builder = self.table.hasher().clone()?;
        let mut map = IndexMap::with_capacity_and_hasher(self.alloc, len, hash_builder)?;
        for i in 0..len {
            let (key, value) = self.table.get_index(i).unwrap();
            map.insert(key.clone()?, *value)?;
        }
        Ok(FrozenIndexMapIn::from_map(self.arena, map))
    }
}

// Copies the table whole: no key is searched for. Fails too if the clone of the hasher hashes a key
// differently.
fn copied<K: Eq + Hash + Clone + Drop, B: Copy, S: BuildHasher + Clone, A: Allocator + Copy>(
    table: &IndexMap<K, B, S, A>,
) -> Result<IndexMap<K, B, S, A>, AllocError>
    requires faithful { (x y : K) → K.is_clone x y → IsTrue (K.eq x y) }
    ensures content { IfOk result (λ copy.
        IsCloneOf K.eq K.is_clone table.now.entries copy.entries) }
{
    let mut copy = table.clone()?;
    // A type may define any clone of its values, so each entry gets the value of its source.
    let mut values = table.values();
    let from_source = move |_key: &K, value: &mut B| -> bool
        ensures kept { result ≡ true }
        ensures in_order { (own : B) → (rest : List B) → values.entry ≡ own ∷ rest →
            (value.new ≡ own) × (values.exit ≡ rest) }
    {
        if let Some(own) = values.next() {
            *value = *own;
        }
        true
    };
    copy.retain(from_source);
    Ok(copy)
}

/// `for (key, value) in &map` visits each entry once, in the order of their insertion.
impl<'m, R: Copy, K: Eq + Hash + Drop, V, S: BuildHasher, A: Allocator + Copy> IntoIterator
    for &'m FrozenIndexMapIn<R, K, V, S, A>
where
    V: StableDeref<R>,
{
    type Item = (&'m K, &'m V::Borrow);

    type IntoIter = Iter<'m, K, V::Borrow>;

    ghost into_iter_gives = { λ m it. (it ≡ m.now) × ShowsInOrder (deref_pair {K = K} {X = V.Borrow}) };

    fn into_iter(self) -> Iter<'m, K, V::Borrow> {
        self.iter()
    }
}

// Two maps are equal if each key has equal values in both, or none in either, in any order.
impl<R: Copy, K: Eq + Hash + Drop, V, S: BuildHasher, A: Allocator + Copy> PartialEq
    for FrozenIndexMapIn<R, K, V, S, A>
where
    V: StableDeref<R>,
    <V as StableDeref<R>>::Borrow: PartialEq,
{
    ghost eq = { same_values K.eq V.Borrow.eq };

    ghost laws = { same_values_laws K.eq V.Borrow.eq K.Eq.laws V.Borrow.laws };

    fn eq(&self, other: &Self) -> bool
        ensures decides { result ≡ same_values K.eq V.Borrow.eq self.now other.now }
        ensures as_maps { IsTrue result ↔ IsEqualMap K.eq V.Borrow.eq self.now other.now }
        ensures blind_to_order { ((b : V.Borrow) → IsTrue (V.Borrow.eq b b)) →
            IsPermutation self.now other.now → IsTrue result }
    {
        // No two keys are equal.
        for_its_clause(other.len());
        self.table == other.table
    }
}

impl<R: Copy, K: Eq + Hash + Drop, V, S: BuildHasher, A: Allocator + Copy> Eq
    for FrozenIndexMapIn<R, K, V, S, A>
where
    V: StableDeref<R>,
    <V as StableDeref<R>>::Borrow: Eq,
{
    ghost laws = { same_values_equivalence K.eq V.Borrow.eq K.Eq.laws V.Borrow.PartialEq.laws V.Borrow.Eq.laws };
}
