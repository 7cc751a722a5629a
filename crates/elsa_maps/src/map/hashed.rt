//! The map that finds a key by its hash.
ghost use Rattle.std.specs.Prelude.{◌≡◌, ◌≤◌, ◌↔◌, [], ◌∷◌, List, None, true, IfOk, IsOk, IsPermutation, IsTrue, OnErr, OnOk, Ok, Some, length};
ghost use Rattle.std.specs.Iterator.{Drains, ExtendsWithItems, IsFinite};
ghost use Rattle.std.specs.List.{IsDistinct};
ghost use Rattle.std.specs.Map.{keys_of, values_of};
ghost use Rattle.std.specs.Map.Iter.{ShowsInOrder, deref, deref_pair};
ghost use Rattle.elsa_maps.specs.FirstWins.{AddsNew, HoldsFirst, HoldsLast, IsRefused, Keeps, SameAt, same_values, value_at};
ghost use Rattle.elsa_tables.proofs.MapEquality.{same_values_equivalence, same_values_laws};
ghost use Rattle.elsa_tables.specs.FirstWins.{IsEqualMap};

use super::Frozen;
use bumpalo::Bump;
use elsa_vec::stable::{KeepsText, StableDeref};
use std::alloc::{AllocError, Allocator, Global};
use std::collections::HashMap;
use std::collections::hash_map::{Iter, Keys, Values};
use std::hash::{BuildHasher, BuildHasherDefault, FoldHasher, Hash};

/// A hashed map in which the first value of a key stays. Its values are stored in the arena to
/// which an `R` refers.
///
/// The default hasher is fast and has a fixed seed. For keys from untrusted input, pass a
/// `SeededState` of `elsa` to [`with_hasher`](FrozenMapIn::with_hasher). `A` is the allocator of
/// the table.
pub type FrozenMapIn<R, K, V, S = BuildHasherDefault<FoldHasher>, A = Global> = Frozen<
    R,
    K,
    V,
    HashMap<K, <V as StableDeref<R>>::Borrow, S, A>,
    A,
>;

/// The hashed map whose values are stored in a `Bump` of lifetime `'a`. `P` is the allocator of the
/// arena.
pub type FrozenMap<'a, K, V, S = BuildHasherDefault<FoldHasher>, A = Global, P = Global> =
    FrozenMapIn<&'a Bump<P>, K, V, S, A>;

impl<R: Copy, K: Eq + Hash + Drop, V: StableDeref<R>, A: Allocator + Copy> FrozenMapIn<
    R,
    K,
    V,
    BuildHasherDefault<FoldHasher>,
    A,
> {
    /// Makes an empty map with the default hasher. Its values are stored in `arena`, and `alloc`
    /// allocates its table. It allocates nothing.
    pub fn new(alloc: A, arena: R) -> Self
        ensures { result ≡ [] }
    {
        FrozenMapIn::with_hasher(alloc, arena, BuildHasherDefault::new())
    }

    /// Makes an empty map with the default hasher and capacity for `count` entries, as
    /// [`reserve`](FrozenMapIn::reserve) does.
    ///
    /// # Errors
    /// Fails if an allocation fails. A capacity of 0 allocates nothing.
    pub fn with_capacity(alloc: A, arena: R, count: usize) -> Result<Self, AllocError>
        ensures empty { IfOk result (λ m. m ≡ []) }
        ensures none_is_free { count ≡ 0 → IsOk result }
    {
        let mut map = FrozenMapIn::new(alloc, arena);
        map.reserve(count)?;
        Ok(map)
    }
}

impl<
    R: Copy,
    K: Eq + Hash + Drop,
    V: StableDeref<R>,
    S: BuildHasher,
    A: Allocator + Copy,
> FrozenMapIn<R, K, V, S, A> {
    /// Makes an empty map that hashes its keys by `hash_builder`. It allocates nothing.
    pub fn with_hasher(alloc: A, arena: R, hash_builder: S) -> Self
        ensures { result ≡ [] }
    {
        FrozenMapIn::from_map(alloc, arena, HashMap::with_hasher(alloc, hash_builder))
    }

    /// Makes a map with the entries of `map`. It allocates nothing.
    ///
    /// [`clone`](FrozenMapIn::clone) and [`into_tuple_vec`](Frozen::into_tuple_vec) allocate with
    /// `alloc`, since the map doesn't return its allocator.
    pub fn from_map(alloc: A, arena: R, map: HashMap<K, V::Borrow, S, A>) -> Self
        ensures { result ≡ map.entries }
    {
        Frozen::over(alloc, arena, map)
    }

    /// Returns the number of entries that the map can have before its table grows.
    ///
    /// # Cost
    /// `O(1)`.
    pub fn capacity(&self) -> usize
        ensures { length self.now ≤ result }
    {
        self.table.capacity()
    }

    /// Reserves capacity for at least `additional` more entries. Inserting that many allocates
    /// nothing in the table, only in the arena. The order of the entries may change.
    ///
    /// # Errors
    /// Fails if an allocation fails. The map is then unchanged.
    ///
    /// # Cost
    /// `O(n)`, with one hash for each entry, if the table grows.
    pub fn reserve(&mut self, additional: usize) -> Result<(), AllocError>
        ensures entries { IsPermutation self.old self.new }
        ensures content { SameAt (value_at K.eq self.old) (value_at K.eq self.new) }
        ensures refused { OnErr result (self.new ≡ self.old) }
        ensures none_is_free { additional ≡ 0 → IsOk result }
    {
        self.table.reserve(additional)
    }

    /// Inserts the pairs in their order. The first value of a key wins: a present key keeps its
    /// value, and of several pairs with an equal new key the first one is inserted.
    ///
    /// The table reserves capacity for the lower bound of the iterator's `size_hint`. If that
    /// fails, it grows entry by entry.
    ///
    /// # Errors
    /// Fails if an allocation fails. The pairs before the one that failed are inserted, and the
    /// others are dropped.
    ///
    /// # Allocates
    /// The growth of the table, and each value of a new key in the arena.
    ///
    /// # Cost
    /// `O(1)` for each pair, with one hash and one search.
    pub fn extend<I: IntoIterator<Item = (K, V)>>(&mut self, pairs: I) -> Result<(), AllocError>
        requires ends { (s : I.IntoIter) → I.into_iter_gives pairs s →
            I.IntoIter.can_next s × IsFinite (I.IntoIter.remaining s) }
        ensures extended { ExtendsWithItems I.into_iter_gives I.IntoIter.next_gives
            (HoldsFirst K.eq V.target V.shown) pairs self.old self.new result }
        ensures kept { Keeps (value_at K.eq self.old) (value_at K.eq self.new) }
    {
        let pairs = pairs.into_iter();
        // Keys may be present, so only a failed insertion is an error.
        let _room = self.reserve(pairs.size_hint().0);
        self.insert_all(pairs)
    }

    /// Returns an iterator over the entries, each once, in an unspecified order. An insertion while
    /// it is used doesn't compile.
    ///
    /// # Cost
    /// `O(1)`, also for each entry. It allocates nothing.
    pub fn iter(&self) -> Iter<'_, K, V::Borrow>
        ensures rest { result ≡ self.now }
        ensures runs { ShowsInOrder (deref_pair {K = K} {X = V.Borrow}) }
    {
        self.table.iter()
    }

    /// Returns an iterator over the keys, each once, in the order of [`iter`](FrozenMapIn::iter).
    ///
    /// # Cost
    /// `O(1)`, also for each key. It allocates nothing.
    pub fn keys(&self) -> Keys<'_, K, V::Borrow>
        ensures rest { result ≡ keys_of self.now }
        ensures runs { ShowsInOrder (deref {X = K}) }
    {
        self.table.keys()
    }

    /// Returns an iterator over the values, in the order of [`iter`](FrozenMapIn::iter).
    ///
    /// # Cost
    /// `O(1)`, also for each value. It allocates nothing.
    pub fn values(&self) -> Values<'_, K, V::Borrow>
        ensures rest { result ≡ values_of self.now }
        ensures runs { ShowsInOrder (deref {X = V.Borrow}) }
    {
        self.table.values()
    }
}

impl<'a, R: KeepsText<'a>, V: StableDeref<R>, S: BuildHasher, A: Allocator + Copy> FrozenMapIn<
    R,
    &'a str,
    V,
    S,
    A,
> {
    /// Inserts the value unless the map has the text as a key, and returns the value that the text
    /// then has: [`insert`](Frozen::insert) for a text of any lifetime.
    ///
    /// If the map has the text, the given value is dropped and nothing is allocated. Otherwise the
    /// text is copied into the arena.
    ///
    /// # Errors
    /// Fails if the text is new and an allocation fails. The map is then unchanged. The arena may
    /// keep an unused copy of the text.
    ///
    /// # Cost
    /// One hash and one search for a present text, and two of each for a new one.
    pub fn insert_text(&mut self, key: &str, value: V) -> Result<V::Borrow, AllocError>
        ensures present { (x : V.Borrow) →
            value_at ⟦<&'a str as PartialEq>⟧.eq self.old key.entry ≡ Some x →
            (result ≡ Ok x) × (self.new ≡ self.old) }
        ensures value_after { IfOk result (λ b.
            value_at ⟦<&'a str as PartialEq>⟧.eq self.new key.entry ≡ Some b) }
        ensures added { value_at ⟦<&'a str as PartialEq>⟧.eq self.old key.entry ≡ None →
            IfOk result (λ b. AddsNew ⟦<&'a str as PartialEq>⟧.eq V.target V.shown self.old
            key.entry value b self.new) }
        ensures refused { OnErr result (
            IsRefused ⟦<&'a str as PartialEq>⟧.eq self.old key.entry self.new) }
    {
        if let Some(found) = self.get(key) {
            return Ok(found);
        }
        let placed = self.arena.keep_text(key)?;
        self.insert(placed, value)
    }
}

impl<
    R: Copy,
    K: Eq + Hash + Drop,
    V: StableDeref<R>,
    S: BuildHasher + Drop,
    A: Allocator + Copy,
> FrozenMapIn<R, K, V, S, A> {
    /// Makes a map of the pairs, in which the last value of a key wins, unlike in insertions. Which
    /// of several equal keys is stored is unspecified.
    ///
    /// The table reserves capacity for the lower bound of the iterator's `size_hint`. If that
    /// fails, it grows entry by entry.
    ///
    /// # Errors
    /// Fails if an allocation fails. What was collected is dropped.
    ///
    /// # Cost
    /// `O(n)`, with one hash for each pair.
    pub fn from_iter<I: IntoIterator<Item = (K, V)>>(
        alloc: A,
        arena: R,
        hash_builder: S,
        pairs: I,
    ) -> Result<Self, AllocError>
        requires ends { (s : I.IntoIter) → I.into_iter_gives pairs s →
            I.IntoIter.can_next s × IsFinite (I.IntoIter.remaining s) }
        ensures collects { IfOk result (λ m.
            (s : I.IntoIter) × (xs : List (K × V)) × I.into_iter_gives pairs s
            × Drains I.IntoIter.next_gives s xs × HoldsLast K.eq V.target V.shown xs m) }
    {
        let pairs = pairs.into_iter();
        let mut table = HashMap::with_hasher(alloc, hash_builder);
        // The iterator may yield fewer keys than its hint, so only a failed `insert` is an error.
        let _room = table.reserve(pairs.size_hint().0);
        for pair in pairs {
            let (key, value) = pair;
            let Ok(placed) = value.place(arena) else {
                return Err(AllocError);
            };
            table.insert(key, placed)?;
        }
        Ok(FrozenMapIn::from_map(alloc, arena, table))
    }

    /// Makes a map with the same entries over the same arena, which shares the values. Later
    /// insertions into one of the two don't change the other.
    ///
    /// # Errors
    /// Fails if an allocation fails, or if the `clone` of a key or of the hash builder fails.
    ///
    /// # Cost
    /// `O(n)`: the table is copied whole, with one hash and no search for each entry. If that
    /// allocation fails, the entries are inserted one by one into a table with capacity for all.
    pub fn clone(&self) -> Result<Self, AllocError>
    where
        K: Clone,
        S: Clone,
        requires equal_clones { (k c : K) → K.is_clone k c → K.eq k c ≡ true }
        ensures content { IfOk result (λ copy. SameAt (value_at K.eq self.now) (value_at K.eq copy)) }
        ensures count { IfOk result (λ copy. length copy ≡ length self.now) }
    {
        if let Ok(copy) = copied(&self.table) {
            return Ok(FrozenMapIn::from_map(self.alloc, self.arena, copy));
        }
        // That a clone of the hasher hashes a key differently is no error.
        let hash_builder = self.table.hasher().clone()?;
        let mut copy = HashMap::with_capacity_and_hasher(self.alloc, self.len(), hash_builder)?;
        for (key, value) in &self.table {
            let key = key.clone()?;
            let Ok(_) = copy.insert(key, *value) else {
                return Err(AllocError);
            };
        }
        Ok(FrozenMapIn::from_map(self.alloc, self.arena, copy))
    }
}

// Copies the table whole: no key is searched for. Fails too if the clone of the hasher hashes a key
// differently.
fn copied<K: Eq + Hash + Clone, B: Copy, S: BuildHasher + Clone, A: Allocator + Copy>(
    table: &HashMap<K, B, S, A>,
) -> Result<HashMap<K, B, S, A>, AllocError>
    requires equal_clones { (k c : K) → K.is_clone k c → K.eq k c ≡ true }
    ensures content { IfOk result (λ copy.
        SameAt (value_at K.eq table.now.entries) (value_at K.eq copy.entries)) }
    ensures count { IfOk result (λ copy. length copy.entries ≡ length table.now.entries) }
{
    let mut copy = table.clone()?;
    // A type may define any clone of its values, so each entry gets the value of its source.
    let mut values = table.values();
    let from_source = move |_key: &K, value: &mut B| -> bool
        ensures kept { result ≡ true }
        ensures in_order { (own : B) → (rest : List B) → values.entry ≡ own ∷ rest →
            (value.new ≡ own) × (values.exit ≡ rest) }
    {
        if let Some(own) = values.next() {
            *value = *own;
        }
        true
    };
    copy.retain(from_source);
    Ok(copy)
}

/// `for (key, value) in &map` visits each entry once, in an unspecified order.
impl<
    'm,
    R: Copy,
    K: Eq + Hash + Drop,
    V: StableDeref<R>,
    S: BuildHasher,
    A: Allocator + Copy,
> IntoIterator for &'m FrozenMapIn<R, K, V, S, A> {
    type Item = (&'m K, &'m V::Borrow);

    type IntoIter = Iter<'m, K, V::Borrow>;

    ghost into_iter_gives = { λ m it. (it ≡ m.now) × ShowsInOrder (deref_pair {K = K} {X = V.Borrow}) };

    fn into_iter(self) -> Iter<'m, K, V::Borrow> {
        self.iter()
    }
}

// Two maps are equal if each key has equal values in both, or none in either.
impl<R: Copy, K: Eq + Hash + Drop, V: StableDeref<R>, S: BuildHasher, A: Allocator + Copy> PartialEq
    for FrozenMapIn<R, K, V, S, A>
where
    V::Borrow: PartialEq,
{
    ghost eq = { same_values K.eq V.Borrow.eq };

    ghost laws = { same_values_laws K.eq V.Borrow.eq K.Eq.laws V.Borrow.laws };

    fn eq(&self, other: &Self) -> bool
        ensures decides { result ≡ same_values K.eq V.Borrow.eq self.now other.now }
        ensures as_maps { IsTrue result ↔ IsEqualMap K.eq V.Borrow.eq self.now other.now }
    {
        self.table == other.table
    }
}

impl<R: Copy, K: Eq + Hash + Drop, V: StableDeref<R>, S: BuildHasher, A: Allocator + Copy> Eq
    for FrozenMapIn<R, K, V, S, A>
where
    V::Borrow: Eq,
{
    ghost laws = { same_values_equivalence K.eq V.Borrow.eq K.Eq.laws V.Borrow.PartialEq.laws V.Borrow.Eq.laws };
}
