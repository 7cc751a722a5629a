//! The map that keeps its keys sorted.
ghost use Rattle.std.specs.Prelude.{◌≡◌, ◌-◌, ◌↔◌, [], ◌∷◌, List, None, true, IfOk, IsTrue, OnErr, OnOk, Ok, Some, length, slice_get};
ghost use Rattle.std.specs.BTreeMap.Range.{IsLeBy, IsLtBy, entries_between};
ghost use Rattle.std.specs.Cmp.{eq_by_cmp_equiv};
ghost use Rattle.std.specs.Iterator.{Drains, ExtendsWithItems, IsFinite};
ghost use Rattle.std.specs.List.Sorted.{IsStrictlySortedBy};
ghost use Rattle.std.specs.Map.{keys_of, values_of};
ghost use Rattle.std.specs.Map.Iter.{ShowsInOrder, ShowsInReverse, deref, deref_pair};
ghost use Rattle.std.specs.Ordering.{eq_by_cmp};
ghost use Rattle.elsa_maps.specs.FirstWins.{AddsNew, HoldsFirst, HoldsLast, IsRefused, Keeps, SameAt, same_values, value_at};
ghost use Rattle.elsa_tables.proofs.MapEquality.{same_values_equivalence, same_values_laws};
ghost use Rattle.elsa_tables.specs.FirstWins.{IsEqualMap};

use super::Frozen;
use bumpalo::Bump;
use elsa_tables::for_its_clause;
use elsa_vec::stable::{KeepsText, StableDeref};
use std::alloc::{AllocError, Allocator, Global};
use std::collections::BTreeMap;
use std::collections::btree_map::{Iter, Keys, Range, Values};
use std::ops::RangeBounds;

/// A map in which the first value of a key stays, and whose keys are sorted. Its values are stored
/// in the arena to which an `R` refers.
///
/// Keys need `Ord`, and two keys are equal if they compare as `Equal`. `A` is the allocator of the
/// tree.
pub type FrozenBTreeMapIn<R, K, V, A = Global> = Frozen<
    R,
    K,
    V,
    BTreeMap<K, <V as StableDeref<R>>::Borrow, A>,
    A,
>;

/// The ordered map whose values are stored in a `Bump` of lifetime `'a`. `P` is the allocator of
/// the arena.
pub type FrozenBTreeMap<'a, K, V, A = Global, P = Global> = FrozenBTreeMapIn<&'a Bump<P>, K, V, A>;

/// A sorted set over the arena to which an `R` refers: an ordered map to `()`.
pub type FrozenBTreeSetIn<R, K, A = Global> = FrozenBTreeMapIn<R, K, (), A>;

/// The sorted set whose texts are copied into a `Bump` of lifetime `'a` and of the allocator `P`.
///
/// It is an ordered map to `()`: `set.insert_new(key, ())` returns whether the key is new,
/// `contains_key` and `get_key_value` look it up, and `keys` and `range` walk in order.
pub type FrozenBTreeSet<'a, K, A = Global, P = Global> = FrozenBTreeSetIn<&'a Bump<P>, K, A>;

impl<R: Copy, K: Ord + Drop, V: StableDeref<R>, A: Allocator + Copy> FrozenBTreeMapIn<R, K, V, A> {
    /// Makes an empty map. Its values are stored in `arena`, and `alloc` allocates its tree. It
    /// allocates nothing.
    pub fn new(alloc: A, arena: R) -> Self
        ensures { result ≡ [] }
    {
        FrozenBTreeMapIn::from_map(alloc, arena, BTreeMap::new(alloc))
    }

    /// Makes a map with the entries of `map`. It allocates nothing.
    ///
    /// [`clone`](FrozenBTreeMapIn::clone) and [`into_tuple_vec`](Frozen::into_tuple_vec) allocate
    /// with `alloc`, since the map doesn't return its allocator.
    pub fn from_map(alloc: A, arena: R, map: BTreeMap<K, V::Borrow, A>) -> Self
        ensures { result ≡ map.entries }
    {
        Frozen::over(alloc, arena, map)
    }

    /// Inserts the pairs in their order. The first value of a key wins: a present key keeps its
    /// value, and of several pairs with an equal new key the first one is inserted.
    ///
    /// # Errors
    /// Fails if an allocation fails. The pairs before the one that failed are inserted, and the
    /// others are dropped.
    ///
    /// # Allocates
    /// The growth of the tree, and each value of a new key in the arena.
    ///
    /// # Cost
    /// `O(log n)` for each pair.
    pub fn extend<I: IntoIterator<Item = (K, V)>>(&mut self, pairs: I) -> Result<(), AllocError>
        requires ends { (s : I.IntoIter) → I.into_iter_gives pairs s →
            I.IntoIter.can_next s × IsFinite (I.IntoIter.remaining s) }
        ensures extended { ExtendsWithItems I.into_iter_gives I.IntoIter.next_gives
            (HoldsFirst (eq_by_cmp K.cmp) V.target V.shown) pairs self.old self.new result }
        ensures kept { Keeps (value_at (eq_by_cmp K.cmp) self.old)
            (value_at (eq_by_cmp K.cmp) self.new) }
    {
        self.insert_all(pairs.into_iter())
    }

    /// Returns an iterator over the entries, each once, ascending by key. It can be used from the
    /// back, descending. An insertion while it is used doesn't compile.
    ///
    /// # Cost
    /// `O(log n)`, and `O(1)` on average for each entry. It allocates nothing.
    pub fn iter(&self) -> Iter<'_, K, V::Borrow>
        ensures rest { result ≡ self.now }
        ensures runs { ShowsInOrder (deref_pair {K = K} {X = V.Borrow}) }
        ensures runs_back { ShowsInReverse (deref_pair {K = K} {X = V.Borrow}) }
    {
        self.table.iter()
    }

    /// Returns an iterator over the keys, each once, ascending. It can be used from the back.
    ///
    /// # Cost
    /// That of [`iter`](FrozenBTreeMapIn::iter).
    pub fn keys(&self) -> Keys<'_, K, V::Borrow>
        ensures rest { result ≡ keys_of self.now }
        ensures runs { ShowsInOrder (deref {X = K}) }
        ensures runs_back { ShowsInReverse (deref {X = K}) }
    {
        self.table.keys()
    }

    /// Returns an iterator over the values, ascending by key. It can be used from the back.
    ///
    /// # Cost
    /// That of [`iter`](FrozenBTreeMapIn::iter).
    pub fn values(&self) -> Values<'_, K, V::Borrow>
        ensures rest { result ≡ values_of self.now }
        ensures runs { ShowsInOrder (deref {X = V.Borrow}) }
        ensures runs_back { ShowsInReverse (deref {X = V.Borrow}) }
    {
        self.table.values()
    }

    /// Returns an iterator over the entries whose keys are in the range, ascending. It can be used
    /// from the back.
    ///
    /// The start of the range must not be after its end, as it is in `5..3`.
    ///
    /// # Cost
    /// `O(log n)`, and `O(1)` on average for each entry. It allocates nothing.
    pub fn range<G: RangeBounds<K> + Drop>(&self, range: G) -> Range<'_, K, V::Borrow>
        requires { G.is_forward range (IsLeBy K.cmp) (IsLtBy K.cmp) }
        ensures between { G.has_bounds range →
            result ≡ entries_between K.cmp (G.start_bound range) (G.end_bound range) self.now }
        ensures runs { ShowsInOrder (deref_pair {K = K} {X = V.Borrow}) }
        ensures runs_back { ShowsInReverse (deref_pair {K = K} {X = V.Borrow}) }
    {
        self.table.range(range)
    }

    /// Returns the entry with the least key, or `None` if the map is empty.
    ///
    /// # Cost
    /// `O(log n)`.
    pub fn first_key_value(&self) -> Option<(K, V::Borrow)>
    where
        K: Copy,
        ensures { result ≡ slice_get self.now 0 }
    {
        let (key, value) = self.table.first_key_value()?;
        Some((*key, *value))
    }

    /// Returns the entry with the greatest key, or `None` if the map is empty.
    ///
    /// # Cost
    /// `O(log n)`.
    pub fn last_key_value(&self) -> Option<(K, V::Borrow)>
    where
        K: Copy,
        ensures { result ≡ slice_get self.now (length self.now - 1) }
    {
        let (key, value) = self.table.last_key_value()?;
        Some((*key, *value))
    }

    /// Makes a map of the pairs, in which the last value of a key wins, unlike in insertions. Which
    /// of several equal keys is stored is unspecified.
    ///
    /// # Errors
    /// Fails if an allocation fails. What was collected is dropped.
    ///
    /// # Cost
    /// `O(n log n)`.
    pub fn from_iter<I: IntoIterator<Item = (K, V)>>(
        alloc: A,
        arena: R,
        pairs: I,
    ) -> Result<Self, AllocError>
        requires ends { (s : I.IntoIter) → I.into_iter_gives pairs s →
            I.IntoIter.can_next s × IsFinite (I.IntoIter.remaining s) }
        ensures collects { IfOk result (λ m.
            (s : I.IntoIter) × (xs : List (K × V)) × I.into_iter_gives pairs s
            × Drains I.IntoIter.next_gives s xs × HoldsLast (eq_by_cmp K.cmp) V.target V.shown xs m) }
    {
        let mut tree = BTreeMap::new(alloc);
        for pair in pairs {
            let (key, value) = pair;
            let Ok(placed) = value.place(arena) else {
                return Err(AllocError);
            };
            tree.insert(key, placed)?;
        }
        Ok(FrozenBTreeMapIn::from_map(alloc, arena, tree))
    }

    /// Makes a map with the same entries over the same arena, which shares the values. Later
    /// insertions into one of the two don't change the other.
    ///
    /// # Errors
    /// Fails if an allocation fails, or if the `clone` of a key fails.
    ///
    /// # Cost
    /// `O(n)`.
    pub fn clone(&self) -> Result<Self, AllocError>
    where
        K: Clone,
        requires equal_clones { (k c : K) → K.is_clone k c → K.eq k c ≡ true }
        ensures content { IfOk result (λ copy.
            SameAt (value_at (eq_by_cmp K.cmp) self.now) (value_at (eq_by_cmp K.cmp) copy)) }
        ensures count { IfOk result (λ copy. length copy ≡ length self.now) }
    {
        let copy = copied(&self.table)?;
        Ok(FrozenBTreeMapIn::from_map(self.alloc, self.arena, copy))
    }
}

// Copies the tree whole: no key is searched for.
fn copied<K: Ord + Clone + Drop, B: Copy, A: Allocator + Copy>(
    tree: &BTreeMap<K, B, A>,
) -> Result<BTreeMap<K, B, A>, AllocError>
    requires equal_clones { (k c : K) → K.is_clone k c → K.eq k c ≡ true }
    ensures content { IfOk result (λ copy.
        SameAt (value_at (eq_by_cmp K.cmp) tree.now.entries)
        (value_at (eq_by_cmp K.cmp) copy.entries)) }
    ensures count { IfOk result (λ copy. length copy.entries ≡ length tree.now.entries) }
{
    let mut copy = tree.clone()?;
    // A type may define any clone of its values, so each entry gets the value of its source.
    let mut values = tree.values();
    let from_source = move |_key: &K, value: &mut B| -> bool
        ensures kept { result ≡ true }
        ensures in_order { (own : B) → (rest : List B) → values.entry ≡ own ∷ rest →
            (value.new ≡ own) × (values.exit ≡ rest) }
    {
        if let Some(own) = values.next() {
            *value = *own;
        }
        true
    };
    copy.retain(from_source);
    Ok(copy)
}

impl<'a, R: KeepsText<'a>, V: StableDeref<R>, A: Allocator + Copy> FrozenBTreeMapIn<
    R,
    &'a str,
    V,
    A,
> {
    /// Inserts the value unless the map has the text as a key, and returns the value that the text
    /// then has: [`insert`](Frozen::insert) for a text of any lifetime.
    ///
    /// If the map has the text, the given value is dropped and nothing is allocated. Otherwise the
    /// text is copied into the arena.
    ///
    /// # Errors
    /// Fails if the text is new and an allocation fails. The map is then unchanged. The arena may
    /// keep an unused copy of the text.
    ///
    /// # Cost
    /// One search for a present text, and two for a new one.
    pub fn insert_text(&mut self, key: &str, value: V) -> Result<V::Borrow, AllocError>
        ensures present { (x : V.Borrow) →
            value_at (eq_by_cmp ⟦<&'a str as Ord>⟧.cmp) self.old key.entry ≡ Some x →
            (result ≡ Ok x) × (self.new ≡ self.old) }
        ensures value_after { IfOk result (λ b.
            value_at (eq_by_cmp ⟦<&'a str as Ord>⟧.cmp) self.new key.entry ≡ Some b) }
        ensures added { value_at (eq_by_cmp ⟦<&'a str as Ord>⟧.cmp) self.old key.entry ≡ None →
            IfOk result (λ b. AddsNew (eq_by_cmp ⟦<&'a str as Ord>⟧.cmp) V.target V.shown self.old
            key.entry value b self.new) }
        ensures refused { OnErr result (
            IsRefused (eq_by_cmp ⟦<&'a str as Ord>⟧.cmp) self.old key.entry self.new) }
    {
        if let Some(found) = self.get(key) {
            return Ok(found);
        }
        let placed = self.arena.keep_text(key)?;
        self.insert(placed, value)
    }
}

/// `for (key, value) in &map` visits each entry once, ascending by key.
impl<'m, R: Copy, K: Ord + Drop, V: StableDeref<R>, A: Allocator + Copy> IntoIterator
    for &'m FrozenBTreeMapIn<R, K, V, A> {
    type Item = (&'m K, &'m V::Borrow);

    type IntoIter = Iter<'m, K, V::Borrow>;

    ghost into_iter_gives = { λ m it. (it ≡ m.now) × ShowsInOrder (deref_pair {K = K} {X = V.Borrow}) };

    fn into_iter(self) -> Iter<'m, K, V::Borrow> {
        self.iter()
    }
}

// Two maps are equal if each key has equal values in both, or none in either.
impl<R: Copy, K: Ord + Drop, V: StableDeref<R>, A: Allocator + Copy> PartialEq
    for FrozenBTreeMapIn<R, K, V, A>
where
    V::Borrow: PartialEq,
{
    ghost eq = { same_values (eq_by_cmp K.cmp) V.Borrow.eq };

    ghost laws = { same_values_laws (eq_by_cmp K.cmp) V.Borrow.eq (eq_by_cmp_equiv K.total) V.Borrow.laws };

    fn eq(&self, other: &Self) -> bool
        ensures decides { result ≡ same_values (eq_by_cmp K.cmp) V.Borrow.eq self.now other.now }
        ensures as_maps { IsTrue result
            ↔ IsEqualMap (eq_by_cmp K.cmp) V.Borrow.eq self.now other.now }
    {
        // The keys of both ascend.
        for_its_clause((self.len(), other.len()));
        self.table == other.table
    }
}

impl<R: Copy, K: Ord + Drop, V: StableDeref<R>, A: Allocator + Copy> Eq
    for FrozenBTreeMapIn<R, K, V, A>
where
    V::Borrow: Eq,
{
    ghost laws = { same_values_equivalence (eq_by_cmp K.cmp) V.Borrow.eq (eq_by_cmp_equiv K.total) V.Borrow.PartialEq.laws V.Borrow.Eq.laws };
}
