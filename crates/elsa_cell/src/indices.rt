//! What a map needs of the table that finds its keys: the trait [`Indices`], and its queries
//! ([`Seeks`]).
ghost use Rattle.std.specs.Prelude.{◌≡◌, ◌++◌, ◌∷◌, ◌<◌, [], Bool, List, None, Some, IfErr, IfOk, OnErr, length, position, slice_get};
ghost use Rattle.std.specs.Cmp.{IsEquivalence};

use std::alloc::AllocError;

/// A list of keys, each of which is read at its index.
pub trait KeyList<K> {
    // The keys.
    ghost keys: { Self → List K };

    /// Returns a reference to the key at an index. It allocates nothing.
    fn key_at(&self, index: usize) -> &K
        requires { index < length (keys self.now) }
        ensures { slice_get (keys self.now) index ≡ Some result.now };
}

/// A table that finds keys in a list to which keys are appended, none twice: it has the index of
/// each.
pub trait Indices<K> {
    // Whether two keys are equal.
    ghost same: { K → K → Bool };

    // The table has the index of each key of the list, no other index, and no two keys are equal.
    ghost is_for: { Self → List K → Type 0 };

    /// The end of a search that found no key.
    type End: Copy;

    // A search for the key ended here.
    ghost ends: { Self → List K → K → Self.End → Type 0 };

    // The table has room here for the index of the key, as the next one.
    ghost has_room: { Self → List K → K → Self.End → Type 0 };

    /// Returns the index of the key that equals `key`, or `Err` with the end of the search. It
    /// allocates nothing.
    fn seek<L: KeyList<K>>(&self, keys: &L, key: &K) -> Result<usize, Self::End>
        requires { is_for self.now (L.keys keys.now) }
        ensures found { IfOk result (λ i. position (same key.now) (L.keys keys.now) ≡ Some i) }
        ensures absent { OnErr result (position (same key.now) (L.keys keys.now) ≡ None) }
        ensures end { IfErr result (λ e. ends self.now (L.keys keys.now) key.now e) };

    /// Makes room for the index of another key, and returns where, for [`add`](Self::add). `end` is
    /// the end of a search for the key, after which the table was not changed.
    ///
    /// # Errors
    /// Fails if an allocation fails, or if the table has the greatest number of indices, 2^32 - 1.
    fn reserve(&mut self, end: Self::End) -> Result<Self::End, AllocError>
        requires { (keys : List K) × (key : K) × ends self.old keys key end }

        // No index changes.
        ensures stays { (keys : List K) → is_for self.old keys → is_for self.new keys }
        ensures room { IfOk result (λ e. (keys : List K) (key : K) →
            ends self.old keys key end → has_room self.new keys key e) };

    /// Makes room for `more` indices. No index changes.
    ///
    /// # Errors
    /// Fails if an allocation fails, or if the table would have more than the greatest number of
    /// indices, 2^32 - 1.
    fn reserve_more(&mut self, more: usize) -> Result<(), AllocError>
        ensures stays { (keys : List K) → is_for self.old keys → is_for self.new keys };

    /// Adds the next index, that of a key which is absent. `end` is the result of
    /// [`reserve`](Self::reserve), after which the table was not changed. It allocates nothing.
    fn add(&mut self, end: Self::End)
        requires { (keys : List K) × (key : K) × has_room self.old keys key end }
        ensures { (keys : List K) (key : K) → is_for self.old keys →
            has_room self.old keys key end → position (same key) keys ≡ None →
            is_for self.new (keys ++ key ∷ []) };

    // Whether two keys are equal is an equivalence.
    ghost equivalence: { IsEquivalence same };
}

/// A query that finds a key by the table `T`.
///
/// By a hash table ([`FrozenMap`](crate::FrozenMap)) each [`Query`](crate::Query) is one, and by an
/// ordered table ([`FrozenBTreeMap`](crate::FrozenBTreeMap)) each
/// [`OrderQuery`](crate::OrderQuery): so a reference to a key is one by either, and a `&str` is one
/// for `String` and `&str` keys.
pub trait Seeks<K, T: Indices<K>>: Copy {
    // Whether the query finds a key.
    ghost finds: { Self → K → Bool };

    /// Returns the index of the first key that the query finds, or `None` if it finds none. It
    /// allocates nothing.
    fn seek<L: KeyList<K>>(self, table: &T, keys: &L) -> Option<usize>
        requires { T.is_for table.now (L.keys keys.now) }
        ensures { result ≡ position (finds self) (L.keys keys.now) };

    /// Returns whether the query finds `key`. It allocates nothing.
    fn matches(&self, key: &K) -> bool
        ensures { result ≡ finds self.now key.now };
}
