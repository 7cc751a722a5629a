//! The ordered map under a lock.
ghost use Rattle.std.specs.Prelude.{◌≡◌, ◌-◌, [], IfOk, MatchOption, length, slice_get};
ghost use Rattle.std.specs.BTreeMap.Range.{IsLeBy, IsLtBy, entries_between};
ghost use Rattle.std.specs.List.{AllZip};
ghost use Rattle.std.specs.Ordering.{eq_by_cmp};
ghost use Rattle.std.specs.List.Sorted.{IsStrictlySortedBy};
ghost use Rattle.std.specs.Map.{keys_of};
ghost use Rattle.std.specs.Iterator.{IsFinite};
ghost use Rattle.elsa_tables.specs.FirstWins.{CloneIsEqual};
ghost use Rattle.elsa_locks.specs.Shared.{shown, AtAMoment};
ghost use Rattle.elsa_locks.specs.Walks.{IsCopyOf, VisitsAll};
ghost use Rattle.elsa_tables.specs.Rules.{IsKept};

use super::{Locked, TreeState};
use elsa_tables::{AnyEntries, EntryRule};
use std::alloc::{AllocError, Allocator, Global};
use std::collections::BTreeMap;
use std::ops::RangeBounds;
use std::sync::{Arc, RwLock, Wait};

/// An ordered map that threads share, in which the first value of a key stays. [`Locked`] documents
/// what runs under the lock.
///
/// Each call makes the call of the same name on a [`TreeState`]. `R` is a rule of the entries
/// ([`EntryRule`]).
pub type FrozenBTreeMap<K, V, A = Global, R = AnyEntries> = Locked<
    K,
    V,
    BTreeMap<K, Arc<V, A>, A>,
    A,
    R,
>;

impl<K: Ord + Drop, V, A: Allocator + Copy> Locked<K, V, BTreeMap<K, Arc<V, A>, A>, A> {
    /// Makes an empty map. It allocates nothing and takes no lock.
    pub fn new(alloc: A) -> Self {
        Locked {
            lock: RwLock::new(TreeState::new(alloc)),
        }
    }

    /// Makes a map with the entries of `map`. It allocates nothing; later insertions use `alloc`.
    pub fn from_map(alloc: A, map: BTreeMap<K, Arc<V, A>, A>) -> Self {
        Locked {
            lock: RwLock::new(TreeState::from_map(alloc, map)),
        }
    }
}

impl<K: Ord + Drop, V, A: Allocator + Copy, R: EntryRule<K, V>> Locked<
    K,
    V,
    BTreeMap<K, Arc<V, A>, A>,
    A,
    R,
> {
    /// Makes an empty map with a rule of its entries. It allocates nothing and takes no lock.
    pub fn with_rule(alloc: A) -> Self {
        Locked {
            lock: RwLock::new(TreeState::with_rule(alloc)),
        }
    }

    /// Calls `f` with the key and the value of each entry, once for each, in ascending order of the
    /// keys. It allocates nothing.
    ///
    /// The call shares the lock until all entries were visited: insertions block until then, and
    /// other reads don't. A call on the same map in `f` can deadlock, even if it only reads.
    ///
    /// # Blocks
    /// While a thread writes or waits to write.
    ///
    /// # Cost
    /// `O(n)`.
    pub fn for_each<F: FnMut(&K, &V) + Drop>(&self, rt: &impl Wait, f: F)
        requires { F.IsAlwaysCallable f }
        ensures { AtAMoment (eq_by_cmp K.cmp) (IsStrictlySortedBy K.cmp) R.holds
            (VisitsAll F.FnMut f) }
    {
        let guard = self.lock.read(rt);
        let state = &*guard;
        state.obeys_rule();
        state.for_each(f);
    }

    /// Calls `f` with the key and the value of each entry whose key is in the range, once for each,
    /// in ascending order of the keys. It allocates nothing.
    ///
    /// The range must not begin after its end, as `5..3` does. The call shares the lock until all
    /// these entries were visited, as [`for_each`](Locked::for_each) does: a call on the same map
    /// in `f` can deadlock.
    ///
    /// # Blocks
    /// While a thread writes or waits to write.
    ///
    /// # Cost
    /// `O(log n)`, and `O(1)` on average for each entry.
    pub fn for_each_in_range<G: RangeBounds<K> + Drop, F: FnMut(&K, &V) + Drop>(
        &self,
        rt: &impl Wait,
        range: G,
        f: F,
    )
        requires forward { G.is_forward range (IsLeBy K.cmp) (IsLtBy K.cmp) }
        requires callable { F.IsAlwaysCallable f }
        ensures { AtAMoment (eq_by_cmp K.cmp) (IsStrictlySortedBy K.cmp) R.holds (λ es.
            G.has_bounds range → VisitsAll F.FnMut f
            (entries_between K.cmp (G.start_bound range) (G.end_bound range) es)) }
    {
        let guard = self.lock.read(rt);
        let state = &*guard;
        state.obeys_rule();
        state.for_each_in_range(range, f);
    }

    /// Returns a clone of each key, each once, in ascending order. The keys' `Clone` runs while
    /// this call shares the lock.
    ///
    /// # Errors
    /// Fails if an allocation fails, or if a key's `clone` fails.
    ///
    /// # Blocks
    /// While a thread writes or waits to write.
    ///
    /// # Cost
    /// `O(n)`.
    pub fn keys_cloned(&self, rt: &impl Wait) -> Result<Vec<K, A>, AllocError>
    where
        K: Clone,
        requires { CloneIsEqual K.is_clone K.eq }
        ensures { IfOk result (λ v. AtAMoment (eq_by_cmp K.cmp) (IsStrictlySortedBy K.cmp) R.holds
            (λ es. AllZip K.is_clone (keys_of es) v.items)) }
    {
        let guard = self.lock.read(rt);
        let state = &*guard;
        state.obeys_rule();
        state.keys_cloned()
    }

    /// Returns a clone of the least key and an `Arc` of its value, or `None` if the map is empty.
    /// The key's `Clone` runs while this call shares the lock.
    ///
    /// # Errors
    /// Fails if the key's `clone` fails, or if the `Arc` has the maximum number of owners.
    ///
    /// # Blocks
    /// While a thread writes or waits to write.
    ///
    /// # Cost
    /// `O(log n)`.
    pub fn first_key_value_cloned(
        &self,
        rt: &impl Wait,
    ) -> Result<Option<(K, Arc<V, A>)>, AllocError>
    where
        K: Clone,
        V: Drop,
        ensures { IfOk result (λ a. AtAMoment (eq_by_cmp K.cmp) (IsStrictlySortedBy K.cmp) R.holds
            (λ es. MatchOption a (es ≡ []) (IsCopyOf K.is_clone (slice_get es 0)))) }
    {
        let guard = self.lock.read(rt);
        let state = &*guard;
        state.obeys_rule();
        state.first_key_value_cloned()
    }

    /// Returns a clone of the greatest key and an `Arc` of its value, or `None` if the map is
    /// empty. The key's `Clone` runs while this call shares the lock.
    ///
    /// # Errors
    /// Fails if the key's `clone` fails, or if the `Arc` has the maximum number of owners.
    ///
    /// # Blocks
    /// While a thread writes or waits to write.
    ///
    /// # Cost
    /// `O(log n)`.
    pub fn last_key_value_cloned(
        &self,
        rt: &impl Wait,
    ) -> Result<Option<(K, Arc<V, A>)>, AllocError>
    where
        K: Clone,
        V: Drop,
        ensures { IfOk result (λ a. AtAMoment (eq_by_cmp K.cmp) (IsStrictlySortedBy K.cmp) R.holds
            (λ es. MatchOption a (es ≡ [])
            (IsCopyOf K.is_clone (slice_get es (length es - 1))))) }
    {
        let guard = self.lock.read(rt);
        let state = &*guard;
        state.obeys_rule();
        state.last_key_value_cloned()
    }

    /// Makes a map with the same content, which shares the values. Later insertions into one of the
    /// two don't change the other. The keys' `Clone` runs while this call shares the lock.
    ///
    /// # Errors
    /// Fails if an allocation fails, if a key's `clone` fails, or if an `Arc` has the maximum
    /// number of owners.
    ///
    /// # Blocks
    /// While a thread writes or waits to write.
    ///
    /// # Cost
    /// `O(n)`.
    pub fn clone(&self, rt: &impl Wait) -> Result<Self, AllocError>
    where
        K: Clone,
        V: Drop,
        requires { CloneIsEqual K.is_clone K.eq }
    {
        let copied = self.lock.read(rt).copy()?;
        Ok(Locked {
            lock: RwLock::new(copied),
        })
    }

    /// Returns whether both maps have the same keys, with values that are equal by `==`.
    ///
    /// The call copies the content of `self` under its lock, releases the lock, and compares the
    /// copy under the lock of `other`. So a map may be compared with itself, and two threads may
    /// compare two maps with each other in both directions. `==` runs while this call shares the
    /// lock of `other`.
    ///
    /// # Errors
    /// Fails if the copy fails, as [`clone`](Locked::clone) does.
    ///
    /// # Blocks
    /// While a thread writes to one of the maps or waits to write.
    ///
    /// # Cost
    /// `O(n)`.
    pub fn equals(&self, rt: &impl Wait, other: &Self) -> Result<bool, AllocError>
    where
        K: Clone,
        V: PartialEq + Drop,
        requires { CloneIsEqual K.is_clone K.eq }
    {
        let copied = self.lock.read(rt).copy()?;
        let equal = other.lock.read(rt).same(&copied);
        Ok(equal)
    }
}

impl<K: Ord + Drop, V: Drop, A: Allocator + Copy> Locked<K, V, BTreeMap<K, Arc<V, A>, A>, A> {
    /// Makes a map of the iterator's pairs: each key has the value of its last pair. It takes no
    /// lock.
    ///
    /// # Errors
    /// Fails if an allocation fails. The map is then dropped.
    ///
    /// # Cost
    /// `O(n log n)`.
    pub fn from_iter<I: IntoIterator<Item = (K, V)>>(alloc: A, items: I) -> Result<Self, AllocError>
        requires ends { (s : I.IntoIter) → I.into_iter_gives items s →
            I.IntoIter.can_next s × IsFinite (I.IntoIter.remaining s) }
    {
        let made = TreeState::from_iter(alloc, items)?;
        Ok(Locked {
            lock: RwLock::new(made),
        })
    }
}

impl<K: Ord + Drop, V: Drop, A: Allocator + Copy, R: EntryRule<K, V>> Locked<
    K,
    V,
    BTreeMap<K, Arc<V, A>, A>,
    A,
    R,
> {
    /// Returns the entries, each once, in ascending order of the keys. It takes no lock, since the
    /// caller owns the map.
    ///
    /// # Errors
    /// Fails if an allocation fails. The map is then dropped.
    pub fn into_tuple_vec(self) -> Result<Vec<(K, Arc<V, A>), A>, AllocError>
        ensures ascending { IfOk result (λ v. IsStrictlySortedBy K.cmp (keys_of v.items)) }
        ensures rule { IfOk result (λ v. IsKept (eq_by_cmp K.cmp) R.holds (shown v.items)) }
    {
        let Locked { lock } = self;
        lock.into_inner().into_tuple_vec()
    }
}
