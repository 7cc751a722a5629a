//! The ordered map under the lock of `FrozenBTreeMap`.
ghost use Rattle.std.specs.Prelude.{◌≡◌, List, [], Some, None, IfOk, MatchOption, OnErr, OnOk, IsTrue, ◌↔◌, length, slice_get, ◌+◌, ◌-◌, ◌<◌, if◌then◌else◌};
ghost use Rattle.std.specs.Arc.{arc_value};
ghost use Rattle.std.specs.BTreeMap.Range.{IsLeBy, IsLtBy, entries_between};
ghost use Rattle.std.specs.Iterator.{Drains, IsFinite};
ghost use Rattle.std.specs.List.{AllZip};
ghost use Rattle.std.specs.List.Sorted.{IsStrictlySortedBy};
ghost use Rattle.std.specs.Map.{keys_of};
ghost use Rattle.std.specs.Ordering.{eq_by_cmp};
ghost use Rattle.elsa_tables.specs.FirstWins.{value_at, IsSameContent, IsEqualMap, IsCollected, IsKeys, CloneIsEqual};
ghost use Rattle.elsa_locks.specs.Shared.{shown};
ghost use Rattle.elsa_tables.specs.Rules.{IsKept};
ghost use Rattle.elsa_locks.specs.Walks.{VisitsAll, IsCopyOf};

use super::State;
use super::walks::{copied_entry, visit};
use elsa_tables::{AnyEntries, EntryRule, for_its_clause};
use std::alloc::{AllocError, Allocator, Global};
use std::collections::BTreeMap;
use std::ops::RangeBounds;
use std::sync::Arc;

/// An ordered map in which the first value of a key stays. Values are shared as `Arc<V>`, and keys
/// are compared by their order.
///
/// Contracts see the list of its entries, in ascending order of the keys, with each value instead
/// of its `Arc`. `A` allocates the tree and each `Arc`.
/// `R` is a rule of the entries ([`EntryRule`]).
pub type TreeState<K, V, A = Global, R = AnyEntries> = State<K, V, BTreeMap<K, Arc<V, A>, A>, A, R>;

/// Stores an `Arc` at a key, and replaces the earlier one if there is one.
///
/// # Errors
/// Fails if an allocation fails. The entries are then unchanged.
#[tactic(auto, using(crate::proofs::Shared::shows))]
fn store<K: Ord + Drop, V: Drop, A: Allocator + Copy>(
    table: &mut BTreeMap<K, Arc<V, A>, A>,
    key: K,
    value: Arc<V, A>,
) -> Result<(), AllocError>
    ensures { OnOk result (
        (q : K) →
        value_at (eq_by_cmp K.cmp) (shown table.new.entries) q
        ≡ (if eq_by_cmp K.cmp key q then Some (arc_value value)
        else value_at (eq_by_cmp K.cmp) (shown table.old.entries) q)) }
{
    table.insert(key, value)?;
    Ok(())
}

impl<K: Ord + Drop, V, A: Allocator + Copy> State<K, V, BTreeMap<K, Arc<V, A>, A>, A> {
    /// Makes an empty map. It allocates nothing.
    pub fn new(alloc: A) -> Self
        ensures { result ≡ [] }
    {
        TreeState::with_rule(alloc)
    }

    /// Makes a map with the entries of `map`. It allocates nothing; later insertions use `alloc`.
    pub fn from_map(alloc: A, map: BTreeMap<K, Arc<V, A>, A>) -> Self
        ensures { result ≡ shown map.entries }
    {
        State::over(alloc, map)
    }
}

impl<K: Ord + Drop, V, A: Allocator + Copy, R: EntryRule<K, V>> State<
    K,
    V,
    BTreeMap<K, Arc<V, A>, A>,
    A,
    R,
> {
    /// Makes an empty map with a rule of its entries. It allocates nothing.
    pub fn with_rule(alloc: A) -> Self
        ensures { result ≡ [] }
    {
        State::over(alloc, BTreeMap::new(alloc))
    }

    /// Calls `f` with the key and the value of each entry, once for each, in ascending order of the
    /// keys. It allocates nothing.
    ///
    /// # Cost
    /// `O(n)`.
    pub fn for_each<F: FnMut(&K, &V) + Drop>(&self, f: F)
        requires { F.IsAlwaysCallable f }
        ensures { VisitsAll F.FnMut f self.now }
    {
        visit(self.table.iter(), f);
    }

    /// Calls `f` with the key and the value of each entry whose key is in the range, once for each,
    /// in ascending order of the keys. It allocates nothing.
    ///
    /// The range must not begin after its end, as `5..3` does.
    ///
    /// # Cost
    /// `O(log n)`, and `O(1)` on average for each entry.
    pub fn for_each_in_range<G: RangeBounds<K> + Drop, F: FnMut(&K, &V) + Drop>(
        &self,
        range: G,
        f: F,
    )
        requires forward { G.is_forward range (IsLeBy K.cmp) (IsLtBy K.cmp) }
        requires callable { F.IsAlwaysCallable f }
        ensures { G.has_bounds range → VisitsAll F.FnMut f
            (entries_between K.cmp (G.start_bound range) (G.end_bound range) self.now) }
    {
        visit(self.table.range(range), f);
    }

    /// Returns a clone of each key, each once, in ascending order.
    ///
    /// # Errors
    /// Fails if an allocation fails, or if a key's `clone` fails.
    ///
    /// # Allocates
    /// The list, once, and what the clones allocate.
    ///
    /// # Cost
    /// `O(n)`.
    #[tactic(auto, using(crate::proofs::Shared::shows))]
    pub fn keys_cloned(&self) -> Result<Vec<K, A>, AllocError>
    where
        K: Clone,
        requires { CloneIsEqual K.is_clone K.eq }
        ensures clones { IfOk result (λ v. AllZip K.is_clone (keys_of self.now) v.items) }
        ensures keys { IfOk result (λ v.
            IsKeys (eq_by_cmp K.cmp) (value_at (eq_by_cmp K.cmp) self.now) v.items) }
    {
        let mut keys = Vec::with_capacity(self.alloc, self.len())?;
        for key in self.table.keys() {
            keys.push(key.clone()?)?;
        }
        Ok(keys)
    }

    /// Returns a clone of the least key and an `Arc` of its value, or `None` if the map is empty.
    ///
    /// # Errors
    /// Fails if the key's `clone` fails, or if the `Arc` has the maximum number of owners.
    ///
    /// # Cost
    /// `O(log n)`.
    pub fn first_key_value_cloned(&self) -> Result<Option<(K, Arc<V, A>)>, AllocError>
    where
        K: Clone,
        V: Drop,
        ensures answer { IfOk result (λ a.
            MatchOption a (self.now ≡ []) (IsCopyOf K.is_clone (slice_get self.now 0))) }
        ensures only_present { OnErr result (0 < length self.now) }
    {
        copied_entry(self.table.first_key_value())
    }

    /// Returns a clone of the greatest key and an `Arc` of its value, or `None` if the map is
    /// empty.
    ///
    /// # Errors
    /// Fails if the key's `clone` fails, or if the `Arc` has the maximum number of owners.
    ///
    /// # Cost
    /// `O(log n)`.
    pub fn last_key_value_cloned(&self) -> Result<Option<(K, Arc<V, A>)>, AllocError>
    where
        K: Clone,
        V: Drop,
        ensures answer { IfOk result (λ a. MatchOption a (self.now ≡ [])
            (IsCopyOf K.is_clone (slice_get self.now (length self.now - 1)))) }
        ensures only_present { OnErr result (0 < length self.now) }
    {
        copied_entry(self.table.last_key_value())
    }

    /// Makes a map with the same content, which shares the values. Later insertions into one of the
    /// two don't change the other.
    ///
    /// # Errors
    /// Fails if an allocation fails, if a key's `clone` fails, or if an `Arc` has the maximum
    /// number of owners.
    ///
    /// # Cost
    /// `O(n)`.
    pub fn copy(&self) -> Result<Self, AllocError>
    where
        K: Clone,
        V: Drop,
        requires { CloneIsEqual K.is_clone K.eq }
        ensures { IfOk result (IsSameContent (eq_by_cmp K.cmp) self.now) }
    {
        Ok(State::over(self.alloc, self.table.clone()?))
    }

    /// Returns whether both maps have the same keys, with values that are equal by `==`. It
    /// allocates nothing.
    ///
    /// # Cost
    /// `O(n)`.
    pub fn same(&self, other: &Self) -> bool
    where
        V: PartialEq,
        ensures { IsTrue result ↔ IsEqualMap (eq_by_cmp K.cmp) V.eq self.now other.now }
    {
        // The contract of `len` has the fact that the keys are in ascending order.
        for_its_clause((self.len(), other.len()));
        self.table == other.table
    }
}

impl<K: Ord + Drop, V: Drop, A: Allocator + Copy> State<K, V, BTreeMap<K, Arc<V, A>, A>, A> {
    /// Makes a map of the iterator's pairs: each key has the value of its last pair.
    ///
    /// # Errors
    /// Fails if an allocation fails. The map is then dropped.
    ///
    /// # Cost
    /// `O(n log n)`.
    pub fn from_iter<I: IntoIterator<Item = (K, V)>>(alloc: A, items: I) -> Result<Self, AllocError>
        requires ends { (s : I.IntoIter) → I.into_iter_gives items s →
            I.IntoIter.can_next s × IsFinite (I.IntoIter.remaining s) }
        ensures { IfOk result (λ m.
            (s : I.IntoIter) × (pairs : List (K × V)) × I.into_iter_gives items s
            × Drains I.IntoIter.next_gives s pairs × IsCollected (eq_by_cmp K.cmp) pairs m) }
    {
        let mut table = BTreeMap::new(alloc);
        for (key, value) in items {
            let made = Arc::new(alloc, value)?;
            store(&mut table, key, made)?;
        }
        Ok(State::over(alloc, table))
    }
}

impl<K: Ord + Drop, V: Drop, A: Allocator + Copy, R: EntryRule<K, V>> State<
    K,
    V,
    BTreeMap<K, Arc<V, A>, A>,
    A,
    R,
> {
    /// Returns the entries, each once, in ascending order of the keys.
    ///
    /// # Errors
    /// Fails if an allocation fails. The map is then dropped.
    #[tactic(auto, using(crate::proofs::Shared::shows))]
    pub fn into_tuple_vec(self) -> Result<Vec<(K, Arc<V, A>), A>, AllocError>
        ensures pairs { IfOk result (λ v. shown v.items ≡ self) }
        ensures ascending { IfOk result (λ v. IsStrictlySortedBy K.cmp (keys_of v.items)) }
        ensures rule { IfOk result (λ v. IsKept (eq_by_cmp K.cmp) R.holds (shown v.items)) }
    {
        self.obeys_rule();
        let State {
            table,
            alloc,
            of: _of,
        } = self;
        let mut pairs = Vec::with_capacity(alloc, table.len())?;
        for pair in table {
            pairs.push(pair)?;
        }
        Ok(pairs)
    }
}
