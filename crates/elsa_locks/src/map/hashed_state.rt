//! The hashed map under the lock of `FrozenMap`.
ghost use Rattle.std.specs.Prelude.{◌≡◌, [], IfOk, IsTrue, ◌↔◌};
ghost use Rattle.std.specs.List.{IsDistinct, AllZip};
ghost use Rattle.std.specs.Map.{keys_of};
ghost use Rattle.elsa_tables.specs.FirstWins.{value_at, IsSameContent, IsEqualMap, IsKeys, CloneIsEqual};
ghost use Rattle.elsa_locks.specs.Shared.{shown};
ghost use Rattle.elsa_tables.specs.Rules.{IsKept};
ghost use Rattle.elsa_locks.specs.Walks.{VisitsAll};

use super::State;
use super::walks::visit;
use elsa_tables::{AnyEntries, EntryRule};
use std::alloc::{AllocError, Allocator, Global};
use std::collections::HashMap;
use std::hash::{BuildHasher, BuildHasherDefault, FoldHasher, Hash};
use std::sync::Arc;

/// A hashed map in which the first value of a key stays. Values are shared as `Arc<V>`, and keys
/// are compared by `==`.
///
/// Contracts see the list of its entries, in an unspecified order, with each value instead of its
/// `Arc`. `S` builds the hasher. `A` allocates the table and each `Arc`.
/// `R` is a rule of the entries ([`EntryRule`]).
pub type MapState<K, V, S = BuildHasherDefault<FoldHasher>, A = Global, R = AnyEntries> = State<
    K,
    V,
    HashMap<K, Arc<V, A>, S, A>,
    A,
    R,
>;

impl<K: Eq + Hash + Drop, V, A: Allocator + Copy> State<
    K,
    V,
    HashMap<K, Arc<V, A>, BuildHasherDefault<FoldHasher>, A>,
    A,
> {
    /// Makes an empty map. It allocates nothing.
    pub fn new(alloc: A) -> Self
        ensures { result ≡ [] }
    {
        MapState::with_rule(alloc, BuildHasherDefault::new())
    }
}

impl<K: Eq + Hash + Drop, V, S: BuildHasher, A: Allocator + Copy, R: EntryRule<K, V>> State<
    K,
    V,
    HashMap<K, Arc<V, A>, S, A>,
    A,
    R,
> {
    /// Makes an empty map with a rule of its entries, which hashes its keys by `hash_builder`. It
    /// allocates nothing.
    pub fn with_rule(alloc: A, hash_builder: S) -> Self
        ensures { result ≡ [] }
    {
        State::over(alloc, HashMap::with_hasher(alloc, hash_builder))
    }

    /// Calls `f` with the key and the value of each entry, once for each, in an unspecified order.
    /// It allocates nothing.
    ///
    /// # Cost
    /// `O(n)`.
    pub fn for_each<F: FnMut(&K, &V) + Drop>(&self, f: F)
        requires { F.IsAlwaysCallable f }
        ensures { VisitsAll F.FnMut f self.now }
    {
        visit(self.table.iter(), f);
    }

    /// Returns a clone of each key, each once, in an unspecified order.
    ///
    /// # Errors
    /// Fails if an allocation fails, or if a key's `clone` fails.
    ///
    /// # Allocates
    /// The list, once, and what the clones allocate.
    ///
    /// # Cost
    /// `O(n)`.
    #[tactic(auto, using(crate::proofs::Shared::shows))]
    pub fn keys_cloned(&self) -> Result<Vec<K, A>, AllocError>
    where
        K: Clone,
        requires { CloneIsEqual K.is_clone K.eq }
        ensures clones { IfOk result (λ v. AllZip K.is_clone (keys_of self.now) v.items) }
        ensures keys { IfOk result (λ v. IsKeys K.eq (value_at K.eq self.now) v.items) }
    {
        let mut keys = Vec::with_capacity(self.alloc, self.len())?;
        for key in self.table.keys() {
            keys.push(key.clone()?)?;
        }
        Ok(keys)
    }

    /// Makes a map with the same content, which shares the values. Later insertions into one of the
    /// two don't change the other.
    ///
    /// # Errors
    /// Fails if an allocation fails, if the `clone` of a key or of the hash builder fails, or if an
    /// `Arc` has the maximum number of owners.
    ///
    /// # Cost
    /// `O(n)`.
    pub fn copy(&self) -> Result<Self, AllocError>
    where
        K: Clone,
        V: Drop,
        S: Clone,
        requires { CloneIsEqual K.is_clone K.eq }
        ensures { IfOk result (IsSameContent K.eq self.now) }
    {
        Ok(State::over(self.alloc, self.table.clone()?))
    }

    /// Returns whether both maps have the same keys, with values that are equal by `==`. It
    /// allocates nothing.
    ///
    /// # Cost
    /// `O(n)`.
    pub fn same(&self, other: &Self) -> bool
    where
        V: PartialEq,
        ensures { IsTrue result ↔ IsEqualMap K.eq V.eq self.now other.now }
    {
        self.table == other.table
    }
}

impl<K: Eq + Hash + Drop, V, S: BuildHasher, A: Allocator + Copy> State<
    K,
    V,
    HashMap<K, Arc<V, A>, S, A>,
    A,
> {
    /// Makes an empty map that hashes its keys by `hash_builder`. It allocates nothing.
    pub fn with_hasher(alloc: A, hash_builder: S) -> Self
        ensures { result ≡ [] }
    {
        MapState::with_rule(alloc, hash_builder)
    }
}

impl<K: Eq + Hash + Drop, V, A: Allocator + Copy, R: EntryRule<K, V>> State<
    K,
    V,
    HashMap<K, Arc<V, A>, BuildHasherDefault<FoldHasher>, A>,
    A,
    R,
> {
    /// Returns the entries, each once, in an unspecified order.
    ///
    /// # Errors
    /// Fails if an allocation fails. The map is then dropped.
    #[tactic(auto, using(crate::proofs::Shared::shows))]
    pub fn into_tuple_vec(self) -> Result<Vec<(K, Arc<V, A>), A>, AllocError>
    where
        V: Drop,
        ensures pairs { IfOk result (λ v. shown v.items ≡ self) }
        ensures distinct { IfOk result (λ v. IsDistinct K.eq (keys_of v.items)) }
        ensures rule { IfOk result (λ v. IsKept K.eq R.holds (shown v.items)) }
    {
        self.obeys_rule();
        let State {
            table,
            alloc,
            of: _of,
        } = self;
        let mut pairs = Vec::with_capacity(alloc, table.len())?;
        for pair in table {
            pairs.push(pair)?;
        }
        Ok(pairs)
    }
}
