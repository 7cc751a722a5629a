//! The hashed map under a lock.
ghost use Rattle.std.specs.Prelude.{IfOk};
ghost use Rattle.std.specs.List.{IsDistinct};
ghost use Rattle.std.specs.Map.{keys_of};
ghost use Rattle.elsa_tables.specs.FirstWins.{value_at, CloneIsEqual, IsKeys};
ghost use Rattle.elsa_locks.specs.Shared.{shown, AtAMoment};
ghost use Rattle.elsa_locks.specs.Walks.{VisitsAll};
ghost use Rattle.elsa_tables.specs.Rules.{IsKept};

use super::{Locked, MapState};
use elsa_tables::{AnyEntries, EntryRule};
use std::alloc::{AllocError, Allocator, Global};
use std::collections::HashMap;
use std::hash::{BuildHasher, BuildHasherDefault, FoldHasher, Hash};
use std::sync::{Arc, RwLock, Wait};

/// A hashed map that threads share, in which the first value of a key stays. [`Locked`] documents
/// what runs under the lock.
///
/// Each call makes the call of the same name on a [`MapState`]. `S` builds the hasher. If the keys
/// are untrusted input, use a `SeededState` of `elsa`. `R` is a rule of the entries
/// ([`EntryRule`]).
pub type FrozenMap<K, V, S = BuildHasherDefault<FoldHasher>, A = Global, R = AnyEntries> = Locked<
    K,
    V,
    HashMap<K, Arc<V, A>, S, A>,
    A,
    R,
>;

impl<K: Eq + Hash + Drop, V, S: BuildHasher, A: Allocator + Copy, R: EntryRule<K, V>> Locked<
    K,
    V,
    HashMap<K, Arc<V, A>, S, A>,
    A,
    R,
> {
    /// Makes an empty map with a rule of its entries, which hashes its keys by `hash_builder`. It
    /// allocates nothing and takes no lock.
    pub fn with_rule(alloc: A, hash_builder: S) -> Self {
        Locked {
            lock: RwLock::new(MapState::with_rule(alloc, hash_builder)),
        }
    }

    /// Calls `f` with the key and the value of each entry, once for each, in an unspecified order.
    /// It allocates nothing.
    ///
    /// The call shares the lock until all entries were visited: insertions block until then, and
    /// other reads don't. A call on the same map in `f` can deadlock, even if it only reads.
    ///
    /// # Blocks
    /// While a thread writes or waits to write.
    ///
    /// # Cost
    /// `O(n)`.
    pub fn for_each<F: FnMut(&K, &V) + Drop>(&self, rt: &impl Wait, f: F)
        requires { F.IsAlwaysCallable f }
        ensures { AtAMoment K.eq (λ _. Unit {0}) R.holds (VisitsAll F.FnMut f) }
    {
        let guard = self.lock.read(rt);
        let state = &*guard;
        state.obeys_rule();
        state.for_each(f);
    }

    /// Returns a clone of each key, each once, in an unspecified order. The keys' `Clone` runs
    /// while this call shares the lock.
    ///
    /// # Errors
    /// Fails if an allocation fails, or if a key's `clone` fails.
    ///
    /// # Blocks
    /// While a thread writes or waits to write.
    ///
    /// # Cost
    /// `O(n)`.
    pub fn keys_cloned(&self, rt: &impl Wait) -> Result<Vec<K, A>, AllocError>
    where
        K: Clone,
        requires { CloneIsEqual K.is_clone K.eq }
        ensures { IfOk result (λ v. AtAMoment K.eq (λ _. Unit {0}) R.holds (λ es.
            IsKeys K.eq (value_at K.eq es) v.items)) }
    {
        let guard = self.lock.read(rt);
        let state = &*guard;
        state.obeys_rule();
        state.keys_cloned()
    }

    /// Makes a map with the same content, which shares the values. Later insertions into one of the
    /// two don't change the other. The keys' `Clone` runs while this call shares the lock.
    ///
    /// # Errors
    /// Fails if an allocation fails, if the `clone` of a key or of the hash builder fails, or if an
    /// `Arc` has the maximum number of owners.
    ///
    /// # Blocks
    /// While a thread writes or waits to write.
    ///
    /// # Cost
    /// `O(n)`.
    pub fn clone(&self, rt: &impl Wait) -> Result<Self, AllocError>
    where
        K: Clone,
        V: Drop,
        S: Clone,
        requires { CloneIsEqual K.is_clone K.eq }
    {
        let copied = self.lock.read(rt).copy()?;
        Ok(Locked {
            lock: RwLock::new(copied),
        })
    }

    /// Returns whether both maps have the same keys, with values that are equal by `==`.
    ///
    /// The call copies the content of `self` under its lock, releases the lock, and compares the
    /// copy under the lock of `other`. So a map may be compared with itself, and two threads may
    /// compare two maps with each other in both directions. `==` runs while this call shares the
    /// lock of `other`.
    ///
    /// # Errors
    /// Fails if the copy fails, as [`clone`](Locked::clone) does.
    ///
    /// # Blocks
    /// While a thread writes to one of the maps or waits to write.
    ///
    /// # Cost
    /// `O(n)`.
    pub fn equals(&self, rt: &impl Wait, other: &Self) -> Result<bool, AllocError>
    where
        K: Clone,
        V: PartialEq + Drop,
        S: Clone + Drop,
        requires { CloneIsEqual K.is_clone K.eq }
    {
        let copied = self.lock.read(rt).copy()?;
        let equal = other.lock.read(rt).same(&copied);
        Ok(equal)
    }
}

impl<K: Eq + Hash + Drop, V, A: Allocator + Copy> Locked<
    K,
    V,
    HashMap<K, Arc<V, A>, BuildHasherDefault<FoldHasher>, A>,
    A,
> {
    /// Makes an empty map. It allocates nothing and takes no lock.
    pub fn new(alloc: A) -> Self {
        Locked {
            lock: RwLock::new(MapState::new(alloc)),
        }
    }
}

impl<K: Eq + Hash + Drop, V, S: BuildHasher, A: Allocator + Copy> Locked<
    K,
    V,
    HashMap<K, Arc<V, A>, S, A>,
    A,
> {
    /// Makes an empty map that hashes its keys by `hash_builder`. It allocates nothing and takes no
    /// lock.
    pub fn with_hasher(alloc: A, hash_builder: S) -> Self {
        Locked {
            lock: RwLock::new(MapState::with_hasher(alloc, hash_builder)),
        }
    }
}

impl<K: Eq + Hash + Drop, V, A: Allocator + Copy, R: EntryRule<K, V>> Locked<
    K,
    V,
    HashMap<K, Arc<V, A>, BuildHasherDefault<FoldHasher>, A>,
    A,
    R,
> {
    /// Returns the entries, each once, in an unspecified order. It takes no lock, since the caller
    /// owns the map.
    ///
    /// # Errors
    /// Fails if an allocation fails. The map is then dropped.
    pub fn into_tuple_vec(self) -> Result<Vec<(K, Arc<V, A>), A>, AllocError>
    where
        V: Drop,
        ensures distinct { IfOk result (λ v. IsDistinct K.eq (keys_of v.items)) }
        ensures rule { IfOk result (λ v. IsKept K.eq R.holds (shown v.items)) }
    {
        let Locked { lock } = self;
        lock.into_inner().into_tuple_vec()
    }
}
