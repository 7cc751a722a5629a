//! [`ShardedMap`]: a hashed map of locked shards.
ghost use Rattle.std.specs.Prelude.{◌≡◌, ◌↔◌, ◌<◌, true, IfOk, IfSome, IsTrue, flat_map, length};
ghost use Rattle.std.specs.Arc.{arc_value};
ghost use Rattle.std.specs.Fn.{FnOnceReturnsAt, FnOnceTakesAt};
ghost use Rattle.elsa_locks.specs.Shared.{shown};
ghost use Rattle.elsa_tables.specs.Rules.{HoldsAt};
ghost use Rattle.elsa_shards.specs.Shards.{AtMoments, count_in_all, shard_of, spread_over};

use elsa_locks::map::FrozenMap;
use elsa_tables::{AnyEntries, EntryRule, Seeks};
use std::alloc::{AllocError, Allocator, Global};
use std::collections::HashMap;
use std::hash::{BuildHasher, BuildHasherDefault, FoldHasher, Hash};
use std::marker::Model;
use std::sync::{Arc, Wait};

/// The number of shards of [`ShardedMap::new`].
pub(crate) const SHARDS: usize = 64;

/// Returns one of `count` indices for a hash.
#[inline(always)]
#[tactic(auto, unfolding(crate::specs::Shards::spread_over))]
fn spread(hash: u64, count: usize) -> usize
    requires { 0 < count }
    ensures within { result < count }
    ensures chosen { result ≡ spread_over count hash }
{
    let upper = (hash.wrapping_mul(0x9E37_79B9_7F4A_7C15) >> 32) as usize;
    // By a constant it is no division, which takes a tenth of a look-up.
    if count == SHARDS {
        upper % SHARDS
    } else {
        upper % count
    }
}

/// Returns the index of the shard, of `count`, of the keys that are hashed like `query`.
#[tactic(auto, unfolding(crate::specs::Shards::shard_of))]
pub(crate) fn index_of<Q: Hash + Copy, S: BuildHasher>(
    hash_builder: &S,
    query: Q,
    count: usize,
) -> usize
    requires { 0 < count }
    ensures within { result < count }
    ensures chosen { result ≡ shard_of S.BuildHasher S.Hasher.Hasher hash_builder.now count
        (Q.hash_input query) }
{
    spread(hash_builder.hash_one(query), count)
}

/// A hashed map that threads share, in which the first value of a key stays, divided into shards
/// that have a lock each.
///
/// A key belongs to one shard, which its hash chooses. A call with a key makes the call of the same
/// name on the [`FrozenMap`](elsa_locks::map::FrozenMap) of that shard, and waits only for calls on
/// the same shard.
///
/// [`shards`](ShardedMap::shards) returns the shards, to visit all entries. A visit locks one shard
/// at a time. Entries are never removed, so it sees each entry that the map had when it began. It
/// may also see entries that other threads insert meanwhile.
///
/// Take a [`FrozenMap`](elsa_locks::map::FrozenMap) instead if a call must see the whole map at one
/// moment. `S` builds the hasher. If the keys are untrusted input, use a `SeededState` of `elsa`.
/// `R` is a rule of the entries ([`EntryRule`]).
#[derive(Drop)]
pub struct ShardedMap<
    K: Eq + Hash + Drop,
    V,
    S: BuildHasher = BuildHasherDefault<FoldHasher>,
    A: Allocator + Copy = Global,
    R: EntryRule<K, V> = AnyEntries,
> {
    // A key is in the shard that its hash chooses.
    shards: Vec<FrozenMap<K, V, S, A, R>, A>,
    hash_builder: S,
}

// In a clause, a map is the number of its shards and its hash builder.
impl<K, V, S: BuildHasher, A: Allocator + Copy, R: EntryRule<K, V>> Model
    for ShardedMap<K, V, S, A, R>
where
    K: Eq + Hash + Drop,
{
    ghost use Rattle.std.specs.Prelude.{ℕ, length, ◌<◌};

    ghost Value = { ℕ × S };

    ghost view = { λ m. (length m.shards.items, m.hash_builder) };

    // A key's shard is its hash modulo the number of shards, so there is one.
    ghost invariant = { λ m. 0 < length m.shards.items };
}

impl<K: Eq + Hash + Drop, V: Drop, A: Allocator + Copy> ShardedMap<
    K,
    V,
    BuildHasherDefault<FoldHasher>,
    A,
> {
    /// Makes an empty map with 64 shards.
    ///
    /// # Errors
    /// Fails if an allocation fails.
    ///
    /// # Allocates
    /// The list of shards.
    pub fn new(alloc: A) -> Result<Self, AllocError>
        ensures { IfOk result (λ m. m.0 ≡ 64) }
    {
        ShardedMap::with_shards(alloc, SHARDS, BuildHasherDefault::new())
    }
}

impl<K: Eq + Hash + Drop, V: Drop, S: BuildHasher + Clone + Drop, A: Allocator + Copy> ShardedMap<
    K,
    V,
    S,
    A,
> {
    /// Makes an empty map with `count` shards that hashes its keys by `hash_builder`.
    ///
    /// More shards let more threads insert at the same time; an empty shard takes some 170 bytes.
    ///
    /// # Errors
    /// Fails if an allocation fails, or if `hash_builder` can't be cloned.
    ///
    /// # Allocates
    /// The list of shards.
    pub fn with_shards(alloc: A, count: usize, hash_builder: S) -> Result<Self, AllocError>
        requires { 0 < count }
        ensures count { IfOk result (λ m. m.0 ≡ count) }
        ensures same_hasher { IfOk result (λ m. m.1 ≡ hash_builder) }
    {
        ShardedMap::with_rule(alloc, count, hash_builder)
    }
}

impl<K, V: Drop, S: BuildHasher + Clone + Drop, A: Allocator + Copy, R: EntryRule<K, V>> ShardedMap<
    K,
    V,
    S,
    A,
    R,
>
where
    K: Eq + Hash + Drop,
{
    /// Makes an empty map with a rule of its entries: [`with_shards`](Self::with_shards) for any
    /// rule.
    ///
    /// # Errors
    /// Fails as `with_shards` does.
    ///
    /// # Allocates
    /// The list of shards.
    pub fn with_rule(alloc: A, count: usize, hash_builder: S) -> Result<Self, AllocError>
        requires { 0 < count }
        ensures count { IfOk result (λ m. m.0 ≡ count) }
        ensures same_hasher { IfOk result (λ m. m.1 ≡ hash_builder) }
    {
        let mut shards = Vec::with_capacity(alloc, count)?;
        for _ in 0..count {
            shards.push(FrozenMap::with_rule(alloc, hash_builder.clone()?))?;
        }
        Ok(ShardedMap {
            shards,
            hash_builder,
        })
    }
}

impl<K, V: Drop, S: BuildHasher, A: Allocator + Copy, R: EntryRule<K, V>> ShardedMap<K, V, S, A, R>
where
    K: Eq + Hash + Drop,
{
    /// Returns the number of shards.
    pub fn shard_count(&self) -> usize
        ensures { result ≡ self.now.0 }
    {
        self.shards.len()
    }

    /// Returns the shards. Each has the entries whose keys belong to it: to visit all entries,
    /// visit those of each shard.
    ///
    /// # Cost
    /// `O(1)`.
    pub fn shards(&self) -> &[FrozenMap<K, V, S, A, R>]
        ensures { length result.now ≡ self.now.0 }
    {
        self.shards.as_slice()
    }

    /// Returns the index of the shard of the keys that are hashed like `query`.
    ///
    /// # Cost
    /// One hash.
    pub fn shard_index<Q: Hash + Copy>(&self, query: Q) -> usize
        ensures within { result < self.now.0 }
        ensures chosen { result
            ≡ shard_of S.BuildHasher S.Hasher.Hasher self.now.1 self.now.0 (Q.hash_input query) }
    {
        index_of(&self.hash_builder, query, self.shards.len())
    }

    // Returns the shard of the keys that are hashed like `query`.
    fn shard<Q: Hash + Copy>(&self, query: Q) -> &FrozenMap<K, V, S, A, R> {
        let index = self.shard_index(query);
        &self.shards[index]
    }

    /// Returns an `Arc` of the value at the key that `query` finds, or `None` if the map has no
    /// such key.
    ///
    /// A reference to a key is a query, and so is a `&str` if the keys are texts: [`Seeks`] lists
    /// them. A query must be hashed like the keys that it finds.
    ///
    /// # Errors
    /// Fails if the map has the key and the `Arc` has the maximum number of owners.
    ///
    /// # Blocks
    /// While a thread writes to the key's shard or waits to write to it.
    ///
    /// # Cost
    /// Two hashes and one search.
    pub fn get<Q>(&self, rt: &impl Wait, query: Q) -> Result<Option<Arc<V, A>>, AllocError>
    where
        Q: Hash + Seeks<HashMap<K, Arc<V, A>, S, A>, K, Arc<V, A>>,
        ensures { IfOk result (λ found. IfSome found (λ a.
            HoldsAt R.holds (Q.finds query) (arc_value a))) }
    {
        self.shard(query).get(rt, query)
    }

    /// Calls `f` once, with the value at the key that `query` finds, and returns the result.
    /// Returns `None`, without a call, if the map has no such key.
    ///
    /// The shard's lock is released before `f` is called, so `f` may call the same map. Exception:
    /// if the `Arc` has the maximum number of owners, `f` runs while this call shares the lock.
    ///
    /// # Blocks
    /// While a thread writes to the key's shard or waits to write to it.
    ///
    /// # Cost
    /// Two hashes and one search.
    pub fn map_get<X, Q, F>(&self, rt: &impl Wait, query: Q, f: F) -> Option<X>
    where
        Q: Hash + Seeks<HashMap<K, Arc<V, A>, S, A>, K, Arc<V, A>>,
        F: FnOnce(&V) -> X + Drop,
        requires { (v : V) → HoldsAt R.holds (Q.finds query) v → FnOnceTakesAt F.FnOnce f v }
        ensures { IfSome result (λ r.
            (v : V) × HoldsAt R.holds (Q.finds query) v × FnOnceReturnsAt F.FnOnce f v r) }
    {
        self.shard(query).map_get(rt, query, f)
    }

    /// Inserts the value unless the map has the key. Returns an `Arc` of the value that the key
    /// then has, and whether the key was new.
    ///
    /// If the map has the key, the given key is dropped under the shard's lock, and the given value
    /// after the lock is released.
    ///
    /// # Errors
    /// Fails if an allocation fails, or if the `Arc` has the maximum number of owners. The map is
    /// then unchanged.
    ///
    /// # Blocks
    /// While another thread has the lock of the key's shard.
    ///
    /// # Cost
    /// Two hashes and one search.
    pub fn insert_new(
        &self,
        rt: &impl Wait,
        key: K,
        value: V,
    ) -> Result<(Arc<V, A>, bool), AllocError>
        requires { R.holds key value }
        ensures holds { IfOk result (λ r. HoldsAt R.holds (K.eq key) (arc_value r.0)) }
        ensures own_value { IfOk result (λ r. r.1 ≡ true → arc_value r.0 ≡ value) }
    {
        self.shard(&key).insert_new(rt, key, value)
    }

    /// Inserts the value unless the map has the key, and returns an `Arc` of the value that the key
    /// then has.
    ///
    /// # Errors
    /// Fails as [`insert_new`](Self::insert_new) does.
    ///
    /// # Blocks
    /// While another thread has the lock of the key's shard.
    ///
    /// # Cost
    /// Two hashes and one search.
    pub fn insert(&self, rt: &impl Wait, key: K, value: V) -> Result<Arc<V, A>, AllocError>
        requires { R.holds key value }
        ensures { IfOk result (λ a. HoldsAt R.holds (K.eq key) (arc_value a)) }
    {
        self.shard(&key).insert(rt, key, value)
    }

    /// Inserts the result of `f` unless the map has the key, and returns an `Arc` of the value that
    /// the key then has.
    ///
    /// `f` is called only if the key is absent and the shard has room for it. It runs under the
    /// shard's lock, so a call with a key of the same shard in it can deadlock.
    ///
    /// # Errors
    /// Fails as [`insert_new`](Self::insert_new) does.
    ///
    /// # Blocks
    /// While another thread has the lock of the key's shard.
    ///
    /// # Cost
    /// Two hashes and one search.
    pub fn insert_with<F: FnOnce() -> V + Drop>(
        &self,
        rt: &impl Wait,
        key: K,
        f: F,
    ) -> Result<Arc<V, A>, AllocError>
        requires callable { F.IsAlwaysCallable f }
        requires holds { (v : V) → F.post f v → R.holds key v }
        ensures { IfOk result (λ a. HoldsAt R.holds (K.eq key) (arc_value a)) }
    {
        self.shard(&key).insert_with(rt, key, f)
    }

    /// Returns the number of entries: at least their number when the call began, and at most their
    /// number when it ended. It allocates nothing.
    ///
    /// # Blocks
    /// While a thread writes to a shard or waits to write to it, one shard after the other.
    ///
    /// # Cost
    /// The number of shards.
    pub fn len(&self, rt: &impl Wait) -> usize
        ensures { AtMoments K.eq R.holds self.now.0 (λ shards.
            result ≡ count_in_all length shards) }
    {
        let mut sum = 0usize;
        for shard in &self.shards {
            sum = sum.saturating_add(shard.len(rt));
        }
        sum
    }

    /// Returns whether no shard had an entry when the call visited it. It allocates nothing.
    ///
    /// # Blocks
    /// As [`len`](Self::len) does.
    pub fn is_empty(&self, rt: &impl Wait) -> bool
        ensures { AtMoments K.eq R.holds self.now.0 (λ shards.
            IsTrue result ↔ (count_in_all length shards ≡ 0)) }
    {
        self.len(rt) == 0
    }
}

impl<K, V: Copy + Drop, S: BuildHasher, A: Allocator + Copy, R: EntryRule<K, V>> ShardedMap<
    K,
    V,
    S,
    A,
    R,
>
where
    K: Eq + Hash + Drop,
{
    /// Returns a copy of the value at the key that `query` finds, or `None` if the map has no such
    /// key.
    ///
    /// # Blocks
    /// While a thread writes to the key's shard or waits to write to it.
    ///
    /// # Cost
    /// Two hashes and one search.
    pub fn get_copy<Q>(&self, rt: &impl Wait, query: Q) -> Option<V>
    where
        Q: Hash + Seeks<HashMap<K, Arc<V, A>, S, A>, K, Arc<V, A>>,
        ensures { IfSome result (HoldsAt R.holds (Q.finds query)) }
    {
        self.shard(query).get_copy(rt, query)
    }

    /// Inserts the value unless the map has the key, and returns a copy of the value that the key
    /// then has. If the map has the key, the call allocates nothing.
    ///
    /// # Errors
    /// Fails if the key is absent and an allocation fails. The map is then unchanged, and the key
    /// and the value are dropped.
    ///
    /// # Blocks
    /// While another thread has the lock of the key's shard.
    ///
    /// # Cost
    /// Two hashes and one search.
    pub fn get_copy_or_insert(&self, rt: &impl Wait, key: K, value: V) -> Result<V, AllocError>
        requires { R.holds key value }
        ensures { IfOk result (HoldsAt R.holds (K.eq key)) }
    {
        self.shard(&key).get_copy_or_insert(rt, key, value)
    }

    /// Inserts the result of `f` unless the map has the key, and returns a copy of the value that
    /// the key then has. If the map has the key, the call allocates nothing.
    ///
    /// `f` runs under the shard's lock, so a call with a key of the same shard in it can deadlock.
    ///
    /// # Errors
    /// Fails as [`get_copy_or_insert`](Self::get_copy_or_insert) does.
    ///
    /// # Blocks
    /// While another thread has the lock of the key's shard.
    ///
    /// # Cost
    /// Two hashes and one search.
    pub fn get_copy_or_insert_with<F: FnOnce() -> V + Drop>(
        &self,
        rt: &impl Wait,
        key: K,
        f: F,
    ) -> Result<V, AllocError>
        requires callable { F.IsAlwaysCallable f }
        requires holds { (v : V) → F.post f v → R.holds key v }
        ensures { IfOk result (HoldsAt R.holds (K.eq key)) }
    {
        self.shard(&key).get_copy_or_insert_with(rt, key, f)
    }
}

impl<K: Eq + Hash + Drop, V: Drop, A: Allocator + Copy, R: EntryRule<K, V>> ShardedMap<
    K,
    V,
    BuildHasherDefault<FoldHasher>,
    A,
    R,
> {
    /// Returns the entries, each once: those of the first shard, then those of the next one, each
    /// shard's in an unspecified order. It takes no lock, since the caller owns the map.
    ///
    /// # Errors
    /// Fails if an allocation fails. The map is then dropped.
    ///
    /// # Allocates
    /// The list, which grows, and for a time a list of each shard's entries.
    ///
    /// # Cost
    /// `O(n)` and the number of shards.
    pub fn into_tuple_vec(self) -> Result<Vec<(K, Arc<V, A>), A>, AllocError>
        ensures { IfOk result (λ v. AtMoments K.eq R.holds self.0 (λ shards.
            shown v.items ≡ flat_map (λ entries. entries) shards)) }
    {
        let ShardedMap {
            shards,
            hash_builder: _,
        } = self;
        let mut pairs = Vec::new(*shards.allocator());
        for shard in shards {
            let mut entries = shard.into_tuple_vec()?;
            pairs.append(&mut entries)?;
        }
        Ok(pairs)
    }
}
