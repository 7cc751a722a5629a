//! [`LockFreeShardedMap`]: a map of shards whose look-ups take no lock.
ghost use Rattle.std.specs.Prelude.{◌≡◌, ◌⊎◌, ◌<◌, ◌≤◌, ◌^◌, [], true, false, All, IfOk, IfErr, IfSome, IfNone, OnErr, Ok, Err, alloc_error, flat_map, length, map, sum_by, vec_capacity, vec_len};
ghost use Rattle.elsa_lock_free.specs.Attempts.{IfBusy};
ghost use Rattle.elsa_lock_free.specs.SharedList.{Continues, IsLaterPass, items_of, mine};
ghost use Rattle.elsa_lock_free_map.specs.Entries.{GetsOrInserts, Has, InsertsOnce, Lacks};
ghost use Rattle.elsa_tables.specs.Rules.{HoldsAt};
ghost use Rattle.elsa_shards.specs.Shards.{AllContinue, AllMeet, AtMoments, IsSameMap, OnShard, seen_in_all, shard_of};

use crate::map::{SHARDS, index_of};
use elsa_lock_free::may_lock::{AttemptFault, LockPermit};
use elsa_lock_free_map::handle::MapHandle;
use elsa_lock_free_map::map::LockFreeFrozenMap;
use elsa_lock_free_map::room::Room;
use elsa_tables::{AnyEntries, EntryRule, Inserted};
use indexmap::Equivalent;
use std::alloc::{AllocError, AllocFailed, Allocator, Global};
use std::hash::{BuildHasher, BuildHasherDefault, FoldHasher, Hash};
use std::marker::Model;
use std::sync::Wait;

/// An append-only map that threads share, divided into shards by the hash of the key. Look-ups take
/// no lock; an insertion takes the lock of the key's shard, which spins.
///
/// A thread calls the map through a [`ShardedHandle`]. A key belongs to one shard, so what a
/// [`LockFreeFrozenMap`] promises of a key holds here. What it promises of all entries doesn't:
/// there is no order of insertion, and no index, across shards. Each entry obeys the rule `L`, as
/// those of a `LockFreeFrozenMap` do.
#[derive(Drop)]
pub struct LockFreeShardedMap<
    K: Drop + Hash,
    V: Drop,
    S: BuildHasher + Copy + Drop = BuildHasherDefault<FoldHasher>,
    A: Allocator + Copy = Global,
    L: EntryRule<K, V> = AnyEntries,
> {
    // A key is in the shard that its hash chooses.
    shards: Vec<LockFreeFrozenMap<K, V, S, A, L>, A>,
    hash_builder: S,
    alloc: A,
}

// In a clause, a map is its shards and its hash builder.
impl<
    K: Drop + Hash,
    V: Drop,
    S: BuildHasher + Copy + Drop,
    A: Allocator + Copy,
    L: EntryRule<K, V>,
> Model for LockFreeShardedMap<K, V, S, A, L> {
    ghost use Rattle.std.specs.Prelude.{List, length, ◌<◌, ◌≤◌, ◌^◌};
    ghost use Rattle.elsa_lock_free.specs.SharedList.{Vector};

    ghost Value = { List Vector × S };

    ghost view = { λ m. (m.shards.items, m.hash_builder) };

    // A key's shard is its hash modulo the number of shards, so there is one; and a shard's number
    // has 32 bits.
    ghost invariant = { λ m. (0 < length m.shards.items) × (length m.shards.items ≤ 2 ^ 32) };
}

impl<K: Drop + Hash, V: Drop, A: Allocator + Copy> LockFreeShardedMap<
    K,
    V,
    BuildHasherDefault<FoldHasher>,
    A,
> {
    /// Makes an empty map with 64 shards.
    ///
    /// # Errors
    /// Fails if an allocation fails.
    ///
    /// # Allocates
    /// The list of shards, and the directory of each.
    pub fn new(alloc: A) -> Result<Self, AllocError>
        ensures count { IfOk result (λ m. length m.0 ≡ 64) }
    {
        LockFreeShardedMap::with_shards(alloc, SHARDS, BuildHasherDefault::new())
    }
}

impl<K: Drop + Hash, V: Drop, S: BuildHasher + Copy + Drop, A: Allocator + Copy> LockFreeShardedMap<
    K,
    V,
    S,
    A,
> {
    /// Makes an empty map with `count` shards that hashes its keys by `hash_builder`. It allocates
    /// and fails as [`with_rule`](Self::with_rule) does.
    pub fn with_shards(alloc: A, count: usize, hash_builder: S) -> Result<Self, AllocError>
        requires count { (0 < count) × (count ≤ 2 ^ 32) }
        ensures count { IfOk result (λ m. length m.0 ≡ count) }
        ensures same_hasher { IfOk result (λ m. m.1 ≡ hash_builder) }
    {
        LockFreeShardedMap::with_rule(alloc, count, hash_builder)
    }
}

impl<
    K: Drop + Hash,
    V: Drop,
    S: BuildHasher + Copy + Drop,
    A: Allocator + Copy,
    L: EntryRule<K, V>,
> LockFreeShardedMap<K, V, S, A, L> {
    /// Makes an empty map with `count` shards, whose entries obey the rule `L`, and which hashes
    /// its keys by `hash_builder`.
    ///
    /// # Errors
    /// Fails if an allocation fails.
    ///
    /// # Allocates
    /// The list of shards, and the directory of each.
    pub fn with_rule(alloc: A, count: usize, hash_builder: S) -> Result<Self, AllocError>
        requires count { (0 < count) × (count ≤ 2 ^ 32) }
        ensures count { IfOk result (λ m. length m.0 ≡ count) }
        ensures same_hasher { IfOk result (λ m. m.1 ≡ hash_builder) }
    {
        let mut shards = Vec::with_capacity(alloc, count)?;
        for _ in 0..count {
            shards.push(LockFreeFrozenMap::with_rule(alloc, hash_builder)?)?;
        }
        Ok(LockFreeShardedMap {
            shards,
            hash_builder,
            alloc,
        })
    }

    /// Returns the shards.
    ///
    /// # Cost
    /// `O(1)`.
    pub fn shards(&self) -> &[LockFreeFrozenMap<K, V, S, A, L>]
        ensures shards { result.now ≡ self.now.0 }
    {
        self.shards.as_slice()
    }

    /// Makes a handle, which has observed nothing and inserted nothing.
    ///
    /// # Errors
    /// Fails if an allocation fails.
    ///
    /// # Allocates
    /// A list with a handle of each shard.
    pub fn handle(&self) -> Result<ShardedHandle<'_, K, V, S, A, L>, AllocError>
        ensures same_vectors { IfOk result (λ h. map (λ v. v.vector) h.0 ≡ self.now.0) }
        ensures same_hasher { IfOk result (λ h. h.1 ≡ self.now.1) }
        ensures nothing_seen { IfOk result (λ h. All (λ v. (v.seen ≡ []) × (mine v ≡ [])) h.0) }
    {
        let mut handles = Vec::with_capacity(self.alloc, self.shards.len())?;
        for shard in &self.shards {
            handles.push(shard.handle())?;
        }
        Ok(ShardedHandle {
            handles,
            hash_builder: self.hash_builder,
        })
    }
}

/// Room for the entries of each shard of a map, and for those of all shards together.
type Rooms<K, V, S, A> = (Vec<Room<K, V, S, A>, A>, Vec<(K, V), A>);

impl<K: Drop + Hash, V: Drop, S: BuildHasher + Copy + Drop, A: Allocator + Copy> LockFreeShardedMap<
    K,
    V,
    S,
    A,
> {
    /// Returns all entries, each once as its key and its value: those of the first shard in the
    /// order of their insertion, then those of the next one.
    ///
    /// # Errors
    /// Fails if an allocation fails. The error has the map, with all its entries; by `?` it becomes
    /// an `AllocError`, which drops them.
    ///
    /// # Allocates
    /// Before it moves an entry, memory for all entries twice, by the map's allocator: the list of
    /// the result, and a list for each shard, which is deallocated again. All other memory of the
    /// map is deallocated.
    ///
    /// # Cost
    /// `O(n)` and the number of shards: two moves for each entry.
    pub fn into_tuple_vec(self) -> Result<Vec<(K, V), A>, AllocFailed<Self>>
        ensures entries { IfOk result (λ v. AtMoments K.eq (λ k v. Unit {0}) (length self.0)
            (λ shards. v.items ≡ flat_map (λ entries. entries) shards)) }
        ensures refused { IfErr result (λ e. e.value ≡ self) }
    {
        let Ok((rooms, pairs)) = self.rooms() else {
            return Err(AllocFailed { value: self });
        };
        let LockFreeShardedMap {
            shards,
            hash_builder: _,
            alloc: _,
        } = self;
        Ok(moved_out(shards, rooms, pairs))
    }

    // Allocates room for all entries.
    fn rooms(&self) -> Result<Rooms<K, V, S, A>, AllocError>
        ensures same_vectors { IfOk result (λ r. map (λ room. room.vector) r.0.items ≡ self.now.0) }
        ensures empty { IfOk result (λ r. (r.1.items ≡ []) × (vec_len r.1 ≡ 0)) }
        ensures room { IfOk result (λ r.
            sum_by (λ room. length room.seen) r.0.items ≤ vec_capacity r.1) }
    {
        let mut rooms = Vec::with_capacity(self.alloc, self.shards.len())?;
        let mut total = 0usize;
        for map in &self.shards {
            let room = map.room()?;
            let Some(sum) = total.checked_add(room.len()) else {
                return Err(AllocError);
            };
            total = sum;
            rooms.push(room)?;
        }
        let pairs = Vec::with_capacity(self.alloc, total)?;
        Ok((rooms, pairs))
    }
}

// Moves the entries of each shard into its room, and from there to `pairs`.
fn moved_out<K: Drop + Hash, V: Drop, S: BuildHasher + Copy + Drop, A: Allocator + Copy>(
    shards: Vec<LockFreeFrozenMap<K, V, S, A>, A>,
    rooms: Vec<Room<K, V, S, A>, A>,
    mut pairs: Vec<(K, V), A>,
) -> Vec<(K, V), A>
    requires same_vectors { map (λ room. room.vector) rooms.items ≡ shards.items }
    requires empty { (pairs.items ≡ []) × (vec_len pairs ≡ 0) }
    requires room { sum_by (λ room. length room.seen) rooms.items ≤ vec_capacity pairs }
    ensures { AtMoments K.eq (λ k v. Unit {0}) (length shards.items)
        (λ entries. result.items ≡ flat_map (λ es. es) entries) }
{
    let mut rooms_left = rooms.into_iter();
    for shard in shards {
        let Some(room) = rooms_left.next() else {
            unreachable!()
        };
        let mut entries = shard.into_room(room);
        let Ok(()) = pairs.append(&mut entries) else {
            unreachable!()
        };
    }
    pairs
}

/// The handles of all shards of a map. Contracts see the view of each, and the hash builder.
///
/// Each call with a key makes the call of the same name on the handle of the key's shard.
#[derive(Drop)]
pub struct ShardedHandle<
    'm,
    K: Drop + Hash,
    V: Drop,
    S: BuildHasher + Copy + Drop = BuildHasherDefault<FoldHasher>,
    A: Allocator + Copy = Global,
    L: EntryRule<K, V> = AnyEntries,
> {
    pub(crate) handles: Vec<MapHandle<'m, K, V, S, A, L>, A>,
    hash_builder: S,
}

impl<
    'm,
    K: Drop + Hash,
    V: Drop,
    S: BuildHasher + Copy + Drop,
    A: Allocator + Copy,
    L: EntryRule<K, V>,
> Model for ShardedHandle<'m, K, V, S, A, L> {
    ghost use Rattle.std.specs.Prelude.{List, length, ◌<◌, ◌≤◌, ◌^◌};
    ghost use Rattle.elsa_lock_free.specs.SharedList.{View};
    ghost use Rattle.elsa_hash_index.specs.declared.entry.Entry.{Entry};

    ghost Value = { List (View (Entry K V S)) × S };

    ghost view = { λ h. (h.handles.items, h.hash_builder) };

    // As in the map: a handle for each shard.
    ghost invariant = { λ h. (0 < length h.handles.items) × (length h.handles.items ≤ 2 ^ 32) };
}

impl<
    'm,
    K: Drop + Hash,
    V: Drop,
    S: BuildHasher + Copy + Drop,
    A: Allocator + Copy,
    L: EntryRule<K, V>,
> ShardedHandle<'m, K, V, S, A, L> {
    /// Returns the index of the shard of the keys that are hashed like `query`.
    ///
    /// # Cost
    /// One hash.
    pub fn shard_index<Q: Hash + Copy>(&self, query: Q) -> usize
        ensures within { result < length self.now.0 }
        ensures chosen { result ≡ shard_of S.BuildHasher S.Hasher.Hasher self.now.1
            (length self.now.0) (Q.hash_input query) }
    {
        index_of(&self.hash_builder, query, self.handles.len())
    }

    /// Returns the handles of the shards, to read what each has observed.
    ///
    /// # Cost
    /// `O(1)`.
    pub fn shards(&self) -> &[MapHandle<'m, K, V, S, A, L>]
        ensures views { result.now ≡ self.now.0 }
    {
        self.handles.as_slice()
    }

    /// Returns the number of entries that the handle has observed in all shards, without an atomic
    /// step.
    ///
    /// # Cost
    /// The number of shards.
    pub fn seen_len(&self) -> usize
        ensures length { result ≡ seen_in_all self.now.0 }
    {
        let mut sum = 0usize;
        for handle in &self.handles {
            sum = sum.saturating_add(handle.seen_len());
        }
        sum
    }

    /// Reads the length of each shard, and returns the number of entries that the handle has then
    /// observed: at least their number when the call began, and at most their number when it ended.
    /// It takes no lock, allocates nothing and never blocks.
    ///
    /// # Cost
    /// The number of shards.
    pub fn len(&mut self) -> usize
        ensures same_map { IsSameMap self.old self.new }
        ensures continues { AllContinue self.old.0 self.new.0 }
        ensures length { result ≡ seen_in_all self.new.0 }
    {
        for handle in self.handles.iter_mut() {
            handle.len();
        }
        self.seen_len()
    }

    /// Merges what two handles of a map have observed: of each shard, both have then observed the
    /// longer list. It takes no atomic step, allocates nothing and never blocks.
    ///
    /// # Cost
    /// The number of shards.
    pub fn meet(&mut self, other: &mut ShardedHandle<'_, K, V, S, A, L>)
        requires same_vectors { map (λ v. v.vector) self.old.0 ≡ map (λ v. v.vector) other.old.0 }
        ensures same_map { IsSameMap self.old self.new × IsSameMap other.old other.new }
        ensures met { AllMeet self.old.0 self.new.0 other.old.0 other.new.0 }
    {
        for index in 0..self.handles.len() {
            self.handles[index].meet(&mut other.handles[index]);
        }
    }

    /// Returns a reference to the value of a key, or `None` if no entry of the key's shard that the
    /// handle has then observed has the key. The reference lives as long as the map is borrowed.
    ///
    /// A query is a reference to a key, or another value that is [`Equivalent`] to keys: a `&str`,
    /// for example, if the keys are `String`s. The call takes no lock, allocates nothing and never
    /// blocks.
    ///
    /// # Cost
    /// Two hashes and one search; if the key is not found and the shard has grown since, three
    /// hashes and two searches.
    pub fn get_ref<Q: Equivalent<K>>(&mut self, query: Q) -> Option<&'m V>
        ensures same_map { IsSameMap self.old self.new }
        ensures on_shard { OnShard self.old.0 self.new.0
            (shard_of S.BuildHasher S.Hasher.Hasher self.old.1 (length self.old.0)
            (Q.hash_input query))
            (λ before after. Continues before after
            × IfSome result (λ v. Has Q.equivalent (items_of after.seen) query v.now)
            × IfNone result (Lacks Q.equivalent (items_of after.seen) query)) }
        ensures holds { IfSome result (λ v. HoldsAt L.holds (Q.equivalent query) v.now) }
    {
        let index = self.shard_index(query);
        self.handles[index].get_ref(query)
    }

    /// Returns whether an entry has the key: `false` if no entry of the key's shard that the handle
    /// has then observed has it. A query is as in [`get_ref`](Self::get_ref).
    ///
    /// # Cost
    /// That of [`get_ref`](Self::get_ref).
    pub fn contains_key<Q: Equivalent<K>>(&mut self, query: Q) -> bool
        ensures same_map { IsSameMap self.old self.new }
        ensures on_shard { OnShard self.old.0 self.new.0
            (shard_of S.BuildHasher S.Hasher.Hasher self.old.1 (length self.old.0)
            (Q.hash_input query))
            (λ before after. Continues before after
            × (result ≡ true → (v : V) × Has Q.equivalent (items_of after.seen) query v)
            × (result ≡ false → Lacks Q.equivalent (items_of after.seen) query)) }
    {
        let index = self.shard_index(query);
        self.handles[index].contains_key(query)
    }

    /// Inserts a key and its value unless a thread has inserted an equal key: the first insertion
    /// wins, for every thread. Returns a reference to the value that the key then has, its index in
    /// its shard, and whether it is new. If the key isn't new, `key` and `value` are dropped.
    ///
    /// # Errors
    /// Fails if an allocation fails, or if the shard has `2^32 - 1` entries; never for a key that
    /// the handle has observed. Then nothing is inserted, and `key` and `value` are dropped; the
    /// same insertion may succeed later.
    ///
    /// # Blocks
    /// While another thread inserts into the same shard, unless the handle has observed the key.
    ///
    /// # Allocates
    /// A buffer of the shard and its row of index entries, if a buffer begins.
    ///
    /// # Cost
    /// Two hashes and one search for a present key, three hashes and two searches for a new one. If
    /// a buffer begins, its row is filled with all keys of the shard.
    pub fn insert_ref<R: Wait>(
        &mut self,
        rt: &R,
        key: K,
        value: V,
    ) -> Result<Inserted<&'m V, usize>, AllocError>
        requires rule { L.holds key value }
        ensures same_map { IsSameMap self.old self.new }
        ensures on_shard { OnShard self.old.0 self.new.0
            (shard_of S.BuildHasher S.Hasher.Hasher self.old.1 (length self.old.0)
            (K.hash_input key))
            (λ before after. IsLaterPass before after
            × IfOk result (λ r. InsertsOnce K.eq before after key
            (record { value = r.value.now; index = r.index; is_new = r.is_new }))
            × IfErr result (λ e. mine after ≡ mine before)
            × OnErr result (Lacks K.eq (items_of before.seen) key)) }
        ensures value { IfOk result (λ r. (r.is_new ≡ true → r.value.now ≡ value)
            × HoldsAt L.holds (K.eq key) r.value.now) }
    {
        let index = self.shard_index(&key);
        self.handles[index].insert_ref(rt, key, value)
    }

    /// Inserts a key and its value, as [`insert_ref`](Self::insert_ref) does, but never waits for
    /// the lock.
    ///
    /// # Errors
    /// Fails with `Busy` if another thread has the lock of the key's shard, or has inserted into it
    /// first in each of four attempts: the error has the key and the value. Fails with `Failed`
    /// where `insert_ref` fails: `key` and `value` are dropped. In both cases nothing is inserted,
    /// and the handle had not observed the key; the same insertion may succeed later.
    ///
    /// # Allocates
    /// A buffer of the shard and its row of index entries, as `insert_ref` does. The call then has
    /// the lock of the shard while it enters all its keys into the row. That takes long and waits
    /// for no thread; the insertions of other threads find the shard busy meanwhile.
    ///
    /// # Cost
    /// That of `insert_ref`, with at most four exchanges of the shard's state word to take the
    /// lock.
    pub fn try_insert_ref(
        &mut self,
        may: LockPermit,
        key: K,
        value: V,
    ) -> Result<Inserted<&'m V, usize>, AttemptFault<(K, V)>>
        requires rule { L.holds key value }
        ensures same_map { IsSameMap self.old self.new }
        ensures on_shard { OnShard self.old.0 self.new.0
            (shard_of S.BuildHasher S.Hasher.Hasher self.old.1 (length self.old.0)
            (K.hash_input key))
            (λ before after. IsLaterPass before after
            × IfOk result (λ r. InsertsOnce K.eq before after key
            (record { value = r.value.now; index = r.index; is_new = r.is_new }))
            × IfErr result (λ f. mine after ≡ mine before)
            × OnErr result (Lacks K.eq (items_of before.seen) key)) }
        ensures value { IfOk result (λ r. (r.is_new ≡ true → r.value.now ≡ value)
            × HoldsAt L.holds (K.eq key) r.value.now) }
        ensures busy { IfErr result (λ f. IfBusy f (λ pair. pair ≡ (key, value))) }
    {
        let index = self.shard_index(&key);
        self.handles[index].try_insert_ref(may, key, value)
    }

    /// Inserts a key with the value that `make` returns, unless a thread has inserted an equal key.
    /// Returns a reference to the value that the key then has, as
    /// [`insert_ref`](Self::insert_ref) does.
    ///
    /// If the handle finds the key, the call doesn't call `make`. Otherwise `make` runs under no
    /// lock, and may use the map by another handle. If another thread then inserts the key first,
    /// `key` and the value of `make` are dropped.
    ///
    /// # Errors
    /// Fails if an allocation fails, or if the shard has `2^32 - 1` entries; never for a key that
    /// the handle has observed. Then nothing is inserted, and `key` and the value of `make` are
    /// dropped; the same insertion may succeed later.
    ///
    /// # Blocks
    /// While another thread inserts into the same shard, unless the key was found.
    ///
    /// # Allocates
    /// As [`insert_ref`](Self::insert_ref) does, unless the key was found.
    ///
    /// # Cost
    /// Two hashes and one search for a present key, three hashes and two searches for a new one,
    /// and those of `make`.
    pub fn get_or_insert_with<R: Wait, F: FnOnce() -> V + Drop>(
        &mut self,
        rt: &R,
        key: K,
        make: F,
    ) -> Result<Inserted<&'m V, usize>, AllocError>
        requires callable { F.pre make }
        requires rule { (v : V) → F.post make v → L.holds key v }
        ensures same_map { IsSameMap self.old self.new }
        ensures on_shard { OnShard self.old.0 self.new.0
            (shard_of S.BuildHasher S.Hasher.Hasher self.old.1 (length self.old.0)
            (K.hash_input key))
            (λ before after. IsLaterPass before after
            × IfOk result (λ r. InsertsOnce K.eq before after key
            (record { value = r.value.now; index = r.index; is_new = r.is_new }))
            × IfErr result (λ e. mine after ≡ mine before)
            × OnErr result (Lacks K.eq (items_of before.seen) key)) }
        ensures value { IfOk result (λ r. (r.is_new ≡ true → F.post make r.value.now)
            × HoldsAt L.holds (K.eq key) r.value.now) }
    {
        let index = self.shard_index(&key);
        self.handles[index].get_or_insert_with(rt, key, make)
    }

    /// Looks up the key that `query` finds, and inserts the key and the value that `make` returns
    /// if there is no such key: both are made only if they are needed, and `make` may fail.
    ///
    /// The query chooses the shard, so `make` must return a key that the query finds. It runs under
    /// no lock, and may use the map by another handle. If another thread then inserts the key
    /// first, the first value stays, and the made ones are dropped.
    ///
    /// # Errors
    /// Fails with the error of `make`, or with one that is made of an `AllocError` if an allocation
    /// fails or the shard has `2^32 - 1` entries; never if the handle has observed a key that the
    /// query finds. Then nothing is inserted, and what `make` returned is dropped; the same
    /// insertion may succeed later.
    ///
    /// # Blocks
    /// While another thread inserts into the same shard, unless the key was found.
    ///
    /// # Allocates
    /// As [`insert_ref`](Self::insert_ref) does, unless the key was found.
    ///
    /// # Cost
    /// Two hashes and one search for a present key, four hashes and three searches for a new one,
    /// and those of `make`.
    pub fn insert_by<R, Q, E, F>(
        &mut self,
        rt: &R,
        query: Q,
        make: F,
    ) -> Result<Inserted<&'m V, usize>, E>
    where
        R: Wait,
        Q: Equivalent<K>,
        E: From<AllocError>,
        F: FnOnce() -> Result<(K, V), E> + Drop,
        requires callable { F.pre make }
        requires key { (k : K) (v : V) → F.post make (Ok (k, v)) → Q.equivalent query k ≡ true }
        requires rule { (k : K) (v : V) → F.post make (Ok (k, v)) → L.holds k v }
        ensures same_map { IsSameMap self.old self.new }
        ensures on_shard { OnShard self.old.0 self.new.0
            (shard_of S.BuildHasher S.Hasher.Hasher self.old.1 (length self.old.0)
            (Q.hash_input query))
            (λ before after. IsLaterPass before after
            × IfOk result (λ r. GetsOrInserts K.eq Q.equivalent
            (λ k v. F.post make (Ok (k, v))) before after query
            (record { value = r.value.now; index = r.index; is_new = r.is_new }))
            × IfErr result (λ e. (mine after ≡ mine before)
            × (F.post make (Err e) ⊎ E.from_gives alloc_error e))
            × OnErr result (Lacks Q.equivalent (items_of before.seen) query)) }
        ensures holds { IfOk result (λ r. HoldsAt L.holds (Q.equivalent query) r.value.now) }
    {
        let index = self.shard_index(query);
        self.handles[index].insert_by(rt, query, make)
    }
}
