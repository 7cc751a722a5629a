//! The calls of the locked maps, of their states, and of the map of locked shards.
use crate::lists::owned;
use elsa::sync::{FrozenBTreeMap, FrozenMap, ShardedMap};
use elsa_locks::map::{Locked, MapState, State, TreeState};
use elsa_tables::Table;
use std::alloc::AllocError;
use std::hash::{BuildHasherDefault, FoldHasher};
use std::sync::{Arc, Wait};
use test_model::call::{Call, Calls, Kind, Reply, Walk, made, no_memory};
use test_model::script::Heap;

pub type Hasher = BuildHasherDefault<FoldHasher>;

type Owner<'h> = Arc<u64, &'h Heap>;

pub type Hashed<'h> = FrozenMap<u64, u64, Hasher, &'h Heap>;

pub type Ordered<'h> = FrozenBTreeMap<u64, u64, &'h Heap>;

pub type Shards<'h> = ShardedMap<u64, u64, Hasher, &'h Heap>;

/// The reply of an insertion that returns an owner, and called its closure this often.
fn of_owner(done: Result<Owner<'_>, AllocError>, calls: u64) -> Reply {
    of_copy(done.map(|owner| *owner), calls)
}

/// The reply of an insertion that returns whether the key is new.
fn of_new(done: Result<(Owner<'_>, bool), AllocError>) -> Reply {
    match done {
        Ok((owner, is_new)) => made(Some(*owner), None, Some(is_new), 0),
        Err(AllocError) => no_memory(0),
    }
}

/// The reply of an insertion that returns a copy, and called its closure this often.
fn of_copy(done: Result<u64, AllocError>, calls: u64) -> Reply {
    match done {
        Ok(value) => made(Some(value), None, None, calls),
        Err(AllocError) => no_memory(0),
    }
}

/// The reply of a read of the first or the last entry.
fn end(found: Result<Option<(u64, Owner<'_>)>, AllocError>) -> Reply {
    match found {
        Ok(found) => Reply::Pair(found.map(|entry| (entry.0, *entry.1))),
        Err(AllocError) => no_memory(0),
    }
}

/// The keys that a map returned, as a walk.
fn keys(keys: Result<Vec<u64, &Heap>, AllocError>) -> Reply {
    let Ok(keys) = keys else {
        return no_memory(0);
    };
    let mut walk = Walk::new(false);
    for key in &keys {
        walk.add(*key, 0);
    }
    walk.reply()
}

/// A walk in ascending order. Its reply is that of no walk if the keys don't ascend.
#[derive(Clone, Copy)]
struct Ascent {
    walk: Walk,
    above: u64,
    ascends: bool,
}

impl Ascent {
    fn new() -> Ascent {
        Ascent {
            walk: Walk::new(false),
            above: 0,
            ascends: true,
        }
    }

    fn add(&mut self, key: u64, value: u64) {
        self.ascends = self.ascends && key >= self.above;
        self.above = key + 1;
        self.walk.add(key, value);
    }

    fn reply(self) -> Reply {
        if self.ascends {
            self.walk.reply()
        } else {
            Reply::Flag(false)
        }
    }
}

// ---- the calls of each locked map, and of each state

/// Makes an insertion, or reads the length.
fn insertion<'h, R: Wait, T: Table<u64, Owner<'h>>>(
    rt: &R,
    map: &Locked<u64, u64, T, &'h Heap>,
    call: Call,
) -> Reply {
    let (key, value) = (call.key, call.value);
    let mut calls = 0;
    match call.kind {
        Kind::Insert => of_owner(map.insert(rt, key, value), 0),
        Kind::InsertNew => of_new(map.insert_new(rt, key, value)),
        Kind::GetCopyOrInsert => of_copy(map.get_copy_or_insert(rt, key, value), 0),
        Kind::InsertWith | Kind::GetCopyOrInsertWith => {
            let make = || -> u64 {
                calls += 1;
                value
            };
            if call.kind == Kind::InsertWith {
                let done = map.insert_with(rt, key, make);
                of_owner(done, calls)
            } else {
                let done = map.get_copy_or_insert_with(rt, key, make);
                of_copy(done, calls)
            }
        }
        Kind::InsertWithKey | Kind::GetCopyOrInsertWithKey => {
            let make = |given: &u64| -> u64 {
                calls += 1;
                if *given == key { value } else { !value }
            };
            if call.kind == Kind::InsertWithKey {
                let done = map.insert_with_key(rt, key, make);
                of_owner(done, calls)
            } else {
                let done = map.get_copy_or_insert_with_key(rt, key, make);
                of_copy(done, calls)
            }
        }
        Kind::Len => Reply::Count(map.len(rt)),
        Kind::IsEmpty => Reply::Flag(map.is_empty(rt)),
        _ => Reply::NotOffered,
    }
}

/// The same of a state.
fn state_insertion<'h, T: Table<u64, Owner<'h>>>(
    state: &mut State<u64, u64, T, &'h Heap>,
    call: Call,
) -> Reply {
    let (key, value) = (call.key, call.value);
    let mut calls = 0;
    match call.kind {
        Kind::Insert => of_owner(state.insert(key, value), 0),
        Kind::InsertNew => of_new(state.insert_new(key, value)),
        Kind::GetCopyOrInsert => of_copy(state.get_copy_or_insert(key, value), 0),
        Kind::InsertWith => {
            let make = || -> u64 {
                calls += 1;
                value
            };
            let done = state.insert_with(key, make);
            of_owner(done, calls)
        }
        Kind::GetCopyOrInsertWithKey => {
            let make = |given: &u64| -> u64 {
                calls += 1;
                if *given == key { value } else { !value }
            };
            let done = state.get_copy_or_insert_with_key(key, make);
            of_copy(done, calls)
        }
        Kind::Len => Reply::Count(state.len()),
        Kind::IsEmpty => Reply::Flag(state.is_empty()),
        _ => Reply::NotOffered,
    }
}

/// Returns whether a locked map allocates also for a call that inserts nothing.
fn asks(kind: Kind) -> bool {
    matches!(kind, Kind::Keys | Kind::Clone | Kind::Equals)
}

// ---- the hashed map

#[derive(Drop)]
pub struct HashedCalls<'m, 'h, R: Wait> {
    pub rt: &'m R,
    pub heap: &'h Heap,
    pub map: &'m Hashed<'h>,
}

fn hashed_walk<R: Wait>(rt: &R, map: &Hashed<'_>) -> Reply {
    let mut walk = Walk::new(false);
    map.for_each(rt, |key, value| walk.add(*key, *value));
    walk.reply()
}

impl<R: Wait> HashedCalls<'_, '_, R> {
    /// Clones, and compares the map with the clone before and after an insertion of another key.
    fn cloned(&self) -> Result<Reply, AllocError> {
        let (rt, map) = (self.rt, self.map);
        let copy = map.clone(rt)?;
        let reply = hashed_walk(rt, &copy);
        if !map.equals(rt, &copy)? {
            return Ok(Reply::Flag(false));
        }
        let _ = copy.insert(rt, u64::MAX, 0)?;
        if map.equals(rt, &copy)? {
            return Ok(Reply::Flag(true));
        }
        Ok(reply)
    }

    /// Compares the map with one that has another value of a key.
    fn equals(&self, key: u64) -> Result<Reply, AllocError> {
        let (rt, map) = (self.rt, self.map);
        let mut other = map.clone(rt)?;
        if let Some(value) = map.get_copy(rt, &key) {
            let _ = other.as_mut().insert(key, Arc::new(self.heap, value ^ 1)?)?;
        }
        Ok(Reply::Flag(map.equals(rt, &other)?))
    }
}

impl<R: Wait> Calls for HashedCalls<'_, '_, R> {
    fn is_in_order(&self) -> bool {
        false
    }

    fn makes_first(&self) -> bool {
        false
    }

    fn may_ask(&self, kind: Kind) -> bool {
        asks(kind)
    }

    fn reply(&mut self, call: Call) -> Reply {
        let (rt, map) = (self.rt, self.map);
        match call.kind {
            Kind::Get => owned(map.get(rt, &call.key)),
            Kind::GetCopy => Reply::Value(map.get_copy(rt, &call.key)),
            Kind::MapGet => Reply::Value(map.map_get(rt, &call.key, |value| *value)),
            Kind::Iter => hashed_walk(rt, map),
            Kind::Keys => keys(map.keys_cloned(rt)),
            Kind::Clone => self.cloned().unwrap_or(no_memory(0)),
            Kind::Equals => self.equals(call.key).unwrap_or(no_memory(0)),
            _ => insertion(rt, map, call),
        }
    }
}

/// The state that a hashed map has.
#[derive(Drop)]
pub struct HashedState<'h> {
    pub state: MapState<u64, u64, Hasher, &'h Heap>,
}

impl Calls for HashedState<'_> {
    fn reply(&mut self, call: Call) -> Reply {
        let state = &mut self.state;
        match call.kind {
            Kind::Get => owned(state.get(&call.key)),
            Kind::GetCopy => Reply::Value(state.get_copy(&call.key)),
            Kind::MapGet => Reply::Value(state.map_get(&call.key, |value| *value)),
            Kind::Iter => {
                let mut walk = Walk::new(false);
                state.for_each(|key, value| walk.add(*key, *value));
                walk.reply()
            }
            Kind::Keys => keys(state.keys_cloned()),
            _ => state_insertion(state, call),
        }
    }
}

// ---- the ordered map

#[derive(Drop)]
pub struct OrderedCalls<'m, 'h, R: Wait> {
    pub rt: &'m R,
    pub heap: &'h Heap,
    pub map: &'m Ordered<'h>,
}

fn ordered_walk<R: Wait>(rt: &R, map: &Ordered<'_>) -> Reply {
    let mut walk = Ascent::new();
    map.for_each(rt, |key, value| walk.add(*key, *value));
    walk.reply()
}

impl<R: Wait> OrderedCalls<'_, '_, R> {
    /// Clones, and compares the map with the clone before and after an insertion of another key.
    fn cloned(&self) -> Result<Reply, AllocError> {
        let (rt, map) = (self.rt, self.map);
        let copy = map.clone(rt)?;
        let reply = ordered_walk(rt, &copy);
        if !map.equals(rt, &copy)? {
            return Ok(Reply::Flag(false));
        }
        let _ = copy.insert(rt, u64::MAX, 0)?;
        if map.equals(rt, &copy)? {
            return Ok(Reply::Flag(true));
        }
        Ok(reply)
    }

    /// Compares the map with one that has another value of a key.
    fn equals(&self, key: u64) -> Result<Reply, AllocError> {
        let (rt, map) = (self.rt, self.map);
        let mut other = map.clone(rt)?;
        if let Some(value) = map.get_copy(rt, &key) {
            let _ = other.as_mut().insert(key, Arc::new(self.heap, value ^ 1)?)?;
        }
        Ok(Reply::Flag(map.equals(rt, &other)?))
    }
}

impl<R: Wait> Calls for OrderedCalls<'_, '_, R> {
    fn is_in_order(&self) -> bool {
        false
    }

    fn makes_first(&self) -> bool {
        false
    }

    fn may_ask(&self, kind: Kind) -> bool {
        asks(kind)
    }

    fn reply(&mut self, call: Call) -> Reply {
        let (rt, map) = (self.rt, self.map);
        match call.kind {
            Kind::Get => owned(map.get(rt, &call.key)),
            Kind::GetCopy => Reply::Value(map.get_copy(rt, &call.key)),
            Kind::MapGet => Reply::Value(map.map_get(rt, &call.key, |value| *value)),
            Kind::Least => end(map.first_key_value_cloned(rt)),
            Kind::Greatest => end(map.last_key_value_cloned(rt)),
            Kind::Iter => ordered_walk(rt, map),
            Kind::WalkFrom => {
                let mut walk = Ascent::new();
                map.for_each_in_range(rt, call.key.., |key, value| walk.add(*key, *value));
                walk.reply()
            }
            Kind::Keys => keys(map.keys_cloned(rt)),
            Kind::Clone => self.cloned().unwrap_or(no_memory(0)),
            Kind::Equals => self.equals(call.key).unwrap_or(no_memory(0)),
            _ => insertion(rt, map, call),
        }
    }
}

/// The state that an ordered map has.
#[derive(Drop)]
pub struct OrderedState<'h> {
    pub state: TreeState<u64, u64, &'h Heap>,
}

impl Calls for OrderedState<'_> {
    fn reply(&mut self, call: Call) -> Reply {
        let state = &mut self.state;
        match call.kind {
            Kind::Get => owned(state.get(&call.key)),
            Kind::GetCopy => Reply::Value(state.get_copy(&call.key)),
            Kind::MapGet => Reply::Value(state.map_get(&call.key, |value| *value)),
            Kind::Least => end(state.first_key_value_cloned()),
            Kind::Greatest => end(state.last_key_value_cloned()),
            Kind::Iter => {
                let mut walk = Ascent::new();
                state.for_each(|key, value| walk.add(*key, *value));
                walk.reply()
            }
            Kind::WalkFrom => {
                let mut walk = Ascent::new();
                state.for_each_in_range(call.key.., |key, value| walk.add(*key, *value));
                walk.reply()
            }
            Kind::Keys => keys(state.keys_cloned()),
            _ => state_insertion(state, call),
        }
    }
}

// ---- the map of locked shards

#[derive(Drop)]
pub struct ShardCalls<'m, 'h, R: Wait> {
    pub rt: &'m R,
    pub map: &'m Shards<'h>,
}

impl<R: Wait> Calls for ShardCalls<'_, '_, R> {
    fn is_in_order(&self) -> bool {
        false
    }

    fn makes_first(&self) -> bool {
        false
    }

    fn reply(&mut self, call: Call) -> Reply {
        let (rt, map, key, value) = (self.rt, self.map, call.key, call.value);
        let mut calls = 0;
        match call.kind {
            Kind::Insert => of_owner(map.insert(rt, key, value), 0),
            Kind::InsertNew => of_new(map.insert_new(rt, key, value)),
            Kind::GetCopyOrInsert => of_copy(map.get_copy_or_insert(rt, key, value), 0),
            Kind::InsertWith | Kind::GetCopyOrInsertWith => {
                let make = || -> u64 {
                    calls += 1;
                    value
                };
                if call.kind == Kind::InsertWith {
                    let done = map.insert_with(rt, key, make);
                    of_owner(done, calls)
                } else {
                    let done = map.get_copy_or_insert_with(rt, key, make);
                    of_copy(done, calls)
                }
            }
            Kind::Get => owned(map.get(rt, &key)),
            Kind::GetCopy => Reply::Value(map.get_copy(rt, &key)),
            Kind::MapGet => Reply::Value(map.map_get(rt, &key, |value| *value)),
            Kind::Len => Reply::Count(map.len(rt)),
            Kind::IsEmpty => Reply::Flag(map.is_empty(rt)),
            Kind::Iter => {
                let mut walk = Walk::new(false);
                for shard in map.shards() {
                    shard.for_each(rt, |key, value| walk.add(*key, *value));
                }
                walk.reply()
            }
            _ => Reply::NotOffered,
        }
    }
}
