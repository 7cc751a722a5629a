//! The calls of the lock-free map and of the lock-free map of shards, by handles.
use elsa::sync::{
    AttemptFault, Inserted, LockFreeFrozenMap, LockFreeShardedMap, LockPermit, MapHandle,
    ShardedHandle,
};
use std::alloc::AllocError;
use std::hash::{BuildHasherDefault, FoldHasher};
use std::sync::Wait;
use test_model::call::{Call, Calls, Cause, Kind, Reply, Walk, made, no_memory};
use test_model::script::Heap;

pub type State = BuildHasherDefault<FoldHasher>;

pub type Map<'h> = LockFreeFrozenMap<u64, u64, State, &'h Heap>;

pub type Shards<'h> = LockFreeShardedMap<u64, u64, State, &'h Heap>;

type One<'m, 'h> = MapHandle<'m, u64, u64, State, &'h Heap>;

type Many<'m, 'h> = ShardedHandle<'m, u64, u64, State, &'h Heap>;

/// The error of an insertion, or of the closure of one.
#[derive(Drop)]
pub enum Fault {
    Memory,
    Closure,
}

impl From<AllocError> for Fault {
    fn from(_error: AllocError) -> Fault {
        Fault::Memory
    }
}

/// The reply of an insertion that called its closure this often.
fn of_ref<E: Into<Fault> + Drop>(done: Result<Inserted<&u64, usize>, E>, calls: u64) -> Reply {
    match done {
        Ok(done) => made(
            Some(*done.value),
            Some(done.index),
            Some(done.is_new),
            calls,
        ),
        Err(error) => match error.into() {
            Fault::Memory => no_memory(calls),
            Fault::Closure => Reply::Failed(Cause::Closure, None, calls),
        },
    }
}

/// The reply of an insertion that returns a copy of the value.
fn of_copy(done: Result<Inserted<u64, usize>, AllocError>) -> Reply {
    match done {
        Ok(done) => made(Some(done.value), Some(done.index), Some(done.is_new), 0),
        Err(AllocError) => no_memory(0),
    }
}

/// The reply of an insertion that doesn't wait.
fn of_attempt(done: Result<Inserted<u64, usize>, AttemptFault<(u64, u64)>>) -> Reply {
    match done {
        Ok(done) => of_copy(Ok(done)),
        Err(AttemptFault::Busy(pair)) => Reply::Failed(Cause::Busy, Some(pair.1), 0),
        Err(AttemptFault::Failed(AllocError)) => no_memory(0),
    }
}

/// The same of one that returns a reference to the value.
fn of_ref_attempt(done: Result<Inserted<&u64, usize>, AttemptFault<(u64, u64)>>) -> Reply {
    of_attempt(done.map(|done| Inserted {
        value: *done.value,
        index: done.index,
        is_new: done.is_new,
    }))
}

/// The reply of an insertion into shards: the index is one of the shard.
fn in_shard(reply: Reply) -> Reply {
    let Reply::Inserted(mut entry) = reply else {
        return reply;
    };
    entry.index = None;
    Reply::Inserted(entry)
}

// ---- the lock-free map

/// Two handles of a map that are as old as the map, and one that observed a moment.
#[derive(Drop)]
pub struct MapCalls<'m, 'h, R: Wait> {
    rt: &'m R,
    map: &'m Map<'h>,
    one: One<'m, 'h>,
    other: One<'m, 'h>,
    then: One<'m, 'h>,
    may: LockPermit,
}

impl<'m, 'h, R: Wait> MapCalls<'m, 'h, R> {
    pub fn of(rt: &'m R, map: &'m Map<'h>, may: LockPermit) -> MapCalls<'m, 'h, R> {
        MapCalls {
            rt,
            map,
            one: map.handle(),
            other: map.handle(),
            then: map.handle(),
            may,
        }
    }
}

/// Makes an insertion or a read by a handle.
fn by_handle<R: Wait>(rt: &R, map: &mut One<'_, '_>, may: LockPermit, call: Call) -> Reply {
    let (key, value, index) = (call.key, call.value, call.key as usize);
    let mut calls = 0;
    match call.kind {
        Kind::Insert => of_copy(map.insert(rt, key, value)),
        Kind::InsertRef => of_ref(map.insert_ref(rt, key, value), 0),
        Kind::TryInsert => of_attempt(map.try_insert(may, key, value)),
        Kind::TryInsertRef => of_ref_attempt(map.try_insert_ref(may, key, value)),
        Kind::InsertWith => {
            let make = || -> u64 {
                calls += 1;
                value
            };
            let done = map.get_or_insert_with(rt, key, make);
            of_ref(done, calls)
        }
        Kind::InsertBy | Kind::InsertFails => {
            let make = || -> Result<(u64, u64), Fault> {
                calls += 1;
                if call.kind == Kind::InsertFails {
                    return Err(Fault::Closure);
                }
                Ok((key, value))
            };
            let done = map.insert_by(rt, &key, make);
            of_ref(done, calls)
        }
        Kind::Get => Reply::Value(map.get(key)),
        Kind::GetRef => Reply::Value(map.get_ref(&key).copied()),
        Kind::ContainsKey => Reply::Flag(map.contains_key(&key)),
        Kind::Find => Reply::Index(map.find(&key)),
        Kind::GetIndex => Reply::Full(map.get_index(index).map(|entry| (index, entry.0, entry.1))),
        Kind::Len => Reply::Count(map.len()),
        Kind::IsFull => Reply::Flag(map.is_full()),
        Kind::Iter => {
            map.len();
            let mut walk = Walk::new(true);
            for (key, value) in map.iter() {
                walk.add(key, value);
            }
            walk.reply()
        }
        Kind::IterRefs => {
            map.len();
            let mut walk = Walk::new(true);
            for (key, value) in map.iter().refs() {
                walk.add(*key, *value);
            }
            walk.reply()
        }
        _ => Reply::NotOffered,
    }
}

impl<R: Wait> Calls for MapCalls<'_, '_, R> {
    fn reply(&mut self, call: Call) -> Reply {
        match call.kind {
            Kind::Keep => {
                let mut now = self.map.handle();
                let count = now.len();
                self.then = now;
                Reply::Count(count)
            }
            Kind::SeenLen => Reply::Count(self.then.seen_len()),
            Kind::SeenGet => Reply::Value(self.then.seen_get(&call.key).copied()),
            Kind::SeenGetFull => {
                let found = self.then.seen_get_full(&call.key);
                Reply::Full(found.map(|entry| (entry.0, *entry.1, *entry.2)))
            }
            _ if call.by_other => by_handle(self.rt, &mut self.other, self.may, call),
            _ => by_handle(self.rt, &mut self.one, self.may, call),
        }
    }
}

// ---- the lock-free map of shards

/// Two handles of a map of shards that are as old as the map, and one that observed a moment.
#[derive(Drop)]
pub struct ShardCalls<'m, 'h, R: Wait> {
    rt: &'m R,
    map: &'m Shards<'h>,
    one: Many<'m, 'h>,
    other: Many<'m, 'h>,
    then: Many<'m, 'h>,
    may: LockPermit,
}

impl<'m, 'h, R: Wait> ShardCalls<'m, 'h, R> {
    /// # Errors
    /// Fails if a handle can't be allocated.
    pub fn of(
        rt: &'m R,
        map: &'m Shards<'h>,
        may: LockPermit,
    ) -> Result<ShardCalls<'m, 'h, R>, AllocError> {
        Ok(ShardCalls {
            rt,
            map,
            one: map.handle()?,
            other: map.handle()?,
            then: map.handle()?,
            may,
        })
    }
}

/// Makes an insertion or a read by a handle of shards.
fn by_shards<R: Wait>(rt: &R, map: &mut Many<'_, '_>, may: LockPermit, call: Call) -> Reply {
    let (key, value) = (call.key, call.value);
    let mut calls = 0;
    in_shard(match call.kind {
        Kind::Insert | Kind::InsertRef => of_ref(map.insert_ref(rt, key, value), 0),
        Kind::TryInsert | Kind::TryInsertRef => {
            of_ref_attempt(map.try_insert_ref(may, key, value))
        }
        Kind::InsertWith => {
            let make = || -> u64 {
                calls += 1;
                value
            };
            let done = map.get_or_insert_with(rt, key, make);
            of_ref(done, calls)
        }
        Kind::InsertBy | Kind::InsertFails => {
            let make = || -> Result<(u64, u64), Fault> {
                calls += 1;
                if call.kind == Kind::InsertFails {
                    return Err(Fault::Closure);
                }
                Ok((key, value))
            };
            let done = map.insert_by(rt, &key, make);
            of_ref(done, calls)
        }
        Kind::Get | Kind::GetRef => Reply::Value(map.get_ref(&key).copied()),
        Kind::ContainsKey => Reply::Flag(map.contains_key(&key)),
        Kind::Len => Reply::Count(map.len()),
        _ => Reply::NotOffered,
    })
}

impl<R: Wait> Calls for ShardCalls<'_, '_, R> {
    fn is_in_order(&self) -> bool {
        false
    }

    fn may_ask(&self, kind: Kind) -> bool {
        kind == Kind::Keep
    }

    fn reply(&mut self, call: Call) -> Reply {
        match call.kind {
            Kind::Keep => {
                let Ok(mut now) = self.map.handle() else {
                    return no_memory(0);
                };
                let count = now.len();
                let _before = std::mem::replace(&mut self.then, now);
                Reply::Count(count)
            }
            Kind::SeenLen => Reply::Count(self.then.seen_len()),
            _ if call.by_other => by_shards(self.rt, &mut self.other, self.may, call),
            _ => by_shards(self.rt, &mut self.one, self.may, call),
        }
    }
}
