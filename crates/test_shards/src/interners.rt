//! The calls of the shared interner and of the interner of shards. The value of a name is the name.
use crate::lock_free_maps::State;
use elsa::interner::{NameHandle, ShardedInterner, ShardedNameHandle, SharedInterner};
use elsa::sync::{AttemptFault, LockPermit};
use std::alloc::AllocError;
use std::sync::Wait;
use test_model::call::{Call, Calls, Cause, Kind, Reply, inserted, no_memory};
use test_model::script::Heap;

pub type Names<'h> = SharedInterner<u64, State, &'h Heap>;

pub type Shards<'h> = ShardedInterner<u64, State, &'h Heap>;

type One<'i, 'h> = NameHandle<'i, u64, State, &'h Heap>;

type Many<'i, 'h> = ShardedNameHandle<'i, u64, State, &'h Heap>;

/// The reply of a read of the name with a number.
fn full(number: usize, name: Option<u64>) -> Reply {
    Reply::Full(name.map(|name| (number, name, name)))
}

/// Takes the name of a put out of its errors.
fn tried(done: Result<usize, AttemptFault<u64>>) -> Result<usize, Reply> {
    match done {
        Ok(number) => Ok(number),
        Err(AttemptFault::Busy(name)) => Err(Reply::Failed(Cause::Busy, Some(name), 0)),
        Err(AttemptFault::Failed(AllocError)) => Err(no_memory(0)),
    }
}

// ---- the shared interner

/// Two handles of an interner that are as old as the interner, and one that observed a moment.
#[derive(Drop)]
pub struct NameCalls<'i, 'h, R: Wait> {
    rt: &'i R,
    interner: &'i Names<'h>,
    one: One<'i, 'h>,
    other: One<'i, 'h>,
    then: One<'i, 'h>,
    may: LockPermit,
}

impl<'i, 'h, R: Wait> NameCalls<'i, 'h, R> {
    pub fn of(rt: &'i R, interner: &'i Names<'h>, may: LockPermit) -> NameCalls<'i, 'h, R> {
        NameCalls {
            rt,
            interner,
            one: interner.handle(),
            other: interner.handle(),
            then: interner.handle(),
            may,
        }
    }
}

/// Makes a call by a handle.
fn by_handle<R: Wait>(rt: &R, names: &mut One<'_, '_>, may: LockPermit, call: Call) -> Reply {
    let put = match call.kind {
        Kind::Insert => names.put(rt, call.key).map_err(|_| no_memory(0)),
        Kind::TryInsert => tried(names.try_put(may, call.key)),
        Kind::Find => return Reply::Index(names.find(&call.key)),
        Kind::GetIndex => return full(call.key as usize, names.at(call.key as usize)),
        Kind::Len => return Reply::Count(names.len()),
        Kind::IsFull => return Reply::Flag(names.is_full()),
        _ => return Reply::NotOffered,
    };
    match put {
        Ok(number) => inserted(names.at(number), Some(number), None),
        Err(reply) => reply,
    }
}

impl<R: Wait> Calls for NameCalls<'_, '_, R> {
    fn stored(&self, key: u64, _value: u64) -> u64 {
        key
    }

    fn reply(&mut self, call: Call) -> Reply {
        match call.kind {
            Kind::Keep => {
                let mut now = self.interner.handle();
                let count = now.len();
                let _before = std::mem::replace(&mut self.then, now);
                Reply::Count(count)
            }
            Kind::SeenLen => Reply::Count(self.then.seen_len()),
            Kind::SeenGetFull => match self.then.seen_find(&call.key) {
                Some(number) => full(number, Some(call.key)),
                None => Reply::Full(None),
            },
            _ if call.by_other => by_handle(self.rt, &mut self.other, self.may, call),
            _ => by_handle(self.rt, &mut self.one, self.may, call),
        }
    }
}

// ---- the interner of shards

/// Two handles of an interner of shards. The numbers are in the order of the puts if there is one
/// shard.
#[derive(Drop)]
pub struct ShardCalls<'i, 'h, R: Wait> {
    rt: &'i R,
    interner: &'i Shards<'h>,
    one: Many<'i, 'h>,
    other: Many<'i, 'h>,
    then: Many<'i, 'h>,
    may: LockPermit,
    is_one: bool,
}

impl<'i, 'h, R: Wait> ShardCalls<'i, 'h, R> {
    /// # Errors
    /// Fails if a handle can't be allocated.
    pub fn of(
        rt: &'i R,
        interner: &'i Shards<'h>,
        may: LockPermit,
        is_one: bool,
    ) -> Result<ShardCalls<'i, 'h, R>, AllocError> {
        Ok(ShardCalls {
            rt,
            interner,
            one: interner.handle()?,
            other: interner.handle()?,
            then: interner.handle()?,
            may,
            is_one,
        })
    }
}

/// Makes a call by a handle of shards. The name of a put's number is read back, and found under the
/// same number.
fn by_shards<R: Wait>(
    rt: &R,
    names: &mut Many<'_, '_>,
    may: LockPermit,
    call: Call,
    is_one: bool,
) -> Reply {
    let put = match call.kind {
        Kind::Insert => names.put(rt, call.key).map_err(|_| no_memory(0)),
        Kind::TryInsert => tried(names.try_put(may, call.key)),
        Kind::ContainsKey => {
            return Reply::Flag(match names.find(&call.key) {
                Some(number) => names.at(number) == Some(call.key),
                None => false,
            });
        }
        Kind::Find if is_one => return Reply::Index(names.find(&call.key)),
        Kind::GetIndex if is_one => return full(call.key as usize, names.at(call.key as usize)),
        Kind::Len => return Reply::Count(names.len()),
        _ => return Reply::NotOffered,
    };
    match put {
        Ok(number) if names.find(&call.key) != Some(number) => Reply::Index(Some(number)),
        Ok(number) => inserted(names.at(number), Some(number).filter(|_| is_one), None),
        Err(reply) => reply,
    }
}

impl<R: Wait> Calls for ShardCalls<'_, '_, R> {
    fn stored(&self, key: u64, _value: u64) -> u64 {
        key
    }

    fn may_ask(&self, kind: Kind) -> bool {
        kind == Kind::Keep
    }

    fn reply(&mut self, call: Call) -> Reply {
        match call.kind {
            Kind::Keep => {
                let Ok(mut now) = self.interner.handle() else {
                    return no_memory(0);
                };
                let count = now.len();
                let _before = std::mem::replace(&mut self.then, now);
                Reply::Count(count)
            }
            Kind::SeenLen => Reply::Count(self.then.seen_len()),
            _ if call.by_other => by_shards(self.rt, &mut self.other, self.may, call, self.is_one),
            _ => by_shards(self.rt, &mut self.one, self.may, call, self.is_one),
        }
    }
}
