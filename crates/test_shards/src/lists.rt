//! The calls of the lists that threads share: the lock-free one by plain calls and by handles, and
//! the locked one and its state. The key of an item is its index.
use elsa::sync::{AttemptFault, FrozenVec, Handle, LockFreeFrozenVec, LockPermit};
use elsa_locks::vec::VecState;
use std::alloc::AllocError;
use std::sync::{Arc, Wait};
use test_model::call::{Call, Calls, Cause, Kind, Reply, Walk, inserted, made, no_memory};
use test_model::script::Heap;

pub type LockFree<'h> = LockFreeFrozenVec<u64, &'h Heap>;

/// The reply of a push that returns its index.
fn pushed(done: Result<usize, AllocError>, calls: u64) -> Reply {
    match done {
        Ok(index) => made(None, Some(index), Some(true), calls),
        Err(AllocError) => no_memory(calls),
    }
}

// ---- the lock-free list, by plain calls

/// The lock-free list by the calls that need no handle.
#[derive(Drop)]
pub struct PlainList<'m, 'h, R: Wait> {
    pub rt: &'m R,
    pub heap: &'h Heap,
    pub list: &'m LockFree<'h>,
}

/// Reads each item, and at most the index after the last.
fn reads(list: &LockFree<'_>) -> Reply {
    let mut walk = Walk::new(true);
    for index in 0..list.len() + 1 {
        if let Some(item) = list.get(index) {
            walk.add_item(item);
        }
    }
    walk.reply()
}

impl<'h, R: Wait> PlainList<'_, 'h, R> {
    /// Clones, and compares the list with the clone before and after a push into the clone.
    fn cloned(&self) -> Result<Reply, AllocError> {
        let list = self.list;
        let copy = list.clone()?;
        let reply = reads(&copy);
        if !list.equals(&copy) || !copy.equals(list) {
            return Ok(Reply::Flag(false));
        }
        copy.push(self.rt, 0)?;
        if list.equals(&copy) || copy.equals(list) {
            return Ok(Reply::Flag(true));
        }
        Ok(reply)
    }

    /// Compares the list with one that has another item at an index.
    fn equals(&self, index: u64) -> Result<Reply, AllocError> {
        let (list, other) = (self.list, LockFreeFrozenVec::new(self.heap)?);
        for at in 0..list.len() {
            let changed = if at as u64 == index { 1 } else { 0 };
            other.push(self.rt, list.get(at).unwrap_or(0) ^ changed)?;
        }
        let is_equal = list.equals(&other);
        if other.equals(list) != is_equal {
            return Ok(Reply::Done);
        }
        Ok(Reply::Flag(is_equal))
    }
}

impl<R: Wait> Calls for PlainList<'_, '_, R> {
    fn key(&self, _drawn: u64, count: u64) -> u64 {
        count
    }

    fn may_ask(&self, kind: Kind) -> bool {
        matches!(kind, Kind::Clone | Kind::Equals)
    }

    fn reply(&mut self, call: Call) -> Reply {
        let list = self.list;
        match call.kind {
            Kind::Insert => pushed(list.push(self.rt, call.value), 0),
            Kind::Get => Reply::Value(list.get(call.key as usize)),
            Kind::Len => Reply::Count(list.len()),
            Kind::IsEmpty => Reply::Flag(list.is_empty()),
            Kind::Iter => reads(list),
            Kind::Clone => self.cloned().unwrap_or(no_memory(0)),
            Kind::Equals => self.equals(call.key).unwrap_or(no_memory(0)),
            _ => Reply::NotOffered,
        }
    }
}

// ---- the lock-free list, by handles

/// Two handles of a lock-free list that are as old as the list, and one that observed a moment.
#[derive(Drop)]
pub struct HandleList<'m, 'h, R: Wait> {
    rt: &'m R,
    list: &'m LockFree<'h>,
    one: Handle<'m, u64, &'h Heap>,
    other: Handle<'m, u64, &'h Heap>,
    then: Handle<'m, u64, &'h Heap>,
    may: LockPermit,
}

impl<'m, 'h, R: Wait> HandleList<'m, 'h, R> {
    pub fn of(rt: &'m R, list: &'m LockFree<'h>, may: LockPermit) -> HandleList<'m, 'h, R> {
        HandleList {
            rt,
            list,
            one: list.handle(),
            other: list.handle(),
            then: list.handle(),
            may,
        }
    }
}

/// Pushes an item that a closure makes. If it was made for another index than it got, the reply is
/// that of no call.
fn push_with<R: Wait>(rt: &R, handle: &mut Handle<'_, u64, &Heap>, item: u64) -> Reply {
    let mut made_for = None;
    let make = |index: usize| -> u64 {
        made_for = Some(index);
        item
    };
    let done = handle.push_with(rt, make);
    match done {
        Ok(index) if made_for != Some(index) => pushed(Ok(index), 0),
        done => pushed(done, 1),
    }
}

/// Walks over what a handle had observed, and then over its news.
fn news(handle: &mut Handle<'_, u64, &Heap>) -> Reply {
    let mut walk = Walk::new(true);
    for item in handle.iter() {
        walk.add_item(item);
    }
    for item in handle.news() {
        walk.add_item(item);
    }
    walk.reply()
}

/// Walks over references to all items.
fn refs(handle: &mut Handle<'_, u64, &Heap>) -> Reply {
    handle.len();
    let mut walk = Walk::new(true);
    for item in handle.iter().refs() {
        walk.add_item(*item);
    }
    walk.reply()
}

/// Makes a push or a read by a handle.
fn by_handle<R: Wait>(
    rt: &R,
    handle: &mut Handle<'_, u64, &Heap>,
    may: LockPermit,
    call: Call,
) -> Reply {
    let (item, index) = (call.value, call.key as usize);
    match call.kind {
        Kind::Insert => match handle.push(rt, item) {
            Ok(index) => inserted(None, Some(index), Some(true)),
            Err(failed) => Reply::Failed(Cause::Memory, Some(failed.value), 0),
        },
        Kind::TryInsert => match handle.try_push(may, item) {
            Ok(index) => inserted(None, Some(index), Some(true)),
            Err(AttemptFault::Busy(item)) => Reply::Failed(Cause::Busy, Some(item), 0),
            Err(AttemptFault::Failed(failed)) => {
                Reply::Failed(Cause::Memory, Some(failed.value), 0)
            }
        },
        Kind::InsertWith => push_with(rt, handle, item),
        Kind::InsertNew => {
            let items = [item];
            pushed(handle.extend(rt, items.as_slice()), 0)
        }
        Kind::Get => Reply::Value(handle.get(index)),
        Kind::GetRef => Reply::Value(handle.get_ref(index).copied()),
        Kind::Len => Reply::Count(handle.len()),
        Kind::News => news(handle),
        Kind::IterRefs => refs(handle),
        Kind::Clone => match handle.clone_vector() {
            Ok((copy, pass)) if pass.seen_len() == copy.len() => reads(&copy),
            Ok(_) => Reply::Flag(false),
            Err(AllocError) => no_memory(0),
        },
        _ => Reply::NotOffered,
    }
}

impl<R: Wait> Calls for HandleList<'_, '_, R> {
    fn key(&self, _drawn: u64, count: u64) -> u64 {
        count
    }

    fn gives_back(&self, kind: Kind) -> bool {
        matches!(kind, Kind::Insert | Kind::TryInsert)
    }

    fn may_ask(&self, kind: Kind) -> bool {
        kind == Kind::Clone
    }

    fn reply(&mut self, call: Call) -> Reply {
        match call.kind {
            Kind::Keep => {
                let mut now = self.list.handle();
                let count = now.len();
                self.then = now;
                Reply::Count(count)
            }
            Kind::SeenLen => Reply::Count(self.then.seen_len()),
            _ if call.by_other => by_handle(self.rt, &mut self.other, self.may, call),
            _ => by_handle(self.rt, &mut self.one, self.may, call),
        }
    }
}

// ---- the locked list, and its state

#[derive(Drop)]
pub struct LockedList<'m, 'h, R: Wait> {
    pub rt: &'m R,
    pub heap: &'h Heap,
    pub list: &'m FrozenVec<u64, &'h Heap>,
}

/// The reply of a read that returns an owner.
pub fn owned(found: Result<Option<Arc<u64, &Heap>>, AllocError>) -> Reply {
    match found {
        Ok(found) => Reply::Value(found.map(|owner| *owner)),
        Err(AllocError) => no_memory(0),
    }
}

/// The reply of a push that returns nothing.
fn done(pushed: Result<(), AllocError>) -> Reply {
    match pushed {
        Ok(()) => inserted(None, None, None),
        Err(AllocError) => no_memory(0),
    }
}

/// The reply of a push that returns an owner.
fn got(pushed: Result<Arc<u64, &Heap>, AllocError>) -> Reply {
    match pushed {
        Ok(owner) => inserted(Some(*owner), None, None),
        Err(AllocError) => no_memory(0),
    }
}

/// Walks over a list: at most one item more than it says to have.
fn locked_walk<R: Wait>(rt: &R, list: &FrozenVec<u64, &Heap>) -> Reply {
    let (mut items, mut walk) = (list.iter(), Walk::new(true));
    for _ in 0..list.len(rt) + 1 {
        if let Ok(Some(item)) = items.next(rt) {
            walk.add_item(*item);
        }
    }
    walk.reply()
}

impl<R: Wait> LockedList<'_, '_, R> {
    /// Clones, and compares the list with the clone before and after a push into the clone.
    fn cloned(&self) -> Result<Reply, AllocError> {
        let (rt, list) = (self.rt, self.list);
        let copy = list.clone(rt)?;
        let reply = locked_walk(rt, &copy);
        if !list.equals(rt, &copy)? {
            return Ok(Reply::Flag(false));
        }
        copy.push(rt, 0)?;
        if list.equals(rt, &copy)? {
            return Ok(Reply::Flag(true));
        }
        Ok(reply)
    }

    /// Compares the list with one that has another item at an index.
    fn equals(&self, index: u64) -> Result<Reply, AllocError> {
        let (rt, list) = (self.rt, self.list);
        let mut other = list.clone(rt)?;
        if let Some(item) = other.as_mut().get_mut(index as usize) {
            *item = Arc::new(self.heap, **item ^ 1)?;
        }
        Ok(Reply::Flag(list.equals(rt, &other)?))
    }
}

impl<R: Wait> Calls for LockedList<'_, '_, R> {
    fn key(&self, _drawn: u64, count: u64) -> u64 {
        count
    }

    fn may_ask(&self, kind: Kind) -> bool {
        matches!(kind, Kind::Clone | Kind::Equals)
    }

    fn reply(&mut self, call: Call) -> Reply {
        let (rt, list) = (self.rt, self.list);
        match call.kind {
            Kind::Insert => done(list.push(rt, call.value)),
            Kind::InsertRef => got(list.push_get(rt, call.value)),
            Kind::InsertNew => pushed(list.push_get_index(rt, call.value), 0),
            Kind::Get => owned(list.get(rt, call.key as usize)),
            Kind::Len => Reply::Count(list.len(rt)),
            Kind::IsEmpty => Reply::Flag(list.is_empty(rt)),
            Kind::Iter => locked_walk(rt, list),
            Kind::Clone => self.cloned().unwrap_or(no_memory(0)),
            Kind::Equals => self.equals(call.key).unwrap_or(no_memory(0)),
            _ => Reply::NotOffered,
        }
    }
}

/// The state that a locked list has.
#[derive(Drop)]
pub struct ListState<'h> {
    pub state: VecState<u64, &'h Heap>,
}

impl Calls for ListState<'_> {
    fn reply(&mut self, call: Call) -> Reply {
        let state = &mut self.state;
        match call.kind {
            Kind::Insert => done(state.push(call.value)),
            Kind::InsertRef => got(state.push_get(call.value)),
            Kind::InsertNew => pushed(state.push_get_index(call.value), 0),
            Kind::Get => owned(state.get(call.key as usize)),
            Kind::Len => Reply::Count(state.len()),
            Kind::IsEmpty => Reply::Flag(state.is_empty()),
            Kind::Iter => {
                let mut walk = Walk::new(true);
                for index in 0..state.len() {
                    walk.add_item(state.get_copy(index).unwrap_or(0));
                }
                walk.reply()
            }
            _ => Reply::NotOffered,
        }
    }
}
