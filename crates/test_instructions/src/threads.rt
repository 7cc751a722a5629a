//! The collections that threads share, by one thread.
use crate::rows::{Map, again, filled, reads, turns};
use crate::{CALLS, Draws, key};
use elsa::interner::{Name, SharedInterner};
use elsa::sync::{
    LockFreeFrozenMap, LockFreeFrozenVec, LockFreeShardedMap, MapHandle, ShardedHandle,
};
use std::alloc::{AllocError, Global};
use std::sync::Wait;

/// A handle of a map, and the permission to wait.
#[derive(Drop)]
struct Numbers<'r, R, H> {
    rt: &'r R,
    handle: H,
}

type Free<'r, 'm, R> = Numbers<'r, R, MapHandle<'m, u64, u64>>;

type Sharded<'r, 'm, R> = Numbers<'r, R, ShardedHandle<'m, u64, u64>>;

impl<'r, 'm, R: Wait> Map for Free<'r, 'm, R> {
    #[inline(always)]
    fn insert(&mut self, index: usize) -> Result<u64, AllocError> {
        Ok(self.handle.insert(self.rt, key(index), index as u64)?.value)
    }

    #[inline(always)]
    fn get(&mut self, index: usize) -> u64 {
        self.handle.get(key(index)).unwrap_or(1)
    }
}

impl<'r, 'm, R: Wait> Map for Sharded<'r, 'm, R> {
    #[inline(always)]
    fn insert(&mut self, index: usize) -> Result<u64, AllocError> {
        Ok(
            *self
                .handle
                .insert_ref(self.rt, key(index), index as u64)?
                .value,
        )
    }

    #[inline(always)]
    fn get(&mut self, index: usize) -> u64 {
        self.handle.get_ref(&key(index)).copied().unwrap_or(1)
    }
}

#[inline(never)]
fn lock_free_map_get_present<R: Wait>(map: &mut Free<'_, '_, R>, entries: usize) -> u64 {
    reads(map, entries, 0)
}

#[inline(never)]
fn lock_free_map_get_absent<R: Wait>(map: &mut Free<'_, '_, R>, entries: usize) -> u64 {
    reads(map, entries, entries)
}

#[inline(never)]
fn lock_free_map_insert_present<R: Wait>(
    map: &mut Free<'_, '_, R>,
    entries: usize,
) -> Result<u64, AllocError> {
    again(map, entries)
}

#[inline(never)]
fn lock_free_map_fill<R: Wait>(rt: &R, alloc: Global, entries: usize) -> Result<(), AllocError> {
    for _turn in 0..turns(entries) {
        let map = LockFreeFrozenMap::new(alloc)?;
        let handle = map.handle();
        let _made = filled(Numbers { rt, handle }, entries)?;
    }
    Ok(())
}

#[inline(never)]
fn sharded_map_get_present<R: Wait>(map: &mut Sharded<'_, '_, R>, entries: usize) -> u64 {
    reads(map, entries, 0)
}

#[inline(never)]
fn sharded_map_get_absent<R: Wait>(map: &mut Sharded<'_, '_, R>, entries: usize) -> u64 {
    reads(map, entries, entries)
}

#[inline(never)]
fn sharded_map_fill<R: Wait>(rt: &R, alloc: Global, entries: usize) -> Result<(), AllocError> {
    for _turn in 0..turns(entries) {
        let map = LockFreeShardedMap::new(alloc)?;
        let handle = map.handle()?;
        let _made = filled(Numbers { rt, handle }, entries)?;
    }
    Ok(())
}

#[inline(never)]
fn lock_free_vec_get(items: &LockFreeFrozenVec<u64>, entries: usize) -> u64 {
    let mut handle = items.handle();
    let mut draws = Draws::new();
    let mut sum = 0u64;
    for _turn in 0..CALLS {
        sum = sum.wrapping_add(handle.get(draws.below(entries)).unwrap_or(1));
    }
    sum
}

#[inline(never)]
fn lock_free_vec_fill<R: Wait>(rt: &R, alloc: Global, entries: usize) -> Result<u64, AllocError> {
    let mut sum = 0u64;
    for _turn in 0..turns(entries) {
        let items = LockFreeFrozenVec::new(alloc)?;
        for number in 0..entries {
            sum = sum.wrapping_add(items.push(rt, number as u64)? as u64);
        }
    }
    Ok(sum)
}

#[inline(never)]
fn shared_interner_put_present<R: Wait>(
    rt: &R,
    interner: &SharedInterner,
    names: &[Name],
) -> Result<u64, AllocError> {
    let mut handle = interner.handle();
    let mut draws = Draws::new();
    let mut sum = 0u64;
    for _turn in 0..CALLS {
        if let Some(name) = names.get(draws.below(names.len())) {
            sum = sum.wrapping_add(handle.put(rt, *name)? as u64);
        }
    }
    Ok(sum)
}

/// Makes the calls of all rows of these collections.
pub fn all<R: Wait>(rt: &R, alloc: Global, entries: usize) -> Result<u64, AllocError> {
    let mut sum = 0u64;
    let map = LockFreeFrozenMap::new(alloc)?;
    let handle = map.handle();
    let mut numbers = filled(Numbers { rt, handle }, entries)?;
    sum = sum.wrapping_add(lock_free_map_get_present(&mut numbers, entries));
    sum = sum.wrapping_add(lock_free_map_get_absent(&mut numbers, entries));
    sum = sum.wrapping_add(lock_free_map_insert_present(&mut numbers, entries)?);
    lock_free_map_fill(rt, alloc, entries)?;
    let map = LockFreeShardedMap::new(alloc)?;
    let handle = map.handle()?;
    let mut numbers = filled(Numbers { rt, handle }, entries)?;
    sum = sum.wrapping_add(sharded_map_get_present(&mut numbers, entries));
    sum = sum.wrapping_add(sharded_map_get_absent(&mut numbers, entries));
    sharded_map_fill(rt, alloc, entries)?;
    let items = LockFreeFrozenVec::new(alloc)?;
    for number in 0..entries {
        let _index = items.push(rt, number as u64)?;
    }
    sum = sum.wrapping_add(lock_free_vec_get(&items, entries));
    sum = sum.wrapping_add(lock_free_vec_fill(rt, alloc, entries)?);
    let interner = SharedInterner::new(alloc)?;
    let mut handle = interner.handle();
    let mut names = Vec::new(alloc);
    for index in 0..entries {
        let text = format!(in alloc; "name{index}")?;
        if let Ok(name) = Name::new(text.as_str()) {
            let _number = handle.put(rt, name)?;
            names.push(name)?;
        }
    }
    Ok(sum.wrapping_add(shared_interner_put_present(rt, &interner, names.as_slice())?))
}
