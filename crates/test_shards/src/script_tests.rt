//! The collections that threads share with scripts, until they are dropped or taken apart; and the
//! locked ones compared with their states.
use crate::lists::{HandleList, ListState, LockedList, PlainList};
use crate::locked_maps::{HashedState, OrderedState};
use crate::{interners, lock_free_maps, locked_maps};
use elsa::interner::{ShardedInterner, SharedInterner};
use elsa::sync::{
    FrozenBTreeMap, FrozenMap, FrozenVec, LockFreeFrozenMap, LockFreeFrozenVec, LockFreeShardedMap,
    LockPermit, ShardedMap,
};
use elsa_locks::map::{MapState, TreeState};
use elsa_locks::vec::VecState;
use std::alloc::{AllocError, AllocFailed, Global};
use std::hash::BuildHasherDefault;
use std::process::Abort;
use std::rt::Clock;
use std::sync::{Arc, Wait};
use std::test::Fail;
use test_alloc::Budget;
use test_model::call::{Reply, Walk};
use test_model::draws::clock_seed;
use test_model::script::{Heap, PLANS, Plan, Script, Step, beside};

/// The greatest size.
const MOST: u64 = 50_000;

/// The number of scripts by two collections that are compared with each other.
const BESIDE: u64 = 20;

/// Runs each plan. Each script grows up to `growth` entries.
fn differs<R: Abort + Clock>(
    rt: &R,
    growth: u64,
    script: impl Fn(Plan) -> Result<Step, AllocError>,
) -> Result<(), Fail> {
    let clock = clock_seed(rt)?;
    for number in 0..PLANS {
        let plan = Plan::of(number, clock, MOST, growth);
        let step = script(plan)?;
        assert_eq!(rt; step.got, step.wanted, "{plan:?}: {step:?}");
    }
    Ok(())
}

/// The walk over the entries that came out of a map.
fn pairs(all: &[(u64, u64)], is_in_order: bool) -> Reply {
    let mut walk = Walk::new(is_in_order);
    for entry in all {
        walk.add(entry.0, entry.1);
    }
    walk.reply()
}

/// The walk over the entries that came out of a locked map.
fn owners(all: &[(u64, Arc<u64, &Heap>)]) -> Reply {
    let mut walk = Walk::new(false);
    for entry in all {
        walk.add(entry.0, *entry.1);
    }
    walk.reply()
}

/// Takes a collection apart by `take`: first in vain, since a request is denied. The entries that
/// come out are `walked`.
fn comes_apart<M: Drop, T: Drop>(
    script: &mut Script,
    heap: &Heap,
    moved: M,
    take: impl Fn(M) -> Result<T, AllocFailed<M>>,
    walked: impl Fn(&T) -> Reply,
) {
    heap.refuse_next(1);
    let first = take(moved);
    heap.refuse_next(0);
    let second = match first {
        Ok(all) => Ok(all),
        Err(failed) => take(failed.value),
    };
    match second {
        Ok(all) => script.ends_with(walked(&all)),
        Err(_) => script.ends(Reply::Flag(false), Reply::Flag(true)),
    }
}

// ---- lists

/// Runs a script on a lock-free list: by plain calls in its first half, and then by handles.
fn list_script<R: Wait>(rt: &R, alloc: Global, plan: Plan) -> Result<Step, AllocError> {
    let budget = Budget::new(alloc);
    let heap = &budget;
    let mut script = Script::new(alloc, plan, true)?;
    let vec: LockFreeFrozenVec<u64, &Heap> = LockFreeFrozenVec::new(heap)?;
    let list = &vec;
    script.runs(heap, &mut PlainList { rt, heap, list })?;
    let mut handles = HandleList::of(rt, list, LockPermit::trying(alloc));
    script.runs(heap, &mut handles)?;
    drop(handles);
    let walked = |all: &Vec<u64, &Heap>| {
        let mut walk = Walk::new(true);
        for item in all.iter() {
            walk.add_item(*item);
        }
        walk.reply()
    };
    comes_apart(&mut script, heap, vec, |list| list.into_vec(), walked);
    script.is_freed(heap, 0);
    Ok(script.step)
}

#[test]
fn a_lock_free_list_differed_from_a_list(rt: HostRuntime) -> Result<(), Fail> {
    differs(&rt, 1 << 13, |plan| list_script(&rt, rt.alloc(), plan))
}

fn locked_list_script<R: Wait>(rt: &R, alloc: Global, plan: Plan) -> Result<Step, AllocError> {
    let budget = Budget::new(alloc);
    let heap = &budget;
    let mut script = Script::new(alloc, plan, true)?;
    let vec: FrozenVec<u64, &Heap> = FrozenVec::new(heap);
    let list = &vec;
    script.runs(heap, &mut LockedList { rt, heap, list })?;
    let mut walk = Walk::new(true);
    let all = vec.into_vec();
    for item in all.iter() {
        walk.add_item(**item);
    }
    script.ends_with(walk.reply());
    drop(all);
    script.is_freed(heap, 0);
    Ok(script.step)
}

#[test]
fn a_locked_list_differed_from_a_list(rt: HostRuntime) -> Result<(), Fail> {
    differs(
        &rt,
        1 << 11,
        |plan| locked_list_script(&rt, rt.alloc(), plan),
    )
}

fn list_beside_its_state<R: Wait>(rt: &R, alloc: Global, plan: Plan) -> Result<Step, AllocError> {
    let budget = Budget::new(alloc);
    let heap = &budget;
    let (list, state) = (FrozenVec::new(heap), VecState::new(heap));
    let mut calls = LockedList {
        rt,
        heap,
        list: &list,
    };
    Ok(beside(&mut calls, &mut ListState { state }, plan))
}

// ---- lock-free maps

fn map_script<R: Wait>(rt: &R, alloc: Global, plan: Plan) -> Result<Step, AllocError> {
    let budget = Budget::new(alloc);
    let heap = &budget;
    let mut script = Script::new(alloc, plan, true)?;
    let map: lock_free_maps::Map<'_> = LockFreeFrozenMap::with_hasher(
        heap,
        BuildHasherDefault::new(),
    )?;
    let mut calls = lock_free_maps::MapCalls::of(rt, &map, LockPermit::trying(alloc));
    script.runs(heap, &mut calls)?;
    drop(calls);
    let walked = |all: &Vec<(u64, u64), &Heap>| pairs(all.as_slice(), true);
    comes_apart(&mut script, heap, map, |map| map.into_tuple_vec(), walked);
    script.is_freed(heap, 0);
    Ok(script.step)
}

#[test]
fn a_lock_free_map_differed_from_a_list(rt: HostRuntime) -> Result<(), Fail> {
    differs(&rt, 1 << 13, |plan| map_script(&rt, rt.alloc(), plan))
}

fn shards_script<R: Wait>(rt: &R, alloc: Global, plan: Plan) -> Result<Step, AllocError> {
    let budget = Budget::new(alloc);
    let heap = &budget;
    let mut script = Script::new(alloc, plan, false)?;
    let map: lock_free_maps::Shards<'_> = LockFreeShardedMap::with_shards(
        heap,
        plan.shards(),
        BuildHasherDefault::new(),
    )?;
    let mut calls = lock_free_maps::ShardCalls::of(rt, &map, LockPermit::trying(alloc))?;
    script.runs(heap, &mut calls)?;
    drop(calls);
    let walked = |all: &Vec<(u64, u64), &Heap>| pairs(all.as_slice(), false);
    comes_apart(&mut script, heap, map, |map| map.into_tuple_vec(), walked);
    script.is_freed(heap, 0);
    Ok(script.step)
}

#[test]
fn a_lock_free_map_of_shards_differed_from_a_list(rt: HostRuntime) -> Result<(), Fail> {
    differs(&rt, 1 << 11, |plan| shards_script(&rt, rt.alloc(), plan))
}

// ---- locked maps

/// Compares the entries that came out of a locked map.
fn ends_with(script: &mut Script, moved: Result<Vec<(u64, Arc<u64, &Heap>), &Heap>, AllocError>) {
    match moved {
        Ok(all) => script.ends_with(owners(all.as_slice())),
        Err(AllocError) => script.ends(Reply::Flag(false), Reply::Flag(true)),
    }
}

fn hashed_script<R: Wait>(rt: &R, alloc: Global, plan: Plan) -> Result<Step, AllocError> {
    let budget = Budget::new(alloc);
    let heap = &budget;
    let mut script = Script::new(alloc, plan, false)?;
    let frozen: locked_maps::Hashed<'_> = FrozenMap::new(heap);
    let map = &frozen;
    script.runs(heap, &mut locked_maps::HashedCalls { rt, heap, map })?;
    ends_with(&mut script, frozen.into_tuple_vec());
    script.is_freed(heap, 0);
    Ok(script.step)
}

fn ordered_script<R: Wait>(rt: &R, alloc: Global, plan: Plan) -> Result<Step, AllocError> {
    let budget = Budget::new(alloc);
    let heap = &budget;
    let mut script = Script::new(alloc, plan, false)?;
    let frozen: locked_maps::Ordered<'_> = FrozenBTreeMap::new(heap);
    let map = &frozen;
    script.runs(heap, &mut locked_maps::OrderedCalls { rt, heap, map })?;
    ends_with(&mut script, frozen.into_tuple_vec());
    script.is_freed(heap, 0);
    Ok(script.step)
}

#[test]
fn a_locked_map_differed_from_a_list(rt: HostRuntime) -> Result<(), Fail> {
    differs(&rt, 1 << 11, |plan| hashed_script(&rt, rt.alloc(), plan))?;
    differs(&rt, 1 << 11, |plan| ordered_script(&rt, rt.alloc(), plan))
}

fn hashed_beside_its_state<R: Wait>(rt: &R, alloc: Global, plan: Plan) -> Result<Step, AllocError> {
    let budget = Budget::new(alloc);
    let heap = &budget;
    let (frozen, state) = (FrozenMap::new(heap), MapState::new(heap));
    let map = &frozen;
    let mut calls = locked_maps::HashedCalls { rt, heap, map };
    Ok(beside(&mut calls, &mut HashedState { state }, plan))
}

fn ordered_beside_its_state<R: Wait>(
    rt: &R,
    alloc: Global,
    plan: Plan,
) -> Result<Step, AllocError> {
    let budget = Budget::new(alloc);
    let heap = &budget;
    let (frozen, state) = (FrozenBTreeMap::new(heap), TreeState::new(heap));
    let map = &frozen;
    let mut calls = locked_maps::OrderedCalls { rt, heap, map };
    Ok(beside(&mut calls, &mut OrderedState { state }, plan))
}

#[test]
fn a_locked_collection_differed_from_its_state(rt: HostRuntime) -> Result<(), Fail> {
    for number in 0..BESIDE {
        let plan = Plan::beside(number);
        let step = list_beside_its_state(&rt, rt.alloc(), plan)?;
        assert_eq!(rt; step.got, step.wanted, "list, {plan:?}: {step:?}");
        let step = hashed_beside_its_state(&rt, rt.alloc(), plan)?;
        assert_eq!(rt; step.got, step.wanted, "hashed, {plan:?}: {step:?}");
        let step = ordered_beside_its_state(&rt, rt.alloc(), plan)?;
        assert_eq!(rt; step.got, step.wanted, "ordered, {plan:?}: {step:?}");
        assert!(rt;
            step.number > plan.keys,
            "the script of {plan:?} ended early: {step:?}"
        );
    }
    Ok(())
}

fn locked_shards_script<R: Wait>(rt: &R, alloc: Global, plan: Plan) -> Result<Step, AllocError> {
    let budget = Budget::new(alloc);
    let heap = &budget;
    let mut script = Script::new(alloc, plan, false)?;
    let map: locked_maps::Shards<'_> = ShardedMap::with_shards(
        heap,
        plan.shards(),
        BuildHasherDefault::new(),
    )?;
    script.runs(heap, &mut locked_maps::ShardCalls { rt, map: &map })?;
    ends_with(&mut script, map.into_tuple_vec());
    script.is_freed(heap, 0);
    Ok(script.step)
}

#[test]
fn a_map_of_locked_shards_differed_from_a_list(rt: HostRuntime) -> Result<(), Fail> {
    differs(
        &rt,
        1 << 11,
        |plan| locked_shards_script(&rt, rt.alloc(), plan),
    )
}

// ---- interners

fn names_script<R: Wait>(rt: &R, alloc: Global, plan: Plan) -> Result<Step, AllocError> {
    let budget = Budget::new(alloc);
    let heap = &budget;
    let mut script = Script::new(alloc, plan, true)?;
    let names: interners::Names<'_> = SharedInterner::with_hasher(heap, BuildHasherDefault::new())?;
    let mut calls = interners::NameCalls::of(rt, &names, LockPermit::trying(alloc));
    script.runs(heap, &mut calls)?;
    drop(calls);
    drop(names);
    script.is_freed(heap, 0);
    Ok(script.step)
}

#[test]
fn an_interner_differed_from_a_list(rt: HostRuntime) -> Result<(), Fail> {
    differs(&rt, 1 << 11, |plan| names_script(&rt, rt.alloc(), plan))
}

fn sharded_names_script<R: Wait>(rt: &R, alloc: Global, plan: Plan) -> Result<Step, AllocError> {
    let budget = Budget::new(alloc);
    let heap = &budget;
    let mut script = Script::new(alloc, plan, true)?;
    let names: interners::Shards<'_> = ShardedInterner::with_shards(
        heap,
        plan.shards(),
        BuildHasherDefault::new(),
    )?;
    let (may, is_one) = (LockPermit::trying(alloc), plan.shards() == 1);
    let mut calls = interners::ShardCalls::of(rt, &names, may, is_one)?;
    script.runs(heap, &mut calls)?;
    drop(calls);
    drop(names);
    script.is_freed(heap, 0);
    Ok(script.step)
}

#[test]
fn an_interner_of_shards_differed_from_a_list(rt: HostRuntime) -> Result<(), Fail> {
    differs(
        &rt,
        1 << 11,
        |plan| sharded_names_script(&rt, rt.alloc(), plan),
    )
}
