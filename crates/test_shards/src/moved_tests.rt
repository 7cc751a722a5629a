//! Maps of shards whose entries are moved out: each entry comes out once, with its first value, and
//! shard after shard. If an allocation fails, a lock-free map comes back whole, and a locked one is
//! dropped.
use elsa::sync::{LockFreeShardedMap, ShardedMap};
use std::alloc::Global;
use std::hash::{BuildHasherDefault, FoldHasher};
use std::sync::{Arc, Wait};
use std::test::Fail;
use std::thread;
use test_alloc::Budget;
use test_model::draws::Draws;

/// The keys of a script are below this number.
const KEYS: u64 = 500;

type State = BuildHasherDefault<FoldHasher>;

type LockFree = LockFreeShardedMap<u64, u64, State>;

#[test]
fn the_entries_of_lock_free_shards_came_out_in_another_order(rt: HostRuntime) -> Result<(), Fail> {
    for count in [1, 7, 64] {
        for calls in [0, 1, 20, 2000] {
            let map: LockFree = LockFreeShardedMap::with_shards(
                rt.alloc(),
                count,
                BuildHasherDefault::new(),
            )?;
            // The first value of each key, in the order of their insertion.
            let (mut firsts, mut is_known) = (Vec::new(rt.alloc()), [false; KEYS as usize]);
            let (mut draws, mut handle) = (Draws::new(calls), map.handle()?);
            for value in 0..calls {
                let key = draws.below(KEYS);
                handle.insert_ref(&rt, key, value)?;
                if !std::mem::replace(&mut is_known[key as usize], true) {
                    firsts.push((key, value))?;
                }
            }
            let mut expected = Vec::new(rt.alloc());
            for shard in 0..count {
                for pair in firsts.iter() {
                    if handle.shard_index(&pair.0) == shard {
                        expected.push(*pair)?;
                    }
                }
            }
            drop(handle);
            let pairs = map.into_tuple_vec().ok().ok_or("not taken apart")?;
            assert_eq!(rt; pairs, expected, "{count} shards, {calls} calls");
        }
    }
    Ok(())
}

// Inserts the keys below `KEYS` by a handle of its own, each with a value of this thread's own.
// Returns the sum of the values that the keys have.
fn inserts_each(rt: &impl Wait, map: &LockFree, thread: usize) -> u64 {
    let mut sum = 0;
    let Ok(mut handle) = map.handle() else {
        return 0;
    };
    for key in 0..KEYS {
        if let Ok(done) = handle.insert_ref(rt, key, key * 8 + thread as u64) {
            sum += *done.value;
        }
    }
    sum
}

#[test]
fn another_value_came_out_than_the_threads_had_found(rt: HostRuntime) -> Result<(), Fail> {
    let map: LockFree = LockFreeShardedMap::new(rt.alloc())?;
    let sums = thread::map_indices(&rt, rt.alloc(), 4, &|at| inserts_each(&rt, &map, at))?;
    let found = inserts_each(&rt, &map, 4);
    assert_eq!(rt; sums.as_slice(), [found; 4].as_slice());
    let (mut keys, mut values) = (0, 0);
    let pairs = map.into_tuple_vec().ok().ok_or("not taken apart")?;
    for (key, value) in &pairs {
        keys += *key;
        values += *value;
    }
    let came = (pairs.len() as u64, keys, values);
    assert_eq!(rt; came, (KEYS, KEYS * (KEYS - 1) / 2, found));
    Ok(())
}

/// The number of entries of the maps below.
const FEW: u64 = 40;

#[test]
fn an_entry_was_lost_when_an_allocation_failed(rt: HostRuntime) -> Result<(), Fail> {
    // The list of rooms, a room for each of three shards, and the list of all entries.
    for number in 0..6 {
        let (heap, owner) = (Budget::new(rt.alloc()), Arc::new(rt.alloc(), 7)?);
        let map: LockFreeShardedMap<u64, Arc<i32>, State, &Budget<_>> =
            LockFreeShardedMap::with_shards(&heap, 3, BuildHasherDefault::new())?;
        let mut handle = map.handle()?;
        for key in 0..FEW {
            handle.insert_ref(&rt, key, owner.clone()?)?;
        }
        drop(handle);
        let denied = heap.asked() + number;
        heap.refuse(denied, denied + 1);
        let moved = map.into_tuple_vec();
        assert_eq!(rt; moved.is_err(), number < 5, "request {number}");
        let pairs = match moved {
            Ok(pairs) => pairs,
            Err(failed) => failed.value.into_tuple_vec().ok().ok_or("not taken apart")?,
        };
        let left = (pairs.len() as u64, Arc::strong_count(&owner) as u64);
        assert_eq!(rt; left, (FEW, FEW + 1), "request {number}");
        assert_eq!(rt; heap.granted() - heap.given(), 1, "request {number}");
        drop(pairs);
        assert_eq!(rt;
            (Arc::strong_count(&owner), heap.given()),
            (1, heap.granted())
        );
    }
    Ok(())
}

#[test]
fn a_failed_allocation_kept_the_memory_of_locked_shards(rt: HostRuntime) -> Result<(), Fail> {
    // A list of the entries of each of three shards, and its growth of the list of all entries.
    for (number, fails) in [(0, true), (1, true), (2, true), (20, false)] {
        let heap = Budget::new(rt.alloc());
        let map: ShardedMap<u64, u64, State, &Budget<Global>> = ShardedMap::with_shards(
            &heap,
            3,
            BuildHasherDefault::new(),
        )?;
        for key in 0..FEW {
            map.insert(&rt, key, key)?;
        }
        let denied = heap.asked() + number;
        heap.refuse(denied, denied + 1);
        let moved = map.into_tuple_vec();
        assert_eq!(rt; moved.is_err(), fails, "request {number}");
        drop(moved);
        assert_eq!(rt; heap.given(), heap.granted(), "request {number}");
    }
    Ok(())
}
