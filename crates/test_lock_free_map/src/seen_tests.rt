//! What a handle has observed: a handle that isn't advanced has the entries of one moment, while
//! other threads insert, and a walk visits the entries of its beginning.
use crate::thread_tests::meet_all;
use elsa_lock_free_map::handle::MapHandle;
use elsa_lock_free_map::map::LockFreeFrozenMap;
use std::alloc::AllocError;
use std::mem::size_of_val;
use std::process::Abort;
use std::sync::Wait;
use std::sync::atomic::AtomicU64;
use std::test::*;
use std::thread;

/// The number of keys that the moment has.
const BEFORE: u64 = 70;

/// The number of keys that each thread inserts later.
const LATER: u64 = 200;

type Map = LockFreeFrozenMap<u64, u64>;

/// Inserts the numbers from `first` to `end - 1`, each with its double.
fn insert_doubles<R: Wait>(
    rt: &R,
    handle: &mut MapHandle<'_, u64, u64>,
    first: u64,
    end: u64,
) -> Result<(), AllocError> {
    for number in first..end {
        handle.insert(rt, number, 2 * number)?;
    }
    Ok(())
}

/// Inserts the keys of one thread, and checks after each of them that a moment from before has the
/// keys below [`BEFORE`], at themselves as their indices, and not this one.
fn inserts<R: Wait + Abort>(
    rt: &R,
    map: &Map,
    there: &AtomicU64,
    thread: u64,
) -> Result<(), AllocError> {
    assert!(rt; meet_all(there, 4));
    let (mut moment, mut handle) = (map.handle(), map.handle());
    let seen = moment.len();
    for i in 0..LATER {
        let (old, key) = (i % BEFORE, BEFORE + thread * LATER + i);
        handle.insert(rt, key, i)?;
        assert_eq!(rt; handle.seen_get(&key), Some(&i));
        let double = 2 * old;
        let got = moment.seen_get_full(&old);
        assert_eq!(rt; got, Some((old as usize, &old, &double)));
        assert_eq!(rt; moment.seen_get(&old), Some(&double));
        let got = (moment.seen_get_full(&key), moment.seen_get(&key));
        assert_eq!(rt; got, (None, None));
        assert_eq!(rt; moment.seen_len(), seen);
    }
    Ok(())
}

#[test]
fn a_moment_changed_while_four_threads_inserted(rt: HostRuntime) -> Result<(), Fail> {
    let (map, there, handle) = (Map::new(rt.alloc())?, AtomicU64::new(0), &rt);
    let mut moment = map.handle();
    insert_doubles(&rt, &mut moment, 0, BEFORE)?;
    let done = thread::map_indices(
        handle,
        rt.alloc(),
        4,
        &|at| inserts(handle, &map, &there, at as u64),
    )?;
    assert_eq!(rt; done.as_slice(), [Ok(()); 4].as_slice());
    assert_eq!(rt; moment.seen_len() as u64, BEFORE);
    Ok(())
}

#[test]
fn a_walk_visited_another_entry_than_those_of_its_beginning(rt: HostRuntime) -> Result<(), Fail> {
    for count in [0, 1, 3, 4, 15, 16, 70] {
        let map = Map::new(rt.alloc())?;
        let mut handle = map.handle();
        insert_doubles(&rt, &mut handle, 0, count)?;
        let walk = handle.iter();
        assert_eq!(rt; walk.size_hint().0 as u64, count);
        insert_doubles(&rt, &mut handle, count, 2 * count)?;
        let mut next = 0;
        for (key, value) in walk {
            assert_eq!(rt; (key, value), (next, 2 * next));
            next += 1;
        }
        assert_eq!(rt; next, count);
    }
    Ok(())
}

#[test]
fn a_history_of_a_map_had_bytes(rt: HostRuntime) -> Result<(), AllocError> {
    let map: LockFreeFrozenMap<u64, u64> = LockFreeFrozenMap::new(rt.alloc())?;
    let mut handle = map.handle();
    handle.insert(&rt, 7, 14)?;
    let history = handle.history();
    assert_eq!(rt; size_of_val(&history), 0);
    history.is_one_with(&handle.history());
    Ok(())
}
