//! Threads that insert at the same time. Each waits for the others first, so that they overlap.
use elsa_lock_free_map::map::LockFreeFrozenMap;
use std::alloc::AllocError;
use std::process::Abort;
use std::sync::Wait;
use std::sync::atomic::{AtomicU64, Ordering};
use std::test::*;
use std::thread;

/// The number of keys that the threads insert.
const KEYS: u64 = 200;

/// The greatest number of looks of a thread that waits for another.
pub const TURNS: u64 = 10_000_000;

type Map = LockFreeFrozenMap<u64, u64>;

/// Waits until the look returns `true`, and returns whether it did within the bound.
pub fn comes<F: FnMut() -> bool>(mut look: F) -> bool {
    for _ in 0..TURNS {
        if look() {
            return true;
        }
        thread::yield_now();
    }
    false
}

/// Counts this thread, and waits until `count` threads are counted.
pub fn meet_all(there: &AtomicU64, count: u64) -> bool {
    let _ = there.fetch_add(1, Ordering::SeqCst);
    comes(|| there.load(Ordering::SeqCst) >= count)
}

/// Inserts each key with the thread's own number as its value. Returns the number of keys that were
/// new, and the sum of the values that the keys have.
fn insert_all<R: Wait + Abort>(
    rt: &R,
    map: &Map,
    there: &AtomicU64,
    thread: u64,
) -> Result<(u64, u64), AllocError> {
    assert!(rt; meet_all(there, 4));
    let (mut handle, mut own, mut sum) = (map.handle(), 0, 0);
    for i in 0..KEYS {
        let key = (i + 50 * thread) % KEYS;
        let done = handle.insert(rt, key, thread)?;
        assert_eq!(rt; handle.get(key), Some(done.value));
        own += u64::from(done.is_new);
        sum += done.value * (key + 1);
    }
    Ok((own, sum))
}

#[test]
fn four_threads_had_two_values_for_a_key(rt: HostRuntime) -> Result<(), Fail> {
    let (map, there, handle) = (Map::new(rt.alloc())?, AtomicU64::new(0), &rt);
    let done = thread::map_indices(
        handle,
        rt.alloc(),
        4,
        &|at| insert_all(handle, &map, &there, at as u64),
    )?;
    let mut all = 0;
    for one in &done {
        let (own, sum) = (*one)?;
        assert_eq!(rt; Ok(sum), done[0].map(|first| first.1));
        all += own;
    }
    assert_eq!(rt; all, KEYS);
    Ok(())
}

#[test]
fn a_look_up_missed_what_another_thread_inserted(rt: HostRuntime) -> Result<(), Fail> {
    let (map, handle) = (Map::new(rt.alloc())?, &rt);
    let sees_other = |mine: u64, other: u64| -> Result<bool, AllocError> {
        let mut own = map.handle();
        own.insert(handle, mine, mine)?;
        Ok(comes(|| own.get(other) == Some(other)))
    };
    let seen = thread::join(handle, || sees_other(1, 2), || sees_other(2, 1));
    assert_eq!(rt; seen, (Ok(true), Ok(true)));
    Ok(())
}
