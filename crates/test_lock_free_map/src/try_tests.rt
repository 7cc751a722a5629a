//! Insertions that don't wait: by one thread alone, while another thread's insertion is halted, and
//! by two threads at once; and a value that is dropped because its insertion failed.
use crate::thread_tests::{TURNS, comes};
use elsa_lock_free::may_lock::{AttemptFault, LockPermit};
use elsa_lock_free_map::handle::MapHandle;
use elsa_lock_free_map::map::LockFreeFrozenMap;
use std::alloc::{Allocator, Global};
use std::hash::{BuildHasherDefault, FoldHasher};
use std::sync::atomic::{AtomicU64, Ordering};
use std::test::*;
use std::thread;
use test_alloc::Budget;

/// The number of keys that two threads insert, each in an order of its own.
const KEYS: u64 = 1_000;

type State = BuildHasherDefault<FoldHasher>;

type Map<A> = LockFreeFrozenMap<u64, u64, State, A>;

/// What an insertion returned: the index and whether the key is new, or the key and the value that
/// it has not inserted.
#[derive(Clone, Copy, Debug, PartialEq)]
enum Tried {
    At(usize, bool),
    Busy(u64, u64),
    Failed,
}

fn tried<A: Allocator + Copy>(
    handle: &mut MapHandle<'_, u64, u64, State, A>,
    may: LockPermit,
    key: u64,
    value: u64,
) -> Tried {
    match handle.try_insert(may, key, value) {
        Ok(inserted) => Tried::At(inserted.index, inserted.is_new),
        Err(AttemptFault::Busy((key, value))) => Tried::Busy(key, value),
        Err(AttemptFault::Failed(_)) => Tried::Failed,
    }
}

/// The second handle has not observed the key that the first one inserts.
#[test]
fn one_thread_alone_found_the_map_busy(rt: HostRuntime) -> Result<(), Fail> {
    let (map, may) = (Map::new(rt.alloc())?, LockPermit::trying(rt.alloc()));
    let (mut one, mut other) = (map.handle(), map.handle());
    for index in 0..100 {
        let both = [
            tried(&mut one, may, index as u64, 1),
            tried(&mut other, may, index as u64, 2),
        ];
        assert_eq!(rt; both, [Tried::At(index, true), Tried::At(index, false)]);
    }
    assert_eq!(rt; map.handle().get(99), Some(1));
    Ok(())
}

#[test]
fn an_insertion_into_a_locked_map_did_not_return_its_key(rt: HostRuntime) -> Result<(), Fail> {
    let heap = Budget::<Global>::new(rt.alloc());
    let (map, may) = (Map::new(&heap)?, LockPermit::trying(rt.alloc()));
    heap.halt_next();
    let ((halted, result, still, seen), first) = thread::join(
        &rt,
        || {
            let mut handle = map.handle();
            let halted = comes(|| heap.is_halted());
            let result = tried(&mut handle, may, 7, 70);
            let still = heap.is_halted();
            heap.go_on();
            (halted, result, still, handle.seen_len())
        },
        || tried(&mut map.handle(), may, 1, 10),
    );
    assert!(rt; halted && still);
    let got = (result, seen, first);
    assert_eq!(rt; got, (Tried::Busy(7, 70), 0, Tried::At(0, true)));
    let mut handle = map.handle();
    assert_eq!(rt; (handle.len(), handle.get(7)), (1, None));
    assert_eq!(rt; tried(&mut handle, may, 7, 70), Tried::At(1, true));
    Ok(())
}

/// Inserts all keys, from `first` on, each again while another thread has the lock. Returns the
/// number of keys that were new, or `None` if an insertion failed.
fn insert_all(map: &Map<Global>, may: LockPermit, first: u64) -> Option<u64> {
    let (mut handle, mut new) = (map.handle(), 0);
    for i in 0..KEYS {
        let mut done = Tried::Failed;
        for _ in 0..TURNS {
            done = tried(&mut handle, may, (first + i) % KEYS, first);
            if !matches!(done, Tried::Busy(_, _)) {
                break;
            }
            thread::yield_now();
        }
        let Tried::At(_, is_new) = done else {
            return None;
        };
        new += u64::from(is_new);
    }
    Some(new)
}

#[test]
fn a_key_was_new_to_two_threads_that_do_not_wait_or_to_none(rt: HostRuntime) -> Result<(), Fail> {
    let (map, may) = (Map::new(rt.alloc())?, LockPermit::trying(rt.alloc()));
    let (Some(one), Some(two)) = thread::join(
        &rt,
        || insert_all(&map, may, 0),
        || insert_all(&map, may, KEYS / 2),
    ) else {
        return Err(Fail::from("an insertion failed"));
    };
    assert_eq!(rt; (one + two, map.handle().len() as u64), (KEYS, KEYS));
    let mut handle = map.handle();
    for key in 0..KEYS {
        assert!(rt; handle.get(key).is_some(), "{key}");
    }
    Ok(())
}

/// A value whose drop waits, once, until another thread's call returns.
struct Dropped<'t> {
    drops: &'t AtomicU64,
    answered: &'t AtomicU64,
}

impl Drop for Dropped<'_> {
    fn drop(self) {
        let Self { drops, answered } = self;
        drops.store(1, Ordering::SeqCst);
        let _ = comes(|| answered.load(Ordering::SeqCst) == 1);
    }
}

/// Keys are inserted with one request denied. The value of the one that fails is dropped, and
/// another thread inserts meanwhile: it would find the map busy if the drop had the lock.
#[test]
fn a_value_was_dropped_under_the_lock_when_its_insertion_failed(
    rt: HostRuntime,
) -> Result<(), Fail> {
    let (handle, may) = (&rt, LockPermit::trying(rt.alloc()));
    for request in 0..4 {
        let (heap, drops, answered) = (
            Budget::new(rt.alloc()),
            AtomicU64::new(0),
            AtomicU64::new(0),
        );
        let value = || Dropped {
            drops: &drops,
            answered: &answered,
        };
        let map: LockFreeFrozenMap<u64, Dropped<'_>, State, &Budget<Global>> =
            LockFreeFrozenMap::with_hasher(&heap, BuildHasherDefault::new())?;
        heap.refuse(heap.asked() + request, heap.asked() + request + 1);
        let (failed, (dropped, is_busy)) = thread::join(
            handle,
            || (0..100).find(|key| map.handle().insert_ref(handle, *key, value()).is_err()),
            || {
                let dropped = comes(|| drops.load(Ordering::SeqCst) == 1);
                let done = map.handle().try_insert_ref(may, 1000, value());
                let is_busy = matches!(done, Err(AttemptFault::Busy(_)));
                answered.store(1, Ordering::SeqCst);
                (dropped, is_busy)
            },
        );
        let got = (dropped, is_busy);
        assert_eq!(rt; got, (true, false), "request {request}, {failed:?}");
        assert!(rt; failed.is_some(), "request {request}");
    }
    Ok(())
}
