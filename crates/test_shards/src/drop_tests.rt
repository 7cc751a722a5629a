//! The drops of what the shared collections own: each item, key and value is dropped once, and what
//! a failed insertion doesn't store is dropped after the lock is released.
use elsa::sync::{
    FrozenBTreeMap, FrozenMap, LockFreeFrozenMap, LockFreeFrozenVec, LockFreeShardedMap,
    LockPermit, ShardedMap,
};
use std::alloc::{AllocError, Global};
use std::hash::{BuildHasherDefault, FoldHasher};
use std::sync::atomic::{AtomicU64, Ordering};
use std::sync::{Arc, Wait};
use std::test::Fail;
use std::thread;
use std::thread::Threads;
use test_alloc::Budget;
use test_model::script::Heap;

type State = BuildHasherDefault<FoldHasher>;

/// Numbers of entries: few, those where a buffer ends, and many.
const SIZES: [usize; 12] = [0, 1, 2, 3, 4, 20, 100, 255, 256, 1023, 10_000, 16_384];

#[test]
fn an_item_of_a_lock_free_list_was_not_dropped_once(rt: HostRuntime) -> Result<(), Fail> {
    let owner = Arc::new(rt.alloc(), 7)?;
    for count in SIZES {
        let list: LockFreeFrozenVec<Arc<u64>> = LockFreeFrozenVec::new(rt.alloc())?;
        let mut handle = list.handle();
        for _ in 0..count {
            handle.push(&rt, owner.clone()?).map_err(|_| AllocError)?;
        }
        drop(handle);
        assert_eq!(rt; Arc::strong_count(&owner), count + 1);
        if count % 2 == 0 {
            drop(list);
        } else {
            let all = list.into_vec().map_err(|_| AllocError)?;
            assert_eq!(rt; (all.len(), Arc::strong_count(&owner)), (count, count + 1));
            drop(all);
        }
        assert_eq!(rt; Arc::strong_count(&owner), 1, "{count} items");
    }
    Ok(())
}

#[test]
fn an_entry_of_a_lock_free_map_was_not_dropped_once(rt: HostRuntime) -> Result<(), Fail> {
    let (keys, values) = (Arc::new(rt.alloc(), 7)?, Arc::new(rt.alloc(), 8)?);
    let owners = || (Arc::strong_count(&keys), Arc::strong_count(&values));
    for count in SIZES {
        let map: LockFreeFrozenMap<(usize, Arc<u64>), Arc<u64>> = LockFreeFrozenMap::new(
            rt.alloc(),
        )?;
        let shards: LockFreeShardedMap<(usize, Arc<u64>), Arc<u64>> = LockFreeShardedMap::new(
            rt.alloc(),
        )?;
        let (mut handle, mut many) = (map.handle(), shards.handle()?);
        for number in 0..count + 10 {
            let key = (number % count.max(1), keys.clone()?);
            handle.insert_ref(&rt, key, values.clone()?)?;
            let key = (number % count.max(1), keys.clone()?);
            many.insert_ref(&rt, key, values.clone()?)?;
        }
        drop(handle);
        drop(many);
        let held = 2 * count.max(1) + 1;
        assert_eq!(rt; owners(), (held, held), "{count} keys");
        if count % 2 == 0 {
            drop(map);
            drop(shards);
        } else {
            let all = map.into_tuple_vec().map_err(|_| AllocError)?;
            let more = shards.into_tuple_vec().map_err(|_| AllocError)?;
            assert_eq!(rt;
                (all.len() + more.len() + 1, owners()),
                (held, (held, held))
            );
        }
        assert_eq!(rt; owners(), (1, 1), "{count} keys");
    }
    Ok(())
}

// ---- a drop that waits for a call on its map

/// A mark that a thread raises and others wait for.
#[derive(Drop)]
struct Mark {
    word: AtomicU64,
}

impl Mark {
    fn new() -> Mark {
        Mark {
            word: AtomicU64::new(0),
        }
    }

    fn raise(&self) {
        self.word.store(1, Ordering::SeqCst);
    }

    fn is_raised(&self) -> bool {
        self.word.load(Ordering::SeqCst) == 1
    }

    /// Waits until the mark is raised, at most for 200,000 turns. Returns whether it is.
    fn comes(&self) -> bool {
        for _ in 0..200_000 {
            if self.is_raised() {
                return true;
            }
            thread::yield_now();
        }
        false
    }
}

/// The marks by which a drop and another thread wait for each other.
#[derive(Drop)]
struct Visit {
    drops: Mark,
    answered: Mark,
    saw: Mark,
}

impl Visit {
    fn new() -> Visit {
        Visit {
            drops: Mark::new(),
            answered: Mark::new(),
            saw: Mark::new(),
        }
    }
}

/// A value whose drop waits until another thread's call on the same map returns, if it has a visit.
struct Watched<'v> {
    visit: Option<&'v Visit>,
}

impl Drop for Watched<'_> {
    fn drop(self) {
        let Self { visit } = self;
        if let Some(visit) = visit {
            visit.drops.raise();
            if visit.answered.comes() {
                visit.saw.raise();
            }
        }
    }
}

/// A shared map of watched values.
trait Shelf<'v> {
    /// Inserts a value, and returns whether that failed.
    fn fails<R: Wait>(&self, rt: &R, value: Watched<'v>) -> bool;

    /// Makes a call that the lock would keep from returning, and returns whether it did its work.
    fn answers<R: Wait>(&self, rt: &R, alloc: Global) -> bool;
}

impl<'v> Shelf<'v> for LockFreeFrozenMap<u64, Watched<'v>, State, &Heap> {
    fn fails<R: Wait>(&self, rt: &R, value: Watched<'v>) -> bool {
        self.handle().insert_ref(rt, 1, value).is_err()
    }

    fn answers<R: Wait>(&self, _rt: &R, alloc: Global) -> bool {
        let quiet = Watched { visit: None };
        self.handle()
            .try_insert_ref(LockPermit::trying(alloc), 2, quiet)
            .is_ok()
    }
}

impl<'v> Shelf<'v> for LockFreeShardedMap<u64, Watched<'v>, State, &Heap> {
    fn fails<R: Wait>(&self, rt: &R, value: Watched<'v>) -> bool {
        match self.handle() {
            Ok(mut handle) => handle.insert_ref(rt, 1, value).is_err(),
            Err(AllocError) => true,
        }
    }

    fn answers<R: Wait>(&self, _rt: &R, alloc: Global) -> bool {
        let (Ok(mut handle), quiet) = (self.handle(), Watched { visit: None }) else {
            return false;
        };
        handle
            .try_insert_ref(LockPermit::trying(alloc), 2, quiet)
            .is_ok()
    }
}

impl<'v> Shelf<'v> for FrozenMap<u64, Watched<'v>, State, &Heap> {
    fn fails<R: Wait>(&self, rt: &R, value: Watched<'v>) -> bool {
        self.insert(rt, 1, value).is_err()
    }

    fn answers<R: Wait>(&self, rt: &R, _alloc: Global) -> bool {
        self.is_empty(rt)
    }
}

impl<'v> Shelf<'v> for FrozenBTreeMap<u64, Watched<'v>, &Heap> {
    fn fails<R: Wait>(&self, rt: &R, value: Watched<'v>) -> bool {
        self.insert(rt, 1, value).is_err()
    }

    fn answers<R: Wait>(&self, rt: &R, _alloc: Global) -> bool {
        self.is_empty(rt)
    }
}

impl<'v> Shelf<'v> for ShardedMap<u64, Watched<'v>, State, &Heap> {
    fn fails<R: Wait>(&self, rt: &R, value: Watched<'v>) -> bool {
        self.insert(rt, 1, value).is_err()
    }

    fn answers<R: Wait>(&self, rt: &R, _alloc: Global) -> bool {
        self.is_empty(rt)
    }
}

/// Inserts a value while the request with this number is denied, and makes a call by another thread
/// while the value is dropped. Returns whether the insertion failed, and whether that call returned
/// before the drop did.
fn is_free<'v, R: Threads + Wait + Sync, S: Shelf<'v> + Sync>(
    rt: &R,
    alloc: Global,
    heap: &Heap,
    shelf: &S,
    visit: &'v Visit,
    number: u64,
) -> (bool, bool) {
    let denied = heap.asked() + number;
    heap.refuse(denied, denied + 1);
    let answers = || {
        if visit.drops.comes() && shelf.answers(rt, alloc) {
            visit.answered.raise();
        }
    };
    let fails = || shelf.fails(rt, Watched { visit: Some(visit) });
    let (has_failed, ()) = thread::join(rt, fails, answers);
    (has_failed, visit.saw.is_raised())
}

#[test]
fn a_value_was_dropped_under_the_lock_when_a_request_was_denied(
    rt: HostRuntime,
) -> Result<(), Fail> {
    let alloc = rt.alloc();
    let heap = Budget::new(alloc);
    for number in 0..2 {
        let visit = Visit::new();
        let map = LockFreeFrozenMap::with_hasher(&heap, BuildHasherDefault::new())?;
        let found = is_free(&rt, alloc, &heap, &map, &visit, number);
        assert_eq!(rt; found, (true, true), "lock-free, request {number}");
        let visit = Visit::new();
        let shards = LockFreeShardedMap::with_shards(&heap, 1, BuildHasherDefault::new())?;
        // The first request is for the handle.
        let found = is_free(&rt, alloc, &heap, &shards, &visit, number + 1);
        assert_eq!(rt; found, (true, true), "lock-free shards, request {number}");
    }
    // The first request is for the table. A value for which no `Arc` could be allocated is dropped
    // under the lock.
    let visit = Visit::new();
    let found = is_free(&rt, alloc, &heap, &FrozenMap::new(&heap), &visit, 0);
    assert_eq!(rt; found, (true, true), "locked");
    let visit = Visit::new();
    let found = is_free(&rt, alloc, &heap, &FrozenBTreeMap::new(&heap), &visit, 0);
    assert_eq!(rt; found, (true, true), "ordered");
    let visit = Visit::new();
    let locked = ShardedMap::with_shards(&heap, 1, BuildHasherDefault::new())?;
    let found = is_free(&rt, alloc, &heap, &locked, &visit, 0);
    assert_eq!(rt; found, (true, true), "locked shards");
    Ok(())
}
