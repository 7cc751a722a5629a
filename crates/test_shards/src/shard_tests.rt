//! The maps of shards: every shard is used and counted, and a key is found in the shard into which
//! it was inserted, by any query and any thread. And texts that are inserted as such.
use bumpalo::Bump;
use elsa::sync::{FrozenMap, LockFreeFrozenMap, LockFreeShardedMap, ShardedMap};
use std::alloc::Global;
use std::hash::{BuildHasherDefault, FoldHasher};
use std::sync::Wait;
use std::test::Fail;
use std::thread;
use test_alloc::Budget;

/// The number of keys that are spread over the shards.
const MANY: u64 = 4000;

type State = BuildHasherDefault<FoldHasher>;

type Locked<A = Global> = ShardedMap<u64, u64, State, A>;

type LockFree<A = Global> = LockFreeShardedMap<u64, u64, State, A>;

#[test]
fn a_shard_was_not_counted(rt: HostRuntime) -> Result<(), Fail> {
    for key in 0..100 {
        let map: Locked = ShardedMap::with_shards(rt.alloc(), 7, BuildHasherDefault::new())?;
        assert_eq!(rt; (map.len(&rt), map.is_empty(&rt)), (0, true));
        map.insert(&rt, key, key)?;
        assert_eq!(rt; (map.len(&rt), map.is_empty(&rt)), (1, false), "{key}");
    }
    // The length is the sum over all shards.
    let map: Locked = ShardedMap::with_shards(rt.alloc(), 64, BuildHasherDefault::new())?;
    for key in 0..MANY {
        assert_eq!(rt; map.len(&rt) as u64, key);
        map.insert(&rt, key, key)?;
    }
    Ok(())
}

#[test]
fn a_shard_was_not_used(rt: HostRuntime) -> Result<(), Fail> {
    for count in [1, 7, 64] {
        let map: Locked = ShardedMap::with_shards(rt.alloc(), count, BuildHasherDefault::new())?;
        let mut is_used = [false; 64];
        for key in 0..MANY {
            is_used[map.shard_index(&key)] = true;
        }
        let used = is_used.iter().filter(|it| **it).count();
        assert_eq!(rt; (map.shard_count(), used), (count, count));

        let map: LockFree = LockFreeShardedMap::with_shards(
            rt.alloc(),
            count,
            BuildHasherDefault::new(),
        )?;
        let mut handle = map.handle()?;
        for key in 0..MANY {
            handle.insert_ref(&rt, key, key)?;
        }
        let used = handle
            .shards()
            .iter()
            .filter(|shard| shard.seen_len() > 0)
            .count();
        assert_eq!(rt;
            (map.shards().len(), handle.shards().len(), used),
            (count, count, count)
        );
        assert_eq!(rt; map.handle()?.seen_len(), 0);
    }
    Ok(())
}

// Inserts the same keys as other threads do, each with a value of this thread's own. Returns the
// sum of the values that the keys have.
fn sum_of_values(rt: &impl Wait, map: &Locked, thread: usize) -> u64 {
    let mut sum = 0;
    for key in 0..MANY {
        if let Ok(value) = map.get_copy_or_insert(rt, key, key * 8 + thread as u64) {
            sum += value;
        }
    }
    sum
}

#[test]
fn two_threads_found_different_values_of_a_key(rt: HostRuntime) -> Result<(), Fail> {
    let map: Locked = ShardedMap::new(rt.alloc())?;
    let sums = thread::map_indices(&rt, rt.alloc(), 4, &|at| sum_of_values(&rt, &map, at))?;
    let values = sum_of_values(&rt, &map, 4);
    assert_eq!(rt; sums.as_slice(), [values; 4].as_slice());
    assert_eq!(rt; map.len(&rt) as u64, MANY);
    Ok(())
}

#[test]
fn a_text_was_not_found_in_the_shard_of_its_string(rt: HostRuntime) -> Result<(), Fail> {
    let text = |text: &str| String::from_str(rt.alloc(), text);
    let map: ShardedMap<String, u64> = ShardedMap::new(rt.alloc())?;
    assert_eq!(rt; *map.insert(&rt, text("one")?, 1)?, 1);
    assert_eq!(rt; *map.insert_with(&rt, text("one")?, || 2)?, 1);
    assert!(rt; map.get(&rt, "on")?.is_none());
    assert_eq!(rt; (map.get_copy(&rt, "one!"), map.len(&rt)), (None, 1));
    assert_eq!(rt; map.map_get(&rt, "one", |value| *value), Some(1));
    assert!(rt; map.shard_index("one") < 64);

    let map: LockFreeShardedMap<String, String> = LockFreeShardedMap::new(rt.alloc())?;
    let mut handle = map.handle()?;
    for value in ["first", "second"] {
        let done = handle.insert_ref(&rt, text("one")?, text(value)?)?;
        assert_eq!(rt; done.value.as_str(), "first");
    }
    let third = text("third")?;
    let made = handle.get_or_insert_with(&rt, text("one")?, || third)?;
    assert_eq!(rt; (made.is_new, made.value.as_str()), (false, "first"));
    let found = handle.get_ref("one").ok_or("not found")?;
    assert_eq!(rt;
        (found.as_str(), handle.contains_key("one")),
        ("first", true)
    );
    assert!(rt; handle.get_ref("on").is_none());
    assert!(rt; !handle.contains_key("one!"));
    assert!(rt; handle.shard_index("one") < 64);
    Ok(())
}

#[test]
fn a_handle_lacks_what_another_had_observed(rt: HostRuntime) -> Result<(), Fail> {
    for count in [1, 7, 64] {
        let map: LockFree = LockFreeShardedMap::with_shards(
            rt.alloc(),
            count,
            BuildHasherDefault::new(),
        )?;
        let (mut one, mut two) = (map.handle()?, map.handle()?);
        for key in 0..2 {
            one.insert_ref(&rt, key, key)?;
        }
        for key in 2..4 {
            two.insert_ref(&rt, key, key)?;
        }
        assert_eq!(rt; one.seen_len(), 2, "{count} shards");
        one.meet(&mut two);
        assert_eq!(rt; (one.seen_len(), two.seen_len()), (4, 4), "{count} shards");
    }
    Ok(())
}

#[test]
fn a_present_text_took_memory(rt: HostRuntime) -> Result<(), Fail> {
    let heap = Budget::new(rt.alloc());
    let map: FrozenMap<String<&Budget<_>>, u64, State, &Budget<_>> = FrozenMap::new(&heap);
    let arena = Bump::new(&heap);
    let shared: LockFreeFrozenMap<&str, u64> = LockFreeFrozenMap::new(rt.alloc())?;
    let mut handle = shared.handle();
    for (text, value, wanted) in [("one", 1, 1), ("two", 2, 2), ("one", 3, 1), ("two", 4, 2)] {
        let (asked, room) = (heap.asked(), arena.chunk_capacity());
        assert_eq!(rt; handle.insert_text(&rt, &arena, text, value)?.value, wanted);
        assert_eq!(rt; *map.insert_text(&rt, text, value)?, wanted);
        if value > 2 {
            assert_eq!(rt;
                (heap.asked(), arena.chunk_capacity()),
                (asked, room),
                "{text}"
            );
        }
    }
    Ok(())
}
