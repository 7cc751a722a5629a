//! The calls on a map or set itself that `test_calls` doesn't compare with a plain list: an
//! insertion is seen at once, and evidence leads to the same entries.
use elsa_cell::map::first_value_stays;
use elsa_cell::{Fault, FrozenBTreeMap, FrozenIndexSet, FrozenMap};
use std::hash::{BuildHasherDefault, FoldHasher};
use std::sync::Arc;
use std::test::*;
use test_alloc::Budget;

type State = BuildHasherDefault<FoldHasher>;

#[test]
fn an_insertion_was_not_shown(rt: HostRuntime) -> Result<(), Fail> {
    let map: FrozenMap<u64, u64> = FrozenMap::new(rt.alloc())?;
    let walked = || map
        .iter()
        .map(|entry| *entry.key() + *entry.value())
        .sum::<u64>();
    map.insert(1, 1)?;
    assert_eq!(rt; walked(), 2);
    map.get_or_try_insert(&10, || -> Result<(u64, u64), Fault> { Ok((10, 10)) })?;
    assert_eq!(rt; walked(), 22);
    map.insert_new_as(&mut map.observed(), 100, 100)?;
    assert_eq!(rt; walked(), 222);
    let mut hold = map.hold()?;
    hold.insert_new(1000, 1000)?;
    assert_eq!(rt; walked(), 2222);
    drop(hold);
    assert_eq!(rt; walked(), 2222);
    Ok(())
}

#[test]
fn a_look_up_that_inserts_replaced_a_value(rt: HostRuntime) -> Result<(), Fail> {
    let map: FrozenMap<u64, u64> = FrozenMap::new(rt.alloc())?;
    let inserted = map.get_or_try_insert(&9, || -> Result<(u64, u64), Fault> {
        map.insert(9, 1)?;
        Ok((9, 2))
    })?;
    assert_eq!(rt; (*inserted, map.get(&9)), (1, Some(&1)));
    Ok(())
}

#[test]
fn items_took_memory_that_was_reserved(rt: HostRuntime) -> Result<(), Fail> {
    for count in [0, 1, 3, 16, 500] {
        let heap = Budget::new(rt.alloc());
        let set: FrozenIndexSet<u64, State, &Budget<_>> = FrozenIndexSet::with_capacity(
            &heap,
            count as usize,
        )?;
        heap.refuse(heap.asked(), u64::MAX);
        for item in 0..count {
            set.insert(item)?;
        }
        drop(set);
        assert_eq!(rt; heap.given(), heap.granted());
    }
    Ok(())
}

#[test]
fn a_reservation_was_lost(rt: HostRuntime) -> Result<(), Fail> {
    let heap = Budget::new(rt.alloc());
    let map: FrozenBTreeMap<u64, u64, &Budget<_>> = FrozenBTreeMap::new(&heap)?;
    heap.refuse_next(1);
    assert_eq!(rt; map.reserve(1), Err(Fault::Memory));
    heap.refuse_next(0);
    assert_eq!(rt; map.reserve(1), Ok(()));
    heap.refuse(heap.asked(), u64::MAX);
    assert_eq!(rt; *map.insert(7, 8)?, 8);
    drop(map);
    assert_eq!(rt; heap.given(), heap.granted());
    assert!(rt; FrozenMap::<u64, u64>::with_capacity(rt.alloc(), 1 << 32).is_err());
    Ok(())
}

#[test]
fn evidence_was_lost(rt: HostRuntime) -> Result<(), Fail> {
    let map: FrozenMap<u64, u64> = FrozenMap::with_hasher(rt.alloc(), BuildHasherDefault::new())?;
    map.insert(7, 70)?;
    let seen = map.observed().evidence();
    let moved = map;
    moved.insert(8, 80)?;
    let observed = moved.since(&seen);
    assert_eq!(rt;
        (moved.get_as(&observed, &7), moved.get_as(&observed, &8)),
        (Some(&70), Some(&80))
    );
    let set: FrozenIndexSet<String> = FrozenIndexSet::with_hasher(
        rt.alloc(),
        BuildHasherDefault::new(),
    )?;
    for (text, index) in [("ann", 0), ("bob", 1), ("ann", 0)] {
        assert_eq!(rt;
            set.insert_full(String::from_str(rt.alloc(), text)?)?.0,
            index
        );
    }
    Ok(())
}

#[test]
fn an_extension_of_thousands_ended_early(rt: HostRuntime) -> Result<(), Fail> {
    let map: FrozenMap<u64, u64> = FrozenMap::new(rt.alloc())?;
    map.extend((0..5000).map(|number| (number, number)))?;
    let set: FrozenIndexSet<u64> = FrozenIndexSet::new(rt.alloc())?;
    set.extend(0..5000)?;
    assert_eq!(rt; (map.len(), set.len()), (5000, 5000));
    Ok(())
}

#[test]
fn a_value_or_a_key_was_not_dropped_once(rt: HostRuntime) -> Result<(), Fail> {
    let (keys, values) = (Arc::new(rt.alloc(), 0)?, Arc::new(rt.alloc(), 0)?);
    let owners = || (Arc::strong_count(&keys), Arc::strong_count(&values));
    for is_taken in [false, true] {
        let map: FrozenMap<(u64, Arc<i32>), Arc<i32>> = FrozenMap::new(rt.alloc())?;
        for number in [1, 2, 2, 3, 1] {
            map.insert((number, keys.clone()?), values.clone()?)?;
        }
        assert_eq!(rt; owners(), (4, 4));
        if is_taken {
            let seen = map.observed().evidence();
            let all = map
                .into_tuple_vec(rt.alloc(), &seen)
                .ok()
                .ok_or("not taken apart")?;
            assert_eq!(rt; (all.len(), owners()), (3, (4, 4)));
        } else {
            drop(map);
        }
        assert_eq!(rt; owners(), (1, 1));
    }
    // The evidence of a list, whose last two items were not observed.
    let list: elsa_cell::FrozenVec<Arc<i32>> = elsa_cell::FrozenVec::new(rt.alloc())?;
    list.push(keys.clone()?)?;
    let seen = list.observed().evidence();
    list.extend([keys.clone()?, keys.clone()?])?;
    let all = list
        .into_vec(rt.alloc(), &seen)
        .ok()
        .ok_or("not taken apart")?;
    assert_eq!(rt; (all.len(), owners()), (3, (4, 1)));
    drop(all);
    assert_eq!(rt; owners(), (1, 1));
    Ok(())
}

#[test]
fn no_caller_could_cite_that_the_first_value_stays(_rt: HostRuntime) -> Result<(), Fail> {
    first_value_stays::<u64, u64>();
    Ok(())
}

#[test]
fn a_moment_had_an_entry_of_a_guard(rt: HostRuntime) -> Result<(), Fail> {
    let map: FrozenBTreeMap<u64, u64> = FrozenBTreeMap::new(rt.alloc())?;
    map.insert(7, 70)?;
    let then = map.observed();
    let mut guard = map.hold()?;
    guard.insert_new(5, 50)?;
    assert_eq!(rt;
        (map.get_as(&then, &7), map.get_as(&then, &5)),
        (Some(&70), None)
    );
    assert_eq!(rt; map.get_full_as(&then, &7), Some((0, &7, &70)));
    Ok(())
}

/// Inserts until the hash table has grown at 294,915 entries.
#[test]
fn a_map_refused_to_grow(rt: HostRuntime) -> Result<(), Fail> {
    let map: FrozenMap<u64, ()> = FrozenMap::new(rt.alloc())?;
    for key in 0..295_000 {
        assert!(rt; map.insert(key, ()).is_ok(), "{key}");
    }
    Ok(())
}
