//! Allocation failures: no closure is called if its map can't allocate room for the value, and a
//! copy of a key that fails leaves the map unchanged.
use elsa_locks::map::{FrozenBTreeMap, FrozenMap};
use std::alloc::Global;
use std::cell::Cell;
use std::hash::{BuildHasherDefault, FoldHasher};
use std::test::Fail;
use test_alloc::Budget;

type Heap<'b> = &'b Budget<Global>;

#[test]
fn a_closure_was_called_without_room_for_its_value(rt: HostRuntime) -> Result<(), Fail> {
    let (heap, calls) = (Budget::new(rt.alloc()), Cell::new(0u64));
    let map: FrozenMap<u64, u64, BuildHasherDefault<FoldHasher>, Heap<'_>> = FrozenMap::new(&heap);
    let make = || {
        calls.set(calls.get() + 1);
        7
    };
    for call in [
        "insert_with",
        "insert_with_key",
        "copy_with",
        "copy_with_key",
    ] {
        heap.refuse_next(1);
        let done = match call {
            "insert_with" => map.insert_with(&rt, 1, make).map(|owner| *owner),
            "insert_with_key" => map.insert_with_key(&rt, 1, |_| make()).map(|owner| *owner),
            "copy_with" => map.get_copy_or_insert_with(&rt, 1, make),
            _ => map.get_copy_or_insert_with_key(&rt, 1, |_| make()),
        };
        assert!(rt; done.is_err(), "{call}: {done:?}");
    }
    assert_eq!(rt; (calls.get(), heap.refused()), (0, 4));
    assert_eq!(rt; map.get_copy_or_insert_with(&rt, 1, make), Ok(7));
    heap.refuse_next(u64::MAX);
    assert_eq!(rt; map.get_copy_or_insert_with(&rt, 1, make), Ok(7));
    assert_eq!(rt; calls.get(), 1);
    Ok(())
}

#[test]
fn a_refused_copy_of_a_key_changed_the_map(rt: HostRuntime) -> Result<(), Fail> {
    let heap = Budget::new(rt.alloc());
    let map: FrozenBTreeMap<String<Heap<'_>>, u64, Heap<'_>> = FrozenBTreeMap::new(&heap);
    map.insert(&rt, String::from_str(&heap, "one")?, 1)?;
    heap.refuse_next(1);
    assert!(rt; map.first_key_value_cloned(&rt).is_err());
    heap.refuse_next(1);
    assert!(rt; map.last_key_value_cloned(&rt).is_err());
    for end in [
        map.first_key_value_cloned(&rt)?,
        map.last_key_value_cloned(&rt)?,
    ] {
        let Some((key, value)) = end else {
            return Err(Fail::from("the map lost its entry"));
        };
        assert_eq!(rt; (key.as_str(), *value), ("one", 1));
    }
    for granted in 0..2 {
        heap.refuse(heap.asked() + granted, u64::MAX);
        assert!(rt; map.keys_cloned(&rt).is_err(), "{granted}");
        heap.refuse_next(0);
        let keys = map.keys_cloned(&rt)?;
        assert_eq!(rt; (keys.len(), keys[0].as_str()), (1, "one"));
    }
    drop(map);
    assert_eq!(rt; heap.given(), heap.granted());
    Ok(())
}
