//! Worked cases of the locked collections, and of a state without a lock.
use elsa_locks::map::{FrozenBTreeMap, FrozenMap, MapState};
use elsa_locks::vec::FrozenVec;
use std::collections::BTreeMap;
use std::sync::Arc;
use std::test::Fail;

#[test]
fn a_walk_missed_what_was_pushed_after_its_end(rt: HostRuntime) -> Result<(), Fail> {
    let list: FrozenVec<&str> = FrozenVec::new(rt.alloc());
    let mut walk = list.iter();
    for text in ["a", "b"] {
        assert_eq!(rt; walk.next(&rt)?.map(|owner| *owner), None);
        list.push(&rt, text)?;
        assert_eq!(rt; walk.next(&rt)?.map(|owner| *owner), Some(text));
    }
    Ok(())
}

#[test]
fn a_list_of_owners_had_other_items(rt: HostRuntime) -> Result<(), Fail> {
    let list: FrozenVec<&str> = FrozenVec::new(rt.alloc());
    for text in ["a", "b", "c"] {
        list.push(&rt, text)?;
    }
    let owners = list.into_vec();
    let items: Vec<&str> = owners.iter().map(|owner| **owner).collect(rt.alloc())?;
    assert_eq!(rt; items.as_slice(), ["a", "b", "c"].as_slice());
    let mut list = FrozenVec::from_vec(owners);
    for (index, text) in [(0, Some("a")), (1, Some("b")), (2, Some("c")), (3, None)] {
        let got = (index, list.get(&rt, index)?.map(|owner| *owner));
        assert_eq!(rt; got, (index, text));
    }
    drop(list.as_mut().pop());
    assert_eq!(rt; (list.len(&rt), list.get(&rt, 2)?.is_none()), (2, true));
    Ok(())
}

#[test]
fn a_hashed_map_of_owners_had_other_entries(rt: HostRuntime) -> Result<(), Fail> {
    let mut map: FrozenMap<u64, &str> = FrozenMap::new(rt.alloc());
    assert!(rt; map.is_empty(&rt));
    for (key, text, kept, is_new) in [
        (1, "a", "a", true),
        (1, "b", "a", false),
        (2, "b", "b", true),
    ] {
        let (owner, told) = map.insert_new(&rt, key, text)?;
        assert_eq!(rt; (key, *owner, told), (key, kept, is_new));
    }
    assert!(rt; map.as_mut().remove(&1).is_some());
    assert!(rt; map.get(&rt, &1)?.is_none() && !map.is_empty(&rt));
    let owners = map.into_tuple_vec()?;
    let pairs: Vec<(u64, &str)> = owners
        .iter()
        .map(|pair| (pair.0, *pair.1))
        .collect(rt.alloc())?;
    assert_eq!(rt; pairs.as_slice(), [(2, "b")].as_slice());
    Ok(())
}

// Collects pairs, of which the last value of a key stays, and takes an inner map.
#[test]
fn an_ordered_map_had_other_entries_than_it_was_made_of(rt: HostRuntime) -> Result<(), Fail> {
    let alloc = rt.alloc();
    let pairs = [(2u64, "x"), (1, "a"), (1, "b")];
    let mut table: BTreeMap<u64, Arc<&str>> = BTreeMap::new(alloc);
    table.insert(1, Arc::new(alloc, "b")?)?;
    table.insert(2, Arc::new(alloc, "x")?)?;
    let collected: FrozenBTreeMap<u64, &str> = FrozenBTreeMap::from_iter(alloc, pairs.into_iter())?;
    for map in [collected, FrozenBTreeMap::from_map(alloc, table)] {
        for (key, text) in [(1, Some("b")), (2, Some("x")), (3, None)] {
            assert_eq!(rt; (key, map.get(&rt, &key)?.map(|owner| *owner)), (key, text));
        }
        let owners = map.into_tuple_vec()?;
        let pairs: Vec<(u64, &str)> = owners.iter().map(|pair| (pair.0, *pair.1)).collect(alloc)?;
        assert_eq!(rt; pairs.as_slice(), [(1, "b"), (2, "x")].as_slice());
    }
    Ok(())
}

#[test]
fn a_state_without_a_lock_kept_another_value(rt: HostRuntime) -> Result<(), Fail> {
    let mut map: MapState<&str, u64> = MapState::new(rt.alloc());
    assert_eq!(rt; *map.insert_with_key("abc", |key| key.len() as u64)?, 3);
    assert_eq!(rt; map.get_copy_or_insert_with("abc", || 9), Ok(3));
    let got = map.get_copy_or_insert_with_key("de", |key| key.len() as u64);
    assert_eq!(rt; got, Ok(2));
    let mut copy = map.copy()?;
    assert_eq!(rt; (map.same(&copy), copy.len()), (true, 2));
    copy.insert("f", 1)?;
    assert_eq!(rt; (map.same(&copy), map.len(), copy.len()), (false, 2, 3));
    Ok(())
}
