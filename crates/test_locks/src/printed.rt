//! The output of `{:?}` of the locked collections: their content, and `<locked>` while an insertion
//! has the lock.
use elsa_locks::map::{FrozenBTreeMap, FrozenMap, MapState};
use elsa_locks::vec::{FrozenVec, VecState};
use std::test::*;

#[test]
fn a_locked_collection_printed_other_content(rt: HostRuntime) -> Result<(), Fail> {
    let alloc = rt.alloc();
    let ordered: FrozenBTreeMap<u64, &str> = FrozenBTreeMap::new(alloc);
    ordered.insert(&rt, 2, "b")?;
    ordered.insert(&rt, 1, "a")?;
    let hashed: FrozenMap<u64, &str> = FrozenMap::new(alloc);
    hashed.insert(&rt, 2, "b")?;
    let list: FrozenVec<&str> = FrozenVec::new(alloc);
    list.push(&rt, "b")?;
    list.push(&rt, "a")?;
    let mut map: MapState<u64, u64> = MapState::new(alloc);
    map.insert(1, 2)?;
    let mut items: VecState<u64> = VecState::new(alloc);
    items.push(3)?;
    for (printed, wanted) in [
        (format!(in alloc; "{ordered:?}")?, "{1: \"a\", 2: \"b\"}"),
        (format!(in alloc; "{hashed:?}")?, "{2: \"b\"}"),
        (format!(in alloc; "{list:?}")?, "[\"b\", \"a\"]"),
        (format!(in alloc; "{map:?} {items:?}")?, "{1: 2} [3]"),
    ] {
        assert_eq!(rt; printed.as_str(), wanted);
    }
    Ok(())
}

#[test]
fn printing_waited_for_an_insertion_or_read_under_it(rt: HostRuntime) -> Result<(), Fail> {
    let alloc = rt.alloc();
    let map: FrozenBTreeMap<u64, String> = FrozenBTreeMap::new(alloc);
    let printed = map.insert_with(&rt, 1, || {
        format!(in alloc; "{map:?}").unwrap_or(String::new(alloc))
    })?;
    assert_eq!(rt; printed.as_str(), "<locked>");
    Ok(())
}
