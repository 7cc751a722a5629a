//! Worked cases of the calls, over maps of a few entries.
use bumpalo::Bump;
use elsa_maps::map::laws::keeps_earlier_pairs;
use elsa_maps::map::{FrozenAppendMap, MapForm};
use elsa_tables::{IntoPairs, Table};
use elsa_vec::stable::Own;
use std::alloc::{AllocError, Global};
use std::test::Fail;

type Ages<'a> = FrozenAppendMap<'a, u32, Own<u64>>;

// A map with the entries 30: 3, 10: 1, 20: 2, in this order.
fn three<'a>(alloc: Global, arena: &'a Bump) -> Result<Ages<'a>, AllocError> {
    let mut map = Ages::new(alloc, arena);
    map.insert(30, Own(3))?;
    map.insert_with(10, || Own(1))?;
    map.insert_new(20, Own(2))?;
    Ok(map)
}

const THREE: [(u32, &u64); 3] = [(30, &3), (10, &1), (20, &2)];

#[test]
fn entries_keep_the_order_of_their_insertion(rt: HostRuntime) -> Result<(), Fail> {
    let arena = Bump::new(rt.alloc());
    let table = three(rt.alloc(), &arena)?.into_map();
    assert_eq!(rt; table.entries(), THREE.as_slice());
    let pairs = table.into_pairs(rt.alloc())?;
    assert_eq!(rt; pairs.as_slice(), THREE.as_slice());
    let pairs = three(rt.alloc(), &arena)?.into_tuple_vec()?;
    assert_eq!(rt; pairs.as_slice(), THREE.as_slice());
    Ok(())
}

#[test]
fn a_present_key_keeps_its_value_and_its_index(rt: HostRuntime) -> Result<(), Fail> {
    let arena = Bump::new(rt.alloc());
    let mut map = three(rt.alloc(), &arena)?;
    assert_eq!(rt; map.insert_new(10, Own(9))?, (&1, false));
    assert_eq!(rt; keeps_earlier_pairs(&mut map, 30, Own(9))?, (&3, false));
    assert_eq!(rt; map.entries(), THREE.as_slice());
    Ok(())
}

#[test]
fn a_clone_shares_no_later_entry(rt: HostRuntime) -> Result<(), Fail> {
    let arena = Bump::new(rt.alloc());
    let mut map = three(rt.alloc(), &arena)?;
    let copy = map.as_mut().clone()?;
    map.insert(40, Own(4))?;
    assert_eq!(rt; (copy.entries(), map.len()), (THREE.as_slice(), 4));
    assert_eq!(rt; (copy.find(&40), copy.find(&20)), (None, Some(&&2)));
    // The clone is the base of the map again.
    map.rebase(copy);
    assert_eq!(rt; (map.len(), map.get(&40)), (3, None));
    assert_eq!(rt; *map.insert(40, Own(5))?, 5);
    Ok(())
}

// Code over any map.
fn adds<R, M: MapForm<R>>(map: &mut M, key: M::Key, value: M::Value) -> Result<bool, AllocError> {
    Ok(map.insert_new(key, value)?.1)
}

#[test]
fn code_over_any_map_takes_it(rt: HostRuntime) -> Result<(), Fail> {
    let arena = Bump::new(rt.alloc());
    let mut map = three(rt.alloc(), &arena)?;
    assert!(rt; adds(&mut map, 40, Own(4))?);
    assert!(rt; !adds(&mut map, 40, Own(5))?);
    Ok(())
}

#[test]
fn it_prints_as_a_map_in_the_order_of_insertion(rt: HostRuntime) -> Result<(), Fail> {
    let arena = Bump::new(rt.alloc());
    let map = three(rt.alloc(), &arena)?;
    let text = format!(in rt.alloc(); "{map:?}")?;
    assert_eq!(rt; text.as_str(), "{30: 3, 10: 1, 20: 2}");
    Ok(())
}
