//! Each collection has its text, and is the same after it was read back.
use bumpalo::Bump;
use elsa_index::index_set::FrozenIndexSet;
use elsa_interner::interner::Interner;
use elsa_maps::index_map::FrozenIndexMap;
use elsa_maps::map::{FrozenAppendMap, FrozenBTreeMap, FrozenMap};
use elsa_serde::{Entries, Items, Names, Stored};
use elsa_vec::stable::Own;
use elsa_vec::vec::FrozenVec;
use serde::Serialize;
use serde_json::Error;
use std::alloc::Global;
use std::test::Fail;

fn text_of<T: Serialize>(alloc: Global, value: &T) -> Result<String, Error> {
    serde_json::to_string(alloc, value)
}

#[test]
fn an_interner_changed_on_its_way_through_json(rt: HostRuntime) -> Result<(), Fail> {
    let (alloc, arena) = (rt.alloc(), Bump::new(rt.alloc()));
    let text = r#"["fox","a \"dog\"","","猫"]"#;
    let mut names: Interner<'_> = Interner::new(alloc, &arena);
    let read: Names = serde_json::from_str(alloc, text)?;
    assert_eq!(rt; read.put_into(&mut names), Ok(()));
    assert_eq!(rt; (names.find("fox"), names.find("猫")), (Some(0), Some(3)));
    assert_eq!(rt; text_of(alloc, &Stored(&names))?.as_str(), text);
    assert_eq!(rt;
        text_of(alloc, &Stored(&names.into_reader()))?.as_str(),
        text
    );
    Ok(())
}

#[test]
fn a_vector_or_a_set_changed_on_its_way_through_json(rt: HostRuntime) -> Result<(), Fail> {
    let (alloc, arena) = (rt.alloc(), Bump::new(rt.alloc()));
    for text in [r#"["a","","a"]"#, "[]"] {
        let mut items: FrozenVec<'_, String> = FrozenVec::new(alloc, &arena);
        serde_json::from_str::<Items<String>>(alloc, text)?.push_into(&mut items)?;
        assert_eq!(rt; text_of(alloc, &Stored(&items))?.as_str(), text);
    }
    let text = "[-1,9223372036854775807,0,-1]";
    let mut numbers: FrozenVec<'_, Own<i64>> = FrozenVec::new(alloc, &arena);
    serde_json::from_str::<Items<Own<i64>>>(alloc, text)?.push_into(&mut numbers)?;
    assert_eq!(rt; text_of(alloc, &Stored(&numbers))?.as_str(), text);
    let text = "[[1,2],[],[255]]";
    let mut lists: FrozenVec<'_, Vec<u8>> = FrozenVec::new(alloc, &arena);
    serde_json::from_str::<Items<Vec<u8>>>(alloc, text)?.push_into(&mut lists)?;
    assert_eq!(rt; text_of(alloc, &Stored(&lists))?.as_str(), text);
    for text in [r#"["b","a","c"]"#, "[]"] {
        let mut set: FrozenIndexSet<'_, String> = FrozenIndexSet::new(alloc, &arena);
        let read: Items<String> = serde_json::from_str(alloc, text)?;
        assert_eq!(rt; read.insert_into(&mut set), Ok(()));
        assert_eq!(rt; text_of(alloc, &Stored(&set))?.as_str(), text);
    }
    Ok(())
}

type Read = Entries<String, Own<u64>>;

#[test]
fn a_map_in_order_changed_on_its_way_through_json(rt: HostRuntime) -> Result<(), Fail> {
    let (alloc, arena) = (rt.alloc(), Bump::new(rt.alloc()));
    for (text, sorted) in [
        (r#"{"b":2,"":0,"a":1}"#, r#"{"":0,"a":1,"b":2}"#),
        ("{}", "{}"),
    ] {
        let read = || serde_json::from_str::<Read>(alloc, text);
        let mut map: FrozenIndexMap<'_, String, Own<u64>> = FrozenIndexMap::new(alloc, &arena);
        assert_eq!(rt; read()?.insert_into(&mut map), Ok(()));
        assert_eq!(rt; text_of(alloc, &Stored(&map))?.as_str(), text);
        let mut map: FrozenAppendMap<'_, String, Own<u64>> = FrozenAppendMap::new(alloc, &arena);
        assert_eq!(rt; read()?.insert_into(&mut map), Ok(()));
        assert_eq!(rt; text_of(alloc, &Stored(&map.into_map()))?.as_str(), text);
        let mut map: FrozenBTreeMap<'_, String, Own<u64>> = FrozenBTreeMap::new(alloc, &arena);
        assert_eq!(rt; read()?.insert_into(&mut map), Ok(()));
        assert_eq!(rt; text_of(alloc, &Stored(&map))?.as_str(), sorted);
    }
    Ok(())
}

#[test]
fn a_hashed_map_changed_on_its_way_through_json(rt: HostRuntime) -> Result<(), Fail> {
    let (alloc, arena) = (rt.alloc(), Bump::new(rt.alloc()));
    let mut first: FrozenMap<'_, u64, String> = FrozenMap::new(alloc, &arena);
    let mut second: FrozenMap<'_, u64, String> = FrozenMap::new(alloc, &arena);
    let read: Entries<u64, String> = serde_json::from_str(
        alloc,
        r#"{"3":"a","20":"b","100":"a"}"#,
    )?;
    assert_eq!(rt; read.insert_into(&mut first), Ok(()));
    let written = text_of(alloc, &Stored(&first))?;
    let again: Entries<u64, String> = serde_json::from_str(alloc, written.as_str())?;
    assert_eq!(rt; again.insert_into(&mut second), Ok(()));
    assert!(rt; first == second);
    let got = [3, 20, 100].map(|key| second.get(&key));
    assert_eq!(rt; got, [Some("a"), Some("b"), Some("a")]);
    assert_eq!(rt; second.len(), 3);
    Ok(())
}
