//! The lookups of upstream's documentation, with its keys and values.
use bumpalo::Bump;
use elsa::{FrozenBTreeMap, FrozenBTreeSet, FrozenIndexMap, FrozenIndexSet, FrozenMap, Own};
use std::test::Fail;

#[test]
fn a_key_was_not_found_in_a_map(rt: HostRuntime) -> Result<(), Fail> {
    let (alloc, arena) = (rt.alloc(), Bump::new(rt.alloc()));
    let mut map = FrozenMap::new(alloc, &arena);
    map.insert(1, "a")?;
    assert_eq!(rt; (map.get(&1), map.get(&2)), (Some("a"), None));
    let lengths = [1, 2].map(|key| map.map_get(&key, |text| text.len()));
    assert_eq!(rt; lengths, [Some(1), None]);
    let mut map = FrozenMap::new(alloc, &arena);
    map.insert("1", Own('a'))?;
    let got = (map.get("1"), map.get("2"), map["1"]);
    assert_eq!(rt; got, (Some(&'a'), None, &'a'));
    assert_eq!(rt; map.get_key_value(&"1"), Some(("1", &'a')));
    let got = (map.get_key_value("2"), map.contains_key("1"));
    assert_eq!(rt; got, (None, true));
    let mut map = FrozenBTreeMap::new(alloc, &arena);
    map.insert("x", Own('a'))?;
    assert_eq!(rt; (map.get("x"), map.get("y")), (Some(&'a'), None));
    assert_eq!(rt; map.map_get("x", |value| *value), Some('a'));
    let mut map = FrozenIndexMap::new(alloc, &arena);
    map.insert("1", Own('a'))?;
    let got = (map.get_full("1"), map.get_full("2"));
    assert_eq!(rt; got, (Some((0, "1", &'a')), None));
    let got = (map.get_index_of("1"), map.get_index_of("2"));
    assert_eq!(rt; got, (Some(0), None));
    Ok(())
}

#[test]
fn a_text_was_not_found_in_a_set(rt: HostRuntime) -> Result<(), Fail> {
    let (alloc, arena) = (rt.alloc(), Bump::new(rt.alloc()));
    let mut set = FrozenIndexSet::new(alloc, &arena);
    set.insert("a")?;
    let got = (set.get_full("a"), set.get_full("b"));
    assert_eq!(rt; got, (Some((0, "a")), None));
    let got = (set.get_index_of("a"), set.get_index_of("b"));
    assert_eq!(rt; got, (Some(0), None));
    assert_eq!(rt; (set.get("a"), set.get("b")), (Some("a"), None));
    let mut set = FrozenBTreeSet::new(alloc, &arena);
    set.insert_text("x", ())?;
    let got = (set.get_key_value("x"), set.contains_key("y"));
    assert_eq!(rt; got, (Some(("x", ())), false));
    // A set finds a value of one type by a reference to a value of another with the same target.
    let mut set: FrozenIndexSet<'_, String> = FrozenIndexSet::new(alloc, &arena);
    let (one, other) = (String::from_str(alloc, "a")?, String::from_str(alloc, "b")?);
    set.insert(one.clone()?)?;
    assert_eq!(rt; (set.get(&one), set.get(&other)), (Some("a"), None));
    assert_eq!(rt; set.get_index_of("a"), Some(0));
    Ok(())
}
