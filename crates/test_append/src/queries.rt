//! Look-ups by a text, a slice, and a text that is borrowed.
use bumpalo::Bump;
use elsa_maps::map::FrozenAppendMap;
use elsa_vec::stable::Own;
use std::test::Fail;

#[test]
fn a_text_finds_the_string_that_reads_like_it(rt: HostRuntime) -> Result<(), Fail> {
    let arena = Bump::new(rt.alloc());
    let mut map: FrozenAppendMap<'_, String, Own<u64>> = FrozenAppendMap::new(rt.alloc(), &arena);
    for (text, value) in [("", 0), ("ann", 1), ("Ann", 2)] {
        map.insert(String::from_str(rt.alloc(), text)?, Own(value))?;
    }
    for (text, found) in [
        ("", Some(0)),
        ("ann", Some(1)),
        ("Ann", Some(2)),
        ("an", None),
    ] {
        assert_eq!(rt; map.get(text).copied(), found, "{text}");
    }
    let table = map.into_map();
    for (index, text) in ["", "ann", "Ann"].iter().enumerate() {
        let (at, key, value) = table.get_full(*text).ok_or("not found")?;
        assert_eq!(rt; (at, key.as_str(), **value as usize), (index, *text, index));
    }
    assert!(rt; table.get_full("bob").is_none());
    Ok(())
}

#[test]
fn a_borrowed_text_finds_a_borrowed_text(rt: HostRuntime) -> Result<(), Fail> {
    let arena = Bump::new(rt.alloc());
    let mut map: FrozenAppendMap<'_, &str, &str> = FrozenAppendMap::new(rt.alloc(), &arena);
    map.insert("one", "1")?;
    let copy = String::from_str(rt.alloc(), "one")?;
    let got = (map.get(copy.as_str()), map.get(&"two"));
    assert_eq!(rt; got, (Some("1"), None));
    Ok(())
}

#[test]
fn a_slice_finds_the_vector_with_its_items(rt: HostRuntime) -> Result<(), Fail> {
    let arena = Bump::new(rt.alloc());
    let mut map: FrozenAppendMap<'_, Vec<u32>, Own<u64>> = FrozenAppendMap::new(rt.alloc(), &arena);
    map.insert(Vec::new(rt.alloc()), Own(0))?;
    map.insert(Vec::from_array(rt.alloc(), [1, 2])?, Own(12))?;
    assert_eq!(rt; map.get([1, 2].as_slice()), Some(&12));
    assert_eq!(rt; map.get([2, 1].as_slice()), None);
    Ok(())
}
