//! A text that isn't the text of a collection can't be read: the error has a name.
use bumpalo::Bump;
use elsa_index::index_set::FrozenIndexSet;
use elsa_interner::interner::Interner;
use elsa_maps::index_map::FrozenIndexMap;
use elsa_maps::map::{FrozenBTreeMap, FrozenMap};
use elsa_serde::{Entries, Items, Names, ReadFault};
use elsa_vec::stable::Own;
use serde::Deserialize;
use serde_json::error::Category;
use std::alloc::Global;
use std::test::Fail;

type Read = Entries<String, Own<u64>>;

/// Returns the kind of the error if the text can't be read as a `T`, or `None` if it is read.
fn refusal<'a, T: Deserialize<'a>>(alloc: Global, text: &'a str) -> Option<Category> {
    Some(serde_json::from_str::<T>(alloc, text).err()?.classify())
}

#[test]
fn a_broken_text_was_read(rt: HostRuntime) -> Result<(), Fail> {
    let alloc = rt.alloc();
    // Of a wrong type, cut, and with further text after the collection.
    let (data, cut, more) = (Category::Data, Category::Eof, Category::Syntax);
    for (text, kind) in [
        ("{}", data),
        ("1", data),
        ("null", data),
        ("[1]", data),
        (r#"["a",null]"#, data),
        (r#"["a",["b"]]"#, data),
        (r#"[{"a":1}]"#, data),
        ("", cut),
        ("[", cut),
        (r#"["fox""#, cut),
        (r#"["fox","#, cut),
        (r#"["fox","do"#, cut),
        (r#"["\u00"#, cut),
        (r#"["a"]]"#, more),
        (r#"["a"],"#, more),
        (r#"["a","b",]"#, more),
    ] {
        assert_eq!(rt; refusal::<Names>(alloc, text), Some(kind), "{text}");
        assert_eq!(rt; refusal::<Items<String>>(alloc, text), Some(kind), "{text}");
    }
    for (text, kind) in [
        ("[]", data),
        (r#"{"a":"1"}"#, data),
        (r#"{"a":null}"#, data),
        (r#"{"a":[1]}"#, data),
        (r#""a""#, data),
        ("", cut),
        ("{", cut),
        (r#"{"a""#, cut),
        (r#"{"a":"#, cut),
        (r#"{"a":1"#, cut),
        (r#"{"a":1,"#, cut),
        (r#"{"a":1}}"#, more),
    ] {
        assert_eq!(rt; refusal::<Read>(alloc, text), Some(kind), "{text}");
    }
    for text in ["[256]", "[-1]", "[1.5]"] {
        let got = refusal::<Items<Own<u8>>>(alloc, text);
        assert_eq!(rt; got, Some(data), "{text}");
    }
    Ok(())
}

#[test]
fn a_duplicate_was_inserted(rt: HostRuntime) -> Result<(), Fail> {
    let (alloc, arena) = (rt.alloc(), Bump::new(rt.alloc()));
    for (text, index, last) in [
        (r#"["a","a"]"#, 1, "a"),
        (r#"["a","b","a","a"]"#, 2, "b"),
        (r#"["a","b","c","\u0061"]"#, 3, "c"),
    ] {
        let told = Err(ReadFault::Duplicate(index));
        let mut names: Interner<'_> = Interner::new(alloc, &arena);
        let said = serde_json::from_str::<Names>(alloc, text)?.put_into(&mut names);
        let got = (said, names.len(), names.at(index - 1));
        assert_eq!(rt; got, (told, index, Some(last)), "{text}");
        let mut set: FrozenIndexSet<'_, String> = FrozenIndexSet::new(alloc, &arena);
        let said = serde_json::from_str::<Items<String>>(alloc, text)?.insert_into(&mut set);
        assert_eq!(rt; (said, set.len()), (told, index), "{text}");
    }
    let text = r#"{"a":1,"b":2,"a":1}"#;
    let told = Err(ReadFault::Duplicate(2));
    let read = || serde_json::from_str::<Read>(alloc, text);
    let got = read()?.insert_into(&mut FrozenMap::new(alloc, &arena));
    assert_eq!(rt; got, told);
    let got = read()?.insert_into(&mut FrozenBTreeMap::new(alloc, &arena));
    assert_eq!(rt; got, told);
    let got = read()?.insert_into(&mut FrozenIndexMap::new(alloc, &arena));
    assert_eq!(rt; got, told);
    Ok(())
}
