//! Locked maps with text keys, looked up and inserted by any text. The keys are `String`s and
//! `&str`s, hashed by a hasher of the caller's or in order.
use elsa_hash::seeded::SeededState;
use elsa_locks::map::{FrozenBTreeMap, FrozenMap};
use std::alloc::Global;
use std::hash::{BuildHasherDefault, FoldHasher};
use std::test::Fail;
use test_alloc::Budget;

// Texts with a value, in the order of their insertion, and the value that they then have.
const INSERTED: [(&str, u64, u64); 4] = [("one", 1, 1), ("one", 2, 1), ("four", 4, 4), ("", 5, 5)];

// Texts that are looked up, with the value that they have.
const FOUND: [(&str, Option<u64>); 6] = [
    ("one", Some(1)),
    ("on", None),
    ("ones", None),
    ("four", Some(4)),
    ("", Some(5)),
    ("two", Some(2)),
];

#[test]
fn a_text_was_lost_in_a_map_of_strings(rt: HostRuntime) -> Result<(), Fail> {
    let alloc = rt.alloc();
    let seeded = SeededState::with_seed(3, 5);
    let hashed: FrozenMap<String, u64, SeededState> = FrozenMap::with_hasher(alloc, seeded);
    let ordered: FrozenBTreeMap<String, u64> = FrozenBTreeMap::new(alloc);
    for (text, value, kept) in INSERTED {
        let got = (text, *hashed.insert_text(&rt, text, value)?);
        assert_eq!(rt; got, (text, kept));
        let got = (text, *ordered.insert_text(&rt, text, value)?);
        assert_eq!(rt; got, (text, kept), "ordered");
    }
    assert_eq!(rt; *hashed.insert(&rt, String::from_str(alloc, "two")?, 2)?, 2);
    let got = *ordered.insert(&rt, String::from_str(alloc, "two")?, 2)?;
    assert_eq!(rt; got, 2);
    for (text, value) in FOUND {
        let owner = hashed.get(&rt, text)?.map(|owner| *owner);
        let got = (text, owner, hashed.get_copy(&rt, text));
        assert_eq!(rt; got, (text, value, value));
        let owner = ordered.get(&rt, text)?.map(|owner| *owner);
        let got = (text, owner, ordered.get_copy(&rt, text));
        assert_eq!(rt; got, (text, value, value), "ordered");
    }
    assert_eq!(rt; (hashed.len(&rt), ordered.len(&rt)), (4, 4));
    let keys = ordered.keys_cloned(&rt)?;
    let texts: Vec<&str> = keys.iter().map(|key| key.as_str()).collect(alloc)?;
    assert_eq!(rt; texts.as_slice(), ["", "four", "one", "two"].as_slice());
    let Some((least, _)) = ordered.first_key_value_cloned(&rt)? else {
        return Err(Fail::from("the map has no first entry"));
    };
    assert_eq!(rt; least.as_str(), "");
    Ok(())
}

#[test]
fn a_text_that_lives_shorter_than_the_keys_was_not_found(rt: HostRuntime) -> Result<(), Fail> {
    each_map! { rt.alloc(), &'static str, u64; map, kind => {
        map.insert(&rt, "five", 5)?;
        for (text, value) in [("five", Some(5)), ("fiv", None), ("", None)] {
            let key = String::from_str(rt.alloc(), text)?;
            let owner = map.get(&rt, key.as_str())?.map(|owner| *owner);
            let got = (owner, map.get_copy(&rt, key.as_str()));
            assert_eq!(rt; got, (value, value), "{kind}, {text}");
        }
    }}
    Ok(())
}

type Heap<'b> = &'b Budget<Global>;

#[test]
fn a_present_text_was_copied(rt: HostRuntime) -> Result<(), Fail> {
    let heap = Budget::new(rt.alloc());
    let map: FrozenMap<String<Heap<'_>>, u64, BuildHasherDefault<FoldHasher>, Heap<'_>> =
        FrozenMap::new(&heap);
    let texts = ["a", "b", "c", "d", "e", "f", "g", "h", ""];
    for (index, text) in texts.iter().enumerate() {
        map.insert_text(&rt, *text, index as u64)?;
    }
    heap.refuse_next(u64::MAX);
    let asked = heap.asked();
    for (index, text) in texts.iter().enumerate() {
        let (kept, value) = (*map.insert_text(&rt, *text, 99)?, index as u64);
        let got = (*text, kept, map.get_copy(&rt, *text));
        assert_eq!(rt; got, (*text, value, Some(value)));
    }
    assert_eq!(rt; heap.asked(), asked);
    Ok(())
}
