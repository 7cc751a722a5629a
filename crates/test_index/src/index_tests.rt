//! The index collections: the order and the values of collected, cloned and walked ones, look-ups
//! by texts and slices, keys with one hash, equal keys with different marks, values that own
//! memory, and the output of `{:?}`.
use crate::odd_keys::Marked;
use bumpalo::Bump;
use elsa_arena::arena::TypedArena;
use elsa_index::index_laws::{
    clone_and_part, is_new_once, keeps_earlier_pairs, set_is_new_once, set_keeps_earlier_values,
};
use elsa_index::index_set::FrozenIndexSet;
use elsa_maps::index_map::{FrozenIndexMap, FrozenIndexMapIn};
use elsa_maps::map::{FrozenBTreeMap, FrozenMap};
use elsa_vec::stable::{Own, Shelf};
use std::alloc::{AllocError, Global};
use std::hash::BuildHasherDefault;
use std::sync::Arc;
use std::test::Fail;
use test_script::leave_room;

type Texts<'a> = FrozenIndexMap<'a, u32, &'a str>;

type Set<'a> = FrozenIndexSet<'a, String>;

/// Collects a map of these pairs.
fn collected<'a>(
    alloc: Global,
    arena: &'a Bump,
    pairs: &[(u32, &'a str)],
) -> Result<Texts<'a>, AllocError> {
    let pairs = pairs.iter().copied();
    FrozenIndexMap::from_iter(alloc, arena, BuildHasherDefault::new(), pairs)
}

#[test]
fn collecting_moved_a_pair_or_lost_the_last_value(rt: HostRuntime) -> Result<(), Fail> {
    let arena = Bump::new(rt.alloc());
    let map = collected(rt.alloc(), &arena, &[(1, "a"), (2, "x"), (1, "b")])?;
    assert_eq!(rt;
        map.into_tuple_vec()?.as_slice(),
        [(1, "b"), (2, "x")].as_slice()
    );
    Ok(())
}

#[test]
fn maps_in_different_orders_were_unequal(rt: HostRuntime) -> Result<(), Fail> {
    let arena = Bump::new(rt.alloc());
    let ab = collected(rt.alloc(), &arena, &[(1, "a"), (2, "b")])?;
    let ba = collected(rt.alloc(), &arena, &[(2, "b"), (1, "a")])?;
    assert!(rt; ab == ba);
    assert!(rt; ab != collected(rt.alloc(), &arena, &[(1, "a"), (2, "c")])?);
    assert!(rt; ab != collected(rt.alloc(), &arena, &[(1, "a"), (3, "b")])?);
    let got = [&ab, &ba].map(|map| map.get_index_of(&1));
    assert_eq!(rt; got, [Some(0), Some(1)]);
    Ok(())
}

#[test]
fn an_insertion_into_a_clone_changed_its_source(rt: HostRuntime) -> Result<(), Fail> {
    let arena = Bump::new(rt.alloc());
    let mut map = collected(rt.alloc(), &arena, &[(1, "a")])?;
    let copy = clone_and_part(&mut map, (2, "b"), (3, "c"))?;
    let copy: Texts<'_> = FrozenIndexMap::from_map(&arena, copy.into_map());
    let wanted = [
        (&map, [Some((1, "a")), Some((2, "b")), None]),
        (&copy, [Some((1, "a")), Some((3, "c")), None]),
    ];
    for (map, pairs) in wanted {
        assert_eq!(rt; [0, 1, 2].map(|index| map.get_index(index)), pairs);
    }
    map.as_mut().clear();
    assert_eq!(rt; map.insert_full(2, "z")?, (0, "z"));
    Ok(())
}

#[test]
fn a_walk_over_an_index_map_had_another_order(rt: HostRuntime) -> Result<(), Fail> {
    let (alloc, arena) = (rt.alloc(), Bump::new(rt.alloc()));
    let mut map: FrozenIndexMap<'_, u64, &str> = FrozenIndexMap::new(alloc, &arena);
    for (key, value) in [(3, "c"), (1, "aa"), (2, "b"), (1, "zzz")] {
        map.insert(key, value)?;
    }
    let mut front = Vec::new(alloc);
    for (key, value) in &map {
        front.push((*key, *value))?;
    }
    let got = front.as_slice();
    assert_eq!(rt; got, [(3, "c"), (1, "aa"), (2, "b")].as_slice());
    let back: Vec<u64> = map.iter().rev().map(|(key, _)| *key).collect(alloc)?;
    let keys: Vec<u64> = map.keys().copied().collect(alloc)?;
    let values: Vec<&str> = map.values().copied().collect(alloc)?;
    let got = (back.as_slice(), keys.as_slice());
    assert_eq!(rt; got, ([2, 1, 3].as_slice(), [3, 1, 2].as_slice()));
    assert_eq!(rt; values.as_slice(), ["c", "aa", "b"].as_slice());
    let printed = format!(in alloc; "{map:?}")?;
    assert_eq!(rt; printed.as_str(), "{3: \"c\", 1: \"aa\", 2: \"b\"}");
    map.as_mut().clear();
    let printed = format!(in alloc; "{map:?}")?;
    assert_eq!(rt; printed.as_str(), "{}");
    Ok(())
}

#[test]
fn a_walk_over_an_index_set_had_another_order(rt: HostRuntime) -> Result<(), Fail> {
    let (alloc, arena) = (rt.alloc(), Bump::new(rt.alloc()));
    let mut set: FrozenIndexSet<'_, Own<u64>> = FrozenIndexSet::new(alloc, &arena);
    set.extend([3, 1, 2, 1].map(|number| Own(number)))?;
    let front: Vec<u64> = set.iter().map(|value| **value).collect(alloc)?;
    let back: Vec<u64> = set.iter().rev().map(|value| **value).collect(alloc)?;
    let got = (front.as_slice(), back.as_slice());
    assert_eq!(rt; got, ([3, 1, 2].as_slice(), [2, 1, 3].as_slice()));
    let printed = format!(in alloc; "{set:?}")?;
    assert_eq!(rt; printed.as_str(), "{3, 1, 2}");
    let mut one: FrozenIndexSet<'_, Own<u64>> = FrozenIndexSet::new(alloc, &arena);
    one.extend([Own(1), Own(2), Own(2)])?;
    let (all, part) = (set.inner(), one.inner());
    assert_eq!(rt; (part.is_subset(all), all.is_subset(part)), (true, false));
    assert_eq!(rt; all.difference(part).next().map(|value| **value), Some(3));
    Ok(())
}

#[test]
fn a_set_changed_when_it_was_cloned_or_cleared(rt: HostRuntime) -> Result<(), Fail> {
    let (alloc, arena) = (rt.alloc(), Bump::new(rt.alloc()));
    let texts = vec![in alloc;
        String::from_str(alloc, "a")?,
        String::from_str(alloc, "b")?,
    ]?;
    let mut ab: Set<'_> = FrozenIndexSet::from_iter(
        alloc,
        &arena,
        BuildHasherDefault::new(),
        texts,
    )?;
    let mut copy = ab.clone()?;
    assert!(rt; copy == ab);
    let got = copy.insert_new(String::from_str(alloc, "c")?)?;
    assert_eq!(rt; got, ("c", true));
    assert!(rt; copy != ab);
    let again: Set<'_> = FrozenIndexSet::from_set(&arena, copy.into_set());
    assert_eq!(rt; again.get_index_of(&"c"), Some(2));
    let ends = [0, 1, 2, usize::MAX];
    let before = ends.map(|index| ab.get_index(index));
    assert_eq!(rt; before, [Some("a"), Some("b"), None, None]);
    ab.as_mut().clear();
    assert_eq!(rt; ends.map(|index| ab.get_index(index)), [None; 4]);
    Ok(())
}

#[test]
fn a_law_of_an_index_collection_returned_a_wrong_index_or_flag(
    rt: HostRuntime,
) -> Result<(), Fail> {
    let (alloc, arena) = (rt.alloc(), Bump::new(rt.alloc()));
    let mut map: Texts<'_> = FrozenIndexMap::new(alloc, &arena);
    assert_eq!(rt; keeps_earlier_pairs(&mut map, 5, "a")?, (0, "a", true));
    assert_eq!(rt; keeps_earlier_pairs(&mut map, 4, "b")?, (1, "b", true));
    let between = vec![in alloc; (7, "e"), (5, "z")]?;
    let twice = is_new_once(&mut map, (6, "c"), between, (6, "d"))?;
    assert_eq!(rt; twice, ((2, "c", true), (2, "c", false)));
    assert_eq!(rt; keeps_earlier_pairs(&mut map, 7, "z")?, (3, "e", false));
    let owned = |text: &str| String::from_str(alloc, text);
    let mut set: Set<'_> = FrozenIndexSet::new(alloc, &arena);
    for (index, text) in [(0, "a"), (1, "b")] {
        let kept = set_keeps_earlier_values(&mut set, owned(text)?)?;
        assert_eq!(rt; kept, (index, text, true));
    }
    let between = vec![in alloc; owned("d")?]?;
    let twice = set_is_new_once(&mut set, owned("c")?, between, owned("c")?)?;
    assert_eq!(rt; twice, ((2, "c", true), (2, "c", false)));
    let got = set_keeps_earlier_values(&mut set, owned("d")?)?;
    assert_eq!(rt; got, (3, "d", false));
    Ok(())
}

// ---- odd keys

#[test]
fn an_index_collection_confused_keys_with_equal_hashes(rt: HostRuntime) -> Result<(), Fail> {
    let arena = Bump::new(rt.alloc());
    let mut map: FrozenIndexMap<'_, Marked, Own<u32>> = FrozenIndexMap::new(rt.alloc(), &arena);
    let mut set: FrozenIndexSet<'_, Own<Marked>> = FrozenIndexSet::new(rt.alloc(), &arena);
    for i in 0..200 {
        map.insert(Marked(i, 'x'), Own(i + 1))?;
        set.insert(Own(Marked(i, 'x')))?;
    }
    for i in 0..201 {
        let key = Marked(i, 'y');
        let index = if i < 200 { Some(i as usize) } else { None };
        let found = (
            map.get_index_of(&key),
            map.get(&key).copied(),
            set.get_index_of(&Own(key)),
        );
        assert_eq!(rt; found, (index, index.map(|_| i + 1), index), "{i}");
    }
    Ok(())
}

#[test]
fn a_second_equal_key_replaced_the_first(rt: HostRuntime) -> Result<(), Fail> {
    let arena = Bump::new(rt.alloc());
    let mut indexed: FrozenIndexMap<'_, Marked, &str> = FrozenIndexMap::new(rt.alloc(), &arena);
    let mut hashed: FrozenMap<'_, Marked, &str> = FrozenMap::new(rt.alloc(), &arena);
    let mut ordered: FrozenBTreeMap<'_, Marked, &str> = FrozenBTreeMap::new(rt.alloc(), &arena);
    let rows = [
        (2, 'b', "z", "z"),
        (1, 'A', "x", "x"),
        (1, 'a', "y", "x"),
        (2, 'B', "w", "z"),
    ];
    for (number, mark, value, kept) in rows {
        let key = Marked(number, mark);
        let values = [
            indexed.insert(key, value)?,
            hashed.insert(key, value)?,
            ordered.insert(key, value)?,
        ];
        assert_eq!(rt; values, [kept; 3], "{number} {mark}");
    }
    for (number, wanted) in [(1, Some(('A', "x"))), (2, Some(('b', "z"))), (3, None)] {
        let key = Marked(number, '?');
        let shown = [
            indexed.get_full(&key).map(|(_, key, value)| (key.1, value)),
            hashed
                .get_key_value(&key)
                .map(|(key, value)| (key.1, value)),
            ordered
                .get_key_value(&key)
                .map(|(key, value)| (key.1, value)),
        ];
        assert_eq!(rt; shown, [wanted; 3], "{number}");
    }
    assert_eq!(rt; [indexed.len(), hashed.len(), ordered.len()], [2; 3]);
    let mut in_order = Vec::new(rt.alloc());
    for (key, value) in &ordered.into_tuple_vec()? {
        in_order.push((key.0, key.1, *value))?;
    }
    let got = in_order.as_slice();
    assert_eq!(rt; got, [(1, 'A', "x"), (2, 'b', "z")].as_slice());
    Ok(())
}

// ---- look-ups by texts and slices

#[test]
fn a_set_of_lists_or_a_map_of_strings_lost_a_value(rt: HostRuntime) -> Result<(), Fail> {
    let (alloc, arena) = (rt.alloc(), Bump::new(rt.alloc()));
    let mut lists: FrozenIndexSet<'_, Vec<u32>> = FrozenIndexSet::new(alloc, &arena);
    assert_eq!(rt; lists.insert_full(vec![in alloc; 1, 2]?)?.0, 0);
    assert_eq!(rt; lists.get_index_of(&[1u32, 2].as_slice()), Some(0));
    assert_eq!(rt; lists.get_index_of(&[2u32, 1].as_slice()), None);
    let mut map: FrozenIndexMap<'_, String, Own<u64>> = FrozenIndexMap::new(alloc, &arena);
    map.insert(String::from_str(alloc, "a name")?, Own(7))?;
    assert_eq!(rt; (map.get("a name"), map.get("a nam")), (Some(&7), None));
    Ok(())
}

#[test]
fn a_set_did_not_have_a_text_at_its_first_index(rt: HostRuntime) -> Result<(), Fail> {
    let (alloc, arena) = (rt.alloc(), Bump::new(rt.alloc()));
    let mut names: FrozenIndexSet<'_, &str> = FrozenIndexSet::new(alloc, &arena);
    let mut owned: Set<'_> = FrozenIndexSet::new(alloc, &arena);
    for (text, index) in [("b", 0), ("a", 1), ("b", 0), ("", 2)] {
        // The text is a copy that ends with this turn.
        let copy = String::from_str(alloc, text)?;
        assert_eq!(rt; names.insert_text(copy.as_str())?, text);
        assert_eq!(rt; owned.insert_full(copy)?, (index, text));
    }
    for (text, index) in [
        ("b", Some(0)),
        ("a", Some(1)),
        ("", Some(2)),
        ("c", None),
        ("aa", None),
    ] {
        let full = index.map(|index| (index, text));
        let wanted = (full, full.map(|it| it.1), index, full.is_some());
        let found = (
            names.get_full(text),
            names.get(text),
            names.get_index_of(text),
            names.contains(text),
        );
        assert_eq!(rt; found, wanted, "{text}");
        let found = (
            owned.get_full(text),
            owned.get(text),
            owned.get_index_of(text),
            owned.contains(text),
        );
        assert_eq!(rt; found, wanted, "{text}");
    }
    assert_eq!(rt; (names.len(), owned.len()), (3, 3));
    Ok(())
}

#[test]
fn a_set_stored_a_text_twice_or_a_text_that_did_not_fit(rt: HostRuntime) -> Result<(), Fail> {
    let arena = Bump::new(rt.alloc());
    let mut names: FrozenIndexSet<'_, &str> = FrozenIndexSet::new(rt.alloc(), &arena);
    names.insert_text("lonely")?;
    let left = arena.chunk_capacity();
    let got = (names.insert_text("lonely")?, arena.chunk_capacity());
    assert_eq!(rt; got, ("lonely", left));
    leave_room(&arena, 0);
    assert!(rt; names.insert_text("best friend").is_err());
    assert_eq!(rt; (names.len(), names.contains("best friend")), (1, false));
    Ok(())
}

#[test]
fn a_value_that_owns_memory_moved_or_was_not_dropped_once(rt: HostRuntime) -> Result<(), Fail> {
    let alloc = rt.alloc();
    let counted = Arc::new(alloc, 7_u64)?;
    let (texts, values) = (Bump::new(alloc), TypedArena::new(alloc)?);
    let shelf = Shelf {
        texts: &texts,
        values: &values,
    };
    let mut owners: FrozenIndexMapIn<Shelf<'_, Arc<u64>>, &str, Own<Arc<u64>>> =
        FrozenIndexMapIn::new(alloc, shelf);
    for (name, index) in [("b", 0), ("a", 1), ("b", 0), ("c", 2)] {
        let text = String::from_str(alloc, name)?;
        let (at, kept) = owners.insert_full_text(text.as_str(), Own(counted.clone()?))?;
        assert_eq!(rt; (at, **kept), (index, 7), "{name}");
    }
    let first = owners.insert_text("b", Own(Arc::new(alloc, 9)?))?;
    let got = (owners.get("b").is_some(), owners.get("d").is_none());
    assert_eq!(rt; got, (true, true));
    // Three of the four are stored, besides `counted` itself.
    assert_eq!(rt; Arc::strong_count(&counted), 4);
    drop(owners);
    assert_eq!(rt; (**first, Arc::strong_count(&counted)), (7, 4));
    drop(values);
    assert_eq!(rt; Arc::strong_count(&counted), 1);
    Ok(())
}

#[test]
fn a_set_of_owned_numbers_is_asked_by_a_number(rt: HostRuntime) -> Result<(), AllocError> {
    let arena = Bump::new(rt.alloc());
    let mut set: FrozenIndexSet<'_, Own<u64>> = FrozenIndexSet::new(rt.alloc(), &arena);
    set.insert(Own(7))?;
    assert_eq!(rt;
        (set.get(&7), set.get(&Own(7)), set.contains(&8)),
        (Some(&7), Some(&7), false)
    );
    Ok(())
}
