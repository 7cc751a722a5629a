//! The calls that docs/reference lists for the collections of one thread, for code over any map,
//! and for the interner, the cache and the runs, by `elsa` and `bumpalo` alone. Walks over the
//! index collections, runs on the others and the engine are in `test_index`.
use bumpalo::Bump;
use elsa::cache::{CacheFault, ParsedCache};
use elsa::interner::Interner;
use elsa::map::InsertFault;
use elsa::run::{
    IndexCommand, IndexReply, MapCommand, MapReply, SetCommand, SetReply, run_index, run_map,
    run_set,
};
use elsa::vec::Cursor;
use elsa::{
    FrozenBTreeMap, FrozenIndexMap, FrozenIndexSet, FrozenMap, FrozenVec, LookUp, MapForm, Own,
    SeededState, StableDeref, TypedArena, cell,
};
use elsa_maps::map::Frozen;
use elsa_tables::{Put, Refusal, Table, insert_with};
use std::alloc::{AllocError, Global};
use std::collections::{BTreeMap, HashMap};
use std::hash::BuildHasherDefault;
use std::test::Fail;

// ---- vectors

#[test]
fn a_call_on_a_vector_of_owned_texts_had_a_wrong_result(rt: HostRuntime) -> Result<(), Fail> {
    let alloc = rt.alloc();
    let arena = Bump::new(alloc);
    let mut words = FrozenVec::new(alloc, &arena);
    words.push(String::from_str(alloc, "b")?)?;
    assert_eq!(rt; words.push_get(String::from_str(alloc, "fox")?)?, "fox");
    assert_eq!(rt; (words.first(), words.last()), (Some("b"), Some("fox")));
    assert_eq!(rt; (words.get(1), words.get(2)), (Some("fox"), None));
    assert_eq!(rt; (words.len(), words.is_empty()), (2, false));
    assert_eq!(rt; words.binary_search_by_key(&3, |word| word.len()), Ok(1));
    assert_eq!(rt; words.binary_search_by(|word| word.len().cmp(&3)), Ok(1));
    assert_eq!(rt; words.partition_point(|word| word.len() < 2), 1);
    let walked: Vec<&str> = words.iter().collect(alloc)?;
    assert_eq!(rt; walked.as_slice(), ["b", "fox"].as_slice());
    let mut cursor = Cursor::new();
    let steps = [
        cursor.next(&words),
        cursor.next(&words),
        cursor.next(&words),
    ];
    assert_eq!(rt; steps, [Some("b"), Some("fox"), None]);
    let mut copy = words.clone()?;
    assert!(rt; copy == words);
    copy.push(String::from_str(alloc, "z")?)?;
    assert_eq!(rt; (copy.into_vec().len(), words.len()), (3, 2));
    Ok(())
}

#[test]
fn a_call_on_a_vector_of_borrows_had_a_wrong_result(rt: HostRuntime) -> Result<(), Fail> {
    let arena = Bump::new(rt.alloc());
    let made: FrozenVec<'_, &str> = FrozenVec::from_iter(rt.alloc(), &arena, ["b", "d"])?;
    let mut texts: FrozenVec<'_, &str> = FrozenVec::from_vec(&arena, made.into_vec());
    assert_eq!(rt;
        (texts.len(), texts[1], texts.get_unchecked(0)),
        (2, "d", "b")
    );
    assert_eq!(rt; texts.binary_search("d"), Ok(1));
    texts.as_mut().clear();
    assert!(rt; texts.is_empty());
    Ok(())
}

#[test]
fn a_value_of_an_arena_moved_or_evidence_led_to_another_item(rt: HostRuntime) -> Result<(), Fail> {
    let alloc = rt.alloc();
    let arena: TypedArena<String> = TypedArena::with_capacity(alloc, 2)?;
    assert!(rt; arena.is_empty());
    let first = arena.push(String::from_str(alloc, "one")?)?;
    let second = arena.alloc(String::from_str(alloc, "two")?)?;
    assert_eq!(rt; (first, second.as_str()), (0, "two"));
    let read = [0, 1].map(|index| arena.get(index).map(|kept| kept.as_str()));
    assert_eq!(rt; read, [Some("one"), Some("two")]);
    assert_eq!(rt; (arena.iter().count(), arena.len()), (2, 2));
    let list: cell::FrozenVec<u64> = cell::FrozenVec::new(alloc)?;
    list.push(7)?;
    let seen: cell::Seen<u64> = list.observed().evidence();
    list.push(8)?;
    assert_eq!(rt; list.since(&seen).get(0), Some(&7));
    assert_eq!(rt; list.since(&seen).len(), 2);
    Ok(())
}

// ---- maps

/// Inserts the value at the key 7 of either map.
fn inserted<R, V: StableDeref<R>, M: MapForm<R, Key = u64, Value = V>>(
    map: &mut M,
    value: V,
) -> Result<(V::Borrow, bool), AllocError> {
    map.insert_new(7, value)
}

#[test]
fn a_map_changed_when_it_was_taken_apart(rt: HostRuntime) -> Result<(), Fail> {
    let alloc = rt.alloc();
    let arena = Bump::new(alloc);
    let mut map: FrozenMap<'_, u64, &str> = FrozenMap::new(alloc, &arena);
    assert_eq!(rt; inserted(&mut map, "x")?, ("x", true));
    let map: FrozenMap<'_, u64, &str> = FrozenMap::from_map(alloc, &arena, map.into_map());
    assert_eq!(rt; map.get(&7), Some("x"));
    let mut map: FrozenBTreeMap<'_, u64, &str> = FrozenBTreeMap::new(alloc, &arena);
    assert_eq!(rt; inserted(&mut map, "y")?, ("y", true));
    let map: FrozenBTreeMap<'_, u64, &str> = FrozenBTreeMap::from_map(
        alloc,
        &arena,
        map.into_map(),
    );
    assert_eq!(rt; map.into_tuple_vec()?.as_slice(), [(7, "y")].as_slice());
    let pairs = [(7, Own(1u64)), (5, Own(2))];
    let state = BuildHasherDefault::new();
    let map: FrozenIndexMap<'_, u64, Own<u64>> = FrozenIndexMap::from_iter(
        alloc, &arena, state, pairs,
    )?;
    let map: FrozenIndexMap<'_, u64, Own<u64>> = FrozenIndexMap::from_map(&arena, map.into_map());
    assert_eq!(rt; map.get_index_of(&5), Some(1));
    Ok(())
}

/// Inserts into a map over any map implementation and any arena.
fn kept<R: Copy, V: StableDeref<R>, T: Table<u64, V::Borrow>>(
    map: &mut Frozen<R, u64, V, T>,
    value: V,
) -> Result<V::Borrow, AllocError> {
    map.insert(7, value)
}

#[test]
fn a_map_over_any_table_replaced_the_first_value_of_a_key(rt: HostRuntime) -> Result<(), Fail> {
    let alloc = rt.alloc();
    let arena = Bump::new(alloc);
    let mut hashed: Frozen<&Bump, u64, Own<u64>, HashMap<u64, &u64>> = Frozen::over(
        alloc,
        &arena,
        HashMap::new(alloc),
    );
    let mut ordered: Frozen<&Bump, u64, Own<u64>, BTreeMap<u64, &u64>> = Frozen::over(
        alloc,
        &arena,
        BTreeMap::new(alloc),
    );
    for value in [1, 2] {
        assert_eq!(rt; kept(&mut hashed, Own(value))?, &1);
        assert_eq!(rt; kept(&mut ordered, Own(value))?, &1);
    }
    let mut table: HashMap<u64, u64> = HashMap::new(alloc);
    let Ok(done) = insert_with(&mut table, 7, |_| -> Result<u64, ()> { Ok(1) }) else {
        return Err(Fail::new("an insertion failed"));
    };
    assert_eq!(rt; (done.value, done.is_new), (1, true));
    let refused: Result<Put<u64, _, ()>, Refusal<u8>> = table.put_with(
        8,
        |_| -> Result<(u64, ()), u8> { Err(3) },
        |value| *value,
    );
    assert!(rt; matches!(refused, Err(Refusal::Value(3))));
    assert_eq!(rt; Table::find_entry(&table, &7), Some((&7, &1)));
    assert_eq!(rt;
        [7, 8].map(|key| Table::find(&table, &key).copied()),
        [Some(1), None]
    );
    Ok(())
}

#[test]
fn a_map_made_a_value_for_a_present_key_or_replaced_one(rt: HostRuntime) -> Result<(), Fail> {
    let arena = Bump::new(rt.alloc());
    let mut map: FrozenMap<'_, u64, Own<u64>> = FrozenMap::new(rt.alloc(), &arena);
    assert_eq!(rt; map.insert_with(7, || Own(1))?, &1);
    assert_eq!(rt; map.insert_with(7, || Own(2))?, &1);
    let present = map.try_insert_with(7, || -> Result<Own<u64>, u8> { Err(3) });
    assert!(rt; matches!(present, Ok(1)));
    let absent = map.try_insert_with(8, || -> Result<Own<u64>, u8> { Err(3) });
    assert!(rt; matches!(absent, Err(InsertFault::Value(3))));
    assert_eq!(rt; map.len(), 1);
    for (key, value, kept, is_new) in [(5, 1, 1, true), (5, 2, 1, false)] {
        let make = || -> Result<(u64, Own<u64>), AllocError> { Ok((key, Own(value))) };
        let Ok(done) = map.insert_by(&key, make) else {
            return Err(Fail::new("an insertion by a query failed"));
        };
        assert_eq!(rt; (*done.value, done.is_new), (kept, is_new));
    }
    map.extend([(6, Own(1)), (6, Own(2))])?;
    let inner = map.inner();
    assert_eq!(rt;
        (inner.len(), inner.get(&6).map(|value| **value)),
        (3, Some(1))
    );
    Ok(())
}

// ---- index collections

#[test]
fn a_call_on_an_index_map_had_a_wrong_result(rt: HostRuntime) -> Result<(), Fail> {
    let (alloc, state) = (rt.alloc(), BuildHasherDefault::new());
    let arena = Bump::new(alloc);
    let mut map: FrozenIndexMap<'_, u64, Own<u64>> = FrozenIndexMap::with_hasher(
        alloc, &arena, state,
    );
    assert_eq!(rt; map.insert_new(7, Own(1))?, (&1, true));
    assert_eq!(rt; [map.insert(5, Own(2))?, map.insert(7, Own(3))?], [&2, &1]);
    assert_eq!(rt; map.get_full(&5), Some((1, 5, &2)));
    assert_eq!(rt;
        (map.contains_key(&5), map.map_get(&5, |value| *value)),
        (true, Some(2))
    );
    assert_eq!(rt; (map.get(&5), map[&5]), (Some(&2), &2));
    let mut copy = map.clone()?;
    assert_eq!(rt; (copy == map, copy.len()), (true, 2));
    copy.as_mut().clear();
    assert_eq!(rt; (copy == map, copy.is_empty()), (false, true));
    copy.rebase(map.into_map());
    assert_eq!(rt;
        copy.into_tuple_vec()?.as_slice(),
        [(7, &1), (5, &2)].as_slice()
    );
    let mut map: FrozenIndexMap<'_, u64, String> = FrozenIndexMap::new(alloc, &arena);
    for (text, is_new) in [("a", true), ("b", false)] {
        let full = map.insert_full_new(12, String::from_str(alloc, text)?)?;
        assert_eq!(rt; full, (0, "a", is_new));
    }
    Ok(())
}

type Set<'a> = FrozenIndexSet<'a, Own<u64>>;

#[test]
fn a_call_on_an_index_set_had_a_wrong_result(rt: HostRuntime) -> Result<(), Fail> {
    let (alloc, arena) = (rt.alloc(), Bump::new(rt.alloc()));
    let mut set: Set<'_> = FrozenIndexSet::with_hasher(alloc, &arena, BuildHasherDefault::new());
    assert_eq!(rt; set.insert(Own(7))?, &7);
    for is_new in [true, false] {
        assert_eq!(rt; set.insert_full_new(Own(5))?, (1, &5, is_new));
    }
    assert_eq!(rt; set.get_index_of(&Own(9)), None);
    assert_eq!(rt; set.insert_absent(Own(9))?, (2, &9));
    assert_eq!(rt;
        (set.get_full(&Own(5)), set.contains(&Own(5))),
        (Some((1, &5)), true)
    );
    assert_eq!(rt; (set.get_index(0), set[0], set.len()), (Some(&7), &7, 3));
    let mut copy = set.clone()?;
    assert!(rt; copy == set);
    copy.as_mut().clear();
    assert_eq!(rt; (copy == set, copy.is_empty()), (false, true));
    copy.rebase(set.into_set());
    assert_eq!(rt; copy.len(), 3);
    Ok(())
}

#[test]
fn a_set_lost_a_value_when_it_was_collected_or_taken_apart(rt: HostRuntime) -> Result<(), Fail> {
    let (alloc, state) = (rt.alloc(), BuildHasherDefault::new());
    let arena = Bump::new(alloc);
    let set: Set<'_> = FrozenIndexSet::from_iter(alloc, &arena, state, [Own(7), Own(5), Own(7)])?;
    let inner = set.into_set();
    assert_eq!(rt; (Own(5u64).position(&inner), inner.len()), (Some(1), 2));
    let Ok(placed) = Own(8u64).place(&arena) else {
        return Err(Fail::new("a number was not stored"));
    };
    assert_eq!(rt; *placed, 8);
    let mut texts: FrozenIndexSet<'_, String> = FrozenIndexSet::new(alloc, &arena);
    assert_eq!(rt;
        texts.insert_absent(String::from_str(alloc, "fox")?)?,
        (0, "fox")
    );
    let texts: FrozenIndexSet<'_, String> = FrozenIndexSet::from_set(&arena, texts.into_set());
    assert_eq!(rt; texts.get(&"fox"), Some("fox"));
    let mut borrows: FrozenIndexSet<'_, &str> = FrozenIndexSet::new(alloc, &arena);
    borrows.extend(["ant", "bee"])?;
    let inner = borrows.inner();
    let found = (inner.get_index_of(&"bee"), inner.get_index_of(&"cat"));
    assert_eq!(rt; found, (Some(1), None));
    Ok(())
}

// ---- the interner, the cache, the runs

#[test]
fn a_call_on_an_interner_had_a_wrong_result(rt: HostRuntime) -> Result<(), Fail> {
    let (alloc, secret) = (rt.alloc(), SeededState::with_seed(1, 2));
    let arena = Bump::new(alloc);
    let mut names = Interner::with_hasher(alloc, &arena, secret);
    assert_eq!(rt;
        [names.put("fox")?, names.put("b")?, names.put("fox")?],
        [0, 1, 0]
    );
    assert_eq!(rt;
        (names.find("fox"), names.find("hen"), names.len()),
        (Some(0), None, 2)
    );
    assert_eq!(rt;
        [names.at(0), names.at(1), names.at(2)],
        [Some("fox"), Some("b"), None]
    );
    let texts = ["fn", "let", "fn"];
    let names = Interner::from_names(alloc, &arena, texts)?;
    assert_eq!(rt; (names.find("let"), names.find("if")), (Some(1), None));
    let list = names.into_names();
    assert_eq!(rt; list.as_slice(), ["fn", "let"].as_slice());
    let reader = Interner::from_names(alloc, &arena, texts)?.into_reader();
    assert_eq!(rt; reader.into_names().as_slice(), ["fn", "let"].as_slice());
    Ok(())
}

/// Returns the halves of a file's text, by either call. The second one stores the path itself.
fn halves<'a>(
    alloc: Global,
    cache: &mut ParsedCache<'a, (&'a str, &'a str)>,
    file: &str,
    is_placed: bool,
) -> Result<(&'a str, &'a str), CacheFault<AllocError, ()>> {
    let load = |_: &str| String::from_str(alloc, file);
    Ok(*match is_placed {
        true => cache.get_or_parse_placed("path", load, |text| text.split_once(' ').ok_or(()))?,
        false => cache.get_or_parse("path", load, |text| text.split_once(' ').ok_or(()))?,
    })
}

#[test]
fn a_loaded_text_was_parsed_twice(rt: HostRuntime) -> Result<(), Fail> {
    let arena = Bump::new(rt.alloc());
    for first in [false, true] {
        let mut cache = ParsedCache::new(rt.alloc(), &arena);
        for (file, is_placed) in [
            ("left right", first),
            ("another text", first),
            ("c d", !first),
        ] {
            let found = halves(rt.alloc(), &mut cache, file, is_placed);
            assert_eq!(rt; found, Ok(("left", "right")), "{file} {is_placed}");
        }
        assert_eq!(rt; cache.text("path"), Some("left right"));
        assert_eq!(rt; cache.get("path").copied(), Some(("left", "right")));
    }
    Ok(())
}

#[test]
fn a_run_on_an_ordered_map_had_another_reply(rt: HostRuntime) -> Result<(), Fail> {
    let (alloc, arena) = (rt.alloc(), Bump::new(rt.alloc()));
    let mut map: FrozenBTreeMap<'_, u64, Own<u64>> = FrozenBTreeMap::new(alloc, &arena);
    let commands = vec![in alloc;
        MapCommand::InsertNew(7, Own(1)),
        MapCommand::Insert(7, Own(2)),
        MapCommand::Len,
    ]?;
    let wanted = [
        MapReply::New(&1, true),
        MapReply::Item(&1),
        MapReply::Count(1),
    ];
    assert_eq!(rt; run_map(&mut map, commands)?.as_slice(), wanted.as_slice());
    Ok(())
}

#[test]
fn a_run_on_an_index_collection_had_another_reply(rt: HostRuntime) -> Result<(), Fail> {
    let (alloc, arena) = (rt.alloc(), Bump::new(rt.alloc()));
    let mut map: FrozenIndexMap<'_, u64, Own<u64>> = FrozenIndexMap::new(alloc, &arena);
    let commands = vec![in alloc;
        IndexCommand::InsertFull(7, Own(1)),
        IndexCommand::IndexOf(7),
    ]?;
    let wanted = [IndexReply::Full(0, &1), IndexReply::Place(Some(0))];
    assert_eq!(rt;
        run_index(&mut map, commands)?.as_slice(),
        wanted.as_slice()
    );
    let mut set: FrozenIndexSet<'_, Own<u64>> = FrozenIndexSet::new(alloc, &arena);
    let commands = vec![in alloc; SetCommand::InsertFull(Own(7)), SetCommand::At(0)]?;
    let wanted = [SetReply::Full(0, &7), SetReply::Found(Some(&7))];
    assert_eq!(rt; run_set(&mut set, commands)?.as_slice(), wanted.as_slice());
    Ok(())
}
