//! The lock-free map and the maps made of it, by `elsa` alone: each call of a handle, the second
//! insertion of a key by each call that inserts, and four threads that insert the same keys.
use bumpalo::Bump;
use elsa::SeededState;
use elsa::sync::{Inserted, LockFreeFrozenMap, LockFreeShardedMap, LockPermit, MapHandle, OnceMap};
use elsa_lock_free_map::iter::{MapIter, MapRefs};
use std::alloc::AllocError;
use std::sync::Wait;
use std::test::Fail;
use std::thread;

type Ages<'a> = LockFreeFrozenMap<&'a str, u64>;

#[test]
fn a_call_of_a_handle_of_a_map_had_a_wrong_result(rt: HostRuntime) -> Result<(), Fail> {
    let ages: Ages<'_> = LockFreeFrozenMap::new(rt.alloc())?;
    let mut one = ages.handle();
    let (new, old) = (one.insert(&rt, "ann", 30)?, one.insert(&rt, "ann", 40)?);
    assert_eq!(rt;
        (new.is_new, new.index, old.is_new, old.value),
        (true, 0, false, 30)
    );
    assert_eq!(rt; (one.get("ann"), one.find(&"ann")), (Some(30), Some(0)));
    assert_eq!(rt;
        (one.get_index(0), one.len(), one.seen_len()),
        (Some(("ann", 30)), 1, 1)
    );
    let mut other = MapHandle::of(&ages, ages.pass());
    assert_eq!(rt; (other.get("ann"), other.get("bob")), (Some(30), None));
    assert_eq!(rt; other.insert(&rt, "bob", 20)?.index, 1);
    assert_eq!(rt; (other.len(), other.get_index(1)), (2, Some(("bob", 20))));
    let mut fresh = ages.handle();
    fresh.meet(&mut other);
    assert_eq!(rt; fresh.into_pass().seen_len(), 2);
    let made = one.get_or_insert_with(&rt, "eve", || 50)?;
    assert_eq!(rt; (made.is_new, made.index, *made.value), (true, 2, 50));
    assert_eq!(rt; *one.get_or_insert_with(&rt, "eve", || 60)?.value, 50);
    assert_eq!(rt;
        (one.contains_key("eve"), one.contains_key("zoe")),
        (true, false)
    );
    assert_eq!(rt; (one.seen_len(), one.iter().last()), (3, Some(("eve", 50))));
    one.one_to_one();
    one.same_index(&ages.handle());
    let mut walk: MapIter<'_, &str, u64> = one.iter();
    assert_eq!(rt; (walk.size_hint().0, walk.next()), (3, Some(("ann", 30))));
    Ok(())
}

#[test]
fn an_entry_of_a_map_did_not_come_out_or_printed_otherwise(rt: HostRuntime) -> Result<(), Fail> {
    let alloc = rt.alloc();
    let ages: LockFreeFrozenMap<String, u64> = LockFreeFrozenMap::new(alloc)?;
    for (name, age) in [("bob", 20), ("ann", 30), ("eve", 50)] {
        ages.handle()
            .insert_ref(&rt, String::from_str(alloc, name)?, age)?;
    }
    let mut handle = ages.handle();
    assert_eq!(rt; handle.len(), 3);
    let mut walk: MapRefs<'_, String, u64> = handle.iter().refs();
    for (left, name, age) in [(3, "bob", 20), (2, "ann", 30), (1, "eve", 50)] {
        let hint = walk.size_hint().0;
        let entry = walk.next().map(|(key, value)| (key.as_str(), *value));
        assert_eq!(rt; (hint, entry), (left, Some((name, age))));
    }
    assert_eq!(rt; (walk.size_hint().0, walk.next().is_none()), (0, true));
    let mut view = ages.pass();
    let entries = ages.into_tuple_vec_as(&mut view)?;
    let shown: Vec<(&str, u64)> = entries
        .iter()
        .map(|it| (it.0.as_str(), it.1))
        .collect(alloc)?;
    assert_eq!(rt;
        shown.as_slice(),
        [("bob", 20), ("ann", 30), ("eve", 50)].as_slice()
    );
    assert_eq!(rt; view.seen_len(), 3);
    let numbers: LockFreeFrozenMap<u64, u64> = LockFreeFrozenMap::new(alloc)?;
    let pairs = [(7, 70), (3, 30)];
    for (key, value) in pairs {
        numbers.handle().insert(&rt, key, value)?;
    }
    let printed = format!(in alloc; "{numbers:?}")?;
    assert_eq!(rt; printed.as_str(), "{7: 70, 3: 30}");
    assert_eq!(rt; numbers.into_tuple_vec()?.as_slice(), pairs.as_slice());
    Ok(())
}

#[test]
fn a_text_was_not_found_or_was_stored_twice(rt: HostRuntime) -> Result<(), Fail> {
    let arena = Bump::new(rt.alloc());
    let ages: Ages<'_> = LockFreeFrozenMap::new(rt.alloc())?;
    let (mut one, mut other) = (ages.handle(), ages.handle());
    let rows = [
        ("ann", 30, (0, 30, true)),
        ("ann", 40, (0, 30, false)),
        ("bob", 20, (1, 20, true)),
    ];
    for (name, age, wanted) in rows {
        let before = arena.allocated_bytes() - arena.chunk_capacity();
        let done = one.insert_text(&rt, &arena, name, age)?;
        assert_eq!(rt;
            (done.index, done.value, done.is_new),
            wanted,
            "{name} {age}"
        );
        let stored = arena.allocated_bytes() - arena.chunk_capacity() > before;
        assert_eq!(rt; stored, done.is_new, "{name} {age}");
    }
    assert_eq!(rt; other.insert_text(&rt, &arena, "ann", 50)?.value, 30);
    for (name, index, age) in [
        ("ann", Some(0), Some(30)),
        ("bob", Some(1), Some(20)),
        ("zoe", None, None),
    ] {
        for handle in [&mut one, &mut other] {
            let found = (handle.find(name), handle.get_ref(name).copied());
            assert_eq!(rt; found, (index, age), "{name}");
        }
    }
    Ok(())
}

const TEXTS: [&str; 12] = [
    "ant", "bee", "cat", "dog", "eel", "fox", "gnu", "hen", "ibis", "jay", "kite", "lion",
];

/// The names of the calls that insert.
const CALLS: [&str; 8] = [
    "insert",
    "try_insert",
    "insert_text",
    "try_insert_text",
    "get_or_insert_with",
    "insert_by",
    "insert_ref",
    "try_insert_ref",
];

fn of_copy(done: Inserted<u64, usize>) -> (u64, usize, bool) {
    (done.value, done.index, done.is_new)
}

fn of_reference(done: Inserted<&u64, usize>) -> (u64, usize, bool) {
    (*done.value, done.index, done.is_new)
}

/// Inserts a text by the call of this name. Returns its value, its index, and whether it is new.
fn inserted<'a>(
    (rt, may, arena): (&impl Wait, LockPermit, &'a Bump),
    map: &mut MapHandle<'_, &'a str, u64>,
    call: &str,
    text: &'static str,
    value: u64,
) -> Result<(u64, usize, bool), AllocError> {
    Ok(match call {
        "insert" => of_copy(map.insert(rt, text, value)?),
        "try_insert" => of_copy(map.try_insert(may, text, value).map_err(|_| AllocError)?),
        "insert_text" => of_copy(map.insert_text(rt, arena, text, value)?),
        "try_insert_text" => {
            of_copy(
                map.try_insert_text(may, arena, text, value)
                    .map_err(|_| AllocError)?,
            )
        }
        "get_or_insert_with" => of_reference(map.get_or_insert_with(rt, text, || value)?),
        "insert_by" => {
            let made = || -> Result<(&str, u64), AllocError> { Ok((text, value)) };
            of_reference(map.insert_by(rt, text, made)?)
        }
        "insert_ref" => of_reference(map.insert_ref(rt, text, value)?),
        _ => of_reference(
            map.try_insert_ref(may, text, value)
                .map_err(|_| AllocError)?,
        ),
    })
}

#[test]
fn a_second_insertion_of_a_text_was_new_or_had_another_value(rt: HostRuntime) -> Result<(), Fail> {
    let (alloc, arena) = (rt.alloc(), Bump::new(rt.alloc()));
    let at = (&rt, LockPermit::trying(alloc), &arena);
    for call in CALLS {
        let map: Ages<'_> = LockFreeFrozenMap::new(alloc)?;
        let mut handle = map.handle();
        for is_new in [true, false] {
            for (index, text) in TEXTS.iter().enumerate() {
                let value = if is_new { index as u64 } else { 99 };
                let said = inserted(at, &mut handle, call, *text, value)?;
                assert_eq!(rt; said, (index as u64, index, is_new), "{call} of {text}");
            }
        }
    }
    Ok(())
}

#[test]
fn a_value_was_made_twice(rt: HostRuntime) -> Result<(), Fail> {
    let map: OnceMap<u64, u64> = OnceMap::new(rt.alloc())?;
    let mut handle = map.handle();
    for (value, wanted) in [(70, (70, true)), (71, (70, false))] {
        let made = handle.get_or_init(&rt, 7, || value)?;
        assert_eq!(rt; (*made.value, made.is_new), wanted);
    }
    for (value, wanted) in [(80, (80, true)), (81, (80, false))] {
        let made = handle.get_or_try_init(&rt, 8, || -> Result<u64, AllocError> { Ok(value) })?;
        assert_eq!(rt; (*made.value, made.is_new), wanted);
    }
    Ok(())
}

#[test]
fn a_handle_of_shards_had_observed_a_later_key(rt: HostRuntime) -> Result<(), Fail> {
    let map: LockFreeShardedMap<u64, u64> = LockFreeShardedMap::new(rt.alloc())?;
    let mut handle = map.handle()?;
    handle.insert_ref(&rt, 1, 10)?;
    map.handle()?.insert_ref(&rt, 2, 20)?;
    for (key, value) in [(1, Some(10)), (2, None)] {
        let shard = &handle.shards()[handle.shard_index(&key)];
        assert_eq!(rt; (key, shard.seen_get(&key).copied()), (key, value));
    }
    Ok(())
}

/// The number of keys that each thread inserts.
const KEYS: u64 = 200;

/// Inserts each key with the number of the thread. Returns the number of keys that were new, and of
/// those whose value no thread inserted or that were then not found.
fn raced(
    rt: &impl Wait,
    map: &LockFreeFrozenMap<u64, u64, SeededState>,
    thread: u64,
) -> Result<(u64, u64), AllocError> {
    let (mut handle, mut new, mut wrong) = (map.handle(), 0, 0);
    for key in 0..KEYS {
        let inserted = handle.insert(rt, key, thread)?;
        new += inserted.is_new as u64;
        wrong += (inserted.value > 3 || handle.get(key) != Some(inserted.value)) as u64;
    }
    Ok((new, wrong))
}

#[test]
fn a_key_that_threads_raced_for_was_new_to_two_or_to_none(rt: HostRuntime) -> Result<(), Fail> {
    let map = LockFreeFrozenMap::with_hasher(rt.alloc(), SeededState::new(&rt)?)?;
    let (shared, mut sum) = (&map, 0);
    for thread in thread::map_indices(&rt, rt.alloc(), 4, &|it| raced(&rt, shared, it as u64))? {
        let (new, wrong) = thread?;
        assert_eq!(rt; wrong, 0);
        sum += new;
    }
    assert_eq!(rt; (sum, map.handle().len()), (KEYS, KEYS as usize));
    Ok(())
}
