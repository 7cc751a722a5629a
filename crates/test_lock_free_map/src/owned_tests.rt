//! Maps whose keys and values own memory: each is dropped once, with the map, when another thread
//! was first with its key, or after it came out of the map; and a map whose entries can't be moved
//! out is returned whole.
use elsa_lock_free_map::handle::MapHandle;
use elsa_lock_free_map::map::LockFreeFrozenMap;
use std::alloc::{AllocError, Allocator, Global};
use std::hash::{BuildHasherDefault, FoldHasher};
use std::process::Abort;
use std::sync::{Arc, Wait};
use std::test::*;
use std::thread;
use test_alloc::Budget;

/// The numbers of entries on both sides of the ends of the first four buffers, and a larger one.
const LENGTHS: [usize; 14] = [0, 1, 2, 3, 4, 14, 15, 16, 62, 63, 64, 254, 255, 1000];

type State = BuildHasherDefault<FoldHasher>;

/// A value that counts itself, by an owner of one number.
#[derive(Drop)]
struct Value {
    number: usize,
    _owner: Arc<u64, Global>,
}

/// The keys are owned texts, and each value has the number of its key.
type Owners<A> = LockFreeFrozenMap<String<Global>, Value, State, A>;

type Heap<'b> = &'b Budget<Global>;

/// Inserts the entry of a number, and looks it up by another text. Returns whether it is new, or
/// `None` if the insertion failed.
fn insert<R: Wait + Abort, A: Allocator + Copy>(
    rt: &R,
    alloc: Global,
    handle: &mut MapHandle<'_, String<Global>, Value, State, A>,
    owner: &Arc<u64, Global>,
    number: usize,
) -> Result<Option<bool>, AllocError> {
    let (key, text) = (
        format!(in alloc; "key {number}")?,
        format!(in alloc; "key {number}")?,
    );
    let _owner = owner.clone()?;
    let Ok(made) = handle.insert_ref(rt, key, Value { number, _owner }) else {
        return Ok(None);
    };
    let is_new = made.is_new;
    let found = handle.get_ref(text.as_str()).map(|value| value.number);
    assert_eq!(rt; found, Some(number));
    Ok(Some(is_new))
}

/// Inserts `count` entries, and returns the number of new keys.
fn insert_all<R: Wait + Abort, A: Allocator + Copy>(
    rt: &R,
    alloc: Global,
    map: &Owners<A>,
    owner: &Arc<u64, Global>,
    count: usize,
) -> Result<usize, AllocError> {
    let (mut handle, mut new) = (map.handle(), 0);
    for number in 0..count {
        if insert(rt, alloc, &mut handle, owner, number)? == Some(true) {
            new += 1;
        }
    }
    Ok(new)
}

#[test]
fn a_value_was_not_dropped_once_with_its_map(rt: HostRuntime) -> Result<(), Fail> {
    let (alloc, owner) = (rt.alloc(), Arc::new(rt.alloc(), 7u64)?);
    for count in LENGTHS {
        let heap = Budget::new(alloc);
        let map = Owners::with_hasher(&heap, BuildHasherDefault::new())?;
        assert_eq!(rt; insert_all(&rt, alloc, &map, &owner, count)?, count);
        let got = insert_all(&rt, alloc, &map, &owner, count)?;
        assert_eq!(rt; got, 0, "{count} entries");
        assert_eq!(rt; Arc::strong_count(&owner), count + 1);
        drop(map);
        assert_eq!(rt; Arc::strong_count(&owner), 1, "{count} entries");
        assert_eq!(rt; heap.given(), heap.granted(), "{count} entries");
    }
    Ok(())
}

/// Four threads insert the same 200 keys while the requests from `from` on, `denied` of them, fail.
#[test]
fn a_value_of_four_threads_was_lost_or_dropped_twice(rt: HostRuntime) -> Result<(), Fail> {
    let (handle, alloc, owner) = (&rt, rt.alloc(), Arc::new(rt.alloc(), 7u64)?);
    for (from, denied) in (1..8).flat_map(|from| [(from, 0), (from, 1), (from, 30)]) {
        let heap = Budget::new(alloc);
        let map = Owners::with_hasher(&heap, BuildHasherDefault::new())?;
        heap.refuse(from, from + denied);
        let new = thread::map_indices(
            handle,
            alloc,
            4,
            &|_| insert_all(handle, alloc, &map, &owner, 200).unwrap_or(1000),
        )?;
        let len = map.handle().len();
        assert_eq!(rt; new.iter().sum::<usize>(), len, "{from}, {denied}");
        assert!(rt; denied > 0 || len == 200, "{from}: {len} entries");
        assert_eq!(rt; Arc::strong_count(&owner), len + 1, "{from}, {denied}");
        drop(map);
        assert_eq!(rt; Arc::strong_count(&owner), 1, "{from}, {denied}");
        assert_eq!(rt; heap.given(), heap.granted(), "{from}, {denied}");
    }
    Ok(())
}

/// Checks that the entries that came out are the ones that were inserted, and are the only memory
/// that is still allocated, and that each value is dropped once.
fn check_entries<R: Abort>(
    rt: &R,
    alloc: Global,
    entries: Vec<(String<Global>, Value), Heap<'_>>,
    heap: Heap<'_>,
    owner: &Arc<u64, Global>,
    count: usize,
) -> Result<(), AllocError> {
    assert_eq!(rt; entries.len(), count);
    for (index, (key, value)) in entries.iter().enumerate() {
        let text = format!(in alloc; "key {index}")?;
        assert_eq!(rt; (key.as_str(), value.number), (text.as_str(), index));
    }
    assert_eq!(rt; Arc::strong_count(owner), count + 1);
    let blocks = if count == 0 { 0 } else { 1 };
    assert_eq!(rt; heap.granted() - heap.given(), blocks, "{count} entries");
    drop(entries);
    let got = (Arc::strong_count(owner), heap.given());
    assert_eq!(rt; got, (1, heap.granted()));
    Ok(())
}

/// The view by which the entries come out has observed none of them.
#[test]
fn an_entry_did_not_come_out_of_its_map(rt: HostRuntime) -> Result<(), Fail> {
    let (alloc, owner) = (rt.alloc(), Arc::new(rt.alloc(), 7u64)?);
    for count in LENGTHS {
        let heap = Budget::new(alloc);
        let map = Owners::with_hasher(&heap, BuildHasherDefault::new())?;
        insert_all(&rt, alloc, &map, &owner, count)?;
        let mut pass = map.pass();
        let Ok(entries) = map.into_tuple_vec_as(&mut pass) else {
            return Err(Fail::from("the entries could not be moved out"));
        };
        assert_eq!(rt; pass.seen_len(), count);
        check_entries(&rt, alloc, entries, &heap, &owner, count)?;
    }
    Ok(())
}

/// The map that is returned has its entries, and takes another one.
#[test]
fn a_map_was_lost_when_its_entries_could_not_come_out(rt: HostRuntime) -> Result<(), Fail> {
    let (alloc, owner) = (rt.alloc(), Arc::new(rt.alloc(), 7u64)?);
    for count in LENGTHS.into_iter().skip(1) {
        let heap = Budget::new(alloc);
        let map = Owners::with_hasher(&heap, BuildHasherDefault::new())?;
        insert_all(&rt, alloc, &map, &owner, count)?;
        heap.refuse_next(1);
        let Err(failed) = map.into_tuple_vec() else {
            return Err(Fail::from("the entries were moved out without memory"));
        };
        heap.refuse_next(0);
        let map = failed.value;
        let got = (map.handle().len(), Arc::strong_count(&owner));
        assert_eq!(rt; got, (count, count + 1));
        let again = insert(&rt, alloc, &mut map.handle(), &owner, 0)?;
        let more = insert(&rt, alloc, &mut map.handle(), &owner, count)?;
        assert_eq!(rt; (count, again, more), (count, Some(false), Some(true)));
        let Ok(entries) = map.into_tuple_vec() else {
            return Err(Fail::from("the entries could not be moved out"));
        };
        check_entries(&rt, alloc, entries, &heap, &owner, count + 1)?;
    }
    Ok(())
}
