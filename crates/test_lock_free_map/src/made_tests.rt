//! Insertions whose key or value is made, while another handle inserts and while allocations fail.
//! The keys are owned texts.
use elsa_lock_free_map::handle::MapHandle;
use elsa_lock_free_map::map::LockFreeFrozenMap;
use std::alloc::{AllocError, Allocator, Global};
use std::hash::{BuildHasherDefault, FoldHasher};
use std::sync::{Arc, Wait};
use std::test::*;
use test_alloc::Budget;

type State = BuildHasherDefault<FoldHasher>;

/// A value that counts itself, by an owner of one number.
#[derive(Drop)]
struct Value {
    number: usize,
    _owner: Arc<u64, Global>,
}

type Owners<A> = LockFreeFrozenMap<String<Global>, Value, State, A>;

type OwnersHandle<'m, A> = MapHandle<'m, String<Global>, Value, State, A>;

/// What an insertion returned: the number of the value, the index and whether the key is new, or
/// `None` if it failed; and how often the closure ran.
type Done = (Option<(usize, usize, bool)>, usize);

/// Inserts a text by itself, and a value of this number.
fn by_query<R: Wait, A: Allocator + Copy>(
    rt: &R,
    alloc: Global,
    handle: &mut OwnersHandle<'_, A>,
    owner: &Arc<u64, Global>,
    text: &str,
    number: usize,
) -> Done {
    let mut runs = 0;
    let make = || -> Result<(String<Global>, Value), AllocError> {
        runs += 1;
        let (key, _owner) = (String::from_str(alloc, text)?, owner.clone()?);
        Ok((key, Value { number, _owner }))
    };
    let done = handle.insert_by(rt, text, make);
    (
        done.ok()
            .map(|done| (done.value.number, done.index, done.is_new)),
        runs,
    )
}

/// Inserts a key and a value of this number, which is made only if the key is absent.
fn by_key<R: Wait, A: Allocator + Copy>(
    rt: &R,
    handle: &mut OwnersHandle<'_, A>,
    _owner: Arc<u64, Global>,
    key: String<Global>,
    number: usize,
) -> Done {
    let mut runs = 0;
    let make = || -> Value {
        runs += 1;
        Value { number, _owner }
    };
    let done = handle.get_or_insert_with(rt, key, make);
    (
        done.ok()
            .map(|done| (done.value.number, done.index, done.is_new)),
        runs,
    )
}

/// Another handle inserts the key in the closure.
#[test]
fn an_entry_that_came_while_one_was_made_was_replaced(rt: HostRuntime) -> Result<(), Fail> {
    let (handle, alloc, owner) = (&rt, rt.alloc(), Arc::new(rt.alloc(), 7u64)?);
    let map: Owners<Global> = LockFreeFrozenMap::new(alloc)?;
    let make = || -> Result<(String<Global>, Value), AllocError> {
        let _ = by_query(handle, alloc, &mut map.handle(), &owner, "eve", 1);
        let (key, _owner) = (String::from_str(alloc, "eve")?, owner.clone()?);
        Ok((key, Value { number: 2, _owner }))
    };
    let mut own = map.handle();
    let done = own.insert_by(handle, "eve", make)?;
    assert_eq!(rt; (done.value.number, done.index, done.is_new), (1, 0, false));
    assert_eq!(rt; Arc::strong_count(&owner), 2);
    drop(own);
    drop(map);
    assert_eq!(rt; Arc::strong_count(&owner), 1);
    let map = LockFreeFrozenMap::<u64, u64>::new(alloc)?;
    let mut own = map.handle();
    let done = own.get_or_insert_with(handle, 5, || match map.handle().insert(handle, 5, 2) {
        Ok(_) => 1,
        Err(_) => 0,
    })?;
    assert_eq!(rt; (*done.value, done.index, done.is_new), (2, 0, false));
    Ok(())
}

#[test]
fn a_second_insertion_returned_another_value(rt: HostRuntime) -> Result<(), Fail> {
    let map = LockFreeFrozenMap::<u64, u64>::new(rt.alloc())?;
    for key in 0..70 {
        let (mut one, mut other) = (map.handle(), map.handle());
        for value in [key, 700] {
            assert_eq!(rt; one.insert(&rt, key, value)?.value, key);
            assert_eq!(rt; other.insert(&rt, key, 800)?.value, key);
        }
        one.same_index(&other);
    }
    Ok(())
}

/// Inserts 16 texts by both calls, with one request denied, and each insertion that fails again.
#[test]
fn a_refused_insertion_of_a_made_entry_left_an_owner(rt: HostRuntime) -> Result<(), Fail> {
    let (alloc, owner) = (rt.alloc(), Arc::new(rt.alloc(), 7u64)?);
    let mut denied = 0;
    for request in 0..12 {
        let heap = Budget::new(alloc);
        let map = Owners::with_hasher(&heap, BuildHasherDefault::new())?;
        heap.refuse(heap.asked() + request, heap.asked() + request + 1);
        let (mut handle, mut failed) = (map.handle(), 0);
        for number in 1..17 {
            let text = format!(in alloc; "key {number}")?;
            for _ in 0..2 {
                let tried = if number % 2 == 0 {
                    by_query(&rt, alloc, &mut handle, &owner, text.as_str(), number)
                } else {
                    by_key(&rt, &mut handle, owner.clone()?, text.clone()?, number)
                };
                if tried == (Some((number, number - 1, true)), 1) {
                    break;
                }
                assert_eq!(rt; (number, tried), (number, (None, 1)), "request {request}");
                assert!(rt; !handle.contains_key(text.as_str()), "request {request}");
                assert_eq!(rt; handle.len(), number - 1, "request {request}");
                failed += 1;
            }
        }
        let got = (failed, handle.len());
        assert_eq!(rt; got, (heap.refused(), 16), "request {request}");
        drop(handle);
        drop(map);
        assert_eq!(rt; Arc::strong_count(&owner), 1, "request {request}");
        assert_eq!(rt; heap.given(), heap.granted(), "request {request}");
        denied += failed;
    }
    assert!(rt; denied > 3, "{denied} requests were denied");
    Ok(())
}
