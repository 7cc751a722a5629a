//! Values that are made once for each key: by one thread, by four at once, with makers that fail,
//! and with allocations that fail.
use crate::thread_tests::comes;
use elsa_lock_free_map::handle::MapHandle;
use elsa_lock_free_map::once::{OnceMap, OnceValue};
use std::alloc::{AllocError, Allocator, Global};
use std::hash::{BuildHasherDefault, FoldHasher};
use std::sync::atomic::{AtomicU64, Ordering};
use std::sync::{Arc, Wait};
use std::test::*;
use std::thread;
use test_alloc::Budget;

/// The number of keys, and of calls of each thread.
const KEYS: u64 = 50;

const CALLS: u64 = 400;

type State = BuildHasherDefault<FoldHasher>;

type Texts<A> = OnceMap<String<Global>, Arc<u64, Global>, State, A>;

type TextsHandle<'m, A> = MapHandle<'m, String<Global>, OnceValue<Arc<u64, Global>>, State, A>;

/// What a call returned: the value and whether it has made it, or the error of its maker; and how
/// often the maker ran.
type Done = (Result<(u64, bool), u8>, u32);

/// The error of a maker, or of the map.
#[derive(Debug, Drop)]
struct Fault {
    code: u8,
}

impl From<AllocError> for Fault {
    fn from(_error: AllocError) -> Fault {
        Fault { code: 1 }
    }
}

/// Makes the value of a text, if there is none: an owner of this number, or an error for 0.
fn try_make<R: Wait, A: Allocator + Copy>(
    rt: &R,
    alloc: Global,
    handle: &mut TextsHandle<'_, A>,
    text: &str,
    number: u64,
) -> Result<Done, AllocError> {
    let key = String::from_str(alloc, text)?;
    let mut runs = 0u32;
    let make = || -> Result<Arc<u64, Global>, Fault> {
        runs = runs.wrapping_add(1);
        if number == 0 {
            return Err(Fault { code: 3 });
        }
        Arc::new(alloc, number).map_err(|_| Fault { code: 2 })
    };
    let done = match handle.get_or_try_init(rt, key, make) {
        Ok(made) => Ok((**made.value, made.is_new)),
        Err(fault) => Err(fault.code),
    };
    Ok((done, runs))
}

#[test]
fn a_look_up_found_a_value_that_was_not_made(rt: HostRuntime) -> Result<(), Fail> {
    let map: Texts<Global> = OnceMap::new(rt.alloc())?;
    let (mut one, mut other) = (map.handle(), map.handle());
    assert!(rt; other.get_made("ann").is_none());
    assert_eq!(rt; try_make(&rt, rt.alloc(), &mut one, "ann", 0)?, (Err(3), 1));
    assert!(rt; other.get_made("ann").is_none());
    let got = try_make(&rt, rt.alloc(), &mut one, "ann", 30)?;
    assert_eq!(rt; got, (Ok((30, true)), 1));
    let made = other
        .get_made("ann")
        .map(|made| (**made.value, made.is_new));
    assert_eq!(rt; made, Some((30, false)));
    Ok(())
}

type Numbers<A = Global> = OnceMap<u64, u64, State, A>;

/// Each thread makes the values of drawn keys, each a number of its own, and sums the values that
/// the keys have.
#[test]
fn four_threads_ran_two_makers_of_a_key(rt: HostRuntime) -> Result<(), Fail> {
    let (map, handle): (Numbers, _) = (OnceMap::new(rt.alloc())?, &rt);
    let mut makers = Vec::with_capacity(rt.alloc(), KEYS as usize)?;
    for _ in 0..KEYS {
        makers.push(AtomicU64::new(0))?;
    }
    let sum_of_values = |thread: u64| -> Result<u64, AllocError> {
        let (mut own, mut sum) = (map.handle(), 0);
        for call in 0..CALLS {
            let key = (7 * call + thread) % KEYS;
            let make = || -> u64 {
                makers[key as usize].fetch_add(1, Ordering::SeqCst);
                thread::yield_now();
                8 * key + thread
            };
            sum += *own.get_or_init(handle, key, make)?.value;
        }
        Ok(sum)
    };
    let sums = thread::map_indices(handle, rt.alloc(), 4, &|at| sum_of_values(at as u64))?;
    // By a handle that has observed none of the values.
    let (mut later, mut sum) = (map.handle(), 0);
    for key in 0..KEYS {
        assert_eq!(rt; makers[key as usize].load(Ordering::SeqCst), 1, "{key}");
        let Some(made) = later.get_made(&key) else {
            return Err(Fail::from("a value was lost"));
        };
        sum += *made.value * (CALLS / KEYS);
    }
    assert_eq!(rt; sums.as_slice(), [Ok(sum); 4].as_slice());
    Ok(())
}

/// One maker ends once another thread has made the value of another key.
#[test]
fn a_key_waited_for_the_maker_of_another_key(rt: HostRuntime) -> Result<(), Fail> {
    let (map, handle): (Numbers, _) = (OnceMap::new(rt.alloc())?, &rt);
    let flags = [AtomicU64::new(0), AtomicU64::new(0)];
    let (one, other) = thread::join(
        handle,
        || {
            let make = || -> u64 {
                flags[0].store(1, Ordering::SeqCst);
                comes(|| flags[1].load(Ordering::SeqCst) == 1) as u64
            };
            map.handle()
                .get_or_init(handle, 1, make)
                .map(|made| *made.value)
        },
        || {
            let mut own = map.handle();
            let has_begun = comes(|| flags[0].load(Ordering::SeqCst) == 1);
            let is_new = own.get_or_init(handle, 2, || 5).map(|made| made.is_new);
            let is_open = own.get_made(&1).is_none();
            flags[1].store(1, Ordering::SeqCst);
            (has_begun, is_new, is_open)
        },
    );
    assert_eq!(rt; (one, other), (Ok(1), (true, Ok(true), true)));
    Ok(())
}

#[test]
fn a_maker_could_not_use_the_map_for_another_key(rt: HostRuntime) -> Result<(), Fail> {
    let (map, handle): (Numbers, _) = (OnceMap::new(rt.alloc())?, &rt);
    let make = || -> Result<u64, AllocError> {
        Ok(*map.handle().get_or_init(handle, 1, || 5)?.value + 2)
    };
    assert_eq!(rt; *map.handle().get_or_try_init(handle, 2, make)?.value, 7);
    Ok(())
}

/// Makes 16 values, with one of the map's requests denied, and each that failed again.
#[test]
fn a_refused_request_ran_a_maker_or_left_a_key(rt: HostRuntime) -> Result<(), Fail> {
    let mut denied = 0;
    for request in 0..8 {
        let heap = Budget::new(rt.alloc());
        let map: Numbers<&Budget<Global>> = OnceMap::with_hasher(&heap, BuildHasherDefault::new())?;
        heap.refuse(heap.asked() + request, heap.asked() + request + 1);
        let (mut handle, mut failed, mut runs) = (map.handle(), 0, 0);
        for key in 0..16 {
            for _ in 0..2 {
                let make = || -> u64 {
                    runs += 1;
                    key
                };
                if let Ok(made) = handle.get_or_init(&rt, key, make) {
                    assert_eq!(rt; *made.value, key);
                    continue;
                }
                failed += 1;
                let is_there = handle.contains_key(&key) || handle.get_made(&key).is_some();
                assert!(rt; !is_there, "request {request}, key {key}");
            }
        }
        drop(handle);
        drop(map);
        assert_eq!(rt; (failed, runs), (heap.refused(), 16), "request {request}");
        assert_eq!(rt; heap.given(), heap.granted(), "request {request}");
        denied += failed;
    }
    assert!(rt; denied > 3, "{denied} requests were denied");
    Ok(())
}

/// Of the second of three keys the maker fails.
#[test]
fn a_value_did_not_come_out_of_its_map(rt: HostRuntime) -> Result<(), Fail> {
    let map: Texts<Global> = OnceMap::new(rt.alloc())?;
    let mut handle = map.handle();
    for (text, number) in [("ann", 30), ("bob", 0), ("eve", 20)] {
        let _ = try_make(&rt, rt.alloc(), &mut handle, text, number)?;
    }
    drop(handle);
    let Ok(entries) = map.into_tuple_vec() else {
        return Err(Fail::from("the entries could not be moved out"));
    };
    let mut values = Vec::new(rt.alloc());
    for (_, value) in entries {
        values.push(value.into_inner().map(|owner| *owner))?;
    }
    assert_eq!(rt; values.as_slice(), [Some(30), None, Some(20)].as_slice());
    Ok(())
}

/// Makes values of drawn texts, of which some makers fail, by two handles.
#[test]
fn values_of_drawn_texts_differed_from_a_plain_list(rt: HostRuntime) -> Result<(), Fail> {
    let alloc = rt.alloc();
    for seed in 1..6u64 {
        let map: Texts<Global> = OnceMap::new(alloc)?;
        let mut handles = [map.handle(), map.handle()];
        let mut values: Vec<Option<u64>> = Vec::from_elem(alloc, None, KEYS as usize)?;
        let mut drawn = seed;
        for call in 1..CALLS {
            drawn = drawn
                .wrapping_mul(6_364_136_223_846_793_005)
                .wrapping_add(1_442_695_040_888_963_407);
            let (key, kind) = ((drawn >> 33) % KEYS, (drawn >> 20) % 4);
            let text = format!(in alloc; "key {key}")?;
            let number = if kind == 0 { 0 } else { call };
            let wanted = match values[key as usize] {
                Some(value) => (Ok((value, false)), 0),
                None if number == 0 => (Err(3), 1),
                None => {
                    values[key as usize] = Some(call);
                    (Ok((call, true)), 1)
                }
            };
            let by = usize::from(kind == 1);
            let done = try_make(&rt, alloc, &mut handles[by], text.as_str(), number)?;
            assert_eq!(rt; done, wanted, "seed {seed}, call {call}, key {key}");
        }
    }
    Ok(())
}
