//! Calls on a locked collection while another thread has the lock. A read completes while another
//! read has the lock, and waits while an insertion has it. No call returns early, and none returns
//! the content from before the insertion.
use crate::marks::{CALLS, Talk, Watched};
use elsa_locks::map::{FrozenBTreeMap, FrozenMap, Locked};
use elsa_locks::vec::FrozenVec;
use elsa_tables::Table;
use std::alloc::{AllocError, Global};
use std::sync::{Arc, Wait};
use std::test::Fail;
use std::thread;
use test_alloc::Budget;

// The reads of a map that has 6 at 1 and no other entry, with what they show. An entry is shown as
// 106.
const READS: [(&str, u64); 9] = [
    ("get", 6),
    ("get_copy", 6),
    ("map_get", 6),
    ("len", 1),
    ("is_empty", 0),
    ("keys_cloned", 1),
    ("clone", 1),
    ("equals", 0),
    ("for_each", 106),
];

const ORDERED_READS: [(&str, u64); 3] = [
    ("first_key_value_cloned", 106),
    ("last_key_value_cloned", 106),
    ("for_each_in_range", 106),
];

// The insertions of 7 at 1, which must leave the 6.
const INSERTIONS: [(&str, u64); 7] = [
    ("insert", 6),
    ("insert_new", 6),
    ("insert_with", 6),
    ("insert_with_key", 6),
    ("get_copy_or_insert", 6),
    ("get_copy_or_insert_with", 6),
    ("get_copy_or_insert_with_key", 6),
];

// Makes an insertion, and returns the value that stayed, or 0 if the key was new.
fn insertion<T: Table<u64, Arc<u64>>>(
    rt: &impl Wait,
    map: &Locked<u64, u64, T>,
    call: &str,
) -> Result<u64, AllocError> {
    Ok(match call {
        "insert" => *map.insert(rt, 1, 7)?,
        "insert_new" => match map.insert_new(rt, 1, 7)? {
            (kept, false) => *kept,
            (_, true) => 0,
        },
        "insert_with" => *map.insert_with(rt, 1, || 7)?,
        "insert_with_key" => *map.insert_with_key(rt, 1, |_| 7)?,
        "get_copy_or_insert" => map.get_copy_or_insert(rt, 1, 7)?,
        "get_copy_or_insert_with" => map.get_copy_or_insert_with(rt, 1, || 7)?,
        _ => map.get_copy_or_insert_with_key(rt, 1, |_| 7)?,
    })
}

// A map with its calls by their names.
trait Named {
    // Makes the call with this name, and returns what it shows.
    fn made(&self, rt: &impl Wait, alloc: Global, call: &str) -> Result<u64, AllocError>;
}

// Writes the calls that both maps have, and these further ones.
macro_rules! named {
    ($type:ty; $map:ident, $rt:ident; $($name:literal => $shown:expr,)*) => {
        impl Named for $type {
            fn made(&self, $rt: &impl Wait, alloc: Global, call: &str) -> Result<u64, AllocError> {
                let ($map, none, mut seen) = (self, <$type>::new(alloc), 0);
                Ok(match call {
                    "get" => $map.get($rt, &1)?.map_or(0, |owner| *owner),
                    "get_copy" => $map.get_copy($rt, &1).unwrap_or(0),
                    "map_get" => $map.map_get($rt, &1, |value| *value).unwrap_or(0),
                    "len" => $map.len($rt) as u64,
                    "is_empty" => u64::from($map.is_empty($rt)),
                    "keys_cloned" => $map.keys_cloned($rt)?.iter().sum(),
                    "clone" => $map.clone($rt)?.len($rt) as u64,
                    "equals" => u64::from($map.equals($rt, &none)? || none.equals($rt, $map)?),
                    "for_each" => {
                        $map.for_each($rt, |key, value| seen += 100 * *key + *value);
                        seen
                    }
                    $($name => $shown,)*
                    _ => insertion($rt, $map, call)?,
                })
            }
        }
    };
}

named! { FrozenMap<u64, u64>; map, rt; }

named! { FrozenBTreeMap<u64, u64>; map, rt;
    "first_key_value_cloned" => shown(map.first_key_value_cloned(rt)?),
    "last_key_value_cloned" => shown(map.last_key_value_cloned(rt)?),
    "for_each_in_range" => {
        let mut seen = 0;
        map.for_each_in_range(rt, 0..2, |key, value| seen += 100 * *key + *value);
        seen
    },
}

fn shown(entry: Option<(u64, Arc<u64>)>) -> u64 {
    entry.map_or(0, |(key, owner)| 100 * key + *owner)
}

// Whether this kind of map has a call.
fn has(kind: &str, call: &str) -> bool {
    kind == "ordered" || ORDERED_READS.iter().all(|it| it.0 != call)
}

// A read that takes the lock for writing would wait for the walk, which waits for the read.
#[test]
fn a_read_of_a_map_waited_for_a_walk(rt: HostRuntime) -> Result<(), Fail> {
    let (handle, alloc) = (&rt, rt.alloc());
    each_map! { alloc, u64, u64; map, kind => {
        map.insert(&rt, 1, 6)?;
        for (call, wanted) in READS.into_iter().chain(ORDERED_READS).filter(|it| has(kind, it.0)) {
            let talk = Talk::new();
            let walk = || map.for_each(handle, |_, _| talk.shares());
            let (_, got, returned) = talk.beside(handle, walk, || map.made(handle, alloc, call));
            assert_eq!(rt; (got, returned), (Ok(wanted), true), "{kind}, {call}");
        }
    }}
    Ok(())
}

// A call that returns early would show the map before the insertion, or fail.
#[test]
fn a_call_on_a_map_did_not_wait_for_an_insertion(rt: HostRuntime) -> Result<(), Fail> {
    let (handle, alloc) = (&rt, rt.alloc());
    for (call, wanted) in READS.into_iter().chain(ORDERED_READS).chain(INSERTIONS) {
        each_map! { alloc, u64, u64; map, kind => {
            let talk = Talk::new();
            let six = || {
                talk.shuts_out();
                6
            };
            if has(kind, call) {
                let got = talk.beside(
                    handle,
                    || map.insert_with(handle, 1, six).map(|owner| *owner),
                    || map.made(handle, alloc, call),
                );
                assert_eq!(rt; got, (Ok(6), Ok(wanted), true), "{kind}, {call}");
            }
        }}
    }
    Ok(())
}

// ---- lists

// Makes a read of a list of watched numbers.
fn list_read(
    rt: &impl Wait,
    alloc: Global,
    list: &FrozenVec<Watched<'_>>,
    call: &str,
) -> Result<u64, AllocError> {
    let none: FrozenVec<Watched<'_>> = FrozenVec::new(alloc);
    Ok(match call {
        "get" => list.get(rt, 0)?.map_or(0, |owner| owner.number),
        "len" => list.len(rt) as u64,
        "is_empty" => u64::from(list.is_empty(rt)),
        "clone" => list.clone(rt)?.len(rt) as u64,
        "next" => list.iter().next(rt)?.map_or(0, |owner| owner.number),
        _ => u64::from(list.equals(rt, &none)? || none.equals(rt, list)?),
    })
}

// A read that takes the lock for writing would wait for the comparison, which waits for the read.
#[test]
fn a_read_of_a_list_waited_for_a_comparison(rt: HostRuntime) -> Result<(), Fail> {
    let (handle, alloc) = (&rt, rt.alloc());
    for (call, wanted) in [
        ("get", 6),
        ("len", 1),
        ("is_empty", 0),
        ("clone", 1),
        ("next", 6),
        ("equals", 0),
    ] {
        let talk = Talk::new();
        let list: FrozenVec<Watched<'_>> = FrozenVec::new(alloc);
        list.push(
            &rt,
            Watched {
                number: 6,
                talk: &talk,
            },
        )?;
        let (equal, got, returned) = talk.beside(
            handle,
            || list.equals(handle, &list),
            || list_read(handle, alloc, &list, call),
        );
        let got = (call, equal, got, returned);
        assert_eq!(rt; got, (call, Ok(true), Ok(wanted), true));
    }
    Ok(())
}

type Heap<'b> = &'b Budget<Global>;

// Makes a call on a list whose only item is 6. The result of a push is 10 times the length after
// it, plus what the call shows.
fn list_call(
    rt: &impl Wait,
    list: &FrozenVec<u64, Heap<'_>>,
    call: &str,
) -> Result<u64, AllocError> {
    let shown = match call {
        "get" => return Ok(list.get(rt, 0)?.map_or(0, |owner| *owner)),
        "len" => return Ok(list.len(rt) as u64),
        "is_empty" => return Ok(u64::from(list.is_empty(rt))),
        "clone" => return Ok(list.clone(rt)?.len(rt) as u64),
        "equals" => u64::from(list.equals(rt, list)?),
        "push" => {
            list.push(rt, 7)?;
            0
        }
        "push_get_index" => list.push_get_index(rt, 7)? as u64,
        _ => *list.push_get(rt, 7)?,
    };
    Ok(10 * list.len(rt) as u64 + shown)
}

// Waits until the push halts in its allocation, and returns whether it did.
fn is_halted(heap: Heap<'_>) -> bool {
    for _ in 0..CALLS {
        if heap.is_halted() {
            return true;
        }
        thread::yield_now();
    }
    false
}

// A call that returns early would show the list before the push, or fail.
#[test]
fn a_call_on_a_list_did_not_wait_for_a_push(rt: HostRuntime) -> Result<(), Fail> {
    let handle = &rt;
    for (call, wanted) in [
        ("get", 6),
        ("len", 1),
        ("is_empty", 0),
        ("clone", 1),
        ("equals", 11),
        ("push", 20),
        ("push_get_index", 21),
        ("push_get", 27),
    ] {
        let (budget, talk) = (Budget::new(rt.alloc()), Talk::new());
        let heap = &budget;
        let list: FrozenVec<u64, Heap<'_>> = FrozenVec::new(heap);
        heap.halt_next();
        let ((pushed, halted), got, waited) = talk.beside(
            handle,
            || {
                thread::join(
                    handle,
                    || list.push(handle, 6).is_ok(),
                    || {
                        let halted = is_halted(heap);
                        talk.shuts_out();
                        heap.go_on();
                        halted
                    },
                )
            },
            || list_call(handle, &list, call),
        );
        assert!(rt; pushed && halted, "{call}");
        assert_eq!(rt; (call, got, waited), (call, Ok(wanted), true));
    }
    Ok(())
}
