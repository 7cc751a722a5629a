//! Insertions of which one request for memory fails, each in turn: exactly one of them fails and
//! returns its value, and the others are in the map.
use crate::ordered_tests::key_of;
use elsa_cell::{CellFault, Frozen, FrozenBTreeMap, FrozenMap, FrozenSet, Indices, TryFault};
use std::alloc::{AllocError, Allocator, Global};
use std::hash::{BuildHasherDefault, FoldHasher};
use std::test::*;
use test_alloc::Budget;

type State = BuildHasherDefault<FoldHasher>;

/// A collection, and the call or the order of its insertions.
#[derive(Clone, Copy, Debug)]
enum Case {
    /// A hashed map, by one of three calls.
    Hashed(u64),
    /// An ordered map: the order of its keys, which is rising, falling or mixed, and their number.
    Ordered(u64, u64),
    Set,
}

const CASES: [Case; 10] = [
    Case::Hashed(0),
    Case::Hashed(1),
    Case::Hashed(2),
    Case::Ordered(0, 40),
    Case::Ordered(1, 40),
    Case::Ordered(2, 40),
    Case::Ordered(0, 700),
    Case::Ordered(1, 700),
    Case::Ordered(2, 700),
    Case::Set,
];

/// The number of insertions that failed for lack of memory and returned their value, the number of
/// those that had another result than their value, and the number of entries afterwards.
type Outcome = (usize, usize, usize);

/// Counts the result of an insertion of a value.
fn add(outcome: &mut Outcome, done: Result<u64, Option<u64>>, value: u64) {
    if done == Err(Some(value)) {
        outcome.0 += 1;
    } else if done != Ok(value) {
        outcome.1 += 1;
    }
}

/// Inserts `count` keys into a map by one of three calls.
fn of_map<T: Indices<u64> + Drop, A: Allocator + Copy>(
    map: &Frozen<u64, u64, T, A>,
    kind: u64,
    order: u64,
    count: u64,
) -> Outcome {
    let mut outcome = (0, 0, 0);
    for n in 0..count {
        let key = key_of(order, n, count);
        let value = key + 100;
        let done = match kind {
            0 => match map.insert(key, value) {
                Ok(kept) => Ok(*kept),
                Err(CellFault::Memory(value)) => Err(Some(value)),
                Err(_) => Err(None),
            },
            1 => match map.insert_with(key, || value) {
                Ok(done) => Ok(*done.value),
                Err(CellFault::Memory(made)) => Err(made),
                Err(_) => Err(None),
            },
            _ => match map.try_insert_with(key, || -> Result<u64, u8> { Ok(value) }) {
                Ok(done) => Ok(*done.value),
                Err(TryFault::Map(CellFault::Memory(made))) => Err(made),
                Err(_) => Err(None),
            },
        };
        add(&mut outcome, done, value);
    }
    outcome.2 = map.iter().count();
    outcome
}

/// Makes a collection over a budget, and all its insertions.
fn of_case(heap: &Budget<Global>, case: Case) -> Result<Outcome, AllocError> {
    match case {
        Case::Hashed(kind) => {
            let map: FrozenMap<u64, u64, State, &Budget<Global>> = FrozenMap::new(heap)?;
            Ok(of_map(&map, kind, 0, 10))
        }
        Case::Ordered(order, count) => {
            let map: FrozenBTreeMap<u64, u64, &Budget<Global>> = FrozenBTreeMap::new(heap)?;
            Ok(of_map(&map, 0, order, count))
        }
        Case::Set => {
            let set: FrozenSet<u64, State, &Budget<Global>> = FrozenSet::new(heap)?;
            let mut outcome = (0, 0, 0);
            for item in 0..40 {
                let done = match set.insert(item) {
                    Ok(kept) => Ok(*kept),
                    Err(CellFault::Memory(back)) => Err(Some(back)),
                    Err(_) => Err(None),
                };
                add(&mut outcome, done, item);
            }
            outcome.2 = set.iter().count();
            Ok(outcome)
        }
    }
}

#[test]
fn a_failed_insertion_lost_its_value(rt: HostRuntime) -> Result<(), Fail> {
    for case in CASES {
        let open = Budget::new(rt.alloc());
        let all = of_case(&open, case)?;
        assert_eq!(rt; (all.0, all.1), (0, 0), "{case:?}");
        assert!(rt; open.asked() > 3, "{case:?}");
        // The first two requests make the collection.
        for request in 2..open.asked() {
            let heap = Budget::new(rt.alloc());
            heap.refuse(request, request + 1);
            let found = (of_case(&heap, case)?, heap.given());
            let wanted = ((1, 0, all.2 - 1), heap.granted());
            assert_eq!(rt; found, wanted, "{case:?}, request {request}");
        }
    }
    Ok(())
}
