//! What a locked call does in one step. One of nine inserters gets `is_new = true`, a push returns
//! an owner or the index of its own item, and a comparison compares contents and not only lengths.
use crate::marks::Mark;
use elsa_locks::map::{FrozenBTreeMap, FrozenMap, Locked};
use elsa_locks::vec::FrozenVec;
use elsa_tables::Table;
use std::alloc::AllocError;
use std::sync::{Arc, Wait};
use std::test::Fail;
use std::thread;

const KEYS: u64 = 2000;

// Waits until all nine threads have arrived, inserts each key, and returns the number of keys that
// were new.
fn count_new<R: Wait, T: Table<u64, Arc<u64>>>(
    rt: &R,
    map: &Locked<u64, u64, T>,
    arrived: &Mark,
) -> u64 {
    arrived.raise_by_one();
    if !arrived.comes_to(9) {
        return 0;
    }
    let mut new = 0;
    for key in 0..KEYS {
        if matches!(map.insert_new(rt, key, 6), Ok((_, true))) {
            new += 1;
        }
    }
    new
}

// If `is_new` were computed from two lengths that are read under separate locks, it would be true
// for several threads, or for none.
#[test]
fn a_key_was_new_for_two_threads_or_for_none(rt: HostRuntime) -> Result<(), Fail> {
    let handle = &rt;
    each_map! { rt.alloc(), u64, u64; map, kind => {
        let arrived = Mark::new();
        let count = |_: usize| count_new(handle, &map, &arrived);
        let told = thread::map_indices(handle, rt.alloc(), 9, &count)?;
        assert_eq!(rt; told.iter().sum::<u64>(), KEYS, "{kind}");
    }}
    Ok(())
}

// ---- pushers in step

const ROUNDS: u64 = 20_000;

// Returns the item whose owner or whose index a push of an item returns.
fn pushed(rt: &impl Wait, list: &FrozenVec<u64>, item: u64) -> Result<Option<u64>, AllocError> {
    if item % 4 < 2 {
        return Ok(Some(*list.push_get(rt, item)?));
    }
    let index = list.push_get_index(rt, item)?;
    Ok(list.get(rt, index)?.map(|owner| *owner))
}

// Pushes once in each round, after the other thread has pushed in the round before. Returns the
// first item of which the push returned another one, or `None`.
fn first_wrong<R: Wait>(
    rt: &R,
    list: &FrozenVec<u64>,
    mine: &Mark,
    other: &Mark,
    number: u64,
) -> Option<u64> {
    for round in 0..ROUNDS {
        let item = 2 * round + number;
        if !other.comes_to(round) || pushed(rt, list, item) != Ok(Some(item)) {
            return Some(item);
        }
        mine.raise(round + 1);
    }
    None
}

// If a push read the last item or the length under another lock, it would return the other thread's
// in some round.
#[test]
fn a_push_returned_the_owner_or_the_index_of_another_item(rt: HostRuntime) -> Result<(), Fail> {
    let list: FrozenVec<u64> = FrozenVec::new(rt.alloc());
    let marks = [Mark::new(), Mark::new()];
    let handle = &rt;
    let wrong = thread::join(
        handle,
        || first_wrong(handle, &list, &marks[0], &marks[1], 0),
        || first_wrong(handle, &list, &marks[1], &marks[0], 1),
    );
    assert_eq!(rt; wrong, (None, None));
    Ok(())
}

// ---- comparisons

// Compares collections of one length that differ in one item, key or value, and equal ones.
#[test]
fn a_comparison_saw_lengths_alone(rt: HostRuntime) -> Result<(), Fail> {
    let alloc = rt.alloc();
    for count in [1, 2, 9, 70] {
        for (at, key, value, is_equal) in [
            (0, 0, 0, true),
            (0, 0, 1, false),
            (count - 1, count - 1, 1, false),
            (count / 2, 1000, 0, false),
        ] {
            let case = (count, at, key, value);
            let lists: [FrozenVec<u64>; 2] = [FrozenVec::new(alloc), FrozenVec::new(alloc)];
            let hashed: [FrozenMap<u64, u64>; 2] = [FrozenMap::new(alloc), FrozenMap::new(alloc)];
            let ordered: [FrozenBTreeMap<u64, u64>; 2] = [
                FrozenBTreeMap::new(alloc),
                FrozenBTreeMap::new(alloc),
            ];
            for number in 0..count {
                let other = if number == at {
                    (key, value)
                } else {
                    (number, 0)
                };
                for (which, (key, value)) in [(0, (number, 0)), (1, other)] {
                    lists[which].push(&rt, 2 * key + value)?;
                    hashed[which].insert(&rt, key, value)?;
                    ordered[which].insert(&rt, key, value)?;
                }
            }
            for (one, two) in [(0, 1), (1, 0)] {
                let equal = [
                    lists[one].equals(&rt, &lists[two])?,
                    hashed[one].equals(&rt, &hashed[two])?,
                    ordered[one].equals(&rt, &ordered[two])?,
                ];
                assert_eq!(rt; (case, equal), (case, [is_equal; 3]));
            }
        }
    }
    Ok(())
}
