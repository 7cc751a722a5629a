//! The concurrent vector of numbers, each at itself as its index.
use elsa_lock_free::lock_free::LockFreeFrozenVec;
use std::alloc::{AllocError, Allocator, Global};
use std::process::Abort;
use std::sync::Wait;
use std::test::*;
use std::thread;
use test_alloc::Budget;

/// The greatest number of looks of a thread that waits for another.
pub const TURNS: u64 = 10_000_000;

/// Waits until the look returns `true`, and returns whether it did within the bound.
pub fn comes<F: FnMut() -> bool>(mut look: F) -> bool {
    for _ in 0..TURNS {
        if look() {
            return true;
        }
        thread::yield_now();
    }
    false
}

/// Checks that there are `length` items, each equal to its index, by the vector and by a handle.
pub fn check_indices<R: Abort, A: Allocator + Copy>(
    rt: &R,
    vector: &LockFreeFrozenVec<u64, A>,
    length: usize,
) {
    let mut reader = vector.handle();
    let got = (vector.len(), reader.len(), reader.iter().count());
    assert_eq!(rt; got, (length, length, length));
    for (index, item) in reader.iter().enumerate() {
        let got = (item, vector.get(index));
        assert_eq!(rt; got, (index as u64, Some(index as u64)));
    }
    assert_eq!(rt; vector.get(length), None);
}

/// Pushes the numbers from `first` to `end - 1`, and checks that the indices of the pushes increase
/// and each index has its number.
pub fn push_all<R: Wait + Abort, A: Allocator + Copy>(
    rt: &R,
    vector: &LockFreeFrozenVec<u64, A>,
    first: u64,
    end: u64,
) -> Result<(), AllocError> {
    let mut least = 0;
    for item in first..end {
        let index = vector.push(rt, item)?;
        assert!(rt; index >= least, "the index {index} of {item}");
        assert_eq!(rt; vector.get(index), Some(item));
        least = index + 1;
    }
    Ok(())
}

/// The number of items before the buffer that begins at the index 4^10 - 1, and a few more.
const PAST_A_MILLION: usize = 1_048_580;

/// Reads each 1021st index and the last nine.
#[test]
fn an_item_was_lost_past_the_index_1048575(rt: HostRuntime) -> Result<(), Fail> {
    let vector = LockFreeFrozenVec::<u64>::new(rt.alloc())?;
    assert!(rt; vector.is_empty());
    let mut handle = vector.handle();
    for number in 0..PAST_A_MILLION {
        assert_eq!(rt; handle.push(&rt, number as u64).ok(), Some(number));
    }
    for index in (0..1027)
        .map(|turn| 1021 * turn)
        .chain(1_048_571..PAST_A_MILLION)
    {
        assert_eq!(rt; vector.get(index), Some(index as u64));
    }
    assert_eq!(rt; (vector.len(), vector.is_empty()), (PAST_A_MILLION, false));
    assert_eq!(rt; vector.get(PAST_A_MILLION), None);
    Ok(())
}

/// The clone may have equal items.
#[test]
fn a_vector_of_distinct_items_was_not_equal_to_its_clone(rt: HostRuntime) -> Result<(), Fail> {
    let vector = LockFreeFrozenVec::<u64, _, _>::distinct(rt.alloc())?;
    let got = vector.push_at_as(&rt, &mut vector.pass(), 0, 5);
    assert_eq!(rt; got, Ok(Some(0)));
    let copy = vector.clone()?;
    assert_eq!(rt; (vector.equals(&copy), copy.equals(&vector)), (true, true));
    assert_eq!(rt; copy.push(&rt, 5), Ok(1));
    let got = (vector.equals(&copy), copy.equals(&vector));
    assert_eq!(rt; got, (false, false));
    Ok(())
}

#[test]
fn an_empty_vector_of_units_had_an_item(rt: HostRuntime) -> Result<(), Fail> {
    let units = LockFreeFrozenVec::<()>::new(rt.alloc())?;
    assert_eq!(rt; units.clone()?.get(0), None);
    Ok(())
}

/// A push opens a buffer at the indices 0, 3 and 15, by one request. Making the vector is another.
#[test]
fn a_push_failed_that_opens_no_buffer(rt: HostRuntime) -> Result<(), Fail> {
    let budget = Budget::new(rt.alloc());
    let vector = LockFreeFrozenVec::<u64, _>::new(&budget)?;
    assert_eq!(rt; budget.asked(), 1);
    for index in 0..16 {
        let opens = matches!(index, 0 | 3 | 15);
        budget.refuse_next(1);
        let refused = vector.push(&rt, index as u64).is_err();
        budget.refuse_next(0);
        assert_eq!(rt; (index, refused), (index, opens));
        assert!(rt;
            !opens || vector.push(&rt, index as u64) == Ok(index),
            "{index}"
        );
    }
    check_indices(&rt, &vector, 16);
    drop(vector);
    assert_eq!(rt; budget.given(), budget.granted());
    Ok(())
}

/// Each clone is at least as long as the one before.
#[test]
fn a_clone_during_pushes_was_no_prefix(rt: HostRuntime) -> Result<(), Fail> {
    let (vector, handle) = (LockFreeFrozenVec::<u64>::new(rt.alloc())?, &rt);
    let done = thread::join(
        handle,
        || push_all(handle, &vector, 0, 200),
        || -> Result<(), AllocError> {
            let mut longest = 0;
            for _ in 0..1000 {
                let copy = vector.clone()?;
                assert!(rt; copy.len() >= longest);
                longest = copy.len();
                check_indices(handle, &copy, longest);
            }
            Ok(())
        },
    );
    assert_eq!(rt; done, (Ok(()), Ok(())));
    Ok(())
}

#[test]
fn an_item_was_lost_or_doubled_by_threads_that_push(rt: HostRuntime) -> Result<(), Fail> {
    let handle = &rt;
    for (threads, count) in [(4, 100_000), (16, 5000)] {
        let vector = LockFreeFrozenVec::<u64>::new(rt.alloc())?;
        let done = thread::map_indices(
            handle,
            rt.alloc(),
            threads,
            &|i| push_all(handle, &vector, count * i as u64, count * i as u64 + count),
        )?;
        assert!(rt; done.iter().all(|done| done.is_ok()), "{threads} threads");
        let length = threads * count as usize;
        assert_eq!(rt; vector.len(), length);
        let mut seen = vec![in rt.alloc(); false; length]?;
        for item in vector.handle().news() {
            assert!(rt; !seen[item as usize], "{item} is there twice");
            seen[item as usize] = true;
        }
        assert!(rt; seen.iter().all(|was| *was), "{threads} threads");
    }
    Ok(())
}

#[test]
fn a_reader_missed_a_pushed_item(rt: HostRuntime) -> Result<(), Fail> {
    let (vector, handle) = (LockFreeFrozenVec::<u64>::new(rt.alloc())?, &rt);
    let (pushed, first_wrong) = thread::join(
        handle,
        || push_all(handle, &vector, 0, 1000),
        || (0..1000).find(|index| {
            let mut item = None;
            let is_there = comes(|| {
                item = vector.get(*index);
                item.is_some()
            });
            !is_there || item != Some(*index as u64)
        }),
    );
    assert_eq!(rt; (pushed, first_wrong), (Ok(()), None));
    Ok(())
}
