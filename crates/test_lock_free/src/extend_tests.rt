//! Pushes of several items in one call of `extend`: the indices of the items, the unchanged vector
//! after an allocation failure, and what other threads see meanwhile.
use crate::lock_free_tests::{check_indices, comes};
use elsa_lock_free::lock_free::LockFreeFrozenVec;
use std::alloc::{AllocError, Global};
use std::process::Abort;
use std::sync::Wait;
use std::test::*;
use std::thread;
use test_alloc::Budget;

/// The number of items of each call of `extend` by the threads, and of their calls.
const BATCH: usize = 7;

const TIMES: usize = 1000;

/// Makes a list of `count` numbers from `first` on.
fn numbers(alloc: Global, first: usize, count: usize) -> Result<Vec<u64>, AllocError> {
    (first..first + count)
        .map(|number| number as u64)
        .collect(alloc)
}

#[test]
fn an_extension_had_another_index_than_the_length(rt: HostRuntime) -> Result<(), Fail> {
    for length in [0, 1, 2, 3, 4, 14, 15, 16, 63, 64] {
        let first = numbers(rt.alloc(), 0, length)?;
        for count in [0, 1, 2, 3, 11, 12, 13, 60, 61, 300] {
            let (further, all) = (numbers(rt.alloc(), length, count)?, length + count);
            let vector = LockFreeFrozenVec::<u64>::new(rt.alloc())?;
            let mut handle = vector.handle();
            let indices = [handle.extend(&rt, &first), handle.extend(&rt, &further)];
            assert_eq!(rt; indices, [Ok(0), Ok(length)], "{count} behind {length}");
            assert_eq!(rt; handle.seen_len(), all, "{count} behind {length}");
            assert_eq!(rt; handle.push(&rt, all as u64).ok(), Some(all));
            check_indices(&rt, &vector, all + 1);
        }
    }
    Ok(())
}

/// The requests are one for the list of new buffers, and one for each new buffer. Among two hundred
/// numbers, buffers begin at the indices 0, 3, 15, 63 and 255.
#[test]
fn a_refused_extension_left_items(rt: HostRuntime) -> Result<(), Fail> {
    let budget = Budget::new(rt.alloc());
    for (length, requests) in [(0, 5), (1, 4), (3, 4), (14, 3), (15, 3), (16, 2), (63, 3)] {
        let (first, further) = (
            numbers(rt.alloc(), 0, length)?,
            numbers(rt.alloc(), length, 200)?,
        );
        for granted in 0..requests {
            let vector = LockFreeFrozenVec::<u64, _>::new(&budget)?;
            vector.handle().extend(&rt, &first)?;
            budget.refuse(budget.asked() + granted, budget.asked() + granted + 1);
            let refused = vector.handle().extend(&rt, &further);
            assert!(rt; refused.is_err(), "{granted} granted at {length}");
            budget.refuse_next(0);
            check_indices(&rt, &vector, length);
            assert_eq!(rt; vector.handle().extend(&rt, &further), Ok(length));
            check_indices(&rt, &vector, length + 200);
        }
    }
    assert_eq!(rt; budget.given(), budget.granted());
    Ok(())
}

#[test]
fn an_extension_into_an_open_buffer_made_a_request(rt: HostRuntime) -> Result<(), Fail> {
    let budget = Budget::new(rt.alloc());
    for (length, count, requests) in [
        (1, 2, 0),
        (4, 11, 0),
        (16, 47, 0),
        (15, 1, 2),
        (14, 49, 2),
        (14, 50, 3),
    ] {
        let vector = LockFreeFrozenVec::<u64, _>::new(&budget)?;
        vector
            .handle()
            .extend(&rt, &numbers(rt.alloc(), 0, length)?)?;
        let before = budget.asked();
        vector
            .handle()
            .extend(&rt, &numbers(rt.alloc(), length, count)?)?;
        let got = budget.asked() - before;
        assert_eq!(rt; got, requests, "{count} behind {length}");
    }
    Ok(())
}

/// Another thread sees none of the new items while `extend` waits for a buffer, and all of them
/// once it has the buffer.
#[test]
fn another_thread_saw_a_part_of_an_extension(rt: HostRuntime) -> Result<(), Fail> {
    let (first, further) = (numbers(rt.alloc(), 0, 2)?, numbers(rt.alloc(), 2, 98)?);
    let (budget, handle) = (Budget::new(rt.alloc()), &rt);
    let vector = LockFreeFrozenVec::<u64, _>::new(&budget)?;
    assert_eq!(rt; vector.handle().extend(handle, &first), Ok(0));
    budget.halt_next();
    let (index, (halted, seen, still)) = thread::join(
        handle,
        || vector.handle().extend(handle, &further),
        || {
            let halted = comes(|| budget.is_halted());
            let seen = (vector.len(), vector.get(2));
            let still = budget.is_halted();
            budget.go_on();
            let _ = comes(|| vector.len() > 2);
            check_indices(handle, &vector, 100);
            (halted, seen, still)
        },
    );
    assert_eq!(rt; (index, halted, still), (Ok(2), true, true));
    assert_eq!(rt; seen, (2, None));
    Ok(())
}

/// Extends by batches of one number each, and checks that each begins at a multiple of its size.
fn extend_often<R: Wait + Abort>(
    rt: &R,
    vector: &LockFreeFrozenVec<u64>,
    number: u64,
) -> Result<(), AllocError> {
    let mut handle = vector.handle();
    for _ in 0..TIMES {
        assert_eq!(rt; handle.extend(rt, &[number; BATCH])? % BATCH, 0);
    }
    Ok(())
}

#[test]
fn extensions_by_threads_were_mixed(rt: HostRuntime) -> Result<(), Fail> {
    let (vector, handle) = (LockFreeFrozenVec::<u64>::new(rt.alloc())?, &rt);
    let done = thread::map_indices(
        handle,
        rt.alloc(),
        4,
        &|thread| extend_often(handle, &vector, thread as u64),
    )?;
    assert_eq!(rt; done.as_slice(), [Ok(()); 4].as_slice());
    let mut reader = vector.handle();
    assert_eq!(rt; reader.len(), 4 * BATCH * TIMES);
    let (mut batches, mut last) = ([0; 4], 0);
    for (index, item) in reader.iter().enumerate() {
        if index % BATCH == 0 {
            last = item;
            batches[item as usize] += 1;
        }
        assert_eq!(rt; item, last, "at {index}");
    }
    assert_eq!(rt; batches, [TIMES; 4]);
    Ok(())
}
