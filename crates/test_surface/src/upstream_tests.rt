//! Cases of upstream's own tests and examples, written anew: threads that read what other running
//! threads have just pushed or inserted.
//!
//! In each test of a vector, a thread waits for another's progress. If the threads ran one after
//! the other, the test would fail.
use elsa::sync::{FrozenMap, LockFreeFrozenVec};
use std::alloc::{AllocError, Global};
use std::sync::atomic::{AtomicU64, Ordering};
use std::sync::{Mutex, Wait};
use std::test::Fail;
use std::thread;

/// The greatest number of looks of a thread that waits for another.
const LOOKS: u64 = 10_000_000;

/// The number of items that each of two threads pushes.
const PUSHES: u64 = 1000;

/// The indices of pushed numbers, each with its number.
type Told = Mutex<Vec<(usize, u64)>>;

/// Waits until the reader has read an item, and returns whether it did.
fn is_met(reads: &AtomicU64) -> bool {
    for _ in 0..LOOKS {
        if reads.load(Ordering::SeqCst) > 0 {
            return true;
        }
        thread::yield_now();
    }
    false
}

/// Pushes `PUSHES` numbers from `first` on, and adds the index of each to the list under the lock.
/// After half of them it waits until the reader has read an item. Returns the number of pushes.
fn push_and_tell(
    rt: &impl Wait,
    vector: &LockFreeFrozenVec<u64>,
    told: &Told,
    reads: &AtomicU64,
    first: u64,
) -> Result<u64, AllocError> {
    for number in 0..PUSHES {
        if number == PUSHES / 2 && !is_met(reads) {
            return Ok(number);
        }
        let index = vector.push(rt, first + number)?;
        told.lock(rt)
            .push((index, first + number))
            .map_err(AllocError::from)?;
    }
    Ok(PUSHES)
}

/// Reads each number at the index in the list, until it has read all numbers of the two threads.
/// Returns the number of right reads.
fn read_what_is_told(
    rt: &impl Wait,
    vector: &LockFreeFrozenVec<u64>,
    told: &Told,
    reads: &AtomicU64,
) -> u64 {
    let mut right = 0;
    for _ in 0..LOOKS {
        if reads.load(Ordering::SeqCst) == 2 * PUSHES {
            break;
        }
        match told.lock(rt).pop() {
            Some((index, number)) => {
                right += (vector.get(index) == Some(number)) as u64;
                reads.fetch_add(1, Ordering::SeqCst);
            }
            None => thread::yield_now(),
        }
    }
    right
}

/// Reads the items in the order of their indices, each again until it is there. Returns the sum of
/// all numbers, or `None` if an item was missing after `LOOKS` looks.
fn read_in_order(vector: &LockFreeFrozenVec<u64>, reads: &AtomicU64) -> Option<u64> {
    let mut sum = 0;
    for _ in 0..LOOKS {
        let index = reads.load(Ordering::SeqCst);
        if index == 2 * PUSHES {
            return Some(sum);
        }
        match vector.get(index as usize) {
            Some(number) => {
                sum += number;
                reads.fetch_add(1, Ordering::SeqCst);
            }
            None => thread::yield_now(),
        }
    }
    None
}

#[test]
fn a_reader_missed_an_item_of_two_pushers(rt: HostRuntime) -> Result<(), Fail> {
    for is_told in [true, false] {
        let vector = LockFreeFrozenVec::<u64>::new(rt.alloc())?;
        let (told, reads): (Told, _) = (Mutex::new(Vec::new(rt.alloc())), AtomicU64::new(0));
        let (vec, list, count, handle) = (&vector, &told, &reads, &rt);
        let (pushed, read) = thread::join(
            &rt,
            || thread::join(
                handle,
                || push_and_tell(handle, vec, list, count, 0),
                || push_and_tell(handle, vec, list, count, PUSHES),
            ),
            || match is_told {
                true => Some(read_what_is_told(handle, vec, list, count)),
                false => read_in_order(vec, count),
            },
        );
        assert_eq!(rt; pushed, (Ok(PUSHES), Ok(PUSHES)));
        assert_eq!(rt; read, Some(if is_told { 2000 } else { 1999 * 2000 / 2 }));
    }
    Ok(())
}

/// The numbers of names, and the next number.
#[derive(Drop)]
struct Numbers {
    numbers: FrozenMap<String, u64>,
    next: AtomicU64,
}

/// Returns the sum of the numbers of four names, and of their squares. They are the same for any
/// order of the threads. A new name gets the next number.
fn sums(rt: &impl Wait, alloc: Global, names: &Numbers) -> Result<(u64, u64), AllocError> {
    let (mut sum, mut squares) = (0, 0);
    for name in ["lonely", "best friend", "lonely", "third"] {
        let name = String::from_str(alloc, name)?;
        let next = || names.next.fetch_add(1, Ordering::SeqCst);
        let number = names.numbers.get_copy_or_insert_with(rt, name, next)?;
        sum += number;
        squares += number * number;
    }
    Ok((sum, squares))
}

#[test]
fn two_threads_gave_a_name_two_numbers(rt: HostRuntime) -> Result<(), Fail> {
    let alloc = rt.alloc();
    let names = Numbers {
        numbers: FrozenMap::new(alloc),
        next: AtomicU64::new(0),
    };
    let (one, two) = thread::join(
        &rt,
        || sums(&rt, alloc, &names),
        || sums(&rt, alloc, &names),
    );
    assert_eq!(rt; one?, two?);
    let numbers = (names.numbers.len(&rt), names.next.load(Ordering::SeqCst));
    assert_eq!(rt; numbers, (3, 3));
    Ok(())
}
