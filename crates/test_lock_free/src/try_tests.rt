//! Pushes that don't wait: while another handle has the vector locked, and by two threads at once.
use crate::lock_free_tests::{TURNS, comes};
use elsa_lock_free::lock_free::{Handle, LockFreeFrozenVec};
use elsa_lock_free::may_lock::{AttemptFault, LockPermit};
use std::sync::atomic::{AtomicU64, Ordering};
use std::test::*;
use std::thread;

/// The number of items of each of two threads.
const ITEMS: u64 = 3_000;

/// What a push returned: the index, or the item that it has not pushed.
#[derive(Clone, Copy, Debug, PartialEq)]
enum Pushed {
    At(usize),
    Busy(u64),
    Failed(u64),
}

fn tried(handle: &mut Handle<'_, u64>, may: LockPermit, item: u64) -> Pushed {
    match handle.try_push(may, item) {
        Ok(index) => Pushed::At(index),
        Err(AttemptFault::Busy(item)) => Pushed::Busy(item),
        Err(AttemptFault::Failed(failed)) => Pushed::Failed(failed.value),
    }
}

#[test]
fn a_push_at_a_locked_vector_did_not_return_its_item(rt: HostRuntime) -> Result<(), Fail> {
    let may = LockPermit::trying(rt.alloc());
    for count in [0, 1, 3] {
        let vector = LockFreeFrozenVec::<u64>::new(rt.alloc())?;
        let (mut holder, mut other) = (vector.handle(), vector.handle());
        for number in 0..count {
            assert_eq!(rt; vector.push(&rt, number as u64), Ok(number));
        }
        assert_eq!(rt; holder.len(), count);
        let Some(hold) = holder.hold(&rt) else {
            return Err(Fail::from("the vector could not be locked"));
        };
        let result = tried(&mut other, may, 7);
        hold.release(&mut holder);
        assert_eq!(rt; (result, other.seen_len()), (Pushed::Busy(7), count));
        assert_eq!(rt; vector.len(), count);
        assert_eq!(rt; tried(&mut vector.handle(), may, 8), Pushed::At(count));
    }
    Ok(())
}

/// Waits until both threads are counted, and pushes `ITEMS` numbers from `first` on, each again
/// while the other thread has the lock. Returns the first result that is no index.
fn push_all(
    vector: &LockFreeFrozenVec<u64>,
    may: LockPermit,
    there: &AtomicU64,
    first: u64,
) -> Option<Pushed> {
    let _ = there.fetch_add(1, Ordering::SeqCst);
    let _ = comes(|| there.load(Ordering::SeqCst) >= 2);
    let mut handle = vector.handle();
    for item in first..first + ITEMS {
        let mut done = Pushed::Busy(item);
        for _ in 0..TURNS {
            done = tried(&mut handle, may, item);
            if done != Pushed::Busy(item) {
                break;
            }
            thread::yield_now();
        }
        if !matches!(done, Pushed::At(_)) {
            return Some(done);
        }
    }
    None
}

#[test]
fn two_threads_that_do_not_wait_lost_an_item(rt: HostRuntime) -> Result<(), Fail> {
    let (vector, there) = (
        LockFreeFrozenVec::<u64>::new(rt.alloc())?,
        AtomicU64::new(0),
    );
    let may = LockPermit::trying(rt.alloc());
    let failed = thread::join(
        &rt,
        || push_all(&vector, may, &there, 0),
        || push_all(&vector, may, &there, ITEMS),
    );
    assert_eq!(rt; failed, (None, None));
    let mut seen = [false; 6_000];
    for item in vector.handle().news() {
        assert!(rt; !seen[item as usize], "{item} is there twice");
        seen[item as usize] = true;
    }
    assert_eq!(rt; (vector.len(), seen.iter().all(|was| *was)), (6_000, true));
    Ok(())
}
