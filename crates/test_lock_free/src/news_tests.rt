//! Waits for items that were pushed since a handle's last look.
use crate::lock_free_tests::push_all;
use elsa_lock_free::lock_free::LockFreeFrozenVec;
use std::test::*;
use std::thread;

/// The number of items that a thread pushes while another waits for them.
const PUSHES: u64 = 2000;

/// How often a reader waits at most, and how often it reads the length each time.
const WAITS: u64 = 1_000_000;

const TRIES: usize = 100;

#[test]
fn a_reader_that_waits_missed_an_item(rt: HostRuntime) -> Result<(), Fail> {
    let (vector, handle) = (LockFreeFrozenVec::<u64>::new(rt.alloc())?, &rt);
    let (pushed, seen) = thread::join(
        handle,
        || push_all(handle, &vector, 0, PUSHES),
        || {
            let (mut reader, mut next) = (vector.handle(), 0);
            for _ in 0..WAITS {
                if next == PUSHES {
                    break;
                }
                for item in reader.wait_for_news(handle, TRIES) {
                    assert_eq!(rt; item, next);
                    next += 1;
                }
            }
            next
        },
    );
    assert_eq!(rt; (pushed, seen), (Ok(()), PUSHES));
    Ok(())
}

#[test]
fn a_wait_without_news_took_more_tries_or_lost_news(rt: HostRuntime) -> Result<(), Fail> {
    let vector = LockFreeFrozenVec::<u64>::new(rt.alloc())?;
    let mut reader = vector.handle();
    assert_eq!(rt; reader.wait_for_news(&rt, TRIES).next(), None);
    push_all(&rt, &vector, 0, 3)?;
    let got = (reader.wait_for_news(&rt, 0).next(), reader.seen_len());
    assert_eq!(rt; got, (None, 0));
    assert_eq!(rt; reader.wait_for_news(&rt, 1).last(), Some(2));
    assert_eq!(rt; reader.wait_for_news(&rt, 1).next(), None);
    Ok(())
}
