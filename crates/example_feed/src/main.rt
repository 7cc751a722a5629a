//! An event log: a concurrent vector with a reader that waits for new readings.
//!
//! One thread pushes readings. Another thread follows by `wait_for_news`, which reads the length
//! until there is a reading that it has not observed, and yields its processor in between. Both
//! calls may block, so both take the permission to block. The observed prefix of a
//! [`Handle`](elsa::sync::Handle) is a prefix of the one list that all threads share, and it only
//! grows, for every schedule. The output is the same for every schedule: the follower reads the
//! readings that it missed after the other thread has ended.
#![tactic(auto)]

mod follower;

use crate::follower::Follower;
use elsa::sync::LockFreeFrozenVec;
use std::alloc::AllocError;
use std::sync::Wait;
use std::{io, thread};

/// The number of readings.
const READINGS: usize = 1000;

/// The number of times that the follower waits while readings may still be pushed.
const WAITS: u64 = 20_000;

/// The number of reads of the length for each time that it waits.
const TRIES: usize = 1000;

/// Returns the reading at this time. The readings repeat 0 to 6.
fn reading(time: usize) -> u64 {
    (time % 7) as u64
}

/// Pushes all readings, in order.
///
/// # Errors
/// Fails if an allocation fails.
fn push_all<R: Wait>(rt: &R, feed: &LockFreeFrozenVec<u64>) -> Result<(), AllocError> {
    let mut feed = feed.handle();
    for time in 0..READINGS {
        feed.push(rt, reading(time))?;
    }
    Ok(())
}

/// Reads until all readings were observed, or it has waited `WAITS` times: a push may have failed.
fn follow<R: Wait>(rt: &R, follower: &mut Follower<'_>) {
    for _ in 0..WAITS {
        follower.read_on(rt, TRIES);
        if follower.count == READINGS {
            break;
        }
    }
}

fn main(rt: HostRuntime) -> io::Result<()> {
    let feed = LockFreeFrozenVec::new(rt.alloc())?;
    let shared = &feed;
    let mut follower = Follower::new(shared);
    let (pushed, mut follower) = thread::join(
        &rt,
        || push_all(&rt, shared),
        || {
            follow(&rt, &mut follower);
            follower
        },
    );
    pushed?;
    follower.read_on(&rt, 1);
    println!(rt; "{} readings, {} in all", follower.count, follower.sum)?;
    println!(rt;
        "the last one is {:?}",
        feed.get(feed.len().saturating_sub(1))
    )
}
