//! A recorder over a map: COUNT calls in all, a tenth of them insertions. `copy` makes the same
//! calls on the locked map without a recorder.
ghost use Rattle.std.specs.Prelude.{◌<◌};

use crate::draws::Draws;
use crate::locked_map::KEYS;
use elsa::sync::history::{MapCommand, MapReply, Recorder};
use elsa::sync::map::MapState;
use std::alloc::Global;
use std::rt::Clock;
use std::sync::Wait;
use std::thread::Threads;
use std::time::Instant;
use std::{io, thread};

/// Returns the value in a reply, or 0 if there is none.
fn shown(reply: MapReply<u64>) -> u64 {
    match reply {
        MapReply::Value(value) => value,
        MapReply::Found(Some(value)) => value,
        _ => 0,
    }
}

fn calls<R: Wait>(
    rt: &R,
    recorder: &Recorder<MapState<u64, u64>>,
    thread: usize,
    count: usize,
) -> u64 {
    let mut pass = recorder.pass(thread as u64);
    let mut draws = Draws::new(thread);
    let mut sum = 0u64;
    for call in 0..count {
        let key = draws.next() % KEYS;
        let command = if call % 10 == 0 {
            MapCommand::Insert(key, key)
        } else {
            MapCommand::Get(key)
        };
        if let Ok(reply) = recorder.call(rt, &mut pass, command) {
            sum = sum.wrapping_add(shown(reply));
        }
    }
    sum
}

/// Returns the nanoseconds that the recorded calls took, and their sum.
///
/// # Errors
/// Fails if the clock or an allocation fails, or if a thread can't be started.
pub fn timed_recorded<R: Wait + Threads + Sync + Clock>(
    rt: &R,
    alloc: Global,
    threads: usize,
    count: usize,
) -> io::Result<(u128, u64)>
    requires { 0 < threads }
{
    let recorder = Recorder::new(alloc, MapState::new(alloc));
    let shared = &recorder;
    let start = Instant::now(rt)?;
    let sums = thread::map_indices(
        rt,
        alloc,
        threads,
        &|i| calls(rt, shared, i, count / threads),
    )?;
    let nanos = start.elapsed(rt)?.as_nanos();
    Ok((
        nanos,
        sums.iter().fold(0u64, |sum, one| sum.wrapping_add(*one)),
    ))
}
