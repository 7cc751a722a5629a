//! A memo table that worker threads share, with a recorder.
//!
//! Four workers compute Fibonacci numbers. The computed numbers are in a
//! [`LockFreeFrozenMap`](elsa::sync::LockFreeFrozenMap) that all workers use: the first value of a
//! key stays, and a lookup takes no lock. No contract can state which value another thread inserts.
//! But the table has a rule ([`IsFibonacci`](worker::IsFibonacci)): each insertion is proved to
//! obey it, so each number that a look-up returns is proved to be the right one.
//!
//! Each worker also records its results in a [`Recorder`](elsa::sync::history::Recorder). When the
//! workers are done, the recorder is closed with their `RecordPass`es. The close succeeds exactly
//! if the receipts in them are the recorder's history, which is proved to be legal: each reply
//! follows from the calls before it. So the audit at the end reads the history and trusts no
//! worker. The output is the same for every schedule.
#![tactic(auto)]

mod audit;
mod worker;

use crate::audit::{closed, told_by};
use crate::worker::{Memo, Tellings, Told, work};
use elsa::sync::history;
use elsa::sync::map::MapState;
use std::hash::BuildHasherDefault;
use std::{io, thread};

const WORKERS: usize = 4;

fn main(rt: HostRuntime) -> io::Result<()> {
    let alloc = rt.alloc();
    let memo = Memo::with_rule(alloc, BuildHasherDefault::new())?;
    let recorder: Tellings = history::Recorder::new(alloc, MapState::new(alloc));
    let (shared, told) = (&memo, &recorder);
    let results = thread::map_indices(
        &rt,
        alloc,
        WORKERS,
        &|worker| work(&rt, shared, told, worker),
    )?;
    let mut passes = Vec::new(alloc);
    for result in results {
        passes.push(result?)?;
    }
    println!(rt; "{} numbers in the table", memo.handle().len())?;
    let Some(history) = closed(recorder, passes) else {
        return rt.println("the receipts aren't the history");
    };
    tell(&rt, &history)
}

/// Prints the number of calls of the history, the number of calls of each worker, and some of the
/// numbers.
fn tell(rt: &impl Print, history: &Told) -> io::Result<()> {
    println!(rt; "{} calls, all of them legal", history.entries().len())?;
    for worker in 0..WORKERS {
        println!(rt;
            "worker {worker} told of {}",
            told_by(history, worker as u64)
        )?;
    }
    for index in [10, 20, 50, 90] {
        if let Some(value) = history.core().get_copy(&index) {
            println!(rt; "number {index} is {value}")?;
        }
    }
    Ok(())
}
