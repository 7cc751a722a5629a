//! Random scripts of many threads on each shared collection, with random allocation failures in all
//! collections except the shared interner. `tools/stress` runs it.
//!
//! `test_stress SEED SECONDS PAIRS CALLS` makes runs with the seeds from SEED on, at least one,
//! until SECONDS seconds have passed. In a run, PAIRS pairs of threads make calls on each
//! collection: CALLS calls by each of the first two threads, and by each of the two that continue
//! with their views. The program prints `ok` and the number of runs, or the collection that failed,
//! the seed of the run, and a result that was wrong.
#![tactic(auto)]

mod form;
mod lists;
mod maps;
mod names;
mod owned;
mod recorded;
mod script;

use crate::lists::FreeList;
use crate::maps::FreeMap;
use crate::owned::Owned;
use crate::script::{Script, Wrong, holds};
use elsa::interner::{ShardedInterner, SharedInterner};
use elsa::sync::{
    FrozenBTreeMap, FrozenMap, FrozenVec, LockFreeFrozenMap, LockFreeFrozenVec, LockFreeShardedMap,
    LockPermit, OnceMap, ShardedMap,
};
use std::alloc::Global;
use std::hash::BuildHasherDefault;
use std::sync::Wait;
use std::thread::Threads;
use std::time::Instant;
use std::{env, io};
use test_alloc::Budget;

const USAGE: &str = "usage: test_stress SEED SECONDS PAIRS CALLS";

/// The number of shards: few, so that threads meet in each.
const SHARDS: usize = 3;

/// Runs each of these collections over a budget of its own, unless one before failed.
macro_rules! each {
    ($rt:ident, $alloc:ident, $heap:ident, $script:ident; $($name:literal: $form:expr;)+) => {
        $({
            let budget = Budget::new($alloc);
            let $heap = &budget;
            let run = || -> Result<(), Wrong> { form::runs($rt, $alloc, $heap, $form, $script) };
            run().and_then(|()| freed($heap)).map_err(|wrong| ($name, wrong))?;
        })+
    };
}

/// Checks that all blocks of a budget are deallocated. The shared interner has no budget.
fn freed(heap: &Budget<Global>) -> Result<(), Wrong> {
    let (given, granted) = (heap.given(), heap.granted());
    holds(given == granted, Wrong::Blocks(given, granted))
}

/// Makes one run on each collection, each with a budget of its own, which must get back all its
/// blocks. Fails with the first that is wrong, and its name.
fn run_all<R: Threads + Wait + Sync>(
    rt: &R,
    alloc: Global,
    script: Script,
) -> Result<(), (&'static str, Wrong)> {
    let (waits, tries) = (None, Some(LockPermit::trying(alloc)));
    let state = BuildHasherDefault::new();
    each! { rt, alloc, heap, script;
        "LockFreeFrozenVec": FreeList(LockFreeFrozenVec::new(heap)?, waits);
        "LockFreeFrozenMap": FreeMap(LockFreeFrozenMap::new(heap)?, waits);
        "LockFreeFrozenVec without waiting": FreeList(LockFreeFrozenVec::new(heap)?, tries);
        "LockFreeFrozenMap without waiting": FreeMap(LockFreeFrozenMap::new(heap)?, tries);
        "LockFreeFrozenVec of owners": Owned::new(LockFreeFrozenVec::new(heap)?, alloc, heap)?;
        "LockFreeFrozenMap of owners": Owned::new(LockFreeFrozenMap::new(heap)?, alloc, heap)?;
        "OnceMap": OnceMap::new(heap)?;
        "FrozenVec": FrozenVec::new(heap);
        "FrozenMap": FrozenMap::new(heap);
        "FrozenBTreeMap": FrozenBTreeMap::new(heap);
        "ShardedMap": ShardedMap::with_shards(heap, SHARDS, state)?;
        "LockFreeShardedMap": LockFreeShardedMap::<u64, u64, _, _>::with_shards(heap, SHARDS, state)?;
        "SharedInterner": SharedInterner::new(alloc)?;
        "ShardedInterner": ShardedInterner::with_shards(heap, SHARDS, state)?;
    }
    let heap = Budget::new(alloc);
    recorded::runs(rt, alloc, &heap, script)
        .and_then(|()| freed(&heap))
        .map_err(|wrong| ("Recorder", wrong))
}

fn main(rt: HostRuntime) -> io::Result<()> {
    let words: Vec<String> = env::args(&rt)?.skip(1).collect(rt.alloc())?;
    let mut numbers = [0; 4];
    if words.len() != numbers.len() {
        return rt.println(USAGE);
    }
    for (word, number) in words.iter().zip(numbers.iter_mut()) {
        *number = word.as_str().parse::<u64>().unwrap_or(0);
    }
    let [first, seconds, pairs, calls] = numbers;
    let (pairs, calls) = (pairs.min(64) as usize, calls.min(1_000_000));
    let (start, mut runs) = (Instant::now(&rt)?, 0);
    while runs == 0 || start.elapsed(&rt)?.as_secs() < seconds {
        let seed = first.wrapping_add(runs);
        if let Err((name, wrong)) = run_all(&rt, rt.alloc(), Script { seed, pairs, calls }) {
            return println!(rt; "{name} broke at the seed {seed}: {wrong:?}");
        }
        runs += 1;
    }
    println!(rt; "ok {runs}")
}
