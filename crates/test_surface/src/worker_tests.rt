//! Workers that push into one vector, and their gates: the length, the numbers of each worker in
//! order, and the fault of a worker that is stopped, is not started, or gets no memory.
use elsa::sync::{Handle, LockFreeFrozenVec, Pass};
use elsa_program::shared::{
    Gate, SharedFault, first_fault, run_shared, run_shared_into, run_shared_on_stacks,
};
use std::alloc::{AllocError, Allocator, Global};
use std::sync::Wait;
use std::sync::atomic::{AtomicU64, Ordering};
use std::test::*;
use std::thread;
use std::thread::Threads;
use test_alloc::Budget;

/// The greatest number of looks of a waiting worker for the other's progress.
const TURNS: u64 = 10_000_000;

/// A gate that counts its calls, and stops the worker `worker` at that worker's call with the
/// number `at`, counted from 1.
#[derive(Drop)]
struct Stops {
    worker: usize,
    at: u64,
    calls: AtomicU64,
    of_worker: AtomicU64,
}

impl Stops {
    fn new(worker: usize, at: u64) -> Stops {
        let (calls, of_worker) = (AtomicU64::new(0), AtomicU64::new(0));
        Stops {
            worker,
            at,
            calls,
            of_worker,
        }
    }

    fn calls(&self) -> u64 {
        self.calls.load(Ordering::SeqCst)
    }
}

impl Gate for Stops {
    fn after(&self, worker: usize, _index: usize) -> bool {
        self.calls.fetch_add(1, Ordering::SeqCst);
        worker != self.worker || self.of_worker.fetch_add(1, Ordering::SeqCst) + 1 != self.at
    }
}

/// A gate at which each of two workers waits after each push until the other has made the same
/// number of pushes. It stops a worker for which that doesn't happen within `TURNS` looks.
#[derive(Drop)]
struct Alternates {
    pushes: [AtomicU64; 2],
}

impl Gate for Alternates {
    fn after(&self, worker: usize, _index: usize) -> bool {
        let made = self.pushes[worker].fetch_add(1, Ordering::SeqCst) + 1;
        for _ in 0..TURNS {
            if self.pushes[1 - worker].load(Ordering::SeqCst) >= made {
                return true;
            }
            thread::yield_now();
        }
        false
    }
}

/// A gate that stops a worker whose indices don't increase, and adds all indices up.
#[derive(Drop)]
struct Rising {
    next: [AtomicU64; 4],
    sum: AtomicU64,
}

impl Gate for Rising {
    fn after(&self, worker: usize, index: usize) -> bool {
        self.sum.fetch_add(index as u64, Ordering::SeqCst);
        let next = index as u64 + 1;
        self.next[worker].swap(next, Ordering::SeqCst) < next
    }
}

#[test]
fn the_workers_left_another_length(rt: HostRuntime) -> Result<(), Fail> {
    for (workers, count) in [(2, 1000), (1, 0), (16, 0), (16, 20), (1, 1), (3, 5)] {
        let gate = Stops::new(0, 0);
        let length = run_shared(&rt, rt.alloc(), workers, count, &gate);
        let wanted = (Ok(workers * count), (workers * count) as u64);
        assert_eq!(rt; (length, gate.calls()), wanted);
    }
    Ok(())
}

/// Checks that each index is returned once, and those of one worker increase: the indices of 4000
/// pushes are 0 to 3999.
#[test]
fn the_indices_of_a_worker_did_not_increase_or_one_was_missing(
    rt: HostRuntime,
) -> Result<(), Fail> {
    let next = [0; 4].map(|first| AtomicU64::new(first));
    let gate = Rising {
        next,
        sum: AtomicU64::new(0),
    };
    assert_eq!(rt; run_shared(&rt, rt.alloc(), 4, 1000, &gate), Ok(4000));
    assert_eq!(rt; gate.sum.load(Ordering::SeqCst), 3999 * 4000 / 2);
    Ok(())
}

/// Checks that the other workers continue if one is stopped.
#[test]
fn a_gate_stopped_another_worker_or_none(rt: HostRuntime) -> Result<(), Fail> {
    for (worker, at) in [(0, 1), (1, 3), (2, 50)] {
        let gate = Stops::new(worker, at);
        let outcome = run_shared(&rt, rt.alloc(), 3, 50, &gate);
        assert_eq!(rt; (outcome, gate.calls()), (Err(SharedFault::Gate), 100 + at));
    }
    Ok(())
}

/// Checks that a thread with a stack as large as the address space is not started, and the worker
/// before it pushes all its numbers. The fault of a gate, if there is one, precedes that of the
/// thread.
#[test]
fn a_thread_that_could_not_be_started_was_not_reported(rt: HostRuntime) -> Result<(), Fail> {
    let none = usize::MAX;
    for (stacks, at, calls, fault) in [
        ([none, 0, 0], 0, 0, SharedFault::Thread),
        ([0, none, 0], 0, 20, SharedFault::Thread),
        ([0, 0, none], 7, 27, SharedFault::Gate),
    ] {
        let gate = Stops::new(0, at);
        let outcome = run_shared_on_stacks(&rt, rt.alloc(), 3, 20, &gate, &stacks);
        assert_eq!(rt; (outcome, gate.calls()), (Err(fault), calls), "{stacks:?}");
    }
    Ok(())
}

/// Returns the numbers from `first` to `last` in the observed prefix of a view, in their order.
fn seen(
    alloc: Global,
    vector: &LockFreeFrozenVec<u64>,
    pass: &Pass<u64>,
    first: u64,
    last: u64,
) -> Result<Vec<u64>, AllocError> {
    Handle::of(vector, pass.again())
        .iter()
        .filter(|n| first <= *n && *n <= last)
        .collect(alloc)
}

/// Checks three workers of four numbers each, in a vector that had the number 100 before: each
/// worker's numbers are pushed in order, a worker that its gate stops has pushed the first of them,
/// and after a thread that can't be started none is.
#[test]
fn a_worker_had_another_fault_or_other_numbers(rt: HostRuntime) -> Result<(), Fail> {
    let alloc = rt.alloc();
    for (gate, stacks, wanted) in [
        (
            Stops::new(1, 2),
            [0, 0, 0],
            "[None, Some(Gate), None] [100] [0, 1, 2, 3] [4, 5] [8, 9, 10, 11]",
        ),
        (
            Stops::new(0, 0),
            [0, usize::MAX, 0],
            "[None, Some(Thread), Some(Thread)] [100] [0, 1, 2, 3] [] []",
        ),
    ] {
        let vector = LockFreeFrozenVec::new(alloc)?;
        let mut pass = vector.pass();
        vector.push_as(&rt, &mut pass, 100)?;
        let faults = run_shared_into(&rt, alloc, &vector, &mut pass, 3, 4, &gate, &stacks)?;
        let before = seen(alloc, &vector, &pass, 12, u64::MAX)?;
        let [one, two, three] = [0, 4, 8].map(|first| seen(
            alloc,
            &vector,
            &pass,
            first,
            first + 3,
        ));
        let shown = format!(in alloc; "{faults:?} {before:?} {:?} {:?} {:?}", one?, two?, three?)?;
        assert_eq!(rt; shown.as_str(), wanted);
    }
    Ok(())
}

/// Checks that the n-th two numbers are the n-th numbers of each of two workers, three of each, if
/// each waits after a push until the other has made the same number of pushes. If they ran one
/// after the other, the gate would stop the first.
#[test]
fn two_workers_did_not_run_side_by_side(rt: HostRuntime) -> Result<(), Fail> {
    let alloc = rt.alloc();
    let vector = LockFreeFrozenVec::new(alloc)?;
    let mut pass = vector.pass();
    let pushes = [0, 0].map(|count| AtomicU64::new(count));
    let gate = Alternates { pushes };
    let faults = run_shared_into(&rt, alloc, &vector, &mut pass, 2, 3, &gate, &[])?;
    assert_eq!(rt; faults.as_slice(), [None, None].as_slice());
    let mut numbers = seen(alloc, &vector, &pass, 0, u64::MAX)?;
    for two in [0..2, 2..4, 4..6] {
        numbers[two].sort_unstable();
    }
    assert_eq!(rt; numbers.as_slice(), [0, 3, 1, 4, 2, 5].as_slice());
    Ok(())
}

/// Runs two workers of twenty numbers into a vector. Returns the first fault, or an error after
/// which nothing was pushed.
fn fault_of<R: Threads + Wait + Sync, A: Allocator + Copy + Send + Sync>(
    rt: &R,
    alloc: A,
) -> Result<Option<SharedFault>, AllocError> {
    let vector = LockFreeFrozenVec::new(alloc)?;
    let mut pass = vector.pass();
    let gate = Stops::new(0, 0);
    match run_shared_into(rt, alloc, &vector, &mut pass, 2, 20, &gate, &[]) {
        Ok(faults) => Ok(first_fault(&faults)),
        Err(_) if gate.calls() > 0 || pass.seen_len() > 0 => Ok(None),
        Err(error) => Err(error),
    }
}

/// Denies the request with the number `n` from now on, alone or with all later ones.
fn deny(budget: &Budget<Global>, n: u64, is_alone: bool) {
    let from = budget.asked() + n;
    budget.refuse(from, if is_alone { from + 1 } else { u64::MAX });
}

/// Checks that an allocation failure is reported and all memory is deallocated: each request denied
/// in turn, alone and with all later ones. A run that fails as a whole fails before any push.
#[test]
fn an_allocation_failure_was_not_reported_or_leaked(rt: HostRuntime) -> Result<(), Fail> {
    let budget = Budget::new(rt.alloc());
    let gate = Stops::new(0, 0);
    assert_eq!(rt; run_shared(&rt, &budget, 2, 20, &gate), Ok(40));
    let requests = budget.asked();
    assert_eq!(rt; fault_of(&rt, &budget), Ok(None));
    let of_both = budget.asked();
    assert!(rt; requests > 3 && of_both > requests + 4);
    for is_alone in [true, false] {
        for n in 0..requests {
            deny(&budget, n, is_alone);
            let outcome = run_shared(&rt, &budget, 2, 20, &gate);
            assert_eq!(rt; outcome, Err(SharedFault::Memory), "at request {n}");
        }
        for n in 0..of_both - requests {
            deny(&budget, n, is_alone);
            let outcome = fault_of(&rt, &budget);
            let is_reported = matches!(outcome, Ok(Some(SharedFault::Memory)) | Err(AllocError));
            assert!(rt; is_reported, "{outcome:?} at request {n}");
        }
    }
    assert_eq!(rt; budget.given(), budget.granted());
    Ok(())
}
