//! Workers that push numbers into one concurrent vector, each as a writer of its own.
//!
//! What each worker pushed follows from its view and needs no check: its own indices rise, have its
//! numbers, and belong to no other view. So at the end the length shows whether all numbers are in
//! the vector.
ghost use Rattle.std.specs.Prelude.{◌≡◌, ◌≢◌, ◌⊎◌, ◌+◌, ◌*◌, ◌<◌, ◌≤◌, [], ◌∷◌, All, IfErr, IfOk, None, length, map, vec_capacity, vec_len};
ghost use mathlib.Core.List.{IsPrefix};
ghost use Rattle.elsa_lock_free.specs.SharedList.{Continues, IsSamePass, mine, pushed_by};
ghost use Rattle.elsa_program.specs.Workers.{Each, HasPushed, HaveHandedBack, HaveWorked, IsFirstFault, IsPromiseOf, IsWorkOf};

use core::thread::Stack;
use elsa_lock_free::lock_free::{LockFreeFrozenVec, Pass};
use std::alloc::{AllocError, Allocator};
use std::cmp::min;
use std::error::Error;
use std::sync::Wait;
use std::thread::{Promise, PromisedHandle, Threads};
use std::{fmt, thread};

/// The callback that a worker calls after each push, in its own thread, and that can stop the
/// worker.
pub trait Gate {
    /// Returns whether worker `worker`, counted from 0, continues after it pushed at the index
    /// `index`.
    fn after(&self, worker: usize, index: usize) -> bool;
}

/// Why not all numbers are in the vector. If there are several faults, the first in this order is
/// returned.
#[derive(Clone, Copy, Debug, PartialEq, Eq, PartialOrd, Ord)]
pub enum SharedFault {
    /// An allocation failed.
    Memory = 1,
    /// A gate returned `false`.
    Gate = 2,
    /// There is no other fault, and the length at the end isn't the number of all numbers.
    Check = 3,
    /// A thread couldn't be started.
    Thread = 4,
}

impl fmt::Display for SharedFault {
    fn fmt<W: fmt::Write>(&self, f: &mut fmt::Formatter<W>) -> fmt::Result {
        f.pad(match self {
            SharedFault::Memory => "out of memory",
            SharedFault::Gate => "a gate stopped its worker",
            SharedFault::Check => "the vector does not have the length of all numbers",
            SharedFault::Thread => "a thread could not be started",
        })
    }
}

impl Error for SharedFault {}

impl From<AllocError> for SharedFault {
    fn from(_refused: AllocError) -> SharedFault {
        SharedFault::Memory
    }
}

/// The result of a worker: its view, and why it stopped before its last number, if it did.
#[derive(Drop)]
struct Done<A: Allocator> {
    pass: Pass<u64, A>,
    fault: Option<SharedFault>,
}

/// The promise of a thread: its result is the work of worker `worker` with `count` numbers, in a
/// vector that had the observed prefix of `pass` when the workers began.
#[derive(Clone, Copy)]
struct WorkOf<'v, A: Allocator> {
    vector: &'v LockFreeFrozenVec<u64, A>,
    pass: &'v Pass<u64, A>,
    worker: usize,
    count: usize,
}

impl<'v, A: Allocator> Promise<Done<A>> for WorkOf<'v, A> {
    ghost kept_by = { λ of done.
        IsWorkOf of.vector.now of.pass.now.seen of.count of.worker done.pass done.fault };
}

/// Returns the promise of the thread of this worker.
fn promise_of<'v, A: Allocator>(
    vector: &'v LockFreeFrozenVec<u64, A>,
    pass: &'v Pass<u64, A>,
    worker: usize,
    count: usize,
) -> WorkOf<'v, A>
    ensures { IsPromiseOf vector.now pass.now.seen count worker
        result.vector.now result.pass.now.seen result.count result.worker }
{
    WorkOf {
        vector,
        pass,
        worker,
        count,
    }
}

/// Makes a view for a worker. It has the observed prefix of `pass` and has pushed nothing.
fn begin<A: Allocator + Copy>(
    vector: &LockFreeFrozenVec<u64, A>,
    pass: &mut Pass<u64, A>,
) -> Pass<u64, A>
    requires { pass.old.vector ≡ vector.now }
    ensures same { pass.new ≡ pass.old }
    ensures same_vector { result.vector ≡ vector.now }
    ensures seen { result.seen ≡ pass.old.seen }
    ensures nothing_mine { mine result ≡ [] }
{
    let mut theirs = vector.pass();
    pass.meet(&mut theirs);
    theirs
}

/// Pushes the worker's numbers in order. It stops if a push fails, or if the gate returns `false`.
fn work<R: Wait, G: Gate, A: Allocator + Copy>(
    rt: &R,
    vector: &LockFreeFrozenVec<u64, A>,
    gate: &G,
    mut pass: Pass<u64, A>,
    worker: usize,
    count: usize,
) -> Done<A>
    requires same_vector { pass.vector ≡ vector.now }
    requires nothing_mine { mine pass ≡ [] }
    requires limits { (worker < 16) × (count ≤ 100000) }
    ensures same { IsSamePass pass result.pass }
    ensures pushed { HasPushed count worker
        (pushed_by result.pass.writer result.pass.seen) result.fault }
{
    let first = worker as u64 * count as u64;
    for number in 0..count as u64 {
        let Ok(index) = vector.push_as(rt, &mut pass, first + number) else {
            return Done {
                pass,
                fault: Some(SharedFault::Memory),
            };
        };
        if !gate.after(worker, index) {
            return Done {
                pass,
                fault: Some(SharedFault::Gate),
            };
        }
    }
    Done { pass, fault: None }
}

/// Returns the stack of a worker's thread. Its least number of bytes is the item of `stacks` at the
/// worker's index; if there is no such index, it is the system's usual stack.
fn stack_of(stacks: &[usize], worker: usize) -> Stack {
    match stacks.get(worker) {
        Some(bytes) => Stack::new().stack_size(*bytes),
        None => Stack::new(),
    }
}

/// Joins the workers that were started, and returns their results. `pass` has then observed what
/// they have observed.
fn join_all<R: Threads, A: Allocator + Copy>(
    rt: &R,
    pass: &mut Pass<u64, A>,
    started: Vec<PromisedHandle<Done<A>, WorkOf<A>>, A>,
    mut done: Vec<Done<A>, A>,
    _count: usize,
) -> Vec<Done<A>, A>
    requires same_vector { Each (λ worker h. IsPromiseOf pass.old.vector pass.old.seen _count worker
        h.promise.vector.now h.promise.pass.now.seen h.promise.count h.promise.worker) started.items }
    requires empty { vec_len done ≡ 0 }
    requires room { vec_len started ≤ vec_capacity done }

    // `pass` is the same view at a later time, and has pushed nothing.
    ensures continues { Continues pass.old pass.new }

    // The results of the workers, with the capacity of `done`.
    ensures length { vec_len result ≡ vec_len started.entry }
    ensures work { Each (λ worker d.
        IsWorkOf pass.old.vector pass.old.seen _count worker d.pass d.fault) result.items }
    ensures seen { All (λ d. length d.pass.seen ≤ length pass.new.seen) result.items }
    ensures room { vec_capacity done ≤ vec_capacity result }
{
    for handle in started {
        let mut next = handle.join(rt);
        pass.meet(&mut next.pass);
        let Ok(()) = done.push(next) else {
            unreachable!()
        };
    }
    done
}

/// Appends the results of the workers that were not started: they pushed nothing, since a thread
/// couldn't be started.
fn add_unstarted<A: Allocator + Copy>(
    vector: &LockFreeFrozenVec<u64, A>,
    pass: &mut Pass<u64, A>,
    mut done: Vec<Done<A>, A>,
    workers: usize,
    _begun: &Pass<u64, A>,
    _count: usize,
) -> Vec<Done<A>, A>
    requires same_vector { pass.old.vector ≡ vector.now }

    // The results so far, with capacity for all workers.
    requires begun { IsPrefix _begun.now.seen pass.old.seen }
    requires work { Each (λ worker d.
        IsWorkOf vector.now _begun.now.seen _count worker d.pass d.fault) done.items }
    requires seen { All (λ d. length d.pass.seen ≤ length pass.old.seen) done.items }
    requires room { (vec_len done ≤ workers) × (workers ≤ vec_capacity done) }

    // The results of all workers.
    ensures same { pass.new ≡ pass.old }
    ensures length { vec_len result ≡ workers }
    ensures work { Each (λ worker d.
        IsWorkOf vector.now _begun.now.seen _count worker d.pass d.fault) result.items }
    ensures seen { All (λ d. length d.pass.seen ≤ length pass.new.seen) result.items }
{
    for _ in done.len()..workers {
        let theirs = begin(vector, pass);
        let Ok(()) = done.push(Done {
            pass: theirs,
            fault: Some(SharedFault::Thread),
        }) else {
            unreachable!()
        };
    }
    done
}

/// Returns the faults of the workers, after it extended each worker's view to the observed prefix
/// of `pass`, which is at least as long.
///
/// So the observed prefix of `pass` has no items of a worker's writer but those that the worker
/// pushed.
fn settle<A: Allocator + Copy>(
    pass: &mut Pass<u64, A>,
    done: Vec<Done<A>, A>,
    mut faults: Vec<Option<SharedFault>, A>,
) -> Vec<Option<SharedFault>, A>
    // The workers' views are of this vector, and none has a longer observed prefix.
    requires same_vector { All (λ d. d.pass.vector ≡ pass.old.vector) done.items }
    requires seen { All (λ d. length d.pass.seen ≤ length pass.old.seen) done.items }

    // The list of faults is empty, with capacity for all workers.
    requires empty { vec_len faults ≡ 0 }
    requires room { vec_len done ≤ vec_capacity faults }
    ensures same { pass.new ≡ pass.old }
    ensures faults { result.items ≡ map (λ d. d.fault) done.items }
    ensures pushed { All (λ d.
        pushed_by d.pass.writer pass.new.seen ≡ pushed_by d.pass.writer d.pass.seen) done.items }
{
    for worker in done {
        let Done {
            pass: mut theirs,
            fault,
        } = worker;
        pass.meet(&mut theirs);
        let Ok(()) = faults.push(fault) else {
            unreachable!()
        };
    }
    faults
}

/// Runs each worker in its own thread, and returns their results and a view that has observed what
/// they have observed. Every thread that was started has then ended.
///
/// # Errors
/// Fails if an allocation fails. No thread was then started.
fn run_workers<'v, R: Threads + Wait + Sync, G: Gate + Sync, A: Allocator + Copy + Send + Sync>(
    rt: &R,
    alloc: A,
    vector: &'v LockFreeFrozenVec<u64, A>,
    begun: &'v Pass<u64, A>,
    mut longest: Pass<u64, A>,
    workers: usize,
    count: usize,
    gate: &G,
    stacks: &[usize],
) -> Result<(Vec<Done<A>, A>, Pass<u64, A>), AllocError>
    requires same_vector { (longest.vector ≡ vector.now) × (longest.seen ≡ begun.now.seen) }
    requires limits { (workers ≤ 16) × (count ≤ 100000) }
    ensures { IfOk result (λ r.
        HaveHandedBack vector.now begun.now.seen count workers r.0.items r.1) }
{
    let mut started = Vec::with_capacity(alloc, workers)?;
    let done = Vec::with_capacity(alloc, workers)?;
    Ok(thread::scope(
        thread::scope_env(),
        rt,
        move |scope| -> (Vec<Done<A>, A>, Pass<u64, A>)
            requires same_vector { (longest.vector ≡ vector.now) × (longest.seen ≡ begun.now.seen) }
            requires limits { (workers ≤ 16) × (count ≤ 100000) }
            requires started { (vec_len started ≡ 0) × (workers ≤ vec_capacity started) }
            requires done { (vec_len done ≡ 0) × (workers ≤ vec_capacity done) }
            ensures { HaveHandedBack vector.entry.now begun.entry.now.seen count workers
                result.0.items result.1 }
        {
            for worker in 0..workers {
                let theirs = begin(vector, &mut longest);
                let promise = promise_of(vector, begun, worker, count);
                let run = move || -> Done<A>
                    requires same_vector { (theirs.vector ≡ vector.now) × (mine theirs ≡ []) }
                    requires limits { (worker < 16) × (count ≤ 100000) }
                    ensures same { IsSamePass theirs result.pass }
                    ensures pushed { HasPushed count worker
                        (pushed_by result.pass.writer result.pass.seen) result.fault }
                { work(rt, vector, gate, theirs, worker, count) };
                let Ok(child) = stack_of(stacks, worker).spawn_scoped_with(scope, promise, run)
                else {
                    break;
                };
                let Ok(()) = started.push(child) else {
                    unreachable!()
                };
            }
            let done = join_all(rt, &mut longest, started, done, count);
            let done = add_unstarted(vector, &mut longest, done, workers, begun, count);
            (done, longest)
        },
    ))
}

/// Pushes `count` numbers from each of `workers` threads into the vector, and returns for each
/// worker why it stopped before its last number, or `None` if it pushed them all. `pass` has then
/// observed what the workers pushed, and every thread that was started has ended.
///
/// Worker `w`, counted from 0, pushes `w * count` to `w * count + count - 1` in order, as a writer
/// of its own, and calls the gate after each push. It stops if a push fails (`Memory`) or if the
/// gate returns `false` (`Gate`); the other workers continue. If a thread can't be started, the
/// later ones aren't started either (`Thread`).
///
/// The stack of worker `w` has at least `stacks[w]` bytes, in whole units of 128 KiB. If `stacks`
/// has no such index, it is the system's usual stack.
///
/// # Errors
/// Fails if an allocation fails before the first thread is started. `pass` is then unchanged.
///
/// # Blocks
/// Until all workers have ended.
///
/// # Allocates
/// For the vector, for lists of the workers, and for the threads.
///
/// # Cost
/// `O(workers * count)` pushes, in parallel.
pub fn run_shared_into<R: Threads + Wait + Sync, G: Gate + Sync, A: Allocator + Copy + Send + Sync>(
    rt: &R,
    alloc: A,
    vector: &LockFreeFrozenVec<u64, A>,
    pass: &mut Pass<u64, A>,
    workers: usize,
    count: usize,
    gate: &G,
    stacks: &[usize],
) -> Result<Vec<Option<SharedFault>, A>, AllocError>
    requires same_vector { pass.old.vector ≡ vector.now }
    requires workers { (1 ≤ workers) × (workers ≤ 16) }
    requires count { count ≤ 100000 }

    // `pass` is the same view at a later time, and has pushed nothing.
    ensures continues { Continues pass.old pass.new }

    // What each worker pushed. If the call fails, `pass` has observed nothing new.
    ensures each { IfOk result (λ faults. length faults.items ≡ workers) }
    ensures pushed { IfOk result (λ faults.
        HaveWorked count pass.old.seen pass.new.seen faults.items) }
    ensures refused { IfErr result (λ _. pass.new ≡ pass.old) }
{
    let faults = Vec::with_capacity(alloc, workers)?;
    let longest = begin(vector, pass);
    let (done, mut longest) = run_workers(
        rt, alloc, vector, &*pass, longest, workers, count, gate, stacks,
    )?;
    pass.meet(&mut longest);
    Ok(settle(pass, done, faults))
}

/// Returns the first of two faults, or `None` if there is none.
fn earlier(one: Option<SharedFault>, other: Option<SharedFault>) -> Option<SharedFault>
    ensures { IsFirstFault (one ∷ other ∷ []) result }
{
    match (one, other) {
        (Some(fault), Some(further)) => Some(min(fault, further)),
        (Some(fault), None) => Some(fault),
        (None, further) => further,
    }
}

/// Returns the first of the workers' faults, in the order `Memory`, `Gate`, `Check`, `Thread`, or
/// `None` if there is none.
///
/// # Cost
/// `O(n)`.
pub fn first_fault(faults: &[Option<SharedFault>]) -> Option<SharedFault>
    ensures { IsFirstFault faults.now result }
{
    let mut first = None;
    for fault in faults {
        first = earlier(first, *fault);
    }
    first
}

/// Returns the length of a vector into which workers with these faults pushed.
///
/// # Errors
/// Fails with the first of the faults. If there is none, fails with `Check` if the length isn't
/// `all`.
fn told(faults: &[Option<SharedFault>], length: usize, all: usize) -> Result<usize, SharedFault>
    ensures counted { IfOk result (λ n.
        IsFirstFault faults.now None × (n ≡ length) × (length ≡ all)) }
    ensures fault { IfErr result (λ fault. IsFirstFault faults.now (Some fault)
        ⊎ ((fault ≡ SharedFault.Check) × IsFirstFault faults.now None × (length ≢ all))) }
{
    if let Some(fault) = first_fault(faults) {
        return Err(fault);
    }
    if length != all {
        return Err(SharedFault::Check);
    }
    Ok(length)
}

/// Runs the workers as [`run_shared`] does. The stack of worker `w` has at least `stacks[w]` bytes,
/// in whole units of 128 KiB. If `stacks` has no such index, it is the system's usual stack.
///
/// # Errors
/// Fails as [`run_shared`] does. A thread whose stack is larger than the system allows can't be
/// started (`Thread`).
pub fn run_shared_on_stacks<
    R: Threads + Wait + Sync,
    G: Gate + Sync,
    A: Allocator + Copy + Send + Sync,
>(
    rt: &R,
    alloc: A,
    workers: usize,
    count: usize,
    gate: &G,
    stacks: &[usize],
) -> Result<usize, SharedFault>
    requires workers { (1 ≤ workers) × (workers ≤ 16) }
    requires count { count ≤ 100000 }
    ensures all_pushed { IfOk result (λ length. length ≡ workers * count) }
{
    let vector = LockFreeFrozenVec::new(alloc)?;
    let mut pass = vector.pass();
    let faults = run_shared_into(rt, alloc, &vector, &mut pass, workers, count, gate, stacks)?;
    told(&faults, vector.len_as(&mut pass), workers * count)
}

/// Pushes `count` numbers from each of `workers` threads into a new vector, and returns its length
/// at the end, which is `workers * count`.
///
/// The workers are those of [`run_shared_into`].
///
/// # Errors
/// Fails with the first of the faults, in the order of [`SharedFault`]; with `Check` if no worker
/// has a fault and the length isn't that of all numbers. Every thread that was started has then
/// ended.
///
/// # Blocks
/// Until all workers have ended.
///
/// # Allocates
/// For the vector, for lists of the workers, and for the threads.
///
/// # Cost
/// `O(workers * count)` pushes, in parallel.
pub fn run_shared<R: Threads + Wait + Sync, G: Gate + Sync, A: Allocator + Copy + Send + Sync>(
    rt: &R,
    alloc: A,
    workers: usize,
    count: usize,
    gate: &G,
) -> Result<usize, SharedFault>
    requires workers { (1 ≤ workers) × (workers ≤ 16) }
    requires count { count ≤ 100000 }
    ensures all_pushed { IfOk result (λ length. length ≡ workers * count) }
{
    run_shared_on_stacks(rt, alloc, workers, count, gate, &[])
}
