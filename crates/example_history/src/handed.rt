//! A push that has returned is observed by each read of another thread to which its history was
//! passed: by a join, and by a lock.
ghost use Rattle.std.specs.Prelude.{◌≡◌, ◌<◌, ◌≤◌, IfOk, IfSome, Some, length, slice_get};
ghost use Rattle.elsa_lock_free.specs.History.{list_of};
ghost use Rattle.elsa_lock_free.specs.SharedList.{items_of};

use elsa_lock_free::lock_free::{Handle, LockFreeFrozenVec, VectorHistory};
use std::alloc::AllocError;
use std::sync::{Mutex, Wait};
use std::thread;
use std::thread::Threads;

/// Pushes an item, and returns its index and the history that has it.
fn push_one<R: Wait>(
    rt: &R,
    vector: &LockFreeFrozenVec<u64>,
    item: u64,
) -> Result<(usize, VectorHistory<u64>), AllocError>
    ensures same_vector { IfOk result (λ r. r.1.vector ≡ vector.now) }
    ensures at { IfOk result (λ r. slice_get (items_of (list_of r.1.events)) r.0 ≡ Some item) }
{
    let mut handle = vector.handle();
    let index = handle.push(rt, item)?;
    Ok((index, handle.history()))
}

/// Pushes an item in a thread, and reads it after the join, by a handle that has observed nothing.
pub fn read_after_join<R: Threads + Wait + Sync>(
    rt: &R,
    vector: &LockFreeFrozenVec<u64>,
    item: u64,
) -> Result<u64, AllocError>
    ensures { IfOk result (λ x. x ≡ item) }
{
    let (pushed, _) = thread::join(rt, || push_one(rt, vector, item), || ());
    let (index, history) = pushed?;
    Ok(read_known(vector, &history, index))
}

/// Reads an item of a history, by a handle that has observed nothing before.
#[tactic(auto, using(elsa_lock_free::proofs::ClientLemmas::was_there))]
fn read_known(vector: &LockFreeFrozenVec<u64>, history: &VectorHistory<u64>, index: usize) -> u64
    requires same_vector { history.now.vector ≡ vector.now }
    requires known { index < length (list_of history.now.events) }
    ensures { slice_get (items_of (list_of history.now.events)) index ≡ Some result }
{
    let mut reader = vector.handle();
    reader.len_after(history);
    *reader.item(index)
}

/// What threads know of a vector, under a lock: a number of items that it has at least.
#[derive(Drop)]
pub struct Known<'v> {
    vector: &'v LockFreeFrozenVec<u64>,
    history: VectorHistory<u64>,
    count: usize,
    ghost same_vector: { history.vector ≡ vector.now },
    ghost counted: { count ≤ length (list_of history.events) },
}

impl<'v> Known<'v> {
    /// Returns the item at an index if it is below the count.
    pub fn get(&self, index: usize) -> Option<u64> {
        if index < self.count {
            return Some(self.item(index));
        }
        None
    }

    /// Returns the item at an index below the count, by a handle that has observed nothing before.
    fn item(&self, index: usize) -> u64
        requires known { index < self.now.count }
    {
        read_known(self.vector, &self.history, index)
    }
}

/// Pushes an item, and then stores the number of items in the lock.
pub fn push_and_tell<'v, R: Wait>(
    rt: &R,
    vector: &'v LockFreeFrozenVec<u64>,
    known: &Mutex<Known<'v>>,
    item: u64,
) -> Result<(), AllocError> {
    let mut handle = vector.handle();
    handle.push(rt, item)?;
    *known.lock(rt) = told(vector, &handle);
    Ok(())
}

/// Makes what is known of a vector by a handle of it.
pub fn told<'v>(vector: &'v LockFreeFrozenVec<u64>, handle: &Handle<'v, u64>) -> Known<'v>
    requires same_vector { handle.now.vector ≡ vector.now }
{
    Known {
        vector,
        history: handle.history(),
        count: handle.seen_len(),
    }
}

/// Reads an item whose index is below the count that the lock has: it is there.
pub fn read_what_was_told<R: Wait>(rt: &R, known: &Mutex<Known<'_>>, index: usize) -> Option<u64> {
    known.lock(rt).get(index)
}
