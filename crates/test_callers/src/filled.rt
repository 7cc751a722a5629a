//! What a caller can ensure of a vector that two workers filled.
ghost use Rattle.std.specs.Prelude.{◌≡◌, ◌≢◌, ◌≤◌, ℕ, IfOk, IfSome};
ghost use Rattle.elsa_lock_free.specs.SharedList.{pushed_by};
ghost use Rattle.elsa_program.specs.Workers.{numbers};

use elsa::sync::{LockFreeFrozenVec, Pass};
use elsa_program::shared::{Gate, first_fault, run_shared_into};
use std::alloc::{AllocError, Global};
use std::sync::Wait;
use std::thread::Threads;

/// Makes a vector, lets two workers push `count` numbers each, and returns a view of it, or `None`
/// if a worker had a fault. Each of two writers has pushed all numbers of one worker, in order.
///
/// # Errors
/// Fails if an allocation fails.
pub fn two_filled<R: Threads + Wait + Sync, G: Gate + Sync>(
    rt: &R,
    alloc: Global,
    count: usize,
    gate: &G,
) -> Result<Option<Pass<u64>>, AllocError>
    requires { count ≤ 100000 }
    ensures { IfOk result (λ r. IfSome r (λ pass. (one : ℕ) × (other : ℕ) × (one ≢ other)
        × (pushed_by one pass.seen ≡ numbers 0 count)
        × (pushed_by other pass.seen ≡ numbers count count))) }
{
    let vector = LockFreeFrozenVec::new(alloc)?;
    let mut pass = vector.pass();
    let faults = run_shared_into(rt, alloc, &vector, &mut pass, 2, count, gate, &[])?;
    if first_fault(&faults).is_some() {
        return Ok(None);
    }
    Ok(Some(pass))
}
