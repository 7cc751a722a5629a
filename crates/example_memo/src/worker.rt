//! The work of each thread.
ghost use Rattle.std.specs.Prelude.{◌≡◌, ◌≤◌, ◌^◌, IfNone, IfOk, IfSome};
ghost use Rattle.example_memo.specs.Fibonacci.{fibonacci_at};

use elsa::EntryRule;
use elsa::sync::history::{History, MapCommand, RecordPass, Recorder};
use elsa::sync::map::MapState;
use elsa::sync::{LockFreeFrozenMap, MapHandle};
use std::alloc::{AllocError, Global};
use std::hash::{BuildHasherDefault, FoldHasher};
use std::sync::Wait;

/// The rule of the memo table: each value is the Fibonacci number at its key. It has no bytes.
pub struct IsFibonacci;

impl EntryRule<u64, u64> for IsFibonacci {
    ghost use Rattle.std.specs.Prelude.{◌≡◌};
    ghost use Rattle.example_memo.specs.Fibonacci.{fibonacci_at};

    ghost holds = { λ index value. value ≡ fibonacci_at index };
}

/// The memo table: numbers by their indices.
pub type Memo = LockFreeFrozenMap<u64, u64, BuildHasherDefault<FoldHasher>, Global, IsFibonacci>;

/// A worker's handle of the memo table.
type MemoHandle<'m> = MapHandle<'m, u64, u64, BuildHasherDefault<FoldHasher>, Global, IsFibonacci>;

/// The recorder, which records insertions of numbers at their indices.
pub type Tellings = Recorder<MapState<u64, u64>>;

/// The history of a closed recorder.
pub type Told = History<MapState<u64, u64>>;

/// The greatest index.
pub const LAST: u64 = 90;

/// Returns the number at an index, from the table or computed, or `None` exactly if it is 2^64 or
/// more.
///
/// # Errors
/// Fails if an allocation fails.
///
/// # Blocks
/// It waits while another thread inserts.
fn number<R: Wait>(rt: &R, memo: &mut MemoHandle<'_>, index: u64) -> Result<Option<u64>, AllocError>
    ensures right { IfOk result (λ number. IfSome number (λ value. value ≡ fibonacci_at index)) }
    ensures there { IfOk result (λ number. IfNone number (2 ^ 64 ≤ fibonacci_at index)) }
{
    if index < 2 {
        return Ok(Some(index));
    }
    if let Some(value) = memo.get(index) {
        return Ok(Some(value));
    }
    let Some(one) = number(rt, memo, index - 1)? else {
        return Ok(None);
    };
    let Some(two) = number(rt, memo, index - 2)? else {
        return Ok(None);
    };
    let Some(value) = one.checked_add(two) else {
        return Ok(None);
    };
    Ok(Some(*memo.get_or_insert_with(rt, index, || value)?.value))
}

/// Computes the numbers at every fourth index from the worker's own number on, and records each.
///
/// # Errors
/// Fails if an allocation fails.
///
/// # Blocks
/// It waits while another thread inserts or records.
pub fn work<R: Wait>(
    rt: &R,
    memo: &Memo,
    recorder: &Tellings,
    worker: usize,
) -> Result<RecordPass<MapState<u64, u64>>, AllocError> {
    let first = worker as u64;
    let mut pass = recorder.pass(first);
    let mut memo = memo.handle();
    for index in 0..=LAST {
        if index % 4 != first {
            continue;
        }
        if let Some(value) = number(rt, &mut memo, index)? {
            recorder.call(rt, &mut pass, MapCommand::Insert(index, value))?;
        }
    }
    Ok(pass)
}
