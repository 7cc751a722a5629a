//! The replies that the calls of several collections have.
use crate::counted::Counted;
use elsa_arena::fault::{CellFault, Fault};
use test_model::call::{Cause, Reply};

/// The cause of a fault, and its value.
fn parts<T: Drop>(fault: CellFault<T>) -> (Cause, T) {
    match fault {
        CellFault::Memory(value) => (Cause::Memory, value),
        CellFault::InUse(value) => (Cause::InUse, value),
        CellFault::Full(value) => (Cause::Full, value),
    }
}

/// The reply of a call that failed without a value.
pub fn failed_empty(fault: Fault, calls: u64) -> Reply {
    let cause = match fault {
        Fault::Memory => Cause::Memory,
        Fault::InUse => Cause::InUse,
        Fault::Full => Cause::Full,
    };
    Reply::Failed(cause, None, calls)
}

/// The reply of an insertion that failed with its item.
pub fn failed(fault: CellFault<Counted<'_>>) -> Reply {
    let (cause, item) = parts(fault);
    Reply::Failed(cause, Some(item.number()), 0)
}

/// The reply of an insertion that failed, after its closure had made the value or not.
pub fn failed_made(fault: CellFault<Option<Counted<'_>>>, calls: u64) -> Reply {
    let (cause, made) = parts(fault);
    Reply::Failed(cause, made.map(|item| item.number()), calls)
}

/// The reply of a call that inserts nothing.
pub fn done(reserved: Result<(), Fault>) -> Reply {
    match reserved {
        Ok(()) => Reply::Done,
        Err(fault) => failed_empty(fault, 0),
    }
}
