//! The permission to take the lock of a state word, and the errors of calls that don't wait for it.

use std::alloc::{AllocError, Global};
use std::error::Error;
use std::fmt;
use std::sync::Wait;

/// The permission to take the lock of a vector's state word. It has no bytes, and is for every
/// vector.
///
/// It is made of a value that the code of a read doesn't have: the permission to block, or the
/// global allocator, which a program's `main` has. The calls of this library are written for any
/// allocator, so no read can make a permit, and none takes the lock.
#[derive(Clone, Copy)]
pub struct LockPermit {
    made: (),
}

impl LockPermit {
    /// Returns the permit of a thread that may wait for the lock.
    pub fn waiting<R: Wait>(_rt: &R) -> LockPermit {
        LockPermit { made: () }
    }

    /// Returns the permit of a thread that tries to take the lock, and doesn't wait for it.
    pub fn trying(_alloc: Global) -> LockPermit {
        LockPermit { made: () }
    }
}

/// The error of an attempt to lock: another thread has the lock.
#[derive(Clone, Copy, Debug, PartialEq, Eq)]
pub struct Busy;

/// Why an insertion that doesn't wait inserted nothing.
#[derive(Drop)]
pub enum AttemptFault<T, E = AllocError> {
    /// Another thread has the lock, or has inserted first in each attempt. It has what was to be
    /// inserted, to try again.
    Busy(T),
    /// The insertion failed as it can when it waits.
    Failed(E),
}

/// Prints not what was to be inserted, which need not implement `Debug`.
impl<T, E: fmt::Debug> fmt::Debug for AttemptFault<T, E> {
    fn fmt<W: fmt::Write>(&self, f: &mut fmt::Formatter<W>) -> fmt::Result {
        match self {
            AttemptFault::Busy(_) => f.write_str("Busy(..)"),
            AttemptFault::Failed(error) => write!(f, "Failed({error:?})"),
        }
    }
}

impl<T, E: fmt::Display> fmt::Display for AttemptFault<T, E> {
    fn fmt<W: fmt::Write>(&self, f: &mut fmt::Formatter<W>) -> fmt::Result {
        match self {
            AttemptFault::Busy(_) => f.write_str("another thread has the lock: try again"),
            AttemptFault::Failed(error) => write!(f, "{error}"),
        }
    }
}

impl<T: Drop, E: Error> Error for AttemptFault<T, E> {}
