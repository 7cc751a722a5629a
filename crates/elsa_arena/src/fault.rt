//! Why a call on a collection that grows through `&self` failed.
ghost use Rattle.std.specs.Prelude.{◌≡◌, ◌⊎◌};

use std::alloc::{AllocError, AllocFailed};
use std::error::Error;
use std::{fmt, io};

/// The error of a call that was made inside another call of the same collection, or while a lock
/// guard of it exists. Inside a call run the `Hash`, `Eq` and `Drop` of a key, and the allocator.
#[derive(Clone, Copy, Debug, PartialEq, Eq)]
pub struct InUse;

/// The error of an insertion, with the value that wasn't inserted.
#[derive(Drop)]
pub enum CellFault<T> {
    /// An allocation failed.
    Memory(T),
    /// The call was made inside another call of the same collection, or while a lock guard of it
    /// exists.
    InUse(T),
    /// The collection has the greatest number of items.
    Full(T),
}

/// Why a call on a collection failed, without the value: `?` makes it of each error of `cell`, and
/// of it an `io::Error`.
#[derive(Clone, Copy, Debug, Drop, PartialEq, Eq)]
pub enum Fault {
    /// An allocation failed.
    Memory,
    /// The call was made inside another call of the same collection, or while a lock guard of it
    /// exists.
    InUse,
    /// The collection has the greatest number of items.
    Full,
}

// What each error says.
const OUT_OF_MEMORY: &str = "out of memory: the value was not inserted";

const IN_USE: &str = "the collection is in use by a call that contains this one";

const IS_FULL: &str = "the collection has the greatest number of items";

impl fmt::Display for InUse {
    fn fmt<W: fmt::Write>(&self, f: &mut fmt::Formatter<W>) -> fmt::Result {
        f.pad(IN_USE)
    }
}

impl Error for InUse {}

/// Prints no value: a value need not implement `Debug`.
impl<T> fmt::Debug for CellFault<T> {
    fn fmt<W: fmt::Write>(&self, f: &mut fmt::Formatter<W>) -> fmt::Result {
        f.pad(match self {
            CellFault::Memory(_) => "Memory(..)",
            CellFault::InUse(_) => "InUse(..)",
            CellFault::Full(_) => "Full(..)",
        })
    }
}

impl<T> fmt::Display for CellFault<T> {
    fn fmt<W: fmt::Write>(&self, f: &mut fmt::Formatter<W>) -> fmt::Result {
        f.pad(match self {
            CellFault::Memory(_) => OUT_OF_MEMORY,
            CellFault::InUse(_) => IN_USE,
            CellFault::Full(_) => IS_FULL,
        })
    }
}

impl<T: Drop> Error for CellFault<T> {}

impl fmt::Display for Fault {
    fn fmt<W: fmt::Write>(&self, f: &mut fmt::Formatter<W>) -> fmt::Result {
        f.pad(match self {
            Fault::Memory => OUT_OF_MEMORY,
            Fault::InUse => IN_USE,
            Fault::Full => IS_FULL,
        })
    }
}

impl Error for Fault {}

impl From<AllocError> for Fault {
    ghost use Rattle.std.specs.Prelude.{◌≡◌};
    ghost use Rattle.elsa_arena.specs.declared.fault.Fault.TheVariants as to;

    ghost from_gives = { λ _ fault. fault ≡ to.Memory };

    fn from(_error: AllocError) -> Fault {
        Fault::Memory
    }
}

/// Drops the value.
impl<T: Drop> From<AllocFailed<T>> for Fault {
    ghost use Rattle.std.specs.Prelude.{◌≡◌};
    ghost use Rattle.elsa_arena.specs.declared.fault.Fault.TheVariants as to;

    ghost from_gives = { λ _ fault. fault ≡ to.Memory };

    fn from(_error: AllocFailed<T>) -> Fault {
        Fault::Memory
    }
}

impl From<InUse> for Fault {
    ghost use Rattle.std.specs.Prelude.{◌≡◌};
    ghost use Rattle.elsa_arena.specs.declared.fault.Fault.TheVariants as to;

    ghost from_gives = { λ _ fault. fault ≡ to.InUse };

    fn from(_error: InUse) -> Fault {
        Fault::InUse
    }
}

/// Drops the value.
impl<T: Drop> From<CellFault<T>> for Fault {
    ghost use Rattle.std.specs.Prelude.{◌≡◌};
    ghost use Rattle.elsa_arena.specs.Faults.{fault_of};

    ghost from_gives = { λ error fault. fault ≡ fault_of error };

    fn from(error: CellFault<T>) -> Fault {
        match error {
            CellFault::Memory(_) => Fault::Memory,
            CellFault::InUse(_) => Fault::InUse,
            CellFault::Full(_) => Fault::Full,
        }
    }
}

impl From<Fault> for io::Error {
    ghost use Rattle.std.specs.Prelude.{◌≡◌};
    ghost use Rattle.std.specs.IoError.{error_kind};
    ghost use Rattle.elsa_arena.specs.Faults.{kind_of};

    ghost from_gives = { λ fault e. error_kind e ≡ kind_of fault };

    fn from(fault: Fault) -> io::Error {
        match fault {
            Fault::Memory => io::Error::from(io::ErrorKind::OutOfMemory),
            Fault::InUse => io::Error::from(io::ErrorKind::ResourceBusy),
            Fault::Full => io::Error::from(io::ErrorKind::StorageFull),
        }
    }
}

impl From<InUse> for io::Error {
    ghost use Rattle.std.specs.Prelude.{◌≡◌};
    ghost use Rattle.std.specs.IoError.{error_kind};
    ghost use Rattle.std.specs.declared.io.ErrorKind.TheVariants.{ResourceBusy};

    ghost from_gives = { λ _ e. error_kind e ≡ ResourceBusy };

    fn from(error: InUse) -> io::Error {
        io::Error::from(Fault::from(error))
    }
}

/// Drops the value.
impl<T: Drop> From<CellFault<T>> for io::Error {
    ghost use Rattle.std.specs.Prelude.{◌≡◌};
    ghost use Rattle.std.specs.IoError.{error_kind};
    ghost use Rattle.elsa_arena.specs.Faults.{fault_of, kind_of};

    ghost from_gives = { λ error e. error_kind e ≡ kind_of (fault_of error) };

    fn from(error: CellFault<T>) -> io::Error {
        io::Error::from(Fault::from(error))
    }
}
