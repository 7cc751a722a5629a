//! The reasons for which values that were read can't be inserted into a collection.
use std::alloc::AllocError;
use std::error::Error;
use std::fmt;

/// The reason for which a value that was read could not be inserted into a collection. The
/// collection keeps the values before it.
#[derive(Clone, Copy, Debug, Drop, PartialEq, Eq)]
pub enum ReadFault {
    /// The collection already had the name, value or key that was read at this index, counted from
    /// 0.
    Duplicate(usize),
    /// The interner has 2^32 - 1 names, a name for each number.
    TooMany,
    /// An allocation failed.
    Memory,
}

impl fmt::Display for ReadFault {
    fn fmt<W: fmt::Write>(&self, f: &mut fmt::Formatter<W>) -> fmt::Result {
        match self {
            ReadFault::Duplicate(index) => write!(
                f,
                "what was read at index {index} is a duplicate"
            ),
            ReadFault::TooMany => f.write_str("more names than an interner has numbers for"),
            ReadFault::Memory => f.write_str("out of memory"),
        }
    }
}

impl Error for ReadFault {}

impl From<AllocError> for ReadFault {
    ghost use Rattle.std.specs.Prelude.{◌≡◌};
    ghost use Rattle.elsa_serde.specs.declared.fault.ReadFault.TheVariants.{Memory};

    ghost from_gives = { λ _ fault. fault ≡ Memory };

    fn from(_error: AllocError) -> ReadFault {
        ReadFault::Memory
    }
}
