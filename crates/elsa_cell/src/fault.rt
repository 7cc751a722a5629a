//! Why a call on a map that grows through `&self` failed. The errors of all collections are
//! [`InUse`](elsa_arena::fault::InUse), [`CellFault`] and [`Fault`](elsa_arena::fault::Fault).
use elsa_arena::fault::CellFault;
use std::error::Error;
use std::fmt;

/// Why `try_insert_with` inserted nothing.
#[derive(Drop)]
pub enum TryFault<V, E> {
    /// The map failed. The value is there if the closure had made it.
    Map(CellFault<Option<V>>),
    /// The closure's error.
    Value(E),
}

impl<V, E: fmt::Debug> fmt::Debug for TryFault<V, E> {
    fn fmt<W: fmt::Write>(&self, f: &mut fmt::Formatter<W>) -> fmt::Result {
        match self {
            TryFault::Map(fault) => write!(f, "Map({fault:?})"),
            TryFault::Value(error) => write!(f, "Value({error:?})"),
        }
    }
}

impl<V, E: fmt::Display> fmt::Display for TryFault<V, E> {
    fn fmt<W: fmt::Write>(&self, f: &mut fmt::Formatter<W>) -> fmt::Result {
        match self {
            TryFault::Map(fault) => write!(f, "{fault}"),
            TryFault::Value(error) => write!(f, "the value could not be made: {error}"),
        }
    }
}

impl<V: Drop, E: Error> Error for TryFault<V, E> {}
