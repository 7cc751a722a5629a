//! How each collection is written: a file for each collection.
//!
//! Each impl here has its own `described`: the checker makes no proof for an impl that uses the
//! trait's default.
ghost use Rattle.std.specs.Prelude.{OnOk};
ghost use Rattle.serde.specs.Event.{WritesEntry};

use serde::{Serialize, Serializer};

mod append_map;
mod hashed;
mod index_map;
mod index_set;
mod names;
mod ordered;
mod vec;

/// A collection that serde writes, to any `Serializer`: `Stored(&names)`.
///
/// A vector, an index set and an interner are written as a sequence, in order: the index of a name
/// is its number. A map is written as a map, in the order of its `iter`. Writing fails with the
/// serializer's error. It allocates nothing except what the serializer allocates.
///
/// # Cost
/// `O(n)`.
#[derive(Clone, Copy)]
pub struct Stored<'c, C>(pub &'c C);

// Writes a key between its two marks, and then its value.
fn write_entry<K: Serialize, B: Serialize, S: Serializer>(
    key: &K,
    value: &B,
    out: &mut S,
) -> Result<(), S::Error>
    ensures { OnOk result (WritesEntry K.writes B.writes (key.now, value.now) (S.written out.old)
        (S.written out.new)) }
{
    out.begin_key()?;
    key.serialize(out)?;
    out.end_key()?;
    value.serialize(out)
}
