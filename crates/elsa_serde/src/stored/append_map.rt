//! The map for large collections, as a map in the order of insertion.
ghost use Rattle.std.specs.Prelude.{OnOk};
ghost use Rattle.serde.specs.Event.{WritesMap};

use super::{Stored, write_entry};
use elsa_buckets::append_map::AppendMap;
use serde::{Described, Serialize, Serializer};
use std::alloc::Allocator;
use std::hash::{BuildHasher, Hash};

impl<K: Described + Eq + Hash, B: Described, H: BuildHasher, A: Allocator + Copy> Described
    for Stored<'_, AppendMap<K, B, H, A>> {
    ghost writes = { λ s. WritesMap K.writes B.writes s.0.now };

    fn described(&self) {}
}

impl<K: Serialize + Eq + Hash, B: Serialize, H: BuildHasher, A: Allocator + Copy> Serialize
    for Stored<'_, AppendMap<K, B, H, A>> {
    fn serialize<S: Serializer>(&self, out: &mut S) -> Result<(), S::Error> {
        write_entries(self.0.entries(), out)
    }
}

// The entries, in order, as a map.
fn write_entries<K: Serialize, B: Serialize, S: Serializer>(
    entries: &[(K, B)],
    out: &mut S,
) -> Result<(), S::Error>
    ensures { OnOk result (WritesMap K.writes B.writes entries.now (S.written out.old)
        (S.written out.new)) }
{
    out.begin_map(Some(entries.len()))?;
    for entry in entries {
        write_entry(&entry.0, &entry.1, out)?;
    }
    out.end_map()
}
