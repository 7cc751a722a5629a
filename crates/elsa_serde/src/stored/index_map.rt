//! The index map, written as a map in the order of first insertion.
ghost use Rattle.serde.specs.Event.{WritesMap};

use super::{Stored, write_entry};
use elsa_maps::index_map::FrozenIndexMapIn;
use elsa_vec::stable::StableDeref;
use serde::{Described, Serialize, Serializer};
use std::alloc::Allocator;
use std::hash::{BuildHasher, Hash};

impl<R: Copy, K, V, H: BuildHasher, A: Allocator + Copy> Described
    for Stored<'_, FrozenIndexMapIn<R, K, V, H, A>>
where
    K: Described + Eq + Hash + Drop,
    V: StableDeref<R>,
    V::Borrow: Described,
{
    ghost writes = { λ s. WritesMap K.writes V.Borrow.writes s.0.now };

    fn described(&self) {}
}

impl<R: Copy, K, V, H: BuildHasher, A: Allocator + Copy> Serialize
    for Stored<'_, FrozenIndexMapIn<R, K, V, H, A>>
where
    K: Serialize + Eq + Hash + Drop,
    V: StableDeref<R>,
    V::Borrow: Serialize,
{
    fn serialize<S: Serializer>(&self, out: &mut S) -> Result<(), S::Error> {
        out.begin_map(Some(self.0.len()))?;
        for (key, value) in self.0.iter() {
            write_entry(key, value, out)?;
        }
        out.end_map()
    }
}
