//! The ordered map, written as a map in ascending order of the keys.
ghost use Rattle.serde.specs.Event.{WritesMap};

use super::{Stored, write_entry};
use elsa_maps::map::FrozenBTreeMapIn;
use elsa_vec::stable::StableDeref;
use serde::{Described, Serialize, Serializer};
use std::alloc::Allocator;

impl<R: Copy, K, V, A: Allocator + Copy> Described for Stored<'_, FrozenBTreeMapIn<R, K, V, A>>
where
    K: Described + Ord + Drop,
    V: StableDeref<R>,
    V::Borrow: Described,
{
    ghost writes = { λ s. WritesMap K.writes V.Borrow.writes s.0.now };

    fn described(&self) {}
}

impl<R: Copy, K, V, A: Allocator + Copy> Serialize for Stored<'_, FrozenBTreeMapIn<R, K, V, A>>
where
    K: Serialize + Ord + Drop,
    V: StableDeref<R>,
    V::Borrow: Serialize,
{
    fn serialize<S: Serializer>(&self, out: &mut S) -> Result<(), S::Error> {
        out.begin_map(Some(self.0.len()))?;
        for (key, value) in self.0.iter() {
            write_entry(key, value, out)?;
        }
        out.end_map()
    }
}
