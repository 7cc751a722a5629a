//! The index set, written as a sequence.
ghost use Rattle.serde.specs.Event.{WritesSeq};

use super::Stored;
use elsa_index::index_set::FrozenIndexSetIn;
use elsa_vec::stable::StableDeref;
use serde::{Described, Serialize, Serializer};
use std::alloc::Allocator;
use std::hash::{BuildHasher, Hash};

impl<R: Copy, T, H: BuildHasher, A: Allocator + Copy> Described
    for Stored<'_, FrozenIndexSetIn<R, T, H, A>>
where
    T: StableDeref<R>,
    T::Borrow: Described + Eq + Hash,
{
    ghost writes = { λ s. WritesSeq T.Borrow.writes s.0.now };

    fn described(&self) {}
}

impl<R: Copy, T, H: BuildHasher, A: Allocator + Copy> Serialize
    for Stored<'_, FrozenIndexSetIn<R, T, H, A>>
where
    T: StableDeref<R>,
    T::Borrow: Serialize + Eq + Hash,
{
    fn serialize<S: Serializer>(&self, out: &mut S) -> Result<(), S::Error> {
        out.begin_seq(Some(self.0.len()))?;
        for value in self.0.iter() {
            value.serialize(out)?;
        }
        out.end_seq()
    }
}
