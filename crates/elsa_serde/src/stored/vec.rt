//! The vector, written as a sequence.
ghost use Rattle.serde.specs.Event.{WritesSeq};

use super::Stored;
use elsa_vec::stable::StableDeref;
use elsa_vec::vec::FrozenVecIn;
use serde::{Described, Serialize, Serializer};
use std::alloc::Allocator;

impl<R: Copy, T, A: Allocator + Copy> Described for Stored<'_, FrozenVecIn<R, T, A>>
where
    T: StableDeref<R>,
    T::Borrow: Described,
{
    ghost writes = { λ s. WritesSeq T.Borrow.writes s.0.now };

    fn described(&self) {}
}

impl<R: Copy, T, A: Allocator + Copy> Serialize for Stored<'_, FrozenVecIn<R, T, A>>
where
    T: StableDeref<R>,
    T::Borrow: Serialize,
{
    fn serialize<S: Serializer>(&self, out: &mut S) -> Result<(), S::Error> {
        self.0.as_slice().serialize(out)
    }
}
