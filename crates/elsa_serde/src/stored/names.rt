//! The interner, with its arena and without it, written as a sequence of texts: the index of a name
//! is its number.
ghost use Rattle.std.specs.Prelude.{◌≡◌, OnOk, length, map};
ghost use Rattle.std.specs.Slice.Iter.{iter_rest};
ghost use Rattle.serde.specs.Event.{WritesSeq};
ghost use Rattle.elsa_serde.specs.Written.{WritesText};

use super::Stored;
use elsa_interner::interner::{Interner, InternerReader};
use serde::{Described, Serialize, Serializer};
use std::alloc::Allocator;
use std::hash::BuildHasher;
use std::slice::Iter;

impl<S: BuildHasher, A: Allocator + Copy> Described for Stored<'_, InternerReader<'_, S, A>> {
    ghost writes = { λ s. WritesSeq WritesText s.0.now };

    fn described(&self) {}
}

impl<H: BuildHasher, A: Allocator + Copy> Serialize for Stored<'_, InternerReader<'_, H, A>> {
    fn serialize<S: Serializer>(&self, out: &mut S) -> Result<(), S::Error> {
        let reader = self.0;
        write_names(reader.len(), reader.iter(), out)
    }
}

impl<S: BuildHasher, A: Allocator + Copy, P: Allocator> Described
    for Stored<'_, Interner<'_, S, A, P>> {
    ghost writes = { λ s. WritesSeq WritesText s.0.now };

    fn described(&self) {}
}

impl<H: BuildHasher, A: Allocator + Copy, P: Allocator> Serialize
    for Stored<'_, Interner<'_, H, A, P>> {
    fn serialize<S: Serializer>(&self, out: &mut S) -> Result<(), S::Error> {
        let names = self.0;
        write_names(names.len(), names.iter(), out)
    }
}

// Writes `count` names, in order, as a sequence of texts.
fn write_names<S: Serializer>(
    count: usize,
    names: Iter<'_, &str>,
    out: &mut S,
) -> Result<(), S::Error>
    requires { count ≡ length (iter_rest names) }
    ensures { OnOk result (WritesSeq WritesText (map (λ name. name.now) (iter_rest names.entry))
        (S.written out.old) (S.written out.new)) }
{
    out.begin_seq(Some(count))?;
    for name in names {
        out.str(name)?;
    }
    out.end_seq()
}
