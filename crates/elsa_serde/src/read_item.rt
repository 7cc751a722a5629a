//! Values that serde reads, and the events from which each is read.
ghost use Rattle.std.specs.Prelude.{◌≡◌, List, [], ◌∷◌, ◌++◌, IfOk, MatchBool, string_bytes};
ghost use Rattle.serde.specs.Event.{Event, boolean, signed, unsigned, single, double, character, text, seq_begins, seq_ends, map_begins, map_ends, key_begins};
ghost use Rattle.serde.specs.Steps.{Gives, Stays};
ghost use Rattle.elsa_serde.specs.Read.{ReadsEvents, map_events, seq_events};

use elsa_vec::stable::Own;
use serde::{DeserializeOwned, Deserializer, Format};
use std::alloc::Global;

/// A value that serde reads: a number, a `bool`, a `char`, a `String`, a `Vec` of such values, or
/// an [`Own`] of one.
///
/// Another type that implements `DeserializeOwned` becomes one by an impl whose `read_item` calls
/// `deserialize_owned`. No contract then states what it reads.
pub trait ReadItem: Sized + Drop {
    // Whether it is known from which events a value is read.
    ghost known: { Type 0 } = { ⊥ };

    // The events from which a value is read, if they are known.
    ghost events: { Self → List Event } = { λ _. [] };

    /// Reads the next value.
    ///
    /// # Errors
    /// Fails with the format's error, also if an allocation fails.
    fn read_item<F: Format>(
        alloc: Global,
        from: &mut Deserializer<'_, '_, F>,
    ) -> Result<Self, F::Error>
        ensures whole { IfOk result (λ value.
            known → ReadsEvents F.gives F.stays from.old (events value) from.new) };
}

impl ReadItem for i8 {
    ghost known = { Unit };

    ghost events = { λ v. signed v ∷ [] };

    fn read_item<F: Format>(
        alloc: Global,
        from: &mut Deserializer<'_, '_, F>,
    ) -> Result<i8, F::Error> {
        DeserializeOwned::deserialize_owned(alloc, from)
    }
}

impl ReadItem for i16 {
    ghost known = { Unit };

    ghost events = { λ v. signed v ∷ [] };

    fn read_item<F: Format>(
        alloc: Global,
        from: &mut Deserializer<'_, '_, F>,
    ) -> Result<i16, F::Error> {
        DeserializeOwned::deserialize_owned(alloc, from)
    }
}

impl ReadItem for i32 {
    ghost known = { Unit };

    ghost events = { λ v. signed v ∷ [] };

    fn read_item<F: Format>(
        alloc: Global,
        from: &mut Deserializer<'_, '_, F>,
    ) -> Result<i32, F::Error> {
        DeserializeOwned::deserialize_owned(alloc, from)
    }
}

impl ReadItem for i64 {
    ghost known = { Unit };

    ghost events = { λ v. signed v ∷ [] };

    fn read_item<F: Format>(
        alloc: Global,
        from: &mut Deserializer<'_, '_, F>,
    ) -> Result<i64, F::Error> {
        DeserializeOwned::deserialize_owned(alloc, from)
    }
}

impl ReadItem for i128 {
    ghost known = { Unit };

    ghost events = { λ v. signed v ∷ [] };

    fn read_item<F: Format>(
        alloc: Global,
        from: &mut Deserializer<'_, '_, F>,
    ) -> Result<i128, F::Error> {
        DeserializeOwned::deserialize_owned(alloc, from)
    }
}

impl ReadItem for isize {
    ghost known = { Unit };

    ghost events = { λ v. signed v ∷ [] };

    fn read_item<F: Format>(
        alloc: Global,
        from: &mut Deserializer<'_, '_, F>,
    ) -> Result<isize, F::Error> {
        DeserializeOwned::deserialize_owned(alloc, from)
    }
}

impl ReadItem for u8 {
    ghost known = { Unit };

    ghost events = { λ v. unsigned v ∷ [] };

    fn read_item<F: Format>(
        alloc: Global,
        from: &mut Deserializer<'_, '_, F>,
    ) -> Result<u8, F::Error> {
        DeserializeOwned::deserialize_owned(alloc, from)
    }
}

impl ReadItem for u16 {
    ghost known = { Unit };

    ghost events = { λ v. unsigned v ∷ [] };

    fn read_item<F: Format>(
        alloc: Global,
        from: &mut Deserializer<'_, '_, F>,
    ) -> Result<u16, F::Error> {
        DeserializeOwned::deserialize_owned(alloc, from)
    }
}

impl ReadItem for u32 {
    ghost known = { Unit };

    ghost events = { λ v. unsigned v ∷ [] };

    fn read_item<F: Format>(
        alloc: Global,
        from: &mut Deserializer<'_, '_, F>,
    ) -> Result<u32, F::Error> {
        DeserializeOwned::deserialize_owned(alloc, from)
    }
}

impl ReadItem for u64 {
    ghost known = { Unit };

    ghost events = { λ v. unsigned v ∷ [] };

    fn read_item<F: Format>(
        alloc: Global,
        from: &mut Deserializer<'_, '_, F>,
    ) -> Result<u64, F::Error> {
        DeserializeOwned::deserialize_owned(alloc, from)
    }
}

impl ReadItem for u128 {
    ghost known = { Unit };

    ghost events = { λ v. unsigned v ∷ [] };

    fn read_item<F: Format>(
        alloc: Global,
        from: &mut Deserializer<'_, '_, F>,
    ) -> Result<u128, F::Error> {
        DeserializeOwned::deserialize_owned(alloc, from)
    }
}

impl ReadItem for usize {
    ghost known = { Unit };

    ghost events = { λ v. unsigned v ∷ [] };

    fn read_item<F: Format>(
        alloc: Global,
        from: &mut Deserializer<'_, '_, F>,
    ) -> Result<usize, F::Error> {
        DeserializeOwned::deserialize_owned(alloc, from)
    }
}

impl ReadItem for f32 {
    ghost known = { Unit };

    ghost events = { λ v. single v ∷ [] };

    fn read_item<F: Format>(
        alloc: Global,
        from: &mut Deserializer<'_, '_, F>,
    ) -> Result<f32, F::Error> {
        DeserializeOwned::deserialize_owned(alloc, from)
    }
}

impl ReadItem for f64 {
    ghost known = { Unit };

    ghost events = { λ v. double v ∷ [] };

    fn read_item<F: Format>(
        alloc: Global,
        from: &mut Deserializer<'_, '_, F>,
    ) -> Result<f64, F::Error> {
        DeserializeOwned::deserialize_owned(alloc, from)
    }
}

impl ReadItem for bool {
    ghost known = { Unit };

    ghost events = { λ v. boolean v ∷ [] };

    fn read_item<F: Format>(
        alloc: Global,
        from: &mut Deserializer<'_, '_, F>,
    ) -> Result<bool, F::Error> {
        DeserializeOwned::deserialize_owned(alloc, from)
    }
}

impl ReadItem for char {
    ghost known = { Unit };

    ghost events = { λ v. character v ∷ [] };

    fn read_item<F: Format>(
        alloc: Global,
        from: &mut Deserializer<'_, '_, F>,
    ) -> Result<char, F::Error> {
        DeserializeOwned::deserialize_owned(alloc, from)
    }
}

impl ReadItem for String {
    ghost known = { Unit };

    ghost events = { λ v. text (string_bytes v) ∷ [] };

    fn read_item<F: Format>(
        alloc: Global,
        from: &mut Deserializer<'_, '_, F>,
    ) -> Result<String, F::Error> {
        DeserializeOwned::deserialize_owned(alloc, from)
    }
}

impl<T: ReadItem> ReadItem for Own<T> {
    ghost known = { T.known };

    ghost events = { λ v. T.events v.0 };

    fn read_item<F: Format>(
        alloc: Global,
        from: &mut Deserializer<'_, '_, F>,
    ) -> Result<Own<T>, F::Error> {
        Ok(Own(T::read_item(alloc, from)?))
    }
}

impl<T: ReadItem> ReadItem for Vec<T> {
    ghost known = { T.known };

    ghost events = { λ v. seq_events T.events v.items };

    fn read_item<F: Format>(
        alloc: Global,
        from: &mut Deserializer<'_, '_, F>,
    ) -> Result<Vec<T>, F::Error> {
        from.begin_seq()?;
        let mut items = Vec::new(alloc);
        for _ in 0..u64::MAX {
            if !from.next_item()? {
                return Ok(items);
            }
            let item = T::read_item(alloc, from)?;
            if items.push(item).is_err() {
                return Err(from.no_memory());
            }
        }
        Err(from.wrong_len())
    }
}

// Reads the entries of a map, in order.
pub(crate) fn read_entries<K: ReadItem, V: ReadItem, F: Format>(
    alloc: Global,
    from: &mut Deserializer<'_, '_, F>,
) -> Result<Vec<(K, V)>, F::Error>
    ensures whole { IfOk result (λ entries. K.known → V.known → ReadsEvents F.gives F.stays
        from.old (map_events K.events V.events entries.items) from.new) }
{
    from.begin_map()?;
    let mut entries = Vec::new(alloc);
    for _ in 0..u64::MAX {
        if !from.next_entry()? {
            return Ok(entries);
        }
        let key = K::read_item(alloc, from)?;
        let value = V::read_item(alloc, from)?;
        if entries.push((key, value)).is_err() {
            return Err(from.no_memory());
        }
    }
    Err(from.wrong_len())
}
