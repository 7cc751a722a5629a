//! Names that serde reads, for an interner.
ghost use Rattle.std.specs.Prelude.{◌≡◌, ◌≢◌, ◌≤◌, ◌-◌, ◌++◌, ℕ, Err, None, IfErr, IfOk, OnErr, OnOk, length, map, position, string_bytes};
ghost use Rattle.std.specs.Str.{bytes_eq};
ghost use Rattle.elsa_interner.specs.Names.{IsFull};
ghost use Rattle.elsa_serde.specs.declared.fault.ReadFault.TheVariants.{Duplicate, TooMany};
ghost use Rattle.elsa_serde.specs.Read.{ReadsEvents, seq_events, text_events};
ghost use Rattle.elsa_serde.specs.Loaded.{AddsName, NamesStop};

use crate::ReadFault;
use crate::read_item::ReadItem;
use elsa_interner::interner::Interner;
use serde::{Deserialize, DeserializeOwned, Deserializer, Format};
use std::alloc::{Allocator, Global};
use std::hash::BuildHasher;

/// A sequence of names that serde reads, in the order of their numbers. [`Names::put_into`] puts
/// them into an interner.
///
/// Contracts see the field as the list of the texts.
#[derive(Debug, Drop, PartialEq)]
pub struct Names(pub Vec<String>);

impl Names {
    /// Puts each name into the interner, in order. If the interner had `n` names, the name at the
    /// index `i` here gets the number `n + i`.
    ///
    /// # Errors
    /// Fails with [`ReadFault::Duplicate`] if the interner already has a name, from before the call
    /// or from an earlier index; the number is the index of the name here. Fails with
    /// [`ReadFault::TooMany`] if the interner has 2^32 - 1 names, and with [`ReadFault::Memory`] if
    /// an allocation fails. The interner then keeps the names before that one.
    ///
    /// # Cost
    /// One hash and one search for each name.
    pub fn put_into<S: BuildHasher, A: Allocator + Copy, P: Allocator>(
        &self,
        names: &mut Interner<'_, S, A, P>,
    ) -> Result<(), ReadFault>
        ensures inserted { OnOk result
            (names.new ≡ names.old ++ map string_bytes self.now.0.items) }
        ensures refused { IfErr result (λ fault.
            NamesStop names.old (map string_bytes self.now.0.items) fault names.new) }
    {
        let before = names.len();
        for text in &self.0 {
            put_next(before, text.as_str(), names)?;
        }
        Ok(())
    }
}

// Puts a name that must be new. `before` is the number of names before the first one.
fn put_next<S: BuildHasher, A: Allocator + Copy, P: Allocator>(
    before: usize,
    text: &str,
    names: &mut Interner<'_, S, A, P>,
) -> Result<(), ReadFault>
    requires { before ≤ length names.old }
    ensures added { OnOk result (AddsName names.old text.now names.new) }
    ensures refused { OnErr result (names.new ≡ names.old) }
    ensures duplicate { (index : ℕ) → result ≡ Err (Duplicate index) →
        (index ≡ length names.old - before)
        × (position (bytes_eq text.now) names.old ≢ None) }
    ensures too_many { result ≡ Err TooMany → IsFull names.old }
{
    let next = names.len();
    let Ok(number) = names.put(text) else {
        return Err(if names.is_full() {
            ReadFault::TooMany
        } else {
            ReadFault::Memory
        });
    };
    if number == next {
        Ok(())
    } else {
        Err(ReadFault::Duplicate(next - before))
    }
}

impl DeserializeOwned for Names {
    fn deserialize_owned<F: Format>(
        alloc: Global,
        from: &mut Deserializer<'_, '_, F>,
    ) -> Result<Names, F::Error>
        ensures whole { IfOk result (λ names. ReadsEvents F.gives F.stays from.old
            (seq_events text_events (map string_bytes names.0.items)) from.new) }
    {
        Ok(Names(ReadItem::read_item(alloc, from)?))
    }
}

impl<'de> Deserialize<'de> for Names {
    fn deserialize<F: Format>(
        alloc: Global,
        from: &mut Deserializer<'de, '_, F>,
    ) -> Result<Names, F::Error>
        ensures whole { IfOk result (λ names. ReadsEvents F.gives F.stays from.old
            (seq_events text_events (map string_bytes names.0.items)) from.new) }
    {
        DeserializeOwned::deserialize_owned(alloc, from)
    }
}
