//! Entries that serde reads, for a map.
ghost use Rattle.std.specs.Prelude.{◌≡◌, ◌≢◌, ◌≤◌, ◌-◌, ℕ, Err, None, IfErr, IfOk, OnErr, OnOk, length};
ghost use Rattle.elsa_maps.specs.FirstWins.{value_at};
ghost use Rattle.elsa_serde.specs.declared.fault.ReadFault.TheVariants.{Duplicate, TooMany};
ghost use Rattle.elsa_serde.specs.Loaded.{AddsPair, PairsStop};
ghost use Rattle.elsa_serde.specs.Read.{InTurn, ReadsEvents, map_events};

use crate::ReadFault;
use crate::read_item::{ReadItem, read_entries};
use elsa_maps::map::MapForm;
use elsa_vec::stable::StableDeref;
use serde::{Deserialize, DeserializeOwned, Deserializer, Format};
use std::alloc::Global;

/// The entries of a map that serde reads, in order, including duplicates. [`Entries::insert_into`]
/// inserts them into a map.
#[derive(Debug, Drop, PartialEq)]
pub struct Entries<K, V>(pub Vec<(K, V)>);

impl<K: Drop, V: Drop> Entries<K, V> {
    /// Inserts the entries, in order, each with a new key: into a `FrozenMap`, a `FrozenBTreeMap`,
    /// or a `FrozenIndexMap`, which keeps their order.
    ///
    /// # Errors
    /// Fails with [`ReadFault::Duplicate`] if the map already has a key, from before the call or
    /// from an earlier entry; the number is the index of the entry here. Fails with
    /// [`ReadFault::Memory`] if an allocation fails. The map then keeps the entries before that
    /// one, and the others are dropped.
    ///
    /// # Cost
    /// For each entry, that of the map's `insert_new`.
    pub fn insert_into<R, M: MapForm<R, Key = K, Value = V>>(
        self,
        map: &mut M,
    ) -> Result<(), ReadFault>
    where
        V: StableDeref<R>,
        ensures inserted { OnOk result (InTurn (AddsPair M.same V.target V.shown M.extends)
            (M.entries map.old) self.0.items (M.entries map.new)) }
        ensures refused { IfErr result (λ fault. PairsStop M.same V.target V.shown M.extends
            (M.entries map.old) self.0.items fault (M.entries map.new)) }
    {
        let before = map.len();
        for (key, value) in self.0 {
            insert_next(before, key, value, map)?;
        }
        Ok(())
    }
}

// Inserts an entry whose key must be new. `before` is the number of entries before the first
// insertion.
fn insert_next<R, M: MapForm<R>>(
    before: usize,
    key: M::Key,
    value: M::Value,
    map: &mut M,
) -> Result<(), ReadFault>
    requires { before ≤ length (M.entries map.old) }
    ensures added { OnOk result (AddsPair M.same M.Value.target M.Value.shown M.extends
        (M.entries map.old) (key, value) (M.entries map.new)) }
    ensures refused { OnErr result (M.entries map.new ≡ M.entries map.old) }
    ensures duplicate { (index : ℕ) → result ≡ Err (Duplicate index) →
        (index ≡ length (M.entries map.old) - before)
        × (value_at M.same (M.entries map.old) key ≢ None) }
    ensures fits { result ≢ Err TooMany }
{
    let index = map.len() - before;
    let (_, is_new) = map.insert_new(key, value)?;
    if is_new {
        Ok(())
    } else {
        Err(ReadFault::Duplicate(index))
    }
}

impl<K: ReadItem, V: ReadItem> DeserializeOwned for Entries<K, V> {
    fn deserialize_owned<F: Format>(
        alloc: Global,
        from: &mut Deserializer<'_, '_, F>,
    ) -> Result<Entries<K, V>, F::Error>
        ensures whole { IfOk result (λ read. K.known → V.known → ReadsEvents F.gives F.stays
            from.old (map_events K.events V.events read.0.items) from.new) }
    {
        Ok(Entries(read_entries(alloc, from)?))
    }
}

impl<'de, K: ReadItem, V: ReadItem> Deserialize<'de> for Entries<K, V> {
    fn deserialize<F: Format>(
        alloc: Global,
        from: &mut Deserializer<'de, '_, F>,
    ) -> Result<Entries<K, V>, F::Error>
        ensures whole { IfOk result (λ read. K.known → V.known → ReadsEvents F.gives F.stays
            from.old (map_events K.events V.events read.0.items) from.new) }
    {
        DeserializeOwned::deserialize_owned(alloc, from)
    }
}
