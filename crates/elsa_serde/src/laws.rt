//! The law of a saved file: a collection that is written, read and put into an empty collection
//! comes back.
//!
//! Each law is the contract of a function that writes with [`Stored`], reads, and inserts. It holds
//! for any serializer that keeps what it was sent and any format that gives what was sent, and for
//! items that [`ReadItem`] describes.
ghost use Rattle.std.specs.Prelude.{◌≡◌, [], IsTrue, List, map};
ghost use Rattle.serde.specs.Event.{Log, WritesMap};
ghost use Rattle.elsa_serde.specs.Read.{map_events, seq_events, text_events};
ghost use Rattle.elsa_serde.specs.Back.{AddsLast, GivesWhatWasSent, ItemComesBack, KeyComesBack, ShowsSame, ShowsSameInOrder};

use crate::{Entries, Items, Names, ReadItem, Stored};
use elsa_index::index_set::FrozenIndexSetIn;
use elsa_index::look_up::LookUp;
use elsa_interner::interner::Interner;
use elsa_maps::map::MapForm;
use elsa_vec::stable::StableDeref;
use elsa_vec::vec::FrozenVecIn;
use serde::{Described, DeserializeOwned, Deserializer, Format, Serialize, Serializer};
use std::alloc::{Allocator, Global};
use std::hash::{BuildHasher, Hash};

/// Writes a vector, reads it, and pushes it into an empty vector. Returns whether each step
/// succeeded: the two vectors then show the same items in the same order.
pub fn vec_comes_back<R: Copy, T, A: Allocator + Copy, S: Serializer, F: Format>(
    vec: &FrozenVecIn<R, T, A>,
    out: &mut S,
    alloc: Global,
    from: &mut Deserializer<'_, '_, F>,
    read: &mut FrozenVecIn<R, T, A>,
) -> bool
where
    T: StableDeref<R> + ReadItem,
    T::Borrow: Serialize,
    requires known { T.known }
    requires item { ItemComesBack T.events T.Borrow.writes T.target T.shown }
    requires empty { read.old ≡ [] }
    ensures same { IsTrue result → GivesWhatWasSent F.gives F.stays (seq_events T.events)
        (S.written out.old) (S.written out.new) from.old from.new
        → map T.shown read.new ≡ map T.shown vec.now }
{
    let Ok(()) = Stored(vec).serialize(out) else {
        return false;
    };
    let Ok(items) = Items::<T>::deserialize_owned(alloc, from) else {
        return false;
    };
    items.push_into(read).is_ok()
}

/// Writes a set, reads it, and inserts its values into an empty set. Returns whether each step
/// succeeded: the two sets then show the same values in the same order.
pub fn set_comes_back<R: Copy, T, H: BuildHasher, A: Allocator + Copy, S: Serializer, F: Format>(
    set: &FrozenIndexSetIn<R, T, H, A>,
    out: &mut S,
    alloc: Global,
    from: &mut Deserializer<'_, '_, F>,
    read: &mut FrozenIndexSetIn<R, T, H, A>,
) -> bool
where
    T: StableDeref<R> + LookUp<<T as StableDeref<R>>::Borrow> + ReadItem,
    <T as StableDeref<R>>::Borrow: Serialize + Eq + Hash,
    requires known { T.known }
    requires item { ItemComesBack T.events T.Borrow.writes T.target T.shown }
    requires empty { read.old ≡ [] }
    ensures same { IsTrue result → GivesWhatWasSent F.gives F.stays (seq_events T.events)
        (S.written out.old) (S.written out.new) from.old from.new
        → map T.shown read.new ≡ map T.shown set.now }
{
    let Ok(()) = Stored(set).serialize(out) else {
        return false;
    };
    let Ok(items) = Items::<T>::deserialize_owned(alloc, from) else {
        return false;
    };
    items.insert_into(read).is_ok()
}

/// Writes an interner, reads its names, and puts them into an empty interner. Returns whether each
/// step succeeded: each number then has the same name in both.
pub fn names_come_back<H: BuildHasher, A: Allocator + Copy, P: Allocator, S: Serializer, F: Format>(
    names: &Interner<'_, H, A, P>,
    out: &mut S,
    alloc: Global,
    from: &mut Deserializer<'_, '_, F>,
    read: &mut Interner<'_, H, A, P>,
) -> bool
    requires empty { read.old ≡ [] }
    ensures same { IsTrue result → GivesWhatWasSent F.gives F.stays (seq_events text_events)
        (S.written out.old) (S.written out.new) from.old from.new → read.new ≡ names.now }
{
    let Ok(()) = Stored(names).serialize(out) else {
        return false;
    };
    let Ok(texts) = Names::deserialize_owned(alloc, from) else {
        return false;
    };
    texts.put_into(read).is_ok()
}

/// Reads the entries of a map that was written, and inserts them into an empty map. Returns whether
/// each step succeeded: the two maps then have the same number of entries and show the same value
/// at each key. A map in which new entries go last has them in the same order.
///
/// What [`Stored`] writes of each map is `WritesMap` of its entries.
pub fn map_comes_back<R, M: MapForm<R>, F: Format>(
    map: &M,
    alloc: Global,
    from: &mut Deserializer<'_, '_, F>,
    read: &mut M,
) -> bool
where
    M::Key: Described + ReadItem,
    M::Value: ReadItem,
    <M::Value as StableDeref<R>>::Borrow: Described,
    // Keys and values come back one by one, and nothing was inserted before.
    requires known { M.Key.known × M.Value.known }
    requires keys { KeyComesBack M.Key.events M.Key.writes M.same }
    requires values { ItemComesBack M.Value.events M.Value.Borrow.writes M.Value.target
        M.Value.shown }
    requires empty { M.entries read.old ≡ [] }

    // The map that was read shows the same, in the same order if new entries go last.
    ensures same { IsTrue result → (old new : Log)
        → WritesMap M.Key.writes M.Value.Borrow.writes (M.entries map.now) old new
        → GivesWhatWasSent F.gives F.stays (map_events M.Key.events M.Value.events) old new
        from.old from.new
        → ShowsSame M.same M.Value.shown (M.entries map.now) (M.entries read.new) }
    ensures in_order { IsTrue result → (old new : Log) → AddsLast M.extends
        → WritesMap M.Key.writes M.Value.Borrow.writes (M.entries map.now) old new
        → GivesWhatWasSent F.gives F.stays (map_events M.Key.events M.Value.events) old new
        from.old from.new
        → ShowsSameInOrder M.same M.Value.shown (M.entries map.now) (M.entries read.new) }
{
    // The keys of the map differ, and their equality is an equivalence.
    let _count = map.len();
    let Ok(entries) = Entries::<M::Key, M::Value>::deserialize_owned(alloc, from) else {
        return false;
    };
    entries.insert_into(read).is_ok()
}
