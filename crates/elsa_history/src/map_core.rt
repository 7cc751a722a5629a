//! Maps as sequential objects of a recorder: their calls as commands and replies.

use crate::Core;
use elsa_locks::map::{MapState, TreeState};
use std::alloc::{AllocError, Allocator};
use std::hash::{BuildHasherDefault, FoldHasher, Hash};

/// A call on a map.
#[derive(Clone, Copy, Debug, PartialEq, Eq)]
pub enum MapCommand<K, V> {
    /// Inserts the value unless the map has the key.
    Insert(K, V),
    /// Inserts the value unless the map has the key; the reply also has whether the key was new.
    InsertNew(K, V),
    /// Looks the key up.
    Get(K),
    /// Reads the number of entries.
    Len,
}

/// A reply of a map.
#[derive(Clone, Copy, Debug, PartialEq, Eq)]
pub enum MapReply<V> {
    /// The reply to `Insert`: the value that the key then has.
    Value(V),
    /// The reply to `InsertNew`: the value that the key then has, and whether the key was new.
    ValueNew(V, bool),
    /// The reply to `Get`: the value, if the map has the key.
    Found(Option<V>),
    /// The reply to `Len`: the number of entries.
    Count(usize),
}

impl<K: Copy + Eq + Hash, V: Copy + Eq, A: Allocator + Copy> Core
    for MapState<K, V, BuildHasherDefault<FoldHasher>, A> {
    ghost use Rattle.std.specs.Prelude.{None, Option};
    ghost use Rattle.elsa_tables.specs.FirstWins.{value_at};
    ghost use Rattle.elsa_history.specs.MapStep.{MapStep};

    type Command = MapCommand<K, V>;

    type Reply = MapReply<V>;

    ghost State = { K → Option V };

    ghost state = { λ s. value_at K.eq s };

    ghost opening = { λ _. None };

    ghost steps = { MapStep K.eq };

    #[tactic(auto, using(crate::proofs::Counts::has_count))]
    fn apply(&mut self, command: MapCommand<K, V>) -> Result<MapReply<V>, AllocError> {
        match command {
            MapCommand::Insert(key, value) => {
                let there = self.get_copy_or_insert(key, value)?;
                Ok(MapReply::Value(there))
            }
            MapCommand::InsertNew(key, value) => {
                let (there, is_new) = self.insert_new(key, value)?;
                Ok(MapReply::ValueNew(*there, is_new))
            }
            MapCommand::Get(key) => Ok(MapReply::Found(self.get_copy(&key))),
            MapCommand::Len => Ok(MapReply::Count(self.len())),
        }
    }
}

impl<K: Copy + Ord, V: Copy + Eq, A: Allocator + Copy> Core for TreeState<K, V, A> {
    ghost use Rattle.std.specs.Prelude.{None, Option};
    ghost use Rattle.std.specs.Ordering.{eq_by_cmp};
    ghost use Rattle.elsa_tables.specs.FirstWins.{value_at};
    ghost use Rattle.elsa_history.specs.MapStep.{MapStep};

    type Command = MapCommand<K, V>;

    type Reply = MapReply<V>;

    ghost State = { K → Option V };

    ghost state = { λ s. value_at (eq_by_cmp K.cmp) s };

    ghost opening = { λ _. None };

    ghost steps = { MapStep (eq_by_cmp K.cmp) };

    #[tactic(auto, using(crate::proofs::Counts::has_count_sorted))]
    fn apply(&mut self, command: MapCommand<K, V>) -> Result<MapReply<V>, AllocError> {
        match command {
            MapCommand::Insert(key, value) => {
                let found = self.get_copy_or_insert(key, value)?;
                Ok(MapReply::Value(found))
            }
            MapCommand::InsertNew(key, value) => {
                let (there, is_new) = self.insert_new(key, value)?;
                Ok(MapReply::ValueNew(*there, is_new))
            }
            MapCommand::Get(key) => Ok(MapReply::Found(self.get_copy(&key))),
            MapCommand::Len => Ok(MapReply::Count(self.len())),
        }
    }
}
