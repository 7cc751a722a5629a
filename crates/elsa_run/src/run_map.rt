//! Replays of commands on a map, hashed or ordered.
//!
//! For every list of commands, the replies are those of a model: a key has its value at the start
//! of the epoch, or else the value of its first accepted insertion in the epoch.
ghost use Rattle.std.specs.Prelude.{◌≡◌, IfOk, OnErr, length};
ghost use Rattle.elsa_run.specs.MapRun.{MapRunsTo};

use elsa_maps::map::MapForm;
use elsa_tables::{Call, for_its_clause, run};
use elsa_vec::stable::StableDeref;
use std::alloc::{AllocError, Allocator};

/// A call on a map, as a command. `M` is the type of the inner map.
#[derive(Drop)]
pub enum MapCommand<K, V, M> {
    /// Calls `insert`. The reply is `Item` or `NoMemory`.
    Insert(K, V),
    /// Calls `insert_new`. The reply is `New` or `NoMemory`.
    InsertNew(K, V),
    /// Calls `get`. The reply is `Found`.
    Get(K),
    /// Calls `len`. The reply is `Count`.
    Len,
    /// Calls `is_empty`. The reply is `Flag`.
    IsEmpty,
    /// Replaces the content, as a write to the result of `as_mut` does. The reply is `Done`, and a
    /// new epoch begins.
    Rebase(M),
}

/// The reply to a command for a map.
#[derive(Clone, Copy, Debug, PartialEq, Eq)]
pub enum MapReply<B> {
    /// The value that the key now has.
    Item(B),
    /// The value that the key now has, and whether the key was new.
    New(B, bool),
    /// The value of the key, if the map has the key.
    Found(Option<B>),
    /// The number of entries.
    Count(usize),
    /// Whether the map has no entry.
    Flag(bool),
    /// The content was replaced.
    Done,
    /// An allocation failed. The key is absent, and the map is unchanged.
    NoMemory,
}

impl<R, M: MapForm<R>> Call<M, MapReply<<M::Value as StableDeref<R>>::Borrow>, R>
    for MapCommand<M::Key, M::Value, M::Base> {
    ghost use Rattle.std.specs.Prelude.{[], List};
    ghost use Rattle.elsa_run.specs.MapRun.{Step};
    ghost use Rattle.elsa_run.specs.declared.run_map.MapReply.{MapReply};

    ghost State = { List (M.Key × M.Value.Borrow) };

    ghost state = { M.entries };

    ghost opening = { [] };

    ghost steps = { Step M.same M.Value.target M.Value.shown M.base_entries };

    ghost refuses = { λ es c.
        Step M.same M.Value.target M.Value.shown M.base_entries es c MapReply.NoMemory es };

    fn apply(
        self,
        map: &mut M,
    ) -> Result<MapReply<<M::Value as StableDeref<R>>::Borrow>, AllocError> {
        match self {
            MapCommand::Insert(key, value) => Ok(MapReply::Item(map.insert(key, value)?)),
            MapCommand::InsertNew(key, value) => {
                let (item, is_new) = map.insert_new(key, value)?;
                Ok(MapReply::New(item, is_new))
            }
            MapCommand::Get(key) => Ok(MapReply::Found(map.get(&key))),
            MapCommand::Len => Ok(MapReply::Count(map.len())),
            MapCommand::IsEmpty => Ok(MapReply::Flag(map.is_empty())),
            MapCommand::Rebase(base) => {
                map.rebase(base);
                Ok(MapReply::Done)
            }
        }
    }
}

/// Makes the calls in order and returns one reply for each command, at the command's index.
///
/// If the allocation of a call fails, its reply is `NoMemory`, and the run continues.
///
/// # Errors
/// Fails if the memory for the replies can't be allocated. No call is then made.
///
/// # Allocates
/// The list of the replies, with the allocator of the commands, before the first call.
pub fn run_map<R, M: MapForm<R>, A: Allocator + Copy>(
    map: &mut M,
    commands: Vec<MapCommand<M::Key, M::Value, M::Base>, A>,
) -> Result<Vec<MapReply<<M::Value as StableDeref<R>>::Borrow>, A>, AllocError>
    ensures replayed { IfOk result (λ replies.
        MapRunsTo M.same M.Value.target M.Value.shown M.base_entries (M.entries map.old)
        commands.items replies.items (M.entries map.new)) }
    ensures one_each { IfOk result (λ replies. length replies.items ≡ length commands.items) }
    ensures refused { OnErr result (M.entries map.new ≡ M.entries map.old) }
{
    // The contract of `len` has the fact that the equality of the keys is an equivalence.
    for_its_clause(map.len());
    let alloc = *commands.allocator();
    run(alloc, map, commands, MapReply::NoMemory)
}
