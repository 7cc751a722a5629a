//! Replays of commands on an index map.
//!
//! For every list of commands, the replies are those of a model: the content is that at the start
//! of the epoch, followed by each other key with the value of its first accepted insertion.
ghost use Rattle.std.specs.Prelude.{◌≡◌, IfOk, OnErr, length};
ghost use Rattle.elsa_run.specs.IndexRun.{IndexRunsTo};

use elsa_maps::index_map::FrozenIndexMapIn;
use elsa_tables::{Call, run};
use elsa_vec::stable::StableDeref;
use indexmap::IndexMap;
use std::alloc::{AllocError, Allocator};
use std::hash::{BuildHasher, Hash};

/// A call on an index map, as a command. `M` is the type of the inner map.
#[derive(Drop)]
pub enum IndexCommand<K, V, M> {
    /// Calls `insert`. The reply is `Item` or `NoMemory`.
    Insert(K, V),
    /// Calls `insert_full`. The reply is `Full` or `NoMemory`.
    InsertFull(K, V),
    /// Calls `insert_new`. The reply is `New` or `NoMemory`.
    InsertNew(K, V),
    /// Calls `insert_full_new`. The reply is `FullNew` or `NoMemory`.
    InsertFullNew(K, V),
    /// Calls `get`. The reply is `Found`.
    Get(K),
    /// Calls `get_index_of`. The reply is `Place`.
    IndexOf(K),
    /// Calls `is_empty`. The reply is `Flag`.
    IsEmpty,
    /// Replaces the content, as a write to the result of `as_mut` does. The reply is `Done`, and a
    /// new epoch begins.
    Rebase(M),
}

/// The reply to a command for an index map.
#[derive(Clone, Copy, Debug, PartialEq, Eq)]
pub enum IndexReply<B> {
    /// The value that the key now has.
    Item(B),
    /// The key's index, and the value that it now has.
    Full(usize, B),
    /// The value that the key now has, and whether the key was new.
    New(B, bool),
    /// The key's index, the value that it now has, and whether the key was new.
    FullNew(usize, B, bool),
    /// The value of the key, if the map has the key.
    Found(Option<B>),
    /// The index of the key, if the map has the key.
    Place(Option<usize>),
    /// Whether the map has no entry.
    Flag(bool),
    /// The content was replaced.
    Done,
    /// An allocation failed. The key is absent, and the map is unchanged.
    NoMemory,
}

impl<R: Copy, K: Eq + Hash + Drop, V, S: BuildHasher + Drop, A: Allocator + Copy> Call<
    FrozenIndexMapIn<R, K, V, S, A>,
    IndexReply<V::Borrow>,
    (),
> for IndexCommand<K, V, IndexMap<K, V::Borrow, S, A>>
where
    V: StableDeref<R>,
{
    ghost use Rattle.std.specs.Prelude.{[], List};
    ghost use Rattle.elsa_run.specs.IndexRun.{Step};
    ghost use Rattle.elsa_run.specs.declared.run_index.IndexReply.{IndexReply};

    ghost State = { List (K × V.Borrow) };

    ghost state = { λ map. map };

    ghost opening = { [] };

    ghost steps = { Step K.eq V.target V.shown (λ m. m.entries) };

    ghost refuses = { λ es c.
        Step K.eq V.target V.shown (λ m. m.entries) es c IndexReply.NoMemory es };

    fn apply(
        self,
        map: &mut FrozenIndexMapIn<R, K, V, S, A>,
    ) -> Result<IndexReply<V::Borrow>, AllocError> {
        match self {
            IndexCommand::Insert(key, value) => Ok(IndexReply::Item(map.insert(key, value)?)),
            IndexCommand::InsertFull(key, value) => {
                let (index, item) = map.insert_full(key, value)?;
                Ok(IndexReply::Full(index, item))
            }
            IndexCommand::InsertNew(key, value) => {
                let (item, is_new) = map.insert_new(key, value)?;
                Ok(IndexReply::New(item, is_new))
            }
            IndexCommand::InsertFullNew(key, value) => {
                let (index, item, is_new) = map.insert_full_new(key, value)?;
                Ok(IndexReply::FullNew(index, item, is_new))
            }
            IndexCommand::Get(key) => Ok(IndexReply::Found(map.get(&key))),
            IndexCommand::IndexOf(key) => Ok(IndexReply::Place(map.get_index_of(&key))),
            IndexCommand::IsEmpty => Ok(IndexReply::Flag(map.is_empty())),
            IndexCommand::Rebase(base) => {
                map.rebase(base);
                Ok(IndexReply::Done)
            }
        }
    }
}

/// Makes the calls in order and returns one reply for each command, at the command's index.
///
/// If the allocation of a call fails, its reply is `NoMemory`, and the run continues.
///
/// # Errors
/// Fails if the memory for the replies can't be allocated. No call is then made.
///
/// # Allocates
/// The list of the replies, with the allocator of the commands, before the first call.
pub fn run_index<
    R: Copy,
    K: Eq + Hash + Drop,
    V: StableDeref<R>,
    S: BuildHasher + Drop,
    A: Allocator + Copy,
>(
    map: &mut FrozenIndexMapIn<R, K, V, S, A>,
    commands: Vec<IndexCommand<K, V, IndexMap<K, V::Borrow, S, A>>, A>,
) -> Result<Vec<IndexReply<V::Borrow>, A>, AllocError>
    ensures replayed { IfOk result (λ replies.
        IndexRunsTo K.eq V.target V.shown (λ m. m.entries) map.old commands.items replies.items
        map.new) }
    ensures one_each { IfOk result (λ replies. length replies.items ≡ length commands.items) }
    ensures none_made { OnErr result (map.new ≡ map.old) }
{
    let alloc = *commands.allocator();
    run(alloc, map, commands, IndexReply::NoMemory)
}
