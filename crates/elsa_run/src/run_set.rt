//! Replays of commands on an index set.
//!
//! For every list of commands, the replies are those of a model: the content is that at the start
//! of the epoch, followed by each other value once, in the order of the first insertions.
ghost use Rattle.std.specs.Prelude.{◌≡◌, IfOk, OnErr, length};
ghost use Rattle.elsa_run.specs.SetRun.{SetRunsTo};

use elsa_index::index_set::FrozenIndexSetIn;
use elsa_index::look_up::LookUp;
use elsa_tables::{Call, run};
use elsa_vec::stable::StableDeref;
use indexmap::IndexSet;
use std::alloc::{AllocError, Allocator};
use std::hash::{BuildHasher, Hash};

/// A call on an index set of `B`, as a command. `M` is the type of the inner set.
#[derive(Drop)]
pub enum SetCommand<T, B, M> {
    /// Calls `insert`. The reply is `Item` or `NoMemory`.
    Insert(T),
    /// Calls `insert_full`. The reply is `Full` or `NoMemory`.
    InsertFull(T),
    /// Calls `insert_new`. The reply is `New` or `NoMemory`.
    InsertNew(T),
    /// Calls `insert_full_new`. The reply is `FullNew` or `NoMemory`.
    InsertFullNew(T),
    /// Calls `get`. The reply is `Found`.
    Get(B),
    /// Calls `get_index_of`. The reply is `Place`.
    IndexOf(B),
    /// Calls `get_index`. The reply is `Found`.
    At(usize),
    /// Replaces the content, as a write to the result of `as_mut` does. The reply is `Done`, and a
    /// new epoch begins.
    Rebase(M),
}

/// The reply to a command for an index set.
#[derive(Clone, Copy, Debug, PartialEq, Eq)]
pub enum SetReply<B> {
    /// The stored value.
    Item(B),
    /// The value's index, and the stored value.
    Full(usize, B),
    /// The stored value, and whether it is new.
    New(B, bool),
    /// The value's index, the stored value, and whether it is new.
    FullNew(usize, B, bool),
    /// The stored value, if the set has it.
    Found(Option<B>),
    /// The index of the value, if the set has it.
    Place(Option<usize>),
    /// The content was replaced.
    Done,
    /// An allocation failed. The value is absent, and the set is unchanged.
    NoMemory,
}

impl<
    R: Copy,
    T: StableDeref<R> + LookUp<<T as StableDeref<R>>::Borrow>,
    S: BuildHasher + Drop,
    A: Allocator + Copy,
> Call<FrozenIndexSetIn<R, T, S, A>, SetReply<T::Borrow>, ()>
    for SetCommand<T, T::Borrow, IndexSet<T::Borrow, S, A>>
where
    <T as StableDeref<R>>::Borrow: Eq + Hash + LookUp<<T as StableDeref<R>>::Borrow>,
{
    ghost use Rattle.std.specs.Prelude.{[], List};
    ghost use Rattle.elsa_run.specs.SetRun.{Step};
    ghost use Rattle.elsa_run.specs.declared.run_set.SetReply.{SetReply};

    ghost State = { List T.Borrow };

    ghost state = { λ set. set };

    ghost opening = { [] };

    ghost steps = { Step T.Borrow.eq T.target T.shown T.finds T.Borrow.finds (λ m. m.keys) };

    ghost refuses = { λ bs c.
        Step T.Borrow.eq T.target T.shown T.finds T.Borrow.finds (λ m. m.keys) bs c
        SetReply.NoMemory bs };

    fn apply(
        self,
        set: &mut FrozenIndexSetIn<R, T, S, A>,
    ) -> Result<SetReply<T::Borrow>, AllocError> {
        match self {
            SetCommand::Insert(value) => Ok(SetReply::Item(set.insert(value)?)),
            SetCommand::InsertFull(value) => {
                let (index, item) = set.insert_full(value)?;
                Ok(SetReply::Full(index, item))
            }
            SetCommand::InsertNew(value) => {
                let (item, is_new) = set.insert_new(value)?;
                Ok(SetReply::New(item, is_new))
            }
            SetCommand::InsertFullNew(value) => {
                let (index, item, is_new) = set.insert_full_new(value)?;
                Ok(SetReply::FullNew(index, item, is_new))
            }
            SetCommand::Get(value) => Ok(SetReply::Found(set.get(&value))),
            SetCommand::IndexOf(value) => Ok(SetReply::Place(set.get_index_of(&value))),
            SetCommand::At(index) => Ok(SetReply::Found(set.get_index(index))),
            SetCommand::Rebase(base) => {
                set.rebase(base);
                Ok(SetReply::Done)
            }
        }
    }
}

/// Makes the calls in order and returns one reply for each command, at the command's index.
///
/// If the allocation of a call fails, its reply is `NoMemory`, and the run continues.
///
/// # Errors
/// Fails if the memory for the replies can't be allocated. No call is then made.
///
/// # Allocates
/// The list of the replies, with the allocator of the commands, before the first call.
pub fn run_set<
    R: Copy,
    T: StableDeref<R> + LookUp<<T as StableDeref<R>>::Borrow>,
    S: BuildHasher + Drop,
    A: Allocator + Copy,
>(
    set: &mut FrozenIndexSetIn<R, T, S, A>,
    commands: Vec<SetCommand<T, T::Borrow, IndexSet<T::Borrow, S, A>>, A>,
) -> Result<Vec<SetReply<T::Borrow>, A>, AllocError>
where
    <T as StableDeref<R>>::Borrow: Eq + Hash + LookUp<<T as StableDeref<R>>::Borrow>,
    ensures replayed { IfOk result (λ replies.
        SetRunsTo T.Borrow.eq T.target T.shown T.finds T.Borrow.finds (λ m. m.keys) set.old
        commands.items replies.items set.new) }
    ensures one_each { IfOk result (λ replies. length replies.items ≡ length commands.items) }
    ensures none_made { OnErr result (set.new ≡ set.old) }
{
    let alloc = *commands.allocator();
    run(alloc, set, commands, SetReply::NoMemory)
}
