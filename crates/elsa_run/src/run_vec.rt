//! Replays of commands on a vector.
//!
//! For every list of commands, the replies are those of a model: the content is that at the start
//! of the epoch, followed by the items of the accepted pushes.
ghost use Rattle.std.specs.Prelude.{◌≡◌, IfOk, OnErr, length, map};
ghost use Rattle.elsa_run.specs.VecRun.{VecRunsTo};

use elsa_tables::{Call, run};
use elsa_vec::stable::StableDeref;
use elsa_vec::vec::FrozenVecIn;
use std::alloc::{AllocError, Allocator};

/// A call on a vector, as a command. `M` is the type of the inner vector.
#[derive(Drop)]
pub enum VecCommand<T, M> {
    /// Calls `push`. The reply is `Done` or `NoMemory`.
    Push(T),
    /// Calls `push_get`. The reply is `Item` or `NoMemory`.
    PushGet(T),
    /// Calls `get`. The reply is `Found`.
    Get(usize),
    /// Calls `first`. The reply is `Found`.
    First,
    /// Calls `last`. The reply is `Found`.
    Last,
    /// Calls `len`. The reply is `Count`.
    Len,
    /// Calls `is_empty`. The reply is `Flag`.
    IsEmpty,
    /// Replaces the content, as a write to the result of `as_mut` does. The reply is `Done`, and a
    /// new epoch begins.
    Rebase(M),
}

/// The reply to a command for a vector.
#[derive(Clone, Copy, Debug, PartialEq, Eq)]
pub enum VecReply<B> {
    /// The item was appended, or the content was replaced.
    Done,
    /// The item was appended, and this is its borrow.
    Item(B),
    /// The item at the index, if there is one.
    Found(Option<B>),
    /// The number of items.
    Count(usize),
    /// Whether the vector has no item.
    Flag(bool),
    /// The allocation of a push failed. The vector is unchanged.
    NoMemory,
}

// The meaning of each call: `Answers` defines its possible replies, and `change` defines its
// effect.
impl<R: Copy, T: StableDeref<R>, A: Allocator + Copy> Call<
    FrozenVecIn<R, T, A>,
    VecReply<T::Borrow>,
    (),
> for VecCommand<T, Vec<T::Borrow, A>> {
    ghost use Rattle.std.specs.Prelude.{[], List, map};
    ghost use Rattle.elsa_run.specs.VecRun.{Step};
    ghost use Rattle.elsa_run.specs.declared.run_vec.VecReply.{VecReply};

    ghost State = { List T.Target };

    ghost state = { λ items. map T.shown items };

    ghost opening = { [] };

    ghost steps = { Step T.target T.shown (λ m. m.items) };

    ghost refuses = { λ xs c. Step T.target T.shown (λ m. m.items) xs c VecReply.NoMemory xs };

    fn apply(self, items: &mut FrozenVecIn<R, T, A>) -> Result<VecReply<T::Borrow>, AllocError> {
        match self {
            VecCommand::Push(item) => {
                items.push(item)?;
                Ok(VecReply::Done)
            }
            VecCommand::PushGet(item) => Ok(VecReply::Item(items.push_get(item)?)),
            VecCommand::Get(index) => Ok(VecReply::Found(items.get(index))),
            VecCommand::First => Ok(VecReply::Found(items.first())),
            VecCommand::Last => Ok(VecReply::Found(items.last())),
            VecCommand::Len => Ok(VecReply::Count(items.len())),
            VecCommand::IsEmpty => Ok(VecReply::Flag(items.is_empty())),
            VecCommand::Rebase(base) => {
                *items.as_mut() = base;
                Ok(VecReply::Done)
            }
        }
    }
}

/// Makes the calls in order and returns one reply for each command, at the command's index.
///
/// If the allocation of a push fails, its reply is `NoMemory`, and the run continues.
///
/// # Errors
/// Fails if the memory for the replies can't be allocated. No call is then made.
///
/// # Allocates
/// The list of the replies, with the allocator of the commands, before the first call.
pub fn run_vec<R: Copy, T: StableDeref<R>, A: Allocator + Copy>(
    items: &mut FrozenVecIn<R, T, A>,
    commands: Vec<VecCommand<T, Vec<T::Borrow, A>>, A>,
) -> Result<Vec<VecReply<T::Borrow>, A>, AllocError>
    ensures replayed { IfOk result (λ replies.
        VecRunsTo T.target T.shown (λ m. m.items) (map T.shown items.old) commands.items
        replies.items (map T.shown items.new)) }
    ensures one_each { IfOk result (λ replies. length replies.items ≡ length commands.items) }
    ensures none_made { OnErr result (items.new ≡ items.old) }
{
    let alloc = *commands.allocator();
    run(alloc, items, commands, VecReply::NoMemory)
}
