//! The list as a sequential object of a recorder: its calls as commands and replies.

use crate::Core;
use elsa_locks::vec::VecState;
use std::alloc::{AllocError, Allocator};

/// A call on a list.
#[derive(Clone, Copy, Debug, PartialEq, Eq)]
pub enum VecCommand<V> {
    /// Appends the item.
    Push(V),
    /// Looks the item at the index up.
    Get(usize),
    /// Reads the number of items.
    Len,
}

/// A reply of a list.
#[derive(Clone, Copy, Debug, PartialEq, Eq)]
pub enum VecReply<V> {
    /// The reply to `Push`: the index of the item.
    Place(usize),
    /// The reply to `Get`: the item, if there is one at the index.
    Found(Option<V>),
    /// The reply to `Len`: the number of items.
    Count(usize),
}

impl<V: Copy + Eq, A: Allocator + Copy> Core for VecState<V, A> {
    ghost use Rattle.std.specs.Prelude.{List, []};
    ghost use Rattle.elsa_history.specs.VecStep.{VecStep};

    type Command = VecCommand<V>;

    type Reply = VecReply<V>;

    ghost State = { List V };

    ghost state = { λ s. s };

    ghost opening = { [] };

    ghost steps = { VecStep };

    fn apply(&mut self, command: VecCommand<V>) -> Result<VecReply<V>, AllocError> {
        match command {
            VecCommand::Push(value) => {
                let index = self.push_get_index(value)?;
                Ok(VecReply::Place(index))
            }
            VecCommand::Get(index) => Ok(VecReply::Found(self.get_copy(index))),
            VecCommand::Len => Ok(VecReply::Count(self.len())),
        }
    }
}
