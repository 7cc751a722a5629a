//! A recorder: any sequential object under a lock, with the history of all calls of all threads,
//! which can be replayed.
//!
//! A [`Core`], a sequential object, defines what its calls mean, as steps from state to state. A
//! [`Recorder`] has one object under a lock, with the list of its calls, and the type
//! of the locked value states that the list is legal: from the initial state of the object's type,
//! each reply follows from the entries before it, and the entries lead to the object's state. So
//! the history is legal whenever the lock is free, in any order of the threads' calls. Each caller
//! has a [`RecordPass`], which receives a receipt for each call that succeeds.
//!
//! [`Recorder::close`] ends the recording and reports whether the receipts are the history. If they
//! are, each caller's calls are in the history in the order in which the caller made them, each
//! with the reply that the caller received. If they aren't, the error shows whether a `RecordPass`
//! is missing or belongs to another recorder.
#![tactic(auto)]

ghost use Rattle.std.specs.Prelude.{◌≡◌, IfOk, OnErr};

mod history_state;
pub mod laws;
mod map_core;
mod record_pass;
mod recorder;
mod vec_core;

pub use history_state::{Entries, History};
pub use map_core::{MapCommand, MapReply};
pub use record_pass::RecordPass;
pub use recorder::{CloseFault, ReceiptsFault, Recorder};
use std::alloc::AllocError;
use std::marker::Brand;
pub use vec_core::{VecCommand, VecReply};

/// A sequential object whose calls a recorder records: its commands, its replies, what its calls
/// mean, as steps from state to state, and one function that makes a call.
pub trait Core: Sized {
    /// A call as a value: its arguments.
    type Command: Copy + Eq;

    /// The reply to a call.
    type Reply: Copy + Eq;

    /// The type of the object's states.
    ghost State: { Type 0 };

    /// The state of the object.
    ghost state: { Self → State };

    /// The initial state of an object of this type.
    ghost opening: { State };

    /// The command, with this reply, leads from a state to the next.
    ghost steps: { State → Self.Command → Self.Reply → State → Type 0 };

    /// Makes the call and returns its reply.
    ///
    /// # Errors
    /// Fails if an allocation fails. The state is then unchanged.
    fn apply(&mut self, command: Self::Command) -> Result<Self::Reply, AllocError>
        ensures step { IfOk result (λ reply.
            steps (state self.old) command reply (state self.new)) }
        ensures unchanged { OnErr result (state self.new ≡ state self.old) };
}

/// The state with which a history starts.
///
/// To close a history in parts, write a function over any `S: Start<C>` that records one part, and
/// call it at `Brand` for each part: the caller's proof chooses the state in which the part before
/// it left the object ([`laws::recorded_in_parts`]).
pub trait Start<C> {
    /// The start state, given the function that returns the state of an object, and the initial
    /// state.
    ghost start: { {X : Type 0} → (C → X) → X → X };
}

/// The initial state of the object's type.
pub struct AtOpening;

impl<C> Start<C> for AtOpening {
    ghost start = { λ state opening. opening };
}

// The caller's proof of a call at `Brand` chooses the state.
impl<C> Start<C> for Brand {
    ghost start = { λ state opening. opening };
}
