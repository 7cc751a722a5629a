//! A sequential object with the list of its calls, which is legal by its type.
ghost use Rattle.std.specs.Prelude.{◌≡◌, [], ◌∷◌, ◌++◌, length, IfOk, OnErr};
ghost use Rattle.elsa_tables.specs.Replay.{Replays, IsRecorded};

use crate::{AtOpening, Core, Start};
use std::alloc::{AllocError, Allocator, Global};
use std::marker::{Model, PhantomData};

/// The calls of a history, in order: the number of the caller's `RecordPass`, the command and the
/// reply.
pub type Entries<C, A = Global> = Vec<(u64, <C as Core>::Command, <C as Core>::Reply), A>;

/// A sequential object with all calls that were made on it, in order.
///
/// Contracts see the pair of the object and its entries; an entry is the number of the caller's
/// `RecordPass`, the command and the reply. Each such pair is legal: the entries lead from the
/// start state that `S` defines to the object's state. The start state is the initial state of the
/// object's type, unless the history is a later part of another one.
#[derive(Drop)]
pub struct History<C: Core, A: Allocator = Global, S: Start<C> = AtOpening> {
    // The object after all entries.
    core: C,
    entries: Entries<C, A>,
    of: PhantomData<S>,
}

impl<C: Core, A: Allocator, S: Start<C>> Model for History<C, A, S> {
    ghost use Rattle.std.specs.Prelude.{ℕ, List};
    ghost use Rattle.elsa_tables.specs.Replay.{Replays};

    ghost Value = { C × List (ℕ × C.Command × C.Reply) };

    ghost view = { λ h. (h.core, h.entries.items) };

    // The entries, applied in turn to the start state, give the object's state.
    ghost invariant = { λ h.
        Replays C.steps (S.start C.state C.opening) h.entries.items
        (C.state h.core) };
}

impl<C: Core, A: Allocator + Copy, S: Start<C>> History<C, A, S> {
    /// Makes the history of an object that was not called yet. It allocates nothing.
    pub(crate) fn new(alloc: A, core: C) -> Self
        requires { C.state core ≡ S.start C.state C.opening }
        ensures { result ≡ (core, []) }
    {
        History {
            core,
            entries: Vec::new(alloc),
            of: PhantomData,
        }
    }

    /// Returns the object, in the state after the last call.
    pub fn core(&self) -> &C
        ensures core { result.now ≡ self.now.0 }
        ensures legal { Replays C.steps (S.start C.state C.opening)
            self.now.1 (C.state self.now.0) }
    {
        &self.core
    }

    /// Returns the calls, in order: the number of the caller's `RecordPass`, the command and the
    /// reply.
    pub fn entries(&self) -> &[(u64, C::Command, C::Reply)]
        ensures entries { result.now ≡ self.now.1 }
        ensures legal { Replays C.steps (S.start C.state C.opening)
            self.now.1 (C.state self.now.0) }
    {
        self.entries.as_slice()
    }

    /// Returns the object, in the state after the last call, and the calls, in order. It allocates
    /// nothing.
    pub fn into_parts(self) -> (C, Entries<C, A>)
        ensures core { result.0 ≡ self.0 }
        ensures entries { result.1.items ≡ self.1 }
        ensures legal { Replays C.steps (S.start C.state C.opening)
            result.1.items (C.state result.0) }
    {
        let History {
            core,
            entries,
            of: _,
        } = self;
        (core, entries)
    }

    /// Reserves memory, applies the command and appends its entry; returns the entry's index and
    /// the reply.
    ///
    /// # Errors
    /// Fails if an allocation fails. The object's state and the entries are then unchanged.
    #[tactic(auto, using(elsa_tables::proofs::Replay::replays_more, elsa_tables::proofs::Replay::recorded_last))]
    pub(crate) fn record(
        &mut self,
        number: u64,
        command: C::Command,
    ) -> Result<(usize, C::Reply), AllocError>
        // The entry is appended, and its command and reply are a step of the object.
        ensures index { IfOk result (λ r. r.0 ≡ length self.old.1) }
        ensures stored { IfOk result (λ r. self.new.1 ≡ self.old.1 ++ (number, command, r.1) ∷ []) }
        ensures recorded { IfOk result (λ r.
            IsRecorded C.steps (S.start C.state C.opening) r.0
            (number, command, r.1)) }
        ensures step { IfOk result (λ r.
            C.steps (C.state self.old.0) command r.1 (C.state self.new.0)) }

        // A call that fails leaves the state and the entries unchanged.
        ensures err_state { OnErr result (C.state self.new.0 ≡ C.state self.old.0) }
        ensures err_entries { OnErr result (self.new.1 ≡ self.old.1) }
    {
        self.entries.reserve(1)?;
        let reply = self.core.apply(command)?;
        let index = self.entries.len();
        let _ = self.entries.push((number, command, reply));
        Ok((index, reply))
    }
}
