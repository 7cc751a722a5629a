//! A sequential object under a lock, with the history of its calls.
ghost use Rattle.std.specs.Prelude.{◌≡◌, ℕ, List, [], ◌∷◌, ◌++◌, ◌⊎◌, length, IfOk, IfErr, OnErr};
ghost use Rattle.elsa_tables.specs.Replay.{Replays, IsRecorded};
ghost use Rattle.elsa_history.specs.Receipts.{AreOf, AreReceipts, LacksAReceipt, receipt_count};

use crate::record_pass::count_receipts;
use crate::{AtOpening, Core, History, RecordPass, Start};
use std::alloc::{AllocError, Allocator, Global};
use std::error::Error;
use std::fmt;
use std::sync::{RwLock, Wait};

/// How the receipts differ from the history.
#[derive(Copy, Clone, Debug, PartialEq, Eq, Drop)]
pub enum ReceiptsFault {
    /// A `RecordPass` is missing: the receipts belong to this history, and an entry has none.
    MissingPass,
    /// A `RecordPass` belongs to another recorder: a receipt differs from the entry at its index or
    /// has another caller's number, an entry has two receipts, or the indices of a `RecordPass`
    /// don't increase.
    ForeignPass,
}

/// The error of [`Recorder::close`]: the given receipts aren't the history.
#[derive(Drop)]
pub enum CloseFault<C: Core, A: Allocator = Global, S: Start<C> = AtOpening> {
    /// How the receipts differ, and the history, which is legal nevertheless.
    Receipts(ReceiptsFault, History<C, A, S>),
}

impl fmt::Display for ReceiptsFault {
    fn fmt<W: fmt::Write>(&self, f: &mut fmt::Formatter<W>) -> fmt::Result {
        f.pad(match self {
            ReceiptsFault::MissingPass =>
                "a pass is missing: an entry of the history has no receipt",
            ReceiptsFault::ForeignPass => "a pass of another recorder is among them",
        })
    }
}

impl Error for ReceiptsFault {}

/// Prints no history: it can be long.
impl<C: Core, A: Allocator, S: Start<C>> fmt::Debug for CloseFault<C, A, S> {
    fn fmt<W: fmt::Write>(&self, f: &mut fmt::Formatter<W>) -> fmt::Result {
        f.pad(match self {
            CloseFault::Receipts(ReceiptsFault::MissingPass, _) => "Receipts(MissingPass, ..)",
            CloseFault::Receipts(ReceiptsFault::ForeignPass, _) => "Receipts(ForeignPass, ..)",
        })
    }
}

impl<C: Core, A: Allocator, S: Start<C>> fmt::Display for CloseFault<C, A, S> {
    fn fmt<W: fmt::Write>(&self, f: &mut fmt::Formatter<W>) -> fmt::Result {
        let CloseFault::Receipts(fault, _) = self;
        fmt::Display::fmt(fault, f)
    }
}

impl<C: Core + Drop, A: Allocator, S: Start<C>> Error for CloseFault<C, A, S> {}

/// A sequential object that threads share, with the history of all calls on it.
///
/// The locked value is a [`History`], which is legal by its type: so the history is legal whenever
/// the lock is free.
#[derive(Drop)]
pub struct Recorder<C: Core, A: Allocator = Global, S: Start<C> = AtOpening> {
    lock: RwLock<History<C, A, S>>,
    alloc: A,
}

impl<C: Core, A: Allocator + Copy> Recorder<C, A> {
    /// Makes a recorder of an object in the initial state of its type. It allocates nothing and
    /// takes no lock.
    pub fn new(alloc: A, core: C) -> Self
        requires { C.state core ≡ C.opening }
    {
        Recorder::with_start(alloc, core)
    }
}

impl<C: Core, A: Allocator + Copy, S: Start<C>> Recorder<C, A, S> {
    /// Makes a recorder of an object in the start state that `S` defines, as the object of an
    /// earlier part. It allocates nothing and takes no lock.
    pub fn with_start(alloc: A, core: C) -> Self
        requires { C.state core ≡ S.start C.state C.opening }
    {
        Recorder {
            lock: RwLock::new(History::new(alloc, core)),
            alloc,
        }
    }

    /// Makes a `RecordPass` with this number and no receipts. It allocates nothing and takes no
    /// lock.
    ///
    /// Callers that are to be distinguished in the history choose different numbers.
    pub fn pass(&self, number: u64) -> RecordPass<C, A>
        ensures { result ≡ (number, []) }
    {
        RecordPass::new(self.alloc, number)
    }

    /// Applies the command and returns its reply. The history gains one entry, and `pass` receives
    /// the receipt for it.
    ///
    /// The contract states that some legal history has this entry at the receipt's index. Whether
    /// it is this recorder's history is the result of [`Self::close`].
    ///
    /// The order is: reserve memory for the receipt; take the lock; reserve memory in the history;
    /// apply; store.
    ///
    /// # Errors
    /// Fails if an allocation fails, of the receipt, of the entry, or of the command. Neither an
    /// entry nor a receipt is then added.
    ///
    /// # Blocks
    /// While another thread's call has the lock.
    pub fn call<R: Wait>(
        &self,
        rt: &R,
        pass: &mut RecordPass<C, A>,
        command: C::Command,
    ) -> Result<C::Reply, AllocError>
        ensures recorded { IfOk result (λ reply.
            (index : ℕ) × (pass.new ≡ (pass.old.0, pass.old.1 ++ (index, command, reply) ∷ []))
            × IsRecorded C.steps (S.start C.state C.opening) index
            (pass.old.0, command, reply)) }
        ensures refused { OnErr result (pass.new ≡ pass.old) }
    {
        pass.call(rt, &self.lock, command)
    }

    /// Ends the recording, and returns the history if the receipts are the history. It takes no
    /// lock, since the caller owns the recorder.
    ///
    /// # Errors
    /// Fails exactly if the receipts aren't the history. [`CloseFault`] contains the history, and
    /// shows whether a `RecordPass` is missing or belongs to another recorder; if both are true, it
    /// shows the latter.
    ///
    /// # Allocates
    /// 8 bytes for each entry, if there are two `RecordPass` or more, to record which of them has
    /// the entry's receipt.
    ///
    /// # Cost
    /// The number of entries plus the number of receipts. If that allocation fails, or if a
    /// `RecordPass` belongs to another recorder: at most the number of entries times the number of
    /// `RecordPass`.
    pub fn close(
        self,
        passes: Vec<RecordPass<C, A>, A>,
    ) -> Result<History<C, A, S>, CloseFault<C, A, S>>
        // The receipts are the history, so it has one entry for each call of these passes that
        // succeeded.
        ensures recorded { IfOk result (λ h. AreReceipts C.Command.eq C.Reply.eq passes.items h.1) }
        ensures count { IfOk result (λ h. length h.1 ≡ receipt_count passes.items) }
        ensures legal { IfOk result (λ h.
            Replays C.steps (S.start C.state C.opening) h.1
            (C.state h.0)) }

        // The history is legal, and the receipts aren't that history: an entry has none, or a
        // receipt doesn't belong to it.
        ensures fault { IfErr result (λ f.
            (h : C × List (ℕ × C.Command × C.Reply))
            × ((f ≡ CloseFault.Receipts ReceiptsFault.MissingPass h)
            ⊎ (f ≡ CloseFault.Receipts ReceiptsFault.ForeignPass h))
            × Replays C.steps (S.start C.state C.opening) h.1
            (C.state h.0)) }
        ensures missing { IfErr result (λ f.
            (h : C × List (ℕ × C.Command × C.Reply)) →
            f ≡ CloseFault.Receipts ReceiptsFault.MissingPass h →
            AreOf C.Command.eq C.Reply.eq passes.items h.1 × LacksAReceipt passes.items h.1) }
        ensures foreign { IfErr result (λ f.
            (h : C × List (ℕ × C.Command × C.Reply)) →
            f ≡ CloseFault.Receipts ReceiptsFault.ForeignPass h →
            AreOf C.Command.eq C.Reply.eq passes.items h.1 → ⊥) }
    {
        let Recorder { lock, alloc } = self;
        let history = lock.into_inner();
        let Some(count) = count_receipts(alloc, passes, history.entries()) else {
            return Err(CloseFault::Receipts(ReceiptsFault::ForeignPass, history));
        };
        if count != history.entries().len() {
            return Err(CloseFault::Receipts(ReceiptsFault::MissingPass, history));
        }
        Ok(history)
    }
}
