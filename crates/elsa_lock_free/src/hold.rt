//! A lock guard of a vector's state word, for a thread that must know the list while it makes the
//! item to push.
ghost use Rattle.std.specs.Prelude.{◌≡◌, ◌+◌, ◌-◌, ◌<◌, ◌^◌, MatchBool, IfOk, IfErr, OnErr, IfSome, IfNone, Some, length, slice_get, suc};
ghost use Rattle.elsa_lock_free.specs.SharedList.{BeginsABuffer, Continues, IsLaterPass, IsSamePass, PushesNext, SeesAlike, entry, items_of};
ghost use Rattle.elsa_lock_free.specs.Attempts.{IfFailed};
ghost use Rattle.elsa_lock_free.specs.History.{list_of};
ghost use Rattle.elsa_lock_free.specs.SeenHistory.{IsAtAcquire, IsOf};

use crate::atomic_list::{AtomicList, LIMIT, Ready, SeenHistory, obeys_rule};
use crate::event::Event;
use crate::handle::Handle;
use crate::item_rule::ItemRule;
use crate::may_lock::{AttemptFault, Busy, LockPermit};
use crate::pass::Pass;
use crate::rule::{AcquireGain, Log};
use crate::tokens::{bounded_by_tickets, evidence, take_acquired_closed, take_acquired_open};
use elsa_slots::geometry::{buffer_size, locate};
use elsa_slots::slots::{Beside, Buffer};
use logbook::Gained;
use std::alloc::{AllocError, AllocFailed, Allocator};
use std::marker::Model;
use std::sync::Wait;

/// The greatest number of exchanges by which a call that doesn't wait tries to take the lock, each
/// at the length that the one before it has observed. The first is made at the length that the
/// handle had observed, which may be out of date.
#[doc(hidden)]
pub const ATTEMPTS: u32 = 4;

/// A thread's lock on the vector's state word. Contracts see the vector, and the list at which it
/// is locked; the writer stays with the handle. No other thread pushes until the hold ends, by
/// [`publish`](Hold::publish), [`publish_first`](Hold::publish_first) or
/// [`release`](Hold::release), each of which takes the handle. It can't be dropped.
pub struct Hold<'v, T, A: Allocator, K: ItemRule<T>, X: Beside<T>> {
    list: &'v AtomicList<T, A, K, X>,
    seen: SeenHistory<T, A, K, X>,
    // The right to write the item at index `at`, which has this slot of this buffer.
    right: Gained<Event<T>, Log<T>, AcquireGain<Buffer<T, A, X>>>,
    at: usize,
    buffer: usize,
    slot: usize,
}

impl<'v, T, A: Allocator, K: ItemRule<T>, X: Beside<T>> Model for Hold<'v, T, A, K, X> {
    ghost use Rattle.std.specs.Prelude.{◌≡◌, ◌+◌, ◌<◌, ◌^◌, [], ◌∷◌, ◌++◌, length};
    ghost use Rattle.elsa_slots.specs.Geometry.{IsAt};
    ghost use Rattle.elsa_lock_free.specs.SharedList.{View};
    ghost use Rattle.elsa_lock_free.specs.History.{list_of};
    ghost use Rattle.elsa_lock_free.specs.declared.event.Event.TheVariants.{Acquired};

    ghost Value = { View T };

    ghost view = { λ h. record { vector = (h.seen.book, h.seen.names); writer = 0; seen = list_of h.seen.log } };

    // The right was gained by the last event of the history, an acquire at the length `at`, which
    // is the slot `slot` of the buffer `buffer`; and both are of this list.
    ghost invariant = { λ h. (h.right.names ≡ h.seen.names)
        × (h.seen.log ≡ h.right.answer ++ Acquired ∷ []) × (h.at ≡ length (list_of h.right.answer))
        × (h.at + 1 < 2 ^ 62) × IsAt h.at h.buffer h.slot × (h.buffer < 31)
        × (h.seen.book ≡ h.list.now.first.book) × (h.seen.names ≡ h.list.now.first.names) };
}

impl<'v, T: Drop, A: Allocator + Copy, K: ItemRule<T>, X: Beside<T> + Drop> Handle<'v, T, A, K, X> {
    /// Locks the vector at the length that the handle has observed. Returns `None` if the list is
    /// longer: the vector is then not locked, and the handle has observed all of the list.
    ///
    /// # Blocks
    /// While another thread has the vector locked at this length.
    ///
    /// # Cost
    /// `O(1)`.
    #[doc(hidden)]
    pub fn hold<R: Wait>(&mut self, rt: &R) -> Option<Hold<'v, T, A, K, X>>
        requires room { length self.old.seen + 1 < 2 ^ 62 }
        ensures held { IfSome result (λ h. (self.new ≡ self.old) × SeesAlike h self.old) }
        ensures longer { IfNone result (Continues self.old self.new
            × (length self.old.seen < length self.new.seen)) }
    {
        let list = self.list;
        let (seen, writer, n) = self.pass.lend().parts();
        let mut seen = seen;
        match list.acquire_at(rt, &mut seen, n) {
            Ok(right) => {
                let writer = bounded_by_tickets(&seen, writer);
                self.pass = Pass::of(seen.again(), writer, n);
                Some(Hold::at_length(list, seen, right, n))
            }
            Err(length) => {
                obeys_rule(&seen);
                let writer = bounded_by_tickets(&seen, writer);
                self.pass = Pass::of(seen, writer, length);
                None
            }
        }
    }

    /// Locks the vector at the length that the handle has observed, by one exchange. Returns
    /// `Ok(None)` if the list is longer: the vector is then not locked, and the handle has observed
    /// all of the list. It allocates nothing and never blocks.
    ///
    /// # Errors
    /// Fails if another thread has the vector locked at this length. Nothing has changed; the same
    /// call may succeed later.
    ///
    /// # Cost
    /// `O(1)`.
    #[doc(hidden)]
    pub fn try_hold(&mut self, may: LockPermit) -> Result<Option<Hold<'v, T, A, K, X>>, Busy>
        requires room { length self.old.seen + 1 < 2 ^ 62 }
        ensures held { IfOk result (λ a. IfSome a (λ h. (self.new ≡ self.old)
            × SeesAlike h self.old)) }
        ensures longer { IfOk result (λ a. IfNone a (Continues self.old self.new
            × (length self.old.seen < length self.new.seen))) }
        ensures busy { OnErr result (self.new ≡ self.old) }
    {
        let list = self.list;
        let (seen, writer, n) = self.pass.lend().parts();
        let mut seen = seen;
        match list.try_acquire_at(may, &mut seen, n) {
            Ok(right) => {
                let writer = bounded_by_tickets(&seen, writer);
                self.pass = Pass::of(seen.again(), writer, n);
                Ok(Some(Hold::at_length(list, seen, right, n)))
            }
            Err(length) => {
                obeys_rule(&seen);
                let writer = bounded_by_tickets(&seen, writer);
                self.pass = Pass::of(seen, writer, length);
                if length == n {
                    return Err(Busy);
                }
                Ok(None)
            }
        }
    }

    /// Locks the vector at its present length, by at most [`ATTEMPTS`] exchanges. It allocates
    /// nothing and never blocks.
    ///
    /// # Errors
    /// Fails with `Busy` if another thread has the vector locked, or has pushed first in each
    /// attempt, and with `Failed` if the list has the greatest length.
    ///
    /// # Cost
    /// `O(1)`.
    pub(crate) fn try_hold_now(
        &mut self,
        may: LockPermit,
    ) -> Result<Hold<'v, T, A, K, X>, AttemptFault<()>>
        ensures continues { Continues self.old self.new }
        ensures held { IfOk result (λ h. SeesAlike h self.new) }
        ensures full { IfErr result (λ f. IfFailed f (λ _. BeginsABuffer (length self.new.seen))) }
    {
        for _ in 0..ATTEMPTS {
            if self.seen_len() == LIMIT {
                return Err(AttemptFault::Failed(AllocError));
            }
            match self.try_hold(may) {
                Ok(Some(hold)) => return Ok(hold),
                Ok(None) => {}
                Err(Busy) => return Err(AttemptFault::Busy(())),
            }
        }
        Err(AttemptFault::Busy(()))
    }

    /// Locks the vector at its present length, and tries the length first that the handle has
    /// observed. Returns `None`, without a lock, if the list has the greatest length.
    ///
    /// # Blocks
    /// While another thread has the vector locked.
    ///
    /// # Cost
    /// `O(1)`.
    pub(crate) fn hold_now<R: Wait>(&mut self, rt: &R) -> Option<Hold<'v, T, A, K, X>>
        ensures continues { Continues self.old self.new }
        ensures held { IfSome result (λ h. SeesAlike h self.new) }
        ensures full { IfNone result (BeginsABuffer (length self.new.seen)) }
    {
        let list = self.list;
        let (seen, writer, guess) = self.pass.lend().parts();
        let mut seen = seen;
        let (n, right) = list.acquire(rt, &mut seen, guess);
        let writer = bounded_by_tickets(&seen, writer);
        if n == LIMIT {
            let (seen, writer) = list.release(seen, right, writer, n);
            self.pass = Pass::released(seen, writer, n);
            return None;
        }
        self.pass = Pass::of(seen.again(), writer, n);
        Some(Hold::at_length(list, seen, right, n))
    }
}

impl<'v, T: Drop, A: Allocator + Copy, K: ItemRule<T>, X: Beside<T> + Drop> Hold<'v, T, A, K, X> {
    /// The hold of a thread that has acquired the word at the length `at`. It finds the slot of
    /// that length once, for all that ends the hold.
    fn at_length(
        list: &'v AtomicList<T, A, K, X>,
        seen: SeenHistory<T, A, K, X>,
        right: Gained<Event<T>, Log<T>, AcquireGain<Buffer<T, A, X>>>,
        at: usize,
    ) -> Hold<'v, T, A, K, X>
        requires same_vector { IsOf seen list.now.first }
        requires right { IsAtAcquire right seen }
        requires index { (at ≡ length (list_of right.answer)) × (at + 1 < 2 ^ 62) }
        ensures { result ≡ record {
          vector = (seen.book, seen.names);
          writer = 0;
          seen = list_of seen.log;
        } }
    {
        let (buffer, slot) = locate(at);
        Hold {
            list,
            seen,
            right,
            at,
            buffer,
            slot,
        }
    }

    /// Returns whether a buffer begins at the length, so that the next item needs its memory.
    pub fn begins_buffer(&self) -> bool
        ensures { MatchBool result (BeginsABuffer (length self.now.seen))
            (BeginsABuffer (length self.now.seen) → ⊥) }
    {
        self.slot == 0
    }

    /// Returns the length at which the vector is locked.
    pub(crate) fn at(&self) -> usize
        ensures index { result ≡ length self.now.seen }
        ensures limit { result + 1 < 2 ^ 62 }
    {
        self.at
    }

    /// Ends the hold, and pushes an item into the open buffer that has this length. What fits the
    /// buffer of the last item fits this one. It can't fail.
    ///
    /// # Cost
    /// `O(1)`.
    #[doc(hidden)]
    pub fn publish(self, handle: &mut Handle<'v, T, A, K, X>, item: T)
        // The hold's buffer takes the item.
        requires held { SeesAlike self handle.old }
        requires later { BeginsABuffer (length self.seen) → ⊥ }
        requires obeys_rule { K.is_new self.seen (entry handle.old.writer item) }
        requires fits { (x : X) (last : T) →
            slice_get (items_of self.seen) (length self.seen - 1) ≡ Some last →
            X.fits x last → X.fits x item }

        // The item is after what was observed, and is the handle's.
        ensures pushed { IsSamePass handle.old handle.new × PushesNext handle.old handle.new item }
    {
        let Hold {
            list,
            seen,
            right,
            at,
            buffer,
            slot,
        } = self;
        let (before, writer, _length) = handle.pass.lend().parts();
        drop(before);
        let prefix = evidence(&seen);
        let (source, last) = prefix.at(at - 1, buffer, slot - 1);
        prefix.discard();
        last.discard();
        let (held, opened, slots, further) = take_acquired_open(right, buffer, slot);
        opened.agrees(&source);
        source.discard();
        let ready = Ready {
            seen,
            held,
            writer,
            at,
            opened,
            slots,
            further,
            buffer,
            slot,
        };
        let (seen, writer) = list.publish(&handle.right, ready, item);
        handle.pass = Pass::released(seen, writer, at + 1);
    }

    /// Ends the hold, and pushes an item as the first of a new buffer, with this next to its slots.
    /// `O(1)`.
    ///
    /// # Errors
    /// Fails if the buffer, four times as large as the one before, can't be allocated: nothing is
    /// pushed. The error has the item; what was to be stored next to it is dropped.
    #[doc(hidden)]
    pub fn publish_first(
        self,
        handle: &mut Handle<'v, T, A, K, X>,
        item: T,
        beside: X,
    ) -> Result<(), AllocFailed<T>>
        // The item fits the new buffer.
        requires held { SeesAlike self handle.old }
        requires begins { BeginsABuffer (length self.seen) }
        requires obeys_rule { K.is_new self.seen (entry handle.old.writer item) }
        requires fits { X.fits beside item }

        // The item is after what was observed, and is the handle's, or nothing changed.
        ensures pushed { IfOk result (λ _. IsSamePass handle.old handle.new
            × PushesNext handle.old handle.new item) }
        ensures refused { IfErr result (λ e. (handle.new ≡ handle.old) × (e.value ≡ item)) }
    {
        let Hold {
            list,
            seen,
            right,
            at,
            buffer,
            slot,
        } = self;
        let (before, writer, _length) = handle.pass.lend().parts();
        drop(before);
        let Ok((fresh, slots)) = list.slots.new_buffer(buffer_size(buffer), beside) else {
            let (seen, writer) = list.release(seen, right, writer, at);
            handle.pass = Pass::released(seen, writer, at);
            return Err(AllocFailed { value: item });
        };
        let (held, mut further) = take_acquired_closed(right, buffer);
        let first = further.take();
        let opened = list.slots.fill(buffer, fresh, first);
        let ready = Ready {
            seen,
            held,
            writer,
            at,
            opened,
            slots,
            further,
            buffer,
            slot,
        };
        let (seen, writer) = list.publish(&handle.right, ready, item);
        handle.pass = Pass::released(seen, writer, at + 1);
        Ok(())
    }

    /// Ends the hold, and pushes nothing. It can't fail.
    ///
    /// # Cost
    /// `O(1)`.
    #[doc(hidden)]
    pub fn release(self, handle: &mut Handle<'v, T, A, K, X>)
        requires held { SeesAlike self handle.old }
        ensures { handle.new ≡ handle.old }
    {
        let Hold {
            list,
            seen,
            right,
            at,
            buffer: _,
            slot: _,
        } = self;
        let (known, writer, _length) = handle.pass.lend().parts();
        drop(known);
        let (seen, writer) = list.release(seen, right, writer, at);
        handle.pass = Pass::released(seen, writer, at);
    }
}

impl<'v, T: Drop, A: Allocator + Copy, K: ItemRule<T>> Hold<'v, T, A, K, ()> {
    /// Ends the hold with an item at the end of the list, in a new buffer if one begins there.
    ///
    /// # Errors
    /// Fails if that buffer can't be allocated. The error has the item.
    pub(crate) fn end_with(
        self,
        handle: &mut Handle<'v, T, A, K>,
        item: T,
    ) -> Result<(), AllocFailed<T>>
        requires held { SeesAlike self handle.old }
        requires obeys_rule { K.is_new self.seen (entry handle.old.writer item) }
        ensures pushed { IfOk result (λ _. IsLaterPass handle.old handle.new
            × PushesNext handle.old handle.new item) }
        ensures refused { IfErr result (λ e. (handle.new ≡ handle.old) × (e.value ≡ item)
            × BeginsABuffer (length handle.old.seen)) }
    {
        if self.begins_buffer() {
            return self.publish_first(handle, item, ());
        }
        self.publish(handle, item);
        Ok(())
    }
}
