//! A push, from the first step to the last: acquire the word, write the slot of the length,
//! publish.
ghost use Rattle.std.specs.Prelude.{◌≡◌, false, ◌+◌, ◌*◌, ◌^◌, ◌<◌, ◌≤◌, ◌%◌, [], ◌∷◌, ◌++◌, length, IfSome, IfNone, IfOk, IfErr, suc};
ghost use mathlib.Core.List.{IsPrefix};
ghost use Rattle.elsa_slots.specs.Ahead.{IsOpenAt};
ghost use Rattle.elsa_lock_free.specs.SharedList.{count, entry};
ghost use Rattle.elsa_lock_free.specs.declared.event.Event.TheVariants.{Acquired};
ghost use Rattle.elsa_lock_free.specs.History.{is_held, list_of};
ghost use Rattle.elsa_lock_free.specs.Rights.{buffer_slots_of};
ghost use Rattle.elsa_lock_free.specs.SeenHistory.{IsAtAcquire, IsHolder, IsOf};
ghost use Rattle.elsa_lock_free.specs.OneWord.{word_of};

use super::{AtomicList, SeenHistory};
use crate::event::Event;
use crate::item_rule::ItemRule;
use crate::may_lock::LockPermit;
use crate::pass::PushRight;
use crate::rule::{Acquire, AcquireGain, EndHold, Log, PublishGain, ReleaseGain};
use crate::tokens::{
    Held, Writer, offer_acquire, offer_publish, offer_release, take_published, take_released,
};
use elsa_slots::slots::{Beside, Buffer, WriteRights, Written};
use logbook::Gained;
use std::alloc::Allocator;
use std::hint::spin_loop;
use std::sync::Wait;
use std::thread::yield_now;

/// The greatest length: buffer 31, which would come next, is never opened.
pub(crate) const LIMIT: usize = (1 << 62) - 1;

/// How often a thread that waits reads the state word before it yields.
const TRIES: u32 = 64;

/// A held word whose length is in an open buffer: all that a publish takes, but the item.
pub(crate) struct Ready<T, A: Allocator, K: ItemRule<T>, X: Beside<T>> {
    pub seen: SeenHistory<T, A, K, X>,
    pub held: Held,
    pub writer: Writer,
    pub at: usize,
    pub opened: Written<Buffer<T, A, X>>,
    pub slots: WriteRights,
    pub further: WriteRights,
    pub buffer: usize,
    pub slot: usize,
}

impl<T: Drop, A: Allocator + Copy, K: ItemRule<T>, X: Beside<T> + Drop> AtomicList<T, A, K, X> {
    /// Acquires the word if it is still `found`. Else `found` becomes what it is now.
    fn try_acquire(
        &self,
        may: LockPermit,
        seen: &mut SeenHistory<T, A, K, X>,
        found: &mut u64,
    ) -> Option<Gained<Event<T>, Log<T>, AcquireGain<Buffer<T, A, X>>>>
        requires book { seen.old.book ≡ self.now.first.book }
        requires unlocked { found.old % 2 ≡ 0 }

        // The history grows. Acquired, it ends with the acquire at this word; else the word is
        // another.
        ensures same { IsOf seen.new seen.old }
        ensures seen { IsPrefix seen.old.log seen.new.log }
        ensures held { IfSome result (λ r.
            (found.new ≡ found.old) × (r.names ≡ seen.old.names)
            × (seen.new.log ≡ r.answer ++ Acquired ∷ [])
            × (2 * length (list_of r.answer) ≡ found.old) × (length (list_of r.answer) < 2 ^ 62)) }
        ensures changed { IfNone result (found.new ≡ word_of seen.new.log) }
    {
        // From `2 n` to `2 n + 1`: the length stays, and the last bit is set. Where the word has
        // changed, the exchange is a load.
        let mut offer = offer_acquire(may, seen);
        let mut pen = seen.no_pen();
        let old = *found;
        *found = self
            .word
            .compare_exchange::<Acquire, AcquireGain<Buffer<T, A, X>>>(
                old,
                old + 1,
                seen,
                &mut offer,
                &mut pen,
            );
        if *found == old {
            Some(offer.into_gain())
        } else {
            None
        }
    }

    /// Acquires the word, first trying at the length `guess`. Returns the length of the list.
    pub(crate) fn acquire<R: Wait>(
        &self,
        rt: &R,
        seen: &mut SeenHistory<T, A, K, X>,
        guess: usize,
    ) -> (
        usize,
        Gained<Event<T>, Log<T>, AcquireGain<Buffer<T, A, X>>>,
    )
        requires book { seen.old.book ≡ self.now.first.book }
        requires guess { guess < 2 ^ 62 }

        // The history grows, and ends with the acquire at this length.
        ensures same { IsOf seen.new seen.old }
        ensures seen { IsPrefix seen.old.log seen.new.log }
        ensures right { (result.1.names ≡ seen.old.names)
            × (seen.new.log ≡ result.1.answer ++ Acquired ∷ []) }
        ensures length { (result.0 ≡ length (list_of result.1.answer)) × (result.0 < 2 ^ 62) }
    {
        // The word is taken for free at the guessed length, without a load; a wrong guess costs one
        // exchange, which shows the word.
        let mut found = 2 * guess as u64;
        let mut tries: u32 = 0;
        for _ in rt.forever() {
            // An odd word is held: wait, and load it again.
            if found % 2 == 0 {
                let length = found as usize / 2;
                if let Some(right) = self.try_acquire(LockPermit::waiting(rt), seen, &mut found) {
                    return (length, right);
                }
            } else {
                tries = wait_a_little(tries);
                found = self.load(seen);
            }
        }
        unreachable!()
    }

    /// Acquires the word at the length `n` alone. `Err` is the length of a list that is longer. It
    /// waits while another thread holds the word at this length.
    pub(crate) fn acquire_at<R: Wait>(
        &self,
        rt: &R,
        seen: &mut SeenHistory<T, A, K, X>,
        n: usize,
    ) -> Result<Gained<Event<T>, Log<T>, AcquireGain<Buffer<T, A, X>>>, usize>
        requires book { seen.old.book ≡ self.now.first.book }
        requires index { n ≤ length (list_of seen.old.log) }

        // The history grows. Acquired, it ends with the acquire at this length; else its list is
        // longer.
        ensures same { IsOf seen.new seen.old }
        ensures seen { IsPrefix seen.old.log seen.new.log }
        ensures right { IfOk result (λ r.
            (r.names ≡ seen.old.names) × (seen.new.log ≡ r.answer ++ Acquired ∷ [])
            × (length (list_of r.answer) ≡ n)) }
        ensures longer { IfErr result (λ m. (m ≡ length (list_of seen.new.log)) × (n < m)) }
    {
        let mut found = self.load(seen);
        let mut tries: u32 = 0;
        for _ in rt.forever() {
            let length = found as usize / 2;
            // Another thread has pushed: this call's item would not be at the index `n`.
            if length != n {
                return Err(length);
            }
            if found % 2 == 1 {
                tries = wait_a_little(tries);
                found = self.load(seen);
            } else if let Some(right) = self.try_acquire(
                LockPermit::waiting(rt),
                seen,
                &mut found,
            ) {
                return Ok(right);
            }
        }
        unreachable!()
    }

    /// Acquires the word at the length `n` alone, by one exchange. `Err` is the length of the list:
    /// `n` if another thread has the word at this length, and else a greater one.
    pub(crate) fn try_acquire_at(
        &self,
        may: LockPermit,
        seen: &mut SeenHistory<T, A, K, X>,
        n: usize,
    ) -> Result<Gained<Event<T>, Log<T>, AcquireGain<Buffer<T, A, X>>>, usize>
        requires book { seen.old.book ≡ self.now.first.book }
        requires index { (n ≡ length (list_of seen.old.log)) × (n < 2 ^ 62) }

        // The history grows. Acquired, it ends with the acquire at this length.
        ensures same { IsOf seen.new seen.old }
        ensures seen { IsPrefix seen.old.log seen.new.log }
        ensures right { IfOk result (λ r.
            (r.names ≡ seen.old.names) × (seen.new.log ≡ r.answer ++ Acquired ∷ [])
            × (length (list_of r.answer) ≡ n)) }
        ensures taken { IfErr result (λ m. (m ≡ length (list_of seen.new.log)) × (n ≤ m)) }
    {
        let mut found = 2 * n as u64;
        if let Some(right) = self.try_acquire(may, seen, &mut found) {
            return Ok(right);
        }
        Err(found as usize / 2)
    }

    /// Releases the word and leaves the list.
    pub(crate) fn release(
        &self,
        seen: SeenHistory<T, A, K, X>,
        right: Gained<Event<T>, Log<T>, AcquireGain<Buffer<T, A, X>>>,
        writer: Writer,
        n: usize,
    ) -> (SeenHistory<T, A, K, X>, Writer)

        // What the acquire gained, and the length.
        requires same_vector { IsOf seen self.now.first }
        requires right { IsAtAcquire right seen }
        requires length { (n ≡ length (list_of right.answer)) × (n < 2 ^ 62) }
        requires mine { writer.used ≤ count (suc writer.name) (list_of seen.log) }

        // The word is free, the list is as before, and the writer has pushed as much as its tickets
        // say.
        ensures free { is_held result.0.log ≡ false }
        ensures same { IsOf result.0 seen × (result.1.name ≡ writer.name)
            × (result.1.used ≡ writer.used) }
        ensures seen { list_of result.0.log ≡ list_of seen.log }
        ensures mine { count (suc writer.name) (list_of seen.log) ≡ writer.used }
    {
        // From `2 n + 1` to `2 n`. Only the holder changes an odd word, so the exchange succeeds.
        let mut seen = seen;
        let mut offer = offer_release(&seen, right, writer);
        let mut pen = seen.no_pen();
        let word = 2 * n as u64;
        self.word
            .compare_exchange::<EndHold, ReleaseGain<Buffer<T, A, X>>>(
                word + 1,
                word,
                &mut seen,
                &mut offer,
                &mut pen,
            );
        (seen, take_released(offer.into_gain()))
    }

    /// Writes the slot at the length, and publishes it.
    pub(crate) fn publish(
        &self,
        _right: &PushRight,
        ready: Ready<T, A, K, X>,
        item: T,
    ) -> (SeenHistory<T, A, K, X>, Writer)

        // The holder, its writer, and the rights to the slot and to all after it.
        requires writer { _right.now ≡ suc ready.writer.name }
        requires same_vector { IsOf ready.seen self.now.first }
        requires held { IsHolder ready.held ready.seen }
        requires ahead { IsOpenAt (buffer_slots_of ready.seen.names) ready.at ready.buffer ready.slot
            ready.opened.of ready.opened.value.0 ready.slots.of ready.further.of × (ready.buffer < 31) }
        requires fits { X.fits ready.opened.value.1 item }

        // The index is the length.
        requires length { (ready.at ≡ length (list_of ready.seen.log)) × (ready.at + 1 < 2 ^ 62) }
        requires mine { ready.writer.used ≤ count (suc ready.writer.name) (list_of ready.seen.log) }
        requires obeys_rule { K.is_new (list_of ready.seen.log) (entry (suc ready.writer.name) item) }

        // The word is free, the list has one entry more, and the writer one ticket fewer.
        ensures free { is_held result.0.log ≡ false }
        ensures same { IsOf result.0 ready.seen × (result.1.name ≡ ready.writer.name)
            × (result.1.used ≡ suc ready.writer.used) }
        ensures seen { list_of result.0.log
            ≡ list_of ready.seen.log ++ entry (suc ready.writer.name) item ∷ [] }
        ensures mine { count (suc ready.writer.name) (list_of ready.seen.log) ≡ ready.writer.used }
    {
        let Ready {
            seen,
            held,
            writer,
            at: n,
            opened,
            slots,
            further,
            buffer,
            slot,
        } = ready;
        let mut seen = seen;
        let mut slots = slots;
        // Write first: no other thread reads the slot before the word shows its index.
        let right = slots.take();
        let written = self.slots.write(buffer, slot, item, &opened, right);
        // From `2 n + 1` to `2 (n + 1)`: one exchange shows the item and releases the word. Only
        // the holder changes an odd word, so it succeeds.
        let mut offer = offer_publish(
            &seen, held, opened, slots, further, writer, written, buffer, slot,
        );
        let mut pen = seen.no_pen();
        let word = 2 * n as u64;
        self.word
            .compare_exchange::<EndHold, PublishGain<Buffer<T, A, X>>>(
                word + 1,
                word + 2,
                &mut seen,
                &mut offer,
                &mut pen,
            );
        (seen, take_published(offer.into_gain()))
    }
}

/// Waits by the processor's hint at first, and later yields. Returns how often it has waited.
pub(crate) fn wait_a_little(tries: u32) -> u32 {
    if tries < TRIES {
        spin_loop();
        return tries + 1;
    }
    yield_now();
    tries
}
