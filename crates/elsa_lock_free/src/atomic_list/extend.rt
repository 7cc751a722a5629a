//! Many pushes under one hold: acquire the word, write the slots from the length on, publish them
//! at once.
ghost use Rattle.std.specs.Prelude.{◌≡◌, true, false, ◌+◌, ◌^◌, ◌<◌, ◌≤◌, ◌∷◌, ◌++◌, [], length, List, None, suc, take};
ghost use Rattle.elsa_slots.specs.Ahead.{GoesOn};
ghost use Rattle.elsa_lock_free.specs.SharedList.{AppendsAll, BeginsAmong, written_by, count};
ghost use Rattle.elsa_lock_free.specs.declared.event.Entry.{Entry};
ghost use Rattle.elsa_lock_free.specs.declared.event.Event.TheVariants.{Acquired, Extended, OfferOf};
ghost use Rattle.elsa_lock_free.specs.History.{added, writer_of, entries, is_held, list_of, used_of};
ghost use Rattle.elsa_lock_free.specs.Rights.{head, buffer_slots_of};
ghost use Rattle.elsa_lock_free.specs.SeenHistory.{IsAtAcquire, IsOf};

use super::push::LIMIT;
use super::{AtomicList, SeenHistory};
use crate::event::Event;
use crate::item_rule::ItemRule;
use crate::pass::PushRight;
use crate::rule::{AcquireGain, EndHold, ExtendGain, Log, OneWord};
use crate::tokens::{
    Held, Writer, evidence, offer_extend_closed, offer_extend_open, take_acquired_closed,
    take_acquired_open, take_extended,
};
use elsa_slots::geometry::locate;
use elsa_slots::slots::{Ahead, Buffer, WriteRights};
use logbook::{Gained, Offer};
use std::alloc::Allocator;
use std::sync::Wait;

/// What many pushes leave: what is known of the history, its writer, the index of the first item,
/// and the number of those that were pushed.
pub type Extension<T, A, K> = (SeenHistory<T, A, K, ()>, Writer, usize, usize);

/// What an acquire at the length `n` gained: the hold, and what it takes to append there.
fn take_acquired<T, A: Allocator>(
    right: Gained<Event<T>, Log<T>, AcquireGain<Buffer<T, A>>>,
    n: usize,
) -> (Held, Ahead<T, A>)
    requires { (n ≡ length (list_of right.answer)) × (n < 2 ^ 62) }
    ensures held { (result.0.name ≡ head right.names)
        × (result.0.added ≡ added (right.answer ++ Acquired ∷ [])) }
    ensures ahead { GoesOn (buffer_slots_of right.names) n
        result.1.opened result.1.slots.of result.1.further.of }
{
    let (buffer, slot) = if n < LIMIT { locate(n) } else { (31, 0) };
    if slot == 0 {
        let (held, further) = take_acquired_closed(right, buffer);
        let ahead = Ahead {
            opened: None,
            slots: WriteRights::none(),
            further,
        };
        return (held, ahead);
    }
    let (held, opened, slots, further) = take_acquired_open(right, buffer, slot);
    let ahead = Ahead {
        opened: Some(opened),
        slots,
        further,
    };
    (held, ahead)
}

impl<T: Copy + Drop, A: Allocator + Copy, K: ItemRule<T>> AtomicList<T, A, K> {
    /// Ends the hold at the length `n`, by an offer of `pushed` items.
    fn publish_all(
        &self,
        _right: &PushRight,
        seen: SeenHistory<T, A, K, ()>,
        offer: Offer<Event<T>, Log<T>, OneWord<Buffer<T, A>, K>, ExtendGain<Buffer<T, A>>>,
        n: usize,
        pushed: usize,
    ) -> (SeenHistory<T, A, K, ()>, Writer)
        // The holder's history, and its length.
        requires same_vector { IsOf seen self.now.first × (is_held seen.log ≡ true) }
        requires length { (n ≡ length (list_of seen.log)) × (n + pushed < 2 ^ 62) }

        // The offer of these items, by the writer, which has no fewer tickets than entries.
        requires writer { _right.now ≡ suc (writer_of offer.about) }
        requires offer { (offer.names ≡ seen.names) × (offer.state ≡ None) }
        requires about { offer.about
            ≡ OfferOf (writer_of offer.about) (used_of offer.about) ∷ offer.ask ∷ seen.log }
        requires request { (xs : List T) × (offer.ask ≡ Extended (suc (writer_of offer.about)) xs)
            × (pushed ≡ length xs) }
        requires mine { used_of offer.about
            ≤ count (suc (writer_of offer.about)) (list_of seen.log) }
        requires obeys_rule { (es : List (Entry T)) (e : Entry T) → K.is_new es e }

        // The word is free, the list has these entries more, and the writer a ticket less for each.
        ensures free { is_held result.0.log ≡ false }
        ensures same { IsOf result.0 seen × (result.1.name ≡ writer_of offer.about)
            × (result.1.used ≡ used_of offer.about + pushed) }
        ensures seen { list_of result.0.log ≡ list_of seen.log ++ entries offer.ask }
        ensures mine { count (suc (writer_of offer.about)) (list_of seen.log)
            ≡ used_of offer.about }
    {
        let mut seen = seen;
        let mut offer = offer;
        let mut pen = seen.no_pen();
        let word = 2 * n as u64;
        self.word
            .compare_exchange::<EndHold, ExtendGain<Buffer<T, A>>>(
                word + 1,
                word + 2 * pushed as u64,
                &mut seen,
                &mut offer,
                &mut pen,
            );
        (seen, take_extended(offer.into_gain()))
    }

    /// Appends items, and releases the word that was acquired at the length `n`. Returns the
    /// number of those that were pushed: all, or none if an allocation failed.
    fn append_all(
        &self,
        by: &PushRight,
        seen: SeenHistory<T, A, K, ()>,
        right: Gained<Event<T>, Log<T>, AcquireGain<Buffer<T, A>>>,
        writer: Writer,
        n: usize,
        items: &[T],
    ) -> (SeenHistory<T, A, K, ()>, Writer, usize)
        requires same_vector { IsOf seen self.now.first }
        requires writer { by.now ≡ suc writer.name }
        requires right { IsAtAcquire right seen }
        requires length { (n ≡ length (list_of right.answer)) × (n < 2 ^ 62) }
        requires mine { writer.used ≤ count (suc writer.name) (list_of seen.log) }
        requires obeys_rule { (es : List (Entry T)) (e : Entry T) → K.is_new es e }

        // The word is free, and the writer's entries are its own.
        ensures free { is_held result.0.log ≡ false }
        ensures same { IsOf result.0 seen × (result.1.name ≡ writer.name) }
        ensures mine { (count (suc writer.name) (list_of seen.log) ≡ writer.used)
            × (result.1.used ≡ writer.used + result.2) }

        // The items that were pushed are at the end: all, or none.
        ensures pushed { list_of result.0.log
            ≡ list_of seen.log ++ written_by (suc writer.name) (take result.2 items.now) }
        ensures count { (result.2 ≤ length items.now) × (n + result.2 < 2 ^ 62) }
        ensures refused { result.2 < length items.now → (result.2 ≡ 0)
            × BeginsAmong n (length items.now) }
    {
        let mut prefix = evidence(&seen);
        let (held, ahead) = take_acquired(right, n);
        let (ahead, pushed) = self.slots.append(ahead, n, items, &mut prefix);
        let Ahead {
            opened,
            slots,
            further,
        } = ahead;
        match opened {
            Some(opened) => {
                let offer = offer_extend_open(&seen, held, prefix, opened, slots, further, writer);
                let (seen, writer) = self.publish_all(by, seen, offer, n, pushed);
                (seen, writer, pushed)
            }
            None => {
                slots.discard();
                let offer = offer_extend_closed(&seen, held, prefix, further, writer);
                let (seen, writer) = self.publish_all(by, seen, offer, n, pushed);
                (seen, writer, pushed)
            }
        }
    }

    /// Pushes items side by side under one hold, tried first at the length `guess`, and publishes
    /// them at once. Returns the index of the first, and the number of those that were pushed: all,
    /// or none if an allocation failed.
    pub fn extend<R: Wait>(
        &self,
        rt: &R,
        by: &PushRight,
        seen: SeenHistory<T, A, K, ()>,
        writer: Writer,
        guess: usize,
        items: &[T],
    ) -> Extension<T, A, K>
        requires same_vector { IsOf seen self.now.first }
        requires writer { by.now ≡ suc writer.name }
        requires mine { count (suc writer.name) (list_of seen.log) ≡ writer.used }
        requires guess { guess < 2 ^ 62 }
        requires obeys_rule { (es : List (Entry T)) (e : Entry T) → K.is_new es e }

        // The word is free, and the writer's entries are its own.
        ensures free { is_held result.0.log ≡ false }
        ensures same { IsOf result.0 seen × (result.1.name ≡ writer.name) }
        ensures mine { (count (suc writer.name) (list_of result.0.log) ≡ result.1.used)
            × (result.1.used ≡ writer.used + result.3) }

        // The items that were pushed are at the end: all, or none.
        ensures pushed { AppendsAll (list_of seen.log) (list_of result.0.log) result.2
            (written_by (suc writer.name) (take result.3 items.now)) }
        ensures count { (result.3 ≤ length items.now) × (result.2 + result.3 < 2 ^ 62) }
        ensures length { length (list_of result.0.log) ≡ result.2 + result.3 }
        ensures refused { result.3 < length items.now → (result.3 ≡ 0)
            × BeginsAmong result.2 (length items.now) }
    {
        let mut seen = seen;
        let (n, right) = self.acquire(rt, &mut seen, guess);
        let (seen, writer, pushed) = self.append_all(by, seen, right, writer, n, items);
        (seen, writer, n, pushed)
    }
}
