//! How a list begins: with nothing, or with a copy of what was seen of another.
ghost use Rattle.std.specs.Prelude.{◌≡◌, false, ◌^◌, ◌<◌, [], ◌∷◌, length, None, IfOk, List, ℕ};
ghost use Rattle.elsa_slots.specs.Ahead.{GoesOn};
ghost use Rattle.elsa_lock_free.specs.Distinct.{EachIsNew};
ghost use Rattle.elsa_lock_free.specs.SharedList.{copied};
ghost use Rattle.elsa_lock_free.specs.declared.event.Event.TheVariants.{Cloned, OfferOf};
ghost use Rattle.elsa_lock_free.specs.History.{entries, is_held, list_of, added};
ghost use Rattle.elsa_lock_free.specs.Rights.{head, buffer_slots_of};
ghost use Rattle.elsa_lock_free.specs.SeenHistory.{IsOf};

use super::{AtomicList, SeenHistory};
use crate::event::Event;
use crate::item_rule::{AnyItems, ItemRule};
use crate::rule::{EndHold, Log, OneWord, ReleaseGain};
use crate::tokens::{Held, Writer, offer_clone_closed, offer_clone_open, start, take_released};
use crossbeam_utils::CachePadded;
use elsa_slots::slots::{Ahead, Beside, Buffer, Copied, Slots, WriteRights, WrittenPrefix};
use logbook::{Offer, Seen, Word};
use std::alloc::{AllocError, Allocator};

impl<T: Drop, A: Allocator + Copy, K: ItemRule<T>, X: Beside<T> + Drop> AtomicList<T, A, K, X> {
    /// An empty list, one that is filled with nothing, and its history, which leaves the word free.
    pub fn new(alloc: A) -> Result<(AtomicList<T, A, K, X>, SeenHistory<T, A, K, X>), AllocError>
        ensures same_vector { IfOk result (λ r. IsOf r.1 r.0.first) }
        ensures free { IfOk result (λ r. is_held r.1.log ≡ false) }
        ensures empty { IfOk result (λ r. list_of r.1.log ≡ []) }
    {
        let (slots, further) = Slots::new(alloc)?;
        let prefix = WrittenPrefix::none(&further);
        let ahead = Ahead {
            opened: None,
            slots: WriteRights::none(),
            further,
        };
        let (list, seen) = AtomicList::filled(slots, prefix, ahead, 0);
        Ok((list, seen))
    }

    /// The list of `n` items in these slots, and its history. Its maker holds the word at first,
    /// and publishes the items.
    fn filled(
        slots: Slots<T, A, X>,
        prefix: WrittenPrefix<T, Buffer<T, A, X>>,
        ahead: Ahead<T, A, X>,
        n: usize,
    ) -> (AtomicList<T, A, K, X>, SeenHistory<T, A, K, X>)
        requires slots { length slots ≡ 31 }
        requires prefix { (prefix.buffer_slots ≡ slots) × (n ≡ length prefix.items) × (n < 2 ^ 62) }
        requires ahead { GoesOn slots n ahead.opened ahead.slots.of ahead.further.of }
        requires obeys_rule { EachIsNew K.is_new (copied prefix.items) }

        // The history of the new list is that these items were published.
        ensures same_vector { IsOf result.1 result.0.first }
        ensures items { list_of result.1.log ≡ copied prefix.items }
        ensures history { result.1.log ≡ Cloned prefix.items ∷ [] }
    {
        let (start, held, prefix) = start(prefix);
        let (first, mut one, _two) = Seen::open(start, 1, 0);
        let list = AtomicList {
            slots,
            word: CachePadded::new(CachePadded::new(Word::tracked(1, &mut one))),
            first,
        };
        let seen = list.publish_copies(held, prefix, ahead, n);
        (list, seen)
    }

    /// Publishes the items of a clone. Only its maker holds it.
    fn publish_copies(
        &self,
        held: Held,
        prefix: WrittenPrefix<T, Buffer<T, A, X>>,
        ahead: Ahead<T, A, X>,
        n: usize,
    ) -> SeenHistory<T, A, K, X>
        requires held { (held.name ≡ head self.now.first.names) × (held.added ≡ []) }
        requires prefix { (prefix.buffer_slots ≡ buffer_slots_of self.now.first.names)
            × (n ≡ length prefix.items) × (n < 2 ^ 62) }
        requires ahead { GoesOn (buffer_slots_of self.now.first.names) n
            ahead.opened ahead.slots.of ahead.further.of }
        requires obeys_rule { EachIsNew K.is_new (copied prefix.items) }

        // The history is that these items were published.
        ensures same_vector { IsOf result self.now.first }
        ensures items { list_of result.log ≡ copied prefix.items }
        ensures history { result.log ≡ Cloned prefix.items ∷ [] }
    {
        let Ahead {
            opened,
            slots,
            further,
        } = ahead;
        let seen = self.first.again();
        let writer = Writer::new();
        match opened {
            Some(opened) => {
                let offer = offer_clone_open(&seen, held, prefix, opened, slots, further, writer);
                self.publish_by(seen, offer, n)
            }
            None => {
                slots.discard();
                let offer = offer_clone_closed(&seen, held, prefix, further, writer);
                self.publish_by(seen, offer, n)
            }
        }
    }

    /// Ends the first hold by an offer of `n` items.
    fn publish_by(
        &self,
        seen: SeenHistory<T, A, K, X>,
        offer: Offer<Event<T>, Log<T>, OneWord<Buffer<T, A, X>, K>, ReleaseGain<Buffer<T, A, X>>>,
        n: usize,
    ) -> SeenHistory<T, A, K, X>
        requires same_vector { IsOf seen self.now.first × (seen.log ≡ []) }
        requires offer { (offer.names ≡ seen.names) × (offer.state ≡ None) }
        requires request { (xs : List T) × (offer.ask ≡ Cloned xs) × (n ≡ length xs) × (n < 2 ^ 62)
            × EachIsNew K.is_new (copied xs) }
        requires about { (a : ℕ) × (k : ℕ) × (offer.about ≡ OfferOf a k ∷ []) }

        // The history is the one of the offer.
        ensures same { IsOf result seen }
        ensures items { list_of result.log ≡ entries offer.ask }
        ensures history { result.log ≡ offer.ask ∷ [] }
    {
        let mut seen = seen;
        let mut offer = offer;
        let mut pen = seen.no_pen();
        self.word
            .compare_exchange::<EndHold, ReleaseGain<Buffer<T, A, X>>>(
                1,
                2 * n as u64,
                &mut seen,
                &mut offer,
                &mut pen,
            );
        take_released(offer.into_gain()).discard();
        seen
    }
}

impl<T: Copy + Drop, A: Allocator + Copy, K: ItemRule<T>> AtomicList<T, A, K> {
    /// A vector of its own with the first `n` items of what was seen, which have no writer, and its
    /// history: that they were published, and nothing else.
    pub fn copy(
        &self,
        n: usize,
        prefix: &WrittenPrefix<T, Buffer<T, A>>,
    ) -> Result<(AtomicList<T, A, AnyItems>, SeenHistory<T, A, AnyItems, ()>), AllocError>
        requires prefix { (prefix.now.buffer_slots ≡ buffer_slots_of self.now.first.names)
            × (n ≡ length prefix.now.items) × (n < 2 ^ 62) }
        ensures same_vector { IfOk result (λ r. IsOf r.1 r.0.first) }
        ensures items { IfOk result (λ r. list_of r.1.log ≡ copied prefix.now.items) }
        ensures history { IfOk result (λ r. r.1.log ≡ Cloned prefix.now.items ∷ []) }
    {
        let Copied {
            slots,
            prefix,
            ahead,
        } = self.slots.copy_below(n, prefix)?;
        Ok(AtomicList::filled(slots, prefix, ahead, n))
    }
}
