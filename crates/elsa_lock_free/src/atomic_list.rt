//! The part of a vector that threads share: its slots and its state word.
//!
//! The state word is twice the length, plus 1 while a thread has the lock. A read of the length is
//! one load. A push acquires the word by one exchange, opens a buffer if the length begins one,
//! writes the slot of the length, and publishes by a second exchange, which also releases the word.
//! These steps are in `push`, and those of many pushes under one lock in `extend`. `begin` makes a
//! list, empty or as a copy.
ghost use Rattle.std.specs.Prelude.{◌≡◌, ◌^◌, ◌<◌, ◌≤◌, [], ◌∷◌, drop, length, Some, slice_get};
ghost use lib.Pointwise.{pointwise};
ghost use mathlib.Core.List.{IsPrefix};
ghost use Rattle.elsa_lock_free.specs.Distinct.{EachIsNew};
ghost use Rattle.elsa_lock_free.specs.declared.event.Event.TheVariants.{OfferOf};
ghost use Rattle.elsa_lock_free.specs.History.{list_of};
ghost use Rattle.elsa_lock_free.specs.Rights.{buffer_slots_of};
ghost use Rattle.elsa_lock_free.specs.SeenHistory.{IsOf};
ghost use Rattle.elsa_lock_free.specs.OneWord.{IsMade, word_in, word_of};
ghost use Rattle.crossbeam_utils.specs.Padded.{padded_value};

mod begin;
mod extend;
mod push;

use crate::event::Event;
use crate::item_rule::ItemRule;
use crate::rule::{Log, Nothing, OneWord, PlainRead, ReadGain, ReadLength};
use crate::tokens::{Writer, evidence, offer_read};
use crossbeam_utils::CachePadded;
use elsa_slots::geometry::locate;
use elsa_slots::iter::{Iter, walk, walk_from};
use elsa_slots::slots::{Beside, Buffer, Sink, Slots, WrittenPrefix};
use logbook::{Gained, Offer, Seen, Word};
pub(crate) use push::{LIMIT, Ready, wait_a_little};
use std::alloc::Allocator;

/// What is known of a vector's history.
pub type SeenHistory<T, A, K, X> = Seen<Event<T>, Log<T>, OneWord<Buffer<T, A, X>, K>>;

/// The slots and the state word, with the evidence of a prefix of its history.
///
/// The word has cache lines of its own, since each push changes it and each read needs the slots.
/// Some processors fetch lines in pairs, so 128 bytes of padding separate the word from other data.
pub struct AtomicList<T, A: Allocator, K: ItemRule<T>, X: Beside<T> = ()> {
    // The items; the word, whose half is the length and whose last bit is the lock, on cache lines
    // of its own; and the history as it began, by which evidence is known to be of this list.
    pub(crate) slots: Slots<T, A, X>,
    word: CachePadded<CachePadded<Word<Event<T>, Log<T>, OneWord<Buffer<T, A, X>, K>>>>,
    pub(crate) first: SeenHistory<T, A, K, X>,
    ghost word_is: { padded_value (padded_value word) ≡ word_in first.book },
    ghost buffer_slots_are: { buffer_slots_of first.names ≡ slots },
    ghost all: { length slots ≡ 31 },
    ghost empty: { first.log ≡ [] },
}

/// What holds of a history that was seen: each entry of its list was new to those before it, the
/// list is below the limit, and the rule's steps made the history. It does nothing when it runs.
pub fn obeys_rule<T, A: Allocator, K: ItemRule<T>, X: Beside<T>>(seen: &SeenHistory<T, A, K, X>)
    ensures obeys_rule { EachIsNew K.is_new (list_of seen.now.log) }
    ensures limit { length (list_of seen.now.log) < 2 ^ 62 }
    ensures made { IsMade seen.now.log }
{
    let mut known = seen.again();
    known.learn(seen);
    drop(known);
}

impl<T, A: Allocator, K: ItemRule<T>, X: Beside<T>> AtomicList<T, A, K, X> {
    /// The word, by a load that exchanges nothing with the rule.
    fn load(&self, seen: &mut SeenHistory<T, A, K, X>) -> u64
        requires { seen.old.book ≡ self.now.first.book }
        ensures same { IsOf seen.new seen.old }
        ensures seen { IsPrefix seen.old.log seen.new.log }
        ensures word { result ≡ word_of seen.new.log }
    {
        let mut offer: Offer<Event<T>, Log<T>, OneWord<Buffer<T, A, X>, K>, Nothing> = seen.plain::<
            Nothing,
            (),
            PlainRead,
        >(&());
        self.word.load::<PlainRead, Nothing>(seen, &mut offer)
    }
}

// Drops each item once, in order, and deallocates all memory. No other thread has the list, so one
// load reads its last length.
impl<T: Drop, A: Allocator, K: ItemRule<T>, X: Beside<T> + Drop> Drop for AtomicList<T, A, K, X> {
    fn drop(self) {
        let mut seen = self.first.again();
        let len = self.load(&mut seen) as usize / 2;
        obeys_rule(&seen);
        let prefix = evidence(&seen);
        drop(seen);
        let Self { slots, word, first } = self;
        slots.end(len, &prefix).discard();
        prefix.discard();
        drop(word);
        drop(first);
    }
}

impl<T: Drop, A: Allocator + Copy, K: ItemRule<T>, X: Beside<T> + Drop> AtomicList<T, A, K, X> {
    /// Moves all `len` items to `to`, in order, and deallocates all memory. `prefix` is the
    /// evidence of a read of the length, after which no thread has pushed.
    pub fn move_items<S: Sink<T>>(
        self,
        len: usize,
        prefix: &WrittenPrefix<T, Buffer<T, A, X>>,
        to: &mut S,
    )
        requires prefix { prefix.now.buffer_slots ≡ buffer_slots_of self.first.names }
        requires length { (len ≡ length prefix.now.items) × (len < 2 ^ 62) }
        requires room { (S.received to.old ≡ []) × (len ≤ S.capacity to.old) }
        ensures received { S.received to.new ≡ prefix.now.items }
    {
        let Self { slots, word, first } = self;
        slots.move_items(len, prefix, to);
        drop(word);
        drop(first);
    }

    /// One item of what is known to be written. It takes no atomic step.
    pub fn item<'a>(&'a self, prefix: &WrittenPrefix<T, Buffer<T, A, X>>, index: usize) -> &'a T
        requires prefix { prefix.now.buffer_slots ≡ buffer_slots_of self.now.first.names }
        requires index { (index < length prefix.now.items) × (length prefix.now.items < 2 ^ 62) }
        ensures { slice_get prefix.now.items index ≡ Some result.now }
    {
        let (buffer, slot) = locate(index);
        let (opened, item) = prefix.at(index, buffer, slot);
        let answer = self.slots.get(buffer, slot, &opened, &item);
        opened.discard();
        item.discard();
        answer
    }

    /// Returns the value that is stored next to the slots of the buffer of an observed index. It
    /// takes no atomic step.
    pub fn beside<'a>(&'a self, prefix: &WrittenPrefix<T, Buffer<T, A, X>>, index: usize) -> &'a X
        requires prefix { prefix.now.buffer_slots ≡ buffer_slots_of self.now.first.names }
        requires index { (index < length prefix.now.items) × (length prefix.now.items < 2 ^ 62) }
        ensures { (item : T) → slice_get prefix.now.items index ≡ Some item → X.fits result.now item }
    {
        let (buffer, slot) = locate(index);
        let (opened, item) = prefix.at(index, buffer, slot);
        let answer = self.slots.beside(buffer, &opened);
        opened.discard();
        item.discard();
        answer
    }

    /// The length of the list, by one load, with the evidence for all of it.
    pub fn read_length(
        &self,
        seen: SeenHistory<T, A, K, X>,
        writer: Writer,
    ) -> (
        usize,
        SeenHistory<T, A, K, X>,
        Gained<Event<T>, Log<T>, ReadGain<Buffer<T, A, X>>>,
    )
        requires { IsOf seen self.now.first }
        ensures same { IsOf result.1 seen }
        ensures seen { IsPrefix seen.log result.1.log }
        ensures gained { (result.2.names ≡ seen.names)
            × (result.2.about ≡ OfferOf writer.name writer.used ∷ [])
            × (result.2.answer ≡ result.1.log) }
        ensures length { (result.0 ≡ length (list_of result.1.log)) × (result.0 < 2 ^ 62) }
    {
        let mut seen = seen;
        let mut offer = offer_read(&seen, writer);
        let found = self
            .word
            .load::<ReadLength, ReadGain<Buffer<T, A, X>>>(&mut seen, &mut offer);
        (found as usize / 2, seen, offer.into_gain())
    }
}

impl<T: Drop, A: Allocator + Copy, K: ItemRule<T>> AtomicList<T, A, K> {
    /// A walk over the items that are known to be written. It takes no atomic step.
    pub fn items<'a>(&'a self, prefix: WrittenPrefix<T, Buffer<T, A>>, len: usize) -> Iter<'a, T, A>
        requires prefix { prefix.buffer_slots ≡ buffer_slots_of self.now.first.names }
        requires length { (len ≡ length prefix.items) × (len < 2 ^ 62) }
        ensures { result ≡ prefix.items }
    {
        walk(&self.slots, prefix, len)
    }

    /// A walk over the items from an index on that are known to be written. It takes no atomic
    /// step.
    pub fn items_from<'a>(
        &'a self,
        prefix: WrittenPrefix<T, Buffer<T, A>>,
        len: usize,
        index: usize,
    ) -> Iter<'a, T, A>
        requires prefix { prefix.buffer_slots ≡ buffer_slots_of self.now.first.names }
        requires length { (len ≡ length prefix.items) × (len < 2 ^ 62) }
        requires index { index ≤ len }
        ensures { result ≡ drop index prefix.items }
    {
        walk_from(&self.slots, prefix, len, index)
    }
}

impl<T: Drop + PartialEq, A: Allocator + Copy, K: ItemRule<T>> AtomicList<T, A, K> {
    /// Whether what is known to be written in this vector and in another are `n` equal items each,
    /// one by one.
    pub fn has_items_of<L: ItemRule<T>>(
        &self,
        prefix: &WrittenPrefix<T, Buffer<T, A>>,
        other: &AtomicList<T, A, L>,
        other_prefix: &WrittenPrefix<T, Buffer<T, A>>,
        n: usize,
    ) -> bool
        requires prefix { (prefix.now.buffer_slots ≡ buffer_slots_of self.now.first.names)
            × (other_prefix.now.buffer_slots ≡ buffer_slots_of other.now.first.names) }
        requires length { (n ≡ length prefix.now.items) × (n ≡ length other_prefix.now.items)
            × (n < 2 ^ 62) }
        ensures { result ≡ pointwise T.eq prefix.now.items other_prefix.now.items }
    {
        let mut equal = true;
        let mut index = 0;
        while equal && index < n {
            let item = self.item(prefix, index);
            let other_item = other.item(other_prefix, index);
            equal = *item == *other_item;
            index += 1;
        }
        equal
    }
}
