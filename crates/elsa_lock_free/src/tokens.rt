//! Tokens: what the lock holder and a pass own, and the offers by which they exchange it with the
//! rule. None has bytes.
//!
//! Each function here has a manual proof: it takes tokens apart and makes others of them, and does
//! nothing when it runs.
ghost use Rattle.std.specs.Prelude.{◌≡◌, ◌≢◌, ◌+◌, ◌*◌, ◌^◌, ◌<◌, ◌≤◌, ◌∷◌, ◌++◌, ℕ, suc, List, [], length, drop, slice_get, slice_index_or, None, Some};
ghost use mathlib.Core.List.{IsPrefix};
ghost use base.Stored.{coded_list, coded_ℕ};
ghost use base.Share.{three_quarters};
ghost use base.Growing.{latest};
ghost use Rattle.elsa_slots.specs.Ahead.{IsClosedAt, IsInOpenBuffer, IsOpenAt};
ghost use Rattle.elsa_slots.specs.Geometry.{IsAt};
ghost use Rattle.elsa_lock_free.specs.declared.event.Event.TheVariants.{Acquired, Published, Extended, Cloned, Released, OfferOf};
ghost use Rattle.elsa_lock_free.specs.declared.event.Entry.{Entry};
ghost use Rattle.elsa_lock_free.specs.History.{list_of, added, writer_of, used_of, pushes_of, others, behind};
ghost use Rattle.elsa_lock_free.specs.SharedList.{count, entry, items_of};
ghost use Rattle.elsa_lock_free.specs.Rights.{logs, head, buffer_slots_of, writer, OnlyPushed};

use crate::event::Event;
use crate::item_rule::ItemRule;
use crate::may_lock::LockPermit;
use crate::rule::{AcquireGain, ExtendGain, Log, OneWord, PublishGain, ReadGain, ReleaseGain};
use elsa_slots::slots::{HasSlots, WriteRights, Written, WrittenPrefix};
use logbook::{Gained, Offer, Seen, Start};
use std::marker::{Model, PhantomData};

/// The right to release the lock, at a history with these numbers of entries for its events. It has
/// no bytes.
pub struct Held {
    pub(crate) marker: PhantomData<()>,
    pub ghost name: { ℕ },
    pub ghost added: { List ℕ } by { coded_list coded_ℕ },
}

impl Model for Held {
    ghost also_owns = { λ h. latest logs three_quarters h.name h.added };
}

/// The right to append as a writer: all its tickets from `used` on.
pub struct Writer {
    pub(crate) marker: PhantomData<()>,
    pub ghost name: { ℕ },
    pub ghost used: { ℕ },
}

impl Model for Writer {
    ghost also_owns = { λ a. writer a.name a.used };
}

/// A book with an empty list for these buffers, held by its maker. The evidence, of some indices or
/// none, names the buffers.
pub fn start<T, B: HasSlots<T>, K: ItemRule<T>>(
    prefix: WrittenPrefix<T, B>,
) -> (
    Start<Event<T>, Log<T>, OneWord<B, K>>,
    Held,
    WrittenPrefix<T, B>,
)
    ensures { (result.0.shown ≡ []) × (buffer_slots_of result.0.names ≡ prefix.buffer_slots)
        × (result.1.name ≡ head result.0.names) × (result.1.added ≡ [])
        × (result.2.buffer_slots ≡ prefix.buffer_slots) × (result.2.items ≡ prefix.items) }
{
    spend!(prefix: WrittenPrefix);
    (
        Start {
            marker: PhantomData,
        },
        Held {
            marker: PhantomData,
        },
        WrittenPrefix {
            marker: PhantomData,
        },
    )
}

impl Writer {
    /// A new writer, which has pushed nothing.
    pub fn new() -> Writer
        ensures { result.used ≡ 0 }
    {
        Writer {
            marker: PhantomData,
        }
    }
}

/// An offer to acquire the word. It takes the permission to lock, so that no read of the length can
/// make one.
pub fn offer_acquire<T, B: HasSlots<T>, K: ItemRule<T>>(
    _may: LockPermit,
    seen: &Seen<Event<T>, Log<T>, OneWord<B, K>>,
) -> Offer<Event<T>, Log<T>, OneWord<B, K>, AcquireGain<B>>
    ensures { (result.names ≡ seen.now.names) × (result.ask ≡ Acquired) × (result.about ≡ [])
        × (result.state ≡ None) }
{
    acquire_offer(seen)
}

fn acquire_offer<T, B: HasSlots<T>, K: ItemRule<T>>(
    seen: &Seen<Event<T>, Log<T>, OneWord<B, K>>,
) -> Offer<Event<T>, Log<T>, OneWord<B, K>, AcquireGain<B>>
    ensures { (result.names ≡ seen.now.names) × (result.ask ≡ Acquired) × (result.about ≡ [])
        × (result.state ≡ None) }
{
    Offer {
        marker: PhantomData,
    }
}

/// Takes the gain of an acquire, if the next index begins a buffer that no thread has opened.
pub fn take_acquired_closed<T, B: HasSlots<T>>(
    right: Gained<Event<T>, Log<T>, AcquireGain<B>>,
    _buffer: usize,
) -> (Held, WriteRights)
    requires { length (list_of right.answer) + 1 ≡ 4 ^ _buffer }
    ensures { (result.0.name ≡ head right.names)
        × (result.0.added ≡ added (right.answer ++ Acquired ∷ []))
        × (result.1.of ≡ drop _buffer (buffer_slots_of right.names)) }
{
    spend!(right: Gained);
    (
        Held {
            marker: PhantomData,
        },
        WriteRights {
            marker: PhantomData,
        },
    )
}

/// What an acquire gained, if the next index is in an open buffer.
pub fn take_acquired_open<T, B: HasSlots<T>>(
    right: Gained<Event<T>, Log<T>, AcquireGain<B>>,
    _buffer: usize,
    _slot: usize,
) -> (Held, Written<B>, WriteRights, WriteRights)
    requires { IsAt (length (list_of right.answer)) _buffer _slot × (0 < _slot) }
    ensures { (result.0.name ≡ head right.names)
        × (result.0.added ≡ added (right.answer ++ Acquired ∷ []))
        × IsOpenAt (buffer_slots_of right.names) (length (list_of right.answer)) _buffer _slot
        result.1.of (B.slot_names result.1.value) result.2.of result.3.of }
{
    spend!(right: Gained);
    (
        Held {
            marker: PhantomData,
        },
        Written {
            marker: PhantomData,
        },
        WriteRights {
            marker: PhantomData,
        },
        WriteRights {
            marker: PhantomData,
        },
    )
}

/// An offer to release the word and leave the list: all that the acquire gained goes back.
pub fn offer_release<T, B: HasSlots<T>, K: ItemRule<T>>(
    seen: &Seen<Event<T>, Log<T>, OneWord<B, K>>,
    right: Gained<Event<T>, Log<T>, AcquireGain<B>>,
    writer: Writer,
) -> Offer<Event<T>, Log<T>, OneWord<B, K>, ReleaseGain<B>>
    requires { (right.names ≡ seen.now.names) × (seen.now.log ≡ right.answer ++ Acquired ∷ []) }
    ensures { (result.names ≡ seen.now.names) × (result.ask ≡ Released)
        × (result.about ≡ OfferOf writer.name writer.used ∷ seen.now.log) × (result.state ≡ None) }
{
    spend!(right: Gained, writer: Writer);
    Offer {
        marker: PhantomData,
    }
}

/// Makes an offer to publish an item, which was written in the slot of the next index. `slots` are
/// the rights to the later slots.
pub fn offer_publish<T, B: HasSlots<T>, K: ItemRule<T>>(
    seen: &Seen<Event<T>, Log<T>, OneWord<B, K>>,
    held: Held,
    opened: Written<B>,
    slots: WriteRights,
    further: WriteRights,
    writer: Writer,
    item: Written<T>,
    _buffer: usize,
    _slot: usize,
) -> Offer<Event<T>, Log<T>, OneWord<B, K>, PublishGain<B>>
    requires { (held.name ≡ head seen.now.names) × (held.added ≡ added seen.now.log)
        × IsOpenAt (buffer_slots_of seen.now.names) (length (list_of seen.now.log)) _buffer _slot
        opened.of (B.slot_names opened.value) (item.of ∷ slots.of) further.of
        × B.fits opened.value item.value }
    ensures { (result.names ≡ seen.now.names)
        × (result.ask ≡ Published (entry (suc writer.name) item.value))
        × (result.about ≡ OfferOf writer.name writer.used ∷ seen.now.log) × (result.state ≡ None) }
{
    spend!(held: Held, opened: Written, item: Written);
    spend!(slots: WriteRights, further: WriteRights, writer: Writer);
    Offer {
        marker: PhantomData,
    }
}

/// Makes an offer to publish several items at once, those of the evidence after the observed list,
/// if the next index begins a buffer that no thread has opened.
pub fn offer_extend_closed<T, B: HasSlots<T>, K: ItemRule<T>>(
    seen: &Seen<Event<T>, Log<T>, OneWord<B, K>>,
    held: Held,
    prefix: WrittenPrefix<T, B>,
    further: WriteRights,
    writer: Writer,
) -> Offer<Event<T>, Log<T>, OneWord<B, K>, ExtendGain<B>>
    requires { (held.name ≡ head seen.now.names) × (held.added ≡ added seen.now.log)
        × (prefix.buffer_slots ≡ buffer_slots_of seen.now.names)
        × IsPrefix (items_of (list_of seen.now.log)) prefix.items
        × IsClosedAt (buffer_slots_of seen.now.names) (length prefix.items) further.of }
    ensures { (result.names ≡ seen.now.names)
        × (result.ask ≡ Extended (suc writer.name) (behind seen.now.log prefix.items))
        × (result.about ≡ OfferOf writer.name writer.used
        ∷ Extended (suc writer.name) (behind seen.now.log prefix.items) ∷ seen.now.log)
        × (result.state ≡ None) }
{
    spend!(held: Held, prefix: WrittenPrefix, further: WriteRights, writer: Writer);
    Offer {
        marker: PhantomData,
    }
}

/// The same, if the next index is in an open buffer.
pub fn offer_extend_open<T, B: HasSlots<T>, K: ItemRule<T>>(
    seen: &Seen<Event<T>, Log<T>, OneWord<B, K>>,
    held: Held,
    prefix: WrittenPrefix<T, B>,
    opened: Written<B>,
    slots: WriteRights,
    further: WriteRights,
    writer: Writer,
) -> Offer<Event<T>, Log<T>, OneWord<B, K>, ExtendGain<B>>
    requires { (held.name ≡ head seen.now.names) × (held.added ≡ added seen.now.log)
        × (prefix.buffer_slots ≡ buffer_slots_of seen.now.names)
        × IsPrefix (items_of (list_of seen.now.log)) prefix.items
        × IsInOpenBuffer (buffer_slots_of seen.now.names) (length prefix.items)
        opened.of (B.slot_names opened.value) slots.of further.of }
    ensures { (result.names ≡ seen.now.names)
        × (result.ask ≡ Extended (suc writer.name) (behind seen.now.log prefix.items))
        × (result.about ≡ OfferOf writer.name writer.used
        ∷ Extended (suc writer.name) (behind seen.now.log prefix.items) ∷ seen.now.log)
        × (result.state ≡ None) }
{
    spend!(held: Held, prefix: WrittenPrefix, opened: Written);
    spend!(slots: WriteRights, further: WriteRights, writer: Writer);
    Offer {
        marker: PhantomData,
    }
}

/// Makes an offer to publish the items of a clone, if the next index begins a buffer that no thread
/// has opened.
pub fn offer_clone_closed<T, B: HasSlots<T>, K: ItemRule<T>>(
    seen: &Seen<Event<T>, Log<T>, OneWord<B, K>>,
    held: Held,
    prefix: WrittenPrefix<T, B>,
    further: WriteRights,
    writer: Writer,
) -> Offer<Event<T>, Log<T>, OneWord<B, K>, ReleaseGain<B>>
    requires { (held.name ≡ head seen.now.names) × (held.added ≡ [])
        × (prefix.buffer_slots ≡ buffer_slots_of seen.now.names)
        × IsClosedAt (buffer_slots_of seen.now.names) (length prefix.items) further.of }
    ensures { (result.names ≡ seen.now.names) × (result.ask ≡ Cloned prefix.items)
        × (result.about ≡ OfferOf writer.name writer.used ∷ []) × (result.state ≡ None) }
{
    spend!(held: Held, prefix: WrittenPrefix, further: WriteRights, writer: Writer);
    Offer {
        marker: PhantomData,
    }
}

/// The same, if the next index is in an open buffer.
pub fn offer_clone_open<T, B: HasSlots<T>, K: ItemRule<T>>(
    seen: &Seen<Event<T>, Log<T>, OneWord<B, K>>,
    held: Held,
    prefix: WrittenPrefix<T, B>,
    opened: Written<B>,
    slots: WriteRights,
    further: WriteRights,
    writer: Writer,
) -> Offer<Event<T>, Log<T>, OneWord<B, K>, ReleaseGain<B>>
    requires { (held.name ≡ head seen.now.names) × (held.added ≡ [])
        × (prefix.buffer_slots ≡ buffer_slots_of seen.now.names)
        × IsInOpenBuffer (buffer_slots_of seen.now.names) (length prefix.items)
        opened.of (B.slot_names opened.value) slots.of further.of }
    ensures { (result.names ≡ seen.now.names) × (result.ask ≡ Cloned prefix.items)
        × (result.about ≡ OfferOf writer.name writer.used ∷ []) × (result.state ≡ None) }
{
    spend!(held: Held, prefix: WrittenPrefix, opened: Written);
    spend!(slots: WriteRights, further: WriteRights, writer: Writer);
    Offer {
        marker: PhantomData,
    }
}

/// What a release gained: the writer, and that the history was as long as the known one.
pub fn take_released<T, B: HasSlots<T>>(gained: Gained<Event<T>, Log<T>, ReleaseGain<B>>) -> Writer
    ensures { (result.name ≡ writer_of gained.about) × (result.used ≡ used_of gained.about)
        × (length gained.answer ≡ length (others gained.about))
        × (OnlyPushed gained.about gained.answer) }
{
    spend!(gained: Gained);
    Writer {
        marker: PhantomData,
    }
}

/// What a publish gained: the same, with one ticket fewer.
pub fn take_published<T, B: HasSlots<T>>(gained: Gained<Event<T>, Log<T>, PublishGain<B>>) -> Writer
    ensures { (result.name ≡ writer_of gained.about) × (result.used ≡ suc (used_of gained.about))
        × (length gained.answer ≡ length (others gained.about))
        × (OnlyPushed gained.about gained.answer) }
{
    spend!(gained: Gained);
    Writer {
        marker: PhantomData,
    }
}

/// Takes the gain of a publish of several items: the writer, minus one ticket for each item.
pub fn take_extended<T, B: HasSlots<T>>(gained: Gained<Event<T>, Log<T>, ExtendGain<B>>) -> Writer
    ensures { (result.name ≡ writer_of gained.about)
        × (result.used ≡ used_of gained.about + pushes_of (others gained.about))
        × (length gained.answer ≡ length (others (others gained.about)))
        × (OnlyPushed gained.about gained.answer) }
{
    spend!(gained: Gained);
    Writer {
        marker: PhantomData,
    }
}

/// An offer to read the length.
pub fn offer_read<T, B: HasSlots<T>, K: ItemRule<T>>(
    seen: &Seen<Event<T>, Log<T>, OneWord<B, K>>,
    writer: Writer,
) -> Offer<Event<T>, Log<T>, OneWord<B, K>, ReadGain<B>>
    ensures { (result.names ≡ seen.now.names) × (result.ask ≡ OfferOf writer.name writer.used)
        × (result.about ≡ OfferOf writer.name writer.used ∷ []) × (result.state ≡ None) }
{
    spend!(writer: Writer);
    Offer {
        marker: PhantomData,
    }
}

/// What a read gained: the writer, which has no entries beyond those it pushed, and the evidence
/// for the whole list.
pub fn take_read<T, B: HasSlots<T>>(
    gained: Gained<Event<T>, Log<T>, ReadGain<B>>,
) -> (Writer, WrittenPrefix<T, B>)
    ensures { (result.0.name ≡ writer_of gained.about) × (result.0.used ≡ used_of gained.about)
        × OnlyPushed gained.about gained.answer
        × (result.1.buffer_slots ≡ buffer_slots_of gained.names)
        × (result.1.items ≡ items_of (list_of gained.answer)) }
{
    spend!(gained: Gained);
    (
        Writer {
            marker: PhantomData,
        },
        WrittenPrefix {
            marker: PhantomData,
        },
    )
}

/// A history that was seen has no more entries of a writer than it pushed.
pub fn bounded_by_tickets<T, B: HasSlots<T>, K: ItemRule<T>>(
    seen: &Seen<Event<T>, Log<T>, OneWord<B, K>>,
    writer: Writer,
) -> Writer
    ensures { (result.name ≡ writer.name) × (result.used ≡ writer.used)
        × (count (suc writer.name) (list_of seen.now.log) ≤ writer.used) }
{
    spend!(writer: Writer);
    Writer {
        marker: PhantomData,
    }
}

/// A history that was seen shows, for good, that each index of its list was written. It takes no
/// atomic step.
pub fn evidence<T, B: HasSlots<T>, K: ItemRule<T>>(
    _seen: &Seen<Event<T>, Log<T>, OneWord<B, K>>,
) -> WrittenPrefix<T, B>
    ensures { (result.buffer_slots ≡ buffer_slots_of _seen.now.names)
        × (result.items ≡ items_of (list_of _seen.now.log)) }
{
    WrittenPrefix {
        marker: PhantomData,
    }
}

/// Two writers have two names.
pub fn apart(one: Writer, other: Writer) -> (Writer, Writer)
    ensures { (result.0.name ≡ one.name) × (result.0.used ≡ one.used) × (result.1.name ≡ other.name)
        × (result.1.used ≡ other.used) × (one.name ≢ other.name) }
{
    spend!(one: Writer, other: Writer);
    (
        Writer {
            marker: PhantomData,
        },
        Writer {
            marker: PhantomData,
        },
    )
}

impl Writer {
    pub fn discard(self) {
        let Self { marker: _ } = self;
    }
}

unsafe impl Send for Writer {}
