//! The rule of a vector, over `logbook`: what holds between any two atomic steps, and what a thread
//! gains at each step.
use crate::event::Event;
use crate::item_rule::ItemRule;
use elsa_slots::slots::HasSlots;
use logbook::{Gain, Plain, Play, Rule};
use std::alloc::Global;
use std::collections::LinkedList;
use std::marker::PhantomData;

/// What a step returns: the history before it.
pub type Log<T> = LinkedList<Event<T>, Global>;

/// The rule of a vector whose buffers are `B`, and which takes items by the rule `K`.
pub struct OneWord<B, K> {
    buffers: PhantomData<B>,
    items: PhantomData<K>,
}

impl<T, B: HasSlots<T>, K: ItemRule<T>> Rule<Event<T>, Log<T>> for OneWord<B, K> {
    ghost use Rattle.std.specs.Prelude.{[]};
    ghost use Rattle.elsa_lock_free.specs.OneWord.{IsKept};
    ghost use Rattle.elsa_lock_free.specs.Rights.{IsStep, rule_owns};

    ghost holds = { λ cells log. IsKept K.is_new cells log };

    ghost first = { [] };

    ghost hinted = { λ n log. Unit {0} };

    ghost shows = { λ log. log };

    ghost keeps = { λ names log. rule_owns T.row B.row B.slot_names B.fits names log };

    ghost moves = { λ ask before after answer. IsStep ask before after answer };
}

/// An acquire gains the right to end the hold, and the rights to write from the length on.
pub struct AcquireGain<B> {
    buffers: PhantomData<B>,
}

impl<T, B: HasSlots<T>> Gain<Event<T>, Log<T>> for AcquireGain<B> {
    ghost use Rattle.elsa_lock_free.specs.Rights.{acquire_gain};

    ghost after = { λ names about answer. acquire_gain T.row B.row B.slot_names B.fits names answer };
}

/// A read of the length gains the evidence that each index of the list was written.
pub struct ReadGain<B> {
    buffers: PhantomData<B>,
}

impl<T, B: HasSlots<T>> Gain<Event<T>, Log<T>> for ReadGain<B> {
    ghost use Rattle.elsa_lock_free.specs.Rights.{read_gain};

    ghost after = { λ names about answer. read_gain T.row B.row B.slot_names B.fits names about answer };
}

/// A release gains the writer's right back, and that the history was the known one.
pub struct ReleaseGain<B> {
    buffers: PhantomData<B>,
}

impl<T, B: HasSlots<T>> Gain<Event<T>, Log<T>> for ReleaseGain<B> {
    ghost use Rattle.elsa_lock_free.specs.Rights.{release_gain};

    ghost after = { λ names about answer. release_gain T.row B.row B.slot_names B.fits about answer };
}

/// A publish gains the same, with one ticket fewer.
pub struct PublishGain<B> {
    buffers: PhantomData<B>,
}

impl<T, B: HasSlots<T>> Gain<Event<T>, Log<T>> for PublishGain<B> {
    ghost use Rattle.elsa_lock_free.specs.Rights.{publish_gain};

    ghost after = { λ names about answer. publish_gain T.row B.row B.slot_names B.fits about answer };
}

/// The gain of a publish of several items: the same, minus one ticket for each item.
pub struct ExtendGain<B> {
    buffers: PhantomData<B>,
}

impl<T, B: HasSlots<T>> Gain<Event<T>, Log<T>> for ExtendGain<B> {
    ghost use Rattle.elsa_lock_free.specs.Rights.{extend_gain};

    ghost after = { λ names about answer. extend_gain T.row B.row B.slot_names B.fits about answer };
}

/// Nothing is gained.
pub struct Nothing;

impl<T> Gain<Event<T>, Log<T>> for Nothing {
    ghost use base.Fml.{ftrue};

    ghost after = { λ names about answer. ftrue };
}

/// A read of the word that exchanges nothing with the rule, by an offer that has its result
/// already.
pub struct PlainRead;

impl<T> Plain<(), Event<T>, Log<T>> for PlainRead {
    ghost use Rattle.std.specs.Prelude.{Some, []};
    ghost use Rattle.elsa_lock_free.specs.declared.event.Event.TheVariants.{Released};

    ghost ask = { λ n. Released };

    ghost state = { λ n. Some [] };
}

impl<T> Play<Event<T>, Log<T>> for PlainRead {
    ghost use Rattle.elsa_lock_free.specs.OneWord.{Sees};

    ghost then = { Sees };
}

/// A read of the length.
pub struct ReadLength;

impl<T> Play<Event<T>, Log<T>> for ReadLength {
    ghost use Rattle.elsa_lock_free.specs.OneWord.{Reads};

    ghost then = { Reads };
}

/// The exchange that acquires the word.
pub struct Acquire;

impl<T> Play<Event<T>, Log<T>> for Acquire {
    ghost use Rattle.elsa_lock_free.specs.OneWord.{Acquires};

    ghost then = { Acquires };
}

/// The exchange that ends the hold, with or without new entries.
pub struct EndHold;

impl<T> Play<Event<T>, Log<T>> for EndHold {
    ghost use Rattle.elsa_lock_free.specs.OneWord.{EndsHold};

    ghost then = { EndsHold };
}
