//! The history of a vector: each acquire, publish and release of its lock, in order.
ghost use Rattle.std.specs.Prelude.{◌≡◌, ◌<◌, ◌≤◌, ◌^◌, ◌⊎◌, length};
ghost use mathlib.Core.List.{IsPrefix};
ghost use Rattle.elsa_lock_free.specs.History.{list_of};
ghost use Rattle.elsa_lock_free.specs.OneWord.{IsMade};

use crate::atomic_list::{SeenHistory, obeys_rule};
use crate::item_rule::{AnyItems, ItemRule};
use elsa_slots::slots::Beside;
use std::alloc::{Allocator, Global};
use std::marker::Model;

/// The history of a vector, as far as a view has observed it. It has no bytes and no right to push,
/// and can be copied and passed to other threads. Contracts see the vector and the events, in
/// order.
///
/// A vector has one history: of any two that were observed, one is a prefix of the other.
pub struct VectorHistory<T, A: Allocator = Global, K: ItemRule<T> = AnyItems, X: Beside<T> = ()> {
    pub(crate) seen: SeenHistory<T, A, K, X>,
}

impl<T, A: Allocator, K: ItemRule<T>, X: Beside<T>> Model for VectorHistory<T, A, K, X> {
    ghost use Rattle.elsa_lock_free.specs.SeenHistory.{Past};

    ghost Value = { Past T };

    ghost view = { λ h. record { vector = (h.seen.book, h.seen.names); events = h.seen.log } };
}

impl<T, A: Allocator, K: ItemRule<T>, X: Beside<T>> VectorHistory<T, A, K, X> {
    /// Returns a copy.
    pub fn again(&self) -> VectorHistory<T, A, K, X>
        ensures { result ≡ self.now }
    {
        VectorHistory {
            seen: self.seen.again(),
        }
    }

    /// Proves that the atomic steps of the vector's rule lead from the empty history to this one.
    /// It does nothing at run time.
    pub fn is_made(&self)
        ensures made { IsMade self.now.events }
        ensures limit { length (list_of self.now.events) < 2 ^ 62 }
    {
        obeys_rule(&self.seen);
    }

    /// Proves that of two observed histories of a vector one is a prefix of the other. It does
    /// nothing at run time.
    pub fn is_one_with(&self, other: &VectorHistory<T, A, K, X>)
        requires same_vector { self.now.vector ≡ other.now.vector }
        ensures one { IsPrefix self.now.events other.now.events
            ⊎ IsPrefix other.now.events self.now.events }
    {
        let mut both = self.seen.again();
        both.learn(&other.seen);
        drop(both);
    }
}

impl<T, A: Allocator, K: ItemRule<T>, X: Beside<T>> Drop for VectorHistory<T, A, K, X> {
    fn drop(self) {
        let VectorHistory { seen } = self;
        drop(seen);
    }
}

// What it has is history that was seen: no reference, and nothing of one thread.
unsafe impl<T, A: Allocator, K: ItemRule<T>, X: Beside<T>> Send for VectorHistory<T, A, K, X> {}

unsafe impl<T, A: Allocator, K: ItemRule<T>, X: Beside<T>> Sync for VectorHistory<T, A, K, X> {}
