// Where items go that are moved out of their slots.
ghost use Rattle.std.specs.Prelude.{◌≡◌, ℕ, ◌^◌, ◌<◌, ◌≤◌, List, [], ◌∷◌, ◌++◌, IfOk, length, vec_capacity};
ghost use base.Fml.{ftrue};

use std::alloc::{AllocError, Allocator};
use std::marker::{Model, PhantomData};

/// A receiver of items that are moved out of their slots.
pub trait Sink<T> {
    /// The items that were received, in order.
    ghost received: { Self → List T };

    /// The number of items that it can receive in total.
    ghost capacity: { Self → ℕ };

    /// Receives the next item. It cannot fail.
    fn receive(&mut self, item: T)
        requires room { length (received self.old) < capacity self.old }
        ensures received { received self.new ≡ received self.old ++ item ∷ [] }
        ensures capacity { capacity self.new ≡ capacity self.old };
}

/// A receiver that is made with capacity for a number of items.
pub trait Collection<T, A>: Sink<T> + Sized {
    /// Makes an empty receiver with capacity for `count` items.
    ///
    /// # Errors
    /// Fails if the allocation fails.
    fn with_capacity(alloc: A, count: usize) -> Result<Self, AllocError>
        ensures empty { IfOk result (λ s. Self.received s ≡ []) }
        ensures capacity { IfOk result (λ s. count ≤ Self.capacity s) };
}

/// The items that a receiver has received, in order, for contracts. It has no bytes.
pub struct Received<T> {
    marker: PhantomData<T>,
    pub ghost items: { List T },
}

impl<T> Model for Received<T> {
    ghost also_owns = { λ _. ftrue };
}

impl<T> Received<T> {
    /// Makes the record of no item.
    pub fn none() -> Received<T>
        ensures { result.items ≡ [] }
    {
        Received {
            marker: PhantomData,
        }
    }

    /// Adds an item at the end. It does nothing when it runs.
    pub fn record(&mut self, _item: &T)
        ensures { self.new.items ≡ self.old.items ++ _item.now ∷ [] }
    {}

    /// Discards the record.
    pub fn discard(self) {
        let Self { marker: _ } = self;
    }
}

/// A receiver that drops each item. Contracts see the items that it dropped, in order. It has no
/// bytes.
pub struct Dropped<T> {
    received: Received<T>,
}

impl<T> Model for Dropped<T> {
    ghost use Rattle.std.specs.Prelude.{List};

    ghost Value = { List T };

    ghost view = { λ d. d.received.items };
}

impl<T> Dropped<T> {
    /// Makes a receiver that has dropped no item.
    pub(super) fn none() -> Dropped<T>
        ensures { result ≡ [] }
    {
        Dropped {
            received: Received::none(),
        }
    }

    /// Discards the record.
    pub fn discard(self) {
        let Self { received } = self;
        received.discard();
    }
}

impl<T: Drop> Sink<T> for Dropped<T> {
    ghost received = { λ d. d };

    ghost capacity = { λ _. 2 ^ 62 };

    fn receive(&mut self, item: T) {
        self.received.record(&item);
        drop(item);
    }
}

impl<T, B: Allocator> Sink<T> for Vec<T, B> {
    ghost received = { λ v. v.items };

    ghost capacity = { λ v. vec_capacity v };

    fn receive(&mut self, item: T) {
        self.push_reserved(item);
    }
}

impl<T, B: Allocator> Collection<T, B> for Vec<T, B> {
    fn with_capacity(alloc: B, count: usize) -> Result<Vec<T, B>, AllocError> {
        Vec::with_capacity(alloc, count)
    }
}
