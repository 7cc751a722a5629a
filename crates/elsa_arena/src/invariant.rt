//! [`Invariant`]: the limit of a collection's items, and what holds of each item.
ghost use Rattle.std.specs.Prelude.{ℕ};

/// The limit of a collection's items, and what holds of each item: a type parameter of
/// [`Items`](crate::items::Items), of [`Observed`](crate::observed::Observed) and of
/// [`Seen`](crate::observed::Seen).
pub trait Invariant<T> {
    // The greatest number of items.
    ghost most: { ℕ };

    // What holds of each item.
    ghost holds: { T → Type 0 };
}

/// The invariant of a list: at most `2^62 - 1` items, whichever they are.
pub struct OfList;

impl<T> Invariant<T> for OfList {
    ghost use Rattle.std.specs.Prelude.{◌-◌, ◌^◌};

    ghost most = { 2 ^ 62 - 1 };

    ghost holds = { λ _. Unit {0} };
}
