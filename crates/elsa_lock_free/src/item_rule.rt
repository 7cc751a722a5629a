//! Which items a vector takes: any item, or only items that it doesn't have yet.
//!
//! The rule is part of the vector's type. A vector that takes any item has `push`. One that takes
//! only new items has only [`push_at_as`](crate::lock_free::LockFreeFrozenVec::push_at_as) and
//! [`Handle::push_at`](crate::lock_free::Handle::push_at), which require that the item is new.
ghost use Rattle.std.specs.Prelude.{◌≡◌, Bool, List, Some, slice_get, true, ℕ};
ghost use Rattle.elsa_lock_free.specs.SharedList.{items_of};
ghost use Rattle.elsa_lock_free.specs.declared.event.Entry.{Entry};

/// A rule that decides which items may be appended to a list, and by which writers.
pub trait ItemRule<T> {
    /// Whether an entry is new to a list of entries, so that it may be appended to it. An entry has
    /// an item, and the number of the writer that appends it: 0 for the items of a clone.
    ghost is_new: { List (Entry T) → Entry T → Type 0 };

    /// Whether no item can be at two indices.
    ghost distinct: { Bool };

    /// Whether no item can be at two indices.
    fn is_distinct() -> bool
        ensures { result ≡ Self.distinct };

    // Where no item can be at two indices, the item of an entry that is new to a list isn't in it.
    ghost apart: { distinct ≡ true → (es : List (Entry T)) (i : ℕ) (e : Entry T) →
        is_new es e → slice_get (items_of es) i ≡ Some e.item → ⊥ };
}

/// The rule that takes any item.
pub struct AnyItems;

impl<T> ItemRule<T> for AnyItems {
    ghost use Rattle.std.specs.Prelude.{false};
    ghost use Rattle.elsa_lock_free.specs.Distinct.{one_answer};

    ghost is_new = { λ es e. Unit {0} };

    ghost distinct = { false };

    ghost apart = { λ is es i e new at. one_answer is };

    fn is_distinct() -> bool {
        false
    }
}

/// The rule that takes an item only if it equals none in the list, so that no item has two indices.
pub struct DistinctItems;

impl<T: Eq> ItemRule<T> for DistinctItems {
    ghost use Rattle.std.specs.Prelude.{true};
    ghost use Rattle.elsa_lock_free.specs.Distinct.{IsAbsent, absent_is_nowhere};
    ghost use Rattle.elsa_lock_free.specs.SharedList.{items_of};

    ghost is_new = { λ es e. IsAbsent T.eq (items_of es) e.item };

    ghost distinct = { true };

    ghost apart = { λ is es i e new at.
        absent_is_nowhere T.eq T.Eq.laws.refl (items_of es) i e.item new at };

    fn is_distinct() -> bool {
        true
    }
}
