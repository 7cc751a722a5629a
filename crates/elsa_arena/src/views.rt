//! What the guards of this crate and of `elsa_cell` need of an [`Observed`] and of a [`Seen`],
//! beyond their public calls.
ghost use Rattle.std.specs.Prelude.{◌≡◌, ◌≤◌, length, true};
ghost use mathlib.Core.List.{IsPrefix};
ghost use Rattle.elsa_arena.specs.Observed.{EachHolds, IsStateOf};
ghost use Rattle.elsa_arena.specs.Parts.{IsNextSlotOf};

use crate::invariant::Invariant;
use crate::list_cell::NextSlot;
use crate::observed::{Observed, Seen};
use crate::state::{State, begins};
use elsa_slots::slots::Slots;
use std::alloc::Allocator;
use std::marker::PhantomData;

/// Returns evidence of all items of a state.
#[inline(always)]
pub fn evidence_of<T, A: Allocator + Copy, L: Invariant<T>>(
    state: &State<T, A>,
    _slots: &Slots<T, A>,
) -> Seen<T, A, L>
    requires state { IsStateOf _slots.now state.now }
    requires limit { length state.now.prefix.items ≤ L.most }
    requires holds { EachHolds L.holds state.now.prefix.items }
    ensures vector { result.vector ≡ _slots.now }
    ensures items { result.seen ≡ state.now.prefix.items }
{
    Seen {
        prefix: state.prefix.again(),
        count: state.count,
        invariant: PhantomData,
    }
}

/// Observes the items of which `seen` is evidence, and no others.
#[inline(always)]
pub fn observe<'v, T, A: Allocator + Copy, L: Invariant<T>>(
    slots: &'v Slots<T, A>,
    seen: Seen<T, A, L>,
) -> Observed<'v, T, A, L>
    requires { seen.vector ≡ slots.now }
    ensures { result ≡ seen }
{
    Observed { slots, seen }
}

/// Replaces what was observed by the items of which `seen` is evidence.
pub fn set_observed<T, A: Allocator + Copy, L: Invariant<T>>(
    observed: &mut Observed<'_, T, A, L>,
    seen: Seen<T, A, L>,
)
    requires { seen.vector ≡ observed.old.vector }
    ensures { observed.new ≡ seen }
{
    let _before = std::mem::replace(&mut observed.seen, seen);
}

/// Returns the slots of the list.
#[inline(always)]
pub fn slots_of<'v, T, A: Allocator + Copy, L: Invariant<T>>(
    observed: &Observed<'v, T, A, L>,
) -> &'v Slots<T, A>
    ensures { result.now ≡ observed.now.vector }
{
    observed.slots
}

/// Returns whether a state has all items of the evidence. It always has: evidence shows it, but not
/// which of two lists is longer.
pub fn is_behind<T, A: Allocator + Copy, L: Invariant<T>>(
    evidence: &Seen<T, A, L>,
    state: &State<T, A>,
) -> bool
    requires { IsStateOf evidence.now.vector state.now }
    ensures { result ≡ true → IsPrefix evidence.now.seen state.now.prefix.items }
{
    if state.count < evidence.count {
        return false;
    }
    begins(&evidence.prefix, &state.prefix);
    true
}

/// Returns whether the items before the next slot have all items of the evidence. They always have,
/// as [`is_behind`] says.
#[inline(always)]
pub fn is_before<T, A: Allocator + Copy, L: Invariant<T>>(
    evidence: &Seen<T, A, L>,
    next: &NextSlot<T, A>,
) -> bool
    requires { IsNextSlotOf evidence.now.vector next.now }
    ensures { result ≡ true → IsPrefix evidence.now.seen next.now.prefix.items }
{
    if next.count < evidence.count {
        return false;
    }
    begins(&evidence.prefix, &next.prefix);
    true
}
