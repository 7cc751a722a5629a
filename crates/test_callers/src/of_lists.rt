//! What callers can ensure by the contracts alone.
ghost use Rattle.std.specs.Prelude.{◌≡◌, ◌≤◌, ◌+◌, ◌++◌, ◌∷◌, [], length, IfSome};

use elsa_arena::arena::TypedArena;
use elsa_arena::vec::Hold;
use std::alloc::Allocator;

/// Stores two values, and returns them as read at their indices, or `None` if a call failed.
pub fn two_values<A: Allocator + Copy>(
    arena: &TypedArena<u64, A>,
    one: u64,
    two: u64,
) -> Option<(u64, u64)>
    ensures { IfSome result (λ r. (r.0 ≡ one) × (r.1 ≡ two)) }
{
    let mut observed = arena.observed();
    let first = arena.push_as(&mut observed, one).ok()?;
    let second = arena.push_as(&mut observed, two).ok()?;
    Some((*observed.get(first)?, *observed.get(second)?))
}

/// Stores two values under a guard that has capacity for them. It can't fail.
pub fn push_two<A: Allocator + Copy>(hold: &mut Hold<'_, u64, A>, one: u64, two: u64)
    requires room { length hold.old.seen + 2 ≤ hold.old.capacity }
    ensures { hold.new.seen ≡ hold.old.seen ++ one ∷ two ∷ [] }
{
    let Ok(_first) = hold.push(one) else {
        unreachable!()
    };
    let Ok(_second) = hold.push(two) else {
        unreachable!()
    };
}
