//! A vector with a rule of its caller's: each item is even, whichever thread pushed it.
ghost use Rattle.std.specs.Prelude.{◌≡◌, ◌%◌, IfSome};

use elsa_lock_free::item_rule::ItemRule;
use elsa_lock_free::lock_free::{Handle, LockFreeFrozenVec};
use std::alloc::{AllocError, Global};
use std::sync::Wait;
use std::test::*;
use std::thread;

/// The rule of a vector of even numbers. An item may be pushed to any list, and may be in it twice.
struct Even;

impl ItemRule<u64> for Even {
    ghost use Rattle.std.specs.Prelude.{◌≡◌, ◌%◌, false};
    ghost use Rattle.elsa_lock_free.specs.Distinct.{one_answer};

    ghost is_new = { λ entries entry. entry.item % 2 ≡ 0 };

    ghost distinct = { false };

    ghost apart = { λ is entries index entry new at. one_answer is };

    fn is_distinct() -> bool {
        false
    }
}

/// A handle of such a vector.
type Evens<'v> = Handle<'v, u64, Global, Even>;

/// Pushes twice the number, and returns its index, or `None` if another thread pushed meanwhile.
fn push_double<R: Wait>(
    rt: &R,
    evens: &mut Evens<'_>,
    number: u32,
) -> Result<Option<usize>, AllocError> {
    let len = evens.len();
    evens.push_at(rt, len, 2 * number as u64)
}

/// Returns the item at an index, which is even, whichever thread pushed it.
fn read(evens: &mut Evens<'_>, index: usize) -> Option<u64>
    ensures { IfSome result (λ item. item % 2 ≡ 0) }
{
    let item = evens.get(index);
    evens.obeys_rule();
    item
}

/// Pushes twice the number, and returns whether one of 10,000 attempts pushed it.
fn push_one<R: Wait>(rt: &R, evens: &mut Evens<'_>, number: u32) -> bool {
    for _ in 0..10_000 {
        if let Ok(Some(_)) = push_double(rt, evens, number) {
            return true;
        }
    }
    false
}

/// Pushes the doubles of 100 numbers, and returns whether each was pushed.
fn push_all<R: Wait>(rt: &R, vector: &LockFreeFrozenVec<u64, Global, Even>, first: u32) -> bool {
    let mut evens = vector.handle();
    for number in 0..100u32 {
        if !push_one(rt, &mut evens, first.wrapping_add(number)) {
            return false;
        }
    }
    true
}

#[test]
fn a_vector_of_even_numbers_lost_an_item_of_two_threads(rt: HostRuntime) -> Result<(), Fail> {
    let vector = LockFreeFrozenVec::<u64, Global, Even>::with_rule(rt.alloc())?;
    let pushed = thread::join(
        &rt,
        || push_all(&rt, &vector, 0),
        || push_all(&rt, &vector, 100),
    );
    let (mut evens, mut sum) = (vector.handle(), 0u64);
    for index in 0..200 {
        sum = sum.wrapping_add(read(&mut evens, index).unwrap_or(0));
    }
    assert_eq!(rt; pushed, (true, true));
    assert_eq!(rt; sum, 39_800);
    Ok(())
}
