//! Two threads push even numbers, and the list has what both pushed.

ghost use Rattle.std.specs.Prelude.{◌≡◌, ◌*◌, ◌%◌, Contains, IfOk};
ghost use Rattle.elsa_lock_free.specs.SharedList.{items_of};

use elsa_lock_free::item_rule::ItemRule;
use elsa_lock_free::lock_free::{LockFreeFrozenVec, Pass};
use std::alloc::{AllocError, Global};
use std::sync::Wait;
use std::test::*;
use std::thread;
use std::thread::Threads;

/// The rule of a vector of even numbers.
struct Even;

impl ItemRule<u64> for Even {
    ghost use Rattle.std.specs.Prelude.{◌≡◌, ◌%◌, false};
    ghost use Rattle.elsa_lock_free.specs.Distinct.{one_answer};

    ghost is_new = { λ entries entry. entry.item % 2 ≡ 0 };

    ghost distinct = { false };

    ghost apart = { λ is entries index entry new at. one_answer is };

    fn is_distinct() -> bool {
        false
    }
}

/// A vector of even numbers.
type Events = LockFreeFrozenVec<u64, Global, Even>;

/// Pushes twice a number, and returns a view that has observed it.
fn report<R: Wait>(
    rt: &R,
    events: &Events,
    number: u32,
) -> Result<Pass<u64, Global, Even>, AllocError>
    ensures same_vector { IfOk result (λ pass. pass.vector ≡ events.now) }
    ensures there { IfOk result (λ pass. Contains (items_of pass.seen) (2 * number)) }
{
    let mut handle = events.handle();
    let _index = handle.push(rt, 2 * number as u64)?;
    Ok(handle.into_pass())
}

/// Lets two threads push twice a number each, and returns the items.
pub fn reports<R: Threads + Wait + Sync>(
    rt: &R,
    alloc: Global,
    left: u32,
    right: u32,
) -> Result<Vec<u64>, AllocError>
    ensures left { IfOk result (λ items. Contains items.items (2 * left)) }
    ensures right { IfOk result (λ items. Contains items.items (2 * right)) }
    ensures even { IfOk result (λ items. (x : _) → Contains items.items x → x % 2 ≡ 0) }
{
    let events = Events::with_rule(alloc)?;
    let (one, two) = thread::join(
        rt,
        || report(rt, &events, left),
        || report(rt, &events, right),
    );
    let mut one = one?;
    let mut two = two?;
    one.meet(&mut two);
    let items = events.into_vec_as(&mut one)?;
    one.obeys_rule();
    Ok(items)
}

#[test]
fn a_report_of_one_of_two_threads_was_lost(rt: HostRuntime) -> Result<(), Fail> {
    for round in 0..100 {
        let items = reports(&rt, rt.alloc(), round, 100 + round)?;
        let (left, right) = (2 * round as u64, 200 + 2 * round as u64);
        assert!(rt;
            items.as_slice() == [left, right].as_slice()
                || items.as_slice() == [right, left].as_slice()
        );
    }
    Ok(())
}
