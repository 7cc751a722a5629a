//! A memo table of two threads: each cost in it is right, whichever thread inserted it.

ghost use Rattle.std.specs.Prelude.{◌≡◌, ◌*◌, IfOk};

use elsa_lock_free_map::handle::MapHandle;
use elsa_lock_free_map::map::LockFreeFrozenMap;
use elsa_tables::EntryRule;
use std::alloc::{AllocError, Global};
use std::hash::{BuildHasherDefault, FoldHasher};
use std::sync::Wait;
use std::test::*;
use std::thread;
use std::thread::Threads;

/// Each cost is that of its number: the square.
struct IsCost;

impl EntryRule<u32, u64> for IsCost {
    ghost use Rattle.std.specs.Prelude.{◌≡◌, ◌*◌};

    ghost holds = { λ number cost. cost ≡ number * number };
}

/// A table of costs.
type Costs = LockFreeFrozenMap<u32, u64, BuildHasherDefault<FoldHasher>, Global, IsCost>;

/// A handle of such a table.
type CostsHandle<'m> = MapHandle<'m, u32, u64, BuildHasherDefault<FoldHasher>, Global, IsCost>;

/// Returns the cost of a number, from the table or by a multiplication.
fn cost_of<R: Wait>(rt: &R, costs: &mut CostsHandle<'_>, number: u32) -> Result<u64, AllocError>
    ensures right { IfOk result (λ cost. cost ≡ number * number) }
{
    if let Some(cost) = costs.get(number) {
        return Ok(cost);
    }
    let cost = number as u64 * number as u64;
    Ok(costs.insert(rt, number, cost)?.value)
}

/// Returns the sum of the costs of the numbers below `count`.
fn sum_of<R: Wait>(rt: &R, costs: &Costs, count: u32) -> Result<u64, AllocError> {
    let mut handle = costs.handle();
    let mut sum = 0u64;
    for number in 0..count {
        sum = sum.wrapping_add(cost_of(rt, &mut handle, number)?);
    }
    Ok(sum)
}

/// Looks the cost of a number up by two threads.
pub fn both<R: Threads + Wait + Sync>(
    rt: &R,
    alloc: Global,
    number: u32,
) -> Result<(u64, u64), AllocError>
    ensures right { IfOk result (λ r. (r.0 ≡ number * number) × (r.1 ≡ number * number)) }
{
    let costs = Costs::with_rule(alloc, BuildHasherDefault::new())?;
    let (one, two) = thread::join(
        rt,
        || cost_of(rt, &mut costs.handle(), number),
        || cost_of(rt, &mut costs.handle(), number),
    );
    Ok((one?, two?))
}

#[test]
fn two_threads_had_a_wrong_cost(rt: HostRuntime) -> Result<(), Fail> {
    let costs = Costs::with_rule(rt.alloc(), BuildHasherDefault::new())?;
    let sums = thread::join(
        &rt,
        || sum_of(&rt, &costs, 1000),
        || sum_of(&rt, &costs, 1000),
    );
    assert_eq!(rt; (sums.0?, sums.1?), (332_833_500, 332_833_500));
    assert_eq!(rt; costs.handle().len(), 1000);
    assert_eq!(rt; both(&rt, rt.alloc(), 9)?, (81, 81));
    Ok(())
}
