//! A merge of what was observed of a list twice, and what is observed with older evidence.
//! `test_calls` has the calls of the list, and those with what was observed at each size.
use elsa_arena::{FrozenVec, Observed};
use std::alloc::Global;
use std::test::*;

/// Returns the items that were observed.
fn items(alloc: Global, observed: &Observed<'_, u64>) -> Result<Vec<u64>, Fail> {
    Ok(observed.iter().copied().collect(alloc)?)
}

#[test]
fn a_merge_lost_an_item(rt: HostRuntime) -> Result<(), Fail> {
    let list: FrozenVec<u64> = FrozenVec::new(rt.alloc())?;
    let (mut one, mut two) = (list.observed(), list.observed());
    list.push_as(&mut one, 7)?;
    two.merge(&mut one);
    assert_eq!(rt; items(rt.alloc(), &one)?.as_slice(), [7].as_slice());
    assert_eq!(rt; items(rt.alloc(), &two)?.as_slice(), [7].as_slice());
    Ok(())
}

#[test]
fn evidence_was_not_found(rt: HostRuntime) -> Result<(), Fail> {
    let list: FrozenVec<u64> = FrozenVec::new(rt.alloc())?;
    list.push(7)?;
    let seen = list.observed().evidence();
    let moved = list;
    moved.push(8)?;
    let observed = moved.since(&seen);
    assert_eq!(rt; items(rt.alloc(), &observed)?.as_slice(), [7, 8].as_slice());
    Ok(())
}
