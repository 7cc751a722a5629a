//! The history of a vector, passed on to other handles, by `elsa` alone.
use elsa::sync::{LockFreeFrozenVec, VectorHistory};
use std::alloc::AllocError;
use std::mem::size_of;
use std::test::*;

#[test]
fn a_read_with_a_history_did_not_observe_it(rt: HostRuntime) -> Result<(), AllocError> {
    let vector = LockFreeFrozenVec::<u64>::new(rt.alloc())?;
    let mut one = vector.handle();
    let begin = one.history();
    one.push(&rt, 7)?;
    let history = one.history().again();
    let mut two = vector.handle();
    assert_eq!(rt; two.len_after(&begin), 1);
    one.push(&rt, 8)?;
    assert_eq!(rt; two.len_after(&history), 2);
    assert_eq!(rt; *two.item(1), 8);
    history.is_made();
    history.is_one_with(&two.history());
    Ok(())
}

#[test]
fn a_history_had_bytes(rt: HostRuntime) {
    assert_eq!(rt; size_of::<VectorHistory<u64>>(), 0);
}
