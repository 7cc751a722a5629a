//! Pushes at an index: of two at the same one, the second returns `None`, reads the item of the
//! first, and pushes after it.
use elsa_lock_free::lock_free::LockFreeFrozenVec;
use std::test::*;

#[test]
fn of_two_pushes_at_an_index_both_succeeded(rt: HostRuntime) -> Result<(), Fail> {
    let vector = LockFreeFrozenVec::<u64>::new(rt.alloc())?;
    let (mut one, mut other) = (vector.pass(), vector.pass());
    assert_eq!(rt; vector.push_at_as(&rt, &mut one, 0, 5), Ok(Some(0)));
    assert_eq!(rt; vector.push_at_as(&rt, &mut other, 0, 5), Ok(None));
    assert_eq!(rt; vector.get_as(&mut other, 0), Some(5));
    assert!(rt; !vector.is_distinct());
    Ok(())
}

#[test]
fn of_two_pushes_into_a_vector_of_distinct_items_both_succeeded(
    rt: HostRuntime,
) -> Result<(), Fail> {
    let vector = LockFreeFrozenVec::<u64, _, _>::distinct(rt.alloc())?;
    let (mut one, mut other) = (vector.pass(), vector.pass());
    assert_eq!(rt; vector.push_at_as(&rt, &mut one, 0, 5), Ok(Some(0)));
    assert_eq!(rt; vector.push_at_as(&rt, &mut other, 0, 5), Ok(None));
    assert_eq!(rt; vector.get_as(&mut other, 0), Some(5));
    assert_eq!(rt; vector.push_at_as(&rt, &mut other, 1, 6), Ok(Some(1)));
    let got = (vector.is_distinct(), vector.clone()?.is_distinct());
    assert_eq!(rt; got, (true, false));
    Ok(())
}
