//! Vectors whose items are moved out: each item comes out once, in order; and a vector whose items
//! can't be moved out is returned whole.
use crate::owner_tests::{Heap, Item, LENGTHS, push_all};
use elsa_lock_free::lock_free::LockFreeFrozenVec;
use std::alloc::Global;
use std::process::Abort;
use std::sync::Arc;
use std::test::*;
use test_alloc::Budget;

/// Checks that the items that came out are the ones that were pushed, and are the only memory that
/// is still allocated, and that each is dropped once.
fn check_items<R: Abort>(
    rt: &R,
    items: Vec<Item, Heap<'_>>,
    heap: Heap<'_>,
    owner: &Arc<u64, Global>,
    count: usize,
) {
    assert_eq!(rt; (items.len(), Arc::strong_count(owner)), (count, count + 1));
    for (index, item) in items.iter().enumerate() {
        assert_eq!(rt; item.number, index);
    }
    let blocks = if count == 0 { 0 } else { 1 };
    assert_eq!(rt; heap.granted() - heap.given(), blocks, "{count} items");
    drop(items);
    let got = (Arc::strong_count(owner), heap.given());
    assert_eq!(rt; got, (1, heap.granted()));
}

/// The view by which the items come out has observed none of them.
#[test]
fn an_item_did_not_come_out_of_its_vector(rt: HostRuntime) -> Result<(), Fail> {
    let owner = Arc::new(rt.alloc(), 7u64)?;
    for count in LENGTHS {
        let heap = Budget::new(rt.alloc());
        let vec = LockFreeFrozenVec::<Item, Heap<'_>>::new(&heap)?;
        push_all(&rt, &vec, &owner, 0, count)?;
        let mut pass = vec.pass();
        let Ok(items) = vec.into_vec_as(&mut pass) else {
            return Err(Fail::from("the items could not be moved out"));
        };
        assert_eq!(rt; pass.seen_len(), count);
        check_items(&rt, items, &heap, &owner, count);
    }
    Ok(())
}

/// The vector that is returned has its items, and takes another one.
#[test]
fn a_vector_was_lost_when_its_items_could_not_come_out(rt: HostRuntime) -> Result<(), Fail> {
    let owner = Arc::new(rt.alloc(), 7u64)?;
    for count in LENGTHS.into_iter().skip(1) {
        let heap = Budget::new(rt.alloc());
        let vec = LockFreeFrozenVec::<Item, Heap<'_>>::new(&heap)?;
        push_all(&rt, &vec, &owner, 0, count)?;
        heap.refuse_next(1);
        let Err(failed) = vec.into_vec() else {
            return Err(Fail::from("the items were moved out without memory"));
        };
        heap.refuse_next(0);
        let vec = failed.value;
        assert_eq!(rt; (vec.len(), Arc::strong_count(&owner)), (count, count + 1));
        assert_eq!(rt; push_all(&rt, &vec, &owner, count, count + 1), Ok(1));
        let Ok(items) = vec.into_vec() else {
            return Err(Fail::from("the items could not be moved out"));
        };
        check_items(&rt, items, &heap, &owner, count + 1);
    }
    Ok(())
}

/// A handle has observed a third of the items before the others are pushed.
#[test]
fn an_iterator_over_references_missed_an_item(rt: HostRuntime) -> Result<(), Fail> {
    let owner = Arc::new(rt.alloc(), 7u64)?;
    for count in LENGTHS {
        let vec = LockFreeFrozenVec::<Item>::new(rt.alloc())?;
        push_all(&rt, &vec, &owner, 0, count / 3)?;
        let mut handle = vec.handle();
        let mut next = handle.len();
        push_all(&rt, &vec, &owner, count / 3, count)?;
        for item in handle.news().refs() {
            assert_eq!(rt; item.number, next);
            next += 1;
        }
        assert_eq!(rt; next, count);
        let mut refs = handle.iter().refs();
        for number in 0..count {
            assert_eq!(rt; refs.size_hint().0, count - number);
            assert_eq!(rt; refs.next().map(|item| item.number), Some(number));
        }
        assert!(rt; refs.size_hint().0 == 0 && refs.next().is_none());
    }
    Ok(())
}

#[test]
fn a_number_of_two_merged_views_did_not_come_out(rt: HostRuntime) -> Result<(), Fail> {
    let vec = LockFreeFrozenVec::<u64>::new(rt.alloc())?;
    let (mut one, mut other) = (vec.handle(), vec.handle());
    let got = (one.push(&rt, 1).ok(), other.push(&rt, 2).ok());
    assert_eq!(rt; got, (Some(0), Some(1)));
    let (mut one, mut other) = (one.into_pass(), other.into_pass());
    one.meet(&mut other);
    let Ok(numbers) = vec.into_vec_as(&mut one) else {
        return Err(Fail::from("the items could not be moved out"));
    };
    assert_eq!(rt; numbers.as_slice(), [1, 2].as_slice());
    Ok(())
}
