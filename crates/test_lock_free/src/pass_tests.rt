//! What a view reads of its observed prefix, and calls while a push is halted.
use crate::lock_free_tests::{comes, push_all};
use elsa_lock_free::lock_free::{Handle, LockFreeFrozenVec, Pass};
use std::alloc::{Allocator, Global};
use std::process::Abort;
use std::test::*;
use std::thread;
use test_alloc::Budget;

/// Checks that a walk over the observed prefix of the view returns the numbers below `count` in
/// order, with the right `size_hint` each time.
fn check_walk<R: Abort, A: Allocator + Copy>(
    rt: &R,
    vector: &LockFreeFrozenVec<u64, A>,
    pass: &Pass<u64, A>,
    count: u64,
) {
    let handle = Handle::of(vector, pass.again());
    let mut items = handle.iter();
    for number in 0..count {
        let left = (count - number) as usize;
        let got = (items.size_hint(), items.next());
        assert_eq!(rt; got, ((left, Some(left)), Some(number)));
    }
    assert_eq!(rt; (items.size_hint(), items.next()), ((0, Some(0)), None));
    assert_eq!(rt; items.next(), None);
}

/// The view has observed nothing, then all items, and then all but the last.
#[test]
fn a_walk_visited_what_its_view_had_not_observed(rt: HostRuntime) -> Result<(), Fail> {
    for count in [0, 1, 2, 3, 4, 14, 15, 16, 63, 64, 1000] {
        let vector = LockFreeFrozenVec::<u64>::new(rt.alloc())?;
        push_all(&rt, &vector, 0, count)?;
        let mut pass = vector.pass();
        check_walk(&rt, &vector, &pass, 0);
        assert_eq!(rt; vector.len_as(&mut pass) as u64, count);
        check_walk(&rt, &vector, &pass, count);
        assert_eq!(rt; vector.push(&rt, count), Ok(count as usize));
        check_walk(&rt, &vector, &pass, count);
    }
    Ok(())
}

#[test]
fn a_clone_or_a_merge_lost_what_was_observed(rt: HostRuntime) -> Result<(), Fail> {
    for count in [0, 3, 15, 64] {
        let vector = LockFreeFrozenVec::<u64>::new(rt.alloc())?;
        push_all(&rt, &vector, 0, count)?;
        let mut pass = vector.pass();
        let (copy, copy_pass) = vector.clone_as(&mut pass)?;
        let mut other = vector.pass();
        other.meet(&mut pass);
        check_walk(&rt, &copy, &copy_pass, count);
        check_walk(&rt, &vector, &other, count);
        check_walk(&rt, &vector, &pass, count);
    }
    Ok(())
}

/// Each call has a new view, which has then observed all items.
#[test]
fn a_call_by_a_new_view_had_a_wrong_result(rt: HostRuntime) -> Result<(), Fail> {
    let vector = LockFreeFrozenVec::<u64>::new(rt.alloc())?;
    push_all(&rt, &vector, 0, 3)?;
    let mut passes = [
        vector.pass(),
        vector.pass(),
        vector.pass(),
        vector.pass(),
        vector.pass(),
    ];
    assert_eq!(rt; vector.push_as(&rt, &mut passes[0], 3), Ok(3));
    assert_eq!(rt; vector.get_as(&mut passes[1], 3), Some(3));
    assert_eq!(rt; vector.len_as(&mut passes[2]), 4);
    let (copy, copy_pass) = vector.clone_as(&mut passes[3])?;
    let mut other = copy.pass();
    assert!(rt; vector.equals_as(&mut passes[4], &copy, &mut other));
    for pass in &passes {
        check_walk(&rt, &vector, pass, 4);
    }
    check_walk(&rt, &copy, &copy_pass, 4);
    check_walk(&rt, &copy, &other, 4);
    Ok(())
}

/// A view that has observed three numbers reads them, walks over them and finds no fourth while a
/// request is halted.
#[test]
fn a_reader_waited_for_a_halted_push(rt: HostRuntime) -> Result<(), Fail> {
    let (budget, handle) = (Budget::<Global>::new(rt.alloc()), &rt);
    let vector = LockFreeFrozenVec::<u64, _>::new(&budget)?;
    push_all(handle, &vector, 0, 3)?;
    budget.halt_next();
    let ((halted, still), pushed) = thread::join(
        handle,
        || {
            let mut pass = vector.pass();
            assert_eq!(rt; vector.len_as(&mut pass), 3);
            let halted = comes(|| budget.is_halted());
            for (index, item) in [(0, Some(0)), (1, Some(1)), (2, Some(2)), (3, None)] {
                assert_eq!(rt; (index, vector.get_as(&mut pass, index)), (index, item));
            }
            check_walk(handle, &vector, &pass, 3);
            let still = budget.is_halted();
            budget.go_on();
            (halted, still)
        },
        || vector.push(handle, 3),
    );
    assert_eq!(rt; (halted, still, pushed), (true, true, Ok(3)));
    Ok(())
}

/// The push of one thread is halted in its request, another pushes meanwhile, and a third lets the
/// request continue a long time after.
#[test]
fn a_push_that_waits_long_did_not_come_next(rt: HostRuntime) -> Result<(), Fail> {
    let (budget, handle) = (Budget::<Global>::new(rt.alloc()), &rt);
    let vector = LockFreeFrozenVec::<u64, _>::new(&budget)?;
    push_all(handle, &vector, 0, 3)?;
    budget.halt_next();
    let (first, (second, still)) = thread::join(
        handle,
        || vector.push(handle, 3),
        || {
            let halted = comes(|| budget.is_halted());
            thread::join(
                handle,
                || (halted, vector.push(handle, 4)),
                || {
                    for _ in 0..100_000 {
                        thread::yield_now();
                    }
                    let still = budget.is_halted();
                    budget.go_on();
                    still
                },
            )
        },
    );
    assert_eq!(rt; (first, second, still), (Ok(3), (true, Ok(4)), true));
    assert_eq!(rt; vector.len(), 5);
    Ok(())
}
