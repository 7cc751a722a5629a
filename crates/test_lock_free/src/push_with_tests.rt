//! Items that are made for their own index: each is at the index for which it was made, also if
//! threads push at the same time, and nothing is pushed if an allocation fails.
use elsa_lock_free::lock_free::LockFreeFrozenVec;
use std::alloc::{AllocError, Global};
use std::process::Abort;
use std::sync::{Arc, Wait};
use std::test::*;
use std::thread;
use test_alloc::Budget;

/// The number of pushes of each thread.
const MANY: usize = 2000;

/// A node that has its own index, and the number of the thread that pushed it.
#[derive(Clone, Copy, Debug, PartialEq, Eq)]
struct Node {
    index: usize,
    by: usize,
}

/// Pushes nodes of one thread, and checks that each is at the returned index.
fn push_all<R: Wait + Abort>(
    rt: &R,
    nodes: &LockFreeFrozenVec<Node>,
    by: usize,
) -> Result<(), AllocError> {
    let mut handle = nodes.handle();
    for _ in 0..MANY {
        let index = handle.push_with(rt, |index| Node { index, by })?;
        assert_eq!(rt; handle.get(index), Some(Node { index, by }));
    }
    Ok(())
}

#[test]
fn a_node_of_a_thread_had_the_index_of_another(rt: HostRuntime) -> Result<(), Fail> {
    let (nodes, handle) = (LockFreeFrozenVec::<Node>::new(rt.alloc())?, &rt);
    let done = thread::map_indices(handle, rt.alloc(), 4, &|at| push_all(handle, &nodes, at))?;
    assert_eq!(rt; done.as_slice(), [Ok(()); 4].as_slice());
    assert_eq!(rt; nodes.len(), 4 * MANY);
    for (index, node) in nodes.handle().news().enumerate() {
        assert_eq!(rt; node.index, index);
    }
    Ok(())
}

/// An item that counts itself, by an owner of one number.
#[derive(Drop)]
struct Counted {
    index: usize,
    owner: Arc<u64, Global>,
}

/// A buffer begins with the push that fails.
#[test]
fn a_failed_push_of_a_made_item_left_something(rt: HostRuntime) -> Result<(), Fail> {
    for count in [0, 3, 15, 63] {
        let (budget, owner) = (Budget::new(rt.alloc()), Arc::new(rt.alloc(), 7u64)?);
        let items: LockFreeFrozenVec<Counted, &Budget<Global>> = LockFreeFrozenVec::new(&budget)?;
        let mut handle = items.handle();
        for turn in 0..count + 2 {
            let owned = owner.clone()?;
            budget.refuse_next(if turn == count { u64::MAX } else { 0 });
            let pushed = handle.push_with(
                &rt,
                |index| Counted {
                    index,
                    owner: owned,
                },
            );
            if turn == count {
                assert_eq!(rt; pushed, Err(AllocError));
                let got = (handle.len(), Arc::strong_count(&owner));
                assert_eq!(rt; got, (count, count + 1));
            }
        }
        let last = handle.get_ref(count).map(|last| (last.index, *last.owner));
        assert_eq!(rt; (handle.len(), last), (count + 1, Some((count, 7))));
    }
    Ok(())
}
