//! Vectors of items that own memory: each is dropped once, with the vector, and a push that fails
//! returns its item.
use elsa_lock_free::lock_free::{Handle, LockFreeFrozenVec};
use std::alloc::{AllocError, Allocator, Global};
use std::process::Abort;
use std::sync::{Arc, Wait};
use std::test::*;
use std::thread;
use test_alloc::Budget;

/// The lengths on both sides of the ends of the first four buffers, and a longer one.
pub const LENGTHS: [usize; 14] = [0, 1, 2, 3, 4, 14, 15, 16, 62, 63, 64, 254, 255, 3000];

/// An item that counts itself, by an owner of one number.
#[derive(Drop)]
pub struct Item {
    pub number: usize,
    _owner: Arc<u64, Global>,
}

pub type Heap<'b> = &'b Budget<Global>;

/// Pushes an item with this number, and reads it again or gets it back. Returns whether it was
/// pushed.
fn push<R: Wait + Abort, A: Allocator + Copy>(
    rt: &R,
    handle: &mut Handle<'_, Item, A>,
    owner: &Arc<u64, Global>,
    number: usize,
) -> Result<bool, AllocError> {
    let _owner = owner.clone()?;
    let (got, is_pushed) = match handle.push(rt, Item { number, _owner }) {
        Ok(index) => (handle.get_ref(index).map(|item| item.number), true),
        Err(failed) => (Some(failed.value.number), false),
    };
    assert_eq!(rt; got, Some(number));
    Ok(is_pushed)
}

/// Pushes the items from `first` to `end - 1`, and returns the number of pushed ones.
pub fn push_all<R: Wait + Abort, A: Allocator + Copy>(
    rt: &R,
    vec: &LockFreeFrozenVec<Item, A>,
    owner: &Arc<u64, Global>,
    first: usize,
    end: usize,
) -> Result<usize, AllocError> {
    let (mut handle, mut pushed) = (vec.handle(), 0);
    for number in first..end {
        pushed += usize::from(push(rt, &mut handle, owner, number)?);
    }
    Ok(pushed)
}

#[test]
fn an_item_was_not_dropped_once_with_its_vector(rt: HostRuntime) -> Result<(), Fail> {
    let owner = Arc::new(rt.alloc(), 7u64)?;
    for count in LENGTHS {
        let heap = Budget::new(rt.alloc());
        let vec = LockFreeFrozenVec::<Item, Heap<'_>>::new(&heap)?;
        assert_eq!(rt; push_all(&rt, &vec, &owner, 0, count), Ok(count));
        assert_eq!(rt; Arc::strong_count(&owner), count + 1);
        drop(vec);
        assert_eq!(rt; Arc::strong_count(&owner), 1, "{count} items");
        assert_eq!(rt; heap.given(), heap.granted(), "{count} items");
    }
    Ok(())
}

/// Four threads push 200 items each while the requests from `from` on, `denied` of them, fail.
#[test]
fn an_item_of_four_threads_was_lost_or_dropped_twice(rt: HostRuntime) -> Result<(), Fail> {
    let (handle, owner) = (&rt, Arc::new(rt.alloc(), 7u64)?);
    for (from, denied) in (1..8).flat_map(|from| [(from, 0), (from, 1), (from, 30)]) {
        let heap = Budget::new(rt.alloc());
        let vec = LockFreeFrozenVec::<Item, Heap<'_>>::new(&heap)?;
        heap.refuse(from, from + denied);
        let pushed = thread::map_indices(
            handle,
            rt.alloc(),
            4,
            &|_| push_all(handle, &vec, &owner, 0, 200).unwrap_or(1000),
        )?;
        assert_eq!(rt; pushed.iter().sum::<usize>(), vec.len(), "{from}, {denied}");
        assert!(rt;
            denied > 0 || vec.len() == 800,
            "{from}: {} items",
            vec.len()
        );
        let got = Arc::strong_count(&owner);
        assert_eq!(rt; got, vec.len() + 1, "{from}, {denied}");
        drop(vec);
        assert_eq!(rt; Arc::strong_count(&owner), 1, "{from}, {denied}");
        assert_eq!(rt; heap.given(), heap.granted(), "{from}, {denied}");
    }
    Ok(())
}

/// Compares vectors of texts by handles, and by the vectors' own calls.
#[test]
fn texts_were_lost_or_compared_wrongly(rt: HostRuntime) -> Result<(), Fail> {
    let vec: LockFreeFrozenVec<String> = LockFreeFrozenVec::new(rt.alloc())?;
    let texts = ["", "ann", "bob", "ann", "eve"];
    for (index, text) in texts.iter().enumerate() {
        assert_eq!(rt; vec.push(&rt, String::from_str(rt.alloc(), *text)?)?, index);
    }
    for (others, is_equal) in [
        (["", "ann", "bob", "ann", "eve"].as_slice(), true),
        (["", "ann", "bob", "ann"].as_slice(), false),
        (["", "ann", "bob", "ann", "eva"].as_slice(), false),
        (["", "ann", "ann", "bob", "eve"].as_slice(), false),
    ] {
        let other: LockFreeFrozenVec<String> = LockFreeFrozenVec::new(rt.alloc())?;
        let mut handle = other.handle();
        for text in others {
            handle.push(&rt, String::from_str(rt.alloc(), *text)?)?;
        }
        let got = (vec.equals(&other), other.equals(&vec));
        assert_eq!(rt; got, (is_equal, is_equal));
        assert_eq!(rt; vec.handle().equals(&mut handle), is_equal);
    }
    let (mut handle, mut found) = (vec.handle(), 0);
    for text in handle.news().refs() {
        assert_eq!(rt; text.as_str(), texts[found]);
        found += 1;
    }
    assert_eq!(rt; found, 5);
    Ok(())
}

#[test]
fn an_item_of_a_refused_push_was_kept_without_a_handle(rt: HostRuntime) -> Result<(), Fail> {
    let (heap, owner) = (Budget::new(rt.alloc()), Arc::new(rt.alloc(), 7u64)?);
    let vec: LockFreeFrozenVec<Item, Heap<'_>> = LockFreeFrozenVec::new(&heap)?;
    for (denied, index, count) in [(1, None, 0), (0, Some(0), 1)] {
        let item = Item {
            number: 1,
            _owner: owner.clone()?,
        };
        heap.refuse_next(denied);
        assert_eq!(rt; vec.push(&rt, item).ok(), index);
        assert_eq!(rt; (vec.len(), Arc::strong_count(&owner)), (count, count + 1));
    }
    Ok(())
}
