//! The indices at which the three searches call their closure, compared with those of upstream's
//! loop. No clause excludes calls that the result doesn't require.
use bumpalo::Bump;
use elsa_vec::stable::Own;
use elsa_vec::vec::FrozenVec;
use std::alloc::{AllocError, Global};
use std::cmp::Ordering;
use std::test::Fail;

// The numbers from 0 up, each at itself as its index.
type Numbers<'a> = FrozenVec<'a, Own<usize>>;

fn numbers(alloc: Global, arena: &Bump, count: usize) -> Result<Numbers<'_>, AllocError> {
    FrozenVec::from_iter(alloc, arena, (0..count).map(|number| Own(number)))
}

#[derive(Clone, Copy, Debug, PartialEq, Eq)]
enum Way {
    ByOrder,
    ByKey,
    ByTest,
}

// The target of a search: all items below the index `below` are less, and those from it on are
// greater. If `is_equal`, the item at `below` is equal.
#[derive(Clone, Copy, Debug)]
struct Target {
    below: usize,
    is_equal: bool,
}

impl Target {
    fn order(&self, number: usize) -> Ordering {
        if self.is_equal && number == self.below {
            return Ordering::Equal;
        }
        if number < self.below {
            Ordering::Less
        } else {
            Ordering::Greater
        }
    }

    // Returns the key of the target, which is compared with twice a number and 2.
    fn key(&self) -> usize {
        let between = if self.is_equal { 2 } else { 1 };
        2 * self.below + between
    }
}

// The indices at which a closure was called.
#[derive(Clone, Copy)]
struct Calls {
    count: usize,
    indices: [usize; 20],
}

impl Calls {
    fn new() -> Calls {
        Calls {
            count: 0,
            indices: [0; 20],
        }
    }

    fn note(&mut self, index: usize) {
        self.indices[self.count] = index;
        self.count += 1;
    }

    fn as_slice(&self) -> &[usize] {
        &self.indices[..self.count]
    }
}

// The loop of upstream's `binary_search_by`, over `count` numbers.
fn upstream(count: usize, target: Target, calls: &mut Calls) -> Result<usize, usize> {
    let (mut left, mut right) = (0, count);
    while left < right {
        let middle = left + (right - left) / 2;
        calls.note(middle);
        match target.order(middle) {
            Ordering::Less => left = middle + 1,
            Ordering::Greater => right = middle,
            Ordering::Equal => return Ok(middle),
        }
    }
    Err(left)
}

fn searched(
    items: &Numbers<'_>,
    way: Way,
    target: Target,
    calls: &mut Calls,
) -> Result<usize, usize> {
    match way {
        Way::ByOrder => items.binary_search_by(|number| {
            calls.note(*number);
            target.order(*number)
        }),
        Way::ByKey => items.binary_search_by_key(&target.key(), |number| {
            calls.note(*number);
            2 * *number + 2
        }),
        Way::ByTest => Err(items.partition_point(|number| {
            calls.note(*number);
            *number < target.below
        })),
    }
}

// Checks the loop itself by its hand-written calls for eight items.
#[test]
fn the_loop_of_upstream_halves_otherwise(rt: HostRuntime) -> Result<(), Fail> {
    for (below, indices) in [
        (0, [4, 2, 1, 0].as_slice()),
        (1, [4, 2, 1, 0].as_slice()),
        (2, [4, 2, 1].as_slice()),
        (3, [4, 2, 3].as_slice()),
        (4, [4, 2, 3].as_slice()),
        (5, [4, 6, 5].as_slice()),
        (6, [4, 6, 5].as_slice()),
        (7, [4, 6, 7].as_slice()),
        (8, [4, 6, 7].as_slice()),
    ] {
        let (mut calls, is_equal) = (Calls::new(), false);
        let end = upstream(8, Target { below, is_equal }, &mut calls);
        let got = (below, end, calls.as_slice());
        assert_eq!(rt; got, (below, Err(below), indices));
    }
    Ok(())
}

// Searches for each target in lists of up to 64 numbers, next to a power of two, and of 1000.
#[test]
fn a_search_called_its_closure_at_another_index_than_upstream(rt: HostRuntime) -> Result<(), Fail> {
    let arena = Bump::new(rt.alloc());
    for count in (0..65).chain([127, 128, 129, 255, 256, 257, 511, 512, 513, 1000]) {
        let items = numbers(rt.alloc(), &arena, count)?;
        for below in 0..count + 1 {
            for is_equal in [false, true] {
                let target = Target { below, is_equal };
                if is_equal && below == count {
                    continue;
                }
                let mut wanted = Calls::new();
                let end = upstream(count, target, &mut wanted);
                for way in [Way::ByOrder, Way::ByKey, Way::ByTest] {
                    // The closure of a partition can't return `Equal`.
                    if is_equal && way == Way::ByTest {
                        continue;
                    }
                    let mut calls = Calls::new();
                    let found = searched(&items, way, target, &mut calls);
                    assert_eq!(rt;
                        (found, calls.as_slice()),
                        (end, wanted.as_slice()),
                        "{way:?} in {count} items, {target:?}"
                    );
                }
            }
        }
    }
    Ok(())
}

// Searches for 1 by a closure that contradicts itself: it returns the first of the keys, and from
// the second call on the last.
#[test]
fn keys_that_contradict_themselves_ended_a_search_elsewhere(rt: HostRuntime) -> Result<(), Fail> {
    let arena = Bump::new(rt.alloc());
    for (count, keys, indices, end) in [
        (8, [0, 0], [4, 6, 7].as_slice(), Err(8)),
        (8, [2, 2], [4, 2, 1, 0].as_slice(), Err(0)),
        (3, [0, 2], [1, 2].as_slice(), Err(2)),
        (3, [2, 0], [1, 0].as_slice(), Err(1)),
        (3, [0, 1], [1, 2].as_slice(), Ok(2)),
        (0, [1, 1], [].as_slice(), Err(0)),
    ] {
        let items = numbers(rt.alloc(), &arena, count)?;
        let (mut calls, mut key) = (Calls::new(), keys[0]);
        let found = items.binary_search_by_key(&1, |number| {
            calls.note(*number);
            let now = key;
            key = keys[1];
            now
        });
        let got = (count, keys, found, calls.as_slice());
        assert_eq!(rt; got, (count, keys, end, indices));
    }
    Ok(())
}
