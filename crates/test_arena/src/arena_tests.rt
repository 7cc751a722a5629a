//! Values that count their drops, blocks that a budget counts, and requests that it denies.
use elsa_arena::arena::TypedArena;
use elsa_arena::fault::{CellFault, Fault};
use std::cell::Cell;
use std::test::*;
use test_alloc::Budget;

/// A value that counts its drop.
struct Counted<'c> {
    drops: &'c Cell<usize>,
    number: usize,
}

impl Drop for Counted<'_> {
    fn drop(self) {
        let Counted { drops, number: _ } = self;
        drops.set(drops.get() + 1);
    }
}

#[test]
fn a_value_is_dropped_once_and_not_before_its_arena(rt: HostRuntime) -> Result<(), Fail> {
    // The buffers end at the counts 3, 15, 63, 255 and 1023.
    for count in [1, 3, 4, 15, 16, 100, 2000] {
        let drops = Cell::new(0);
        let drops = &drops;
        let arena = TypedArena::new(rt.alloc())?;
        let first = arena.alloc(Counted { drops, number: 0 })?;
        for number in 1..count {
            assert_eq!(rt; arena.alloc(Counted { drops, number })?.number, number);
        }
        assert_eq!(rt; (first.number, arena.len(), drops.get()), (0, count, 0));
        drop(arena);
        assert_eq!(rt; drops.get(), count);
    }
    Ok(())
}

#[test]
fn a_walk_ends_though_values_are_placed_in_it(rt: HostRuntime) -> Result<(), Fail> {
    let arena = TypedArena::new(rt.alloc())?;
    arena.alloc(0)?;
    let mut given = 0;
    for _ in arena.iter() {
        given += 1;
        arena.alloc(given)?;
    }
    assert_eq!(rt; (given, arena.len()), (1, 2));
    Ok(())
}

#[test]
fn an_arena_gives_back_its_memory_and_that_of_its_values(rt: HostRuntime) -> Result<(), Fail> {
    let heap = Budget::new(rt.alloc());
    let arena = TypedArena::new(&heap)?;
    for number in 0..300u64 {
        let text = String::from_str(&heap, "a text of its own")?;
        arena.alloc((text, Vec::from_elem(&heap, number, 5)?))?;
    }
    assert_eq!(rt; arena.len(), 300);
    drop(arena);
    assert!(rt; heap.granted() > 600);
    assert_eq!(rt; heap.given(), heap.granted());
    Ok(())
}

#[test]
fn a_refused_value_comes_back_and_the_next_try_places_it(rt: HostRuntime) -> Result<(), Fail> {
    let (heap, drops) = (Budget::new(rt.alloc()), Cell::new(0));
    let drops = &drops;
    let arena = TypedArena::new(&heap)?;
    for number in 0..100 {
        heap.refuse_next(1);
        let asked = heap.asked();
        let is_refused = match arena.alloc(Counted { drops, number }) {
            Ok(kept) => {
                assert_eq!(rt; (kept.number, heap.asked()), (number, asked));
                false
            }
            Err(CellFault::Memory(value)) => {
                assert_eq!(rt; value.number, number);
                true
            }
            Err(_) => return Err("another fault".into()),
        };
        assert_eq!(rt; heap.asked() > asked, is_refused);
        heap.refuse_next(0);
        if is_refused {
            arena.alloc(Counted { drops, number })?;
        }
    }
    // Four buffers were begun, and the first try of each failed.
    assert_eq!(rt; (arena.len(), drops.get()), (100, 4));
    drop(arena);
    assert_eq!(rt; (drops.get(), heap.given()), (104, heap.granted()));
    Ok(())
}

#[test]
fn values_up_to_the_capacity_take_no_memory(rt: HostRuntime) -> Result<(), Fail> {
    for (capacity, wanted) in [
        (0, 0),
        (1, 3),
        (3, 3),
        (4, 15),
        (15, 15),
        (16, 63),
        (64, 100),
    ] {
        let heap = Budget::new(rt.alloc());
        let arena = TypedArena::with_capacity(&heap, capacity)?;
        heap.refuse(heap.asked(), u64::MAX);
        let placed = (0..100)
            .take_while(|number| arena.alloc(*number).is_ok())
            .count();
        drop(arena);
        assert_eq!(rt;
            (placed, heap.given()),
            (wanted, heap.granted()),
            "{capacity}"
        );
    }
    Ok(())
}

#[test]
fn values_that_were_reserved_take_no_memory(rt: HostRuntime) -> Result<(), Fail> {
    for (count, additional, wanted) in [
        (0, 0, 0),
        (0, 1, 3),
        (2, 1, 1),
        (2, 2, 13),
        (3, 12, 12),
        (3, 13, 60),
        (10, 0, 5),
        (15, 100, 100),
    ] {
        let heap = Budget::new(rt.alloc());
        let arena = TypedArena::new(&heap)?;
        arena.extend(0..count)?;
        arena.reserve(additional)?;
        heap.refuse(heap.asked(), u64::MAX);
        let placed = (0..100)
            .take_while(|number| arena.push(*number).is_ok())
            .count();
        drop(arena);
        let found = (placed, heap.given());
        assert_eq!(rt; found, (wanted, heap.granted()), "{count} {additional}");
    }
    Ok(())
}

#[test]
fn a_denied_reservation_lost_a_value(rt: HostRuntime) -> Result<(), Fail> {
    let heap = Budget::new(rt.alloc());
    let arena = TypedArena::new(&heap)?;
    arena.alloc(7)?;
    heap.refuse_next(1);
    assert_eq!(rt; arena.reserve(100), Err(Fault::Memory));
    heap.refuse_next(0);
    assert_eq!(rt; (arena.len(), arena.get(0)), (1, Some(&7)));
    // The second reservation is for fewer values than are reserved.
    arena.reserve(100)?;
    arena.reserve(50)?;
    heap.refuse(heap.asked(), u64::MAX);
    arena.extend(0..100)?;
    assert_eq!(rt; arena.get(100), Some(&99));
    drop(arena);
    assert_eq!(rt; heap.given(), heap.granted());
    Ok(())
}

#[test]
fn a_guard_reserved_too_little(rt: HostRuntime) -> Result<(), Fail> {
    let heap = Budget::new(rt.alloc());
    let arena = TypedArena::new(&heap)?;
    let mut hold = arena.hold()?;
    hold.reserve(2)?;
    heap.refuse(heap.asked(), u64::MAX);
    hold.push(7)?;
    hold.push(8)?;
    assert_eq!(rt;
        (hold.get(0), hold.get(1), hold.len()),
        (Some(&7), Some(&8), 2)
    );
    drop(hold);
    drop(arena);
    assert_eq!(rt; heap.given(), heap.granted());
    Ok(())
}

#[test]
fn a_capacity_beyond_all_memory_is_refused(rt: HostRuntime) -> Result<(), Fail> {
    for capacity in [usize::MAX, usize::MAX / 2, 1 << 62] {
        let refused = TypedArena::<u64>::with_capacity(rt.alloc(), capacity).is_err();
        assert!(rt; refused, "{capacity}");
    }
    Ok(())
}

#[test]
fn a_refused_arena_leaves_no_block(rt: HostRuntime) -> Result<(), Fail> {
    // The requests are for the directory, three buffers and the list of those that are ready.
    for number in 0..6 {
        let heap = Budget::new(rt.alloc());
        heap.refuse(number, u64::MAX);
        let refused = TypedArena::<u64, _>::with_capacity(&heap, 25).is_err();
        let found = (refused, heap.granted(), heap.given());
        assert_eq!(rt; found, (number < 5, number, number));
    }
    Ok(())
}

#[test]
fn a_buffer_that_was_ready_was_lost(rt: HostRuntime) -> Result<(), Fail> {
    let heap = Budget::new(rt.alloc());
    let arena = TypedArena::with_capacity(&heap, 100)?;
    arena.push(7)?;
    arena.push(8)?;
    let seen = arena.observed().evidence();
    let all = arena.into_vec(&heap, &seen).ok().ok_or("not taken apart")?;
    assert_eq!(rt; all.as_slice(), [7, 8].as_slice());
    drop(all);
    assert_eq!(rt; heap.given(), heap.granted());
    Ok(())
}

#[test]
fn an_index_showed_the_value_of_another(rt: HostRuntime) -> Result<(), Fail> {
    let arena = TypedArena::new(rt.alloc())?;
    let mut observed = arena.observed();
    let first = arena.push_as(&mut observed, 7)?;
    let second = arena.push_as(&mut observed, 8)?;
    assert_eq!(rt;
        (observed.get(first), observed.get(second)),
        (Some(&7), Some(&8))
    );
    Ok(())
}

#[test]
fn an_extension_of_thousands_ended_early(rt: HostRuntime) -> Result<(), Fail> {
    let list: TypedArena<u64> = TypedArena::new(rt.alloc())?;
    let mut hold = list.hold()?;
    hold.extend(0..5000)?;
    assert_eq!(rt; (hold.len(), list.len()), (5000, 5000));
    Ok(())
}
