//! Maps of thousands of entries, and reserved room.
use bumpalo::Bump;
use elsa_buckets::append_map::{AppendMap, RoomFault};
use elsa_maps::map::FrozenAppendMap;
use elsa_vec::stable::Own;
use std::alloc::{AllocError, Allocator};
use std::hash::{BuildHasherDefault, FoldHasher};
use std::test::Fail;
use test_alloc::Budget;

type Hasher = BuildHasherDefault<FoldHasher>;

type Numbers<'a, A> = FrozenAppendMap<'a, u64, Own<u64>, Hasher, A>;

// A different key for each number.
fn key(number: u64) -> u64 {
    number.wrapping_mul(0x9E37_79B9_7F4A_7C15)
}

fn fill<A: Allocator + Copy + Drop>(
    map: &mut Numbers<'_, A>,
    from: u64,
    to: u64,
) -> Result<(), AllocError> {
    for number in from..to {
        map.insert(key(number), Own(number))?;
    }
    Ok(())
}

// The first number below `count` that the map lacks or has at another index, or its length if that
// is another one.
fn first_wrong<A: Allocator + Copy + Drop>(map: &Numbers<'_, A>, count: u64) -> Option<u64> {
    for (index, entry) in map.entries().iter().enumerate() {
        let number = index as u64;
        if *entry != (key(number), &number) || map.get(&key(number)) != Some(&number) {
            return Some(number);
        }
    }
    if map.len() as u64 != count || map.get(&key(count)).is_some() {
        return Some(map.len() as u64);
    }
    None
}

#[test]
fn an_insertion_by_a_key_returned_another_entry(rt: HostRuntime) -> Result<(), Fail> {
    let heap = Budget::new(rt.alloc());
    let mut map: AppendMap<u64, u64, Hasher, &Budget<_>> = AppendMap::new(&heap);
    for number in 0..2000 {
        for (value, is_new) in [(number, true), (u64::MAX, false)] {
            let (wanted, asked) = (key(number), heap.asked());
            let make = || -> Result<(u64, u64), AllocError> { Ok((wanted, value)) };
            let done = map.insert_by(&wanted, make).map_err(|_| AllocError)?;
            let found = (done.value, done.index as u64, done.is_new);
            assert_eq!(rt; found, (number, number, is_new));
            // An insertion of a present key makes no room.
            assert!(rt; is_new || heap.asked() == asked, "{number}");
        }
    }
    Ok(())
}

#[test]
fn a_map_of_twenty_thousand_entries_finds_each(rt: HostRuntime) -> Result<(), Fail> {
    let arena = Bump::new(rt.alloc());
    let mut map = Numbers::new(rt.alloc(), &arena);
    fill(&mut map, 0, 20_000)?;
    assert_eq!(rt; first_wrong(&map, 20_000), None);
    let copy = map.as_mut().clone()?;
    map.rebase(copy);
    assert_eq!(rt; first_wrong(&map, 20_000), None);
    assert!(rt; !map.is_full());
    // The buckets of the clone double.
    fill(&mut map, 20_000, 50_000)?;
    assert_eq!(rt; first_wrong(&map, 50_000), None);
    Ok(())
}

#[test]
fn a_map_is_full_or_refuses_a_number_of_entries(rt: HostRuntime) -> Result<(), Fail> {
    let arena = Bump::new(rt.alloc());
    for number in 0..1100 {
        let heap = Budget::new(rt.alloc());
        let mut map: Numbers<'_, &Budget<_>> = Numbers::new(&heap, &arena);
        assert!(rt; map.reserve(number as usize).is_ok(), "{number}");
        heap.refuse_next(u64::MAX);
        assert!(rt;
            fill(&mut map, 0, number).is_ok() && !map.is_full(),
            "{number}"
        );
    }
    Ok(())
}

#[test]
fn insertions_into_reserved_room_allocate_nothing(rt: HostRuntime) -> Result<(), Fail> {
    let arena = Bump::new(rt.alloc());
    for (from, count) in [(0, 1), (0, 7), (3, 100), (6, 6), (1000, 5000)] {
        let heap = Budget::new(rt.alloc());
        let mut map: Numbers<'_, &Budget<_>> = Numbers::new(&heap, &arena);
        fill(&mut map, 0, from)?;
        assert!(rt; map.reserve(count).is_ok());
        let end = map.capacity() as u64;
        assert!(rt; end >= from + count as u64, "{from} {count}");
        heap.refuse_next(u64::MAX);
        let asked = heap.asked();
        fill(&mut map, from, end)?;
        let got = (heap.asked(), first_wrong(&map, end));
        assert_eq!(rt; got, (asked, None), "{from} {count}");
    }
    Ok(())
}

#[test]
fn a_reservation_reports_why_it_failed(rt: HostRuntime) -> Result<(), Fail> {
    let (heap, arena) = (Budget::new(rt.alloc()), Bump::new(rt.alloc()));
    let mut map: Numbers<'_, &Budget<_>> = Numbers::new(&heap, &arena);
    fill(&mut map, 0, 10)?;
    heap.refuse_next(u64::MAX);
    for (additional, is_full) in [
        (0xFFFF_FFFF, true),
        (usize::MAX, true),
        (0xFFFF_FFFF - 10, false),
        (1000, false),
    ] {
        let fault = map.reserve(additional).err().ok_or("room for too many")?;
        assert_eq!(rt; matches!(fault, RoomFault::Full), is_full, "{additional}");
        assert_eq!(rt; first_wrong(&map, 10), None);
    }
    Ok(())
}
