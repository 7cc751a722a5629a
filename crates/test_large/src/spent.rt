//! The number of bytes and of requests of a call. No contract states a request or its size.
//!
//! The tables use an arena with room for a megabyte as their allocator, and the bytes are those
//! that this room loses. If the last block is deallocated, its bytes are free again. So memory that
//! is allocated and dropped in one call is visible only in the number of requests.
use bumpalo::Bump;
use elsa::interner::{Counted, Interner, intern_engine};
use elsa::run::{VecCommand, VecReply, run_vec};
use elsa::{FrozenIndexMap, FrozenMap, FrozenVec, Own};
use indexmap::IndexMap;
use std::alloc::{AllocError, Allocator, Global};
use std::hash::{BuildHasherDefault, FoldHasher};
use std::test::Fail;
use test_alloc::Budget;

type Hasher = BuildHasherDefault<FoldHasher>;

/// The number of items, pairs, commands or names.
const MANY: usize = 1000;

/// Makes a heap of a megabyte.
fn heap_of_a_megabyte(alloc: Global) -> Result<Bump, AllocError> {
    Bump::try_with_capacity(alloc, 1 << 20)
}

/// Returns the number of bytes that were allocated since the room was `before`, or `usize::MAX` if
/// the megabyte was too small.
fn gone(heap: &Bump, before: usize) -> usize {
    if heap.allocated_bytes() > 2 << 20 || heap.chunk_capacity() > before {
        return usize::MAX;
    }
    before.saturating_sub(heap.chunk_capacity())
}

/// Makes a thousand of these commands.
fn commands<'a, A: Allocator + Copy + Drop>(
    heap: A,
    command: impl Fn(usize) -> VecCommand<Own<usize>, Vec<&'a usize, A>>,
) -> Result<Vec<VecCommand<Own<usize>, Vec<&'a usize, A>>, A>, AllocError> {
    let mut commands = Vec::new(heap);
    for number in 0..MANY {
        commands.push(command(number))?;
    }
    Ok(commands)
}

#[test]
fn a_run_takes_a_reply_a_command_and_asks_as_its_table_doubles(
    rt: HostRuntime,
) -> Result<(), Fail> {
    let (heap, arena) = (heap_of_a_megabyte(rt.alloc())?, Bump::new(rt.alloc()));
    let budget = Budget::new(rt.alloc());
    let mut items: FrozenVec<'_, Own<usize>, _> = FrozenVec::new(&heap, &arena);
    let lengths = commands(&heap, |_| VecCommand::Len)?;
    let before = heap.chunk_capacity();
    assert_eq!(rt; run_vec(&mut items, lengths)?.len(), MANY);
    let (taken, replies) = (gone(&heap, before), MANY * size_of::<VecReply<&usize>>());
    // An alignment may leave 16 bytes free.
    assert!(rt; taken <= replies + 16, "{taken} bytes for {replies}");
    let mut items: FrozenVec<'_, Own<usize>, _> = FrozenVec::new(&budget, &arena);
    let pushes = commands(&budget, |number| VecCommand::Push(Own(number)))?;
    let before = budget.asked();
    assert_eq!(rt; run_vec(&mut items, pushes)?.len(), MANY);
    let asked = budget.asked() - before;
    // One request is for the replies, and one for each doubling of the table up to a thousand.
    assert!(rt; asked <= 1 + 10, "{asked} requests");
    Ok(())
}

#[test]
fn a_clone_takes_a_table_and_a_collection_what_came(rt: HostRuntime) -> Result<(), Fail> {
    let (room, arena) = (heap_of_a_megabyte(rt.alloc())?, Bump::new(rt.alloc()));
    let (heap, budget) = (&room, Budget::new(rt.alloc()));
    let mut items: FrozenVec<'_, Own<usize>, _> = FrozenVec::new(&budget, &arena);
    let mut map: FrozenIndexMap<'_, usize, Own<usize>, Hasher, _> = FrozenIndexMap::new(
        heap, &arena,
    );
    for number in 0..MANY {
        items.push(Own(number))?;
        map.insert(number, Own(number))?;
    }
    let before = budget.asked();
    assert_eq!(rt; (items.clone()?.len(), budget.asked() - before), (MANY, 1));
    let before = heap.chunk_capacity();
    let room: IndexMap<usize, &usize, Hasher, _> = IndexMap::with_capacity_and_hasher(
        heap,
        MANY,
        BuildHasherDefault::default(),
    )?;
    let (for_room, before) = (gone(heap, before), heap.chunk_capacity());
    let copy = map.clone()?;
    let taken = gone(heap, before);
    assert_eq!(rt; (room.len(), copy.len()), (0, MANY));
    assert!(rt;
        taken <= for_room.saturating_add(16),
        "{taken} bytes for {for_room}"
    );
    // Ten items of an iterator that may return a hundred thousand.
    let tenths = || (0..100_000).filter(|number| number % 10_000 == 0);
    let before = heap.chunk_capacity();
    let items: FrozenVec<'_, Own<usize>, _> = FrozenVec::from_iter(
        heap,
        &arena,
        tenths().map(Own),
    )?;
    let map: FrozenMap<'_, usize, Own<usize>, Hasher, _> = FrozenMap::from_iter(
        heap,
        &arena,
        BuildHasherDefault::default(),
        tenths().map(|number| (number, Own(number))),
    )?;
    let taken = gone(heap, before);
    assert_eq!(rt; (items.len(), map.len()), (10, 10));
    assert!(rt; taken <= 4096, "{taken} bytes");
    Ok(())
}

/// A name takes 16 bytes of the list and 11 to 22 of the hash table. A list that has doubled may
/// have room for the same number of names again, and the blocks that both grew from have the same
/// size again. For one name, the hash table has a group of 64 bytes and room for twelve hashes, and
/// the list has room for four names.
#[test]
fn a_name_takes_sixteen_bytes_of_the_list_and_at_most_twenty_two_of_the_table(
    rt: HostRuntime,
) -> Result<(), Fail> {
    let (heap, arena) = (heap_of_a_megabyte(rt.alloc())?, Bump::new(rt.alloc()));
    for (count, most) in [
        (1, 64 + 12 * 4 + 4 * 16 + 16),
        (MANY, MANY * 2 * (2 * 16 + 22)),
    ] {
        let before = heap.chunk_capacity();
        let mut names: Interner<'_, Hasher, _> = Interner::new(&heap, &arena);
        for number in 0..count {
            let bytes = [1, 26, 676].map(|part| b'a' + (number / part % 26) as u8);
            let _ = names.put(std::str::from_utf8(&bytes).map_err(|_| "no text")?)?;
        }
        let taken = gone(&heap, before);
        assert_eq!(rt; names.len(), count);
        assert!(rt; taken <= most, "{taken} bytes for {count} names");
    }
    Ok(())
}

/// Runs the engine over these lines.
fn engine<A: Allocator + Copy>(alloc: Global, heap: A, arena: &Bump, mut text: &[u8]) -> bool {
    let mut bytes: Vec<u8> = Vec::new(alloc);
    let (mut reader, mut writer) = (Counted::new(&mut text), Counted::new(&mut bytes));
    intern_engine(heap, arena, &mut reader, &mut writer).is_ok()
}

#[test]
fn a_line_takes_a_few_times_its_length(rt: HostRuntime) -> Result<(), Fail> {
    let (alloc, arena) = (rt.alloc(), Bump::new(rt.alloc()));
    let (heap, budget) = (heap_of_a_megabyte(alloc)?, Budget::new(alloc));
    // A name in a line that is longer than one read.
    let mut line = String::from_str(alloc, "put ")?;
    for _ in 0..1000 {
        line.push_str("0123456789")?;
    }
    line.push_str("\n")?;
    let before = heap.chunk_capacity();
    assert!(rt; engine(alloc, &heap, &arena, line.as_bytes()));
    let taken = gone(&heap, before);
    assert!(rt; taken <= 40_000, "{taken} bytes");
    // For three names, the engine requests a list, and of a hash table the groups and the hashes.
    assert!(rt; engine(alloc, &budget, &arena, b"put one\nput two\nput three\n"));
    assert_eq!(rt; budget.asked(), 3);
    Ok(())
}
