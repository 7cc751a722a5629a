//! Calls that must not allocate, though the arena and the tables have room.
use bumpalo::Bump;
use elsa::interner::Interner;
use elsa::{
    FrozenAppendMap, FrozenBTreeMap, FrozenIndexMap, FrozenIndexSet, FrozenMap, FrozenVec, Own,
};
use std::alloc::{AllocError, Global};
use std::hash::{BuildHasherDefault, FoldHasher};
use std::test::Fail;
use test_alloc::Budget;

type Hasher = BuildHasherDefault<FoldHasher>;

/// Returns the number of requests of the tables, and the room that the arena's chunk has left.
fn asked(heap: &Budget<Global>, arena: &Bump) -> (u64, usize) {
    (heap.asked(), arena.chunk_capacity())
}

/// Allocates a first chunk in the arena, which has room for more than 200 bytes.
fn roomy(alloc: Global) -> Result<Bump, Fail> {
    let arena = Bump::new(alloc);
    arena.try_alloc_str("a first text")?;
    if arena.chunk_capacity() <= 200 {
        return Err("the chunk is too small for the tests".into());
    }
    Ok(arena)
}

#[test]
fn a_present_text_and_walks_of_maps_ask_for_nothing(rt: HostRuntime) -> Result<(), Fail> {
    let (heap, arena) = (Budget::new(rt.alloc()), roomy(rt.alloc())?);
    let mut hashed: FrozenMap<'_, &str, Own<u64>, Hasher, _> = FrozenMap::new(&heap, &arena);
    let mut ordered: FrozenBTreeMap<'_, &str, Own<u64>, _> = FrozenBTreeMap::new(&heap, &arena);
    let mut indexed: FrozenIndexMap<'_, &str, Own<u64>, Hasher, _> = FrozenIndexMap::new(
        &heap, &arena,
    );
    hashed.insert_text("key", Own(1))?;
    ordered.insert_text("key", Own(1))?;
    indexed.insert_text("key", Own(1))?;
    let before = asked(&heap, &arena);

    assert_eq!(rt; (hashed.get("key"), hashed.len()), (Some(&1), 1));
    assert!(rt; hashed.contains_key(&"key"));
    let walked = (
        hashed.iter().count(),
        hashed.keys().count(),
        hashed.values().count(),
    );
    assert_eq!(rt; walked, (1, 1, 1));
    assert_eq!(rt; hashed.insert_text("key", Own(2))?, &1);

    assert_eq!(rt; (ordered.get("key"), ordered.len()), (Some(&1), 1));
    assert!(rt; ordered.contains_key(&"key"));
    let ends = (
        ordered.first_key_value().is_some(),
        ordered.last_key_value().is_some(),
    );
    assert_eq!(rt; ends, (true, true));
    let walked = (
        ordered.iter().count(),
        ordered.keys().count(),
        ordered.values().count(),
    );
    assert_eq!(rt; (walked, ordered.range("a"..).count()), ((1, 1, 1), 1));
    assert_eq!(rt; ordered.insert_text("key", Own(2))?, &1);

    assert_eq!(rt; (indexed.get("key"), indexed.len()), (Some(&1), 1));
    assert!(rt; indexed.contains_key(&"key"));
    let walked = (
        indexed.iter().count(),
        indexed.keys().count(),
        indexed.values().count(),
    );
    assert_eq!(rt; walked, (1, 1, 1));
    assert_eq!(rt; indexed.insert_full_text("key", Own(2))?, (0, &1));
    assert_eq!(rt; asked(&heap, &arena), before);
    Ok(())
}

#[test]
fn a_present_value_and_walks_of_lists_ask_for_nothing(rt: HostRuntime) -> Result<(), Fail> {
    let (heap, arena) = (Budget::new(rt.alloc()), roomy(rt.alloc())?);
    let mut items: FrozenVec<'_, Own<u64>, _> = FrozenVec::new(&heap, &arena);
    let mut set: FrozenIndexSet<'_, Own<u64>, Hasher, _> = FrozenIndexSet::new(&heap, &arena);
    let mut names: Interner<'_, Hasher, _> = Interner::new(&heap, &arena);
    items.push(Own(7))?;
    set.insert(Own(7))?;
    names.put("name")?;
    let before = asked(&heap, &arena);

    let seven = items.get(0).ok_or("no item")?;
    assert!(rt; items.contains(seven));
    let got = (items.as_slice().len(), items.iter().next_back());
    assert_eq!(rt; got, (1, Some(&7)));
    assert!(rt; set.contains(&&7));
    let got = (set.iter().count(), set.insert_full(Own(7))?);
    assert_eq!(rt; got, (1, (0, &7)));
    assert!(rt; names.contains("name"));
    assert_eq!(rt; (names.iter().count(), names.put("name")?), (1, 0));
    assert_eq!(rt; asked(&heap, &arena), before);
    Ok(())
}

/// Returns the capacity of each collection that has room for the number of entries.
fn capacities(alloc: Global, count: usize) -> Result<[usize; 6], AllocError> {
    let arena = Bump::new(alloc);
    let items: FrozenVec<'_, Own<u64>> = FrozenVec::with_capacity(alloc, &arena, count)?;
    let mut hashed: FrozenMap<'_, u64, Own<u64>> = FrozenMap::new(alloc, &arena);
    hashed.reserve(count)?;
    let mut indexed: FrozenIndexMap<'_, u64, Own<u64>> = FrozenIndexMap::new(alloc, &arena);
    indexed.reserve(count)?;
    let mut large: FrozenAppendMap<'_, u64, Own<u64>> = FrozenAppendMap::new(alloc, &arena);
    large.reserve(count).map_err(|_| AllocError)?;
    let mut set: FrozenIndexSet<'_, Own<u64>> = FrozenIndexSet::new(alloc, &arena);
    set.reserve(count)?;
    let mut names = Interner::new(alloc, &arena);
    names.reserve(count)?;
    Ok([
        items.capacity(),
        hashed.capacity(),
        indexed.capacity(),
        large.capacity(),
        set.capacity(),
        names.capacity(),
    ])
}

#[test]
fn a_capacity_was_not_that_of_the_reserved_room(rt: HostRuntime) -> Result<(), Fail> {
    for count in [1usize, 100, 1000, 10_000, 150_000] {
        let most = count * 8 + 64;
        for capacity in capacities(rt.alloc(), count)? {
            assert_eq!(rt; capacity, capacity.max(count).min(most), "room for {count}");
        }
    }
    Ok(())
}
