//! Growths of a vector, an index set, an index map and an interner that fail. Each makes room in
//! its tables first, so no copy stays in the arena. The arena may have any allocator.
use bumpalo::Bump;
use elsa_index::index_set::FrozenIndexSet;
use elsa_interner::interner::Interner;
use elsa_maps::index_map::FrozenIndexMap;
use elsa_vec::stable::Own;
use elsa_vec::vec::FrozenVec;
use std::alloc::Global;
use std::hash::{BuildHasherDefault, FoldHasher};
use std::test::Fail;
use test_alloc::Budget;
use test_script::WORDS;

type Heap<'b> = &'b Budget<Global>;

type Hasher = BuildHasherDefault<FoldHasher>;

/// Returns the arena's allocated bytes and the room that is left in its chunk. Any allocation
/// changes one of the two.
fn room(arena: &Bump) -> (usize, usize) {
    (arena.allocated_bytes(), arena.chunk_capacity())
}

/// Makes a hundred calls, and returns the number of those that fail.
fn failures(mut fails: impl FnMut(u64) -> bool) -> usize {
    (0..100).filter(|number| fails(*number)).count()
}

#[test]
fn a_push_whose_growth_failed_left_a_copy_in_the_arena(rt: HostRuntime) -> Result<(), Fail> {
    for count in [0, 1, 4, 5, 8, 100] {
        let (heap, arena) = (Budget::new(rt.alloc()), Bump::new(rt.alloc()));
        let mut numbers: FrozenVec<'_, Own<u64>, Heap<'_>> = FrozenVec::new(&heap, &arena);
        for number in 0..count {
            numbers.push(Own(number))?;
        }
        heap.refuse(heap.asked(), u64::MAX);
        // The room that is left is filled first.
        failures(|number| numbers.push(Own(number)).is_err());
        let before = (numbers.len(), room(&arena));
        let failed = failures(|number| numbers.push(Own(number)).is_err());
        assert_eq!(rt; failed, 100, "{count} items");
        assert_eq!(rt; (numbers.len(), room(&arena)), before, "{count} items");
    }
    Ok(())
}

#[test]
fn an_insertion_into_a_set_whose_growth_failed_left_a_copy_in_the_arena(
    rt: HostRuntime,
) -> Result<(), Fail> {
    for count in [0, 1, 7, 8, 100] {
        let (heap, arena) = (Budget::new(rt.alloc()), Bump::new(rt.alloc()));
        let mut values: FrozenIndexSet<'_, Own<u64>, Hasher, Heap<'_>> = FrozenIndexSet::new(
            &heap, &arena,
        );
        for number in 0..count {
            values.insert(Own(number))?;
        }
        heap.refuse(heap.asked(), u64::MAX);
        failures(|number| values.insert(Own(1000 + number)).is_err());
        let before = (values.len(), room(&arena));
        let failed = failures(|number| values.insert(Own(2000 + number)).is_err());
        assert_eq!(rt; failed, 100, "{count} values");
        assert_eq!(rt; (values.len(), room(&arena)), before, "{count} values");
    }
    Ok(())
}

#[test]
fn an_insertion_by_text_whose_growth_failed_left_a_copy_in_the_arena(
    rt: HostRuntime,
) -> Result<(), Fail> {
    for count in [0, 1] {
        let (heap, arena) = (Budget::new(rt.alloc()), Bump::new(rt.alloc()));
        let mut texts: FrozenIndexMap<'_, &str, Own<u64>, Hasher, Heap<'_>> = FrozenIndexMap::new(
            &heap, &arena,
        );
        for number in 0..count {
            texts.insert_text(WORDS[number], Own(7))?;
        }
        heap.refuse(heap.asked(), u64::MAX);
        let word = |number: u64| WORDS[number as usize % 16];
        failures(|number| texts.insert_text(word(number), Own(7)).is_err());
        let before = (texts.len(), room(&arena));
        let failed = failures(|number| texts.insert_text(word(number), Own(7)).is_err());
        assert!(rt; failed > 0, "{count} texts");
        assert_eq!(rt; (texts.len(), room(&arena)), before, "{count} texts");
    }
    Ok(())
}

#[test]
fn a_put_whose_growth_failed_left_a_copy_in_the_arena(rt: HostRuntime) -> Result<(), Fail> {
    // Without names, the list allocates before the hash table, which makes two requests. The list
    // grows at the fifth and at the ninth name, the hash table at the thirteenth.
    for (count, granted) in [(0, 0), (0, 1), (0, 2), (4, 0), (8, 0), (12, 0), (12, 1)] {
        let (heap, arena) = (Budget::new(rt.alloc()), Bump::new(rt.alloc()));
        let mut names: Interner<'_, Hasher, Heap<'_>> = Interner::new(&heap, &arena);
        for number in 0..count {
            assert_eq!(rt; names.put(WORDS[number])?, number);
        }
        heap.refuse(heap.asked() + granted, u64::MAX);
        let before = (names.len(), room(&arena));
        let failed = failures(|_| names.put("seventeen letters").is_err());
        assert_eq!(rt; failed, 100, "{count} names, {granted} granted");
        let got = (names.len(), room(&arena));
        assert_eq!(rt; got, before, "{count} names, {granted} granted");
    }
    Ok(())
}

#[test]
fn an_arena_that_was_denied_requests_lost_a_name_or_a_block(rt: HostRuntime) -> Result<(), Fail> {
    let heap = Budget::new(rt.alloc());
    let arena = Bump::new(&heap);
    let mut names: Interner<'_, Hasher, Global, Heap<'_>> = Interner::new(rt.alloc(), &arena);
    heap.refuse(0, u64::MAX);
    let failed = failures(|_| names.put("seventeen letters").is_err());
    assert_eq!(rt; (failed, names.len()), (100, 0));
    heap.refuse_next(0);
    for (number, word) in WORDS.iter().enumerate() {
        assert_eq!(rt; names.put(word)?, number);
    }
    assert_eq!(rt; (names.len(), names.at(15)), (16, Some("platypus")));
    drop(names);
    drop(arena);
    assert!(rt; heap.granted() > 0);
    assert_eq!(rt; heap.given(), heap.granted());
    Ok(())
}
