//! The vector: worked cases, upstream's cases, and the functions of the laws.
ghost use Rattle.std.specs.Prelude.{◌<◌, IfOk, length};
ghost use Rattle.std.specs.List.Sorted.{IsBinarySearchResult};
ghost use Rattle.std.specs.Ordering.{nat_cmp};

use bumpalo::Bump;
use elsa_vec::stable::Own;
use elsa_vec::vec::{Cursor, FrozenVec};
use elsa_vec::vec_laws::{
    index_by_length, index_by_order, index_by_test, looked_up_round_a_push, outlives_its_vector,
    pushed_apart, read_on, walked,
};
use std::test::*;
use test_alloc::Budget;

type Texts<'a> = FrozenVec<'a, &'a str>;

type Numbers<'a> = FrozenVec<'a, Own<u64>>;

#[derive(Clone, Copy, Debug, PartialEq, Eq)]
struct Moo(i32);

#[test]
fn an_item_was_not_read_by_its_index(rt: HostRuntime) -> Result<(), Fail> {
    let arena = Bump::new(rt.alloc());
    let mut cows: FrozenVec<'_, Own<Moo>> = FrozenVec::new(rt.alloc(), &arena);
    let got = (cows.get_copy(1), cows.first(), cows.last());
    assert_eq!(rt; got, (None, None, None));
    assert!(rt; cows.is_empty());
    for number in [1, 2, 3] {
        cows.push(Own(Moo(number)))?;
    }
    assert_eq!(rt; (cows.get_copy(1), cows.get(3)), (Some(Moo(2)), None));
    assert_eq!(rt; (cows[2], cows.get_unchecked(0)), (&Moo(3), &Moo(1)));
    assert_eq!(rt; (cows.first(), cows.last()), (Some(&Moo(1)), Some(&Moo(3))));
    assert_eq!(rt; (cows.len(), cows.is_empty()), (3, false));
    Ok(())
}

#[test]
fn the_first_borrow_ended_with_its_vector(rt: HostRuntime) -> Result<(), Fail> {
    let arena = Bump::new(rt.alloc());
    let mut names: FrozenVec<'_, String> = FrozenVec::new(rt.alloc(), &arena);
    let first = names.push_get(String::from_str(rt.alloc(), "a")?)?;
    for _ in 0..1000 {
        names.push(String::from_str(rt.alloc(), "b")?)?;
    }
    assert_eq!(rt; names.len(), 1001);
    drop(names);
    assert_eq!(rt; first, "a");
    Ok(())
}

#[test]
fn a_vector_changed_when_it_was_cloned_or_taken_apart(rt: HostRuntime) -> Result<(), Fail> {
    let arena = Bump::new(rt.alloc());
    let all = ["a", "b", "c", "d"];
    let mut one: Texts<'_> = FrozenVec::from_iter(rt.alloc(), &arena, all.into_iter())?;
    assert_eq!(rt; one, one.clone()?);
    let other = pushed_apart(&mut one, "e", "f")?;
    assert_ne!(rt; one, other);
    assert_ne!(rt; other, one);
    assert_eq!(rt; (one.get(4), other.get(4)), (Some("e"), Some("f")));
    let got = one.inner().as_slice();
    assert_eq!(rt; got, ["a", "b", "c", "d", "e"].as_slice());
    let inner = one.into_vec();
    assert_eq!(rt; inner.as_slice(), ["a", "b", "c", "d", "e"].as_slice());
    let mut again: Texts<'_> = FrozenVec::from_vec(&arena, inner);
    let got = (again.len(), again.last(), again.as_mut().len());
    assert_eq!(rt; got, (5, Some("e"), 5));
    again.as_mut().clear();
    assert!(rt; again.is_empty());
    Ok(())
}

#[test]
fn a_walk_skipped_an_item_or_repeated_one(rt: HostRuntime) -> Result<(), Fail> {
    let arena = Bump::new(rt.alloc());
    let mut texts: Texts<'_> = FrozenVec::new(rt.alloc(), &arena);
    texts.push("a")?;
    texts.extend(["b", "c", "d"])?;
    let all = ["a", "b", "c", "d"];
    assert_eq!(rt; walked(rt.alloc(), &texts)?.as_slice(), all.as_slice());
    assert_eq!(rt; texts.as_slice(), all.as_slice());
    let back: Vec<&str> = texts.iter().rev().collect(rt.alloc())?;
    assert_eq!(rt; back.as_slice(), ["d", "c", "b", "a"].as_slice());
    let mut walk = texts.iter();
    assert_eq!(rt; (walk.next_back(), walk.next()), (Some("d"), Some("a")));
    assert_eq!(rt; (walk.len(), walk.size_hint()), (2, (2, Some(2))));
    let got = (walk.next_back(), walk.next(), walk.next());
    assert_eq!(rt; got, (Some("c"), Some("b"), None));
    assert_eq!(rt; [texts.contains("d"), texts.contains("e")], [true, false]);
    let mut numbers: Numbers<'_> = FrozenVec::new(rt.alloc(), &arena);
    numbers.extend((0..100).map(|number| Own(number)))?;
    let mut next = 0;
    for number in &numbers {
        assert_eq!(rt; *number, next);
        next += 1;
    }
    assert_eq!(rt; (next, numbers.iter().count()), (100, 100));
    assert_eq!(rt; numbers.iter().size_hint(), (100, Some(100)));
    Ok(())
}

#[test]
fn a_cursor_missed_an_item_pushed_during_its_walk(rt: HostRuntime) -> Result<(), Fail> {
    let arena = Bump::new(rt.alloc());
    let mut names: Texts<'_> = FrozenVec::new(rt.alloc(), &arena);
    let mut cursor = Cursor::new();
    let got = read_on(&mut names, &mut cursor, "a");
    assert_eq!(rt; got, (None, Ok(()), Some("a")));
    let got = read_on(&mut names, &mut cursor, "b");
    assert_eq!(rt; got, (None, Ok(()), Some("b")));
    assert_eq!(rt; cursor.next(&names), None);
    names.push("c")?;
    assert_eq!(rt; cursor.next(&names), Some("c"));
    Ok(())
}

// Returns the index of a text of this length, or the index at which it would be inserted. The guide
// has it as an example of a caller.
fn of_length(texts: &Texts<'_>, wanted: usize) -> Result<usize, usize>
    ensures index { IsBinarySearchResult (λ text. nat_cmp (length text.now) wanted)
        texts.now result }
    ensures within { IfOk result (λ index. index < length texts.now) }
{
    texts.binary_search_by_key(&wanted, |text| text.len())
}

#[test]
fn a_search_of_sorted_texts_missed_its_target(rt: HostRuntime) -> Result<(), Fail> {
    let arena = Bump::new(rt.alloc());
    let texts: Texts<'_> = FrozenVec::from_iter(
        rt.alloc(),
        &arena,
        ["ab", "cde", "fghij"].into_iter(),
    )?;
    for (length, index) in [
        (1, Err(0)),
        (2, Ok(0)),
        (3, Ok(1)),
        (4, Err(2)),
        (6, Err(3)),
    ] {
        let by_order = |text: &str| text.len().cmp(&length);
        assert_eq!(rt; of_length(&texts, length), index, "{length}");
        assert_eq!(rt; texts.binary_search_by(by_order), index, "{length}");
        assert_eq!(rt; index_by_order(&texts, by_order), index, "{length}");
    }
    for (limit, end) in [(0, 0), (3, 1), (4, 2), (9, 3)] {
        let got = texts.partition_point(|text| text.len() < limit);
        assert_eq!(rt; got, end, "{limit}");
        let got = index_by_test(&texts, |text| text.len() < limit);
        assert_eq!(rt; got, end, "{limit}");
    }
    for (text, index) in [
        ("a", Err(0)),
        ("ab", Ok(0)),
        ("fghij", Ok(2)),
        ("g", Err(3)),
    ] {
        assert_eq!(rt; texts.binary_search(text), index, "{text}");
    }
    Ok(())
}

#[test]
fn a_law_of_pushes_or_searches_had_another_result(rt: HostRuntime) -> Result<(), Fail> {
    let arena = Bump::new(rt.alloc());
    let mut texts: Texts<'_> = FrozenVec::new(rt.alloc(), &arena);
    let looked_up = looked_up_round_a_push(&mut texts, 0, "a");
    assert_eq!(rt; looked_up, (None, Ok(()), Some("a")));
    let (borrow, left) = outlives_its_vector(texts, "b", ["c", "d"].into_iter())?;
    let got = (borrow, left.as_slice());
    assert_eq!(rt; got, ("b", ["a", "b", "c", "d"].as_slice()));
    let mut owned: FrozenVec<'_, String> = FrozenVec::new(rt.alloc(), &arena);
    owned.push(String::from_str(rt.alloc(), "ab")?)?;
    for (length, index) in [(1, Err(0)), (2, Ok(0)), (3, Err(1))] {
        assert_eq!(rt; (length, index_by_length(&owned, length)), (length, index));
    }
    Ok(())
}

// Checks that an allocation failure in `extend` leaves the vector unchanged, and the next push
// succeeds.
#[test]
fn a_refused_extension_left_items_in_the_vector(rt: HostRuntime) -> Result<(), Fail> {
    let (heap, arena) = (Budget::new(rt.alloc()), Bump::new(rt.alloc()));
    let mut numbers: FrozenVec<'_, Own<u64>, _> = FrozenVec::new(&heap, &arena);
    heap.refuse(1, 2);
    numbers.push(Own(0))?;
    assert!(rt; numbers.extend((1..7).map(|number| Own(number))).is_err());
    assert_eq!(rt; numbers.as_slice(), [&0].as_slice());
    numbers.push(Own(7))?;
    assert_eq!(rt; numbers.as_slice(), [&0, &7].as_slice());
    drop(numbers);
    assert_eq!(rt; heap.given(), heap.granted());
    Ok(())
}
