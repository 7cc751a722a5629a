//! Values that own memory: moved into a typed arena, or into the shelf of a map with copied texts
//! as keys. They are read as they were stored, also after the end of their collection, and are
//! dropped once, with their arena.
use bumpalo::Bump;
use elsa_arena::arena::TypedArena;
use elsa_maps::map::{FrozenBTreeMapIn, FrozenMapIn};
use elsa_vec::stable::{Own, Shelf, StableDeref};
use elsa_vec::vec::{FrozenVec, FrozenVecIn};
use std::alloc::{AllocError, Allocator, Global};
use std::sync::Arc;
use std::test::Fail;
use test_alloc::Budget;

// A vector whose values are moved into a typed arena.
type Moved<'a, V, T> = FrozenVecIn<&'a TypedArena<V>, T>;

/// The result of parsing a file. It owns its text.
#[derive(Debug, Drop)]
struct Parsed {
    text: String,
    lines: usize,
}

// Upstream's map from strings to boxes. Its keys need no `String`.
type Files<'a> = FrozenMapIn<Shelf<'a, Box<Parsed>>, &'a str, Box<Parsed>>;

type Sorted<'a> = FrozenBTreeMapIn<Shelf<'a, Box<Parsed>>, &'a str, Box<Parsed>>;

// A shelf for texts and values.
fn shelf<'a, T, A: Allocator + Copy>(
    texts: &'a Bump<A>,
    values: &'a TypedArena<T, A>,
) -> Shelf<'a, T, A> {
    Shelf { texts, values }
}

// Makes a boxed file with this number of lines.
fn file(alloc: Global, text: &str, lines: usize) -> Result<Box<Parsed>, AllocError> {
    let text = String::from_str(alloc, text)?;
    Box::new(alloc, Parsed { text, lines }).map_err(|_| AllocError)
}

#[test]
fn a_stored_value_was_not_the_one_that_was_passed(rt: HostRuntime) -> Result<(), Fail> {
    let (alloc, arena) = (rt.alloc(), Bump::new(rt.alloc()));
    let (texts, numbers) = (TypedArena::new(alloc)?, TypedArena::new(alloc)?);
    let mut moved: Moved<'_, String, String> = FrozenVecIn::new(alloc, &texts);
    moved.push(String::from_str(alloc, "owl")?)?;
    assert_eq!(rt; moved.push_get(String::from_str(alloc, " fox ")?)?, " fox ");
    let mut moved: Moved<'_, u64, Own<u64>> = FrozenVecIn::new(alloc, &numbers);
    moved.push(Own(7))?;
    assert_eq!(rt; moved.push_get(Own(8))?, &8);
    let shelf = shelf(&arena, &numbers);
    let mut shelved: FrozenVecIn<Shelf<'_, u64>, Own<u64>> = FrozenVecIn::new(alloc, shelf);
    shelved.push(Own(17))?;
    assert_eq!(rt; shelved.push_get(Own(18))?, &18);
    let mut lists: FrozenVec<'_, Vec<u64>> = FrozenVec::new(alloc, &arena);
    let list = Vec::from_slice(alloc, &[7, 8, 9])?;
    assert_eq!(rt; lists.push_get(list)?, [7, 8, 9].as_slice());
    let (few, more) = ([1, 2], [3, 4, 5]);
    let mut slices: FrozenVec<'_, &[u64]> = FrozenVec::new(alloc, &arena);
    slices.push(few.as_slice())?;
    assert_eq!(rt; slices.push_get(more.as_slice())?, [3, 4, 5].as_slice());
    let mut borrowed: FrozenVec<'_, &u64> = FrozenVec::new(alloc, &arena);
    assert_eq!(rt; borrowed.push_get(&5)?, &5);
    Ok(())
}

#[test]
fn a_moved_value_ended_with_its_vector(rt: HostRuntime) -> Result<(), Fail> {
    let alloc = rt.alloc();
    let (numbers, texts) = (TypedArena::new(alloc)?, TypedArena::new(alloc)?);
    let mut boxes: Moved<'_, Box<u64>, Box<u64>> = FrozenVecIn::new(alloc, &numbers);
    let first = boxes.push_get(Box::new(alloc, 7)?)?;
    for number in 0..100 {
        boxes.push(Box::new(alloc, number)?)?;
    }
    assert_eq!(rt; (boxes.last(), boxes.len()), (Some(&99), 101));
    drop(boxes);
    assert_eq!(rt; first, &7);
    let mut lists: Moved<'_, Vec<String>, Vec<String>> = FrozenVecIn::new(alloc, &texts);
    let mut words = Vec::new(alloc);
    words.push(String::from_str(alloc, "toad")?)?;
    words.push(String::from_str(alloc, "robin")?)?;
    let kept = lists.push_get(words)?;
    drop(lists);
    let got = (kept.len(), kept[0].as_str(), kept[1].as_str());
    assert_eq!(rt; got, (2, "toad", "robin"));
    Ok(())
}

#[test]
fn a_path_lost_its_first_file(rt: HostRuntime) -> Result<(), Fail> {
    let alloc = rt.alloc();
    let (texts, values) = (Bump::new(alloc), TypedArena::new(alloc)?);
    let shelf = shelf(&texts, &values);
    let mut files: Files<'_> = FrozenMapIn::new(alloc, shelf);
    let path = String::from_str(alloc, "b")?;
    let first = files.insert_text(path.as_str(), file(alloc, "fox", 1)?)?;
    drop(path);
    assert_eq!(rt; files.insert_text("b", file(alloc, "dog", 2)?)?.lines, 1);
    assert!(rt; files.get("b").is_some() && files.get("a").is_none());
    assert_eq!(rt; (files.len(), values.len()), (1, 1));
    drop(files);
    assert_eq!(rt; (first.text.as_str(), first.lines), ("fox", 1));
    Ok(())
}

#[test]
fn a_path_in_order_lost_its_first_file(rt: HostRuntime) -> Result<(), Fail> {
    let alloc = rt.alloc();
    let (texts, values) = (Bump::new(alloc), TypedArena::new(alloc)?);
    let shelf = shelf(&texts, &values);
    let mut files: Sorted<'_> = FrozenBTreeMapIn::new(alloc, shelf);
    let path = String::from_str(alloc, "b")?;
    let first = files.insert_text(path.as_str(), file(alloc, "fox", 1)?)?;
    drop(path);
    for (path, lines, kept) in [("b", 2, 1), ("a", 3, 3), ("c", 4, 4)] {
        let file = files.insert_text(path, file(alloc, "dog", lines)?)?;
        assert_eq!(rt; (path, file.lines), (path, kept));
    }
    let ends = [files.first_key_value(), files.last_key_value()];
    let ends = ends.map(|end| end.map(|(path, file)| (path, file.lines)));
    assert_eq!(rt; ends, [Some(("a", 3)), Some(("c", 4))]);
    assert_eq!(rt; (files.len(), values.len()), (3, 3));
    drop(files);
    assert_eq!(rt; (first.text.as_str(), first.lines), ("fox", 1));
    Ok(())
}

#[test]
fn a_moved_value_was_not_dropped_once_with_its_arena(rt: HostRuntime) -> Result<(), Fail> {
    let alloc = rt.alloc();
    let counted = Arc::new(alloc, 0_u64)?;
    let (texts, values) = (Bump::new(alloc), TypedArena::new(alloc)?);
    let mut kept: Moved<'_, Arc<u64>, Own<Arc<u64>>> = FrozenVecIn::new(alloc, &values);
    for _ in 0..100 {
        kept.push(Own(counted.clone()?))?;
    }
    assert_eq!(rt; Arc::strong_count(&counted), 101);
    drop(kept);
    let shelf = shelf(&texts, &values);
    let mut map: FrozenMapIn<Shelf<'_, Arc<u64>>, &str, Own<Arc<u64>>> = FrozenMapIn::new(
        alloc, shelf,
    );
    for path in ["a", "b", "a", "c"] {
        map.insert_text(path, Own(counted.clone()?))?;
    }
    assert_eq!(rt; Arc::strong_count(&counted), 104);
    drop(map);
    assert_eq!(rt; Arc::strong_count(&counted), 104);
    drop(values);
    assert_eq!(rt; Arc::strong_count(&counted), 1);
    Ok(())
}

// A shelf over a budget.
type Tight<'a, T> = Shelf<'a, T, &'a Budget<Global>>;

#[test]
fn a_value_without_room_was_not_dropped_once(rt: HostRuntime) -> Result<(), Fail> {
    let alloc = rt.alloc();
    let (counted, heap) = (Arc::new(alloc, 0_u64)?, Budget::new(alloc));
    let (texts, values) = (Bump::new(&heap), TypedArena::new(&heap)?);
    let shelf = shelf(&texts, &values);
    let mut kept: FrozenVecIn<&TypedArena<Arc<u64>, &Budget<Global>>, Own<Arc<u64>>> =
        FrozenVecIn::new(alloc, &values);
    let mut map: FrozenBTreeMapIn<Tight<'_, Arc<u64>>, &str, Own<Arc<u64>>> = FrozenBTreeMapIn::new(
        alloc, shelf,
    );
    heap.refuse(heap.asked(), u64::MAX);
    assert!(rt; kept.push(Own(counted.clone()?)).is_err() && kept.is_empty());
    assert_eq!(rt; Arc::strong_count(&counted), 1);
    assert!(rt; map.insert_text("a", Own(counted.clone()?)).is_err() && map.is_empty());
    assert_eq!(rt; Arc::strong_count(&counted), 1);
    Ok(())
}

#[test]
fn a_value_that_a_shelf_had_no_room_for_did_not_come_back(rt: HostRuntime) -> Result<(), Fail> {
    let (alloc, heap) = (rt.alloc(), Budget::new(rt.alloc()));
    let texts = Bump::new(&heap);
    let (strings, files) = (TypedArena::new(&heap)?, TypedArena::new(&heap)?);
    let strings = shelf(&texts, &strings);
    heap.refuse(heap.asked(), u64::MAX);
    let Err(back) = Own(String::from_str(alloc, "toad")?).place(strings) else {
        return Err(Fail::from("a text was stored without room"));
    };
    assert_eq!(rt; back.0.as_str(), "toad");
    heap.refuse_next(0);
    let got = back.place(strings).ok().map(|kept| kept.as_str());
    assert_eq!(rt; got, Some("toad"));
    let files = shelf(&texts, &files);
    heap.refuse(heap.asked(), u64::MAX);
    let Err(back) = file(alloc, "fox", 7)?.place(files) else {
        return Err(Fail::from("a box was stored without room"));
    };
    assert_eq!(rt; (back.text.as_str(), back.lines), ("fox", 7));
    heap.refuse_next(0);
    assert_eq!(rt; back.place(files).ok().map(|kept| kept.lines), Some(7));
    Ok(())
}
