//! Each request for memory is denied in turn while items that were read are inserted into a
//! collection. The failure is reported, and the items that were inserted before stay.
use bumpalo::Bump;
use elsa_index::index_set::FrozenIndexSet;
use elsa_interner::interner::Interner;
use elsa_maps::index_map::FrozenIndexMap;
use elsa_serde::{Entries, Items, Names, ReadFault};
use elsa_vec::vec::FrozenVec;
use serde_json::Error;
use std::alloc::Global;
use std::hash::{BuildHasherDefault, FoldHasher};
use std::test::Fail;
use test_alloc::Budget;

type Hasher = BuildHasherDefault<FoldHasher>;

type Heap<'b> = &'b Budget<Global>;

const WORDS: [&str; 9] = [
    "aardvark", "bandicot", "capybara", "dormouse", "elephant", "flamingo", "goldfish", "hedgehog",
    "ironclad",
];

const LIST: &str =
    r#"["aardvark","bandicot","capybara","dormouse","elephant","flamingo","goldfish","hedgehog","ironclad"]"#;

const MAP: &str = r#"{"a":"aardvark","b":"bandicot","c":"capybara","d":"dormouse","e":"elephant"}"#;

/// The collections into which a text is read.
#[derive(Clone, Copy, Debug)]
enum Form {
    Interner,
    Vec,
    Set,
    Map,
}

/// Reads the text into a collection in this heap. Returns the result, the number of items that were
/// inserted, and whether they are the first of the text.
fn insert(
    alloc: Global,
    heap: Heap<'_>,
    form: Form,
) -> Result<(Result<(), ReadFault>, usize, bool), Error> {
    let arena = Bump::new(heap);
    Ok(match form {
        Form::Interner => {
            let mut names: Interner<'_, Hasher, Heap<'_>, Heap<'_>> = Interner::new(heap, &arena);
            let read: Names = serde_json::from_str(alloc, LIST)?;
            let said = read.put_into(&mut names);
            let same = (0..names.len()).all(|at| names.at(at) == Some(WORDS[at]));
            (said, names.len(), same)
        }
        Form::Vec => {
            let mut vec: FrozenVec<'_, String, Heap<'_>, Heap<'_>> = FrozenVec::new(heap, &arena);
            let read: Items<String> = serde_json::from_str(alloc, LIST)?;
            let said = read
                .push_into(&mut vec)
                .map_err(|error| ReadFault::from(error));
            (
                said,
                vec.len(),
                vec.iter().zip(WORDS).all(|(got, wanted)| got == wanted),
            )
        }
        Form::Set => {
            let mut set: FrozenIndexSet<'_, String, Hasher, Heap<'_>, Heap<'_>> =
                FrozenIndexSet::new(heap, &arena);
            let read: Items<String> = serde_json::from_str(alloc, LIST)?;
            let said = read.insert_into(&mut set);
            (
                said,
                set.len(),
                set.iter().zip(WORDS).all(|(got, wanted)| *got == wanted),
            )
        }
        Form::Map => {
            let mut map: FrozenIndexMap<'_, String, String, Hasher, Heap<'_>, Heap<'_>> =
                FrozenIndexMap::new(heap, &arena);
            let read: Entries<String, String> = serde_json::from_str(alloc, MAP)?;
            let said = read.insert_into(&mut map);
            let keys = ["a", "b", "c", "d", "e"];
            let same = (0..map.len()).all(|at| map.get(keys[at]) == Some(WORDS[at]));
            (said, map.len(), same)
        }
    })
}

#[test]
fn a_failed_allocation_of_an_insertion_was_not_reported(rt: HostRuntime) -> Result<(), Fail> {
    for (form, all) in [
        (Form::Interner, 9),
        (Form::Vec, 9),
        (Form::Set, 9),
        (Form::Map, 5),
    ] {
        let open = Budget::new(rt.alloc());
        let got = insert(rt.alloc(), &open, form)?;
        assert_eq!(rt; got, (Ok(()), all, true), "{form:?}");
        assert!(rt; open.asked() > 1, "{form:?}");
        for number in 0..open.asked() {
            let heap = Budget::new(rt.alloc());
            heap.refuse(number, u64::MAX);
            let (said, count, same) = insert(rt.alloc(), &heap, form)?;
            let got = (said, same, heap.given());
            let wanted = (Err(ReadFault::Memory), true, heap.granted());
            assert_eq!(rt; got, wanted, "{form:?}, request {number}");
            assert!(rt; count < all, "{form:?}, request {number}");
        }
    }
    Ok(())
}
