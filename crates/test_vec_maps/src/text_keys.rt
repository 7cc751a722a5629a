//! Keys that are inserted as texts of any lifetime: a new one is copied into the arena, and a
//! present one allocates nothing.
use bumpalo::Bump;
use elsa_maps::index_map::FrozenIndexMap;
use elsa_maps::map::{FrozenBTreeMap, FrozenMap};
use elsa_vec::stable::Own;
use std::alloc::{AllocError, Global};
use std::hash::{BuildHasherDefault, FoldHasher};
use std::process::Abort;
use std::test::Fail;
use test_alloc::Budget;
use test_script::{Family, Script, Squeeze, WORDS, goes_through, leave_room, refuse_each_in_turn};

type Heap<'a> = &'a Budget<Global>;

type State = BuildHasherDefault<FoldHasher>;

type Hashed<'a> = FrozenMap<'a, &'a str, Own<u64>, State, Heap<'a>>;

type Indexed<'a> = FrozenIndexMap<'a, &'a str, Own<u64>, State, Heap<'a>>;

type Ordered<'a> = FrozenBTreeMap<'a, &'a str, Own<u64>, Heap<'a>>;

// A map from texts to numbers.
trait ByText: Drop {
    fn give(&mut self, key: &str, value: u64) -> Result<u64, AllocError>;

    fn at(&self, key: &str) -> Option<u64>;

    fn count(&self) -> usize;
}

// Writes the calls of these maps, with their insertion.
macro_rules! by_text {
    ($map:ident, $key:ident, $value:ident; $($type:ty: $give:expr;)+) => {
        $(impl ByText for $type {
            fn give(&mut self, $key: &str, $value: u64) -> Result<u64, AllocError> {
                let $map = self;
                $give
            }

            fn at(&self, key: &str) -> Option<u64> {
                self.get(key).copied()
            }

            fn count(&self) -> usize {
                self.len()
            }
        })+
    };
}

// An index map inserts alternately by `insert_text` and by `insert_full_text`.
by_text! { map, key, value;
    Hashed<'_>: Ok(*map.insert_text(key, Own(value))?);
    Ordered<'_>: Ok(*map.insert_text(key, Own(value))?);
    Indexed<'_>: {
        if value % 2 == 0 {
            return Ok(*map.insert_text(key, Own(value))?);
        }
        let (index, kept) = map.insert_full_text(key, Own(value))?;
        Ok(if map.get_index_of(key) == Some(index) { *kept } else { u64::MAX })
    };
}

const CALLS: usize = 32;

// Of each two calls, the first inserts a new word, as a text that ends with the call, with its
// number as its value. The second inserts the first word with another value, which is not stored.
#[derive(Drop)]
struct Texts<'a, M: ByText> {
    heap: Heap<'a>,
    map: M,
}

impl<M: ByText> Script for Texts<'_, M> {
    fn call(&mut self, number: usize) -> Result<bool, AllocError> {
        let asked = self.heap.asked();
        if number % 2 == 1 {
            return Ok(self.map.give(WORDS[0], 99)? == 0 && self.heap.asked() == asked);
        }
        let index = number / 2;
        let text = String::from_str(self.heap, WORDS[index])?;
        Ok(self.map.give(text.as_str(), index as u64)? == index as u64)
    }

    fn holds(&self, number: usize) -> bool {
        let count = number.div_ceil(2);
        let has = |index: usize| self.map.at(WORDS[index]) == Some(index as u64);
        self.map.count() == count && (0..16).all(|index| has(index) == (index < count))
    }
}

// Runs the script on a map with text keys.
fn goes<M: ByText>(heap: Heap<'_>, arena: &Bump, map: M, squeezed: Squeeze) -> Option<u64> {
    goes_through(&mut Texts { heap, map }, CALLS, heap, arena, squeezed)
}

#[derive(Clone, Copy, Debug, Drop)]
enum Maps {
    Hashed,
    Ordered,
    Indexed,
}

impl Family for Maps {
    fn calls(&self) -> usize {
        CALLS
    }

    // A new word and its value are stored in the arena.
    fn placings(&self, number: usize) -> usize {
        if number % 2 == 0 { 2 } else { 0 }
    }

    fn goes_over(&self, alloc: Global, heap: &Budget<Global>, squeezed: Squeeze) -> Option<u64> {
        let arena = Bump::new(alloc);
        match self {
            Maps::Hashed => goes(heap, &arena, Hashed::new(heap, &arena), squeezed),
            Maps::Ordered => goes(heap, &arena, Ordered::new(heap, &arena), squeezed),
            Maps::Indexed => goes(heap, &arena, Indexed::new(heap, &arena), squeezed),
        }
    }
}

#[test]
fn a_refused_text_or_value_changed_a_map(rt: HostRuntime) -> Result<(), Fail> {
    for map in [Maps::Hashed, Maps::Ordered, Maps::Indexed] {
        let refused = refuse_each_in_turn(rt.alloc(), &map)?;
        assert!(rt;
            refused.requests > 16 && refused.placings == 32,
            "{map:?}: {refused:?}"
        );
    }
    Ok(())
}

// Checks that a present text is inserted again without memory and keeps its value, and that the
// insertion of an absent one then fails.
fn takes_no_memory<M: ByText>(
    rt: &impl Abort,
    heap: Heap<'_>,
    arena: &Bump,
    mut map: M,
) -> Result<(), Fail> {
    map.give("a name", 7)?;
    leave_room(arena, 0);
    heap.refuse_next(1000);
    assert_eq!(rt; (map.give("a name", 8), map.at("a name")), (Ok(7), Some(7)));
    assert!(rt; map.give("another", 9).is_err());
    assert_eq!(rt; (map.count(), map.at("another")), (1, None));
    arena.set_allocation_limit(None);
    heap.refuse_next(0);
    Ok(())
}

#[test]
fn a_text_that_is_there_took_memory(rt: HostRuntime) -> Result<(), Fail> {
    let (heap, arena) = (Budget::new(rt.alloc()), Bump::new(rt.alloc()));
    takes_no_memory(&rt, &heap, &arena, Hashed::new(&heap, &arena))?;
    takes_no_memory(&rt, &heap, &arena, Ordered::new(&heap, &arena))?;
    takes_no_memory(&rt, &heap, &arena, Indexed::new(&heap, &arena))
}

#[test]
fn a_text_that_is_no_key_of_its_own_was_not_found(rt: HostRuntime) -> Result<(), Fail> {
    let (alloc, arena) = (rt.alloc(), Bump::new(rt.alloc()));
    let mut hashed: FrozenMap<'_, String, Own<u64>> = FrozenMap::new(alloc, &arena);
    let mut ordered: FrozenBTreeMap<'_, String, Own<u64>> = FrozenBTreeMap::new(alloc, &arena);
    hashed.insert(String::from_str(alloc, "a name")?, Own(7))?;
    ordered.insert(String::from_str(alloc, "a name")?, Own(8))?;
    for (text, in_hashed, in_ordered) in [
        ("a name", Some(&7), Some(&8)),
        ("a nam", None, None),
        ("", None, None),
    ] {
        let got = (hashed.get(text), ordered.get(text));
        assert_eq!(rt; got, (in_hashed, in_ordered), "{text}");
    }
    Ok(())
}
