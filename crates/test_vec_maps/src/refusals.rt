//! A script of 36 calls on the vector, and the storing of owners in the arena, with each request
//! for memory denied in turn: those of the table and of the arena.
use bumpalo::Bump;
use elsa_vec::stable::{Own, StableDeref};
use elsa_vec::vec::FrozenVec;
use std::alloc::{AllocError, Global};
use std::test::Fail;
use test_alloc::Budget;
use test_script::{Family, Script, Squeeze, WORDS, goes_through, refuse_each_in_turn};

type Heap<'b> = &'b Budget<Global>;

type Items<'a, 'b> = FrozenVec<'a, String<Heap<'b>>, Heap<'b>>;

const CALLS: usize = 36;

// Of each four calls, the first pushes the next word, the second clones, the third pushes the next
// word and gets it, and the last collects.
#[derive(Drop)]
struct Vector<'a, 'b> {
    heap: Heap<'b>,
    arena: &'a Bump,
    items: Items<'a, 'b>,
}

impl Script for Vector<'_, '_> {
    fn call(&mut self, number: usize) -> Result<bool, AllocError> {
        let heap = self.heap;
        let word = WORDS[number / 2 % 16];
        match number % 4 {
            0 => {
                self.items.push(String::from_str(heap, word)?)?;
                Ok(true)
            }
            1 => Ok(has_words(&self.items.clone()?, number.div_ceil(2))),
            2 => Ok(self.items.push_get(String::from_str(heap, word)?)? == word),
            _ => {
                let owners = [
                    String::from_str(heap, WORDS[0])?,
                    String::from_str(heap, WORDS[1])?,
                    String::from_str(heap, WORDS[2])?,
                ];
                let made: Items<'_, '_> = FrozenVec::from_iter(
                    heap,
                    self.arena,
                    owners.into_iter(),
                )?;
                Ok(has_words(&made, 3))
            }
        }
    }

    fn holds(&self, number: usize) -> bool {
        has_words(&self.items, number.div_ceil(2))
    }
}

// Returns whether the items are the first `count` words, with the sixteen words repeated.
fn has_words(items: &Items<'_, '_>, count: usize) -> bool {
    items.len() == count && (0..count).all(|index| items.get(index) == Some(WORDS[index % 16]))
}

#[derive(Drop)]
struct Vectors;

impl Family for Vectors {
    fn calls(&self) -> usize {
        CALLS
    }

    fn placings(&self, number: usize) -> usize {
        [1, 0, 1, 3][number % 4]
    }

    fn goes_over(&self, alloc: Global, heap: &Budget<Global>, squeezed: Squeeze) -> Option<u64> {
        let arena = Bump::new(alloc);
        let mut script = Vector {
            heap,
            arena: &arena,
            items: FrozenVec::new(heap, &arena),
        };
        goes_through(&mut script, CALLS, heap, &arena, squeezed)
    }
}

#[test]
fn a_refused_push_clone_or_collection_changed_the_vector(rt: HostRuntime) -> Result<(), Fail> {
    let refused = refuse_each_in_turn(rt.alloc(), &Vectors)?;
    assert!(rt;
        refused.requests > 60 && refused.placings == 45,
        "{refused:?}"
    );
    Ok(())
}

#[test]
fn an_owner_that_the_arena_refused_did_not_come_back(rt: HostRuntime) -> Result<(), Fail> {
    let (heap, arena) = (Budget::new(rt.alloc()), Bump::new(rt.alloc()));
    let text = String::from_str(&heap, "dormouse")?;
    let list = Vec::from_slice(&heap, &[7, 8, 9])?;
    let asked = heap.asked();
    arena.set_allocation_limit(Some(0));
    let (Err(text), Err(list)) = (text.place(&arena), list.place(&arena)) else {
        return Err(Fail::from("an owner was stored without room"));
    };
    let got = (text.as_str(), list.as_slice());
    assert_eq!(rt; got, ("dormouse", [7, 8, 9].as_slice()));
    assert_eq!(rt; Own(7u64).place(&arena), Err(Own(7)));
    assert_eq!(rt; heap.asked(), asked);
    arena.set_allocation_limit(None);
    assert_eq!(rt; text.place(&arena).ok(), Some("dormouse"));
    assert_eq!(rt; list.place(&arena).ok(), Some([7, 8, 9].as_slice()));
    assert_eq!(rt; Own(7u64).place(&arena), Ok(&7));
    assert_eq!(rt; heap.given(), heap.granted());
    Ok(())
}
