//! Allocation failures: each allocation of a script fails in turn, and each doubling of the
//! buckets.
use bumpalo::Bump;
use elsa_maps::map::FrozenAppendMap;
use elsa_tables::IntoPairs;
use elsa_vec::stable::Own;
use std::alloc::{AllocError, Global};
use std::hash::{BuildHasherDefault, FoldHasher};
use std::test::Fail;
use test_alloc::Budget;
use test_script::{Family, Script, Squeeze, WORDS, goes_through, refuse_each_in_turn};

type Heap<'b> = &'b Budget<Global>;

type Text<'b> = String<Heap<'b>>;

type Map<'a, 'b> = FrozenAppendMap<
    'a,
    Text<'b>,
    Text<'b>,
    BuildHasherDefault<FoldHasher>,
    Heap<'b>,
>;

const CALLS: usize = 32;

// An even call inserts the next word. Of the odd ones, the first inserts it again, the second
// clones the table, the third reserves room, and the last lists the pairs of a clone.
#[derive(Drop)]
struct Calls<'a, 'b> {
    heap: Heap<'b>,
    map: Map<'a, 'b>,
}

fn word(index: usize) -> &'static str {
    WORDS[index % 16]
}

fn value(index: usize) -> &'static str {
    word(index + 5)
}

impl Script for Calls<'_, '_> {
    fn call(&mut self, number: usize) -> Result<bool, AllocError> {
        let (heap, map, index, count) = (self.heap, &mut self.map, number / 2, number.div_ceil(2));
        Ok(match number % 8 {
            3 => map.as_mut().clone()?.entries().len() == count,
            5 => {
                map.reserve(number).map_err(|_| AllocError)?;
                map.capacity() >= number
            }
            7 => map.as_mut().clone()?.into_pairs(heap)?.len() == count,
            kind => {
                let is_new = kind != 1;
                let key = String::from_str(heap, word(index))?;
                let text = String::from_str(heap, if is_new { value(index) } else { "other" })?;
                map.insert_new(key, text)? == (value(index), is_new)
            }
        })
    }

    fn holds(&self, number: usize) -> bool {
        let (map, count) = (&self.map, number.div_ceil(2));
        let has = |at: usize| map.get(word(at)) == (at < count).then(|| value(at));
        map.len() == count && (0..16).all(has)
    }
}

#[derive(Drop)]
struct Texts;

impl Family for Texts {
    fn calls(&self) -> usize {
        CALLS
    }

    fn placings(&self, number: usize) -> usize {
        if number % 2 == 0 { 1 } else { 0 }
    }

    fn goes_over(&self, alloc: Global, heap: &Budget<Global>, squeezed: Squeeze) -> Option<u64> {
        let arena = Bump::new(alloc);
        let map = Map::new(heap, &arena);
        goes_through(&mut Calls { heap, map }, CALLS, heap, &arena, squeezed)
    }
}

#[test]
fn a_failed_call_leaves_the_map_as_it_was(rt: HostRuntime) -> Result<(), Fail> {
    let refused = refuse_each_in_turn(rt.alloc(), &Texts)?;
    assert!(rt; refused.requests > 60 && refused.placings == 16);
    Ok(())
}

// ---- doublings

type Numbers<'a, 'b> = FrozenAppendMap<'a, u64, Own<u64>, BuildHasherDefault<FoldHasher>, Heap<'b>>;

#[test]
fn a_failed_doubling_leaves_every_entry(rt: HostRuntime) -> Result<(), Fail> {
    let (heap, arena) = (Budget::new(rt.alloc()), Bump::new(rt.alloc()));
    let mut map: Numbers<'_, '_> = Numbers::new(&heap, &arena);
    let mut failures = 0;
    for number in 0..600 {
        heap.refuse_next(u64::MAX);
        let refused = heap.refused();
        let is_inserted = map.insert(number, Own(number)).is_ok();
        assert_eq!(rt; is_inserted, heap.refused() == refused, "{number}");
        heap.refuse_next(0);
        if !is_inserted {
            failures += 1;
            for key in 0..number + 1 {
                let wanted = if key < number { Some(&key) } else { None };
                assert_eq!(rt; map.get(&key), wanted, "{number}");
            }
            assert_eq!(rt; map.len() as u64, number);
        }
        assert_eq!(rt; *map.insert(number, Own(number))?, number);
    }
    // The hash table grows at 0, 12, 39, 147, 291 and 579 entries.
    assert!(rt; failures >= 6);
    Ok(())
}
