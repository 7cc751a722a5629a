//! Scripts of 32 calls on the index set, the interner and the cache. Each request for memory is
//! denied in turn: those of the tables, of the texts and of the arena.
use bumpalo::Bump;
use elsa_cache::{LoadFault, ResourceCache};
use elsa_index::index_set::FrozenIndexSet;
use elsa_interner::interner::Interner;
use std::alloc::{AllocError, Global};
use std::hash::{BuildHasherDefault, FoldHasher};
use std::test::Fail;
use test_alloc::Budget;
use test_script::{Family, Script, Squeeze, WORDS, goes_through, leave_room, refuse_each_in_turn};

type Heap<'b> = &'b Budget<Global>;

type Hasher = BuildHasherDefault<FoldHasher>;

const CALLS: usize = 32;

fn word(index: usize) -> &'static str {
    WORDS[index % 16]
}

/// Writes how a script is run: the number of values that a call stores in the arena, and the
/// script.
macro_rules! family {
    ($name:ident, $number:ident => $placings:expr;
        $alloc:ident, $heap:ident, $arena:ident => $script:expr) => {
        impl Family for $name {
            fn calls(&self) -> usize {
                CALLS
            }

            fn placings(&self, $number: usize) -> usize {
                $placings
            }

            fn goes_over(
                &self,
                $alloc: Global,
                $heap: &Budget<Global>,
                squeezed: Squeeze,
            ) -> Option<u64> {
                let owned = Bump::new($alloc);
                let $arena = &owned;
                goes_through(&mut $script, CALLS, $heap, $arena, squeezed)
            }
        }
    };
}

// ---- the set

type Set<'a, 'b> = FrozenIndexSet<'a, String<Heap<'b>>, Hasher, Heap<'b>>;

/// An even call adds the next word, by each of the set's insertions in turn. Of each three odd
/// calls the first adds the last word again, the second clones, and the third collects.
#[derive(Drop)]
struct SetCalls<'a, 'b> {
    alloc: Global,
    heap: Heap<'b>,
    arena: &'a Bump,
    set: Set<'a, 'b>,
}

impl Script for SetCalls<'_, '_> {
    fn call(&mut self, number: usize) -> Result<bool, AllocError> {
        let (index, heap, set) = (number / 2, self.heap, &mut self.set);
        let name = word(index);
        Ok(match number % 6 {
            1 => set.insert_full_new(String::from_str(heap, name)?)? == (index, name, false),
            3 => has_words(&set.clone()?, index + 1),
            5 => {
                let mut texts = Vec::new(self.alloc);
                for text in [word(0), word(1), word(0)] {
                    texts.push(String::from_str(heap, text)?)?;
                }
                has_words(&Set::from_iter(heap, self.arena, Hasher::new(), texts)?, 2)
            }
            _ => {
                let text = String::from_str(heap, name)?;
                set.get_index_of(&text).is_none()
                    && match index % 6 {
                        0 | 1 => set.insert_absent(text)? == (index, name),
                        2 => set.insert(text)? == name,
                        3 => set.insert_full(text)? == (index, name),
                        _ => set.insert_full_new(text)? == (index, name, true),
                    }
            }
        })
    }

    fn holds(&self, number: usize) -> bool {
        has_words(&self.set, number.div_ceil(2))
    }
}

/// Returns whether the values are the first `count` words, in order.
fn has_words(set: &Set<'_, '_>, count: usize) -> bool {
    (0..count).all(|index| set.get_index(index) == Some(word(index)))
        && set.get_index(count).is_none()
}

struct Sets;

family! { Sets, number => [1, 0, 1, 0, 1, 2][number % 6];
    alloc, heap, arena => SetCalls { alloc, heap, arena, set: FrozenIndexSet::new(heap, arena) }
}

#[test]
fn a_denied_call_changed_an_index_set(rt: HostRuntime) -> Result<(), Fail> {
    let refused = refuse_each_in_turn(rt.alloc(), &Sets)?;
    assert!(rt; refused.requests > 40, "{refused:?}");
    assert_eq!(rt; refused.placings, 26);
    Ok(())
}

// ---- the interner

/// An even call puts the next word, an odd one puts the last word again.
#[derive(Drop)]
struct Puts<'a, 'b> {
    names: Interner<'a, Hasher, Heap<'b>>,
}

impl Script for Puts<'_, '_> {
    fn call(&mut self, number: usize) -> Result<bool, AllocError> {
        Ok(self.names.put(word(number / 2))? == number / 2)
    }

    fn holds(&self, number: usize) -> bool {
        let (names, count) = (&self.names, number.div_ceil(2));
        let are_found = (0..16).all(|index| {
            let found = (names.at(index), names.find(word(index)));
            found
                == if index < count {
                    (Some(word(index)), Some(index))
                } else {
                    (None, None)
                }
        });
        are_found && names.len() == count && names.at(usize::MAX).is_none()
    }
}

struct Interners;

family! { Interners, number => 1 - number % 2;
    _alloc, heap, arena => Puts { names: Interner::new(heap, arena) }
}

#[test]
fn a_denied_put_added_a_name(rt: HostRuntime) -> Result<(), Fail> {
    let refused = refuse_each_in_turn(rt.alloc(), &Interners)?;
    assert!(rt; refused.requests > 3, "{refused:?}");
    assert_eq!(rt; refused.placings, 16);
    Ok(())
}

// ---- the cache

/// Loads a path, with `text` as its text, and returns the first character of the text that the path
/// has. Counts the calls of the loader.
fn first_at<'a>(
    cache: &mut ResourceCache<'a, Heap<'_>>,
    alloc: Global,
    (path, text): (&'a str, &str),
    loads: &mut u64,
) -> Result<&'a str, LoadFault> {
    let resource = cache.get_resource(path, |_| {
        *loads += 1;
        String::from_str(alloc, text).map_err(|_| LoadFault::Memory)
    })?;
    Ok(resource.get())
}

/// An even call gets the resource of the next word, an odd one gets those of all earlier words
/// again. The text of a path is the path.
#[derive(Drop)]
struct Resources<'a, 'b> {
    alloc: Global,
    cache: ResourceCache<'a, Heap<'b>>,
    loads: u64,
}

impl Script for Resources<'_, '_> {
    fn call(&mut self, number: usize) -> Result<bool, AllocError> {
        let (cache, index) = (&mut self.cache, number / 2);
        if number % 2 == 0 {
            let path = (word(index), word(index));
            return match first_at(cache, self.alloc, path, &mut self.loads) {
                Ok(first) => Ok(first == &word(index)[..1]),
                Err(LoadFault::Memory) => Err(AllocError),
                Err(LoadFault::NotFound) => Ok(false),
            };
        }
        let mut loads = 0;
        for index in 0..=index {
            let first = first_at(cache, self.alloc, (word(index), ""), &mut loads);
            if first != Ok(&word(index)[..1]) {
                return Ok(false);
            }
        }
        Ok(loads == 0)
    }

    /// Each path was loaded once, except for one whose text could not be stored.
    fn holds(&self, number: usize) -> bool {
        let paths = number.div_ceil(2) as u64;
        self.loads == paths || self.loads == paths + 1
    }
}

struct Caches;

// A load stores a text of eight bytes and a resource of sixteen.
family! { Caches, number => if number % 2 == 0 { 3 } else { 0 };
    alloc, heap, arena => Resources { alloc, cache: ResourceCache::new(heap, arena), loads: 0 }
}

#[test]
fn a_denied_load_was_not_made_again_or_lost_another(rt: HostRuntime) -> Result<(), Fail> {
    let refused = refuse_each_in_turn(rt.alloc(), &Caches)?;
    assert!(rt; refused.requests > 4, "{refused:?}");
    assert_eq!(rt; refused.placings, 48);
    Ok(())
}

/// The result of a load whose text begins with `a` and during which memory is denied, that of the
/// next load, whose text begins with `b`, and the number of calls of the loader.
type Loads = (
    Result<&'static str, LoadFault>,
    Result<&'static str, LoadFault>,
    u64,
);

/// Loads a path twice. At the first load, the request with the number `request` is denied, and the
/// arena has room for `room` times eight bytes, if there is such a number.
fn loads_after(alloc: Global, request: Option<u64>, room: Option<usize>) -> (Loads, u64) {
    let (heap, arena) = (Budget::new(alloc), Bump::new(alloc));
    let mut cache = ResourceCache::new(&heap, &arena);
    let (mut loads, first_of) = (0, |text: &str| if text == "a" { "a" } else { "b" });
    if let Some(number) = request {
        heap.refuse(number, number + 1);
    }
    if let Some(room) = room {
        leave_room(&arena, room);
    }
    let first = first_at(&mut cache, alloc, ("path", "aardvark"), &mut loads).map(first_of);
    let requests = heap.asked();
    heap.refuse_next(0);
    arena.set_allocation_limit(None);
    let second = first_at(&mut cache, alloc, ("path", "bandicot"), &mut loads).map(first_of);
    ((first, second, loads), requests)
}

/// Checks that a load that was denied memory is made again, unless its text was stored. The first
/// half of the requests are those of the texts' table, the rest are those of the resources' table.
/// The text takes one of the three times eight bytes in the arena, and its resource two.
#[test]
fn a_text_that_was_stored_was_loaded_again_or_another_was_not(rt: HostRuntime) -> Result<(), Fail> {
    let (open, requests) = loads_after(rt.alloc(), None, None);
    assert_eq!(rt; open, (Ok("a"), Ok("a"), 1));
    assert!(rt; requests > 1 && requests % 2 == 0);
    let again = (Err(LoadFault::Memory), Ok("b"), 2);
    let kept = (Err(LoadFault::Memory), Ok("a"), 1);
    for number in 0..requests {
        let (loads, _) = loads_after(rt.alloc(), Some(number), None);
        let wanted = if number < requests / 2 { again } else { kept };
        assert_eq!(rt; (number, loads), (number, wanted));
    }
    for (room, wanted) in [(0, again), (1, kept), (2, kept)] {
        let (loads, _) = loads_after(rt.alloc(), None, Some(room));
        assert_eq!(rt; (room, loads), (room, wanted));
    }
    Ok(())
}
