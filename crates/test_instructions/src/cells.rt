//! The collections that grow through `&self`.
use crate::maps::texts_of;
use crate::rows::{Map, again, filled, reads, turns};
use crate::{CALLS, Draws, key};
use elsa::TypedArena;
use elsa::cell::{FrozenBTreeMap, FrozenMap, FrozenVec};
use std::alloc::{AllocError, Global};

/// A map with numbers as keys.
#[derive(Drop)]
struct Numbers<M> {
    map: M,
}

type Hashed = Numbers<FrozenMap<u64, u64>>;

type Ordered = Numbers<FrozenBTreeMap<u64, u64>>;

type Texts = FrozenMap<String, u64>;

impl Map for Hashed {
    #[inline(always)]
    fn insert(&mut self, index: usize) -> Result<u64, AllocError> {
        let Ok(value) = self.map.insert(key(index), index as u64) else {
            return Err(AllocError);
        };
        Ok(*value)
    }

    #[inline(always)]
    fn get(&mut self, index: usize) -> u64 {
        self.map.get(&key(index)).copied().unwrap_or(1)
    }
}

impl Map for Ordered {
    #[inline(always)]
    fn insert(&mut self, index: usize) -> Result<u64, AllocError> {
        let Ok(value) = self.map.insert(key(index), index as u64) else {
            return Err(AllocError);
        };
        Ok(*value)
    }

    #[inline(always)]
    fn get(&mut self, index: usize) -> u64 {
        self.map.get(&key(index)).copied().unwrap_or(1)
    }
}

#[inline(never)]
fn cell_map_get_present(map: &mut Hashed, entries: usize) -> u64 {
    reads(map, entries, 0)
}

#[inline(never)]
fn cell_map_get_absent(map: &mut Hashed, entries: usize) -> u64 {
    reads(map, entries, entries)
}

#[inline(never)]
fn cell_map_insert_present(map: &mut Hashed, entries: usize) -> Result<u64, AllocError> {
    again(map, entries)
}

#[inline(never)]
fn cell_map_fill(alloc: Global, entries: usize) -> Result<(), AllocError> {
    for _turn in 0..turns(entries) {
        let map = FrozenMap::new(alloc)?;
        let _made = filled(Numbers { map }, entries)?;
    }
    Ok(())
}

#[inline(never)]
fn cell_tree_get_present(map: &mut Ordered, entries: usize) -> u64 {
    reads(map, entries, 0)
}

#[inline(never)]
fn cell_tree_walk(map: &Ordered, entries: usize) -> u64 {
    let mut sum = 0u64;
    for _turn in 0..turns(entries) {
        let Ok(hold) = map.map.hold() else {
            return sum;
        };
        for entry in hold.ascending() {
            sum = sum.wrapping_add(*entry.value());
        }
    }
    sum
}

#[inline(never)]
fn cell_tree_fill(alloc: Global, entries: usize) -> Result<(), AllocError> {
    for _turn in 0..turns(entries) {
        let map = FrozenBTreeMap::new(alloc)?;
        let _made = filled(Numbers { map }, entries)?;
    }
    Ok(())
}

#[inline(never)]
fn cell_texts_get_present(map: &Texts, texts: &[String], entries: usize) -> u64 {
    let mut draws = Draws::new();
    let mut sum = 0u64;
    for _turn in 0..CALLS {
        if let Some(text) = texts.get(draws.below(entries)) {
            sum = sum.wrapping_add(map.get(text.as_str()).copied().unwrap_or(1));
        }
    }
    sum
}

#[inline(never)]
fn cell_vec_get(items: &FrozenVec<u64>, entries: usize) -> u64 {
    let mut draws = Draws::new();
    let mut sum = 0u64;
    for _turn in 0..CALLS {
        if let Some(item) = items.get(draws.below(entries)) {
            sum = sum.wrapping_add(*item);
        }
    }
    sum
}

fn pushed(alloc: Global, entries: usize) -> Result<FrozenVec<u64>, AllocError> {
    let items = FrozenVec::new(alloc)?;
    for number in 0..entries {
        let Ok(_index) = items.push(number as u64) else {
            return Err(AllocError);
        };
    }
    Ok(items)
}

#[inline(never)]
fn cell_vec_fill(alloc: Global, entries: usize) -> Result<u64, AllocError> {
    let mut sum = 0u64;
    for _turn in 0..turns(entries) {
        let items = pushed(alloc, entries)?;
        sum = sum.wrapping_add(items.len() as u64);
    }
    Ok(sum)
}

#[inline(never)]
fn arena_fill(alloc: Global, entries: usize) -> Result<u64, AllocError> {
    let mut sum = 0u64;
    for _turn in 0..turns(entries) {
        let arena = TypedArena::new(alloc)?;
        for number in 0..entries {
            let Ok(value) = arena.alloc(number as u64) else {
                return Err(AllocError);
            };
            sum = sum.wrapping_add(*value);
        }
    }
    Ok(sum)
}

/// Makes the calls of all rows of these collections.
pub fn all(alloc: Global, entries: usize) -> Result<u64, AllocError> {
    let mut sum = 0u64;
    let mut map = filled(
        Numbers {
            map: FrozenMap::new(alloc)?,
        },
        entries,
    )?;
    sum = sum.wrapping_add(cell_map_get_present(&mut map, entries));
    sum = sum.wrapping_add(cell_map_get_absent(&mut map, entries));
    sum = sum.wrapping_add(cell_map_insert_present(&mut map, entries)?);
    cell_map_fill(alloc, entries)?;
    let mut tree = filled(
        Numbers {
            map: FrozenBTreeMap::new(alloc)?,
        },
        entries,
    )?;
    sum = sum.wrapping_add(cell_tree_get_present(&mut tree, entries));
    sum = sum.wrapping_add(cell_tree_walk(&tree, entries));
    cell_tree_fill(alloc, entries)?;
    let texts = texts_of(alloc, entries)?;
    let named: Texts = FrozenMap::new(alloc)?;
    for text in texts.iter() {
        let Ok(_value) = named.insert(text.clone()?, 7) else {
            return Err(AllocError);
        };
    }
    sum = sum.wrapping_add(cell_texts_get_present(&named, texts.as_slice(), entries));
    let items = pushed(alloc, entries)?;
    sum = sum.wrapping_add(cell_vec_get(&items, entries));
    sum = sum.wrapping_add(cell_vec_fill(alloc, entries)?);
    Ok(sum.wrapping_add(arena_fill(alloc, entries)?))
}
