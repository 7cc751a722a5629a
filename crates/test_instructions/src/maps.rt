//! The collections over an arena, and the interner of one thread.
use crate::rows::{Map, again, filled, reads, turns};
use crate::{CALLS, Draws, key};
use bumpalo::Bump;
use elsa::interner::Interner;
use elsa::{FrozenAppendMap, FrozenBTreeMap, FrozenIndexMap, FrozenMap, FrozenVec, Own};
use std::alloc::{AllocError, Global};

/// A map with numbers as keys.
#[derive(Drop)]
struct Numbers<M> {
    map: M,
}

type Hashed<'a> = Numbers<FrozenMap<'a, u64, Own<u64>>>;

type Append<'a> = Numbers<FrozenAppendMap<'a, u64, Own<u64>>>;

type Indexed<'a> = Numbers<FrozenIndexMap<'a, u64, Own<u64>>>;

type Tree<'a> = Numbers<FrozenBTreeMap<'a, u64, Own<u64>>>;

impl<'a> Map for Hashed<'a> {
    #[inline(always)]
    fn insert(&mut self, index: usize) -> Result<u64, AllocError> {
        Ok(*self.map.insert(key(index), Own(index as u64))?)
    }

    #[inline(always)]
    fn get(&mut self, index: usize) -> u64 {
        self.map.get(&key(index)).copied().unwrap_or(1)
    }
}

impl<'a> Map for Append<'a> {
    #[inline(always)]
    fn insert(&mut self, index: usize) -> Result<u64, AllocError> {
        Ok(*self.map.insert(key(index), Own(index as u64))?)
    }

    #[inline(always)]
    fn get(&mut self, index: usize) -> u64 {
        self.map.get(&key(index)).copied().unwrap_or(1)
    }
}

impl<'a> Map for Indexed<'a> {
    #[inline(always)]
    fn insert(&mut self, index: usize) -> Result<u64, AllocError> {
        Ok(*self.map.insert(key(index), Own(index as u64))?)
    }

    #[inline(always)]
    fn get(&mut self, index: usize) -> u64 {
        self.map.get(&key(index)).copied().unwrap_or(1)
    }
}

impl<'a> Map for Tree<'a> {
    #[inline(always)]
    fn insert(&mut self, index: usize) -> Result<u64, AllocError> {
        Ok(*self.map.insert(key(index), Own(index as u64))?)
    }

    #[inline(always)]
    fn get(&mut self, index: usize) -> u64 {
        self.map.get(&key(index)).copied().unwrap_or(1)
    }
}

/// The map of texts.
struct Texts<'a, 't> {
    map: FrozenMap<'a, &'a str, Own<u64>>,
    texts: &'t [String],
}

#[inline(never)]
fn map_get_present(map: &mut Hashed<'_>, entries: usize) -> u64 {
    reads(map, entries, 0)
}

#[inline(never)]
fn map_get_absent(map: &mut Hashed<'_>, entries: usize) -> u64 {
    reads(map, entries, entries)
}

#[inline(never)]
fn map_insert_present(map: &mut Hashed<'_>, entries: usize) -> Result<u64, AllocError> {
    again(map, entries)
}

#[inline(never)]
fn map_fill(alloc: Global, entries: usize) -> Result<(), AllocError> {
    for _turn in 0..turns(entries) {
        let arena = Bump::new(alloc);
        let map = FrozenMap::new(alloc, &arena);
        let _made = filled(Numbers { map }, entries)?;
    }
    Ok(())
}

#[inline(never)]
fn append_map_get_present(map: &mut Append<'_>, entries: usize) -> u64 {
    reads(map, entries, 0)
}

#[inline(never)]
fn append_map_get_absent(map: &mut Append<'_>, entries: usize) -> u64 {
    reads(map, entries, entries)
}

#[inline(never)]
fn append_map_insert_present(map: &mut Append<'_>, entries: usize) -> Result<u64, AllocError> {
    again(map, entries)
}

#[inline(never)]
fn append_map_fill(alloc: Global, entries: usize) -> Result<(), AllocError> {
    for _turn in 0..turns(entries) {
        let arena = Bump::new(alloc);
        let map = FrozenAppendMap::new(alloc, &arena);
        let _made = filled(Numbers { map }, entries)?;
    }
    Ok(())
}

#[inline(never)]
fn index_map_get_present(map: &mut Indexed<'_>, entries: usize) -> u64 {
    reads(map, entries, 0)
}

#[inline(never)]
fn index_map_get_absent(map: &mut Indexed<'_>, entries: usize) -> u64 {
    reads(map, entries, entries)
}

#[inline(never)]
fn index_map_fill(alloc: Global, entries: usize) -> Result<(), AllocError> {
    for _turn in 0..turns(entries) {
        let arena = Bump::new(alloc);
        let map = FrozenIndexMap::new(alloc, &arena);
        let _made = filled(Numbers { map }, entries)?;
    }
    Ok(())
}

#[inline(never)]
fn tree_get_present(map: &mut Tree<'_>, entries: usize) -> u64 {
    reads(map, entries, 0)
}

#[inline(never)]
fn tree_fill(alloc: Global, entries: usize) -> Result<(), AllocError> {
    for _turn in 0..turns(entries) {
        let arena = Bump::new(alloc);
        let map = FrozenBTreeMap::new(alloc, &arena);
        let _made = filled(Numbers { map }, entries)?;
    }
    Ok(())
}

#[inline(never)]
fn vec_fill(alloc: Global, entries: usize) -> Result<u64, AllocError> {
    let mut sum = 0u64;
    for _turn in 0..turns(entries) {
        let arena = Bump::new(alloc);
        let mut items = FrozenVec::new(alloc, &arena);
        for number in 0..entries {
            items.push(Own(number as u64))?;
        }
        sum = sum.wrapping_add(items.len() as u64);
    }
    Ok(sum)
}

#[inline(never)]
fn interner_fill(alloc: Global, texts: &[String], entries: usize) -> Result<u64, AllocError> {
    let mut sum = 0u64;
    for _turn in 0..turns(entries) {
        let arena = Bump::new(alloc);
        let mut names = Interner::new(alloc, &arena);
        for text in texts.iter() {
            sum = sum.wrapping_add(names.put(text.as_str())? as u64);
        }
    }
    Ok(sum)
}

#[inline(never)]
fn interner_put_present(
    names: &mut Interner<'_>,
    texts: &[String],
    entries: usize,
) -> Result<u64, AllocError> {
    let mut draws = Draws::new();
    let mut sum = 0u64;
    for _turn in 0..CALLS {
        if let Some(text) = texts.get(draws.below(entries)) {
            sum = sum.wrapping_add(names.put(text.as_str())? as u64);
        }
    }
    Ok(sum)
}

/// Makes the texts of the first indices.
pub fn texts_of(alloc: Global, entries: usize) -> Result<Vec<String>, AllocError> {
    let mut texts = Vec::new(alloc);
    for index in 0..entries {
        texts.push(format!(in alloc; "name{index}")?)?;
    }
    Ok(texts)
}

/// Makes the calls of all rows of these collections.
pub fn all(alloc: Global, entries: usize) -> Result<u64, AllocError> {
    let arena = Bump::new(alloc);
    let mut sum = 0u64;
    let mut map = filled(
        Numbers {
            map: FrozenMap::new(alloc, &arena),
        },
        entries,
    )?;
    sum = sum.wrapping_add(map_get_present(&mut map, entries));
    sum = sum.wrapping_add(map_get_absent(&mut map, entries));
    sum = sum.wrapping_add(map_insert_present(&mut map, entries)?);
    map_fill(alloc, entries)?;
    let mut map = filled(
        Numbers {
            map: FrozenAppendMap::new(alloc, &arena),
        },
        entries,
    )?;
    sum = sum.wrapping_add(append_map_get_present(&mut map, entries));
    sum = sum.wrapping_add(append_map_get_absent(&mut map, entries));
    sum = sum.wrapping_add(append_map_insert_present(&mut map, entries)?);
    append_map_fill(alloc, entries)?;
    let mut map = filled(
        Numbers {
            map: FrozenIndexMap::new(alloc, &arena),
        },
        entries,
    )?;
    sum = sum.wrapping_add(index_map_get_present(&mut map, entries));
    sum = sum.wrapping_add(index_map_get_absent(&mut map, entries));
    index_map_fill(alloc, entries)?;
    let mut map = filled(
        Numbers {
            map: FrozenBTreeMap::new(alloc, &arena),
        },
        entries,
    )?;
    sum = sum.wrapping_add(tree_get_present(&mut map, entries));
    tree_fill(alloc, entries)?;
    sum = sum.wrapping_add(vec_fill(alloc, entries)?);
    let texts = texts_of(alloc, entries)?;
    let mut names = Interner::new(alloc, &arena);
    for text in texts.iter() {
        let _number = names.put(text.as_str())?;
    }
    sum = sum.wrapping_add(interner_fill(alloc, texts.as_slice(), entries)?);
    Ok(sum.wrapping_add(interner_put_present(&mut names, texts.as_slice(), entries)?))
}
