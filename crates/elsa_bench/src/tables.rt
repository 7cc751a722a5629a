//! The maps of one thread: COUNT insertions of new keys, and COUNT reads of random present keys or
//! at random indices; and the longest of COUNT insertions.
use crate::draws::{Draws, key};
use bumpalo::Bump;
use elsa::append_map::AppendMap;
use elsa::{FrozenAppendMap, FrozenBTreeMap, FrozenIndexMap, FrozenMap, Own};
use elsa_maps::map::Frozen;
use std::alloc::{AllocError, Global};
use std::io;
use std::rt::Clock;
use std::time::Instant;

/// What is timed.
#[derive(Clone, Copy)]
pub enum TableCall {
    Insert,
    Get,
    /// The longest insertion alone.
    Longest,
}

/// A map whose keys are made from indices.
pub trait Table: Drop {
    /// Inserts the key of the index, and returns its value.
    fn insert(&mut self, index: usize) -> Result<u64, AllocError>;

    /// Returns the value of the key of the index.
    fn get(&self, index: usize) -> Option<u64>;
}

/// A map with numbers as keys.
#[derive(Drop)]
pub struct Numbers<M> {
    pub map: M,
}

/// A map with texts as keys.
#[derive(Drop)]
pub struct Texts<'t, M> {
    pub map: M,
    pub texts: &'t [String],
}

impl<'a, T> Table for Numbers<Frozen<&'a Bump, u64, Own<u64>, T>>
where
    T: elsa_tables::Table<u64, &'a u64> + Drop,
{
    #[inline(always)]
    fn insert(&mut self, index: usize) -> Result<u64, AllocError> {
        Ok(*self.map.insert(key(index), Own(index as u64))?)
    }

    #[inline(always)]
    fn get(&self, index: usize) -> Option<u64> {
        self.map.get(&key(index)).copied()
    }
}

impl<'a, 't> Table for Texts<'t, FrozenMap<'a, &'a str, Own<u64>>> {
    #[inline(always)]
    fn insert(&mut self, index: usize) -> Result<u64, AllocError> {
        let Some(text) = self.texts.get(index) else {
            return Ok(0);
        };
        Ok(*self.map.insert_text(text.as_str(), Own(index as u64))?)
    }

    #[inline(always)]
    fn get(&self, index: usize) -> Option<u64> {
        let text = self.texts.get(index)?;
        self.map.get(text.as_str()).copied()
    }
}

impl<'a, 't> Table for Texts<'t, FrozenAppendMap<'a, &'a str, Own<u64>>> {
    #[inline(always)]
    fn insert(&mut self, index: usize) -> Result<u64, AllocError> {
        let Some(text) = self.texts.get(index) else {
            return Ok(0);
        };
        Ok(*self.map.insert_text(text.as_str(), Own(index as u64))?)
    }

    #[inline(always)]
    fn get(&self, index: usize) -> Option<u64> {
        let text = self.texts.get(index)?;
        self.map.get(text.as_str()).copied()
    }
}

impl<'a, 't> Table for Texts<'t, FrozenBTreeMap<'a, &'a str, Own<u64>>> {
    #[inline(always)]
    fn insert(&mut self, index: usize) -> Result<u64, AllocError> {
        let Some(text) = self.texts.get(index) else {
            return Ok(0);
        };
        Ok(*self.map.insert_text(text.as_str(), Own(index as u64))?)
    }

    #[inline(always)]
    fn get(&self, index: usize) -> Option<u64> {
        let text = self.texts.get(index)?;
        self.map.get(text.as_str()).copied()
    }
}

impl<'a, 't> Table for Texts<'t, FrozenIndexMap<'a, &'a str, Own<u64>>> {
    #[inline(always)]
    fn insert(&mut self, index: usize) -> Result<u64, AllocError> {
        let Some(text) = self.texts.get(index) else {
            return Ok(0);
        };
        Ok(*self.map.insert_text(text.as_str(), Own(index as u64))?)
    }

    #[inline(always)]
    fn get(&self, index: usize) -> Option<u64> {
        let text = self.texts.get(index)?;
        self.map.get(text.as_str()).copied()
    }
}

fn fill<T: Table>(table: &mut T, count: usize) -> Result<u64, AllocError> {
    let mut sum = 0u64;
    for index in 0..count {
        sum = sum.wrapping_add(table.insert(index)?);
    }
    Ok(sum)
}

fn read<T: Table>(table: &T, count: usize) -> u64 {
    let mut draws = Draws::new(0);
    let mut sum = 0u64;
    for _turn in 0..count {
        if let Some(value) = table.get(draws.below(count)) {
            sum = sum.wrapping_add(value);
        }
    }
    sum
}

fn read_at(map: &FrozenIndexMap<'_, u64, Own<u64>>, count: usize) -> u64 {
    let mut draws = Draws::new(0);
    let mut sum = 0u64;
    for _turn in 0..count {
        if let Some((_key, value)) = map.get_index(draws.below(count)) {
            sum = sum.wrapping_add(*value);
        }
    }
    sum
}

/// Returns the nanoseconds of the longest insertion, and the sum of the values.
fn longest<R: Clock, T: Table>(rt: &R, table: T, count: usize) -> io::Result<(u128, u64)> {
    let mut table = table;
    let mut most = 0u128;
    let mut sum = 0u64;
    for index in 0..count {
        let start = Instant::now(rt)?;
        sum = sum.wrapping_add(table.insert(index)?);
        most = most.max(start.elapsed(rt)?.as_nanos());
    }
    Ok((most, sum))
}

fn timed<R: Clock, T: Table>(
    rt: &R,
    table: T,
    call: TableCall,
    count: usize,
) -> io::Result<(u128, u64)> {
    if matches!(&call, TableCall::Longest) {
        return longest(rt, table, count);
    }
    let mut table = table;
    let mut start = Instant::now(rt)?;
    let mut sum = fill(&mut table, count)?;
    if !matches!(&call, TableCall::Insert) {
        start = Instant::now(rt)?;
        sum = read(&table, count);
    }
    Ok((start.elapsed(rt)?.as_nanos(), sum))
}

/// Makes the texts of the indices below COUNT.
///
/// # Errors
/// Fails if an allocation fails.
pub fn made_texts(alloc: Global, count: usize) -> Result<Vec<String>, AllocError> {
    let mut texts = Vec::new(alloc);
    for index in 0..count {
        texts.push(format!(in alloc; "name{index}")?)?;
    }
    Ok(texts)
}

/// Returns the nanoseconds that the calls on a hashed map took, and their sum.
///
/// # Errors
/// Fails if the clock or an allocation fails.
pub fn timed_map<R: Clock>(
    rt: &R,
    alloc: Global,
    call: TableCall,
    count: usize,
) -> io::Result<(u128, u64)> {
    let arena = Bump::new(alloc);
    let map = FrozenMap::new(alloc, &arena);
    timed(rt, Numbers { map }, call, count)
}

/// Returns the same for texts as keys.
///
/// # Errors
/// Fails if the clock or an allocation fails.
pub fn timed_map_text<R: Clock>(
    rt: &R,
    alloc: Global,
    call: TableCall,
    count: usize,
) -> io::Result<(u128, u64)> {
    let texts = made_texts(alloc, count)?;
    let arena = Bump::new(alloc);
    let map = FrozenMap::new(alloc, &arena);
    let texts = texts.as_slice();
    timed(rt, Texts { map, texts }, call, count)
}

/// Returns the nanoseconds that the calls on a map for large collections took, and their sum.
///
/// # Errors
/// Fails if the clock or an allocation fails.
pub fn timed_append_map<R: Clock>(
    rt: &R,
    alloc: Global,
    call: TableCall,
    count: usize,
) -> io::Result<(u128, u64)> {
    let arena = Bump::new(alloc);
    let map = FrozenAppendMap::over(alloc, &arena, AppendMap::new(alloc));
    timed(rt, Numbers { map }, call, count)
}

/// Returns the nanoseconds that the calls on an ordered map took, and their sum.
///
/// # Errors
/// Fails if the clock or an allocation fails.
pub fn timed_tree<R: Clock>(
    rt: &R,
    alloc: Global,
    call: TableCall,
    count: usize,
) -> io::Result<(u128, u64)> {
    let arena = Bump::new(alloc);
    let map = FrozenBTreeMap::new(alloc, &arena);
    timed(rt, Numbers { map }, call, count)
}

/// Returns the same for texts as keys.
///
/// # Errors
/// Fails if the clock or an allocation fails.
pub fn timed_tree_text<R: Clock>(
    rt: &R,
    alloc: Global,
    call: TableCall,
    count: usize,
) -> io::Result<(u128, u64)> {
    let texts = made_texts(alloc, count)?;
    let arena = Bump::new(alloc);
    let map = FrozenBTreeMap::new(alloc, &arena);
    let texts = texts.as_slice();
    timed(rt, Texts { map, texts }, call, count)
}

/// Returns the nanoseconds that the calls on an index map took, and their sum.
///
/// # Errors
/// Fails if the clock or an allocation fails.
pub fn timed_index_map<R: Clock>(
    rt: &R,
    alloc: Global,
    call: TableCall,
    count: usize,
) -> io::Result<(u128, u64)> {
    let arena = Bump::new(alloc);
    let map = FrozenIndexMap::new(alloc, &arena);
    timed(rt, Numbers { map }, call, count)
}

/// Returns the same for texts as keys.
///
/// # Errors
/// Fails if the clock or an allocation fails.
pub fn timed_index_map_text<R: Clock>(
    rt: &R,
    alloc: Global,
    call: TableCall,
    count: usize,
) -> io::Result<(u128, u64)> {
    let texts = made_texts(alloc, count)?;
    let arena = Bump::new(alloc);
    let map = FrozenIndexMap::new(alloc, &arena);
    let texts = texts.as_slice();
    timed(rt, Texts { map, texts }, call, count)
}

/// Returns the nanoseconds that reads of an index map at random indices took, and their sum.
///
/// # Errors
/// Fails if the clock or an allocation fails.
pub fn timed_index_map_at<R: Clock>(
    rt: &R,
    alloc: Global,
    count: usize,
) -> io::Result<(u128, u64)> {
    let arena = Bump::new(alloc);
    let mut table = Numbers {
        map: FrozenIndexMap::new(alloc, &arena),
    };
    fill(&mut table, count)?;
    let start = Instant::now(rt)?;
    let sum = read_at(&table.map, count);
    Ok((start.elapsed(rt)?.as_nanos(), sum))
}
