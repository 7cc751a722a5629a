//! Collections of COUNT entries, TURNS times: made, filled and dropped; COUNT look-ups of random
//! present keys, or of absent keys; walks; clones.
use crate::draws::{Draws, key};
use crate::tables::{Numbers, Table, Texts, made_texts};
use bumpalo::Bump;
use elsa::{
    FrozenAppendMap, FrozenBTreeMap, FrozenIndexMap, FrozenMap, FrozenVec, Own, TypedArena, cell,
};
use std::alloc::{AllocError, Global};
use std::io;
use std::rt::Clock;
use std::time::Instant;

/// The collection.
#[derive(Clone, Copy)]
pub enum Kind {
    Map,
    MapText,
    AppendMap,
    AppendMapText,
    IndexMap,
    Tree,
    CellMap,
    CellTree,
    /// `FrozenVec`.
    Items,
    /// `TypedArena` of numbers.
    Arena,
}

/// What is timed.
#[derive(Clone, Copy)]
pub enum SmallCall {
    Fill,
    Present,
    Absent,
    Walk,
    Copy,
}

/// Makes the texts of the keys that are looked up, absent ones after the present ones. Of another
/// kind there are none.
fn texts_of(alloc: Global, kind: Kind, count: usize) -> Result<Vec<String>, AllocError> {
    match kind {
        Kind::MapText | Kind::AppendMapText => made_texts(alloc, count.saturating_mul(2)),
        _ => Ok(Vec::new(alloc)),
    }
}

/// A map that is walked and cloned as a whole.
trait Whole: Table {
    fn walk(&self) -> u64;

    /// Clones it, and returns its length.
    fn copy(&self) -> Result<u64, AllocError>;
}

/// A map that grows through `&self`.
#[derive(Drop)]
struct CellNumbers<M> {
    map: M,
}

impl Table for CellNumbers<cell::FrozenMap<u64, u64>> {
    #[inline(always)]
    fn insert(&mut self, index: usize) -> Result<u64, AllocError> {
        let Ok(value) = self.map.insert(key(index), index as u64) else {
            return Err(AllocError);
        };
        Ok(*value)
    }

    #[inline(always)]
    fn get(&self, index: usize) -> Option<u64> {
        self.map.get(&key(index)).copied()
    }
}

impl Table for CellNumbers<cell::FrozenBTreeMap<u64, u64>> {
    #[inline(always)]
    fn insert(&mut self, index: usize) -> Result<u64, AllocError> {
        let Ok(value) = self.map.insert(key(index), index as u64) else {
            return Err(AllocError);
        };
        Ok(*value)
    }

    #[inline(always)]
    fn get(&self, index: usize) -> Option<u64> {
        self.map.get(&key(index)).copied()
    }
}

impl<'a> Whole for Numbers<FrozenMap<'a, u64, Own<u64>>> {
    fn walk(&self) -> u64 {
        let mut sum = 0u64;
        for (_key, value) in self.map.iter() {
            sum = sum.wrapping_add(**value);
        }
        sum
    }

    fn copy(&self) -> Result<u64, AllocError> {
        let copy = self.map.clone()?;
        Ok(copy.len() as u64)
    }
}

impl<'a> Whole for Numbers<FrozenIndexMap<'a, u64, Own<u64>>> {
    fn walk(&self) -> u64 {
        let mut sum = 0u64;
        for (_key, value) in self.map.iter() {
            sum = sum.wrapping_add(**value);
        }
        sum
    }

    fn copy(&self) -> Result<u64, AllocError> {
        let copy = self.map.clone()?;
        Ok(copy.len() as u64)
    }
}

impl<'a> Whole for Numbers<FrozenBTreeMap<'a, u64, Own<u64>>> {
    fn walk(&self) -> u64 {
        let mut sum = 0u64;
        for (_key, value) in self.map.iter() {
            sum = sum.wrapping_add(**value);
        }
        sum
    }

    fn copy(&self) -> Result<u64, AllocError> {
        let copy = self.map.clone()?;
        Ok(copy.len() as u64)
    }
}

fn fill<T: Table>(table: T, count: usize) -> Result<u64, AllocError> {
    let mut table = table;
    let mut sum = 0u64;
    for index in 0..count {
        sum = sum.wrapping_add(table.insert(index)?);
    }
    Ok(sum)
}

fn filled_items(alloc: Global, count: usize) -> Result<u64, AllocError> {
    let arena = Bump::new(alloc);
    let mut items = FrozenVec::new(alloc, &arena);
    for index in 0..count {
        items.push(Own(index as u64))?;
    }
    Ok(items.last().copied().unwrap_or(0))
}

fn filled_arena(alloc: Global, count: usize) -> Result<u64, AllocError> {
    let arena = TypedArena::new(alloc)?;
    let mut sum = 0u64;
    for index in 0..count {
        let Ok(value) = arena.alloc(index as u64) else {
            return Err(AllocError);
        };
        sum = sum.wrapping_add(*value);
    }
    Ok(sum)
}

/// Makes a collection, fills it and drops it. Returns the sum of its values.
fn filled(alloc: Global, kind: Kind, texts: &[String], count: usize) -> Result<u64, AllocError> {
    let arena = Bump::new(alloc);
    match kind {
        Kind::Map => fill(
            Numbers {
                map: FrozenMap::new(alloc, &arena),
            },
            count,
        ),
        Kind::MapText => {
            let map = FrozenMap::new(alloc, &arena);
            fill(Texts { map, texts }, count)
        }
        Kind::AppendMap => {
            let map = FrozenAppendMap::new(alloc, &arena);
            fill(Numbers { map }, count)
        }
        Kind::AppendMapText => {
            let map = FrozenAppendMap::new(alloc, &arena);
            fill(Texts { map, texts }, count)
        }
        Kind::IndexMap => fill(
            Numbers {
                map: FrozenIndexMap::new(alloc, &arena),
            },
            count,
        ),
        Kind::Tree => fill(
            Numbers {
                map: FrozenBTreeMap::new(alloc, &arena),
            },
            count,
        ),
        Kind::CellMap => fill(
            CellNumbers {
                map: cell::FrozenMap::new(alloc)?,
            },
            count,
        ),
        Kind::CellTree => fill(
            CellNumbers {
                map: cell::FrozenBTreeMap::new(alloc)?,
            },
            count,
        ),
        Kind::Items => filled_items(alloc, count),
        Kind::Arena => filled_arena(alloc, count),
    }
}

fn timed_fills<R: Clock>(
    rt: &R,
    alloc: Global,
    kind: Kind,
    turns: usize,
    count: usize,
) -> io::Result<(u128, u64)> {
    let texts = texts_of(alloc, kind, count)?;
    let start = Instant::now(rt)?;
    let mut sum = 0u64;
    for _turn in 0..turns {
        sum = sum.wrapping_add(filled(alloc, kind, texts.as_slice(), count)?);
    }
    Ok((start.elapsed(rt)?.as_nanos(), sum))
}

/// Looks up COUNT keys TURNS times, of the present ones or of COUNT absent ones.
fn timed_look_ups<R: Clock, T: Table>(
    rt: &R,
    table: T,
    call: SmallCall,
    turns: usize,
    count: usize,
) -> io::Result<(u128, u64)> {
    let mut table = table;
    for index in 0..count {
        table.insert(index)?;
    }
    let first = if matches!(&call, SmallCall::Absent) {
        count
    } else {
        0
    };
    let mut draws = Draws::new(0);
    let mut sum = 0u64;
    let start = Instant::now(rt)?;
    for _turn in 0..turns {
        for _key in 0..count {
            let value = table.get(first.wrapping_add(draws.below(count)));
            sum = sum.wrapping_add(value.unwrap_or(1));
        }
    }
    Ok((start.elapsed(rt)?.as_nanos(), sum))
}

fn timed_whole<R: Clock, T: Whole>(
    rt: &R,
    table: T,
    call: SmallCall,
    turns: usize,
    count: usize,
) -> io::Result<(u128, u64)> {
    let mut table = table;
    for index in 0..count {
        table.insert(index)?;
    }
    let copies = matches!(&call, SmallCall::Copy);
    let mut sum = 0u64;
    let start = Instant::now(rt)?;
    for _turn in 0..turns {
        sum = sum.wrapping_add(if copies { table.copy()? } else { table.walk() });
    }
    Ok((start.elapsed(rt)?.as_nanos(), sum))
}

fn timed_calls<R: Clock, T: Whole>(
    rt: &R,
    table: T,
    call: SmallCall,
    turns: usize,
    count: usize,
) -> io::Result<(u128, u64)> {
    match &call {
        SmallCall::Walk | SmallCall::Copy => timed_whole(rt, table, call, turns, count),
        _ => timed_look_ups(rt, table, call, turns, count),
    }
}

fn timed_item_walks<R: Clock>(
    rt: &R,
    alloc: Global,
    turns: usize,
    count: usize,
) -> io::Result<(u128, u64)> {
    let arena = Bump::new(alloc);
    let mut items = FrozenVec::new(alloc, &arena);
    for index in 0..count {
        items.push(Own(index as u64))?;
    }
    let mut sum = 0u64;
    let start = Instant::now(rt)?;
    for _turn in 0..turns {
        for item in items.iter() {
            sum = sum.wrapping_add(*item);
        }
    }
    Ok((start.elapsed(rt)?.as_nanos(), sum))
}

/// Returns the nanoseconds that the calls took, and their sum.
///
/// # Errors
/// Fails if the clock or an allocation fails.
pub fn timed<R: Clock>(
    rt: &R,
    alloc: Global,
    kind: Kind,
    call: SmallCall,
    turns: usize,
    count: usize,
) -> io::Result<(u128, u64)> {
    if matches!(&call, SmallCall::Fill) {
        return timed_fills(rt, alloc, kind, turns, count);
    }
    let texts = texts_of(alloc, kind, count)?;
    let texts = texts.as_slice();
    let arena = Bump::new(alloc);
    match kind {
        Kind::Map => {
            let map = FrozenMap::new(alloc, &arena);
            timed_calls(rt, Numbers { map }, call, turns, count)
        }
        Kind::MapText => {
            let map = FrozenMap::new(alloc, &arena);
            timed_look_ups(rt, Texts { map, texts }, call, turns, count)
        }
        Kind::AppendMap => {
            let map = FrozenAppendMap::new(alloc, &arena);
            timed_look_ups(rt, Numbers { map }, call, turns, count)
        }
        Kind::AppendMapText => {
            let map = FrozenAppendMap::new(alloc, &arena);
            timed_look_ups(rt, Texts { map, texts }, call, turns, count)
        }
        Kind::IndexMap => {
            let map = FrozenIndexMap::new(alloc, &arena);
            timed_calls(rt, Numbers { map }, call, turns, count)
        }
        Kind::Tree => {
            let map = FrozenBTreeMap::new(alloc, &arena);
            timed_calls(rt, Numbers { map }, call, turns, count)
        }
        Kind::CellMap => {
            let map = cell::FrozenMap::new(alloc)?;
            timed_look_ups(rt, CellNumbers { map }, call, turns, count)
        }
        Kind::CellTree => {
            let map = cell::FrozenBTreeMap::new(alloc)?;
            timed_look_ups(rt, CellNumbers { map }, call, turns, count)
        }
        Kind::Items | Kind::Arena => timed_item_walks(rt, alloc, turns, count),
    }
}
