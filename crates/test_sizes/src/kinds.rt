//! The collections, each with the calls of the script.
use crate::grows::{Grows, key_at};
use elsa::append_map::AppendMap;
use elsa::interner::Interner;
use elsa::{
    FrozenAppendMap, FrozenBTreeMap, FrozenBTreeSet, FrozenIndexMap, FrozenIndexSet, FrozenMap,
    FrozenVec, Own,
};
use std::alloc::{AllocError, Allocator};
use std::hash::{BuildHasherDefault, FoldHasher};

pub type Hasher = BuildHasherDefault<FoldHasher>;

pub type List<'a, A> = FrozenVec<'a, Own<u64>, A>;

pub type Map<'a, A> = FrozenMap<'a, u64, Own<u64>, Hasher, A>;

pub type TreeMap<'a, A> = FrozenBTreeMap<'a, u64, Own<u64>, A>;

pub type IndexMap<'a, A> = FrozenIndexMap<'a, u64, Own<u64>, Hasher, A>;

pub type LargeMap<'a, A> = FrozenAppendMap<'a, u64, Own<u64>, Hasher, A>;

pub type IndexSet<'a, A> = FrozenIndexSet<'a, Own<u64>, Hasher, A>;

pub type TextMap<'a, A> = FrozenAppendMap<'a, &'a str, Own<u64>, Hasher, A>;

impl<A: Allocator + Copy> Grows for List<'_, A> {
    fn next_key(&self, _drawn: u64) -> u64 {
        self.len() as u64
    }

    fn insert(&mut self, _key: u64, value: u64) -> Result<u64, AllocError> {
        Ok(*self.push_get(Own(value))?)
    }

    fn get(&self, key: u64) -> Option<u64> {
        self.get_copy(key as usize)
    }

    fn count(&self) -> usize {
        self.len()
    }
}

/// Writes the calls of maps. The last expression says whether a present key has an index.
macro_rules! maps {
    ($map:ident, $key:ident, $index:ident; $($type:ty: $has:expr;)+) => {
        $(impl<A: Allocator + Copy> Grows for $type {
            fn insert(&mut self, key: u64, value: u64) -> Result<u64, AllocError> {
                let (kept, _) = self.insert_new(key, Own(value))?;
                Ok(*kept)
            }

            fn get(&self, key: u64) -> Option<u64> {
                self.get(&key).copied()
            }

            fn count(&self) -> usize {
                self.len()
            }

            fn has_index(&self, $key: u64, $index: usize) -> bool {
                let $map = self;
                $has
            }

            fn fill(&mut self, count: u64, below: u64) -> Result<(), AllocError> {
                self.extend((0..count).map(|index| (key_at(index, below), Own(index))))
            }
        })+
    };
}

maps! { map, key, index;
    Map<'_, A>: map.contains_key(&key) && index < map.len();
    TreeMap<'_, A>: map.contains_key(&key) && index < map.len();
    IndexMap<'_, A>: map.get_index_of(&key) == Some(index);
    LargeMap<'_, A>: map.get_full(&key).is_some_and(|it| it.0 == index && it.1 == key);
}

/// An owned map has each entry once, with its index.
impl<A: Allocator + Copy> Grows for AppendMap<u64, u64, Hasher, A> {
    fn insert(&mut self, key: u64, value: u64) -> Result<u64, AllocError> {
        let make = || -> Result<(u64, u64), AllocError> { Ok((key, value)) };
        let before = self.entries().len();
        let done = self.insert_by(&key, make).map_err(|_| AllocError)?;
        let is_new = before < self.entries().len();
        match self.entries().get(done.index) {
            Some(entry) if entry.0 == key && done.is_new == is_new => Ok(done.value),
            _ => Ok(u64::MAX),
        }
    }

    fn get(&self, key: u64) -> Option<u64> {
        let (_, _, value) = self.get_full(&key)?;
        Some(*value)
    }

    fn count(&self) -> usize {
        self.entries().len()
    }

    fn has_index(&self, key: u64, index: usize) -> bool {
        let found = self.get_full(&key).map(|it| it.0);
        found == Some(index) && self.entries()[index].0 == key
    }
}

impl<A: Allocator + Copy> Grows for IndexSet<'_, A> {
    fn stored(&self, key: u64, _value: u64) -> u64 {
        key
    }

    fn insert(&mut self, key: u64, _value: u64) -> Result<u64, AllocError> {
        Ok(*self.insert_new(Own(key))?.0)
    }

    fn get(&self, key: u64) -> Option<u64> {
        self.get(&Own(key)).copied()
    }

    fn count(&self) -> usize {
        self.len()
    }

    fn has_index(&self, key: u64, index: usize) -> bool {
        self.get_index_of(&Own(key)) == Some(index) && self.get_index(index).copied() == Some(key)
    }

    fn fill(&mut self, count: u64, below: u64) -> Result<(), AllocError> {
        self.extend((0..count).map(|index| Own(key_at(index, below))))
    }
}

impl<A: Allocator + Copy> Grows for FrozenBTreeSet<'_, u64, A> {
    fn stored(&self, key: u64, _value: u64) -> u64 {
        key
    }

    fn insert(&mut self, key: u64, _value: u64) -> Result<u64, AllocError> {
        let _is_new = self.insert_new(key, ())?;
        Ok(key)
    }

    fn get(&self, key: u64) -> Option<u64> {
        let (kept, ()) = self.get_key_value(&key)?;
        Some(kept)
    }

    fn count(&self) -> usize {
        self.len()
    }
}

/// The name of a key: five letters.
#[derive(Clone, Copy)]
struct Letters([u8; 5]);

impl Letters {
    fn of(key: u64) -> Letters {
        Letters([1, 26, 676, 17_576, 456_976].map(|part| b'a' + (key / part % 26) as u8))
    }

    fn as_str(&self) -> &str {
        std::str::from_utf8(&self.0).unwrap_or("")
    }
}

impl<A: Allocator + Copy> Grows for Interner<'_, Hasher, A> {
    fn stored(&self, key: u64, _value: u64) -> u64 {
        key
    }

    fn insert(&mut self, key: u64, _value: u64) -> Result<u64, AllocError> {
        let name = Letters::of(key);
        let number = self.put(name.as_str())?;
        Ok(if self.at(number) == Some(name.as_str()) {
            key
        } else {
            u64::MAX
        })
    }

    fn get(&self, key: u64) -> Option<u64> {
        if self.contains(Letters::of(key).as_str()) {
            Some(key)
        } else {
            None
        }
    }

    fn count(&self) -> usize {
        self.len()
    }

    fn has_index(&self, key: u64, index: usize) -> bool {
        self.find(Letters::of(key).as_str()) == Some(index)
    }
}

/// A map whose keys are texts that end with the call which inserts them.
#[derive(Drop)]
pub struct Texts<M>(pub M);

impl<'a, A: Allocator + Copy> Grows for Texts<TextMap<'a, A>> {
    fn insert(&mut self, key: u64, value: u64) -> Result<u64, AllocError> {
        Ok(*self.0.insert_text(Letters::of(key).as_str(), Own(value))?)
    }

    fn get(&self, key: u64) -> Option<u64> {
        self.0.get(Letters::of(key).as_str()).copied()
    }

    fn count(&self) -> usize {
        self.0.len()
    }

    fn has_index(&self, key: u64, index: usize) -> bool {
        let name = Letters::of(key);
        let found = self.0.get_full(name.as_str());
        found.is_some_and(|it| it.0 == index && it.1 == name.as_str())
    }
}
