//! The maps. The number of an entry is its index in the concurrent map, and its key in the others.
use crate::form::{Form, Heap, State, opened, patiently};
use crate::script::{Entry, Put};
use elsa::sync::{
    FrozenBTreeMap, FrozenMap, LockFreeFrozenMap, LockFreeShardedMap, LockPermit, MapHandle,
    MapPass, OnceMap, ShardedMap,
};
use std::alloc::AllocError;
use std::mem::replace;
use std::sync::Wait;

/// The concurrent map. With a permission, its insertions don't wait.
#[derive(Drop)]
pub struct FreeMap<'h>(
    pub LockFreeFrozenMap<u64, u64, State, Heap<'h>>,
    pub Option<LockPermit>,
);

type FreeHandle<'m, 'h> = MapHandle<'m, u64, u64, State, Heap<'h>>;

impl<'h> FreeMap<'h> {
    /// Inserts a key by one of three calls. It returns no entry of the map if each attempt found
    /// the map busy.
    fn put<R: Wait>(&self, rt: &R, map: &mut FreeHandle<'_, 'h>, key: u64, value: u64) -> Put {
        if let Some(may) = self.1 {
            let Some(stands) = patiently(|| map.try_insert(may, key, value))? else {
                return Ok(((u64::MAX, key, value), true));
            };
            return Ok(((stands.index as u64, key, stands.value), stands.is_new));
        }
        let pair = move || -> Result<(u64, u64), AllocError> { Ok((key, value)) };
        let stands = match value % 2 {
            0 => map.get_or_insert_with(rt, key, move || value)?,
            _ => map.insert_by(rt, &key, pair)?,
        };
        Ok(((stands.index as u64, key, *stands.value), stands.is_new))
    }

    /// Returns the entry with this number: by its index, then by its key, by its key among the
    /// observed entries alone, and, where insertions wait, by an insertion of another value. It is
    /// no entry of the map if the last two differ.
    fn found<R: Wait>(&self, rt: &R, map: &mut FreeHandle<'_, 'h>, number: u64) -> Option<Entry> {
        let (key, value) = map.get_index(number as usize)?;
        let Some(kept) = map.get(key) else {
            return Some((number, key, u64::MAX));
        };
        let seen = map.seen_get_full(&key) == Some((number as usize, &key, &value));
        if !seen || map.seen_get(&key) != Some(&value) {
            return Some((u64::MAX, key, value));
        }
        if self.1.is_some() || kept != value {
            return Some((number, key, kept));
        }
        match map.insert(rt, key, value.wrapping_add(1)) {
            Ok(stands) if !stands.is_new => Some((stands.index as u64, key, stands.value)),
            _ => Some((u64::MAX, key, value)),
        }
    }
}

impl<'h> Form for FreeMap<'h> {
    type Pass = MapPass<u64, u64, State, Heap<'h>>;

    fn pass(&self) -> Self::Pass {
        self.0.pass()
    }

    fn insert<R: Wait>(&self, rt: &R, pass: &mut Self::Pass, key: u64, value: u64) -> Put {
        let mut map = MapHandle::of(&self.0, replace(pass, self.pass()));
        let done = self.put(rt, &mut map, key, value);
        *pass = map.into_pass();
        done
    }

    fn at<R: Wait>(&self, rt: &R, pass: &mut Self::Pass, number: u64) -> Option<Entry> {
        let mut map = MapHandle::of(&self.0, replace(pass, self.pass()));
        let found = self.found(rt, &mut map, number);
        *pass = map.into_pass();
        found
    }

    fn count<R: Wait>(&self, _: &R, pass: &mut Self::Pass, _: u64) -> u64 {
        let mut map = MapHandle::of(&self.0, replace(pass, self.pass()));
        let length = map.len();
        *pass = map.into_pass();
        length as u64
    }

    fn meet(&self, one: &mut Self::Pass, other: &mut Self::Pass) -> (usize, usize) {
        one.meet(other);
        (one.seen_len(), other.seen_len())
    }
}

/// Writes the calls of maps without views by the calls of these types.
macro_rules! by_key {
    ($map:ident, $rt:ident, $key:ident, $value:ident;
        $($($type:ty)|+: $insert:expr, $get:expr, $len:expr;)+) => {
        $($(impl<'h> Form for $type {
            type Pass = ();

            fn pass(&self) {}

            fn insert<R: Wait>(&self, $rt: &R, _: &mut (), $key: u64, $value: u64) -> Put {
                let $map = self;
                let (kept, is_new): (u64, bool) = $insert;
                Ok((($key, $key, kept), is_new))
            }

            fn at<R: Wait>(&self, $rt: &R, _: &mut (), $key: u64) -> Option<Entry> {
                let $map = self;
                let kept: Option<u64> = $get;
                Some(($key, $key, kept?))
            }

            fn count<R: Wait>(&self, $rt: &R, _: &mut (), _: u64) -> u64 {
                let $map = self;
                let count: usize = $len;
                count as u64
            }
        })+)+
    };
}

// Each call of the last two makes a handle of its own, which has observed nothing.
by_key! { map, rt, key, value;
    FrozenMap<u64, u64, State, Heap<'h>>
        | FrozenBTreeMap<u64, u64, Heap<'h>>
        | ShardedMap<u64, u64, State, Heap<'h>>:
        map.insert_new(rt, key, value).map(|it| (*it.0, it.1))?,
        map.get_copy(rt, &key),
        map.len(rt);
    OnceMap<u64, u64, State, Heap<'h>>:
        map.handle().get_or_init(rt, key, move || value).map(|it| (*it.value, it.is_new))?,
        map.handle().get_made(&key).map(|it| *it.value),
        map.handle().len();
    LockFreeShardedMap<u64, u64, State, Heap<'h>>:
        opened(|| map.handle())?.insert_ref(rt, key, value).map(|it| (*it.value, it.is_new))?,
        opened(|| map.handle()).ok()?.get_ref(&key).copied(),
        opened(|| map.handle()).map_or(usize::MAX, |mut it| it.len());
}
