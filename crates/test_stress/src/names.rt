//! The shared interner, and the interner of shards. The number of an entry is that of a name, and
//! the name is the digits of the entry's key.
use crate::form::{Form, Heap, State, opened};
use crate::script::{Entry, Put};
use elsa::interner::{
    Name, NameHandle, NamePass, ShardedInterner, ShardedNameHandle, SharedInterner,
};
use itoa::Buffer;
use std::alloc::AllocError;
use std::mem::replace;
use std::sync::Wait;

/// Returns the name of a number.
fn named(number: u64) -> Result<Name, AllocError> {
    let mut digits = Buffer::new();
    Name::new(digits.format(number)).map_err(|_| AllocError)
}

/// Returns the number of names at the numbers from `first` on in these steps, or `None` if one of
/// them doesn't have the number at which it is found.
fn counted(first: u64, step: usize, mut at: impl FnMut(u64) -> Option<Entry>) -> Option<u64> {
    for (count, number) in (first..u64::MAX).step_by(step).enumerate() {
        match at(number) {
            Some(entry) if entry.0 != number => return None,
            Some(_) => {}
            None => return Some(count as u64),
        }
    }
    None
}

impl Form for SharedInterner {
    type Pass = NamePass;

    fn pass(&self) -> NamePass {
        self.pass()
    }

    fn insert<R: Wait>(&self, rt: &R, pass: &mut NamePass, key: u64, _: u64) -> Put {
        let number = self.put(rt, pass, named(key)?)?;
        Ok(((number as u64, key, 0), false))
    }

    /// The entry has the number at which the name is put again, if the observed names alone have it
    /// there.
    fn at<R: Wait>(&self, rt: &R, pass: &mut NamePass, number: u64) -> Option<Entry> {
        let name = self.at(pass, number as usize)?;
        let key = name.as_str().parse::<u64>().ok()?;
        let handle = NameHandle::of(self, replace(pass, self.pass()));
        let seen = handle.seen_find(&name);
        *pass = handle.into_pass();
        let again = self.put(rt, pass, name).ok()?;
        let number = seen
            .filter(|it| *it == again)
            .map_or(u64::MAX, |it| it as u64);
        Some((number, key, 0))
    }

    fn count<R: Wait>(&self, rt: &R, pass: &mut NamePass, new: u64) -> u64 {
        match counted(0, 1, |number| Form::at(self, rt, pass, number)) {
            Some(_) => new,
            None => u64::MAX,
        }
    }

    fn meet(&self, one: &mut NamePass, other: &mut NamePass) -> (usize, usize) {
        one.meet(other);
        (one.seen_len(), other.seen_len())
    }
}

type Handle<'i, 'h> = ShardedNameHandle<'i, Name, State, Heap<'h>>;

/// Returns the entry of the name with this number, with the number at which it is put again.
fn found<R: Wait>(rt: &R, handle: &mut Handle<'_, '_>, number: u64) -> Option<Entry> {
    let name = handle.at(number as usize)?;
    let key = name.as_str().parse::<u64>().ok()?;
    Some((handle.put(rt, name).ok()? as u64, key, 0))
}

/// Each call makes a handle of its own, which has observed nothing.
impl<'h> Form for ShardedInterner<Name, State, Heap<'h>> {
    type Pass = ();

    fn pass(&self) {}

    fn insert<R: Wait>(&self, rt: &R, _: &mut (), key: u64, _: u64) -> Put {
        let mut handle = opened(|| self.handle())?;
        Ok(((handle.put(rt, named(key)?)? as u64, key, 0), false))
    }

    fn at<R: Wait>(&self, rt: &R, _: &mut (), number: u64) -> Option<Entry> {
        found(rt, &mut opened(|| self.handle()).ok()?, number)
    }

    fn count<R: Wait>(&self, rt: &R, _: &mut (), new: u64) -> u64 {
        let Ok(mut handle) = opened(|| self.handle()) else {
            return u64::MAX;
        };
        let (all, shards, mut sum) = (handle.len() as u64, handle.shards().len(), 0);
        for shard in 0..shards as u64 {
            match counted(shard, shards, |number| found(rt, &mut handle, number)) {
                Some(names) => sum += names,
                None => return u64::MAX,
            }
        }
        if sum == all { new } else { u64::MAX }
    }
}
