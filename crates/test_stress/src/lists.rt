//! The lists. The number of an entry is its index, and its key is an item that no other thread
//! pushes.
use crate::form::{Form, Heap, patiently};
use crate::script::{Entry, Put};
use elsa::sync::{FrozenVec, Handle, LockFreeFrozenVec, LockPermit, Pass};
use std::alloc::AllocError;
use std::mem::replace;
use std::sync::Wait;

/// The concurrent vector. With a permission, its pushes don't wait.
#[derive(Drop)]
pub struct FreeList<'h>(pub LockFreeFrozenVec<u64, Heap<'h>>, pub Option<LockPermit>);

impl<'h> Form for FreeList<'h> {
    type Pass = Pass<u64, Heap<'h>>;

    fn pass(&self) -> Self::Pass {
        self.0.pass()
    }

    /// A push that found the vector busy at each attempt returns an index without an item.
    fn insert<R: Wait>(&self, rt: &R, pass: &mut Self::Pass, _: u64, value: u64) -> Put {
        let mut handle = Handle::of(&self.0, replace(pass, self.pass()));
        let index = match self.1 {
            Some(may) => patiently(|| handle.try_push(may, value)).map(|it| it.unwrap_or(
                usize::MAX,
            )),
            None if value % 3 == 0 => handle.push(rt, value).map_err(AllocError::from),
            None if value % 3 == 1 => handle.extend(rt, &[value]),
            None => handle.push_with(rt, |_index| value),
        };
        *pass = handle.into_pass();
        Ok(((index? as u64, value, 0), true))
    }

    fn at<R: Wait>(&self, _: &R, pass: &mut Self::Pass, number: u64) -> Option<Entry> {
        Some((number, self.0.get_as(pass, number as usize)?, 0))
    }

    fn count<R: Wait>(&self, _: &R, pass: &mut Self::Pass, _: u64) -> u64 {
        self.0.len_as(pass) as u64
    }

    fn meet(&self, one: &mut Self::Pass, other: &mut Self::Pass) -> (usize, usize) {
        one.meet(other);
        (one.seen_len(), other.seen_len())
    }
}

/// The locked vector.
impl<'h> Form for FrozenVec<u64, Heap<'h>> {
    type Pass = ();

    fn pass(&self) {}

    fn insert<R: Wait>(&self, rt: &R, _: &mut (), _: u64, value: u64) -> Put {
        Ok(((self.push_get_index(rt, value)? as u64, value, 0), true))
    }

    fn at<R: Wait>(&self, rt: &R, _: &mut (), number: u64) -> Option<Entry> {
        Some((number, *self.get(rt, number as usize).ok()??, 0))
    }

    fn count<R: Wait>(&self, rt: &R, _: &mut (), _: u64) -> u64 {
        self.len(rt) as u64
    }
}
