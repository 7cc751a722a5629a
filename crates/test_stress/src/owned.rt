//! The lock-free vector and map with items that own memory. Each item has a text over the budget,
//! and an owner of one number that counts the items. At the end, all items are moved out.
use crate::form::{Form, Heap, State};
use crate::script::{Entry, Moved, Put, Wrong, holds};
use elsa::sync::{Handle, LockFreeFrozenMap, LockFreeFrozenVec, MapHandle, MapPass, Pass};
use itoa::Buffer;
use std::alloc::{AllocError, Global};
use std::mem::replace;
use std::sync::{Arc, Wait};

/// A text over the budget: the digits of a number.
type Text<'h> = String<Heap<'h>>;

/// Returns the number with these digits, or `u64::MAX`.
fn number_of(text: &Text<'_>) -> u64 {
    text.as_str().parse::<u64>().unwrap_or(u64::MAX)
}

/// An item that owns memory: a text, and an owner that counts the items.
#[derive(Drop)]
pub struct Owner<'h> {
    text: Text<'h>,
    _count: Arc<u64, Global>,
}

impl Owner<'_> {
    fn number(&self) -> u64 {
        number_of(&self.text)
    }
}

/// Returns what these keys and values are, of which the number has one owner.
fn sum(entries: impl Iterator<Item = (u64, u64)>) -> Moved {
    let (mut count, mut sum, owners) = (0, 0u64, [1, 1, 1]);
    for (key, value) in entries {
        count += 1;
        for word in [key, value] {
            sum = sum.wrapping_mul(0x9e37_79b9_7f4a_7c15).wrapping_add(word);
        }
    }
    Moved { count, sum, owners }
}

/// A collection, with what its items are made of.
#[derive(Drop)]
pub struct Owned<'h, C> {
    all: C,
    heap: Heap<'h>,
    count: Arc<u64, Global>,
}

impl<'h, C: Drop> Owned<'h, C> {
    pub fn new(all: C, alloc: Global, heap: Heap<'h>) -> Result<Owned<'h, C>, AllocError> {
        let count = Arc::new(alloc, 0)?;
        Ok(Owned { all, heap, count })
    }

    fn item(&self, number: u64) -> Result<Owner<'h>, AllocError> {
        let text = format!(in self.heap; "{number}")?;
        Ok(Owner {
            text,
            _count: self.count.clone()?,
        })
    }

    /// Moves all items out, after one failure to do so, which an empty collection may not have.
    /// Fails if they aren't the collection's items, each with one owner and dropped once.
    fn moves_out<I: Drop>(
        self,
        entries: impl Fn(&C) -> Moved,
        moves: impl Fn(C) -> Result<I, C>,
        of_items: impl Fn(&I) -> Moved,
    ) -> Result<(), Wrong> {
        let Self { all, heap, count } = self;
        let (had, before) = (entries(&all), Arc::strong_count(&count));
        heap.refuse_next(1);
        let refused = moves(all);
        heap.refuse_next(0);
        let items = match refused {
            Ok(items) if had.count == 0 => items,
            Ok(items) => return Err(Wrong::MovedOut(of_items(&items), had)),
            Err(all) => moves(all).map_err(|_| Wrong::Stopped)?,
        };
        let (mut got, out) = (of_items(&items), Arc::strong_count(&count));
        drop(items);
        got.owners = [before, out, Arc::strong_count(&count)];
        let owners = [had.count + 1, had.count + 1, 1];
        let wanted = Moved { owners, ..had };
        holds(got == wanted, Wrong::MovedOut(got, wanted))
    }
}

type Items<'h> = LockFreeFrozenVec<Owner<'h>, Heap<'h>>;

impl<'h> Form for Owned<'h, Items<'h>> {
    type Pass = Pass<Owner<'h>, Heap<'h>>;

    fn pass(&self) -> Self::Pass {
        self.all.pass()
    }

    fn insert<R: Wait>(&self, rt: &R, pass: &mut Self::Pass, _: u64, value: u64) -> Put {
        let item = self.item(value)?;
        let mut handle = Handle::of(&self.all, replace(pass, self.pass()));
        let index = handle.push(rt, item).map_err(AllocError::from);
        *pass = handle.into_pass();
        Ok(((index? as u64, value, 0), true))
    }

    fn at<R: Wait>(&self, _: &R, pass: &mut Self::Pass, number: u64) -> Option<Entry> {
        let mut handle = Handle::of(&self.all, replace(pass, self.pass()));
        let found = handle.get_ref(number as usize);
        *pass = handle.into_pass();
        Some((number, found?.number(), 0))
    }

    fn count<R: Wait>(&self, _: &R, pass: &mut Self::Pass, _: u64) -> u64 {
        self.all.len_as(pass) as u64
    }

    fn meet(&self, one: &mut Self::Pass, other: &mut Self::Pass) -> (usize, usize) {
        one.meet(other);
        (one.seen_len(), other.seen_len())
    }

    fn ends(self) -> Result<(), Wrong> {
        self.moves_out(
            |all| sum(all.handle().news().refs().map(|it| (0, it.number()))),
            |all| all.into_vec().map_err(|failed| failed.value),
            |items| sum(items.iter().map(|it| (0, it.number()))),
        )
    }
}

/// A map whose keys and values own memory.
type Entries<'h> = LockFreeFrozenMap<Text<'h>, Owner<'h>, State, Heap<'h>>;

impl<'h> Form for Owned<'h, Entries<'h>> {
    type Pass = MapPass<Text<'h>, Owner<'h>, State, Heap<'h>>;

    fn pass(&self) -> Self::Pass {
        self.all.pass()
    }

    fn insert<R: Wait>(&self, rt: &R, pass: &mut Self::Pass, key: u64, value: u64) -> Put {
        let (text, item) = (format!(in self.heap; "{key}")?, self.item(value)?);
        let mut map = MapHandle::of(&self.all, replace(pass, self.pass()));
        let done = map.insert_ref(rt, text, item);
        *pass = map.into_pass();
        let stands = done?;
        Ok(((key, key, stands.value.number()), stands.is_new))
    }

    fn at<R: Wait>(&self, _: &R, pass: &mut Self::Pass, number: u64) -> Option<Entry> {
        let mut digits = Buffer::new();
        let mut map = MapHandle::of(&self.all, replace(pass, self.pass()));
        let found = map.get_ref(digits.format(number));
        *pass = map.into_pass();
        Some((number, number, found?.number()))
    }

    fn count<R: Wait>(&self, _: &R, pass: &mut Self::Pass, _: u64) -> u64 {
        let mut map = MapHandle::of(&self.all, replace(pass, self.pass()));
        let length = map.len();
        *pass = map.into_pass();
        length as u64
    }

    fn meet(&self, one: &mut Self::Pass, other: &mut Self::Pass) -> (usize, usize) {
        one.meet(other);
        (one.seen_len(), other.seen_len())
    }

    fn ends(self) -> Result<(), Wrong> {
        let pair = |key: &Text<'_>, value: &Owner<'_>| (number_of(key), value.number());
        self.moves_out(
            |all| {
                let mut map = all.handle();
                map.len();
                sum(map.iter().refs().map(|(key, value)| pair(key, value)))
            },
            |all| all.into_tuple_vec().map_err(|failed| failed.value),
            |items| sum(items.iter().map(|it| pair(&it.0, &it.1))),
        )
    }
}
