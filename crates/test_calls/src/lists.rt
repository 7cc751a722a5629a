//! The calls of the list in `cell`, which is also the typed arena. Its items ascend.
use crate::counted::Counted;
use crate::replies::{done, failed, failed_made};
use elsa_arena::fault::{CellFault, InUse};
use elsa_arena::observed::{Observed, Seen};
use elsa_arena::vec::{FrozenVec, Hold};
use std::cell::Cell;
use test_model::call::{Call, Calls, Kind, Reply, Walk, inserted};
use test_model::script::Heap;

pub type List<'c, 'h> = FrozenVec<Counted<'c>, &'h Heap>;

type Guard<'m, 'c, 'h> = Hold<'m, Counted<'c>, &'h Heap>;

/// A list, what was observed of it, first when it was made, and evidence of that moment.
#[derive(Drop)]
pub struct ListCalls<'m, 'c, 'h> {
    pub list: &'m List<'c, 'h>,
    pub observed: Observed<'m, Counted<'c>, &'h Heap>,
    pub seen: Seen<Counted<'c>, &'h Heap>,
    pub alive: &'c Cell<u64>,
}

impl<'m, 'c, 'h> ListCalls<'m, 'c, 'h> {
    pub fn of(list: &'m List<'c, 'h>, alive: &'c Cell<u64>) -> ListCalls<'m, 'c, 'h> {
        ListCalls {
            list,
            observed: list.observed(),
            seen: list.observed().evidence(),
            alive,
        }
    }

    fn insertion(&mut self, kind: Kind, item: Counted<'c>) -> Reply {
        let list = self.list;
        match kind {
            Kind::Insert => match list.alloc(item) {
                Ok(kept) => inserted(Some(kept.number()), None, Some(true)),
                Err(fault) => failed(fault),
            },
            Kind::Push => pushed(list.push(item)),
            Kind::InsertAs => pushed(list.push_as(&mut self.observed, item)),
            Kind::InsertByGuard => match list.hold_as(&self.observed) {
                Ok(mut hold) => pushed(hold.push(item)),
                Err(InUse) => failed(CellFault::InUse(item)),
            },
            Kind::Extend => match list.extend([item]) {
                Ok(()) => inserted(None, None, None),
                Err(fault) => failed_made(fault, 0),
            },
            Kind::ExtendByGuard => match list.hold() {
                Ok(mut hold) => match hold.extend([item]) {
                    Ok(()) => inserted(None, None, None),
                    Err(fault) => failed(fault),
                },
                Err(InUse) => failed(CellFault::InUse(item)),
            },
            _ => Reply::NotOffered,
        }
    }

    fn search(&self, kind: Kind, value: u64) -> Reply {
        let list = self.list;
        match kind {
            Kind::BinarySearch => {
                Reply::Search(list.binary_search(&Counted::of(value, self.alive)))
            }
            Kind::BinarySearchBy => {
                Reply::Search(list.binary_search_by(|item| item.number().cmp(&value)))
            }
            Kind::BinarySearchByKey => {
                Reply::Search(list.binary_search_by_key(&value, |item| item.number()))
            }
            _ => Reply::Count(list.partition_point(|item| item.number() < value)),
        }
    }
}

fn pushed(done: Result<usize, CellFault<Counted<'_>>>) -> Reply {
    match done {
        Ok(index) => inserted(None, Some(index), Some(true)),
        Err(fault) => failed(fault),
    }
}

fn value(found: Option<&Counted<'_>>) -> Reply {
    Reply::Value(found.map(|item| item.number()))
}

/// Walks over what was observed, observes all, and then walks over the others.
fn news<'m, 'c, 'h>(
    list: &'m List<'c, 'h>,
    observed: &mut Observed<'m, Counted<'c>, &'h Heap>,
) -> Reply {
    let mut walk = Walk::new(true);
    let before = observed.len();
    for item in observed.iter() {
        walk.add_item(item.number());
    }
    list.observe(observed);
    for item in observed.iter_from(before) {
        walk.add_item(item.number());
    }
    walk.reply()
}

/// Walks over a list: at most one item more than it says to have.
pub fn iter(list: &List<'_, '_>) -> Reply {
    let mut walk = Walk::new(true);
    for item in list.iter().take(list.len() + 1) {
        walk.add_item(item.number());
    }
    walk.reply()
}

impl<'c> Calls for ListCalls<'_, 'c, '_> {
    fn key(&self, _drawn: u64, count: u64) -> u64 {
        count
    }

    fn stored(&self, key: u64, value: u64) -> u64 {
        key * 3 + value % 3
    }

    fn most(&self) -> usize {
        (1 << 62) - 1
    }

    fn has_guard(&self) -> bool {
        true
    }

    fn keeps_room(&self) -> bool {
        true
    }

    fn gives_back(&self, _kind: Kind) -> bool {
        true
    }

    fn alive(&self, count: u64) -> (u64, u64) {
        (self.alive.get(), count)
    }

    fn reply(&mut self, call: Call) -> Reply {
        let list = self.list;
        let guard: Option<Guard<'_, '_, '_>> = if call.is_held { list.hold().ok() } else { None };
        let index = call.key as usize;
        let reply = match call.kind {
            Kind::Get => value(list.get(index)),
            Kind::GetSince => value(list.since(&self.seen).get(index)),
            Kind::GetObserved => {
                list.observe(&mut self.observed);
                value(self.observed.get(index))
            }
            Kind::GetIndex => {
                let found = list.get(index);
                Reply::Full(found.map(|item| (index, index as u64, item.number())))
            }
            Kind::First => value(list.first()),
            Kind::Last => value(list.last()),
            Kind::Len => Reply::Count(list.len()),
            Kind::Observe => Reply::Count(list.observe(&mut self.observed)),
            Kind::LenByGuard => match &guard {
                Some(hold) => Reply::Count(hold.len()),
                None => list
                    .hold()
                    .map(|hold| Reply::Count(hold.len()))
                    .unwrap_or(Reply::Done),
            },
            Kind::IsEmpty => Reply::Flag(list.is_empty()),
            Kind::Iter => iter(list),
            Kind::News => news(list, &mut self.observed),
            Kind::Hold => Reply::Flag(list.hold().is_ok()),
            Kind::Reserve | Kind::ReserveAll => done(list.reserve(call.value as usize)),
            Kind::BinarySearch
            | Kind::BinarySearchBy
            | Kind::BinarySearchByKey
            | Kind::PartitionPoint => self.search(call.kind, call.value),
            kind => self.insertion(kind, Counted::of(call.value, self.alive)),
        };
        drop(guard);
        reply
    }
}
