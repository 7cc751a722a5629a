//! The calls of the set in `cell`. The value of an item is the item.
use crate::counted::{Counted, Number};
use crate::replies::{done, failed, failed_made};
use elsa_cell::{FrozenSet, ObservedEntries};
use std::cell::Cell;
use std::hash::{BuildHasherDefault, FoldHasher};
use test_model::call::{Call, Calls, Kind, Reply, Walk, inserted};
use test_model::script::Heap;

type State = BuildHasherDefault<FoldHasher>;

pub type Set<'c, 'h> = FrozenSet<Counted<'c>, State, &'h Heap>;

type Entries<'s, 'c, 'h> = ObservedEntries<'s, Counted<'c>, (), &'h Heap>;

/// A set, what was observed of it, first when it was made, and what was observed at a moment.
#[derive(Drop)]
pub struct SetCalls<'s, 'c, 'h> {
    set: &'s Set<'c, 'h>,
    observed: Entries<'s, 'c, 'h>,
    then: Entries<'s, 'c, 'h>,
    alive: &'c Cell<u64>,
}

impl<'s, 'c, 'h> SetCalls<'s, 'c, 'h> {
    pub fn of(set: &'s Set<'c, 'h>, alive: &'c Cell<u64>) -> SetCalls<'s, 'c, 'h> {
        SetCalls {
            set,
            observed: set.observed(),
            then: set.observed(),
            alive,
        }
    }
}

/// The reply of a read of an item with its index.
fn full(found: Option<(usize, &Counted<'_>)>) -> Reply {
    Reply::Full(found.map(|entry| (entry.0, entry.1.number(), entry.1.number())))
}

/// The same of an entry.
fn full_entry(found: Option<(usize, &Counted<'_>, &())>) -> Reply {
    full(found.map(|entry| (entry.0, entry.1)))
}

/// Walks over a set: at most one item more than it says to have.
fn iter(set: &Set<'_, '_>) -> Reply {
    let mut walk = Walk::new(true);
    for entry in set.iter().take(set.len() + 1) {
        walk.add(entry.key().number(), entry.key().number());
    }
    walk.reply()
}

impl<'c> Calls for SetCalls<'_, 'c, '_> {
    fn stored(&self, key: u64, _value: u64) -> u64 {
        key
    }

    fn has_guard(&self) -> bool {
        true
    }

    fn keeps_room(&self) -> bool {
        true
    }

    fn gives_back(&self, _kind: Kind) -> bool {
        true
    }

    fn alive(&self, count: u64) -> (u64, u64) {
        (self.alive.get(), count)
    }

    fn reply(&mut self, call: Call) -> Reply {
        let (set, query, index) = (self.set, Number { number: call.key }, call.key as usize);
        let item = || Counted::of(call.key, self.alive);
        let guard = if call.is_held { set.hold().ok() } else { None };
        let reply = match call.kind {
            Kind::Insert => match set.insert(item()) {
                Ok(kept) => inserted(Some(kept.number()), None, None),
                Err(fault) => failed(fault),
            },
            Kind::InsertFull => match set.insert_full(item()) {
                Ok((index, kept)) => inserted(Some(kept.number()), Some(index), None),
                Err(fault) => failed(fault),
            },
            Kind::InsertNew => match set.insert_new(item()) {
                Ok(done) => {
                    inserted(
                        Some(done.value.number()),
                        Some(done.index),
                        Some(done.is_new),
                    )
                }
                Err(fault) => failed(fault),
            },
            Kind::Extend => match set.extend([item(), item()]) {
                Ok(()) => inserted(None, None, None),
                Err(fault) => failed_made(fault, 0),
            },
            Kind::Get => Reply::Value(set.get(query).map(|kept| kept.number())),
            Kind::GetFull => full(set.get_full(query)),
            Kind::GetFullObserved => {
                set.observe(&mut self.observed);
                full_entry(set.get_full_as(&self.observed, query))
            }
            Kind::SeenGetFull => full_entry(set.get_full_as(&self.then, query)),
            Kind::ContainsKey => Reply::Flag(set.contains(query)),
            Kind::GetIndex => full(set.get_index(index).map(|kept| (index, kept))),
            Kind::Len => Reply::Count(set.len()),
            Kind::Observe => Reply::Count(set.observe(&mut self.observed)),
            Kind::Keep => {
                let observed = set.observed();
                self.then = observed.again();
                Reply::Count(observed.len())
            }
            Kind::IsEmpty => Reply::Flag(set.is_empty()),
            Kind::IsFull => Reply::Flag(set.is_full()),
            Kind::Iter => iter(set),
            Kind::Hold => Reply::Flag(set.hold().is_ok()),
            Kind::Reserve | Kind::ReserveAll => done(set.reserve(call.value as usize)),
            _ => Reply::NotOffered,
        };
        drop(guard);
        reply
    }
}
