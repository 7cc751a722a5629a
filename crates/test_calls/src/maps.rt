//! The calls of the maps in `cell`, over any table.
use crate::counted::{Counted, Number};
use crate::replies::{done, failed, failed_empty, failed_made};
use elsa_arena::fault::{CellFault, Fault, InUse};
use elsa_cell::{Frozen, FrozenHold, Indices, ObservedEntries, Seeks, SeenEntries, TryFault};
use elsa_tables::Inserted;
use std::cell::Cell;
use test_model::call::{Call, Calls, Cause, Kind, Reply, Walk, inserted, made};
use test_model::script::Heap;

type Map<'c, 'h, T> = Frozen<Counted<'c>, Counted<'c>, T, &'h Heap>;

type Entries<'m, 'c, 'h> = ObservedEntries<'m, Counted<'c>, Counted<'c>, &'h Heap>;

type Guard<'m, 'c, 'h, T> = FrozenHold<'m, Counted<'c>, Counted<'c>, T, &'h Heap>;

/// A map, what was observed of it, first when it was made, evidence of that moment, and what was
/// observed at a later one.
#[derive(Drop)]
pub struct MapCalls<'m, 'c, 'h, T: Indices<Counted<'c>> + Drop> {
    map: &'m Map<'c, 'h, T>,
    observed: Entries<'m, 'c, 'h>,
    seen: SeenEntries<Counted<'c>, Counted<'c>, &'h Heap>,
    then: Entries<'m, 'c, 'h>,
    keeps_room: bool,
    alive: &'c Cell<u64>,
}

/// The reply of an insertion that called its closure `calls` times.
fn all_of(done: Inserted<&Counted<'_>, usize>, calls: u64) -> Reply {
    made(
        Some(done.value.number()),
        Some(done.index),
        Some(done.is_new),
        calls,
    )
}

/// The reply of a read of an entry with its index.
fn full(found: Option<(usize, &Counted<'_>, &Counted<'_>)>) -> Reply {
    Reply::Full(found.map(|entry| (entry.0, entry.1.number(), entry.2.number())))
}

/// The reply of a read at an index.
fn full_at(index: usize, found: Option<(&Counted<'_>, &Counted<'_>)>) -> Reply {
    Reply::Full(found.map(|entry| (index, entry.0.number(), entry.1.number())))
}

fn value(found: Option<&Counted<'_>>) -> Reply {
    Reply::Value(found.map(|item| item.number()))
}

impl<'m, 'c, 'h, T: Indices<Counted<'c>> + Drop> MapCalls<'m, 'c, 'h, T>
where
    Number: Seeks<Counted<'c>, T>,
{
    pub fn of(
        map: &'m Map<'c, 'h, T>,
        alive: &'c Cell<u64>,
        keeps_room: bool,
    ) -> MapCalls<'m, 'c, 'h, T> {
        MapCalls {
            map,
            observed: map.observed(),
            seen: map.observed().evidence(),
            then: map.observed(),
            keeps_room,
            alive,
        }
    }

    fn counted(&self, number: u64) -> Counted<'c> {
        Counted::of(number, self.alive)
    }

    /// Makes an insertion whose value is given.
    fn insertion(&mut self, call: Call) -> Option<Reply> {
        let map = self.map;
        let (key, value) = (self.counted(call.key), self.counted(call.value));
        Some(match call.kind {
            Kind::Insert => match map.insert(key, value) {
                Ok(kept) => inserted(Some(kept.number()), None, None),
                Err(fault) => failed(fault),
            },
            Kind::InsertNew => match map.insert_new(key, value) {
                Ok(done) => all_of(done, 0),
                Err(fault) => failed(fault),
            },
            Kind::InsertAs => match map.insert_new_as(&mut self.observed, key, value) {
                Ok(done) => all_of(done, 0),
                Err(fault) => failed(fault),
            },
            Kind::InsertByGuard => match map.hold_as(&self.observed) {
                Ok(mut hold) => match hold.insert_new(key, value) {
                    Ok(done) => all_of(done, 0),
                    Err(fault) => failed(fault),
                },
                Err(InUse) => failed(CellFault::InUse(value)),
            },
            Kind::Extend => {
                let again = (self.counted(call.key), self.counted(call.value + 1));
                match map.extend([(key, value), again]) {
                    Ok(()) => inserted(None, None, None),
                    Err(fault) => failed_made(fault, 0),
                }
            }
            Kind::ExtendByGuard => match map.hold() {
                Ok(mut hold) => {
                    let again = (self.counted(call.key), self.counted(call.value + 1));
                    match hold.extend([(key, value), again]) {
                        Ok(()) => inserted(None, None, None),
                        Err(fault) => failed(fault),
                    }
                }
                Err(InUse) => failed(CellFault::InUse(value)),
            },
            _ => return None,
        })
    }

    /// Makes an insertion whose closure makes the value, or the entry: for odd values by the call
    /// that takes what was observed.
    fn insertion_with(&mut self, call: Call) -> Reply {
        let (map, query, alive) = (self.map, Number { number: call.key }, self.alive);
        let (key, is_plain, mut calls) = (self.counted(call.key), call.value % 2 == 0, 0);
        match call.kind {
            Kind::InsertWith => {
                let make = || {
                    calls += 1;
                    Counted::of(call.value, alive)
                };
                let done = if is_plain {
                    map.insert_with(key, make)
                } else {
                    map.insert_with_as(&mut self.observed, key, make)
                };
                match done {
                    Ok(done) => all_of(done, calls),
                    Err(fault) => failed_made(fault, calls),
                }
            }
            Kind::TryInsertWith | Kind::InsertFails => {
                let make = || -> Result<Counted<'_>, u64> {
                    calls += 1;
                    if call.kind == Kind::InsertFails {
                        return Err(call.value);
                    }
                    Ok(Counted::of(call.value, alive))
                };
                let done = if is_plain {
                    map.try_insert_with(key, make)
                } else {
                    map.try_insert_with_as(&mut self.observed, key, make)
                };
                match done {
                    Ok(done) => all_of(done, calls),
                    Err(TryFault::Map(fault)) => failed_made(fault, calls),
                    Err(TryFault::Value(error)) if error == call.value => {
                        Reply::Failed(Cause::Closure, None, calls)
                    }
                    Err(TryFault::Value(error)) => Reply::Value(Some(error)),
                }
            }
            Kind::InsertBy | Kind::GetOrTryInsert => {
                let make = || -> Result<(Counted<'_>, Counted<'_>), Fault> {
                    calls += 1;
                    Ok((Counted::of(call.key, alive), Counted::of(call.value, alive)))
                };
                if call.kind == Kind::InsertBy {
                    let done = if is_plain {
                        map.insert_by(query, make)
                    } else {
                        map.insert_by_as(&mut self.observed, query, make)
                    };
                    match done {
                        Ok(done) => all_of(done, calls),
                        Err(fault) => failed_empty(fault, calls),
                    }
                } else {
                    match map.get_or_try_insert(query, make) {
                        Ok(kept) => made(Some(kept.number()), None, None, calls),
                        Err(fault) => failed_empty(fault, calls),
                    }
                }
            }
            _ => Reply::NotOffered,
        }
    }

    /// Makes a read by a guard, by the one that exists or by a new one.
    fn by_guard(&self, guard: &Option<Guard<'m, 'c, 'h, T>>, call: Call) -> Reply {
        let own = if guard.is_none() {
            self.map.hold().ok()
        } else {
            None
        };
        let Some(hold) = guard.as_ref().or(own.as_ref()) else {
            return Reply::Done;
        };
        if call.kind == Kind::LenByGuard {
            return Reply::Count(hold.len());
        }
        full(hold.get_full(Number { number: call.key }))
    }

    /// Keeps what is observed of all entries, and returns their number.
    fn keep(&mut self) -> Reply {
        let observed = self.map.observed();
        self.then = observed.again();
        Reply::Count(observed.len())
    }
}

/// Walks over a map: at most one entry more than it says to have.
fn iter<'c, T: Indices<Counted<'c>> + Drop>(map: &Map<'c, '_, T>) -> Reply {
    let mut walk = Walk::new(true);
    for entry in map.iter().take(map.len() + 1) {
        walk.add(entry.key().number(), entry.value().number());
    }
    walk.reply()
}

impl<'m, 'c, 'h, T: Indices<Counted<'c>> + Drop> Calls for MapCalls<'m, 'c, 'h, T>
where
    Number: Seeks<Counted<'c>, T>,
{
    fn has_guard(&self) -> bool {
        true
    }

    fn keeps_room(&self) -> bool {
        self.keeps_room
    }

    fn gives_back(&self, kind: Kind) -> bool {
        !kind.reads_first()
    }

    fn alive(&self, count: u64) -> (u64, u64) {
        (self.alive.get(), 2 * count)
    }

    fn reply(&mut self, call: Call) -> Reply {
        let (map, query, index) = (self.map, Number { number: call.key }, call.key as usize);
        let guard = if call.is_held { map.hold().ok() } else { None };
        let reply = match call.kind {
            Kind::Get => value(map.get(query)),
            Kind::GetFull => full(map.get_full(query)),
            Kind::GetSince => value(map.get_as(&map.since(&self.seen), query)),
            Kind::GetObserved => {
                map.observe(&mut self.observed);
                value(map.get_as(&self.observed, query))
            }
            Kind::GetFullObserved => {
                map.observe(&mut self.observed);
                full(map.get_full_as(&self.observed, query))
            }
            Kind::GetFullByGuard | Kind::LenByGuard => self.by_guard(&guard, call),
            Kind::ContainsKey => Reply::Flag(map.contains_key(query)),
            Kind::MapGet => Reply::Value(map.map_get(query, |found| found.number())),
            Kind::Keep => self.keep(),
            Kind::SeenGet => value(map.get_as(&self.then, query)),
            Kind::SeenGetFull => full(map.get_full_as(&self.then, query)),
            Kind::SeenLen => Reply::Count(self.then.len()),
            Kind::GetIndex => full_at(index, map.get_index(index)),
            Kind::GetIndexObserved => {
                map.observe(&mut self.observed);
                let found = self.observed.get(index);
                full_at(index, found.map(|entry| (entry.key(), entry.value())))
            }
            Kind::Len => Reply::Count(map.len()),
            Kind::Observe => Reply::Count(map.observe(&mut self.observed)),
            Kind::IsEmpty => Reply::Flag(map.is_empty()),
            Kind::IsFull => Reply::Flag(map.is_full()),
            Kind::Iter => iter(map),
            Kind::Hold => Reply::Flag(map.hold().is_ok()),
            Kind::Reserve | Kind::ReserveAll => done(map.reserve(call.value as usize)),
            _ => match self.insertion(call) {
                Some(reply) => reply,
                None => self.insertion_with(call),
            },
        };
        drop(guard);
        reply
    }
}
