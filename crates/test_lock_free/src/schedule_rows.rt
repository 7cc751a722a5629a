//! Rows of schedules, with the worlds that they leave, which are hand-written.
pub use crate::schedule_rows::AnswerRow::{CloneRefused, Cloned, Extended, Pushed, Read, Refused};
pub use crate::schedule_rows::EventRow::{Append, Extend, Look};
pub use crate::schedule_rows::PlanRow::{Cloner, Extender, Pusher, Reader};
use elsa_machine::machine::{Answer, Event, Items, Plan, Turn, World, run};
use std::alloc::{AllocError, Allocator, Global};
use std::process::Abort;

/// The plan of a thread.
#[derive(Clone, Copy)]
pub enum PlanRow<'a> {
    Pusher(&'a [u64]),
    Extender(&'a [u64]),
    Reader(&'a [usize]),
    Cloner,
}

/// The effect of an atomic step: the thread, then the item, the items or the length.
#[derive(Clone, Copy)]
pub enum EventRow<'a> {
    Append(usize, u64),
    Extend(usize, &'a [u64]),
    Look(usize, usize),
}

/// A result of a thread's call: the thread, then its index or items.
#[derive(Clone, Copy)]
pub enum AnswerRow<'a> {
    Pushed(usize, usize),
    Extended(usize, usize, usize),
    Refused(usize),
    Read(usize, usize, Option<u64>),
    Cloned(usize, &'a [u64]),
    CloneRefused(usize),
}

/// A schedule and the world that it leaves. A turn is the number of a thread. In the turn at
/// `refused`, an allocation fails.
#[derive(Clone, Copy)]
pub struct Row<'a> {
    pub name: &'a str,
    pub plans: &'a [PlanRow<'a>],
    pub turns: &'a [usize],
    pub refused: usize,
    pub opened: usize,
    pub items: &'a [u64],
    pub events: &'a [EventRow<'a>],
    pub answers: &'a [AnswerRow<'a>],
}

/// Makes the plans of these rows.
///
/// # Errors
/// Fails if an allocation fails.
pub fn plans_of(alloc: Global, rows: &[PlanRow]) -> Result<Vec<Plan>, AllocError> {
    let mut plans = Vec::new(alloc);
    for row in rows {
        plans.push(match *row {
            PlanRow::Pusher(items) => Plan::Pusher(Items::from_vec(Vec::from_slice(alloc, items)?)),
            PlanRow::Extender(items) => {
                Plan::Extender(Items::from_vec(Vec::from_slice(alloc, items)?))
            }
            PlanRow::Reader(indexes) => Plan::Reader(Items::from_vec(Vec::from_slice(
                alloc, indexes,
            )?)),
            PlanRow::Cloner => Plan::Cloner,
        })?;
    }
    Ok(plans)
}

/// Makes a turn of each of these threads. In the turn at `refused`, an allocation fails.
///
/// # Errors
/// Fails if an allocation fails.
pub fn schedule_of(
    alloc: Global,
    threads: &[usize],
    refused: usize,
) -> Result<Vec<Turn>, AllocError> {
    let mut schedule = Vec::new(alloc);
    for (i, thread) in threads.iter().enumerate() {
        schedule.push(Turn {
            thread: *thread,
            memory: i != refused,
        })?;
    }
    Ok(schedule)
}

fn answers_of(alloc: Global, rows: &[AnswerRow]) -> Result<Vec<Answer>, AllocError> {
    let mut answers = Vec::new(alloc);
    for row in rows {
        answers.push(match *row {
            AnswerRow::Pushed(thread, place) => Answer::Pushed { thread, place },
            AnswerRow::Extended(thread, place, count) => Answer::Extended {
                thread,
                place,
                count,
            },
            AnswerRow::Refused(thread) => Answer::Refused { thread },
            AnswerRow::Read(thread, index, value) => Answer::Read {
                thread,
                index,
                value,
            },
            AnswerRow::Cloned(thread, items) => Answer::Cloned {
                thread,
                items: Items::from_vec(Vec::from_slice(alloc, items)?),
            },
            AnswerRow::CloneRefused(thread) => Answer::CloneRefused { thread },
        })?;
    }
    Ok(answers)
}

/// Makes the writes of these items, each with its index.
fn writes_of(alloc: Global, items: &[u64]) -> Result<Items<(usize, u64)>, AllocError> {
    let mut writes = Items::new(alloc);
    for place in 0..items.len() {
        writes.push((place, items[place]))?;
    }
    Ok(writes)
}

fn events_of(alloc: Global, rows: &[EventRow]) -> Result<Vec<Event>, AllocError> {
    let mut events = Vec::new(alloc);
    for row in rows {
        events.push(match *row {
            EventRow::Append(thread, item) => Event::Append { thread, item },
            EventRow::Extend(thread, items) => Event::Extend {
                thread,
                items: Items::from_vec(Vec::from_slice(alloc, items)?),
            },
            EventRow::Look(thread, length) => Event::Look { thread, length },
        })?;
    }
    Ok(events)
}

/// Makes the world of a row. No thread has the lock, and each write was published.
///
/// # Errors
/// Fails if an allocation fails.
pub fn world_of(alloc: Global, row: &Row) -> Result<World, AllocError> {
    let writes = writes_of(alloc, row.items)?;
    let events = Items::from_vec(events_of(alloc, row.events)?);
    let answers = Items::from_vec(answers_of(alloc, row.answers)?);
    Ok(World {
        length: row.items.len(),
        held: None,
        opened: row.opened,
        writes,
        events,
        answers,
    })
}

/// Checks that each schedule leaves the world of its row.
///
/// # Errors
/// Fails if an allocation fails.
pub fn check_rows(rt: &impl Abort, alloc: Global, rows: &[Row]) -> Result<(), AllocError> {
    for row in rows {
        let schedule = schedule_of(alloc, row.turns, row.refused)?;
        let world = run(alloc, &plans_of(alloc, row.plans)?, &schedule)?;
        assert_eq!(rt; world, world_of(alloc, row)?, "{}", row.name);
    }
    Ok(())
}
