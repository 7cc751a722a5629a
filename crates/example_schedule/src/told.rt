//! The effect of a turn as a text, computed from the worlds before and after it.
use elsa_machine::machine::{Answer, Event, Turn, World};
use std::alloc::{AllocError, Global};

/// The state of the column of a pusher or an extender: the length that it read at its peek, until
/// it has tried to acquire.
#[derive(Clone, Copy)]
pub struct Column {
    pub peeked: Option<usize>,
}

/// Returns the items of the list, as `[7, 9]`.
///
/// # Errors
/// Fails if an allocation fails.
pub fn items_of(alloc: Global, world: &World) -> Result<String, AllocError> {
    let mut items = Vec::new(alloc);
    for event in world.events.as_slice() {
        match event {
            Event::Append { item, .. } => items.push(*item)?,
            Event::Extend { items: more, .. } => items.extend_from_slice(more.as_slice())?,
            Event::Look { .. } => {}
        }
    }
    format!(in alloc; "{items:?}")
}

/// Returns the text for a turn that ends a call with this result.
fn told_answer(alloc: Global, answer: &Answer, length: usize) -> Result<String, AllocError> {
    match answer {
        Answer::Pushed { place, .. } => format!(in alloc; "publishes index {place}"),
        Answer::Extended { place, count, .. } => {
            format!(in alloc; "publishes {count} from {place}")
        }
        Answer::Refused { .. } => format!(in alloc; "is refused"),
        Answer::Read { value: None, .. } => format!(in alloc; "looks: {length}, so None"),
        Answer::Read {
            index,
            value: Some(item),
            ..
        } => format!(in alloc; "reads index {index}: {item}"),
        Answer::Cloned { .. } => format!(in alloc; "has its clone"),
        Answer::CloneRefused { .. } => format!(in alloc; "is refused its clone"),
    }
}

/// Returns the text for a turn that changed nothing: a peek, an acquire that failed, a wait, or a
/// reservation of memory by the thread that has the lock.
fn told_nothing(
    alloc: Global,
    world: &World,
    turn: Turn,
    column: &mut Column,
) -> Result<String, AllocError> {
    if world.held == Some(turn.thread) {
        return if turn.memory {
            format!(in alloc; "reserves memory")
        } else {
            format!(in alloc; "is denied memory")
        };
    }
    if let Some(seen) = column.peeked {
        column.peeked = None;
        return format!(in alloc; "acquire at {seen} fails");
    }
    if world.held.is_some() {
        return format!(in alloc; "finds it held");
    }
    column.peeked = Some(world.length);
    format!(in alloc; "peeks: {}", world.length)
}

/// Returns the text for the turn between these worlds.
///
/// # Errors
/// Fails if an allocation fails.
pub fn told(
    alloc: Global,
    before: &World,
    after: &World,
    turn: Turn,
    column: &mut Column,
) -> Result<String, AllocError> {
    let (new, old) = (after.answers.as_slice(), before.answers.as_slice());
    if new.len() > old.len()
        && let Some(answer) = new.last()
    {
        return told_answer(alloc, answer, after.length);
    }
    if after.events.as_slice().len() > before.events.as_slice().len() {
        return format!(in alloc; "looks: {}", after.length);
    }
    if after.writes.as_slice().len() > before.writes.as_slice().len() {
        let place = after.writes.as_slice().last().map_or(0, |write| write.0);
        return format!(in alloc; "writes index {place}");
    }
    if after.opened > before.opened {
        return format!(in alloc; "opens buffer {}", before.opened);
    }
    if before.held.is_none() && after.held.is_some() {
        column.peeked = None;
        return format!(in alloc; "acquires at {}", after.length);
    }
    told_nothing(alloc, after, turn, column)
}
