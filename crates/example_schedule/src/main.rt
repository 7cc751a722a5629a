//! Pictures of two schedules of the step machine: a line for each turn, a column for each thread,
//! then the list and the state word.
//!
//! In the first, two threads push and one reads. Both pushers read the length 0. The first pushes;
//! the second's acquire fails, because the length that it read is no longer that of the list. In
//! the second, a thread appends two items by one call, which are published in one step.
//!
//! Each line is computed from the worlds before and after its turn, which
//! [`run`](elsa_machine::machine::run) returns. If the turn of a thread changed nothing, the
//! earlier turns of that column show whether it was a peek or an acquire that failed.
#![tactic(auto)]

mod told;

use crate::told::{Column, items_of, told};
use elsa_machine::machine::{Items, Plan, Turn, World, run};
use std::alloc::{AllocError, Global};
use std::io;

/// The threads that have turns in the first picture, in order.
const PUSHES: [usize; 14] = [0, 1, 0, 0, 2, 0, 0, 2, 1, 2, 1, 1, 1, 1];

/// The threads that have turns in the second picture, in order.
const EXTENSION: [usize; 13] = [0, 1, 0, 0, 0, 0, 2, 0, 0, 1, 2, 2, 1];

fn schedule(alloc: Global, threads: &[usize]) -> Result<Vec<Turn>, AllocError> {
    let mut turns = Vec::new(alloc);
    for thread in threads {
        turns.push(Turn {
            thread: *thread,
            memory: true,
        })?;
    }
    Ok(turns)
}

/// The plans of the first picture.
fn pushes(alloc: Global) -> Result<Vec<Plan>, AllocError> {
    let mut plans = Vec::new(alloc);
    plans.push(Plan::Pusher(Items::from_vec(vec![in alloc; 7]?)))?;
    plans.push(Plan::Pusher(Items::from_vec(vec![in alloc; 9]?)))?;
    plans.push(Plan::Reader(Items::from_vec(vec![in alloc; 0, 0]?)))?;
    Ok(plans)
}

/// The plans of the second picture.
fn extension(alloc: Global) -> Result<Vec<Plan>, AllocError> {
    let mut plans = Vec::new(alloc);
    plans.push(Plan::Extender(Items::from_vec(vec![in alloc; 7, 8]?)))?;
    plans.push(Plan::Pusher(Items::from_vec(vec![in alloc; 9]?)))?;
    plans.push(Plan::Reader(Items::from_vec(vec![in alloc; 0, 1]?)))?;
    Ok(plans)
}

/// Prints a line: the text in each thread's column, the list, and the state word.
fn line(rt: &impl Print, turn: &str, cells: [&str; 3], list: &str, word: &str) -> io::Result<()> {
    let [first, second, third] = cells;
    println!(rt; "{turn:>4}  {first:<18}  {second:<18}  {third:<22}  {list:<6}  {word}")
}

/// Prints the turn of a thread in its column.
fn turn_line(
    rt: &impl Print,
    alloc: Global,
    number: usize,
    thread: usize,
    text: &str,
    world: &World,
) -> io::Result<()> {
    let turn = format!(in alloc; "{number}")?;
    let list = items_of(alloc, world)?;
    let held = if world.held.is_some() { 1 } else { 0 };
    let word = format!(in alloc; "{}", world.length.saturating_mul(2).saturating_add(held))?;
    let cells = match thread {
        0 => [text, "", ""],
        1 => ["", text, ""],
        _ => ["", "", text],
    };
    line(rt, &turn, cells, &list, &word)
}

/// Prints a picture: these plans, under these heads, with turns of these threads.
fn picture(
    rt: &impl Print,
    alloc: Global,
    heads: [&str; 3],
    plans: &[Plan],
    threads: &[usize],
) -> io::Result<()> {
    let schedule = schedule(alloc, threads)?;
    line(rt, "turn", heads, "list", "word")?;
    let mut columns = [Column { peeked: None }; 3];
    let mut before = run(alloc, plans, &[])?;
    for (i, turn) in schedule.iter().enumerate() {
        let after = run(alloc, plans, schedule.get(..=i).unwrap_or(&[]))?;
        let column = &mut columns[turn.thread.min(2)];
        let text = told(alloc, &before, &after, *turn, column)?;
        turn_line(rt, alloc, i.saturating_add(1), turn.thread, &text, &after)?;
        before = after;
    }
    Ok(())
}

fn main(rt: HostRuntime) -> io::Result<()> {
    let alloc = rt.alloc();
    let plans = pushes(alloc)?;
    let heads = ["0 pushes 7", "1 pushes 9", "2 reads index 0 twice"];
    picture(&rt, alloc, heads, &plans, &PUSHES)?;
    println!(rt; "")?;
    let plans = extension(alloc)?;
    let heads = ["0 appends 7, 8", "1 pushes 9", "2 reads indices 0, 1"];
    picture(&rt, alloc, heads, &plans, &EXTENSION)
}
