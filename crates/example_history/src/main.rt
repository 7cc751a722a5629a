//! What one thread knows of a concurrent vector, passed on to another one.
//!
//! Order between threads is that of views. A thread that has pushed an item passes the history that
//! its handle has observed on: in the result of a join, in a struct under a lock, or in a message.
//! The history has no bytes. A thread that gets it and reads the length by
//! [`len_after`](elsa_lock_free::lock_free::Handle::len_after) has then observed the item, which is
//! proved, for every schedule.
//!
//! The first function is a law: the history of the running vector is one of the step machine.
#![tactic(auto)]

mod handed;
mod observed;
mod sent;

use crate::handed::{push_and_tell, read_after_join, read_what_was_told, told};
use crate::observed::push_on_machine;
use crate::sent::{push_and_send, receive_and_read};
use elsa_lock_free::lock_free::{LockFreeFrozenVec, VectorHistory};
use std::io;
use std::mem::size_of;
use std::sync::Mutex;

fn main(rt: HostRuntime) -> io::Result<()> {
    let vector = LockFreeFrozenVec::new(rt.alloc())?;
    let item = read_after_join(&rt, &vector, 7)?;
    println!(rt; "after a join: {item}")?;
    let known = Mutex::new(told(&vector, &vector.handle()));
    push_and_tell(&rt, &vector, &known, 8)?;
    println!(rt; "under a lock: {:?}", read_what_was_told(&rt, &known, 1))?;
    let (to, from) = crossbeam_channel::unbounded(rt.alloc())?;
    push_and_send(&rt, &vector, &to, 9)?;
    println!(rt; "by a message: {:?}", receive_and_read(&rt, &from, 2))?;
    let (index, _history) = push_on_machine(&rt, &mut vector.handle(), 10)?;
    println!(rt; "an item of the machine at index {index}")?;
    println!(rt; "a history has {} bytes", size_of::<VectorHistory<u64>>())?;
    Ok(())
}
