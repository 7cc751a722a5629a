//! A push that has returned is observed by the thread that receives its message.
use crate::handed::{Known, told};
use crossbeam_channel::{Receiver, Sender};
use elsa_lock_free::lock_free::LockFreeFrozenVec;
use std::alloc::AllocError;
use std::sync::Wait;

/// Pushes an item, and sends what is then known of the vector.
pub fn push_and_send<'v, R: Wait>(
    rt: &R,
    vector: &'v LockFreeFrozenVec<u64>,
    to: &Sender<Known<'v>>,
    item: u64,
) -> Result<bool, AllocError> {
    let mut handle = vector.handle();
    handle.push(rt, item)?;
    Ok(to.send(rt, told(vector, &handle)).is_ok())
}

/// Receives a message, and reads an item whose index is below its count: it is there.
pub fn receive_and_read<R: Wait>(rt: &R, from: &Receiver<Known<'_>>, index: usize) -> Option<u64> {
    let Ok(known) = from.recv(rt) else {
        return None;
    };
    known.get(index)
}
