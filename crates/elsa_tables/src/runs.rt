//! Any list of calls on an object, one after the other.
ghost use Rattle.std.specs.Prelude.{◌≡◌, IfOk, OnErr, length};
ghost use Rattle.elsa_tables.specs.Replay.{Answered};

use crate::Call;
use std::alloc::{AllocError, Allocator};

// Makes one call. If it fails, its reply is `refused`.
fn answer<O, R: Copy, L, C: Call<O, R, L>>(object: &mut O, command: C, refused: R) -> R
    requires { (s : C.State) (c : C) → C.refuses s c → C.steps s c refused s }
    ensures { C.steps (C.state object.old) command result (C.state object.new) }
{
    match command.apply(object) {
        Ok(reply) => reply,
        Err(_) => refused,
    }
}

/// Makes the calls in order and returns one reply for each command, at the command's index.
///
/// If a call fails, its reply is `refused`, and the run continues. The memory for all replies is
/// allocated before the first call.
///
/// # Errors
/// Fails if the memory for the replies can't be allocated. No call is then made.
pub fn run<O, R: Copy, L, C: Call<O, R, L> + Drop, A: Allocator + Copy, B: Allocator + Copy>(
    alloc: A,
    object: &mut O,
    commands: Vec<C, B>,
    refused: R,
) -> Result<Vec<R, A>, AllocError>
    requires { (s : C.State) (c : C) → C.refuses s c → C.steps s c refused s }
    ensures answered { IfOk result (λ replies.
        Answered C.steps (C.state object.old) commands.items replies.items (C.state object.new)) }
    ensures one_each { IfOk result (λ replies. length replies.items ≡ length commands.items) }
    ensures none_made { OnErr result (object.new ≡ object.old) }
{
    let mut replies = Vec::with_capacity(alloc, commands.len())?;
    for command in commands {
        let reply = answer(object, command, refused);
        replies.push(reply).unwrap();
    }
    Ok(replies)
}
