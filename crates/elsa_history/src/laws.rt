//! Laws of recorders that callers may rely on beyond one call: each is the contract of a function
//! that makes only public calls.
ghost use Rattle.std.specs.Prelude.{◌≡◌, ◌++◌, ◌⊎◌, ℕ, List, length, IfErr, IfOk, IfSome};
ghost use Rattle.elsa_history.specs.Receipts.{IsOneCall};
ghost use Rattle.elsa_tables.specs.Replay.{Replays};

use crate::{AtOpening, CloseFault, Core, Entries, History, ReceiptsFault, Recorder, Start};
use std::alloc::{AllocError, Allocator};
use std::marker::Brand;
use std::sync::Wait;

/// Records one command of one caller. If the recording closes, the history is that one call, and it
/// is legal from the initial state. If it doesn't close, the error contains a legal history: no
/// contract excludes that another thread called the recorder.
///
/// # Errors
/// Fails if an allocation fails.
pub fn recorded_alone<C: Core + Drop, A: Allocator + Copy, R: Wait>(
    rt: &R,
    alloc: A,
    core: C,
    number: u64,
    command: C::Command,
) -> Result<Result<History<C, A>, CloseFault<C, A>>, AllocError>
    requires { C.state core ≡ C.opening }
    ensures one_entry { IfOk result (λ closed. IfOk closed (λ h. length h.1 ≡ 1)) }
    ensures call { IfOk result (λ closed.
        IfOk closed (λ h. IsOneCall C.Command.eq C.Reply.eq number command h.1)) }
    ensures legal { IfOk result (λ closed.
        IfOk closed (λ h. Replays C.steps C.opening h.1 (C.state h.0))) }
    ensures fault { IfOk result (λ closed.
        IfErr closed (λ f.
        (h : C × List (ℕ × C.Command × C.Reply))
        × ((f ≡ CloseFault.Receipts ReceiptsFault.MissingPass h)
        ⊎ (f ≡ CloseFault.Receipts ReceiptsFault.ForeignPass h))
        × Replays C.steps C.opening h.1 (C.state h.0))) }
{
    let recorder = Recorder::new(alloc, core);
    let mut pass = recorder.pass(number);
    let mut passes = Vec::new(alloc);
    recorder.call(rt, &mut pass, command)?;
    passes.push(pass)?;
    Ok(recorder.close(passes))
}

/// Records a part of a history, one command of one caller, and returns the object in its last
/// state, and the calls. `None` if the part doesn't close.
fn recorded_part<C: Core + Drop, A: Allocator + Copy, R: Wait, S: Start<C>>(
    rt: &R,
    alloc: A,
    core: C,
    number: u64,
    command: C::Command,
) -> Result<Option<(C, Entries<C, A>)>, AllocError>
    requires { C.state core ≡ S.start C.state C.opening }
    ensures call { IfOk result (λ closed. IfSome closed (λ part.
        IsOneCall C.Command.eq C.Reply.eq number command part.1.items)) }
    ensures legal { IfOk result (λ closed. IfSome closed (λ part.
        Replays C.steps (S.start C.state C.opening) part.1.items
        (C.state part.0))) }
{
    let recorder: Recorder<C, A, S> = Recorder::with_start(alloc, core);
    let mut pass = recorder.pass(number);
    let mut passes = Vec::new(alloc);
    recorder.call(rt, &mut pass, command)?;
    passes.push(pass)?;
    let Ok(history) = recorder.close(passes) else {
        return Ok(None);
    };
    Ok(Some(history.into_parts()))
}

/// Records a history in two parts, of one command each, and returns the calls of the first part,
/// the object in its last state, and the calls of the second part. If both parts close, their calls
/// together are one legal history from the initial state. `None` if a part doesn't close.
///
/// # Errors
/// Fails if an allocation fails.
#[tactic(auto, using(crate::proofs::Parts::replays_append))]
pub fn recorded_in_parts<C: Core + Drop, A: Allocator + Copy, R: Wait>(
    rt: &R,
    alloc: A,
    core: C,
    number: u64,
    first: C::Command,
    second: C::Command,
) -> Result<Option<(Entries<C, A>, (C, Entries<C, A>))>, AllocError>
    requires { C.state core ≡ C.opening }
    ensures first { IfOk result (λ closed. IfSome closed (λ parts.
        IsOneCall C.Command.eq C.Reply.eq number first parts.0.items)) }
    ensures second_part { IfOk result (λ closed. IfSome closed (λ parts.
        IsOneCall C.Command.eq C.Reply.eq number second parts.1.1.items)) }
    ensures legal { IfOk result (λ closed. IfSome closed (λ parts.
        Replays C.steps C.opening (parts.0.items ++ parts.1.1.items)
        (C.state parts.1.0))) }
{
    let found = recorded_part::<C, A, R, AtOpening>(rt, alloc, core, number, first)?;
    let Some((core, earlier)) = found else {
        return Ok(None);
    };
    let Some(later) = recorded_part::<C, A, R, Brand>(rt, alloc, core, number, second)? else {
        return Ok(None);
    };
    Ok(Some((earlier, later)))
}
