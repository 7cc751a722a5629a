//! Each public error type prints a sentence. It converts into the kit's `anyhow::Error` and into an
//! error type that the kit's `thiserror` derives, and both print the sentence too.
use elsa::append_map::RoomFault;
use elsa::cache::{CacheFault, LoadFault};
use elsa::cell::{CellFault, Fault, InUse, TryFault};
use elsa::interner::{EngineFault, Failed, NameFault};
use elsa::map::InsertFault;
use elsa::sync::AttemptFault;
use elsa::sync::history::{CloseFault, Recorder, VecCommand};
use elsa::sync::vec::VecState;
use elsa_history::ReceiptsFault;
use elsa_program::shared::SharedFault;
use elsa_serde::ReadFault;
use elsa_tables::Refusal;
use std::alloc::Global;
use std::process::Abort;
use std::test::*;
use thiserror::Error;

/// An error type of a caller's, with a variant for each of ours.
#[derive(Debug, Drop, Error)]
enum CallerError {
    #[error("caller: {0}")]
    Cache(#[from] CacheFault<LoadFault, InUse>),
    #[error("caller: {0}")]
    Load(#[from] LoadFault),
    #[error("caller: {0}")]
    Room(#[from] RoomFault),
    #[error("caller: {0}")]
    Cell(#[from] CellFault<u64>),
    #[error("caller: {0}")]
    InUse(#[from] InUse),
    #[error("caller: {0}")]
    Fault(#[from] Fault),
    #[error("caller: {0}")]
    Try(#[from] TryFault<u64, LoadFault>),
    #[error("caller: {0}")]
    Attempt(#[from] AttemptFault<u64, LoadFault>),
    #[error("caller: {0}")]
    Engine(#[from] EngineFault),
    #[error("caller: {0}")]
    Device(#[from] Failed),
    #[error("caller: {0}")]
    Name(#[from] NameFault),
    #[error("caller: {0}")]
    Insert(#[from] InsertFault<LoadFault>),
    #[error("caller: {0}")]
    Receipts(#[from] ReceiptsFault),
    #[error("caller: {0}")]
    Close(#[from] CloseFault<VecState<u64>>),
    #[error("caller: {0}")]
    Refused(#[from] Refusal<LoadFault>),
    #[error("caller: {0}")]
    Shared(#[from] SharedFault),
    #[error("caller: {0}")]
    Read(#[from] ReadFault),
}

/// Checks what the error prints, and what it prints after both conversions.
fn prints<E: std::error::Error>(
    (rt, alloc): (&impl Abort, Global),
    error: E,
    sentence: &str,
) -> Result<(), Fail>
where
    CallerError: From<E>,
{
    let printed = format!(in alloc; "{error}")?;
    let general = format!(in alloc; "{}", anyhow::Error::from(&error))?;
    let callers = format!(in alloc; "{}", CallerError::from(error))?;
    let callers = callers.as_str().strip_prefix("caller: ");
    assert_eq!(rt; (printed.as_str(), general.as_str()), (sentence, sentence));
    assert_eq!(rt; callers, Some(sentence));
    Ok(())
}

type Cached = CacheFault<LoadFault, InUse>;

type Tried = TryFault<u64, LoadFault>;

type Attempted = AttemptFault<u64, LoadFault>;

const NOT_FOUND: LoadFault = LoadFault::NotFound;

const NO_TEXT: &str = "the loader found no text at the path";

const NOT_MADE: &str = "the value could not be made: the loader found no text at the path";

const IN_USE: &str = "the collection is in use by a call that contains this one";

const FULL: &str = "the collection has the greatest number of items";

const NO_VALUE: &str = "out of memory: the value was not inserted";

const NO_ENTRY: &str = "out of memory: the entry was not inserted";

const NO_RECEIPT: &str = "a pass is missing: an entry of the history has no receipt";

#[test]
fn an_error_of_a_cache_printed_another_sentence(rt: HostRuntime) -> Result<(), Fail> {
    let at = (&rt, rt.alloc());
    let loaded = "the path's text could not be loaded: the loader found no text at the path";
    let parsed =
        "the path's text could not be parsed: the collection is in use by a call that contains this one";
    prints(at, Cached::Load(NOT_FOUND), loaded)?;
    prints(at, Cached::Parse(InUse), parsed)?;
    prints(at, Cached::Memory, "out of memory: the path has no value")?;
    prints(at, NOT_FOUND, NO_TEXT)?;
    prints(
        at,
        LoadFault::Memory,
        "out of memory: the path has no resource",
    )
}

#[test]
fn an_error_of_a_map_or_a_list_printed_another_sentence(rt: HostRuntime) -> Result<(), Fail> {
    let at = (&rt, rt.alloc());
    prints(at, CellFault::InUse(7u64), IN_USE)?;
    prints(at, CellFault::Memory(7u64), NO_VALUE)?;
    prints(at, CellFault::Full(7u64), FULL)?;
    prints(at, InUse, IN_USE)?;
    prints(at, Fault::InUse, IN_USE)?;
    prints(at, Fault::Memory, NO_VALUE)?;
    prints(at, Fault::Full, FULL)?;
    prints(at, InsertFault::<LoadFault>::Memory, NO_ENTRY)?;
    prints(at, InsertFault::Value(NOT_FOUND), NOT_MADE)?;
    prints(at, Refusal::<LoadFault>::Room, NO_ENTRY)?;
    prints(at, Refusal::Value(NOT_FOUND), NOT_MADE)?;
    prints(at, RoomFault::Memory, "out of memory: no room was reserved")?;
    prints(at, RoomFault::Full, "a map has at most 2^32 - 1 entries")
}

#[test]
fn an_error_of_a_closure_or_an_attempt_printed_another_sentence(
    rt: HostRuntime,
) -> Result<(), Fail> {
    let at = (&rt, rt.alloc());
    prints(at, Tried::Value(NOT_FOUND), NOT_MADE)?;
    prints(at, Tried::Map(CellFault::InUse(None)), IN_USE)?;
    let (busy, failed) = (Attempted::Busy(7), Attempted::Failed(NOT_FOUND));
    let shown = format!(in rt.alloc(); "{busy:?} {failed:?}")?;
    assert_eq!(rt; shown.as_str(), "Busy(..) Failed(NotFound)");
    prints(at, busy, "another thread has the lock: try again")?;
    prints(at, failed, NO_TEXT)
}

#[test]
fn an_error_of_an_interner_or_of_reading_printed_another_sentence(
    rt: HostRuntime,
) -> Result<(), Fail> {
    let at = (&rt, rt.alloc());
    prints(at, EngineFault::Read, "the input could not be read")?;
    prints(at, EngineFault::Write, "the output could not be written")?;
    prints(
        at,
        EngineFault::Endless,
        "the input did not end within 2^64 - 1 reads",
    )?;
    prints(at, Failed, "a device failed")?;
    prints(at, NameFault::TooLong, "the text has more than 23 bytes")?;
    prints(
        at,
        ReadFault::Duplicate(3),
        "what was read at index 3 is a duplicate",
    )?;
    prints(
        at,
        ReadFault::TooMany,
        "more names than an interner has numbers for",
    )?;
    prints(at, ReadFault::Memory, "out of memory")
}

#[test]
fn an_error_of_a_recorder_or_a_worker_printed_another_sentence(
    rt: HostRuntime,
) -> Result<(), Fail> {
    let at = (&rt, rt.alloc());
    prints(at, ReceiptsFault::MissingPass, NO_RECEIPT)?;
    prints(
        at,
        ReceiptsFault::ForeignPass,
        "a pass of another recorder is among them",
    )?;
    let recorder: Recorder<VecState<u64>> = Recorder::new(rt.alloc(), VecState::new(rt.alloc()));
    let mut pass = recorder.pass(1);
    recorder.call(&rt, &mut pass, VecCommand::Push(7))?;
    let Err(fault) = recorder.close(Vec::new(rt.alloc())) else {
        return Err(Fail::new("a close without the pass succeeded"));
    };
    prints(at, fault, NO_RECEIPT)?;
    prints(at, SharedFault::Memory, "out of memory")?;
    prints(at, SharedFault::Gate, "a gate stopped its worker")?;
    prints(
        at,
        SharedFault::Check,
        "the vector does not have the length of all numbers",
    )?;
    prints(at, SharedFault::Thread, "a thread could not be started")
}

#[test]
fn a_fault_had_another_number(rt: HostRuntime) {
    let numbers = [
        (LoadFault::NotFound as u8, 1),
        (LoadFault::Memory as u8, 2),
        (EngineFault::Read as u8, 1),
        (EngineFault::Write as u8, 2),
        (EngineFault::Endless as u8, 3),
        (NameFault::TooLong as u8, 1),
        (SharedFault::Memory as u8, 1),
        (SharedFault::Gate as u8, 2),
        (SharedFault::Check as u8, 3),
        (SharedFault::Thread as u8, 4),
    ];
    for (line, (number, wanted)) in numbers.iter().enumerate() {
        assert_eq!(rt; number, wanted, "of line {line}");
    }
}
