//! `?` converts each error of a collection into [`Fault`] and into an `io::Error`, which name the
//! same cause.
use elsa_cell::{CellFault, Fault, FrozenMap, FrozenVec, InUse};
use std::alloc::{AllocError, AllocFailed, Global};
use std::io;
use std::test::*;

/// Makes each call that may fail, in a function whose error is a fault.
fn fails_with_a_fault(alloc: Global) -> Result<usize, Fault> {
    let list: FrozenVec<u64> = FrozenVec::new(alloc)?;
    let map: FrozenMap<String, u64> = FrozenMap::new(alloc)?;
    let first = list.push(7)?;
    let _hold = list.hold()?;
    map.reserve(1)?;
    map.insert(String::from_str(alloc, "ann")?, 1)?;
    map.get_or_try_insert(
        "bob",
        || Ok::<_, Fault>((String::from_str(alloc, "bob")?, 2)),
    )?;
    list.alloc(8)?;
    Ok(first)
}

/// Makes the same calls, in a function whose error is an `io::Error`.
fn fails_with_an_io_error(alloc: Global) -> io::Result<usize> {
    let list: FrozenVec<u64> = FrozenVec::new(alloc)?;
    let map: FrozenMap<String, u64> = FrozenMap::new(alloc)?;
    let first = list.push(7)?;
    map.reserve(1)?;
    map.insert(String::from_str(alloc, "ann")?, 1)?;
    map.get_or_try_insert(
        "bob",
        || Ok::<_, io::Error>((String::from_str(alloc, "bob")?, 2)),
    )?;
    let hold = list.hold()?;
    list.alloc(8)?;
    drop(hold);
    Ok(first)
}

#[test]
fn a_call_inside_another_was_told_as_memory(rt: HostRuntime) -> Result<(), Fail> {
    assert_eq!(rt; fails_with_a_fault(rt.alloc()), Err(Fault::InUse));
    let refused = fails_with_an_io_error(rt.alloc());
    assert!(rt; matches!(refused, Err(error) if error.kind() == io::ErrorKind::ResourceBusy));
    Ok(())
}

#[test]
fn a_fault_had_another_cause(rt: HostRuntime) -> Result<(), Fail> {
    assert_eq!(rt; Fault::from(AllocError), Fault::Memory);
    assert_eq!(rt; Fault::from(AllocFailed { value: 7u64 }), Fault::Memory);
    assert_eq!(rt; Fault::from(InUse), Fault::InUse);
    assert_eq!(rt; Fault::from(CellFault::Memory(7u64)), Fault::Memory);
    assert_eq!(rt; Fault::from(CellFault::Full(7u64)), Fault::Full);
    Ok(())
}

#[test]
fn an_io_error_had_another_kind(rt: HostRuntime) -> Result<(), Fail> {
    assert!(rt; io::Error::from(Fault::Memory).kind() == io::ErrorKind::OutOfMemory);
    assert!(rt; io::Error::from(Fault::Full).kind() == io::ErrorKind::StorageFull);
    assert!(rt; io::Error::from(InUse).kind() == io::ErrorKind::ResourceBusy);
    Ok(())
}
