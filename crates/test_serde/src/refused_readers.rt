//! Each reader that allocates, and each writer, while a request for memory is denied: the error
//! says so, and not that the text is broken. By itself a test denies no request; `tools/denied`
//! denies each of the first 60 of each call in turn.
use bumpalo::Bump;
use elsa_index::index_set::FrozenIndexSet;
use elsa_interner::interner::Interner;
use elsa_maps::index_map::FrozenIndexMap;
use elsa_serde::{Entries, Items, Names, Stored};
use elsa_vec::stable::Own;
use elsa_vec::vec::FrozenVec;
use serde::{Deserialize, Serialize};
use serde_json::Error;
use std::alloc::{AllocError, Global};
use std::test::Fail;

// The bytes of the blocks by which `tools/denied` sees that a call begins, that it has ended, and
// that it has failed by a denied request.
const BEGINS: usize = 7919;

const ENDS: usize = 7907;

const FAILED: usize = 7901;

fn mark(alloc: Global, bytes: usize) -> Result<(), AllocError> {
    drop(Vec::<u8>::with_capacity(alloc, bytes)?);
    Ok(())
}

/// Makes the call between two marks. Returns its error, unless it says that an allocation failed.
fn broken<T: Drop>(
    alloc: Global,
    call: impl FnOnce() -> Result<T, Error> + Drop,
) -> Result<Option<Error>, AllocError> {
    mark(alloc, BEGINS)?;
    let (bytes, error) = match call() {
        Ok(_) => (ENDS, None),
        Err(error) if error.is_memory() => (FAILED, None),
        Err(error) => (ENDS, Some(error)),
    };
    mark(alloc, bytes)?;
    Ok(error)
}

fn is_read<'a, T: Deserialize<'a> + Drop>(
    alloc: Global,
    text: &'a str,
) -> Result<bool, AllocError> {
    Ok(broken(alloc, || serde_json::from_str::<T>(alloc, text))?.is_none())
}

#[test]
fn a_denied_request_was_told_as_a_broken_text(rt: HostRuntime) -> Result<(), Fail> {
    let (alloc, list) = (
        rt.alloc(),
        r#"["aardvark","bb","ccc","dddd","eeeee","f","g","h","i"]"#,
    );
    assert!(rt; is_read::<Names>(alloc, list)?);
    assert!(rt; is_read::<Items<u64>>(alloc, "[1,2,3,4,5,6,7,8,9]")?);
    assert!(rt; is_read::<Items<String>>(alloc, list)?);
    assert!(rt; is_read::<Items<Own<String>>>(alloc, list)?);
    assert!(rt; is_read::<Items<Vec<u64>>>(alloc, "[[1,2],[],[3,4,5,6,7,8,9]]")?);
    assert!(rt; is_read::<Items<Vec<String>>>(alloc, r#"[["a","b"],[],["c"]]"#)?);
    assert!(rt; is_read::<Entries<String, Own<u64>>>(alloc, r#"{"a":1,"bb":2}"#)?);
    assert!(rt; is_read::<Entries<u64, String>>(alloc, r#"{"1":"a","2":"bb"}"#)?);
    assert!(rt; is_read::<Entries<String, Vec<u64>>>(alloc, r#"{"a":[1,2],"b":[]}"#)?);
    Ok(())
}

/// Returns whether the value is written as the text, or the error says that an allocation failed.
fn is_written(alloc: Global, value: &impl Serialize, text: &str) -> Result<bool, AllocError> {
    let written = || {
        let written = serde_json::to_string(alloc, value)?;
        Ok(written.as_str() == text)
    };
    let mut same = true;
    let error = broken(alloc, || written().map(|it| same = it))?;
    Ok(same && error.is_none())
}

#[test]
fn a_denied_request_was_told_as_a_broken_value(rt: HostRuntime) -> Result<(), Fail> {
    let (alloc, arena) = (rt.alloc(), Bump::new(rt.alloc()));
    let mut names: Interner<'_> = Interner::new(alloc, &arena);
    let mut vec: FrozenVec<'_, String> = FrozenVec::new(alloc, &arena);
    let mut set: FrozenIndexSet<'_, String> = FrozenIndexSet::new(alloc, &arena);
    let mut map: FrozenIndexMap<'_, String, String> = FrozenIndexMap::new(alloc, &arena);
    for text in ["aardvark", "bandicot"] {
        let owned = || String::from_str(alloc, text);
        names.put(text)?;
        vec.push(owned()?)?;
        set.insert(owned()?)?;
        map.insert(owned()?, String::from_str(alloc, "x")?)?;
    }
    let list = r#"["aardvark","bandicot"]"#;
    assert!(rt; is_written(alloc, &Stored(&names), list)?);
    assert!(rt; is_written(alloc, &Stored(&vec), list)?);
    assert!(rt; is_written(alloc, &Stored(&set), list)?);
    assert!(rt; is_written(alloc, &Stored(&map), r#"{"aardvark":"x","bandicot":"x"}"#)?);
    Ok(())
}
