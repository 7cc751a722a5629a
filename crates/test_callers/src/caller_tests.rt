//! The callers at concrete types, run.
use crate::cached::words_of;
use crate::kept::{first_in, is_new_in};
use crate::locked_memo::{memo, number};
use crate::replayed::replies_of_map;
use bumpalo::Bump;
use elsa::cache::{CacheFault, ParsedCache};
use elsa::run::{MapCommand, MapReply};
use elsa::{FrozenBTreeMap, FrozenIndexMap, FrozenMap, Own};
use std::alloc::{AllocError, Global};
use std::convert::Infallible;
use std::test::*;

/// Inserts at the key 7 of a hashed map twice. Returns whether the first value stays, and whether
/// the key is new after that.
fn kept_hashed(alloc: Global) -> Result<(bool, bool), AllocError> {
    let arena = Bump::new(alloc);
    let mut map: FrozenMap<'_, u64, &str> = FrozenMap::new(alloc, &arena);
    let kept = first_in(&mut map, 7, "fox")? == "fox" && first_in(&mut map, 7, "b")? == "fox";
    Ok((kept, is_new_in(&mut map, 7, "c")?))
}

/// Does the same with an ordered map.
fn kept_ordered(alloc: Global) -> Result<(bool, bool), AllocError> {
    let arena = Bump::new(alloc);
    let mut map: FrozenBTreeMap<'_, u64, &str> = FrozenBTreeMap::new(alloc, &arena);
    let kept = first_in(&mut map, 7, "fox")? == "fox" && first_in(&mut map, 7, "b")? == "fox";
    Ok((kept, is_new_in(&mut map, 7, "c")?))
}

/// Does the same with an index map.
fn kept_indexed(alloc: Global) -> Result<(bool, bool), AllocError> {
    let arena = Bump::new(alloc);
    let mut map: FrozenIndexMap<'_, u64, &str> = FrozenIndexMap::new(alloc, &arena);
    let kept = first_in(&mut map, 7, "fox")? == "fox" && first_in(&mut map, 7, "b")? == "fox";
    Ok((kept, is_new_in(&mut map, 7, "c")?))
}

#[test]
fn a_key_keeps_its_first_value_in_each_form(rt: HostRuntime) -> Result<(), Fail> {
    assert_eq!(rt; kept_hashed(rt.alloc())?, (true, false));
    assert_eq!(rt; kept_ordered(rt.alloc())?, (true, false));
    assert_eq!(rt; kept_indexed(rt.alloc())?, (true, false));
    Ok(())
}

/// Returns the number of words of a document that is loaded as this text.
fn counted<'a>(
    alloc: Global,
    counts: &mut ParsedCache<'a, usize>,
    text: &str,
) -> Result<usize, CacheFault<AllocError, Infallible>> {
    let count = words_of(counts, "path", |_| String::from_str(alloc, text))?;
    Ok(*count)
}

#[test]
fn a_document_is_counted_once(rt: HostRuntime) -> Result<(), Fail> {
    let arena = Bump::new(rt.alloc());
    let mut counts = ParsedCache::new(rt.alloc(), &arena);
    for text in ["best friend", "another text of five words"] {
        assert!(rt; matches!(counted(rt.alloc(), &mut counts, text), Ok(2)));
    }
    Ok(())
}

/// Returns whether a run on a map has the expected replies.
fn is_answered(alloc: Global) -> Result<bool, AllocError> {
    let arena = Bump::new(alloc);
    let mut map: FrozenMap<'_, u64, Own<u64>> = FrozenMap::new(alloc, &arena);
    let commands = Vec::from_array(alloc, [MapCommand::Insert(7, Own(1)), MapCommand::Len])?;
    let replies = replies_of_map(&mut map, commands)?;
    Ok(replies.as_slice() == [MapReply::Item(&1), MapReply::Count(1)].as_slice())
}

#[test]
fn a_run_gives_a_reply_a_command(rt: HostRuntime) -> Result<(), Fail> {
    assert!(rt; is_answered(rt.alloc())?);
    Ok(())
}

// The tenth Fibonacci number is 55. That of 93 is the last one below 2^64.
#[test]
fn a_memo_table_under_a_lock_had_a_wrong_number(rt: HostRuntime) -> Result<(), Fail> {
    let table = memo(rt.alloc());
    assert_eq!(rt; number(&rt, &table, 10)?, Some(55));
    assert_eq!(rt; number(&rt, &table, 93)?, Some(12_200_160_415_121_876_738));
    assert_eq!(rt; number(&rt, &table, 94)?, None);
    Ok(())
}
