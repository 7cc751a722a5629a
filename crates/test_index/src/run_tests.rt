//! Runs of commands on each collection, with the reply that each command must have.
use bumpalo::Bump;
use elsa_index::index_set::FrozenIndexSet;
use elsa_maps::index_map::FrozenIndexMap;
use elsa_maps::map::FrozenMap;
use elsa_run::run::{run_index, run_map, run_set, run_vec};
use elsa_run::run_index::{IndexCommand, IndexReply};
use elsa_run::run_map::{MapCommand, MapReply};
use elsa_run::run_set::{SetCommand, SetReply};
use elsa_run::run_vec::{VecCommand, VecReply};
use elsa_vec::vec::FrozenVec;
use indexmap::IndexMap;
use std::alloc::{AllocError, Global};
use std::collections::HashMap;
use std::hash::{BuildHasherDefault, FoldHasher};
use std::test::Fail;

/// Returns the commands of the rows, and the replies.
fn split<C: Drop, R: Drop, const N: usize>(
    alloc: Global,
    rows: [(C, R); N],
) -> Result<(Vec<C>, Vec<R>), AllocError> {
    let (mut commands, mut replies) = (Vec::new(alloc), Vec::new(alloc));
    for (command, reply) in Vec::from_array(alloc, rows)? {
        commands.push(command)?;
        replies.push(reply)?;
    }
    Ok((commands, replies))
}

#[test]
fn a_run_on_a_vector_had_another_reply(rt: HostRuntime) -> Result<(), Fail> {
    let (alloc, arena) = (rt.alloc(), Bump::new(rt.alloc()));
    let (commands, wanted) = split(
        alloc,
        [
            (VecCommand::IsEmpty, VecReply::Flag(true)),
            (VecCommand::Get(0), VecReply::Found(None)),
            (VecCommand::Get(usize::MAX), VecReply::Found(None)),
            (VecCommand::First, VecReply::Found(None)),
            (VecCommand::Last, VecReply::Found(None)),
            (VecCommand::Push("a"), VecReply::Done),
            (VecCommand::PushGet("b"), VecReply::Item("b")),
            (VecCommand::Push("c"), VecReply::Done),
            (VecCommand::Len, VecReply::Count(3)),
            (VecCommand::IsEmpty, VecReply::Flag(false)),
            (VecCommand::Get(0), VecReply::Found(Some("a"))),
            (VecCommand::Get(1), VecReply::Found(Some("b"))),
            (VecCommand::Get(2), VecReply::Found(Some("c"))),
            (VecCommand::Get(3), VecReply::Found(None)),
            (VecCommand::Get(usize::MAX), VecReply::Found(None)),
            (VecCommand::First, VecReply::Found(Some("a"))),
            (VecCommand::Last, VecReply::Found(Some("c"))),
            (VecCommand::Rebase(vec![in alloc; "z"]?), VecReply::Done),
            (VecCommand::Last, VecReply::Found(Some("z"))),
            (VecCommand::Len, VecReply::Count(1)),
        ],
    )?;
    let mut items: FrozenVec<'_, &str> = FrozenVec::new(alloc, &arena);
    assert_eq!(rt;
        run_vec(&mut items, commands)?.as_slice(),
        wanted.as_slice()
    );
    Ok(())
}

#[test]
fn a_run_on_a_hashed_map_had_another_reply(rt: HostRuntime) -> Result<(), Fail> {
    let (alloc, arena) = (rt.alloc(), Bump::new(rt.alloc()));
    let mut base = HashMap::new(alloc);
    base.insert(2, "z")?;
    // The first value of a key stays, by any kind of insertion.
    let (commands, wanted) = split(
        alloc,
        [
            (MapCommand::IsEmpty, MapReply::Flag(true)),
            (MapCommand::Insert(1, "a"), MapReply::Item("a")),
            (MapCommand::Insert(1, "b"), MapReply::Item("a")),
            (MapCommand::InsertNew(1, "c"), MapReply::New("a", false)),
            (MapCommand::Len, MapReply::Count(1)),
            (MapCommand::Rebase(base), MapReply::Done),
            (MapCommand::Get(1), MapReply::Found(None)),
            (MapCommand::Get(2), MapReply::Found(Some("z"))),
            (MapCommand::Rebase(HashMap::new(alloc)), MapReply::Done),
            (MapCommand::IsEmpty, MapReply::Flag(true)),
            (MapCommand::InsertNew(1, "a"), MapReply::New("a", true)),
            (MapCommand::InsertNew(1, "b"), MapReply::New("a", false)),
            (MapCommand::Insert(1, "c"), MapReply::Item("a")),
            (MapCommand::IsEmpty, MapReply::Flag(false)),
            (MapCommand::Len, MapReply::Count(1)),
        ],
    )?;
    let mut map: FrozenMap<'_, u32, &str> = FrozenMap::new(alloc, &arena);
    assert_eq!(rt; run_map(&mut map, commands)?.as_slice(), wanted.as_slice());
    Ok(())
}

#[test]
fn a_run_on_an_index_map_had_another_reply(rt: HostRuntime) -> Result<(), Fail> {
    let (alloc, arena) = (rt.alloc(), Bump::new(rt.alloc()));
    let base: IndexMap<u32, &str, BuildHasherDefault<FoldHasher>> = IndexMap::with_hasher(
        alloc,
        BuildHasherDefault::new(),
    );
    let (commands, wanted) = split(
        alloc,
        [
            (IndexCommand::IsEmpty, IndexReply::Flag(true)),
            (IndexCommand::InsertFull(12, "a"), IndexReply::Full(0, "a")),
            (
                IndexCommand::InsertNew(12, "c"),
                IndexReply::New("a", false),
            ),
            (
                IndexCommand::InsertFullNew(7, "d"),
                IndexReply::FullNew(1, "d", true),
            ),
            (IndexCommand::Insert(7, "e"), IndexReply::Item("d")),
            (IndexCommand::InsertNew(6, "f"), IndexReply::New("f", true)),
            (IndexCommand::InsertFull(12, "g"), IndexReply::Full(0, "a")),
            (
                IndexCommand::InsertFullNew(12, "g"),
                IndexReply::FullNew(0, "a", false),
            ),
            (IndexCommand::Get(7), IndexReply::Found(Some("d"))),
            (IndexCommand::Get(8), IndexReply::Found(None)),
            (IndexCommand::IndexOf(7), IndexReply::Place(Some(1))),
            (IndexCommand::IndexOf(9), IndexReply::Place(None)),
            (IndexCommand::IsEmpty, IndexReply::Flag(false)),
            (IndexCommand::Rebase(base), IndexReply::Done),
            (IndexCommand::IsEmpty, IndexReply::Flag(true)),
            (IndexCommand::InsertFull(7, "g"), IndexReply::Full(0, "g")),
        ],
    )?;
    let mut map: FrozenIndexMap<'_, u32, &str> = FrozenIndexMap::new(alloc, &arena);
    assert_eq!(rt;
        run_index(&mut map, commands)?.as_slice(),
        wanted.as_slice()
    );
    Ok(())
}

#[test]
fn a_run_on_an_index_set_had_another_reply(rt: HostRuntime) -> Result<(), Fail> {
    let (alloc, arena) = (rt.alloc(), Bump::new(rt.alloc()));
    let mut base: FrozenIndexSet<'_, &str> = FrozenIndexSet::new(alloc, &arena);
    base.insert("b")?;
    let (commands, wanted) = split(
        alloc,
        [
            (SetCommand::Insert("a"), SetReply::Item("a")),
            (SetCommand::InsertFull("b"), SetReply::Full(1, "b")),
            (SetCommand::InsertFull("a"), SetReply::Full(0, "a")),
            (SetCommand::IndexOf("c"), SetReply::Place(None)),
            (SetCommand::At(1), SetReply::Found(Some("b"))),
            (SetCommand::Rebase(base.into_set()), SetReply::Done),
            (SetCommand::IndexOf("b"), SetReply::Place(Some(0))),
            (SetCommand::InsertNew("b"), SetReply::New("b", false)),
            (
                SetCommand::InsertFullNew("c"),
                SetReply::FullNew(1, "c", true),
            ),
            (SetCommand::Get("c"), SetReply::Found(Some("c"))),
        ],
    )?;
    let mut set: FrozenIndexSet<'_, &str> = FrozenIndexSet::new(alloc, &arena);
    assert_eq!(rt; run_set(&mut set, commands)?.as_slice(), wanted.as_slice());
    Ok(())
}
