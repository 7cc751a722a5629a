//! The interners that threads share, by `elsa` alone: their handles and views, texts of any length
//! in an arena or in a buffer, and shards.
use bumpalo::Bump;
use elsa::SeededState;
use elsa::interner::{Name, NameHandle, ShardedInterner, SharedInterner, TextBuffer};
use std::hash::{BuildHasherDefault, FoldHasher};
use std::test::Fail;
use test_alloc::Budget;

type Words<'a> = SharedInterner<&'a str>;

const LONG: &str = "a name of more bytes than a short one can have";

#[test]
fn a_call_of_a_handle_of_names_had_a_wrong_result(rt: HostRuntime) -> Result<(), Fail> {
    let (alloc, arena) = (rt.alloc(), Bump::new(rt.alloc()));
    let words = Words::new(alloc)?;
    let mut one = words.handle();
    assert_eq!(rt; [one.put(&rt, "fox")?, one.put(&rt, "fox")?], [0, 0]);
    assert_eq!(rt; one.put_text(&rt, &arena, "owl")?, 1);
    assert_eq!(rt; one.put_text(&rt, &arena, "fox")?, 0);
    let found = [one.find("fox"), one.find(&"owl"), one.find("hen")];
    assert_eq!(rt; found, [Some(0), Some(1), None]);
    assert_eq!(rt;
        [one.at(0), one.at(1), one.at(2)],
        [Some("fox"), Some("owl"), None]
    );
    let printed = format!(in alloc; "{words:?}")?;
    assert_eq!(rt; printed.as_str(), "[\"fox\", \"owl\"]");
    let mut seen = NameHandle::of(&words, words.pass());
    let mut fresh = words.handle();
    assert_eq!(rt; (seen.len(), fresh.seen_len()), (2, 0));
    seen.one_to_one();
    seen.same_index(&fresh);
    fresh.meet(&mut seen);
    let pass = fresh.into_pass();
    assert_eq!(rt;
        (pass.seen_len(), NameHandle::of(&words, pass).len()),
        (2, 2)
    );
    Ok(())
}

#[test]
fn a_view_of_names_had_a_wrong_result_or_lost_one_in_a_merge(rt: HostRuntime) -> Result<(), Fail> {
    let (alloc, arena) = (rt.alloc(), Bump::new(rt.alloc()));
    let (first, same) = (arena.try_alloc_str(LONG)?, arena.try_alloc_str(LONG)?);
    let words = Words::new(alloc)?;
    let (mut one, mut other) = (words.pass(), words.pass());
    for (name, number) in [(first, 0), (same, 0), ("b", 1)] {
        assert_eq!(rt; words.put(&rt, &mut one, name)?, number, "{name}");
    }
    assert_eq!(rt;
        (words.at(&mut one, 0), words.at(&mut one, 1)),
        (Some(LONG), Some("b"))
    );
    assert_eq!(rt; (one.seen_len(), other.seen_len()), (2, 0));
    one.meet(&mut other);
    assert_eq!(rt; (one.seen_len(), other.seen_len()), (2, 2));
    let names = SharedInterner::with_hasher(alloc, SeededState::with_seed(1, 2))?;
    let Ok(fox) = Name::new("fox") else {
        return Err(Fail::new("a name of three letters was too long"));
    };
    let (mut one, mut other) = (names.pass(), names.pass());
    assert_eq!(rt; (names.put(&rt, &mut one, fox)?, other.seen_len()), (0, 0));
    other.meet(&mut one);
    assert_eq!(rt; other.seen_len(), 1);
    assert_eq!(rt; NameHandle::of(&names, other).find(&fox), Some(0));
    let printed = format!(in alloc; "{names:?}")?;
    assert_eq!(rt; printed.as_str(), "[\"fox\"]");
    Ok(())
}

#[test]
fn a_text_was_copied_twice_into_its_buffer(rt: HostRuntime) -> Result<(), Fail> {
    let mut bytes = [0u8; 16];
    let mut buffer = TextBuffer::new(&mut bytes);
    let names: Words<'_> = SharedInterner::new(rt.alloc())?;
    let mut handle = names.handle();
    for _ in 0..2 {
        assert_eq!(rt; handle.put_text(&rt, &mut buffer, "best friend")?, 0);
        assert_eq!(rt; (handle.find("best friend"), buffer.room()), (Some(0), 5));
    }
    Ok(())
}

#[test]
fn an_arena_that_was_denied_a_request_lost_a_text_or_a_block(rt: HostRuntime) -> Result<(), Fail> {
    let heap = Budget::new(rt.alloc());
    let arena = Bump::new(&heap);
    let words = Words::new(rt.alloc())?;
    let mut names = words.handle();
    heap.refuse(0, u64::MAX);
    assert!(rt; names.put_text(&rt, &arena, LONG).is_err());
    heap.refuse_next(0);
    assert_eq!(rt;
        (names.put_text(&rt, &arena, LONG)?, names.at(0)),
        (0, Some(LONG))
    );
    drop(names);
    drop(words);
    drop(arena);
    assert!(rt; heap.granted() > 0);
    assert_eq!(rt; heap.given(), heap.granted());
    Ok(())
}

#[test]
fn shards_of_names_gave_one_two_numbers_or_had_another_number(rt: HostRuntime) -> Result<(), Fail> {
    let words: ShardedInterner<&str> = ShardedInterner::new(rt.alloc())?;
    let (mut one, mut other) = (words.handle()?, words.handle()?);
    one.same_name_same_number(&other);
    let fox = one.put(&rt, "fox")?;
    assert_eq!(rt; (other.put(&rt, "fox")?, one.find("fox")), (fox, Some(fox)));
    assert_eq!(rt; other.seen_len(), 1);
    let hasher: BuildHasherDefault<FoldHasher> = BuildHasherDefault::new();
    let words: ShardedInterner<&str> = ShardedInterner::with_shards(rt.alloc(), 7, hasher)?;
    assert_eq!(rt; words.handle()?.shards().len(), 7);
    Ok(())
}
