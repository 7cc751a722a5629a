//! Interners: texts that are in the arena aren't copied, and a reader has the names that were put.
use bumpalo::Bump;
use elsa::interner::Interner;
use std::test::*;

#[test]
fn a_placed_text_was_copied(rt: HostRuntime) -> Result<(), Fail> {
    let arena = Bump::new(rt.alloc());
    let mut names = Interner::new(rt.alloc(), &arena);
    let text = arena.try_alloc_str("left right")?;
    let room = arena.chunk_capacity();
    let (left, right) = text.split_once(' ').ok_or("no blank")?;
    for (name, number) in [(left, 0), (right, 1), (left, 0)] {
        assert_eq!(rt; names.put_placed(name)?, number);
    }
    assert_eq!(rt; (names.at(1), names.put("right")?), (Some(right), 1));
    assert_eq!(rt; arena.chunk_capacity(), room);
    Ok(())
}

#[test]
fn a_reader_read_something_else_than_was_put(rt: HostRuntime) -> Result<(), Fail> {
    let arena = Bump::new(rt.alloc());
    let mut names = Interner::new(rt.alloc(), &arena);
    for name in ["x", "y", "z"] {
        let _ = names.put(name)?;
    }
    for (number, name) in names.iter().enumerate() {
        assert_eq!(rt; names.find(name), Some(number));
    }
    assert_eq!(rt; (names.len(), names[0]), (3, "x"));
    let reader = names.into_reader();
    assert_eq!(rt; (reader.find("y"), reader[0]), (Some(1), "x"));
    assert_eq!(rt;
        format!(in rt.alloc(); "{reader:?}")?.as_str(),
        "[\"x\", \"y\", \"z\"]"
    );
    Ok(())
}
