//! Facts of the caches that no clause states: the number of calls of each closure, what an
//! allocation failure leaves, which paths are copied, slices that outlive the cache, and the first
//! characters of known texts.
use bumpalo::Bump;
use elsa_cache::{CacheFault, LoadFault, ParsedCache, ResourceCache};
use std::alloc::Global;
use std::convert::Infallible;
use std::test::Fail;
use test_script::leave_room;

/// A text up to its first space, and after it.
type Halves<'a> = (&'a str, &'a str);

type Fault = CacheFault<LoadFault, ()>;

fn owned(alloc: Global, text: &str) -> Result<String, LoadFault> {
    String::from_str(alloc, text).map_err(|_| LoadFault::Memory)
}

/// Returns the halves of the text at a path. `file` is loaded as that text; if it is `None`, there
/// is no file. Counts the calls of the loader and of the parser. The path is a text that ends with
/// this call.
fn at<'a>(
    alloc: Global,
    cache: &mut ParsedCache<'a, Halves<'a>>,
    path: &str,
    file: Option<&str>,
    (loads, parses): (&mut u32, &mut u32),
) -> Result<Halves<'a>, Fault> {
    let path = owned(alloc, path).map_err(|_| CacheFault::Memory)?;
    let made = cache.get_or_parse(
        path.as_str(),
        |_| {
            *loads += 1;
            owned(alloc, file.ok_or(LoadFault::NotFound)?)
        },
        |text| {
            *parses += 1;
            text.split_once(' ').ok_or(())
        },
    )?;
    Ok(*made)
}

#[test]
fn a_path_was_loaded_or_parsed_once_more_or_not_again(rt: HostRuntime) -> Result<(), Fail> {
    let arena = Bump::new(rt.alloc());
    let mut cache: ParsedCache<'_, Halves<'_>> = ParsedCache::new(rt.alloc(), &arena);
    let (mut loads, mut parses) = (0, 0);
    let missing = Err(CacheFault::Load(LoadFault::NotFound));
    let unparsed = Err(CacheFault::Parse(()));
    let (both, text, bad) = (Ok(("left", "right")), Some("left right"), Some("spaceless"));
    for (path, file, wanted, calls, text, count) in [
        ("menu", text, both, (1, 1), text, 1),
        ("menu", Some("other text"), both, (1, 1), text, 1),
        ("menu", None, both, (1, 1), text, 1),
        // A path without a file is loaded again.
        ("gone", None, missing, (2, 1), None, 1),
        ("gone", Some("a b"), Ok(("a", "b")), (3, 2), Some("a b"), 2),
        // A text that can't be parsed stays, and is parsed again.
        ("bad", bad, unparsed, (4, 3), bad, 2),
        ("bad", Some("c d"), unparsed, (4, 4), bad, 2),
    ] {
        let found = at(
            rt.alloc(),
            &mut cache,
            path,
            file,
            (&mut loads, &mut parses),
        );
        let got = (found, (loads, parses), cache.text(path), cache.len());
        assert_eq!(rt; got, (wanted, calls, text, count), "{path} {file:?}");
        assert_eq!(rt; cache.get(path).copied(), wanted.ok(), "{path} {file:?}");
    }
    let kept = (cache.get("menu").copied(), cache.text("menu"));
    drop(cache);
    assert_eq!(rt; kept, (Some(("left", "right")), Some("left right")));
    Ok(())
}

/// Checks which allocation failure requires another load. A path has 12 bytes and its text 10. With
/// room for two times 8 bytes the text doesn't fit; with room for three, the text fits, and the
/// copy of the path doesn't.
#[test]
fn a_denied_text_was_not_loaded_again_or_a_denied_value_was(rt: HostRuntime) -> Result<(), Fail> {
    for (room, loaded) in [(0, 2), (2, 2), (3, 1)] {
        let arena = Bump::new(rt.alloc());
        let mut cache: ParsedCache<'_, Halves<'_>> = ParsedCache::new(rt.alloc(), &arena);
        let (mut loads, mut parses) = (0, 0);
        leave_room(&arena, room);
        for wanted in [Err(CacheFault::Memory), Ok(("aardvark", "b"))] {
            let (file, calls) = (Some("aardvark b"), (&mut loads, &mut parses));
            let found = at(rt.alloc(), &mut cache, "somefile.ftl", file, calls);
            assert_eq!(rt; (room, found), (room, wanted));
            assert_eq!(rt; (room, cache.len()), (room, found.is_ok() as usize));
            arena.set_allocation_limit(None);
        }
        assert_eq!(rt; (room, loads), (room, loaded));
    }
    Ok(())
}

#[test]
fn a_path_that_is_in_the_arena_was_copied(rt: HostRuntime) -> Result<(), Fail> {
    let arena = Bump::new(rt.alloc());
    let mut cache: ParsedCache<'_, &str> = ParsedCache::new(rt.alloc(), &arena);
    // The text of 7 bytes and the value of 16 fit; a copy of the path, of 49 bytes, would not.
    leave_room(&arena, 4);
    let path = "a/path/that/has/more/bytes/than/there/is/room.ftl";
    let (mut loads, mut parses) = (0, 0);
    for loaded in [" left  ", " other "] {
        let trimmed = cache.get_or_parse_placed(
            path,
            |_| {
                loads += 1;
                owned(rt.alloc(), loaded)
            },
            |text| -> Result<&str, Infallible> {
                parses += 1;
                Ok(text.trim())
            },
        )?;
        assert_eq!(rt; *trimmed, "left");
    }
    assert_eq!(rt; (loads, parses, cache.text(path)), (1, 1, Some(" left  ")));
    Ok(())
}

#[test]
fn a_resource_had_another_first_character_or_was_loaded_again(rt: HostRuntime) -> Result<(), Fail> {
    let arena = Bump::new(rt.alloc());
    let mut cache = ResourceCache::new(rt.alloc(), &arena);
    let mut calls = 0;
    for (path, file, wanted, loads) in [
        ("somefile.ftl", Some("file for somefile.ftl"), Ok("f"), 1),
        ("b", Some("été"), Ok("é"), 2),
        ("c", Some(""), Ok(""), 3),
        ("d", None, Err(LoadFault::NotFound), 4),
        ("d", Some("file for d"), Ok("f"), 5),
        ("d", Some("another"), Ok("f"), 5),
    ] {
        let resource = cache.get_resource(path, |_| {
            calls += 1;
            owned(rt.alloc(), file.ok_or(LoadFault::NotFound)?)
        });
        let got = (resource.map(|it| it.get()), calls);
        assert_eq!(rt; got, (wanted, loads), "{path} {file:?}");
    }
    Ok(())
}
