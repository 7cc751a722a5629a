//! A cache of parsed texts over a budget: each request is denied in turn, and every block is
//! deallocated.
use bumpalo::Bump;
use elsa::cache::{CacheFault, ParsedCache};
use std::alloc::{AllocError, Global};
use std::convert::Infallible;
use std::hash::{BuildHasherDefault, FoldHasher};
use std::test::Fail;
use test_alloc::Budget;

type Cache<'a, 'b> = ParsedCache<'a, usize, BuildHasherDefault<FoldHasher>, &'b Budget<Global>>;

type Length<'a> = Result<&'a usize, CacheFault<AllocError, Infallible>>;

const PATHS: [&str; 12] = ["a", "b", "c", "d", "e", "f", "g", "h", "i", "j", "k", "l"];

/// Returns the length of the text at a path. The text is the path twice.
fn length_at<'a>(alloc: Global, cache: &mut Cache<'a, '_>, path: &str) -> Length<'a> {
    cache.get_or_parse(
        path,
        |path| {
            let mut text = String::new(alloc);
            text.push_str(path)?;
            text.push_str(path)?;
            Ok(text)
        },
        |text| Ok(text.len()),
    )
}

#[test]
fn a_parsed_cache_gives_every_block_back(rt: HostRuntime) -> Result<(), Fail> {
    let mut number = 0;
    // Denies each request in turn, and then none.
    loop {
        let (heap, arena) = (Budget::new(rt.alloc()), Bump::new(rt.alloc()));
        heap.refuse(number, number + 1);
        let mut cache: Cache<'_, '_> = ParsedCache::new(&heap, &arena);
        let mut failures = 0;
        for path in PATHS {
            if length_at(rt.alloc(), &mut cache, path) != Ok(&2) {
                failures += 1;
            }
            let got = length_at(rt.alloc(), &mut cache, path);
            assert_eq!(rt; got, Ok(&2), "request {number}");
        }
        let got = (cache.len(), failures);
        assert_eq!(rt; got, (PATHS.len(), heap.refused()), "request {number}");
        drop(cache);
        assert_eq!(rt; heap.given(), heap.granted(), "request {number}");
        if heap.refused() == 0 {
            break;
        }
        number += 1;
    }
    assert!(rt; number > 0);
    Ok(())
}

#[test]
fn a_parsed_path_asks_for_nothing(rt: HostRuntime) -> Result<(), Fail> {
    let (heap, arena) = (Budget::new(rt.alloc()), Bump::new(rt.alloc()));
    assert!(rt; arena.try_alloc_str("a first text").is_ok() && arena.chunk_capacity() > 200);
    let mut cache: Cache<'_, '_> = ParsedCache::new(&heap, &arena);
    assert_eq!(rt; length_at(rt.alloc(), &mut cache, "path"), Ok(&8));
    let before = (heap.asked(), arena.chunk_capacity());
    assert_eq!(rt; length_at(rt.alloc(), &mut cache, "path"), Ok(&8));
    let got = (cache.get("path"), cache.text("path"));
    assert_eq!(rt; got, (Some(&8), Some("pathpath")));
    assert_eq!(rt; (heap.asked(), arena.chunk_capacity()), before);
    Ok(())
}
