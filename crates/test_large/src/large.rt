//! A hundred thousand names, runs of a thousand commands and long texts: no call fails because of
//! the size.
use bumpalo::Bump;
use elsa::cache::{CacheFault, ParsedCache};
use elsa::interner::Interner;
use elsa::run::{MapCommand, VecCommand, run_map, run_vec};
use elsa::{FrozenMap, FrozenVec, Own};
use std::alloc::{AllocError, Global};
use std::convert::Infallible;
use std::test::Fail;

/// Makes a text of this many bytes that ends with `end`.
fn long(alloc: Global, count: usize, end: &str) -> Result<String, AllocError> {
    let mut text = String::new(alloc);
    for _ in end.len()..count {
        text.push_str("x")?;
    }
    text.push_str(end)?;
    Ok(text)
}

#[test]
fn a_cache_takes_a_long_path_and_a_long_text(rt: HostRuntime) -> Result<(), Fail> {
    let (alloc, arena) = (rt.alloc(), Bump::new(rt.alloc()));
    let path = long(alloc, 2000, "path")?;
    let mut cache: ParsedCache<'_, usize> = ParsedCache::new(alloc, &arena);
    let parsed: Result<&usize, CacheFault<AllocError, Infallible>> = cache.get_or_parse(
        path.as_str(),
        |_| long(alloc, 2000, "text"),
        |text| Ok(text.len()),
    );
    assert!(rt; matches!(parsed, Ok(2000)));
    Ok(())
}

#[test]
fn an_interner_numbers_more_than_a_hundred_thousand_names(rt: HostRuntime) -> Result<(), Fail> {
    let arena = Bump::new(rt.alloc());
    let mut names = Interner::new(rt.alloc(), &arena);
    for number in 0..120_000 {
        let mut bytes = [b'a'; 4];
        let mut rest = number;
        for letter in bytes.iter_mut() {
            *letter += (rest % 26) as u8;
            rest /= 26;
        }
        let name = std::str::from_utf8(&bytes).map_err(|_| "no text")?;
        assert_eq!(rt; names.put(name)?, number);
    }
    assert_eq!(rt; (names.len(), names.put("aaaa")?), (120_000, 0));
    assert_eq!(rt;
        names.put(long(rt.alloc(), 2000, "name")?.as_str())?,
        120_000
    );
    Ok(())
}

#[test]
fn a_name_may_have_hundreds_of_thousands_of_bytes(rt: HostRuntime) -> Result<(), Fail> {
    let arena = Bump::new(rt.alloc());
    let text = long(rt.alloc(), 300_000, "the end")?;
    let mut names = Interner::new(rt.alloc(), &arena);
    assert_eq!(rt; (names.put("short")?, names.put(text.as_str())?), (0, 1));
    assert_eq!(rt; names.find(text.as_str()), Some(1));
    assert!(rt; names.at(1) == Some(text.as_str()));
    Ok(())
}

#[test]
fn runs_make_a_thousand_calls(rt: HostRuntime) -> Result<(), Fail> {
    let arena = Bump::new(rt.alloc());
    let mut items: FrozenVec<'_, Own<usize>> = FrozenVec::new(rt.alloc(), &arena);
    let mut map: FrozenMap<'_, usize, Own<usize>> = FrozenMap::new(rt.alloc(), &arena);
    let (mut pushes, mut insertions) = (Vec::new(rt.alloc()), Vec::new(rt.alloc()));
    for number in 0..1000 {
        pushes.push(VecCommand::Push(Own(number)))?;
        insertions.push(MapCommand::Insert(number, Own(number)))?;
    }
    assert_eq!(rt; run_vec(&mut items, pushes)?.len(), 1000);
    assert_eq!(rt; (items.len(), items.last()), (1000, Some(&999)));
    assert_eq!(rt; run_map(&mut map, insertions)?.len(), 1000);
    assert_eq!(rt; (map.len(), map.get(&999)), (1000, Some(&999)));
    Ok(())
}
