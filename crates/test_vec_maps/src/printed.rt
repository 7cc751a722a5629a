//! The output of `{:?}` of the collections.
use bumpalo::Bump;
use elsa_maps::map::{FrozenBTreeMap, FrozenMap};
use elsa_vec::stable::Own;
use elsa_vec::vec::FrozenVec;
use std::test::*;

#[test]
fn a_collection_printed_other_content(rt: HostRuntime) -> Result<(), Fail> {
    let (alloc, arena) = (rt.alloc(), Bump::new(rt.alloc()));
    let mut names: FrozenVec<'_, &str> = FrozenVec::new(alloc, &arena);
    let mut hashed: FrozenMap<'_, &str, Own<u64>> = FrozenMap::new(alloc, &arena);
    let empty = format!(in alloc; "{names:?} {hashed:?}")?;
    assert_eq!(rt; empty.as_str(), "[] {}");
    names.extend(["a\"b", "c"])?;
    hashed.insert("a", Own(1))?;
    let mut numbers: FrozenVec<'_, Own<u64>> = FrozenVec::new(alloc, &arena);
    numbers.extend([Own(1), Own(2)])?;
    let mut ordered: FrozenBTreeMap<'_, u64, &str> = FrozenBTreeMap::new(alloc, &arena);
    ordered.extend([(2, "b"), (1, "a"), (2, "z")])?;
    for (printed, wanted) in [
        (format!(in alloc; "{names:?}")?, "[\"a\\\"b\", \"c\"]"),
        (format!(in alloc; "{numbers:?}")?, "[1, 2]"),
        (format!(in alloc; "{numbers:#?}")?, "[\n    1,\n    2,\n]"),
        (format!(in alloc; "{hashed:?}")?, "{\"a\": 1}"),
        (format!(in alloc; "{ordered:?}")?, "{1: \"a\", 2: \"b\"}"),
    ] {
        assert_eq!(rt; printed.as_str(), wanted);
    }
    Ok(())
}
