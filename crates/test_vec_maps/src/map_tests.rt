//! The maps: worked cases, upstream's cases, keys with one hash or no hash, and the functions of
//! the laws.
ghost use Rattle.std.specs.Prelude.{[], refl};

use bumpalo::Bump;
use elsa_maps::map::laws::{inserted_apart, is_new_once, keeps_earlier_values};
use elsa_maps::map::{FrozenBTreeMap, FrozenMap};
use elsa_vec::stable::Own;
use std::collections::BTreeMap;
use std::hash::{BuildHasherDefault, Hash, Hasher, RandomState};
use std::test::Fail;

type Hashed<'a> = FrozenMap<'a, u64, &'a str>;

type Ordered<'a> = FrozenBTreeMap<'a, u64, &'a str>;

// A key that has the same hash as every other.
#[derive(Clone, Copy, Drop, PartialEq, Eq)]
struct SameHash(u32);

impl Hash for SameHash {
    ghost hash_input = { λ _. [] };

    ghost respects_eq = { λ x y h. refl };

    fn hash<H: Hasher>(&self, _state: &mut H) {}
}

// A key that is ordered and has no hash.
#[derive(Clone, Copy, Debug, Drop, PartialEq, Eq, PartialOrd, Ord)]
struct NoHash(u32);

const PAIRS: [(u64, &str); 4] = [(20, "bb"), (1, "a"), (300, "ccc"), (1, "zzzzz")];

const FIRST: [(u64, &str); 3] = [(1, "a"), (20, "bb"), (300, "ccc")];

const LAST: [(u64, &str); 3] = [(1, "zzzzz"), (20, "bb"), (300, "ccc")];

#[test]
fn a_walk_over_a_hashed_map_missed_an_entry(rt: HostRuntime) -> Result<(), Fail> {
    let (alloc, arena) = (rt.alloc(), Bump::new(rt.alloc()));
    let mut map: Hashed<'_> = FrozenMap::new(alloc, &arena);
    map.extend(PAIRS)?;
    let mut entries: Vec<(u64, &str)> = map.iter().map(|(key, text)| (*key, *text)).collect(alloc)?;
    entries.sort_unstable();
    assert_eq!(rt; entries.as_slice(), FIRST.as_slice());
    entries.clear();
    for (key, text) in &map {
        entries.push((*key, *text))?;
    }
    entries.sort_unstable();
    assert_eq!(rt; entries.as_slice(), FIRST.as_slice());
    let mut keys: Vec<u64> = map.keys().copied().collect(alloc)?;
    keys.sort_unstable();
    assert_eq!(rt; keys.as_slice(), [1, 20, 300].as_slice());
    let mut texts: Vec<&str> = map.values().copied().collect(alloc)?;
    texts.sort_unstable();
    assert_eq!(rt; texts.as_slice(), ["a", "bb", "ccc"].as_slice());
    let got = [map.contains_key(&20), map.contains_key(&21)];
    assert_eq!(rt; got, [true, false]);
    Ok(())
}

#[test]
fn a_walk_over_an_ordered_map_missed_an_entry(rt: HostRuntime) -> Result<(), Fail> {
    let (alloc, arena) = (rt.alloc(), Bump::new(rt.alloc()));
    let mut map: Ordered<'_> = FrozenBTreeMap::new(alloc, &arena);
    map.extend(PAIRS)?;
    let entries: Vec<(u64, &str)> = map.iter().map(|(key, text)| (*key, *text)).collect(alloc)?;
    assert_eq!(rt; entries.as_slice(), FIRST.as_slice());
    let keys: Vec<u64> = map.keys().copied().collect(alloc)?;
    assert_eq!(rt; keys.as_slice(), [1, 20, 300].as_slice());
    let texts: Vec<&str> = map.values().copied().collect(alloc)?;
    assert_eq!(rt; texts.as_slice(), ["a", "bb", "ccc"].as_slice());
    Ok(())
}

#[test]
fn collecting_kept_an_earlier_value(rt: HostRuntime) -> Result<(), Fail> {
    let (alloc, arena) = (rt.alloc(), Bump::new(rt.alloc()));
    let hashed: Hashed<'_> = FrozenMap::from_iter(alloc, &arena, BuildHasherDefault::new(), PAIRS)?;
    let ordered: Ordered<'_> = FrozenBTreeMap::from_iter(alloc, &arena, PAIRS)?;
    assert_eq!(rt; (hashed.len(), ordered.len()), (3, 3));
    for (key, text) in LAST {
        let got = (hashed.get(&key), ordered.get(&key));
        assert_eq!(rt; got, (Some(text), Some(text)), "{key}");
    }
    assert_eq!(rt; (hashed.get(&2), ordered.get(&2)), (None, None));
    Ok(())
}

#[test]
fn equality_asked_for_a_hash_or_an_order(rt: HostRuntime) -> Result<(), Fail> {
    let arena = Bump::new(rt.alloc());
    let up = [(NoHash(1), Own(10)), (NoHash(2), Own(20))];
    let down = [(NoHash(2), Own(20)), (NoHash(1), Own(10))];
    let mut one: FrozenBTreeMap<'_, NoHash, Own<u32>> = FrozenBTreeMap::from_iter(
        rt.alloc(),
        &arena,
        up,
    )?;
    let other = FrozenBTreeMap::from_iter(rt.alloc(), &arena, down)?;
    assert_eq!(rt; one, other);
    let otherwise = [(NoHash(1), Own(10)), (NoHash(2), Own(21))];
    assert_ne!(rt;
        one,
        FrozenBTreeMap::from_iter(rt.alloc(), &arena, otherwise)?
    );
    one.insert(NoHash(3), Own(30))?;
    assert_ne!(rt; one, other);
    Ok(())
}

#[test]
fn keys_with_one_hash_were_taken_for_one_key(rt: HostRuntime) -> Result<(), Fail> {
    let arena = Bump::new(rt.alloc());
    let mut map: FrozenMap<'_, SameHash, Own<u32>> = FrozenMap::new(rt.alloc(), &arena);
    for number in 0..200 {
        map.insert(SameHash(number), Own(number))?;
    }
    for number in 0..200 {
        assert_eq!(rt; map.get(&SameHash(number)), Some(&number));
    }
    assert_eq!(rt; (map.len(), map.get(&SameHash(200))), (200, None));
    Ok(())
}

#[test]
fn a_clone_of_a_hashed_map_shared_its_entries(rt: HostRuntime) -> Result<(), Fail> {
    let (alloc, arena) = (rt.alloc(), Bump::new(rt.alloc()));
    let hasher = RandomState::new(&rt)?;
    let mut map: FrozenMap<'_, u32, &str, RandomState> = FrozenMap::with_hasher(
        alloc, &arena, hasher,
    );
    map.insert(1, "a")?;
    let copy = map.clone()?;
    assert_eq!(rt; map, copy);
    let copy = inserted_apart(&mut map, copy, (1, "c"), (2, "b"))?;
    assert_ne!(rt; map, copy);
    assert_eq!(rt; (map.get(&1), map.get(&2)), (Some("a"), None));
    assert_eq!(rt; copy.inner().get_key_value(&2), Some((&2, &"b")));
    let inner = copy.into_map();
    let got = (inner.get(&1), inner.get(&2), inner.len());
    assert_eq!(rt; got, (Some(&"a"), Some(&"b"), 2));
    let again: FrozenMap<'_, u32, &str, RandomState> = FrozenMap::from_map(alloc, &arena, inner);
    assert_eq!(rt; (again[&1], again[&2], again.len()), ("a", "b", 2));
    Ok(())
}

#[test]
fn a_clone_of_an_ordered_map_shared_its_entries(rt: HostRuntime) -> Result<(), Fail> {
    let (alloc, arena) = (rt.alloc(), Bump::new(rt.alloc()));
    let mut map: FrozenBTreeMap<'_, String, &str> = FrozenBTreeMap::new(alloc, &arena);
    let (first, key) = (
        String::from_str(alloc, "first")?,
        String::from_str(alloc, "x")?,
    );
    let copy = map.clone()?;
    let copy = inserted_apart(&mut map, copy, (first, "b"), (key.clone()?, "a"))?;
    assert_eq!(rt; (map.get("first"), map.get("x")), (Some("b"), None));
    let mut later = copy.clone()?;
    assert_eq!(rt; later.insert(key, "c")?, "a");
    let got = (later.get("x"), later.get("first"), later.len());
    assert_eq!(rt; got, (Some("a"), None, 1));
    Ok(())
}

#[test]
fn an_inner_map_was_not_the_base(rt: HostRuntime) -> Result<(), Fail> {
    let (alloc, arena) = (rt.alloc(), Bump::new(rt.alloc()));
    let mut base: BTreeMap<u64, &str> = BTreeMap::new(alloc);
    base.insert(1, "base")?;
    let mut map: Ordered<'_> = FrozenBTreeMap::from_map(alloc, &arena, base);
    assert_eq!(rt; map.insert(1, "a")?, "base");
    map.as_mut().remove(&1);
    assert_eq!(rt; map.insert(1, "a")?, "a");
    assert_eq!(rt; (map[&1], map.inner().len()), ("a", 1));
    let inner = map.clone()?.into_map();
    assert_eq!(rt; (inner.get(&1), inner.len()), (Some(&"a"), 1));
    let again: Ordered<'_> = FrozenBTreeMap::from_map(alloc, &arena, inner);
    assert_eq!(rt; again, map);
    Ok(())
}

#[test]
fn a_law_of_insertions_had_another_result(rt: HostRuntime) -> Result<(), Fail> {
    let arena = Bump::new(rt.alloc());
    let mut map: Hashed<'_> = FrozenMap::new(rt.alloc(), &arena);
    assert_eq!(rt; keeps_earlier_values(&mut map, 1, "a")?, ("a", true));
    for (key, first, again) in [
        (1, ("a", false), ("a", false)),
        (3, ("c", true), ("c", false)),
    ] {
        let between = Vec::from_array(rt.alloc(), [(2, "b")])?;
        let told = is_new_once(&mut map, (key, "c"), between, (key, "d"))?;
        assert_eq!(rt; (key, told, map.get(&2)), (key, (first, again), Some("b")));
    }
    Ok(())
}
