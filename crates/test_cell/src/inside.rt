//! Calls from inside other calls: in the hash and the comparison of a look-up or an insertion, each
//! insertion fails with `InUse` and each read returns; in the closure of an insertion or of
//! `map_get` each call succeeds.
ghost use Rattle.std.specs.Prelude.{◌==◌};
ghost use Rattle.std.specs.Cmp.{nat_eq_equiv, on_equiv, partial_equiv_from_equiv};
ghost use Rattle.std.specs.Hash as fed;
ghost use Rattle.std.proofs.Common.{ap, eqb-true};

use elsa_cell::{CellFault, Fault, FrozenBTreeMap, FrozenMap, Query, TryFault};
use std::hash::{Hash, Hasher};
use std::sync::atomic::{AtomicU64, Ordering};
use std::test::*;

/// Returns why each insertion of an absent key into a map fails, and its reservation and its guard.
fn failures(map: &FrozenMap<u64, u64>) -> [Option<Fault>; 7] {
    let absent = u64::MAX;
    let made = || -> Result<u64, Fault> { Ok(4) };
    let tried = match map.try_insert_with(absent, made) {
        Err(TryFault::Map(fault)) => Some(Fault::from(fault)),
        _ => None,
    };
    [
        map.hold().map_err(Fault::from).err(),
        map.insert(absent, 2).map_err(Fault::from).err(),
        map.insert_with(absent, || 3).map_err(Fault::from).err(),
        tried,
        map.insert_by(&absent, move || made_pair(absent)).err(),
        map.reserve(1).err(),
        map.insert_new_as(&mut map.observed(), absent, 5)
            .map_err(Fault::from)
            .err(),
    ]
}

/// Each of them fails since the map is in use.
const IN_USE: [Option<Fault>; 7] = [Some(Fault::InUse); 7];

/// Returns an entry with this key.
fn made_pair(key: u64) -> Result<(u64, u64), Fault> {
    Ok((key, 6))
}

#[test]
fn a_closure_did_not_find_what_its_map_has(rt: HostRuntime) -> Result<(), Fail> {
    let map: FrozenMap<u64, u64> = FrozenMap::new(rt.alloc())?;
    map.extend([(0, 0), (1, 1)])?;
    for n in 2..81 {
        let mut observed = map.observed();
        let read = |key: u64| map.get(&key).copied().unwrap_or(0);
        let made = map.insert_with_as(&mut observed, n, || read(n - 1) + read(n - 2))?;
        assert!(rt; made.is_new, "{n}");
    }
    // The eightieth Fibonacci number.
    assert_eq!(rt; map.get(&80), Some(&23416728348467685));
    Ok(())
}

#[test]
fn a_value_from_inside_was_replaced(rt: HostRuntime) -> Result<(), Fail> {
    let map: FrozenMap<u64, u64> = FrozenMap::new(rt.alloc())?;
    let mut observed = map.observed();
    let made = map.insert_with_as(&mut observed, 5, || {
        let _inside = map.insert(5, 2).is_ok();
        7
    })?;
    assert_eq!(rt; (*made.value, made.is_new), (2, false));
    Ok(())
}

#[test]
fn a_closure_that_reads_could_not_insert(rt: HostRuntime) -> Result<(), Fail> {
    let map: FrozenMap<u64, u64> = FrozenMap::new(rt.alloc())?;
    map.insert(1, 10)?;
    let read = map.map_get(&1, |value| map.insert(2, *value * 2).ok().copied());
    assert_eq!(rt; (read, map.len()), (Some(Some(20)), 2));
    let tree: FrozenBTreeMap<u64, u64> = FrozenBTreeMap::new(rt.alloc())?;
    tree.insert(1, 10)?;
    let read = tree.map_get(&1, |value| tree.insert(2, *value * 2).ok().copied());
    assert_eq!(rt; (read, tree.len()), (Some(Some(20)), 2));
    Ok(())
}

#[test]
fn a_guard_from_inside_did_not_lock(rt: HostRuntime) -> Result<(), Fail> {
    let map: FrozenMap<u64, u64> = FrozenMap::new(rt.alloc())?;
    let mut observed = map.observed();
    let mut kept = None;
    let failed = map.insert_with_as(&mut observed, 11, || {
        kept = map.hold().ok();
        7
    });
    assert!(rt; matches!(failed, Err(CellFault::InUse(Some(7)))));
    assert_eq!(rt; failures(&map), IN_USE);
    drop(kept);
    map.observe(&mut observed);
    assert_eq!(rt; map.get_as(&observed, &11), None);
    Ok(())
}

/// The number of calls that were made from inside others, and the number of those that behaved as
/// they should.
#[derive(Drop)]
struct Calls {
    made: AtomicU64,
    right: AtomicU64,
}

/// A query of a number that makes each call of its map whenever the map hashes or compares it.
#[derive(Clone, Copy)]
struct Nested<'m> {
    number: u64,
    map: &'m FrozenMap<u64, u64>,
    calls: &'m Calls,
}

/// Makes each call of a map of 0 to 9 with the values from 100 on, and counts it.
fn calls_inside(query: &Nested<'_>) {
    let _ = query.calls.made.fetch_add(1, Ordering::SeqCst);
    let map = query.map;
    let reads = map.get(&9) == Some(&109)
        && map.get(&10).is_none()
        && map.get_full(&4) == Some((4, &4, &104))
        && map.get_index(3) == Some((&3, &103))
        && map.contains_key(&0)
        && map.len() == 10
        && map.get_as(&map.observed(), &7) == Some(&107)
        && map.iter().count() == 10;
    if reads && failures(map) == IN_USE {
        let _ = query.calls.right.fetch_add(1, Ordering::SeqCst);
    }
}

impl PartialEq for Nested<'_> {
    ghost eq = { λ a b. a.number == b.number };

    ghost laws = { partial_equiv_from_equiv (on_equiv (λ a. a.number) nat_eq_equiv) };

    fn eq(&self, other: &Self) -> bool {
        self.number == other.number
    }
}

impl Eq for Nested<'_> {
    ghost laws = { on_equiv (λ a. a.number) nat_eq_equiv };
}

impl Hash for Nested<'_> {
    ghost hash_input = { λ a. fed.u64 a.number };

    ghost respects_eq = { λ x y h. ap fed.u64 (eqb-true x.number y.number h) };

    fn hash<H: Hasher>(&self, state: &mut H) {
        calls_inside(self);
        state.write_u64(self.number);
    }
}

impl Query<u64> for Nested<'_> {
    ghost finds = { λ q k. q.number == k };

    ghost respects_hash = { λ q k h. ap fed.u64 (eqb-true q.number k h) };

    ghost respects_eq = { λ q x y. nat_eq_equiv.congr q.number x y };

    fn finds(&self, key: &u64) -> bool {
        calls_inside(self);
        self.number == *key
    }
}

/// Looks up a key by each call that takes a query. Returns the value that each found.
fn found_nested(map: &FrozenMap<u64, u64>, query: Nested<'_>) -> [Option<u64>; 10] {
    let mut observed = map.observed();
    let full = map.get_full(query).map(|found| *found.2);
    let full_observed = map.get_full_as(&observed, query).map(|found| *found.2);
    let (value, full_by_guard) = found_by_guard(map, query);
    [
        map.get(query).copied(),
        full,
        map.map_get(query, |found| *found),
        map.get_or_try_insert(query, || made_pair(0)).ok().copied(),
        map.insert_by(query, || made_pair(0))
            .ok()
            .map(|done| *done.value),
        map.get_as(&observed, query).copied(),
        full_observed,
        map.insert_by_as(&mut observed, query, || made_pair(0))
            .ok()
            .map(|done| *done.value),
        value,
        full_by_guard,
    ]
}

/// Looks up a key by a guard. Returns the value that each call found.
fn found_by_guard(map: &FrozenMap<u64, u64>, query: Nested<'_>) -> (Option<u64>, Option<u64>) {
    let Ok(hold) = map.hold() else {
        return (None, None);
    };
    (
        hold.get(query).copied(),
        hold.get_full(query).map(|found| *found.2),
    )
}

#[test]
fn a_call_inside_a_look_up_changed_the_map_or_was_not_answered(
    rt: HostRuntime,
) -> Result<(), Fail> {
    // The keys 0 to 9, with the values from 100 on.
    let map: FrozenMap<u64, u64> = FrozenMap::new(rt.alloc())?;
    map.extend((0..10).map(|key| (key, key + 100)))?;
    let calls = Calls {
        made: AtomicU64::new(0),
        right: AtomicU64::new(0),
    };
    let query = Nested {
        number: 4,
        map: &map,
        calls: &calls,
    };
    assert_eq!(rt; found_nested(&map, query), [Some(104); 10]);
    assert_eq!(rt; (map.contains_key(query), map.len()), (true, 10));
    let made = calls.made.load(Ordering::SeqCst);
    assert!(rt; made >= 22);
    assert_eq!(rt; calls.right.load(Ordering::SeqCst), made);
    Ok(())
}
