//! The list, the maps and the set in `cell` with scripts, until they are dropped or taken apart.
use crate::counted::{Counted, Number};
use crate::lists::{List, ListCalls};
use crate::maps::MapCalls;
use crate::sets::{Set, SetCalls};
use elsa_cell::{
    CellFault, Frozen, FrozenBTreeMap, FrozenMap, FrozenSet, FrozenVec, Indices, Seeks,
};
use std::alloc::{AllocError, Global};
use std::cell::Cell;
use std::hash::{BuildHasherDefault, FoldHasher};
use std::test::Fail;
use test_alloc::Budget;
use test_model::call::{Reply, Walk};
use test_model::draws::clock_seed;
use test_model::script::{Heap, PLANS, Plan, Script, Step};

type State = BuildHasherDefault<FoldHasher>;

/// The greatest size.
const MOST: u64 = 200_000;

/// The number of entries up to which each collection grows in each run.
const GROWTH: u64 = 1 << 14;

/// Returns an allocator that denies each request.
fn denying(alloc: Global) -> Heap {
    let none = Budget::new(alloc);
    none.refuse(0, u64::MAX);
    none
}

/// Returns the count of living values before a script: 0, or 1 if a value more is to be found.
fn counter(one_more: bool) -> Cell<u64> {
    Cell::new(if one_more { 1 } else { 0 })
}

/// The reply of a collection that was taken apart though each request was denied, or was not though
/// none was.
const WRONG_END: (Reply, Reply) = (Reply::Flag(false), Reply::Flag(true));

/// Runs a script on a list, tries in vain to take it apart, runs the script again, and then takes
/// the list apart, or drops it. The evidence is of no items, so that each item is compared.
pub fn list_script(alloc: Global, plan: Plan, one_more: bool) -> Result<Step, AllocError> {
    let (heap, none, alive) = (Budget::new(alloc), denying(alloc), counter(one_more));
    let mut script = Script::new(alloc, plan, true)?;
    let list: List<'_, '_> = FrozenVec::with_capacity(&heap, script.room())?;
    let seen = list.observed().evidence();
    script.runs(&heap, &mut ListCalls::of(&list, &alive))?;
    if script.plain.len() == 0 {
        drop(list);
    } else {
        match list.into_vec(&none, &seen) {
            Err(CellFault::Memory(list)) => {
                script.resumes(&heap, &mut ListCalls::of(&list, &alive))?;
                if plan.is_taken() {
                    match list.into_vec(alloc, &seen) {
                        Ok(all) => {
                            let mut walk = Walk::new(true);
                            for item in all.iter() {
                                walk.add_item(item.number());
                            }
                            script.ends_with(walk.reply());
                        }
                        Err(_) => script.ends(WRONG_END.0, WRONG_END.1),
                    }
                }
            }
            _ => script.ends(WRONG_END.0, WRONG_END.1),
        }
    }
    script.is_freed(&heap, alive.get());
    Ok(script.step)
}

#[test]
fn a_list_of_cell_differed_from_a_list(rt: HostRuntime) -> Result<(), Fail> {
    let clock = clock_seed(&rt)?;
    for number in 0..PLANS {
        let plan = Plan::of(number, clock, MOST, GROWTH);
        let step = list_script(rt.alloc(), plan, false)?;
        assert_eq!(rt; step.got, step.wanted, "{plan:?}: {step:?}");
    }
    Ok(())
}

/// The walk over the entries that came out of a map.
fn walk_of(all: &[(Counted<'_>, Counted<'_>)]) -> Reply {
    let mut walk = Walk::new(true);
    for entry in all {
        walk.add(entry.0.number(), entry.1.number());
    }
    walk.reply()
}

/// Runs a script on a map, tries in vain to take it apart, and runs the script again. `looks` is
/// given the map. Then it takes the map apart, or drops it.
fn map_script<'c, 'h, T: Indices<Counted<'c>> + Drop>(
    script: &mut Script,
    plan: Plan,
    map: Frozen<Counted<'c>, Counted<'c>, T, &'h Heap>,
    heap: &'h Heap,
    alive: &'c Cell<u64>,
    keeps_room: bool,
    looks: impl FnOnce(&mut Script, &Frozen<Counted<'c>, Counted<'c>, T, &'h Heap>),
    alloc: Global,
) -> Result<(), AllocError>
where
    Number: Seeks<Counted<'c>, T>,
{
    let (none, seen) = (denying(alloc), map.observed().evidence());
    script.runs(heap, &mut MapCalls::of(&map, alive, keeps_room))?;
    if script.plain.len() == 0 {
        return Ok(());
    }
    let Err(CellFault::Memory(moved)) = map.into_tuple_vec(&none, &seen) else {
        script.ends(WRONG_END.0, WRONG_END.1);
        return Ok(());
    };
    script.resumes(heap, &mut MapCalls::of(&moved, alive, keeps_room))?;
    looks(script, &moved);
    if plan.is_taken() {
        match moved.into_tuple_vec(alloc, &seen) {
            Ok(all) => script.ends_with(walk_of(all.as_slice())),
            Err(_) => script.ends(WRONG_END.0, WRONG_END.1),
        }
    }
    Ok(())
}

pub fn hashed_script(alloc: Global, plan: Plan, one_more: bool) -> Result<Step, AllocError> {
    let (heap, alive) = (Budget::new(alloc), counter(one_more));
    let mut script = Script::new(alloc, plan, true)?;
    let map: FrozenMap<Counted<'_>, Counted<'_>, State, &Heap> = FrozenMap::with_capacity(
        &heap,
        script.room(),
    )?;
    map_script(
        &mut script,
        plan,
        map,
        &heap,
        &alive,
        true,
        |_, _| (),
        alloc,
    )?;
    script.is_freed(&heap, alive.get());
    Ok(script.step)
}

#[test]
fn a_map_of_cell_differed_from_a_list(rt: HostRuntime) -> Result<(), Fail> {
    let clock = clock_seed(&rt)?;
    for number in 0..PLANS {
        let plan = Plan::of(number, clock, MOST, GROWTH);
        let step = hashed_script(rt.alloc(), plan, false)?;
        assert_eq!(rt; step.got, step.wanted, "{plan:?}: {step:?}");
    }
    Ok(())
}

/// Returns a reference's entry.
fn pair(found: Option<(&Counted<'_>, &Counted<'_>)>) -> Reply {
    Reply::Pair(found.map(|entry| (entry.0.number(), entry.1.number())))
}

/// Compares the walk over an ordered map in ascending order, its length, and its ends.
fn ascends(script: &mut Script, map: &FrozenBTreeMap<Counted<'_>, Counted<'_>, &Heap>) {
    let (Ok(hold), Ok(wanted)) = (map.hold(), script.plain.sorted()) else {
        return script.ends(Reply::Done, Reply::Flag(true));
    };
    let (mut got, mut sorted) = (Walk::new(true), Walk::new(true));
    let walk = hold.ascending();
    script.ends(Reply::Count(walk.size_hint().0), Reply::Count(wanted.len()));
    script.ends(
        Reply::Index(walk.size_hint().1),
        Reply::Index(Some(wanted.len())),
    );
    for entry in walk.take(wanted.len() + 1) {
        got.add(entry.key().number(), entry.value().number());
    }
    for entry in wanted.iter() {
        sorted.add(entry.0, entry.1);
    }
    script.ends(got.reply(), sorted.reply());
    script.ends(
        pair(hold.first_key_value()),
        Reply::Pair(wanted.first().copied()),
    );
    script.ends(
        pair(hold.last_key_value()),
        Reply::Pair(wanted.last().copied()),
    );
}

pub fn ordered_script(alloc: Global, plan: Plan, one_more: bool) -> Result<Step, AllocError> {
    let (heap, alive) = (Budget::new(alloc), counter(one_more));
    let mut script = Script::new(alloc, plan, true)?;
    let map: FrozenBTreeMap<Counted<'_>, Counted<'_>, &Heap> = FrozenBTreeMap::new(&heap)?;
    map_script(&mut script, plan, map, &heap, &alive, false, ascends, alloc)?;
    script.is_freed(&heap, alive.get());
    Ok(script.step)
}

#[test]
fn an_ordered_map_of_cell_differed_from_a_list(rt: HostRuntime) -> Result<(), Fail> {
    let clock = clock_seed(&rt)?;
    for number in 0..PLANS {
        let plan = Plan::of(number, clock, MOST, GROWTH);
        let step = ordered_script(rt.alloc(), plan, false)?;
        assert_eq!(rt; step.got, step.wanted, "{plan:?}: {step:?}");
    }
    Ok(())
}

/// As [`list_script`], on a set.
pub fn set_script(alloc: Global, plan: Plan, one_more: bool) -> Result<Step, AllocError> {
    let (heap, none, alive) = (Budget::new(alloc), denying(alloc), counter(one_more));
    let mut script = Script::new(alloc, plan, true)?;
    let set: Set<'_, '_> = FrozenSet::with_capacity(&heap, script.room())?;
    let seen = set.observed().evidence();
    script.runs(&heap, &mut SetCalls::of(&set, &alive))?;
    if script.plain.len() == 0 {
        drop(set);
    } else {
        match set.into_vec(&none, &seen) {
            Err(CellFault::Memory(set)) => {
                script.resumes(&heap, &mut SetCalls::of(&set, &alive))?;
                if plan.is_taken() {
                    match set.into_vec(alloc, &seen) {
                        Ok(all) => {
                            let mut walk = Walk::new(true);
                            for item in all.iter() {
                                walk.add(item.number(), item.number());
                            }
                            script.ends_with(walk.reply());
                        }
                        Err(_) => script.ends(WRONG_END.0, WRONG_END.1),
                    }
                }
            }
            _ => script.ends(WRONG_END.0, WRONG_END.1),
        }
    }
    script.is_freed(&heap, alive.get());
    Ok(script.step)
}

#[test]
fn a_set_of_cell_differed_from_a_list(rt: HostRuntime) -> Result<(), Fail> {
    let clock = clock_seed(&rt)?;
    for number in 0..PLANS {
        let plan = Plan::of(number, clock, MOST, GROWTH);
        let step = set_script(rt.alloc(), plan, false)?;
        assert_eq!(rt; step.got, step.wanted, "{plan:?}: {step:?}");
    }
    Ok(())
}
