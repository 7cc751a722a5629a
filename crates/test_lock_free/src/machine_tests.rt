//! Examples of the step machine: whole worlds, compared with hand-written ones.
use crate::schedule_rows::{
    Append, CloneRefused, Cloned, Cloner, Extend, Extended, Extender, Look, Pushed, Pusher, Read,
    Reader, Refused, Row, check_rows, plans_of, schedule_of, world_of,
};
use elsa_lock_free::item_rule::DistinctItems;
use elsa_lock_free::lock_free::LockFreeFrozenVec;
use elsa_machine::machine::{Items, Plan, Turn, every_schedule, run};
use elsa_machine::tie::runs_on_machine;
use std::alloc::{AllocError, Allocator, Global};
use test_alloc::Budget;

#[test]
fn turns_of_a_done_thread_and_of_no_thread_do_nothing(rt: HostRuntime) -> Result<(), AllocError> {
    let rows = [
        Row {
            name: "a cloner of the empty list, and a turn after it is done",
            plans: &[Cloner],
            turns: &[0, 0],
            refused: 99,
            opened: 0,
            items: &[],
            events: &[Look(0, 0)],
            answers: &[Cloned(0, &[])],
        },
        Row {
            name: "a turn of no thread",
            plans: &[],
            turns: &[0],
            refused: 99,
            opened: 0,
            items: &[],
            events: &[],
            answers: &[],
        },
        Row {
            name: "turns of numbers beyond the plans, amid a push",
            plans: &[Pusher(&[7])],
            turns: &[1, 0, 2, 0, 1, 0, 1, 0, 99, 0, 1],
            refused: 99,
            opened: 1,
            items: &[7],
            events: &[Append(0, 7)],
            answers: &[Pushed(0, 0)],
        },
    ];
    check_rows(&rt, rt.alloc(), &rows)
}

#[test]
fn readers_and_clones_beside_a_push_see_the_list_before_it(
    rt: HostRuntime,
) -> Result<(), AllocError> {
    let rows = [
        Row {
            name: "a reader amid two pushers",
            plans: &[Pusher(&[7]), Pusher(&[9]), Reader(&[0, 0, 0])],
            turns: &[0, 1, 0, 1, 2, 0, 0, 2, 0, 2, 2, 1, 1, 1, 1],
            refused: 99,
            opened: 1,
            items: &[7, 9],
            events: &[
                Look(2, 0),
                Look(2, 0),
                Append(0, 7),
                Look(2, 1),
                Append(1, 9),
            ],
            answers: &[
                Read(2, 0, None),
                Read(2, 0, None),
                Pushed(0, 0),
                Read(2, 0, Some(7)),
                Pushed(1, 1),
            ],
        },
        Row {
            name: "a push between a reader's look and its read",
            plans: &[Pusher(&[7, 9]), Reader(&[0, 1])],
            turns: &[0, 0, 0, 0, 0, 1, 0, 0, 0, 0, 1, 1, 1],
            refused: 99,
            opened: 1,
            items: &[7, 9],
            events: &[Append(0, 7), Look(1, 1), Append(0, 9), Look(1, 2)],
            answers: &[
                Pushed(0, 0),
                Pushed(0, 1),
                Read(1, 0, Some(7)),
                Read(1, 1, Some(9)),
            ],
        },
        Row {
            name: "a hold of three turns, amid another thread's",
            plans: &[Pusher(&[7]), Cloner],
            turns: &[0, 0, 1, 0, 1, 0, 1, 0],
            refused: 99,
            opened: 1,
            items: &[7],
            events: &[Look(1, 0), Append(0, 7)],
            answers: &[Cloned(1, &[]), Pushed(0, 0)],
        },
    ];
    check_rows(&rt, rt.alloc(), &rows)
}

#[test]
fn pushers_take_places_one_after_the_other(rt: HostRuntime) -> Result<(), AllocError> {
    let rows = [
        Row {
            name: "an acquire at an old length",
            plans: &[Pusher(&[4]), Pusher(&[5])],
            turns: &[0, 1, 0, 0, 0, 0, 1, 1, 1, 1, 1],
            refused: 99,
            opened: 1,
            items: &[4, 5],
            events: &[Append(0, 4), Append(1, 5)],
            answers: &[Pushed(0, 0), Pushed(1, 1)],
        },
        Row {
            name: "a peek while another thread holds sees nothing",
            plans: &[Pusher(&[7]), Pusher(&[9])],
            turns: &[0, 0, 1, 1, 0, 0, 0, 1, 1, 1, 1],
            refused: 99,
            opened: 1,
            items: &[7, 9],
            events: &[Append(0, 7), Append(1, 9)],
            answers: &[Pushed(0, 0), Pushed(1, 1)],
        },
        Row {
            name: "six turns of a pusher alone, whose length is old and whose buffer is closed",
            plans: &[Pusher(&[7]), Pusher(&[9, 8, 6])],
            turns: &[0, 1, 1, 1, 1, 1, 1, 1, 1, 1, 1, 1, 1, 1, 0, 0, 0, 0, 0, 0],
            refused: 99,
            opened: 2,
            items: &[9, 8, 6, 7],
            events: &[Append(1, 9), Append(1, 8), Append(1, 6), Append(0, 7)],
            answers: &[Pushed(1, 0), Pushed(1, 1), Pushed(1, 2), Pushed(0, 3)],
        },
    ];
    check_rows(&rt, rt.alloc(), &rows)
}

#[test]
fn an_extension_is_seen_whole_or_not_at_all(rt: HostRuntime) -> Result<(), AllocError> {
    let rows = [
        Row {
            name: "two extenders and a reader, turn by turn",
            plans: &[
                Extender(&[7, 8]),
                Extender(&[9, 6, 5]),
                Reader(&[0, 1, 1, 4, 4]),
            ],
            turns: &[
                0, 1, 0, 1, 0, 0, 0, 2, 1, 0, 2, 0, 1, 2, 1, 1, 2, 1, 1, 1, 2, 1, 1, 2, 2, 0, 1,
            ],
            refused: 99,
            opened: 2,
            items: &[7, 8, 9, 6, 5],
            events: &[
                Look(2, 0),
                Look(2, 0),
                Extend(0, &[7, 8]),
                Look(2, 2),
                Look(2, 2),
                Extend(1, &[9, 6, 5]),
                Look(2, 5),
            ],
            answers: &[
                Read(2, 0, None),
                Read(2, 1, None),
                Extended(0, 0, 2),
                Read(2, 1, Some(8)),
                Read(2, 4, None),
                Extended(1, 2, 3),
                Read(2, 4, Some(5)),
            ],
        },
        Row {
            name: "an extension of no items",
            plans: &[Extender(&[])],
            turns: &[0, 0, 0, 0, 0],
            refused: 2,
            opened: 0,
            items: &[],
            events: &[Extend(0, &[])],
            answers: &[Extended(0, 0, 0)],
        },
    ];
    check_rows(&rt, rt.alloc(), &rows)
}

#[test]
fn an_extension_without_memory_writes_nothing(rt: HostRuntime) -> Result<(), AllocError> {
    let rows = [
        Row {
            name: "an extension refused before a push",
            plans: &[Extender(&[1, 2, 3, 4]), Pusher(&[9])],
            turns: &[0, 0, 0, 0, 1, 1, 1, 1, 1],
            refused: 2,
            opened: 1,
            items: &[9],
            events: &[Append(1, 9)],
            answers: &[Refused(0), Pushed(1, 0)],
        },
        Row {
            name: "an extension into an open buffer, which needs no memory",
            plans: &[Pusher(&[7]), Extender(&[8, 9])],
            turns: &[0, 0, 0, 0, 0, 1, 1, 1, 1, 1, 1],
            refused: 7,
            opened: 1,
            items: &[7, 8, 9],
            events: &[Append(0, 7), Extend(1, &[8, 9])],
            answers: &[Pushed(0, 0), Extended(1, 1, 2)],
        },
    ];
    check_rows(&rt, rt.alloc(), &rows)
}

#[test]
fn a_thread_without_memory_is_told_so(rt: HostRuntime) -> Result<(), AllocError> {
    let rows = [
        Row {
            name: "a buffer refused once",
            plans: &[Pusher(&[4, 5])],
            turns: &[0, 0, 0, 0, 0, 0, 0, 0, 0],
            refused: 2,
            opened: 1,
            items: &[5],
            events: &[Append(0, 5)],
            answers: &[Refused(0), Pushed(0, 0)],
        },
        Row {
            name: "a clone refused at its second copy",
            plans: &[Pusher(&[1, 2]), Cloner],
            turns: &[0, 0, 0, 0, 0, 0, 0, 0, 0, 1, 1, 1],
            refused: 11,
            opened: 1,
            items: &[1, 2],
            events: &[Append(0, 1), Append(0, 2), Look(1, 2)],
            answers: &[Pushed(0, 0), Pushed(0, 1), CloneRefused(1)],
        },
    ];
    check_rows(&rt, rt.alloc(), &rows)
}

#[test]
fn a_clone_has_what_was_published_when_it_looked(rt: HostRuntime) -> Result<(), AllocError> {
    let rows = [
        Row {
            name: "a clone amid pushes",
            plans: &[Pusher(&[1, 2]), Cloner],
            turns: &[0, 0, 0, 0, 0, 1, 0, 0, 0, 0, 1],
            refused: 99,
            opened: 1,
            items: &[1, 2],
            events: &[Append(0, 1), Look(1, 1), Append(0, 2)],
            answers: &[Pushed(0, 0), Pushed(0, 1), Cloned(1, &[1])],
        },
        Row {
            name: "a clone while the second buffer is opened",
            plans: &[Pusher(&[0, 1, 2, 3]), Cloner],
            turns: &[
                0, 0, 0, 0, 0, 0, 0, 0, 0, 0, 0, 0, 0, 0, 0, 0, 1, 0, 0, 1, 1, 1,
            ],
            refused: 99,
            opened: 2,
            items: &[0, 1, 2, 3],
            events: &[
                Append(0, 0),
                Append(0, 1),
                Append(0, 2),
                Look(1, 3),
                Append(0, 3),
            ],
            answers: &[
                Pushed(0, 0),
                Pushed(0, 1),
                Pushed(0, 2),
                Pushed(0, 3),
                Cloned(1, &[0, 1, 2]),
            ],
        },
    ];
    check_rows(&rt, rt.alloc(), &rows)
}

#[test]
fn every_plan_is_done_in_rounds_without_memory(rt: HostRuntime) -> Result<(), AllocError> {
    let alloc = rt.alloc();
    let plans = plans_of(alloc, &[Pusher(&[7]), Reader(&[0]), Cloner])?;
    let mut schedule = Vec::new(alloc);
    for _round in 0..4 {
        for thread in 0..3 {
            schedule.push(Turn {
                thread,
                memory: false,
            })?;
        }
    }
    let row = Row {
        name: "",
        plans: &[],
        turns: &[],
        refused: 0,
        opened: 0,
        items: &[],
        events: &[Look(1, 0), Look(2, 0)],
        answers: &[Read(1, 0, None), Cloned(2, &[]), Refused(0)],
    };
    assert_eq!(rt; run(alloc, &plans, &schedule)?, world_of(alloc, &row)?);
    Ok(())
}

/// Each of the run's lists grows: the writes, the events, the results, and what the cloner copies.
/// A run fails if one of its requests is denied, and ends in the right world when it is repeated.
#[test]
fn a_run_of_the_machine_survived_a_denied_request(rt: HostRuntime) -> Result<(), AllocError> {
    let budget = Budget::<Global>::new(rt.alloc());
    let mut turns = Vec::new(rt.alloc());
    for (thread, count) in [(0, 22), (1, 4), (2, 6), (3, 5)] {
        for _ in 0..count {
            turns.push(thread)?;
        }
    }
    let schedule = schedule_of(rt.alloc(), &turns, 99)?;
    let mut plans = Vec::new(&budget);
    plans.push(Plan::Pusher(Items::from_vec(vec![in &budget; 1, 2, 3, 4, 5]?)))?;
    plans.push(Plan::Reader(Items::from_vec(vec![in &budget; 0, 4]?)))?;
    plans.push(Plan::Cloner)?;
    plans.push(Plan::Extender(Items::from_vec(vec![in &budget; 6]?)))?;
    let grown = || -> Result<[usize; 4], AllocError> {
        let world = run(&budget, &plans, &schedule)?;
        let events = world.events.as_slice().len();
        let answers = world.answers.as_slice().len();
        Ok([world.length, world.writes.as_slice().len(), events, answers])
    };
    let before = budget.asked();
    assert_eq!(rt; grown(), Ok([6, 6, 9, 9]));
    let requests = budget.asked() - before;
    assert!(rt; requests > 5);
    for number in 0..requests {
        budget.refuse(budget.asked() + number, budget.asked() + number + 1);
        assert_eq!(rt; grown(), Err(AllocError), "at {number}");
        budget.refuse_next(0);
        assert_eq!(rt; grown(), Ok([6, 6, 9, 9]), "at {number}");
    }
    drop(plans);
    assert_eq!(rt; budget.given(), budget.granted());
    Ok(())
}

#[test]
fn items_stay_in_order(rt: HostRuntime) -> Result<(), AllocError> {
    let mut items = Items::new(rt.alloc());
    items.push(7)?;
    items.push(9)?;
    assert_eq!(rt; items.into_vec().as_slice(), [7, 9].as_slice());
    Ok(())
}

#[test]
fn laws_apply_to_each_rule_of_items(rt: HostRuntime) -> Result<(), AllocError> {
    every_schedule::<Global>();
    let any = LockFreeFrozenVec::<u64>::new(rt.alloc())?;
    runs_on_machine(&any.handle().history());
    let distinct = LockFreeFrozenVec::<u64, Global, DistinctItems>::distinct(rt.alloc())?;
    runs_on_machine(&distinct.pass().history());
    Ok(())
}
