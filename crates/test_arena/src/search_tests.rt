//! The searches of a list that grows through `&self`, and look-ups with evidence that is kept.
use elsa_arena::vec::FrozenVec;
use std::alloc::Global;
use std::test::*;

/// Returns a list of the first multiples of 3, as many as `count`.
fn multiples(alloc: Global, count: u64) -> Result<FrozenVec<u64>, Fail> {
    let list: FrozenVec<u64> = FrozenVec::new(alloc)?;
    list.extend((0..count).map(|number| number * 3))?;
    Ok(list)
}

#[test]
fn a_search_found_another_index(rt: HostRuntime) -> Result<(), Fail> {
    for count in [0, 1, 2, 15, 255, 256, 600, 601] {
        let list = multiples(rt.alloc(), count)?;
        let observed = list.observed();
        for wanted in [0, 1, 2, 3, 44, 45, 762, 765, 768, 1797, 1798, 1800, 1803] {
            let end = (wanted as usize).div_ceil(3).min(count as usize);
            let is_found = wanted % 3 == 0 && end < count as usize;
            let index = if is_found { Ok(end) } else { Err(end) };
            for (call, found) in [
                list.binary_search(&wanted),
                observed.binary_search(&wanted),
                list.binary_search_by(|number| number.cmp(&wanted)),
                observed.binary_search_by(|number| number.cmp(&wanted)),
                list.binary_search_by_key(&wanted, |number| *number),
                observed.binary_search_by_key(&wanted, |number| *number),
            ]
            .iter()
            .enumerate()
            {
                assert_eq!(rt; *found, index, "call {call}, {wanted} of {count}");
            }
            let points = (
                list.partition_point(|number| *number < wanted),
                observed.partition_point(|number| *number < wanted),
            );
            assert_eq!(rt; points, (end, end), "{wanted} of {count}");
        }
    }
    Ok(())
}

#[test]
fn a_push_inside_a_search_changed_it(rt: HostRuntime) -> Result<(), Fail> {
    let list = multiples(rt.alloc(), 20)?;
    let found = list.binary_search_by(|number| {
        let _pushed = list.push(0);
        number.cmp(&30)
    });
    assert_eq!(rt; found, Ok(10));
    assert!(rt; list.len() > 20);
    Ok(())
}

#[test]
fn evidence_led_to_another_item(rt: HostRuntime) -> Result<(), Fail> {
    let list = multiples(rt.alloc(), 700)?;
    let seen = list.observed().evidence();
    let moved = list;
    let last = moved.push(5)?;
    assert_eq!(rt; moved.since(&seen).get(699), Some(&2097));
    assert_eq!(rt; moved.since(&seen).get(last), Some(&5));
    Ok(())
}
