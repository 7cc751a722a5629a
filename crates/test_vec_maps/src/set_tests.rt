//! Sorted sets, which are ordered maps to `()`: worked cases and walks.
use bumpalo::Bump;
use elsa_maps::map::FrozenBTreeSet;
use std::alloc::{AllocError, Global};
use std::test::*;

fn set_of<'a, const N: usize>(
    alloc: Global,
    arena: &'a Bump,
    numbers: [u64; N],
) -> Result<FrozenBTreeSet<'a, u64>, AllocError> {
    FrozenBTreeSet::from_iter(alloc, arena, numbers.into_iter().map(|number| (number, ())))
}

#[test]
fn a_sorted_set_called_a_present_number_new(rt: HostRuntime) -> Result<(), Fail> {
    let arena = Bump::new(rt.alloc());
    let mut numbers: FrozenBTreeSet<'_, u64> = FrozenBTreeSet::new(rt.alloc(), &arena);
    assert!(rt; numbers.is_empty());
    for (number, is_new) in [(3, true), (1, true), (2, true), (1, false)] {
        let got = (number, numbers.insert_new(number, ())?.1);
        assert_eq!(rt; got, (number, is_new));
    }
    assert_eq!(rt; (numbers.len(), numbers.is_empty()), (3, false));
    let got = [numbers.contains_key(&2), numbers.contains_key(&4)];
    assert_eq!(rt; got, [true, false]);
    let got = (numbers.get_key_value(&3), numbers.get_key_value(&0));
    assert_eq!(rt; got, (Some((3, ())), None));
    numbers.insert(7, ())?;
    let got = (numbers.len(), numbers.last_key_value());
    assert_eq!(rt; got, (4, Some((7, ()))));
    Ok(())
}

#[test]
fn a_sorted_set_was_walked_out_of_order(rt: HostRuntime) -> Result<(), Fail> {
    let (alloc, arena) = (rt.alloc(), Bump::new(rt.alloc()));
    let numbers = set_of(alloc, &arena, [3, 1, 2, 1])?;
    let mut all: Vec<u64> = Vec::new(alloc);
    for (number, ()) in &numbers {
        all.push(*number)?;
    }
    assert_eq!(rt; all.as_slice(), [1, 2, 3].as_slice());
    let back: Vec<u64> = numbers.keys().rev().copied().collect(alloc)?;
    assert_eq!(rt; back.as_slice(), [3, 2, 1].as_slice());
    for (low, high, wanted) in [
        (0, 9, [1, 2, 3].as_slice()),
        (2, 3, [2].as_slice()),
        (2, 4, [2, 3].as_slice()),
        (4, 9, [].as_slice()),
    ] {
        let within: Vec<u64> = numbers
            .range(low..high)
            .map(|(number, _)| *number)
            .collect(alloc)?;
        assert_eq!(rt; (low, high, within.as_slice()), (low, high, wanted));
    }
    assert_eq!(rt; numbers.first_key_value(), Some((1, ())));
    assert_eq!(rt; numbers.last_key_value(), Some((3, ())));
    let empty = set_of(alloc, &arena, [])?;
    let got = (empty.first_key_value(), empty.last_key_value());
    assert_eq!(rt; got, (None, None));
    Ok(())
}

#[test]
fn sets_of_the_same_numbers_differed_by_their_order(rt: HostRuntime) -> Result<(), Fail> {
    let arena = Bump::new(rt.alloc());
    let one = set_of(rt.alloc(), &arena, [3, 1, 2])?;
    let mut more = one.clone()?;
    assert_eq!(rt; one, set_of(rt.alloc(), &arena, [1, 2, 3])?);
    assert_eq!(rt; more, one);
    more.insert(4, ())?;
    assert_ne!(rt; more, one);
    assert!(rt; !one.contains_key(&4));
    Ok(())
}

#[test]
fn a_stored_text_ended_with_its_set(rt: HostRuntime) -> Result<(), Fail> {
    let arena = Bump::new(rt.alloc());
    let mut names: FrozenBTreeSet<'_, &str> = FrozenBTreeSet::new(rt.alloc(), &arena);
    let text = String::from_str(rt.alloc(), "lonely")?;
    names.insert_text(text.as_str(), ())?;
    drop(text);
    let got = (names.get_key_value("lone"), names.contains_key(""));
    assert_eq!(rt; got, (None, false));
    let kept = names.get_key_value("lonely");
    drop(names);
    assert_eq!(rt; kept, Some(("lonely", ())));
    Ok(())
}
