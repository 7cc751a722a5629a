//! The slots, with an allocator that denies and counts requests.
use elsa_slots::slots::{Ahead, Buffer, Copied, Slots, WriteRight, WriteRights, WrittenPrefix};
use std::alloc::Global;
use std::process::Abort;
use std::test::*;
use test_alloc::Budget;

/// Returns the write right that a failed opening of the first buffer returns.
fn refused<'a>(slots: &Slots<u64, &'a Budget<Global>>, right: WriteRight) -> Option<WriteRight> {
    match slots.open(0, right) {
        Err(right) => Some(right),
        Ok((opened, rights)) => {
            opened.discard();
            rights.discard();
            None
        }
    }
}

/// Opens the first buffer, writes 7 into its first slot, and returns what that slot then has.
fn first_of_opened<'a>(slots: &Slots<u64, &'a Budget<Global>>, right: WriteRight) -> Option<u64> {
    match slots.open(0, right) {
        Ok((opened, rights)) => {
            let mut rights = rights;
            let written = slots.write(0, 0, 7, &opened, rights.take());
            let item = slots.read(0, 0, &opened, &written);
            rights.discard();
            opened.discard();
            written.discard();
            Some(item)
        }
        Err(right) => {
            right.discard();
            None
        }
    }
}

#[test]
fn a_failed_opening_lost_its_write_right(rt: HostRuntime) -> Result<(), Fail> {
    let budget = Budget::new(rt.alloc());
    let (slots, mut further) = Slots::<u64, &Budget<Global>>::new(&budget)?;
    let asked = budget.asked();
    let right = further.take();
    further.discard();
    budget.refuse_next(1);
    let Some(right) = refused(&slots, right) else {
        panic!(rt; "a request was granted that the budget refuses");
    };
    assert_eq!(rt; first_of_opened(&slots, right), Some(7));
    assert_eq!(rt; budget.asked(), asked + 2);
    drop(slots);
    assert_eq!(rt; budget.given(), budget.granted());
    Ok(())
}

/// Writes two items, 5 and 6, into the first buffer, and returns the evidence of them.
fn two_items<'a>(
    slots: &Slots<u64, &'a Budget<Global>>,
    further: WriteRights,
) -> Option<WrittenPrefix<u64, Buffer<u64, &'a Budget<Global>>>> {
    let mut prefix = WrittenPrefix::none(&further);
    let mut further = further;
    let right = further.take();
    further.discard();
    match slots.open(0, right) {
        Ok((opened, rights)) => {
            let mut rights = rights;
            prefix.add(0, 0, &opened, slots.write(0, 0, 5, &opened, rights.take()));
            prefix.add(0, 1, &opened, slots.write(0, 1, 6, &opened, rights.take()));
            rights.discard();
            opened.discard();
            Some(prefix)
        }
        Err(right) => {
            right.discard();
            prefix.discard();
            None
        }
    }
}

/// Copies the first two items, and returns the second of the copy, or `None` if an allocation
/// fails.
fn second_of_a_copy<'a>(
    slots: &Slots<u64, &'a Budget<Global>>,
    prefix: &WrittenPrefix<u64, Buffer<u64, &'a Budget<Global>>>,
) -> Option<u64> {
    let Ok(
        Copied {
            slots: copy,
            prefix: seen,
            ahead,
        },
    ) = slots.copy_below(2, prefix)
    else {
        return None;
    };
    let (opened, item) = seen.at(1, 0, 1);
    let second = copy.read(0, 1, &opened, &item);
    opened.discard();
    item.discard();
    seen.discard();
    let Ahead {
        opened,
        slots: rights,
        further,
    } = ahead;
    if let Some(opened) = opened {
        opened.discard();
    }
    rights.discard();
    further.discard();
    Some(second)
}

#[test]
fn a_copy_with_a_denied_request_succeeded_or_leaked(rt: HostRuntime) -> Result<(), Fail> {
    let budget = Budget::new(rt.alloc());
    let (slots, further) = Slots::<u64, &Budget<Global>>::new(&budget)?;
    let Some(prefix) = two_items(&slots, further) else {
        panic!(rt; "a request was refused that the budget allows");
    };
    for refused in 0..2u64 {
        budget.refuse(budget.asked() + refused, budget.asked() + refused + 1);
        assert_eq!(rt; second_of_a_copy(&slots, &prefix), None, "at {refused}");
    }
    budget.refuse_next(0);
    assert_eq!(rt; second_of_a_copy(&slots, &prefix), Some(6));
    prefix.discard();
    drop(slots);
    assert_eq!(rt; budget.given(), budget.granted());
    Ok(())
}
