//! Examples of the geometry: the buffer of an index, and the moment when a buffer is opened.
use crate::schedule_rows::{PlanRow, plans_of, schedule_of};
use elsa_machine::machine::run;
use elsa_slots::geometry::{buffer_index, buffer_size, locate, prior_total_buffer_size};
use std::alloc::AllocError;

#[test]
fn a_buffer_was_opened_too_early_or_late(rt: HostRuntime) -> Result<(), AllocError> {
    let alloc = rt.alloc();
    let items = [0; 16];
    let plans = plans_of(alloc, &[PlanRow::Pusher(&items)])?;

    // Each row has a number of turns, and the length and the number of slots in open buffers after
    // them. The fourth row is during the push at length 3.
    for (turns, length, slots) in [
        (0, 0, 0),
        (5, 1, 3),
        (13, 3, 3),
        (16, 3, 15),
        (18, 4, 15),
        (62, 15, 15),
        (67, 16, 63),
    ] {
        let schedule = schedule_of(alloc, vec![in alloc; 0; turns]?.as_slice(), 99)?;
        let world = run(alloc, &plans, &schedule)?;
        let got = (turns, world.length, prior_total_buffer_size(world.opened));
        assert_eq!(rt; got, (turns, length, slots));
    }
    Ok(())
}

/// The greatest index.
const LAST: usize = (1 << 62) - 2;

#[test]
fn an_index_was_located_in_the_wrong_buffer_or_slot(rt: HostRuntime) {
    for (index, buffer, slot) in [
        (0, 0, 0),
        (2, 0, 2),
        (3, 1, 0),
        (14, 1, 11),
        (15, 2, 0),
        (62, 2, 47),
        (63, 3, 0),
        (LAST, 30, 3458764513820540927),
    ] {
        assert_eq!(rt; (index, buffer_index(index)), (index, buffer));
        assert_eq!(rt; (index, locate(index)), (index, (buffer, slot)));
    }
    let got = [buffer_size(0), buffer_size(31)];
    assert_eq!(rt; got, [3, 13835058055282163712]);
    let before = [prior_total_buffer_size(0), prior_total_buffer_size(31)];
    assert_eq!(rt; before, [0, 4611686018427387903]);
}
