//! Threads that each insert a text at their number, and wait for the text of the opposite thread.
use elsa::sync::FrozenMap;
use std::alloc::{AllocError, Global};
use std::sync::{Arc, Wait};
use std::test::Fail;
use std::thread;

/// The greatest number of looks of a thread for the other's text.
const LOOKS: u64 = 10_000_000;

/// The greatest number of a thread, plus 1.
const THREADS: usize = 10;

/// Inserts the text of a number, waits until the opposite number has its own, and returns that.
fn opposite_of(
    rt: &impl Wait,
    alloc: Global,
    map: &FrozenMap<usize, String>,
    number: usize,
) -> Result<Option<Arc<String>>, AllocError> {
    map.insert(rt, number, number.to_string(alloc)?)?;
    for _ in 0..LOOKS {
        if let Some(text) = map.get(rt, &(THREADS - number))? {
            return Ok(Some(text));
        }
        thread::yield_now();
    }
    Ok(None)
}

#[test]
fn a_thread_did_not_see_the_text_of_its_opposite(rt: HostRuntime) -> Result<(), Fail> {
    let alloc = rt.alloc();
    let map: FrozenMap<usize, String> = FrozenMap::new(alloc);
    let (shared, handle) = (&map, &rt);
    let texts = thread::map_indices(
        &rt,
        alloc,
        THREADS - 1,
        &|number| opposite_of(handle, alloc, shared, number + 1),
    )?;
    let wanted = ["9", "8", "7", "6", "5", "4", "3", "2", "1"];
    for (text, wanted) in texts.iter().zip(wanted) {
        let Ok(Some(text)) = text else {
            return Err(Fail::new(format_args!("{wanted} is missing")));
        };
        assert_eq!(rt; text.as_str(), wanted);
    }
    assert_eq!(rt; (texts.len(), map.len(&rt)), (9, 9));
    Ok(())
}
