//! Four threads enter indices into one hash index at the same time, and find what they entered.
use elsa_hash_index::probe::{enter, find};
use elsa_hash_index::row::Row;
use std::test::*;
use std::thread;

/// Returns a hash of an index. Many of these hashes are equal.
fn hash_of(index: usize) -> u32 {
    ((index as u64 % 101).wrapping_mul(2_654_435_761) & 0xFFFF_FFFF) as u32
}

#[test]
fn a_thread_lost_an_index_entry(rt: HostRuntime) -> Result<(), Fail> {
    let row = Row::new(rt.alloc(), 1024, 7u64)?;
    let lost = thread::map_indices(
        &rt,
        rt.alloc(),
        4,
        &|thread| {
            let mut view = row.view();
            (100 * thread..100 * thread + 100).find(|index| {
                enter(&mut view, hash_of(*index), *index).is_err()
                    || find(&mut view, hash_of(*index), 400, |p| p == *index) != Some(*index)
            })
        },
    )?;
    assert_eq!(rt; lost.as_slice(), [None; 4].as_slice());
    let mut view = row.view();
    for index in 0..400 {
        let hash = hash_of(index);
        assert_eq!(rt; find(&mut view, hash, 400, |p| p == index), Some(index));
        let got = (index, find(&mut view, hash, index, |p| p == index));
        assert_eq!(rt; got, (index, None));
    }
    assert_eq!(rt; find(&mut view, 5, 400, |_| true), None);
    Ok(())
}
