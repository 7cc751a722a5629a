//! The first group that a look-up reads in a row of more than 2^32 groups, of which no memory has
//! any.
use elsa_hash_index::probe::{Words, find};
use elsa_hash_index::row::Row;
use std::simd::prelude::*;
use std::test::*;

/// The number of index entries of the row: sixteen for each of its `6 * 2^30` groups.
const COUNT: usize = 96 << 30;

/// A row of `COUNT` index entries, all of them 0, which remembers the group whose tags were loaded
/// last.
#[derive(Drop)]
struct Vacant<W> {
    words: W,
    loaded: usize,
}

impl<S, W: Words<S>> Words<S> for Vacant<W> {
    ghost whose = { λ v. W.whose v.words };

    ghost count = { λ v. 103079215104 };

    ghost known = { λ v i. 0 };

    fn len(&self) -> usize {
        COUNT
    }

    fn tag(&mut self, _at: usize) -> u64 {
        0
    }

    fn tags(&mut self, group: usize) -> u8x16 {
        self.loaded = group;
        u8x16::splat(0)
    }

    fn number(&mut self, _at: usize) -> u64 {
        0
    }

    fn set_tag(&mut self, _at: usize, _tag: u64) -> bool {
        false
    }

    fn set_number(&mut self, _at: usize, _number: u64) -> bool {
        false
    }
}

// A hash that is half of 2^32 leads to the middle of the row, and so on: 6 * 2^30 times 1/4, 1/2,
// 2/3 and 3/4. The greatest hash leads to the last group but one, since 6 * 2^30 / 2^32 is more
// than 1.
#[test]
fn a_look_up_of_a_long_row_began_elsewhere(rt: HostRuntime) -> Result<(), Fail> {
    for (hash, group) in [
        (0, 0),
        (0x4000_0000, 1_610_612_736),
        (0x8000_0000, 3_221_225_472),
        (0xAAAA_AAAB, 4_294_967_296),
        (0xC000_0000, 4_831_838_208),
        (0xFFFF_FFFF, 6_442_450_942),
    ] {
        let row = Row::new(rt.alloc(), 1, 7u64)?;
        let mut vacant = Vacant {
            words: row.view(),
            loaded: COUNT,
        };
        let found = find(&mut vacant, hash, 0, |_| false);
        assert_eq!(rt; (hash, found, vacant.loaded), (hash, None, group));
    }
    Ok(())
}
