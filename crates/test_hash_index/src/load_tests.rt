//! The loads of a look-up, in a row of which two thirds are set: of groups of tags, and of numbers.
use elsa_hash_index::probe::{Words, enter, find};
use elsa_hash_index::row::Row;
use std::simd::prelude::*;
use std::test::*;

/// The number of index entries of the row.
const COUNT: usize = 6_000;

/// The number of indices that are entered.
const ENTERED: usize = 4_000;

/// The index entries of another view, and the numbers of loads.
#[derive(Drop)]
struct Counting<W> {
    words: W,
    groups: u64,
    numbers: u64,
}

impl<S, W: Words<S>> Words<S> for Counting<W> {
    ghost whose = { λ c. W.whose c.words };

    ghost count = { λ c. W.count c.words };

    ghost known = { λ c. W.known c.words };

    fn len(&self) -> usize {
        self.words.len()
    }

    fn tag(&mut self, at: usize) -> u64 {
        self.words.tag(at)
    }

    fn tags(&mut self, group: usize) -> u8x16 {
        self.groups = self.groups.wrapping_add(1);
        self.words.tags(group)
    }

    fn number(&mut self, at: usize) -> u64 {
        self.numbers = self.numbers.wrapping_add(1);
        self.words.number(at)
    }

    fn set_tag(&mut self, at: usize, tag: u64) -> bool {
        self.words.set_tag(at, tag)
    }

    fn set_number(&mut self, at: usize, number: u64) -> bool {
        self.words.set_number(at, number)
    }
}

/// Returns 32 bits of a hash of a number. These hashes are well distributed.
fn hash_of(number: usize) -> u32 {
    let once = (number as u64)
        .wrapping_add(1)
        .wrapping_mul(0x9e37_79b9_7f4a_7c15);
    let twice = (once ^ (once >> 31)).wrapping_mul(0xbf58_476d_1ce4_e5b9);
    (twice >> 32) as u32
}

/// Looks each entered index up, and the same number of absent ones.
#[test]
fn a_look_up_walked_the_row_or_read_the_number_of_another_key(rt: HostRuntime) -> Result<(), Fail> {
    let row = Row::new(rt.alloc(), COUNT, 7u64)?;
    let mut view = Counting {
        words: row.view(),
        groups: 0,
        numbers: 0,
    };
    for index in 0..ENTERED {
        enter(&mut view, hash_of(index), index)?;
    }
    let entered = ENTERED as u64;
    for (is_present, most_groups, most_numbers) in [
        (true, 41 * (entered / 40), 41 * (entered / 40)),
        (false, 11 * (entered / 10), entered / 20),
    ] {
        (view.groups, view.numbers) = (0, 0);
        for index in 0..ENTERED {
            let hash = hash_of(if is_present { index } else { index + ENTERED });
            let found = find(&mut view, hash, ENTERED, |p| is_present && p == index);
            assert_eq!(rt; found, if is_present { Some(index) } else { None });
        }
        let (groups, numbers) = (view.groups, view.numbers);
        assert!(rt;
            groups <= most_groups,
            "{groups} groups, present: {is_present}"
        );
        assert!(rt;
            numbers <= most_numbers,
            "{numbers} numbers, present: {is_present}"
        );
    }
    Ok(())
}
