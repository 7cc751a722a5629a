//! The interner of shards: one number for each name, whichever thread puts it and however the names
//! are spread over the shards.
use crate::thread_tests::meet_all;
use bumpalo::Bump;
use elsa_lock_free::may_lock::LockPermit;
use elsa_lock_free_map::name::Name;
use elsa_shards::interner::ShardedInterner;
use std::alloc::Global;
use std::hash::{BuildHasherDefault, FoldHasher};
use std::process::Abort;
use std::sync::Wait;
use std::sync::atomic::AtomicU64;
use std::test::*;
use std::thread;
use test_script::WORDS;

/// The number of names that four threads put.
const MANY: u64 = 100_000;

/// The number of names of one shard.
const FEW: usize = 500;

type Numbered = ShardedInterner<u64, BuildHasherDefault<FoldHasher>, Global>;

/// Puts all names, from another one on in each thread. Returns a sum that differs if a name has
/// another number, or `None` if a call fails.
fn sum_of_numbers<R: Wait + Abort>(
    rt: &R,
    interner: &Numbered,
    there: &AtomicU64,
    thread: u64,
) -> Option<u64> {
    let mut names = interner.handle().ok()?;
    assert!(rt; meet_all(there, 4));
    let mut sum = 0u64;
    for turn in 0..MANY {
        let name = (thread * (MANY / 4) + turn) % MANY;
        let number = names.put(rt, name).ok()?;
        assert_eq!(rt; names.at(number), Some(name));
        sum = sum.wrapping_add((number as u64).wrapping_mul(2 * name + 1));
    }
    Some(sum)
}

#[test]
fn a_name_of_four_threads_had_two_numbers(rt: HostRuntime) -> Result<(), Fail> {
    let (interner, there, handle) = (Numbered::new(rt.alloc())?, AtomicU64::new(0), &rt);
    let sums = thread::map_indices(
        handle,
        rt.alloc(),
        4,
        &|thread| sum_of_numbers(handle, &interner, &there, thread as u64),
    )?;
    assert!(rt; sums[0].is_some());
    assert_eq!(rt; sums.as_slice(), [sums[0]; 4].as_slice());
    let mut names = interner.handle()?;
    assert_eq!(rt; names.len() as u64, MANY);
    for name in 0..MANY {
        let number = names.find(&name).unwrap_or(usize::MAX);
        assert_eq!(rt; names.at(number), Some(name));
    }
    Ok(())
}

/// The numbers of names that all belong to the first shard are the multiples of the number of
/// shards, in the order in which the names came.
#[test]
fn names_of_one_shard_had_other_numbers(rt: HostRuntime) -> Result<(), Fail> {
    let interner = Numbered::new(rt.alloc())?;
    let mut names = interner.handle()?;
    let (shards, mut index) = (names.shards().len(), 0);
    for name in 0..1_000_000 {
        if index == FEW {
            break;
        }
        if names.shard_index(name) == 0 {
            let number = names.put(&rt, name)?;
            assert_eq!(rt; (number, names.at(number)), (index * shards, Some(name)));
            index += 1;
        }
    }
    let got = (index, names.len(), names.at(index * shards));
    assert_eq!(rt; got, (FEW, FEW, None));
    Ok(())
}

/// Puts each word by a call that doesn't wait, and by one that does.
#[test]
fn a_text_had_two_numbers_in_shards(rt: HostRuntime) -> Result<(), Fail> {
    let (alloc, arena) = (rt.alloc(), Bump::new(rt.alloc()));
    let interner: ShardedInterner<&str> = ShardedInterner::new(alloc)?;
    let (mut names, may) = (interner.handle()?, LockPermit::trying(alloc));
    for word in WORDS {
        assert_eq!(rt; names.find(word), None);
        let Ok(number) = names.try_put_text(may, &arena, word) else {
            return Err(Fail::from("a text could not be put without waiting"));
        };
        assert_eq!(rt; (word, names.put_text(&rt, &arena, word)?), (word, number));
        let got = (names.find(word), names.at(number));
        assert_eq!(rt; got, (Some(number), Some(word)));
    }
    for (index, word) in WORDS.iter().enumerate() {
        let number = names.find(*word).unwrap_or(usize::MAX);
        assert_eq!(rt; (index, names.at(number)), (index, Some(*word)));
    }
    assert_eq!(rt; (names.find("ow"), names.len()), (None, 16));
    Ok(())
}

/// Each of two handles observes one name, and both after they are merged.
#[test]
fn a_handle_lacked_the_name_of_another(rt: HostRuntime) -> Result<(), Fail> {
    let interner: ShardedInterner = ShardedInterner::new(rt.alloc())?;
    let (mut one, mut two) = (interner.handle()?, interner.handle()?);
    one.put(&rt, Name::new("fox")?)?;
    two.put(&rt, Name::new("owl")?)?;
    assert_eq!(rt; (one.seen_len(), two.seen_len()), (1, 1));
    one.meet(&mut two);
    assert_eq!(rt; (one.seen_len(), two.seen_len()), (2, 2));
    Ok(())
}

#[test]
fn the_greatest_number_was_more_than_a_tenth_above_the_count(rt: HostRuntime) -> Result<(), Fail> {
    let interner = Numbered::new(rt.alloc())?;
    let (mut names, mut greatest) = (interner.handle()?, 0);
    for name in 0..MANY {
        greatest = greatest.max(names.put(&rt, name)?);
    }
    assert!(rt; greatest < 110_000, "{greatest}");
    Ok(())
}
