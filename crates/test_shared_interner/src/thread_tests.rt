//! Threads that put names at the same time. Each waits for the others first, so that they overlap.
use elsa_lock_free_map::interner::SharedInterner;
use elsa_lock_free_map::name::Name;
use std::process::Abort;
use std::sync::Wait;
use std::sync::atomic::{AtomicU64, Ordering};
use std::test::*;
use std::thread;

/// The greatest number of looks of a thread that waits for another.
const TURNS: u64 = 10_000_000;

/// Waits until the look returns `true`, and returns whether it did within the bound.
pub fn comes<F: FnMut() -> bool>(mut look: F) -> bool {
    for _ in 0..TURNS {
        if look() {
            return true;
        }
        thread::yield_now();
    }
    false
}

/// Counts this thread, and waits until `count` threads are counted.
pub fn meet_all(there: &AtomicU64, count: u64) -> bool {
    let _ = there.fetch_add(1, Ordering::SeqCst);
    comes(|| there.load(Ordering::SeqCst) >= count)
}

/// Returns the name with this number: "n00" to "n99".
fn numbered(number: usize) -> Option<Name> {
    let bytes = [b'n', b'0' + (number / 10) as u8, b'0' + (number % 10) as u8];
    Name::new(str::from_utf8(&bytes).ok()?).ok()
}

/// Puts a hundred names, from `first` on, and then finds them by putting them again. Returns the
/// number of each, or `None` if a call failed.
fn numbers<R: Wait + Abort>(
    rt: &R,
    interner: &SharedInterner,
    there: &AtomicU64,
    first: usize,
) -> Option<[usize; 100]> {
    let (mut names, mut numbers) = (interner.pass(), [999; 100]);
    assert!(rt; meet_all(there, 4));
    for i in 0..200 {
        let number = (first + i) % 100;
        let name = numbered(number)?;
        let index = interner.put(rt, &mut names, name).ok()?;
        assert!(rt;
            i < 100 || numbers[number] == index,
            "name {number} has two numbers"
        );
        assert!(rt;
            interner.at(&mut names, index) == Some(name),
            "name {number}"
        );
        numbers[number] = index;
    }
    Some(numbers)
}

#[test]
fn four_threads_had_two_numbers_for_a_name(rt: HostRuntime) -> Result<(), Fail> {
    let (interner, handle) = (SharedInterner::<Name>::new(rt.alloc())?, &rt);
    let there = AtomicU64::new(0);
    let found = thread::map_indices(
        handle,
        rt.alloc(),
        4,
        &|thread| numbers(handle, &interner, &there, 25 * thread),
    )?;
    let Some(mut numbers) = found[0] else {
        return Err(Fail::from("a name was not put"));
    };
    assert_eq!(rt; found.as_slice(), [Some(numbers); 4].as_slice());
    numbers.sort_unstable();
    for (index, number) in numbers.iter().enumerate() {
        assert_eq!(rt; *number, index);
    }
    Ok(())
}
