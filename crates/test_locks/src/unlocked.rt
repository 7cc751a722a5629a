//! Code of the caller that runs without the lock: closures that read a value, the drop of a value
//! that isn't stored, and a comparison with another collection. If it ran under the lock, a call of
//! another thread on the same collection could wait for it, and it for that call: a deadlock.
use crate::marks::{Talk, Watched};
use elsa_locks::vec::FrozenVec;
use std::test::Fail;

// A closure under the lock would wait in vain for the insertion. It then reads nothing, since that
// read would wait for the insertion, which waits for the lock.
#[test]
fn a_closure_that_reads_a_value_had_the_lock(rt: HostRuntime) -> Result<(), Fail> {
    let handle = &rt;
    each_map! { rt.alloc(), u64, u64; map, kind => {
        map.insert(&rt, 1, 6)?;
        let talk = Talk::new();
        let read = |_: &u64| {
            talk.shares();
            if talk.is_right() { map.get_copy(handle, &2) } else { None }
        };
        let (read, put, returned) = talk.beside(
            handle,
            || map.map_get(handle, &1, read),
            || map.insert(handle, 2, 9).is_ok(),
        );
        assert_eq!(rt; (read, put, returned), (Some(Some(9)), true, true), "{kind}");
    }}
    Ok(())
}

// A value whose drop waits until another thread's call returns.
struct Dropped<'t> {
    talk: &'t Talk,
}

impl Drop for Dropped<'_> {
    fn drop(self) {
        let Self { talk } = self;
        talk.shares();
    }
}

#[test]
fn a_value_for_a_present_key_was_dropped_under_the_lock(rt: HostRuntime) -> Result<(), Fail> {
    let (handle, talks) = (&rt, [Talk::new(), Talk::new()]);
    each_map! { rt.alloc(), u64, Dropped<'_>; map, kind => {
        let talk = if kind == "hashed" { &talks[0] } else { &talks[1] };
        assert!(rt; map.insert(&rt, 1, Dropped { talk }).is_ok());
        let (put, count, returned) = talk.beside(
            handle,
            || map.insert(handle, 1, Dropped { talk }).is_ok(),
            || map.len(handle),
        );
        assert_eq!(rt; (put, count, returned), (true, 1, true), "{kind}");
    }}
    Ok(())
}

// Checks that a comparison has no lock of its own collection while it has the other's, and compares
// what the collections had when it began.
#[test]
fn a_comparison_had_the_lock_of_its_own_collection(rt: HostRuntime) -> Result<(), Fail> {
    let (handle, alloc) = (&rt, rt.alloc());
    let talks = [Talk::new(), Talk::new(), Talk::new()];
    let watched = |number: u64, at: usize| Watched {
        number,
        talk: &talks[at],
    };
    let (one, two) = (FrozenVec::new(alloc), FrozenVec::new(alloc));
    one.push(&rt, watched(7, 0))?;
    two.push(&rt, watched(7, 0))?;
    let (equal, put, returned) = talks[0].beside(
        handle,
        || one.equals(handle, &two),
        || one.push(handle, watched(8, 0)).is_ok(),
    );
    assert_eq!(rt; (equal, put, returned), (Ok(true), true, true));
    each_map! { alloc, u64, Watched<'_>; one, kind => {
        let at = if kind == "hashed" { 1 } else { 2 };
        one.insert(&rt, 7, watched(7, at))?;
        let two = one.clone(&rt)?;
        let (equal, put, returned) = talks[at].beside(
            handle,
            || one.equals(handle, &two),
            || one.insert(handle, 8, watched(8, at)).is_ok(),
        );
        assert_eq!(rt; (equal, put, returned), (Ok(true), true, true), "{kind}");
    }}
    Ok(())
}
