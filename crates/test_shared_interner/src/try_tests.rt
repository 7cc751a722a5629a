//! A name that is put without waiting, while another thread's call is halted.
use crate::thread_tests::comes;
use elsa_lock_free::may_lock::{AttemptFault, LockPermit};
use elsa_lock_free_map::interner::SharedInterner;
use elsa_lock_free_map::place_text::TextBuffer;
use std::alloc::Global;
use std::hash::{BuildHasherDefault, FoldHasher};
use std::test::*;
use std::thread;
use test_alloc::Budget;

/// What a call returned: the name's index, or the name that it has not put.
#[derive(Clone, Copy, Debug, PartialEq)]
enum Tried<T> {
    At(usize),
    Busy(T),
    Failed,
}

fn outcome_of<T>(answer: Result<usize, AttemptFault<T>>) -> Tried<T> {
    match answer {
        Ok(index) => Tried::At(index),
        Err(AttemptFault::Busy(name)) => Tried::Busy(name),
        Err(AttemptFault::Failed(_)) => Tried::Failed,
    }
}

/// Puts "one" by a call that is halted in its request, and "seven" meanwhile by a buffer. Then puts
/// the copy that this call returned.
#[test]
fn a_put_into_a_locked_interner_did_not_return_the_copy(rt: HostRuntime) -> Result<(), Fail> {
    let (heap, mut bytes) = (Budget::<Global>::new(rt.alloc()), [0u8; 64]);
    let (mut buffer, may) = (TextBuffer::new(&mut bytes), LockPermit::trying(rt.alloc()));
    let interner: SharedInterner<&str, BuildHasherDefault<FoldHasher>, &Budget<Global>> =
        SharedInterner::new(&heap)?;
    heap.halt_next();
    let ((halted, put, still, seen, room), first) = thread::join(
        &rt,
        || {
            let mut names = interner.handle();
            let halted = comes(|| heap.is_halted());
            let put = outcome_of(names.try_put_text(may, &mut buffer, "seven"));
            let still = heap.is_halted();
            heap.go_on();
            (halted, put, still, names.seen_len(), buffer.room())
        },
        || outcome_of(interner.handle().try_put(may, "one")),
    );
    assert_eq!(rt; (halted, still), (true, true));
    assert_eq!(rt; (put, seen, room), (Tried::Busy("seven"), 0, 59));
    assert_eq!(rt; first, Tried::At(0));
    let Tried::Busy(copy) = put else {
        return Err(Fail::from("the copy was not returned"));
    };
    let got = outcome_of(interner.handle().try_put(may, copy));
    assert_eq!(rt; got, Tried::At(1));
    assert_eq!(rt; interner.handle().len(), 2);
    Ok(())
}
