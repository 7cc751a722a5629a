//! The lock-free vector, by `elsa` alone: each call of a handle, of a view, and of the vector, and
//! a histogram of samples that four threads push.
use elsa::sync::{Handle, LockFreeFrozenVec};
use std::alloc::AllocError;
use std::sync::Wait;
use std::test::Fail;
use std::thread;

type Vector = LockFreeFrozenVec<u64>;

#[test]
fn a_call_of_a_handle_had_a_wrong_result(rt: HostRuntime) -> Result<(), Fail> {
    let vector: Vector = LockFreeFrozenVec::new(rt.alloc())?;
    let mut handle = vector.handle();
    assert_eq!(rt; (handle.get(0), handle.seen_len()), (None, 0));
    assert_eq!(rt;
        (handle.push(&rt, 7)?, handle.get(0), handle.len()),
        (0, Some(7), 1)
    );
    assert_eq!(rt; (handle.iter().next(), handle.iter().count()), (Some(7), 1));
    assert_eq!(rt; *handle.item(0), 7);
    let (copy, pass) = handle.clone_vector()?;
    let mut copied = Handle::of(&copy, pass);
    assert_eq!(rt; (copied.iter().next(), copied.iter().count()), (Some(7), 1));
    assert!(rt; handle.equals(&mut copied));
    let mut reader = vector.handle();
    assert_eq!(rt;
        (reader.news().last(), reader.news().next()),
        (Some(7), None)
    );
    let mut other = vector.handle();
    other.meet(&mut reader);
    assert_eq!(rt;
        (other.news().next(), other.seen_len(), other.iter().next()),
        (None, 1, Some(7))
    );
    let mut waiting = vector.handle();
    assert_eq!(rt; waiting.wait_for_news(&rt, 2).last(), Some(7));
    assert_eq!(rt; waiting.wait_for_news(&rt, 2).next(), None);
    let mut one = Handle::of(&vector, handle.into_pass());
    let mut last = vector.handle();
    last.meet(&mut one);
    assert_eq!(rt; (last.seen_len(), last.iter().next()), (1, Some(7)));
    let observed = last.observed();
    assert_eq!(rt; (observed.len(), *observed.item(0)), (1, 7));
    Ok(())
}

#[test]
fn a_handle_did_not_see_what_another_pushed(rt: HostRuntime) -> Result<(), Fail> {
    let vector: Vector = LockFreeFrozenVec::new(rt.alloc())?;
    let (mut own, mut other, mut last) = (vector.handle(), vector.handle(), vector.handle());
    assert_eq!(rt;
        (own.push(&rt, 7)?, other.get(0), other.seen_len()),
        (0, Some(7), 1)
    );
    let (short, seen) = other.clone_vector()?;
    let mut short = Handle::of(&short, seen);
    assert_eq!(rt;
        (own.push(&rt, 8)?, other.seen_len(), last.len()),
        (1, 1, 2)
    );
    assert!(rt; !other.equals(&mut short));
    assert_eq!(rt; other.get(1), Some(8));
    let (copy, pass) = vector.handle().clone_vector()?;
    let mut copied = Handle::of(&copy, pass);
    assert_eq!(rt; copied.get(1), Some(8));
    assert!(rt; vector.handle().equals(&mut copied));
    let mut part = vector.handle();
    assert_eq!(rt; (part.get(0), vector.handle().push(&rt, 9)?), (Some(7), 2));
    let (copy, pass) = part.clone_vector()?;
    assert_eq!(rt; Handle::of(&copy, pass).get(2), Some(9));
    Ok(())
}

#[test]
fn a_call_with_a_view_had_a_wrong_result(rt: HostRuntime) -> Result<(), Fail> {
    let vector: Vector = LockFreeFrozenVec::new(rt.alloc())?;
    let (mut pass, mut other) = (vector.pass(), vector.pass());
    assert_eq!(rt;
        (vector.push_as(&rt, &mut pass, 7)?, pass.seen_len()),
        (0, 1)
    );
    assert_eq!(rt;
        (vector.get_as(&mut pass, 0), vector.len_as(&mut pass)),
        (Some(7), 1)
    );
    let seen = Handle::of(&vector, pass.again());
    assert_eq!(rt; (seen.iter().next(), seen.iter().count()), (Some(7), 1));
    let (copy, mut copy_pass) = vector.clone_as(&mut pass)?;
    let copied = Handle::of(&copy, copy_pass.again());
    assert_eq!(rt; (copied.iter().next(), copied.iter().count()), (Some(7), 1));
    assert!(rt; vector.equals_as(&mut pass, &copy, &mut copy_pass));
    let before = other.seen_len();
    other.meet(&mut pass);
    assert_eq!(rt; (before, other.seen_len()), (0, 1));
    Ok(())
}

#[test]
fn a_call_without_a_view_had_a_wrong_result(rt: HostRuntime) -> Result<(), Fail> {
    let vector: Vector = LockFreeFrozenVec::new(rt.alloc())?;
    assert_eq!(rt; (vector.is_empty(), vector.push(&rt, 7)?), (true, 0));
    let copy = vector.clone()?;
    assert!(rt; vector.equals(&copy));
    assert_eq!(rt; (copy.get(0), copy.len()), (Some(7), 1));
    Ok(())
}

#[test]
fn a_vector_of_distinct_items_pushed_twice_at_one_index(rt: HostRuntime) -> Result<(), Fail> {
    let vector: Vector = LockFreeFrozenVec::new(rt.alloc())?;
    assert!(rt; !vector.is_distinct());
    let vector = LockFreeFrozenVec::distinct(rt.alloc())?;
    let mut pass = vector.pass();
    let index = vector.push_at_as(&rt, &mut pass, 0, 7u64)?;
    assert_eq!(rt; (index, vector.get_as(&mut pass, 0)), (Some(0), Some(7)));
    assert!(rt; vector.is_distinct());
    let vector = LockFreeFrozenVec::distinct(rt.alloc())?;
    let mut handle = vector.handle();
    let pushed = (handle.push_at(&rt, 0, 7u64)?, handle.push_at(&rt, 0, 9)?);
    assert_eq!(rt; (pushed, handle.get(0)), ((Some(0), None), Some(7)));
    Ok(())
}

#[test]
fn a_text_of_the_vector_did_not_come_out_or_printed_otherwise(rt: HostRuntime) -> Result<(), Fail> {
    let alloc = rt.alloc();
    for is_viewed in [true, false] {
        let texts: LockFreeFrozenVec<String> = LockFreeFrozenVec::new(alloc)?;
        for text in ["b", "a"] {
            texts.handle().push(&rt, String::from_str(alloc, text)?)?;
        }
        let mut handle = texts.handle();
        let mut walk = handle.news().refs().map(|text| text.as_str());
        let walked = [walk.next(), walk.next(), walk.next()];
        assert_eq!(rt; walked, [Some("b"), Some("a"), None]);
        drop(walk);
        drop(handle);
        let mut view = texts.pass();
        let items = match is_viewed {
            true => texts.into_vec_as(&mut view)?,
            false => texts.into_vec()?,
        };
        let items: Vec<&str> = items.iter().map(|text| text.as_str()).collect(alloc)?;
        assert_eq!(rt; items.as_slice(), ["b", "a"].as_slice());
        assert_eq!(rt; view.seen_len(), if is_viewed { 2 } else { 0 });
    }
    let words: LockFreeFrozenVec<&str> = LockFreeFrozenVec::new(alloc)?;
    words.push(&rt, "b")?;
    words.push(&rt, "a")?;
    let printed = format!(in alloc; "{words:?}")?;
    assert_eq!(rt; printed.as_str(), "[\"b\", \"a\"]");
    Ok(())
}

/// The number of samples of each thread.
const SAMPLES: u64 = 250;

/// Pushes all samples of a thread. Those of thread 0 are all 0; those of thread 3 repeat 0 to 3.
fn feed(rt: &impl Wait, samples: &Vector, thread: u64) -> Result<(), AllocError> {
    let mut samples = samples.handle();
    for time in 0..SAMPLES {
        samples.push(rt, time % (thread + 1))?;
    }
    Ok(())
}

#[test]
fn a_histogram_of_four_threads_lost_a_sample(rt: HostRuntime) -> Result<(), Fail> {
    let samples: Vector = LockFreeFrozenVec::new(rt.alloc())?;
    let shared = &samples;
    for fed in thread::map_indices(
        &rt,
        rt.alloc(),
        4,
        &|thread| feed(&rt, shared, thread as u64),
    )? {
        fed?;
    }
    let mut seen = samples.handle();
    assert_eq!(rt; seen.len(), 1000);
    // Of 250 samples each, 250, 125, 84 and 63 are 0; 125, 83 and 63 are 1; 83 and 62 are 2; 62 are
    // 3.
    for (sample, count) in [(0, 522), (1, 271), (2, 145), (3, 62), (4, 0)] {
        assert_eq!(rt;
            (sample, seen.iter().filter(|it| *it == sample).count()),
            (sample, count)
        );
    }
    Ok(())
}
