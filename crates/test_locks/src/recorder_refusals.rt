//! The recorder over sequential objects on a budget, with each request for memory denied in turn,
//! inside the object or in the recorder. A call that fails adds neither an entry nor a receipt, and
//! the receipts are the history.
use elsa_history::{Core, MapCommand, MapReply, Recorder, VecCommand, VecReply};
use elsa_locks::map::{MapState, TreeState};
use elsa_locks::vec::VecState;
use std::alloc::Global;
use std::fmt::Debug;
use std::hash::{BuildHasherDefault, FoldHasher};
use std::process::Abort;
use std::sync::Wait;
use std::test::Fail;
use test_alloc::Budget;

type Heap<'b> = &'b Budget<Global>;

type Hashed<'b> = MapState<usize, usize, BuildHasherDefault<FoldHasher>, Heap<'b>>;

type Ordered<'b> = TreeState<usize, usize, Heap<'b>>;

type List<'b> = VecState<usize, Heap<'b>>;

const CALLS: usize = 32;

// A new key, the same key again, another new key, and then its value or the number of keys.
fn map_call(number: usize) -> (MapCommand<usize, usize>, MapReply<usize>) {
    let key = number / 2;
    match number % 8 {
        0 | 4 => (
            MapCommand::InsertNew(key, number),
            MapReply::ValueNew(number, true),
        ),
        1 => (
            MapCommand::InsertNew(key, 99),
            MapReply::ValueNew(number - 1, false),
        ),
        2 | 6 => (MapCommand::Insert(key, number), MapReply::Value(number)),
        3 => (MapCommand::Get(key), MapReply::Found(Some(number - 1))),
        5 => (MapCommand::Insert(key, 99), MapReply::Value(number - 1)),
        _ => (MapCommand::Len, MapReply::Count(number.div_ceil(2))),
    }
}

fn list_call(number: usize) -> (VecCommand<usize>, VecReply<usize>) {
    match number % 4 {
        0 | 2 => (VecCommand::Push(number), VecReply::Place(number / 2)),
        1 => (
            VecCommand::Get(number / 2),
            VecReply::Found(Some(number - 1)),
        ),
        _ => (VecCommand::Len, VecReply::Count(number.div_ceil(2))),
    }
}

// Makes the calls by one pass with memory of `heap`, and repeats a call that fails. Checks the
// replies, the receipts and the history, and returns the object with the number of calls that
// failed.
fn recorded<'b, R: Wait + Abort, C: Core + Drop>(
    rt: &R,
    heap: Heap<'b>,
    open: Heap<'b>,
    core: C,
    call: impl Fn(usize) -> (C::Command, C::Reply),
) -> Result<(C, u64), Fail>
where
    C::Command: Debug,
    C::Reply: Debug,
{
    let recorder = Recorder::new(heap, core);
    let (asked, mut failures) = (heap.asked(), 0);
    let mut pass = recorder.pass(7);
    assert_eq!(rt; heap.asked(), asked);
    for number in 0..CALLS {
        let (command, reply) = call(number);
        let refused = heap.refused();
        let mut got = recorder.call(rt, &mut pass, command);
        if got.is_err() {
            failures += 1;
            assert_eq!(rt; (number, pass.receipts().len()), (number, number));
            assert!(rt;
                heap.refused() > refused,
                "call {number} failed, with memory"
            );
            heap.refuse_next(0);
            got = recorder.call(rt, &mut pass, command);
        }
        assert_eq!(rt; (number, got), (number, Ok(reply)));
        assert_eq!(rt; pass.receipts().len(), number + 1);
    }
    let mut passes = Vec::with_capacity(open, 1)?;
    passes.push(pass)?;
    let asked = heap.asked();
    let Ok(history) = recorder.close(passes) else {
        return Err(Fail::from("the receipts are the history"));
    };
    assert_eq!(rt; heap.asked(), asked);
    assert_eq!(rt; history.entries().len(), CALLS);
    for (number, entry) in history.entries().iter().enumerate() {
        let (command, reply) = call(number);
        assert_eq!(rt; *entry, (7, command, reply));
    }
    Ok((history.into_parts().0, failures))
}

// Makes the calls with no request denied, with each request denied alone, and with all requests
// from each on denied until a call fails. `runs` returns the number of calls that failed.
fn refuses_each<R: Abort>(
    rt: &R,
    alloc: Global,
    runs: impl Fn(Heap<'_>, Heap<'_>) -> Result<u64, Fail>,
) -> Result<(), Fail> {
    let (first, open) = (Budget::new(alloc), Budget::new(alloc));
    assert_eq!(rt; runs(&first, &open)?, 0);
    assert_eq!(rt; first.given(), first.granted());
    let requests = first.asked();
    assert!(rt; requests > 20, "{requests} requests");
    for number in 0..requests {
        for to in [number + 1, u64::MAX] {
            let heap = Budget::new(alloc);
            heap.refuse(number, to);
            let failures = runs(&heap, &open)?;
            // An object may make another request instead of one that is denied.
            let is_told = failures == 1 || failures == 0 && heap.asked() > requests;
            assert!(rt;
                is_told && heap.refused() > 0,
                "{number}..{to}: {failures} failed"
            );
            assert_eq!(rt; heap.given(), heap.granted(), "{number}..{to}");
        }
    }
    Ok(())
}

#[test]
fn a_refused_call_added_an_entry_or_a_receipt(rt: HostRuntime) -> Result<(), Fail> {
    refuses_each(&rt, rt.alloc(), |heap, open| {
        let (map, failed) = recorded(&rt, heap, open, Hashed::new(heap), map_call)?;
        assert_eq!(rt; (map.len(), map.get_copy(&15)), (16, Some(30)));
        Ok(failed)
    })?;
    refuses_each(&rt, rt.alloc(), |heap, open| {
        let (map, failed) = recorded(&rt, heap, open, Ordered::new(heap), map_call)?;
        let got = (map.len(), map.map_get(&15, |value| *value));
        assert_eq!(rt; got, (16, Some(30)));
        Ok(failed)
    })?;
    refuses_each(&rt, rt.alloc(), |heap, open| {
        let (list, failed) = recorded(&rt, heap, open, List::new(heap), list_call)?;
        let got = (list.len(), list.get(15)?.map(|item| *item));
        assert_eq!(rt; got, (16, Some(30)));
        Ok(failed)
    })
}
