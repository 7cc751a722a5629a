//! Recordings by one thread and by two, and which of them close.
use crate::marks::Mark;
use elsa_history::laws::{recorded_alone, recorded_in_parts};
use elsa_history::{
    CloseFault, Core, History, MapCommand, MapReply, ReceiptsFault, RecordPass, Recorder,
    VecCommand, VecReply,
};
use elsa_locks::map::MapState;
use elsa_locks::vec::VecState;
use std::alloc::{AllocError, Allocator, Global};
use std::sync::Wait;
use std::test::Fail;
use std::thread;
use test_alloc::Budget;

type Numbers = MapState<u64, u64>;

type List = VecState<u64>;

fn numbers(alloc: Global) -> Recorder<Numbers> {
    Recorder::new(alloc, MapState::new(alloc))
}

// Makes the list of these passes.
fn all<C: Core, const N: usize>(
    alloc: Global,
    passes: [RecordPass<C>; N],
) -> Result<Vec<RecordPass<C>>, AllocError> {
    Ok(Vec::from_array(alloc, passes)?)
}

// Returns how the receipts of a close differ from the history, or `None` if they don't.
fn fault_of<C: Core + Drop, A: Allocator + Drop>(
    closed: Result<History<C, A>, CloseFault<C, A>>,
) -> Option<ReceiptsFault> {
    match closed {
        Ok(_history) => None,
        Err(CloseFault::Receipts(fault, _history)) => Some(fault),
    }
}

#[test]
fn two_insertions_at_one_key_had_other_replies(rt: HostRuntime) -> Result<(), Fail> {
    let recorder = numbers(rt.alloc());
    let (mut one, mut two) = (recorder.pass(1), recorder.pass(2));
    let (first, second) = (MapCommand::Insert(1, 6), MapCommand::Insert(1, 12));
    assert_eq!(rt; recorder.call(&rt, &mut one, first)?, MapReply::Value(6));
    assert_eq!(rt; recorder.call(&rt, &mut two, second)?, MapReply::Value(6));
    let Ok(history) = recorder.close(all(rt.alloc(), [one, two])?) else {
        return Err(Fail::from("the receipts are the history"));
    };
    let entries = [
        (1, first, MapReply::Value(6)),
        (2, second, MapReply::Value(6)),
    ];
    assert_eq!(rt; history.entries(), entries.as_slice());
    assert_eq!(rt; history.core().get_copy(&1), Some(6));
    Ok(())
}

#[test]
fn the_history_of_one_call_was_wrong(rt: HostRuntime) -> Result<(), Fail> {
    let command = MapCommand::InsertNew(1, 6);
    let core: Numbers = MapState::new(rt.alloc());
    let Ok(history) = recorded_alone(&rt, rt.alloc(), core, 1, command)? else {
        return Err(Fail::from("the receipt is the history"));
    };
    let entries = [(1, command, MapReply::ValueNew(6, true))];
    assert_eq!(rt; history.entries(), entries.as_slice());
    Ok(())
}

#[test]
fn the_second_part_did_not_go_on_where_the_first_ended(rt: HostRuntime) -> Result<(), Fail> {
    let list: List = VecState::new(rt.alloc());
    let (first, second) = (VecCommand::Push(6), VecCommand::Push(12));
    let Some(parts) = recorded_in_parts(&rt, rt.alloc(), list, 1, first, second)? else {
        return Err(Fail::from("each part's receipt is its history"));
    };
    let (earlier, (list, later)) = parts;
    let got = earlier.as_slice();
    assert_eq!(rt; got, [(1, first, VecReply::Place(0))].as_slice());
    let got = later.as_slice();
    assert_eq!(rt; got, [(1, second, VecReply::Place(1))].as_slice());
    assert_eq!(rt; list.len(), 2);
    Ok(())
}

// A pass of another recorder comes in addition to the recorder's only pass, or instead of one of
// its two. Its receipt has the same reply at the same index as one of the recorder's own.
#[test]
fn a_close_with_a_foreign_pass_succeeded(rt: HostRuntime) -> Result<(), Fail> {
    for is_one_lost in [false, true] {
        let (one, two) = (numbers(rt.alloc()), numbers(rt.alloc()));
        let (mut own, mut lost, mut foreign) = (one.pass(1), one.pass(2), two.pass(1));
        one.call(&rt, &mut own, MapCommand::Insert(1, 6))?;
        if is_one_lost {
            one.call(&rt, &mut lost, MapCommand::Insert(1, 12))?;
            foreign = two.pass(2);
        }
        two.call(&rt, &mut foreign, MapCommand::Insert(1, 6))?;
        let fault = fault_of(one.close(all(rt.alloc(), [own, foreign])?));
        let got = (is_one_lost, fault);
        assert_eq!(rt; got, (is_one_lost, Some(ReceiptsFault::ForeignPass)));
    }
    Ok(())
}

#[test]
fn a_recording_of_thousands_of_calls_did_not_close(rt: HostRuntime) -> Result<(), Fail> {
    let recorder: Recorder<List> = Recorder::new(rt.alloc(), VecState::new(rt.alloc()));
    let mut pass = recorder.pass(1);
    for item in 0..5000 {
        recorder.call(&rt, &mut pass, VecCommand::Push(item))?;
    }
    let Ok(history) = recorder.close(all(rt.alloc(), [pass])?) else {
        return Err(Fail::from("the receipts are the history"));
    };
    let got = (history.entries().len(), history.core().len());
    assert_eq!(rt; got, (5000, 5000));
    Ok(())
}

// ---- closes without memory

type Heap<'b> = &'b Budget<Global>;

type Budgeted<'b> = VecState<u64, Heap<'b>>;

type Passes<'b> = Vec<RecordPass<Budgeted<'b>, Heap<'b>>, Heap<'b>>;

// Pushes eleven items by three passes, not in turn, and adds the passes to the list.
fn record<'b>(
    rt: &impl Wait,
    recorder: &Recorder<Budgeted<'b>, Heap<'b>>,
    passes: &mut Passes<'b>,
) -> Result<(), AllocError> {
    let first = passes.len();
    for number in 0..3u64 {
        passes.push(recorder.pass(number))?;
    }
    for turn in [0, 2, 1, 1, 0, 2, 2, 2, 1, 0, 1] {
        recorder.call(rt, &mut passes[first + turn], VecCommand::Push(7))?;
    }
    Ok(())
}

// A close that can allocate its notes has the same result as one that can't.
#[test]
fn a_close_without_memory_had_another_result(rt: HostRuntime) -> Result<(), Fail> {
    let budget = Budget::new(rt.alloc());
    let heap = &budget;
    for (fault, denied) in [
        (None, 0),
        (None, u64::MAX),
        (Some(ReceiptsFault::MissingPass), 0),
        (Some(ReceiptsFault::MissingPass), u64::MAX),
        (Some(ReceiptsFault::ForeignPass), 0),
        (Some(ReceiptsFault::ForeignPass), u64::MAX),
    ] {
        let recorder: Recorder<Budgeted<'_>, _> = Recorder::new(heap, VecState::new(heap));
        let other: Recorder<Budgeted<'_>, _> = Recorder::new(heap, VecState::new(heap));
        let mut passes: Passes<'_> = Vec::new(heap);
        record(&rt, &recorder, &mut passes)?;
        match fault {
            Some(ReceiptsFault::MissingPass) => drop(passes.pop()),
            Some(ReceiptsFault::ForeignPass) => record(&rt, &other, &mut passes)?,
            None => (),
        }
        heap.refuse_next(denied);
        let asked = heap.asked();
        let got = fault_of(recorder.close(passes));
        let requests = heap.asked() - asked;
        heap.refuse_next(0);
        assert_eq!(rt; (denied, got, requests), (denied, fault, 1));
    }
    assert_eq!(rt; heap.given(), heap.granted());
    Ok(())
}

// ---- threads

// Makes these calls by a pass, and before each ten waits until the other thread has made the same
// number of calls. Returns the pass, or `None` if a call failed or the other thread stopped.
fn calls_in_step<R: Wait, C: Core>(
    rt: &R,
    recorder: &Recorder<C>,
    mut pass: RecordPass<C>,
    marks: (&Mark, &Mark),
    count: u64,
    command: impl Fn(u64, u64) -> C::Command,
) -> Option<RecordPass<C>> {
    for call in 0..count {
        if call % 10 == 0 && !marks.1.comes_to(call) {
            return None;
        }
        let command = command(pass.number(), call);
        recorder.call(rt, &mut pass, command).ok()?;
        marks.0.raise(call + 1);
    }
    Some(pass)
}

// Returns the number of entries, and how often the caller changes from one entry to the next.
fn shape_of<C: Core>(history: &History<C>) -> (usize, usize) {
    let entries = history.entries();
    let changes = (1..entries.len()).filter(|at| entries[*at].0 != entries[*at - 1].0);
    (entries.len(), changes.count())
}

#[test]
fn two_threads_got_one_index_or_skipped_one(rt: HostRuntime) -> Result<(), Fail> {
    let recorder: Recorder<List> = Recorder::new(rt.alloc(), VecState::new(rt.alloc()));
    let (one, two, marks) = (
        recorder.pass(1),
        recorder.pass(2),
        [Mark::new(), Mark::new()],
    );
    let (handle, push) = (&rt, |_, item| VecCommand::Push(item));
    let passes = thread::join(
        handle,
        || calls_in_step(handle, &recorder, one, (&marks[0], &marks[1]), 100, push),
        || calls_in_step(handle, &recorder, two, (&marks[1], &marks[0]), 100, push),
    );
    let (Some(one), Some(two)) = passes else {
        return Err(Fail::from("a push failed, or the other thread didn't go on"));
    };
    let mut marked = [false; 200];
    for pass in [&one, &two] {
        let mut least = 0;
        for (_, _, reply) in pass.receipts() {
            let VecReply::Place(index) = *reply else {
                return Err(Fail::from("a push had the reply of another command"));
            };
            assert!(rt; index >= least && !marked[index], "{index}");
            marked[index] = true;
            least = index + 1;
        }
    }
    assert_eq!(rt; marked, [true; 200]);
    let Ok(history) = recorder.close(all(rt.alloc(), [one, two])?) else {
        return Err(Fail::from("the receipts are the history"));
    };
    let (count, changes) = shape_of(&history);
    assert!(rt;
        count == 200 && changes >= 10,
        "{count} entries, {changes} changes"
    );
    Ok(())
}

#[test]
fn a_recording_of_two_threads_did_not_close(rt: HostRuntime) -> Result<(), Fail> {
    let recorder = numbers(rt.alloc());
    let (one, two, marks) = (
        recorder.pass(1),
        recorder.pass(2),
        [Mark::new(), Mark::new()],
    );
    let handle = &rt;
    let turn = |number, call| {
        if call % 2 == 0 {
            MapCommand::Insert(call % 5, number)
        } else {
            MapCommand::Get(call % 5)
        }
    };
    let passes = thread::join(
        handle,
        || calls_in_step(handle, &recorder, one, (&marks[0], &marks[1]), 50, turn),
        || calls_in_step(handle, &recorder, two, (&marks[1], &marks[0]), 50, turn),
    );
    let (Some(one), Some(two)) = passes else {
        return Err(Fail::from("a call failed, or the other thread didn't go on"));
    };
    for pass in [&one, &two] {
        assert!(rt; pass.receipts().is_sorted_by_key(|receipt| receipt.0));
    }
    let Ok(history) = recorder.close(all(rt.alloc(), [one, two])?) else {
        return Err(Fail::from("the receipts are the history"));
    };
    let (count, changes) = shape_of(&history);
    assert!(rt;
        count == 100 && changes >= 5,
        "{count} entries, {changes} changes"
    );
    Ok(())
}
