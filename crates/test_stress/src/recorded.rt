//! The recorder. The receipts of all passes are its history, and a plain table has the same replies
//! to the same commands.
use crate::form::{Heap, KEYS, State};
use crate::script::{Script, Wrong, draws_of, holds, whole};
use elsa::sync::history::{MapCommand, MapReply, RecordPass, Recorder};
use elsa::sync::map::MapState;
use std::alloc::Global;
use std::sync::Wait;
use std::thread;
use std::thread::Threads;

/// The sequential object of the recorder.
type Core<'h> = MapState<u64, u64, State, Heap<'h>>;

type Told<'h> = RecordPass<Core<'h>, Heap<'h>>;

/// Makes the calls of one thread, and returns its pass.
fn calls<'h, R: Wait>(
    rt: &R,
    heap: Heap<'h>,
    recorder: &Recorder<Core<'h>, Heap<'h>>,
    mut pass: Told<'h>,
    script: Script,
) -> Told<'h> {
    let mut draws = draws_of(script.seed, pass.number());
    for _ in 0..script.calls {
        let (key, value) = (draws.below(KEYS), whole(&mut draws));
        let command = match draws.below(16) {
            0 => {
                heap.refuse_next(draws.below(4));
                continue;
            }
            1..6 => MapCommand::InsertNew(key, value),
            6..9 => MapCommand::Insert(key, value),
            9 => MapCommand::Len,
            _ => MapCommand::Get(key),
        };
        let _ = recorder.call(rt, &mut pass, command).is_ok();
    }
    pass
}

/// Inserts a value, unless the key has one. Returns the key's value, and whether the key was new.
fn insert(values: &mut [Option<u64>], count: &mut usize, key: u64, value: u64) -> (u64, bool) {
    if let Some(stands) = values[key as usize] {
        return (stands, false);
    }
    values[key as usize] = Some(value);
    *count += 1;
    (value, true)
}

/// Makes one run on a recorder, in which a second thread continues with each pass.
///
/// # Errors
/// Fails with the first reply in the history that is not that of a plain table, which has the value
/// of each key.
pub fn runs<'h, R: Threads + Wait + Sync>(
    rt: &R,
    alloc: Global,
    heap: Heap<'h>,
    script: Script,
) -> Result<(), Wrong> {
    let recorder = Recorder::new(heap, MapState::new(heap));
    let first = |number: usize| calls(rt, heap, &recorder, recorder.pass(number as u64), script);
    let later = Script {
        seed: script.seed.wrapping_add(1),
        ..script
    };
    let begun = thread::map_indices(rt, alloc, script.pairs * 2, &first)?;
    let done = thread::map_vec(rt, begun, &|pass| calls(rt, heap, &recorder, pass, later))?;
    heap.refuse_next(0);
    let mut passes = Vec::new(heap);
    for pass in done {
        passes.push(pass).map_err(|_| Wrong::Stopped)?;
    }
    let history = recorder.close(passes).map_err(|_| Wrong::Stopped)?;
    let (mut values, mut count) = ([None; KEYS as usize], 0);
    for entry in history.entries() {
        let wanted = match entry.1 {
            MapCommand::Insert(key, value) => {
                MapReply::Value(insert(&mut values, &mut count, key, value).0)
            }
            MapCommand::InsertNew(key, value) => {
                let (stands, is_new) = insert(&mut values, &mut count, key, value);
                MapReply::ValueNew(stands, is_new)
            }
            MapCommand::Get(key) => MapReply::Found(values[key as usize]),
            MapCommand::Len => MapReply::Count(count),
        };
        holds(wanted == entry.2, Wrong::Reply(entry.2, wanted))?;
    }
    Ok(())
}
