//! Runs of 32 commands, with each request for memory and each allocation in the arena denied in
//! turn. Only a push, or an insertion of an absent key, has the reply `NoMemory`. Every other reply
//! is the model's for the calls that succeeded. If a run returns `Err`, no command was executed.
use bumpalo::Bump;
use elsa_index::index_set::FrozenIndexSet;
use elsa_maps::index_map::FrozenIndexMap;
use elsa_maps::map::FrozenMap;
use elsa_run::run::{run_index, run_map, run_set, run_vec};
use elsa_run::run_index::{IndexCommand, IndexReply};
use elsa_run::run_map::{MapCommand, MapReply};
use elsa_run::run_set::{SetCommand, SetReply};
use elsa_run::run_vec::{VecCommand, VecReply};
use elsa_vec::stable::Own;
use elsa_vec::vec::FrozenVec;
use std::alloc::{AllocError, Global};
use std::hash::{BuildHasherDefault, FoldHasher};
use std::test::Fail;
use test_alloc::Budget;
use test_script::leave_room;

type Heap<'b> = &'b Budget<Global>;

type Hasher = BuildHasherDefault<FoldHasher>;

const COMMANDS: usize = 32;

/// The values of the keys that were inserted so far, and the number of calls that failed. Keys are
/// inserted in ascending order.
#[derive(Drop)]
struct Model {
    values: [Option<usize>; 16],
    failed: u64,
}

impl Model {
    fn new() -> Model {
        Model {
            values: [None; 16],
            failed: 0,
        }
    }

    fn value(&self, key: usize) -> Option<usize> {
        self.values.get(key).copied().flatten()
    }

    /// Returns the number of present keys below this one. If the key is present, that is its index.
    fn below(&self, key: usize) -> usize {
        self.values[..key]
            .iter()
            .filter(|value| value.is_some())
            .count()
    }

    fn index(&self, key: usize) -> Option<usize> {
        self.value(key).map(|_| self.below(key))
    }

    /// Returns the value at this index.
    fn at(&self, index: usize) -> Option<usize> {
        self.values.iter().copied().flatten().nth(index)
    }

    /// Inserts the value at the key. Returns the key's index, its value, and whether it is new.
    fn insert(&mut self, key: usize, value: usize) -> (usize, usize, bool) {
        let there = self.value(key);
        self.values[key] = Some(there.unwrap_or(value));
        (self.below(key), there.unwrap_or(value), there.is_none())
    }

    /// Counts an insertion of the key that failed, and returns whether it may fail.
    fn fail(&mut self, key: usize) -> bool {
        self.failed += 1;
        self.value(key).is_none()
    }
}

/// The outcome of a run.
#[derive(Clone, Copy, Debug, PartialEq, Eq)]
enum Outcome {
    /// The run returned `Err`, and no command was executed.
    NotRun,
    /// Each reply and the final content are the model's, and this number of calls failed.
    Failed(u64),
    /// The reply with this number, or the content, is wrong.
    Wrong(usize),
}

/// A kind of run.
#[derive(Clone, Copy, Debug)]
enum Kind {
    Vector,
    Map,
    IndexMap,
    IndexSet,
}

/// Returns the outcome of a run on a collection in `heap`, where its commands are too.
fn outcome_of(kind: Kind, heap: Heap<'_>, arena: &Bump) -> Result<Outcome, AllocError> {
    match kind {
        Kind::Vector => vector(heap, arena),
        Kind::Map => map(heap, arena),
        Kind::IndexMap => index_map(heap, arena),
        Kind::IndexSet => index_set(heap, arena),
    }
}

/// Makes the commands of a run.
fn commands<C: Drop>(
    heap: Heap<'_>,
    command: impl Fn(usize) -> C,
) -> Result<Vec<C, Heap<'_>>, AllocError> {
    let mut commands = Vec::with_capacity(heap, COMMANDS)?;
    for number in 0..COMMANDS {
        commands.push(command(number))?;
    }
    Ok(commands)
}

/// Returns the outcome of a run with these replies, or without. `fits` returns whether a reply is
/// the model's to the command with this number, and executes the command on the model. `has`
/// returns whether the content is the model's.
fn judged<R: Copy>(
    replies: Result<Vec<R, Heap<'_>>, AllocError>,
    fits: impl Fn(&mut Model, usize, R) -> bool,
    has: impl Fn(&Model) -> bool,
) -> Outcome {
    let mut model = Model::new();
    let Ok(replies) = replies else {
        return if has(&model) {
            Outcome::NotRun
        } else {
            Outcome::Wrong(COMMANDS)
        };
    };
    for (number, reply) in replies.iter().enumerate() {
        if !fits(&mut model, number, *reply) {
            return Outcome::Wrong(number);
        }
    }
    if replies.len() == COMMANDS && has(&model) {
        Outcome::Failed(model.failed)
    } else {
        Outcome::Wrong(COMMANDS)
    }
}

/// Returns the value of an insertion: 99 if the key must be present already.
fn value_of(number: usize) -> usize {
    if number % 2 == 0 { number } else { 99 }
}

fn vector(heap: Heap<'_>, arena: &Bump) -> Result<Outcome, AllocError> {
    let mut items: FrozenVec<'_, Own<usize>, Heap<'_>> = FrozenVec::new(heap, arena);
    let commands = commands(heap, |number| match number % 8 {
        0 | 4 => VecCommand::Push(Own(number)),
        2 | 6 => VecCommand::PushGet(Own(number)),
        1 => VecCommand::Get(number / 2),
        3 => VecCommand::Len,
        5 => VecCommand::First,
        _ => VecCommand::Last,
    })?;
    let replies = run_vec(&mut items, commands);
    let fits = |model: &mut Model, number: usize, reply: VecReply<&usize>| {
        let (key, count) = (number / 2, model.below(16));
        match number % 8 {
            1 => reply == VecReply::Found(model.at(key).as_ref()),
            3 => reply == VecReply::Count(count),
            5 => reply == VecReply::Found(model.at(0).as_ref()),
            7 => reply == VecReply::Found(model.at(count.wrapping_sub(1)).as_ref()),
            _ if reply == VecReply::NoMemory => model.fail(key),
            0 | 4 => model.insert(key, number).2 && reply == VecReply::Done,
            _ => model.insert(key, number).2 && reply == VecReply::Item(&number),
        }
    };
    Ok(judged(replies, fits, |model| {
        (0..17).all(|index| items.get(index).copied() == model.at(index))
    }))
}

fn map(heap: Heap<'_>, arena: &Bump) -> Result<Outcome, AllocError> {
    let mut map: FrozenMap<'_, usize, Own<usize>, Hasher, Heap<'_>> = FrozenMap::new(heap, arena);
    let commands = commands(heap, |number| {
        let (key, value) = (number / 2, Own(value_of(number)));
        match number % 8 {
            0 | 4 | 5 => MapCommand::Insert(key, value),
            1 | 2 | 6 => MapCommand::InsertNew(key, value),
            3 => MapCommand::Get(key),
            _ => MapCommand::Len,
        }
    })?;
    let replies = run_map(&mut map, commands);
    let fits = |model: &mut Model, number: usize, reply: MapReply<&usize>| {
        let key = number / 2;
        match number % 8 {
            3 => reply == MapReply::Found(model.value(key).as_ref()),
            7 => reply == MapReply::Count(model.below(16)),
            _ if reply == MapReply::NoMemory => model.fail(key),
            kind => {
                let (_, there, is_new) = model.insert(key, value_of(number));
                match kind {
                    0 | 4 | 5 => reply == MapReply::Item(&there),
                    _ => reply == MapReply::New(&there, is_new),
                }
            }
        }
    };
    Ok(judged(replies, fits, |model| {
        map.len() == model.below(16)
            && (0..16).all(|key| map.get(&key).copied() == model.value(key))
    }))
}

fn index_map(heap: Heap<'_>, arena: &Bump) -> Result<Outcome, AllocError> {
    let mut map: FrozenIndexMap<'_, usize, Own<usize>, Hasher, Heap<'_>> = FrozenIndexMap::new(
        heap, arena,
    );
    let commands = commands(heap, |number| {
        let (key, value) = (number / 2, Own(value_of(number)));
        match number % 8 {
            0 => IndexCommand::Insert(key, value),
            1 | 2 => IndexCommand::InsertFull(key, value),
            4 => IndexCommand::InsertNew(key, value),
            5 | 6 => IndexCommand::InsertFullNew(key, value),
            3 => IndexCommand::Get(key),
            _ => IndexCommand::IndexOf(key),
        }
    })?;
    let replies = run_index(&mut map, commands);
    let fits = |model: &mut Model, number: usize, reply: IndexReply<&usize>| {
        let key = number / 2;
        match number % 8 {
            3 => reply == IndexReply::Found(model.value(key).as_ref()),
            7 => reply == IndexReply::Place(model.index(key)),
            _ if reply == IndexReply::NoMemory => model.fail(key),
            kind => {
                let (index, there, is_new) = model.insert(key, value_of(number));
                match kind {
                    0 => reply == IndexReply::Item(&there),
                    1 | 2 => reply == IndexReply::Full(index, &there),
                    4 => reply == IndexReply::New(&there, is_new),
                    _ => reply == IndexReply::FullNew(index, &there, is_new),
                }
            }
        }
    };
    Ok(judged(replies, fits, |model| {
        (0..17).all(|key| {
            let found = (map.get(&key).copied(), map.get_index_of(&key));
            found == (model.value(key), model.index(key))
        })
    }))
}

/// The values of the set are the keys.
fn index_set(heap: Heap<'_>, arena: &Bump) -> Result<Outcome, AllocError> {
    let mut set: FrozenIndexSet<'_, Own<usize>, Hasher, Heap<'_>> = FrozenIndexSet::new(
        heap, arena,
    );
    let commands = commands(heap, |number| {
        let value = Own(number / 2);
        match number % 8 {
            0 => SetCommand::Insert(value),
            1 | 2 => SetCommand::InsertFull(value),
            4 => SetCommand::InsertNew(value),
            5 | 6 => SetCommand::InsertFullNew(value),
            3 => SetCommand::At(number / 2),
            _ => SetCommand::At(0),
        }
    })?;
    let replies = run_set(&mut set, commands);
    let fits = |model: &mut Model, number: usize, reply: SetReply<&usize>| {
        let key = number / 2;
        match number % 8 {
            3 => reply == SetReply::Found(model.at(key).as_ref()),
            7 => reply == SetReply::Found(model.at(0).as_ref()),
            _ if reply == SetReply::NoMemory => model.fail(key),
            kind => {
                let (index, there, is_new) = model.insert(key, key);
                match kind {
                    0 => reply == SetReply::Item(&there),
                    1 | 2 => reply == SetReply::Full(index, &there),
                    4 => reply == SetReply::New(&there, is_new),
                    _ => reply == SetReply::FullNew(index, &there, is_new),
                }
            }
        }
    };
    Ok(judged(replies, fits, |model| {
        (0..17).all(|index| set.get_index(index).copied() == model.at(index))
    }))
}

const KINDS: [Kind; 4] = [Kind::Vector, Kind::Map, Kind::IndexMap, Kind::IndexSet];

/// With no request denied, no call fails. The first request is for the commands. If the second
/// request, which is for the replies, is denied, the run returns `Err`. With each later request
/// denied, one call fails.
#[test]
fn a_denied_request_of_a_run_was_not_reported_or_stopped_it(rt: HostRuntime) -> Result<(), Fail> {
    let alloc = rt.alloc();
    for kind in KINDS {
        let open = Budget::new(alloc);
        let got = outcome_of(kind, &open, &Bump::new(alloc))?;
        assert_eq!(rt; got, Outcome::Failed(0), "{kind:?}");
        assert!(rt; open.asked() > 4, "{kind:?}");
        for number in 1..open.asked() {
            let heap = Budget::new(alloc);
            heap.refuse(number, number + 1);
            let wanted = if number == 1 {
                Outcome::NotRun
            } else {
                Outcome::Failed(1)
            };
            let outcome = outcome_of(kind, &heap, &Bump::new(alloc))?;
            assert_eq!(rt; outcome, wanted, "{kind:?}, request {number}");
            assert_eq!(rt; heap.given(), heap.granted(), "{kind:?}, request {number}");
        }
    }
    Ok(())
}

#[test]
fn a_full_arena_of_a_run_was_not_reported_or_stopped_it(rt: HostRuntime) -> Result<(), Fail> {
    for kind in KINDS {
        // A run stores sixteen values.
        for room in 0..17 {
            let (heap, arena) = (Budget::new(rt.alloc()), Bump::new(rt.alloc()));
            leave_room(&arena, room);
            let outcome = outcome_of(kind, &heap, &arena)?;
            let Outcome::Failed(failed) = outcome else {
                return Err(Fail::new(format_args!("{outcome:?} of {kind:?} with room for {room}")));
            };
            assert_eq!(rt; failed == 0, room == 16, "{kind:?} with room for {room}");
        }
    }
    Ok(())
}
