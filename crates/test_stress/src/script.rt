//! What the threads use: the parameters of a run, the log of what they read and inserted, and what
//! can be wrong.
use elsa::sync::history::MapReply;
use std::alloc::{AllocError, Global};
use test_model::draws::Draws;

/// The parameters of a run: its seed, the number of pairs of threads, and the number of calls of
/// each thread.
#[derive(Clone, Copy)]
pub struct Script {
    pub seed: u64,
    pub pairs: usize,
    pub calls: u64,
}

/// Returns the random numbers of a seed and a thread.
pub fn draws_of(seed: u64, thread: u64) -> Draws {
    Draws::new(seed.wrapping_add(thread << 40))
}

/// Draws a number of 62 bits. Two of a run are equal only by chance.
pub fn whole(draws: &mut Draws) -> u64 {
    (draws.next() << 31) | draws.next()
}

/// An entry that was read or inserted: the number by which it can be read again, an index or a key,
/// and its key and value.
pub type Entry = (u64, u64, u64);

/// The entry that an insertion returned, and whether it is new.
pub type Put = Result<(Entry, bool), AllocError>;

/// A result that differed, and the one that was expected.
#[derive(Clone, Copy, Debug, Drop)]
pub enum Wrong {
    /// The entry with a number that a thread had observed.
    Entry(Option<Entry>, Entry),
    /// The numbers of entries that two merged views have observed.
    Merged(usize, usize),
    /// The number of entries at the end.
    Count(u64, u64),
    /// What was moved out at the end.
    MovedOut(Moved, Moved),
    /// The reply in the history of a recorder.
    Reply(MapReply<u64>, MapReply<u64>),
    /// The number of deallocated blocks, and of allocated ones.
    Blocks(u64, u64),
    /// An allocation of the test itself failed, or a recorder was not closed.
    Stopped,
}

/// Fails with `wrong` unless both results are the same.
pub fn holds(same: bool, wrong: Wrong) -> Result<(), Wrong> {
    if same { Ok(()) } else { Err(wrong) }
}

impl From<AllocError> for Wrong {
    fn from(_: AllocError) -> Wrong {
        Wrong::Stopped
    }
}

/// The entries that were moved out of a collection, and the owners of one number: while the
/// collection has the entries, while they are out, and after they are dropped.
#[derive(Clone, Copy, Debug, PartialEq, Eq)]
pub struct Moved {
    pub count: usize,
    /// A sum in which each entry and its index counts.
    pub sum: u64,
    pub owners: [usize; 3],
}

/// The calls of a thread so far, and the entries that it observed.
#[derive(Drop)]
pub struct Log {
    pub entries: Vec<Entry>,
    /// The number of entries that it inserted.
    pub new: u64,
    pub calls: u64,
    /// The first result that was wrong.
    pub wrong: Option<Wrong>,
}

impl Log {
    pub fn new(alloc: Global) -> Log {
        Log {
            entries: Vec::new(alloc),
            new: 0,
            calls: 0,
            wrong: None,
        }
    }

    /// Records a wrong result, if it is the first.
    pub fn notes(&mut self, done: Result<(), Wrong>) {
        self.wrong = self.wrong.or(done.err());
    }
}
