//! The script that each collection runs.
use crate::grows::Grows;
use std::alloc::{AllocError, Global};
use test_alloc::Budget;
use test_model::draws::{Draws, FIXED_SEEDS, scattered};

/// The number of insertions before an allocation is made to fail, on average.
const BETWEEN_FAILURES: u64 = 50;

/// The number of scripts of random keys: one of each fixed seed, and one of the clock's.
pub const SCRIPTS: u64 = FIXED_SEEDS + 1;

/// The keys of a script: random ones below `size`, or `size` different ones.
#[derive(Clone, Copy, Debug)]
pub enum Plan {
    Random { seed: u64, size: u64 },
    Each { size: u64 },
}

impl Plan {
    /// Returns the plan of random keys with this number. `clock` is the seed of the last one.
    pub fn random(number: u64, clock: u64) -> Plan {
        let (seed, most) = if number < FIXED_SEEDS {
            (number, 3000)
        } else {
            (clock, 200_000)
        };
        Plan::Random {
            seed,
            size: Draws::new(seed).size(most),
        }
    }

    /// Returns the random numbers of the plan, and the number of its keys.
    pub fn parts(&self) -> (Draws, u64) {
        match *self {
            Plan::Random { seed, size } => (Draws::new(seed), size),
            Plan::Each { size } => (Draws::new(size), size),
        }
    }
}

/// The entry of a key: its value, and its index.
#[derive(Clone, Copy)]
struct Known {
    value: u64,
    index: usize,
}

/// A key at which a collection differs from the plain list: the call, and what it returned and had
/// to return.
#[derive(Clone, Copy, Debug, PartialEq, Eq)]
pub struct Unlike {
    pub call: &'static str,
    pub key: u64,
    pub got: Option<u64>,
    pub wanted: Option<u64>,
}

/// Fails with the call unless both values are the same.
pub fn same(
    call: &'static str,
    key: u64,
    got: Option<u64>,
    wanted: Option<u64>,
) -> Result<(), Unlike> {
    if got == wanted {
        return Ok(());
    }
    Err(Unlike {
        call,
        key,
        got,
        wanted,
    })
}

/// Compares the entry of a key.
fn shows<G: Grows>(grown: &G, key: u64, known: Option<Known>) -> Result<(), Unlike> {
    same("get", key, grown.get(key), known.map(|it| it.value))?;
    match known {
        Some(it) if !grown.has_index(key, it.index) => {
            same("index", key, None, Some(it.index as u64))
        }
        _ => Ok(()),
    }
}

/// Inserts the key, and once more if an allocation failed: a failed insertion leaves the entries as
/// they were.
fn inserts<G: Grows>(
    heap: &Budget<Global>,
    grown: &mut G,
    key: u64,
    value: u64,
    before: Option<Known>,
) -> Result<(), Unlike> {
    let count = grown.count() as u64;
    let mut done = grown.insert(key, value);
    heap.refuse_next(0);
    if done.is_err() {
        same(
            "count after a failure",
            key,
            Some(grown.count() as u64),
            Some(count),
        )?;
        shows(grown, key, before)?;
        done = grown.insert(key, value);
    }
    let (wanted, added) = match before {
        Some(it) => (it.value, 0),
        None => (grown.stored(key, value), 1),
    };
    same("insert", key, done.ok(), Some(wanted))?;
    same(
        "count",
        key,
        Some(grown.count() as u64),
        Some(count + added),
    )
}

/// Inserts the keys of the plan, and compares the collection with a plain list: the number of
/// entries at each moment, and each entry at the end. Returns the first difference.
///
/// # Errors
/// Fails if the list can't be allocated.
pub fn first_unlike<G: Grows>(
    alloc: Global,
    heap: &Budget<Global>,
    grown: &mut G,
    plan: Plan,
) -> Result<Option<Unlike>, AllocError> {
    let (mut draws, size) = plan.parts();
    let mut list: Vec<Option<Known>> = Vec::new(alloc);
    list.resize(2048.max(size as usize), None)?;
    for number in 0..size {
        let drawn = match plan {
            Plan::Random { seed: _, size } => draws.below(size),
            Plan::Each { size: _ } => scattered(number, 11),
        };
        let (key, value) = (grown.next_key(drawn), draws.next());
        let before = list.get(key as usize).copied().unwrap_or(None);
        let index = grown.count();
        if draws.below(BETWEEN_FAILURES) == 0 {
            heap.refuse_next(draws.below(3));
        }
        if let Err(unlike) = inserts(heap, grown, key, value, before) {
            return Ok(Some(unlike));
        }
        if before.is_none() {
            list[key as usize] = Some(Known {
                value: grown.stored(key, value),
                index,
            });
        }
    }
    for (key, known) in list.iter().enumerate() {
        if let Err(unlike) = shows(grown, key as u64, *known) {
            return Ok(Some(unlike));
        }
    }
    Ok(None)
}
