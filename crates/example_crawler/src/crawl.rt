//! The work of a round: pages are fetched, and the addresses of their links found.
ghost use Rattle.std.specs.Prelude.{◌≡◌, IfErr, IfOk, string_bytes};
ghost use Rattle.std.specs.Str.{bytes_eq};
ghost use Rattle.elsa_lock_free.specs.SharedList.{IsLaterPass, items_of, mine};
ghost use Rattle.elsa_lock_free_map.specs.Entries.{Has};

use elsa::SeededState;
use elsa::sync::{LockFreeFrozenMap, MapHandle};
use std::alloc::{AllocError, Global};
use std::fs;
use std::rt::Files;
use std::sync::Wait;

/// The number of workers.
pub const WORKERS: usize = 4;

/// The addresses, each with its distance from the start.
pub type Addresses = LockFreeFrozenMap<String, u64, SeededState>;

/// A worker's handle of them.
pub type Found<'m> = MapHandle<'m, String, u64, SeededState>;

/// A round: the indices of its addresses, which all have one distance.
#[derive(Clone, Copy)]
pub struct Round {
    /// The first index.
    pub from: usize,
    /// The index after the last.
    pub to: usize,
    /// The distance of each address.
    pub distance: u64,
}

/// What a worker has fetched in a round.
#[derive(Clone, Copy, Default)]
pub struct Fetched {
    /// The number of pages.
    pub pages: usize,
    /// The number of their words.
    pub words: usize,
    /// The number of addresses without a page.
    pub dead: usize,
}

impl Fetched {
    /// Adds what another worker has fetched.
    pub fn add(&mut self, other: Fetched) {
        self.pages = self.pages.saturating_add(other.pages);
        self.words = self.words.saturating_add(other.words);
        self.dead = self.dead.saturating_add(other.dead);
    }
}

/// Inserts an address with a distance unless a worker has found it. Returns the distance that it
/// has.
///
/// # Errors
/// Fails if an allocation fails. The address is then not inserted.
///
/// # Blocks
/// While another worker inserts, if the handle has not observed the address.
pub fn find<R: Wait>(
    rt: &R,
    alloc: Global,
    found: &mut Found<'_>,
    address: &str,
    distance: u64,
) -> Result<u64, AllocError>
    ensures later { IsLaterPass found.old found.new }
    ensures has { IfOk result (λ d. Has (λ a k. bytes_eq a (string_bytes k))
        (items_of found.new.seen) address.now d) }
    ensures refused { IfErr result (λ _. mine found.new ≡ mine found.old) }
{
    let key = String::from_str(alloc, address)?;
    let inserted = found.insert_ref(rt, key, distance)?;
    Ok(*inserted.value)
}

/// Fetches every fourth page of a round, beginning with that of the worker's number, and finds the
/// addresses of their links.
///
/// # Errors
/// Fails if an allocation fails.
///
/// # Blocks
/// While another worker inserts.
pub fn fetch<R: Files + AllocGlobal + Wait>(
    rt: &R,
    alloc: Global,
    addresses: &Addresses,
    round: Round,
    worker: usize,
) -> Result<Fetched, AllocError> {
    let mut found = addresses.handle();
    let mut fetched = Fetched::default();
    found.len();
    let entries = found.iter().refs().enumerate().skip(round.from);
    for (index, (address, _)) in entries {
        if index >= round.to {
            break;
        }
        if index % WORKERS != worker {
            continue;
        }
        let Ok(page) = fs::read_to_string(rt, address.as_str()) else {
            fetched.dead = fetched.dead.saturating_add(1);
            continue;
        };
        fetched.pages = fetched.pages.saturating_add(1);
        for line in page.lines() {
            match line.strip_prefix("link ") {
                Some(link) => {
                    find(
                        rt,
                        alloc,
                        &mut found,
                        link.trim(),
                        round.distance.saturating_add(1),
                    )?;
                }
                None => {
                    let words = line.split_whitespace().count();
                    fetched.words = fetched.words.saturating_add(words);
                }
            }
        }
    }
    Ok(fetched)
}
