//! A crawler: four workers fetch pages, and find the addresses of others by their links.
//!
//! The addresses are the keys of a [`LockFreeFrozenMap`](elsa::sync::LockFreeFrozenMap), each with
//! its distance from the start. The map has each address once and keeps the order of insertion, so
//! it is also the queue: the addresses of a round are those at the indices from the map's length
//! before the last round to its length after it. A page is a file in this example.
//!
//! The output doesn't depend on the schedule: a round begins when the one before has ended, so the
//! first distance of an address is the shortest.
#![tactic(auto)]

mod crawl;

use crate::crawl::{Addresses, Fetched, Round, WORKERS, fetch, find};
use elsa::SeededState;
use std::{io, thread};

/// The address at which the crawler begins.
const START: &str = "home.page";

/// The greatest distance of a page that is fetched.
const FURTHEST: u64 = 5;

/// Prints each address with its distance, in the order of distances and addresses.
///
/// # Errors
/// Fails if the output fails or an allocation fails.
fn tell(rt: &impl Print, addresses: Addresses) -> io::Result<()> {
    let mut all = addresses.into_tuple_vec()?;
    all.sort_by(|one, other| one.1.cmp(&other.1).then_with(|| one.0.cmp(&other.0)))?;
    for (address, distance) in &all {
        println!(rt; "{distance} {address}")?;
    }
    Ok(())
}

fn main(rt: HostRuntime) -> io::Result<()> {
    let secret = SeededState::new(&rt)?;
    let alloc = rt.alloc();
    let addresses = Addresses::with_hasher(alloc, secret)?;
    find(&rt, alloc, &mut addresses.handle(), START, 0)?;
    let mut from: usize = 0;
    for distance in 0..=FURTHEST {
        let to = addresses.handle().len();
        if from == to {
            break;
        }
        let round = Round { from, to, distance };
        let results = thread::map_indices(
            &rt,
            alloc,
            WORKERS,
            &|worker| fetch(&rt, alloc, &addresses, round, worker),
        )?;
        let mut sum = Fetched::default();
        for fetched in results {
            sum.add(fetched?);
        }
        println!(rt;
            "round {distance}: {} pages, {} words, {} dead links",
            sum.pages, sum.words, sum.dead
        )?;
        from = to;
    }
    tell(&rt, addresses)
}
