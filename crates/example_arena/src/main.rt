//! An arena of animals that refer to their friends.
//!
//! Each line of standard input is an animal, followed by a colon and its friends' names:
//! `toad: robin, hedgehog`. An animal contains borrows of its friends, and they contain borrows of
//! theirs. So the animals are a graph without indices, reference counts or unsafe code. This works
//! because a borrow that [`FrozenVec`](elsa::FrozenVec) returns has the lifetime of the arena and
//! not that of the vector: it is valid while more animals are added, and after the vector's end, as
//! the last line of the output shows.
#![tactic(auto)]

mod meadow;

use crate::meadow::{Animal, Meadow};
use bumpalo::Bump;
use std::alloc::{AllocError, Global};
use std::io::{self, BufRead, BufReader};

/// The reason why a line adds no animal.
enum Fault<'t> {
    /// There is an animal of this name already.
    IsHere(&'t str),
    /// There is no animal of this friend's name yet.
    Unknown(&'t str),
    /// An allocation failed.
    Memory,
}

impl<'t> From<AllocError> for Fault<'t> {
    fn from(_: AllocError) -> Fault<'t> {
        Fault::Memory
    }
}

/// Adds the animal of a line, whose friends must be there already.
///
/// # Errors
/// `IsHere` if there is an animal of this name, `Unknown` if a friend is missing, `Memory` if an
/// allocation fails.
fn add<'a, 't>(
    alloc: Global,
    meadow: &mut Meadow<'a>,
    line: &'t str,
) -> Result<&'a Animal<'a>, Fault<'t>> {
    let (name, named) = line.split_once(": ").unwrap_or((line, ""));
    if meadow.find(name).is_some() {
        return Err(Fault::IsHere(name));
    }
    let mut friends = Vec::new(alloc);
    for friend in named.split(", ") {
        if friend.is_empty() {
            continue;
        }
        let Some(animal) = meadow.find(friend) else {
            return Err(Fault::Unknown(friend));
        };
        friends.push(animal).map_err(AllocError::from)?;
    }
    Ok(meadow.add(alloc, name, friends)?)
}

/// Prints an animal with its friends, one step from borrow to borrow.
fn describe(rt: &impl Print, animal: &Animal<'_>) -> io::Result<()> {
    if animal.friends.is_empty() {
        return println!(rt; "{} names nobody", animal.name);
    }
    print!(rt; "{} names", animal.name)?;
    for friend in animal.friends {
        print!(rt; " {}", friend.name)?;
    }
    println!(rt; "")
}

/// Prints the friends of an animal's friends, which are two steps away. A friend of several friends
/// is printed several times.
fn describe_further(rt: &impl Print, animal: &Animal<'_>) -> io::Result<()> {
    print!(rt; "friends of {} name", animal.name)?;
    for friend in animal.friends {
        for other in friend.friends {
            print!(rt; " {}", other.name)?;
        }
    }
    println!(rt; "")
}

fn main(rt: HostRuntime) -> io::Result<()> {
    let alloc = rt.alloc();
    let arena = Bump::new(alloc);
    let mut meadow = Meadow::new(alloc, &arena);
    let mut newest = None;
    for line in BufReader::new(alloc, rt.reader())?.lines(alloc) {
        let line = line?;
        match add(alloc, &mut meadow, line.as_str()) {
            Ok(animal) => {
                describe(&rt, animal)?;
                newest = Some(animal);
            }
            Err(Fault::IsHere(name)) => println!(rt; "{name} is here already")?,
            Err(Fault::Unknown(name)) => println!(rt; "{name} isn't here yet")?,
            Err(Fault::Memory) => println!(rt; "no memory")?,
        }
    }
    println!(rt; "{} animals", meadow.animals.len())?;
    drop(meadow);
    match newest {
        Some(animal) => describe_further(&rt, animal),
        None => Ok(()),
    }
}
