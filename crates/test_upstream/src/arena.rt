//! Things with lists of their friends, in an arena that is filled through `&self`. A thing owns its
//! name and its list of friends. The list has the friends' numbers, because a value that is dropped
//! can't borrow from its own arena.
use elsa::TypedArena;
use elsa::cell::{CellFault, Fault};
use std::alloc::{AllocError, Global};
use std::test::Fail;

/// A thing, which owns its name and the list of its friends' numbers.
#[derive(Drop)]
struct Thing {
    name: String,
    friends: Vec<usize>,
}

/// Things, each with a number.
#[derive(Drop)]
struct Things {
    alloc: Global,
    all: TypedArena<Thing>,
}

impl Things {
    fn new(alloc: Global) -> Result<Things, AllocError> {
        Ok(Things {
            alloc,
            all: TypedArena::new(alloc)?,
        })
    }

    /// Adds a thing through `&self`, and returns its number.
    fn add_thing(&self, name: &str, friends: Vec<usize>) -> Result<usize, Fault> {
        let name = String::from_str(self.alloc, name)?;
        Ok(self.all.push(Thing { name, friends })?)
    }

    /// Adds a thing through `&self`, and returns a reference to it with the arena's lifetime.
    fn keep(&self, thing: Thing) -> Result<&Thing, CellFault<Thing>> {
        self.all.alloc(thing)
    }

    /// Returns the thing with a number.
    fn thing(&self, number: usize) -> Option<&Thing> {
        self.all.get(number)
    }

    /// Returns the names of a thing's friends, each followed by a space.
    fn friends_of(&self, number: usize) -> Result<String, AllocError> {
        let mut names = String::new(self.alloc);
        let Some(thing) = self.thing(number) else {
            return Ok(names);
        };
        for friend in &thing.friends {
            if let Some(other) = self.thing(*friend) {
                names.push_str(other.name.as_str())?;
                names.push(' ')?;
            }
        }
        Ok(names)
    }
}

/// Makes the five things of upstream's example, each added through one shared borrow.
fn five(alloc: Global) -> Result<Things, Fault> {
    let things = Things::new(alloc)?;
    let lonely = things.add_thing("lonely", Vec::new(alloc))?;
    let best_friend = things.add_thing("best friend", vec![in alloc; lonely]?)?;
    let crowd = things.add_thing("threes a crowd", vec![in alloc; lonely, best_friend]?)?;
    let rando = things.add_thing("rando", Vec::new(alloc))?;
    let all = vec![in alloc; lonely, best_friend, crowd, rando]?;
    things.add_thing("follows everyone", all)?;
    Ok(things)
}

#[test]
fn a_thing_lost_a_friend(rt: HostRuntime) -> Result<(), Fail> {
    let things = five(rt.alloc())?;
    // What upstream's example prints.
    for (number, names) in [
        (0, ""),
        (1, "lonely "),
        (2, "lonely best friend "),
        (3, ""),
        (4, "lonely best friend threes a crowd rando "),
    ] {
        assert_eq!(rt;
            (number, things.friends_of(number)?.as_str()),
            (number, names)
        );
    }
    assert_eq!(rt; things.all.len(), 5);
    Ok(())
}

#[test]
fn a_thing_moved_while_others_were_added(rt: HostRuntime) -> Result<(), Fail> {
    let things = Things::new(rt.alloc())?;
    let first = things.keep(Thing {
        name: String::from_str(rt.alloc(), "lonely")?,
        friends: Vec::new(rt.alloc()),
    })?;
    for _ in 0..100 {
        things.add_thing("rando", Vec::new(rt.alloc()))?;
    }
    assert_eq!(rt; (first.name.as_str(), things.all.len()), ("lonely", 101));
    Ok(())
}
