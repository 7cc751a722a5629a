//! One thread interns names, and four threads read them through one borrow of the reader.
use bumpalo::Bump;
use elsa::interner::{Interner, InternerReader};
use std::test::*;
use std::thread;

/// Returns the number of names that a thread finds in the order of their numbers, by name and by
/// number.
fn found(names: &InternerReader<'_>) -> usize {
    let mut count = 0;
    for name in names {
        if names.find(name) == Some(count) && names.at(count) == Some(*name) {
            count += 1;
        }
    }
    count
}

#[test]
fn four_threads_read_the_names_of_one(rt: HostRuntime) -> Result<(), Fail> {
    let alloc = rt.alloc();
    let arena = Bump::new(alloc);
    let mut names = Interner::new(alloc, &arena);
    for number in 0..1000 {
        let _ = names.put(format!(in alloc; "name{number}")?.as_str())?;
    }
    let reader = names.into_reader();
    let counts = thread::map_indices(&rt, alloc, 4, &|_| found(&reader))?;
    assert_eq!(rt; counts.as_slice(), [1000; 4].as_slice());
    let seven = thread::map_indices(&rt, alloc, 4, &|_| reader.find("name7"))?;
    assert_eq!(rt; seven.as_slice(), [Some(7); 4].as_slice());
    Ok(())
}
