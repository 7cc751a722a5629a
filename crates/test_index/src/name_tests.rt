//! The interner: names at once, hundreds of names while its hash table doubles or with one hash,
//! and the output of `{:?}`.
use bumpalo::Bump;
use elsa_interner::interner::Interner;
use std::alloc::Global;
use std::hash::{BuildHasher, BuildHasherDefault, FoldHasher, Hasher};
use std::process::Abort;
use std::test::*;

/// A hasher that returns the same hash for each text.
#[derive(Clone, Copy)]
struct OneHash(u64);

impl Hasher for OneHash {
    ghost write = { λ s _. s };

    ghost finish = { λ s. s.0 };

    fn finish(&self) -> u64 {
        self.0
    }

    fn write(&mut self, _bytes: &[u8]) {}
}

impl BuildHasher for OneHash {
    type Hasher = OneHash;

    ghost build_hasher = { λ s. s };

    fn build_hasher(&self) -> OneHash {
        *self
    }
}

/// Checks that `count` names are numbered in order, and each is found by its name and by its number
/// afterwards.
fn are_numbered<S: BuildHasher + Drop>(
    (rt, alloc): (&impl Abort, Global),
    hash_builder: S,
    count: usize,
) -> Result<(), Fail> {
    let arena = Bump::new(alloc);
    let mut names = Interner::with_hasher(alloc, &arena, hash_builder);
    assert!(rt; names.is_empty());
    for number in 0..count {
        let text = format!(in alloc; "name{number}")?;
        let found = names.find(text.as_str());
        let numbers = (names.put(text.as_str())?, names.put(text.as_str())?);
        assert_eq!(rt; (found, numbers), (None, (number, number)));
    }
    for number in 0..count {
        let text = format!(in alloc; "name{number}")?;
        let found = (names.find(text.as_str()), names.at(number));
        assert_eq!(rt; found, (Some(number), Some(text.as_str())));
    }
    assert_eq!(rt; (names.len(), names.at(count)), (count, None));
    assert!(rt; !names.is_empty());
    Ok(())
}

#[test]
fn a_name_changed_its_number_while_the_table_doubled(rt: HostRuntime) -> Result<(), Fail> {
    let state: BuildHasherDefault<FoldHasher> = BuildHasherDefault::new();
    are_numbered((&rt, rt.alloc()), state, 3000)
}

#[test]
fn names_of_one_hash_were_confused(rt: HostRuntime) -> Result<(), Fail> {
    // The second hash is that of the last bucket in a table of any size, so each probe continues at
    // the first bucket.
    for hash in [0, 0xFFFF_FFFF, 12345] {
        are_numbered((&rt, rt.alloc()), OneHash(hash), 100)?;
    }
    Ok(())
}

#[test]
fn a_name_had_another_number_than_its_index_in_the_texts(rt: HostRuntime) -> Result<(), Fail> {
    let (alloc, arena) = (rt.alloc(), Bump::new(rt.alloc()));
    let names = Interner::from_names(alloc, &arena, ["fn", "let", "if"])?;
    let found = ["fn", "let", "if"].map(|name| names.find(name));
    assert_eq!(rt; (found, names.len()), ([Some(0), Some(1), Some(2)], 3));
    let mut names = Interner::from_names(alloc, &arena, "to be or not to be".split(' '))?;
    let found = ["to", "not", "be"].map(|name| names.find(name));
    assert_eq!(rt; (found, names.len()), ([Some(0), Some(3), Some(1)], 4));
    names.put("to")?;
    let printed = format!(in alloc; "{names:?} {:?}", Interner::new(alloc, &arena))?;
    assert_eq!(rt; printed.as_str(), "[\"to\", \"be\", \"or\", \"not\"] []");
    Ok(())
}
