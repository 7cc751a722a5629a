//! Saved collections whose texts were cut, reordered, repeated in part, or had bits flipped.
//!
//! Reading fails, or it gives exactly the collection that the text has. The parser of
//! `serde_json::Value`, which is proved by itself, says what a text has.
use bumpalo::Bump;
use elsa_index::index_set::FrozenIndexSet;
use elsa_interner::interner::Interner;
use elsa_maps::index_map::FrozenIndexMap;
use elsa_maps::map::{Frozen, FrozenAppendMap, FrozenBTreeMap, FrozenMap};
use elsa_serde::{Entries, Items, Names, ReadFault};
use elsa_tables::Table;
use elsa_vec::stable::Own;
use elsa_vec::vec::FrozenVec;
use serde_json::Value;
use std::alloc::{AllocError, Global};
use std::process::Abort;
use std::test::Fail;

/// The number of broken files.
const FILES: u64 = 10_000;

const WORDS: [&str; 8] = ["fox", "dog", "", "猫", "a b", "\\\"", "\\u00e9", "zebra"];

const NUMBERS: [&str; 3] = ["0", "7", "18446744073709551615"];

/// Numbers that follow from a seed.
#[derive(Drop)]
struct Draws {
    state: u64,
}

impl Draws {
    fn new(seed: u64) -> Draws {
        Draws {
            state: seed.wrapping_mul(0x9e37_79b9_7f4a_7c15),
        }
    }

    /// Returns a number below `count`, or 0 if `count` is 0.
    fn below(&mut self, count: usize) -> usize {
        self.state = self
            .state
            .wrapping_mul(6_364_136_223_846_793_005)
            .wrapping_add(1_442_695_040_888_963_407);
        let drawn = (self.state >> 33) as usize;
        drawn.checked_rem(count).unwrap_or(0)
    }
}

/// Returns the parts of the text in another order, or some of them twice or not at all.
fn rearranged(alloc: Global, draws: &mut Draws, text: &[u8]) -> Result<Vec<u8>, AllocError> {
    let ends = (draws.below(text.len() + 1), draws.below(text.len() + 1));
    let (from, to) = (ends.0.min(ends.1), ends.0.max(ends.1));
    let (middle, rest) = (&text[from..to], &text[to..]);
    let mut made = Vec::from_slice(alloc, &text[..from])?;
    let parts: &[&[u8]] = match draws.below(4) {
        0 => &[],
        1 => &[middle, middle, rest],
        2 => &[rest, middle],
        _ => &[rest],
    };
    for part in parts {
        made.extend_from_slice(part)?;
    }
    Ok(made)
}

/// Returns a text of drawn words, which may occur twice: an array, or an object if `is_map`. Three
/// quarters of the texts are broken after that.
fn broken(alloc: Global, draws: &mut Draws, is_map: bool) -> Result<Vec<u8>, AllocError> {
    let mut text = String::from_str(alloc, if is_map { "{" } else { "[" })?;
    for index in 0..draws.below(6) {
        let comma = if index > 0 { "," } else { "" };
        let word = WORDS[draws.below(8)];
        write!(text, "{comma}\"{word}\"")?;
        if is_map {
            write!(text, ":{}", NUMBERS[draws.below(3)])?;
        }
    }
    text.push_str(if is_map { "}" } else { "]" })?;
    match draws.below(4) {
        0 => Vec::from_slice(alloc, text.as_bytes()),
        1 => {
            let mut made = Vec::from_slice(alloc, text.as_bytes())?;
            let at = draws.below(made.len());
            made[at] ^= 1 << draws.below(8);
            Ok(made)
        }
        _ => rearranged(alloc, draws, text.as_bytes()),
    }
}

/// Returns the index of the first key that occurs before, or the number of keys; and what an
/// insertion of these keys reports.
fn first_repeated(keys: &[&str]) -> (usize, Result<(), ReadFault>) {
    for (index, key) in keys.iter().enumerate() {
        if keys[..index].contains(key) {
            return (index, Err(ReadFault::Duplicate(index)));
        }
    }
    (keys.len(), Ok(()))
}

/// Reads a file into each collection of texts. Returns whether it could be read.
fn is_read_as_list(at: (&impl Abort, Global, u64), bytes: &[u8]) -> Result<bool, Fail> {
    let ((rt, alloc, seed), arena) = (at, Bump::new(at.1));
    let value = Value::from_slice(alloc, bytes);
    let Ok(read) = serde_json::from_slice::<Items<String>>(alloc, bytes) else {
        let array = value.ok().and_then(|value| value
            .as_array()
            .map(|all| all.iter().all(|it| it.is_string())));
        assert_ne!(rt; array, Some(true), "file {seed}");
        return Ok(false);
    };
    let texts: Vec<&str> = read.0.iter().map(|text| text.as_str()).collect(alloc)?;
    let value = value?;
    let array: Vec<Option<&str>> = match value.as_array() {
        Some(array) => array.iter().map(|it| it.as_str()).collect(alloc)?,
        None => Vec::new(alloc),
    };
    assert_eq!(rt; value.is_array(), true, "file {seed}");
    let wanted: Vec<Option<&str>> = texts.iter().map(|text| Some(*text)).collect(alloc)?;
    assert_eq!(rt; array.as_slice(), wanted.as_slice(), "file {seed}");
    let (stop, report) = first_repeated(&texts);
    let mut vec: FrozenVec<'_, String> = FrozenVec::new(alloc, &arena);
    serde_json::from_slice::<Items<String>>(alloc, bytes)?.push_into(&mut vec)?;
    let all: Vec<&str> = vec.iter().collect(alloc)?;
    assert_eq!(rt; all.as_slice(), texts.as_slice(), "file {seed}");
    let mut set: FrozenIndexSet<'_, String> = FrozenIndexSet::new(alloc, &arena);
    let said = serde_json::from_slice::<Items<String>>(alloc, bytes)?.insert_into(&mut set);
    let all: Vec<&str> = set.iter().copied().collect(alloc)?;
    let got = (said, all.as_slice());
    assert_eq!(rt; got, (report, &texts[..stop]), "file {seed}");
    let mut names: Interner<'_> = Interner::new(alloc, &arena);
    let said = serde_json::from_slice::<Names>(alloc, bytes)?.put_into(&mut names);
    for (index, text) in texts[..stop].iter().enumerate() {
        assert_eq!(rt; names.find(text), Some(index), "file {seed}");
    }
    assert_eq!(rt; (said, names.len()), (report, stop), "file {seed}");
    Ok(true)
}

type Read = Entries<String, Own<u64>>;

/// Checks what a map has after the file was read into it.
fn has_entries<'a, T: Table<String, &'a u64> + Drop>(
    (rt, alloc, seed): (&impl Abort, Global, u64),
    bytes: &[u8],
    keys: &[&str],
    mut map: Frozen<&'a Bump, String, Own<u64>, T>,
) -> Result<(), Fail> {
    let (stop, report) = first_repeated(keys);
    let said = serde_json::from_slice::<Read>(alloc, bytes)?.insert_into(&mut map);
    assert_eq!(rt; (said, map.len()), (report, stop), "file {seed}");
    for (key, value) in &serde_json::from_slice::<Read>(alloc, bytes)?.0[..stop] {
        assert_eq!(rt; map.get(key), Some(&value.0), "file {seed}");
    }
    Ok(())
}

/// Reads a file into each map. Returns whether it could be read.
fn is_read_as_map(at: (&impl Abort, Global, u64), bytes: &[u8]) -> Result<bool, Fail> {
    let ((rt, alloc, seed), arena) = (at, Bump::new(at.1));
    let Ok(read) = serde_json::from_slice::<Read>(alloc, bytes) else {
        return Ok(false);
    };
    let value = Value::from_slice(alloc, bytes)?;
    let keys: Vec<&str> = read.0.iter().map(|entry| entry.0.as_str()).collect(alloc)?;
    // A `Value` keeps the last value of a key.
    if first_repeated(&keys).0 == keys.len() {
        let Some(object) = value.as_object() else {
            return Err(Fail::new(format_args!("file {seed} has no object")));
        };
        assert_eq!(rt; object.len(), keys.len(), "file {seed}");
        for (key, number) in &read.0 {
            let got = object.get(key).and_then(Value::as_u64);
            assert_eq!(rt; got, Some(number.0), "file {seed}");
        }
    }
    has_entries(at, bytes, &keys, FrozenMap::new(alloc, &arena))?;
    has_entries(at, bytes, &keys, FrozenBTreeMap::new(alloc, &arena))?;
    has_entries(at, bytes, &keys, FrozenIndexMap::new(alloc, &arena))?;
    has_entries(at, bytes, &keys, FrozenAppendMap::new(alloc, &arena))?;
    Ok(true)
}

#[test]
fn a_broken_file_was_read_as_another_collection(rt: HostRuntime) -> Result<(), Fail> {
    let mut read = 0;
    for seed in 0..FILES {
        let (at, mut draws) = ((&rt, rt.alloc(), seed), Draws::new(seed));
        let is_map = draws.below(2) == 1;
        let bytes = broken(rt.alloc(), &mut draws, is_map)?;
        read += match is_map {
            true => is_read_as_map(at, &bytes)?,
            false => is_read_as_list(at, &bytes)?,
        } as u64;
    }
    assert!(rt; read > FILES / 10, "only {read} files were read");
    Ok(())
}
