//! Callers that look up what they inserted, without a proof file.
ghost use Rattle.std.specs.Prelude.{◌≡◌, ℕ, List, Ok, Some, IfOk, IsOk, find, position, slice_get};
ghost use Rattle.std.specs.Borrow.{Bor};
ghost use Rattle.std.specs.Map.{keys_of, lookup};
ghost use Rattle.std.specs.Str.{bytes_eq};
ghost use Rattle.std.specs.String.{string_bytes};

use bumpalo::Bump;
use elsa::interner::Interner;
use elsa::{FrozenIndexMap, FrozenIndexSet};
use std::alloc::AllocError;
use std::test::Fail;

// Returns the numbers of two names. Equal names have one number, different names have two, and both
// names are found afterwards.
fn numbers(
    names: &mut Interner<'_>,
    first: &str,
    second: &str,
) -> Result<(usize, usize), AllocError>
    ensures same_number { IfOk result (λ r. first.now ≡ second.now → r.0 ≡ r.1) }
    ensures apart { IfOk result (λ r. r.0 ≡ r.1 → first.now ≡ second.now) }
    ensures kept { (word : List ℕ) (i : ℕ) → position (bytes_eq word) names.old ≡ Some i →
        position (bytes_eq word) names.new ≡ Some i }
    ensures first { IfOk result (λ r. position (bytes_eq first.now) names.new ≡ Some r.0) }
    ensures second { IfOk result (λ r. position (bytes_eq second.now) names.new ≡ Some r.1) }
{
    let number = names.put(first)?;
    let next = names.put(second)?;
    Ok((number, next))
}

// Inserts a pair, and returns the value that the key has in the map.
fn value_of<'a>(
    map: &mut FrozenIndexMap<'a, u32, &'a str>,
    key: u32,
    value: &'a str,
) -> Result<&'a str, AllocError>
    ensures value { IfOk result (λ b. lookup (⟦<u32 as PartialEq>⟧.eq key) map.new ≡ Some b) }
    ensures known { (there : Bor (List ℕ)) →
        lookup (⟦<u32 as PartialEq>⟧.eq key) map.old ≡ Some there →
        (result ≡ Ok there) × (map.new ≡ map.old) }
{
    map.insert(key, value)
}

// Inserts a pair, and returns the length of the key's value, which it reads by `[]`.
fn length_of<'a>(
    map: &mut FrozenIndexMap<'a, u32, &'a str>,
    key: u32,
    value: &'a str,
) -> Result<usize, AllocError> {
    map.insert(key, value)?;
    Ok(map[&key].len())
}

// Inserts a pair, and returns the index of the key in the map.
fn index_of<'a>(
    map: &mut FrozenIndexMap<'a, u32, &'a str>,
    key: u32,
    value: &'a str,
) -> Result<usize, AllocError>
    ensures index { IfOk result (λ index.
        position (⟦<u32 as PartialEq>⟧.eq key) (keys_of map.new) ≡ Some index) }
    ensures known { (there : Bor (List ℕ)) →
        lookup (⟦<u32 as PartialEq>⟧.eq key) map.old ≡ Some there →
        IsOk result × (map.new ≡ map.old) }
{
    let (index, _) = map.insert_full(key, value)?;
    Ok(index)
}

// Inserts a name, and returns its index in the set and the borrow at that index.
fn name_at<'a>(
    names: &mut FrozenIndexSet<'a, String>,
    name: String,
) -> Result<(usize, &'a str), AllocError>
    ensures index { IfOk result (λ r.
        position (λ kept. bytes_eq (string_bytes name) kept.now) names.new ≡ Some r.0) }
    ensures kept { IfOk result (λ r. slice_get names.new r.0 ≡ Some r.1) }
{
    names.insert_full(name)
}

// Inserts a name, and returns its borrow in the set.
fn name_of<'a>(names: &mut FrozenIndexSet<'a, String>, name: String) -> Result<&'a str, AllocError>
    ensures { IfOk result (λ b.
        find (λ kept. bytes_eq (string_bytes name) kept.now) names.new ≡ Some b) }
{
    names.insert(name)
}

#[test]
fn what_was_put_in_is_found(rt: HostRuntime) -> Result<(), Fail> {
    let alloc = rt.alloc();
    let arena = Bump::new(alloc);
    let mut names = Interner::new(alloc, &arena);
    let mut map = FrozenIndexMap::new(alloc, &arena);
    let mut set: FrozenIndexSet<'_, String> = FrozenIndexSet::new(alloc, &arena);
    let one = numbers(&mut names, "a", "a")? == (0, 0);
    let keyed = value_of(&mut map, 7, "a")? == "a" && index_of(&mut map, 7, "b")? == 0;
    let read = length_of(&mut map, 7, "bb")? == 1;
    let named = name_of(&mut set, String::from_str(alloc, "a")?)? == "a"
        && name_at(&mut set, String::from_str(alloc, "b")?)? == (1, "b");
    assert!(rt; one && keyed && read && named);
    Ok(())
}
