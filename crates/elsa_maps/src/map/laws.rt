//! What a caller may rely on over several calls: each law is the contract of a function that makes
//! the calls.
//!
//! The laws follow from the contracts of the maps alone, as a caller's own proofs do.
ghost use Rattle.std.specs.Prelude.{◌≡◌, ◌+◌, ◌++◌, ◌∷◌, ◌⊎◌, ◌↔◌, [], All, Bool, false, true, IfOk, IsSome, IsTrue, None, OnErr, Some, if◌then◌else◌, length};
ghost use Rattle.elsa_maps.specs.FirstWins.{Inserts, Keeps, SameAt, value_at};
ghost use Rattle.elsa_tables.specs.Insertions.{Grows};

use super::{Frozen, FrozenAppendMapIn, MapForm};
use elsa_tables::for_its_clause;
use elsa_vec::stable::StableDeref;
use std::alloc::{AllocError, Allocator};
use std::hash::{BuildHasher, Hash};

/// Inserts the value. Whether it succeeds or fails, each key that had a value keeps it. After a
/// success, the key has the returned value, the flag is true exactly if the key was new, and then
/// there is one entry more.
pub fn keeps_earlier_values<R, M: MapForm<R>>(
    map: &mut M,
    key: M::Key,
    value: M::Value,
) -> Result<(<M::Value as StableDeref<R>>::Borrow, bool), AllocError>
    // The earlier values stay, and the key has the returned one.
    ensures kept { Keeps (value_at M.same (M.entries map.old)) (value_at M.same (M.entries map.new)) }
    ensures found_after { IfOk result (λ r. value_at M.same (M.entries map.new) key ≡ Some r.0) }

    // Whether it was new, and the number of entries by which the map grew. A failed call changes
    // nothing.
    ensures flag { IfOk result (λ r.
        IsTrue r.1 ↔ (value_at M.same (M.entries map.old) key ≡ None)) }
    ensures grows { IfOk result (λ r.
        length (M.entries map.new) ≡ length (M.entries map.old) + (if r.1 then 1 else 0)) }
    ensures refused { OnErr result (M.entries map.new ≡ M.entries map.old) }
    ensures only_new { OnErr result (value_at M.same (M.entries map.old) key ≡ None) }
{
    // The equality of keys is an equivalence.
    for_its_clause(map.len());
    map.insert_new(key, value)
}

/// Inserts two values with equal keys, and other entries between the two. The second insertion
/// returns `false` and the value of the first, and the map then has all entries. So a key is new at
/// most once between two calls of `as_mut`.
pub fn is_new_once<R, M: MapForm<R>>(
    map: &mut M,
    first: (M::Key, M::Value),
    between: Vec<(M::Key, M::Value)>,
    again: (M::Key, M::Value),
) -> Result<
    (
        (<M::Value as StableDeref<R>>::Borrow, bool),
        (<M::Value as StableDeref<R>>::Borrow, bool),
    ),
    AllocError,
>
    requires equal { M.same first.0 again.0 ≡ true }

    // The key is new at the first insertion alone, and keeps that one's value.
    ensures first { IfOk result (λ answers.
        IsTrue answers.0.1 ↔ (value_at M.same (M.entries map.old) first.0 ≡ None)) }
    ensures once { IfOk result (λ answers. answers.1.1 ≡ false) }
    ensures same_value { IfOk result (λ answers. answers.1.0 ≡ answers.0.0) }
    ensures found_after { IfOk result (λ answers.
        value_at M.same (M.entries map.new) first.0 ≡ Some answers.0.0) }

    // The entries that were inserted before and between are present.
    ensures between { IfOk result (λ _.
        All (λ pair. IsSome (value_at M.same (M.entries map.new) pair.0)) between.items) }
    ensures kept { Keeps (value_at M.same (M.entries map.old)) (value_at M.same (M.entries map.new)) }
{
    // The equality of keys is an equivalence.
    for_its_clause(map.len());
    let (first_key, first_value) = first;
    let before = keeps_earlier_values(map, first_key, first_value)?;
    for pair in between {
        let (key, value) = pair;
        keeps_earlier_values(map, key, value)?;
    }
    let (again_key, again_value) = again;
    let after = keeps_earlier_values(map, again_key, again_value)?;
    Ok((before, after))
}

/// Inserts an entry into a map and another into its copy, as `clone` makes it. Each of the two then
/// has the earlier entries and its own insertion alone.
pub fn inserted_apart<R, M: MapForm<R>>(
    map: &mut M,
    mut copy: M,
    one: (M::Key, M::Value),
    other: (M::Key, M::Value),
) -> Result<M, AllocError>
where
    M: Drop,
    requires alike { SameAt (value_at M.same (M.entries map.old)) (value_at M.same (M.entries copy)) }
    ensures source { IfOk result (λ _.
        Inserts M.same M.Value.target M.Value.shown (value_at M.same (M.entries map.old)) one.0
        one.1 (value_at M.same (M.entries map.new))) }
    ensures copy { IfOk result (λ copied.
        Inserts M.same M.Value.target M.Value.shown (value_at M.same (M.entries map.old)) other.0
        other.1 (value_at M.same (M.entries copied))) }
    ensures refused { OnErr result ((M.entries map.new ≡ M.entries map.old)
        ⊎ Inserts M.same M.Value.target M.Value.shown (value_at M.same (M.entries map.old)) one.0
        one.1 (value_at M.same (M.entries map.new))) }
{
    let (key, value) = one;
    let (other_key, other_value) = other;
    map.insert(key, value)?;
    copy.insert(other_key, other_value)?;
    Ok(copy)
}

/// Inserts a value into a map for large collections, and returns the value that the key then has
/// and whether the key was new. Each earlier entry keeps its index, and a new one gets the next.
///
/// # Errors
/// Fails if an allocation fails, only for a new key. The entries are unchanged.
pub fn keeps_earlier_pairs<
    R: Copy,
    K: Eq + Hash + Drop,
    V: StableDeref<R>,
    S: BuildHasher,
    A: Allocator + Copy,
>(
    map: &mut FrozenAppendMapIn<R, K, V, S, A>,
    key: K,
    value: V,
) -> Result<(V::Borrow, bool), AllocError>
    ensures kept { Grows map.old map.new }
    ensures found_after { IfOk result (λ r. value_at K.eq map.new key ≡ Some r.0) }
    ensures flag { IfOk result (λ r. IsTrue r.1 ↔ (value_at K.eq map.old key ≡ None)) }
    ensures grows { IfOk result (λ r. IsTrue r.1 → map.new ≡ map.old ++ (key, r.0) ∷ []) }
    ensures refused { OnErr result (map.new ≡ map.old) }
{
    Frozen::insert_new(map, key, value)
}
