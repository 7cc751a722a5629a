//! Laws of index maps and index sets that callers may rely on beyond one call: each is the contract
//! of a function that makes only public calls.
ghost use Rattle.std.specs.Prelude.{◌≡◌, ◌+◌, ◌↔◌, ℕ, All, List, None, Some, false, true, if◌then◌else◌, length, position, slice_get, IfOk, IsSome, OnErr, IsTrue};
ghost use Rattle.elsa_tables.specs.FirstWins.{value_at};
ghost use Rattle.elsa_tables.specs.Insertions.{index_of, Grows, Inserted, IsCloneOf};

use crate::index_set::FrozenIndexSetIn;
use crate::look_up::LookUp;
use elsa_maps::index_map::FrozenIndexMapIn;
use elsa_vec::stable::StableDeref;
use std::alloc::{AllocError, Allocator};
use std::hash::{BuildHasher, Hash};

/// Inserts a pair. Whether the insertion succeeds or fails, each earlier pair keeps its index. If
/// it succeeds, the key then has the returned index and value. The flag is true exactly if the key
/// was new, and then the length grows by 1.
///
/// # Errors
/// Fails if an allocation fails. The map is then unchanged.
pub fn keeps_earlier_pairs<
    R: Copy,
    K: Eq + Hash + Drop,
    V: StableDeref<R>,
    S: BuildHasher,
    A: Allocator + Copy,
>(
    map: &mut FrozenIndexMapIn<R, K, V, S, A>,
    key: K,
    value: V,
) -> Result<(usize, V::Borrow, bool), AllocError>
    ensures kept { Grows map.old map.new }
    ensures found_after { IfOk result (λ r. value_at K.eq map.new key ≡ Some r.1) }
    ensures index_after { IfOk result (λ r. index_of K.eq map.new key ≡ Some r.0) }
    // Whether the key or the value was new, and how the length changes.
    ensures flag { IfOk result (λ r. IsTrue r.2 ↔ (index_of K.eq map.old key ≡ None)) }
    ensures grows { IfOk result (λ r. length map.new ≡ length map.old + (if r.2 then 1 else 0)) }
    ensures refused { OnErr result (map.new ≡ map.old) }
{
    map.insert_full_new(key, value)
}

/// Inserts a pair, then other pairs, and then a pair with a key that equals the first one. The last
/// insertion returns the index and the value of the first one, and `false`: a key is new at most
/// once. The map then has the keys of all pairs between.
///
/// # Errors
/// Fails if an allocation fails.
pub fn is_new_once<
    R: Copy,
    K: Eq + Hash + Drop,
    V: StableDeref<R>,
    S: BuildHasher,
    A: Allocator + Copy,
>(
    map: &mut FrozenIndexMapIn<R, K, V, S, A>,
    first: (K, V),
    between: Vec<(K, V)>,
    again: (K, V),
) -> Result<((usize, V::Borrow, bool), (usize, V::Borrow, bool)), AllocError>
    requires equal { K.eq first.0 again.0 ≡ true }
    ensures first { IfOk result (λ r. IsTrue r.0.2 ↔ (index_of K.eq map.old first.0 ≡ None)) }
    ensures once { IfOk result (λ r. r.1 ≡ (r.0.0, r.0.1, false)) }
    ensures found_after { IfOk result (λ r. value_at K.eq map.new first.0 ≡ Some r.0.1) }
    ensures index_after { IfOk result (λ r. index_of K.eq map.new first.0 ≡ Some r.0.0) }
    // The map has the keys between, and each earlier pair keeps its index.
    ensures between { IfOk result (λ _.
        All (λ pair. IsSome (index_of K.eq map.new pair.0)) between.items) }
    ensures kept { Grows map.old map.new }
{
    let (first_key, first_value) = first;
    let before = keeps_earlier_pairs(map, first_key, first_value)?;
    for pair in between {
        let (key, value) = pair;
        keeps_earlier_pairs(map, key, value)?;
    }
    let (again_key, again_value) = again;
    let after = keeps_earlier_pairs(map, again_key, again_value)?;
    Ok((before, after))
}

/// Clones a map, and inserts a pair into the map and another one into the clone. Neither insertion
/// changes the other map.
///
/// # Errors
/// Fails if an allocation fails, or if the `clone` of a key or of the hash builder fails.
pub fn clone_and_part<
    R: Copy,
    K: Eq + Hash + Clone + Drop,
    V: StableDeref<R>,
    S: BuildHasher + Clone + Drop,
    A: Allocator + Copy,
>(
    map: &mut FrozenIndexMapIn<R, K, V, S, A>,
    own: (K, V),
    other: (K, V),
) -> Result<FrozenIndexMapIn<R, K, V, S, A>, AllocError>
    requires faithful { (x y : K) → K.is_clone x y → IsTrue (K.eq x y) }
    ensures source { IfOk result (λ m.
        (i : ℕ) × (b : V.Borrow) × Inserted K.eq V.target V.shown map.old own.0 own.1 i b map.new) }
    ensures clone { IfOk result (λ m.
        (copied : List (K × V.Borrow)) × (i : ℕ) × (b : V.Borrow)
        × IsCloneOf K.eq K.is_clone map.old copied
        × Inserted K.eq V.target V.shown copied other.0 other.1 i b m) }
{
    let mut copy = map.clone()?;
    map.insert_full(own.0, own.1)?;
    copy.insert_full(other.0, other.1)?;
    Ok(copy)
}

/// Inserts a value into a set. Whether the insertion succeeds or fails, each earlier value keeps
/// its index. If it succeeds, the value then has the returned index and borrow. The flag is true
/// exactly if the value was new, and then the length grows by 1.
///
/// # Errors
/// Fails if an allocation fails. The set is then unchanged.
pub fn set_keeps_earlier_values<
    R: Copy,
    T: StableDeref<R> + LookUp<<T as StableDeref<R>>::Borrow>,
    S: BuildHasher,
    A: Allocator + Copy,
>(set: &mut FrozenIndexSetIn<R, T, S, A>, value: T) -> Result<(usize, T::Borrow, bool), AllocError>
where
    <T as StableDeref<R>>::Borrow: Eq + Hash,
    ensures kept { Grows set.old set.new }
    ensures found_after { IfOk result (λ r. slice_get set.new r.0 ≡ Some r.1) }
    ensures index_after { IfOk result (λ r. position (T.finds value) set.new ≡ Some r.0) }
    // Whether the key or the value was new, and how the length changes.
    ensures flag { IfOk result (λ r. IsTrue r.2 ↔ (position (T.finds value) set.old ≡ None)) }
    ensures grows { IfOk result (λ r. length set.new ≡ length set.old + (if r.2 then 1 else 0)) }
    ensures refused { OnErr result (set.new ≡ set.old) }
{
    set.insert_full_new(value)
}

/// Inserts a value into a set, then other values, and then a value that equals the first one. The
/// last insertion returns the index and the borrow of the first one, and `false`: a value is new at
/// most once. The set then has all values between.
///
/// # Errors
/// Fails if an allocation fails.
pub fn set_is_new_once<
    R: Copy,
    T: StableDeref<R> + LookUp<<T as StableDeref<R>>::Borrow>,
    S: BuildHasher,
    A: Allocator + Copy,
>(
    set: &mut FrozenIndexSetIn<R, T, S, A>,
    first: T,
    between: Vec<T>,
    again: T,
) -> Result<((usize, T::Borrow, bool), (usize, T::Borrow, bool)), AllocError>
where
    <T as StableDeref<R>>::Borrow: Eq + Hash,
    requires equal { (b : T.Borrow) → T.finds again b ≡ T.finds first b }
    ensures first { IfOk result (λ r. IsTrue r.0.2 ↔ (position (T.finds first) set.old ≡ None)) }
    ensures once { IfOk result (λ r. r.1 ≡ (r.0.0, r.0.1, false)) }
    ensures found_after { IfOk result (λ r. slice_get set.new r.0.0 ≡ Some r.0.1) }
    ensures index_after { IfOk result (λ r. position (T.finds first) set.new ≡ Some r.0.0) }
    // The set has the values between, and each earlier value keeps its index.
    ensures between { IfOk result (λ _.
        All (λ value. IsSome (position (T.finds value) set.new)) between.items) }
    ensures kept { Grows set.old set.new }
{
    let before = set_keeps_earlier_values(set, first)?;
    for value in between {
        set_keeps_earlier_values(set, value)?;
    }
    let last = set_keeps_earlier_values(set, again)?;
    Ok((before, last))
}
