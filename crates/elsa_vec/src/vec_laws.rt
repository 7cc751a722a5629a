//! Laws of `FrozenVec` that callers may rely on beyond one call: each is the contract of a function
//! that makes only public calls.
ghost use Rattle.std.specs.Prelude.{◌≡◌, ◌++◌, ◌∷◌, [], ◌⊎◌, Bool, List, IfOk, IfSome, None, OnErr, OnOk, Some, false, length, slice_get, true};
ghost use Rattle.std.specs.Fn.{AlwaysReturns};
ghost use Rattle.std.specs.Iterator.{Drains, IsFinite};
ghost use Rattle.std.specs.List.Sorted.{IsBinarySearchResult, IsPartitionPoint, IsPartitionedBy};
ghost use Rattle.std.specs.Ordering.{nat_cmp};
ghost use Rattle.elsa_vec.specs.Vec.{Gains, GainsAll};

use crate::stable::StableDeref;
use crate::vec::{Cursor, FrozenVec, FrozenVecIn};
use std::alloc::{AllocError, Allocator};
use std::cmp::Ordering;

// ---- content

/// Looks an index up before and after a push. Whether the push succeeds or fails, the vector begins
/// with its earlier content, and an index that had an item has the same one.
pub fn looked_up_round_a_push<R: Copy, T: StableDeref<R>, A: Allocator + Copy>(
    items: &mut FrozenVecIn<R, T, A>,
    index: usize,
    item: T,
) -> (Option<T::Borrow>, Result<(), AllocError>, Option<T::Borrow>)
    ensures looked_up { (result.0 ≡ slice_get items.old index)
        × (result.2 ≡ slice_get items.new index) }
    ensures pushed { IfOk result.1 (λ _. Gains T.target T.shown items.old item items.new) }
    ensures prefix { (more : List T.Borrow) × (items.new ≡ items.old ++ more) }
    ensures same { IfSome result.0 (λ b. result.2 ≡ Some b) }
{
    let before = items.get(index);
    let pushed = items.push(item);
    (before, pushed, items.get(index))
}

/// Returns the borrow of a pushed item and the inner vector after further pushes: the borrow stays
/// valid, and its index is unchanged.
///
/// # Errors
/// Fails if an allocation fails.
pub fn outlives_its_vector<
    R: Copy,
    T: StableDeref<R>,
    A: Allocator + Copy,
    I: Iterator<Item = T> + Drop,
>(
    mut items: FrozenVecIn<R, T, A>,
    item: T,
    further: I,
) -> Result<(T::Borrow, Vec<T::Borrow, A>), AllocError>
    requires can_next { I.can_next further }
    requires ends { IsFinite (I.remaining further) }
    ensures shows { IfOk result (λ r. T.shown r.0 ≡ T.target item) }
    ensures left { IfOk result (λ r.
        (given : List T) × Drains I.next_gives further given
        × GainsAll T.target T.shown (items ++ r.0 ∷ []) given r.1.items) }
{
    let borrow = items.push_get(item)?;
    items.extend(further)?;
    Ok((borrow, items.into_vec()))
}

/// Pushes one item into a vector and another into its clone: neither push changes the other vector.
///
/// # Errors
/// Fails if an allocation fails. The vector is then unchanged, or has `one` at its end.
pub fn pushed_apart<R: Copy, T: StableDeref<R>, A: Allocator + Copy>(
    items: &mut FrozenVecIn<R, T, A>,
    one: T,
    other: T,
) -> Result<FrozenVecIn<R, T, A>, AllocError>
    ensures source { IfOk result (λ _. Gains T.target T.shown items.old one items.new) }
    ensures copy { IfOk result (λ copy. Gains T.target T.shown items.old other copy) }
    ensures refused { OnErr result ((items.new ≡ items.old)
        ⊎ Gains T.target T.shown items.old one items.new) }
{
    let mut copy = items.clone()?;
    items.push(one)?;
    copy.push(other)?;
    Ok(copy)
}

// ---- walks

/// Collects the items of an iterator over a vector: each item once, in order.
///
/// # Errors
/// Fails if an allocation fails.
pub fn walked<R: Copy, T: StableDeref<R>, A: Allocator + Copy, B: Allocator>(
    alloc: B,
    items: &FrozenVecIn<R, T, A>,
) -> Result<Vec<T::Borrow, B>, AllocError>
    ensures { IfOk result (λ walked. walked.items ≡ items.now) }
{
    items.iter().collect(alloc)
}

/// Reads at the end, pushes an item, and reads again: the cursor returns `None` before the push,
/// and returns the item after the push.
pub fn read_on<R: Copy, T: StableDeref<R>, A: Allocator + Copy>(
    items: &mut FrozenVecIn<R, T, A>,
    cursor: &mut Cursor,
    item: T,
) -> (Option<T::Borrow>, Result<(), AllocError>, Option<T::Borrow>)
    requires { cursor.old ≡ length items.old }
    ensures before { result.0 ≡ None }
    ensures pushed { OnOk result.1 (Gains T.target T.shown items.old item items.new) }
    ensures refused { OnErr result.1 (items.new ≡ items.old) }
    // The item that the cursor returns after the push.
    ensures after { result.2 ≡ slice_get items.new (length items.old) }
    ensures shows { IfSome result.2 (λ b. T.shown b ≡ T.target item) }
    ensures at_end { cursor.new ≡ length items.new }
{
    let before = cursor.next(items);
    let pushed = items.push(item);
    (before, pushed, cursor.next(items))
}

// ---- searches

/// Searches by a closure whose results depend only on the item: the result is that of a search of a
/// slice, even if the calls change the closure.
pub fn index_by_order<
    R: Copy,
    T: StableDeref<R>,
    A: Allocator + Copy,
    F: FnMut(T::Borrow) -> Ordering,
>(items: &FrozenVecIn<R, T, A>, order: F) -> Result<usize, usize>
    requires { F.IsAlwaysCallable order }
    ensures { (o : T.Borrow → Ordering) → AlwaysReturns F.FnMut (λ a r. r ≡ o a.0) order →
        IsBinarySearchResult o items.now result }
{
    items.binary_search_by(order)
}

/// Partitions by a closure whose results depend only on the item: the result is that of a partition
/// of a slice, even if the calls change the closure.
pub fn index_by_test<R: Copy, T: StableDeref<R>, A: Allocator + Copy, F: FnMut(T::Borrow) -> bool>(
    items: &FrozenVecIn<R, T, A>,
    belongs: F,
) -> usize
    requires { F.IsAlwaysCallable belongs }
    ensures { (test : T.Borrow → Bool) → AlwaysReturns F.FnMut (λ a r. r ≡ test a.0) belongs →
        IsPartitionedBy test items.now →
        IsPartitionPoint (λ b. test b ≡ true) (λ b. test b ≡ false) items.now result }
{
    items.partition_point(belongs)
}

/// Searches texts that are sorted by length, and returns the index of one of length `wanted`, or
/// `Err` with the index where the shorter ones end. The calls don't change the closure, so the
/// search needs no law.
pub fn index_by_length<'a, A: Allocator + Copy>(
    texts: &FrozenVec<'a, String, A>,
    wanted: usize,
) -> Result<usize, usize>
    ensures { IsBinarySearchResult (λ text. nat_cmp (length text.now) wanted) texts.now result }
{
    texts.binary_search_by(|text| text.len().cmp(&wanted))
}
