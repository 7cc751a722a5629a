//! Binary searches over a slice, for any closure. The searches of `FrozenVec` call them.
ghost use Rattle.std.specs.Prelude.{length, true, false};
ghost use Rattle.elsa_arena.specs.Search.{SearchedTo, Brackets, IsBetween, Answered, CallableAtItems, Compares, ComparesAt};

use std::cmp::Ordering;

/// Returns the index of an item that compares as equal with `target`, or `Err` with an index
/// between an item that compares as less and one that compares as greater.
pub(crate) fn binary_search<B: Copy + Ord>(items: &[B], target: &B) -> Result<usize, usize>
    ensures { Brackets (length items.now) (ComparesAt B.cmp target.now items.now) result }
{
    let mut order = |item: B| item.cmp(target);
    binary_search_by(items, &mut order)
}

/// Returns an index for whose item the closure returned `Equal`, or `Err` with an index between one
/// that returned `Less` and one that returned `Greater`. The closure has the state in which the
/// last call of the search left it.
pub(crate) fn binary_search_by<B: Copy, F: FnMut(B) -> Ordering>(
    items: &[B],
    order: &mut F,
) -> Result<usize, usize>
    requires { CallableAtItems (λ p b r q. F.step p b r q) (λ p b. F.pre p b) items.now order.old }
    ensures { SearchedTo (λ p b r q. F.step p b r q) items.now order.old order.new (λ calls.
        Brackets (length items.now) (Answered calls) result) }
{
    let mut left = 0;
    let mut right = items.len();
    while left < right {
        let middle = left + (right - left) / 2;
        match order(items[middle]) {
            Ordering::Less => left = middle + 1,
            Ordering::Greater => right = middle,
            Ordering::Equal => return Ok(middle),
        }
    }
    Err(left)
}

/// Searches as [`binary_search_by`] does, by keys: the key that the closure returns is compared
/// with `key`.
pub(crate) fn binary_search_by_key<B: Copy, K: Ord + Drop, F: FnMut(B) -> K>(
    items: &[B],
    key: &K,
    key_of: &mut F,
) -> Result<usize, usize>
    requires { CallableAtItems (λ p b r q. F.step p b r q) (λ p b. F.pre p b) items.now key_of.old }
    ensures { SearchedTo (Compares K.cmp key.now (λ p b r q. F.step p b r q)) items.now key_of.old
        key_of.new (λ calls. Brackets (length items.now) (Answered calls) result) }
{
    let mut left = 0;
    let mut right = items.len();
    while left < right {
        let middle = left + (right - left) / 2;
        let order = key_of(items[middle]).cmp(key);
        match order {
            Ordering::Less => left = middle + 1,
            Ordering::Greater => right = middle,
            Ordering::Equal => return Ok(middle),
        }
    }
    Err(left)
}

/// Returns an index between an item for which the closure returned true and one for which it
/// returned false.
pub(crate) fn partition_point<B: Copy, F: FnMut(B) -> bool>(items: &[B], belongs: &mut F) -> usize
    requires { CallableAtItems (λ p b r q. F.step p b r q) (λ p b. F.pre p b) items.now belongs.old }
    ensures { SearchedTo (λ p b r q. F.step p b r q) items.now belongs.old belongs.new (λ calls.
        IsBetween (length items.now) (Answered calls) true false result) }
{
    let mut left = 0;
    let mut right = items.len();
    while left < right {
        let middle = left + (right - left) / 2;
        if belongs(items[middle]) {
            left = middle + 1;
        } else {
            right = middle;
        }
    }
    left
}
