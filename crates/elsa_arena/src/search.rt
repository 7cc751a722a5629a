//! Binary searches over the items that were observed, for any closure. The searches of the
//! list itself call them.
ghost use Rattle.std.specs.Prelude.{◌≡◌, ◌<◌, ℕ, Bool, length, IfOk, false, true};
ghost use Rattle.std.specs.declared.cmp.Ordering.{Ordering};
ghost use Rattle.std.specs.Fn.{CalledAt, TakesAt};
ghost use Rattle.std.specs.List.Sorted.{IsBinarySearchResult, IsPartitionPoint, IsPartitionedBy};
ghost use Rattle.elsa_arena.specs.Search.{SearchedTo, Searched, Brackets, IsBetween, Answered, AnswersByItem, AnswersByIndex, CallableAtItems, Compares, ComparesAt, Falls, Parts, Rises, Splits};

use crate::invariant::Invariant;
use crate::observed::Observed;
use std::alloc::Allocator;
use std::cmp::Ordering;

/// Returns an index for whose item the closure returned `Equal`, or `Err` with an index between one
/// that returned `Less` and one that returned `Greater`. The closure has the state in which the
/// last call of the search left it.
fn search_by<T, A: Allocator + Copy, L: Invariant<T>, F: FnMut(&T) -> Ordering>(
    items: &Observed<'_, T, A, L>,
    order: &mut F,
) -> Result<usize, usize>
    requires { CallableAtItems (CalledAt F.FnMut) (TakesAt F.FnMut) items.now.seen order.old }
    ensures { SearchedTo (CalledAt F.FnMut) items.now.seen order.old order.new (λ calls.
        Brackets (length items.now.seen) (Answered calls) result) }
{
    let mut left = 0;
    let mut right = items.len();
    while left < right {
        let middle = left + (right - left) / 2;
        match order(items.item(middle)) {
            Ordering::Less => left = middle + 1,
            Ordering::Greater => right = middle,
            Ordering::Equal => return Ok(middle),
        }
    }
    Err(left)
}

/// Searches as [`search_by`] does, by keys: the key that the closure returns is compared with
/// `key`.
fn search_by_key<T, A: Allocator + Copy, L: Invariant<T>, K: Ord + Drop, F: FnMut(&T) -> K>(
    items: &Observed<'_, T, A, L>,
    key: &K,
    key_of: &mut F,
) -> Result<usize, usize>
    requires { CallableAtItems (CalledAt F.FnMut) (TakesAt F.FnMut) items.now.seen key_of.old }
    ensures { SearchedTo (Compares K.cmp key.now (CalledAt F.FnMut)) items.now.seen key_of.old
        key_of.new (λ calls. Brackets (length items.now.seen) (Answered calls) result) }
{
    let mut left = 0;
    let mut right = items.len();
    while left < right {
        let middle = left + (right - left) / 2;
        let order = key_of(items.item(middle)).cmp(key);
        match order {
            Ordering::Less => left = middle + 1,
            Ordering::Greater => right = middle,
            Ordering::Equal => return Ok(middle),
        }
    }
    Err(left)
}

/// Returns an index between an item for which the closure returned true and one for which it
/// returned false.
fn part_by<T, A: Allocator + Copy, L: Invariant<T>, F: FnMut(&T) -> bool>(
    items: &Observed<'_, T, A, L>,
    belongs: &mut F,
) -> usize
    requires { CallableAtItems (CalledAt F.FnMut) (TakesAt F.FnMut) items.now.seen belongs.old }
    ensures { SearchedTo (CalledAt F.FnMut) items.now.seen belongs.old belongs.new (λ calls.
        IsBetween (length items.now.seen) (Answered calls) true false result) }
{
    let mut left = 0;
    let mut right = items.len();
    while left < right {
        let middle = left + (right - left) / 2;
        if belongs(items.item(middle)) {
            left = middle + 1;
        } else {
            right = middle;
        }
    }
    left
}

impl<T, A: Allocator + Copy, L: Invariant<T>> Observed<'_, T, A, L> {
    /// Searches sorted items for one that compares as equal with `target`.
    ///
    /// `Ok` has the index of an item that compares as equal. `Err` has an index between an item
    /// that compares as less and one that compares as greater, or at an end: if the items are
    /// sorted, the index at which the item could be inserted.
    ///
    /// # Cost
    /// `O(log n)`.
    pub fn binary_search(&self, target: &T) -> Result<usize, usize>
    where
        T: Ord,
        ensures bracket { Brackets (length self.now.seen)
            (ComparesAt T.cmp target.now self.now.seen) result }
        ensures sorted { IsBinarySearchResult (λ item. T.cmp item target.now) self.now.seen result }
        ensures within { IfOk result (λ i. i < length self.now.seen) }
    {
        let mut compare = |item: &T| item.cmp(target);
        search_by(self, &mut compare)
    }

    /// Searches for an item for which the closure returns `Equal`, in items of which those with
    /// `Less` come before it and those with `Greater` after it.
    ///
    /// `Ok` has the index of an item for which the closure returned `Equal`. `Err` has an index
    /// between an item for which it returned `Less` and one for which it returned `Greater`, or at
    /// an end. This also holds for a closure that has a state or is inconsistent. The closure is
    /// called at most as often as the number of items has binary digits, and at most once for each
    /// index. The caller proves that the closure may be called for the items, in the states to
    /// which the calls so far lead.
    ///
    /// # Cost
    /// `O(log n)`.
    pub fn binary_search_by<F: FnMut(&T) -> Ordering>(&self, mut order: F) -> Result<usize, usize>
        requires at_items { CallableAtItems (CalledAt F.FnMut) (TakesAt F.FnMut) self.now.seen
            order }
        ensures bracket { Searched (CalledAt F.FnMut) self.now.seen order (λ calls.
            Brackets (length self.now.seen) (Answered calls) result) }
        ensures split { (o : ℕ → Ordering) →
            AnswersByIndex (CalledAt F.FnMut) self.now.seen order o →
            Rises (length self.now.seen) o → Splits (length self.now.seen) o result }
        ensures by_item { (o : T → Ordering) → AnswersByItem (CalledAt F.FnMut) order o →
            IsBinarySearchResult o self.now.seen result }
        ensures within { IfOk result (λ i. i < length self.now.seen) }
    {
        search_by(self, &mut order)
    }

    /// Searches as [`binary_search_by`](Self::binary_search_by) does, by keys: `key_of(item)` is
    /// compared with `key`.
    ///
    /// # Cost
    /// `O(log n)`.
    pub fn binary_search_by_key<K: Ord + Drop, F: FnMut(&T) -> K>(
        &self,
        key: &K,
        mut key_of: F,
    ) -> Result<usize, usize>
        requires at_items { CallableAtItems (CalledAt F.FnMut) (TakesAt F.FnMut) self.now.seen
            key_of }
        ensures bracket { Searched (Compares K.cmp key.now (CalledAt F.FnMut)) self.now.seen
            key_of (λ calls. Brackets (length self.now.seen) (Answered calls) result) }
        ensures split { (o : ℕ → Ordering) →
            AnswersByIndex (Compares K.cmp key.now (CalledAt F.FnMut)) self.now.seen key_of o →
            Rises (length self.now.seen) o → Splits (length self.now.seen) o result }
        ensures by_item { (o : T → Ordering) →
            AnswersByItem (Compares K.cmp key.now (CalledAt F.FnMut)) key_of o →
            IsBinarySearchResult o self.now.seen result }
        ensures within { IfOk result (λ i. i < length self.now.seen) }
    {
        search_by_key(self, key, &mut key_of)
    }

    /// Returns the index at which the items for which the closure returns true end, in items of
    /// which they come before the others.
    ///
    /// The closure returned true for the item before that index and false for the item at it, if
    /// these items exist. This also holds for a closure that has a state or is inconsistent, and it
    /// is called as in [`binary_search_by`](Self::binary_search_by).
    ///
    /// # Cost
    /// `O(log n)`.
    pub fn partition_point<F: FnMut(&T) -> bool>(&self, mut belongs: F) -> usize
        requires at_items { CallableAtItems (CalledAt F.FnMut) (TakesAt F.FnMut) self.now.seen
            belongs }
        ensures bracket { Searched (CalledAt F.FnMut) self.now.seen belongs (λ calls.
            IsBetween (length self.now.seen) (Answered calls) true false result) }
        ensures split { (answer : ℕ → Bool) →
            AnswersByIndex (CalledAt F.FnMut) self.now.seen belongs answer →
            Falls (length self.now.seen) answer → Parts (length self.now.seen) answer result }
        ensures by_item { (test : T → Bool) → AnswersByItem (CalledAt F.FnMut) belongs test →
            IsPartitionedBy test self.now.seen →
            IsPartitionPoint (λ b. test b ≡ true) (λ b. test b ≡ false) self.now.seen result }
    {
        part_by(self, &mut belongs)
    }
}
