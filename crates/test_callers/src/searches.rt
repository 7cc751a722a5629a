//! Searches by a closure, for code that knows how its vector is sorted.
ghost use Rattle.std.specs.Prelude.{◌≡◌, ◌<◌, ℕ, IfOk, Some, false, length, ltb, slice_get, true};
ghost use denote.Ref.{Bor};
ghost use Rattle.std.specs.List.Sorted.{IsBinarySearchResult, IsPartitionPoint, IsPartitionedBy};
ghost use Rattle.std.specs.Ordering.{nat_cmp};

use elsa_vec::stable::Own;
use elsa_vec::vec::FrozenVec;

type Texts<'a> = FrozenVec<'a, &'a str>;

/// Returns the index of a text of this length, or the index at which it would be inserted.
pub fn of_length(texts: &Texts<'_>, wanted: usize) -> Result<usize, usize>
    ensures index { IsBinarySearchResult (λ text. nat_cmp (length text.now) wanted)
        texts.now result }
    ensures within { IfOk result (λ index. index < length texts.now) }
{
    texts.binary_search_by_key(&wanted, |text| text.len())
}

/// Returns the index of a number whose double is `wanted`, by a closure that requires numbers below
/// 100.
pub fn of_half(items: &FrozenVec<'_, Own<u8>>, wanted: u8) -> Result<usize, usize>
    requires { (index : ℕ) (item : Bor ℕ) → slice_get items.now index ≡ Some item → item.now < 100 }
    ensures { IfOk result (λ index. index < length items.now) }
{
    items.binary_search_by(
        |item|
            requires { item.now < 100 }
        { (*item + *item).cmp(&wanted) },
    )
}

/// Returns the index at which the texts shorter than `limit` end.
pub fn shorter(texts: &Texts<'_>, limit: usize) -> usize
    ensures { IsPartitionedBy (λ text. ltb (length text.now) limit) texts.now →
        IsPartitionPoint (λ text. ltb (length text.now) limit ≡ true)
        (λ text. ltb (length text.now) limit ≡ false) texts.now result }
{
    texts.partition_point(|text| text.len() < limit)
}
