//! Entries of a shared list, each with evidence of a row that has no bytes; how a key is looked up
//! and entered by them.
ghost use Rattle.std.specs.Prelude.{◌≡◌, ℕ, Bool, List, ◌+◌, ◌-◌, ◌<◌, ◌^◌, true, length, slice_get, Some, IfOk, IfSome, IfNone};
ghost use Rattle.elsa_hash_index.specs.declared.entry.Entry.{Entry};
ghost use Rattle.elsa_hash_index.specs.Entries.{EachIsNew, HasLoad, IsAbsent, IsBehind, keys_of};

use crate::probe::{Words, enter, enter_all, find};
use crate::row::{Row, RowSeen, RowView};
use std::alloc::{AllocError, Allocator};

/// A key and its value, with permanent evidence of what its row contains since the key was entered
/// there. The evidence has no bytes.
#[derive(Drop)]
pub struct Entry<K: Drop, V: Drop, S: Drop> {
    pub key: K,
    pub value: V,
    pub seen: RowSeen<S>,
}

/// The entries of a shared list that a thread has observed, with the rows in which they are
/// entered. None of its calls takes an atomic step.
pub trait Shelf<K: Eq + Drop, V: Drop, S: Copy + Drop, A: Allocator> {
    /// The observed entries, in order.
    ghost seen: { Self → List (Entry K V S) };

    // The hash of a key, by the hasher that a builder makes.
    ghost hash: { S → K → ℕ };

    /// Returns the number of observed entries.
    fn seen_len(&self) -> usize
        ensures { (result ≡ length (Self.seen self.now)) × (result < 2 ^ 32) };

    /// Returns the observed entry at `index`.
    fn item<'a>(&'a self, index: usize) -> &'a Entry<K, V, S>
        requires { index < length (Self.seen self.now) }
        ensures { slice_get (Self.seen self.now) index ≡ Some result.now };

    /// Shows that each entry was new to the entries before it, and that its evidence finds all
    /// their keys and its own. It does nothing when it runs.
    fn obeys_rule(&self)
        ensures { EachIsNew (IsBehind K.eq Self.hash) (Self.seen self.now) };

    /// Returns the row of the observed entry at `index`.
    fn row<'a>(&'a self, index: usize) -> &'a Row<S, A>
        requires { index < length (Self.seen self.now) }
        ensures { (e : Entry K V S) → slice_get (Self.seen self.now) index ≡ Some e →
            e.seen.book ≡ result.now.first.book };

    /// Returns the hash of a key, by the hasher that the builder makes.
    fn hash_of(&self, builder: S, key: &K) -> u32
        ensures { result ≡ Self.hash builder key.now };
}

/// A query: a key, or a value that represents keys and has their hashes.
pub trait Sought<K, S> {
    // Whether the query matches a key, and the query's hash, by the hasher that a builder makes.
    ghost stands_for: { Self → K → Bool };

    ghost hash: { Self → S → ℕ };

    /// Returns whether the query matches the key.
    fn stands_for(&self, key: &K) -> bool
        ensures { result ≡ Self.stands_for self.now key.now };

    /// Returns the query's hash, by the hasher that the builder makes.
    fn hash_of(&self, builder: S) -> u32
        ensures { result ≡ Self.hash self.now builder };
}

/// Returns the index of an observed entry whose key matches the query, or `None`. It takes no lock,
/// allocates nothing and never blocks.
///
/// # Cost
/// `O(1)` if the hashes are well distributed.
pub fn lookup<
    K: Eq + Drop,
    V: Drop,
    S: Copy + Drop,
    A: Allocator,
    L: Shelf<K, V, S, A>,
    Q: Sought<K, S>,
>(list: &L, sought: &Q) -> Option<usize>
    requires lawful { (s : S) (key : K) → Q.stands_for sought.now key ≡ true →
        Q.hash sought.now s ≡ L.hash s key }
    ensures found { IfSome result (λ p. (x : Entry K V S) × (slice_get (L.seen list.now) p ≡ Some x) ×
        (Q.stands_for sought.now x.key ≡ true)) }
    ensures absent { IfNone result (IsAbsent Q.stands_for (keys_of (L.seen list.now)) sought.now) }
{
    let n = list.seen_len();
    if n == 0 {
        return None;
    }
    list.obeys_rule();
    let last = list.item(n - 1);
    let mut view = RowView::of(list.row(n - 1), &last.seen);
    let builder = view.builder();
    let hash = sought.hash_of(builder);
    let is_it = |index|
        requires { index < length (L.seen list.now) }
        ensures { (x : Entry K V S) → slice_get (L.seen list.entry.now) index ≡ Some x →
            result ≡ Q.stands_for sought.entry.now x.key }
    { sought.stands_for(&list.item(index).key) };
    find(&mut view, hash, n, is_it)
}

/// Enters a new key in the row of the last entry, and returns what the key's entry needs: evidence
/// of what the row contains since.
///
/// # Errors
/// Fails if fewer than a third of that row's index entries would stay 0.
pub fn entered<K: Eq + Drop, V: Drop, S: Copy + Drop, A: Allocator, L: Shelf<K, V, S, A>>(
    list: &L,
    key: &K,
) -> Result<RowSeen<S>, AllocError>
    // The list is not empty, has fewer than 2^32 - 1 entries, and doesn't have the key.
    requires not_empty { 0 < length (L.seen list.now) }
    requires room { length (L.seen list.now) + 1 < 2 ^ 32 }
    requires absent_key { IsAbsent K.eq (keys_of (L.seen list.now)) key.now }

    // The evidence is of the same row, and an entry of the key may be appended to the list.
    ensures same_row { IfOk result (λ seen. (last : Entry K V S) →
        slice_get (L.seen list.now) (length (L.seen list.now) - 1) ≡ Some last →
        seen.book ≡ last.seen.book) }
    ensures behind { IfOk result (λ seen. (v : V) → IsBehind K.eq L.hash (L.seen list.now)
        (record { key = key.now; value = v; seen = seen })) }
{
    let n = list.seen_len();
    list.obeys_rule();
    let last = list.item(n - 1);
    let mut view = RowView::of(list.row(n - 1), &last.seen);
    let count = view.len();
    if n + 1 + count / 3 > count {
        return Err(AllocError);
    }
    let builder = view.builder();
    enter(&mut view, list.hash_of(builder, key), n)?;
    Ok(view.into_seen())
}

/// Makes a row of `count` index entries, enters all keys of the list and then the new key, and
/// returns the row, and evidence of what it contains.
///
/// # Errors
/// Fails if an allocation fails, or if the row is full.
///
/// # Allocates
/// The row.
///
/// # Cost
/// `O(n + count)`.
pub fn regrown<K: Eq + Drop, V: Drop, S: Copy + Drop, A: Allocator + Copy, L: Shelf<K, V, S, A>>(
    list: &L,
    alloc: A,
    count: usize,
    builder: S,
    key: &K,
) -> Result<(Row<S, A>, RowSeen<S>), AllocError>
    requires room { length (L.seen list.now) + 1 < 2 ^ 32 }
    requires absent_key { IsAbsent K.eq (keys_of (L.seen list.now)) key.now }
    requires load { HasLoad count (length (L.seen list.now) + 1) }

    // The evidence is of the new row, and an entry of the key may be appended to the list.
    ensures same_row { IfOk result (λ r. r.1.book ≡ r.0.first.book) }
    ensures behind { IfOk result (λ r. (v : V) → IsBehind K.eq L.hash (L.seen list.now)
        (record { key = key.now; value = v; seen = r.1 })) }
{
    let n = list.seen_len();
    let row = Row::new(alloc, count, builder)?;
    let mut view = row.view();
    let hash_at = |index|
        requires { index < length (L.seen list.now) }
        ensures { (x : Entry K V S) → slice_get (L.seen list.entry.now) index ≡ Some x →
            result ≡ L.hash builder x.key }
    { list.hash_of(builder, &list.item(index).key) };
    enter_all(&mut view, n, hash_at)?;
    enter(&mut view, list.hash_of(builder, key), n)?;
    let seen = view.into_seen();
    Ok((row, seen))
}
