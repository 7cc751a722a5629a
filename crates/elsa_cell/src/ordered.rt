//! [`FrozenBTreeMap`]: the map whose table has the keys in their order.
ghost use Rattle.std.specs.Prelude.{◌≡◌, ◌+◌, ◌-◌, ◌<◌, ◌≤◌, ◌^◌, ◌∷◌, ℕ, [], List, None, Some, IfErr, IfOk, IfSome, OnErr, length, map, slice_get, vec_capacity, vec_items, vec_len};
ghost use Rattle.std.specs.declared.cmp.Ordering.{Ordering};
ghost use Rattle.std.specs.declared.cmp.Ordering.TheVariants.{Equal, Greater, Less};
ghost use Rattle.std.specs.Iterator.{UpTo, YieldsFirstRef, item_count};
ghost use Rattle.std.specs.Iterator.SizeHint.{IsWithinCount};
ghost use Rattle.elsa_cell.specs.Entries.{key_of, pairs_of};
ghost use Rattle.std.specs.Cmp.Lexicographic.{slice_cmp};
ghost use Rattle.std.specs.Ordering.{eq_by_cmp, is_eq, nat_cmp};
ghost use Rattle.std.specs.String.{string_bytes};
ghost use Rattle.std.proofs.lemmas.Cmp.{lists_total, nat_list_cmp_total};
ghost use Rattle.elsa_cell.specs.Ordered.{HasPosition, HasRoomAt, IsBetween, IsBlockGap, IsFilled, IsGreatest, IsInOrder, IsLeast, IsOrdered, IsTableFor, joined, rank_of};
ghost use Rattle.elsa_cell.specs.Queries.{equal_alike, higher_stays, lower_stays};

use crate::indices::{Indices, KeyList, Seeks};
use crate::map::{Entry, Frozen};
use crate::map_hold::FrozenHold;
use crate::map_state::{MOST, ObservedEntries};
use elsa_tables::{AnyEntries, EntryRule};
use std::alloc::{AllocError, Allocator, Global};
use std::cmp::Ordering;
use std::marker::Model;

/// A query of the ordered map with keys `K`: it compares with keys as one of them does.
///
/// A reference to a key is a query. A `&str` is a query for `String` and `&str` keys, and a `&[U]`
/// for `Vec<U>` and `&[U]` keys. A type of the caller's own becomes one by an implementation of
/// this trait.
pub trait OrderQuery<K: Ord>: Copy {
    // How the query compares with a key.
    ghost against: { Self → K → Ordering };

    /// Compares the query with `key`.
    fn compare(&self, key: &K) -> Ordering
        ensures { result ≡ against self.now key.now };

    // A query that is greater than a key is greater than the lesser keys.
    ghost lower: { (q : Self) (x y : K) →
        K.cmp x y ≡ Less → against q y ≡ Greater → against q x ≡ Greater };

    // A query that is less than a key is less than the greater keys.
    ghost higher: { (q : Self) (x y : K) →
        K.cmp x y ≡ Less → against q x ≡ Less → against q y ≡ Less };

    // A query that equals a key compares as that key does.
    ghost alike: { (q : Self) (x y : K) → against q x ≡ Equal → against q y ≡ K.cmp x y };
}

impl<K: Ord> OrderQuery<K> for &K {
    ghost against = { λ q. K.cmp q.now };

    ghost lower = { λ q. lower_stays K.Ord.total q.now };

    ghost higher = { λ q. higher_stays K.Ord.total q.now };

    ghost alike = { λ q. equal_alike K.Ord.total q.now };

    #[inline(always)]
    fn compare(&self, key: &K) -> Ordering {
        (*self).cmp(key)
    }
}

impl<'b> OrderQuery<&'b str> for &str {
    ghost against = { λ q k. slice_cmp nat_cmp q.now k.now };

    ghost lower = { λ q x y. lower_stays nat_list_cmp_total q.now x.now y.now };

    ghost higher = { λ q x y. higher_stays nat_list_cmp_total q.now x.now y.now };

    ghost alike = { λ q x y. equal_alike nat_list_cmp_total q.now x.now y.now };

    #[inline(always)]
    fn compare(&self, key: &&'b str) -> Ordering {
        (*self).cmp(*key)
    }
}

impl<A: Allocator> OrderQuery<String<A>> for &str {
    ghost against = { λ q k. slice_cmp nat_cmp q.now (string_bytes k) };

    ghost lower = { λ q x y. lower_stays nat_list_cmp_total q.now (string_bytes x) (string_bytes y) };

    ghost higher = { λ q x y. higher_stays nat_list_cmp_total q.now (string_bytes x) (string_bytes y) };

    ghost alike = { λ q x y. equal_alike nat_list_cmp_total q.now (string_bytes x) (string_bytes y) };

    #[inline(always)]
    fn compare(&self, key: &String<A>) -> Ordering {
        (*self).cmp(key.as_str())
    }
}

impl<'b, U: Ord> OrderQuery<&'b [U]> for &[U] {
    ghost against = { λ q k. slice_cmp U.cmp q.now k.now };

    ghost lower = { λ q x y. lower_stays (lists_total U.Ord.total) q.now x.now y.now };

    ghost higher = { λ q x y. higher_stays (lists_total U.Ord.total) q.now x.now y.now };

    ghost alike = { λ q x y. equal_alike (lists_total U.Ord.total) q.now x.now y.now };

    #[inline(always)]
    fn compare(&self, key: &&'b [U]) -> Ordering {
        (*self).cmp(*key)
    }
}

impl<U: Ord, A: Allocator> OrderQuery<Vec<U, A>> for &[U] {
    ghost against = { λ q k. slice_cmp U.cmp q.now k.items };

    ghost lower = { λ q x y. lower_stays (lists_total U.Ord.total) q.now x.items y.items };

    ghost higher = { λ q x y. higher_stays (lists_total U.Ord.total) q.now x.items y.items };

    ghost alike = { λ q x y. equal_alike (lists_total U.Ord.total) q.now x.items y.items };

    #[inline(always)]
    fn compare(&self, key: &Vec<U, A>) -> Ordering {
        (*self).cmp(key.as_slice())
    }
}

/// The greatest number of indices in a block. Smaller blocks move fewer indices in an insertion,
/// and more blocks in a split. With 256, both are some 500 bytes at a million keys.
const FULL: usize = 256;

/// Returns the last block whose first key is not greater than the query's, or 0 if there is none.
fn block_of<K: Ord, Q: OrderQuery<K>, L: KeyList<K>, A: Allocator>(
    blocks: &[Vec<u32, A>],
    keys: &L,
    query: Q,
) -> usize
    requires ordered { IsOrdered K.cmp (joined vec_items blocks.now) (L.keys keys.now) }
    requires filled { IsFilled vec_items blocks.now }
    requires some { 0 < length blocks.now }
    ensures within { result < length blocks.now }
    ensures between { IsBetween (Q.against query) (joined vec_items blocks.now) (L.keys keys.now)
        (rank_of vec_items blocks.now result) (rank_of vec_items blocks.now (result + 1)) }
{
    let mut low = 0;
    let mut high = blocks.len();
    while 1 < high - low {
        let middle = low + (high - low) / 2;
        let index = blocks[middle][0] as usize;
        match query.compare(keys.key_at(index)) {
            Ordering::Less => high = middle,
            // A key that equals the query is found in its block.
            Ordering::Greater => low = middle,
            Ordering::Equal => low = middle,
        }
    }
    low
}

/// Returns the index of the key that equals the query, or `Err` with the block in which it would
/// be, and its position in the block.
fn search<K: Ord, Q: OrderQuery<K>, L: KeyList<K>, A: Allocator>(
    blocks: &[Vec<u32, A>],
    keys: &L,
    query: Q,
) -> Result<usize, (usize, usize)>
    requires ordered { IsOrdered K.cmp (joined vec_items blocks.now) (L.keys keys.now) }
    requires filled { IsFilled vec_items blocks.now }
    ensures found { IfOk result (λ i. (key : K) × (slice_get (L.keys keys.now) i ≡ Some key)
        × (Q.against query key ≡ Equal)) }
    ensures gap { IfErr result (IsBlockGap vec_items (Q.against query) blocks.now (L.keys keys.now)) }
{
    if blocks.is_empty() {
        return Err((0, 0));
    }
    let at = block_of(blocks, keys, query);
    let order = blocks[at].as_slice();
    let mut low = 0;
    let mut high = order.len();
    while low < high {
        let middle = low + (high - low) / 2;
        let index = order[middle] as usize;
        match query.compare(keys.key_at(index)) {
            Ordering::Less => high = middle,
            Ordering::Greater => low = middle + 1,
            Ordering::Equal => return Ok(index),
        }
    }
    Err((at, low))
}

/// A table that has the index of each key of a map in the ascending order of the keys, 4 bytes for
/// each, in blocks of at most 256: the table of a [`FrozenBTreeMap`].
#[derive(Drop)]
pub struct Ordered<A: Allocator + Copy> {
    // The indices of all blocks, one block after the other, are those of ascending keys. If there
    // are several blocks, none is empty: the search reads the first index of each.
    pub(crate) blocks: Vec<Vec<u32, A>, A>,
    // The number of indices.
    pub(crate) count: usize,
    // Blocks without indices, for later splits.
    pub(crate) spare: Vec<Vec<u32, A>, A>,
}

/// Returns the number of indices that stay in a full block when it is split for an insertion at
/// `position`.
fn cut_of(position: usize, is_last: bool) -> usize
    ensures { (0 < result) × (result < 256) }
{
    // Ascending keys are inserted at the end of the last block, and descending ones at the start
    // of the first: these splits leave full blocks.
    if position == 0 {
        1
    } else if is_last && position == FULL {
        FULL - 1
    } else {
        FULL / 2
    }
}

impl<A: Allocator + Copy> Ordered<A> {
    /// Makes a table without indices. It allocates nothing.
    pub(crate) fn new(alloc: A) -> Ordered<A>
        ensures empty { result.blocks.items ≡ [] }
        ensures count { result.count ≡ 0 }
    {
        Ordered {
            blocks: Vec::new(alloc),
            count: 0,
            spare: Vec::new(alloc),
        }
    }

    /// Returns the first index.
    fn first(&self) -> usize
        requires filled { IsFilled vec_items self.now.blocks.items }
        requires some { 0 < length (joined vec_items self.now.blocks.items) }
        ensures { slice_get (joined vec_items self.now.blocks.items) 0 ≡ Some result }
    {
        self.blocks[0][0] as usize
    }

    /// Returns the last index.
    fn last(&self) -> usize
        requires filled { IsFilled vec_items self.now.blocks.items }
        requires some { 0 < length (joined vec_items self.now.blocks.items) }
        ensures { (r : ℕ) × (slice_get (joined vec_items self.now.blocks.items) r ≡ Some result)
            × (r + 1 ≡ length (joined vec_items self.now.blocks.items)) }
    {
        let block = self.blocks[self.blocks.len() - 1].as_slice();
        block[block.len() - 1] as usize
    }

    /// Returns a block without indices, with room for `room` of them: a spare one if there is one.
    fn new_block(&mut self, room: usize) -> Result<Vec<u32, A>, AllocError>
        ensures same { (self.new.blocks ≡ self.old.blocks) × (self.new.count ≡ self.old.count) }
        ensures items { IfOk result (λ b. b.items ≡ []) }
        ensures capacity { IfOk result (λ b. room ≤ vec_capacity b) }
    {
        let Some(mut block) = self.spare.pop() else {
            return Vec::with_capacity(*self.blocks.allocator(), room);
        };
        block.clear();
        block.reserve(room)?;
        Ok(block)
    }

    /// Makes room for `more` blocks in the list, and allocates spare ones until there are `more`.
    fn reserve_blocks(&mut self, more: usize) -> Result<(), AllocError>
        ensures same { (self.new.blocks.items ≡ self.old.blocks.items)
            × (self.new.count ≡ self.old.count) }
    {
        self.blocks.reserve(more)?;
        self.spare.reserve(more)?;
        while self.spare.len() < more {
            let block = Vec::with_capacity(*self.blocks.allocator(), FULL)?;
            self.spare.push(block)?;
        }
        Ok(())
    }

    /// Makes the first block, with room for an index, and returns where that goes.
    fn open(&mut self) -> Result<(usize, usize), AllocError>
        requires { self.old.blocks.items ≡ [] }
        ensures same { self.new.count ≡ self.old.count }
        ensures err { OnErr result (self.new.blocks.items ≡ []) }
        ensures first { IfOk result (λ e. (b : _) × (self.new.blocks.items ≡ b ∷ [])
            × (e ≡ (0, 0)) × (b.items ≡ []) × (0 < vec_capacity b)) }
    {
        self.blocks.reserve(1)?;
        let first = self.new_block(4)?;
        self.blocks.push_reserved(first);
        Ok((0, 0))
    }

    /// Splits the full block `at` in two, and returns where an index for `position` in it goes.
    fn split(&mut self, at: usize, position: usize) -> Result<(usize, usize), AllocError>
        requires there { (b : _) × (slice_get self.old.blocks.items at ≡ Some b)
            × (length b.items ≡ 256) × (position ≤ 256) }
        ensures count { self.new.count ≡ self.old.count }
        ensures same { joined vec_items self.new.blocks.items
            ≡ joined vec_items self.old.blocks.items }
        ensures filled { IsFilled vec_items self.old.blocks.items →
            IsFilled vec_items self.new.blocks.items }
        ensures room { IfOk result (λ e. HasRoomAt vec_items vec_capacity self.new.blocks.items e
            × (rank_of vec_items self.new.blocks.items e.0 + e.1
            ≡ rank_of vec_items self.old.blocks.items at + position)) }
    {
        self.blocks.reserve(1)?;
        let mut tail = self.new_block(FULL)?;

        // From here on nothing fails: both vectors have room.
        let next = at + 1;
        let cut = cut_of(position, next == self.blocks.len());
        let block = &mut self.blocks[at];
        match tail.extend_from_slice(&block[cut..]) {
            Ok(()) => {}
            Err(_) => unreachable!(),
        }
        block.truncate(cut);
        match self.blocks.insert(next, tail) {
            Ok(()) => {}
            Err(_) => unreachable!(),
        }
        if position <= cut {
            return Ok((at, position));
        }
        Ok((next, position - cut))
    }
}

impl<K: Ord, A: Allocator + Copy> Indices<K> for Ordered<A> {
    ghost use Rattle.std.specs.Prelude.{◌<◌, ◌-◌, ◌^◌, vec_capacity, vec_items};
    ghost use Rattle.std.specs.Cmp.{eq_by_cmp_equiv};
    ghost use Rattle.std.specs.Ordering.{eq_by_cmp};
    ghost use Rattle.elsa_cell.specs.Ordered.{HasRoomAt, IsBlockGap, IsTableFor};

    ghost same = { eq_by_cmp K.cmp };

    ghost equivalence = { eq_by_cmp_equiv K.Ord.total };

    ghost is_for = { λ t keys. IsTableFor vec_items K.cmp t.blocks.items t.count keys };

    type End = (usize, usize);

    ghost ends = { λ t keys key end. IsBlockGap vec_items (K.cmp key) t.blocks.items keys end };

    ghost has_room = { λ t keys key end. HasRoomAt vec_items vec_capacity t.blocks.items end
        × IsBlockGap vec_items (K.cmp key) t.blocks.items keys end × (t.count < 2 ^ 32 - 1) };

    fn seek<L: KeyList<K>>(&self, keys: &L, key: &K) -> Result<usize, (usize, usize)> {
        search(self.blocks.as_slice(), keys, key)
    }

    fn reserve(&mut self, end: (usize, usize)) -> Result<(usize, usize), AllocError> {
        if self.count >= MOST {
            return Err(AllocError);
        }
        if self.blocks.is_empty() {
            return self.open();
        }
        let (at, position) = end;
        if self.blocks[at].len() == FULL {
            return self.split(at, position);
        }
        self.blocks[at].reserve(1)?;
        Ok(end)
    }

    fn reserve_more(&mut self, more: usize) -> Result<(), AllocError> {
        // Each split but the first of a block comes after at least 64 insertions.
        let splits = self.blocks.len().saturating_add(more / 64 + 2);
        self.reserve_blocks(more.min(splits))
    }

    fn add(&mut self, end: (usize, usize)) {
        let (at, position) = end;
        let next = self.count as u32;
        match self.blocks[at].insert(position, next) {
            Ok(()) => {}
            Err(_) => unreachable!(),
        }
        self.count += 1;
    }
}

impl<K: Ord, Q: OrderQuery<K>, A: Allocator + Copy> Seeks<K, Ordered<A>> for Q {
    ghost use Rattle.std.specs.Ordering.{is_eq};

    ghost finds = { λ q k. is_eq (Q.against q k) };

    fn seek<L: KeyList<K>>(self, table: &Ordered<A>, keys: &L) -> Option<usize> {
        match search(table.blocks.as_slice(), keys, self) {
            Ok(index) => Some(index),
            Err(_) => None,
        }
    }

    fn matches(&self, key: &K) -> bool {
        matches!(self.compare(key), Ordering::Equal)
    }
}

/// The map that finds its keys by their order, and has them sorted: its guard ([`BTreeHold`]) also
/// has the entries in the ascending order of their keys.
///
/// Keys need `Ord`, and two keys are equal if they compare as `Equal`. The index of an entry is its
/// position in the order of insertion.
///
/// The table has 4 bytes for each key, in blocks of at most 256 keys. A look-up makes `O(log n)`
/// comparisons. An insertion also moves at most 1 kB within a block. If the block is full, it is
/// split in two first: this allocates 1 kB, and moves some 24 bytes for each block of greater keys.
/// `reserve` allocates the blocks that splits may need. Exception: while a map has one block, this
/// block may still grow to 256 keys.
pub type FrozenBTreeMap<K, V, A = Global, R = AnyEntries> = Frozen<K, V, Ordered<A>, A, R>;

/// The lock guard of a [`FrozenBTreeMap`].
pub type BTreeHold<'m, K, V, A = Global, R = AnyEntries> = FrozenHold<'m, K, V, Ordered<A>, A, R>;

impl<K: Ord + Drop, V: Drop, A: Allocator + Copy> FrozenBTreeMap<K, V, A> {
    /// Makes an empty map.
    ///
    /// # Errors
    /// Fails if an allocation fails.
    ///
    /// # Allocates
    /// The directory of its buffers, and a block for what insertions change.
    pub fn new(alloc: A) -> Result<Self, AllocError> {
        FrozenBTreeMap::with_rule(alloc)
    }
}

impl<K: Ord + Drop, V: Drop, A: Allocator + Copy, R: EntryRule<K, V>> FrozenBTreeMap<K, V, A, R> {
    /// Makes an empty map with the rule `R`.
    ///
    /// # Errors
    /// Fails if an allocation fails.
    ///
    /// # Allocates
    /// The directory of its buffers, and a block for what insertions change.
    pub fn with_rule(alloc: A) -> Result<Self, AllocError> {
        Frozen::over(alloc, Ordered::new(alloc))
    }
}

/// An iterator over the entries of a [`FrozenBTreeMap`], ascending by key. Contracts see the
/// entries that are left.
#[derive(Drop)]
pub struct Ascending<'h, 'm, K, V, A: Allocator + Copy = Global, R: EntryRule<K, V> = AnyEntries> {
    blocks: &'h [Vec<u32, A>],
    observed: ObservedEntries<'m, K, V, A, R>,
    /// The block of the next index, and its position in it.
    at: usize,
    next: usize,
    /// The number of indices that are left.
    left: usize,
}

impl<'h, 'm, K, V, A: Allocator + Copy, R: EntryRule<K, V>> Model
    for Ascending<'h, 'm, K, V, A, R> {
    ghost use Rattle.std.specs.Prelude.{◌≡◌, ◌+◌, ◌<◌, ℕ, List, Some, drop, length, slice_get, vec_items};
    ghost use Rattle.elsa_cell.specs.Ordered.{IsWalkAt, joined, picked, rank_of};
    ghost use Rattle.elsa_cell.specs.declared.map.Entry.{Entry};

    ghost Value = { List (Entry K V) };

    ghost view = { λ it. picked it.observed.seen
        (drop (rank_of vec_items it.blocks.now it.at + it.next) (joined vec_items it.blocks.now)) };

    // The next index is in the block `at`, and each index of the blocks is that of an observed
    // entry.
    ghost invariant = { λ it. IsWalkAt vec_items it.blocks.now it.at it.next it.left
        × ((r i : ℕ) → slice_get (joined vec_items it.blocks.now) r ≡ Some i → i < length it.observed.seen) };
}

/// Returns the position after `position` of the block `at`, which has `len` positions: the first
/// one of the next block after its last one.
fn next_position(at: usize, position: usize, len: usize) -> (usize, usize)
    requires position { position < len }
    requires fits { at + 1 < 2 ^ 64 }
    ensures within { position + 1 < len → result ≡ (at, position + 1) }
    ensures past { position + 1 ≡ len → result ≡ (at + 1, 0) }
{
    if position + 1 < len {
        return (at, position + 1);
    }
    (at + 1, 0)
}

impl<'h, 'm, K, V, A: Allocator + Copy, R: EntryRule<K, V>> Iterator
    for Ascending<'h, 'm, K, V, A, R> {
    type Item = &'m Entry<K, V>;

    ghost next_gives = { YieldsFirstRef (λ left. left) };

    ghost remaining = { item_count (λ left. left) };

    fn next(&mut self) -> Option<&'m Entry<K, V>> {
        if self.left == 0 {
            return None;
        }
        let block = self.blocks[self.at].as_slice();
        let entry = self.observed.item(block[self.next] as usize);
        let (at, next) = next_position(self.at, self.next, block.len());
        self.at = at;
        self.next = next;
        self.left -= 1;
        Some(entry)
    }

    fn size_hint(&self) -> (usize, Option<usize>) {
        (self.left, Some(self.left))
    }
}

impl<'m, K: Ord + Drop, V: Drop, A: Allocator + Copy, R: EntryRule<K, V>> BTreeHold<
    'm,
    K,
    V,
    A,
    R,
> {
    /// Returns an iterator over the entries, each once, ascending by key. It allocates nothing.
    ///
    /// # Cost
    /// `O(1)`, and so is each entry.
    pub fn ascending(&self) -> Ascending<'_, 'm, K, V, A, R>
        ensures in_order { IsInOrder K.cmp self.now.seen result }
    {
        Ascending {
            blocks: self.state.table.blocks.as_slice(),
            observed: self.observed.again(),
            at: 0,
            next: 0,
            left: self.state.table.count,
        }
    }

    /// Returns the entry of the least key.
    fn first_entry(&self) -> &'m Entry<K, V>
        requires { 0 < length self.now.seen }
        ensures entry { (i : ℕ) × (slice_get self.now.seen i ≡ Some result.now) }
        ensures least { IsLeast K.cmp (key_of result.now) (map key_of self.now.seen) }
    {
        self.observed.item(self.state.table.first())
    }

    /// Returns the entry of the greatest key.
    fn last_entry(&self) -> &'m Entry<K, V>
        requires { 0 < length self.now.seen }
        ensures entry { (i : ℕ) × (slice_get self.now.seen i ≡ Some result.now) }
        ensures greatest { IsGreatest K.cmp (key_of result.now) (map key_of self.now.seen) }
    {
        self.observed.item(self.state.table.last())
    }

    /// Returns references to the least key and its value, or `None` exactly if the map has no
    /// entry. It allocates nothing.
    ///
    /// # Cost
    /// `O(1)`.
    pub fn first_key_value(&self) -> Option<(&'m K, &'m V)>
        ensures none { result ≡ None → self.now.seen ≡ [] }
        ensures entry { IfSome result (λ r. (i : ℕ) ×
            (slice_get (pairs_of self.now.seen) i ≡ Some (r.0.now, r.1.now))) }
        ensures least { IfSome result (λ r.
            IsLeast K.cmp r.0.now (map key_of self.now.seen)) }
    {
        if self.observed.len() == 0 {
            return None;
        }
        let entry = self.first_entry();
        Some((entry.key(), entry.value()))
    }

    /// Returns references to the greatest key and its value, or `None` exactly if the map has no
    /// entry. It allocates nothing.
    ///
    /// # Cost
    /// `O(1)`.
    pub fn last_key_value(&self) -> Option<(&'m K, &'m V)>
        ensures none { result ≡ None → self.now.seen ≡ [] }
        ensures entry { IfSome result (λ r. (i : ℕ) ×
            (slice_get (pairs_of self.now.seen) i ≡ Some (r.0.now, r.1.now))) }
        ensures greatest { IfSome result (λ r.
            IsGreatest K.cmp r.0.now (map key_of self.now.seen)) }
    {
        if self.observed.len() == 0 {
            return None;
        }
        let entry = self.last_entry();
        Some((entry.key(), entry.value()))
    }
}
