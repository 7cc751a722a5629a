//! [`ShardedInterner`]: an interner of shards, whose look-ups take no lock.
//!
//! Each shard is the map of a `SharedInterner`. The number of a name says in which shard the name
//! is, and which index it has there: it is the index, times the number of shards, plus the
//! shard's index. So no number is drawn from a counter that all threads share.
ghost use Rattle.std.specs.Hash.{str};
ghost use Rattle.std.specs.Str.{bytes_eq};
ghost use Rattle.std.specs.Prelude.{◌≡◌, ◌/◌, ◌%◌, ◌^◌, ◌<◌, ◌≤◌, IfOk, IfErr, IfSome, IfNone, OnErr, length, slice_get};
ghost use Rattle.elsa_lock_free.specs.Attempts.{IfBusy};
ghost use Rattle.elsa_lock_free.specs.SharedList.{Continues, IsLaterPass, items_of, mine};
ghost use Rattle.elsa_lock_free.specs.Distinct.{IsOneToOne};
ghost use Rattle.elsa_hash_index.specs.Entries.{keys_of};
ghost use Rattle.elsa_lock_free_map.specs.Entries.{InsertsAt, IsAt, Lacks, is_text};
ghost use Rattle.elsa_shards.specs.Numbers.{AgreeOnNumbers, AreOneToOne};
ghost use Rattle.elsa_shards.specs.Shards.{IsSameMap, OnShard, shard_of};

use crate::lock_free::{LockFreeShardedMap, ShardedHandle};
use elsa_lock_free::may_lock::{AttemptFault, LockPermit};
use elsa_lock_free_map::name::Name;
use elsa_lock_free_map::place_text::PlaceText;
use indexmap::Equivalent;
use std::alloc::{AllocError, Allocator, Global};
use std::hash::{BuildHasher, BuildHasherDefault, FoldHasher, Hash};
use std::sync::Wait;

/// Returns the number of the name at an index of a shard, of `count` shards.
#[inline(always)]
#[tactic(auto, using(crate::proofs::NumberLemmas::index_of_number, crate::proofs::NumberLemmas::shard_of_number))]
fn number_of(index: usize, shard: usize, count: usize) -> usize
    requires shard { shard < count }
    requires limits { (count ≤ 2 ^ 32) × (index < 2 ^ 32) }
    ensures shard { result % count ≡ shard }
    ensures index { result / count ≡ index }
{
    index * count + shard
}

/// An interner that threads share, divided into shards by the hash of the name: a name has the same
/// number in every thread, and different names have different numbers. Look-ups take no lock; a new
/// name takes the lock of its shard, which spins.
///
/// It is a map of shards without values. A thread calls it through a [`ShardedNameHandle`], a
/// handle of that map. A name belongs to one shard, so what a `SharedInterner` promises of a name
/// holds here. What it promises of all names doesn't: there is no order in which the names came,
/// and the numbers have gaps. No clause says how large they are; a number is below the number of
/// shards times the length of the longest shard.
pub type ShardedInterner<T = Name, S = BuildHasherDefault<FoldHasher>, A = Global> =
    LockFreeShardedMap<T, (), S, A>;

/// The handles of all shards of an interner.
pub type ShardedNameHandle<'i, T = Name, S = BuildHasherDefault<FoldHasher>, A = Global> =
    ShardedHandle<'i, T, (), S, A>;

impl<'i, T: Copy + Drop + Hash, S: BuildHasher + Copy + Drop, A: Allocator + Copy> ShardedHandle<
    'i,
    T,
    (),
    S,
    A,
> {
    /// Returns the number of a name, and adds the name if no thread has added it. Every thread gets
    /// the same number for it. The number modulo the number of shards is the index of the name's
    /// shard; the quotient is the name's index there.
    ///
    /// # Errors
    /// Fails if an allocation fails, or if the shard has `2^32 - 1` names; never for a name that
    /// the handle has observed. The handle has then added nothing; the same call may succeed later.
    ///
    /// # Blocks
    /// While another thread adds a name to the same shard, unless the handle has observed the name.
    ///
    /// # Allocates
    /// A buffer of the shard and its row of index entries, if a buffer begins.
    ///
    /// # Cost
    /// Two hashes and one search for a known name, three hashes and two searches for a new one. If
    /// a buffer begins, its row is filled with all names of the shard.
    pub fn put<R: Wait>(&mut self, rt: &R, name: T) -> Result<usize, AllocError>
        ensures same_interner { IsSameMap self.old self.new }
        ensures on_shard { OnShard self.old.0 self.new.0
            (shard_of S.BuildHasher S.Hasher.Hasher self.old.1 (length self.old.0)
            (T.hash_input name))
            (λ before after. IsLaterPass before after × IsOneToOne T.eq (keys_of (items_of after.seen))
            × IfOk result (λ i. InsertsAt T.eq before after name (i / length self.old.0))
            × IfErr result (λ e. mine after ≡ mine before)
            × OnErr result (Lacks T.eq (items_of before.seen) name)) }
        ensures numbered { IfOk result (λ i. i % length self.old.0
            ≡ shard_of S.BuildHasher S.Hasher.Hasher self.old.1 (length self.old.0)
            (T.hash_input name)) }
    {
        let shard = self.shard_index(name);
        let count = self.handles.len();
        let names = &mut self.handles[shard];
        let Ok(index) = names.put(rt, name) else {
            return Err(AllocError);
        };
        names.seen_len();
        Ok(number_of(index, shard, count))
    }

    /// Returns the number of a name, and adds the name if no thread has added it, as
    /// [`put`](Self::put) does, but never waits for the lock.
    ///
    /// # Errors
    /// Fails with `Busy` if another thread has the lock of the name's shard, or has added a name
    /// there first in each of four attempts: the error has the name. Fails with `Failed` where
    /// `put` fails. In both cases the handle has added nothing, and had not observed the name; the
    /// same call may succeed later.
    ///
    /// # Allocates
    /// A buffer of the shard and its row of index entries, as `put` does. The call then has the
    /// lock of the shard while it enters all its names into the row. That takes long and waits for
    /// no thread; other threads that add a name find the shard busy meanwhile.
    ///
    /// # Cost
    /// That of `put`, with at most four exchanges of the shard's state word to take the lock.
    pub fn try_put(&mut self, may: LockPermit, name: T) -> Result<usize, AttemptFault<T>>
        ensures same_interner { IsSameMap self.old self.new }
        ensures on_shard { OnShard self.old.0 self.new.0
            (shard_of S.BuildHasher S.Hasher.Hasher self.old.1 (length self.old.0)
            (T.hash_input name))
            (λ before after. IsLaterPass before after × IsOneToOne T.eq (keys_of (items_of after.seen))
            × IfOk result (λ i. InsertsAt T.eq before after name (i / length self.old.0))
            × IfErr result (λ f. mine after ≡ mine before)
            × OnErr result (Lacks T.eq (items_of before.seen) name)) }
        ensures numbered { IfOk result (λ i. i % length self.old.0
            ≡ shard_of S.BuildHasher S.Hasher.Hasher self.old.1 (length self.old.0)
            (T.hash_input name)) }
        ensures busy { IfErr result (λ f. IfBusy f (λ x. x ≡ name)) }
    {
        let chosen = self.shard_index(name);
        let count = self.handles.len();
        let names = &mut self.handles[chosen];
        let index = match names.try_put(may, name) {
            Ok(index) => index,
            Err(fault) => return Err(fault),
        };
        names.seen_len();
        Ok(number_of(index, chosen, count))
    }

    /// Returns the number of the name that `query` finds, or `None` if the handle has then observed
    /// no such name in the shard of `query`. A query is a reference to a name, a `&str` if the
    /// names are texts, or another value that is [`Equivalent`] to names. The call takes no lock,
    /// allocates nothing and never blocks.
    ///
    /// # Cost
    /// Two hashes and one search; if the name is not found and the shard has grown since, three
    /// hashes and two searches.
    pub fn find<Q: Equivalent<T>>(&mut self, query: Q) -> Option<usize>
        ensures same_interner { IsSameMap self.old self.new }
        ensures on_shard { OnShard self.old.0 self.new.0
            (shard_of S.BuildHasher S.Hasher.Hasher self.old.1 (length self.old.0)
            (Q.hash_input query))
            (λ before after. Continues before after
            × IfSome result (λ i. IsAt Q.equivalent (items_of after.seen)
            (i / length self.old.0) query)
            × IfNone result (Lacks Q.equivalent (items_of after.seen) query)) }
        ensures numbered { IfSome result (λ i. i % length self.old.0
            ≡ shard_of S.BuildHasher S.Hasher.Hasher self.old.1 (length self.old.0)
            (Q.hash_input query)) }
    {
        let shard = self.shard_index(query);
        let count = self.handles.len();
        let names = &mut self.handles[shard];
        let Some(index) = names.find(query) else {
            return None;
        };
        names.seen_len();
        Some(number_of(index, shard, count))
    }

    /// Returns the name with a number, or `None` if the handle has then observed no such name. The
    /// call takes no lock, allocates nothing and never blocks.
    ///
    /// # Cost
    /// `O(1)`.
    pub fn at(&mut self, number: usize) -> Option<T>
        ensures same_interner { IsSameMap self.old self.new }
        ensures on_shard { OnShard self.old.0 self.new.0 (number % length self.old.0)
            (λ before after. Continues before after
            × (result ≡ slice_get (keys_of (items_of after.seen)) (number / length self.old.0))) }
    {
        let count = self.handles.len();
        self.handles[number % count].at(number / count)
    }

    /// Proves that the names that the handle has observed, each in its own shard, are one to one
    /// with their numbers. It changes nothing.
    ///
    /// # Cost
    /// The number of shards.
    pub fn one_to_one(&self)
        ensures { AreOneToOne T.eq
            (λ x. shard_of S.BuildHasher S.Hasher.Hasher self.now.1 (length self.now.0)
            (T.hash_input x)) self.now.0 }
    {
        for index in 0..self.handles.len() {
            self.handles[index].one_to_one();
        }
    }

    /// Proves that a name has one number for two handles of an interner, whether they were merged
    /// or not. It changes nothing.
    ///
    /// # Cost
    /// The number of shards.
    pub fn same_name_same_number(&self, other: &ShardedHandle<'_, T, (), S, A>)
        requires same_interner { IsSameMap self.now other.now }
        ensures { AgreeOnNumbers T.eq
            (λ x. shard_of S.BuildHasher S.Hasher.Hasher self.now.1 (length self.now.0)
            (T.hash_input x)) self.now.0 other.now.0 }
    {
        for index in 0..self.handles.len() {
            self.handles[index].same_index(&other.handles[index]);
        }
    }
}

impl<'i, 'a, S: BuildHasher + Copy + Drop, A: Allocator + Copy> ShardedHandle<
    'i,
    &'a str,
    (),
    S,
    A,
> {
    /// Returns the number of a text of any lifetime and length. If no thread has added the text, it
    /// copies the text into `arena` and adds the copy.
    ///
    /// If another thread adds the text between the look-up and the append, the copy stays unused in
    /// the arena, and the number is that of the other thread.
    ///
    /// # Errors
    /// Fails if the arena is full, if an allocation fails, or if the shard has `2^32 - 1` names;
    /// never for a text that the handle has observed. The handle has then added nothing; the same
    /// call may succeed later.
    ///
    /// # Blocks
    /// While another thread adds a name to the same shard, unless the text is found.
    ///
    /// # Cost
    /// Two hashes and one search for a known text, three hashes and two searches for a new one.
    pub fn put_text<R: Wait, P: PlaceText<'a> + Drop>(
        &mut self,
        rt: &R,
        arena: P,
        text: &str,
    ) -> Result<usize, AllocError>
        ensures same_interner { IsSameMap self.old self.new }
        ensures on_shard { OnShard self.old.0 self.new.0
            (shard_of S.BuildHasher S.Hasher.Hasher self.old.1 (length self.old.0) (str text.now))
            (λ before after. IsLaterPass before after
            × IsOneToOne (λ a b. bytes_eq a.now b.now) (keys_of (items_of after.seen))
            × IfOk result (λ i. InsertsAt is_text before after text.now (i / length self.old.0))
            × IfErr result (λ e. mine after ≡ mine before)
            × OnErr result (Lacks is_text (items_of before.seen) text.now)) }
        ensures numbered { IfOk result (λ i. i % length self.old.0
            ≡ shard_of S.BuildHasher S.Hasher.Hasher self.old.1 (length self.old.0)
            (str text.now)) }
    {
        let shard = self.shard_index(text);
        let count = self.handles.len();
        let names = &mut self.handles[shard];
        let Ok(index) = names.put_text(rt, arena, text) else {
            return Err(AllocError);
        };
        names.seen_len();
        Ok(number_of(index, shard, count))
    }

    /// Returns the number of a text of any lifetime and length, as [`put_text`](Self::put_text)
    /// does, but never waits for the lock.
    ///
    /// # Errors
    /// Fails with `Busy` as [`try_put`](Self::try_put) does: the error has the copy of the text,
    /// which is in the arena. Fails with `Failed` where `put_text` fails. In both cases the handle
    /// has added nothing, and had not observed the text. To try again after `Busy`, put the copy by
    /// `try_put`: this call would copy the text once more.
    ///
    /// # Cost
    /// That of `put_text`, with at most four exchanges of the shard's state word to take the lock.
    pub fn try_put_text<P: PlaceText<'a> + Drop>(
        &mut self,
        may: LockPermit,
        arena: P,
        text: &str,
    ) -> Result<usize, AttemptFault<&'a str>>
        ensures same_interner { IsSameMap self.old self.new }
        ensures on_shard { OnShard self.old.0 self.new.0
            (shard_of S.BuildHasher S.Hasher.Hasher self.old.1 (length self.old.0) (str text.now))
            (λ before after. IsLaterPass before after
            × IsOneToOne (λ a b. bytes_eq a.now b.now) (keys_of (items_of after.seen))
            × IfOk result (λ i. InsertsAt is_text before after text.now (i / length self.old.0))
            × IfErr result (λ f. mine after ≡ mine before)
            × OnErr result (Lacks is_text (items_of before.seen) text.now)) }
        ensures numbered { IfOk result (λ i. i % length self.old.0
            ≡ shard_of S.BuildHasher S.Hasher.Hasher self.old.1 (length self.old.0)
            (str text.now)) }
        ensures busy { IfErr result (λ f. IfBusy f (λ x. x.now ≡ text.now)) }
    {
        let chosen = self.shard_index(text);
        let count = self.handles.len();
        let names = &mut self.handles[chosen];
        let index = match names.try_put_text(may, arena, text) {
            Ok(index) => index,
            Err(fault) => return Err(fault),
        };
        names.seen_len();
        Ok(number_of(index, chosen, count))
    }
}
