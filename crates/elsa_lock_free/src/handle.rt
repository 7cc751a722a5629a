//! A handle: a vector together with a thread's view of it.
//!
//! A handle belongs to its vector by its type, so only the calls that take two handles, or a view,
//! have a condition. Each call of the vector is written here, once, for every rule of the items and
//! for whatever is stored next to the slots. The calls on the vector itself are short forms.
ghost use Rattle.std.specs.Prelude.{◌≡◌, ℕ, ◌≤◌, ◌<◌, ◌^◌, ◌+◌, [], List, drop, length, slice_get, take, IfOk, IfErr, IfSome, IfNone, Some};
ghost use Rattle.elsa_lock_free.specs.SharedList.{BeginsABuffer, BeginsAmong, Continues, IsLaterPass, Meet, PushedAll, Pushes, PushesNext, copied, entry, items_of, mine};
ghost use Rattle.elsa_lock_free.specs.declared.event.Entry.{Entry};
ghost use Rattle.elsa_lock_free.specs.Attempts.{IfBusy, IfFailed};
ghost use mathlib.Core.List.{IsPrefix};
ghost use Rattle.elsa_lock_free.specs.History.{list_of};
ghost use lib.Pointwise.{pointwise};

use crate::atomic_list::{AtomicList, LIMIT, wait_a_little};
use crate::history::VectorHistory;
use crate::item_rule::{AnyItems, ItemRule};
use crate::lock_free::LockFreeFrozenVec;
use crate::may_lock::{AttemptFault, LockPermit};
use crate::pass::{Pass, PushRight};
use crate::tokens::{Writer, bounded_by_tickets};
use elsa_slots::iter::Iter;
use elsa_slots::slots::Beside;
use std::alloc::{AllocError, AllocFailed, Allocator, Global};
use std::marker::Model;
use std::ops::Deref;
use std::sync::Wait;

/// A vector and a thread's view of it, with the right to push. Contracts see the view: its vector,
/// its number as a writer, and the list that it has observed.
///
/// A handle has the vector's slots and state word, but not the vector itself, from which handles
/// are made. So no call of a handle can make another handle and push by it. A handle is as large as
/// a reference and a view.
#[derive(Drop)]
pub struct Handle<'v, T, A: Allocator = Global, K: ItemRule<T> = AnyItems, X: Beside<T> = ()> {
    pub(crate) list: &'v AtomicList<T, A, K, X>,
    pub(crate) pass: Pass<T, A, K, X>,
    pub(crate) right: PushRight,
}

impl<'v, T, A: Allocator, K: ItemRule<T>, X: Beside<T>> Model for Handle<'v, T, A, K, X> {
    ghost use Rattle.std.specs.Prelude.{◌≡◌};
    ghost use Rattle.elsa_lock_free.specs.SharedList.{View};

    ghost Value = { View T };

    ghost view = { λ h. h.pass };

    // The view is of this list, and the right is that of its writer.
    ghost invariant = { λ h. (h.pass.vector ≡ (h.list.now.first.book, h.list.now.first.names))
        × (h.right ≡ h.pass.writer) };
}

// A handle is read as its view.
impl<'v, T, A: Allocator, K: ItemRule<T>, X: Beside<T>> Deref for Handle<'v, T, A, K, X> {
    ghost use Rattle.std.specs.Prelude.{◌≡◌};

    type Target = Pass<T, A, K, X>;

    ghost deref_gives = { λ h p. p ≡ h };

    fn deref(&self) -> &Pass<T, A, K, X> {
        &self.pass
    }
}

/// What a handle has observed of a vector, for reading: it has no right to push. Contracts see the
/// items.
#[derive(Drop)]
pub struct Observed<'v, T, A: Allocator = Global, K: ItemRule<T> = AnyItems, X: Beside<T> = ()> {
    list: &'v AtomicList<T, A, K, X>,
    pass: Pass<T, A, K, X>,
}

impl<'v, T, A: Allocator, K: ItemRule<T>, X: Beside<T>> Model for Observed<'v, T, A, K, X> {
    ghost use Rattle.std.specs.Prelude.{◌≡◌, List};
    ghost use Rattle.elsa_lock_free.specs.SharedList.{items_of};

    ghost Value = { List T };

    ghost view = { λ o. items_of o.pass.seen };

    // The view is of this list.
    ghost invariant = { λ o. o.pass.vector ≡ (o.list.now.first.book, o.list.now.first.names) };
}

impl<'v, T: Drop, A: Allocator + Copy, K: ItemRule<T>, X: Beside<T> + Drop> Observed<
    'v,
    T,
    A,
    K,
    X,
> {
    /// Returns the number of items.
    pub fn len(&self) -> usize
        ensures { result ≡ length self.now }
    {
        let pass = &self.pass;
        pass.seen_len()
    }

    /// Returns a reference to the item at an index.
    pub fn item(&self, index: usize) -> &'v T
        requires within { index < length self.now }
        ensures { slice_get self.now index ≡ Some result.now }
    {
        let pass = &self.pass;
        pass.item(self.list, index)
    }
}

impl<'v, T: Drop, A: Allocator + Copy, K: ItemRule<T>, X: Beside<T> + Drop> Handle<'v, T, A, K, X> {
    /// Makes a handle of a vector and a view of it.
    pub fn of(vector: &'v LockFreeFrozenVec<T, A, K, X>, pass: Pass<T, A, K, X>) -> Self
        requires same_vector { pass.vector ≡ vector.now }
        ensures same_view { result ≡ pass }
    {
        let right = PushRight::of(vector, &pass);
        Handle {
            list: &vector.list,
            pass,
            right,
        }
    }

    /// Returns the view, to store it or to pass it to the calls that take one.
    pub fn into_pass(self) -> Pass<T, A, K, X>
        ensures same_view { result ≡ self.entry }
    {
        let Handle {
            list: _,
            pass,
            right: _,
        } = self;
        pass
    }

    /// Returns what the handle has observed, for reading while the handle is in use. It allocates
    /// nothing and takes no atomic step.
    pub fn observed(&self) -> Observed<'v, T, A, K, X>
        ensures items { result ≡ items_of self.now.seen }
    {
        Observed {
            list: self.list,
            pass: self.pass.again(),
        }
    }

    /// Returns the number of items, by one load of the length. It takes no lock, allocates nothing
    /// and never blocks.
    ///
    /// # Cost
    /// `O(1)`.
    pub fn len(&mut self) -> usize
        ensures continues { Continues self.old self.new }
        ensures length { result ≡ length self.new.seen }
        ensures fresh { length self.old.seen ≤ result }
        ensures limit { result < 2 ^ 62 }
    {
        let known = self.history();
        self.len_after(&known)
    }

    /// Returns the number of items, by one load of the length, as [`len`](Self::len) does. `known`
    /// is a history of the vector that another thread may have observed, and passed on before the
    /// call. The handle then has observed all that the other one had: the items that it had pushed,
    /// and those before them.
    ///
    /// # Cost
    /// `O(1)`.
    pub fn len_after(&mut self, known: &VectorHistory<T, A, K, X>) -> usize
        requires same_vector { known.now.vector ≡ self.old.vector }
        ensures continues { Continues self.old self.new }
        ensures known { IsPrefix (list_of known.now.events) self.new.seen }
        ensures length { result ≡ length self.new.seen }
        ensures fresh { length self.old.seen ≤ result }
        ensures limit { result < 2 ^ 62 }
    {
        let list = self.list;
        let (pass, n) = self.pass.lend().read_length(list, known);
        self.pass = pass;
        n
    }

    /// Returns a reference to the item at an index that the handle has observed. It takes no atomic
    /// step and no lock, and allocates nothing.
    ///
    /// # Cost
    /// `O(1)`.
    pub fn item(&self, index: usize) -> &'v T
        requires seen { index < length self.now.seen }
        ensures { slice_get (items_of self.now.seen) index ≡ Some result.now }
    {
        self.pass.item(self.list, index)
    }

    /// Returns what is stored next to the slot of an index that the handle has observed. It takes
    /// no atomic step and no lock, and allocates nothing.
    ///
    /// # Cost
    /// `O(1)`.
    #[doc(hidden)]
    pub fn beside(&self, index: usize) -> &'v X
        requires seen { index < length self.now.seen }
        ensures { (item : T) → slice_get (items_of self.now.seen) index ≡ Some item →
            X.fits result.now item }
    {
        self.seen_len();
        let list = self.list;
        let prefix = self.pass.evidence();
        let beside = list.beside(&prefix, index);
        prefix.discard();
        beside
    }

    /// Returns a reference to the item at an index, or `None` if the index is not below the length
    /// that the handle has then observed. The reference lives as long as the vector is borrowed.
    ///
    /// An index that the handle has observed is read without an atomic step. For any other, the
    /// call first reads the length, by one load. It takes no lock, allocates nothing and never
    /// blocks.
    ///
    /// # Cost
    /// `O(1)`.
    pub fn get_ref(&mut self, index: usize) -> Option<&'v T>
        ensures continues { Continues self.old self.new }
        ensures item { IfSome result (λ r. slice_get (items_of self.new.seen) index ≡ Some r.now) }
        ensures absent { IfNone result (length self.new.seen ≤ index) }
        ensures limit { IfSome result (λ _. index + 1 < 2 ^ 62) }
    {
        if index < self.seen_len() {
            return Some(self.item(index));
        }
        if index < self.len() {
            return Some(self.item(index));
        }
        None
    }

    /// Merges what two handles of a vector have observed: afterwards both have observed the longer
    /// list. The indices at which each has pushed stay its own, and no index belongs to both. It
    /// takes no atomic step, allocates nothing and never blocks.
    ///
    /// # Cost
    /// `O(1)`.
    pub fn meet(&mut self, other: &mut Handle<'_, T, A, K, X>)
        requires same_vector { self.old.vector ≡ other.old.vector }
        ensures { Meet self.old self.new other.old other.new }
    {
        self.pass.meet(&mut other.pass)
    }
}

impl<'v, T: Drop, A: Allocator + Copy, K: ItemRule<T>> Handle<'v, T, A, K> {
    /// Pushes an item and returns its index.
    ///
    /// # Errors
    /// Fails if the buffer that begins at this length can't be allocated, or if the length is
    /// `2^62 - 1`, the greatest. The error has the item; by `?` it becomes an `AllocError`, which
    /// drops the item. The handle has then pushed no more than before; the same push may succeed
    /// later.
    ///
    /// # Blocks
    /// While another thread pushes.
    ///
    /// # Allocates
    /// A buffer, four times as large as the one before, at the lengths where one begins.
    ///
    /// # Cost
    /// `O(1)`.
    pub fn push<R: Wait>(&mut self, rt: &R, item: T) -> Result<usize, AllocFailed<T>>
        requires obeys_rule { (es : List (Entry T)) → K.is_new es (entry self.old.writer item) }
        ensures later { IsLaterPass self.old self.new }
        ensures pushed { IfOk result (λ i. Pushes self.old self.new i item) }
        ensures limit { IfOk result (λ i. i + 1 < 2 ^ 62) }
        ensures refused { IfErr result (λ e. (e.value ≡ item) × (mine self.new ≡ mine self.old)
            × BeginsABuffer (length self.new.seen)) }
    {
        let Some(hold) = self.hold_now(rt) else {
            return Err(AllocFailed { value: item });
        };
        let index = hold.at();
        hold.end_with(self, item)?;
        Ok(index)
    }

    /// Pushes the item that `make` returns for its index, and returns the index: for items that
    /// contain their own index.
    ///
    /// # Errors
    /// Fails where [`push`](Self::push) does. The item of `make` is then dropped, and the handle
    /// has pushed nothing. If the length is `2^62 - 1`, `make` isn't called.
    ///
    /// # Blocks
    /// While another thread pushes. `make` runs under the lock: the pushes of other threads wait
    /// for it, and it must not push to the same vector, which would wait for its own lock. Reads
    /// take no lock.
    ///
    /// # Allocates
    /// A buffer, four times as large as the one before, at the lengths where one begins.
    ///
    /// # Cost
    /// `O(1)`, and that of `make`.
    pub fn push_with<R: Wait, F: FnOnce(usize) -> T + Drop>(
        &mut self,
        rt: &R,
        make: F,
    ) -> Result<usize, AllocError>
        requires callable { (i : ℕ) → i + 1 < 2 ^ 62 → F.pre make i }
        requires obeys_rule { (i : ℕ) (item : T) (es : List (Entry T)) → F.post make i item →
            K.is_new es (entry self.old.writer item) }

        // The item is pushed once, at the index for which it was made, or the view has pushed
        // nothing.
        ensures later { IsLaterPass self.old self.new }
        ensures pushed { IfOk result (λ i.
            (item : T) × F.post make i item × Pushes self.old self.new i item) }
        ensures limit { IfOk result (λ i. i + 1 < 2 ^ 62) }
        ensures refused { IfErr result (λ e. (mine self.new ≡ mine self.old)
            × BeginsABuffer (length self.new.seen)) }
    {
        let Some(held) = self.hold_now(rt) else {
            return Err(AllocError);
        };
        let at = held.at();
        held.end_with(self, make(at))?;
        Ok(at)
    }

    /// Pushes an item and returns its index, as [`push`](Self::push) does, but never waits for the
    /// lock.
    ///
    /// # Errors
    /// Fails with `Busy` if another thread has the lock, or has pushed first in each of four
    /// attempts, and with `Failed` where `push` fails. Both have the item. The handle has then
    /// pushed no more than before; the same push may succeed later.
    ///
    /// # Allocates
    /// A buffer, four times as large as the one before, at the lengths where one begins. The call
    /// has the lock meanwhile, and the pushes of other threads find the vector busy.
    ///
    /// # Cost
    /// `O(1)`, with at most four exchanges of the state word to take the lock.
    pub fn try_push(
        &mut self,
        may: LockPermit,
        item: T,
    ) -> Result<usize, AttemptFault<T, AllocFailed<T>>>
        requires obeys_rule { (es : List (Entry T)) → K.is_new es (entry self.old.writer item) }

        // The item is pushed once, or it comes back and the view has pushed nothing.
        ensures later { IsLaterPass self.old self.new }
        ensures pushed { IfOk result (λ i. Pushes self.old self.new i item) }
        ensures limit { IfOk result (λ i. i + 1 < 2 ^ 62) }
        ensures busy { IfErr result (λ f. (mine self.new ≡ mine self.old)
            × IfBusy f (λ x. x ≡ item)) }
        ensures refused { IfErr result (λ f. IfFailed f (λ e. (e.value ≡ item)
            × BeginsABuffer (length self.new.seen))) }
    {
        let hold = match self.try_hold_now(may) {
            Ok(hold) => hold,
            Err(AttemptFault::Busy(())) => return Err(AttemptFault::Busy(item)),
            Err(AttemptFault::Failed(AllocError)) => {
                return Err(AttemptFault::Failed(AllocFailed { value: item }));
            }
        };
        let at = hold.at();
        match hold.end_with(self, item) {
            Ok(()) => Ok(at),
            Err(failed) => Err(AttemptFault::Failed(failed)),
        }
    }

    /// Returns an iterator over the items that the handle has observed, each once and in order. It
    /// yields copies of `Copy` items; for any items, its [`refs`](Iter::refs) yield references.
    ///
    /// It doesn't read the length: it takes no atomic step and no lock, and allocates nothing. It
    /// doesn't yield pushes that the handle has not observed; [`len`](Self::len) observes them.
    ///
    /// # Cost
    /// `O(1)`, also for each item.
    pub fn iter(&self) -> Iter<'v, T, A>
        ensures items { result ≡ items_of self.now.seen }
    {
        let list = self.list;
        list.items(self.pass.evidence(), self.seen_len())
    }

    /// Reads the length once, and returns an iterator over the items that the handle had not
    /// observed before, each once and in order. A handle observes its own pushes, so the iterator
    /// yields neither them nor the items below them. It yields copies or references, as that of
    /// [`iter`](Self::iter) does.
    ///
    /// It takes no lock, allocates nothing and never blocks.
    ///
    /// # Cost
    /// `O(1)`, also for each item, which takes no atomic step.
    pub fn news(&mut self) -> Iter<'v, T, A>
        ensures continues { Continues self.old self.new }
        ensures items { result ≡ drop (length self.old.seen) (items_of self.new.seen) }
    {
        let before = self.seen_len();
        let len = self.len();
        let list = self.list;
        list.items_from(self.pass.evidence(), len, before)
    }

    /// Waits for items that the handle has not observed, and returns an iterator over them, as
    /// [`news`](Self::news) does. It reads the length at most `tries` times, until there is such an
    /// item. If none comes, the iterator is empty.
    ///
    /// # Blocks
    /// Between two reads: the first 64 times by the processor's hint for waiting loops, and from
    /// then on the thread yields its processor.
    ///
    /// # Cost
    /// `O(1)` for each read and for each item.
    pub fn wait_for_news<R: Wait>(&mut self, rt: &R, tries: usize) -> Iter<'v, T, A>
        ensures continues { Continues self.old self.new }
        ensures items { result ≡ drop (length self.old.seen) (items_of self.new.seen) }
    {
        let before = self.seen_len();
        self.wait_for_length(rt, before, tries);
        let list = self.list;
        list.items_from(self.pass.evidence(), self.seen_len(), before)
    }

    /// Reads the length until it is above `before`, at most `tries` times, and waits a little
    /// between two reads.
    fn wait_for_length<R: Wait>(&mut self, _rt: &R, before: usize, tries: usize)
        ensures continues { Continues self.old self.new }
    {
        let mut waits = 0;
        for _ in 0..tries {
            if self.len() > before {
                break;
            }
            waits = wait_a_little(waits);
        }
    }
}

impl<'v, T: Copy + Drop, A: Allocator + Copy, K: ItemRule<T>> Handle<'v, T, A, K> {
    /// Pushes an item at index `n` only: if the vector has more than `n` items, it pushes nothing
    /// and returns `None`. So a thread that has compared an item with all items below `n` pushes it
    /// only if none of them equals it.
    ///
    /// # Errors
    /// Fails if the buffer that begins at `n` can't be allocated, or if `n` is `2^62 - 1`, the
    /// greatest length. The handle has then pushed nothing; the same call may succeed later.
    ///
    /// # Blocks
    /// While another thread pushes at this length.
    ///
    /// # Allocates
    /// A buffer, four times as large as the one before, if one begins at `n`.
    ///
    /// # Cost
    /// `O(1)`.
    pub fn push_at<R: Wait>(
        &mut self,
        rt: &R,
        n: usize,
        item: T,
    ) -> Result<Option<usize>, AllocError>
        requires index { n ≤ length self.old.seen }
        requires obeys_rule { K.is_new (take n self.old.seen) (entry self.old.writer item) }

        // The pass is the same, later: its item is at the end of what it had seen, or it has pushed
        // nothing, since the list was longer, or a buffer begins at this index.
        ensures later { IsLaterPass self.old self.new }
        ensures pushed { IfOk result (λ a. IfSome a (λ i.
            (i ≡ n) × (length self.old.seen ≡ n) × PushesNext self.old self.new item)) }
        ensures longer { IfOk result (λ a. IfNone a
            ((n < length self.new.seen) × (mine self.new ≡ mine self.old))) }
        ensures refused { IfErr result (λ e. (mine self.new ≡ mine self.old)
            × (length self.new.seen ≡ n) × BeginsABuffer n) }
    {
        if n < self.seen_len() {
            self.len();
            return Ok(None);
        }
        if n == LIMIT {
            return Err(AllocError);
        }
        let Some(hold) = self.hold(rt) else {
            return Ok(None);
        };
        hold.end_with(self, item)?;
        Ok(Some(n))
    }

    /// Returns the item at an index, or `None` if the index is not below the length that the handle
    /// has then observed.
    ///
    /// An index that the handle has observed is read without an atomic step. For any other, the
    /// call first reads the length, by one load. It takes no lock, allocates nothing and never
    /// blocks.
    ///
    /// # Cost
    /// `O(1)`.
    pub fn get(&mut self, index: usize) -> Option<T>
        ensures continues { Continues self.old self.new }
        ensures item { result ≡ slice_get (items_of self.new.seen) index }
        ensures limit { IfSome result (λ _. index + 1 < 2 ^ 62) }
    {
        Some(*self.get_ref(index)?)
    }

    /// Makes an independent vector of the items that one load of the length observes, and a view
    /// that has observed all of them. The items have no writer there. [`Handle::of`] makes a handle
    /// of the two.
    ///
    /// The length is read first, and only the items below it are copied, so other threads may push
    /// meanwhile. It takes no lock.
    ///
    /// # Errors
    /// Fails if an allocation fails. All memory that was allocated is then deallocated.
    ///
    /// # Allocates
    /// The buffers of the new vector, and their directory.
    ///
    /// # Cost
    /// `O(n)`.
    pub fn clone_vector(&mut self) -> Result<(LockFreeFrozenVec<T, A>, Pass<T, A>), AllocError>
        ensures continues { Continues self.old self.new }
        ensures clone_of { IfOk result (λ r. r.1.vector ≡ r.0) }
        ensures clone_items { IfOk result (λ r. r.1.seen ≡ copied (items_of self.new.seen)) }
        ensures clone_mine { IfOk result (λ r. mine r.1 ≡ []) }
    {
        let n = self.len();
        let prefix = self.pass.evidence();
        let list = self.list;
        let copy = list.copy(n, &prefix);
        prefix.discard();
        let (list, seen) = copy?;
        let writer = bounded_by_tickets(&seen, Writer::new());
        let copy_pass = Pass::of(seen, writer, n);
        Ok((LockFreeFrozenVec { list }, copy_pass))
    }
}

impl<'v, T: Drop + PartialEq, A: Allocator + Copy, K: ItemRule<T>> Handle<'v, T, A, K> {
    /// Returns whether two vectors have equal items in the same order, whatever their rules are. It
    /// reads the length of this vector, then that of the other, and compares what the two handles
    /// have then observed. It takes no lock, allocates nothing and never blocks.
    ///
    /// # Cost
    /// `O(n)`.
    pub fn equals<L: ItemRule<T>>(&mut self, other: &mut Handle<'_, T, A, L>) -> bool
        ensures continues { Continues self.old self.new }
        ensures other_continues { Continues other.old other.new }
        ensures equal { result ≡ pointwise T.eq (items_of self.new.seen) (items_of other.new.seen) }
    {
        let n = self.len();
        let other_n = other.len();
        if n != other_n {
            return false;
        }
        let prefix = self.pass.evidence();
        let other_prefix = other.pass.evidence();
        let list = self.list;
        let equal = list.has_items_of(&prefix, other.list, &other_prefix, n);
        prefix.discard();
        other_prefix.discard();
        equal
    }
}

impl<'v, T: Copy + Drop, A: Allocator + Copy> Handle<'v, T, A> {
    /// Pushes all items at consecutive indices, under one lock of the vector, and returns the index
    /// of the first. Other threads observe all of them or none.
    ///
    /// # Errors
    /// Fails if an allocation fails, or if the length would exceed `2^62 - 1`, the greatest. The
    /// handle has then pushed nothing; the same call may succeed later.
    ///
    /// # Blocks
    /// While another thread pushes.
    ///
    /// # Allocates
    /// The buffers that begin among these items, each four times as large as the one before, and a
    /// list of them.
    ///
    /// # Cost
    /// `O(n)`, with two exchanges of the state word for any number of items.
    pub fn extend<R: Wait>(&mut self, rt: &R, items: &[T]) -> Result<usize, AllocError>
        ensures pushed { IfOk result (λ i. PushedAll self.old self.new i items.now) }
        ensures limit { IfOk result (λ i. i + length items.now < 2 ^ 62) }
        ensures refused { IfErr result (λ e. Continues self.old self.new
            × BeginsAmong (length self.new.seen) (length items.now)) }
    {
        let list = self.list;
        let (seen, writer, length) = self.pass.lend().parts();
        let right = &self.right;
        let (seen, writer, index, pushed) = list.extend(rt, right, seen, writer, length, items);
        self.pass = Pass::of(seen, writer, index + pushed);
        if pushed < items.len() {
            return Err(AllocError);
        }
        Ok(index)
    }
}

/// Makes a handle that works on a pass in its place, until the pass is put back.
pub(crate) fn by_pass<'v, T: Drop, A: Allocator + Copy, K: ItemRule<T>, X: Beside<T> + Drop>(
    vector: &'v LockFreeFrozenVec<T, A, K, X>,
    pass: &mut Pass<T, A, K, X>,
) -> Handle<'v, T, A, K, X>
    requires same_vector { pass.old.vector ≡ vector.now }
    ensures same_view { result ≡ pass.old }
    ensures rest { pass.new.vector ≡ pass.old.vector }
{
    Handle::of(vector, std::mem::replace(pass, vector.pass()))
}
