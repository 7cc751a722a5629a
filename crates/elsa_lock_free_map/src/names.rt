//! A map of keys alone, whose values are `()`: an interner, in which a key is a name and has its
//! index for a number.
ghost use Rattle.std.specs.Prelude.{◌≡◌, ◌-◌, ◌<◌, ◌^◌, IfOk, IfErr, OnErr, slice_get};
ghost use Rattle.std.specs.Str.{bytes_eq};
ghost use Rattle.elsa_lock_free.specs.Attempts.{IfBusy};
ghost use Rattle.elsa_lock_free.specs.Distinct.{IsOneToOne};
ghost use Rattle.elsa_lock_free.specs.SharedList.{Continues, IsLaterPass, items_of, mine};
ghost use Rattle.elsa_hash_index.specs.Entries.{keys_of};
ghost use Rattle.elsa_lock_free_map.specs.Entries.{InsertsAt, Lacks, alone, is_text};

use crate::handle::MapHandle;
use crate::place_text::PlaceText;
use elsa_lock_free::may_lock::{AttemptFault, LockPermit};
use std::alloc::{AllocError, Allocator};
use std::hash::{BuildHasher, Hash};
use std::sync::Wait;

/// Returns the fault of an insertion with the key alone.
fn without_value<T: Copy + Drop>(fault: AttemptFault<(T, ())>) -> AttemptFault<T>
    ensures { result ≡ alone fault }
{
    match fault {
        AttemptFault::Busy((name, ())) => AttemptFault::Busy(name),
        AttemptFault::Failed(error) => AttemptFault::Failed(error),
    }
}

impl<'i, T: Copy + Drop + Hash, S: BuildHasher + Copy + Drop, A: Allocator + Copy> MapHandle<
    'i,
    T,
    (),
    S,
    A,
> {
    /// Returns the index of a name, and adds the name if no thread has added it. Every thread gets
    /// the same index for it.
    ///
    /// If the handle has observed the name, the call reads no length and takes no lock. Otherwise
    /// it appends the name; if other threads have appended since, it looks the name up among theirs
    /// first.
    ///
    /// # Errors
    /// Fails if an allocation fails, or if there are `2^32 - 1` names, the greatest number; never
    /// for a name that the handle has observed. The handle has then added nothing; the same call
    /// may succeed later.
    ///
    /// # Blocks
    /// While another thread appends, unless the handle has observed the name.
    ///
    /// # Allocates
    /// A buffer and its row of index entries, if a buffer begins at this length.
    ///
    /// # Cost
    /// `O(1)` if the hashes differ. If a buffer begins, each earlier name is also entered in the
    /// new row.
    pub fn put<R: Wait>(&mut self, rt: &R, name: T) -> Result<usize, AllocError>
        ensures later { IsLaterPass self.old self.new }
        ensures one_to_one { IsOneToOne T.eq (keys_of (items_of self.new.seen)) }
        ensures numbered { IfOk result (λ i. InsertsAt T.eq self.old self.new name i
            × (i < 2 ^ 32 - 1)) }
        ensures refused { IfErr result (λ e. mine self.new ≡ mine self.old) }
        ensures only_new { OnErr result (Lacks T.eq (items_of self.old.seen) name) }
    {
        let answer = self.insert(rt, name, ());
        self.one_to_one();
        let Ok(put) = answer else {
            return Err(AllocError);
        };
        self.seen_len();
        Ok(put.index)
    }

    /// Returns the index of a name, and adds the name if no thread has added it, as
    /// [`put`](Self::put) does, but never waits for the lock.
    ///
    /// # Errors
    /// Fails with `Busy` if another thread has the lock, or has added a name first in each of four
    /// attempts: the error has the name. Fails with `Failed` where `put` fails. In both cases the
    /// handle has added nothing, and had not observed the name; the same call may succeed later.
    ///
    /// # Allocates
    /// A buffer and its row of index entries, as `put` does. The call then has the lock while it
    /// enters all names into the row. That takes long and waits for no thread but in the
    /// allocator; other threads that add a name find the interner busy meanwhile.
    ///
    /// # Cost
    /// That of `put`, with at most four exchanges of the state word to take the lock.
    pub fn try_put(&mut self, may: LockPermit, name: T) -> Result<usize, AttemptFault<T>>
        ensures later { IsLaterPass self.old self.new }
        ensures one_to_one { IsOneToOne T.eq (keys_of (items_of self.new.seen)) }
        ensures numbered { IfOk result (λ i. InsertsAt T.eq self.old self.new name i
            × (i < 2 ^ 32 - 1)) }
        ensures refused { IfErr result (λ f. (mine self.new ≡ mine self.old)
            × IfBusy f (λ x. x ≡ name)) }
        ensures only_new { OnErr result (Lacks T.eq (items_of self.old.seen) name) }
    {
        let answer = self.try_insert(may, name, ());
        self.one_to_one();
        let put = match answer {
            Ok(put) => put,
            Err(fault) => return Err(without_value(fault)),
        };
        self.seen_len();
        Ok(put.index)
    }

    /// Returns the name at an index, or `None` if the index is not below the number of names that
    /// the handle has then observed. It takes no lock, allocates nothing and never blocks.
    ///
    /// # Cost
    /// `O(1)`.
    pub fn at(&mut self, index: usize) -> Option<T>
        ensures continues { Continues self.old self.new }
        ensures name { result ≡ slice_get (keys_of (items_of self.new.seen)) index }
    {
        let Some(entry) = self.get_index(index) else {
            return None;
        };
        Some(entry.0)
    }
}

impl<'i, 'a, S: BuildHasher + Copy + Drop, A: Allocator + Copy> MapHandle<'i, &'a str, (), S, A> {
    /// Returns the index of a text of any lifetime and length. If no thread has added the text, it
    /// copies the text into `arena` and adds the copy.
    ///
    /// If another thread adds the text between the look-up and the append, the copy stays unused in
    /// the arena, and the index is that of the other thread.
    ///
    /// # Errors
    /// Fails if the arena is full, if an allocation fails, or if there are `2^32 - 1` names, the
    /// greatest number; never for a text that the handle has observed. The handle has then added
    /// nothing; the same call may succeed later.
    ///
    /// # Blocks
    /// While another thread appends, unless the text is found.
    pub fn put_text<R: Wait, P: PlaceText<'a> + Drop>(
        &mut self,
        rt: &R,
        arena: P,
        text: &str,
    ) -> Result<usize, AllocError>
        ensures later { IsLaterPass self.old self.new }
        ensures one_to_one { IsOneToOne (λ a b. bytes_eq a.now b.now)
            (keys_of (items_of self.new.seen)) }
        ensures numbered { IfOk result (λ i. InsertsAt is_text self.old self.new text.now i
            × (i < 2 ^ 32 - 1)) }
        ensures refused { IfErr result (λ e. mine self.new ≡ mine self.old) }
        ensures only_new { OnErr result (Lacks is_text (items_of self.old.seen) text.now) }
    {
        let answer = self.insert_text(rt, arena, text, ());
        self.one_to_one();
        let Ok(put) = answer else {
            return Err(AllocError);
        };
        self.seen_len();
        Ok(put.index)
    }

    /// Returns the index of a text of any lifetime and length, as [`put_text`](Self::put_text)
    /// does, but never waits for the lock.
    ///
    /// # Errors
    /// Fails with `Busy` as [`try_put`](Self::try_put) does: the error has the copy of the text,
    /// which is in the arena. Fails with `Failed` where `put_text` fails. In both cases the handle
    /// has added nothing, and had not observed the text. To try again after `Busy`, put the copy by
    /// `try_put`: this call would copy the text once more.
    pub fn try_put_text<P: PlaceText<'a> + Drop>(
        &mut self,
        may: LockPermit,
        arena: P,
        text: &str,
    ) -> Result<usize, AttemptFault<&'a str>>
        ensures later { IsLaterPass self.old self.new }
        ensures one_to_one { IsOneToOne (λ a b. bytes_eq a.now b.now)
            (keys_of (items_of self.new.seen)) }
        ensures numbered { IfOk result (λ i. InsertsAt is_text self.old self.new text.now i
            × (i < 2 ^ 32 - 1)) }
        ensures refused { IfErr result (λ f. (mine self.new ≡ mine self.old)
            × IfBusy f (λ x. x.now ≡ text.now)) }
        ensures only_new { OnErr result (Lacks is_text (items_of self.old.seen) text.now) }
    {
        let answer = self.try_insert_text(may, arena, text, ());
        self.one_to_one();
        let put = match answer {
            Ok(put) => put,
            Err(fault) => return Err(without_value(fault)),
        };
        self.seen_len();
        Ok(put.index)
    }
}
