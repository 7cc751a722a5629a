//! A map whose keys are borrowed texts. Its queries are texts of any lifetime.
ghost use Rattle.std.specs.Prelude.{◌≡◌, true, IfOk, IfErr, OnErr};
ghost use Rattle.elsa_lock_free.specs.Attempts.{IfBusy};
ghost use Rattle.elsa_lock_free.specs.SharedList.{IsLaterPass, items_of, mine};
ghost use Rattle.elsa_lock_free_map.specs.Entries.{InsertsOnce, Lacks, is_text};

use crate::handle::MapHandle;
use crate::map::copied;
use crate::place_text::PlaceText;
use elsa_lock_free::may_lock::{AttemptFault, LockPermit};
use elsa_tables::Inserted;
use std::alloc::{AllocError, Allocator};
use std::hash::BuildHasher;
use std::sync::Wait;

impl<'m, 'a, V: Copy + Drop, S: BuildHasher + Copy + Drop, A: Allocator + Copy> MapHandle<
    'm,
    &'a str,
    V,
    S,
    A,
> {
    /// Inserts a text of any lifetime with its value, unless a thread has inserted an equal text.
    /// If the handle doesn't find the text, it copies the text into `arena`. If another thread
    /// inserts the text after that look-up, the copy stays unused in the arena, and the call
    /// returns the value of the other thread.
    ///
    /// # Errors
    /// Fails if the arena is full, if an allocation fails, or if the map has `2^32 - 1` entries.
    /// Then nothing is inserted; the same insertion may succeed later.
    ///
    /// # Blocks
    /// While another thread pushes, unless the text was found.
    pub fn insert_text<R: Wait, P: PlaceText<'a> + Drop>(
        &mut self,
        rt: &R,
        arena: P,
        text: &str,
        value: V,
    ) -> Result<Inserted<V, usize>, AllocError>
        ensures later { IsLaterPass self.old self.new }
        ensures inserted { IfOk result (λ r. InsertsOnce is_text self.old self.new text.now r) }
        ensures own_value { IfOk result (λ r. r.is_new ≡ true → r.value ≡ value) }
        ensures refused { IfErr result (λ e. mine self.new ≡ mine self.old) }
        ensures only_new { OnErr result (Lacks is_text (items_of self.old.seen) text.now) }
    {
        if let Some(index) = self.find(text) {
            self.one_to_one();
            return Ok(Inserted {
                value: self.entry(index).value,
                index,
                is_new: false,
            });
        }
        let key = arena.place_text(text)?;
        Ok(copied(self.insert_absent(rt, key, value)?))
    }

    /// Inserts a text of any lifetime with its value, as [`insert_text`](Self::insert_text) does,
    /// but never waits for the lock.
    ///
    /// # Errors
    /// Fails with `Busy` as [`try_insert`](Self::try_insert) does: the error has the copy of the
    /// text, which is in the arena, and the value. Fails with `Failed` where `insert_text` fails.
    /// In both cases nothing is inserted. To try again after `Busy`, insert the copy by
    /// `try_insert`: this call would copy the text once more.
    pub fn try_insert_text<P: PlaceText<'a> + Drop>(
        &mut self,
        may: LockPermit,
        arena: P,
        text: &str,
        value: V,
    ) -> Result<Inserted<V, usize>, AttemptFault<(&'a str, V)>>
        ensures later { IsLaterPass self.old self.new }
        ensures inserted { IfOk result (λ r. InsertsOnce is_text self.old self.new text.now r) }
        ensures own_value { IfOk result (λ r. r.is_new ≡ true → r.value ≡ value) }
        ensures refused { IfErr result (λ f. (mine self.new ≡ mine self.old)
            × IfBusy f (λ pair. (pair.0.now ≡ text.now) × (pair.1 ≡ value))) }
        ensures only_new { OnErr result (Lacks is_text (items_of self.old.seen) text.now) }
    {
        if let Some(at) = self.find(text) {
            self.one_to_one();
            return Ok(Inserted {
                value: self.entry(at).value,
                index: at,
                is_new: false,
            });
        }
        let Ok(key) = arena.place_text(text) else {
            return Err(AttemptFault::Failed(AllocError));
        };
        Ok(copied(self.try_insert_absent(may, key, value)?))
    }
}
