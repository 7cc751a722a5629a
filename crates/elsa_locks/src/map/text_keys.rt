//! Insertion by a text into the maps whose keys are `String`s.
ghost use Rattle.std.specs.Prelude.{◌≡◌, ◌⊎◌, IfOk};
ghost use Rattle.std.specs.Arc.{arc_value};
ghost use Rattle.std.specs.String.{string_bytes};
ghost use Rattle.elsa_locks.specs.Shared.{HoldsAtText, HoldsOfText};
ghost use Rattle.elsa_tables.specs.Rules.{HoldsAt};

use super::Locked;
use elsa_tables::{EntryRule, Seeks, Table};
use std::alloc::{AllocError, Allocator};
use std::sync::{Arc, Wait};

impl<V: Drop, T, A: Allocator + Copy, R: EntryRule<String<A>, V>> Locked<String<A>, V, T, A, R>
where
    T: Table<String<A>, Arc<V, A>>,
{
    /// Inserts the value unless the map has the text as a key, and returns an `Arc` of the value
    /// that the key then has.
    ///
    /// The call looks the text up first. If the map has it, the call shares the lock and allocates
    /// nothing. Otherwise it copies the text into a `String` before the map is changed.
    ///
    /// # Errors
    /// Fails if an allocation fails, or if the `Arc` has the maximum number of owners. The map is
    /// then unchanged.
    ///
    /// # Blocks
    /// While a thread writes or waits to write. If the key is absent: while another thread has the
    /// lock.
    pub fn insert_text<'q>(
        &self,
        rt: &impl Wait,
        key: &'q str,
        value: V,
    ) -> Result<Arc<V, A>, AllocError>
    where
        &'q str: Seeks<T, String<A>, Arc<V, A>>,
        requires { HoldsOfText string_bytes R.holds key.now value }
        ensures { IfOk result (λ a.
            HoldsAt R.holds
            (⟦<&'q str as Seeks<T, String<A>, Arc<V, A>>>⟧.finds key.entry) (arc_value a)
            ⊎ HoldsAtText string_bytes T.same R.holds key.now (arc_value a)) }
    {
        let found = self.get(rt, key)?;
        if let Some(there) = found {
            return Ok(there);
        }
        let alloc = self.lock.read(rt).alloc;
        let owned = String::from_str(alloc, key)?;
        self.insert(rt, owned, value)
    }
}
