//! Values that serde reads, for a vector or a set.
ghost use Rattle.std.specs.Prelude.{◌≡◌, ◌≢◌, ◌≤◌, ◌-◌, ℕ, Err, None, IfErr, IfOk, OnErr, OnOk, length, position};
ghost use Rattle.elsa_serde.specs.declared.fault.ReadFault.TheVariants.{Duplicate, TooMany};
ghost use Rattle.elsa_vec.specs.Vec.{GainsAll};
ghost use Rattle.elsa_serde.specs.Loaded.{AddsValue, ValuesStop};
ghost use Rattle.elsa_serde.specs.Read.{InTurn, ReadsEvents, seq_events};

use crate::ReadFault;
use crate::read_item::ReadItem;
use elsa_index::index_set::FrozenIndexSetIn;
use elsa_index::look_up::LookUp;
use elsa_vec::stable::StableDeref;
use elsa_vec::vec::FrozenVecIn;
use serde::{Deserialize, DeserializeOwned, Deserializer, Format};
use std::alloc::{AllocError, Allocator, Global};
use std::hash::{BuildHasher, Hash};

/// A sequence of values that serde reads. [`Items::push_into`] pushes them into a vector, and
/// [`Items::insert_into`] inserts them into a set.
#[derive(Debug, Drop, PartialEq)]
pub struct Items<T>(pub Vec<T>);

impl<T: Drop> Items<T> {
    /// Pushes the values, in order.
    ///
    /// # Errors
    /// Fails if an allocation fails. The vector is then unchanged, and the values that were not
    /// stored are dropped; the arena keeps those that were stored.
    ///
    /// # Cost
    /// `O(1)` for each value, plus its copy into the arena.
    pub fn push_into<R: Copy, A: Allocator + Copy>(
        self,
        vec: &mut FrozenVecIn<R, T, A>,
    ) -> Result<(), AllocError>
    where
        T: StableDeref<R>,
        ensures pushed { OnOk result (GainsAll T.target T.shown vec.old self.0.items vec.new) }
        ensures refused { OnErr result (vec.new ≡ vec.old) }
    {
        vec.extend(self.0)
    }

    /// Inserts the values, in order, each as a new one.
    ///
    /// # Errors
    /// Fails with [`ReadFault::Duplicate`] if the set already has a value, from before the call or
    /// from an earlier value; the number is the index of the value here. Fails with
    /// [`ReadFault::Memory`] if an allocation fails. The set then keeps the values before that one,
    /// and the others are dropped.
    ///
    /// # Cost
    /// Two hashes for each value.
    pub fn insert_into<R: Copy, S: BuildHasher, A: Allocator + Copy>(
        self,
        set: &mut FrozenIndexSetIn<R, T, S, A>,
    ) -> Result<(), ReadFault>
    where
        T: StableDeref<R> + LookUp<<T as StableDeref<R>>::Borrow>,
        <T as StableDeref<R>>::Borrow: Eq + Hash,
        ensures inserted { OnOk result (InTurn (AddsValue T.target T.shown T.finds) set.old
            self.0.items set.new) }
        ensures refused { IfErr result (λ fault.
            ValuesStop T.target T.shown T.finds set.old self.0.items fault set.new) }
    {
        let before = set.len();
        for value in self.0 {
            insert_next(before, value, set)?;
        }
        Ok(())
    }
}

// Inserts a value that must be new. `before` is the number of values before the first insertion.
fn insert_next<R: Copy, T, S: BuildHasher, A: Allocator + Copy>(
    before: usize,
    value: T,
    set: &mut FrozenIndexSetIn<R, T, S, A>,
) -> Result<(), ReadFault>
where
    T: StableDeref<R> + LookUp<<T as StableDeref<R>>::Borrow>,
    <T as StableDeref<R>>::Borrow: Eq + Hash,
    requires { before ≤ length set.old }
    ensures added { OnOk result (AddsValue T.target T.shown T.finds set.old value set.new) }
    ensures refused { OnErr result (set.new ≡ set.old) }
    ensures duplicate { (index : ℕ) → result ≡ Err (Duplicate index) →
        (index ≡ length set.old - before) × (position (T.finds value) set.old ≢ None) }
    ensures fits { result ≢ Err TooMany }
{
    let index = set.len() - before;
    let (_, is_new) = set.insert_new(value)?;
    if is_new {
        Ok(())
    } else {
        Err(ReadFault::Duplicate(index))
    }
}

impl<T: ReadItem> DeserializeOwned for Items<T> {
    fn deserialize_owned<F: Format>(
        alloc: Global,
        from: &mut Deserializer<'_, '_, F>,
    ) -> Result<Items<T>, F::Error>
        ensures whole { IfOk result (λ items. T.known →
            ReadsEvents F.gives F.stays from.old (seq_events T.events items.0.items) from.new) }
    {
        Ok(Items(ReadItem::read_item(alloc, from)?))
    }
}

impl<'de, T: ReadItem> Deserialize<'de> for Items<T> {
    fn deserialize<F: Format>(
        alloc: Global,
        from: &mut Deserializer<'de, '_, F>,
    ) -> Result<Items<T>, F::Error>
        ensures whole { IfOk result (λ items. T.known →
            ReadsEvents F.gives F.stays from.old (seq_events T.events items.0.items) from.new) }
    {
        DeserializeOwned::deserialize_owned(alloc, from)
    }
}
