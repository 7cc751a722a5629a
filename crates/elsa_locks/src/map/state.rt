//! The map under the lock, over any table, with contracts that define the effect of each call.
ghost use Rattle.std.specs.Prelude.{◌≡◌, [], Some, None, true, length, is_some, IfSome, IfOk, OnErr, OnOk, IsTrue, ◌↔◌};
ghost use Rattle.std.specs.Option.{option_map, UnwrapsOrElse};
ghost use Rattle.std.specs.Arc.{arc_value};
ghost use Rattle.std.specs.Fn.{FnOnceReturnsAt, FnOnceTakesAt};
ghost use Rattle.std.specs.List.{IsDistinct};
ghost use Rattle.std.specs.Map.{keys_of, lookup};
ghost use Rattle.elsa_tables.specs.FirstWins.{value_at};
ghost use Rattle.elsa_locks.specs.Shared.{shown, Leaves};
ghost use Rattle.elsa_tables.specs.Rules.{HoldsAt, IsKept};

use elsa_tables::{AnyEntries, EntryRule, Inserted, Put, Seeks, Table};
use std::alloc::{AllocError, Allocator, Global};
use std::fmt::{self, Debug, Formatter, Write};
use std::marker::{Model, PhantomData};
use std::sync::Arc;

/// A map in which the first value of a key stays, over a table `T`. Values are shared as `Arc<V>`.
///
/// Contracts see the list of its entries, in the table's order, with each value instead of its
/// `Arc`, and compare keys as the table does. `A` allocates each `Arc`.
/// [`MapState`](super::MapState) is its name over a hash table, and [`TreeState`](super::TreeState)
/// over an ordered table.
#[derive(Drop)]
pub struct State<K, V, T, A: Allocator = Global, R: EntryRule<K, V> = AnyEntries>
where
    T: Table<K, Arc<V, A>>,
{
    pub(super) table: T,
    // Allocates each `Arc`.
    pub(super) alloc: A,
    pub(super) of: PhantomData<(K, V, R)>,
}

impl<K, V, T, A: Allocator, R: EntryRule<K, V>> Model for State<K, V, T, A, R>
where
    T: Table<K, Arc<V, A>>,
{
    ghost use Rattle.std.specs.Prelude.{List};
    ghost use Rattle.elsa_locks.specs.Shared.{shown};
    ghost use Rattle.elsa_tables.specs.Rules.{IsKept};

    ghost Value = { List (K × V) };

    ghost view = { λ s. shown (T.entries s.table) };

    // Keys are distinct, and each entry obeys the rule.
    ghost invariant = { λ s. IsKept T.same R.holds (shown (T.entries s.table)) };
}

/// Returns the `Arc` at the key that `query` finds, or `None` if the table has no such key.
fn find<'m, K: 'm, V, A: Allocator, T: Table<K, Arc<V, A>>, Q: Seeks<T, K, Arc<V, A>>>(
    table: &'m T,
    query: Q,
) -> Option<&'m Arc<V, A>>
    ensures { option_map (λ a. arc_value a.now) result
        ≡ lookup (Q.finds query) (shown (T.entries table.now)) }
{
    match query.seek(table) {
        Some((_, owner)) => Some(owner),
        None => None,
    }
}

impl<K, V, T, A: Allocator + Copy, R: EntryRule<K, V>> State<K, V, T, A, R>
where
    T: Table<K, Arc<V, A>>,
{
    /// Makes a map with the entries of `table`. It allocates nothing; later insertions use `alloc`.
    pub fn over(alloc: A, table: T) -> Self
        requires { IsKept T.same R.holds (shown (T.entries table)) }
        ensures { result ≡ shown (T.entries table) }
    {
        State {
            table,
            alloc,
            of: PhantomData,
        }
    }

    /// Proves what holds of the entries at each moment: they obey the rule, no two of their keys
    /// are equal, and the keys are in the table's order.
    #[tactic(auto, using(crate::proofs::Shared::shows))]
    pub fn obeys_rule(&self)
        ensures rule { IsKept T.same R.holds self.now }
        ensures distinct { IsDistinct T.same (keys_of self.now) }
        ensures order { T.in_order (keys_of self.now) }
    {
        let _count = self.table.len();
    }

    /// Returns the number of entries. No two of them have equal keys.
    #[tactic(auto, using(crate::proofs::Shared::shows))]
    pub fn len(&self) -> usize
        ensures length { result ≡ length self.now }
        ensures distinct { IsDistinct T.same (keys_of self.now) }
        ensures order { T.in_order (keys_of self.now) }
    {
        self.table.len()
    }

    /// Returns whether the map has no entry.
    #[tactic(auto, using(crate::proofs::Shared::shows))]
    pub fn is_empty(&self) -> bool
        ensures { IsTrue result ↔ (self.now ≡ []) }
    {
        self.len() == 0
    }

    /// Returns an `Arc` of the value at the key that `query` finds, or `None` if the map has no
    /// such key.
    ///
    /// A reference to a key is a query, and so is a `&str` if the keys are texts: [`Seeks`] lists
    /// them.
    ///
    /// # Errors
    /// Fails if the map has the key and the `Arc` has the maximum number of owners.
    ///
    /// # Cost
    /// One search.
    pub fn get<Q: Seeks<T, K, Arc<V, A>>>(&self, query: Q) -> Result<Option<Arc<V, A>>, AllocError>
    where
        V: Drop,
        ensures answer { IfOk result (λ a. option_map arc_value a ≡ lookup (Q.finds query) self.now) }
        ensures only_present { OnErr result (is_some (lookup (Q.finds query) self.now) ≡ true) }
    {
        find(&self.table, query).cloned()
    }

    /// Returns a copy of the value at the key that `query` finds, or `None` if the map has no such
    /// key.
    ///
    /// # Cost
    /// One search.
    pub fn get_copy<Q: Seeks<T, K, Arc<V, A>>>(&self, query: Q) -> Option<V>
    where
        V: Copy,
        ensures { result ≡ lookup (Q.finds query) self.now }
    {
        find(&self.table, query).map(|value| **value)
    }

    /// Calls `f` once, with the value at the key that `query` finds, and returns the result.
    /// Returns `None`, without a call, if the map has no such key.
    ///
    /// # Cost
    /// One search.
    pub fn map_get<X, Q, F>(&self, query: Q, f: F) -> Option<X>
    where
        Q: Seeks<T, K, Arc<V, A>>,
        F: FnOnce(&V) -> X + Drop,
        requires { IfSome (lookup (Q.finds query) self.now) (FnOnceTakesAt F.FnOnce f) }
        ensures called { IfSome result (λ r.
            IfSome (lookup (Q.finds query) self.now) (λ v. FnOnceReturnsAt F.FnOnce f v r)) }
        ensures called_if_present { is_some result ≡ is_some (lookup (Q.finds query) self.now) }
    {
        match find(&self.table, query) {
            Some(value) => Some(f(&**value)),
            None => None,
        }
    }
}

impl<K, V, T, A: Allocator + Copy> State<K, V, T, A>
where
    T: Table<K, Arc<V, A>>,
{
    /// Returns the table, borrowed for writing.
    pub(crate) fn table_mut(&mut self) -> &mut T
        ensures { shown (T.entries result.now) ≡ self.old }
    {
        &mut self.table
    }
}

impl<K, V: Drop, T, A: Allocator + Copy, R: EntryRule<K, V>> State<K, V, T, A, R>
where
    T: Table<K, Arc<V, A>>,
{
    /// Inserts the result of `f` unless the map has the key. Returns an `Arc` of the value that the
    /// key then has, and whether the key was new.
    ///
    /// `f` is called only if the key is absent and the table has room for it. Then the `Arc` is
    /// allocated and stored.
    ///
    /// # Errors
    /// Fails if an allocation fails, or if the `Arc` has the maximum number of owners. The content
    /// is then unchanged.
    ///
    /// # Cost
    /// One search.
    pub(crate) fn put_with_key<F: FnOnce(&K) -> V + Drop>(
        &mut self,
        key: K,
        f: F,
    ) -> Result<Inserted<Arc<V, A>>, AllocError>
        requires callable { value_at T.same self.old key ≡ None → FnOnceTakesAt F.FnOnce f key }
        requires holds { (v : V) → FnOnceReturnsAt F.FnOnce f key v → R.holds key v }

        // The first value of the key stays; a new key gets the result of the closure.
        ensures answer { IfOk result (λ r.
            UnwrapsOrElse (value_at T.same self.old key) (FnOnceReturnsAt F.FnOnce f key)
            (arc_value r.value)) }
        ensures holds { IfOk result (λ r. HoldsAt R.holds (T.same key) (arc_value r.value)) }
        ensures value_after { IfOk result (λ r.
            value_at T.same self.new key ≡ Some (arc_value r.value)) }

        // Whether the key was new, and the content after the call. If the call fails, the content
        // is unchanged.
        ensures is_new { IfOk result (λ r. IsTrue r.is_new ↔ (value_at T.same self.old key ≡ None)) }
        ensures content { IfOk result (λ r. Leaves T.same self.old key (arc_value r.value) self.new) }
        ensures refused { OnErr result (self.new ≡ self.old) }
    {
        let alloc = self.alloc;
        let make = |key: &K| -> Result<(Arc<V, A>, Arc<V, A>), AllocError>
            requires { F.pre f key }
            ensures { IfOk result (λ p.
                (arc_value p.0 ≡ arc_value p.1) × F.post f key.entry (arc_value p.1)) }
        {
            let made = Arc::new(alloc, f(key))?;
            let answer = made.clone()?;
            Ok((made, answer))
        };
        let share = |there: &Arc<V, A>| -> Result<Arc<V, A>, AllocError>
            ensures { IfOk result (λ a. arc_value a ≡ arc_value there.now) }
        { there.clone() };
        let Ok(put) = self.table.put_with(key, make, share) else {
            return Err(AllocError);
        };
        let answer = match put {
            Put::Found(there, _uncalled) => return Ok(Inserted {
                value: there?,
                index: (),
                is_new: false,
            }),
            Put::Added(answer) => answer,
        };
        Ok(Inserted {
            value: answer,
            index: (),
            is_new: true,
        })
    }

    /// Inserts the result of `f` unless the map has the key, and returns an `Arc` of the value that
    /// the key then has: [`insert_with`](State::insert_with) for an `f` that receives the key.
    ///
    /// # Errors
    /// Fails as [`insert`](State::insert) does.
    ///
    /// # Cost
    /// One search.
    pub fn insert_with_key<F: FnOnce(&K) -> V + Drop>(
        &mut self,
        key: K,
        f: F,
    ) -> Result<Arc<V, A>, AllocError>
        requires callable { value_at T.same self.old key ≡ None → FnOnceTakesAt F.FnOnce f key }
        requires holds { (v : V) → FnOnceReturnsAt F.FnOnce f key v → R.holds key v }

        // The first value of a key stays. If the insertion fails, nothing changes.
        ensures answer { IfOk result (λ a.
            UnwrapsOrElse (value_at T.same self.old key) (FnOnceReturnsAt F.FnOnce f key)
            (arc_value a)) }
        ensures holds { IfOk result (λ a. HoldsAt R.holds (T.same key) (arc_value a)) }
        ensures value_after { IfOk result (λ a. value_at T.same self.new key ≡ Some (arc_value a)) }
        ensures content { IfOk result (λ a. Leaves T.same self.old key (arc_value a) self.new) }
        ensures refused { OnErr result (self.new ≡ self.old) }
    {
        Ok(self.put_with_key(key, f)?.value)
    }

    /// Inserts the result of `f` unless the map has the key, and returns an `Arc` of the value that
    /// the key then has.
    ///
    /// `f` is called only if the key is absent and the table has room for it. Then the `Arc` is
    /// allocated and stored.
    ///
    /// # Errors
    /// Fails as [`insert`](State::insert) does.
    ///
    /// # Cost
    /// One search.
    pub fn insert_with<F: FnOnce() -> V + Drop>(
        &mut self,
        key: K,
        f: F,
    ) -> Result<Arc<V, A>, AllocError>
        requires callable { value_at T.same self.old key ≡ None → F.pre f }
        requires holds { (v : V) → F.post f v → R.holds key v }

        // The first value of a key stays. If the insertion fails, nothing changes.
        ensures answer { IfOk result (λ a.
            UnwrapsOrElse (value_at T.same self.old key) (F.post f) (arc_value a)) }
        ensures holds { IfOk result (λ a. HoldsAt R.holds (T.same key) (arc_value a)) }
        ensures value_after { IfOk result (λ a. value_at T.same self.new key ≡ Some (arc_value a)) }
        ensures content { IfOk result (λ a. Leaves T.same self.old key (arc_value a) self.new) }
        ensures refused { OnErr result (self.new ≡ self.old) }
    {
        let call = move |_key: &K| -> V
            requires { F.pre f }
            ensures { F.post f result }
        { f() };
        self.insert_with_key(key, call)
    }

    /// Inserts the value unless the map has the key. Returns an `Arc` of the value that the key
    /// then has, and whether the key was new.
    ///
    /// If the map has the key, the given key and value are dropped.
    ///
    /// # Errors
    /// Fails as [`insert`](State::insert) does, with the same allocations.
    pub fn insert_new(&mut self, key: K, value: V) -> Result<(Arc<V, A>, bool), AllocError>
        requires { R.holds key value }

        // The first value of a key stays. If the insertion fails, nothing changes.
        ensures holds { IfOk result (λ r. HoldsAt R.holds (T.same key) (arc_value r.0)) }
        ensures value_after { IfOk result (λ r. value_at T.same self.new key ≡ Some (arc_value r.0)) }
        ensures is_new { IfOk result (λ r. IsTrue r.1 ↔ (value_at T.same self.old key ≡ None)) }
        ensures content { OnOk result (Leaves T.same self.old key value self.new) }
        ensures refused { OnErr result (self.new ≡ self.old) }
    {
        let make = move |_key: &K| -> V
            ensures { result ≡ value }
        { value };
        let done = self.put_with_key(key, make)?;
        Ok((done.value, done.is_new))
    }

    /// Inserts the value unless the map has the key, and returns an `Arc` of the value that the key
    /// then has.
    ///
    /// If the map has the key, the given key and value are dropped.
    ///
    /// # Errors
    /// Fails if an allocation fails, or if the `Arc` has the maximum number of owners. The content
    /// is then unchanged.
    ///
    /// # Allocates
    /// The value's `Arc` and the growth of the table, if the key is new.
    pub fn insert(&mut self, key: K, value: V) -> Result<Arc<V, A>, AllocError>
        requires { R.holds key value }
        ensures holds { IfOk result (λ a. HoldsAt R.holds (T.same key) (arc_value a)) }
        ensures value_after { IfOk result (λ a. value_at T.same self.new key ≡ Some (arc_value a)) }
        ensures content { OnOk result (Leaves T.same self.old key value self.new) }
        ensures refused { OnErr result (self.new ≡ self.old) }
    {
        Ok(self.insert_new(key, value)?.0)
    }
}

impl<K, V: Copy, T, A: Allocator + Copy, R: EntryRule<K, V>> State<K, V, T, A, R>
where
    T: Table<K, Arc<V, A>>,
{
    /// Inserts the result of `f` unless the map has the key, and returns a copy of the value that
    /// the key then has: [`get_copy_or_insert_with`](State::get_copy_or_insert_with) for an `f`
    /// that receives the key.
    ///
    /// # Errors
    /// Fails as [`get_copy_or_insert`](State::get_copy_or_insert) does.
    ///
    /// # Cost
    /// One search.
    pub fn get_copy_or_insert_with_key<F: FnOnce(&K) -> V + Drop>(
        &mut self,
        key: K,
        f: F,
    ) -> Result<V, AllocError>
        requires callable { value_at T.same self.old key ≡ None → FnOnceTakesAt F.FnOnce f key }
        requires holds { (v : V) → FnOnceReturnsAt F.FnOnce f key v → R.holds key v }

        // The first value of the key stays; a new key gets the result of the closure.
        ensures answer { IfOk result (
            UnwrapsOrElse (value_at T.same self.old key) (FnOnceReturnsAt F.FnOnce f key)) }
        ensures holds { IfOk result (HoldsAt R.holds (T.same key)) }
        ensures value_after { IfOk result (λ v. value_at T.same self.new key ≡ Some v) }

        // The content after the call. If the call fails, the content is unchanged.
        ensures content { IfOk result (λ v. Leaves T.same self.old key v self.new) }
        ensures refused { OnErr result (
            (self.new ≡ self.old) × (value_at T.same self.old key ≡ None)) }
    {
        let alloc = self.alloc;
        let make = |key: &K| -> Result<(Arc<V, A>, V), AllocError>
            requires { F.pre f key }
            ensures { IfOk result (λ p. (arc_value p.0 ≡ p.1) × F.post f key.entry p.1) }
        {
            let value = f(key);
            Ok((Arc::new(alloc, value)?, value))
        };
        let copy = |there: &Arc<V, A>| -> V
            ensures { result ≡ arc_value there.now }
        { **there };
        let put = match self.table.put_with(key, make, copy) {
            Ok(put) => put,
            Err(_refusal) => return Err(AllocError),
        };
        let copied = match put {
            Put::Found(there, _unused) => return Ok(there),
            Put::Added(copied) => copied,
        };
        Ok(copied)
    }

    /// Inserts the result of `f` unless the map has the key, and returns a copy of the value that
    /// the key then has.
    ///
    /// `f` is called only if the key is absent and the table has room for it. Then the `Arc` is
    /// allocated and stored. If the map has the key, the call allocates nothing.
    ///
    /// # Errors
    /// Fails as [`get_copy_or_insert`](State::get_copy_or_insert) does.
    ///
    /// # Cost
    /// One search.
    pub fn get_copy_or_insert_with<F: FnOnce() -> V + Drop>(
        &mut self,
        key: K,
        f: F,
    ) -> Result<V, AllocError>
        requires callable { value_at T.same self.old key ≡ None → F.pre f }
        requires holds { (v : V) → F.post f v → R.holds key v }

        // The first value of a key stays. If the insertion fails, nothing changes.
        ensures answer { IfOk result (UnwrapsOrElse (value_at T.same self.old key) (F.post f)) }
        ensures holds { IfOk result (HoldsAt R.holds (T.same key)) }
        ensures value_after { IfOk result (λ v. value_at T.same self.new key ≡ Some v) }
        ensures content { IfOk result (λ v. Leaves T.same self.old key v self.new) }
        ensures refused { OnErr result (
            (self.new ≡ self.old) × (value_at T.same self.old key ≡ None)) }
    {
        let call = move |_key: &K| -> V
            requires { F.pre f }
            ensures { F.post f result }
        { f() };
        self.get_copy_or_insert_with_key(key, call)
    }

    /// Inserts the value unless the map has the key, and returns a copy of the value that the key
    /// then has. If the map has the key, the call allocates nothing.
    ///
    /// # Errors
    /// Fails if the key is absent and an allocation fails. The content is then unchanged.
    pub fn get_copy_or_insert(&mut self, key: K, value: V) -> Result<V, AllocError>
        requires { R.holds key value }
        ensures holds { IfOk result (HoldsAt R.holds (T.same key)) }
        ensures value_after { IfOk result (λ v. value_at T.same self.new key ≡ Some v) }
        ensures content { OnOk result (Leaves T.same self.old key value self.new) }
        ensures refused { OnErr result (
            (self.new ≡ self.old) × (value_at T.same self.old key ≡ None)) }
    {
        let make = move |_key: &K| -> V
            ensures { result ≡ value }
        { value };
        self.get_copy_or_insert_with_key(key, make)
    }
}

/// Writes each entry once by `{:?}`, in the table's order, as the table does: `{1: "x"}`.
impl<K, V, T, A: Allocator, R: EntryRule<K, V>> Debug for State<K, V, T, A, R>
where
    T: Table<K, Arc<V, A>> + Debug,
{
    fn fmt<W: Write>(&self, f: &mut Formatter<W>) -> fmt::Result {
        self.table.fmt(f)
    }
}
