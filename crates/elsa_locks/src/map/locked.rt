//! The map under a lock, over any table.
ghost use Rattle.std.specs.Prelude.{◌≡◌, ◌↔◌, [], Some, true, is_some, length, IfOk, IfSome, IsTrue};
ghost use Rattle.std.specs.Arc.{arc_value};
ghost use Rattle.std.specs.Fn.{FnOnceReturnsAt, FnOnceTakesAt};
ghost use Rattle.elsa_tables.specs.Rules.{HoldsAt};
ghost use Rattle.elsa_locks.specs.Shared.{AtAMoment};

use super::State;
use elsa_tables::{AnyEntries, EntryRule, Seeks, Table};
use std::alloc::{AllocError, Allocator, Global};
use std::fmt::{self, Debug, Formatter, Write};
use std::sync::{Arc, RwLock, Wait};

/// A map that threads share, in which the first value of a key stays, over a table `T`.
///
/// Each call on `&self` takes the lock, makes the call of the same name on its [`State`], and
/// releases the lock before it returns. The contracts of `State` define the effect of that call.
/// Reads share the lock; insertions take it exclusively.
///
/// Some code of the caller runs while a call has the lock: the hashing, comparison and `Clone` of
/// keys; the `==` of values; closures that make a value; the closure of `for_each`; the `Drop` of a
/// key that the map already has or has no room for; the `Drop` of a value whose `Arc` could not be
/// allocated. If this code calls the same map, it can deadlock. An insertion that doesn't use its
/// value or its closure drops it after the lock is released. `map_get` calls its closure after the
/// lock is released.
///
/// [`FrozenMap`](super::FrozenMap) is its name over a hash table, and
/// [`FrozenBTreeMap`](super::FrozenBTreeMap) over an ordered table.
#[derive(Drop)]
pub struct Locked<K, V, T, A: Allocator = Global, R: EntryRule<K, V> = AnyEntries>
where
    T: Table<K, Arc<V, A>>,
{
    pub(super) lock: RwLock<State<K, V, T, A, R>>,
}

/// Takes the value out of the option.
pub(super) fn take<X>(given: &mut Option<X>) -> X
    requires { is_some given.old ≡ true }
    ensures { given.old ≡ Some result }
{
    match given.take() {
        Some(x) => x,
        None => unreachable!(),
    }
}

impl<K, V, T, A: Allocator + Copy, R: EntryRule<K, V>> Locked<K, V, T, A, R>
where
    T: Table<K, Arc<V, A>>,
{
    /// Returns an `Arc` of the value at the key that `query` finds, or `None` if the map has no
    /// such key.
    ///
    /// A reference to a key is a query, and so is a `&str` if the keys are texts: [`Seeks`] lists
    /// them.
    ///
    /// # Errors
    /// Fails if the map has the key and the `Arc` has the maximum number of owners.
    ///
    /// # Blocks
    /// While a thread writes or waits to write.
    pub fn get<Q>(&self, rt: &impl Wait, query: Q) -> Result<Option<Arc<V, A>>, AllocError>
    where
        Q: Seeks<T, K, Arc<V, A>>,
        V: Drop,
        ensures { IfOk result (λ found. IfSome found (λ a.
            HoldsAt R.holds (Q.finds query) (arc_value a))) }
    {
        let guard = self.lock.read(rt);
        let state = &*guard;
        state.obeys_rule();
        state.get(query)
    }

    /// Calls `f` once, with the value at the key that `query` finds, and returns the result.
    /// Returns `None`, without a call, if the map has no such key.
    ///
    /// The lock is released before `f` is called, so `f` may call the same map. Exception: if the
    /// `Arc` has the maximum number of owners, `f` runs while this call shares the lock.
    ///
    /// # Blocks
    /// While a thread writes or waits to write.
    pub fn map_get<X, Q, F>(&self, rt: &impl Wait, query: Q, f: F) -> Option<X>
    where
        Q: Seeks<T, K, Arc<V, A>>,
        F: FnOnce(&V) -> X + Drop,
        V: Drop,
        requires { (v : V) → HoldsAt R.holds (Q.finds query) v → FnOnceTakesAt F.FnOnce f v }
        ensures { IfSome result (λ r.
            (v : V) × HoldsAt R.holds (Q.finds query) v × FnOnceReturnsAt F.FnOnce f v r) }
    {
        match self.get(rt, query) {
            Ok(found) => match found {
                Some(owner) => Some(f(&*owner)),
                None => None,
            },
            Err(_) => {
                let guard = self.lock.read(rt);
                let state = &*guard;
                state.obeys_rule();
                state.map_get(query, f)
            }
        }
    }

    /// Returns a copy of the value at the key that `query` finds, or `None` if the map has no such
    /// key.
    ///
    /// # Blocks
    /// While a thread writes or waits to write.
    pub fn get_copy<Q: Seeks<T, K, Arc<V, A>>>(&self, rt: &impl Wait, query: Q) -> Option<V>
    where
        V: Copy,
        ensures { IfSome result (HoldsAt R.holds (Q.finds query)) }
    {
        let guard = self.lock.read(rt);
        let state = &*guard;
        state.obeys_rule();
        state.get_copy(query)
    }

    /// Returns the number of entries. It allocates nothing.
    ///
    /// # Blocks
    /// While a thread writes or waits to write.
    pub fn len(&self, rt: &impl Wait) -> usize
        ensures { AtAMoment T.same T.in_order R.holds (λ es. result ≡ length es) }
    {
        let guard = self.lock.read(rt);
        let state = &*guard;
        state.obeys_rule();
        state.len()
    }

    /// Returns whether the map has no entry. It allocates nothing.
    ///
    /// # Blocks
    /// While a thread writes or waits to write.
    pub fn is_empty(&self, rt: &impl Wait) -> bool
        ensures { AtAMoment T.same T.in_order R.holds (λ es. IsTrue result ↔ (es ≡ [])) }
    {
        let guard = self.lock.read(rt);
        let state = &*guard;
        state.obeys_rule();
        state.is_empty()
    }
}

impl<K, V, T, A: Allocator + Copy> Locked<K, V, T, A>
where
    T: Table<K, Arc<V, A>>,
{
    /// Returns the table, borrowed for writing: the caller may change or remove any entry. It takes
    /// no lock, since the caller has the only reference to the map.
    pub fn as_mut(&mut self) -> &mut T {
        self.lock.get_mut().table_mut()
    }
}

impl<K, V: Drop, T, A: Allocator + Copy, R: EntryRule<K, V>> Locked<K, V, T, A, R>
where
    T: Table<K, Arc<V, A>>,
{
    /// Inserts the value unless the map has the key, and returns an `Arc` of the value that the key
    /// then has.
    ///
    /// If the map has the key, the given key is dropped under the lock, and the given value after
    /// the lock is released.
    ///
    /// # Errors
    /// Fails if an allocation fails, or if the `Arc` has the maximum number of owners. The map is
    /// then unchanged.
    ///
    /// # Blocks
    /// While another thread has the lock.
    pub fn insert(&self, rt: &impl Wait, key: K, value: V) -> Result<Arc<V, A>, AllocError>
        requires { R.holds key value }
        ensures { IfOk result (λ a. HoldsAt R.holds (T.same key) (arc_value a)) }
    {
        Ok(self.insert_new(rt, key, value)?.0)
    }

    /// Inserts the value unless the map has the key. Returns an `Arc` of the value that the key
    /// then has, and whether the key was new.
    ///
    /// # Errors
    /// Fails as [`insert`](Locked::insert) does.
    ///
    /// # Blocks
    /// While another thread has the lock.
    pub fn insert_new(
        &self,
        rt: &impl Wait,
        key: K,
        value: V,
    ) -> Result<(Arc<V, A>, bool), AllocError>
        requires { R.holds key value }
        ensures holds { IfOk result (λ r. HoldsAt R.holds (T.same key) (arc_value r.0)) }
        ensures own_value { IfOk result (λ r. r.1 ≡ true → arc_value r.0 ≡ value) }
    {
        let mut given = Some(value);
        let make = |_key: &K| -> V
            requires { is_some given ≡ true }
            ensures { given.entry ≡ Some result }
        { take(&mut given) };
        let answer = self.lock.write(rt).put_with_key(key, make);
        let done = answer?;
        Ok((done.value, done.is_new))
    }

    /// Inserts the result of `f` unless the map has the key, and returns an `Arc` of the value that
    /// the key then has.
    ///
    /// `f` is called only if the key is absent and the table has room for it. It runs under the
    /// lock, so a call on the same map in it can deadlock.
    ///
    /// # Errors
    /// Fails as [`insert`](Locked::insert) does.
    ///
    /// # Blocks
    /// While another thread has the lock.
    pub fn insert_with<F: FnOnce() -> V + Drop>(
        &self,
        rt: &impl Wait,
        key: K,
        f: F,
    ) -> Result<Arc<V, A>, AllocError>
        requires callable { F.IsAlwaysCallable f }
        requires holds { (v : V) → F.post f v → R.holds key v }
        ensures { IfOk result (λ r. HoldsAt R.holds (T.same key) (arc_value r)) }
    {
        let mut given = Some(f);
        let make = || -> V
            requires { (is_some given ≡ true) × ((g : F) → given ≡ Some g → F.pre g) }
            ensures { (g : F) → given.entry ≡ Some g → F.post g result }
        { take(&mut given)() };
        let answer = self.lock.write(rt).insert_with(key, make);
        answer
    }

    /// Inserts the result of `f` unless the map has the key, and returns an `Arc` of the value that
    /// the key then has: [`insert_with`](Locked::insert_with) for an `f` that receives the key. A
    /// call on the same map in `f` can deadlock.
    ///
    /// # Errors
    /// Fails as [`insert`](Locked::insert) does.
    ///
    /// # Blocks
    /// While another thread has the lock.
    pub fn insert_with_key<F: FnOnce(&K) -> V + Drop>(
        &self,
        rt: &impl Wait,
        key: K,
        f: F,
    ) -> Result<Arc<V, A>, AllocError>
        requires callable { F.IsAlwaysCallable f }
        requires holds { (v : V) → FnOnceReturnsAt F.FnOnce f key v → R.holds key v }
        ensures { IfOk result (λ r. HoldsAt R.holds (T.same key) (arc_value r)) }
    {
        let mut given = Some(f);
        let make = |key: &K| -> V
            requires { (is_some given ≡ true) × ((g : F) → given ≡ Some g → F.pre g key) }
            ensures { (g : F) → given.entry ≡ Some g → F.post g key.entry result }
        { take(&mut given)(key) };
        let answer = self.lock.write(rt).insert_with_key(key, make);
        answer
    }
}

impl<K, V: Copy, T, A: Allocator + Copy, R: EntryRule<K, V>> Locked<K, V, T, A, R>
where
    T: Table<K, Arc<V, A>>,
{
    /// Inserts the value unless the map has the key, and returns a copy of the value that the key
    /// then has. If the map has the key, the call allocates nothing.
    ///
    /// # Errors
    /// Fails if the key is absent and an allocation fails. The map is then unchanged, and the key
    /// and the value are dropped.
    ///
    /// # Blocks
    /// While another thread has the lock.
    pub fn get_copy_or_insert(&self, rt: &impl Wait, key: K, value: V) -> Result<V, AllocError>
        requires { R.holds key value }
        ensures { IfOk result (HoldsAt R.holds (T.same key)) }
    {
        self.lock.write(rt).get_copy_or_insert(key, value)
    }

    /// Inserts the result of `f` unless the map has the key, and returns a copy of the value that
    /// the key then has. If the map has the key, the call allocates nothing.
    ///
    /// `f` is called only if the key is absent and the table has room for it. It runs under the
    /// lock, so a call on the same map in it can deadlock.
    ///
    /// # Errors
    /// Fails as [`get_copy_or_insert`](Locked::get_copy_or_insert) does.
    ///
    /// # Blocks
    /// While another thread has the lock.
    pub fn get_copy_or_insert_with<F: FnOnce() -> V + Drop>(
        &self,
        rt: &impl Wait,
        key: K,
        f: F,
    ) -> Result<V, AllocError>
        requires callable { F.IsAlwaysCallable f }
        requires holds { (v : V) → F.post f v → R.holds key v }
        ensures { IfOk result (HoldsAt R.holds (T.same key)) }
    {
        let mut given = Some(f);
        let make = || -> V
            requires { (is_some given ≡ true) × ((g : F) → given ≡ Some g → F.pre g) }
            ensures { (g : F) → given.entry ≡ Some g → F.post g result }
        { take(&mut given)() };
        let answer = self.lock.write(rt).get_copy_or_insert_with(key, make);
        answer
    }

    /// Inserts the result of `f` unless the map has the key, and returns a copy of the value that
    /// the key then has: [`get_copy_or_insert_with`](Locked::get_copy_or_insert_with) for an `f`
    /// that receives the key. A call on the same map in `f` can deadlock.
    ///
    /// # Errors
    /// Fails as [`get_copy_or_insert`](Locked::get_copy_or_insert) does.
    ///
    /// # Blocks
    /// While another thread has the lock.
    pub fn get_copy_or_insert_with_key<F: FnOnce(&K) -> V + Drop>(
        &self,
        rt: &impl Wait,
        key: K,
        f: F,
    ) -> Result<V, AllocError>
        requires callable { F.IsAlwaysCallable f }
        requires holds { (v : V) → FnOnceReturnsAt F.FnOnce f key v → R.holds key v }
        ensures { IfOk result (HoldsAt R.holds (T.same key)) }
    {
        let mut given = Some(f);
        let make = |key: &K| -> V
            requires { (is_some given ≡ true) × ((g : F) → given ≡ Some g → F.pre g key) }
            ensures { (g : F) → given.entry ≡ Some g → F.post g key.entry result }
        { take(&mut given)(key) };
        let answer = self.lock.write(rt).get_copy_or_insert_with_key(key, make);
        answer
    }
}

/// Writes the entries by `{:?}`, in the table's order, as the table does, under the read lock. If
/// an insertion has the lock or waits for it, it writes `<locked>`. It never blocks.
impl<K, V, T, A: Allocator, R: EntryRule<K, V>> Debug for Locked<K, V, T, A, R>
where
    T: Table<K, Arc<V, A>> + Debug,
{
    fn fmt<W: Write>(&self, f: &mut Formatter<W>) -> fmt::Result {
        match self.lock.try_read() {
            Some(state) => state.fmt(f),
            None => f.write_str("<locked>"),
        }
    }
}
