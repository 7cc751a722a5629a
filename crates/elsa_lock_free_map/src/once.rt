//! Values that are made once for each key: the maker of a key runs under a lock of that key alone.
ghost use Rattle.std.specs.Prelude.{◌≡◌, ◌⊎◌, true, false, Ok, Err, IfOk, IfErr, IfSome, alloc_error};
ghost use Rattle.elsa_lock_free.specs.SharedList.{Continues, IsLaterPass, items_of};
ghost use Rattle.elsa_lock_free_map.specs.Entries.{Has};

use crate::handle::MapHandle;
use crate::map::LockFreeFrozenMap;
use indexmap::Equivalent;
use std::alloc::{AllocError, Allocator, Global};
use std::hash::{BuildHasher, BuildHasherDefault, FoldHasher, Hash};
use std::marker::Model;
use std::sync::{Mutex, OnceLock, OnceToken, Wait};

/// A map that threads share, in which the value of a key is made once.
///
/// [`get_or_init`](MapHandle::get_or_init) of a handle calls its closure only if no call has made
/// the key's value. Calls with an equal key wait meanwhile; calls with other keys don't, and
/// [`get_made`](MapHandle::get_made) takes no lock.
pub type OnceMap<K, V, S = BuildHasherDefault<FoldHasher>, A = Global> = LockFreeFrozenMap<
    K,
    OnceValue<V>,
    S,
    A,
>;

/// The value of a key of a [`OnceMap`]: there is none until a call has made it, and then it stays.
/// Contracts see the name of its cell.
#[derive(Drop)]
pub struct OnceValue<V> {
    // The thread that has this lock makes the value.
    maker: Mutex<()>,
    cell: OnceLock<V>,
}

impl<V> Model for OnceValue<V> {
    ghost use Rattle.std.specs.Sync.OnceLock.{Named};

    ghost Value = { Named };

    ghost view = { λ v. v.cell };
}

/// A reference to the value of a key, and whether the call that returned it has made it.
#[derive(Drop)]
pub struct Made<'m, V> {
    /// The value.
    pub value: &'m V,
    /// Whether it is what this call's closure returned.
    pub is_new: bool,
    /// The evidence that the key's cell has this value. It has no bytes.
    pub token: OnceToken<'m, V>,
    ghost same: { value.now ≡ token.value },
}

impl<V: Drop> OnceValue<V> {
    /// Makes a cell without a value.
    fn new() -> OnceValue<V> {
        OnceValue {
            maker: Mutex::new(()),
            cell: OnceLock::new(),
        }
    }

    /// Returns the value, or `None` if no call has made it: for the entries that
    /// [`into_tuple_vec`](LockFreeFrozenMap::into_tuple_vec) returns.
    pub fn into_inner(self) -> Option<V> {
        let OnceValue { maker, cell } = self;
        drop(maker);
        cell.into_inner()
    }

    /// Returns the value, if there is one. It takes no lock.
    fn get(&self) -> Option<Made<'_, V>>
        ensures cell { IfSome result (λ m. m.token.of ≡ self.now.id) }
        ensures present { IfSome result (λ m. m.is_new ≡ false) }
    {
        let token = self.cell.witness()?;
        Some(Made {
            value: self.cell.value(&token),
            is_new: false,
            token,
        })
    }

    /// Returns the value, and makes it by `make` if there is none.
    fn get_or_try_init<R: Wait, E, F: FnOnce() -> Result<V, E> + Drop>(
        &self,
        rt: &R,
        make: F,
    ) -> Result<Made<'_, V>, E>
        requires { F.pre make }
        ensures cell { IfOk result (λ m. m.token.of ≡ self.now.id) }
        ensures made { IfOk result (λ m. m.is_new ≡ true → F.post make (Ok m.value.now)) }
        ensures cause { IfErr result (λ e. F.post make (Err e)) }
    {
        if let Some(made) = self.get() {
            return Ok(made);
        }
        let guard = self.maker.lock(rt);
        if let Some(made) = self.get() {
            return Ok(made);
        }
        let value = make()?;
        // No other thread makes a value meanwhile, so this is the first.
        let (token, is_new) = match self.cell.try_insert(rt, value) {
            Ok(token) => (token, true),
            Err((token, second)) => {
                drop(second);
                (token, false)
            }
        };
        drop(guard);
        Ok(Made {
            value: self.cell.value(&token),
            is_new,
            token,
        })
    }
}

impl<'m, K: Drop + Hash, V: Drop, S: BuildHasher + Copy + Drop, A: Allocator + Copy> MapHandle<
    'm,
    K,
    OnceValue<V>,
    S,
    A,
> {
    /// Returns the value of a key if a call has made it. A query is as in [`find`](Self::find). It
    /// takes no lock, allocates nothing and never blocks.
    ///
    /// # Cost
    /// That of [`find`](Self::find).
    pub fn get_made<Q: Equivalent<K>>(&mut self, query: Q) -> Option<Made<'m, V>>
        ensures continues { Continues self.old self.new }
        ensures found { IfSome result (λ m.
            Has Q.equivalent (items_of self.new.seen) query (record { id = m.token.of })) }
    {
        self.get_ref(query)?.get()
    }

    /// Returns the value of a key, and makes it by `make` if no call has made it, as
    /// [`get_or_init`](Self::get_or_init) does, if `make` may fail.
    ///
    /// # Errors
    /// Fails with the error of `make`: then there is no value, and the next call makes it. Fails
    /// with an error made of an `AllocError` if an allocation fails, or if the map has `2^32 - 1`
    /// entries.
    ///
    /// # Blocks
    /// As [`get_or_init`](Self::get_or_init) does.
    ///
    /// # Allocates
    /// As [`insert_ref`](Self::insert_ref) does, if no call has had the key.
    ///
    /// # Cost
    /// That of [`find`](Self::find) if there is a value.
    pub fn get_or_try_init<R: Wait, E: From<AllocError>, F: FnOnce() -> Result<V, E> + Drop>(
        &mut self,
        rt: &R,
        key: K,
        make: F,
    ) -> Result<Made<'m, V>, E>
        requires callable { F.pre make }
        ensures later { IsLaterPass self.old self.new }
        ensures found { IfOk result (λ m.
            Has K.eq (items_of self.new.seen) key (record { id = m.token.of })) }
        ensures made { IfOk result (λ m. m.is_new ≡ true → F.post make (Ok m.value.now)) }
        ensures cause { IfErr result (λ e. F.post make (Err e) ⊎ E.from_gives alloc_error e) }
    {
        match self.get_or_insert_with(rt, key, || OnceValue::new()) {
            Ok(entry) => entry.value.get_or_try_init(rt, make),
            Err(failed) => Err(E::from(failed)),
        }
    }

    /// Returns the value of a key, and makes it by `make` if no call has made it: `make` runs once
    /// for all equal keys, whatever the number of threads.
    ///
    /// While `make` runs, calls with an equal key wait for it, and calls with other keys don't. It
    /// may use the map by another handle, but not with an equal key, for whose value it would wait.
    ///
    /// # Errors
    /// Fails if an allocation fails, or if the map has `2^32 - 1` entries. Then `make` was not
    /// called.
    ///
    /// # Blocks
    /// While another thread makes the value of an equal key, or inserts a key.
    ///
    /// # Allocates
    /// As [`insert_ref`](Self::insert_ref) does, if no call has had the key.
    ///
    /// # Cost
    /// That of [`find`](Self::find) if there is a value.
    pub fn get_or_init<R: Wait, F: FnOnce() -> V + Drop>(
        &mut self,
        rt: &R,
        key: K,
        make: F,
    ) -> Result<Made<'m, V>, AllocError>
        requires callable { F.pre make }
        ensures later { IsLaterPass self.old self.new }
        ensures found { IfOk result (λ m.
            Has K.eq (items_of self.new.seen) key (record { id = m.token.of })) }
        ensures made { IfOk result (λ m. m.is_new ≡ true → F.post make m.value.now) }
    {
        self.get_or_try_init(rt, key, || -> Result<V, AllocError> { Ok(make()) })
    }

    /// Proves that two results for equal keys, by handles of one map, have one value. It does
    /// nothing at run time.
    pub fn same_value(
        &self,
        other: &MapHandle<'m, K, OnceValue<V>, S, A>,
        one: &Made<'m, V>,
        two: &Made<'m, V>,
    )
        requires same_vector { self.now.vector ≡ other.now.vector }
        requires found { (key : K)
            × Has K.eq (items_of self.now.seen) key (record { id = one.now.token.of })
            × Has K.eq (items_of other.now.seen) key (record { id = two.now.token.of }) }
        ensures { one.now.value.now ≡ two.now.value.now }
    {
        self.same_index(other);
        one.token.agrees(&two.token);
    }
}
