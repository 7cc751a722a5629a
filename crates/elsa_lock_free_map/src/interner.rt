//! Interners that threads share: each name has one index, which every thread that knows it finds.
//!
//! The names are the keys of one [`LockFreeFrozenMap`] without values, which finds a name for every
//! thread, so a thread needs no hash index of its own. A thread calls the interner through a
//! [`NameHandle`], which is a handle of that map: the calls of maps are calls of interners, and
//! `put` and `at` are for maps without values alone.
ghost use Rattle.std.specs.Prelude.{◌≡◌, ◌-◌, ◌<◌, ◌^◌, [], IfOk, IfErr, OnErr, slice_get};
ghost use Rattle.elsa_lock_free.specs.SharedList.{Continues, IsLaterPass, items_of, mine};
ghost use Rattle.elsa_lock_free.specs.Distinct.{IsOneToOne};
ghost use Rattle.elsa_hash_index.specs.Entries.{keys_of};
ghost use Rattle.elsa_lock_free_map.specs.Entries.{InsertsAt, Lacks};

use crate::handle::MapHandle;
use crate::map::{LockFreeFrozenMap, MapPass};
use crate::name::Name;
use std::alloc::{AllocError, Allocator, Global};
use std::fmt::{self, Debug, Formatter, Write};
use std::hash::{BuildHasher, BuildHasherDefault, FoldHasher, Hash};
use std::marker::Model;
use std::ops::Deref;
use std::sync::Wait;

/// What a thread has observed of a shared interner: its first names.
pub type NamePass<T = Name, S = BuildHasherDefault<FoldHasher>, A = Global> = MapPass<T, (), S, A>;

/// An interner and a thread's view of it.
pub type NameHandle<'i, T = Name, S = BuildHasherDefault<FoldHasher>, A = Global> = MapHandle<
    'i,
    T,
    (),
    S,
    A,
>;

/// An interner that threads share: look-ups take no lock, and a new name takes one that spins.
///
/// Its names are of one type, which is copied: [`Name`], or any type with an equality and a hash,
/// such as a borrowed text. It dereferences to the map whose keys are the names. Contracts see
/// which interner it is, by its vector.
#[derive(Drop)]
pub struct SharedInterner<
    T: Copy + Drop + Hash = Name,
    S: BuildHasher + Copy + Drop = BuildHasherDefault<FoldHasher>,
    A: Allocator + Copy = Global,
> {
    names: LockFreeFrozenMap<T, (), S, A>,
}

impl<T: Copy + Drop + Hash, S: BuildHasher + Copy + Drop, A: Allocator + Copy> Model
    for SharedInterner<T, S, A> {
    ghost use Rattle.elsa_lock_free.specs.SharedList.{Vector};

    ghost Value = { Vector };

    ghost view = { λ s. s.names };
}

impl<T: Copy + Drop + Hash, S: BuildHasher + Copy + Drop, A: Allocator + Copy> Deref
    for SharedInterner<T, S, A> {
    ghost use Rattle.std.specs.Prelude.{◌≡◌};

    type Target = LockFreeFrozenMap<T, (), S, A>;

    ghost deref_gives = { λ s m. m ≡ s };

    fn deref(&self) -> &LockFreeFrozenMap<T, (), S, A> {
        &self.names
    }
}

impl<T: Copy + Drop + Hash, A: Allocator + Copy> SharedInterner<
    T,
    BuildHasherDefault<FoldHasher>,
    A,
> {
    /// Makes an empty interner, which allocates by `alloc`.
    ///
    /// The default hasher has a fixed seed. If names come from untrusted input, use
    /// [`with_hasher`](Self::with_hasher) and a `SeededState` of `elsa`.
    ///
    /// # Errors
    /// Fails if an allocation fails.
    ///
    /// # Allocates
    /// The directory of the buffers.
    ///
    /// # Cost
    /// `O(1)`.
    pub fn new(alloc: A) -> Result<Self, AllocError> {
        SharedInterner::with_hasher(alloc, BuildHasherDefault::new())
    }
}

impl<T: Copy + Drop + Hash, S: BuildHasher + Copy + Drop, A: Allocator + Copy> SharedInterner<
    T,
    S,
    A,
> {
    /// Makes an empty interner that hashes its names by `builder`. It allocates as
    /// [`new`](Self::new) does.
    ///
    /// # Errors
    /// Fails if an allocation fails.
    pub fn with_hasher(alloc: A, builder: S) -> Result<Self, AllocError> {
        Ok(SharedInterner {
            names: LockFreeFrozenMap::with_hasher(alloc, builder)?,
        })
    }

    /// Makes a view that has observed no name and added none. It allocates nothing and takes no
    /// atomic step.
    pub fn pass(&self) -> NamePass<T, S, A>
        ensures same_vector { result.vector ≡ self.now }
        ensures nothing_seen { result.seen ≡ [] }
        ensures nothing_mine { mine result ≡ [] }
    {
        self.names.pass()
    }

    /// Returns the index of a name by a view, as [`put`](MapHandle::put) of a handle does: it adds
    /// the name if no thread has added it.
    ///
    /// # Errors
    /// Fails if an allocation fails, or if there are `2^32 - 1` names, the greatest number; never
    /// for a name that the view has observed. The view has then added nothing; the same call may
    /// succeed later.
    ///
    /// # Blocks
    /// While another thread appends, unless the view has observed the name.
    pub fn put<R: Wait>(
        &self,
        rt: &R,
        names: &mut NamePass<T, S, A>,
        name: T,
    ) -> Result<usize, AllocError>
        requires same_vector { names.old.vector ≡ self.now }

        // Names and indices are one to one. If the call fails, the view has added no name.
        ensures later { IsLaterPass names.old names.new }
        ensures one_to_one { IsOneToOne T.eq (keys_of (items_of names.new.seen)) }
        ensures numbered { IfOk result (λ i. InsertsAt T.eq names.old names.new name i
            × (i < 2 ^ 32 - 1)) }
        ensures refused { IfErr result (λ e. mine names.new ≡ mine names.old) }
        ensures only_new { OnErr result (Lacks T.eq (items_of names.old.seen) name) }
    {
        let mut handle = NameHandle::of(self, std::mem::replace(names, self.pass()));
        let answer = handle.put(rt, name);
        *names = handle.into_pass();
        answer
    }

    /// Returns the name at an index by a view, as [`at`](MapHandle::at) of a handle does: `None` if
    /// the index is not below the number of names that the view has then observed.
    pub fn at(&self, names: &mut NamePass<T, S, A>, index: usize) -> Option<T>
        requires same_vector { names.old.vector ≡ self.now }
        ensures continues { Continues names.old names.new }
        ensures name { result ≡ slice_get (keys_of (items_of names.new.seen)) index }
    {
        let mut handle = NameHandle::of(self, std::mem::replace(names, self.pass()));
        let answer = handle.at(index);
        *names = handle.into_pass();
        answer
    }
}

/// Writes the names that one load of their number shows, in the order of their indices, as a slice
/// does: `["x", "y"]`. It takes no lock, allocates nothing and never blocks.
impl<T: Copy + Drop + Hash + Debug, S: BuildHasher + Copy + Drop, A: Allocator + Copy> Debug
    for SharedInterner<T, S, A> {
    fn fmt<W: Write>(&self, f: &mut Formatter<W>) -> fmt::Result {
        let mut handle = self.handle();
        handle.len();
        let names = handle.iter().map(|entry: (T, ())| entry.0);
        f.debug_list().entries(names).finish()
    }
}
