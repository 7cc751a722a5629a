//! A map that ends with its entries moved out.
ghost use Rattle.std.specs.Prelude.{◌≡◌, IfOk, IfErr};
ghost use Rattle.elsa_lock_free.specs.SharedList.{Continues, items_of};
ghost use Rattle.elsa_lock_free_map.specs.Entries.{pairs_of};

use crate::map::{LockFreeFrozenMap, MapPass};
use crate::pairs::Pairs;
use elsa_tables::EntryRule;
use std::alloc::{AllocFailed, Allocator};
use std::hash::{BuildHasher, Hash};

impl<
    K: Drop + Hash,
    V: Drop,
    S: BuildHasher + Copy + Drop,
    A: Allocator + Copy,
    L: EntryRule<K, V>,
> LockFreeFrozenMap<K, V, S, A, L> {
    /// Returns all entries, each once as its key and its value, in the order of their insertion.
    /// The view then has observed all of them.
    ///
    /// A view borrows nothing, so it can state the content: merge the views of all threads into one
    /// by [`Pass::meet`](elsa_lock_free::lock_free::Pass::meet), and the result has every entry
    /// that these threads have inserted or found, at its index.
    ///
    /// # Errors
    /// Fails if the memory of the result can't be allocated. The error has the map, with all its
    /// entries; by `?` it becomes an `AllocError`, which drops them.
    ///
    /// # Allocates
    /// Memory for the entries, by the map's allocator. All other memory of the map is deallocated.
    ///
    /// # Cost
    /// `O(n)`: one move for each entry.
    pub fn into_tuple_vec_as(
        self,
        pass: &mut MapPass<K, V, S, A, L>,
    ) -> Result<Vec<(K, V), A>, AllocFailed<Self>>
        requires same_vector { pass.old.vector ≡ self }
        ensures continues { Continues pass.old pass.new }
        ensures items { IfOk result (λ v. v.items ≡ pairs_of (items_of pass.new.seen)) }
        ensures refused { IfErr result (λ e. e.value ≡ self) }
    {
        let LockFreeFrozenMap {
            list,
            builder,
            alloc,
        } = self;
        match list.into_items_as::<Pairs<K, V, S, A>>(pass) {
            Ok(pairs) => Ok(pairs.into_vec()),
            Err(failed) => Err(AllocFailed {
                value: LockFreeFrozenMap {
                    list: failed.value,
                    builder,
                    alloc,
                },
            }),
        }
    }
}

impl<K: Drop + Hash, V: Drop, S: BuildHasher + Copy + Drop, A: Allocator + Copy> LockFreeFrozenMap<
    K,
    V,
    S,
    A,
> {
    /// Returns all entries, each once as its key and its value, in the order of their insertion. It
    /// makes a view and drops it, so it promises only what an error has;
    /// [`into_tuple_vec_as`](Self::into_tuple_vec_as) promises the entries.
    ///
    /// # Errors
    /// Fails if the memory of the result can't be allocated. The error has the map, with all its
    /// entries; by `?` it becomes an `AllocError`, which drops them.
    ///
    /// # Allocates
    /// Memory for the entries, by the map's allocator. All other memory of the map is deallocated.
    ///
    /// # Cost
    /// `O(n)`.
    pub fn into_tuple_vec(self) -> Result<Vec<(K, V), A>, AllocFailed<Self>>
        ensures refused { IfErr result (λ e. e.value ≡ self) }
    {
        let mut pass = self.pass();
        self.into_tuple_vec_as(&mut pass)
    }
}
