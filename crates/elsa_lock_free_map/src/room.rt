//! Room for the entries of a map, so that they are moved out without a failure: for a caller that
//! moves out the entries of several maps, or of none.
ghost use Rattle.std.specs.Prelude.{◌≡◌, IfOk, length, vec_len};
ghost use Rattle.std.specs.List.{IsDistinct};
ghost use Rattle.std.specs.Map.{keys_of};
ghost use Rattle.elsa_lock_free.specs.SharedList.{items_of};
ghost use Rattle.elsa_lock_free_map.specs.Entries.{pairs_of};

use crate::entries::one_to_one;
use crate::map::{LockFreeFrozenMap, MapPass};
use crate::pairs::Pairs;
use elsa_tables::AnyEntries;
use std::alloc::{AllocError, Allocator};
use std::hash::{BuildHasher, Hash};
use std::marker::Model;

/// A view of a map, and memory for the entries that it has observed. Contracts see the view.
#[derive(Drop)]
pub struct Room<K: Drop + Hash, V: Drop, S: BuildHasher + Copy + Drop, A: Allocator + Copy> {
    pass: MapPass<K, V, S, A, AnyEntries>,
    memory: Vec<(K, V), A>,
}

impl<K: Drop + Hash, V: Drop, S: BuildHasher + Copy + Drop, A: Allocator + Copy> Model
    for Room<K, V, S, A> {
    ghost use Rattle.std.specs.Prelude.{◌≡◌, ◌≤◌, [], length, vec_capacity};
    ghost use Rattle.elsa_lock_free.specs.SharedList.{View};
    ghost use Rattle.elsa_hash_index.specs.declared.entry.Entry.{Entry};

    ghost Value = { View (Entry K V S) };

    ghost view = { λ r. r.pass };

    // The memory is unused, and is enough for the observed entries.
    ghost invariant = { λ r. (r.memory.items ≡ []) × (length r.pass.seen ≤ vec_capacity r.memory) };
}

impl<K: Drop + Hash, V: Drop, S: BuildHasher + Copy + Drop, A: Allocator + Copy> Room<K, V, S, A> {
    /// Returns the number of entries for which there is room.
    pub fn len(&self) -> usize
        ensures { result ≡ length self.now.seen }
    {
        let pass = &self.pass;
        pass.seen_len()
    }
}

impl<K: Drop + Hash, V: Drop, S: BuildHasher + Copy + Drop, A: Allocator + Copy> LockFreeFrozenMap<
    K,
    V,
    S,
    A,
> {
    /// Reads the number of entries, and allocates room for them.
    ///
    /// # Errors
    /// Fails if the allocation fails.
    #[doc(hidden)]
    pub fn room(&self) -> Result<Room<K, V, S, A>, AllocError>
        ensures same_vector { IfOk result (λ r. r.vector ≡ self.now) }
    {
        let mut pass = self.pass();
        let list = &self.list;
        let len = list.len_as(&mut pass);
        let memory = Vec::with_capacity(self.alloc, len)?;
        Ok(Room { pass, memory })
    }

    /// Returns the entries for which there is room, each once as its key and its value, in the
    /// order of their insertion. It can't fail.
    #[doc(hidden)]
    #[tactic(auto, using(crate::proofs::MapLemmas::distinct_pairs))]
    pub fn into_room(self, room: Room<K, V, S, A>) -> Vec<(K, V), A>
        requires same_vector { room.vector ≡ self }
        ensures items { result.items ≡ pairs_of (items_of room.seen) }
        ensures length { vec_len result ≡ length room.seen }
        ensures distinct { IsDistinct K.eq (keys_of result.items) }
    {
        let LockFreeFrozenMap {
            list,
            builder: _,
            alloc: _,
        } = self;
        let Room { pass, memory } = room;
        one_to_one(&pass);
        let mut pairs = Pairs::into(memory);
        list.move_items_as(&pass, &mut pairs);
        drop(pass);
        pairs.into_vec()
    }
}
