//! The list of a map: its rule, what is stored next to the slots of its buffers, and the queries of
//! a look-up.
ghost use Rattle.std.specs.Prelude.{◌≡◌, ◌<◌, ◌^◌, fold, length};
ghost use Rattle.elsa_lock_free.specs.Distinct.{AgreeOnIndices, IsOneToOne};
ghost use Rattle.elsa_lock_free.specs.SharedList.{items_of};
ghost use Rattle.elsa_hash_index.specs.Entries.{keys_of};
ghost use Rattle.elsa_lock_free_map.specs.Entries.{AgreeOnEntries, HoldsEach, short};

use elsa_hash_index::entry::{Entry, Sought};
use elsa_hash_index::row::Row;
use elsa_lock_free::item_rule::ItemRule;
use elsa_lock_free::lock_free::{Handle, LockFreeFrozenVec, Observed, Pass, VectorHistory};
use elsa_slots::slots::Beside;
use elsa_tables::{AnyEntries, EntryRule};
use indexmap::Equivalent;
use std::alloc::{Allocator, Global};
use std::hash::{BuildHasher, Hash};
use std::marker::PhantomData;

/// The rule of the list: an entry is new if no entry before it has its key, and it has evidence of
/// a row that finds all of them. Its value holds for its key by the caller's rule.
pub struct NewKeys<S, L = AnyEntries> {
    of: PhantomData<(S, L)>,
}

impl<K: Hash + Drop, V: Drop, S: BuildHasher + Copy + Drop, L: EntryRule<K, V>> ItemRule<
    Entry<K, V, S>,
> for NewKeys<S, L> {
    ghost use Rattle.std.specs.Prelude.{false, fold};
    ghost use Rattle.elsa_lock_free.specs.Distinct.{one_answer};
    ghost use Rattle.elsa_lock_free.specs.SharedList.{items_of};
    ghost use Rattle.elsa_lock_free_map.specs.Entries.{MayFollow, short};

    ghost is_new = { λ es e. MayFollow K.eq (λ s k. short (S.Hasher.finish (fold S.Hasher.write (S.build_hasher s) (K.hash_input k)))) (items_of es) e.item × L.holds e.item.key e.item.value };

    ghost distinct = { false };

    ghost apart = { λ is es i e new at. one_answer is };

    fn is_distinct() -> bool {
        false
    }
}

/// The row next to a buffer, which finds the entries up to the last one in the buffer.
#[derive(Drop)]
pub struct Index<S: Copy + Drop, A: Allocator = Global> {
    pub row: Row<S, A>,
}

impl<K: Drop, V: Drop, S: Copy + Drop, A: Allocator> Beside<Entry<K, V, S>> for Index<S, A> {
    ghost use Rattle.std.specs.Prelude.{◌≡◌};

    ghost fits = { λ x e. e.seen.book ≡ x.row.first.book };
}

/// The list of a map.
pub type Entries<K, V, S, A, L = AnyEntries> = LockFreeFrozenVec<
    Entry<K, V, S>,
    A,
    NewKeys<S, L>,
    Index<S, A>,
>;

/// The history of such a list.
pub type EntriesHistory<K, V, S, A, L = AnyEntries> = VectorHistory<
    Entry<K, V, S>,
    A,
    NewKeys<S, L>,
    Index<S, A>,
>;

/// A handle of such a list.
pub type EntriesHandle<'m, K, V, S, A, L = AnyEntries> = Handle<
    'm,
    Entry<K, V, S>,
    A,
    NewKeys<S, L>,
    Index<S, A>,
>;

/// What a handle has observed of such a list.
pub type ObservedEntries<'m, K, V, S, A, L = AnyEntries> = Observed<
    'm,
    Entry<K, V, S>,
    A,
    NewKeys<S, L>,
    Index<S, A>,
>;

/// A view of such a list.
pub type EntriesPass<K, V, S, A, L = AnyEntries> = Pass<
    Entry<K, V, S>,
    A,
    NewKeys<S, L>,
    Index<S, A>,
>;

/// Proves that equal keys that a view has observed are at one index. It does nothing at run time.
pub fn one_to_one<
    K: Drop + Hash,
    V: Drop,
    S: BuildHasher + Copy + Drop,
    A: Allocator + Copy,
    L: EntryRule<K, V>,
>(pass: &EntriesPass<K, V, S, A, L>)
    ensures { IsOneToOne K.eq (keys_of (items_of pass.now.seen)) }
{
    pass.obeys_rule();
}

/// Proves that each entry that a view has observed obeys the map's rule. It does nothing at run
/// time.
pub fn all_obey<
    K: Drop + Hash,
    V: Drop,
    S: BuildHasher + Copy + Drop,
    A: Allocator + Copy,
    L: EntryRule<K, V>,
>(pass: &EntriesPass<K, V, S, A, L>)
    ensures { HoldsEach L.holds (items_of pass.now.seen) }
{
    pass.obeys_rule();
}

/// Proves that equal keys that two views of a map have observed are at one index and have one
/// value, whether the views were merged or not. It does nothing at run time.
pub fn same_index<
    K: Drop + Hash,
    V: Drop,
    S: BuildHasher + Copy + Drop,
    A: Allocator + Copy,
    L: EntryRule<K, V>,
>(pass: &EntriesPass<K, V, S, A, L>, other: &EntriesPass<K, V, S, A, L>)
    requires same_vector { pass.now.vector ≡ other.now.vector }
    ensures index { AgreeOnIndices K.eq (keys_of (items_of pass.now.seen))
        (keys_of (items_of other.now.seen)) }
    ensures value { AgreeOnEntries K.eq (items_of pass.now.seen) (items_of other.now.seen) }
{
    let (mut one, mut two) = (pass.again(), other.again());
    one.meet(&mut two);
    one.obeys_rule();
}

/// Returns 32 bits of the hash of a key, or of a query.
pub fn hash_of<Q: Copy + Drop + Hash, S: BuildHasher>(builder: &S, key: Q) -> u32
    ensures { result ≡ short (S.Hasher.finish (fold S.Hasher.write
        (S.build_hasher builder.now) (Q.hash_input key))) }
{
    (builder.hash_one(key).wrapping_mul(0x9E37_79B9_7F4A_7C15) / 0x1_0000_0000) as u32
}

/// A query of a map: a key by reference, or a text if the keys are texts.
#[derive(Drop)]
pub struct Query<Q: Copy> {
    pub query: Q,
}

impl<K: Hash, S: BuildHasher + Copy + Drop, Q: Equivalent<K>> Sought<K, S> for Query<Q> {
    ghost use Rattle.std.specs.Prelude.{fold};
    ghost use Rattle.elsa_lock_free_map.specs.Entries.{short};

    ghost stands_for = { λ s k. Q.equivalent s.query k };

    ghost hash = { λ s b. short (S.Hasher.finish (fold S.Hasher.write (S.build_hasher b) (Q.hash_input s.query))) };

    fn stands_for(&self, key: &K) -> bool {
        self.query.equivalent(key)
    }

    fn hash_of(&self, builder: S) -> u32 {
        hash_of(&builder, self.query)
    }
}
