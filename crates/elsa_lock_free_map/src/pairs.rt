//! The receiver of a map's entries when they are moved out.
ghost use Rattle.std.specs.Prelude.{◌≡◌, [], vec_capacity};
ghost use Rattle.elsa_lock_free_map.specs.Entries.{pairs_of};

use elsa_hash_index::entry::Entry;
use elsa_slots::slots::{Collection, Received, Sink};
use std::alloc::{AllocError, Allocator, Global};

/// A receiver of entries, which stores each as its key and its value.
pub(crate) struct Pairs<K: Drop, V: Drop, S: Drop, A: Allocator = Global> {
    pairs: Vec<(K, V), A>,
    received: Received<Entry<K, V, S>>,
    ghost same: { pairs.items ≡ pairs_of received.items },
}

impl<K: Drop, V: Drop, S: Drop, A: Allocator> Pairs<K, V, S, A> {
    /// Makes a receiver that stores the pairs in `pairs`, an empty list.
    pub(crate) fn into(pairs: Vec<(K, V), A>) -> Pairs<K, V, S, A>
        requires empty { pairs.items ≡ [] }
        ensures { (result.received.items ≡ []) × (vec_capacity result.pairs ≡ vec_capacity pairs) }
    {
        Pairs {
            pairs,
            received: Received::none(),
        }
    }

    /// Returns the pairs.
    pub(crate) fn into_vec(self) -> Vec<(K, V), A>
        ensures { result.items ≡ pairs_of self.received.items }
    {
        let Self { pairs, received } = self;
        received.discard();
        pairs
    }
}

impl<K: Drop, V: Drop, S: Drop, A: Allocator> Sink<Entry<K, V, S>> for Pairs<K, V, S, A> {
    ghost received = { λ p. p.received.items };

    ghost capacity = { λ p. vec_capacity p.pairs };

    fn receive(&mut self, item: Entry<K, V, S>) {
        self.received.record(&item);
        let Entry { key, value, seen } = item;
        drop(seen);
        self.pairs.push_reserved((key, value));
    }
}

impl<K: Drop, V: Drop, S: Drop, A: Allocator> Collection<Entry<K, V, S>, A> for Pairs<K, V, S, A> {
    fn with_capacity(alloc: A, count: usize) -> Result<Pairs<K, V, S, A>, AllocError> {
        let pairs = Vec::with_capacity(alloc, count)?;
        Ok(Pairs::into(pairs))
    }
}
