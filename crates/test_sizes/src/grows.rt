//! What the collections have in common.
use std::alloc::AllocError;

/// A collection of keys and values that are numbers.
pub trait Grows {
    /// Returns the key of the next insertion: the given one, or in a list the next index.
    fn next_key(&self, drawn: u64) -> u64 {
        drawn
    }

    /// Returns the value that an insertion of this key stores: the given one, or in a set the key.
    fn stored(&self, _key: u64, value: u64) -> u64 {
        value
    }

    /// Inserts the key, and returns the value that it then has.
    ///
    /// # Errors
    /// Fails if an allocation fails.
    fn insert(&mut self, key: u64, value: u64) -> Result<u64, AllocError>;

    /// Returns the value of the key, or `None`.
    fn get(&self, key: u64) -> Option<u64>;

    /// Returns the number of entries.
    fn count(&self) -> usize;

    /// Returns whether the key has this index. A collection without indices returns `true`.
    fn has_index(&self, _key: u64, _index: usize) -> bool {
        true
    }

    /// Extends the collection at once by `count` entries, with keys below `below`, each with its
    /// index as the value.
    fn fill(&mut self, count: u64, below: u64) -> Result<(), AllocError> {
        for index in 0..count {
            self.insert(key_at(index, below), index)?;
        }
        Ok(())
    }
}

/// The key at an index of the entries of `fill`. Some keys occur several times.
pub fn key_at(index: u64, below: u64) -> u64 {
    (index * index + index * 7) % below
}
