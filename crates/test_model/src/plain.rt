//! The plain list, and the replies that it gives.
use crate::call::{Call, Cause, Entry, Kind, Reply, Walk, made};
use std::alloc::{AllocError, Global};

/// The entries in the order of their insertion, and the index of each key.
#[derive(Drop)]
pub struct Plain {
    entries: Vec<(u64, u64)>,
    indices: Vec<Option<usize>>,
    /// The number of entries up to which insertions need no memory.
    pub room: usize,
    /// The number of entries at the moment that the kept handle has observed.
    kept: usize,
    /// Whether walks are in the order of insertion.
    is_in_order: bool,
}

impl Plain {
    /// Makes an empty list for keys below `keys`.
    ///
    /// # Errors
    /// Fails if an allocation fails.
    pub fn new(alloc: Global, keys: usize, is_in_order: bool) -> Result<Plain, AllocError> {
        let mut indices = Vec::new(alloc);
        indices.resize(keys, None)?;
        Ok(Plain {
            entries: Vec::new(alloc),
            indices,
            room: 0,
            kept: 0,
            is_in_order,
        })
    }

    /// Returns the number of entries.
    pub fn len(&self) -> usize {
        self.entries.len()
    }

    /// Notes that a handle of this moment is kept.
    pub fn keep(&mut self) {
        self.kept = self.len();
    }

    /// Returns the entry at an index.
    pub fn entry(&self, index: usize) -> Option<(u64, u64)> {
        self.entries.get(index).copied()
    }

    fn index_of(&self, key: u64) -> Option<usize> {
        self.indices.get(key as usize).copied().unwrap_or(None)
    }

    fn value_at(&self, index: usize) -> Option<u64> {
        Some(self.entry(index)?.1)
    }

    fn value_of(&self, key: u64) -> Option<u64> {
        self.value_at(self.index_of(key)?)
    }

    fn full_at(&self, index: usize) -> Option<(usize, u64, u64)> {
        let (key, value) = self.entry(index)?;
        Some((index, key, value))
    }

    fn full_of(&self, key: u64) -> Option<(usize, u64, u64)> {
        self.full_at(self.index_of(key)?)
    }

    /// Returns the index, the key and the value of a key, as of the moment of the kept handle.
    fn full_then(&self, key: u64) -> Option<(usize, u64, u64)> {
        self.full_of(key).filter(|found| found.0 < self.kept)
    }

    /// Returns the index at which a value is or could be inserted, if the values ascend.
    fn search(&self, value: u64) -> Result<usize, usize> {
        self.entries
            .as_slice()
            .binary_search_by(|entry| entry.1.cmp(&value))
    }

    /// Returns the entry of the least or of the greatest key.
    fn end(&self, is_last: bool) -> Option<(u64, u64)> {
        let mut end = *self.entries.first()?;
        for entry in &self.entries {
            if (entry.0 > end.0) == is_last {
                end = *entry;
            }
        }
        Some(end)
    }

    /// Returns the walk over the entries whose keys are at least `least`.
    fn walk_from(&self, least: u64) -> Reply {
        let mut walk = Walk::new(self.is_in_order);
        for entry in &self.entries {
            if entry.0 >= least {
                walk.add(entry.0, entry.1);
            }
        }
        walk.reply()
    }

    /// Returns the walk over all entries.
    pub fn walk(&self) -> Reply {
        self.walk_from(0)
    }

    /// Returns the walk over the keys.
    fn keys(&self) -> Reply {
        let mut walk = Walk::new(false);
        for entry in &self.entries {
            walk.add(entry.0, 0);
        }
        walk.reply()
    }

    /// Returns the entries, ascending by key.
    ///
    /// # Errors
    /// Fails if an allocation fails.
    pub fn sorted(&self) -> Result<Vec<(u64, u64)>, AllocError> {
        let mut all = self.entries.clone()?;
        all.sort()?;
        Ok(all)
    }

    /// Returns what an insertion returns.
    fn insertion(&self, call: Call) -> Reply {
        if call.is_held && !call.kind.reads_first() {
            let is_kept = call.kind.closure_calls() == 0 && call.kind != Kind::Extend;
            let value = if is_kept { Some(call.value) } else { None };
            return Reply::Failed(Cause::InUse, value, 0);
        }
        if let Some(index) = self.index_of(call.key) {
            return made(self.value_at(index), Some(index), Some(false), 0);
        }
        match call.kind {
            _ if call.is_held => Reply::Failed(Cause::InUse, None, 1),
            Kind::InsertFails => Reply::Failed(Cause::Closure, None, 1),
            kind => made(
                Some(call.value),
                Some(self.len()),
                Some(true),
                kind.closure_calls(),
            ),
        }
    }

    /// Returns the reply that a call has to have.
    pub fn reply(&self, call: Call) -> Reply {
        match call.kind {
            Kind::Get
            | Kind::GetRef
            | Kind::GetCopy
            | Kind::GetSince
            | Kind::GetObserved
            | Kind::MapGet => Reply::Value(self.value_of(call.key)),
            Kind::GetFull | Kind::GetFullObserved | Kind::GetFullByGuard => {
                Reply::Full(self.full_of(call.key))
            }
            Kind::Find => Reply::Index(self.index_of(call.key)),
            Kind::GetIndex | Kind::GetIndexObserved => Reply::Full(self.full_at(call.key as usize)),
            Kind::SeenGet => Reply::Value(self.full_then(call.key).map(|found| found.2)),
            Kind::SeenGetFull => Reply::Full(self.full_then(call.key)),
            Kind::SeenLen => Reply::Count(self.kept),
            Kind::ContainsKey => { Reply::Flag(self.index_of(call.key).is_some()) }
            Kind::First => Reply::Value(self.value_at(0)),
            Kind::Last => Reply::Value(self.value_at(self.len().wrapping_sub(1))),
            Kind::Least => Reply::Pair(self.end(false)),
            Kind::Greatest => Reply::Pair(self.end(true)),
            Kind::Len | Kind::Observe | Kind::LenByGuard | Kind::Keep => {
                Reply::Count(self.len())
            }
            Kind::IsEmpty => Reply::Flag(self.len() == 0),
            Kind::IsFull => Reply::Flag(false),
            Kind::Iter | Kind::IterRefs | Kind::News | Kind::Clone => self.walk(),
            Kind::Keys => self.keys(),
            Kind::WalkFrom => self.walk_from(call.key),
            Kind::Equals => Reply::Flag(self.index_of(call.key).is_none()),
            Kind::Reserve | Kind::ReserveAll if call.is_held => {
                Reply::Failed(Cause::InUse, None, 0)
            }
            Kind::ReserveAll => Reply::Failed(Cause::Full, None, 0),
            Kind::Reserve => Reply::Done,
            Kind::Hold => Reply::Flag(!call.is_held),
            Kind::BinarySearch | Kind::BinarySearchBy | Kind::BinarySearchByKey => {
                Reply::Search(self.search(call.value))
            }
            Kind::PartitionPoint => match self.search(call.value) {
                Ok(index) => Reply::Count(index),
                Err(index) => Reply::Count(index),
            },
            _ => self.insertion(call),
        }
    }

    /// Does to the list what a call with this reply does.
    ///
    /// # Errors
    /// Fails if an allocation fails.
    pub fn follow(&mut self, call: Call, reply: Reply) -> Result<(), AllocError> {
        if call.kind == Kind::Keep {
            self.keep();
        }
        if is_new(reply) {
            let index = self.len();
            if let Some(at) = self.indices.get_mut(call.key as usize) {
                *at = Some(index);
            }
            self.entries.push((call.key, call.value))?;
        }
        if reply == Reply::Done {
            self.room = self.room.max(self.len() + call.value as usize);
        }
        Ok(())
    }
}

/// Returns whether a reply is that of the insertion of a new entry.
pub fn is_new(reply: Reply) -> bool {
    matches!(
        reply,
        Reply::Inserted(Entry {
            is_new: Some(true),
            ..
        })
    )
}
