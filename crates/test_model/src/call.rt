//! A call of the script, its reply, and what a collection has to have for the script.

/// The calls. A collection makes those that it has.
#[derive(Clone, Copy, Debug, PartialEq, Eq)]
pub enum Kind {
    Insert,
    Push,
    InsertNew,
    InsertFull,
    InsertRef,
    TryInsert,
    TryInsertRef,
    InsertWith,
    InsertWithKey,
    TryInsertWith,
    /// An insertion by a closure that fails.
    InsertFails,
    InsertBy,
    GetOrTryInsert,
    /// `insert_new_as` or `push_as`.
    InsertAs,
    InsertByGuard,
    /// `extend` by an entry, and in a map or set by another one with the same key.
    Extend,
    ExtendByGuard,
    GetCopyOrInsert,
    GetCopyOrInsertWith,
    GetCopyOrInsertWithKey,
    Get,
    GetRef,
    GetCopy,
    GetFull,
    /// A look-up in what is observed `since` the evidence that is as old as the collection.
    GetSince,
    /// A look-up in what was observed, after `observe`.
    GetObserved,
    GetFullObserved,
    GetFullByGuard,
    Find,
    ContainsKey,
    MapGet,
    GetIndex,
    GetIndexObserved,
    /// `observed` or `handle`, which is kept for the look-ups as of that moment.
    Keep,
    SeenGet,
    SeenGetFull,
    SeenLen,
    First,
    Last,
    Least,
    Greatest,
    Len,
    Observe,
    LenByGuard,
    IsEmpty,
    IsFull,
    Iter,
    IterRefs,
    News,
    /// `keys_cloned`.
    Keys,
    /// `for_each_in_range`, from the key on.
    WalkFrom,
    /// `clone`, and `equals` of copies, to one of which another key is then added.
    Clone,
    /// `equals` with a collection that has another value of the key.
    Equals,
    Reserve,
    /// `reserve` of more room than a collection may have.
    ReserveAll,
    Hold,
    BinarySearch,
    BinarySearchBy,
    BinarySearchByKey,
    PartitionPoint,
}

/// The insertions.
pub const INSERTIONS: [Kind; 20] = [
    Kind::Insert,
    Kind::Push,
    Kind::InsertNew,
    Kind::InsertFull,
    Kind::InsertRef,
    Kind::TryInsert,
    Kind::TryInsertRef,
    Kind::InsertWith,
    Kind::InsertWithKey,
    Kind::TryInsertWith,
    Kind::InsertFails,
    Kind::InsertBy,
    Kind::GetOrTryInsert,
    Kind::InsertAs,
    Kind::InsertByGuard,
    Kind::Extend,
    Kind::ExtendByGuard,
    Kind::GetCopyOrInsert,
    Kind::GetCopyOrInsertWith,
    Kind::GetCopyOrInsertWithKey,
];

/// The other calls.
pub const OTHERS: [Kind; 40] = [
    Kind::Get,
    Kind::GetRef,
    Kind::GetCopy,
    Kind::GetFull,
    Kind::GetSince,
    Kind::GetObserved,
    Kind::GetFullObserved,
    Kind::GetFullByGuard,
    Kind::Find,
    Kind::ContainsKey,
    Kind::MapGet,
    Kind::GetIndex,
    Kind::GetIndexObserved,
    Kind::Keep,
    Kind::SeenGet,
    Kind::SeenGetFull,
    Kind::SeenLen,
    Kind::First,
    Kind::Last,
    Kind::Least,
    Kind::Greatest,
    Kind::Len,
    Kind::Observe,
    Kind::LenByGuard,
    Kind::IsEmpty,
    Kind::IsFull,
    Kind::Iter,
    Kind::IterRefs,
    Kind::News,
    Kind::Keys,
    Kind::WalkFrom,
    Kind::Clone,
    Kind::Equals,
    Kind::Reserve,
    Kind::ReserveAll,
    Kind::Hold,
    Kind::BinarySearch,
    Kind::BinarySearchBy,
    Kind::BinarySearchByKey,
    Kind::PartitionPoint,
];

/// Returns whether a call is an insertion.
pub fn is_insertion(kind: Kind) -> bool {
    INSERTIONS.iter().any(|it| *it == kind)
}

impl Kind {
    /// Returns whether the call has an index where others have a key.
    pub fn has_index(self) -> bool {
        matches!(self, Kind::GetIndex | Kind::GetIndexObserved)
    }

    /// Returns whether the call visits each entry, so that it is made seldom.
    pub fn visits_all(self) -> bool {
        matches!(
            self,
            Kind::Least
                | Kind::Greatest
                | Kind::Iter
                | Kind::IterRefs
                | Kind::News
                | Kind::Keys
                | Kind::WalkFrom
                | Kind::Clone
                | Kind::Equals
        )
    }

    /// Returns how often an insertion of an absent key calls its closure.
    pub fn closure_calls(self) -> u64 {
        match self {
            Kind::InsertWith
            | Kind::InsertWithKey
            | Kind::TryInsertWith
            | Kind::InsertFails
            | Kind::InsertBy
            | Kind::GetOrTryInsert
            | Kind::GetCopyOrInsertWith
            | Kind::GetCopyOrInsertWithKey => 1,
            _ => 0,
        }
    }

    /// Returns whether an insertion finds a present key also while a guard exists.
    pub fn reads_first(self) -> bool {
        matches!(self, Kind::InsertBy | Kind::GetOrTryInsert)
    }
}

/// A call with its key and its value.
#[derive(Clone, Copy, Debug)]
pub struct Call {
    pub kind: Kind,
    /// The key. In a call by an index it is the index.
    pub key: u64,
    pub value: u64,
    /// Whether a guard of the collection exists during the call.
    pub is_held: bool,
    /// Whether the second of two handles makes the call.
    pub by_other: bool,
}

/// What an insertion returns: the value that the key then has, the parts that not every insertion
/// returns, and how often it called its closure.
#[derive(Clone, Copy, Debug, PartialEq, Eq)]
pub struct Entry {
    pub value: Option<u64>,
    pub index: Option<usize>,
    pub is_new: Option<bool>,
    pub calls: u64,
}

/// Why a call failed.
#[derive(Clone, Copy, Debug, PartialEq, Eq)]
pub enum Cause {
    Memory,
    InUse,
    Full,
    /// Another thread had the lock.
    Busy,
    /// The closure failed.
    Closure,
}

/// The reply of a call.
#[derive(Clone, Copy, Debug, PartialEq, Eq)]
pub enum Reply {
    /// The collection has no such call.
    NotOffered,
    Done,
    Inserted(Entry),
    Value(Option<u64>),
    /// An index with its key and its value.
    Full(Option<(usize, u64, u64)>),
    Pair(Option<(u64, u64)>),
    Index(Option<usize>),
    Count(usize),
    Flag(bool),
    Search(Result<usize, usize>),
    /// The number of entries of a walk, and a sum over them.
    Walk(usize, u64),
    /// The cause, the value that came back, and how often the closure was called.
    Failed(Cause, Option<u64>, u64),
    /// The number of requests for memory of a call that needs none.
    Requests(u64),
    /// The number of values that were made and not yet dropped.
    Alive(u64),
}

/// The reply of a call whose allocation failed.
pub fn no_memory(calls: u64) -> Reply {
    Reply::Failed(Cause::Memory, None, calls)
}

/// The reply of an insertion with the parts that it returns.
pub fn inserted(value: Option<u64>, index: Option<usize>, is_new: Option<bool>) -> Reply {
    made(value, index, is_new, 0)
}

/// The reply of an insertion that called its closure this often.
pub fn made(value: Option<u64>, index: Option<usize>, is_new: Option<bool>, calls: u64) -> Reply {
    Reply::Inserted(Entry {
        value,
        index,
        is_new,
        calls,
    })
}

/// A walk over entries. Its sum depends on their order, unless the walk has none.
#[derive(Clone, Copy)]
pub struct Walk {
    count: usize,
    sum: u64,
    is_in_order: bool,
}

impl Walk {
    pub fn new(is_in_order: bool) -> Walk {
        Walk {
            count: 0,
            sum: 0,
            is_in_order,
        }
    }

    /// Adds the next entry.
    pub fn add(&mut self, key: u64, value: u64) {
        let index = if self.is_in_order {
            self.count as u64
        } else {
            0
        };
        let entry = key
            .wrapping_mul(0x9e37_79b9_7f4a_7c15)
            .wrapping_add(value)
            .wrapping_mul(31)
            .wrapping_add(index);
        self.sum = self.sum.wrapping_add(entry.wrapping_mul(entry | 1));
        self.count += 1;
    }

    /// Adds the next item of a list, whose key is its index.
    pub fn add_item(&mut self, item: u64) {
        self.add(self.count as u64, item);
    }

    pub fn reply(self) -> Reply {
        Reply::Walk(self.count, self.sum)
    }
}

/// A collection that makes the calls of a script.
pub trait Calls {
    /// Returns the key of the next insertion into a collection of `count` entries: the given one,
    /// or in a list the next index.
    fn key(&self, drawn: u64, _count: u64) -> u64 {
        drawn
    }

    /// Returns the value that an insertion of this key stores: the given one, or in a set the key.
    fn stored(&self, _key: u64, value: u64) -> u64 {
        value
    }

    /// Returns whether a call may be made while a guard of the collection exists.
    fn has_guard(&self) -> bool {
        false
    }

    /// Returns whether walks are in the order of insertion.
    fn is_in_order(&self) -> bool {
        true
    }

    /// Returns the greatest number of entries.
    fn most(&self) -> usize {
        4_294_967_295
    }

    /// Returns whether insertions in reserved room need no memory.
    fn keeps_room(&self) -> bool {
        false
    }

    /// Returns whether an insertion that fails for lack of memory had called its closure.
    fn makes_first(&self) -> bool {
        true
    }

    /// Returns whether such an insertion returns its value.
    fn gives_back(&self, _kind: Kind) -> bool {
        false
    }

    /// Returns whether a call that inserts nothing may request memory.
    fn may_ask(&self, _kind: Kind) -> bool {
        false
    }

    /// Returns the number of counted values that were made and not yet dropped, and the number that
    /// a collection of `count` entries has of them.
    fn alive(&self, _count: u64) -> (u64, u64) {
        (0, 0)
    }

    /// Makes a call, and returns its reply.
    fn reply(&mut self, call: Call) -> Reply;
}
