//! The collections that threads share.
//!
//! A locked collection is locked only during a call. A call that can block requires the permission
//! to block (`Wait`). Reads of a [`LockFreeFrozenVec`] and look-ups of a [`LockFreeFrozenMap`]
//! never block. A [`ShardedMap`] and a [`LockFreeShardedMap`] are maps of shards, for many threads
//! that insert. [`history`] has the recorder, [`machine`] the model of every schedule of the
//! concurrent vector, and [`tie`] the law that ties it to the vector.
pub use elsa_lock_free::lock_free::{Handle, LockFreeFrozenVec, Pass, VectorHistory};
pub use elsa_lock_free::may_lock::{AttemptFault, LockPermit};
pub use elsa_lock_free_map::handle::MapHandle;
pub use elsa_lock_free_map::map::{LockFreeFrozenMap, MapHistory, MapPass};
pub use elsa_lock_free_map::once::{Made, OnceMap, OnceValue};
pub use elsa_locks::map::{FrozenBTreeMap, FrozenMap};
pub use elsa_locks::vec;
pub use elsa_locks::vec::{FrozenVec, Iter};
pub use elsa_machine::{machine, tie};
pub use elsa_shards::{LockFreeShardedMap, ShardedHandle, ShardedMap};
pub use elsa_slots::geometry;
pub use elsa_tables::Inserted;

pub mod history;
pub mod item_rule;
pub mod lock_free;
pub mod map;
pub mod slots;
