//! Maps and an interner that threads share, divided into shards by the hash of the key. Calls with
//! keys of different shards don't wait for each other. A [`ShardedMap`] has a lock in each shard;
//! the look-ups of a [`LockFreeShardedMap`] and of a [`ShardedInterner`] take none.
#![tactic(auto)]

pub mod interner;
pub mod lock_free;
pub mod map;

pub use interner::{ShardedInterner, ShardedNameHandle};
pub use lock_free::{LockFreeShardedMap, ShardedHandle};
pub use map::ShardedMap;
