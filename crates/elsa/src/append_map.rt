//! The map for large collections.
pub use elsa_buckets::append_map::{AppendMap, RoomFault};
pub use elsa_maps::map::FrozenAppendMap;
