//! The locked maps, and their states, whose contracts define the effect of each call.
pub use elsa_locks::map::{FrozenBTreeMap, FrozenMap, MapState, TreeState};
