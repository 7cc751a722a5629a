//! The hashed and the ordered map, also over any arena.
pub use elsa_maps::map::{
    FrozenBTreeMap, FrozenBTreeMapIn, FrozenMap, FrozenMapIn, InsertFault, MapForm, laws,
};
