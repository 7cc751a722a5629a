//! Collections that grow through `&self` and own their values.
//!
//! The caller passes in no arena, and a borrow lasts as long as the collection.
pub use elsa_arena::fault::{CellFault, Fault, InUse};
pub use elsa_arena::items::Items;
pub use elsa_arena::observed::{Observed, Seen};
pub use elsa_arena::vec::{FrozenVec, Hold};
pub use elsa_buckets::query::Query;
pub use elsa_cell::{
    BTreeHold, Entry, FrozenBTreeMap, FrozenIndexMap, FrozenIndexSet, FrozenMap, FrozenSet,
    MapHold, ObservedEntries, OrderQuery, SeenEntries, TryFault,
};
