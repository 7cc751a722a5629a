//! Collections that grow through `&self` and own their values: the caller passes in no arena, and a
//! borrow lasts as long as the collection.
#![tactic(auto)]

mod fault;
mod hashed;
pub mod index_set;
mod indices;
pub mod map;
mod map_as;
mod map_hold;
mod map_state;
mod ordered;
mod scan;

pub use elsa_arena::fault::{CellFault, Fault, InUse};
pub use elsa_arena::invariant::{Invariant, OfList};
pub use elsa_arena::items::Items;
pub use elsa_arena::observed::{Iter, Observed, Seen};
pub use elsa_arena::vec::{FrozenVec, Hold};
pub use elsa_arena::{observed, vec};
pub use elsa_buckets::query::Query;
pub use elsa_tables::{AnyEntries, EntryRule};
pub use fault::TryFault;
pub use hashed::{FrozenIndexMap, FrozenMap, Hashed, MapHold};
pub use index_set::{FrozenIndexSet, FrozenSet};
pub use indices::{Indices, KeyList, Seeks};
pub use map::{Entry, Frozen};
pub use map_hold::FrozenHold;
pub use map_state::{ObservedEntries, OfMap, SeenEntries};
pub use ordered::{Ascending, BTreeHold, FrozenBTreeMap, OrderQuery, Ordered};
