//! Maps in which the first value of a key stays.
//!
//! A [`State`] is a map over a table; contracts see it as the list of its entries. A [`Locked`] is
//! such a map under a lock. [`MapState`] and [`FrozenMap`] are the two over a hash table,
//! [`TreeState`] and [`FrozenBTreeMap`] the two over an ordered table.

mod frozen_btree_map;
mod frozen_map;
mod hashed_state;
mod locked;
mod ordered_state;
mod state;
mod text_keys;
mod walks;

pub use elsa_tables::{AnyEntries, EntryRule};
pub use frozen_btree_map::FrozenBTreeMap;
pub use frozen_map::FrozenMap;
pub use hashed_state::MapState;
pub use locked::Locked;
pub use ordered_state::TreeState;
pub use state::State;
