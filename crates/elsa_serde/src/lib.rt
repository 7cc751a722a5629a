//! Collections written and read by serde.
//!
//! [`Stored`] writes a collection to any `Serializer`: `serde_json::to_string(alloc,
//! &Stored(&names))`. Reading takes two steps, because a `Deserialize` has no arena: a format reads
//! [`Names`], [`Items`] or [`Entries`], whole and in order, and a second call inserts them into a
//! collection over the caller's arena. That call fails with a [`ReadFault`] if a name, a value of a
//! set or a key of a map occurs twice; a vector takes any items, and a map takes entries in any
//! order. [`laws`] has what is promised of a collection that is written and read.
#![tactic(auto)]

mod entries;
mod fault;
mod items;
pub mod laws;
mod names;
mod read_item;
mod stored;

pub use entries::Entries;
pub use fault::ReadFault;
pub use items::Items;
pub use names::Names;
pub use read_item::ReadItem;
pub use stored::Stored;
