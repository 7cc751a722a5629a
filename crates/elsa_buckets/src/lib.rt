//! A hash table that maps hashes to indices, for a collection that stores its items in a list of
//! its own.
//!
//! [`table::IndexTable`] finds the index of an item by the item's hash. Its buckets are in groups
//! of twelve. Each bucket has an index and a tag of 8 bits of the item's hash, and the tags of a
//! group are compared at once. The table doesn't see the items: the caller of a search decides
//! which index is the right one. A search that finds nothing ends at the bucket into which the
//! item's index would go, so an item that is looked up and then added is searched for once.
//!
//! [`query`] has the values by which a collection looks its keys up in such a table.
//! [`append_map::AppendMap`] is the map for large collections: its entries are in a list, in the
//! order of their insertion, next to such a table. It implements [`Table`](elsa_tables::Table), so
//! all code over any map implementation works with it.
#![tactic(auto)]

pub mod append_map;
mod groups;
pub mod query;
mod seek;
pub mod table;
