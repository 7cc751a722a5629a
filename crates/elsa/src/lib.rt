//! Append-only collections, whose references stay valid while the collection grows.
//!
//! The paths are those of Rust's `elsa`. The single-threaded collections are at the root: the
//! borrows that their reads return are valid as long as the arena that the caller passes in. The
//! collections in [`cell`] grow through `&self` and own their values, and threads share those in
//! [`sync`]. [`interner`] has the interners. [`shared`] has the workers of the program `elsa`, and
//! [`job`] reads its arguments.
//!
//! Parts of the collections, such as the map over any table, are only at the paths of their crates
//! (`elsa_maps::map::Frozen`): name the crate in your line of crates.txt.
#![tactic(auto)]

pub use elsa_arena::arena::TypedArena;
pub use elsa_cache as cache;
pub use elsa_hash::seeded::SeededState;
pub use elsa_index::index_laws;
pub use elsa_index::index_set::{FrozenIndexSet, FrozenSet};
pub use elsa_index::look_up::LookUp;
pub use elsa_maps::index_map;
pub use elsa_maps::index_map::FrozenIndexMap;
pub use elsa_maps::map::{FrozenAppendMap, FrozenBTreeMap, FrozenBTreeSet, FrozenMap, MapForm};
pub use elsa_program::command::job;
pub use elsa_program::{Job, shared};
pub use elsa_run::run;
pub use elsa_tables::EntryRule;
pub use elsa_vec::stable::{Own, StableDeref};
pub use elsa_vec::vec::FrozenVec;
pub use elsa_vec::vec_laws;

pub mod append_map;
pub mod cell;
pub mod index_set;
pub mod interner;
pub mod map;
pub mod stable;
pub mod sync;
pub mod vec;
