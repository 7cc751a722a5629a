//! The index set, and what finds its values.
pub use elsa_index::index_set::{FrozenIndexSet, FrozenIndexSetIn};
pub use elsa_index::look_up::LookUp;
