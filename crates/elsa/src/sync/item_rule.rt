//! Which items a concurrent vector accepts.
pub use elsa_lock_free::item_rule::{DistinctItems, ItemRule};
