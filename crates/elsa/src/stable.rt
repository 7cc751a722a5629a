//! What an arena stores.
pub use elsa_vec::stable::{Own, Shelf, StableDeref};
