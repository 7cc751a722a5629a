//! The memory of a concurrent vector.
pub use elsa_slots::slots::Slots;
