//! The vector that threads read without a lock.
pub use elsa_lock_free::lock_free::{Handle, LockFreeFrozenVec, Pass};
