//! A vector that only grows.
//!
//! Contracts see a [`VecState`] as the list of its values. [`FrozenVec`] is such a vector under a
//! lock, and [`Iter`] iterates over one that may grow meanwhile.

mod frozen_vec;
mod vec_state;

pub use frozen_vec::{FrozenVec, Iter};
pub use vec_state::VecState;
