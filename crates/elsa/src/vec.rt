//! The vector, also over any arena, and what walks over it.
pub use elsa_vec::vec::{Cursor, FrozenVec, FrozenVecIn, Iter};
