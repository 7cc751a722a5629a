//! [`TypedArena`], the name of a [`FrozenVec`] as an arena.
use crate::vec::FrozenVec;
use std::alloc::Global;

/// An arena of values that may own memory: each is stored once through `&self`, borrowed for as
/// long as the arena is, and dropped with it. It is a [`FrozenVec`].
pub type TypedArena<T, A = Global> = FrozenVec<T, A>;
