//! [`FrozenVec`]: a list that grows through `&self` and owns its items. As an arena, its name is
//! [`TypedArena`](arena::TypedArena).
//!
//! The maps and sets of `elsa_cell` are built on its state ([`state`]), which a call takes out of
//! the collection and puts back ([`shared`]), on the items so far ([`items`]), and on what was
//! observed of them ([`observed`], [`views`]).
#![tactic(auto)]

pub mod arena;
pub mod fault;
pub mod invariant;
pub mod items;
mod kept;
pub mod list_cell;
pub mod observed;
mod search;
pub mod shared;
pub mod state;
pub mod vec;
pub mod views;

pub use fault::{CellFault, Fault, InUse};
pub use invariant::{Invariant, OfList};
pub use items::Items;
pub use observed::{Iter, Observed, Seen};
pub use vec::{FrozenVec, Hold};
