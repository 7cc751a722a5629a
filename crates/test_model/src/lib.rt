//! The script of random calls that the tests of collections share, and the plain list whose
//! replies each collection has to give.
//!
//! A collection implements [`call::Calls`]. A [`script::Script`] draws calls, makes each by the
//! collection and by a [`plain::Plain`] list, and stops at the first whose reply differs. It denies
//! requests for memory, and it compares the number of living values after each call.
#![tactic(auto)]

pub mod call;
pub mod draws;
pub mod plain;
pub mod script;
