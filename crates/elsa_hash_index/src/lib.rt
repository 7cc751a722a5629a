//! The hash index of a concurrent map whose lookups take no lock. An index entry is a tag, 8 bits
//! of a key's hash, and a number, the key's index plus 1. Each of them changes once, from 0, so
//! what a thread has observed of the index entries stays true forever.
//!
//! A [`row`] is one hash index: an array of index entries. [`probe`] finds an index in a row and
//! enters one, while other threads enter others. [`entry`] defines what an entry of a list contains
//! so that its row finds each key of the list: evidence without bytes of what was entered in that
//! row.
#![tactic(auto)]

pub mod entry;
pub mod probe;
pub mod row;
