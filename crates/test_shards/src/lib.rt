//! Tests of the collections that threads share: the script of `test_model` for all of them, also
//! for the locked ones compared with their states; drops, also under a lock; and the maps of
//! shards, in which every shard is used, a key is found in the shard into which it was inserted, by
//! any query and any thread, and each entry comes out once.
#![tactic(auto)]

#[cfg(test)]
mod drop_tests;
#[cfg(test)]
mod interners;
#[cfg(test)]
mod lists;
#[cfg(test)]
mod lock_free_maps;
#[cfg(test)]
mod locked_maps;
#[cfg(test)]
mod moved_tests;
#[cfg(test)]
mod script_tests;
#[cfg(test)]
mod shard_tests;
