//! Tests of the locked collections and the recorder, used as by any other crate, also with
//! allocation failures.
#![tactic(auto)]

/// Runs a test with a map that is hashed, and then with one that is in order, and its kind.
macro_rules! each_map {
    ($alloc:expr, $key:ty, $value:ty; $map:ident, $kind:ident => $body:block) => {
        {
            let $map: elsa_locks::map::FrozenMap<$key, $value> =
                elsa_locks::map::FrozenMap::new($alloc);
            let $kind = "hashed";
            $body
        }
        {
            let $map: elsa_locks::map::FrozenBTreeMap<$key, $value> =
                elsa_locks::map::FrozenBTreeMap::new($alloc);
            let $kind = "ordered";
            $body
        }
    };
}

#[cfg(test)]
mod beside;
#[cfg(test)]
mod keys;
#[cfg(test)]
mod marks;
#[cfg(test)]
mod printed;
#[cfg(test)]
mod recorder_refusals;
#[cfg(test)]
mod recordings;
#[cfg(test)]
mod refusals;
#[cfg(test)]
mod sharing;
#[cfg(test)]
mod tables;
#[cfg(test)]
mod texts;
#[cfg(test)]
mod unlocked;
#[cfg(test)]
mod worked;
