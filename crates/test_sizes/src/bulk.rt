//! Thousands of entries at once by `extend`, against a plain list.
use crate::grows::{Grows, key_at};
use crate::script::{Plan, Unlike, same};
use std::alloc::{AllocError, Global};
use test_alloc::Budget;

/// Extends an empty collection, and compares it with some of the pairs, in their order: it has the
/// first value of each key, and all of them exactly if no allocation failed. Returns the first
/// difference.
pub fn filled<G: Grows>(
    alloc: Global,
    heap: &Budget<Global>,
    grown: &mut G,
    plan: Plan,
) -> Result<Option<Unlike>, AllocError> {
    let (mut draws, count) = plan.parts();
    let below = draws.below(count).max(1);
    let mut seen: Vec<bool> = Vec::new(alloc);
    seen.resize(below as usize, false)?;
    heap.refuse(draws.below(20), u64::MAX);
    let done = grown.fill(count, below);
    heap.refuse_next(0);
    let (mut kept, mut ended) = (0, false);
    for index in 0..count {
        let key = key_at(index, below);
        if std::mem::replace(&mut seen[key as usize], true) {
            continue;
        }
        let got = grown.get(key);
        ended = ended || got.is_none();
        let wanted = (!ended).then(|| grown.stored(key, index));
        if let Err(unlike) = same("get", key, got, wanted) {
            return Ok(Some(unlike));
        }
        if !ended && !grown.has_index(key, kept) {
            return Ok(same("index", key, None, Some(kept as u64)).err());
        }
        kept += !ended as usize;
    }
    if done.is_err() != ended {
        return Ok(same("extend", below, None, Some(kept as u64)).err());
    }
    let count = grown.count() as u64;
    Ok(same("count", below, Some(count), Some(kept as u64)).err())
}
