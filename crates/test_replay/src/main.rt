//! Runs a script of calls, one in each line, on the collections of this repository, and prints an
//! output line for each. A line is `COLLECTION CALL FIRST SECOND`.
//!
//! The stored output is that of upstream's own collections for the same script
//! (`tools/make_replay`).
#![tactic(auto)]

use bumpalo::Bump;
use elsa::{FrozenBTreeMap, FrozenIndexMap, FrozenIndexSet, FrozenMap, FrozenVec, sync};
use std::alloc::{AllocError, Global};
use std::io;
use std::sync::Wait;

/// One collection of each type.
#[derive(Drop)]
struct All<'a> {
    vec: FrozenVec<'a, String>,
    map: FrozenMap<'a, u64, String>,
    tree: FrozenBTreeMap<'a, u64, String>,
    index_map: FrozenIndexMap<'a, u64, String>,
    index_set: FrozenIndexSet<'a, String>,
    locked_map: sync::FrozenMap<u64, String>,
    locked_tree: sync::FrozenBTreeMap<u64, String>,
    locked_vec: sync::FrozenVec<String>,
    free: sync::LockFreeFrozenVec<u64>,
}

/// Writes what a call returned, which fits the pattern, or `none`.
macro_rules! some {
    ($alloc:ident, $found:expr, $pattern:pat => $($text:tt)+) => {
        match $found {
            Some($pattern) => format!(in $alloc; $($text)+),
            None => String::from_str($alloc, "none"),
        }
    };
}

/// Writes these texts with a space between them.
fn joined(
    alloc: Global,
    texts: impl Iterator<Item = Result<String, AllocError>> + Drop,
) -> Result<String, AllocError> {
    let mut all = String::new(alloc);
    for (index, text) in texts.enumerate() {
        all.push_str(if index > 0 { " " } else { "" })?;
        all.push_str(text?.as_str())?;
    }
    Ok(all)
}

/// Makes the call of a line, and returns its output.
fn answer<R: Wait>(
    rt: &R,
    alloc: Global,
    all: &mut All<'_>,
    line: &str,
) -> Result<String, AllocError> {
    let mut words = line.split(' ');
    let [form, call, first, second] = [(); 4].map(|()| words.next().unwrap_or(""));
    let (key, index) = (
        first.parse::<u64>().unwrap_or(0),
        first.parse::<usize>().unwrap_or(0),
    );
    let owned = |text: &str| String::from_str(alloc, text);
    let pair = |it: &(u64, &str)| format!(in alloc; "{}={}", it.0, it.1);
    let place = |found: Result<usize, usize>| match found {
        Ok(index) => format!(in alloc; "at {index}"),
        Err(index) => format!(in alloc; "before {index}"),
    };
    match (form, call) {
        ("vec", "push") => all.vec.push(owned(first)?).and_then(|()| owned("done")),
        ("vec", "push_get") => owned(all.vec.push_get(owned(first)?)?),
        ("vec", "get") => some!(alloc, all.vec.get(index), it => "{it}"),
        ("vec", "first") => some!(alloc, all.vec.first(), it => "{it}"),
        ("vec", "last") => some!(alloc, all.vec.last(), it => "{it}"),
        ("vec", "len") => format!(in alloc; "{}", all.vec.len()),
        ("vec", "is_empty") => format!(in alloc; "{}", all.vec.is_empty()),
        ("vec", "all") => joined(alloc, all.vec.iter().map(owned)),
        ("vec", "search") => place(all.vec.binary_search(first)),
        ("vec", "search_length") => {
            place(all.vec.binary_search_by_key(&index, |text| text.len()))
        }
        ("vec", "shorter") => {
            format!(in alloc; "{}", all.vec.partition_point(|text| text.len() < index))
        }
        ("map", "insert") => owned(all.map.insert(key, owned(second)?)?),
        ("map", "get") => some!(alloc, all.map.get(&key), it => "{it}"),
        ("map", "length_at") => {
            some!(alloc, all.map.map_get(&key, |text| text.len()), it => "{it}")
        }
        ("map", "len") => format!(in alloc; "{}", all.map.len()),
        ("map", "is_empty") => format!(in alloc; "{}", all.map.is_empty()),
        ("tree", "insert") => owned(all.tree.insert(key, owned(second)?)?),
        ("tree", "get") => some!(alloc, all.tree.get(&key), it => "{it}"),
        ("tree", "length_at") => {
            some!(alloc, all.tree.map_get(&key, |text| text.len()), it => "{it}")
        }
        ("tree", "len") => format!(in alloc; "{}", all.tree.len()),
        ("tree", "is_empty") => format!(in alloc; "{}", all.tree.is_empty()),
        ("tree", "pairs") => joined(alloc, all.tree.clone()?.into_tuple_vec()?.iter().map(pair)),
        ("index_map", "insert") => owned(all.index_map.insert(key, owned(second)?)?),
        ("index_map", "insert_full") => {
            let (index, kept) = all.index_map.insert_full(key, owned(second)?)?;
            format!(in alloc; "{index} {kept}")
        }
        ("index_map", "get") => some!(alloc, all.index_map.get(&key), it => "{it}"),
        ("index_map", "is_empty") => format!(in alloc; "{}", all.index_map.is_empty()),
        ("index_map", "pairs") => {
            joined(
                alloc,
                all.index_map.clone()?.into_tuple_vec()?.iter().map(pair),
            )
        }
        ("index_map", "get_index_of") => {
            some!(alloc, all.index_map.get_index_of(&key), it => "{it}")
        }
        ("index_map", "get_index") => {
            some!(alloc, all.index_map.get_index(index), (key, text) => "{key}={text}")
        }
        ("index_map", "get_full") => {
            some!(alloc, all.index_map.get_full(&key), (at, key, text) => "{at} {key}={text}")
        }
        ("index_set", "insert") => owned(all.index_set.insert(owned(first)?)?),
        ("index_set", "insert_full") => {
            let (index, kept) = all.index_set.insert_full(owned(first)?)?;
            format!(in alloc; "{index} {kept}")
        }
        ("index_set", "get") => some!(alloc, all.index_set.get(&first), it => "{it}"),
        ("index_set", "get_index_of") => {
            some!(alloc, all.index_set.get_index_of(&first), it => "{it}")
        }
        ("index_set", "get_index") => some!(alloc, all.index_set.get_index(index), it => "{it}"),
        ("index_set", "get_full") => {
            some!(alloc, all.index_set.get_full(&first), (index, text) => "{index} {text}")
        }
        ("locked_map", "insert") => owned(all.locked_map.insert(rt, key, owned(second)?)?.as_str()),
        ("locked_map", "get") => some!(alloc, all.locked_map.get(rt, &key)?, it => "{}", *it),
        ("locked_map", "len") => format!(in alloc; "{}", all.locked_map.len(rt)),
        ("locked_tree", "insert") => {
            owned(all.locked_tree.insert(rt, key, owned(second)?)?.as_str())
        }
        ("locked_tree", "get") => some!(alloc, all.locked_tree.get(rt, &key)?, it => "{}", *it),
        ("locked_tree", "len") => format!(in alloc; "{}", all.locked_tree.len(rt)),
        ("locked_vec", "push_get_index") => {
            format!(in alloc; "{}", all.locked_vec.push_get_index(rt, owned(first)?)?)
        }
        ("locked_vec", "get") => some!(alloc, all.locked_vec.get(rt, index)?, it => "{}", *it),
        ("locked_vec", "len") => format!(in alloc; "{}", all.locked_vec.len(rt)),
        ("free", "push") => format!(in alloc; "{}", all.free.push(rt, key)?),
        ("free", "get") => some!(alloc, all.free.get(index), it => "{it}"),
        ("free", "len") => format!(in alloc; "{}", all.free.len()),
        _ => format!(in alloc; "no call: {line}"),
    }
}

fn main(rt: HostRuntime) -> io::Result<()> {
    let (alloc, arena) = (rt.alloc(), Bump::new(rt.alloc()));
    let mut all = All {
        vec: FrozenVec::new(alloc, &arena),
        map: FrozenMap::new(alloc, &arena),
        tree: FrozenBTreeMap::new(alloc, &arena),
        index_map: FrozenIndexMap::new(alloc, &arena),
        index_set: FrozenIndexSet::new(alloc, &arena),
        locked_map: sync::FrozenMap::new(alloc),
        locked_tree: sync::FrozenBTreeMap::new(alloc),
        locked_vec: sync::FrozenVec::new(alloc),
        free: sync::LockFreeFrozenVec::new(alloc)?,
    };
    let stdin = rt.stdin();
    for line in stdin.lines(alloc) {
        let answer = answer(&rt, alloc, &mut all, line?.as_str())?;
        rt.println(answer)?;
    }
    Ok(())
}
