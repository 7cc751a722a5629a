//! Times the collections, for `bench/run`, which compares them with upstream's.
//!
//! `elsa_bench FORM THREADS COUNT` prints the nanoseconds from the start of the threads to the end
//! of the last one, and a sum of what was read, so that no read is optimized away. `FORM` is one of
//! these:
//!
//! - The locked map: `copy` and `owner` (COUNT calls in all, a tenth of them insertions, with
//!   65,536 keys), `copy_few` (`copy` with 256 keys), `recorded` (the calls of `copy` through a
//!   recorder). `shards_copy` and `shards_owner` are the same for the locked map of shards.
//! - `LockFreeFrozenVec`: `push` (COUNT pushes in all), `extend` (the same in batches of 64),
//!   `seen`, `plain` and `growing` (COUNT reads in all), `walk` (ten walks over COUNT items),
//!   `exchange` (COUNT times two exchanges of one word). `seen` and `plain` may be followed by
//!   `_in_order`, and all three reads by `_beside`: another thread then pushes meanwhile.
//! - The collections of one thread, which ignore THREADS: `vec_push`, `vec_get`, `vec_walk`,
//!   `vec_clone`, `vec_collect`; `map_insert`, `map_get`, `tree_insert`, `tree_get`,
//!   `index_map_insert`, `index_map_get`, `index_map_at`; the same with `_text` before the call,
//!   for texts as keys (except for `index_map_at`); `append_map_insert`, `append_map_get`;
//!   `map_longest` and `append_map_longest` (the longest of COUNT insertions); `map_clone`,
//!   `map_collect`, `append_map_clone` and `append_map_collect`. Walks, clones and collections are
//!   made ten times.
//! - `FrozenAppendMap` with the first COUNT lines of standard input as keys, `put ` before each of
//!   them left out: `lines_default` (insertions, with the default hasher), `lines_seeded` (with
//!   `SeededState`).
//! - Interners that all threads put the first COUNT lines of standard input into, each thread its
//!   part of them: `lines_shared`, `lines_shards`, and `lines_copied` (a lock-free map of copies of
//!   the texts, which is what `elsa_c` has).
//! - Interners: `names_zipf` and `names_distinct` (COUNT puts of names in all, into a shared
//!   interner), `shards_names_zipf` and `shards_names_distinct` (the same into an interner of
//!   shards), `texts_zipf` and `texts_distinct` (short-lived texts, put into a shared interner by
//!   one thread), `alone_zipf` and `alone_distinct` (into the interner of one thread).
//! - `LockFreeFrozenMap`: `free_insert_zipf` and `free_insert_distinct` (COUNT insertions in all),
//!   `free_get_zipf`, `free_get_present` and `free_get_absent` (COUNT look-ups in all: of 65,535
//!   keys by Zipf's law, of a million present keys, of a million absent ones). The look-ups may be
//!   followed by `_beside`: another thread then inserts meanwhile. `free_longest` is the longest of
//!   COUNT insertions by one thread. All of them after `shards_` are for the lock-free map of
//!   shards.
//! - The lock-free vector and map of values that own memory, read by reference: `owned_vec_arc`,
//!   `owned_vec_text`, `owned_map_arc` and `owned_map_text` (COUNT reads in all).
//! - `cell::FrozenVec`: `cell_vec_push`, `cell_vec_get` and `cell_vec_walk` (ten times), and
//!   `cell::FrozenMap`: `cell_map_insert` and `cell_map_get`, as those of the collections of one
//!   thread.
//! - Collections of COUNT entries, with the number of repetitions instead of THREADS: `map`,
//!   `map_text`, `append_map`, `append_map_text`, `index_map`, `tree`, `cell_map` and `cell_tree`,
//!   each followed by `_fill` (made, filled and dropped), `_present` or `_absent` (COUNT look-ups);
//!   `vec_fill` and `numbers_fill` (a `TypedArena` of numbers); `map`, `index_map` and `tree`
//!   followed by `_walks` or `_copies`; `vec_walks`.
//! - `TypedArena`: `arena_alloc`, `arena_walk` (ten times) and `arena_drop`, of COUNT values that
//!   own memory.
#![tactic(auto)]

ghost use Rattle.std.specs.Prelude.{◌<◌};

mod cells;
mod draws;
mod free_map;
mod items;
mod lines;
mod locked_map;
mod names;
mod owned;
mod owners;
mod recorded;
mod small;
mod tables;
mod vector;
mod whole_maps;

use crate::cells::CellCall;
use crate::draws::Words;
use crate::free_map::{Free, Sought};
use crate::items::ItemCall;
use crate::lines::{Hashed, Interned};
use crate::locked_map::{LAST, LAST_OF_FEW, Locked};
use crate::owners::OwnerCall;
use crate::small::{Kind, SmallCall};
use crate::tables::TableCall;
use crate::whole_maps::WholeMap;
use elsa::sync::{FrozenMap, LockFreeFrozenMap, LockFreeShardedMap, ShardedMap};
use std::alloc::Global;
use std::process::ExitCode;
use std::rt::Clock;
use std::sync::{Arc, Wait};
use std::thread::Threads;
use std::{env, io};
use vector::Reads;

const USAGE: &str = "usage: elsa_bench FORM THREADS COUNT; src/main.rt has the forms";

/// Returns how this form reads the vector, and whether another thread pushes meanwhile. `None` for
/// any other form.
fn reads_of(form: &str) -> Option<(Reads, bool)> {
    match form {
        "seen" => Some((Reads::Seen, false)),
        "seen_beside" => Some((Reads::Seen, true)),
        "seen_in_order" => Some((Reads::SeenInOrder, false)),
        "seen_in_order_beside" => Some((Reads::SeenInOrder, true)),
        "growing" => Some((Reads::Growing, false)),
        "growing_beside" => Some((Reads::Growing, true)),
        "plain" => Some((Reads::Plain, false)),
        "plain_beside" => Some((Reads::Plain, true)),
        "plain_in_order" => Some((Reads::PlainInOrder, false)),
        "plain_in_order_beside" => Some((Reads::PlainInOrder, true)),
        _ => None,
    }
}

/// Returns which keys of the lock-free map this form looks up, and whether another thread inserts
/// meanwhile. `None` for any other form.
fn sought_of(form: &str) -> Option<(Sought, bool)> {
    match form {
        "free_get_zipf" => Some((Sought::Zipf, false)),
        "free_get_zipf_beside" => Some((Sought::Zipf, true)),
        "free_get_present" => Some((Sought::Present, false)),
        "free_get_present_beside" => Some((Sought::Present, true)),
        "free_get_absent" => Some((Sought::Absent, false)),
        "free_get_absent_beside" => Some((Sought::Absent, true)),
        _ => None,
    }
}

/// Returns a collection of a few entries, and what this form times of it. `None` for any other
/// form.
fn small_of(form: &str) -> Option<(Kind, SmallCall)> {
    let (kind, call) = form.rsplit_once('_')?;
    let call = match call {
        "fill" => SmallCall::Fill,
        "present" => SmallCall::Present,
        "absent" => SmallCall::Absent,
        "walks" => SmallCall::Walk,
        "copies" => SmallCall::Copy,
        _ => return None,
    };
    let kind = match kind {
        "map" => Kind::Map,
        "map_text" => Kind::MapText,
        "append_map" => Kind::AppendMap,
        "append_map_text" => Kind::AppendMapText,
        "index_map" => Kind::IndexMap,
        "tree" => Kind::Tree,
        "cell_map" => Kind::CellMap,
        "cell_tree" => Kind::CellTree,
        "vec" => Kind::Items,
        "numbers" => Kind::Arena,
        _ => return None,
    };
    Some((kind, call))
}

/// Returns what this form times of a `TypedArena`. `None` for any other form.
fn owner_call_of(form: &str) -> Option<OwnerCall> {
    match form {
        "arena_alloc" => Some(OwnerCall::Alloc),
        "arena_walk" => Some(OwnerCall::Walk),
        "arena_drop" => Some(OwnerCall::Drop),
        _ => None,
    }
}

/// Returns what this form times of a collection that grows through `&self`. `None` for any other
/// form.
fn cell_call_of(form: &str) -> Option<CellCall> {
    match form {
        "cell_vec_push" => Some(CellCall::Push),
        "cell_vec_get" => Some(CellCall::At),
        "cell_vec_walk" => Some(CellCall::Walk),
        "cell_map_insert" => Some(CellCall::Insert),
        "cell_map_get" => Some(CellCall::Get),
        _ => None,
    }
}

/// Returns what this form times of a `FrozenVec`. `None` for any other form.
fn item_call_of(form: &str) -> Option<ItemCall> {
    match form {
        "vec_push" => Some(ItemCall::Push),
        "vec_get" => Some(ItemCall::Get),
        "vec_walk" => Some(ItemCall::Walk),
        "vec_clone" => Some(ItemCall::Clone),
        "vec_collect" => Some(ItemCall::Collect),
        _ => None,
    }
}

/// Returns the nanoseconds that the calls on a map of one thread took, and their sum. `None` for
/// any other form.
fn timed_map_calls<R: Clock>(
    rt: &R,
    alloc: Global,
    form: &str,
    count: usize,
) -> io::Result<Option<(u128, u64)>> {
    let (insert, get) = (TableCall::Insert, TableCall::Get);
    Ok(Some(match form {
        "map_insert" => tables::timed_map(rt, alloc, insert, count)?,
        "map_get" => tables::timed_map(rt, alloc, get, count)?,
        "map_longest" => tables::timed_map(rt, alloc, TableCall::Longest, count)?,
        "append_map_insert" => tables::timed_append_map(rt, alloc, insert, count)?,
        "append_map_get" => tables::timed_append_map(rt, alloc, get, count)?,
        "append_map_longest" => tables::timed_append_map(rt, alloc, TableCall::Longest, count)?,
        "map_text_insert" => tables::timed_map_text(rt, alloc, insert, count)?,
        "map_text_get" => tables::timed_map_text(rt, alloc, get, count)?,
        "tree_insert" => tables::timed_tree(rt, alloc, insert, count)?,
        "tree_get" => tables::timed_tree(rt, alloc, get, count)?,
        "tree_text_insert" => tables::timed_tree_text(rt, alloc, insert, count)?,
        "tree_text_get" => tables::timed_tree_text(rt, alloc, get, count)?,
        "index_map_insert" => tables::timed_index_map(rt, alloc, insert, count)?,
        "index_map_get" => tables::timed_index_map(rt, alloc, get, count)?,
        "index_map_at" => tables::timed_index_map_at(rt, alloc, count)?,
        "index_map_text_insert" => tables::timed_index_map_text(rt, alloc, insert, count)?,
        "index_map_text_get" => tables::timed_index_map_text(rt, alloc, get, count)?,
        "map_clone" => whole_maps::timed_clones(rt, alloc, WholeMap::Hashed, count)?,
        "map_collect" => whole_maps::timed_collections(rt, alloc, WholeMap::Hashed, count)?,
        "append_map_clone" => whole_maps::timed_clones(rt, alloc, WholeMap::Append, count)?,
        "append_map_collect" => whole_maps::timed_collections(rt, alloc, WholeMap::Append, count)?,
        _ => return Ok(None),
    }))
}

/// Returns the nanoseconds that the calls on a collection of one thread took, and their sum. `None`
/// for any other form.
fn timed_alone<R: Clock>(
    rt: &R,
    alloc: Global,
    form: &str,
    count: usize,
) -> io::Result<Option<(u128, u64)>> {
    if let Some(call) = owner_call_of(form) {
        return Ok(Some(owners::timed(rt, alloc, call, count)?));
    }
    if let Some(call) = cell_call_of(form) {
        return Ok(Some(cells::timed(rt, alloc, call, count)?));
    }
    match item_call_of(form) {
        Some(call) => Ok(Some(items::timed(rt, alloc, call, count)?)),
        None => timed_map_calls(rt, alloc, form, count),
    }
}

/// Returns the nanoseconds that the calls on a lock-free map took, which is empty before, and their
/// sum. `None` for any other form.
fn timed_free_map<R: Wait + Threads + Sync + Clock, M: Free + Sync>(
    rt: &R,
    alloc: Global,
    map: &M,
    form: &str,
    threads: usize,
    count: usize,
) -> io::Result<Option<(u128, u64)>>
    requires { 0 < threads }
{
    if let Some((sought, beside)) = sought_of(form) {
        let answer = free_map::timed_look_ups(rt, alloc, map, sought, beside, threads, count)?;
        return Ok(Some(answer));
    }
    let words = match form {
        "free_insert_zipf" => Words::Zipf,
        "free_insert_distinct" => Words::Distinct,
        "free_longest" => return Ok(Some(map.longest(rt, count)?)),
        _ => return Ok(None),
    };
    let answer = free_map::timed_insertions(rt, alloc, map, words, threads, count)?;
    Ok(Some(answer))
}

/// Returns the nanoseconds that the calls on a locked map took, which is empty before, and their
/// sum. `None` for any other form.
fn timed_locked_map<R: Wait + Threads + Sync + Clock, M: Locked + Sync>(
    rt: &R,
    alloc: Global,
    map: &M,
    form: &str,
    threads: usize,
    count: usize,
) -> io::Result<Option<(u128, u64)>>
    requires { 0 < threads }
{
    Ok(Some(match form {
        "copy" => locked_map::timed_copies(rt, alloc, map, LAST, threads, count)?,
        "copy_few" => locked_map::timed_copies(rt, alloc, map, LAST_OF_FEW, threads, count)?,
        "owner" => locked_map::timed_owners(rt, alloc, map, threads, count)?,
        _ => return Ok(None),
    }))
}

/// Returns the nanoseconds that the calls on a locked or lock-free map took, of shards or not, and
/// their sum. `None` for any other form.
fn timed_shared_map<R: Wait + Threads + Sync + Clock>(
    rt: &R,
    alloc: Global,
    form: &str,
    threads: usize,
    count: usize,
) -> io::Result<Option<(u128, u64)>>
    requires { 0 < threads }
{
    if let Some(form) = form.strip_prefix("shards_") {
        let map = LockFreeShardedMap::new(alloc)?;
        if let Some(answer) = timed_free_map(rt, alloc, &map, form, threads, count)? {
            return Ok(Some(answer));
        }
        let map = ShardedMap::new(alloc)?;
        return timed_locked_map(rt, alloc, &map, form, threads, count);
    }
    let map = LockFreeFrozenMap::new(alloc)?;
    if let Some(answer) = timed_free_map(rt, alloc, &map, form, threads, count)? {
        return Ok(Some(answer));
    }
    let map = FrozenMap::new(alloc);
    timed_locked_map(rt, alloc, &map, form, threads, count)
}

/// Returns the nanoseconds that the reads of values that own memory took, and their sum. `None` for
/// any other form.
fn timed_owned<R: Wait + Threads + Sync + Clock>(
    rt: &R,
    alloc: Global,
    form: &str,
    threads: usize,
    count: usize,
) -> io::Result<Option<(u128, u64)>>
    requires { 0 < threads }
{
    Ok(Some(match form {
        "owned_vec_arc" => owned::timed_vector::<Arc<u64, Global>, R>(rt, alloc, threads, count)?,
        "owned_vec_text" => owned::timed_vector::<String<Global>, R>(rt, alloc, threads, count)?,
        "owned_map_arc" => owned::timed_map::<Arc<u64, Global>, R>(rt, alloc, threads, count)?,
        "owned_map_text" => owned::timed_map::<String<Global>, R>(rt, alloc, threads, count)?,
        _ => return Ok(None),
    }))
}

/// Returns the names that are put into an interner of shards. `None` for any other form.
fn words_in_shards(form: &str) -> Option<Words> {
    match form {
        "shards_names_zipf" => Some(Words::Zipf),
        "shards_names_distinct" => Some(Words::Distinct),
        _ => None,
    }
}

/// Returns the hasher of the map whose keys are lines of standard input. `None` for any other form.
fn hashed_of(form: &str) -> Option<Hashed> {
    match form {
        "lines_default" => Some(Hashed::Default),
        "lines_seeded" => Some(Hashed::Seeded),
        _ => None,
    }
}

/// Returns what lines of standard input are put into by all threads. `None` for any other form.
fn interned_of(form: &str) -> Option<Interned> {
    match form {
        "lines_shared" => Some(Interned::Shared),
        "lines_shards" => Some(Interned::Shards),
        "lines_copied" => Some(Interned::Copied),
        _ => None,
    }
}

fn main(rt: HostRuntime) -> io::Result<ExitCode> {
    let words: Vec<String> = env::args(&rt)?.skip(1).collect(rt.alloc())?;
    let [form, threads, count] = words.as_slice() else {
        println!(rt; "{USAGE}")?;
        return Ok(ExitCode::SUCCESS);
    };
    let threads = threads.as_str().parse::<usize>().unwrap_or(1).max(1);
    let count = count.as_str().parse::<usize>().unwrap_or(0);
    if let Some(words) = words_in_shards(form.as_str()) {
        let (nanos, sum) = names::timed_shards(&rt, rt.alloc(), words, threads, count)?;
        println!(rt; "{nanos} {sum}")?;
        return Ok(ExitCode::SUCCESS);
    }
    if let Some((kind, call)) = small_of(form.as_str()) {
        let (nanos, sum) = small::timed(&rt, rt.alloc(), kind, call, threads, count)?;
        println!(rt; "{nanos} {sum}")?;
        return Ok(ExitCode::SUCCESS);
    }
    if let Some(it) = interned_of(form.as_str()) {
        let (nanos, sum) = lines::timed_interned(&rt, rt.alloc(), it, threads, count)?;
        println!(rt; "{nanos} {sum}")?;
        return Ok(ExitCode::SUCCESS);
    }
    if let Some(hashed) = hashed_of(form.as_str()) {
        let (nanos, sum) = lines::timed(&rt, rt.alloc(), hashed, count)?;
        println!(rt; "{nanos} {sum}")?;
        return Ok(ExitCode::SUCCESS);
    }
    if let Some((nanos, sum)) = timed_alone(&rt, rt.alloc(), form.as_str(), count)? {
        println!(rt; "{nanos} {sum}")?;
        return Ok(ExitCode::SUCCESS);
    }
    if let Some((nanos, sum)) = timed_owned(&rt, rt.alloc(), form.as_str(), threads, count)? {
        println!(rt; "{nanos} {sum}")?;
        return Ok(ExitCode::SUCCESS);
    }
    if let Some((nanos, sum)) = timed_shared_map(&rt, rt.alloc(), form.as_str(), threads, count)? {
        println!(rt; "{nanos} {sum}")?;
        return Ok(ExitCode::SUCCESS);
    }
    let (nanos, sum) = match (form.as_str(), reads_of(form.as_str())) {
        (_, Some((reads, beside))) => {
            vector::timed_reads(&rt, rt.alloc(), reads, beside, threads, count)?
        }
        ("names_zipf", None) => names::timed_shared(&rt, rt.alloc(), Words::Zipf, threads, count)?,
        ("names_distinct", None) => {
            names::timed_shared(&rt, rt.alloc(), Words::Distinct, threads, count)?
        }
        ("texts_zipf", None) => names::timed_texts(&rt, rt.alloc(), Words::Zipf, count)?,
        ("texts_distinct", None) => names::timed_texts(&rt, rt.alloc(), Words::Distinct, count)?,
        ("alone_zipf", None) => names::timed_alone(&rt, rt.alloc(), Words::Zipf, count)?,
        ("alone_distinct", None) => names::timed_alone(&rt, rt.alloc(), Words::Distinct, count)?,
        ("recorded", None) => recorded::timed_recorded(&rt, rt.alloc(), threads, count)?,
        ("walk", None) => vector::timed_walks(&rt, rt.alloc(), count)?,
        ("exchange", None) => vector::timed_exchanges(&rt, count)?,
        (form, _) => {
            let batched = form == "extend";
            vector::timed_pushes(&rt, rt.alloc(), batched, threads, count)?
        }
    };
    println!(rt; "{nanos} {sum}")?;
    Ok(ExitCode::SUCCESS)
}
