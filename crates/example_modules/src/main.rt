//! A module loader for threads: each file is read and parsed once, by the worker that needs it
//! first, and the others wait for that file alone.
//!
//! The modules are the values of a [`OnceMap`](elsa::sync::OnceMap) over their paths. A worker
//! loads a root and all that it imports, directly or not. It loads a module's imports after the
//! module is in the map, so two modules may import each other.
//!
//! The output doesn't depend on the schedule: which worker has read a file isn't part of it.
#![tactic(auto)]

mod loader;
mod module;

use crate::loader::{LoadFault, Loaded, Modules, load_all};
use elsa::SeededState;
use std::{io, thread};

/// The roots: each worker loads one of them.
const ROOTS: [&str; 4] = ["app.mod", "tool.mod", "circle.mod", "broken.mod"];

/// Prints what the workers loaded, root by root, and the number of files that they read.
///
/// # Errors
/// Fails if the output fails.
fn tell(rt: &impl Print, results: Vec<Result<Loaded, LoadFault>>) -> io::Result<()> {
    let mut read: usize = 0;
    for (worker, result) in results.into_iter().enumerate() {
        let root = ROOTS[worker % ROOTS.len()];
        match result {
            Ok(loaded) => {
                read = read.saturating_add(loaded.read);
                println!(rt;
                    "{root}: {} modules, {} lines",
                    loaded.modules, loaded.lines
                )?;
            }
            Err(fault) => println!(rt; "{root}: {fault}")?,
        }
    }
    println!(rt; "{read} files were read")
}

fn main(rt: HostRuntime) -> io::Result<()> {
    let secret = SeededState::new(&rt)?;
    let alloc = rt.alloc();
    let modules = Modules::with_hasher(alloc, secret)?;
    let results = thread::map_indices(
        &rt,
        alloc,
        ROOTS.len(),
        &|worker| load_all(&rt, alloc, &modules, ROOTS[worker % ROOTS.len()]),
    )?;
    tell(&rt, results)
}
