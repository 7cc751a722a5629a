//! Modules by their paths, each made once for all threads.
ghost use Rattle.std.specs.Prelude.{◌≡◌, IfOk, string_bytes};
ghost use Rattle.std.specs.Str.{bytes_eq};
ghost use Rattle.elsa_lock_free.specs.SharedList.{IsLaterPass, items_of};
ghost use Rattle.elsa_lock_free_map.specs.Entries.{Has};

use crate::module::Module;
use elsa::SeededState;
use elsa::sync::{Made, MapHandle, OnceMap, OnceValue};
use indexmap::IndexSet;
use std::alloc::{AllocError, Global};
use std::rt::Files;
use std::sync::Wait;
use std::{fs, io};
use thiserror::Error;

/// The greatest number of modules that a root may have.
const MOST: usize = 4096;

/// The modules by the paths of their files.
pub type Modules = OnceMap<String, Module, SeededState>;

/// A worker's handle of them.
pub type Loading<'m> = MapHandle<'m, String, OnceValue<Module>, SeededState>;

/// The reason why a root wasn't loaded.
#[derive(Debug, Drop, Error)]
pub enum LoadFault {
    /// A file can't be read, or isn't UTF-8.
    #[error("a file can't be read")]
    File(#[from] io::Error),
    /// The root has too many modules.
    #[error("more than {MOST} modules")]
    TooMany,
    /// An allocation failed.
    #[error("{0}")]
    Memory(#[from] AllocError),
}

/// What a root has, with all that it imports.
#[derive(Clone, Copy)]
pub struct Loaded {
    /// The number of its modules.
    pub modules: usize,
    /// The number of their lines.
    pub lines: usize,
    /// The number of files that this worker read.
    pub read: usize,
}

/// Returns the module at a path. It reads and parses the file unless a worker has done so.
///
/// # Errors
/// `File` if the file can't be read or isn't UTF-8, `Memory` if an allocation fails. The next call
/// tries again.
///
/// # Blocks
/// While another worker loads this module, or inserts a path.
pub fn load<'m, R: Files + AllocGlobal + Wait>(
    rt: &R,
    alloc: Global,
    modules: &mut Loading<'m>,
    path: &str,
) -> Result<Made<'m, Module>, LoadFault>
    ensures later { IsLaterPass modules.old modules.new }
    ensures found { IfOk result (λ m. Has (λ p k. bytes_eq p (string_bytes k))
        (items_of modules.new.seen) path.now (record { id = m.token.of })) }
{
    if let Some(made) = modules.get_made(path) {
        return Ok(made);
    }
    let key = String::from_str(alloc, path)?;
    modules.get_or_try_init(rt, key, || -> Result<Module, LoadFault> {
        let text = fs::read_to_string(rt, path)?;
        Ok(Module::parse(alloc, text.as_str())?)
    })
}

/// Loads the module at a path, and all that it imports, directly or not: each once.
///
/// # Errors
/// As [`load`] for each module, and `TooMany` if there are more than 4,096. What was loaded stays.
///
/// # Blocks
/// As [`load`] does.
pub fn load_all<R: Files + AllocGlobal + Wait>(
    rt: &R,
    alloc: Global,
    modules: &Modules,
    root: &str,
) -> Result<Loaded, LoadFault> {
    let mut handle = modules.handle();
    let mut paths: IndexSet<&str> = IndexSet::new(alloc);
    let mut loaded = Loaded {
        modules: 0,
        lines: 0,
        read: 0,
    };
    paths.insert(root).map_err(AllocError::from)?;
    for at in 0..MOST {
        let Some(path) = paths.get_index(at) else {
            return Ok(loaded);
        };
        let made = load(rt, alloc, &mut handle, path)?;
        loaded.modules = loaded.modules.saturating_add(1);
        loaded.lines = loaded.lines.saturating_add(made.value.lines);
        if made.is_new {
            loaded.read = loaded.read.saturating_add(1);
        }
        for import in &made.value.imports {
            paths.insert(import.as_str()).map_err(AllocError::from)?;
        }
    }
    Err(LoadFault::TooMany)
}
