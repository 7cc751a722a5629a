//! A loader of files that include others, with one map that is filled through `&self`. Each file is
//! loaded once, its includes first, and a file that includes itself is reported.
use elsa_cell::{CellFault, Fault, FrozenMap};
use std::alloc::{AllocError, Global};
use std::test::*;

/// A file: its own words, and the number of words that it has with all its includes. It owns its
/// list.
#[derive(Drop)]
struct File {
    words: Vec<String>,
    total: usize,
}

/// The reason why a file wasn't loaded.
#[derive(Debug, Clone, Copy, PartialEq, Eq)]
enum LoadFault {
    Memory,
    InUse,
    Full,
    Missing,
    IncludesItself,
}

impl From<AllocError> for LoadFault {
    fn from(_refused: AllocError) -> LoadFault {
        LoadFault::Memory
    }
}

impl<T: Drop> From<CellFault<T>> for LoadFault {
    fn from(fault: CellFault<T>) -> LoadFault {
        match Fault::from(fault) {
            Fault::Memory => LoadFault::Memory,
            Fault::InUse => LoadFault::InUse,
            Fault::Full => LoadFault::Full,
        }
    }
}

const FILES: [(&str, &str); 4] = [
    ("main", "+list a b +text"),
    ("list", "+text c"),
    ("text", "d e f"),
    ("loop", "+loop"),
];

fn text_of(path: &str) -> Option<&'static str> {
    for (name, text) in FILES {
        if name == path {
            return Some(text);
        }
    }
    None
}

/// Loads the file at a path. At most `left` files may include one another from here on; if `left`
/// is 0, some file includes itself.
fn load<'m>(
    alloc: Global,
    files: &'m FrozenMap<String, File>,
    path: &str,
    left: usize,
) -> Result<&'m File, LoadFault> {
    if let Some(file) = files.get(path) {
        return Ok(file);
    }
    if left == 0 {
        return Err(LoadFault::IncludesItself);
    }
    let Some(text) = text_of(path) else {
        return Err(LoadFault::Missing);
    };
    let (mut words, mut total) = (Vec::new(alloc), 0);
    for word in text.split(' ') {
        match word.strip_prefix("+") {
            Some(included) => total = load(alloc, files, included, left - 1)?
                .total
                .wrapping_add(total),
            None => {
                let word = String::from_str(alloc, word)?;
                let Ok(()) = words.push(word) else {
                    return Err(LoadFault::Memory);
                };
                total = total.wrapping_add(1);
            }
        }
    }
    let path = String::from_str(alloc, path)?;
    Ok(files.insert(path, File { words, total })?)
}

#[test]
fn includes_are_loaded_once_and_first(rt: HostRuntime) -> Result<(), Fail> {
    let files = FrozenMap::new(rt.alloc())?;
    let file = load(rt.alloc(), &files, "main", FILES.len())
        .ok()
        .ok_or("not loaded")?;
    assert_eq!(rt; (file.total, file.words.len(), files.len()), (9, 2, 3));
    Ok(())
}

#[test]
fn a_file_that_includes_itself_or_is_missing_is_told(rt: HostRuntime) -> Result<(), Fail> {
    for (path, fault) in [
        ("loop", LoadFault::IncludesItself),
        ("none", LoadFault::Missing),
    ] {
        let files = FrozenMap::new(rt.alloc())?;
        assert_eq!(rt;
            load(rt.alloc(), &files, path, FILES.len()).err(),
            Some(fault)
        );
    }
    Ok(())
}
