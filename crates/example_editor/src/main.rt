//! An editor with undo: its text is numbers of a symbol table, and a version of the text knows the
//! table as it was when the version was made.
//!
//! The table is a [`FrozenMap`](elsa::cell::FrozenMap), from which nothing is removed: so a version
//! is what was observed of it and the numbers of one line, and an undo drops the last version. A
//! word that is typed again has its number from before.
//!
//! Standard input has a command on each line: `type WORDS`, `undo`, `find WORD`, `show`.
#![tactic(auto)]

mod editor;
mod version;

use crate::editor::{EditFault, Editor};
use crate::version::Table;
use std::io::{self, BufRead, BufReader};

/// Prints where a word is.
fn tell_word(rt: &impl Print, editor: &Editor<'_>, word: &str) -> io::Result<()> {
    match editor.number(word) {
        Some(number) => {
            let lines = editor.lines_with(number);
            println!(rt; "{word}: symbol {number}, in {lines} lines")
        }
        None => println!(rt; "{word}: no symbol"),
    }
}

/// Runs a command, and prints its result.
fn run(rt: &impl Print, editor: &mut Editor<'_>, line: &str) -> io::Result<()> {
    let (command, rest) = line.split_once(" ").unwrap_or((line, ""));
    match command {
        "type" => match editor.type_line(rest) {
            Ok(version) => println!(rt; "version {version}"),
            Err(EditFault::Memory(error)) => Err(error.into()),
            Err(EditFault::Store(fault)) => println!(rt; "not typed: {fault}"),
        },
        "undo" => match editor.undo() {
            Some(version) => println!(rt; "version {version}"),
            None => println!(rt; "nothing to undo"),
        },
        "find" => tell_word(rt, editor, rest),
        "show" => editor.show(rt),
        _ => println!(rt; "no such command: {command}"),
    }
}

fn main(rt: HostRuntime) -> io::Result<()> {
    let alloc = rt.alloc();
    let table = Table::new(alloc)?;
    let mut editor = Editor::new(alloc, &table);
    for line in BufReader::new(alloc, rt.reader())?.lines(alloc) {
        let line = line?;
        run(&rt, &mut editor, line.as_str())?;
    }
    Ok(())
}
