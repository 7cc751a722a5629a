//! The text that is edited, version by version.
ghost use Rattle.std.specs.Prelude.{◌≡◌};

use crate::version::{Table, Version};
use elsa::cell::Fault;
use std::alloc::{AllocError, Global};
use std::io;
use thiserror::Error;

/// The reason why a line was not typed.
#[derive(Clone, Copy, Debug, Error)]
pub enum EditFault {
    /// An allocation failed.
    #[error("{0}")]
    Memory(#[from] AllocError),
    /// The table couldn't store a word.
    #[error("{0}")]
    Store(#[from] Fault),
}

/// A text of lines, each of which is a version.
#[derive(Drop)]
pub struct Editor<'t> {
    alloc: Global,
    table: &'t Table,
    versions: Vec<Version<'t>>,
}

impl<'t> Editor<'t> {
    /// Makes an empty text over a symbol table. It allocates nothing.
    pub fn new(alloc: Global, table: &'t Table) -> Self {
        Editor {
            alloc,
            table,
            versions: Vec::new(alloc),
        }
    }

    /// Adds a line, whose words become symbols. Returns the number of the version.
    ///
    /// # Errors
    /// `Memory` if an allocation fails, `Store` if the table can't store a word. The text is then
    /// unchanged; words that are symbols already stay.
    pub fn type_line(&mut self, text: &str) -> Result<usize, EditFault> {
        let version = self.versions.len().saturating_add(1);
        let mut line = Vec::new(self.alloc);
        for word in text.split_whitespace() {
            let number = match self.table.get_full(word) {
                Some((number, _, _)) => number,
                None => {
                    let key = String::from_str(self.alloc, word)?;
                    let inserted = self.table.insert_new(key, version);
                    inserted.map_err(Fault::from)?.index
                }
            };
            line.push(number).map_err(AllocError::from)?;
        }
        let (table, symbols) = (self.table, self.table.observed());
        let next = Version {
            table,
            symbols,
            line,
        };
        self.versions.push(next).map_err(AllocError::from)?;
        Ok(version)
    }

    /// Drops the last line. Returns the number of the version before, or `None` if there is no
    /// line.
    pub fn undo(&mut self) -> Option<usize> {
        self.versions.pop()?;
        Some(self.versions.len())
    }

    /// Returns the number of a word in the table of the last version.
    pub fn number(&self, word: &str) -> Option<usize> {
        self.versions.last()?.number(word)
    }

    /// Returns the number of lines that have a word with this number.
    pub fn lines_with(&self, number: usize) -> usize {
        let mut count: usize = 0;
        for version in &self.versions {
            if version.has(number) {
                count = count.saturating_add(1);
            }
        }
        count
    }

    /// Prints the text.
    ///
    /// # Errors
    /// Fails if the output fails.
    pub fn show(&self, rt: &impl Print) -> io::Result<()> {
        for version in &self.versions {
            for number in &version.line {
                let word = version.word(*number).unwrap_or("?");
                print!(rt; " {word}")?;
            }
            println!(rt; ".")?;
        }
        Ok(())
    }
}
