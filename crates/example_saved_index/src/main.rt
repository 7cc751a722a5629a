//! An index that is saved as JSON and read back: every word keeps its number.
//!
//! Standard input is a text. Its words are put into an [`Interner`](elsa::interner::Interner), and
//! the lines of their first uses into an index map. [`Stored`](elsa_serde::Stored) writes both.
//! Reading has two steps: `serde_json` reads [`Names`](elsa_serde::Names) and
//! [`Entries`](elsa_serde::Entries), and these are put into collections over a new arena. If a text
//! isn't that of a saved index, the program prints the error.
#![tactic(auto)]

ghost use Rattle.std.specs.Prelude.{◌≡◌, []};
ghost use mathlib.Core.List.{IsPrefix};

use bumpalo::Bump;
use elsa::interner::Interner;
use elsa::{FrozenIndexMap, Own};
use elsa_serde::{Entries, Names, ReadFault, Stored};
use std::alloc::{AllocError, Global};
use std::io::{self, BufRead, BufReader};
use thiserror::Error;

/// Texts that are not those of a saved index: a word twice, one that is cut short, no list, and a
/// list of no words.
const BROKEN: [&str; 4] = [r#"["a","b","a"]"#, r#"["a","b""#, r#"{"a":1}"#, "[1]"];

/// The words of a text by their numbers, and the line of each word's first use.
#[derive(Drop)]
struct Index<'a> {
    words: Interner<'a>,
    lines: FrozenIndexMap<'a, String, Own<u64>>,
}

/// The texts of a saved index.
#[derive(Drop)]
struct Saved {
    words: String,
    lines: String,
}

/// The reason why a saved index can't be read.
#[derive(Debug, Drop, Error)]
enum LoadFault {
    #[error("not the text of an index: {0}")]
    Text(#[from] serde_json::Error),
    #[error("not an index: {0}")]
    Content(#[from] ReadFault),
}

impl<'a> Index<'a> {
    fn new(alloc: Global, arena: &'a Bump) -> Index<'a>
        ensures { result.words ≡ [] }
    {
        Index {
            words: Interner::new(alloc, arena),
            lines: FrozenIndexMap::new(alloc, arena),
        }
    }

    /// Adds a word that is used in this line, and returns its number.
    ///
    /// # Errors
    /// Fails if an allocation fails.
    fn add(&mut self, alloc: Global, word: &str, line: u64) -> Result<usize, AllocError>
        ensures kept { IsPrefix self.old.words self.new.words }
    {
        self.lines
            .insert(String::from_str(alloc, word)?, Own(line))?;
        self.words.put(word)
    }

    fn save(&self, alloc: Global) -> Result<Saved, serde_json::Error> {
        Ok(Saved {
            words: serde_json::to_string(alloc, &Stored(&self.words))?,
            lines: serde_json::to_string(alloc, &Stored(&self.lines))?,
        })
    }

    /// Reads the saved index into a new arena.
    ///
    /// # Errors
    /// `Text` if a text isn't JSON of the right type, `Content` if its words or entries can't be
    /// inserted: a duplicate, too many words, or an allocation failure.
    fn load(alloc: Global, arena: &'a Bump, saved: &Saved) -> Result<Index<'a>, LoadFault> {
        let words: Names = serde_json::from_str(alloc, saved.words.as_str())?;
        let lines: Entries<String, Own<u64>> = serde_json::from_str(alloc, saved.lines.as_str())?;
        let mut index = Index::new(alloc, arena);
        words.put_into(&mut index.words)?;
        lines.insert_into(&mut index.lines)?;
        Ok(index)
    }
}

/// Returns the number of words whose numbers differ in the two indexes.
fn moved_words(before: &Index<'_>, after: &Index<'_>) -> usize {
    let mut moved: usize = 0;
    for word in before.words.iter() {
        if before.words.find(word) != after.words.find(word) {
            moved = moved.saturating_add(1);
        }
    }
    moved
}

/// Reads the saved index back, and prints how it differs from the one that was saved.
fn tell_again(rt: &impl Print, alloc: Global, index: &Index<'_>, saved: &Saved) -> io::Result<()> {
    let arena = Bump::new(alloc);
    let again = match Index::load(alloc, &arena, saved) {
        Ok(again) => again,
        Err(fault) => return println!(rt; "{fault}"),
    };
    let (count, moved) = (again.words.len(), moved_words(index, &again));
    println!(rt; "{count} words are read back, {moved} have another number")?;
    let (word, line) = (again.words.at(4), again.lines.get("lily"));
    println!(rt; "number 4 is {word:?}, lily is of line {line:?}")
}

/// Prints the error of each broken text.
fn tell_broken(rt: &impl Print, alloc: Global) -> io::Result<()> {
    for words in BROKEN {
        let broken = Saved {
            words: String::from_str(alloc, words)?,
            lines: String::from_str(alloc, "{}")?,
        };
        if let Err(fault) = Index::load(alloc, &Bump::new(alloc), &broken) {
            println!(rt; "{words} is {fault}")?;
        }
    }
    Ok(())
}

fn main(rt: HostRuntime) -> io::Result<()> {
    let alloc = rt.alloc();
    let arena = Bump::new(alloc);
    let mut index = Index::new(alloc, &arena);
    let mut number: u64 = 0;
    for line in BufReader::new(alloc, rt.reader())?.lines(alloc) {
        let line = line?;
        number = number.saturating_add(1);
        for word in line.as_str().split_whitespace() {
            index.add(alloc, word, number)?;
        }
    }
    let Ok(saved) = index.save(alloc) else {
        return rt.println("the index can't be written");
    };
    println!(rt; "{}\n{}", saved.words, saved.lines)?;
    tell_again(&rt, alloc, &index, &saved)?;
    tell_broken(&rt, alloc)
}
