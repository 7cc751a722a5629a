//! The symbol pass of a compiler: one thread declares the names of a source text, and then four
//! threads count their uses.
//!
//! An [`Interner`](elsa::interner::Interner) numbers the names in order, and the data of a name are
//! in a vector at that number. `into_reader` then freezes the interner: threads share the
//! [`InternerReader`](elsa::interner::InternerReader) without a lock, and each counts the uses in
//! its lines by the names' numbers. `rt run < crates/example_symbols/stdin` prints a line for each
//! name, in the order of declaration.
#![tactic(auto)]

ghost use Rattle.std.specs.Prelude.{◌≡◌, ◌↔◌, IfOk, IsTrue, None, OnErr, length, position, vec_len};
ghost use Rattle.std.specs.Str.{bytes_eq};
ghost use mathlib.Core.List.{IsPrefix};

use bumpalo::Bump;
use elsa::interner::{Interner, InternerReader};
use std::alloc::{AllocError, Global};
use std::io::{self, BufRead, BufReader};
use std::thread::{self, Threads};

const THREADS: usize = 4;

/// The data of a name.
#[derive(Clone, Copy)]
struct Symbol {
    kind: &'static str,
    /// The line of its declaration, counted from 1.
    line: usize,
}

/// The declared names, and the data of each name at its number.
#[derive(Drop)]
struct Symbols<'a> {
    names: Interner<'a>,
    known: Vec<Symbol>,
    ghost one_each: { vec_len known ≡ length names },
}

impl Symbols<'_> {
    /// Declares a name, and returns whether it is new. A name that was declared before keeps its
    /// data.
    ///
    /// # Errors
    /// Fails if an allocation fails. Nothing changes then.
    fn declare(&mut self, name: &str, symbol: Symbol) -> Result<bool, AllocError>
        ensures is_new { IfOk result (λ is_new. IsTrue is_new
            ↔ (position (bytes_eq name.now) self.old.names ≡ None)) }
        ensures kept { IsPrefix self.old.names self.new.names }
        ensures refused { OnErr result ((self.new.names ≡ self.old.names)
            × (self.new.known.items ≡ self.old.known.items)) }
    {
        if self.names.contains(name) {
            return Ok(false);
        }
        self.known.reserve(1)?;
        self.names.put(name)?;
        self.known.push(symbol).unwrap();
        Ok(true)
    }

    /// Declares the name of a line, if it declares one. Prints a message if the name was declared
    /// before.
    fn read(&mut self, rt: &impl Print, line: &str, number: usize) -> io::Result<()> {
        let Some((kind, name)) = declaration(line) else {
            return Ok(());
        };
        if self.declare(name, Symbol { kind, line: number })? {
            return Ok(());
        }
        println!(rt; "line {number} declares {name} again")
    }
}

fn is_separator(c: char) -> bool {
    !c.is_alphanumeric() && c != '_'
}

/// Returns the kind and the name that a line declares, or `None` if it declares none.
fn declaration(line: &str) -> Option<(&'static str, &str)> {
    let mut words = line.trim_start().split(is_separator);
    let kind = match words.next()? {
        "fn" => "function",
        "let" => "variable",
        "const" => "constant",
        _ => return None,
    };
    Some((kind, words.next()?))
}

/// Counts the uses of each declared name in every fourth line, from the line `first` on. Returns a
/// count for each name.
///
/// # Errors
/// Fails if an allocation fails.
fn count_lines(
    alloc: Global,
    names: &InternerReader<'_>,
    lines: &[String],
    first: usize,
) -> Result<Vec<u64>, AllocError> {
    let mut counts = vec![in alloc; 0u64; names.len()]?;
    for line in lines.iter().skip(first).step_by(THREADS) {
        for word in line.as_str().split(is_separator) {
            if let Some(number) = names.find(word) {
                if let Some(count) = counts.get_mut(number) {
                    *count = count.saturating_add(1);
                }
            }
        }
    }
    Ok(counts)
}

/// Returns the counts of all threads.
fn count_all(
    rt: &(impl Threads + Sync),
    alloc: Global,
    names: &InternerReader<'_>,
    lines: &[String],
) -> io::Result<Vec<Vec<u64>>> {
    let count = |first| count_lines(alloc, names, lines, first);
    let mut parts = Vec::new(alloc);
    for part in thread::map_indices(rt, alloc, THREADS, &count)? {
        parts.push(part?)?;
    }
    Ok(parts)
}

/// Returns the sum of all threads' counts at a number.
fn uses_at(counts: &[Vec<u64>], number: usize) -> u64 {
    let mut sum: u64 = 0;
    for part in counts {
        sum = sum.saturating_add(part.get(number).copied().unwrap_or(0));
    }
    sum
}

/// Prints the data of each name, and the number of its uses without the declaration.
fn tell(
    rt: &impl Print,
    names: &InternerReader<'_>,
    known: &[Symbol],
    counts: &[Vec<u64>],
) -> io::Result<()> {
    for (number, (name, symbol)) in names.iter().zip(known).enumerate() {
        let uses = uses_at(counts, number).saturating_sub(1);
        let Symbol { kind, line } = *symbol;
        println!(rt; "{number} {name}: {kind} of line {line}, used {uses} times")?;
    }
    Ok(())
}

fn main(rt: HostRuntime) -> io::Result<()> {
    let alloc = rt.alloc();
    let arena = Bump::new(alloc);
    let mut symbols = Symbols {
        names: Interner::new(alloc, &arena),
        known: Vec::new(alloc),
    };
    let mut lines = Vec::new(alloc);
    for line in BufReader::new(alloc, rt.reader())?.lines(alloc) {
        let line = line?;
        symbols.read(&rt, line.as_str(), lines.len() + 1)?;
        lines.push(line)?;
    }
    let Symbols { names, known } = symbols;
    let names = names.into_reader();
    let counts = count_all(&rt, alloc, &names, &lines)?;
    tell(&rt, &names, &known, &counts)
}
