//! A configuration: lines `KEY = VALUE`. Empty lines, and lines that begin with `#`, are ignored.
ghost use Rattle.std.specs.Prelude.{◌≡◌, ◌++◌, IfSome, codes, find};
ghost use Rattle.std.specs.Option.{option_map};
ghost use Rattle.std.specs.Str.{bytes_eq};

use bumpalo::Bump;
use elsa::FrozenVec;
use std::alloc::{AllocError, Global};
use thiserror::Error;

/// A line `KEY = VALUE`, without the spaces around the two.
#[derive(Clone, Copy)]
pub struct Pair<'t> {
    pub key: &'t str,
    pub value: &'t str,
}

/// The pairs of a text, in the order of its lines. It has only borrows, so it is `Copy` and can be
/// a value of a collection.
#[derive(Clone, Copy)]
pub struct Config<'t> {
    pub pairs: &'t [Pair<'t>],
}

/// The reason why a text isn't a configuration.
#[derive(Clone, Copy, Debug, Error)]
pub enum ParseFault {
    /// This line, counted from 1, has no `=`.
    #[error("line {0} has no =")]
    BadLine(usize),
    /// An allocation failed.
    #[error("{0}")]
    Memory(#[from] AllocError),
}

/// Returns the parts of a line before and after its first `=`, or `None` if it has no `=`.
fn halves(line: &str) -> Option<(&str, &str)>
    ensures { IfSome result (λ half. line.entry.now ≡ half.0.now ++ codes "=" ++ half.1.now) }
{
    line.split_once("=")
}

/// A parser of configurations. It stores the lists of their pairs in the arena.
#[derive(Drop)]
pub struct Parser<'a> {
    alloc: Global,
    lists: FrozenVec<'a, Vec<Pair<'a>>>,
}

impl<'a> Parser<'a> {
    /// Makes a parser. It allocates nothing.
    pub fn new(alloc: Global, arena: &'a Bump) -> Self {
        Parser {
            alloc,
            lists: FrozenVec::new(alloc, arena),
        }
    }

    /// Returns the pairs of a text, which are slices of it.
    ///
    /// # Errors
    /// `BadLine` if a line has no `=`, `Memory` if an allocation fails.
    pub fn parse(&mut self, text: &'a str) -> Result<Config<'a>, ParseFault> {
        let mut pairs = Vec::new(self.alloc);
        for (index, line) in text.lines().enumerate() {
            let line = line.trim();
            if line.is_empty() || line.starts_with('#') {
                continue;
            }
            let Some((key, value)) = halves(line) else {
                return Err(ParseFault::BadLine(index.saturating_add(1)));
            };
            let pair = Pair {
                key: key.trim(),
                value: value.trim(),
            };
            pairs.push(pair).map_err(AllocError::from)?;
        }
        let pairs = self.lists.push_get(pairs)?;
        Ok(Config { pairs })
    }
}

impl<'t> Config<'t> {
    /// Returns the value of the first pair with this key, or `None` if no pair has it.
    pub fn value(&self, key: &str) -> Option<&'t str>
        ensures { result ≡ option_map (λ pair. pair.value)
            (find (λ pair. bytes_eq pair.key.now key.now) self.now.pairs.now) }
    {
        let pair = self.pairs.iter().find(|pair| pair.key == key)?;
        Some(pair.value)
    }
}
