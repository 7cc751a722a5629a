//! A version of a text: the numbers of its last line, and the symbol table as it was.
ghost use Rattle.std.specs.Prelude.{◌≡◌, map, option_map, position, slice_get, string_bytes};
ghost use Rattle.std.specs.Str.{bytes_eq};
ghost use Rattle.elsa_cell.specs.Entries.{key_of};

use elsa::cell::{FrozenMap, ObservedEntries};

/// The words, each with the number of the version in which it is first. The number of a word is its
/// index.
pub type Table = FrozenMap<String, usize>;

/// The words that were observed.
pub type Symbols<'t> = ObservedEntries<'t, String, usize>;

/// A version: no later change of the table changes what its calls return.
#[derive(Drop)]
pub struct Version<'t> {
    /// The table, which has more words now.
    pub table: &'t Table,
    /// The words that it had when the version was made.
    pub symbols: Symbols<'t>,
    /// The numbers of the words of its last line.
    pub line: Vec<usize>,
    // The words are those of this table.
    ghost same_table: { symbols.vector ≡ table.now },
}

impl<'t> Version<'t> {
    /// Returns the number of a word, or `None` if the table didn't have it then.
    pub fn number(&self, word: &str) -> Option<usize>
        ensures { result ≡ position (λ k. bytes_eq word.now (string_bytes k))
            (map key_of self.now.symbols.seen) }
    {
        let (number, _, _) = self.table.get_full_as(&self.symbols, word)?;
        Some(number)
    }

    /// Returns the word with a number, or `None` if the table had no such number then.
    pub fn word(&self, number: usize) -> Option<&'t str>
        ensures { option_map (λ w. w.now) result
            ≡ option_map (λ e. string_bytes (key_of e)) (slice_get self.now.symbols.seen number) }
    {
        let entry = self.symbols.get(number)?;
        Some(entry.key().as_str())
    }

    /// Returns whether the version's last line has a word with this number.
    pub fn has(&self, number: usize) -> bool {
        self.line.contains(&number)
    }
}
