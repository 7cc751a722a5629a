//! A lexer of words: each has a symbol of four bytes, and the keywords have the least ones.

ghost use Rattle.std.specs.Prelude.{◌≡◌, ◌<◌, ℕ, Decides, IfOk, List, OnErr, Some, length, position, slice_get};
ghost use Rattle.std.specs.Option.{option_map};
ghost use Rattle.std.specs.Str.{bytes_eq};
ghost use mathlib.Core.List.{IsPrefix};

use bumpalo::Bump;
use elsa_interner::interner::Interner;
use std::alloc::{AllocError, Global};
use std::test::Fail;

/// The number of a word in four bytes.
#[derive(Clone, Copy, Debug, Drop, PartialEq, Eq)]
pub struct Symbol(u32);

/// The words so far, of which the first ones are keywords.
#[derive(Drop)]
pub struct Lexer<'a> {
    names: Interner<'a>,
    keywords: usize,
}

impl<'a> Lexer<'a> {
    /// Returns the symbol of a word.
    pub fn intern(&mut self, word: &str) -> Result<Symbol, AllocError>
        ensures named { IfOk result (λ s. slice_get self.new.names s.0 ≡ Some word.now) }
        ensures found { IfOk result (λ s.
            position (bytes_eq word.now) self.new.names ≡ Some s.0) }
        ensures kept_at { (other : List ℕ) (i : ℕ) →
            position (bytes_eq other) self.old.names ≡ Some i →
            position (bytes_eq other) self.new.names ≡ Some i }
        ensures kept { IsPrefix self.old.names self.new.names }
        ensures refused { OnErr result (self.new ≡ self.old) }
    {
        let number = self.names.put(word)?;
        Ok(Symbol(number as u32))
    }

    /// Returns the symbols of words, in order.
    pub fn lex(&mut self, alloc: Global, words: &[&str]) -> Result<Vec<Symbol>, AllocError>
        ensures length { IfOk result (λ symbols. length symbols.items ≡ length words.now) }
    {
        let mut symbols = Vec::new(alloc);
        for word in words.iter() {
            let symbol = self.intern(word)?;
            symbols.push(symbol)?;
        }
        Ok(symbols)
    }

    /// Returns whether a symbol is that of a keyword.
    pub fn is_keyword(&self, symbol: Symbol) -> bool
        ensures { Decides result (symbol.0 < self.now.keywords) }
    {
        (symbol.0 as usize) < self.keywords
    }

    /// Returns the word of a symbol.
    pub fn word(&self, symbol: Symbol) -> Option<&'a str>
        ensures { option_map (λ word. word.now) result ≡ slice_get self.now.names symbol.0 }
    {
        self.names.at(symbol.0 as usize)
    }
}

/// Makes a lexer with keywords.
pub fn with_keywords<'a>(
    alloc: Global,
    arena: &'a Bump,
    words: &[&str],
) -> Result<Lexer<'a>, AllocError> {
    let mut names = Interner::new(alloc, arena);
    for word in words.iter() {
        let _number = names.put(word)?;
    }
    let keywords = names.len();
    Ok(Lexer { names, keywords })
}

/// Returns whether two words are the same, by their symbols.
pub fn is_same(lexer: &mut Lexer<'_>, one: &str, two: &str) -> Result<bool, AllocError>
    ensures { IfOk result (λ same. Decides same (one.now ≡ two.now)) }
{
    let one = lexer.intern(one)?;
    let two = lexer.intern(two)?;
    Ok(one == two)
}

#[test]
fn a_word_had_another_symbol(rt: HostRuntime) -> Result<(), Fail> {
    let arena = Bump::new(rt.alloc());
    let mut lexer = with_keywords(rt.alloc(), &arena, &["let", "in"])?;
    let symbols = lexer.lex(rt.alloc(), &["let", "x", "in", "x", "y"])?;
    assert_eq!(rt;
        symbols.as_slice(),
        [Symbol(0), Symbol(2), Symbol(1), Symbol(2), Symbol(3)].as_slice()
    );
    for (symbol, word) in symbols.iter().zip(["let", "x", "in", "x", "y"]) {
        assert_eq!(rt; lexer.word(*symbol), Some(word));
        assert_eq!(rt; lexer.is_keyword(*symbol), word == "let" || word == "in");
    }
    assert_eq!(rt;
        (
            is_same(&mut lexer, "y", "y")?,
            is_same(&mut lexer, "y", "z")?
        ),
        (true, false)
    );
    Ok(())
}
