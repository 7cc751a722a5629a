//! A cache of the values that a parser makes of loaded texts. The values may borrow from the texts.
ghost use Rattle.std.specs.Prelude.{◌≡◌, [], List, ℕ, None, Some, Ok, IfErr, IfOk, IfSome, OnErr, length};
ghost use Rattle.std.specs.Borrow.{Bor};
ghost use Rattle.std.specs.Fn.{FnOnceTakesAt};
ghost use Rattle.std.specs.Option.{ForSome};
ghost use Rattle.elsa_cache.specs.Cached.{Cached, FailsToLoad, GainsText, IsCause, KeepsOthers, LoadsText, ParsedTo, resource_at, same_text, text_at};
ghost use Rattle.elsa_maps.specs.FirstWins.{AddsNew, IsRefused, value_at};

use bumpalo::Bump;
use elsa_maps::map::FrozenMap;
use elsa_vec::stable::{Own, StableDeref};
use std::alloc::{AllocError, Allocator, Global};
use std::error::Error;
use std::fmt;
use std::hash::{BuildHasher, BuildHasherDefault, FoldHasher};
use std::marker::Model;

/// The reason why a path has no value.
#[derive(Clone, Copy, Debug, PartialEq, Eq)]
pub enum CacheFault<L, P> {
    /// The loader's error. Nothing has changed.
    Load(L),
    /// The parser's error. The path has its text now; nothing else has changed.
    Parse(P),
    /// An allocation failed. The values are unchanged, and the path may have gained its text.
    Memory,
}

impl<L: fmt::Display, P: fmt::Display> fmt::Display for CacheFault<L, P> {
    fn fmt<W: fmt::Write>(&self, f: &mut fmt::Formatter<W>) -> fmt::Result {
        match self {
            CacheFault::Load(error) => write!(f, "the path's text could not be loaded: {error}"),
            CacheFault::Parse(error) => write!(f, "the path's text could not be parsed: {error}"),
            CacheFault::Memory => f.write_str("out of memory: the path has no value"),
        }
    }
}

impl<L: Error, P: Error> Error for CacheFault<L, P> {}

/// A map from paths to texts and to the values that are made of them. A value may borrow from its
/// text. The texts and the values are stored in the arena.
pub struct ParsedCache<
    'a,
    T: Copy + 'a,
    S: BuildHasher = BuildHasherDefault<FoldHasher>,
    A: Allocator + Copy = Global,
> {
    texts: FrozenMap<'a, &'a str, String, S, A>,
    values: FrozenMap<'a, &'a str, Own<T>, S, A>,
}

impl<'a, T: Copy + 'a, S: BuildHasher, A: Allocator + Copy> Model for ParsedCache<'a, T, S, A> {
    ghost use Rattle.std.specs.Borrow.{Bor};
    ghost use Rattle.elsa_cache.specs.Cached.{Cached};

    ghost Value = { Cached (Bor T) };

    ghost view = { λ c. record { texts = c.texts; resources = c.values } };
}

impl<'a, T: Copy + 'a, S: BuildHasher + Drop, A: Allocator + Copy> Drop
    for ParsedCache<'a, T, S, A> {
    fn drop(self) {
        let ParsedCache {
            texts: _texts,
            values: _values,
        } = self;
    }
}

impl<'a, T: Copy + 'a, A: Allocator + Copy> ParsedCache<'a, T, BuildHasherDefault<FoldHasher>, A> {
    /// Makes an empty cache, which stores texts and values in `arena`; `alloc` allocates its hash
    /// tables. It allocates nothing.
    ///
    /// The default hasher has no secret. If paths come from untrusted input, use
    /// [`with_hashers`](ParsedCache::with_hashers).
    pub fn new(alloc: A, arena: &'a Bump) -> Self
        ensures texts { result.texts ≡ [] }
        ensures values { result.resources ≡ [] }
    {
        ParsedCache::with_hashers(
            alloc,
            arena,
            BuildHasherDefault::new(),
            BuildHasherDefault::new(),
        )
    }
}

// Inserts the value of the path into a map of the cache, unless it has one, and returns the value
// that it then has. The key is `placed`, or a copy of the path in the arena if `placed` is `None`.
fn keep<'a, V: StableDeref<&'a Bump>, S: BuildHasher, A: Allocator + Copy>(
    table: &mut FrozenMap<'a, &'a str, V, S, A>,
    path: &str,
    placed: Option<&'a str>,
    value: V,
) -> Result<V::Borrow, AllocError>
    requires reads_same { ForSome placed (λ p. p.now ≡ path.now) }
    ensures present { (x : V.Borrow) → value_at same_text table.old path.entry ≡ Some x →
        (result ≡ Ok x) × (table.new ≡ table.old) }
    ensures value_after { IfOk result (λ b. value_at same_text table.new path.entry ≡ Some b) }
    ensures added { value_at same_text table.old path.entry ≡ None → IfOk result (λ b.
        AddsNew same_text V.target V.shown table.old path.entry value b table.new) }
    ensures refused { OnErr result (IsRefused same_text table.old path.entry table.new) }
{
    match placed {
        Some(placed) => table.insert(placed, value),
        None => table.insert_text(path, value),
    }
}

impl<'a, T: Copy + 'a, S: BuildHasher, A: Allocator + Copy> ParsedCache<'a, T, S, A> {
    /// Makes an empty cache whose two hash tables hash by `texts` and `values`. It allocates
    /// nothing.
    pub fn with_hashers(alloc: A, arena: &'a Bump, texts: S, values: S) -> Self
        ensures texts { result.texts ≡ [] }
        ensures values { result.resources ≡ [] }
    {
        ParsedCache {
            texts: FrozenMap::with_hasher(alloc, arena, texts),
            values: FrozenMap::with_hasher(alloc, arena, values),
        }
    }

    /// Returns the value of `path`, or `None` if it has none.
    ///
    /// # Cost
    /// One hash and one search.
    pub fn get(&self, path: &str) -> Option<&'a T>
        ensures { result ≡ resource_at self.now path.entry }
    {
        self.values.get(path)
    }

    /// Returns the text of `path`, or `None` if it has none.
    ///
    /// # Cost
    /// One hash and one search.
    pub fn text(&self, path: &str) -> Option<&'a str>
        ensures { result ≡ text_at self.now path.entry }
    {
        self.texts.get(path)
    }

    /// Returns the number of paths that have a value.
    pub fn len(&self) -> usize
        ensures { result ≡ length self.now.resources }
    {
        self.values.len()
    }

    // Returns the text of the path: the one that it has, or else the loader's, which is inserted.
    // The key is `placed`, or a copy of the path. Returns `None` if an allocation failed.
    fn load<L, F: FnOnce(&str) -> Result<String, L>>(
        &mut self,
        path: &str,
        placed: Option<&'a str>,
        load: F,
    ) -> Result<Option<&'a str>, L>
    where
        F: Drop,
        requires reads_same { ForSome placed (λ p. p.now ≡ path.now) }
        requires loader { text_at self.old path ≡ None → FnOnceTakesAt F.FnOnce load path.now }

        // A present text is returned, and nothing changes. Otherwise the loader's is, and stays.
        ensures present { (t : Bor (List ℕ)) → text_at self.old path.entry ≡ Some t →
            (result ≡ Ok (Some t)) × (self.new ≡ self.old) }
        ensures stays { IfOk result (λ o. IfSome o (λ t. text_at self.new path.entry ≡ Some t)) }
        ensures gains { GainsText (LoadsText F.FnOnce load path.entry) self.old self.new path.entry }

        // No other path changes.
        ensures others { KeepsOthers self.old self.new path.entry }
        ensures values { self.new.resources ≡ self.old.resources }

        // If an allocation or the loader fails, nothing changes.
        ensures no_memory { result ≡ Ok None →
            (self.new ≡ self.old) × (text_at self.old path.entry ≡ None) }
        ensures no_room { result ≡ Ok None → (b : List ℕ) × LoadsText F.FnOnce load path.entry b }
        ensures not_loaded { IfErr result (λ e. (self.new ≡ self.old)
            × (text_at self.old path.entry ≡ None) × FailsToLoad F.FnOnce load path.entry e) }
    {
        if let Some(text) = self.texts.get(path) {
            return Ok(Some(text));
        }
        let loaded = load(path)?;
        let Ok(text) = keep(&mut self.texts, path, placed, loaded) else {
            return Ok(None);
        };
        Ok(Some(text))
    }

    // Returns the value of the path. The keys of its text and its value are `placed`, or copies of
    // the path.
    fn value_of<L, P, F: FnOnce(&str) -> Result<String, L>, G: FnOnce(&'a str) -> Result<T, P>>(
        &mut self,
        path: &str,
        placed: Option<&'a str>,
        load: F,
        parse: G,
    ) -> Result<&'a T, CacheFault<L, P>>
    where
        F: Drop,
        G: Drop,
        requires reads_same { ForSome placed (λ p. p.now ≡ path.now) }
        requires loader { resource_at self.old path ≡ None → text_at self.old path ≡ None →
            FnOnceTakesAt F.FnOnce load path.now }
        requires parser { resource_at self.old path ≡ None → G.IsAlwaysCallable parse }

        // Returns the value that the path has, or one that is made of the text that it then has.
        ensures present { (v : Bor T) → resource_at self.old path.entry ≡ Some v →
            (result ≡ Ok v) × (self.new ≡ self.old) }
        ensures made { resource_at self.old path.entry ≡ None →
            IfOk result (λ v. ParsedTo (G.post parse) self.new path.entry (Ok v.now)) }
        ensures stays { IfOk result (λ v. resource_at self.new path.entry ≡ Some v) }

        // For every result: a text that the path gains is the loader's, and no other path changes.
        ensures gains { GainsText (LoadsText F.FnOnce load path.entry) self.old self.new path.entry }
        ensures others { KeepsOthers self.old self.new path.entry }

        // A failed call leaves the values unchanged.
        ensures refused { OnErr result (self.new.resources ≡ self.old.resources) }
        ensures fault { IfErr result (λ f. IsCause
            (FailsToLoad F.FnOnce load path.entry) (LoadsText F.FnOnce load path.entry) (G.post parse)
            self.old self.new path.entry f) }
    {
        if let Some(value) = self.values.get(path) {
            return Ok(value);
        }
        let text = match self.load(path, placed, load) {
            Ok(Some(text)) => text,
            Ok(None) => return Err(CacheFault::Memory),
            Err(fault) => return Err(CacheFault::Load(fault)),
        };
        let value = match parse(text) {
            Ok(value) => value,
            Err(fault) => return Err(CacheFault::Parse(fault)),
        };
        let Ok(kept) = keep(&mut self.values, path, placed, Own(value)) else {
            return Err(CacheFault::Memory);
        };
        Ok(kept)
    }

    /// Returns the value of `path`. If it has none, makes one: `load` returns the text, unless the
    /// path has one, and `parse` makes the value of the text.
    ///
    /// Neither closure is called if the path has a value, and `load` is not called if it has a
    /// text. Each is called at most once.
    ///
    /// # Errors
    /// Fails with [`CacheFault::Load`] if `load` fails: nothing has changed. Fails with
    /// [`CacheFault::Parse`] if `parse` fails: the path has its text, and nothing else has changed.
    /// Fails with [`CacheFault::Memory`] if an allocation fails: the values are unchanged, and the
    /// path may have gained its text.
    ///
    /// # Allocates
    /// Nothing if the path has a value. Otherwise two copies of the path, the text and the value in
    /// the arena, and room in two hash tables.
    ///
    /// # Cost
    /// One hash if the path has a value, and six otherwise.
    pub fn get_or_parse<
        L,
        P,
        F: FnOnce(&str) -> Result<String, L>,
        G: FnOnce(&'a str) -> Result<T, P>,
    >(&mut self, path: &str, load: F, parse: G) -> Result<&'a T, CacheFault<L, P>>
    where
        F: Drop,
        G: Drop,
        requires loader { resource_at self.old path ≡ None → text_at self.old path ≡ None →
            F.IsAlwaysCallable load }
        requires parser { resource_at self.old path ≡ None → G.IsAlwaysCallable parse }

        // Returns the value that the path has, or one that is made of the text that it then has.
        ensures present { (v : Bor T) → resource_at self.old path.entry ≡ Some v →
            (result ≡ Ok v) × (self.new ≡ self.old) }
        ensures made { resource_at self.old path.entry ≡ None →
            IfOk result (λ v. ParsedTo (G.post parse) self.new path.entry (Ok v.now)) }
        ensures stays { IfOk result (λ v. resource_at self.new path.entry ≡ Some v) }

        // For every result: a text that the path gains is the loader's, and no other path changes.
        ensures gains { GainsText (LoadsText F.FnOnce load path.entry) self.old self.new path.entry }
        ensures others { KeepsOthers self.old self.new path.entry }

        // A failed call leaves the values unchanged.
        ensures refused { OnErr result (self.new.resources ≡ self.old.resources) }
        ensures fault { IfErr result (λ f. IsCause
            (FailsToLoad F.FnOnce load path.entry) (LoadsText F.FnOnce load path.entry) (G.post parse)
            self.old self.new path.entry f) }
    {
        self.value_of(path, None, load, parse)
    }

    /// Returns the value of `path`, like [`get_or_parse`](ParsedCache::get_or_parse), for a path
    /// that is stored in the arena or outlives the cache. That borrow is the key in both hash
    /// tables, and the path is not copied.
    ///
    /// # Errors
    /// Fails with [`CacheFault::Load`] if `load` fails: nothing has changed. Fails with
    /// [`CacheFault::Parse`] if `parse` fails: the path has its text, and nothing else has changed.
    /// Fails with [`CacheFault::Memory`] if an allocation fails: the values are unchanged, and the
    /// path may have gained its text.
    ///
    /// # Allocates
    /// Nothing if the path has a value. Otherwise the text and the value in the arena, and room in
    /// two hash tables.
    ///
    /// # Cost
    /// One hash if the path has a value, and four otherwise.
    pub fn get_or_parse_placed<
        L,
        P,
        F: FnOnce(&str) -> Result<String, L>,
        G: FnOnce(&'a str) -> Result<T, P>,
    >(&mut self, path: &'a str, load: F, parse: G) -> Result<&'a T, CacheFault<L, P>>
    where
        F: Drop,
        G: Drop,
        requires loader { resource_at self.old path ≡ None → text_at self.old path ≡ None →
            FnOnceTakesAt F.FnOnce load path.now }
        requires parser { resource_at self.old path ≡ None → G.IsAlwaysCallable parse }

        // Returns the value that the path has, or one that is made of the text that it then has.
        ensures present { (v : Bor T) → resource_at self.old path.entry ≡ Some v →
            (result ≡ Ok v) × (self.new ≡ self.old) }
        ensures made { resource_at self.old path.entry ≡ None →
            IfOk result (λ v. ParsedTo (G.post parse) self.new path.entry (Ok v.now)) }
        ensures stays { IfOk result (λ v. resource_at self.new path.entry ≡ Some v) }

        // For every result: a text that the path gains is the loader's, and no other path changes.
        ensures gains { GainsText (LoadsText F.FnOnce load path.entry) self.old self.new path.entry }
        ensures others { KeepsOthers self.old self.new path.entry }

        // A failed call leaves the values unchanged.
        ensures refused { OnErr result (self.new.resources ≡ self.old.resources) }
        ensures fault { IfErr result (λ f. IsCause
            (FailsToLoad F.FnOnce load path.entry) (LoadsText F.FnOnce load path.entry) (G.post parse)
            self.old self.new path.entry f) }
    {
        self.value_of(path, Some(path), load, parse)
    }
}
