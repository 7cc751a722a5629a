//! A cache of the first characters of loaded texts, by path.
ghost use Rattle.std.specs.Prelude.{◌≡◌, [], List, ℕ, None, Some, Ok, IfErr, IfOk, OnErr};
ghost use Rattle.std.specs.Borrow.{Bor};
ghost use Rattle.std.specs.Fn.{FnOnceTakesAt};
ghost use Rattle.elsa_cache.specs.Cached.{BeginsText, Cached, FailsToLoad, GainsText, IsLoadCause, KeepsOthers, LoadsText, first_character, resource_at, text_at};

use super::parsed_cache::{CacheFault, ParsedCache};
use bumpalo::Bump;
use std::alloc::{Allocator, Global};
use std::convert::Infallible;
use std::error::Error;
use std::fmt;
use std::hash::{BuildHasher, BuildHasherDefault, FoldHasher};
use std::marker::Model;

/// The first character of a text as a slice, or the empty text.
#[derive(Clone, Copy, Debug)]
pub struct Resource<'a> {
    /// The first character, or the empty text.
    pub first: &'a str,
}

impl<'a> Resource<'a> {
    /// Makes the resource of `text`. It allocates nothing.
    pub fn new(text: &'a str) -> Self
        ensures { result.first.now ≡ first_character text.entry.now }
    {
        let mut rest = text.chars();
        let Some(character) = rest.next() else {
            return Resource { first: text };
        };
        Resource {
            first: &text[..character.len_utf8()],
        }
    }

    /// Returns the first character of the text of which it was made, or the empty text.
    pub fn get(&self) -> &'a str
        ensures { result ≡ self.now.first }
    {
        self.first
    }
}

/// The reason why a path has no resource.
#[derive(Clone, Copy, Debug, PartialEq, Eq)]
pub enum LoadFault {
    /// The loader found no text. Nothing has changed.
    NotFound = 1,
    /// An allocation failed. The resources are unchanged, and the path may have gained its text.
    Memory = 2,
}

impl fmt::Display for LoadFault {
    fn fmt<W: fmt::Write>(&self, f: &mut fmt::Formatter<W>) -> fmt::Result {
        f.pad(match self {
            LoadFault::NotFound => "the loader found no text at the path",
            LoadFault::Memory => "out of memory: the path has no resource",
        })
    }
}

impl Error for LoadFault {}

/// A map from paths to texts and to their resources. The paths are stored in the arena or outlive
/// the cache.
pub struct ResourceCache<
    'a,
    A: Allocator + Copy = Global,
    S: BuildHasher = BuildHasherDefault<FoldHasher>,
> {
    cache: ParsedCache<'a, Resource<'a>, S, A>,
}

impl<'a, A: Allocator + Copy, S: BuildHasher> Model for ResourceCache<'a, A, S> {
    ghost use Rattle.std.specs.Borrow.{Bor};
    ghost use Rattle.elsa_cache.specs.Cached.{Cached};
    ghost use Rattle.elsa_cache.specs.declared.resource_cache.Resource.{Resource};

    ghost Value = { Cached (Bor Resource) };

    ghost view = { λ c. c.cache };
}

impl<'a, A: Allocator + Copy, S: BuildHasher + Drop> Drop for ResourceCache<'a, A, S> {
    fn drop(self) {
        let ResourceCache { cache: _cache } = self;
    }
}

impl<'a, A: Allocator + Copy> ResourceCache<'a, A> {
    /// Makes an empty cache, which stores texts and resources in `arena`; `alloc` allocates its
    /// hash tables. It allocates nothing.
    ///
    /// The default hasher has no secret. If paths come from untrusted input, use
    /// [`with_hashers`](ResourceCache::with_hashers).
    pub fn new(alloc: A, arena: &'a Bump) -> Self
        ensures texts { result.texts ≡ [] }
        ensures resources { result.resources ≡ [] }
    {
        ResourceCache::with_hashers(
            alloc,
            arena,
            BuildHasherDefault::new(),
            BuildHasherDefault::new(),
        )
    }
}

impl<'a, A: Allocator + Copy, S: BuildHasher> ResourceCache<'a, A, S> {
    /// Makes an empty cache whose two hash tables hash by `texts` and `resources`. It allocates
    /// nothing.
    pub fn with_hashers(alloc: A, arena: &'a Bump, texts: S, resources: S) -> Self
        ensures texts { result.texts ≡ [] }
        ensures resources { result.resources ≡ [] }
    {
        ResourceCache {
            cache: ParsedCache::with_hashers(alloc, arena, texts, resources),
        }
    }

    /// Returns the resource of `path`. If it has none, makes one of its text, which is the one that
    /// it has or else the one that `load` returns.
    ///
    /// `load` is called once, unless the path has a text. A path that has a resource keeps it.
    ///
    /// # Errors
    /// Fails with [`LoadFault::NotFound`] if `load` does: nothing has changed. Fails with
    /// [`LoadFault::Memory`] if `load` does or an allocation fails: the resources are unchanged,
    /// and the path may have gained its text.
    ///
    /// # Allocates
    /// Nothing if the path has a resource. Otherwise the text and the resource in the arena, and
    /// room in two hash tables.
    ///
    /// # Cost
    /// One hash if the path has a resource, and four otherwise.
    pub fn get_resource<F: FnOnce(&str) -> Result<String, LoadFault>>(
        &mut self,
        path: &'a str,
        load: F,
    ) -> Result<&'a Resource<'a>, LoadFault>
    where
        F: Drop,
        requires loader { resource_at self.old path ≡ None → text_at self.old path ≡ None →
            FnOnceTakesAt F.FnOnce load path.now }

        // A present resource is returned. Otherwise one is made of the path's text, and stays.
        ensures present { (r : _) → resource_at self.old path.entry ≡ Some r →
            (result ≡ Ok r) × (self.new ≡ self.old) }
        ensures made { resource_at self.old path.entry ≡ None →
            IfOk result (λ r. BeginsText (text_at self.new path.entry) r.now.first.now) }
        ensures stays { IfOk result (λ r. resource_at self.new path.entry ≡ Some r) }

        // For every result: a text that the path gains is the loader's, and no other path changes.
        ensures gains { GainsText (LoadsText F.FnOnce load path.entry) self.old self.new path.entry }
        ensures others { KeepsOthers self.old self.new path.entry }

        // A failed call leaves the resources unchanged.
        ensures refused { OnErr result (self.new.resources ≡ self.old.resources) }
        ensures fault { IfErr result (λ f.
            IsLoadCause (FailsToLoad F.FnOnce load path.entry) (LoadsText F.FnOnce load path.entry)
            self.old self.new path.entry f) }
    {
        let made: Result<&Resource<'a>, CacheFault<LoadFault, Infallible>> = self
            .cache
            .get_or_parse_placed(path, load, |text| Ok(Resource::new(text)));
        match made {
            Ok(resource) => Ok(resource),
            Err(CacheFault::Load(fault)) => Err(fault),
            Err(CacheFault::Parse(never)) => match never {},
            Err(CacheFault::Memory) => Err(LoadFault::Memory),
        }
    }
}
