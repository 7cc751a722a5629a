//! Configurations by the paths of their files, each read and parsed once.
ghost use Rattle.std.specs.Prelude.{◌≡◌, [], None, Some, Ok, IfOk, OnErr};
ghost use Rattle.std.specs.Borrow.{Bor};
ghost use Rattle.std.specs.Map.{lookup};
ghost use Rattle.example_config_cache.specs.declared.config.Config.{Config};

use crate::config::{Config, ParseFault, Parser};
use bumpalo::Bump;
use elsa::SeededState;
use elsa::cache::{CacheFault, ParsedCache};
use std::alloc::Global;
use std::rt::Files;
use std::{fs, io};

/// The texts and the configurations of files, by path. Both are in one arena, and the
/// configurations borrow from the texts.
#[derive(Drop)]
pub struct Configs<'a> {
    parser: Parser<'a>,
    /// The texts that were read, and the configurations that were made of them.
    pub parsed: ParsedCache<'a, Config<'a>, SeededState>,
}

impl<'a> Configs<'a> {
    /// Makes a cache without files, whose paths are hashed with this secret. It allocates nothing.
    pub fn new(alloc: Global, arena: &'a Bump, secret: SeededState) -> Self
        ensures { result.parsed.resources ≡ [] }
    {
        Configs {
            parser: Parser::new(alloc, arena),
            parsed: ParsedCache::with_hashers(alloc, arena, secret, secret),
        }
    }

    /// Returns the configuration in a file. It reads the file unless its text is stored, and parses
    /// the text unless its configuration is stored.
    ///
    /// # Errors
    /// `Load` if the file can't be read or isn't UTF-8, `Parse` if a line is bad, `Memory` if an
    /// allocation fails. The configurations are then unchanged.
    pub fn config<R: Files + AllocGlobal>(
        &mut self,
        rt: &R,
        path: &str,
    ) -> Result<&'a Config<'a>, CacheFault<io::Error, ParseFault>>
        ensures present { (config : Bor Config) →
            lookup (⟦<&'a str as PartialEq>⟧.eq path.entry) self.old.parsed.resources ≡ Some config →
            (result ≡ Ok config) × (self.new.parsed ≡ self.old.parsed) }
        ensures stays { IfOk result (λ config.
            lookup (⟦<&'a str as PartialEq>⟧.eq path.entry) self.new.parsed.resources ≡ Some config) }
        ensures refused { OnErr result (self.new.parsed.resources ≡ self.old.parsed.resources) }
    {
        let parser = &mut self.parser;
        self.parsed.get_or_parse(
            path,
            |path| fs::read_to_string(rt, path),
            |text| parser.parse(text),
        )
    }
}
