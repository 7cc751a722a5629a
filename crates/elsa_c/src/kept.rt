//! [`Kept`]: the names of a dictionary, as one type without parameters.
ghost use Rattle.std.specs.Prelude.{◌≡◌, ◌≤◌, ℕ, [], List, length, Some, position, IfErr, IfOk, OnErr};
ghost use Rattle.std.specs.Str.{bytes_eq};
ghost use Rattle.elsa_interner.specs.Names.{Puts};
ghost use Rattle.elsa_c.specs.Codes.{IsEnd, IsRead, IsRefused, PutsAll, text_of};

use crate::fault::Fault;
use crate::names::{Names, Progress};
use crate::seed::Seed;
use elsa_hash::seeded::SeededState;
use std::alloc::Global;
use std::marker::Model;
use std::ptr::{from_ref, null};

/// Returns the address and the length of a text. The address of an empty text is null.
pub fn address_of(text: &str) -> (*const u8, usize)
    ensures length { result.1 ≡ length text.now }
{
    let bytes = text.as_bytes();
    let Some(first) = bytes.first() else {
        return (null(), 0);
    };
    (from_ref(first), bytes.len())
}

/// The names of a dictionary. A handle of C points to it.
#[derive(Drop)]
pub struct Kept {
    pub(crate) names: Names<SeededState>,
}

impl Model for Kept {
    ghost use Rattle.std.specs.Prelude.{List, ℕ};

    ghost Value = { List (List ℕ) };

    ghost view = { λ s. s.names };
}

impl Kept {
    /// Makes names without a text, which it will find by a hash with this seed. It allocates
    /// nothing.
    pub fn new(alloc: Global, seed: Seed) -> Self
        ensures { result ≡ [] }
    {
        Kept {
            names: Names::new(alloc, seed.state()),
        }
    }

    /// Returns the number of a text, which is copied if it is new.
    ///
    /// # Errors
    /// Fails for a new text if an allocation fails or if the names are full. They are then
    /// unchanged.
    pub fn put(&mut self, text: &str) -> Result<usize, Fault>
        ensures numbered { IfOk result (λ n. Puts self.old text.now n self.new) }
        ensures refused { OnErr result (self.new ≡ self.old) }
        ensures fault { IfErr result (IsRefused self.old text.now) }
    {
        let Ok(number) = self.names.put(text) else {
            return Err(self.names.refusal());
        };
        Ok(number)
    }

    /// Writes the number of each text of the block to `codes`. A new text is copied.
    pub fn put_all(&mut self, bytes: &[u8], ends: &[usize], codes: &mut [usize]) -> Progress
        ensures puts { PutsAll (text_of bytes.now ends.now) result.done self.old self.new
            codes.old codes.new }
        ensures length { length codes.new ≡ length codes.old }
        ensures within { (result.done ≤ length ends.now) × (result.done ≤ length codes.old) }
        ensures ended { IsEnd bytes.now ends.now (length codes.old) self.new
            result.done result.fault }
    {
        self.names.put_all(bytes, ends, codes)
    }

    /// Returns the number of a text, or `None` if it is not among the names.
    pub fn find(&self, text: &str) -> Option<usize>
        ensures { result ≡ position (bytes_eq text.now) self.now }
    {
        self.names.find(text)
    }

    /// Returns the address and the length of the text with this number, or `None` if there is none.
    ///
    /// The text stays there until the names are dropped. The address of an empty text is null.
    pub fn text_at(&self, number: usize) -> Option<(*const u8, usize)>
        ensures { IsRead self.now number result }
    {
        let Some(text) = self.names.at(number) else {
            return None;
        };
        Some(address_of(text))
    }

    /// Returns the number of texts.
    pub fn len(&self) -> usize
        ensures { result ≡ length self.now }
    {
        self.names.len()
    }
}
