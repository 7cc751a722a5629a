//! The calls of a [`Dictionary`].
ghost use Rattle.std.specs.Prelude.{◌≡◌, ◌≤◌, ℕ, List, [], length, Option, Some, None, slice_get, position, is_some, IfOk, OnErr, true, false, MatchOption};
ghost use Rattle.std.specs.Str.{bytes_eq, IsUtf8};
ghost use Rattle.elsa_c.specs.Codes.{IsEnd, IsFound, IsPutEnd, IsRead, PutsAll, text_of};
ghost use Rattle.elsa_c.specs.Dictionary.{names_of};

use crate::fault::Fault;
use crate::handle::{Dictionary, Handle, Parts};
use crate::kept::Kept;
use crate::names::Progress;
use crate::seed::Seed;
use std::alloc::{AllocError, Global};
use std::mem::replace;
use std::ptr::null_mut;

impl Dictionary {
    /// Makes a dictionary without names, with this seed.
    pub fn new(alloc: Global, seed: Seed) -> Dictionary
        ensures empty { result.handle.value ≡ None }
        ensures seed { result.seed ≡ seed }
    {
        let ptr = null_mut();
        let handle = Handle::none(ptr, alloc);
        Dictionary {
            handle,
            kept: false,
            seed,
        }
    }

    /// Takes the names out. The dictionary then has none.
    pub fn take(&mut self, alloc: Global) -> Option<Box<Kept>>
        ensures taken { MatchOption result (self.old.handle.value ≡ None)
            (λ names. self.old.handle.value ≡ Some names.value) }
        ensures empty { self.new.handle.value ≡ None }
        ensures seed { self.new.seed ≡ self.old.seed }
    {
        let seed = self.seed;
        let old = replace(self, Dictionary::new(alloc, seed));
        let Dictionary { handle, kept, .. } = old;
        if !kept {
            return None;
        }
        Some(handle.into_parts().into_box())
    }

    /// Puts names in.
    pub fn restore(&mut self, names: Box<Kept>)
        ensures names { self.new.handle.value ≡ Some names.value }
        ensures seed { self.new.seed ≡ self.old.seed }
    {
        let seed = self.seed;
        *self = Dictionary {
            handle: Handle::of_parts(Parts::of(names)),
            kept: true,
            seed,
        };
    }

    /// Takes the names out, or makes some if there are none.
    ///
    /// # Errors
    /// Fails if an allocation fails. There were no names then, and there are none.
    fn take_or_make(&mut self, alloc: Global) -> Result<Box<Kept>, AllocError>
        ensures names { IfOk result (λ names. names.value ≡ names_of self.old) }
        ensures empty { OnErr result (names_of self.old ≡ []) }
        ensures emptied { self.new.handle.value ≡ None }
        ensures seed { self.new.seed ≡ self.old.seed }
    {
        let Some(names) = self.take(alloc) else {
            let Ok(made) = Box::new(alloc, Kept::new(alloc, self.seed)) else {
                return Err(AllocError);
            };
            return Ok(made);
        };
        Ok(names)
    }

    /// Writes the code of a text to `code`. A new text is copied, and has the next code.
    pub fn put(&mut self, alloc: Global, text: &[u8], code: &mut usize) -> Option<Fault>
        ensures end { IsPutEnd text.now (names_of self.old) (names_of self.new)
            code.old code.new result }
        ensures seed { self.new.seed ≡ self.old.seed }
    {
        let Ok(text) = str::from_utf8(text) else {
            return Some(Fault::NotUtf8);
        };
        let Ok(mut names) = self.take_or_make(alloc) else {
            return Some(Fault::Memory);
        };
        let number = names.put(text);
        self.restore(names);
        match number {
            Ok(number) => {
                *code = number;
                None
            }
            Err(fault) => Some(fault),
        }
    }

    /// Writes the code of each text of a block to `codes`. New texts are copied.
    pub fn put_many(
        &mut self,
        alloc: Global,
        bytes: &[u8],
        ends: &[usize],
        codes: &mut [usize],
    ) -> Progress
        ensures puts { PutsAll (text_of bytes.now ends.now) result.done (names_of self.old)
            (names_of self.new) codes.old codes.new }
        ensures length { length codes.new ≡ length codes.old }
        ensures within { (result.done ≤ length ends.now) × (result.done ≤ length codes.old) }
        ensures ended { IsEnd bytes.now ends.now (length codes.old) (names_of self.new)
            result.done result.fault }
        ensures seed { self.new.seed ≡ self.old.seed }
    {
        if ends.len() == 0 {
            return Progress {
                done: 0,
                fault: None,
            };
        }
        let Ok(mut names) = self.take_or_make(alloc) else {
            return Progress {
                done: 0,
                fault: Some(Fault::Memory),
            };
        };
        let progress = names.put_all(bytes, ends, codes);
        self.restore(names);
        progress
    }

    /// Returns the code of a text, or `None` if the dictionary does not have it.
    pub fn find(&mut self, alloc: Global, text: &[u8]) -> Option<usize>
        ensures found { IsFound text.now (names_of self.old) result }
        ensures same { names_of self.new ≡ names_of self.old }
        ensures seed { self.new.seed ≡ self.old.seed }
    {
        let Ok(text) = str::from_utf8(text) else {
            return None;
        };
        let Some(names) = self.take(alloc) else {
            return None;
        };
        let code = names.find(text);
        self.restore(names);
        code
    }

    /// Returns the address and the length of the text with this code, or `None` if there is none.
    pub fn at(&mut self, alloc: Global, code: usize) -> Option<(*const u8, usize)>
        ensures read { IsRead (names_of self.old) code result }
        ensures same { names_of self.new ≡ names_of self.old }
        ensures seed { self.new.seed ≡ self.old.seed }
    {
        let Some(names) = self.take(alloc) else {
            return None;
        };
        let text = names.text_at(code);
        self.restore(names);
        text
    }

    /// Returns the number of texts.
    pub fn len(&mut self, alloc: Global) -> usize
        ensures length { result ≡ length (names_of self.old) }
        ensures same { names_of self.new ≡ names_of self.old }
        ensures seed { self.new.seed ≡ self.old.seed }
    {
        let Some(names) = self.take(alloc) else {
            return 0;
        };
        let count = names.len();
        self.restore(names);
        count
    }
}
