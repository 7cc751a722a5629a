//! [`Names`]: texts of its own, each with a number, and the hash table that finds them.
//!
//! A handle of C can't have a lifetime, so the texts are not stored in an arena of the caller, as
//! those of an `Interner` are. They don't move, so a pointer to one is valid until the names are
//! dropped.
ghost use Rattle.std.specs.Prelude.{◌≡◌, ◌↔◌, ℕ, [], List, length, IsTrue, String, None, Some, slice_get, position, map, slice_index_or, ◌<◌, ◌≤◌, IfErr, IfOk, IfSome, OnErr, OnOk};
ghost use Rattle.std.specs.Option.{option_map};
ghost use Rattle.std.specs.Str.{bytes_eq};
ghost use Rattle.std.specs.Global.{Global};
ghost use Rattle.std_alloc.specs.String.{string_bytes};
ghost use mathlib.Core.List.{IsPrefix};
ghost use Rattle.elsa_interner.specs.Names.{Puts, IsFull, IsOneToOne, text_hash};
ghost use Rattle.elsa_buckets.specs.Table.{indices, Has, IsVacancy};
ghost use Rattle.elsa_c.specs.Codes.{PutsAll, IsEnd, IsRefused, status_code, text_of};

use crate::block::text_between;
use crate::fault::{Fault, status_of};
use elsa_buckets::table::{IndexTable, Vacancy};
use std::alloc::{AllocError, Global};
use std::hash::{BuildHasher, Hasher};
use std::marker::Model;

/// Returns the hash of a text, of 32 bits.
#[inline(always)]
fn name_hash<S: BuildHasher>(hash_builder: &S, text: &str) -> u32
    ensures { result ≡ text_hash S.BuildHasher S.Hasher.Hasher hash_builder.now text.now }
{
    let mut hasher = hash_builder.build_hasher();
    hasher.write(text.as_bytes());
    let hash = hasher.finish();
    ((hash ^ (hash >> 32)) & 0xFFFF_FFFF) as u32
}

/// Returns whether two texts are equal.
#[inline(always)]
fn same_text(a: &str, b: &str) -> bool
    ensures { result ≡ bytes_eq a.now b.now }
{
    a == b
}

/// Returns the number of the text in `names`, or `Err` with the bucket in which the table would
/// store it.
#[inline(always)]
fn search(
    names: &[String],
    table: &IndexTable<Global>,
    hash: u32,
    text: &str,
) -> Result<usize, Vacancy>
    // The table has each number of the text under the hash, and an index for each of the names,
    // which are one to one.
    requires entered { (i : ℕ) → slice_get (map (λ s. string_bytes s) names.now) i ≡ Some text.now →
        Has table.now hash i }
    requires counted { indices table.now ≡ length names.now }
    requires one_to_one { IsOneToOne (map (λ s. string_bytes s) names.now) }

    // The number of the text, or that it is no name, and where it would go.
    ensures found { IfOk result (λ i.
        position (bytes_eq text.now) (map (λ s. string_bytes s) names.now) ≡ Some i) }
    ensures absent { OnErr result
        (position (bytes_eq text.now) (map (λ s. string_bytes s) names.now) ≡ None) }
    ensures vacancy { IfErr result (IsVacancy table.now hash) }
{
    let is_it = |index|
        requires { index < length names.now }
        ensures { (d : String Global) →
            result ≡ bytes_eq text.entry.now (string_bytes (slice_index_or names.entry.now index d)) }
    { same_text(text, names[index].as_str()) };
    table.search(hash, is_it)
}

/// Texts that it owns, each with a number: the first has 0, the next 1, and so on.
///
/// In contracts it is the list of its texts, each as its bytes; a text's number is its index there.
#[derive(Drop)]
pub struct Names<S: BuildHasher> {
    // The text of each number, and the number of each text by its hash.
    names: Vec<String>,
    table: IndexTable<Global>,
    hash_builder: S,
}

impl<S: BuildHasher> Model for Names<S> {
    ghost use Rattle.std.specs.Prelude.{List, ℕ, map};
    ghost use Rattle.std_alloc.specs.String.{string_bytes};

    ghost Value = { List (List ℕ) };

    ghost view = { λ s. map (λ t. string_bytes t) s.names.items };

    ghost use Rattle.elsa_interner.specs.Names.{text_hash, IsNumbered};

    // Texts are distinct, and the table finds the number of each by its hash.
    ghost invariant = { λ s. IsNumbered (text_hash S.BuildHasher S.Hasher.Hasher s.hash_builder)
        s.table (map (λ t. string_bytes t) s.names.items) };
}

impl<S: BuildHasher> Names<S> {
    /// Makes names without a text. It allocates nothing.
    pub fn new(alloc: Global, hash_builder: S) -> Self
        ensures { result ≡ [] }
    {
        Names {
            names: Vec::new(alloc),
            table: IndexTable::new(alloc),
            hash_builder,
        }
    }

    /// Returns the number of a text, or `None` if it is not among the names.
    pub fn find(&self, text: &str) -> Option<usize>
        ensures { result ≡ position (bytes_eq text.now) self.now }
    {
        let hash = name_hash(&self.hash_builder, text);
        search(self.names.as_slice(), &self.table, hash, text).ok()
    }

    /// Returns the text with this number, or `None` if the number is at or above [`Names::len`].
    pub fn at(&self, number: usize) -> Option<&str>
        ensures { option_map (λ b. b.now) result ≡ slice_get self.now number }
    {
        let Some(name) = self.names.get(number) else {
            return None;
        };
        Some(name.as_str())
    }

    /// Returns the number of texts. The texts are one to one with the numbers below it.
    pub fn len(&self) -> usize
        ensures length { result ≡ length self.now }
        ensures one_to_one { IsOneToOne self.now }
    {
        self.names.len()
    }

    /// Returns whether there are 2^32 - 1 names: a `put` of a new text then fails.
    pub fn is_full(&self) -> bool
        ensures { IsTrue result ↔ IsFull self.now }
    {
        self.table.is_full()
    }

    /// Returns the number of a text, which is copied if it is new and then has the number that
    /// [`Names::len`] was.
    ///
    /// # Errors
    /// Fails for a new text if an allocation fails or if the names are full. They are then
    /// unchanged.
    #[inline(always)]
    pub fn put(&mut self, text: &str) -> Result<usize, AllocError>
        ensures numbered { IfOk result (λ n. Puts self.old text.now n self.new) }
        ensures refused { OnErr result (self.new ≡ self.old) }
        ensures only_new { OnErr result (position (bytes_eq text.now) self.old ≡ None) }
        ensures kept_at { (word : List ℕ) (i : ℕ) → position (bytes_eq word) self.old ≡ Some i →
            position (bytes_eq word) self.new ≡ Some i }
    {
        let hash = name_hash(&self.hash_builder, text);
        let vacancy = match search(self.names.as_slice(), &self.table, hash, text) {
            Ok(index) => return Ok(index),
            Err(vacancy) => vacancy,
        };
        self.names.reserve(1)?;
        let room = self.table.reserve(hash, vacancy)?;
        let name = String::from_str(*self.names.allocator(), text)?;
        let index = self.table.add(hash, room);
        self.names.push_reserved(name);
        Ok(index)
    }
}

/// How far a call came over the texts of a block.
#[derive(Clone, Copy)]
pub struct Progress {
    /// The number of texts that have their codes.
    pub done: usize,
    /// Why the next text has none, or `None` if all texts have theirs.
    pub fault: Option<Fault>,
}

impl Progress {
    /// Returns the number that C has for how it ended.
    pub fn status(self) -> u32
        ensures { result ≡ status_code self.fault }
    {
        status_of(self.fault)
    }
}

impl<S: BuildHasher> Names<S> {
    /// Writes the number of each text of the block to `codes`. A new text is copied.
    ///
    /// It stops at the first text that has no number. The texts before it keep theirs.
    pub fn put_all(&mut self, bytes: &[u8], ends: &[usize], codes: &mut [usize]) -> Progress
        ensures puts { PutsAll (text_of bytes.now ends.now) result.done self.old self.new
            codes.old codes.new }
        ensures length { length codes.new ≡ length codes.old }
        ensures within { (result.done ≤ length ends.now) × (result.done ≤ length codes.old) }
        ensures ended { IsEnd bytes.now ends.now (length codes.old) self.new
            result.done result.fault }
    {
        if codes.len() < ends.len() {
            return Progress {
                done: 0,
                fault: Some(Fault::TooFewCodes),
            };
        }
        let mut start = 0usize;
        for at in 0..ends.len() {
            let end = ends[at];
            let text = match text_between(bytes, start, end) {
                Ok(text) => text,
                Err(fault) => {
                    return Progress {
                        done: at,
                        fault: Some(fault),
                    };
                }
            };
            let Ok(code) = self.put(text) else {
                return Progress {
                    done: at,
                    fault: Some(self.refusal()),
                };
            };
            codes[at] = code;
            start = end;
        }
        Progress {
            done: ends.len(),
            fault: None,
        }
    }

    /// Returns why a new text did not get a number.
    #[cold]
    pub fn refusal(&self) -> Fault
        ensures { (text : List ℕ) → position (bytes_eq text) self.now ≡ None →
            IsRefused self.now text result }
    {
        if self.is_full() {
            Fault::Full
        } else {
            Fault::Memory
        }
    }
}
