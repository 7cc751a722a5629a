//! [`Names`]: the names of an interner, the table that finds them, and the builder of their
//! hashers. A text is looked for as a [`Sought`], which has its hash.
ghost use Rattle.std.specs.Prelude.{◌≡◌, ◌↔◌, ℕ, [], List, length, None, Some, slice_get, position, map, slice_index_or, ◌<◌, ◌≤◌, ◌-◌, ◌^◌, IfErr, IfOk, IfSome, IsTrue, OnErr, OnOk};
ghost use Rattle.std.specs.Borrow.{Bor};
ghost use Rattle.std.specs.Str.{bytes_eq};
ghost use Rattle.elsa_interner.specs.Names.{Puts, IsFull, IsOneToOne, text_hash};
ghost use Rattle.elsa_buckets.specs.Table.{indices, Has, IsVacancy};

use bumpalo::Bump;
use elsa_buckets::table::{IndexTable, Vacancy};
use std::alloc::{AllocError, Allocator};
use std::hash::{BuildHasher, Hasher};
use std::marker::Model;

/// A guess at which there is no name.
pub const NO_GUESS: usize = usize::MAX;

/// Returns the hash of a text, as 32 bits.
///
/// The hasher receives only the bytes of the text. std's hash of a text adds a byte 255, which
/// separates the text from what is hashed after it; here nothing is.
#[inline(always)]
fn name_hash<S: BuildHasher>(hash_builder: &S, text: &str) -> u32
    ensures { result ≡ text_hash S.BuildHasher S.Hasher.Hasher hash_builder.now text.now }
{
    let mut hasher = hash_builder.build_hasher();
    hasher.write(text.as_bytes());
    let hash = hasher.finish();
    ((hash ^ (hash >> 32)) & 0xFFFF_FFFF) as u32
}

/// Returns whether two texts of more than sixteen bytes are equal. It is not inlined, so that
/// [`same_text`] stays short.
#[inline(never)]
fn same_long_text(a: &str, b: &str) -> bool
    ensures { result ≡ bytes_eq a.now b.now }
{
    a == b
}

/// Returns whether two texts are equal. Most names are short, and for at most sixteen bytes the
/// compiler compares two words instead of calling a function.
#[inline(always)]
fn same_text(a: &str, b: &str) -> bool
    ensures { result ≡ bytes_eq a.now b.now }
{
    if a.len() <= 16 {
        a == b
    } else {
        same_long_text(a, b)
    }
}

/// What is known of a text before it is looked for: its hash, and a guess at its number.
///
/// The guess is compared before a search, and may be any number.
#[derive(Clone, Copy)]
pub struct Known {
    pub hash: u32,
    pub guess: usize,
}

/// A text that is looked for, and what is known of it.
#[derive(Clone, Copy)]
pub struct Sought<'t> {
    pub text: &'t str,
    pub known: Known,
}

/// Returns the number of the text, or `Err` with the bucket into which it would be added. The name
/// at the guess is compared before the table is searched.
#[inline(always)]
fn search<A: Allocator + Copy>(
    names: &[&str],
    table: &IndexTable<A>,
    text: &str,
    known: Known,
) -> Result<usize, Vacancy>
    // The table has each index of the text under the hash, and the number of its indices is that of
    // the names. No two names are equal.
    requires entered { (i : ℕ) → slice_get (map (λ b. b.now) names.now) i ≡ Some text.now →
        Has table.now known.hash i }
    requires counted { indices table.now ≡ length names.now }
    requires one_to_one { IsOneToOne (map (λ b. b.now) names.now) }

    // The result is the number of the text; or the text isn't a name, and the bucket is a vacancy
    // for the hash.
    ensures found { IfOk result (λ i.
        position (bytes_eq text.now) (map (λ b. b.now) names.now) ≡ Some i) }
    ensures absent { OnErr result
        (position (bytes_eq text.now) (map (λ b. b.now) names.now) ≡ None) }
    ensures vacancy { IfErr result (IsVacancy table.now known.hash) }
{
    let Known { hash, guess } = known;
    if let Some(name) = names.get(guess) {
        if same_text(text, *name) {
            return Ok(guess);
        }
    }
    let is_it = |index|
        requires { index < length names.now }
        ensures { (d : Bor (List ℕ)) →
            result ≡ bytes_eq text.entry.now (slice_index_or names.entry.now index d).now }
    { same_text(text, names[index]) };
    table.search(hash, is_it)
}

/// Distinct names, numbered from 0 in the order in which they were put first.
///
/// It has borrows of the names, which are in an arena, but not the arena. Contracts see it as the
/// list of its names, each as its bytes, and the builder of their hashers: so a hash that was made
/// earlier is known to be that of its text.
#[derive(Drop)]
pub struct Names<'a, S: BuildHasher, A: Allocator + Copy> {
    // The name of each number, and the number of each name by its hash.
    list: Vec<&'a str, A>,
    table: IndexTable<A>,
    hash_builder: S,
}

impl<'a, S: BuildHasher, A: Allocator + Copy> Model for Names<'a, S, A> {
    ghost use Rattle.std.specs.Prelude.{List, ℕ, length, map};

    ghost Value = { List (List ℕ) × S };

    ghost view = { λ s. (map (λ b. b.now) s.list.items, s.hash_builder) };

    ghost use Rattle.elsa_buckets.specs.Table.{IsCount};
    ghost use Rattle.elsa_interner.specs.Names.{text_hash, IsNumbered};

    // Names are distinct, the table finds the number of each by its hash, and numbers fit into 32
    // bits.
    ghost invariant = { λ s. IsNumbered (text_hash S.BuildHasher S.Hasher.Hasher s.hash_builder)
        s.table (map (λ b. b.now) s.list.items) × IsCount (length s.list.items) };
}

impl<'a, S: BuildHasher, A: Allocator + Copy> Names<'a, S, A> {
    /// Makes a list without names. `hash_builder` hashes the names. It allocates nothing.
    pub fn new(alloc: A, hash_builder: S) -> Self
        ensures names { result.0 ≡ [] }
        ensures builder { result.1 ≡ hash_builder }
    {
        Names {
            list: Vec::new(alloc),
            table: IndexTable::new(alloc),
            hash_builder,
        }
    }

    /// Returns the names in the order of their numbers. It allocates nothing.
    #[inline(always)]
    pub fn as_slice(&self) -> &[&'a str]
        ensures names { map (λ b. b.now) result.now ≡ self.now.0 }
        ensures one_to_one { IsOneToOne self.now.0 }
        ensures limit { length result.now < 2 ^ 32 }
    {
        self.list.as_slice()
    }

    /// Returns the names in the order of their numbers, and drops the table. It allocates nothing.
    pub fn into_list(self) -> Vec<&'a str, A>
    where
        S: Drop,
        ensures names { map (λ b. b.now) result.items ≡ self.entry.0 }
    {
        let Names {
            list,
            table: _,
            hash_builder: _,
        } = self;
        list
    }

    /// Returns whether there are 2^32 - 1 names, the greatest number. It allocates nothing.
    #[inline]
    pub fn is_full(&self) -> bool
        ensures { IsTrue result ↔ IsFull self.now.0 }
    {
        self.table.is_full()
    }

    /// Returns the hash of a text. It allocates nothing.
    #[inline(always)]
    pub fn hash(&self, text: &str) -> u32
        ensures { result ≡ text_hash S.BuildHasher S.Hasher.Hasher self.now.1 text.now }
    {
        name_hash(&self.hash_builder, text)
    }

    /// Returns the text with what is known of it. If nothing is known, the text is hashed, and the
    /// guess is none.
    #[inline(always)]
    pub fn sought<'t>(&self, text: &'t str, known: Option<Known>) -> Sought<'t>
        requires hashed { IfSome known (λ k.
            k.hash ≡ text_hash S.BuildHasher S.Hasher.Hasher self.now.1 text.now) }
        ensures text { result.text.now ≡ text.now }
        ensures hashed { result.known.hash ≡
            text_hash S.BuildHasher S.Hasher.Hasher self.now.1 text.now }
    {
        let known = match known {
            Some(known) => known,
            None => Known {
                hash: self.hash(text),
                guess: NO_GUESS,
            },
        };
        Sought { text, known }
    }

    /// Returns a number that a text with this hash may have, or any other number. It allocates
    /// nothing.
    #[inline(always)]
    pub fn guess(&self, hash: u32) -> usize {
        self.table.guess(hash)
    }

    /// Returns the number of a text, or `None` if it isn't a name. It allocates nothing.
    #[inline]
    pub fn find(&self, text: &str) -> Option<usize>
        ensures index { result ≡ position (bytes_eq text.now) self.now.0 }
        ensures named { IfSome result (λ n. slice_get self.now.0 n ≡ Some text.now) }
        ensures fits { IfSome result (λ n. n < 2 ^ 32 - 1) }
    {
        let Sought { text, known } = self.sought(text, None);
        search(self.list.as_slice(), &self.table, text, known).ok()
    }

    /// Returns the number of names that there can be before the table or the list allocates.
    pub fn capacity(&self) -> usize
        ensures { length self.now.0 ≤ result }
    {
        self.list.capacity().min(self.table.capacity())
    }

    /// Reserves capacity in the list and in the table for `additional` more names. The names are
    /// unchanged, also if it fails.
    ///
    /// # Errors
    /// Fails if an allocation fails, or if there would be more than 2^32 - 1 names.
    pub fn reserve(&mut self, additional: usize) -> Result<(), AllocError>
        ensures { self.new ≡ self.old }
    {
        self.list.reserve(additional)?;
        self.table.reserve_indices(additional)
    }

    /// Returns the number of a text. A new text becomes a name: `placed` if it is given, otherwise
    /// a copy in the arena.
    ///
    /// # Errors
    /// Fails only for a new text: if an allocation fails, or if there are 2^32 - 1 names. The names
    /// are then unchanged.
    #[inline(always)]
    pub fn put<P: Allocator>(
        &mut self,
        arena: &'a Bump<P>,
        sought: Sought<'_>,
        placed: Option<&'a str>,
    ) -> Result<usize, AllocError>
        requires hashed { sought.known.hash ≡
            text_hash S.BuildHasher S.Hasher.Hasher self.old.1 sought.text.now }
        requires placed { IfSome placed (λ p. p.now ≡ sought.text.now) }

        // The result is the number of the present name, or the next number for a new one. Only a
        // new name fails, and then nothing changes.
        ensures numbered { IfOk result (λ n. Puts self.old.0 sought.entry.text.now n self.new.0) }
        ensures builder { self.new.1 ≡ self.old.1 }
        ensures refused { OnErr result (self.new ≡ self.old) }
        ensures only_new { OnErr result
            (position (bytes_eq sought.entry.text.now) self.old.0 ≡ None) }
        ensures limit { OnOk result (position (bytes_eq sought.entry.text.now) self.old.0 ≡ None →
            ¬ IsFull self.old.0) }
        ensures fits { IfOk result (λ n. n < 2 ^ 32 - 1) }
    {
        let Sought { text, known } = sought;
        let vacancy = match search(self.list.as_slice(), &self.table, text, known) {
            Ok(index) => return Ok(index),
            Err(vacancy) => vacancy,
        };
        self.list.reserve(1)?;
        let room = self.table.reserve(known.hash, vacancy)?;
        let name = if let Some(name) = placed {
            name
        } else {
            arena.try_alloc_str(text)?
        };
        let index = self.table.add(known.hash, room);
        self.list.push_reserved(name);
        Ok(index)
    }
}
