//! A row of index entries, in one book of `logbook`: words with eight tags of 8 bits each, two for
//! each group of sixteen, then words with two numbers of 32 bits each. A tag or a number is a digit
//! of its word, and the rule of the book states that each digit has the value of the first event
//! that set it.
ghost use Rattle.std.specs.Prelude.{◌≡◌, ℕ, ◌+◌, ◌*◌, ◌^◌, ◌<◌, ◌≤◌, true, [], ◌∷◌, length, IfOk, Some};
ghost use mathlib.Core.List.{IsPrefix};
ghost use Rattle.elsa_hash_index.specs.Row.{Shows, bits_of, builder_of, count_of, digit, named_from, word_at, words_of};
ghost use Rattle.elsa_hash_index.specs.declared.row.Event.TheVariants.{Opened};

use crate::probe::{Words, groups};
use logbook::{Gain, Offer, Opening, Plain, Play, Rule, Seen, Start, Word};
use std::alloc::{AllocError, Allocator, Global};
use std::simd::prelude::*;

/// An event of a row. A history is a list of events; no value of this type is ever made.
pub enum Event<S> {
    /// The row was made, with this number of index entries, all of them 0, for the hashes of this
    /// builder.
    Opened(u64, S),
    /// The digit with this number was set to this value. The word `k` has the digits from `8 * k`
    /// on.
    Filled(u64, u64),
}

/// The rule of a row: each tag and each number has the value of the first event that set it, or is
/// 0.
pub struct FilledOnce;

impl<S> Rule<Event<S>, ()> for FilledOnce {
    ghost use Rattle.std.specs.Prelude.{[]};
    ghost use base.Fml.{ftrue};
    ghost use Rattle.elsa_hash_index.specs.Row.{IsKept};

    ghost holds = { λ cells log. IsKept cells log };

    ghost first = { [] };

    ghost hinted = { λ n log. Unit {0} };

    ghost shows = { λ log. [] };

    ghost keeps = { λ names log. ftrue };

    ghost moves = { λ ask before after answer. Unit {0} };
}

/// The gain of a step that gains nothing.
pub struct Nothing;

impl<S> Gain<Event<S>, ()> for Nothing {
    ghost use base.Fml.{ftrue};

    ghost after = { λ names about answer. ftrue };
}

/// A step that exchanges nothing with the rule.
pub struct Asks;

impl<S> Plain<(), Event<S>, ()> for Asks {
    ghost use Rattle.std.specs.Prelude.{None};
    ghost use Rattle.elsa_hash_index.specs.declared.row.Event.TheVariants.{Filled};

    ghost ask = { λ n. Filled 0 0 };

    ghost state = { λ n. None };
}

/// A load of a word.
pub struct Reads;

impl<S> Play<Event<S>, ()> for Reads {
    ghost use Rattle.elsa_hash_index.specs.Row.{Sees};

    ghost then = { Sees };
}

/// The exchange that sets a digit of a word.
pub struct Fills;

impl<S> Play<Event<S>, ()> for Fills {
    ghost use Rattle.elsa_hash_index.specs.Row.{Tries};

    ghost then = { Tries };
}

/// The opening of a row, with its number of index entries and the builder of its hashers.
pub struct Opens;

impl<S> Opening<(usize, S), Event<S>> for Opens {
    ghost use Rattle.std.specs.Prelude.{[], ◌∷◌};
    ghost use Rattle.elsa_hash_index.specs.declared.row.Event.TheVariants.{Opened};

    ghost log = { λ words about. Opened about.0 about.1 ∷ [] };
}

/// What was observed of a row's history.
pub type RowSeen<S> = Seen<Event<S>, (), FilledOnce>;

/// A hash index that threads share: a row of index entries, and the builder of the hashers with
/// whose hashes they were set.
#[derive(Drop)]
pub struct Row<S: Copy + Drop, A: Allocator = Global> {
    words: Vec<Word<Event<S>, (), FilledOnce>, A>,
    count: usize,
    builder: S,
    first: RowSeen<S>,
    ghost words_are: { words.items ≡ named_from first.book 0 (length words.items) },
    ghost whole: { length words.items ≡ words_of count },
    ghost opened: { first.log ≡ Opened count builder ∷ [] },
}

impl<S: Copy + Drop, A: Allocator + Copy> Row<S, A> {
    /// Makes a row of groups for `count` index entries, all of them 0.
    ///
    /// # Errors
    /// Fails if an allocation fails.
    ///
    /// # Cost
    /// `O(count)`: it writes each word.
    pub fn new(alloc: A, count: usize, builder: S) -> Result<Row<S, A>, AllocError>
        ensures { IfOk result (λ r. (r.count ≡ count) × (r.builder ≡ builder)) }
    {
        let number = 10 * groups(count);
        let mut words = Vec::with_capacity(alloc, number)?;
        let (first, mut pens) = Seen::open_row::<(usize, S), Opens>(
            &(count, builder),
            Start::alone(),
            number,
        );
        for _ in 0..number {
            let mut pen = pens.take();
            words.push_reserved(Word::tracked(0, &mut pen));
        }
        Ok(Row {
            words,
            count,
            builder,
            first,
        })
    }

    /// Makes a view that hasn't observed any index entry of the row yet.
    pub fn view<'a>(&'a self) -> RowView<'a, S, A>
        ensures same_row { result.row.now ≡ self.now }
        ensures fresh { result.seen ≡ self.now.first }
    {
        RowView {
            row: self,
            seen: self.first.again(),
        }
    }
}

/// A view of a row: what a thread has observed of it.
#[derive(Drop)]
pub struct RowView<'a, S: Copy + Drop, A: Allocator = Global> {
    row: &'a Row<S, A>,
    seen: RowSeen<S>,
    ghost of: { seen.book ≡ row.now.first.book },
    ghost opened: { count_of seen.log ≡ row.now.count },
    ghost built: { builder_of seen.log ≡ Some row.now.builder },
}

impl<'a, S: Copy + Drop, A: Allocator> RowView<'a, S, A> {
    /// Makes a view of the row that has observed what `known` has. It takes no atomic step, and
    /// does nothing when it runs.
    pub fn of(row: &'a Row<S, A>, known: &RowSeen<S>) -> RowView<'a, S, A>
        requires { known.now.book ≡ row.now.first.book }
        ensures same_row { result.row.now ≡ row.now }
        ensures known { IsPrefix known.now.log result.seen.log }
    {
        let mut seen = row.first.again();
        seen.learn(known);
        RowView { row, seen }
    }

    /// Returns the builder of the row's hashers.
    pub fn builder(&self) -> S
        ensures { result ≡ self.now.row.now.builder }
    {
        self.row.builder
    }

    /// Returns what the view has observed, to be passed on.
    pub fn into_seen(self) -> RowSeen<S>
        ensures { result ≡ self.entry.seen }
    {
        let RowView { row: _, seen } = self;
        seen
    }
}

impl<'a, S: Copy + Drop, A: Allocator> RowView<'a, S, A> {
    /// Loads a word, whose digits the view has then observed.
    #[inline(always)]
    fn load_word(&mut self, word: usize) -> u64
        requires { (word < words_of self.old.row.now.count) × (0 < self.old.row.now.count) }
        ensures same { (self.new.row.now ≡ self.old.row.now) ×
            (self.new.seen.book ≡ self.old.seen.book) }
        ensures later { IsPrefix self.old.seen.log self.new.seen.log }
        ensures shown { Shows word result self.new.seen.log }
    {
        let mut offer: Offer<Event<S>, (), FilledOnce, Nothing> = self
            .seen
            .plain::<Nothing, (), Asks>(&());
        self.row.words[word].load::<Reads, Nothing>(&mut self.seen, &mut offer)
    }

    /// Sets the digit `j` of a word that has the value `old`, and returns whether it had it.
    #[inline(always)]
    fn exchange(&mut self, word: usize, old: u64, new: u64, j: usize, value: u64) -> bool
        requires within { (word < words_of self.old.row.now.count) × (j < 8) ×
            (0 < self.old.row.now.count) }
        requires free { digit (bits_of self.old.row.now.count word) j old ≡ 0 }
        requires fits { (0 < value) × (value < 2 ^ bits_of self.old.row.now.count word) }
        requires sum { new ≡ old + value * 2 ^ (j * bits_of self.old.row.now.count word) }
        ensures { (self.new.row.now ≡ self.old.row.now) ×
            (self.new.seen.book ≡ self.old.seen.book) ×
            IsPrefix self.old.seen.log self.new.seen.log ×
            (result ≡ true → Shows word new self.new.seen.log) }
    {
        let _ = (j, value);
        let mut offer: Offer<Event<S>, (), FilledOnce, Nothing> = self
            .seen
            .plain::<Nothing, (), Asks>(&());
        let mut pen = self.seen.no_pen();
        self.row.words[word].compare_exchange::<Fills, Nothing>(
            old,
            new,
            &mut self.seen,
            &mut offer,
            &mut pen,
        ) == old
    }

    /// Sets the digit `j` of a word if it is 0, and returns whether it did. It tries again as often
    /// as the word has other digits, each of which another thread may set meanwhile.
    #[inline(always)]
    fn set(&mut self, word: usize, j: usize, shift: usize, base: u64, value: u64) -> bool
        requires within { (word < words_of self.old.row.now.count) × (j < 8) ×
            (0 < self.old.row.now.count) × (shift < 64) }
        requires shifted { shift ≡ j * bits_of self.old.row.now.count word }
        requires based { (base ≡ 2 ^ bits_of self.old.row.now.count word) ×
            (shift + bits_of self.old.row.now.count word ≤ 64) }
        requires fits { (0 < value) × (value < base) }
        ensures { (self.new.row.now ≡ self.old.row.now) ×
            (self.new.seen.book ≡ self.old.seen.book) ×
            IsPrefix self.old.seen.log self.new.seen.log ×
            (result ≡ true → word_at (8 * word + j) self.new.seen.log ≡ value) }
    {
        for _ in 0..8 {
            let old = self.load_word(word);
            if (old >> shift) % base != 0 {
                return false;
            }
            if self.exchange(word, old, old.wrapping_add(value << shift), j, value) {
                return true;
            }
        }
        false
    }
}

impl<'a, S: Copy + Drop, A: Allocator> Words<S> for RowView<'a, S, A> {
    ghost use Rattle.elsa_hash_index.specs.Row.{word_at};

    ghost whose = { λ v. (v.seen.book, v.row.now.builder) };

    ghost count = { λ v. v.row.now.count };

    ghost known = { λ v k. word_at k v.seen.log };

    fn len(&self) -> usize {
        self.row.count
    }

    #[inline(always)]
    fn tag(&mut self, at: usize) -> u64 {
        let word = self.load_word(at / 8);
        (word >> (at % 8 * 8)) % 256
    }

    #[inline(always)]
    fn tags(&mut self, group: usize) -> u8x16 {
        // Most look-ups read a number of the group next. This load doesn't wait for the tags.
        let _early = self.load_word(2 * groups(self.row.count) + (8 * group + 4));
        let low = self.load_word(2 * group);
        let high = self.load_word(2 * group + 1);
        u64x2::from_array([low, high]).to_le_bytes()
    }

    #[inline(always)]
    fn number(&mut self, at: usize) -> u64 {
        let word = self.load_word(2 * groups(self.row.count) + at / 2);
        (word >> (at % 2 * 32)) % 0x1_0000_0000
    }

    fn set_tag(&mut self, at: usize, tag: u64) -> bool {
        self.set(at / 8, at % 8, at % 8 * 8, 256, tag)
    }

    fn set_number(&mut self, at: usize, number: u64) -> bool {
        self.set(
            2 * groups(self.row.count) + at / 2,
            at % 2,
            at % 2 * 32,
            0x1_0000_0000,
            number,
        )
    }
}
