//! Texts of any length in the shared interner: stored only if they are new, with each request
//! denied in turn, and put by two threads.
use crate::thread_tests::meet_all;
use bumpalo::Bump;
use elsa_lock_free_map::interner::{NameHandle, SharedInterner};
use elsa_lock_free_map::place_text::{PlaceText, TextBuffer};
use std::alloc::{AllocError, Allocator, Global};
use std::hash::{BuildHasherDefault, FoldHasher};
use std::process::Abort;
use std::sync::Wait;
use std::sync::atomic::AtomicU64;
use std::test::*;
use std::thread;
use test_alloc::Budget;
use test_script::{Family, Script, Squeeze, WORDS, goes_through, refuse_each_in_turn};

type Texts<'a, A> = SharedInterner<&'a str, BuildHasherDefault<FoldHasher>, A>;

type TextHandle<'i, 'a, A> = NameHandle<'i, &'a str, BuildHasherDefault<FoldHasher>, A>;

#[test]
fn a_text_that_another_handle_put_was_stored_again(rt: HostRuntime) -> Result<(), Fail> {
    let (one, two) = (Bump::new(rt.alloc()), Bump::new(rt.alloc()));
    let interner: SharedInterner<&str> = SharedInterner::new(rt.alloc())?;
    let (mut first, mut second) = (interner.handle(), interner.handle());
    for (text, number) in [("a text of no use at all", 0), ("", 1)] {
        for _ in 0..2 {
            assert_eq!(rt; first.put_text(&rt, &one, text), Ok(number), "{text}");
            assert_eq!(rt; second.put_text(&rt, &two, text), Ok(number), "{text}");
        }
        let got = (second.at(number), second.find(text));
        assert_eq!(rt; got, (Some(text), Some(number)));
    }
    assert_eq!(rt; two.allocated_bytes(), 0);
    Ok(())
}

/// Makes a text of 2,000 bytes that ends with `end`.
fn long(alloc: Global, end: &str) -> Result<String, AllocError> {
    let mut text = String::new(alloc);
    for _ in end.len()..2000 {
        text.push_str("x")?;
    }
    text.push_str(end)?;
    Ok(text)
}

/// One is stored in an arena, and the other in a buffer.
#[test]
fn a_text_of_thousands_of_bytes_was_not_stored(rt: HostRuntime) -> Result<(), Fail> {
    let (arena, mut bytes) = (Bump::new(rt.alloc()), [0; 2000]);
    let (fox, owl) = (long(rt.alloc(), "fox")?, long(rt.alloc(), "owl")?);
    let mut buffer = TextBuffer::new(&mut bytes);
    let interner: SharedInterner<&str> = SharedInterner::new(rt.alloc())?;
    let mut names = interner.handle();
    assert_eq!(rt; names.put_text(&rt, &arena, fox.as_str()), Ok(0));
    assert_eq!(rt; names.put_text(&rt, &mut buffer, owl.as_str()), Ok(1));
    assert_eq!(rt; names.find(owl.as_str()), Some(1));
    let got = (names.at(0), names.at(1));
    assert_eq!(rt; got, (Some(fox.as_str()), Some(owl.as_str())));
    Ok(())
}

const CALLS: usize = 32;

/// An interner with a handle of it, and the arena of its texts. Each even call puts a new word,
/// each odd call the first word.
#[derive(Drop)]
struct Words<'i, 'a, R: Wait, A: Allocator + Copy> {
    rt: &'i R,
    heap: &'i Budget<Global>,
    arena: &'a Bump,
    interner: &'i Texts<'a, A>,
    names: TextHandle<'i, 'a, A>,
}

/// Puts a word as a text that ends with the call.
fn put_short<'a, R: Wait, A: Allocator + Copy>(
    rt: &R,
    names: &mut TextHandle<'_, 'a, A>,
    arena: &'a Bump,
    word: &str,
) -> Result<usize, AllocError> {
    let mut bytes = [0; 8];
    bytes.copy_from_slice(word.as_bytes());
    names.put_text(rt, arena, str::from_utf8(&bytes).unwrap_or(""))
}

impl<'i, 'a, R: Wait, A: Allocator + Copy> Script for Words<'i, 'a, R, A> {
    fn call(&mut self, number: usize) -> Result<bool, AllocError> {
        let index = number / 2;
        if number % 2 == 0 {
            let put = put_short(self.rt, &mut self.names, self.arena, WORDS[index % 16])?;
            return Ok(put == index);
        }
        let asked = self.heap.asked();
        let room = self.arena.chunk_capacity();
        let put = put_short(self.rt, &mut self.names, self.arena, WORDS[0])?;
        Ok(put == 0 && self.heap.asked() == asked && self.arena.chunk_capacity() == room)
    }

    fn holds(&self, number: usize) -> bool {
        let count = number.div_ceil(2);
        let mut fresh = self.interner.handle();
        let mut has = |index: usize| fresh.at(index) == Some(WORDS[index]);
        (0..16).all(|index| has(index) == (index < count)) && fresh.len() == count
    }
}

#[derive(Drop)]
struct Interners<'r, R: Wait> {
    rt: &'r R,
}

impl<'r, R: Wait> Family for Interners<'r, R> {
    fn calls(&self) -> usize {
        CALLS
    }

    fn placings(&self, number: usize) -> usize {
        if number % 2 == 0 { 1 } else { 0 }
    }

    fn goes_over(&self, alloc: Global, heap: &Budget<Global>, squeezed: Squeeze) -> Option<u64> {
        let arena = Bump::new(alloc);
        let mut failures = 0;
        let mut made = SharedInterner::new(heap);
        if made.is_err() {
            failures = 1;
            heap.refuse_next(0);
            made = SharedInterner::new(heap);
        }
        let Ok(interner) = made else {
            return None;
        };
        let mut script = Words {
            rt: self.rt,
            heap,
            arena: &arena,
            interner: &interner,
            names: interner.handle(),
        };
        let refused = goes_through(&mut script, CALLS, heap, &arena, squeezed)?;
        Some(refused.saturating_add(failures))
    }
}

#[test]
fn a_refused_text_was_put(rt: HostRuntime) -> Result<(), Fail> {
    let refused = refuse_each_in_turn(rt.alloc(), &Interners { rt: &rt })?;
    assert!(rt;
        refused.requests >= 4 && refused.placings == 16,
        "{refused:?}"
    );
    Ok(())
}

/// Puts the words from `first` on, reads them back, and returns their numbers, or `None` if a call
/// failed.
fn numbers<'a, R: Wait + Abort>(
    rt: &R,
    interner: &SharedInterner<&'a str>,
    there: &AtomicU64,
    mut buffer: TextBuffer<'a>,
    first: usize,
) -> Option<[usize; 16]> {
    let (mut names, mut numbers) = (interner.handle(), [99; 16]);
    assert!(rt; meet_all(there, 2));
    for i in 0..16 {
        let index = (first + i) % 16;
        let number = names.put_text(rt, &mut buffer, WORDS[index]).ok()?;
        assert_eq!(rt; names.at(number), Some(WORDS[index]));
        numbers[index] = number;
    }
    Some(numbers)
}

#[test]
fn threads_with_buffers_of_their_own_had_two_numbers_for_a_text(
    rt: HostRuntime,
) -> Result<(), Fail> {
    let (mut one, mut two, handle) = ([0; 128], [0; 128], &rt);
    let (one, two) = (TextBuffer::new(&mut one), TextBuffer::new(&mut two));
    let interner: SharedInterner<&str> = SharedInterner::new(rt.alloc())?;
    let there = AtomicU64::new(0);
    let (first, second) = thread::join(
        handle,
        || numbers(handle, &interner, &there, one, 0),
        || numbers(handle, &interner, &there, two, 8),
    );
    assert!(rt; first.is_some());
    assert_eq!(rt; first, second);
    Ok(())
}

/// A buffer of eight bytes is filled with a text of five, one of four that doesn't fit, and one of
/// three.
#[test]
fn a_buffer_was_not_filled_to_its_last_byte(rt: HostRuntime) -> Result<(), Fail> {
    let mut bytes = [0; 8];
    let mut buffer = TextBuffer::new(&mut bytes);
    for (text, stored, room) in [("abcde", true, 3), ("fghi", false, 3), ("fgh", true, 0)] {
        let kept = (&mut buffer).place_text(text).ok();
        assert_eq!(rt; kept, if stored { Some(text) } else { None });
        assert_eq!(rt; (text, buffer.room()), (text, room));
    }
    Ok(())
}
