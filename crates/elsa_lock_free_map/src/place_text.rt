//! Where copies of texts are kept: an arena, or a buffer that moves to a thread.
ghost use Rattle.std.specs.Prelude.{◌≡◌, ◌≤◌, ◌+◌, ◌↔◌, length, IfOk, IsOk, OnOk, OnErr};

use bumpalo::Bump;
use std::alloc::{AllocError, Allocator};
use std::marker::Model;

/// What keeps a copy of a text for the lifetime `'a`.
pub trait PlaceText<'a> {
    /// A copy of the text. `Err` if there is no room for it.
    fn place_text(self, text: &str) -> Result<&'a str, AllocError>
        ensures { IfOk result (λ s. s.now ≡ text.now) };
}

/// Copies the text into the arena, over any allocator, which takes memory as it grows.
impl<'a, P: Allocator> PlaceText<'a> for &'a Bump<P> {
    fn place_text(self, text: &str) -> Result<&'a str, AllocError> {
        self.try_alloc_str(text)
    }
}

/// A buffer of the caller in which texts are stored one after the other. It allocates nothing.
/// Unlike a `Bump`, it can be moved to another thread.
#[derive(Drop)]
pub struct TextBuffer<'a> {
    // The bytes that no text has yet.
    free: &'a mut [u8],
}

impl<'a> Model for TextBuffer<'a> {
    ghost use Rattle.std.specs.Prelude.{ℕ, length};

    ghost Value = { ℕ };

    ghost view = { λ b. length b.free.now };
}

impl<'a> TextBuffer<'a> {
    /// Makes a buffer without texts; it has room for `buffer.len()` bytes.
    pub fn new(buffer: &'a mut [u8]) -> TextBuffer<'a>
        ensures { result ≡ length buffer.old }
    {
        TextBuffer { free: buffer }
    }

    /// Returns the number of bytes that can still be stored.
    ///
    /// # Cost
    /// `O(1)`.
    pub fn room(&self) -> usize
        ensures { result ≡ self.now }
    {
        self.free.len()
    }
}

/// Copies the text after the earlier texts. Fails exactly if the text has more bytes than
/// [`room`](TextBuffer::room) returns.
impl<'a> PlaceText<'a> for &mut TextBuffer<'a> {
    fn place_text(self, text: &str) -> Result<&'a str, AllocError>
        ensures text { IfOk result (λ s. s.now ≡ text.now) }
        ensures fits { IsOk result ↔ (length text.now ≤ self.old) }
        ensures room { OnOk result (self.new + length text.now ≡ self.old) }
        ensures refused { OnErr result (self.new ≡ self.old) }
    {
        let len = text.len();
        if len > self.free.len() {
            return Err(AllocError);
        }
        let free = std::mem::take(&mut self.free);
        let (taken, rest) = free.split_at_mut(len);
        self.free = rest;
        taken.copy_from_slice(text.as_bytes());
        // SAFETY: `taken` has the bytes of `text`, all of them.
        Ok(unsafe { str::from_utf8_unchecked(taken) })
    }
}
