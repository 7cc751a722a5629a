//! The bytes or the text that one read returned, and the lines that are cut from it. A line that is
//! cut from a text is a text, and is not checked for UTF-8 again.
ghost use Rattle.std.specs.Prelude.{◌≡◌, ◌<◌, ◌≤◌, ◌∷◌, ◌++◌, false, true, ℕ, List, length, slice_index, MatchOption};
ghost use Rattle.memchr.specs.Find.{IsFirstByte, is_byte};
ghost use Rattle.elsa_program.specs.Lines.{command_of};
ghost use Rattle.elsa_program.specs.Feeding.{IsInside};
ghost use Rattle.elsa_program.specs.Replies.{asked};

use crate::request::{Request, request_of, request_of_text};
use memchr::memchr;
use std::simd::prelude::*;

/// Bytes or a text, from which lines are cut.
pub trait Chunk: Copy {
    // The bytes of the chunk.
    ghost bytes: { Self → List ℕ };

    /// Returns the first line without its byte 10, and the rest after that byte. `None` if there is
    /// no byte 10.
    fn cut(self) -> Option<(Self, Self)>
        ensures { MatchOption result (IsInside (bytes self)) (λ p.
            IsInside (bytes p.0) × (bytes self ≡ bytes p.0 ++ (10 ∷ bytes p.1))) };

    /// Returns the bytes of the chunk.
    fn as_bytes(&self) -> &[u8]
        ensures { result.now ≡ bytes self.now };

    /// Returns the request of the chunk as a line.
    fn request(&self) -> Request<'_>
        ensures { asked result ≡ command_of (bytes self.now) };
}

/// Returns the number of bytes before the first byte 10 among the first sixteen bytes, or 16 if
/// none of them is 10.
#[inline(always)]
fn near_end(piece: &[u8]) -> usize
    requires { 16 ≤ length piece.now }
    ensures within { result ≤ 16 }
    ensures before { (k : ℕ) → k < result → is_byte 10 (slice_index piece.now k) ≡ false }
    ensures line_end { result < 16 → is_byte 10 (slice_index piece.now result) ≡ true }
{
    let ends = u8x16::from_slice(piece)
        .simd_eq(u8x16::splat(10))
        .to_bitmask();
    if ends == 0 {
        return 16;
    }
    ends.trailing_zeros() as usize
}

/// Returns the index of the first byte 10 from `start` on, or the number of bytes if there is none.
/// No byte before `start` is 10.
fn far_end(piece: &[u8], start: usize) -> usize
    requires within { start ≤ length piece.now }
    requires before { (k : ℕ) → k < start → is_byte 10 (slice_index piece.now k) ≡ false }
    ensures within { result ≤ length piece.now }
    ensures before { (k : ℕ) → k < result → is_byte 10 (slice_index piece.now k) ≡ false }
    ensures line_end { result < length piece.now →
        is_byte 10 (slice_index piece.now result) ≡ true }
{
    match memchr(10, &piece[start..]) {
        Some(further) => start + further,
        None => piece.len(),
    }
}

/// Returns the index of the first byte 10, or the number of bytes if there is none. Most lines are
/// short, so the first sixteen bytes are compared together first, and then the next sixteen.
#[inline(always)]
fn line_end(piece: &[u8]) -> usize
    ensures within { result ≤ length piece.now }
    ensures before { (k : ℕ) → k < result → is_byte 10 (slice_index piece.now k) ≡ false }
    ensures line_end { result < length piece.now →
        is_byte 10 (slice_index piece.now result) ≡ true }
{
    if piece.len() < 16 {
        return far_end(piece, 0);
    }
    let near = near_end(piece);
    if near < 16 {
        return near;
    }
    if piece.len() < 32 {
        return far_end(piece, 16);
    }
    let next = near_end(&piece[16..]);
    if next < 16 {
        return 16 + next;
    }
    far_end(piece, 32)
}

impl<'t> Chunk for &'t [u8] {
    ghost bytes = { λ b. b.now };

    #[inline(always)]
    fn cut(self) -> Option<(&'t [u8], &'t [u8])> {
        let at = line_end(self);
        if at == self.len() {
            return None;
        }
        Some((&self[..at], &self[at + 1..]))
    }

    #[inline(always)]
    fn as_bytes(&self) -> &[u8] {
        *self
    }

    #[inline(always)]
    fn request(&self) -> Request<'_> {
        request_of(*self)
    }
}

impl<'t> Chunk for &'t str {
    ghost bytes = { λ t. t.now };

    #[inline(always)]
    fn cut(self) -> Option<(&'t str, &'t str)> {
        let (line, _later) = self.as_bytes().cut()?;
        let at = line.len();
        Some((&self[..at], &self[at + 1..]))
    }

    #[inline(always)]
    fn as_bytes(&self) -> &[u8] {
        let text = *self;
        text.as_bytes()
    }

    #[inline(always)]
    fn request(&self) -> Request<'_> {
        request_of_text(*self)
    }
}
