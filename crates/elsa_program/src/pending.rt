//! A buffer of fixed size for replies: small replies become large writes, and none allocates.
ghost use Rattle.std.specs.Prelude.{◌≡◌, [], ◌∷◌, ◌++◌, ◌≤◌, ◌<◌, ◌+◌, length, OnOk};
ghost use Rattle.std.specs.Fmt.{decimal};
ghost use Rattle.elsa_program.specs.Devices.{Queues, CountsFault};

use crate::devices::{Failed, Sink};
use crate::digits::{LINE, SHORT, digit_count, digits_of};
use itoa::Buffer;
use std::marker::Model;

/// The size of the buffer in bytes.
const ROOM: usize = 8192;

/// Writes the whole piece, by one write or several.
///
/// # Errors
/// Fails if a write fails. A beginning of the piece is then written.
fn write_all<W: Sink>(writer: &mut W, piece: &[u8]) -> Result<(), Failed>
    ensures adds { Queues result (W.held writer.old) [] (W.held writer.new) [] piece.now }
    ensures counts { CountsFault result (W.failures writer.old) (W.failures writer.new) }
{
    let mut at = 0;
    while at < piece.len() {
        at += writer.write(&piece[at..])?;
    }
    Ok(())
}

/// The bytes that wait to be written.
#[derive(Drop)]
pub struct Pending {
    bytes: [u8; ROOM],
    // The number of bytes that wait; the others are old.
    len: usize,
}

impl Model for Pending {
    ghost use Rattle.std.specs.Prelude.{List, ℕ, ◌≤◌, take};

    ghost Value = { List ℕ };

    ghost view = { λ p. take p.len p.bytes };

    // `len` counts bytes of `bytes`.
    ghost invariant = { λ p. p.len ≤ 8192 };
}

impl Pending {
    /// Makes an empty buffer.
    pub fn new() -> Self
        ensures { result ≡ [] }
    {
        Pending {
            bytes: [0; ROOM],
            len: 0,
        }
    }

    /// Writes the buffered bytes, and empties the buffer.
    ///
    /// # Errors
    /// Fails if a write fails. A beginning of the bytes is then written, and the others are
    /// dropped.
    pub fn flush<W: Sink>(&mut self, writer: &mut W) -> Result<(), Failed>
        ensures adds { Queues result (W.held writer.old) self.old (W.held writer.new) self.new [] }
        ensures none { OnOk result (self.new ≡ []) }
        ensures counts { CountsFault result (W.failures writer.old) (W.failures writer.new) }
    {
        let len = self.len;
        self.len = 0;
        write_all(writer, &self.bytes[..len])
    }

    /// Appends a piece that fits in the buffer.
    fn add(&mut self, piece: &[u8])
        requires { length self.old + length piece.now ≤ ROOM }
        ensures { self.new ≡ self.old ++ piece.now }
    {
        let end = self.len + piece.len();
        self.bytes[self.len..end].copy_from_slice(piece);
        self.len = end;
    }

    /// Appends a piece. If it doesn't fit, the buffered bytes are written first.
    ///
    /// # Errors
    /// Fails if a write fails. A beginning of the buffered bytes and the piece is then written.
    fn push<W: Sink>(&mut self, writer: &mut W, piece: &[u8]) -> Result<(), Failed>
        ensures adds { Queues result (W.held writer.old) self.old (W.held writer.new) self.new
            piece.now }
        ensures counts { CountsFault result (W.failures writer.old) (W.failures writer.new) }
    {
        if piece.len() <= ROOM - self.len {
            self.add(piece);
            return Ok(());
        }
        self.flush(writer)?;
        if piece.len() <= ROOM {
            self.add(piece);
            return Ok(());
        }
        write_all(writer, piece)
    }

    /// Appends the line of a number that has at most eight digits.
    #[inline(always)]
    fn add_number(&mut self, n: usize)
        requires short { n < SHORT }
        requires room { length self.old + LINE ≤ ROOM }
        ensures { self.new ≡ self.old ++ (decimal n ++ (10 ∷ [])) }
    {
        let count = digit_count(n);
        let end = self.len + count;
        self.bytes[self.len..self.len + 8].copy_from_slice(&digits_of(n, count));
        self.bytes[end] = b'\n';
        self.len = end + 1;
    }

    /// Appends a line: the digits of `n`, and byte 10.
    ///
    /// # Errors
    /// Fails if a write fails. A beginning of the buffered bytes and the line is then written.
    #[inline(always)]
    pub fn push_number<W: Sink>(&mut self, writer: &mut W, n: usize) -> Result<(), Failed>
        ensures adds { Queues result (W.held writer.old) self.old (W.held writer.new) self.new
            (decimal n ++ (10 ∷ [])) }
        ensures counts { CountsFault result (W.failures writer.old) (W.failures writer.new) }
    {
        if n < SHORT && self.len <= ROOM - LINE {
            self.add_number(n);
            return Ok(());
        }
        let mut digits = Buffer::new();
        self.push_line(writer, digits.format(n).as_bytes())
    }

    /// Appends a line: the piece, and byte 10.
    ///
    /// # Errors
    /// Fails if a write fails. A beginning of the buffered bytes and the line is then written.
    #[inline(always)]
    pub fn push_line<W: Sink>(&mut self, writer: &mut W, piece: &[u8]) -> Result<(), Failed>
        ensures adds { Queues result (W.held writer.old) self.old (W.held writer.new) self.new
            (piece.now ++ (10 ∷ [])) }
        ensures counts { CountsFault result (W.failures writer.old) (W.failures writer.new) }
    {
        if piece.len() < ROOM - self.len {
            self.add(piece);
            self.add(b"\n");
            return Ok(());
        }
        self.push(writer, piece)?;
        self.push(writer, b"\n")
    }
}
