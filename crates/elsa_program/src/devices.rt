//! The readers and writers of the engine: each counts its failures, and its bytes may be known.
//!
//! The layer above uses [`Source`] and [`Sink`] alone. [`Counted`] makes either of them from a
//! reader or a writer of std.

ghost use Rattle.std.specs.Prelude.{◌≡◌, ◌≢◌, ◌≤◌, ◌<◌, ℕ, List, Option, IfOk, IfErr, OnOk, OnErr, length};
ghost use Rattle.std.specs.Io.KnownBytes.{ReadConsumes, WriteAppends};
ghost use Rattle.std.specs.IoError.{error_kind};
ghost use Rattle.elsa_program.specs.Devices.{FailedOnce};

use std::error::Error;
use std::io::{ErrorKind, Read, Write};
use std::{fmt, io};

/// The greatest number of times that a call which a signal interrupts is made: 2^64 - 1, as in std.
const TRIES: u64 = u64::MAX;

/// The error of a device's call. It doesn't contain the cause.
#[derive(Clone, Copy, Debug, PartialEq, Eq)]
pub struct Failed;

impl fmt::Display for Failed {
    fn fmt<W: fmt::Write>(&self, f: &mut fmt::Formatter<W>) -> fmt::Result {
        f.pad("a device failed")
    }
}

impl Error for Failed {}

/// A reader that counts its failures.
pub trait Source {
    // The bytes that later reads return, if they are known.
    ghost left: { Self → Option (List ℕ) };

    // The number of reads that failed; it wraps at 2^64.
    ghost failures: { Self → ℕ };

    /// Stores bytes at the beginning of `buf`, and returns their number: 0 only at the end of the
    /// input or if `buf` is empty.
    ///
    /// # Errors
    /// Fails with [`Failed`] if the reader fails. It has then returned no byte.
    ///
    /// # Blocks
    /// If the device does.
    fn read(&mut self, buf: &mut [u8]) -> Result<usize, Failed>
        ensures within { IfOk result (λ n. n ≤ length buf.new) }
        ensures bytes { ReadConsumes (left self.old) (left self.new) result buf.new }
        ensures succeeded { OnOk result (failures self.new ≡ failures self.old) }
        ensures failed { OnErr result (FailedOnce (failures self.old) (failures self.new)) };
}

/// A writer that counts its failures.
pub trait Sink {
    // The content of the writer, if it is known.
    ghost held: { Self → Option (List ℕ) };

    // The number of writes that failed; it wraps at 2^64.
    ghost failures: { Self → ℕ };

    /// Writes a beginning of `piece`, and returns the number of bytes written: at least one, unless
    /// `piece` is empty.
    ///
    /// # Errors
    /// Fails with [`Failed`] if the writer fails. It has then written no byte.
    ///
    /// # Blocks
    /// If the device does.
    fn write(&mut self, piece: &[u8]) -> Result<usize, Failed>
        ensures within { IfOk result (λ n. n ≤ length piece.now) }
        ensures takes { IfOk result (λ n. 0 < length piece.now → 0 < n) }
        ensures bytes { WriteAppends (held self.old) (held self.new) result piece.now }
        ensures succeeded { OnOk result (failures self.new ≡ failures self.old) }
        ensures failed { OnErr result (FailedOnce (failures self.old) (failures self.new)) };
}

/// Reads once. If a signal interrupts the read, the read is repeated.
fn read_uninterrupted<R: Read>(reader: &mut R, buf: &mut [u8]) -> io::Result<usize>
    ensures within { IfOk result (λ n. n ≤ length buf.new) }
    ensures bytes { ReadConsumes (R.remaining reader.old) (R.remaining reader.new) result buf.new }
    ensures not_interrupted { IfErr result (λ e. error_kind e ≢ ErrorKind.Interrupted) }
{
    for _ in 0..TRIES {
        match reader.read(buf) {
            Err(e) if e.kind() == ErrorKind::Interrupted => {}
            outcome => return outcome,
        }
    }
    Err(io::Error::from(ErrorKind::TimedOut))
}

/// Writes once. If a signal interrupts the write, the write is repeated.
fn write_uninterrupted<W: Write>(writer: &mut W, piece: &[u8]) -> io::Result<usize>
    ensures within { IfOk result (λ n. n ≤ length piece.now) }
    ensures bytes { WriteAppends (W.contents writer.old) (W.contents writer.new) result piece.now }
    ensures not_interrupted { IfErr result (λ e. error_kind e ≢ ErrorKind.Interrupted) }
{
    for _ in 0..TRIES {
        match writer.write(piece) {
            Err(e) if e.kind() == ErrorKind::Interrupted => {}
            outcome => return outcome,
        }
    }
    Err(io::Error::from(ErrorKind::TimedOut))
}

/// A reader or a writer of std, with the number of its failures.
///
/// A call that a signal interrupts is repeated, and is no failure. A call fails if std returns any
/// other `Err`, if a write of a piece that isn't empty writes no byte, or if it is interrupted
/// 2^64 - 1 times in a row.
#[derive(Drop)]
pub struct Counted<D> {
    /// The reader or the writer.
    pub device: D,
    /// The number of its failures; it wraps at 2^64.
    pub failures: u64,
}

impl<D> Counted<D> {
    /// Makes a `Counted` of the device, with no failures.
    pub fn new(device: D) -> Self
        ensures device { result.device ≡ device }
        ensures failures { result.failures ≡ 0 }
    {
        Counted {
            device,
            failures: 0,
        }
    }
}

impl<R: Read> Source for Counted<R> {
    ghost left = { λ c. R.remaining c.device };

    ghost failures = { λ c. c.failures };

    fn read(&mut self, buf: &mut [u8]) -> Result<usize, Failed> {
        match read_uninterrupted(&mut self.device, buf) {
            Ok(n) => Ok(n),
            Err(_) => {
                self.failures = self.failures.wrapping_add(1);
                Err(Failed)
            }
        }
    }
}

impl<W: Write> Sink for Counted<W> {
    ghost held = { λ c. W.contents c.device };

    ghost failures = { λ c. c.failures };

    fn write(&mut self, piece: &[u8]) -> Result<usize, Failed> {
        match write_uninterrupted(&mut self.device, piece) {
            Ok(n) if n > 0 || piece.is_empty() => Ok(n),
            _ => {
                self.failures = self.failures.wrapping_add(1);
                Err(Failed)
            }
        }
    }
}
