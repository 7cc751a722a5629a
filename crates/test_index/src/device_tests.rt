//! The engine with devices of std that are slow, are interrupted, or fail at one of their calls:
//! the fault that it returns, and what was written.
use bumpalo::Bump;
use elsa_program::devices::Counted;
use elsa_program::engine::{EngineFault, intern_engine};
use std::alloc::Global;
use std::io;
use std::io::{ErrorKind, Read, Write};
use std::test::Fail;

const INPUT: &[u8] =
    b"put lonely\nput best friend\nput threes a crowd\nput rando\nput facebook\nput best friend\nat 1\n";

/// The output for `INPUT`, 24 bytes.
const REPLIES: &[u8] = b"0\n1\n2\n3\n4\n1\nbest friend\n";

/// The behaviour of a device: the greatest number of bytes of a call, the number of the call that
/// fails, counted from 0, and whether a signal interrupts each call once.
#[derive(Clone, Copy)]
struct Habits(usize, usize, bool);

/// The behaviour of a device that doesn't fail and takes or returns all bytes in one call.
const GOOD: Habits = Habits(1000, 1000, false);

/// A device: a reader of the bytes, or a writer that appends to them.
#[derive(Drop)]
struct Device<B> {
    bytes: B,
    habits: Habits,
    calls: usize,
    interruptions: usize,
    // Whether the last call was interrupted.
    is_again: bool,
}

impl<B> Device<B> {
    fn new(habits: Habits, bytes: B) -> Counted<Device<B>> {
        Counted::new(Device {
            bytes,
            habits,
            calls: 0,
            interruptions: 0,
            is_again: false,
        })
    }

    /// Makes a call with `bytes` bytes, and returns the number of bytes that it moves.
    fn call(&mut self, bytes: usize) -> io::Result<usize> {
        self.is_again = self.habits.2 && !self.is_again;
        if self.is_again {
            self.interruptions += 1;
            return Err(io::Error::from(ErrorKind::Interrupted));
        }
        self.calls += 1;
        if self.calls == self.habits.1 + 1 {
            return Err(io::Error::from(ErrorKind::BrokenPipe));
        }
        Ok(bytes.min(self.habits.0))
    }
}

impl<'t> Read for Device<&'t [u8]> {
    fn read(&mut self, buf: &mut [u8]) -> io::Result<usize> {
        let n = self.call(self.bytes.len().min(buf.len()))?;
        buf[..n].copy_from_slice(&self.bytes[..n]);
        self.bytes = &self.bytes[n..];
        Ok(n)
    }
}

impl Write for Device<Vec<u8>> {
    fn write(&mut self, buf: &[u8]) -> io::Result<usize> {
        let n = self.call(buf.len())?;
        self.bytes.extend_from_slice(&buf[..n])?;
        Ok(n)
    }

    fn flush(&mut self) -> io::Result<()> {
        Ok(())
    }
}

/// The result of a run of the engine, the failures of the reader and of the writer, and the number
/// of bytes that were written if they are a beginning of `REPLIES`.
type Outcome = (Result<(), EngineFault>, u64, u64, Option<usize>);

/// Runs the engine on `INPUT` with a reader and a writer of these behaviours. Returns its outcome
/// and the number of interruptions.
fn run(alloc: Global, reader: Habits, writer: Habits) -> (Outcome, usize) {
    let arena = Bump::new(alloc);
    let mut source = Device::new(reader, INPUT);
    let mut sink = Device::new(writer, Vec::new(alloc));
    let result = intern_engine(alloc, &arena, &mut source, &mut sink);
    let written = sink.device.bytes.as_slice();
    let count = REPLIES.starts_with(written).then(|| written.len());
    let interruptions = source.device.interruptions + sink.device.interruptions;
    let outcome = (result, source.failures, sink.failures, count);
    (outcome, interruptions)
}

/// Returns the number of bytes of the replies to the whole lines among the first bytes of `INPUT`.
fn replied(bytes: usize) -> usize {
    let lines = INPUT[..bytes].iter().filter(|byte| **byte == b'\n').count();
    [0, 2, 4, 6, 8, 10, 12, 24][lines]
}

#[test]
fn a_reader_that_failed_at_one_call_lost_a_reply(rt: HostRuntime) -> Result<(), Fail> {
    for most in 1..=INPUT.len() {
        // A read with a greater number is never made; the read after the last byte returns 0.
        for fails_at in 0..INPUT.len() / most + 3 {
            let given = most * fails_at;
            let wanted = if given < INPUT.len() + most {
                let count = replied(given.min(INPUT.len()));
                (Err(EngineFault::Read), 1, 0, Some(count))
            } else {
                (Ok(()), 0, 0, Some(24))
            };
            for is_interrupted in [false, true] {
                let habits = Habits(most, fails_at, is_interrupted);
                let (outcome, _) = run(rt.alloc(), habits, GOOD);
                let got = outcome;
                assert_eq!(rt; got, wanted, "{most} bytes a read, read {fails_at} fails");
            }
        }
    }
    Ok(())
}

#[test]
fn a_writer_that_failed_at_one_call_had_no_beginning_of_the_replies(
    rt: HostRuntime,
) -> Result<(), Fail> {
    for most in 0..=25 {
        for fails_at in 0..26 {
            let taken = (most * fails_at).min(24);
            let wanted = if taken < 24 {
                (Err(EngineFault::Write), 0, 1, Some(taken))
            } else {
                (Ok(()), 0, 0, Some(24))
            };
            for is_interrupted in [false, true] {
                let habits = Habits(most, fails_at, is_interrupted);
                let (outcome, _) = run(rt.alloc(), GOOD, habits);
                let got = outcome;
                assert_eq!(rt; got, wanted, "{most} bytes a write, write {fails_at} fails");
            }
        }
    }
    Ok(())
}

#[test]
fn a_call_that_a_signal_interrupted_was_not_made_again(rt: HostRuntime) -> Result<(), Fail> {
    for most in 1..=24 {
        let habits = Habits(most, 1000, true);
        let (outcome, interruptions) = run(rt.alloc(), habits, habits);
        assert_eq!(rt; outcome, (Ok(()), 0, 0, Some(24)), "{most} bytes a call");
        assert!(rt; interruptions > 4, "{most} bytes a call");
    }
    Ok(())
}
