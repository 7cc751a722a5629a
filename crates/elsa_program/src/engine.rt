//! The engine: it reads lines, each of which is a request about names, and writes one reply line
//! for each.
ghost use Rattle.std.specs.Prelude.{◌≡◌, ◌<◌, ◌^◌, ◌-◌, [], ◌∷◌, ◌++◌, ℕ, List, false, true, length, codes, IsTrue, IfSome, OnOk, OnErr, MatchOption};
ghost use Rattle.elsa_program.specs.Ahead.{IsHashed};
ghost use Rattle.elsa_program.specs.Devices.{CountsFault};
ghost use Rattle.elsa_program.specs.Engine.{HasRun, CountsRun};
ghost use Rattle.elsa_program.specs.Feeding.{IsSoFar, IsFinished, Feeds, Ends};
ghost use Rattle.elsa_program.specs.Lines.{LacksNumber, Replies};
ghost use Rattle.elsa_interner.specs.Names.{text_hash};
ghost use Rattle.elsa_program.specs.Replies.{asked, reply_text};

use crate::ahead::{AHEAD, Held, cut_ahead, guesses};
use crate::chunk::Chunk;
use crate::devices::{Failed, Sink, Source};
use crate::pending::Pending;
use crate::reply::{Reply, push_reply};
use crate::request::{Request, request_of};
use bumpalo::Bump;
use elsa_interner::names::{Known, Names};
use std::alloc::Allocator;
use std::error::Error;
use std::fmt;
use std::hash::{BuildHasher, BuildHasherDefault, FoldHasher};

/// The greatest number of bytes that one read returns.
const PIECE: usize = 8192;

/// The number of names from which on the table is read ahead. A smaller table fits in the
/// processor's nearest caches.
const MANY: usize = 1 << 16;

/// Why the engine stopped before the end of the input.
#[derive(Clone, Copy, Debug, PartialEq, Eq)]
pub enum EngineFault {
    /// The reader failed.
    Read = 1,
    /// The writer failed.
    Write = 2,
    /// 2^64 - 1 reads returned bytes, and the end of the input was not reached.
    Endless = 3,
}

impl fmt::Display for EngineFault {
    fn fmt<W: fmt::Write>(&self, f: &mut fmt::Formatter<W>) -> fmt::Result {
        f.pad(match self {
            EngineFault::Read => "the input could not be read",
            EngineFault::Write => "the output could not be written",
            EngineFault::Endless => "the input did not end within 2^64 - 1 reads",
        })
    }
}

impl Error for EngineFault {}

/// Executes the request and returns its reply. `known` is what is known of a name to put.
#[tactic(auto, using(crate::proofs::ReplyLemmas::put_replies, crate::proofs::ReplyLemmas::full_replies))]
#[inline(always)]
fn answer_to<'a, S: BuildHasher, A: Allocator + Copy, P: Allocator>(
    arena: &'a Bump<P>,
    names: &mut Names<'a, S, A>,
    request: Request<'_>,
    known: Option<Known>,
) -> Reply<'a>
    requires hashed { IfSome known (λ k. IsHashed
        (text_hash S.BuildHasher S.Hasher.Hasher names.old.1) (asked request) k.hash) }
    ensures replies { Replies names.old.0 (asked request.entry) (reply_text result) names.new.0 }
    ensures builder { names.new.1 ≡ names.old.1 }

    // If there are 2^32 - 1 names, the reply to a new one is `too many names`.
    ensures limit { LacksNumber names.old.0 (asked request.entry) →
        reply_text result ≡ codes "too many names" }
{
    match request {
        Request::Put(text) => {
            let sought = names.sought(text, known);
            match names.put(arena, sought, None) {
                Ok(n) => Reply::Number(n),
                Err(_) => {
                    if names.is_full() {
                        Reply::Text("too many names")
                    } else {
                        Reply::Text("no memory")
                    }
                }
            }
        }
        Request::Find(text) => match names.find(text) {
            Some(n) => Reply::Number(n),
            None => Reply::Text("none"),
        },
        Request::At(n) => match names.as_slice().get(n as usize).copied() {
            Some(name) => Reply::Text(name),
            None => Reply::Text("none"),
        },
        Request::Len => Reply::Number(names.as_slice().len()),
        Request::Bad => Reply::Text("bad line"),
    }
}

/// The names so far, and the line that has begun.
#[derive(Drop)]
struct Session<'a, S: BuildHasher, A: Allocator + Copy, P: Allocator> {
    // The arena in which the names are stored, and the names.
    arena: &'a Bump<P>,
    names: Names<'a, S, A>,
    // The bytes read so far of a line that doesn't end in the piece in which it began.
    line: Vec<u8, A>,
    // Whether an allocation for that line failed. The rest of the line is then skipped.
    skips: bool,
}

impl<'a, S: BuildHasher, A: Allocator + Copy, P: Allocator> Session<'a, S, A, P> {
    /// Ends the line that began in an earlier piece, and returns the reply to it. The reply to a
    /// line that is skipped is `no memory`.
    #[cold]
    #[inline(never)]
    fn finish_begun(&mut self, end: &[u8]) -> Reply<'a>
        ensures { IsFinished self.old.names.0 self.old.line.items self.old.skips
            end.now (reply_text result) self.new.names.0 self.new.line.items self.new.skips }
    {
        if self.skips {
            self.skips = false;
            self.line.clear();
            return Reply::Text("no memory");
        }
        if self.line.extend_from_slice(end).is_err() {
            self.line.clear();
            return Reply::Text("no memory");
        }
        let request = request_of(self.line.as_slice());
        let answer = answer_to(self.arena, &mut self.names, request, None);
        self.line.clear();
        answer
    }

    /// Stores a piece of a line that doesn't end in it. If an allocation fails, the rest of the
    /// line is skipped, and allocates nothing.
    fn keep(&mut self, piece: &[u8])
        ensures line { (tail : List ℕ) → IsSoFar self.old.line.items self.old.skips tail →
            IsSoFar self.new.line.items self.new.skips (tail ++ piece.now) }
        ensures names { self.new.names ≡ self.old.names }
        ensures skipping { IsTrue self.old.skips → self.new ≡ self.old }
    {
        if self.skips || piece.is_empty() {
            return;
        }
        if self.line.extend_from_slice(piece).is_err() {
            self.line.clear();
            self.skips = true;
        }
    }

    /// Writes the replies to the lines that end in the chunk. No line has begun before it.
    #[inline(always)]
    fn feed<C: Chunk, W: Sink>(
        &mut self,
        chunk: C,
        out: &mut Pending,
        writer: &mut W,
    ) -> Result<(), Failed>
        requires { (self.old.skips ≡ false) × (self.old.line.items ≡ []) }
        ensures feeds { Feeds result self.old.names.0 self.old.line.items self.old.skips
            (C.bytes chunk) self.new.names.0 self.new.line.items self.new.skips
            (W.held writer.old) out.old (W.held writer.new) out.new }
        ensures none { OnOk result (out.new ≡ []) }
        ensures counts { CountsFault result (W.failures writer.old) (W.failures writer.new) }
    {
        let mut rest = chunk;
        while let Some((line, later)) = rest.cut() {
            let answer = answer_to(self.arena, &mut self.names, line.request(), None);
            push_reply(out, writer, answer)?;
            rest = later;
        }
        self.keep(rest.as_bytes());
        out.flush(writer)
    }

    /// Writes the replies to the lines that end in the text, as [`Session::feed`] does, and reads
    /// the table ahead for sixteen lines at once.
    ///
    /// It is not inlined, so that the loop over the lines stays short if there are few names.
    #[inline(never)]
    fn feed_ahead<W: Sink>(
        &mut self,
        text: &str,
        out: &mut Pending,
        writer: &mut W,
    ) -> Result<(), Failed>
        requires { (self.old.skips ≡ false) × (self.old.line.items ≡ []) }
        ensures feeds { Feeds result self.old.names.0 self.old.line.items self.old.skips
            text.now self.new.names.0 self.new.line.items self.new.skips
            (W.held writer.old) out.old (W.held writer.new) out.new }
        ensures none { OnOk result (out.new ≡ []) }
        ensures counts { CountsFault result (W.failures writer.old) (W.failures writer.new) }
    {
        let mut held = [Held::NONE; AHEAD];
        let mut rest = text;
        loop {
            let (count, later) = cut_ahead(&self.names, rest, &mut held);
            if count == 0 {
                break;
            }
            let guesses = guesses(&self.names, &held);
            for i in 0..count {
                let Held { request, hash } = held[i];
                let known = Known {
                    hash,
                    guess: guesses[i],
                };
                let answer = answer_to(self.arena, &mut self.names, request, Some(known));
                push_reply(out, writer, answer)?;
            }
            rest = later;
        }
        self.keep(rest.as_bytes());
        out.flush(writer)
    }

    /// Writes the replies to the lines that end in the piece. The first line may have begun in an
    /// earlier piece.
    ///
    /// If the rest of the piece is UTF-8 as a whole, its lines are not checked one by one. The
    /// function is inlined, so that the loop over the lines finds the session and the buffered
    /// bytes in the stack frame of the run.
    #[inline(always)]
    fn feed_bytes<W: Sink>(
        &mut self,
        piece: &[u8],
        out: &mut Pending,
        writer: &mut W,
    ) -> Result<(), Failed>
        ensures feeds { Feeds result self.old.names.0 self.old.line.items self.old.skips
            piece.now self.new.names.0 self.new.line.items self.new.skips
            (W.held writer.old) out.old (W.held writer.new) out.new }
        ensures none { OnOk result (out.new ≡ []) }
        ensures counts { CountsFault result (W.failures writer.old) (W.failures writer.new) }
    {
        let mut rest = piece;
        if self.skips || !self.line.is_empty() {
            let Some((end, later)) = piece.cut() else {
                self.keep(piece);
                return out.flush(writer);
            };
            let answer = self.finish_begun(end);
            push_reply(out, writer, answer)?;
            rest = later;
        }
        let is_ahead = self.names.as_slice().len() >= MANY;
        match str::from_utf8(rest) {
            Ok(text) if is_ahead => self.feed_ahead(text, out, writer),
            Ok(text) => self.feed(text, out, writer),
            Err(_) => self.feed(rest, out, writer),
        }
    }

    /// Writes the reply to the last line, if it has no byte 10.
    fn end<W: Sink>(&mut self, out: &mut Pending, writer: &mut W) -> Result<(), Failed>
        requires { out.old ≡ [] }
        ensures ends { Ends result self.old.names.0 self.old.line.items self.old.skips
            (W.held writer.old) out.old (W.held writer.new) out.new }
        ensures none { OnOk result (out.new ≡ []) }
        ensures counts { CountsFault result (W.failures writer.old) (W.failures writer.new) }
    {
        if !self.skips && self.line.is_empty() {
            return Ok(());
        }
        let answer = self.finish_begun(&[]);
        push_reply(out, writer, answer)?;
        out.flush(writer)
    }
}

/// Writes one reply line for each line of the input, until the input ends or a device fails.
///
/// | Line | Reply |
/// |---|---|
/// | `put TEXT` | the number of TEXT, which becomes a name if it is new |
/// | `find TEXT` | the number of TEXT, or `none` |
/// | `at N` | the name with the number N, or `none` |
/// | `len` | the number of names |
/// | any other line, or one that isn't UTF-8 | `bad line` |
///
/// A line ends with byte 10; the last line may also end with the input. TEXT is everything after
/// the one space, byte 13 included, and may be empty. N is one or more ASCII digits, at most
/// 2^64 - 1.
///
/// Two more replies report that a line changed nothing. `no memory`: an allocation for the line or
/// for its name failed, and the rest of the line is skipped. `too many names`: there are already
/// 2^32 - 1 names, and the line would add one.
///
/// Before each read, the replies to all lines that have ended are written.
///
/// The default hash has no secret. If the names are untrusted input, use
/// [`intern_engine_with_hasher`].
///
/// # Errors
/// Fails with `Read` if the reader fails, and with `Endless` if 2^64 - 1 reads return bytes: the
/// replies to all lines whose byte 10 was read are then written. Fails with `Write` if the writer
/// fails: a beginning of the replies is then written.
///
/// # Blocks
/// If the reader or the writer does.
///
/// # Allocates
/// In `arena` the text of each name. With `alloc` the table and the list of the names, and a line
/// that doesn't end in the piece in which it began.
pub fn intern_engine<'a, A: Allocator + Copy, P: Allocator, R: Source, W: Sink>(
    alloc: A,
    arena: &'a Bump<P>,
    reader: &mut R,
    writer: &mut W,
) -> Result<(), EngineFault>
    // What was written is the replies to what was read, all of them if the result is `Ok`.
    ensures answers { HasRun result (R.left reader.old) (R.left reader.new)
        (W.held writer.old) (W.held writer.new) }

    // Only the device that failed has counted a failure.
    ensures counts { CountsRun result (R.failures reader.old) (R.failures reader.new)
        (W.failures writer.old) (W.failures writer.new) }
{
    intern_engine_with_hasher(
        alloc,
        arena,
        BuildHasherDefault::<FoldHasher>::new(),
        reader,
        writer,
    )
}

/// Writes one reply line for each line of the input, as [`intern_engine`] does. `hash_builder`
/// hashes the names.
///
/// # Errors
/// Fails as [`intern_engine`] does.
pub fn intern_engine_with_hasher<
    'a,
    S: BuildHasher + Drop,
    A: Allocator + Copy,
    P: Allocator,
    R: Source,
    W: Sink,
>(
    alloc: A,
    arena: &'a Bump<P>,
    hash_builder: S,
    reader: &mut R,
    writer: &mut W,
) -> Result<(), EngineFault>
    // What was written is the replies to what was read, all of them if the result is `Ok`.
    ensures answers { HasRun result (R.left reader.old) (R.left reader.new)
        (W.held writer.old) (W.held writer.new) }

    // Only the device that failed has counted a failure.
    ensures counts { CountsRun result (R.failures reader.old) (R.failures reader.new)
        (W.failures writer.old) (W.failures writer.new) }
{
    let mut session = Session {
        arena,
        names: Names::new(alloc, hash_builder),
        line: Vec::new(alloc),
        skips: false,
    };
    let mut out = Pending::new();
    let mut piece = [0u8; PIECE];
    for _turn in 0..u64::MAX {
        let Ok(n) = reader.read(&mut piece) else {
            return Err(EngineFault::Read);
        };
        if n == 0 {
            let Ok(()) = session.end(&mut out, writer) else {
                return Err(EngineFault::Write);
            };
            return Ok(());
        }
        let Ok(()) = session.feed_bytes(&piece[..n], &mut out, writer) else {
            return Err(EngineFault::Write);
        };
    }
    Err(EngineFault::Endless)
}
