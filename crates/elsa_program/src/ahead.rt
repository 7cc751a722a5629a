//! Reading ahead: sixteen lines are cut and hashed together, so that the table entries of their
//! names are loaded before the first reply is due.
ghost use Rattle.std.specs.Prelude.{◌≡◌, ◌≤◌, length, take};
ghost use Rattle.elsa_program.specs.Ahead.{AreCut, IsHashed};
ghost use Rattle.elsa_program.specs.Feeding.{IsInside};
ghost use Rattle.elsa_interner.specs.Names.{text_hash};
ghost use Rattle.elsa_program.specs.Replies.{asked};

use crate::chunk::Chunk;
use crate::request::{Request, request_of_text};
use elsa_interner::names::{NO_GUESS, Names};
use std::alloc::Allocator;
use std::hash::BuildHasher;

/// The number of lines that are cut together.
pub const AHEAD: usize = 16;

/// A request that waits for its reply, with the hash of the name that it puts. If it puts no name,
/// the hash may be any number.
#[derive(Clone, Copy)]
pub struct Held<'t> {
    pub request: Request<'t>,
    pub hash: u32,
}

impl Held<'_> {
    /// The request of no line.
    pub const NONE: Held<'static> = Held {
        request: Request::Bad,
        hash: 0,
    };
}

/// Hashes the name that a request puts.
#[inline(always)]
pub fn hold<'t, S: BuildHasher, A: Allocator + Copy>(
    names: &Names<'_, S, A>,
    request: Request<'t>,
) -> Held<'t>
    ensures request { result.request ≡ request.entry }
    ensures hashed { IsHashed (text_hash S.BuildHasher S.Hasher.Hasher names.now.1)
        (asked request.entry) result.hash }
{
    let hash = match request {
        Request::Put(name) => names.hash(name),
        _ => 0,
    };
    Held { request, hash }
}

/// Cuts the next sixteen lines of the text, or fewer if it has fewer, and holds their requests.
/// Returns their number and the rest of the text.
#[inline(always)]
pub fn cut_ahead<'t, S: BuildHasher, A: Allocator + Copy>(
    names: &Names<'_, S, A>,
    text: &'t str,
    held: &mut [Held<'t>; AHEAD],
) -> (usize, &'t str)
    ensures count { result.0 ≤ AHEAD }
    ensures array { length held.new ≡ AHEAD }
    ensures cut { AreCut (text_hash S.BuildHasher S.Hasher.Hasher names.now.1)
        (take result.0 held.new) text.now result.1.now }
    ensures none { result.0 ≡ 0 → IsInside result.1.now }
{
    let mut rest = text;
    for count in 0..AHEAD {
        let Some((line, later)) = rest.cut() else {
            return (count, rest);
        };
        held[count] = hold(names, request_of_text(line));
        rest = later;
    }
    (AHEAD, rest)
}

/// Returns a guess for each request: if it puts a name, a number that the name may have.
///
/// It reads the table in a loop of its own, which is short enough that the processor starts all
/// sixteen loads before the first one ends. It is not inlined, so that the processor's registers
/// are free for the loop.
#[inline(never)]
pub fn guesses<S: BuildHasher, A: Allocator + Copy>(
    names: &Names<'_, S, A>,
    held: &[Held<'_>; AHEAD],
) -> [usize; AHEAD] {
    let mut guesses = [NO_GUESS; AHEAD];
    for i in 0..AHEAD {
        guesses[i] = names.guess(held[i].hash);
    }
    guesses
}
