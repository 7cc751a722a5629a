//! The engine, with each request for memory and each allocation in the arena denied in turn. Each
//! output line is that of the names stored so far, or `no memory`.
use bumpalo::Bump;
use elsa_program::devices::Counted;
use elsa_program::engine::intern_engine;
use std::alloc::{Allocator, Global};
use std::test::Fail;
use test_alloc::Budget;
use test_script::leave_room;

/// The lines of the example run.
const WORKED: [&str; 7] = [
    "put lonely",
    "put best friend",
    "put threes a crowd",
    "put rando",
    "put facebook",
    "put best friend",
    "at 1",
];

/// Thirty-two lines with new names and names that are present.
const MANY: [&str; 32] = [
    "put a", "put b", "find a", "put a", "len", "put c", "put d", "at 0", "find z", "put b",
    "put e", "put f", "at 9", "put g", "len", "put a", "put h", "put i", "find i", "put j",
    "put g", "at 4", "put k", "put l", "len", "put m", "put n", "find n", "put b", "put o",
    "at 12", "len",
];

/// Returns the number of lines with the reply `no memory`, or the first line whose reply is wrong
/// with that reply. A `put` of a present name never fails.
fn failed_lines(
    alloc: Global,
    lines: &[&str],
    output: &str,
) -> Result<Result<usize, String>, Fail> {
    let mut names: Vec<&str> = Vec::new(alloc);
    let (mut failed, mut replies) = (0, output.lines());
    for line in lines {
        let reply = replies.next().unwrap_or("no reply");
        let (word, name) = line.split_once(' ').unwrap_or((*line, ""));
        let number = names.iter().position(|it| *it == name);
        if word == "put" && number.is_none() && reply == "no memory" {
            failed += 1;
            continue;
        }
        let number = match (word, number) {
            ("len", _) => Some(names.len()),
            ("put", None) => {
                names.push(name)?;
                Some(names.len() - 1)
            }
            (_, number) => number,
        };
        let wanted = match (word, number) {
            ("at", _) => {
                let at = name.parse::<usize>()?;
                String::from_str(alloc, names.get(at).copied().unwrap_or("none"))?
            }
            (_, Some(number)) => format!(in alloc; "{number}")?,
            (_, None) => String::from_str(alloc, "none")?,
        };
        if reply != wanted.as_str() {
            return Ok(Err(format!(in alloc; "{line}: {reply}, and not {wanted}")?));
        }
    }
    match replies.next() {
        Some(reply) => Ok(Err(format!(in alloc; "one more reply: {reply}")?)),
        None => Ok(Ok(failed)),
    }
}

/// Returns the number of lines for which the engine reports an allocation failure, or what is wrong
/// with its output.
fn engine_fails<P: Allocator>(
    alloc: Global,
    heap: &Budget<Global>,
    arena: &Bump<P>,
    lines: &[&str],
) -> Result<Result<usize, String>, Fail> {
    let mut input = String::new(alloc);
    for line in lines {
        input.push_str(line)?;
        input.push('\n')?;
    }
    let mut reader = Counted::new(input.as_bytes());
    let mut bytes: Vec<u8> = Vec::new(alloc);
    let mut writer = Counted::new(&mut bytes);
    intern_engine(heap, arena, &mut reader, &mut writer)?;
    drop(writer);
    failed_lines(alloc, lines, str::from_utf8(bytes.as_slice())?)
}

#[test]
fn a_denied_request_cost_more_than_one_line_its_reply(rt: HostRuntime) -> Result<(), Fail> {
    let alloc = rt.alloc();
    for (lines, least) in [(WORKED.as_slice(), 2), (MANY.as_slice(), 3)] {
        let open = Budget::new(alloc);
        let got = engine_fails(alloc, &open, &Bump::new(alloc), lines)?;
        assert_eq!(rt; got, Ok(0));
        assert!(rt; open.asked() >= least);
        for number in 0..open.asked() {
            let heap = Budget::new(alloc);
            heap.refuse(number, number + 1);
            let failed = engine_fails(alloc, &heap, &Bump::new(alloc), lines)?;
            assert_eq!(rt; (number, failed), (number, Ok(1)));
            assert_eq!(rt; heap.given(), heap.granted(), "request {number}");
        }
    }
    Ok(())
}

#[test]
fn a_full_arena_lost_a_name_or_took_one_more(rt: HostRuntime) -> Result<(), Fail> {
    // The arena has room for this number of times eight bytes.
    for (room, wanted) in [(0, 6), (1, 5), (2, 4), (3, 2), (4, 2), (5, 1), (6, 0)] {
        let (heap, arena) = (Budget::new(rt.alloc()), Bump::new(rt.alloc()));
        leave_room(&arena, room);
        let failed = engine_fails(rt.alloc(), &heap, &arena, &WORKED)?;
        assert_eq!(rt; (room, failed), (room, Ok(wanted)));
    }
    // The arena's requests from this number on are denied.
    for (from, wanted) in [(0, 6), (u64::MAX, 0)] {
        let (open, heap) = (Budget::new(rt.alloc()), Budget::new(rt.alloc()));
        heap.refuse(from, u64::MAX);
        let arena = Bump::new(&heap);
        let failed = engine_fails(rt.alloc(), &open, &arena, &WORKED)?;
        drop(arena);
        assert_eq!(rt; (failed, heap.given()), (Ok(wanted), heap.granted()));
    }
    Ok(())
}
