//! The engine with slices and vectors, with an allocator that denies requests, and from 65,536
//! names on, where it reads ahead.
use bumpalo::Bump;
use elsa_interner::interner::Interner;
use elsa_program::devices::Counted;
use elsa_program::engine::intern_engine;
use std::alloc::{Allocator, Global};
use std::io;
use std::io::Read;
use std::test::Fail;

/// Returns the output for the input. Names and long lines are in memory of `table`.
fn output_of<A: Allocator + Copy>(
    alloc: Global,
    table: A,
    input: impl Read + Drop,
) -> Result<String, Fail> {
    let arena = Bump::new(alloc);
    let mut reader = Counted::new(input);
    let mut bytes: Vec<u8> = Vec::new(alloc);
    let mut writer = Counted::new(&mut bytes);
    intern_engine(table, &arena, &mut reader, &mut writer)?;
    drop(writer);
    Ok(String::from_utf8(bytes)?)
}

#[test]
fn the_engine_had_other_replies(rt: HostRuntime) -> Result<(), Fail> {
    let alloc = rt.alloc();
    let rows: [(&[u8], &str); 8] = [
        (
            b"put lonely\nput best friend\nput threes a crowd\nput rando\nput facebook\nput best friend\nat 1\n",
            "0\n1\n2\n3\n4\n1\nbest friend\n",
        ),
        (b"", ""),
        (b"\n", "bad line\n"),
        (
            b"put\nlen\nLEN\nfind x\nput \nat 0\nlen",
            "bad line\n0\nbad line\nnone\n0\n\n1\n",
        ),
        (
            b"at 18446744073709551616\nat 18446744073709551615\nat +1\nat -1\nat \nat\nat 1 ",
            "bad line\nnone\nbad line\nbad line\nbad line\nbad line\nbad line\n",
        ),
        (
            b"put a\r\nput a\nat 0\nfind a\nat 000000000000000000000001",
            "0\n1\na\r\n1\na\n",
        ),
        (
            b"put  a\nput put a\nat 0\nat 1\nlen \n",
            "0\n1\n a\nput a\nbad line\n",
        ),
        (b"put \xff\nlen", "bad line\n0\n"),
    ];
    for (line, (input, wanted)) in rows.iter().enumerate() {
        let output = output_of(alloc, alloc, *input)?;
        assert_eq!(rt; output.as_str(), *wanted, "of line {line}");
    }
    Ok(())
}

#[test]
fn a_long_line_was_cut_or_an_allocation_failure_stopped_the_engine(
    rt: HostRuntime,
) -> Result<(), Fail> {
    let alloc = rt.alloc();
    let name = "a".repeat(alloc, 100_000)?;
    let input = format!(in alloc; "put {name}\nat 0\nlen\n")?;
    let wanted = format!(in alloc; "0\n{name}\n1\n")?;
    assert!(rt; output_of(alloc, alloc, input.as_bytes())? == wanted);
    let budget = Bump::new(alloc);
    budget.set_allocation_limit(Some(0));
    for (input, wanted) in [
        (input.as_str(), "no memory\nnone\n0\n"),
        (
            "put a\nfind a\nlen\nput\n",
            "no memory\nnone\n0\nbad line\n",
        ),
    ] {
        let output = output_of(alloc, &budget, input.as_bytes())?;
        assert_eq!(rt; output.as_str(), wanted);
    }
    Ok(())
}

// ---- reading ahead

/// The number of names before the other lines. The engine reads ahead from 65,536 names on.
const NAMES: u64 = 66_000;

/// The number of the other lines.
const LINES: u64 = 4_000;

/// Returns the number after `drawn` in a fixed sequence that looks random.
fn next(drawn: u64) -> u64 {
    drawn
        .wrapping_mul(6_364_136_223_846_793_005)
        .wrapping_add(1_442_695_040_888_963_407)
}

/// A reader of the rest of a text, in pieces of 1 to 512 bytes.
#[derive(Drop)]
struct Pieces<'t> {
    left: &'t [u8],
    drawn: u64,
}

impl<'t> Read for Pieces<'t> {
    fn read(&mut self, buf: &mut [u8]) -> io::Result<usize> {
        self.drawn = next(self.drawn);
        let most = ((self.drawn >> 55) as usize + 1).min(buf.len());
        self.left.read(&mut buf[..most])
    }
}

/// Returns a line of one of eight kinds, and its reply by the interner.
fn line_of(
    alloc: Global,
    names: &mut Interner<'_>,
    kind: u64,
    number: u64,
) -> Result<(String, String), Fail> {
    let (line, found) = match kind {
        0..8 => {
            let name = format!(in alloc; "n{number}")?;
            (
                format!(in alloc; "put {name}")?,
                Some(names.put(name.as_str())?),
            )
        }
        8..11 => {
            let name = format!(in alloc; "n{number}")?;
            (format!(in alloc; "find {name}")?, names.find(name.as_str()))
        }
        11 | 12 => {
            let reply = names.at(number as usize).unwrap_or("none");
            return Ok((
                format!(in alloc; "at {number}")?,
                String::from_str(alloc, reply)?,
            ));
        }
        13 => (String::from_str(alloc, "len")?, Some(names.len())),
        14 => return Ok((
            format!(in alloc; "n{number}")?,
            String::from_str(alloc, "bad line")?,
        )),
        _ => {
            let name = format!(in alloc; "a name that is longer than sixteen bytes: {number}")?;
            (
                format!(in alloc; "put {name}")?,
                Some(names.put(name.as_str())?),
            )
        }
    };
    let reply = match found {
        Some(number) => format!(in alloc; "{number}")?,
        None => String::from_str(alloc, "none")?,
    };
    Ok((line, reply))
}

#[test]
fn reading_ahead_changed_a_reply(rt: HostRuntime) -> Result<(), Fail> {
    let alloc = rt.alloc();
    // In the second input some lines aren't UTF-8.
    for is_text in [true, false] {
        let arena = Bump::new(alloc);
        let mut names = Interner::new(alloc, &arena);
        let (mut input, mut wanted) = (Vec::new(alloc), String::new(alloc));
        let mut drawn = 1;
        for turn in 0..NAMES + LINES {
            drawn = next(drawn);
            let (line, reply) = match turn < NAMES {
                true => line_of(alloc, &mut names, 0, turn)?,
                false => line_of(alloc, &mut names, drawn >> 60, (drawn >> 32) % 70_000)?,
            };
            input.extend_from_slice(line.as_bytes())?;
            input.push(b'\n')?;
            wanted.push_str(reply.as_str())?;
            wanted.push('\n')?;
            if !is_text && turn >= NAMES && turn % 100 == 0 {
                input.extend_from_slice(b"put \xff\n")?;
                wanted.push_str("bad line\n")?;
            }
        }
        let pieces = Pieces {
            left: input.as_slice(),
            drawn: 2,
        };
        let output = output_of(alloc, alloc, pieces)?;
        let differs = output
            .lines()
            .zip(wanted.lines())
            .position(|(one, other)| one != other);
        assert_eq!(rt; (differs, output.len()), (None, wanted.len()));
    }
    Ok(())
}
