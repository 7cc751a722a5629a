//! Makes the calls whose instructions `tools/instructions` counts.
//!
//! `test_instructions ENTRIES` makes each collection with ENTRIES entries, and calls one function
//! for each row of bench/INSTRUCTIONS.md, by the row's name. A function makes `CALLS` calls, or
//! fills collections with `CALLS` entries in all. No function is inlined, so that its instructions
//! are counted apart; and all collections are in one program, as in a user's.
//!
//! It prints the sum of what the calls return, so that none is optimized away. With one entry each
//! call returns 0, but for six rows of absent keys and two of lengths (1 a call), and the row of
//! texts (7 a call): 15 times `CALLS`.
#![tactic(auto)]

mod cells;
mod maps;
mod rows;
mod threads;

use std::process::ExitCode;
use std::{env, io};

/// The number of calls of a row.
pub const CALLS: usize = 20_000;

/// Returns the key of an index. No two keys are equal, and they have no order.
#[inline(always)]
pub fn key(index: usize) -> u64 {
    (index as u64).wrapping_mul(0x9e37_79b9_7f4a_7c15)
}

/// Pseudo-random indices.
#[derive(Clone, Copy)]
pub struct Draws {
    state: u64,
}

impl Draws {
    pub fn new() -> Draws {
        Draws { state: 1 }
    }

    /// Returns an index below `count`.
    #[inline(always)]
    pub fn below(&mut self, count: usize) -> usize {
        self.state = self
            .state
            .wrapping_mul(6364136223846793005)
            .wrapping_add(1442695040888963407);
        ((self.state >> 33).wrapping_mul(count as u64) >> 31) as usize
    }
}

fn main(rt: HostRuntime) -> io::Result<ExitCode> {
    let words: Vec<String> = env::args(&rt)?.skip(1).collect(rt.alloc())?;
    let [entries] = words.as_slice() else {
        return Ok(ExitCode::FAILURE);
    };
    let entries = entries.as_str().parse::<usize>().unwrap_or(1).max(1);
    let sum = maps::all(rt.alloc(), entries)?
        .wrapping_add(cells::all(rt.alloc(), entries)?)
        .wrapping_add(threads::all(&rt, rt.alloc(), entries)?);
    println!(rt; "{sum}")?;
    Ok(ExitCode::SUCCESS)
}
