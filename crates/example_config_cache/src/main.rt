//! A cache of configuration files. Each file is read and parsed once, and its keys and values are
//! slices of its text.
//!
//! Each line of standard input is `PATH KEY`, and the program prints the key's value in that file.
//! The texts and the configurations are in an arena, so a value stays valid while more files are
//! loaded, and after the cache's end, as the last line of the output shows. If a file is missing,
//! isn't UTF-8 or has a bad line, the program prints the reason, and the other files stay.
#![tactic(auto)]

mod config;
mod configs;

use crate::configs::Configs;
use bumpalo::Bump;
use elsa::SeededState;
use std::io::{self, BufRead, BufReader, BufWriter, Write};

fn main(rt: HostRuntime) -> io::Result<()> {
    let secret = SeededState::new(&rt)?;
    let alloc = rt.alloc();
    let arena = Bump::new(alloc);
    let mut configs = Configs::new(alloc, &arena, secret);
    let mut output = BufWriter::new(alloc, io::writer(&rt))?;
    let mut first = None;
    for line in BufReader::new(alloc, rt.reader())?.lines(alloc) {
        let line = line?;
        let Some((path, key)) = line.as_str().split_once(' ') else {
            writeln!(output, "PATH KEY, please")?;
            continue;
        };
        let config = match configs.config(&rt, path) {
            Ok(config) => config,
            Err(fault) => {
                writeln!(output, "{path}: {fault}")?;
                continue;
            }
        };
        let Some(value) = config.value(key) else {
            writeln!(output, "{path}: no {key}")?;
            continue;
        };
        writeln!(output, "{path}: {value}")?;
        first = first.or(Some(value));
    }
    let count = configs.parsed.len();
    writeln!(output, "{count} files are parsed")?;
    drop(configs);
    let first = first.unwrap_or("none");
    writeln!(output, "the first value was {first}")?;
    output.flush()
}
