//! The program `elsa`. `elsa intern` writes a reply on standard output for each line of standard
//! input. `elsa shared W N` pushes `N` numbers from each of `W` threads into one concurrent vector,
//! and prints the vector's length.
#![tactic(auto)]

use bumpalo::Bump;
use elsa::SeededState;
use elsa::interner::{Counted, EngineFault, intern_engine_with_hasher};
use elsa_program::Job;
use elsa_program::command::job;
use elsa_program::shared::{Gate, run_shared};
use std::process::ExitCode;

const USAGE: &str = "usage: elsa intern | elsa shared W N";

/// Writes a line on standard error. If that fails, nothing more can be reported.
fn complain(rt: &HostRuntime, message: &str) {
    let _ = eprintln!(rt; "{message}");
}

/// Writes a reply on standard output for each line of standard input. The names are untrusted
/// input, so they are hashed with a secret.
fn intern(rt: &HostRuntime) -> ExitCode {
    let Ok(secret) = SeededState::new(rt) else {
        complain(rt, "fault");
        return ExitCode::FAILURE;
    };
    let arena = Bump::new(rt.alloc());
    let mut reader = Counted::new(rt.stdin());
    let mut writer = Counted::new(rt.stdout());
    match intern_engine_with_hasher(rt.alloc(), &arena, secret, &mut reader, &mut writer) {
        Ok(()) => ExitCode::SUCCESS,
        Err(EngineFault::Write) => {
            complain(rt, "write failed");
            ExitCode::FAILURE
        }
        Err(EngineFault::Read | EngineFault::Endless) => {
            complain(rt, "read failed");
            ExitCode::FAILURE
        }
    }
}

/// A gate that stops no worker.
struct Open;

impl Gate for Open {
    fn after(&self, _worker: usize, _index: usize) -> bool {
        true
    }
}

/// Prints the length of the vector on standard output, or `fault` on standard error if there is no
/// length.
fn tell(rt: &HostRuntime, length: Option<usize>) -> ExitCode {
    let Some(length) = length else {
        complain(rt, "fault");
        return ExitCode::FAILURE;
    };
    if println!(rt; "ok {length}").is_err() {
        complain(rt, "write failed");
        return ExitCode::FAILURE;
    }
    ExitCode::SUCCESS
}

/// Returns the words after the program's name. `None` if one of them isn't UTF-8, or if an
/// allocation fails.
fn words(rt: &HostRuntime) -> Option<Vec<String>> {
    std::env::args(rt).ok()?.skip(1).collect(rt.alloc()).ok()
}

fn main(rt: HostRuntime) -> ExitCode {
    let Some(words) = words(&rt) else {
        complain(&rt, "fault");
        return ExitCode::FAILURE;
    };
    match job(words.as_slice()) {
        Some(Job::Intern) => intern(&rt),
        Some(Job::Shared(workers, numbers)) => {
            let length = run_shared(&rt, rt.alloc(), workers, numbers, &Open);
            tell(&rt, length.ok())
        }
        None => {
            complain(&rt, USAGE);
            ExitCode::from(2)
        }
    }
}
