//! A recorder over your own sequential object, whose history is closed in parts: an account that
//! two threads use at once, day by day.
//!
//! A recorder requires a [`Core`](elsa::sync::history::Core): a type of commands, a type of
//! replies, the meaning of each command, and a function that makes a call ([`account`]). The
//! meaning of the commands is in `specs/Account.antt`, in four lines. When the threads of a day are
//! done, its recorder is closed with their `RecordPass`es. The close returns the day's calls and
//! the account, and the next day's recorder starts with that account. So no recorder stores the
//! calls of more than one day. The days together are one history, which is proved to be legal from
//! the empty account; the proof trusts no thread. The output is the same for every schedule.
#![tactic(auto)]

ghost use Rattle.std.specs.Prelude.{◌≡◌, ◌++◌, IfOk, IfSome};
ghost use Rattle.elsa_tables.specs.Replay.{Replays};
ghost use Rattle.example_account.specs.Account.{AccountStep};

mod account;

use crate::account::{Account, AccountCommand, AccountReply};
use elsa::sync::history::{RecordPass, Recorder};
use elsa_history::{AtOpening, Entries, Start};
use std::alloc::{AllocError, Global};
use std::marker::Brand;
use std::sync::Wait;
use std::thread::Threads;
use std::{io, thread};

const THREADS: usize = 2;

fn main(rt: HostRuntime) -> io::Result<()> {
    let Some(days) = two_days(&rt, rt.alloc())? else {
        return rt.println("the receipts aren't the history");
    };
    let (first, (account, second)) = days;
    tell(&rt, "first", &first)?;
    tell(&rt, "second", &second)?;
    println!(rt; "the balance is {}", account.balance())
}

/// Runs two days. Returns the calls of the first, and the account after both with the calls of the
/// second, or `None` if a day's receipts aren't its history.
///
/// # Errors
/// Fails if an allocation fails.
#[tactic(auto, using(elsa_history::proofs::Parts::replays_append))]
fn two_days<R: Threads + Wait + Sync>(
    rt: &R,
    alloc: Global,
) -> Result<Option<(Entries<Account>, (Account, Entries<Account>))>, AllocError>
    ensures { IfOk result (λ closed. IfSome closed (λ days.
        Replays AccountStep 0 (days.0.items ++ days.1.1.items) days.1.0.cents)) }
{
    let Some((account, first)) = day::<R, AtOpening>(rt, alloc, Account::new())? else {
        return Ok(None);
    };
    let Some(rest) = day::<R, Brand>(rt, alloc, account)? else {
        return Ok(None);
    };
    Ok(Some((first, rest)))
}

/// Runs one day that starts with this account. Returns the account after it with the day's calls,
/// or `None` if the receipts aren't the history.
///
/// # Errors
/// Fails if an allocation fails.
fn day<R: Threads + Wait + Sync, S: Start<Account> + Send + Sync>(
    rt: &R,
    alloc: Global,
    account: Account,
) -> Result<Option<(Account, Entries<Account>)>, AllocError>
    requires { account.cents ≡ S.start (λ it. it.cents) 0 }
    ensures { IfOk result (λ closed. IfSome closed (λ day.
        Replays AccountStep (S.start (λ it. it.cents) 0) day.1.items day.0.cents)) }
{
    let recorder: Recorder<Account, Global, S> = Recorder::with_start(alloc, account);
    let shared = &recorder;
    let results = thread::map_indices(rt, alloc, THREADS, &|thread| work(rt, shared, thread))?;
    let mut passes = Vec::new(alloc);
    for result in results {
        passes.push(result?)?;
    }
    let Ok(history) = recorder.close(passes) else {
        return Ok(None);
    };
    Ok(Some(history.into_parts()))
}

/// Makes the calls of one thread: ten times a deposit of 100 cents and a withdrawal of 30, and then
/// a withdrawal of more than the balance.
fn work<R: Wait, S: Start<Account>>(
    rt: &R,
    recorder: &Recorder<Account, Global, S>,
    thread: usize,
) -> Result<RecordPass<Account>, AllocError> {
    let mut pass = recorder.pass(thread as u64);
    for _ in 0..10 {
        recorder.call(rt, &mut pass, AccountCommand::Deposit(100))?;
        recorder.call(rt, &mut pass, AccountCommand::Withdraw(30))?;
    }
    recorder.call(rt, &mut pass, AccountCommand::Withdraw(1_000_000))?;
    Ok(pass)
}

/// Prints the number of calls of a day, and the number of those that changed nothing.
fn tell(rt: &impl Print, name: &str, day: &Entries<Account>) -> io::Result<()> {
    let mut refused = 0u64;
    for (_, _, reply) in day {
        if *reply == AccountReply::Refused {
            refused = refused.saturating_add(1);
        }
    }
    println!(rt;
        "the {name} day: {} calls, {refused} of them refused",
        day.len()
    )
}
