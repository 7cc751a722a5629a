//! One run on a shared collection: pairs of threads, each thread with its own view. The two views
//! of a pair are merged, and two other threads continue with them.
use crate::script::{Entry, Log, Put, Script, Wrong, draws_of, holds, whole};
use elsa::sync::AttemptFault;
use std::alloc::{AllocError, Global};
use std::hash::{BuildHasherDefault, FoldHasher};
use std::sync::Wait;
use std::sync::atomic::{AtomicU64, Ordering};
use std::thread;
use std::thread::Threads;
use test_alloc::Budget;
use test_model::draws::Draws;

/// The number of looks of a thread for the others, after which it begins without them.
const TURNS: u64 = 100_000;

/// The greatest number of attempts of an insertion that doesn't wait.
const ATTEMPTS: u64 = 10_000_000;

/// The number of attempts to make a handle: another thread may let each of them fail.
const OPENINGS: u64 = 1_000;

/// The least number of keys.
pub const KEYS: u64 = 300;

/// The allocator of the collections.
pub type Heap<'h> = &'h Budget<Global>;

/// The hash builder of the maps.
pub type State = BuildHasherDefault<FoldHasher>;

/// A view, and the log of the threads that had it.
type Held<F> = (<F as Form>::Pass, Log);

/// A shared collection with the calls of the scripts.
pub trait Form: Sized + Sync + Drop {
    /// The view that a thread has of the collection.
    type Pass: Send + Drop;

    fn pass(&self) -> Self::Pass;

    /// Inserts the key, and returns the entry that the collection then has, and whether it is new.
    fn insert<R: Wait>(&self, rt: &R, pass: &mut Self::Pass, key: u64, value: u64) -> Put;

    /// Returns the entry with this number, or `None`.
    fn at<R: Wait>(&self, rt: &R, pass: &mut Self::Pass, number: u64) -> Option<Entry>;

    /// Returns the number of entries. The interners, of which no call returns whether a name is
    /// new, return `new`, unless a name doesn't have its number.
    fn count<R: Wait>(&self, rt: &R, pass: &mut Self::Pass, new: u64) -> u64;

    /// Merges the two views, and returns the numbers of entries that they then have observed.
    fn meet(&self, _one: &mut Self::Pass, _other: &mut Self::Pass) -> (usize, usize) {
        (0, 0)
    }

    /// Moves all entries out, where a collection has such a call, and checks them.
    fn ends(self) -> Result<(), Wrong> {
        Ok(())
    }
}

/// Tries to insert until no other thread has the lock. Returns `None` if each attempt found the
/// collection busy.
pub fn patiently<T, X: Drop, E: Drop>(
    mut attempt: impl FnMut() -> Result<T, AttemptFault<X, E>>,
) -> Result<Option<T>, AllocError> {
    for _ in 0..ATTEMPTS {
        match attempt() {
            Ok(done) => return Ok(Some(done)),
            Err(AttemptFault::Busy(_)) => thread::yield_now(),
            Err(AttemptFault::Failed(_)) => return Err(AllocError),
        }
    }
    Ok(None)
}

/// Makes a handle, unless each attempt fails.
pub fn opened<H: Drop>(make: impl Fn() -> Result<H, AllocError>) -> Result<H, AllocError> {
    for _ in 0..OPENINGS {
        if let Ok(handle) = make() {
            return Ok(handle);
        }
    }
    Err(AllocError)
}

/// A run on one collection.
#[derive(Drop)]
struct Run<'f, R, F> {
    rt: &'f R,
    alloc: Global,
    heap: Heap<'f>,
    form: &'f F,
    script: Script,
}

impl<R: Threads + Wait + Sync, F: Form> Run<'_, R, F> {
    /// Makes one random call with one of `keys` keys, and adds the entry that it returns.
    fn call(
        &self,
        pass: &mut F::Pass,
        draws: &mut Draws,
        keys: u64,
        log: &mut Log,
    ) -> Result<(), AllocError> {
        let (rt, form) = (self.rt, self.form);
        let found = match draws.below(32) {
            0 => {
                self.heap.refuse_next(draws.below(4));
                None
            }
            1..16 => match form.insert(rt, pass, draws.below(keys), whole(draws)) {
                Ok((entry, is_new)) => {
                    log.new += is_new as u64;
                    Some(entry)
                }
                Err(_) => None,
            },
            _ => form.at(rt, pass, draws.below(keys)),
        };
        if let Some(entry) = found {
            log.entries.push(entry)?;
        }
        Ok(())
    }

    /// Checks that the collection has each entry of a log, with its key and value.
    fn has_all(&self, pass: &mut F::Pass, log: &Log) -> Result<(), Wrong> {
        for entry in &log.entries {
            let found = self.form.at(self.rt, pass, entry.0);
            holds(found == Some(*entry), Wrong::Entry(found, *entry))?;
        }
        Ok(())
    }

    /// Makes the calls of one thread, and records a wrong result, as an entry that it observed and
    /// that differs at the end.
    fn work(&self, held: Held<F>, seed: u64) -> Held<F> {
        let (mut pass, mut log) = held;
        let mut draws = draws_of(seed, log.calls);
        for _ in 0..self.script.calls {
            let done = self.call(&mut pass, &mut draws, self.script.calls.max(KEYS), &mut log);
            log.notes(done.map_err(Wrong::from));
        }
        log.calls += self.script.calls;
        let all = self.has_all(&mut pass, &log);
        log.notes(all);
        (pass, log)
    }

    /// Runs two threads at once, each with a view and its log.
    fn both(&self, one: Held<F>, other: Held<F>, seed: u64) -> (Held<F>, Held<F>) {
        thread::join(
            self.rt,
            move || self.work(one, seed),
            move || self.work(other, seed + 1),
        )
    }

    /// Runs two threads, each with a view. Then it merges the views and runs two other threads,
    /// each with the other's view.
    fn pair(&self, number: usize) -> (Log, Log) {
        let seed = self
            .script
            .seed
            .wrapping_mul(1000)
            .wrapping_add(number as u64)
            << 2;
        let fresh = || (self.form.pass(), Log::new(self.alloc));
        let ((mut pass, mut log), (mut other, other_log)) = self.both(fresh(), fresh(), seed);
        let (seen, seen_too) = self.form.meet(&mut pass, &mut other);
        log.notes(holds(seen == seen_too, Wrong::Merged(seen, seen_too)));
        let (one, other) = self.both((other, log), (pass, other_log), seed + 2);
        (one.1, other.1)
    }

    /// Checks the entries that the threads observed, and the number of entries.
    fn checks(&self, logs: &[(Log, Log)]) -> Result<(), Wrong> {
        let (mut pass, mut new) = (self.form.pass(), 0);
        for both in logs {
            for log in [&both.0, &both.1] {
                if let Some(wrong) = log.wrong {
                    return Err(wrong);
                }
                self.has_all(&mut pass, log)?;
                new += log.new;
            }
        }
        let count = self.form.count(self.rt, &mut pass, new);
        holds(count == new, Wrong::Count(count, new))
    }
}

/// Counts this thread, and waits a bounded time until `count` threads are counted.
fn meet_all(there: &AtomicU64, count: u64) {
    let _ = there.fetch_add(1, Ordering::SeqCst);
    for _ in 0..TURNS {
        if there.load(Ordering::SeqCst) >= count {
            return;
        }
        thread::yield_now();
    }
}

/// Makes one run on the collection.
///
/// # Errors
/// Fails with a result that was wrong.
pub fn runs<R: Threads + Wait + Sync, F: Form>(
    rt: &R,
    alloc: Global,
    heap: &Budget<Global>,
    form: F,
    script: Script,
) -> Result<(), Wrong> {
    let there = AtomicU64::new(0);
    let run = Run {
        rt,
        alloc,
        heap,
        form: &form,
        script,
    };
    let pair = |number: usize| {
        meet_all(&there, script.pairs as u64);
        run.pair(number)
    };
    let logs = thread::map_indices(rt, alloc, script.pairs, &pair)?;
    heap.refuse_next(0);
    run.checks(&logs)?;
    form.ends()
}
