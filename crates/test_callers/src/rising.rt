//! A vector with a rule over writers: what each writer pushes rises, whatever the others push.
ghost use Rattle.std.specs.Prelude.{◌≡◌, ◌<◌, ◌≤◌, ◌^◌, ℕ, Some, IfOk, slice_get, take};
ghost use Rattle.elsa_lock_free.specs.SharedList.{pushed_by};
ghost use Rattle.elsa_lock_free.specs.declared.event.Entry.{Entry};
ghost use Rattle.test_callers.specs.Rising.{AllBelow};

use elsa_lock_free::item_rule::ItemRule;
use elsa_lock_free::lock_free::{Handle, LockFreeFrozenVec};
use std::alloc::{AllocError, Global};
use std::marker::Model;
use std::sync::Wait;
use std::test::*;
use std::thread;

/// The rule of a vector whose items rise by writer: an item is greater than each that its writer
/// has pushed before.
struct EachRises;

impl ItemRule<u64> for EachRises {
    ghost use Rattle.std.specs.Prelude.{false};
    ghost use Rattle.elsa_lock_free.specs.Distinct.{one_answer};
    ghost use Rattle.elsa_lock_free.specs.SharedList.{pushed_by};
    ghost use Rattle.test_callers.specs.Rising.{AllBelow};

    ghost is_new = { λ entries entry. AllBelow entry.item (pushed_by entry.writer entries) };

    ghost distinct = { false };

    ghost apart = { λ is entries index entry new at. one_answer is };

    fn is_distinct() -> bool {
        false
    }
}

/// A vector whose items rise by writer.
type Rising = LockFreeFrozenVec<u64, Global, EachRises>;

/// A writer of such a vector. Contracts see its view.
#[derive(Drop)]
struct Writer<'v> {
    handle: Handle<'v, u64, Global, EachRises>,
    // A number above all that the writer has pushed.
    next: u64,
}

impl<'v> Model for Writer<'v> {
    ghost use Rattle.std.specs.Prelude.{ℕ};
    ghost use Rattle.elsa_lock_free.specs.SharedList.{View, pushed_by};
    ghost use Rattle.test_callers.specs.Rising.{AllBelow};

    ghost Value = { View ℕ };

    ghost view = { λ w. w.handle };

    // What the writer has pushed is below its next number.
    ghost invariant = { λ w. AllBelow w.next (pushed_by w.handle.writer w.handle.seen) };
}

/// Makes a writer that has pushed nothing.
fn first_writer(vector: &Rising) -> Writer<'_> {
    Writer {
        handle: vector.handle(),
        next: 0,
    }
}

/// Returns the greater of two numbers.
fn raised(next: u64, least: u32) -> u64
    ensures { next ≤ result }
{
    let least = least as u64;
    if least < next { next } else { least }
}

impl<'v> Writer<'v> {
    /// Pushes the least number of this writer that is not below `least`, and returns it, or `None`
    /// if another thread pushed meanwhile.
    fn push<R: Wait>(&mut self, rt: &R, least: u32) -> Result<Option<u64>, AllocError> {
        let item = raised(self.next, least);
        if item == u64::MAX {
            return Ok(None);
        }
        let len = self.handle.len();
        let Some(_) = self.handle.push_at(rt, len, item)? else {
            return Ok(None);
        };
        self.next = item + 1;
        Ok(Some(item))
    }
}

/// Proves that of two items of one writer the later is the greater, whichever handle reads them.
fn each_rises(handle: &Handle<'_, u64, Global, EachRises>)
    ensures { (i : ℕ) (e : Entry ℕ) → slice_get handle.now.seen i ≡ Some e →
        AllBelow e.item (pushed_by e.writer (take i handle.now.seen)) }
{
    handle.obeys_rule();
}

/// Pushes until 100 numbers are pushed, and returns whether 100,000 attempts sufficed.
fn push_all<R: Wait>(rt: &R, vector: &Rising, first: u32) -> bool {
    let (mut writer, mut pushed) = (first_writer(vector), 0u32);
    for _ in 0..100_000 {
        if pushed == 100 {
            return true;
        }
        if let Ok(Some(_)) = writer.push(rt, first) {
            pushed = pushed.wrapping_add(1);
        }
    }
    false
}

#[test]
fn the_items_of_a_writer_fell_beside_another_writer(rt: HostRuntime) -> Result<(), Fail> {
    let vector = Rising::with_rule(rt.alloc())?;
    let pushed = thread::join(
        &rt,
        || push_all(&rt, &vector, 0),
        || push_all(&rt, &vector, 1000),
    );
    assert_eq!(rt; pushed, (true, true));
    let mut handle = vector.handle();
    let (mut low, mut high) = (0u64, 1000u64);
    for index in 0..handle.len() {
        let item = handle.get(index).unwrap_or(0);
        let expected = if item < 1000 { low } else { high };
        assert_eq!(rt; item, expected);
        if item < 1000 {
            low = low.wrapping_add(1);
        } else {
            high = high.wrapping_add(1);
        }
    }
    assert_eq!(rt; (low, high), (100, 1100));
    each_rises(&handle);
    Ok(())
}
