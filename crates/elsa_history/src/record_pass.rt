//! The receipts of a caller, and whether the receipts of all callers are the history.
ghost use Rattle.std.specs.Prelude.{◌≡◌, ℕ, List, [], ◌∷◌, ◌++◌, length, ◌+◌, ◌<◌, ◌≤◌, All, IfOk, IfSome, IfNone, IsSomeAnd, OnErr, MatchOption, slice_get, true, false, ◌↔◌};
ghost use Rattle.elsa_history.specs.Receipts.{AreOf, EndsElsewhere, IsCall, IsTakenFrom, KnowsWhoLacks, receipt_count, receipts_at, receipts_for};
ghost use Rattle.elsa_tables.specs.Replay.{IsRecorded};

use crate::{Core, History, Start};
use std::alloc::{AllocError, Allocator, Global};
use std::marker::{Model, PhantomData};
use std::sync::{RwLock, Wait};

/// The receipts of one caller of a recorder: one for each call that succeeded, in the order of the
/// calls.
///
/// Contracts see the number of the `RecordPass` and its receipts; a receipt is the index in the
/// history, the command and the reply.
#[derive(Drop)]
pub struct RecordPass<C: Core, A: Allocator = Global> {
    number: u64,
    // For each call, its index in the history, its command and its reply.
    receipts: Vec<(usize, C::Command, C::Reply), A>,
    of: PhantomData<C>,
}

impl<C: Core, A: Allocator> Model for RecordPass<C, A> {
    ghost use Rattle.std.specs.Prelude.{ℕ, List};

    ghost Value = { ℕ × List (ℕ × C.Command × C.Reply) };

    ghost view = { λ p. (p.number, p.receipts.items) };
}

impl<C: Core, A: Allocator + Copy> RecordPass<C, A> {
    /// Makes a `RecordPass` with this number and no receipts. It allocates nothing.
    pub(crate) fn new(alloc: A, number: u64) -> Self
        ensures { result ≡ (number, []) }
    {
        RecordPass {
            number,
            receipts: Vec::new(alloc),
            of: PhantomData,
        }
    }

    /// Returns the number with which the `RecordPass` was made.
    pub fn number(&self) -> u64
        ensures { result ≡ self.now.0 }
    {
        self.number
    }

    /// Returns the receipts, in the order of the calls: the index in the history, the command and
    /// the reply.
    pub fn receipts(&self) -> &[(usize, C::Command, C::Reply)]
        ensures { result.now ≡ self.now.1 }
    {
        self.receipts.as_slice()
    }

    /// Reserves memory for a receipt, applies the command under the lock, and stores the receipt.
    pub(crate) fn call<R: Wait, S: Start<C>>(
        &mut self,
        rt: &R,
        lock: &RwLock<History<C, A, S>>,
        command: C::Command,
    ) -> Result<C::Reply, AllocError>
        ensures recorded { IfOk result (λ reply.
            (index : ℕ) × (self.new ≡ (self.old.0, self.old.1 ++ (index, command, reply) ∷ []))
            × IsRecorded C.steps (S.start C.state C.opening) index
            (self.old.0, command, reply)) }
        ensures refused { OnErr result (self.new ≡ self.old) }
    {
        self.receipts.reserve(1)?;
        let (index, reply) = lock.write(rt).record(self.number, command)?;
        let _ = self.receipts.push((index, command, reply));
        Ok(reply)
    }

    /// Returns whether there is no receipt.
    fn is_empty(&self) -> bool
        ensures when_true { result ≡ true → self.now.1 ≡ [] }
        ensures when_false { result ≡ false → self.now.1 ≡ [] → ⊥ }
    {
        self.receipts.is_empty()
    }

    /// Returns whether the last receipt is for `index`.
    fn ends_at(&self, index: usize) -> bool
        ensures when_true { result ≡ true → EndsElsewhere index self.now.1 → ⊥ }
        ensures when_false { result ≡ false → EndsElsewhere index self.now.1 }
    {
        match self.receipts.last() {
            Some(last) => last.0 == index,
            None => false,
        }
    }

    /// Removes and returns the last receipt, if it is for `index`.
    fn take_last(&mut self, index: usize) -> Option<(C::Command, C::Reply)>
        ensures { MatchOption result ((self.new ≡ self.old) × EndsElsewhere index self.old.1) (
            λ call. IsTakenFrom index call self.old self.new) }
    {
        let Some(last) = self.receipts.last() else {
            return None;
        };
        if last.0 != index {
            return None;
        }
        match self.receipts.pop() {
            Some((_, command, reply)) => Some((command, reply)),
            None => None,
        }
    }
}

/// Returns whether the call is that of the entry.
fn is_call<C: Core>(
    number: u64,
    index: usize,
    call: (C::Command, C::Reply),
    entry: &(u64, C::Command, C::Reply),
) -> bool
    ensures same { result ≡ true →
        IsCall C.Command.eq C.Reply.eq number (index, call.0, call.1) entry.now }
    ensures other { result ≡ false →
        IsCall C.Command.eq C.Reply.eq number (index, call.0, call.1) entry.now → ⊥ }
{
    if entry.0 != number {
        return false;
    }
    if call.0 != entry.1 {
        return false;
    }
    call.1 == entry.2
}

/// The owner of an index for which no pass has a receipt.
const NOBODY: usize = usize::MAX;

/// The result of the search for the receipt of an entry.
#[derive(Drop)]
enum Found {
    /// It was removed from its pass.
    Taken,
    /// No pass ends with a receipt for the entry's index.
    Nowhere,
    /// A pass ended with a receipt for that index that differs from the entry.
    Wrong,
}

/// Returns the pass whose last receipt is for `index`, the last index that remains.
///
/// The recorded owner is tried first. The others are tried one by one only if the owner doesn't end
/// at that index, or if no owners were recorded because an allocation failed.
fn find_pass<C: Core, A: Allocator + Copy>(
    passes: &Vec<RecordPass<C, A>, A>,
    owner: Option<usize>,
    index: usize,
) -> Option<usize>
    requires { owner ≡ Some NOBODY → receipts_at index passes.now.items ≡ 0 }
    ensures found { IfSome result (λ i. IsSomeAnd (slice_get passes.now.items i) (λ pass.
        EndsElsewhere index pass.1 → ⊥)) }
    ensures nowhere { IfNone result (All (λ pass. EndsElsewhere index pass.1) passes.now.items) }
{
    if let Some(owner) = owner {
        if owner == NOBODY {
            return None;
        }
        if owner < passes.len() && passes[owner].ends_at(index) {
            return Some(owner);
        }
    }
    for i in 0..passes.len() {
        if passes[i].ends_at(index) {
            return Some(i);
        }
    }
    None
}

/// Removes the receipt of the entry at `index`, the last entry that remains, from the
/// pass that has it.
fn take_receipt<C: Core, A: Allocator + Copy>(
    passes: &mut Vec<RecordPass<C, A>, A>,
    owner: Option<usize>,
    index: usize,
    entry: &(u64, C::Command, C::Reply),
) -> Found
    requires { owner ≡ Some NOBODY → receipts_at index passes.old.items ≡ 0 }

    // The receipt was removed, and nothing else.
    ensures taken { result ≡ Found.Taken → (before : List (ℕ × C.Command × C.Reply)) →
        length before ≡ index →
        (AreOf C.Command.eq C.Reply.eq passes.new.items before
        ↔ AreOf C.Command.eq C.Reply.eq passes.old.items (before ++ entry.now ∷ [])) }
    ensures count { result ≡ Found.Taken →
        receipt_count passes.new.items + 1 ≡ receipt_count passes.old.items }

    // No pass has a receipt for the entry, and the passes are unchanged.
    ensures nowhere { result ≡ Found.Nowhere → (before : List (ℕ × C.Command × C.Reply)) →
        length before ≡ index →
        (AreOf C.Command.eq C.Reply.eq passes.old.items before
        ↔ AreOf C.Command.eq C.Reply.eq passes.old.items (before ++ entry.now ∷ [])) }
    ensures same { result ≡ Found.Nowhere → passes.new.items ≡ passes.old.items }

    // No other index gains a receipt; a receipt that differs from the entry is wrong.
    ensures fewer { result ≡ Found.Taken → (other : ℕ) →
        receipts_at other passes.new.items ≤ receipts_at other passes.old.items }
    ensures wrong { result ≡ Found.Wrong → (before : List (ℕ × C.Command × C.Reply)) →
        length before ≡ index →
        AreOf C.Command.eq C.Reply.eq passes.old.items (before ++ entry.now ∷ []) → ⊥ }
{
    let Some(i) = find_pass(passes, owner, index) else {
        return Found::Nowhere;
    };
    let pass = &mut passes[i];
    let Some(call) = pass.take_last(index) else {
        unreachable!()
    };
    if is_call::<C>(pass.number(), index, call, entry) {
        Found::Taken
    } else {
        Found::Wrong
    }
}

/// Returns whether no receipt remains.
fn are_empty<C: Core, A: Allocator + Copy>(passes: &Vec<RecordPass<C, A>, A>) -> bool
    ensures when_true { result ≡ true → AreOf C.Command.eq C.Reply.eq passes.now.items [] }
    ensures count { result ≡ true → receipt_count passes.now.items ≡ 0 }
    ensures when_false { result ≡ false → AreOf C.Command.eq C.Reply.eq passes.now.items [] → ⊥ }
{
    for i in 0..passes.len() {
        let pass = &passes[i];
        if !pass.is_empty() {
            return false;
        }
    }
    true
}

/// Records the owner at the index of each of its receipts.
fn note_owner<C, R, A: Allocator>(
    owners: &mut Vec<usize, A>,
    owner: usize,
    receipts: &[(usize, C, R)],
)
    requires { owner < NOBODY }
    ensures { (index : ℕ) → slice_get owners.new.items index ≡ Some NOBODY →
        (slice_get owners.old.items index ≡ Some NOBODY) × (receipts_for index receipts.now ≡ 0) }
{
    for receipt in receipts {
        let index = receipt.0;
        if index >= owners.len() {
            continue;
        }
        owners[index] = owner;
    }
}

/// Returns, for each index of the history, the pass in the list that has a receipt for it, or
/// `NOBODY`.
///
/// The result is empty if there are fewer than two passes, or if the allocation of 8 bytes for each
/// index fails.
fn owners_of<C: Core, A: Allocator + Copy>(
    alloc: A,
    passes: &Vec<RecordPass<C, A>, A>,
    indices: usize,
) -> Vec<usize, A>
    ensures { KnowsWhoLacks NOBODY result.items passes.now.items }
{
    if passes.len() < 2 {
        return Vec::new(alloc);
    }
    let Ok(mut owners) = Vec::from_elem(alloc, NOBODY, indices) else {
        return Vec::new(alloc);
    };
    for i in 0..passes.len() {
        note_owner(&mut owners, i, passes[i].receipts());
    }
    owners
}

/// Returns the number of receipts of the passes, if they are receipts of the history with these
/// entries.
///
/// It visits the entries from the last to the first, and removes each entry's receipt, if there is
/// one, from the end of the pass that has it. At the end no receipt remains exactly if all belong
/// to the history. The owner of each receipt is recorded before, in one walk over the receipts; if
/// there is no memory for that, the passes are searched one by one for each entry.
pub(crate) fn count_receipts<C: Core, A: Allocator + Copy>(
    alloc: A,
    mut passes: Vec<RecordPass<C, A>, A>,
    entries: &[(u64, C::Command, C::Reply)],
) -> Option<usize>
    ensures are_of { IfSome result (λ _. AreOf C.Command.eq C.Reply.eq passes.items entries.now) }
    ensures count { IfSome result (λ count. count ≡ receipt_count passes.items) }
    ensures none { IfNone result (AreOf C.Command.eq C.Reply.eq passes.items entries.now → ⊥) }
{
    let owners = owners_of(alloc, &passes, entries.len());
    let mut left = entries.len();
    let mut count = 0usize;
    while left > 0 {
        left -= 1;
        match take_receipt(&mut passes, owners.get(left).copied(), left, &entries[left]) {
            Found::Taken => count += 1,
            Found::Nowhere => {}
            Found::Wrong => return None,
        }
    }
    if !are_empty(&passes) {
        return None;
    }
    Some(count)
}
