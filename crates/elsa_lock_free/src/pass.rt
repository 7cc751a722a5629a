//! A view: what a thread has observed of a vector, with the evidence that its slots were written,
//! and the right to push as a writer of its own.
ghost use Rattle.std.specs.Prelude.{◌≡◌, false, ◌≢◌, ◌≤◌, ◌<◌, ◌^◌, [], Some, length, slice_get, suc};
ghost use mathlib.Core.List.{IsPrefix};
ghost use Rattle.elsa_lock_free.specs.SharedList.{Apart, Continues, IsSamePass, Meet, count, items_of, longer, mine};
ghost use Rattle.elsa_lock_free.specs.Distinct.{AgreeOnIndices, EachIsNew, EachItemIsNew, IsOneToOne};
ghost use Rattle.elsa_lock_free.specs.History.{is_held, list_of};
ghost use Rattle.elsa_lock_free.specs.Rights.{buffer_slots_of};
ghost use Rattle.elsa_lock_free.specs.SeenHistory.{view_of};

use crate::atomic_list::{AtomicList, SeenHistory, obeys_rule};
use crate::history::VectorHistory;
use crate::item_rule::{AnyItems, DistinctItems, ItemRule};
use crate::lock_free::LockFreeFrozenVec;
use crate::tokens::{Writer, apart, bounded_by_tickets, evidence, take_read};
use elsa_slots::slots::{Beside, Buffer, WrittenPrefix};
use std::alloc::{Allocator, Global};
use std::marker::Model;
use std::snapshot::Snapshot;

/// The right to push as one writer. A publication requires it of the writer that it is passed. A
/// handle has it from the vector, and no handle has the vector, so no call of a handle can push as
/// a writer that it has made up. Contracts see the writer's number. It has no bytes.
#[derive(Drop)]
pub struct PushRight {
    writer: Snapshot<Writer>,
}

impl Model for PushRight {
    ghost use Rattle.std.specs.Prelude.{ℕ, suc};

    ghost Value = { ℕ };

    ghost view = { λ r. suc r.writer.value.name };
}

impl PushRight {
    /// The right to push as the writer of a pass. The vector itself is not read: it is what only a
    /// maker of handles has.
    pub(crate) fn of<T: Drop, A: Allocator + Copy, K: ItemRule<T>, X: Beside<T> + Drop>(
        _vector: &LockFreeFrozenVec<T, A, K, X>,
        pass: &Pass<T, A, K, X>,
    ) -> PushRight
        ensures { result ≡ pass.now.writer }
    {
        let writer = &pass.writer;
        PushRight {
            writer: Snapshot::of(writer),
        }
    }
}

/// What a thread has observed of a vector, and the right to push as its writer. Contracts see the
/// vector that it belongs to, its number as a writer, and the list that it has observed.
pub struct Pass<T, A: Allocator = Global, K: ItemRule<T> = AnyItems, X: Beside<T> = ()> {
    seen: SeenHistory<T, A, K, X>,
    // The writer's number, and the length of the list of `seen`.
    writer: Writer,
    seen_length: usize,
}

impl<T, A: Allocator, K: ItemRule<T>, X: Beside<T>> Model for Pass<T, A, K, X> {
    ghost use Rattle.std.specs.Prelude.{◌≡◌, ◌<◌, ◌^◌, length, suc};
    ghost use Rattle.elsa_lock_free.specs.SharedList.{View, count};
    ghost use Rattle.elsa_lock_free.specs.History.{list_of};

    ghost Value = { View T };

    ghost view = { λ p. record { vector = (p.seen.book, p.seen.names); writer = suc p.writer.name; seen = list_of p.seen.log } };

    // The writer has used one ticket for each of its entries, and `seen_length` counts all entries.
    ghost invariant = { λ p. (count (suc p.writer.name) (list_of p.seen.log) ≡ p.writer.used)
        × (p.seen_length ≡ length (list_of p.seen.log)) × (p.seen_length < 2 ^ 62) };
}

impl<T, A: Allocator, K: ItemRule<T>, X: Beside<T>> Pass<T, A, K, X> {
    pub(crate) fn of(
        seen: SeenHistory<T, A, K, X>,
        writer: Writer,
        seen_length: usize,
    ) -> Pass<T, A, K, X>
        requires mine { count (suc writer.name) (list_of seen.log) ≡ writer.used }
        requires length { (seen_length ≡ length (list_of seen.log)) × (seen_length < 2 ^ 62) }
        ensures { result ≡ view_of seen writer }
    {
        Pass {
            seen,
            writer,
            seen_length,
        }
    }

    /// The pass of a thread that has ended its hold: the word is free.
    pub(crate) fn released(
        seen: SeenHistory<T, A, K, X>,
        writer: Writer,
        seen_length: usize,
    ) -> Pass<T, A, K, X>
        requires free { is_held seen.log ≡ false }
        requires mine { count (suc writer.name) (list_of seen.log) ≡ writer.used }
        requires length { (seen_length ≡ length (list_of seen.log)) × (seen_length < 2 ^ 62) }
        ensures { result ≡ view_of seen writer }
    {
        Pass::of(seen, writer, seen_length)
    }

    pub(crate) fn parts(self) -> (SeenHistory<T, A, K, X>, Writer, usize)
        ensures same_view { self ≡ record {
          vector = (result.0.book, result.0.names);
          writer = suc result.1.name;
          seen = list_of result.0.log;
        } }
        ensures mine { count (suc result.1.name) (list_of result.0.log) ≡ result.1.used }
        ensures length { (result.2 ≡ length (list_of result.0.log)) × (result.2 < 2 ^ 62) }
    {
        let Self {
            seen,
            writer,
            seen_length,
        } = self;
        (seen, writer, seen_length)
    }
}

impl<T, A: Allocator, K: ItemRule<T>, X: Beside<T>> Pass<T, A, K, X> {
    /// Makes another view of the same vector, which has observed as much and pushed nothing. It
    /// allocates nothing and takes no atomic step.
    pub fn again(&self) -> Pass<T, A, K, X>
        ensures { (result.vector ≡ self.now.vector) × (result.seen ≡ self.now.seen)
            × (mine result ≡ []) }
    {
        Pass::of(
            self.seen.again(),
            bounded_by_tickets(&self.seen, Writer::new()),
            self.seen_len(),
        )
    }

    /// Takes the pass out, for a step that needs it by value, and leaves one that has observed as
    /// much and has pushed nothing.
    pub(crate) fn lend(&mut self) -> Pass<T, A, K, X>
        ensures same_view { result ≡ self.old }
        ensures rest { self.new.vector ≡ self.old.vector }
    {
        let spare = self.again();
        std::mem::replace(self, spare)
    }

    /// Returns the number of items that the view has observed, without an atomic step.
    ///
    /// # Cost
    /// `O(1)`.
    pub fn seen_len(&self) -> usize
        ensures length { result ≡ length self.now.seen }
        ensures limit { result < 2 ^ 62 }
    {
        self.seen_length
    }

    /// Proves what the vector's rule promises of all items that the view has observed. It does
    /// nothing at run time.
    #[tactic(auto, using(crate::proofs::RuleLemmas::EachNew::each_item_is_new))]
    pub fn obeys_rule(&self)
        ensures entries { EachIsNew K.is_new self.now.seen }
        ensures items { EachItemIsNew K.is_new self.now.seen }
    {
        obeys_rule(&self.seen);
    }

    /// Returns the history that the view has observed. It has no bytes, and takes no atomic step.
    pub fn history(&self) -> VectorHistory<T, A, K, X>
        ensures same_vector { result.vector ≡ self.now.vector }
        ensures list { list_of result.events ≡ self.now.seen }
    {
        VectorHistory {
            seen: self.seen.again(),
        }
    }

    /// Returns the evidence for all that the view has observed. It has no bytes, and takes no
    /// atomic step.
    pub(crate) fn evidence(&self) -> WrittenPrefix<T, Buffer<T, A, X>>
        ensures { (result.buffer_slots ≡ buffer_slots_of self.now.vector.1)
            × (result.items ≡ items_of self.now.seen) }
    {
        evidence(&self.seen)
    }

    /// Two passes are two writers.
    fn known_apart(self, other: Pass<T, A, K, X>) -> (Pass<T, A, K, X>, Pass<T, A, K, X>)
        ensures { (result.0 ≡ self) × (result.1 ≡ other) × (self.writer ≢ other.writer) }
    {
        let (seen, writer, length) = self.parts();
        let (other_seen, other_writer, other_length) = other.parts();
        let (writer, other_writer) = apart(writer, other_writer);
        (
            Pass::of(seen, writer, length),
            Pass::of(other_seen, other_writer, other_length),
        )
    }

    /// The pass with what a longer one has seen.
    fn raised(self, longer: &Pass<T, A, K, X>) -> Pass<T, A, K, X>
        requires same_vector { self.vector ≡ longer.now.vector }
        requires shorter { length self.seen ≤ length longer.now.seen }
        ensures same { IsSamePass self result }
        ensures seen { (result.seen ≡ longer.now.seen) × IsPrefix self.seen result.seen }
        ensures mine { mine result ≡ mine self }
    {
        let (seen, writer, _length) = self.parts();
        let mut both = seen;
        both.learn(&longer.seen);
        let writer = bounded_by_tickets(&longer.seen, writer);
        drop(both);
        Pass::of(longer.seen.again(), writer, longer.seen_length)
    }

    fn met(self, other: Pass<T, A, K, X>) -> (Pass<T, A, K, X>, Pass<T, A, K, X>)
        requires { self.vector ≡ other.vector }

        // Each pass is the same, later.
        ensures same { IsSamePass self result.0 × IsSamePass other result.1 }
        ensures seen { IsPrefix self.seen result.0.seen × IsPrefix other.seen result.1.seen }

        // Both have seen the longer list. Their indices stay, and none is of both.
        ensures longer { (result.0.seen ≡ longer self.seen other.seen)
            × (result.1.seen ≡ longer self.seen other.seen) }
        ensures mine { (mine result.0 ≡ mine self) × (mine result.1 ≡ mine other) }
        ensures apart { Apart (mine result.0) (mine result.1) }
    {
        let (one, two) = self.known_apart(other);
        if two.seen_len() <= one.seen_len() {
            let two = two.raised(&one);
            (one, two)
        } else {
            let one = one.raised(&two);
            (one, two)
        }
    }

    /// Merges what two views have observed: afterwards both have observed the longer list. Their
    /// own indices stay, and no index belongs to both. It allocates nothing, takes no atomic step
    /// and never blocks.
    ///
    /// # Cost
    /// `O(1)`.
    pub fn meet(&mut self, other: &mut Pass<T, A, K, X>)
        requires same_vector { self.old.vector ≡ other.old.vector }
        ensures { Meet self.old self.new other.old other.new }
    {
        let spare = self.again();
        let one = std::mem::replace(self, spare);
        let spare = other.again();
        let two = std::mem::replace(other, spare);
        let (one, two) = one.met(two);
        drop(std::mem::replace(self, one));
        drop(std::mem::replace(other, two));
    }
}

impl<T: Drop, A: Allocator + Copy, K: ItemRule<T>, X: Beside<T> + Drop> Pass<T, A, K, X> {
    /// Reads the number of items in the vector, by one load. The view then has observed as much as
    /// `known`.
    pub(crate) fn read_length(
        self,
        list: &AtomicList<T, A, K, X>,
        known: &VectorHistory<T, A, K, X>,
    ) -> (Pass<T, A, K, X>, usize)
        requires same_vector { self.vector ≡ (list.now.first.book, list.now.first.names) }
        requires known { known.now.vector ≡ self.vector }
        ensures continues { Continues self result.0 }
        ensures fresh { IsPrefix (list_of known.now.events) result.0.seen }
        ensures length { (result.1 ≡ length result.0.seen) × (result.1 < 2 ^ 62) }
    {
        let (seen, writer, _length) = self.parts();
        let mut both = seen;
        both.learn(&known.seen);
        let (n, seen, gained) = list.read_length(both, writer);
        let (writer, prefix) = take_read(gained);
        prefix.discard();
        (Pass::of(seen, writer, n), n)
    }

    /// Returns a reference to the item at an index that the view has observed.
    pub(crate) fn item<'v>(&self, list: &'v AtomicList<T, A, K, X>, index: usize) -> &'v T
        requires same_vector { self.now.vector ≡ (list.now.first.book, list.now.first.names) }
        requires seen { index < length self.now.seen }
        ensures { slice_get (items_of self.now.seen) index ≡ Some result.now }
    {
        self.seen_len();
        let prefix = self.evidence();
        let item = list.item(&prefix, index);
        prefix.discard();
        item
    }
}

impl<T: Eq, A: Allocator> Pass<T, A, DistinctItems> {
    /// Proves that equal items that a view has observed are at one index. It does nothing at run
    /// time.
    pub fn one_to_one(&self)
        ensures { IsOneToOne T.eq (items_of self.now.seen) }
    {
        obeys_rule(&self.seen);
    }

    /// Proves that equal items that two views of a vector have observed are at one index, whether
    /// the views were merged or not. It does nothing at run time.
    pub fn same_index(&self, other: &Pass<T, A, DistinctItems>)
        requires same_vector { self.now.vector ≡ other.now.vector }
        ensures { AgreeOnIndices T.eq (items_of self.now.seen) (items_of other.now.seen) }
    {
        let mut both = self.seen.again();
        both.learn(&other.seen);
        obeys_rule(&both);
        drop(both);
    }
}

// What a pass has is history that was seen and tickets: no reference, and nothing of one thread.
unsafe impl<T, A: Allocator, K: ItemRule<T>, X: Beside<T>> Send for Pass<T, A, K, X> {}

impl<T, A: Allocator, K: ItemRule<T>, X: Beside<T>> Drop for Pass<T, A, K, X> {
    fn drop(self) {
        let (seen, writer, _length) = self.parts();
        drop(seen);
        writer.discard();
    }
}
