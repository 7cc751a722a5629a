//! [`ListCell`]: the state of a list, in two cells, so that most pushes take only a few words out.
ghost use Rattle.std.specs.Prelude.{◌≡◌, ◌++◌, ◌∷◌, ◌<◌, ◌^◌, [], length, suc, IfSome};
ghost use Rattle.elsa_arena.specs.Observed.{IsStateOf};
ghost use Rattle.elsa_arena.specs.Parts.{IsLaterOf, IsNextSlotOf};
ghost use Rattle.elsa_slots.specs.Geometry.{slots_before};

use crate::items::Items;
use crate::observed::Seen;
use crate::shared::Shared;
use crate::state::{Fresh, State};
use boxcar::tag::Tag;
use counted_slot::Fits;
use elsa_slots::geometry::prior_total_buffer_size;
use elsa_slots::slots::{Ahead, Buffer, Slots, WriteRights, Written, WrittenPrefix};
use std::alloc::Allocator;
use std::marker::{Model, PhantomData};

/// The next slot of the open buffer, which isn't the first one of it, and the right to push there.
/// It owns no memory.
pub struct NextSlot<T, A: Allocator + Copy> {
    // The number of items, which is the next index, and where it is.
    pub count: usize,
    pub buffer: usize,
    pub slot: usize,
    // The evidence of all items and of the open buffer, and the rights to its slots from `slot` on.
    pub prefix: WrittenPrefix<T, Buffer<T, A>>,
    pub opened: Written<Buffer<T, A>>,
    pub slots: WriteRights,
}

impl<T, A: Allocator + Copy> Drop for NextSlot<T, A> {
    fn drop(self) {
        let Self {
            count: _,
            buffer: _,
            slot: _,
            prefix,
            opened,
            slots,
        } = self;
        prefix.discard();
        opened.discard();
        slots.discard();
    }
}

impl<T, A: Allocator + Copy> Fits for NextSlot<T, A> {
    ghost use Rattle.elsa_arena.specs.Parts.{IsNextSlotOf};

    type Tag = Tag;

    ghost fits = { λ tag index. IsNextSlotOf tag.numbers index };
}

/// The rights to open the buffers from `first` on, and those of them that are ready.
pub struct Later<T, A: Allocator + Copy> {
    pub first: usize,
    pub further: WriteRights,
    pub ready: Vec<Fresh<T, A>, A>,
}

impl<T, A: Allocator + Copy> Later<T, A> {
    fn parts(self) -> (WriteRights, Vec<Fresh<T, A>, A>)
        ensures { (result.0 ≡ self.further) × (result.1 ≡ self.ready) }
    {
        let Self {
            first: _,
            further,
            ready,
        } = self;
        (further, ready)
    }
}

impl<T, A: Allocator + Copy> Drop for Later<T, A> {
    fn drop(self) {
        let (further, ready) = self.parts();
        further.discard();
        drop(ready);
    }
}

impl<T, A: Allocator + Copy> Fits for Later<T, A> {
    ghost use Rattle.elsa_arena.specs.Parts.{IsLaterOf};

    type Tag = Tag;

    ghost fits = { λ tag later. IsLaterOf tag.numbers later };
}

impl<T, A: Allocator + Copy> NextSlot<T, A> {
    /// Writes an item into the slot. Returns a reference to the item, the evidence of all items,
    /// and the next slot, if the buffer has one.
    #[inline(always)]
    fn write<'v>(
        self,
        into: &'v Slots<T, A>,
        item: T,
    ) -> (&'v T, Seen<T, A>, Option<NextSlot<T, A>>)
        requires { IsNextSlotOf into.now self }
        ensures lent { result.0.now ≡ item }
        ensures seen { (result.1.vector ≡ into.now)
            × (result.1.seen ≡ self.prefix.items ++ item ∷ []) }
        ensures limit { length result.1.seen < 2 ^ 62 }
        ensures next { IfSome result.2 (IsNextSlotOf into.now) }
    {
        let Self {
            count,
            buffer,
            slot,
            prefix,
            opened,
            slots,
        } = self;
        let mut slots = slots;
        let mut prefix = prefix;
        let right = slots.take();
        let size = into.buffer_len(buffer, &opened);
        let (lent, written) = into.write_lent(buffer, slot, item, &opened, right);
        prefix.add(buffer, slot, &opened, written);
        let seen = Seen {
            prefix: prefix.again(),
            count: count + 1,
            invariant: PhantomData,
        };
        if slot + 1 < size {
            let next = NextSlot {
                count: count + 1,
                buffer,
                slot: slot + 1,
                prefix,
                opened,
                slots,
            };
            return (lent, seen, Some(next));
        }
        prefix.discard();
        opened.discard();
        slots.discard();
        (lent, seen, None)
    }

    /// Joins the state of a list whose next index is in the open buffer.
    fn join(self, later: Later<T, A>, _cell: &ListCell<T, A>) -> State<T, A>
        requires next { IsNextSlotOf _cell.now self }
        requires later { IsLaterOf _cell.now later × (later.first ≡ suc self.buffer) }
        ensures { IsStateOf _cell.now result }
    {
        let Self {
            count,
            buffer,
            slot,
            prefix,
            opened,
            slots,
        } = self;
        let (further, ready) = later.parts();
        State {
            count,
            buffer,
            slot,
            prefix,
            ahead: Ahead {
                opened: Some(opened),
                slots,
                further,
            },
            ready,
        }
    }
}

/// Joins the state of a list whose next index begins a buffer.
fn closed<T, A: Allocator + Copy>(
    seen: Seen<T, A>,
    later: Later<T, A>,
    _cell: &ListCell<T, A>,
) -> State<T, A>
    requires seen { (seen.vector ≡ _cell.now) × (length seen.seen ≡ slots_before later.first) }
    requires later { IsLaterOf _cell.now later }
    ensures { IsStateOf _cell.now result }
{
    let first = later.first;
    let (further, ready) = later.parts();
    State {
        count: seen.count,
        buffer: first,
        slot: 0,
        prefix: seen.prefix.again(),
        ahead: Ahead {
            opened: None,
            slots: WriteRights::none(),
            further,
        },
        ready,
    }
}

/// The state of a list, unless a call or a guard has it. Contracts see the names of the list's
/// buffers.
///
/// The cell of the open buffer is empty, besides, while the next index begins a buffer: the length
/// that reads take is then the whole rest of the state.
#[derive(Drop)]
pub struct ListCell<T, A: Allocator + Copy> {
    next: Shared<NextSlot<T, A>>,
    later: Shared<Later<T, A>>,
}

impl<T, A: Allocator + Copy> Model for ListCell<T, A> {
    ghost use Rattle.std.specs.Prelude.{◌≡◌, ℕ, List};

    ghost Value = { List ℕ };

    ghost view = { λ c. c.later.numbers };

    // Both cells are of one list.
    ghost invariant = { λ c. c.next.numbers ≡ c.later.numbers };
}

impl<T, A: Allocator + Copy> ListCell<T, A> {
    /// Stores no state: each call then finds that another has it.
    pub fn lost(tag: &Tag) -> ListCell<T, A>
        ensures { result ≡ tag.now.numbers }
    {
        ListCell {
            next: Shared::lost(tag),
            later: Shared::lost(tag),
        }
    }

    /// Stores the first state.
    pub fn new(state: State<T, A>, tag: &Tag) -> ListCell<T, A>
        requires { IsStateOf tag.now.numbers state }
        ensures { result ≡ tag.now.numbers }
    {
        let cell = ListCell::lost(tag);
        cell.put(state);
        cell
    }

    /// Takes the state out, or returns `None` if another call has it.
    pub fn take(&self, items: &Items<T, A>) -> Option<State<T, A>>
        requires { items.now ≡ self.now }
        ensures { IfSome result (IsStateOf self.now) }
    {
        let Some(later) = self.later.take() else {
            return None;
        };
        match self.next.take() {
            Some(next) => {
                if later.first != next.buffer + 1 {
                    self.next.put(next);
                    self.later.put(later);
                    return None;
                }
                Some(next.join(later, self))
            }
            None => {
                let seen = items.read();
                if seen.count != prior_total_buffer_size(later.first) {
                    self.later.put(later);
                    return None;
                }
                Some(closed(seen, later, self))
            }
        }
    }

    /// Puts the state back.
    pub fn put(&self, state: State<T, A>)
        requires { IsStateOf self.now state }
    {
        let (next, later) = state.split(self);
        if let Some(next) = next {
            self.next.put(next);
        }
        self.later.put(later);
    }

    /// Takes the next slot of the open buffer, or returns `None` if no slot of an open buffer is
    /// left, or if another call has it.
    #[inline(always)]
    pub fn take_next(&self) -> Option<NextSlot<T, A>>
        ensures { IfSome result (IsNextSlotOf self.now) }
    {
        self.next.take()
    }

    /// Puts the next slot back.
    pub fn put_next(&self, next: NextSlot<T, A>)
        requires { IsNextSlotOf self.now next }
    {
        self.next.put(next);
    }

    /// Writes an item into the slot that was taken, shows it to reads, and puts the slot after it
    /// back. Returns a reference to the item, and the evidence of all items.
    #[inline(always)]
    pub fn append<'v>(
        &self,
        items: &'v Items<T, A>,
        next: NextSlot<T, A>,
        item: T,
    ) -> (&'v T, Seen<T, A>)
        requires same { self.now ≡ items.now }
        requires next { IsNextSlotOf items.now next }
        ensures lent { result.0.now ≡ item }
        ensures seen { (result.1.vector ≡ items.now)
            × (result.1.seen ≡ next.prefix.items ++ item ∷ []) }
        ensures limit { length result.1.seen < 2 ^ 62 }
    {
        let (lent, seen, after) = next.write(&items.slots, item);
        Items::show(items, seen.again());
        if let Some(next) = after {
            self.next.put(next);
        }
        (lent, seen)
    }
}
