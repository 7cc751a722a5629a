//! The state of a list of items in slots: its length, the evidence of its items, the rights to the
//! slots after them, and the buffers that are ready for later items.
ghost use Rattle.std.specs.Prelude.{◌≡◌, suc, ◌+◌, ◌^◌, ◌++◌, ◌∷◌, ◌<◌, ◌≤◌, [], drop, length, None, IfErr, IfOk, IfSome, OnErr, OnOk};
ghost use mathlib.Core.List.{IsPrefix};
ghost use Rattle.elsa_arena.specs.Observed.{IsStateOf};
ghost use Rattle.elsa_arena.specs.Parts.{IsLaterOf, IsNextSlotOf};
ghost use Rattle.elsa_arena.specs.Ready.{AreNext, AreReady, capacity_of, end_of};
ghost use Rattle.elsa_slots.specs.Ahead.{GoesOn, IsClosedAt, IsOpenAt};
ghost use Rattle.elsa_slots.specs.Geometry.{IsAt, size_of};

use crate::list_cell::{Later, ListCell, NextSlot};
use elsa_slots::geometry::{buffer_size, locate};
use elsa_slots::slots::{
    Ahead, Buffer, HasSlots, Sink, Slots, WriteRights, Written, WrittenPrefix,
};
use std::alloc::{AllocError, Allocator};

/// The greatest number of items.
pub const MOST: usize = (1 << 62) - 1;

/// A buffer that isn't open yet, and the rights to its slots.
pub struct Fresh<T, A: Allocator + Copy> {
    pub buffer: Buffer<T, A>,
    pub slots: WriteRights,
}

impl<T, A: Allocator + Copy> Fresh<T, A> {
    fn parts(self) -> (Buffer<T, A>, WriteRights)
        ensures { (result.0 ≡ self.buffer) × (result.1 ≡ self.slots) }
    {
        let Self { buffer, slots } = self;
        (buffer, slots)
    }
}

impl<T, A: Allocator + Copy> Drop for Fresh<T, A> {
    fn drop(self) {
        let (buffer, slots) = self.parts();
        drop(buffer);
        slots.discard();
    }
}

/// The length of a list, the evidence that its items were written, the rights to write after them,
/// and the buffers that are ready for later items.
pub struct State<T, A: Allocator + Copy> {
    pub count: usize,
    // The buffer of the next index, and its slot there.
    pub buffer: usize,
    pub slot: usize,
    pub prefix: WrittenPrefix<T, Buffer<T, A>>,
    pub ahead: Ahead<T, A>,
    pub ready: Vec<Fresh<T, A>, A>,
}

/// An open buffer, the rights to its slots from the next index on, and the rights to open the later
/// buffers.
struct Opened<T, A: Allocator + Copy> {
    buffer: Written<Buffer<T, A>>,
    slots: WriteRights,
    further: WriteRights,
}

/// A reference to an item that was written, the rights after it, and where the next index is.
struct After<'v, T, A: Allocator + Copy> {
    lent: &'v T,
    ahead: Ahead<T, A>,
    buffer: usize,
    slot: usize,
}

impl<T, A: Allocator + Copy> State<T, A> {
    /// Makes the state of an empty list, from the rights to open its buffers.
    pub fn first(alloc: A, further: WriteRights) -> State<T, A>
        requires { length further.of ≡ 31 }
        ensures same_vector { IsStateOf further.of result }
        ensures empty { result.prefix.items ≡ [] }
    {
        let prefix = WrittenPrefix::none(&further);
        let ahead = Ahead {
            opened: None,
            slots: WriteRights::none(),
            further,
        };
        State {
            count: 0,
            buffer: 0,
            slot: 0,
            prefix,
            ahead,
            ready: Vec::new(alloc),
        }
    }

    fn parts(self) -> (usize, WrittenPrefix<T, Buffer<T, A>>, Ahead<T, A>)
        ensures { (result.0 ≡ self.count) × (result.1 ≡ self.prefix) × (result.2 ≡ self.ahead) }
    {
        let Self {
            count,
            buffer: _,
            slot: _,
            prefix,
            ahead,
            ready: _,
        } = self;
        (count, prefix, ahead)
    }

    /// Splits the state into the next slot of the open buffer, and what later buffers need.
    pub fn split(self, _cell: &ListCell<T, A>) -> (Option<NextSlot<T, A>>, Later<T, A>)
        requires { IsStateOf _cell.now self }
        ensures next { IfSome result.0 (IsNextSlotOf _cell.now) }
        ensures later { IsLaterOf _cell.now result.1 }
    {
        let Self {
            count,
            buffer,
            slot,
            prefix,
            ahead,
            ready,
        } = self;
        let Ahead {
            opened,
            slots,
            further,
        } = ahead;
        if let Some(opened) = opened {
            let next = NextSlot {
                count,
                buffer,
                slot,
                prefix,
                opened,
                slots,
            };
            return (
                Some(next),
                Later {
                    first: buffer + 1,
                    further,
                    ready,
                },
            );
        }
        prefix.discard();
        slots.discard();
        (
            None,
            Later {
                first: buffer,
                further,
                ready,
            },
        )
    }
}

impl<T, A: Allocator + Copy> State<T, A> {
    /// Moves the items of the list to `to`, in order, and deallocates its buffers.
    pub fn move_items<Z: Sink<T>>(self, slots: Slots<T, A>, to: &mut Z)
        requires state { IsStateOf slots self }
        requires room { (Z.received to.old ≡ []) × (self.count ≤ Z.capacity to.old) }
        ensures received { Z.received to.new ≡ self.prefix.items }
    {
        let (count, prefix, ahead) = self.parts();
        slots.move_items(count, &prefix, to);
        prefix.discard();
        discard(ahead);
    }
}

impl<T: Drop, A: Allocator + Copy> State<T, A> {
    /// Drops each item of the list once, in order, and deallocates its buffers.
    pub fn end(self, slots: Slots<T, A>)
        requires { IsStateOf slots self }
    {
        let (count, prefix, ahead) = self.parts();
        slots.end(count, &prefix).discard();
        prefix.discard();
        discard(ahead);
    }
}

impl<T, A: Allocator + Copy> Drop for State<T, A> {
    fn drop(self) {
        let (_count, prefix, ahead) = self.parts();
        prefix.discard();
        discard(ahead);
    }
}

/// Discards rights that are not used.
fn discard<T, A: Allocator + Copy>(ahead: Ahead<T, A>) {
    let Ahead {
        opened,
        slots,
        further,
    } = ahead;
    if let Some(opened) = opened {
        opened.discard();
    }
    slots.discard();
    further.discard();
}

/// Takes the buffer `buffer`, if it is ready, or makes it.
///
/// # Errors
/// Fails if an allocation fails. No buffer is ready then.
fn next_fresh<T, A: Allocator + Copy>(
    into: &Slots<T, A>,
    ready: &mut Vec<Fresh<T, A>, A>,
    buffer: usize,
) -> Result<Fresh<T, A>, AllocError>
    requires buffer_count { buffer < 31 }
    requires ready { AreNext buffer ready.old.items }
    ensures fresh { IfOk result (λ f. (length f.buffer.0 ≡ size_of buffer)
        × (f.slots.of ≡ f.buffer.0)) }
    ensures left { OnOk result (ready.new.items ≡ drop 1 ready.old.items) }
    ensures refused { OnErr result ((ready.old.items ≡ []) × (ready.new.items ≡ [])) }
{
    if ready.is_empty() {
        let (buffer, slots) = into.new_buffer(buffer_size(buffer), ())?;
        return Ok(Fresh { buffer, slots });
    }
    Ok(ready.remove(0))
}

/// Opens the buffer that begins at the index `_n`.
///
/// # Errors
/// Fails with `further` itself if an allocation fails.
#[cold]
#[inline(never)]
fn open_fresh<T, A: Allocator + Copy>(
    into: &Slots<T, A>,
    further: WriteRights,
    ready: &mut Vec<Fresh<T, A>, A>,
    buffer: usize,
    _n: usize,
    _slot: usize,
) -> Result<Opened<T, A>, WriteRights>
    requires location { IsAt _n buffer _slot × (buffer < 31) × (length into.now ≡ 31) }
    requires closed { IsClosedAt into.now _n further.of }
    requires ready { AreNext buffer ready.old.items }

    // The slot is in an open buffer, or nothing was ready and the buffer stays closed.
    ensures open { IfOk result (λ o. IsOpenAt into.now _n buffer _slot
        o.buffer.of o.buffer.value.0 o.slots.of o.further.of) }
    ensures left { OnOk result (ready.new.items ≡ drop 1 ready.old.items) }
    ensures refused { IfErr result (λ r. (r.of ≡ further.of) × (ready.old.items ≡ [])
        × (ready.new.items ≡ [])) }
{
    let Ok(fresh) = next_fresh(into, ready, buffer) else {
        return Err(further);
    };
    let (memory, slots) = fresh.parts();
    let mut further = further;
    let right = further.take();
    Ok(Opened {
        buffer: into.fill(buffer, memory, right),
        slots,
        further,
    })
}

/// Returns the buffer of the index `_n`, and opens it if it isn't open.
///
/// # Errors
/// Fails with `ahead` itself if an allocation fails. The index `_n` is then the first of its
/// buffer, and no buffer is ready.
fn open_next<T, A: Allocator + Copy>(
    into: &Slots<T, A>,
    ahead: Ahead<T, A>,
    ready: &mut Vec<Fresh<T, A>, A>,
    buffer: usize,
    _n: usize,
    _slot: usize,
) -> Result<Opened<T, A>, Ahead<T, A>>
    requires location { IsAt _n buffer _slot × (buffer < 31) × (length into.now ≡ 31) }
    requires ahead { GoesOn into.now _n ahead.opened ahead.slots.of ahead.further.of }
    requires ready { AreReady ahead.further.of ready.old.items }

    // The slot is in an open buffer, or nothing was ready and the buffer stays closed.
    ensures open { IfOk result (λ o. IsOpenAt into.now _n buffer _slot
        o.buffer.of o.buffer.value.0 o.slots.of o.further.of) }
    ensures ready { IfOk result (λ o. AreReady o.further.of ready.new.items
        × (end_of ahead.further.of ready.old.items ≤ end_of o.further.of ready.new.items)) }
    ensures refused { IfErr result (λ a. (a.opened ≡ None) × IsClosedAt into.now _n a.further.of
        × (a.further.of ≡ ahead.further.of) × (ready.old.items ≡ []) × (ready.new.items ≡ [])) }
{
    let Ahead {
        opened,
        slots,
        further,
    } = ahead;
    if let Some(opened) = opened {
        return Ok(Opened {
            buffer: opened,
            slots,
            further,
        });
    }
    match open_fresh(into, further, ready, buffer, _n, _slot) {
        Ok(fresh) => {
            slots.discard();
            Ok(fresh)
        }
        Err(further) => Err(Ahead {
            opened: None,
            slots,
            further,
        }),
    }
}

/// Writes an item at the index `_n`, into the slot `slot` of the open buffer `buffer`, and returns
/// the rights after it.
fn write_next<'v, T, A: Allocator + Copy>(
    into: &'v Slots<T, A>,
    from: Opened<T, A>,
    item: T,
    prefix: &mut WrittenPrefix<T, Buffer<T, A>>,
    buffer: usize,
    slot: usize,
    _n: usize,
) -> After<'v, T, A>
    requires open { IsOpenAt into.now _n buffer slot
        from.buffer.of from.buffer.value.0 from.slots.of from.further.of }
    requires buffer_count { buffer < 31 }
    requires prefix { (prefix.old.buffer_slots ≡ into.now) × (length prefix.old.items ≡ _n) }

    // The prefix has the item, and the slot after it is known.
    ensures written { (prefix.new.buffer_slots ≡ prefix.old.buffer_slots)
        × (prefix.new.items ≡ prefix.old.items ++ item ∷ []) }
    ensures ahead { GoesOn into.now (_n + 1)
        result.ahead.opened result.ahead.slots.of result.ahead.further.of }
    ensures further { result.ahead.further.of ≡ from.further.of }
    ensures location { IsAt (_n + 1) result.buffer result.slot }
    ensures lent { result.lent.now ≡ item }
{
    let Opened {
        buffer: opened,
        slots,
        further,
    } = from;
    let mut slots = slots;
    let right = slots.take();
    let size = into.buffer_len(buffer, &opened);
    let (lent, written) = into.write_lent(buffer, slot, item, &opened, right);
    prefix.add(buffer, slot, &opened, written);
    if slot + 1 < size {
        let ahead = Ahead {
            opened: Some(opened),
            slots,
            further,
        };
        return After {
            lent,
            ahead,
            buffer,
            slot: slot + 1,
        };
    }
    opened.discard();
    let ahead = Ahead {
        opened: None,
        slots,
        further,
    };
    After {
        lent,
        ahead,
        buffer: buffer + 1,
        slot: 0,
    }
}

/// Appends an item to the list of the state, and returns its index and a reference to it.
///
/// # Errors
/// Fails with `item` itself if an allocation fails, or if the list has the greatest number of
/// items.
pub fn push_item<'v, T, A: Allocator + Copy>(
    into: &'v Slots<T, A>,
    state: &mut State<T, A>,
    item: T,
) -> Result<(usize, &'v T), T>
    requires { IsStateOf into.now state.old }

    // The item is the last, or it comes back and the items stay.
    ensures same_vector { IsStateOf into.now state.new }
    ensures pushed { IfOk result (λ r. (r.0 ≡ length state.old.prefix.items)
        × (r.1.now ≡ item) × (state.new.prefix.items ≡ state.old.prefix.items ++ item ∷ [])) }
    ensures limit { IfOk result (λ r. r.0 + 1 < 2 ^ 62) }
    ensures refused { IfErr result (λ x.
        (x ≡ item) × (state.new.prefix.items ≡ state.old.prefix.items)) }
    ensures capacity { capacity_of state.old ≤ capacity_of state.new }
    ensures full { OnErr result ((capacity_of state.new ≡ capacity_of state.old)
        × (capacity_of state.old ≤ length state.old.prefix.items)) }
{
    let count = state.count;
    if count >= MOST {
        return Err(item);
    }
    let (buffer, slot) = (state.buffer, state.slot);
    let none = Ahead {
        opened: None,
        slots: WriteRights::none(),
        further: WriteRights::none(),
    };
    let ahead = std::mem::replace(&mut state.ahead, none);
    match open_next(into, ahead, &mut state.ready, buffer, count, slot) {
        Ok(opened) => {
            let prefix = &mut state.prefix;
            let after = write_next(into, opened, item, prefix, buffer, slot, count);
            let After {
                lent,
                ahead,
                buffer,
                slot,
            } = after;
            let none = std::mem::replace(&mut state.ahead, ahead);
            discard(none);
            state.count = count + 1;
            state.buffer = buffer;
            state.slot = slot;
            Ok((count, lent))
        }
        Err(ahead) => {
            let none = std::mem::replace(&mut state.ahead, ahead);
            discard(none);
            Err(item)
        }
    }
}

/// Returns the first buffer that isn't open, if the next index is in the slot `slot` of the buffer
/// `buffer`.
fn first_not_open(buffer: usize, slot: usize) -> usize
    requires { buffer < 31 }
    ensures { (slot ≡ 0 → result ≡ buffer) × (0 < slot → result ≡ suc buffer) }
{
    if slot == 0 { buffer } else { buffer + 1 }
}

/// Makes the buffers below `end` that aren't ready. The first of those that are is `first`.
///
/// # Errors
/// Fails if an allocation fails. The buffers that were made before stay ready.
fn make_ready<T, A: Allocator + Copy>(
    into: &Slots<T, A>,
    ready: &mut Vec<Fresh<T, A>, A>,
    first: usize,
    end: usize,
) -> Result<(), AllocError>
    requires ready { AreNext first ready.old.items × (first + length ready.old.items ≤ 31) }
    requires end { end ≤ 31 }
    ensures ready { AreNext first ready.new.items × (first + length ready.new.items ≤ 31) }
    ensures more { length ready.old.items ≤ length ready.new.items }
    ensures made { OnOk result (end ≤ first + length ready.new.items) }
{
    let mut next = first + ready.len();
    while next < end {
        let (buffer, slots) = into.new_buffer(buffer_size(next), ())?;
        let Ok(()) = ready.push(Fresh { buffer, slots }) else {
            return Err(AllocError);
        };
        next += 1;
    }
    Ok(())
}

/// Makes the buffers ready that the list needs for `additional` more items.
///
/// # Errors
/// Fails if an allocation fails, or if the list would have more than the greatest number of items.
pub fn reserve<T, A: Allocator + Copy>(
    into: &Slots<T, A>,
    state: &mut State<T, A>,
    additional: usize,
) -> Result<(), AllocError>
    requires { IsStateOf into.now state.old }

    // The items stay. On success there is room for the additional ones.
    ensures same_vector { IsStateOf into.now state.new }
    ensures same { state.new.prefix.items ≡ state.old.prefix.items }
    ensures capacity { capacity_of state.old ≤ capacity_of state.new }
    ensures room { OnOk result
        (length state.old.prefix.items + additional ≤ capacity_of state.new) }
    ensures limit { OnOk result (length state.old.prefix.items + additional < 2 ^ 62) }
{
    let count = state.count;
    if additional > MOST - count {
        return Err(AllocError);
    }
    if additional == 0 {
        return Ok(());
    }
    let (buffer, slot) = locate(count);
    let (last, _) = locate(count + additional - 1);
    make_ready(
        into,
        &mut state.ready,
        first_not_open(buffer, slot),
        last + 1,
    )
}

/// Shows that of two prefixes of one list the shorter begins the longer. It does nothing when it
/// runs.
pub fn begins<T, B: HasSlots<T>>(_shorter: &WrittenPrefix<T, B>, _longer: &WrittenPrefix<T, B>)
    requires { (_shorter.now.buffer_slots ≡ _longer.now.buffer_slots)
        × (length _shorter.now.items ≤ length _longer.now.items) }
    ensures { IsPrefix _shorter.now.items _longer.now.items }
{}
