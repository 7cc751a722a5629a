//! [`FrozenVec`] and its lock guard [`Hold`].
ghost use Rattle.std.specs.Prelude.{◌≡◌, ◌⊎◌, ◌+◌, ◌-◌, ◌<◌, ◌≤◌, ◌^◌, ◌++◌, ◌∷◌, [], length, IfErr, IfOk, IfSome, OnErr, OnOk};
ghost use Rattle.std.specs.Iterator.{IsFinite};
ghost use mathlib.Core.List.{IsPrefix};
ghost use Rattle.elsa_arena.specs.Extended.{AppendsAll, TakesAll};
ghost use Rattle.elsa_arena.specs.Faults.{GivesBack, Refuses};
ghost use Rattle.elsa_arena.specs.Observed.{Appends, Continues, IsStateOf};

use crate::fault::{CellFault, Fault, InUse};
use crate::items::Items;
use crate::list_cell::ListCell;
use crate::observed::{Observed, Seen};
use crate::state::{self, MOST, State, push_item};
use crate::views::{evidence_of, is_before, is_behind, observe};
use std::alloc::{AllocError, Allocator, Global};
use std::marker::Model;
use std::ops::Deref;

/// A list that grows through `&self` and owns its items: references to them are valid as long as
/// the list. Contracts see the names of its buffers, which no other list has.
///
/// Its reads are those of [`Items`], to which it dereferences. What was observed of it
/// ([`Observed`]) states which items come back. [`push_as`](Self::push_as) and
/// [`hold_as`](Self::hold_as) state their result by what was observed.
pub struct FrozenVec<T, A: Allocator + Copy = Global> {
    // The items, and the state of insertions, which one call has at a time.
    pub(crate) items: Items<T, A>,
    pub(crate) cell: ListCell<T, A>,
}

impl<T, A: Allocator + Copy> Model for FrozenVec<T, A> {
    ghost use Rattle.std.specs.Prelude.{◌≡◌, ℕ, List};

    ghost Value = { List ℕ };

    ghost view = { λ v. v.items };

    // The state is of this list.
    ghost invariant = { λ v. v.cell ≡ v.items };
}

// Drops each item once, in order.
impl<T: Drop, A: Allocator + Copy> Drop for FrozenVec<T, A> {
    fn drop(self) {
        let Self { items, cell } = self;
        let state = cell.take(&items);
        let slots = Items::into_slots(items);
        match state {
            Some(state) => state.end(slots),
            None => drop(slots),
        }
    }
}

impl<T, A: Allocator + Copy> Deref for FrozenVec<T, A> {
    ghost use Rattle.std.specs.Prelude.{◌≡◌};

    type Target = Items<T, A>;

    ghost deref_gives = { λ v g. g ≡ v };

    fn deref(&self) -> &Items<T, A> {
        &self.items
    }
}

impl<T, A: Allocator + Copy> FrozenVec<T, A> {
    /// Makes an empty list.
    ///
    /// # Errors
    /// Fails if an allocation fails.
    ///
    /// # Allocates
    /// The directory of its buffers.
    pub fn new(alloc: A) -> Result<Self, AllocError> {
        let (items, further) = Items::new(alloc)?;
        let cell = ListCell::new(State::first(alloc, further), &Items::tag(&items));
        Ok(FrozenVec { items, cell })
    }

    /// Makes an empty list with capacity for `count` items: pushing that many allocates nothing.
    ///
    /// # Errors
    /// Fails if an allocation fails, or if `count` is above the greatest number of items,
    /// `2^62 - 1`.
    ///
    /// # Allocates
    /// The directory of its buffers, and the buffers for `count` items.
    ///
    /// # Cost
    /// `O(log count)`.
    pub fn with_capacity(alloc: A, count: usize) -> Result<Self, AllocError>
        ensures limit { OnOk result (count < 2 ^ 62) }
    {
        let (items, further) = Items::new(alloc)?;
        let mut state = State::first(alloc, further);
        let Ok(()) = state::reserve(&items.slots, &mut state, count) else {
            drop(Items::into_slots(items));
            return Err(AllocError);
        };
        let cell = ListCell::new(state, &Items::tag(&items));
        Ok(FrozenVec { items, cell })
    }

    /// Reserves capacity for `additional` more items: pushing that many allocates nothing. A
    /// guard's [`Hold::reserve`] promises it.
    ///
    /// # Errors
    /// Fails with [`Fault::Memory`] if an allocation fails, with [`Fault::Full`] if the list would
    /// have more than the greatest number of items, `2^62 - 1`, and with [`Fault::InUse`] if the
    /// call is made inside another call of the list, or while a [`Hold`] of it exists. The items
    /// are unchanged.
    ///
    /// # Allocates
    /// The buffers for these items, and a list of them.
    ///
    /// # Cost
    /// `O(log n)` in the number of items.
    pub fn reserve(&self, additional: usize) -> Result<(), Fault>
        ensures limit { OnOk result (additional < 2 ^ 62) }
    {
        let mut hold = self.hold()?;
        hold.reserve(additional)
    }

    /// Locks the list for one caller: until the guard is dropped, each other insertion fails with
    /// [`InUse`], and reads are unaffected. It allocates nothing.
    ///
    /// # Errors
    /// Fails with [`InUse`] if the call is made inside another call of the list, or while another
    /// [`Hold`] of it exists.
    ///
    /// # Cost
    /// `O(1)`.
    pub fn hold(&self) -> Result<Hold<'_, T, A>, InUse>
        ensures same_vector { IfOk result (λ h. h.vector ≡ self.now) }
    {
        let Some(state) = self.cell.take(&self.items) else {
            return Err(InUse);
        };
        Ok(Hold::new(self, state))
    }

    /// Locks the list for one caller, as [`hold`](Self::hold) does. The guard has all items that
    /// were observed. It allocates nothing.
    ///
    /// # Errors
    /// Fails with [`InUse`] if the call is made inside another call of the list, or while another
    /// [`Hold`] of it exists.
    ///
    /// # Cost
    /// `O(1)`.
    pub fn hold_as(&self, observed: &Observed<'_, T, A>) -> Result<Hold<'_, T, A>, InUse>
        requires same_vector { observed.now.vector ≡ self.now }
        ensures same_vector { IfOk result (λ h. h.vector ≡ self.now) }
        ensures items { IfOk result (λ h. IsPrefix observed.now.seen h.seen) }
    {
        let Some(state) = self.cell.take(&self.items) else {
            return Err(InUse);
        };
        if !is_behind(&observed.seen, &state) {
            self.cell.put(state);
            return Err(InUse);
        }
        Ok(Hold::new(self, state))
    }

    /// Appends an item, and returns its index.
    ///
    /// # Errors
    /// Fails with [`CellFault::Memory`] if an allocation fails, with [`CellFault::Full`] if the
    /// list has the greatest number of items, `2^62 - 1`, and with [`CellFault::InUse`] if the call
    /// is made inside another call of the list, or while a [`Hold`] of it exists. Each contains
    /// `item`.
    ///
    /// # Allocates
    /// A buffer, four times as large as the one before, at the lengths where one begins.
    ///
    /// # Cost
    /// `O(1)`.
    #[inline(always)]
    pub fn push(&self, item: T) -> Result<usize, CellFault<T>>
        ensures limit { IfOk result (λ i. i + 1 < 2 ^ 62) }
        ensures given_back { IfErr result (GivesBack item) }
    {
        let Some(next) = self.cell.take_next() else {
            return self.push_held(item);
        };
        let (_lent, seen) = self.cell.append(&self.items, next, item);
        Ok(seen.count - 1)
    }

    /// Appends an item under a guard: the call opens a buffer, or another has the state.
    #[cold]
    #[inline(never)]
    fn push_held(&self, item: T) -> Result<usize, CellFault<T>>
        ensures limit { IfOk result (λ i. i + 1 < 2 ^ 62) }
        ensures given_back { IfErr result (GivesBack item) }
    {
        let Ok(mut hold) = self.hold() else {
            return Err(CellFault::InUse(item));
        };
        hold.push(item)
    }

    /// Appends an item, and returns its index, as [`push`](Self::push) does. What was observed then
    /// ends with the item.
    ///
    /// # Errors
    /// Fails as [`push`](Self::push) does.
    ///
    /// # Allocates
    /// As [`push`](Self::push) does.
    ///
    /// # Cost
    /// `O(1)`.
    #[inline(always)]
    pub fn push_as(&self, observed: &mut Observed<'_, T, A>, item: T) -> Result<usize, CellFault<T>>
        requires same_vector { observed.old.vector ≡ self.now }
        ensures continues { Continues observed.old observed.new }
        ensures pushed { IfOk result (λ i. Appends observed.old.seen observed.new.seen i item) }
        ensures limit { IfOk result (λ i. i + 1 < 2 ^ 62) }
        ensures given_back { IfErr result (GivesBack item) }
    {
        let Some(next) = self.cell.take_next() else {
            return self.push_held_as(observed, item);
        };
        if !is_before(&observed.seen, &next) {
            self.cell.put_next(next);
            return Err(CellFault::InUse(item));
        }
        let (_lent, seen) = self.cell.append(&self.items, next, item);
        let count = seen.count;
        let _before = std::mem::replace(&mut observed.seen, seen);
        Ok(count - 1)
    }

    /// Appends an item under a guard, as [`push_held`](Self::push_held) does.
    #[cold]
    #[inline(never)]
    fn push_held_as(
        &self,
        observed: &mut Observed<'_, T, A>,
        item: T,
    ) -> Result<usize, CellFault<T>>
        requires same_vector { observed.old.vector ≡ self.now }
        ensures continues { Continues observed.old observed.new }
        ensures pushed { IfOk result (λ i. Appends observed.old.seen observed.new.seen i item) }
        ensures limit { IfOk result (λ i. i + 1 < 2 ^ 62) }
        ensures given_back { IfErr result (GivesBack item) }
    {
        let Ok(mut hold) = self.hold_as(observed) else {
            return Err(CellFault::InUse(item));
        };
        let pushed = hold.push(item);
        hold.release(observed);
        pushed
    }

    /// Appends an item, and returns a reference to it: [`push`](Self::push) that returns the
    /// reference instead of the index.
    ///
    /// # Errors
    /// Fails with [`CellFault::Memory`] if an allocation fails, with [`CellFault::Full`] if the
    /// list has the greatest number of items, `2^62 - 1`, and with [`CellFault::InUse`] if the call
    /// is made inside another call of the list, or while a [`Hold`] of it exists. Each contains
    /// `item`.
    ///
    /// # Allocates
    /// A buffer, four times as large as the one before, at the lengths where one begins.
    ///
    /// # Cost
    /// `O(1)`.
    #[inline(always)]
    pub fn alloc(&self, item: T) -> Result<&T, CellFault<T>>
        ensures pushed { IfOk result (λ r. r.now ≡ item) }
        ensures given_back { IfErr result (GivesBack item) }
    {
        let Some(next) = self.cell.take_next() else {
            return self.alloc_held(item);
        };
        let (lent, _seen) = self.cell.append(&self.items, next, item);
        Ok(lent)
    }

    /// Appends an item as [`push_held`](Self::push_held) does, and returns a reference to it.
    #[cold]
    #[inline(never)]
    fn alloc_held(&self, item: T) -> Result<&T, CellFault<T>>
        ensures pushed { IfOk result (λ r. r.now ≡ item) }
        ensures given_back { IfErr result (GivesBack item) }
    {
        let Ok(mut hold) = self.hold() else {
            return Err(CellFault::InUse(item));
        };
        let index = hold.push(item)?;
        let Some(lent) = hold.get(index) else {
            unreachable!()
        };
        Ok(lent)
    }

    /// Appends the items in their order, as a guard's [`Hold::extend`] does. The list is locked
    /// while the iterator runs.
    ///
    /// # Errors
    /// Fails with [`CellFault::InUse`] and `None` if the call is made inside another call of the
    /// list, or while a [`Hold`] of it exists; no item is then taken. Otherwise fails as
    /// [`push`](Self::push) does, with the item that was not appended.
    ///
    /// # Allocates
    /// As [`push`](Self::push) does.
    ///
    /// # Cost
    /// `O(1)` for each item.
    pub fn extend<I: IntoIterator<Item = T> + Drop>(
        &self,
        items: I,
    ) -> Result<(), CellFault<Option<T>>>
        requires ends { (s : I.IntoIter) → I.into_iter_gives items s →
            I.IntoIter.can_next s × IsFinite (I.IntoIter.remaining s) }
        ensures taken { TakesAll I.into_iter_gives I.IntoIter.next_gives (λ x. x) items result }
    {
        let Ok(mut hold) = self.hold() else {
            return Err(CellFault::InUse(None));
        };
        match hold.extend(items) {
            Ok(()) => Ok(()),
            Err(CellFault::Memory(item)) => Err(CellFault::Memory(Some(item))),
            Err(CellFault::InUse(item)) => Err(CellFault::InUse(Some(item))),
            Err(CellFault::Full(item)) => Err(CellFault::Full(Some(item))),
        }
    }

    /// Makes the list of its state again, which may be lost.
    fn again(items: Items<T, A>, state: Option<State<T, A>>) -> Self
        requires { IfSome state (IsStateOf items) }
        ensures { result ≡ items }
    {
        let tag = Items::tag(&items);
        let cell = match state {
            Some(state) => ListCell::new(state, &tag),
            None => ListCell::lost(&tag),
        };
        FrozenVec { items, cell }
    }

    /// Moves all items into a vector of `alloc`, in order, and drops none. `seen` is evidence of
    /// items that the list has ([`Observed::evidence`]): the vector begins with them.
    ///
    /// # Errors
    /// Fails with [`CellFault::Memory`] if an allocation fails, and with [`CellFault::InUse`] if a
    /// guard of the list was forgotten. Both contain the list.
    ///
    /// # Allocates
    /// A block of `alloc` for the items.
    ///
    /// # Cost
    /// `O(n)`: one move of each item.
    pub fn into_vec<Z: Allocator>(
        self,
        alloc: Z,
        seen: &Seen<T, A>,
    ) -> Result<Vec<T, Z>, CellFault<Self>>
        requires same_vector { seen.now.vector ≡ self }
        ensures items { IfOk result (λ all. IsPrefix seen.now.seen all.items) }
        ensures given_back { IfErr result (λ f. (f ≡ CellFault.Memory self)
            ⊎ (f ≡ CellFault.InUse self)) }
    {
        let Self { items, cell } = self;
        let Some(state) = cell.take(&items) else {
            return Err(CellFault::InUse(FrozenVec::again(items, None)));
        };
        if !is_behind(seen, &state) {
            return Err(CellFault::InUse(FrozenVec::again(items, Some(state))));
        }
        let Ok(mut all) = Vec::with_capacity(alloc, state.count) else {
            return Err(CellFault::Memory(FrozenVec::again(items, Some(state))));
        };
        state.move_items(Items::into_slots(items), &mut all);
        Ok(all)
    }
}

/// A lock guard of a list: its caller alone appends, and each other push fails with [`InUse`].
/// Contracts see the list, by the names of its buffers, all its items, and its capacity.
///
/// It is the form for a loop of insertions, and for what needs the whole list unchanged. It has
/// observed all items, and its reads are those of [`Observed`], to which it dereferences.
pub struct Hold<'v, T, A: Allocator + Copy = Global> {
    list: &'v FrozenVec<T, A>,
    // All items.
    observed: Observed<'v, T, A>,
    state: State<T, A>,
}

impl<'v, T, A: Allocator + Copy> Model for Hold<'v, T, A> {
    ghost use Rattle.std.specs.Prelude.{◌≡◌};
    ghost use Rattle.elsa_arena.specs.Observed.{Whole, IsStateOf};
    ghost use Rattle.elsa_arena.specs.Ready.{capacity_of};

    ghost Value = { Whole T };

    ghost view = { λ h. record {
      vector = h.observed.vector;
      seen = h.observed.seen;
      capacity = capacity_of h.state;
    } };

    // The guard has the state of this list, and has observed all of it.
    ghost invariant = { λ h. IsStateOf h.list.now h.state × (h.observed.vector ≡ h.list.now)
        × (h.observed.seen ≡ h.state.prefix.items) };
}

impl<T, A: Allocator + Copy> Drop for Hold<'_, T, A> {
    fn drop(self) {
        let Self {
            list,
            observed,
            state,
        } = self;
        drop(observed);
        list.cell.put(state);
    }
}

impl<'v, T, A: Allocator + Copy> Deref for Hold<'v, T, A> {
    ghost use Rattle.std.specs.Prelude.{◌≡◌};
    ghost use Rattle.elsa_arena.specs.Observed.{view_of};

    type Target = Observed<'v, T, A>;

    ghost deref_gives = { λ h o. o ≡ view_of h };

    fn deref(&self) -> &Observed<'v, T, A> {
        &self.observed
    }
}

impl<'v, T, A: Allocator + Copy> Hold<'v, T, A> {
    /// Makes a guard that has the state.
    fn new(list: &'v FrozenVec<T, A>, state: State<T, A>) -> Hold<'v, T, A>
        requires { IsStateOf list.now state }
        ensures vector { result.vector ≡ list.now }
        ensures items { result.seen ≡ state.prefix.items }
    {
        let slots = &list.items.slots;
        let observed = observe(slots, evidence_of(&state, slots));
        Hold {
            list,
            observed,
            state,
        }
    }

    /// Drops the guard. All its items are then observed.
    fn release(self, observed: &mut Observed<'_, T, A>)
        requires same_vector { self.vector ≡ observed.old.vector }
        ensures same { observed.new.vector ≡ observed.old.vector }
        ensures seen { observed.new.seen ≡ self.entry.seen }
    {
        let _before = std::mem::replace(&mut observed.seen, self.observed.evidence());
    }

    /// Reserves capacity for `additional` more items: pushing that many allocates nothing, and
    /// can't fail.
    ///
    /// # Errors
    /// Fails with [`Fault::Memory`] if an allocation fails, and with [`Fault::Full`] if the list
    /// would have more than the greatest number of items, `2^62 - 1`. The items are unchanged.
    ///
    /// # Allocates
    /// The buffers for these items, and a list of them.
    ///
    /// # Cost
    /// `O(log n)` in the number of items.
    pub fn reserve(&mut self, additional: usize) -> Result<(), Fault>
        ensures same { (self.new.vector ≡ self.old.vector) × (self.new.seen ≡ self.old.seen) }
        ensures grows { self.old.capacity ≤ self.new.capacity }
        ensures room { OnOk result (length self.old.seen + additional ≤ self.new.capacity) }
        ensures limit { OnOk result (length self.old.seen + additional < 2 ^ 62) }
        ensures full { IfErr result (λ f. f ≡ Fault.Full →
            2 ^ 62 ≤ length self.old.seen + additional) }
    {
        if additional > MOST - self.state.count {
            return Err(Fault::Full);
        }
        let list = self.list;
        match state::reserve(&list.items.slots, &mut self.state, additional) {
            Ok(()) => Ok(()),
            Err(_) => Err(Fault::Memory),
        }
    }

    /// Appends an item, and returns its index.
    ///
    /// # Errors
    /// Fails with [`CellFault::Memory`] and `item` if an allocation fails, and with
    /// [`CellFault::Full`] and `item` if the list has the greatest number of items, `2^62 - 1`. The
    /// list is unchanged. It can't fail while the list has fewer items than its capacity.
    ///
    /// # Allocates
    /// A buffer, four times as large as the one before, at the lengths where one begins.
    ///
    /// # Cost
    /// `O(1)`.
    pub fn push(&mut self, item: T) -> Result<usize, CellFault<T>>
        ensures same { (self.new.vector ≡ self.old.vector)
            × (self.old.capacity ≤ self.new.capacity) }
        ensures pushed { IfOk result (λ i. (i ≡ length self.old.seen)
            × (self.new.seen ≡ self.old.seen ++ item ∷ [])) }
        ensures limit { IfOk result (λ i. i + 1 < 2 ^ 62) }
        ensures given_back { IfErr result (Refuses (2 ^ 62 - 1) (length self.old.seen) item) }
        ensures refused { OnErr result ((self.new ≡ self.old)
            × (self.old.capacity ≤ length self.old.seen)) }
    {
        let list = self.list;
        let slots = &list.items.slots;
        match push_item(slots, &mut self.state, item) {
            Ok((index, _)) => {
                let seen = evidence_of(&self.state, slots);
                Items::show(&list.items, seen.again());
                self.observed = observe(slots, seen);
                Ok(index)
            }
            Err(item) if self.state.count < MOST => Err(CellFault::Memory(item)),
            Err(item) => Err(CellFault::Full(item)),
        }
    }

    /// Appends the items in their order, each as [`push`](Self::push) does.
    ///
    /// It reserves no capacity: a caller that has the number of items calls
    /// [`reserve`](Self::reserve) first.
    ///
    /// # Errors
    /// Fails with the item that was not appended, as [`push`](Self::push) does. The items before it
    /// are appended, and the others are not taken.
    ///
    /// # Allocates
    /// As [`push`](Self::push) does.
    ///
    /// # Cost
    /// `O(1)` for each item.
    pub fn extend<I: IntoIterator<Item = T>>(&mut self, items: I) -> Result<(), CellFault<T>>
        requires ends { (s : I.IntoIter) → I.into_iter_gives items s →
            I.IntoIter.can_next s × IsFinite (I.IntoIter.remaining s) }
        ensures same { (self.new.vector ≡ self.old.vector)
            × (self.old.capacity ≤ self.new.capacity) }
        ensures extended { AppendsAll I.into_iter_gives I.IntoIter.next_gives (2 ^ 62 - 1)
            items self.old.seen self.new.seen result }
        ensures refused { OnErr result (self.new.capacity ≤ length self.new.seen) }
    {
        for item in items {
            let _index = self.push(item)?;
        }
        Ok(())
    }
}
