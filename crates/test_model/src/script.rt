//! The script: random calls, each compared with the reply of a plain list.
use crate::call::{Call, Calls, Cause, INSERTIONS, Kind, OTHERS, Reply, no_memory};
use crate::draws::{Draws, FIXED_SEEDS, is_edge, scattered};
use crate::plain::{Plain, is_new};
use std::alloc::{AllocError, Global};
use test_alloc::Budget;

pub type Heap = Budget<Global>;

/// The number of calls before an allocation is made to fail, on average.
const BETWEEN_FAILURES: u64 = 20;

/// The number of calls of a script after its end.
const MORE: u64 = 200;

/// What a script does.
#[derive(Clone, Copy, Debug, PartialEq, Eq)]
pub enum Course {
    /// Random calls, and random requests that are denied.
    Random,
    /// Random calls, of which all insertions are of one kind, while one request is denied.
    Denied(Kind, u64),
    /// Insertions of one kind up to a number of entries. At each edge, all other calls.
    Grows(Kind),
}

/// The random numbers of a script, the number of its keys, and what it does.
#[derive(Clone, Copy, Debug)]
pub struct Plan {
    pub number: u64,
    pub seed: u64,
    pub keys: u64,
    pub course: Course,
}

/// The numbers of keys of the random scripts of a seed. A script of five keys makes nearly each
/// call with nearly each index.
const SIZES: [u64; 6] = [5, 5, 5, 1, 20, 300];

/// The number of random scripts: those of each fixed seed and of the clock's, and two long ones.
const RANDOM: u64 = 6 * (FIXED_SEEDS + 1) + 2;

/// The number of requests of a kind of insertion that are denied in turn.
const DENIED: u64 = 8;

/// The number of plans.
pub const PLANS: u64 = RANDOM + 20 * (DENIED + 1);

/// The greatest number of entries up to which a script grows by another insertion than the first.
const OTHER_GROWTH: u64 = 1 << 12;

impl Plan {
    /// Returns the plan with this number, of at most `most` keys. `clock` is the seed of the random
    /// scripts that differ from run to run. A script grows up to `growth` entries.
    pub fn of(number: u64, clock: u64, most: u64, growth: u64) -> Plan {
        let (mut seed, mut keys, mut course) = (number, 20, Course::Random);
        if number < RANDOM {
            if number % 11 == FIXED_SEEDS || number + 2 >= RANDOM {
                seed = clock.wrapping_add(number);
            }
            keys = match RANDOM - number {
                1 => Draws::new(seed).size(most),
                2 => 3000,
                _ => SIZES[(number % 6) as usize],
            };
        } else {
            let (kind, turn) = (
                (number - RANDOM) / (DENIED + 1),
                (number - RANDOM) % (DENIED + 1),
            );
            let kind = INSERTIONS[kind as usize];
            course = Course::Denied(kind, turn);
            if turn == DENIED {
                course = Course::Grows(kind);
                keys = if kind == Kind::Insert {
                    growth
                } else {
                    growth.min(OTHER_GROWTH)
                };
            }
        }
        Plan {
            number,
            seed,
            keys,
            course,
        }
    }

    /// Returns the plan for two collections that are compared with each other, with this number.
    pub fn beside(number: u64) -> Plan {
        Plan {
            number,
            seed: number,
            keys: if number % 10 == 9 { 1000 } else { 20 },
            course: Course::Random,
        }
    }

    /// Returns the number of shards of a collection that has some: one of three.
    pub fn shards(&self) -> usize {
        [1, 7, 64][(self.number % 3) as usize]
    }

    /// Returns whether the collection is to be taken apart at the end, or else dropped.
    pub fn is_taken(&self) -> bool {
        self.number % 2 == 1
    }
}

/// A call of a script, its reply, and the reply of the plain list.
#[derive(Clone, Copy, Debug)]
pub struct Step {
    pub number: u64,
    pub call: Call,
    pub got: Reply,
    pub wanted: Reply,
}

impl Step {
    fn first() -> Step {
        Step {
            number: 0,
            call: call_of(Kind::Len, 0, 0),
            got: Reply::Done,
            wanted: Reply::Done,
        }
    }

    fn agrees(&self) -> bool {
        self.got == self.wanted
    }
}

/// Makes a call without a guard, by the first handle.
pub fn call_of(kind: Kind, key: u64, value: u64) -> Call {
    Call {
        kind,
        key,
        value,
        is_held: false,
        by_other: false,
    }
}

/// Returns the next call, or `None` if it would take too long. Each second one is an insertion, of
/// the kind `only` if there is one.
fn drawn<G: Calls>(
    grown: &G,
    draws: &mut Draws,
    only: Option<Kind>,
    keys: u64,
    count: u64,
) -> Option<Call> {
    let kinds = INSERTIONS.len() as u64;
    let (kind, is_insertion) = match INSERTIONS.get(draws.below(2 * kinds) as usize) {
        Some(kind) => (only.unwrap_or(*kind), true),
        None => (OTHERS[draws.below(OTHERS.len() as u64) as usize], false),
    };
    if kind.visits_all() && !draws.seldom(count) {
        return None;
    }
    let key = if kind.has_index() {
        draws.below(count + 2)
    } else if is_insertion {
        grown.key(draws.below(keys), count)
    } else {
        draws.below(keys)
    };
    let value = match kind {
        Kind::Reserve => draws.below(keys.min(5000) + 100),
        Kind::ReserveAll => grown.most() as u64 - count + 1,
        _ => grown.stored(key, draws.next()),
    };
    Some(Call {
        kind,
        key,
        value,
        is_held: grown.has_guard() && draws.seldom(count),
        by_other: draws.below(3) == 0,
    })
}

/// Returns the wanted reply without the parts that the call doesn't return.
fn as_far_as(wanted: Reply, got: Reply) -> Reply {
    let (Reply::Inserted(mut entry), Reply::Inserted(said)) = (wanted, got) else {
        return wanted;
    };
    if said.value.is_none() {
        entry.value = None;
    }
    if said.index.is_none() {
        entry.index = None;
    }
    if said.is_new.is_none() {
        entry.is_new = None;
    }
    Reply::Inserted(entry)
}

/// Returns the wanted reply of a call of whose requests for memory some failed.
fn refused<G: Calls>(grown: &G, wanted: Reply, call: Call) -> Reply {
    let calls = if grown.makes_first() {
        call.kind.closure_calls()
    } else {
        0
    };
    let value = if grown.gives_back(call.kind) {
        Some(call.value)
    } else {
        None
    };
    match wanted {
        Reply::Done => no_memory(0),
        wanted if is_new(wanted) => Reply::Failed(Cause::Memory, value, calls),
        _ if grown.may_ask(call.kind) => no_memory(0),
        wanted => wanted,
    }
}

/// What a collection is compared with, the random numbers of its script, and the last call: the
/// first one whose reply differed, if one did.
#[derive(Drop)]
pub struct Script {
    pub plain: Plain,
    draws: Draws,
    plan: Plan,
    pub step: Step,
}

impl Script {
    /// Makes the script of a plan.
    ///
    /// # Errors
    /// Fails if the plain list can't be allocated.
    pub fn new(alloc: Global, plan: Plan, is_in_order: bool) -> Result<Script, AllocError> {
        let keys = plan.keys as usize * 8 + 1000;
        Ok(Script {
            plain: Plain::new(alloc, keys, is_in_order)?,
            draws: Draws::new(plan.seed),
            plan,
            step: Step::first(),
        })
    }

    /// Returns the number of entries that the collection has room for at first. If it grows by
    /// another kind of insertion than the first one, that is the number of all, or 0 and the script
    /// reserves room for them.
    pub fn room(&mut self) -> usize {
        let keys = self.plan.keys;
        self.plain.room = match self.plan.course {
            Course::Grows(Kind::Insert) | Course::Denied(_, _) => 0,
            Course::Grows(_) => keys as usize * (self.plan.number % 2) as usize,
            _ => self.draws.below(keys.min(5000) + 100) as usize,
        };
        self.plain.room
    }

    /// Returns whether no reply differed so far.
    pub fn agrees(&self) -> bool {
        self.step.agrees()
    }

    /// Makes the calls of the plan, and stops at the first whose reply differs.
    ///
    /// # Errors
    /// Fails if the plain list can't be allocated.
    pub fn runs<G: Calls>(&mut self, heap: &Heap, grown: &mut G) -> Result<(), AllocError> {
        match self.plan.course {
            Course::Random => self.draws_calls(heap, grown, None, 2 * self.plan.keys + 100)?,
            Course::Denied(kind, number) => {
                let denied = heap.asked() + number;
                heap.refuse(denied, denied + 1);
                self.draws_calls(heap, grown, Some(kind), 3 * self.plan.keys)?;
            }
            Course::Grows(kind) => self.grows(heap, grown, kind)?,
        }
        heap.refuse_next(0);
        Ok(())
    }

    /// Makes some more random calls, by handles that are new.
    ///
    /// # Errors
    /// Fails if the plain list can't be allocated.
    pub fn resumes<G: Calls>(&mut self, heap: &Heap, grown: &mut G) -> Result<(), AllocError> {
        self.plain.keep();
        self.draws_calls(heap, grown, None, MORE)
    }

    /// Makes `count` random calls, and stops at the first whose reply differs.
    fn draws_calls<G: Calls>(
        &mut self,
        heap: &Heap,
        grown: &mut G,
        only: Option<Kind>,
        count: u64,
    ) -> Result<(), AllocError> {
        for _ in 0..count {
            let len = self.plain.len() as u64;
            let Some(call) = drawn(grown, &mut self.draws, only, self.plan.keys, len) else {
                continue;
            };
            if call.kind == Kind::ReserveAll && only.is_none() {
                heap.refuse_next(u64::MAX);
            } else if only.is_none() && self.draws.below(BETWEEN_FAILURES) == 0 {
                heap.refuse_next(self.draws.below(3));
            }
            self.makes(heap, grown, call)?;
            if !self.agrees() {
                break;
            }
        }
        Ok(())
    }

    /// Inserts keys by calls of one kind. A collection that grows by the first kind is given no
    /// memory at first at each edge and in each eighth call, and makes all other calls at each
    /// edge.
    fn grows<G: Calls>(
        &mut self,
        heap: &Heap,
        grown: &mut G,
        kind: Kind,
    ) -> Result<(), AllocError> {
        let is_first = kind == Kind::Insert;
        let mut edge = usize::MAX;
        for number in 0..self.plan.keys {
            let len = self.plain.len();
            let is_at_edge = is_first && is_edge(len as u64);
            if is_at_edge && len != edge {
                edge = len;
                self.at_edge(heap, grown)?;
            }
            if number == 10 && !is_first {
                self.makes(heap, grown, call_of(Kind::Reserve, 0, 2 * self.plan.keys))?;
            }
            if is_at_edge || is_first && number % 8 == 0 {
                heap.refuse_next(1);
                self.inserts(heap, grown, kind, number)?;
                if is_new(self.step.wanted) {
                    continue;
                }
            }
            if is_at_edge {
                for other in INSERTIONS {
                    heap.refuse_next(1);
                    self.inserts(heap, grown, other, number)?;
                }
            }
            self.inserts(heap, grown, kind, number)?;
            if !self.agrees() || self.step.got == Reply::NotOffered {
                return Ok(());
            }
        }
        for index in 0..self.plain.len() {
            if is_first && is_edge(index as u64) {
                self.looks(heap, grown, index)?;
            }
        }
        Ok(())
    }

    /// Inserts a key that is absent unless one of its insertions succeeded before.
    fn inserts<G: Calls>(
        &mut self,
        heap: &Heap,
        grown: &mut G,
        kind: Kind,
        number: u64,
    ) -> Result<(), AllocError> {
        let key = grown.key(scattered(number, 14), self.plain.len() as u64);
        let value = grown.stored(key, number * 7);
        self.makes(heap, grown, call_of(kind, key, value))
    }

    /// Makes each call, with the keys at several indices, and with an absent one.
    fn at_edge<G: Calls>(&mut self, heap: &Heap, grown: &mut G) -> Result<(), AllocError> {
        let len = self.plain.len();
        for index in [
            0,
            len / 2,
            len.saturating_sub(2),
            len.saturating_sub(1),
            len,
        ] {
            self.looks(heap, grown, index)?;
        }
        Ok(())
    }

    /// Makes each call with the key or the value at an index.
    fn looks<G: Calls>(
        &mut self,
        heap: &Heap,
        grown: &mut G,
        index: usize,
    ) -> Result<(), AllocError> {
        let len = self.plain.len();
        let absent = grown.key(self.plan.keys + 7, len as u64);
        let (key, value) = self.plain.entry(index).unwrap_or((absent, 1));
        for kind in OTHERS {
            let at = if kind.has_index() { index as u64 } else { key };
            let is_seldom = kind.visits_all() && index != len / 2;
            if is_seldom || matches!(kind, Kind::Reserve | Kind::ReserveAll) {
                continue;
            }
            self.makes(heap, grown, call_of(kind, at, value))?;
        }
        for kind in INSERTIONS {
            if index < len && grown.key(key, len as u64) == key {
                self.makes(heap, grown, call_of(kind, key, value))?;
            }
        }
        Ok(())
    }

    /// Makes a call, unless a reply differed before.
    fn makes<G: Calls>(
        &mut self,
        heap: &Heap,
        grown: &mut G,
        call: Call,
    ) -> Result<(), AllocError> {
        if !self.agrees() {
            return Ok(());
        }
        let (got, wanted) = self.compared(heap, grown, call)?;
        self.step = Step {
            number: self.step.number + 1,
            call,
            got,
            wanted,
        };
        Ok(())
    }

    /// Makes a call. Returns its reply and that of the plain list: of the call, or of the memory or
    /// of the drops, if they alone differ.
    fn compared<G: Calls>(
        &mut self,
        heap: &Heap,
        grown: &mut G,
        call: Call,
    ) -> Result<(Reply, Reply), AllocError> {
        let (asked, denied) = (heap.asked(), heap.refused());
        let got = grown.reply(call);
        let is_refused = heap.refused() > denied;
        if is_refused || !matches!(self.plan.course, Course::Denied(_, _)) {
            heap.refuse_next(0);
        }
        if got == Reply::NotOffered {
            return Ok((got, got));
        }
        let plain = &mut self.plain;
        let mut wanted = plain.reply(call);
        let needs_memory = if is_new(wanted) {
            !grown.keeps_room() || plain.len() >= plain.room
        } else {
            wanted == Reply::Done || grown.may_ask(call.kind)
        };
        if is_refused && matches!(got, Reply::Failed(_, _, _)) {
            wanted = refused(grown, wanted, call);
        } else {
            plain.follow(call, wanted)?;
            wanted = as_far_as(wanted, got);
        }
        let requests = heap.asked() - asked;
        let (alive, counted) = grown.alive(plain.len() as u64);
        if got != wanted {
            Ok((got, wanted))
        } else if requests > 0 && !needs_memory {
            Ok((Reply::Requests(requests), Reply::Requests(0)))
        } else if alive != counted {
            Ok((Reply::Alive(alive), Reply::Alive(counted)))
        } else {
            Ok((got, wanted))
        }
    }

    /// Compares what is left at the end, unless a reply differed before.
    pub fn ends(&mut self, got: Reply, wanted: Reply) {
        if self.agrees() {
            self.step.got = got;
            self.step.wanted = wanted;
        }
    }

    /// Compares the entries that come out at the end, unless a reply differed before.
    pub fn ends_with(&mut self, all: Reply) {
        let wanted = self.plain.walk();
        self.ends(all, wanted);
    }

    /// Compares the memory and the values that are left after the end of a collection.
    pub fn is_freed(&mut self, heap: &Heap, alive: u64) {
        self.ends(Reply::Alive(alive), Reply::Alive(0));
        self.ends(
            Reply::Requests(heap.given()),
            Reply::Requests(heap.granted()),
        );
    }
}

/// Makes the same random calls by two collections, of which the first one has all calls of the
/// second. Returns the first step whose replies differ, or the last one.
pub fn beside<G: Calls, H: Calls>(grown: &mut G, reference: &mut H, plan: Plan) -> Step {
    let mut draws = Draws::new(plan.seed);
    let mut step = Step::first();
    let mut count = 0;
    for number in 0..2 * plan.keys + 100 {
        let Some(call) = drawn(grown, &mut draws, None, plan.keys, count) else {
            continue;
        };
        let wanted = reference.reply(call);
        if wanted == Reply::NotOffered {
            continue;
        }
        let got = grown.reply(call);
        step = Step {
            number,
            call,
            got,
            wanted,
        };
        if !step.agrees() {
            break;
        }
        if let Reply::Count(len) = reference.reply(call_of(Kind::Len, 0, 0)) {
            count = len as u64;
        }
    }
    step
}
