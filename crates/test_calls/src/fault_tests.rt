//! The script itself: a plain list that makes the calls passes it, and with any of these faults,
//! at its first occasion, it doesn't.
use crate::script_tests::{hashed_script, list_script, ordered_script, set_script};
use std::alloc::{AllocError, Global};
use std::test::Fail;
use test_alloc::Budget;
use test_model::call::{Call, Calls, Cause, Kind, Reply, is_insertion};
use test_model::plain::{Plain, is_new};
use test_model::script::{Heap, Plan, Script, Step};

/// What a model does wrong: in which part of which reply, or next to a right one.
#[derive(Clone, Copy, Debug, PartialEq, Eq)]
enum Fault {
    Nothing,
    AnotherValue,
    NoValue,
    AnotherIndex,
    AnotherKey,
    AnotherFullValue,
    NoEntry,
    AnotherPair,
    AnotherFound,
    NotFound,
    AnotherCount,
    AnotherFlag,
    FoundElsewhere,
    FoundThoughAbsent,
    AbsentThoughFound,
    AnotherWalkLength,
    AnotherWalk,
    AnotherInsertedValue,
    AnotherInsertedIndex,
    AnotherNews,
    OneMoreCall,
    AnotherCause,
    AnotherValueBack,
    NoValueBack,
    ACallThatFailed,
    Fails,
    SaysDone,
    LosesAnEntry,
    InsertsThoughItFails,
    AsksForAPresentKey,
    AsksForARead,
    Leaks,
    DropsTwice,
    KeepsMemory,
}

const FAULTS: [Fault; 33] = [
    Fault::AnotherValue,
    Fault::NoValue,
    Fault::AnotherIndex,
    Fault::AnotherKey,
    Fault::AnotherFullValue,
    Fault::NoEntry,
    Fault::AnotherPair,
    Fault::AnotherFound,
    Fault::NotFound,
    Fault::AnotherCount,
    Fault::AnotherFlag,
    Fault::FoundElsewhere,
    Fault::FoundThoughAbsent,
    Fault::AbsentThoughFound,
    Fault::AnotherWalkLength,
    Fault::AnotherWalk,
    Fault::AnotherInsertedValue,
    Fault::AnotherInsertedIndex,
    Fault::AnotherNews,
    Fault::OneMoreCall,
    Fault::AnotherCause,
    Fault::AnotherValueBack,
    Fault::NoValueBack,
    Fault::ACallThatFailed,
    Fault::Fails,
    Fault::SaysDone,
    Fault::LosesAnEntry,
    Fault::InsertsThoughItFails,
    Fault::AsksForAPresentKey,
    Fault::AsksForARead,
    Fault::Leaks,
    Fault::DropsTwice,
    Fault::KeepsMemory,
];

/// A plain list that makes the calls, with a block of memory for each entry and for what it
/// reserves. Its fault shows at the first occasion.
#[derive(Drop)]
struct Model<'h> {
    plain: Plain,
    blocks: Vec<Box<u64, &'h Heap>>,
    heap: &'h Heap,
    alive: u64,
    fault: Fault,
    occasions: u64,
}

impl<'h> Model<'h> {
    fn new(alloc: Global, heap: &'h Heap, fault: Fault) -> Result<Model<'h>, AllocError> {
        Ok(Model {
            plain: Plain::new(alloc, 2000, true)?,
            blocks: Vec::new(alloc),
            heap,
            alive: 0,
            fault,
            occasions: 0,
        })
    }

    /// Returns whether this is the first occasion of a fault.
    fn shows(&mut self, fault: Fault) -> bool {
        if self.fault != fault {
            return false;
        }
        self.occasions += 1;
        self.occasions == 1
    }

    /// Returns the reply with the fault in it, if it is one in such a reply.
    fn spoiled(&mut self, reply: Reply) -> Reply {
        match (self.fault, reply) {
            (Fault::AnotherValue, Reply::Value(Some(value))) => Reply::Value(Some(value + 1)),
            (Fault::NoValue, Reply::Value(Some(_))) => Reply::Value(None),
            (Fault::AnotherIndex, Reply::Full(Some((at, key, value)))) => {
                Reply::Full(Some((at + 1, key, value)))
            }
            (Fault::AnotherKey, Reply::Full(Some((at, key, value)))) => {
                Reply::Full(Some((at, key + 1, value)))
            }
            (Fault::AnotherFullValue, Reply::Full(Some((at, key, value)))) => {
                Reply::Full(Some((at, key, value + 1)))
            }
            (Fault::NoEntry, Reply::Full(Some(_))) => Reply::Full(None),
            (Fault::AnotherPair, Reply::Pair(Some((key, value)))) => {
                Reply::Pair(Some((key, value + 1)))
            }
            (Fault::AnotherFound, Reply::Index(Some(at))) => Reply::Index(Some(at + 1)),
            (Fault::NotFound, Reply::Index(Some(_))) => Reply::Index(None),
            (Fault::AnotherCount, Reply::Count(count)) => Reply::Count(count + 1),
            (Fault::AnotherFlag, Reply::Flag(flag)) => Reply::Flag(!flag),
            (Fault::FoundElsewhere, Reply::Search(Ok(at))) => Reply::Search(Ok(at + 1)),
            (Fault::FoundThoughAbsent, Reply::Search(Err(at))) => Reply::Search(Ok(at)),
            (Fault::AbsentThoughFound, Reply::Search(Ok(at))) => Reply::Search(Err(at)),
            (Fault::AnotherWalkLength, Reply::Walk(count, sum)) => Reply::Walk(count + 1, sum),
            (Fault::AnotherWalk, Reply::Walk(count, sum)) => Reply::Walk(count, sum ^ 1),
            (Fault::Fails, Reply::Inserted(_)) => Reply::Failed(Cause::Full, None, 0),
            (Fault::SaysDone, Reply::Failed(Cause::Full, _, _)) => Reply::Done,
            (Fault::AnotherCause, Reply::Failed(_, value, calls)) => {
                Reply::Failed(Cause::InUse, value, calls)
            }
            (Fault::AnotherValueBack, Reply::Failed(cause, Some(value), calls)) => {
                Reply::Failed(cause, Some(value + 1), calls)
            }
            (Fault::NoValueBack, Reply::Failed(cause, Some(_), calls)) => {
                Reply::Failed(cause, None, calls)
            }
            (Fault::ACallThatFailed, Reply::Failed(cause, value, calls)) => {
                Reply::Failed(cause, value, calls + 1)
            }
            (_, Reply::Inserted(mut entry)) => {
                match self.fault {
                    Fault::AnotherInsertedValue => entry.value = entry.value.map(|it| it + 1),
                    Fault::AnotherInsertedIndex => entry.index = entry.index.map(|it| it + 1),
                    Fault::AnotherNews => entry.is_new = entry.is_new.map(|it| !it),
                    Fault::OneMoreCall => entry.calls += 1,
                    _ => {}
                }
                Reply::Inserted(entry)
            }
            (_, reply) => reply,
        }
    }

    /// Requests a block, and keeps it.
    fn asks(&mut self) -> Result<(), AllocError> {
        let block = Box::new(self.heap, 0)?;
        self.blocks.push(block)?;
        Ok(())
    }

    /// Makes a call without a fault in its reply.
    fn made(&mut self, call: Call) -> Result<Reply, AllocError> {
        let reply = self.plain.reply(call);
        if !is_new(reply) && reply != Reply::Done {
            let is_present = is_insertion(call.kind) && self.shows(Fault::AsksForAPresentKey);
            if is_present || !is_insertion(call.kind) && self.shows(Fault::AsksForARead) {
                self.asks()?;
            }
        } else if self.asks().is_err() {
            if is_new(reply) && self.shows(Fault::InsertsThoughItFails) {
                self.plain.follow(call, reply)?;
            }
            let value = if is_new(reply) {
                Some(call.value)
            } else {
                None
            };
            let calls = if is_new(reply) {
                call.kind.closure_calls()
            } else {
                0
            };
            return Ok(Reply::Failed(Cause::Memory, value, calls));
        } else if is_new(reply) {
            self.alive += 1;
            if self.shows(Fault::LosesAnEntry) {
                return Ok(reply);
            }
        }
        self.plain.follow(call, reply)?;
        Ok(reply)
    }
}

impl Calls for Model<'_> {
    fn stored(&self, key: u64, _value: u64) -> u64 {
        key
    }

    fn gives_back(&self, _kind: Kind) -> bool {
        true
    }

    fn alive(&self, count: u64) -> (u64, u64) {
        (self.alive, count)
    }

    fn reply(&mut self, call: Call) -> Reply {
        let Ok(reply) = self.made(call) else {
            return Reply::NotOffered;
        };
        if self.shows(Fault::Leaks) {
            self.alive += 1;
        }
        if self.shows(Fault::DropsTwice) {
            self.alive = self.alive.wrapping_sub(1);
        }
        let spoiled = self.spoiled(reply);
        if spoiled != reply && self.shows(self.fault) {
            spoiled
        } else {
            reply
        }
    }
}

/// Runs the script of a plan on a model with a fault.
fn model_script(alloc: Global, plan: Plan, fault: Fault) -> Result<Step, AllocError> {
    let heap = Budget::new(alloc);
    let mut script = Script::new(alloc, plan, true)?;
    let mut model = Model::new(alloc, &heap, fault)?;
    script.runs(&heap, &mut model)?;
    if fault == Fault::KeepsMemory {
        std::mem::forget(Box::new(&heap, 0)?);
    }
    drop(model);
    script.is_freed(&heap, 0);
    Ok(script.step)
}

/// The plans of a model: random calls with 1 to 300 keys.
const PLANS: u64 = 12;

#[test]
fn a_right_model_did_not_pass_the_script(rt: HostRuntime) -> Result<(), Fail> {
    for number in 0..PLANS {
        let plan = Plan::of(number, 0, 1000, 1000);
        let step = model_script(rt.alloc(), plan, Fault::Nothing)?;
        assert_eq!(rt; step.got, step.wanted, "{plan:?}: {step:?}");
    }
    Ok(())
}

#[test]
fn the_scripts_did_not_find_a_fault(rt: HostRuntime) -> Result<(), Fail> {
    for fault in FAULTS {
        let mut is_found = false;
        for number in 0..PLANS {
            let step = model_script(rt.alloc(), Plan::of(number, 0, 1000, 1000), fault)?;
            is_found = is_found || step.got != step.wanted;
        }
        assert!(rt; is_found, "{fault:?} passed");
    }
    Ok(())
}

#[test]
fn the_script_did_not_count_a_living_value(rt: HostRuntime) -> Result<(), Fail> {
    for number in [4, 5] {
        let plan = Plan::of(number, 0, 1000, 1000);
        for one_more in [false, true] {
            let steps = [
                list_script(rt.alloc(), plan, one_more)?,
                hashed_script(rt.alloc(), plan, one_more)?,
                ordered_script(rt.alloc(), plan, one_more)?,
                set_script(rt.alloc(), plan, one_more)?,
            ];
            for step in steps {
                assert!(rt; (step.got == step.wanted) != one_more, "{plan:?}: {step:?}");
            }
        }
    }
    Ok(())
}
