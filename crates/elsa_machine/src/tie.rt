//! The law that ties the step machine to the running vector.
ghost use Rattle.std.specs.Prelude.{ℕ};
ghost use Rattle.elsa_machine.specs.Tie.{IsOfMachine, IsReached};

use elsa_lock_free::item_rule::ItemRule;
use elsa_lock_free::lock_free::VectorHistory;
use elsa_slots::slots::Beside;
use std::alloc::Allocator;

/// Proves that an observed history of a running vector is one of the step machine. It does nothing
/// at run time.
///
/// The machine has a thread for each event of the history, and there is a schedule in which each
/// event is one turn: the same atomic step, by the relations that the vector's rule cites. The
/// turns between change nothing that the threads share. Before and after each event the machine has
/// the same length, the same items and the lock as the history has it, and so it has at the end.
/// Items are numbers in the machine, by any `code`. An entry has the number of its thread, which is
/// the index of its event, and not the number of its writer.
///
/// These are in no history, so the law states nothing of them: loads, exchanges that fail, and
/// accesses to buffers and slots. The first event ends the hold of the thread that made the vector,
/// which the machine doesn't have: of that event the law states what the machine is afterwards.
///
/// # Cost
/// `O(1)`.
pub fn runs_on_machine<T, A: Allocator, K: ItemRule<T>, X: Beside<T>>(
    history: &VectorHistory<T, A, K, X>,
)
    ensures steps { (code : T → ℕ) → IsOfMachine code A history.now.events }
    ensures end { (code : T → ℕ) → IsReached code A history.now.events }
{
    history.is_made();
}
