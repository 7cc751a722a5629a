//! What a client concludes of a running vector by the step machine.
ghost use Rattle.std.specs.Prelude.{◌≡◌, ℕ, IfOk};
ghost use Rattle.elsa_lock_free.specs.History.{list_of};
ghost use Rattle.elsa_machine.specs.Tie.{IsOfMachine, IsReached};

use elsa_lock_free::lock_free::{Handle, VectorHistory};
use elsa_machine::tie::runs_on_machine;
use std::alloc::{AllocFailed, Global};
use std::sync::Wait;

/// Pushes a number, and returns its index and the history that the handle has then observed. The
/// step machine runs that history by the same atomic steps, and ends with the items of the vector.
pub fn push_on_machine<R: Wait>(
    rt: &R,
    handle: &mut Handle<'_, u64>,
    item: u64,
) -> Result<(usize, VectorHistory<u64>), AllocFailed<u64>>
    ensures same_vector { IfOk result (λ r. r.1.vector ≡ handle.new.vector) }
    ensures list { IfOk result (λ r. list_of r.1.events ≡ handle.new.seen) }
    ensures steps { IfOk result (λ r. (code : ℕ → ℕ) → IsOfMachine code Global r.1.events) }
    ensures end { IfOk result (λ r. (code : ℕ → ℕ) → IsReached code Global r.1.events) }
{
    let index = handle.push(rt, item)?;
    let history = handle.history();
    runs_on_machine(&history);
    Ok((index, history))
}
