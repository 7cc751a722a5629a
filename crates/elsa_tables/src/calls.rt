//! What a call on an object means.
ghost use Rattle.std.specs.Prelude.{◌≡◌, IfOk, OnErr};

use std::alloc::AllocError;

/// A call as a value: its arguments, for an object of type `O` that replies with an `R`.
///
/// A type of commands defines once what its calls mean, as steps from state to state.
/// [`crate::run`] makes the calls of a list, and a recorder records which calls were made. An impl
/// over a bound with a parameter that nothing else names, as `R` of `M: MapForm<R>`, names it as
/// `L`; all others have `()` there.
pub trait Call<O, R, L> {
    /// The type of the object's states.
    ghost State: { Type 0 };

    /// The state of the object.
    ghost state: { O → State };

    /// The initial state of an object of type `O`.
    ghost opening: { State };

    /// The call, with this reply, leads from a state to the next.
    ghost steps: { State → Self → R → State → Type 0 };

    /// The states in which the call may fail.
    ghost refuses: { State → Self → Type 0 };

    /// Makes the call and returns its reply.
    ///
    /// # Errors
    /// Fails if an allocation fails. The state is then unchanged.
    fn apply(self, object: &mut O) -> Result<R, AllocError>
        ensures step { IfOk result (λ reply. steps (state object.old) self reply (state object.new)) }
        ensures unchanged { OnErr result (state object.new ≡ state object.old) }
        ensures refused { OnErr result (refuses (state object.old) self) };
}
