// What changes through `&self`: one value, which a call takes out, changes and puts back.
ghost use Rattle.std.specs.Prelude.{◌≡◌, IfSome};

use crate::kept::Kept;
use boxcar::tag::Names;
use counted_slot::Fits;
use elsa_slots::slots::Slots;
use std::alloc::Allocator;
use std::marker::Model;

/// Names a collection by its buffers.
pub struct OfSlots;

impl<T, A: Allocator> Names<Slots<T, A>> for OfSlots {
    ghost numbers = { λ slots. slots };
}

/// The state of a collection, unless a call has it. Its tag is fixed, and each state that is put
/// back fits it: so a call that takes the state knows to which buffers it belongs.
#[derive(Drop)]
pub struct Shared<S: Fits + Drop> {
    // `None` while a call or a guard has the state, and from then on if a guard was forgotten.
    cell: Kept<Option<S>>,
}

impl<S: Fits + Drop> Model for Shared<S> {
    ghost Value = { S.Tag };

    ghost view = { λ s. s.cell };
}

impl<S: Fits + Drop> Shared<S> {
    /// Stores the first state.
    pub fn new(state: S, tag: &S::Tag) -> Shared<S>
        requires { S.fits tag.now state }
        ensures { result ≡ tag.now }
    {
        Shared {
            cell: Kept::new(Some(state), tag),
        }
    }

    /// Stores no state: each call then finds that another has it.
    pub fn lost(tag: &S::Tag) -> Shared<S>
        ensures { result ≡ tag.now }
    {
        Shared {
            cell: Kept::new(None, tag),
        }
    }

    /// Takes the state out, or returns `None` if another call has it.
    #[inline(always)]
    pub fn take(&self) -> Option<S>
        ensures { IfSome result (λ s. S.fits self.now s) }
    {
        self.cell.replace(None)
    }

    /// Puts the state back.
    #[inline(always)]
    pub fn put(&self, state: S)
        requires { S.fits self.now state }
    {
        let _none = self.cell.replace(Some(state));
    }

    /// Returns the state, or `None` if a call that never ended has it.
    pub fn into_state(self) -> Option<S>
        ensures { IfSome result (λ s. S.fits self s) }
    {
        let Shared { cell } = self;
        cell.into_inner()
    }
}
