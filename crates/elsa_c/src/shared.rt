//! The calls of a [`Shared`].
ghost use Rattle.std.specs.Prelude.{◌≡◌, None, Some, MatchOption};
ghost use Rattle.elsa_c.specs.Shared.{IsMade};

use crate::fault::Fault;
use crate::handle::Parts;
use crate::shared_handle::{Shared, SharedHandle};
use crate::shared_kept::SharedKept;
use std::alloc::Global;
use std::mem::replace;
use std::ptr::null_mut;

impl Shared {
    /// Makes a handle without names.
    pub fn none(alloc: Global) -> Shared
        ensures { result.handle.value ≡ None }
    {
        let ptr = null_mut();
        let handle = SharedHandle::none(ptr, alloc);
        Shared {
            handle,
            kept: false,
        }
    }

    /// Takes the names out. The handle then has none.
    pub fn take(&mut self, alloc: Global) -> Option<Box<SharedKept>>
        ensures taken { MatchOption result (self.old.handle.value ≡ None)
            (λ names. self.old.handle.value ≡ Some names.value) }
        ensures empty { self.new.handle.value ≡ None }
    {
        let old = replace(self, Shared::none(alloc));
        let Shared { handle, kept } = old;
        if !kept {
            return None;
        }
        Some(handle.into_parts().into_box())
    }

    /// Puts names in.
    pub fn restore(&mut self, names: Box<SharedKept>)
        ensures names { self.new.handle.value ≡ Some names.value }
    {
        *self = Shared {
            handle: SharedHandle::of_parts(Parts::of(names)),
            kept: true,
        };
    }

    /// Puts in names that were made, if their box can be allocated. Returns the status of C.
    pub fn fill(&mut self, alloc: Global, made: SharedKept) -> u32
        requires empty { self.old.handle.value ≡ None }
        ensures filled { IsMade (λ view. view ≡ made) self.new.handle.value result }
    {
        let Ok(names) = Box::new(alloc, made) else {
            return Fault::Memory.code();
        };
        self.restore(names);
        0
    }
}
