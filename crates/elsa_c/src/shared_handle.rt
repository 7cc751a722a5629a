//! A box of shared names as the pointer that C has of it.
//!
//! [`SharedHandle`] is [`Handle`](crate::handle::Handle) for another type. One generic handle can't
//! be for both: no type with a `Vec`, a `Box` or an `Arc` crosses to C, also as a type argument.
ghost use Rattle.std.specs.Prelude.{◌≡◌, ℕ, List, Option, Some, None, is_some, true};
ghost use Rattle.elsa_lock_free.specs.SharedList.{View};

use crate::handle::Parts;
use crate::shared_kept::SharedKept;
use std::alloc::Global;
use std::marker::Model;

#[repr(C)]
#[derive(Drop)]
pub struct SharedHandle {
    // As in `Parts`, for a handle of names; without names the address is null.
    pub(crate) ptr: *mut u8,
    pub(crate) alloc: Global,
    pub(crate) ghost value: { Option (View (List ℕ)) },
}

impl Model for SharedHandle {
    ghost use Rattle.elsa_c.specs.SharedKept.{box_where};

    ghost also_owns = { λ l. box_where l.alloc l.ptr l.value };
}

impl SharedHandle {
    pub(crate) fn of_parts(parts: Parts<SharedKept, Global>) -> SharedHandle
        ensures { result.value ≡ Some parts.value }
    {
        let Parts { ptr, alloc } = parts;
        let ptr = ptr as *mut u8;
        SharedHandle { ptr, alloc }
    }

    pub(crate) fn none(ptr: *mut u8, alloc: Global) -> SharedHandle
        ensures { result.value ≡ None }
    {
        SharedHandle { ptr, alloc }
    }

    pub(crate) fn into_parts(self) -> Parts<SharedKept, Global>
        requires { is_some self.value ≡ true }
        ensures { Some result.value ≡ self.value }
    {
        let SharedHandle { ptr, alloc } = self;
        let ptr = ptr as *mut SharedKept;
        Parts { ptr, alloc }
    }
}

unsafe impl Send for SharedHandle {}

/// A handle that C keeps of names which threads share: the pointer to them, if there are any. A
/// zeroed handle has no names.
#[repr(C)]
#[derive(Drop)]
pub struct Shared {
    pub handle: SharedHandle,
    pub kept: bool,
    pub ghost agrees: { kept ≡ is_some handle.value },
}
