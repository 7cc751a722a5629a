//! A box as the pointer that C has of it.
ghost use Rattle.std.specs.Prelude.{◌≡◌, ℕ, List, Option, Some, None, is_some, true};

use crate::kept::Kept;
use crate::seed::Seed;
use std::alloc::{Allocator, Global};
use std::marker::Model;

pub(crate) struct Parts<T, A: Allocator> {
    // The box's address, and what deallocates it.
    pub(crate) ptr: *mut T,
    pub(crate) alloc: A,
    pub(crate) ghost value: { T },
}

impl<T, A: Allocator> Model for Parts<T, A> {
    ghost use Rattle.std_alloc.specs.Box.Ownership.{box_owns};

    ghost also_owns = { λ p. box_owns (A.dealloc_token p.alloc) T.row p.ptr p.value };
}

impl<T, A: Allocator> Parts<T, A> {
    pub(crate) fn of(b: Box<T, A>) -> Parts<T, A>
    where
        T: Drop,
        ensures { result.value ≡ b.value }
    {
        let (ptr, alloc) = Box::into_raw_with_allocator(b);
        Parts { ptr, alloc }
    }

    pub(crate) fn into_box(self) -> Box<T, A>
        ensures { result.value ≡ self.value }
    {
        let Parts { ptr, alloc } = self;
        // SAFETY: `ptr` is of a box that `of` took apart, and `self`, which owns it, ends here.
        unsafe { Box::from_raw(alloc, ptr) }
    }
}

#[repr(C)]
#[derive(Drop)]
pub struct Handle {
    // As in `Parts`, for names; without names the address is null.
    pub(crate) ptr: *mut u8,
    pub(crate) alloc: Global,
    pub(crate) ghost value: { Option (List (List ℕ)) },
}

impl Model for Handle {
    ghost use Rattle.elsa_c.specs.Kept.{box_where};

    ghost also_owns = { λ l. box_where l.alloc l.ptr l.value };
}

impl Handle {
    pub(crate) fn of_parts(parts: Parts<Kept, Global>) -> Handle
        ensures { result.value ≡ Some parts.value }
    {
        let Parts { ptr, alloc } = parts;
        let ptr = ptr as *mut u8;
        Handle { ptr, alloc }
    }

    pub(crate) fn none(ptr: *mut u8, alloc: Global) -> Handle
        ensures { result.value ≡ None }
    {
        Handle { ptr, alloc }
    }

    pub(crate) fn into_parts(self) -> Parts<Kept, Global>
        requires { is_some self.value ≡ true }
        ensures { Some result.value ≡ self.value }
    {
        let Handle { ptr, alloc } = self;
        let ptr = ptr as *mut Kept;
        Parts { ptr, alloc }
    }
}

unsafe impl Send for Handle {}

/// Names that C keeps: the pointer to them, if there are any, and the seed of their hash. A zeroed
/// dictionary has no names. C may set the seed of one that has none.
#[repr(C)]
#[derive(Drop)]
pub struct Dictionary {
    pub handle: Handle,
    pub kept: bool,
    pub seed: Seed,
    pub ghost agrees: { kept ≡ is_some handle.value },
}
