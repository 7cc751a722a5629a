//! Insertion through `&self`: a collection in a `RefCell`. The borrows have the arena's lifetime,
//! so they outlive each borrow of the cell.
ghost use Rattle.std.specs.Prelude.{◌≡◌, IfOk, string_bytes};

use bumpalo::Bump;
use elsa::FrozenVec;
use std::alloc::{AllocError, Global};
use std::cell::RefCell;
use std::test::*;

/// Labels that any part of a program adds to through `&self`.
#[derive(Drop)]
struct Labels<'a> {
    texts: RefCell<FrozenVec<'a, String>>,
}

/// The reason why a label wasn't added.
#[derive(Drop)]
enum LabelFault {
    /// The call came from inside another call on these labels.
    InUse,
    /// An allocation failed.
    Memory,
}

impl<'a> Labels<'a> {
    /// Adds the label, and returns it as a borrow of the arena.
    ///
    /// # Errors
    /// `InUse` if the labels are borrowed, `Memory` if an allocation fails.
    fn add(&self, label: String) -> Result<&'a str, LabelFault>
        ensures { IfOk result (λ text. text.now ≡ string_bytes label) }
    {
        let Ok(mut texts) = self.texts.try_borrow_mut() else {
            return Err(LabelFault::InUse);
        };
        let Ok(text) = texts.push_get(label) else {
            return Err(LabelFault::Memory);
        };
        Ok(text)
    }
}

/// Returns whether two labels that were added through one shared borrow are both readable after the
/// second.
fn both_stay(alloc: Global) -> Result<bool, AllocError> {
    let arena = Bump::new(alloc);
    let labels = Labels {
        texts: RefCell::new(FrozenVec::new(alloc, &arena)),
    };
    let shared = &labels;
    let Ok(first) = shared.add(String::from_str(alloc, "lonely")?) else {
        return Ok(false);
    };
    let Ok(second) = shared.add(String::from_str(alloc, "best friend")?) else {
        return Ok(false);
    };
    Ok(first == "lonely" && second == "best friend")
}

#[test]
fn labels_added_through_a_shared_borrow_stay(rt: HostRuntime) -> Result<(), Fail> {
    assert!(rt; both_stay(rt.alloc())?);
    Ok(())
}

/// Returns whether adding a label while the labels are borrowed fails with `InUse`.
fn is_in_use(alloc: Global) -> Result<bool, AllocError> {
    let arena = Bump::new(alloc);
    let labels = Labels {
        texts: RefCell::new(FrozenVec::new(alloc, &arena)),
    };
    let Ok(_held) = labels.texts.try_borrow() else {
        return Ok(false);
    };
    Ok(matches!(
        labels.add(String::from_str(alloc, "lonely")?),
        Err(LabelFault::InUse)
    ))
}

#[test]
fn an_addition_inside_another_call_is_refused(rt: HostRuntime) -> Result<(), Fail> {
    assert!(rt; is_in_use(rt.alloc())?);
    Ok(())
}
