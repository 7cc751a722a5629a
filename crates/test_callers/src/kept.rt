//! Insertions into a map of any type that show whether the key is new.
ghost use Rattle.std.specs.Prelude.{◌≡◌, ◌+◌, IfOk, OnOk, OnErr, None, Some, Ok, true, false, length};
ghost use Rattle.std.specs.Map.{lookup};

use elsa::{MapForm, StableDeref};
use std::alloc::AllocError;

/// Inserts a key with its value, and returns whether the key was new. A present key keeps its
/// value.
///
/// # Errors
/// Fails if an allocation fails, which can happen only for a new key. The content is then
/// unchanged.
pub fn is_new_in<R, M: MapForm<R>>(
    content: &mut M,
    key: M::Key,
    value: M::Value,
) -> Result<bool, AllocError>
    ensures present { (kept : M.Value.Borrow) →
        lookup (M.same key) (M.entries content.old) ≡ Some kept →
        (result ≡ Ok false) × (M.entries content.new ≡ M.entries content.old) }
    ensures is_new { lookup (M.same key) (M.entries content.old) ≡ None →
        IfOk result (λ is_new. is_new ≡ true) }
    ensures longer { lookup (M.same key) (M.entries content.old) ≡ None →
        OnOk result (length (M.entries content.new) ≡ length (M.entries content.old) + 1) }
    ensures refused { OnErr result (M.entries content.new ≡ M.entries content.old) }
{
    Ok(content.insert_new(key, value)?.1)
}

/// Inserts a key with its value unless it has one, and returns the value that it then has.
///
/// # Errors
/// Fails if an allocation fails, which can happen only for a new key. The content is then
/// unchanged.
pub fn first_in<R, M: MapForm<R>>(
    content: &mut M,
    key: M::Key,
    value: M::Value,
) -> Result<<M::Value as StableDeref<R>>::Borrow, AllocError>
    ensures present { (kept : M.Value.Borrow) →
        lookup (M.same key) (M.entries content.old) ≡ Some kept →
        (result ≡ Ok kept) × (M.entries content.new ≡ M.entries content.old) }
    ensures new_value { lookup (M.same key) (M.entries content.old) ≡ None →
        IfOk result (λ kept. M.Value.shown kept ≡ M.Value.target value) }
    ensures found { IfOk result (λ kept. lookup (M.same key) (M.entries content.new) ≡ Some kept) }
    ensures refused { OnErr result (M.entries content.new ≡ M.entries content.old) }
{
    content.insert(key, value)
}
