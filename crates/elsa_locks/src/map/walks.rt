//! Iteration over a table's entries, and the copy of an entry.
ghost use Rattle.std.specs.Prelude.{◌≡◌, List, IfOk, OnErr, MatchOption, map, IsSome, option_map};
ghost use Rattle.std.specs.Arc.{arc_value};
ghost use Rattle.std.specs.Borrow.{Bor};
ghost use Rattle.std.specs.Iterator.{Drains, IsFinite};
ghost use Rattle.std.specs.declared.sync.Arc.{Arc};
ghost use Rattle.elsa_locks.specs.Walks.{VisitsAll, IsCopyOf};

use std::alloc::{AllocError, Allocator};
use std::sync::Arc;

/// Calls `f` with the key and the value of each entry that the iterator has left.
pub(super) fn visit<
    'm,
    K: 'm,
    V: 'm,
    A: Allocator + 'm,
    I: Iterator<Item = (&'m K, &'m Arc<V, A>)> + Drop,
    F: FnMut(&K, &V) + Drop,
>(entries: I, mut f: F)
    requires can_next { I.can_next entries }
    requires ends { IsFinite (I.remaining entries) }
    requires callable { F.IsAlwaysCallable f }
    ensures { (given : List (Bor K × Bor (Arc V A))) × Drains I.next_gives entries given
        × VisitsAll F.FnMut f (map (λ e. (e.0.now, arc_value e.1.now)) given) }
{
    for (key, value) in entries {
        f(key, &**value);
    }
}

/// Returns a clone of the entry's key and an `Arc` of its value, or `None` if there is no entry.
///
/// # Errors
/// Fails if the key's `clone` fails, or if the `Arc` has the maximum number of owners.
pub(super) fn copied_entry<K: Clone + Drop, V: Drop, A: Allocator>(
    found: Option<(&K, &Arc<V, A>)>,
) -> Result<Option<(K, Arc<V, A>)>, AllocError>
    ensures answer { IfOk result (λ a. MatchOption a (found.entry ≡ None) (
        IsCopyOf K.is_clone (option_map (λ e. (e.0.now, arc_value e.1.now)) found.entry))) }
    ensures only_present { OnErr result (IsSome found.entry) }
{
    let Some((key, value)) = found else {
        return Ok(None);
    };
    let copy = key.clone()?;
    Ok(Some((copy, value.clone()?)))
}
