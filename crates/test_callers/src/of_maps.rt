//! What callers can ensure by the contracts alone, of the calls on a collection itself.
ghost use Rattle.std.specs.Prelude.{◌≡◌, IfOk, Some};
ghost use Rattle.std.specs.Map.{lookup};
ghost use Rattle.std.specs.Option.{option_map};
ghost use Rattle.elsa_cell.specs.Entries.{pairs_of};
ghost use mathlib.Core.List.{IsPrefix};

use elsa_arena::CellFault;
use elsa_cell::map::first_value_stays;
use elsa_cell::{Fault, FrozenIndexSet, FrozenMap, ObservedEntries, SeenEntries};

/// Returns the number of a text, in four bytes.
pub fn number_of(set: &FrozenIndexSet<String>, text: String) -> Result<u32, Fault> {
    let (index, _) = set.insert_full(text)?;
    Ok(index as u32)
}

/// Returns the number of keys, in four bytes.
pub fn count_of(map: &FrozenMap<u64, u64>) -> u32 {
    map.len() as u32
}

/// Returns the value of a key that was found before, of which the caller has kept the evidence.
pub fn found_again<'m>(
    map: &'m FrozenMap<u64, u64>,
    seen: &SeenEntries<u64, u64>,
    key: &u64,
    _value: u64,
) -> Option<&'m u64>
    requires same_map { seen.now.vector ≡ map.now }
    requires found { lookup (⟦<u64 as PartialEq>⟧.eq key.now) (pairs_of seen.now.seen) ≡ Some _value }
    ensures { option_map (λ r. r.now) result ≡ Some _value }
{
    first_value_stays::<u64, u64>();
    let observed = map.since(seen);
    map.get_as(&observed, key)
}

/// Inserts a value unless the map has the key, and returns the value that the key then has.
pub fn found_after<'m>(
    map: &'m FrozenMap<u64, u64>,
    observed: &mut ObservedEntries<'_, u64, u64>,
    key: u64,
    value: u64,
) -> Result<&'m u64, CellFault<u64>>
    requires same_map { observed.old.vector ≡ map.now }
    ensures stays { IsPrefix observed.old.seen observed.new.seen }
    ensures found { IfOk result (λ kept.
        lookup (⟦<u64 as PartialEq>⟧.eq key) (pairs_of observed.new.seen) ≡ Some kept.now) }
{
    let inserted = map.insert_new_as(observed, key, value)?;
    Ok(inserted.value)
}
