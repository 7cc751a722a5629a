//! The number of words of a document, counted once.
ghost use Rattle.std.specs.Prelude.{◌≡◌, IfOk, OnErr, ℕ, List, None, Some, Ok};
ghost use Rattle.std.specs.Borrow.{Bor};
ghost use Rattle.std.specs.Map.{lookup};

use elsa::cache::{CacheFault, ParsedCache};
use std::convert::Infallible;

/// Returns the number of words of the document at a path. The document is loaded and counted only
/// at the first call.
///
/// # Errors
/// `Load` with the loader's error if it fails, `Memory` if an allocation fails. All counts are then
/// unchanged.
pub fn words_of<'a, E, F: FnOnce(&str) -> Result<String, E> + Drop>(
    counts: &mut ParsedCache<'a, usize>,
    path: &str,
    load: F,
) -> Result<&'a usize, CacheFault<E, Infallible>>
    requires { F.IsAlwaysCallable load }
    ensures present { (count : Bor ℕ) →
        lookup (⟦<&'a str as PartialEq>⟧.eq path.entry) counts.old.resources ≡ Some count →
        (result ≡ Ok count) × (counts.new ≡ counts.old) }
    ensures stays { IfOk result (λ count.
        lookup (⟦<&'a str as PartialEq>⟧.eq path.entry) counts.new.resources ≡ Some count) }
    ensures loaded { lookup (⟦<&'a str as PartialEq>⟧.eq path.entry) counts.old.resources ≡ None →
        IfOk result (λ _. (text : Bor (List ℕ))
        × (lookup (⟦<&'a str as PartialEq>⟧.eq path.entry) counts.new.texts ≡ Some text)) }
    ensures refused { OnErr result (counts.new.resources ≡ counts.old.resources) }
{
    counts.get_or_parse(path, load, |text| Ok(text.split_whitespace().count()))
}
