//! Numbers for names, in one arena.
ghost use Rattle.std.specs.Prelude.{◌≡◌, IfOk, OnErr, ℕ, None, Some, Ok, length};
ghost use Rattle.std.specs.Borrow.{Bor};
ghost use Rattle.std.specs.Map.{lookup};

use bumpalo::Bump;
use elsa::{FrozenMap, Own};
use std::alloc::AllocError;
use std::test::Fail;

/// Returns the number of a name: the one that it has, or else the next number, which is the number
/// of names before. The arena stores a copy of a new name.
///
/// # Errors
/// Fails if an allocation fails, which can happen only for a new name. The names are then
/// unchanged.
pub fn number_of<'a>(
    numbers: &mut FrozenMap<'a, &'a str, Own<usize>>,
    name: &str,
) -> Result<&'a usize, AllocError>
    ensures present { (kept : Bor ℕ) →
        lookup (⟦<&'a str as PartialEq>⟧.eq name.entry) numbers.old ≡ Some kept →
        (result ≡ Ok kept) × (numbers.new ≡ numbers.old) }
    ensures numbered { lookup (⟦<&'a str as PartialEq>⟧.eq name.entry) numbers.old ≡ None →
        IfOk result (λ kept. kept.now ≡ length numbers.old) }
    ensures found { IfOk result (λ kept.
        lookup (⟦<&'a str as PartialEq>⟧.eq name.entry) numbers.new ≡ Some kept) }
    ensures refused { OnErr result (numbers.new ≡ numbers.old) }
{
    let next = numbers.len();
    numbers.insert_text(name, Own(next))
}

/// Checks that a name keeps its first number, whichever text is passed, and the next new name has
/// the next number.
#[test]
fn a_name_keeps_its_first_number(rt: HostRuntime) -> Result<(), Fail> {
    let arena = Bump::new(rt.alloc());
    let mut numbers = FrozenMap::new(rt.alloc(), &arena);
    for (name, kept) in [
        ("lonely", 0),
        ("best friend", 1),
        ("lonely", 0),
        ("third", 2),
    ] {
        let asked = String::from_str(rt.alloc(), name)?;
        let number = number_of(&mut numbers, &asked)?;
        assert_eq!(rt; *number, kept);
    }
    Ok(())
}
