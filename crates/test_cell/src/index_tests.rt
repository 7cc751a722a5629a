//! Maps and sets whose entries have an index: a set keeps the first of equal items, and each entry
//! is dropped once, in the order of insertion.
ghost use Rattle.std.specs.Prelude.{◌==◌};
ghost use Rattle.std.specs.Cmp.{nat_eq_equiv, on_equiv, partial_equiv_from_equiv};
ghost use Rattle.std.specs.Hash as fed;
ghost use Rattle.std.proofs.Common.{ap, eqb-true};

use elsa_cell::{FrozenIndexSet, FrozenMap};
use std::cell::Cell;
use std::hash::{Hash, Hasher};
use std::test::*;

/// A number with a mark that `==` and the hash leave out.
#[derive(Drop)]
struct Marked {
    number: u64,
    mark: u64,
}

impl PartialEq for Marked {
    ghost eq = { λ a b. a.number == b.number };

    ghost laws = { partial_equiv_from_equiv (on_equiv (λ a. a.number) nat_eq_equiv) };

    fn eq(&self, other: &Self) -> bool {
        self.number == other.number
    }
}

impl Eq for Marked {
    ghost laws = { on_equiv (λ a. a.number) nat_eq_equiv };
}

impl Hash for Marked {
    ghost hash_input = { λ a. fed.u64 a.number };

    ghost respects_eq = { λ x y h. ap fed.u64 (eqb-true x.number y.number h) };

    fn hash<H: Hasher>(&self, state: &mut H) {
        state.write_u64(self.number);
    }
}

#[test]
fn a_set_replaced_an_item(rt: HostRuntime) -> Result<(), Fail> {
    let set: FrozenIndexSet<Marked> = FrozenIndexSet::new(rt.alloc())?;
    for (number, mark, kept) in [(1, 10, 10), (2, 20, 20), (1, 11, 10), (2, 21, 20)] {
        assert_eq!(rt; set.insert(Marked { number, mark })?.mark, kept);
    }
    Ok(())
}

/// A digit that its drop appends to those that were dropped before.
struct Noted<'c> {
    digit: u64,
    drops: &'c Cell<u64>,
}

impl Drop for Noted<'_> {
    fn drop(self) {
        let Noted { digit, drops } = self;
        drops.set(drops.get().wrapping_mul(10).wrapping_add(digit));
    }
}

impl PartialEq for Noted<'_> {
    ghost eq = { λ a b. a.digit == b.digit };

    ghost laws = { partial_equiv_from_equiv (on_equiv (λ a. a.digit) nat_eq_equiv) };

    fn eq(&self, other: &Self) -> bool {
        self.digit == other.digit
    }
}

impl Eq for Noted<'_> {
    ghost laws = { on_equiv (λ a. a.digit) nat_eq_equiv };
}

impl Hash for Noted<'_> {
    ghost hash_input = { λ a. fed.u64 a.digit };

    ghost respects_eq = { λ x y h. ap fed.u64 (eqb-true x.digit y.digit h) };

    fn hash<H: Hasher>(&self, state: &mut H) {
        state.write_u64(self.digit);
    }
}

#[test]
fn entries_were_dropped_in_another_order(rt: HostRuntime) -> Result<(), Fail> {
    let drops = Cell::new(0);
    let noted = |digit: u64| Noted {
        digit,
        drops: &drops,
    };
    let map: FrozenMap<Noted<'_>, Noted<'_>> = FrozenMap::new(rt.alloc())?;
    for (key, value) in [(1, 6), (2, 7), (1, 9)] {
        map.insert(noted(key), noted(value))?;
    }
    drops.set(0);
    drop(map);
    // Each key before its value.
    assert_eq!(rt; drops.get(), 1627);
    Ok(())
}
