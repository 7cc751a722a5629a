//! The number of times that an interner hashes a name: once when it is looked up, and once for each
//! hash index into which it is entered. No clause counts hashes, so only these tests notice a hash
//! index that is rebuilt.
ghost use Rattle.std.specs.Prelude.{[], nat_eq, refl};
ghost use Rattle.std.specs.Cmp.{nat_eq_equiv, on_equiv, partial_equiv_from_equiv};

use elsa_lock_free_map::interner::SharedInterner;
use std::hash::{Hash, Hasher};
use std::sync::atomic::{AtomicU64, Ordering};
use std::test::*;

/// The number of names that are put before one is looked up.
const NAMES: u64 = 64;

/// A number that counts how often it is hashed. All these numbers have one hash.
#[derive(Clone, Copy)]
struct Counted<'c> {
    number: u64,
    hashes: &'c AtomicU64,
}

impl PartialEq for Counted<'_> {
    ghost eq = { λ a b. nat_eq a.number b.number };

    ghost laws = { partial_equiv_from_equiv (on_equiv (λ a. a.number) nat_eq_equiv) };

    fn eq(&self, other: &Self) -> bool {
        self.number == other.number
    }
}

impl Eq for Counted<'_> {
    ghost laws = { on_equiv (λ a. a.number) nat_eq_equiv };
}

impl Hash for Counted<'_> {
    ghost hash_input = { λ _. [] };

    ghost respects_eq = { λ x y h. refl };

    fn hash<H: Hasher>(&self, _state: &mut H) {
        let _ = self.hashes.fetch_add(1, Ordering::SeqCst);
    }
}

/// Two views put or find all names and are then merged, and a third one is new. A view that entered
/// all names again to find one would make [`NAMES`] hashes.
#[test]
fn a_view_entered_all_names_again(rt: HostRuntime) -> Result<(), Fail> {
    let counter = AtomicU64::new(0);
    let name = |number: u64| Counted {
        number,
        hashes: &counter,
    };
    let interner: SharedInterner<Counted<'_>> = SharedInterner::new(rt.alloc())?;
    let (mut one, mut other) = (interner.pass(), interner.pass());
    for names in [&mut one, &mut other] {
        for number in 0..NAMES {
            assert_eq!(rt; interner.put(&rt, names, name(number))? as u64, number);
        }
    }
    for is_merged in [false, true] {
        if is_merged {
            one.meet(&mut other);
        }
        for names in [&mut one, &mut other, &mut interner.pass()] {
            let before = counter.load(Ordering::SeqCst);
            let got = interner.put(&rt, names, name(NAMES - 1))? as u64;
            assert_eq!(rt; got, NAMES - 1);
            let count = counter.load(Ordering::SeqCst) - before;
            assert!(rt;
                0 < count && count < 8,
                "{count} hashes, merged: {is_merged}"
            );
        }
    }
    Ok(())
}
