//! A map of thousands of entries, and the numbers of hashes and comparisons of keys in a call on
//! it. No clause states them.
ghost use Rattle.std.specs.Prelude.{nat_eq};
ghost use Rattle.std.specs.Cmp.{nat_eq_equiv, on_equiv, partial_equiv_from_equiv};
ghost use Rattle.std.specs.Hash as fed;
ghost use Rattle.std.proofs.Common.{ap, eqb-true};

use elsa_lock_free_map::map::LockFreeFrozenMap;
use std::hash::{Hash, Hasher};
use std::sync::atomic::{AtomicU64, Ordering};
use std::test::*;

/// The number of entries. The last buffer begins far below it.
const MANY: u64 = 5000;

/// The greatest number of keys that a lookup compares with. Some of them have a part of the hash in
/// common.
const FEW: u64 = 4;

/// The numbers of hashes and of comparisons.
#[derive(Drop)]
struct Counts {
    hashes: AtomicU64,
    equalities: AtomicU64,
}

impl Counts {
    fn new() -> Counts {
        Counts {
            hashes: AtomicU64::new(0),
            equalities: AtomicU64::new(0),
        }
    }

    /// Returns the counts since the last call, in the order of the fields, and sets them to 0.
    fn taken(&self) -> (u64, u64) {
        (
            self.hashes.swap(0, Ordering::SeqCst),
            self.equalities.swap(0, Ordering::SeqCst),
        )
    }
}

/// A number that counts how often it is hashed and compared.
#[derive(Clone, Copy)]
struct Key<'c> {
    number: u64,
    counts: &'c Counts,
}

impl PartialEq for Key<'_> {
    ghost eq = { λ a b. nat_eq a.number b.number };

    ghost laws = { partial_equiv_from_equiv (on_equiv (λ a. a.number) nat_eq_equiv) };

    fn eq(&self, other: &Self) -> bool {
        let _ = self.counts.equalities.fetch_add(1, Ordering::SeqCst);
        self.number == other.number
    }
}

impl Eq for Key<'_> {
    ghost laws = { on_equiv (λ a. a.number) nat_eq_equiv };
}

impl Hash for Key<'_> {
    ghost hash_input = { λ a. fed.u64 a.number };

    ghost respects_eq = { λ x y h. ap fed.u64 (eqb-true x.number y.number h) };

    fn hash<H: Hasher>(&self, state: &mut H) {
        let _ = self.counts.hashes.fetch_add(1, Ordering::SeqCst);
        state.write_u64(self.number);
    }
}

#[test]
fn a_look_up_among_thousands_hashed_twice_or_compared_with_many(
    rt: HostRuntime,
) -> Result<(), Fail> {
    let counts = &Counts::new();
    let map: LockFreeFrozenMap<Key<'_>, u64> = LockFreeFrozenMap::new(rt.alloc())?;
    let (mut one, mut other) = (map.handle(), map.handle());
    for number in 0..MANY {
        let put = one.insert(&rt, Key { number, counts }, number)?;
        assert_eq!(rt; (put.index as u64, put.is_new), (number, true));
    }
    assert_eq!(rt; other.len() as u64, MANY);
    // Both have observed the keys, one by `len` alone.
    for handle in [&mut one, &mut other] {
        for (call, number) in [("get", 0), ("contains_key", 1201), ("insert", 2402)] {
            let _ = counts.taken();
            let key = Key { number, counts };
            let found = match call {
                "get" => handle.get(key) == Some(number),
                "contains_key" => handle.contains_key(&key),
                _ => handle.insert(&rt, key, 7)?.value == number,
            };
            let (hashes, equalities) = counts.taken();
            assert_eq!(rt; (call, found, hashes), (call, true, 1));
            assert!(rt; equalities <= FEW, "{call}: {equalities} comparisons");
        }
    }
    Ok(())
}
