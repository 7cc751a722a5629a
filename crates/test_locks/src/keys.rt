//! Keys that count their hashes.
ghost use Rattle.std.specs.Prelude.{[], nat_eq, refl};
ghost use Rattle.std.specs.Cmp.{nat_eq_equiv, on_equiv, partial_equiv_from_equiv};

use crate::marks::Mark;
use elsa_locks::map::FrozenMap;
use std::hash::{Hash, Hasher};
use std::test::Fail;

// A number that counts its hashes in a mark. All these keys have one hash.
#[derive(Clone, Copy)]
struct Key<'k> {
    number: u64,
    hashes: &'k Mark,
}

impl PartialEq for Key<'_> {
    ghost eq = { λ a b. nat_eq a.number b.number };

    ghost laws = { partial_equiv_from_equiv (on_equiv (λ a. a.number) nat_eq_equiv) };

    fn eq(&self, other: &Self) -> bool {
        self.number == other.number
    }
}

impl Eq for Key<'_> {
    ghost laws = { on_equiv (λ a. a.number) nat_eq_equiv };
}

impl Hash for Key<'_> {
    ghost hash_input = { λ _. [] };

    ghost respects_eq = { λ x y h. refl };

    fn hash<H: Hasher>(&self, _state: &mut H) {
        self.hashes.raise_by_one();
    }
}

// An insertion that looks up and then stores would hash a new key twice.
#[test]
fn a_new_key_was_hashed_twice(rt: HostRuntime) -> Result<(), Fail> {
    let hashes = Mark::new();
    let map: FrozenMap<Key<'_>, u64> = FrozenMap::new(rt.alloc());
    for number in 0..64 {
        let key = Key {
            number,
            hashes: &hashes,
        };
        let kept = match number % 7 {
            0 => *map.insert(&rt, key, number)?,
            1 => *map.insert_new(&rt, key, number)?.0,
            2 => *map.insert_with(&rt, key, || number)?,
            3 => *map.insert_with_key(&rt, key, |key| key.number)?,
            4 => map.get_copy_or_insert(&rt, key, number)?,
            5 => map.get_copy_or_insert_with(&rt, key, || number)?,
            _ => map.get_copy_or_insert_with_key(&rt, key, |key| key.number)?,
        };
        let is_once = hashes.is_at(number + 1) && !hashes.is_at(number + 2);
        assert_eq!(rt; (kept, is_once), (number, true));
    }
    Ok(())
}
