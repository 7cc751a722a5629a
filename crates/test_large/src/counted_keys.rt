//! The numbers of hashes and comparisons of keys in a call. No clause states them.
//!
//! The collections have a thousand keys, so the counts show whether a call visits all of them or
//! hashes a key twice.
ghost use Rattle.std.specs.Prelude.{◌≡◌, ◌==◌, Some, refl};
ghost use Rattle.std.specs.Cmp.{nat_cmp_total, nat_eq_equiv, on_equiv, on_po, on_total, partial_equiv_from_equiv, unsigned_po, unsigned_ties};
ghost use Rattle.std.specs.Hash as fed;
ghost use Rattle.std.specs.Ordering.{nat_cmp};
ghost use Rattle.std.proofs.Common.{ap, eqb-true};

use bumpalo::Bump;
use elsa::interner::Interner;
use elsa::{FrozenBTreeMap, FrozenIndexMap, FrozenIndexSet, FrozenMap, FrozenVec, Own};
use std::cmp::Ordering;
use std::hash::{BuildHasher, Hash, Hasher};
use std::sync::atomic;
use std::sync::atomic::AtomicU64;
use std::test::Fail;

/// The numbers of hashes of keys, of comparisons by `==`, and of comparisons by `cmp`.
#[derive(Drop)]
struct Counts {
    hashes: AtomicU64,
    equalities: AtomicU64,
    orders: AtomicU64,
}

impl Counts {
    fn new() -> Counts {
        Counts {
            hashes: AtomicU64::new(0),
            equalities: AtomicU64::new(0),
            orders: AtomicU64::new(0),
        }
    }

    /// Returns the counts since the last call, in the order of the fields, and sets them to 0.
    fn taken(&self) -> (u64, u64, u64) {
        (
            self.hashes.swap(0, atomic::Ordering::SeqCst),
            self.equalities.swap(0, atomic::Ordering::SeqCst),
            self.orders.swap(0, atomic::Ordering::SeqCst),
        )
    }
}

/// Increases a count by 1.
fn count(word: &AtomicU64) {
    let _ = word.fetch_add(1, atomic::Ordering::SeqCst);
}

/// A number that counts how often it is hashed and compared.
#[derive(Clone, Copy)]
struct Key<'c> {
    number: u64,
    counts: &'c Counts,
}

impl PartialEq for Key<'_> {
    ghost eq = { λ a b. a.number == b.number };

    ghost laws = { partial_equiv_from_equiv (on_equiv (λ a. a.number) nat_eq_equiv) };

    fn eq(&self, other: &Self) -> bool {
        count(&self.counts.equalities);
        self.number == other.number
    }
}

impl Eq for Key<'_> {
    ghost laws = { on_equiv (λ a. a.number) nat_eq_equiv };
}

impl PartialOrd for Key<'_> {
    ghost partial_cmp = { λ a b. Some (nat_cmp a.number b.number) };

    ghost laws = { on_po (λ a. a.number) unsigned_po };

    fn partial_cmp(&self, other: &Self) -> Option<Ordering> {
        Some(self.cmp(other))
    }
}

impl Ord for Key<'_> {
    ghost cmp = { λ a b. nat_cmp a.number b.number };

    ghost total = { on_total (λ a. a.number) nat_cmp_total };

    ghost matches_partial_cmp = { λ x y. refl };

    ghost matches_eq = { λ x y. unsigned_ties x.number y.number };

    fn cmp(&self, other: &Self) -> Ordering {
        count(&self.counts.orders);
        self.number.cmp(&other.number)
    }
}

impl Hash for Key<'_> {
    ghost hash_input = { λ a. fed.u64 a.number };

    ghost respects_eq = { λ x y h. ap fed.u64 (eqb-true x.number y.number h) };

    fn hash<H: Hasher>(&self, state: &mut H) {
        count(&self.counts.hashes);
        state.write_u64(self.number);
    }
}

/// Makes a key of this number.
fn key_of(counts: &Counts, number: u64) -> Key<'_> {
    Key { number, counts }
}

/// The number of keys of a collection.
const MANY: u64 = 1000;

/// The greatest number of keys that a search by hash compares with. Some of them have a part of the
/// hash in common.
const FEW: u64 = 4;

/// The greatest number of keys that a search of an ordered map compares with: those of four nodes
/// of its tree.
const NODES: u64 = 48;

/// The greatest number of items that a search of a sorted vector compares with: the number of times
/// that a thousand can be halved, plus 1.
const HALVES: u64 = 11;

/// Makes calls, each of which must have its result, make `most.0` hashes, and compare at most as
/// often as the other two numbers.
macro_rules! calls {
    ($rt:ident, $counts:ident, $most:expr; $($call:expr => $wanted:expr;)+) => {
        $({
            let _ = $counts.taken();
            let got = $call;
            let (hashes, equalities, orders) = $counts.taken();
            assert_eq!($rt; got, $wanted, stringify!($call));
            let (wanted, most, most_orders): (u64, u64, u64) = $most;
            assert_eq!($rt; hashes, wanted, stringify!($call));
            assert!($rt; equalities <= most && orders <= most_orders, stringify!($call));
        })+
    };
}

#[test]
fn a_call_by_key_hashes_once_and_compares_with_few(rt: HostRuntime) -> Result<(), Fail> {
    let (alloc, arena, counts) = (rt.alloc(), Bump::new(rt.alloc()), Counts::new());
    let (key, absent) = (key_of(&counts, 57), key_of(&counts, MANY));
    let mut map: FrozenMap<'_, Key<'_>, Own<u64>> = FrozenMap::new(alloc, &arena);
    let mut indexed: FrozenIndexMap<'_, Key<'_>, Own<u64>> = FrozenIndexMap::new(alloc, &arena);
    let mut set: FrozenIndexSet<'_, Own<Key<'_>>> = FrozenIndexSet::new(alloc, &arena);
    for number in 0..MANY {
        map.insert(key_of(&counts, number), Own(number))?;
        indexed.insert(key_of(&counts, number), Own(number))?;
        set.insert(Own(key_of(&counts, number)))?;
    }
    calls! { rt, counts, (1, FEW, 0);
        map.get(&key) => Some(&57);
        map.get(&absent) => None;
        map.contains_key(&key) => true;
        map.map_get(&key, |value| *value) => Some(57);
        map.get_key_value(&key).is_some() => true;
        map.insert(key, Own(0))? => &57;
        map.insert(absent, Own(1))? => &1;
        indexed.get(&key) => Some(&57);
        indexed.get_index_of(&absent) => None;
        indexed.contains_key(&key) => true;
        indexed.get_index_of(&key) => Some(57);
        indexed.get_full(&key).is_some() => true;
        indexed.insert_full(key, Own(0))? => (57, &57);
        indexed.insert(absent, Own(1))? => &1;
        set.get_index_of(&&key) => Some(57);
        set.contains(&&key) => true;
        set.contains(&&absent) => false;
        set.insert_full(Own(key))?.0 => 57;
    }
    Ok(())
}

#[test]
fn an_ordered_search_compares_with_few(rt: HostRuntime) -> Result<(), Fail> {
    let (alloc, arena, counts) = (rt.alloc(), Bump::new(rt.alloc()), Counts::new());
    let (key, absent) = (key_of(&counts, 57), key_of(&counts, MANY));
    let mut map: FrozenBTreeMap<'_, Key<'_>, Own<u64>> = FrozenBTreeMap::new(alloc, &arena);
    let mut items: FrozenVec<'_, Own<Key<'_>>> = FrozenVec::new(alloc, &arena);
    for number in 0..MANY {
        map.insert(key_of(&counts, number), Own(number))?;
        items.push(Own(key_of(&counts, number)))?;
    }
    calls! { rt, counts, (0, u64::MAX, NODES);
        map.get(&key) => Some(&57);
        map.get(&absent) => None;
        map.contains_key(&key) => true;
        map.map_get(&key, |value| *value) => Some(57);
        map.insert(key, Own(0))? => &57;
        map.insert(absent, Own(1))? => &1;
    }
    for number in 0..MANY {
        let wanted = key_of(&counts, number);
        calls! { rt, counts, (0, u64::MAX, HALVES);
            items.binary_search(&wanted) => Ok(number as usize);
        }
    }
    Ok(())
}

// ---- texts

/// A hasher that returns the same hash for each text.
#[derive(Clone, Copy)]
struct Same {
    hash: u64,
}

impl Hasher for Same {
    ghost write = { λ s _. s };

    ghost finish = { λ s. s.hash };

    fn finish(&self) -> u64 {
        self.hash
    }

    fn write(&mut self, _bytes: &[u8]) {}
}

/// A `BuildHasher` that counts the hashers it makes.
#[derive(Clone, Copy)]
struct Counting<'c> {
    counts: &'c Counts,
}

impl BuildHasher for Counting<'_> {
    type Hasher = Same;

    ghost build_hasher = { λ _. record { hash = 7 } };

    fn build_hasher(&self) -> Same {
        count(&self.counts.hashes);
        Same { hash: 7 }
    }
}

// The hash table doubles while the first nine names are inserted.
#[test]
fn a_call_by_text_hashes_once(rt: HostRuntime) -> Result<(), Fail> {
    let (alloc, arena, counts) = (rt.alloc(), Bump::new(rt.alloc()), Counts::new());
    let builder = Counting { counts: &counts };
    let mut names = Interner::with_hasher(alloc, &arena, builder);
    for name in ["0", "1", "2", "3", "4", "5", "6", "7", "eight"] {
        let _ = names.put(name)?;
    }
    assert_eq!(rt; counts.taken().0, 9);
    let mut map: FrozenMap<'_, &str, Own<u64>, Counting<'_>> = FrozenMap::with_hasher(
        alloc, &arena, builder,
    );
    map.insert_text("key", Own(1))?;
    calls! { rt, counts, (1, u64::MAX, u64::MAX);
        names.put("eight")? => 8;
        names.put("other")? => 9;
        names.find("eight") => Some(8);
        names.find("none") => None;
        names.contains("eight") => true;
        names.put_placed("static")? => 10;
        map.get("key") => Some(&1);
        map.get("other") => None;
        map.insert_text("key", Own(2))? => &1;
    }
    Ok(())
}
