//! A number that counts the living ones of its kind, and the query of one.
ghost use Rattle.std.specs.Prelude.{◌==◌, Some, refl};
ghost use Rattle.std.specs.Cmp.{nat_cmp_total, nat_eq_equiv, on_equiv, on_po, on_total, partial_equiv_from_equiv, unsigned_po, unsigned_ties};
ghost use Rattle.std.specs.Hash as fed;
ghost use Rattle.std.specs.Ordering.{nat_cmp};
ghost use Rattle.std.proofs.Common.{ap, eqb-true};
ghost use Rattle.elsa_cell.specs.Queries.{equal_alike, higher_stays, lower_stays};

use elsa_cell::{OrderQuery, Query};
use std::cell::Cell;
use std::cmp::Ordering;
use std::hash::{Hash, Hasher};

/// A number, and the count of those that were made and not yet dropped.
pub struct Counted<'c> {
    number: u64,
    alive: &'c Cell<u64>,
}

impl<'c> Counted<'c> {
    pub fn of(number: u64, alive: &'c Cell<u64>) -> Counted<'c> {
        alive.set(alive.get() + 1);
        Counted { number, alive }
    }

    pub fn number(&self) -> u64 {
        self.number
    }
}

impl Drop for Counted<'_> {
    fn drop(self) {
        let Counted { number: _, alive } = self;
        alive.set(alive.get().wrapping_sub(1));
    }
}

impl PartialEq for Counted<'_> {
    ghost eq = { λ a b. a.number == b.number };

    ghost laws = { partial_equiv_from_equiv (on_equiv (λ a. a.number) nat_eq_equiv) };

    fn eq(&self, other: &Self) -> bool {
        self.number == other.number
    }
}

impl Eq for Counted<'_> {
    ghost laws = { on_equiv (λ a. a.number) nat_eq_equiv };
}

impl PartialOrd for Counted<'_> {
    ghost partial_cmp = { λ a b. Some (nat_cmp a.number b.number) };

    ghost laws = { on_po (λ a. a.number) unsigned_po };

    fn partial_cmp(&self, other: &Self) -> Option<Ordering> {
        Some(self.cmp(other))
    }
}

impl Ord for Counted<'_> {
    ghost cmp = { λ a b. nat_cmp a.number b.number };

    ghost total = { on_total (λ a. a.number) nat_cmp_total };

    ghost matches_partial_cmp = { λ x y. refl };

    ghost matches_eq = { λ x y. unsigned_ties x.number y.number };

    fn cmp(&self, other: &Self) -> Ordering {
        self.number.cmp(&other.number)
    }
}

impl Hash for Counted<'_> {
    ghost hash_input = { λ a. fed.u64 a.number };

    ghost respects_eq = { λ x y h. ap fed.u64 (eqb-true x.number y.number h) };

    fn hash<H: Hasher>(&self, state: &mut H) {
        state.write_u64(self.number);
    }
}

/// A query of the number.
#[derive(Clone, Copy, PartialEq, Eq)]
pub struct Number {
    pub number: u64,
}

impl Hash for Number {
    ghost hash_input = { λ a. fed.u64 a.number };

    ghost respects_eq = { λ x y h. ap fed.u64 (eqb-true x.number y.number h) };

    fn hash<H: Hasher>(&self, state: &mut H) {
        state.write_u64(self.number);
    }
}

impl Query<Counted<'_>> for Number {
    ghost finds = { λ q k. q.number == k.number };

    ghost respects_hash = { λ q k h. ap fed.u64 (eqb-true q.number k.number h) };

    ghost respects_eq = { λ q x y. nat_eq_equiv.congr q.number x.number y.number };

    fn finds(&self, key: &Counted<'_>) -> bool {
        self.number == key.number
    }
}

impl OrderQuery<Counted<'_>> for Number {
    ghost against = { λ q k. nat_cmp q.number k.number };

    ghost lower = { λ q x y. lower_stays nat_cmp_total q.number x.number y.number };

    ghost higher = { λ q x y. higher_stays nat_cmp_total q.number x.number y.number };

    ghost alike = { λ q x y. equal_alike nat_cmp_total q.number x.number y.number };

    fn compare(&self, key: &Counted<'_>) -> Ordering {
        self.number.cmp(&key.number)
    }
}
