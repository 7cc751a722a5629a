//! A key with a lawful equality and hash of its own.
ghost use Rattle.std.specs.Prelude.{◌==◌, [], Some, refl};
ghost use Rattle.std.specs.Cmp.{nat_cmp_total, nat_eq_equiv, on_equiv, on_po, on_total, partial_equiv_from_equiv, unsigned_po, unsigned_ties};
ghost use Rattle.std.specs.Ordering.{nat_cmp};

use std::cmp::Ordering;
use std::hash::{Hash, Hasher};

/// A number with a mark that `==` and the order leave out. All these keys have one hash.
#[derive(Clone, Copy, Debug)]
pub struct Marked(pub u32, pub char);

impl PartialEq for Marked {
    ghost eq = { λ a b. a.0 == b.0 };

    ghost laws = { partial_equiv_from_equiv (on_equiv (λ a. a.0) nat_eq_equiv) };

    fn eq(&self, other: &Self) -> bool {
        self.0 == other.0
    }
}

impl Eq for Marked {
    ghost laws = { on_equiv (λ a. a.0) nat_eq_equiv };
}

impl PartialOrd for Marked {
    ghost partial_cmp = { λ a b. Some (nat_cmp a.0 b.0) };

    ghost laws = { on_po (λ a. a.0) unsigned_po };

    fn partial_cmp(&self, other: &Self) -> Option<Ordering> {
        Some(self.cmp(other))
    }
}

impl Ord for Marked {
    ghost cmp = { λ a b. nat_cmp a.0 b.0 };

    ghost total = { on_total (λ a. a.0) nat_cmp_total };

    ghost matches_partial_cmp = { λ x y. refl };

    ghost matches_eq = { λ x y. unsigned_ties x.0 y.0 };

    fn cmp(&self, other: &Self) -> Ordering {
        self.0.cmp(&other.0)
    }
}

impl Hash for Marked {
    ghost hash_input = { λ _. [] };

    ghost respects_eq = { λ x y h. refl };

    fn hash<H: Hasher>(&self, _state: &mut H) {}
}
