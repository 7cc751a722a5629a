// A cell for one thread whose value always fits the cell's tag. Nothing else of its content is
// known: another call may have replaced it. It takes no atomic step.
ghost use Rattle.std.specs.Prelude.{◌≡◌};
ghost use base.Fml.{fsep, fex};
ghost use Rattle.elsa_arena.specs.Kept.{fact, kept_shares};

use counted_slot::Fits;
use std::marker::{Move, Owns};

/// One value that is replaced through `&self`. Contracts see its tag, which is fixed: each value
/// that is put in fits it, and so does each that is taken out.
pub(crate) struct Kept<X: Fits> {
    value: X,
}

impl<X: Fits> Owns for Kept<X> {
    ghost Value = { X.Tag };

    ghost coded = { X.Tag.code };

    ghost shr_at = { λ tag p κ. kept_shares X.row (X.fits tag) p κ };
}

impl<X: Fits> Move for Kept<X> {
    ghost own_val = { λ tag vs. fex X.row.Denot (λ x. fsep (Fields.own_val (record { value = x }) vs) (fact (X.fits tag x))) };
}

impl<X: Fits> Kept<X> {
    /// Makes a cell with this value and the tag that the value fits.
    pub(crate) fn new(value: X, tag: &X::Tag) -> Kept<X>
        requires { X.fits tag.now value }
        ensures { result ≡ tag.now }
    {
        let _ = tag;
        Kept { value }
    }

    /// Puts a value in, and returns the one before.
    #[inline(always)]
    pub(crate) fn replace(&self, value: X) -> X
        requires { X.fits self.now value }
        ensures { X.fits self.now result }
    {
        let address = &raw const self.value as *mut X;
        // SAFETY: no reference to the value exists, as no call returns one: `replace` moves it out
        // and in. A type with `shr_at` counts as an `UnsafeCell`, so the write through `&self` is
        // one to a cell.
        unsafe {
            let old = address.read();
            address.write(value);
            old
        }
    }

    /// Returns the value.
    pub(crate) fn into_inner(self) -> X
        ensures { X.fits self result }
    {
        let Self { value } = self;
        value
    }
}

impl<X: Fits + Drop> Drop for Kept<X> {
    fn drop(self) {
        drop(self.into_inner());
    }
}

unsafe impl<X: Fits + Send> Send for Kept<X> {}
