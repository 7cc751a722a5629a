//! [`Symbol`]: the number of a name in four bytes.
ghost use Rattle.std.specs.Prelude.{◌≡◌, ◌<◌, ◌^◌};

/// The number of a name in four bytes: a list of symbols takes half of the memory of a list of
/// numbers. Symbols are ordered as their numbers are.
///
/// The clause `fits` of `put` and `find` is what [`new`](Symbol::new) requires:
/// `Symbol::new(names.put(word)?)` is proved without a proof file. `names.at(symbol.number())`
/// returns the name.
#[derive(Clone, Copy, Debug, Eq, Hash, Ord, PartialEq, PartialOrd)]
pub struct Symbol {
    /// The number of the name.
    pub index: u32,
}

impl Symbol {
    /// Makes a symbol of the number of a name.
    ///
    /// # Cost
    /// `O(1)`.
    #[inline]
    pub fn new(number: usize) -> Symbol
        requires { number < 2 ^ 32 }
        ensures { result.index ≡ number }
    {
        Symbol {
            index: number as u32,
        }
    }

    /// Returns the number of the name.
    ///
    /// # Cost
    /// `O(1)`.
    #[inline]
    pub fn number(self) -> usize
        ensures { result ≡ self.index }
    {
        self.index as usize
    }
}
