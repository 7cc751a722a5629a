//! Short texts by value.
ghost use Rattle.std.specs.Prelude.{◌≡◌, ◌≤◌, Some, IfOk, IsOk, ◌↔◌, length, refl};
ghost use Rattle.std.specs.Fmt.{debug_str};
ghost use Rattle.std.specs.Hash as written;
ghost use Rattle.std.specs.Str.{bytes_eq};
ghost use Rattle.std.proofs.Common.{ap};
ghost use Rattle.std.specs.Cmp.{on_equiv, on_po, on_total, partial_equiv_from_equiv};
ghost use Rattle.std.specs.Cmp.Lexicographic.{bytes_decides, nat_list_cmp_total, nat_list_eq_equiv, slice_cmp, texts_po, texts_ties};
ghost use Rattle.std.specs.Ordering.{nat_cmp};
ghost use Rattle.elsa_lock_free_map.specs.Names.{text_of};

pub use crate::name_bytes::Name;
use std::cmp::Ordering;
use std::error::Error;
use std::fmt::{self, Debug, Formatter, Write};
use std::hash::{Hash, Hasher};

/// The maximum number of bytes of a name.
pub const NAME_BYTES: usize = 23;

/// The error of a text that is no name.
#[derive(Clone, Copy, Debug, PartialEq, Eq)]
pub enum NameFault {
    /// The text has more than 23 bytes.
    TooLong = 1,
}

impl fmt::Display for NameFault {
    fn fmt<W: Write>(&self, f: &mut Formatter<W>) -> fmt::Result {
        f.pad("the text has more than 23 bytes")
    }
}

impl Error for NameFault {}

impl Name {
    /// Returns the text as a name. The empty text is a name. It allocates nothing.
    ///
    /// # Errors
    /// Fails with `TooLong` if the text has more than 23 bytes.
    pub fn new(text: &str) -> Result<Name, NameFault>
        ensures name { IfOk result (λ n. text_of n ≡ text.now) }
        ensures short { IsOk result ↔ (length text.now ≤ 23) }
    {
        let len = text.len();
        if len > NAME_BYTES {
            return Err(NameFault::TooLong);
        }
        let mut bytes = [0; 23];
        bytes[..len].copy_from_slice(text.as_bytes());
        Ok(Name {
            bytes,
            len: len as u8,
        })
    }

    /// Returns the text of the name.
    pub fn as_str(&self) -> &str
        ensures { result.now ≡ text_of self.now }
    {
        // SAFETY: the first `len` bytes are those of the text of which `new` made the name.
        unsafe { str::from_utf8_unchecked(&self.bytes[..self.len as usize]) }
    }
}

impl PartialEq for Name {
    ghost eq = { λ a b. bytes_eq (text_of a) (text_of b) };

    ghost laws = { partial_equiv_from_equiv (on_equiv text_of nat_list_eq_equiv) };

    fn eq(&self, other: &Self) -> bool {
        self.as_str() == other.as_str()
    }
}

impl Eq for Name {
    ghost laws = { on_equiv text_of nat_list_eq_equiv };
}

impl PartialOrd for Name {
    ghost partial_cmp = { λ a b. Some (slice_cmp nat_cmp (text_of a) (text_of b)) };

    ghost laws = { on_po text_of texts_po };

    fn partial_cmp(&self, other: &Self) -> Option<Ordering> {
        Some(self.cmp(other))
    }
}

impl Ord for Name {
    ghost cmp = { λ a b. slice_cmp nat_cmp (text_of a) (text_of b) };

    ghost total = { on_total text_of nat_list_cmp_total };

    ghost matches_partial_cmp = { λ x y. refl };

    ghost matches_eq = { λ x y. texts_ties (text_of x) (text_of y) };

    fn cmp(&self, other: &Self) -> Ordering {
        self.as_str().cmp(other.as_str())
    }
}

impl Hash for Name {
    ghost hash_input = { λ a. written.str (text_of a) };

    ghost respects_eq = { λ x y h. ap written.str ((bytes_decides (text_of x) (text_of y)).0 h) };

    fn hash<H: Hasher>(&self, state: &mut H) {
        self.as_str().hash(state);
    }
}

/// Writes the text in quotes by `{:?}`, as a `&str` does: `"x"`.
impl Debug for Name {
    ghost debug_output = { λ name. debug_str (text_of name) };

    fn fmt<W: Write>(&self, f: &mut Formatter<W>) -> fmt::Result {
        self.as_str().fmt(f)
    }
}
