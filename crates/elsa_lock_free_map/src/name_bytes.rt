//! The bytes of a name.
ghost use Rattle.std.specs.Prelude.{◌≡◌, ◌≤◌, ◌-◌, true, drop, take, replicate};
ghost use Rattle.std.specs.Str.{is_utf8};

/// A text of at most 23 bytes, by value: 24 bytes that can be copied. The bytes after its text are
/// 0.
#[derive(Clone, Copy)]
pub struct Name {
    // The text, and after its `len` bytes zeros, so that equal texts have equal bytes.
    pub(crate) bytes: [u8; 23],
    pub(crate) len: u8,
    ghost short: { len ≤ 23 },
    ghost utf8: { is_utf8 (take len bytes) ≡ true },
    ghost rest: { drop len bytes ≡ replicate (23 - len) 0 },
}
