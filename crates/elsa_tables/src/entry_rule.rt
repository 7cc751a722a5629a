//! Rules of the caller's over the keys and values of a map.

/// A fact that holds of each key of a map and its value.
///
/// A rule is a type parameter of a map. An insertion requires the fact of the key and the value,
/// and a look-up ensures it of the value that it returns, so a caller can rely on it without
/// storing what it needs to check it again. A rule has no bytes and no code.
pub trait EntryRule<K, V> {
    /// What holds of a key and its value.
    ghost holds: { K → V → Type 0 };
}

/// The rule that allows any value for any key: the rule of a map whose type names none.
pub struct AnyEntries;

impl<K, V> EntryRule<K, V> for AnyEntries {
    ghost holds = { λ _ _. Unit {0} };
}
