//! [`scan`]: a search without the table, for a read inside another call that has the table.
ghost use Rattle.std.specs.Prelude.{◌≡◌, length, position};

use crate::indices::{Indices, KeyList, Seeks};

/// Returns the index of the first of `count` keys that the query finds, or `None` if it finds none.
/// It compares one key after the other and allocates nothing.
pub(crate) fn scan<K, T: Indices<K>, Q: Seeks<K, T>, L: KeyList<K>>(
    keys: &L,
    count: usize,
    query: Q,
) -> Option<usize>
    requires { count ≡ length (L.keys keys.now) }
    ensures { result ≡ position (Q.finds query) (L.keys keys.now) }
{
    let mut index = 0;
    while index < count {
        if query.matches(keys.key_at(index)) {
            return Some(index);
        }
        index += 1;
    }
    None
}
