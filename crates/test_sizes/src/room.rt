//! Reserved capacity: it is there, it is at most eight times the capacity that was requested, and
//! insertions in it make no request.
use crate::grows::Grows;
use crate::kinds::{Hasher, IndexMap, IndexSet, LargeMap, List, Map};
use elsa::interner::Interner;
use std::alloc::{AllocError, Allocator, Global};
use test_alloc::Budget;

/// A collection whose capacity can be reserved.
pub trait Roomy: Grows {
    fn reserve(&mut self, additional: usize) -> Result<(), AllocError>;

    fn room(&mut self) -> usize;
}

/// Writes the calls of these collections.
macro_rules! roomy {
    ($($type:ty),+) => {
        $(impl<A: Allocator + Copy> Roomy for $type {
            fn reserve(&mut self, additional: usize) -> Result<(), AllocError> {
                self.reserve(additional).map_err(|_| AllocError)
            }

            fn room(&mut self) -> usize {
                self.capacity()
            }
        })+
    };
}

roomy! {
    List<'_, A>, Map<'_, A>, IndexMap<'_, A>, LargeMap<'_, A>, IndexSet<'_, A>,
    Interner<'_, Hasher, A>
}

/// Inserts the keys from `from` to `to - 1` while each request of the table fails. Returns the
/// first one of which the insertion failed or made a request.
fn first_with_request<G: Grows>(
    heap: &Budget<Global>,
    grown: &mut G,
    from: u64,
    to: u64,
) -> Option<u64> {
    let asked = heap.asked();
    heap.refuse(asked, u64::MAX);
    for key in from..to {
        if grown.insert(key, key) != Ok(key) || heap.asked() != asked {
            return Some(key);
        }
    }
    heap.refuse_next(0);
    None
}

/// Inserts `size` keys into a collection with room for them, and `size` others after a reservation.
/// Returns the first key of which the insertion made a request, or the number of keys for which
/// there is no room, or more than eight times as much; or `None`.
///
/// # Errors
/// Fails if the room can't be allocated.
pub fn first_without_room<G: Roomy>(
    heap: &Budget<Global>,
    grown: &mut G,
    size: u64,
) -> Result<Option<u64>, AllocError> {
    for round in 0..2_u64 {
        let (from, to) = (round * size, (round + 1) * size);
        if round > 0 {
            grown.reserve(size as usize)?;
        }
        let room = grown.room() as u64;
        if room < to || room > to * 8 + 64 {
            return Ok(Some(to));
        }
        let first = first_with_request(heap, grown, from, to);
        if first.is_some() {
            return Ok(first);
        }
    }
    Ok(None)
}
