//! What happens to a vector. The history in the rule is a list of these events. No value of them
//! exists at run time.
use std::alloc::Global;
use std::collections::LinkedList;

/// An item of the shared list, and the number of the view that pushed it: 0 if none did.
pub struct Entry<T> {
    pub writer: u64,
    pub item: T,
}

/// What a step adds to the history. `Extended` has the number of the view that pushed these items.
/// `OfferOf` is in no history: it shows whose an offer is, by the writer and its used tickets.
pub enum Event<T> {
    Acquired,
    Published(Entry<T>),
    Extended(u64, LinkedList<T, Global>),
    Cloned(LinkedList<T, Global>),
    Released,
    OfferOf(u64, u64),
}
