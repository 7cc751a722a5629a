//! [`SharedKept`]: a handle of names that threads share, as one type without parameters.
ghost use Rattle.std.specs.Prelude.{◌≡◌, [], length, Some, position, slice_get, IfErr, IfOk};
ghost use Rattle.std.specs.Option.{option_map};
ghost use Rattle.std.specs.Str.{bytes_eq};
ghost use Rattle.std_alloc.specs.String.{string_bytes};
ghost use Rattle.elsa_lock_free.specs.SharedList.{Continues, IsLaterPass, items_of};
ghost use Rattle.elsa_c.specs.Codes.{IsRead};
ghost use Rattle.elsa_c.specs.Shared.{IsAnother, IsNew, IsUnput, PutsText, texts_of};

use crate::fault::Fault;
use crate::kept::address_of;
use crate::seed::Seed;
use elsa_hash::seeded::SeededState;
use elsa_hash_index::entry::Shelf;
use elsa_lock_free::may_lock::{AttemptFault, LockPermit};
use elsa_lock_free_map::handle::MapHandle;
use elsa_lock_free_map::map::{LockFreeFrozenMap, MapPass};
use std::alloc::{AllocError, Global};
use std::marker::Model;
use std::mem::replace;
use std::sync::Arc;

/// A handle of the map of the names.
type Names<'a> = MapHandle<'a, String, (), SeededState, Global>;

/// Returns the number of a text, which is copied and added if no handle has added it.
///
/// # Errors
/// Fails with `Busy`, `Memory` or `Full`. This handle has then added nothing.
fn attempt(names: &mut Names<'_>, alloc: Global, text: &str) -> Result<usize, Fault>
    ensures later { IsLaterPass names.old names.new }
    ensures puts { IfOk result (PutsText text.now (texts_of (λ t. string_bytes t) names.old)
        (texts_of (λ t. string_bytes t) names.new)) }
    ensures fault { IfErr result (IsUnput text.now (texts_of (λ t. string_bytes t) names.old)
        (texts_of (λ t. string_bytes t) names.new)) }
{
    if let Some(number) = names.find(text) {
        names.one_to_one();
        return Ok(number);
    }
    let Ok(name) = String::from_str(alloc, text) else {
        return Err(Fault::Memory);
    };
    let inserted = names.try_insert_ref(LockPermit::trying(alloc), name, ());
    names.one_to_one();
    match inserted {
        Ok(put) => Ok(put.index),
        Err(AttemptFault::Busy(_)) => Err(Fault::Busy),
        Err(AttemptFault::Failed(_)) => {
            let full = names.is_full();
            // Its length is at most the greatest, so it is that one if the map is full.
            names.seen_len();
            if full {
                return Err(Fault::Full);
            }
            Err(Fault::Memory)
        }
    }
}

/// Returns the text with this number, or `None` if the handle has not observed such a number.
fn text_at<'a>(names: &'a Names<'_>, number: usize) -> Option<&'a str>
    ensures text { option_map (λ t. t.now) result
        ≡ slice_get (items_of (texts_of (λ t. string_bytes t) names.now).seen) number }
{
    if number >= names.seen_len() {
        return None;
    }
    Some(names.item(number).key.as_str())
}

/// A handle of names that threads share: the names, and what the handle has observed of them.
///
/// In contracts it is a view: which names, its number as a writer, and the texts that it has
/// observed, each as its bytes; a text's number is its index there.
#[derive(Drop)]
pub struct SharedKept {
    pub(crate) names: Arc<LockFreeFrozenMap<String, (), SeededState, Global>, Global>,
    pub(crate) pass: MapPass<String, (), SeededState, Global>,
}

impl Model for SharedKept {
    ghost use Rattle.std.specs.Prelude.{◌≡◌, List, ℕ};
    ghost use Rattle.std.specs.Arc.{arc_value};
    ghost use Rattle.std_alloc.specs.String.{string_bytes};
    ghost use Rattle.elsa_lock_free.specs.SharedList.{View};
    ghost use Rattle.elsa_c.specs.Shared.{texts_of};

    ghost Value = { View (List ℕ) };

    ghost view = { λ s. texts_of (λ t. string_bytes t) s.pass };

    // What was observed, was observed of these names.
    ghost invariant = { λ s. s.pass.vector ≡ arc_value s.names };
}

impl SharedKept {
    /// Makes a handle of new names, which will be found by a hash with this seed. There are none.
    ///
    /// # Errors
    /// Fails if an allocation fails.
    pub fn new(alloc: Global, seed: Seed) -> Result<SharedKept, AllocError>
        ensures empty { IfOk result IsNew }
    {
        let map = LockFreeFrozenMap::with_hasher(alloc, seed.state())?;
        let pass = map.pass();
        let names = Arc::new(alloc, map)?;
        Ok(SharedKept { names, pass })
    }

    /// Makes another handle of the same names, which has observed as much and added nothing.
    ///
    /// # Errors
    /// Fails if the names have the greatest number of handles.
    pub fn again(&self) -> Result<SharedKept, AllocError>
        ensures same { IfOk result (IsAnother self.now) }
    {
        let names = Arc::try_clone(&self.names)?;
        let pass = self.pass.again();
        Ok(SharedKept { names, pass })
    }

    /// Returns the number of a text, or `None` if it is not among the texts that the handle has
    /// then observed. It takes no lock and never blocks.
    pub fn find(&mut self, text: &str) -> Option<usize>
        ensures continues { Continues self.old self.new }
        ensures found { result ≡ position (bytes_eq text.now) (items_of self.new.seen) }
    {
        let map = &self.names;
        let mut names = MapHandle::of(map, replace(&mut self.pass, map.pass()));
        let number = names.find(text);
        names.one_to_one();
        self.pass = names.into_pass();
        number
    }

    /// Returns the number of a text, which is copied and added if no handle has added it. It never
    /// blocks.
    ///
    /// # Errors
    /// Fails with `Busy` if another thread adds a text, and with `Memory` or `Full` for a new text.
    /// This handle has then added nothing.
    pub fn try_put(&mut self, alloc: Global, text: &str) -> Result<usize, Fault>
        ensures later { IsLaterPass self.old self.new }
        ensures puts { IfOk result (PutsText text.now self.old self.new) }
        ensures fault { IfErr result (IsUnput text.now self.old self.new) }
    {
        let map = &self.names;
        let mut names = MapHandle::of(map, replace(&mut self.pass, map.pass()));
        let number = attempt(&mut names, alloc, text);
        self.pass = names.into_pass();
        number
    }

    /// Returns the address and the length of the text with this number, or `None` if the handle has
    /// then observed no such number. It takes no lock and never blocks.
    ///
    /// The text stays there until the last handle is dropped. The address of an empty text is null.
    pub fn text_at(&mut self, number: usize) -> Option<(*const u8, usize)>
        ensures continues { Continues self.old self.new }
        ensures read { IsRead (items_of self.new.seen) number result }
    {
        let map = &self.names;
        let mut names = MapHandle::of(map, replace(&mut self.pass, map.pass()));
        names.len();
        let found = match text_at(&names, number) {
            Some(text) => Some(address_of(text)),
            None => None,
        };
        self.pass = names.into_pass();
        found
    }

    /// Returns the number of texts, all of which the handle has then observed. It takes no lock and
    /// never blocks.
    pub fn len(&mut self) -> usize
        ensures continues { Continues self.old self.new }
        ensures length { result ≡ length (items_of self.new.seen) }
    {
        let map = &self.names;
        let mut names = MapHandle::of(map, replace(&mut self.pass, map.pass()));
        let count = names.len();
        self.pass = names.into_pass();
        count
    }
}
