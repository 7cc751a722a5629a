//! Words that are stored once: a set of texts, and the sorted set of their lengths.
ghost use Rattle.std.specs.Prelude.{◌≡◌, IfOk};

use bumpalo::Bump;
use elsa::{FrozenBTreeSet, FrozenIndexSet};
use std::alloc::{AllocError, Global};
use std::test::*;

/// Inserts a word, and returns the one in the set.
fn kept<'a>(seen: &mut FrozenIndexSet<'a, &'a str>, word: &str) -> Result<&'a str, AllocError>
    ensures { IfOk result (λ kept. kept.now ≡ word.now) }
{
    seen.insert_text(word)
}

// Returns the number of words, the shortest and the greatest length, each as an entry, and the last
// word after the set's end.
fn told<'a>(
    alloc: Global,
    arena: &'a Bump,
) -> Result<(usize, Option<(usize, ())>, Option<(usize, ())>, &'a str), AllocError> {
    let mut seen = FrozenIndexSet::new(alloc, arena);
    let mut lengths: FrozenBTreeSet<'_, usize> = FrozenBTreeSet::new(alloc, arena);
    let mut last = "";
    for word in ["to", "be", "or", "not", "to", "be"] {
        last = kept(&mut seen, word)?;
        lengths.insert(word.len(), ())?;
    }
    Ok((
        seen.len(),
        lengths.first_key_value(),
        lengths.last_key_value(),
        last,
    ))
}

#[test]
fn each_word_is_seen_once(rt: HostRuntime) -> Result<(), Fail> {
    let arena = Bump::new(rt.alloc());
    assert_eq!(rt;
        told(rt.alloc(), &arena)?,
        (4, Some((2, ())), Some((3, ())), "be")
    );
    Ok(())
}
