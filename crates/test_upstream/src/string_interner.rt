//! Texts to numbers and back, by a set that numbers its values.
use bumpalo::Bump;
use elsa::FrozenIndexSet;
use std::alloc::{AllocError, Global};
use std::test::Fail;

/// An interner that numbers texts. They are stored in the arena.
#[derive(Drop)]
struct StringInterner<'a> {
    alloc: Global,
    set: FrozenIndexSet<'a, String>,
}

impl<'a> StringInterner<'a> {
    fn new(alloc: Global, arena: &'a Bump) -> Self {
        StringInterner {
            alloc,
            set: FrozenIndexSet::new(alloc, arena),
        }
    }

    /// Returns the number of a text, which is stored if it is new.
    fn get_or_intern(&mut self, value: &str) -> Result<usize, AllocError> {
        let text = String::from_str(self.alloc, value)?;
        Ok(self.set.insert_full(text)?.0)
    }

    /// Returns the number of a text, or `None` if it isn't stored.
    fn get(&self, value: &str) -> Option<usize> {
        self.set.get_index_of(&value)
    }

    /// Returns the text of a number.
    fn resolve(&self, index: usize) -> Option<&'a str> {
        self.set.get_index(index)
    }
}

#[test]
fn a_text_changed_its_number(rt: HostRuntime) -> Result<(), Fail> {
    let arena = Bump::new(rt.alloc());
    let mut interner = StringInterner::new(rt.alloc(), &arena);
    let words = ["lonely", "best friend", "threes a crowd", "rando"];
    for (number, word) in words.iter().enumerate() {
        let got = (interner.get(word), interner.get_or_intern(word)?);
        assert_eq!(rt; got, (None, number));
    }
    for (number, word) in words.iter().enumerate() {
        assert_eq!(rt; interner.get_or_intern(word)?, number, "{word}");
        let got = (interner.get(word), interner.resolve(number));
        assert_eq!(rt; got, (Some(number), Some(*word)));
    }
    assert_eq!(rt; interner.resolve(4), None);
    Ok(())
}
