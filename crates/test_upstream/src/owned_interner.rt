//! Upstream's interner as it is there: a struct that owns its set of texts and stores new ones
//! through `&self`.
use elsa::cell::{Fault, FrozenIndexSet};
use std::alloc::{AllocError, Global};
use std::test::Fail;

/// An interner that numbers texts. Its set owns them.
#[derive(Drop)]
struct StringInterner {
    alloc: Global,
    set: FrozenIndexSet<String>,
}

impl StringInterner {
    fn new(alloc: Global) -> Result<Self, AllocError> {
        Ok(StringInterner {
            alloc,
            set: FrozenIndexSet::new(alloc)?,
        })
    }

    /// Returns the number of a text, which is stored if it is new.
    fn get_or_intern(&self, value: &str) -> Result<u32, Fault> {
        let (index, _) = self.set.insert_full(String::from_str(self.alloc, value)?)?;
        Ok(index as u32)
    }

    /// Returns the number of a text, or `None` if it isn't stored.
    fn get(&self, value: &str) -> Option<u32> {
        let (index, _) = self.set.get_full(value)?;
        Some(index as u32)
    }

    /// Returns the text of a number.
    fn text_of(&self, number: u32) -> Option<&str> {
        let text = self.set.get_index(number as usize)?;
        Some(text.as_str())
    }
}

#[test]
fn a_text_changed_its_number_in_an_interner_that_owns_it(rt: HostRuntime) -> Result<(), Fail> {
    let interner = StringInterner::new(rt.alloc())?;
    let words = [
        "lonely",
        "best friend",
        "threes a crowd",
        "rando",
        "facebook",
    ];
    let first = interner.get_or_intern("lonely")?;
    // The borrow of a text stays valid while others are stored through `&self`.
    let lonely = interner.text_of(first);
    for (number, word) in words.iter().enumerate() {
        assert_eq!(rt; interner.get_or_intern(word)?, number as u32, "{word}");
    }
    for (number, word) in words.iter().enumerate() {
        let found = (interner.get(word), interner.text_of(number as u32));
        assert_eq!(rt; found, (Some(number as u32), Some(*word)));
    }
    let got = (interner.get_or_intern("best friend")?, lonely);
    assert_eq!(rt; got, (1, Some("lonely")));
    assert_eq!(rt; (interner.get("nobody"), interner.text_of(5)), (None, None));
    Ok(())
}
