//! One script of 32 calls for the three maps, with texts as keys and values. Each request for
//! memory is denied in turn: those of the tables, of the texts and of the arena.
use bumpalo::Bump;
use elsa_maps::index_map::FrozenIndexMap;
use elsa_maps::map::{FrozenBTreeMap, FrozenMap};
use std::alloc::{AllocError, Global};
use std::hash::{BuildHasherDefault, FoldHasher};
use std::test::Fail;
use test_alloc::Budget;
use test_script::{Family, Script, Squeeze, WORDS, goes_through, refuse_each_in_turn};

type Heap<'b> = &'b Budget<Global>;

type Text<'b> = String<Heap<'b>>;

type Hasher = BuildHasherDefault<FoldHasher>;

const CALLS: usize = 32;

/// The type of a map.
#[derive(Clone, Copy, Debug)]
enum Form {
    Hashed,
    Ordered,
    Indexed,
}

/// A map of texts.
#[derive(Drop)]
enum Map<'a, 'b> {
    Hashed(FrozenMap<'a, Text<'b>, Text<'b>, Hasher, Heap<'b>>),
    Ordered(FrozenBTreeMap<'a, Text<'b>, Text<'b>, Heap<'b>>),
    Indexed(FrozenIndexMap<'a, Text<'b>, Text<'b>, Hasher, Heap<'b>>),
}

impl<'a, 'b> Map<'a, 'b> {
    fn new(form: Form, heap: Heap<'b>, arena: &'a Bump) -> Self {
        match form {
            Form::Hashed => Map::Hashed(FrozenMap::new(heap, arena)),
            Form::Ordered => Map::Ordered(FrozenBTreeMap::new(heap, arena)),
            Form::Indexed => Map::Indexed(FrozenIndexMap::new(heap, arena)),
        }
    }

    /// Collects a map of these pairs.
    fn of(
        form: Form,
        heap: Heap<'b>,
        arena: &'a Bump,
        pairs: Vec<(Text<'b>, Text<'b>)>,
    ) -> Result<Self, AllocError> {
        let state = Hasher::new();
        Ok(match form {
            Form::Hashed => Map::Hashed(FrozenMap::from_iter(heap, arena, state, pairs)?),
            Form::Ordered => Map::Ordered(FrozenBTreeMap::from_iter(heap, arena, pairs)?),
            Form::Indexed => Map::Indexed(FrozenIndexMap::from_iter(heap, arena, state, pairs)?),
        })
    }

    /// Inserts the pair. An index map inserts every other two by a call that returns the index,
    /// which has to be `index`.
    fn insert(
        &mut self,
        key: Text<'b>,
        value: Text<'b>,
        index: usize,
    ) -> Result<&'a str, AllocError> {
        match self {
            Map::Hashed(map) => map.insert(key, value),
            Map::Ordered(map) => map.insert(key, value),
            Map::Indexed(map) if is_full(index) => {
                let (at, kept) = map.insert_full(key, value)?;
                Ok(if at == index { kept } else { "" })
            }
            Map::Indexed(map) => map.insert(key, value),
        }
    }

    fn insert_new(
        &mut self,
        key: Text<'b>,
        value: Text<'b>,
        index: usize,
    ) -> Result<(&'a str, bool), AllocError> {
        match self {
            Map::Hashed(map) => map.insert_new(key, value),
            Map::Ordered(map) => map.insert_new(key, value),
            Map::Indexed(map) if is_full(index) => {
                let (at, kept, is_new) = map.insert_full_new(key, value)?;
                Ok((if at == index { kept } else { "" }, is_new))
            }
            Map::Indexed(map) => map.insert_new(key, value),
        }
    }

    fn value_of(&self, key: &str) -> Option<&'a str> {
        match self {
            Map::Hashed(map) => map.get(key),
            Map::Ordered(map) => map.get(key),
            Map::Indexed(map) => map.get(key),
        }
    }

    fn copied(&self) -> Result<Self, AllocError> {
        Ok(match self {
            Map::Hashed(map) => Map::Hashed(map.clone()?),
            Map::Ordered(map) => Map::Ordered(map.clone()?),
            Map::Indexed(map) => Map::Indexed(map.clone()?),
        })
    }

    /// Returns the number of pairs that the map is taken apart into.
    fn count(self) -> Result<usize, AllocError> {
        Ok(match self {
            Map::Hashed(map) => map.into_tuple_vec()?.len(),
            Map::Ordered(map) => map.into_tuple_vec()?.len(),
            Map::Indexed(map) => map.into_tuple_vec()?.len(),
        })
    }

    /// Returns whether exactly the first `count` words have their values.
    fn has_words(&self, count: usize) -> bool {
        (0..16).all(|index| {
            let wanted = if index < count {
                Some(value(index))
            } else {
                None
            };
            self.value_of(word(index)) == wanted
        })
    }
}

/// Returns whether the word with this number is inserted by a call that returns the index.
fn is_full(index: usize) -> bool {
    (index / 2 + index / 4) % 2 == 1
}

fn word(index: usize) -> &'static str {
    WORDS[index % 16]
}

/// Returns the value of the word with this number.
fn value(index: usize) -> &'static str {
    word(index + 5)
}

/// An even call inserts the next word with a value, alternately by `insert` and by `insert_new`. Of
/// each four odd calls the first inserts the last word with another value, the second clones, the
/// third lists, and the fourth collects, where of two pairs with one key the last value stays.
#[derive(Drop)]
struct Calls<'a, 'b> {
    form: Form,
    alloc: Global,
    heap: Heap<'b>,
    arena: &'a Bump,
    map: Map<'a, 'b>,
}

impl Script for Calls<'_, '_> {
    fn call(&mut self, number: usize) -> Result<bool, AllocError> {
        let (heap, index) = (self.heap, number / 2);
        let text = |text: &str| String::from_str(heap, text);
        Ok(match number % 8 {
            0 | 4 => {
                let (key, given) = (text(word(index))?, text(value(index))?);
                self.map.insert(key, given, index)? == value(index)
            }
            2 | 6 => {
                let (key, given) = (text(word(index))?, text(value(index))?);
                self.map.insert_new(key, given, index)? == (value(index), true)
            }
            1 => {
                let (key, given) = (text(word(index))?, text(word(index))?);
                self.map.insert_new(key, given, index)? == (value(index), false)
            }
            3 => self.map.copied()?.has_words(index + 1),
            5 => self.map.copied()?.count()? == index + 1,
            _ => {
                let mut pairs = Vec::new(self.alloc);
                for (key, given) in [(word(0), value(0)), (word(1), word(9)), (word(1), value(1))] {
                    pairs.push((text(key)?, text(given)?))?;
                }
                Map::of(self.form, heap, self.arena, pairs)?.has_words(2)
            }
        })
    }

    fn holds(&self, number: usize) -> bool {
        self.map.has_words(number.div_ceil(2))
    }
}

impl Family for Form {
    fn calls(&self) -> usize {
        CALLS
    }

    fn placings(&self, number: usize) -> usize {
        [1, 0, 1, 0, 1, 0, 1, 3][number % 8]
    }

    fn goes_over(&self, alloc: Global, heap: &Budget<Global>, squeezed: Squeeze) -> Option<u64> {
        let arena = Bump::new(alloc);
        let mut script = Calls {
            form: *self,
            alloc,
            heap,
            arena: &arena,
            map: Map::new(*self, heap, &arena),
        };
        goes_through(&mut script, CALLS, heap, &arena, squeezed)
    }
}

#[test]
fn a_denied_call_changed_a_map(rt: HostRuntime) -> Result<(), Fail> {
    for form in [Form::Hashed, Form::Ordered, Form::Indexed] {
        let refused = refuse_each_in_turn(rt.alloc(), &form)?;
        assert!(rt; refused.requests > 100, "{form:?} {refused:?}");
        assert_eq!(rt; refused.placings, 28, "{form:?}");
    }
    Ok(())
}
