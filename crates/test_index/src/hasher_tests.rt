//! The seeded hash: its values by `tools/program_checks vectors`, each collection with it, and a
//! source of secrets that fails.
use bumpalo::Bump;
use elsa_hash::seeded::SeededState;
use elsa_index::index_set::FrozenIndexSet;
use elsa_interner::interner::Interner;
use elsa_maps::index_map::FrozenIndexMap;
use elsa_maps::map::FrozenMap;
use elsa_program::devices::Counted;
use elsa_program::engine::intern_engine_with_hasher;
use elsa_vec::stable::Own;
use std::hash::{BuildHasher, BuildHasherDefault, FoldHasher};
use std::io;
use std::io::ErrorKind;
use std::random::RandomSource;
use std::test::Fail;

/// Returns the state of the seed of the values.
fn seeded() -> SeededState {
    SeededState::with_seed(0x0123_4567_89AB_CDEF, 0xFEDC_BA98_7654_3210)
}

#[test]
fn a_value_had_another_hash_than_in_the_model(rt: HostRuntime) {
    for (text, hash) in [
        ("", 0x21AA_BDD1_BB43_D957),
        ("a", 0xE3EB_3C1E_B63E_1364),
        ("ab", 0xD8D7_9C0B_5ACA_6807),
        ("name7", 0xD55E_D454_6945_BCEE),
        ("lonely", 0xEB65_061C_A941_378C),
        ("12345678", 0x7D8B_B938_7807_9214),
        ("best friend", 0xB476_72FD_D133_9AD9),
        ("sixteen bytes...", 0x2CBF_0BFC_1DD1_3E16),
        ("seventeen bytes..", 0xC2DB_8476_5F54_E67A),
        (
            "the quick brown fox jumps over the lazy dog",
            0x59E1_EE28_6CEF_F263,
        ),
        ("été", 0x767D_DC38_6E4C_72A3),
    ] {
        assert_eq!(rt; seeded().hash_one(text), hash, "{text}");
    }
    let numbers: &[u64] = &[1, 2, 3];
    assert_eq!(rt; seeded().hash_one(7u64), 0x16D8_9DEC_A320_873B);
    assert_eq!(rt; seeded().hash_one(numbers), 0xBB41_9CD3_216C_42FE);
}

/// Two of the names that `tools/program_checks names fixed` prints.
const CRAFTED: [&str; 2] = [
    "0b3jx9vxlabfwps6Q~b\u{1b}\u{e})\u{14}aaaaaaaaasixteen bytes...",
    "0b3jx9vxlabfwps6Q~b\u{1b}\u{e})\u{14}abaaaaaaasixteen bytes...",
];

#[test]
fn names_of_one_hash_under_the_default_had_one_under_a_seed(rt: HostRuntime) {
    let default = BuildHasherDefault::<FoldHasher>::new();
    let [one, other] = CRAFTED.map(|name| (default.hash_one(name), seeded().hash_one(name)));
    assert_eq!(rt; one.0, other.0);
    assert_ne!(rt; one.1, other.1);
}

/// A source that returns this byte and those after it for each request. It fails if there is no
/// byte.
struct Source {
    first: Option<u8>,
}

impl RandomSource for Source {
    fn fill_bytes(&self, buf: &mut [u8]) -> io::Result<()> {
        let Some(first) = self.first else {
            return Err(io::Error::from(ErrorKind::Unsupported));
        };
        for (index, byte) in buf.iter_mut().enumerate() {
            *byte = first + index as u8;
        }
        Ok(())
    }
}

#[test]
fn a_seed_was_not_that_of_its_source(rt: HostRuntime) -> Result<(), Fail> {
    assert!(rt; SeededState::new(&Source { first: None }).is_err());
    let made = SeededState::new(&Source { first: Some(1) })?;
    let wanted = SeededState::with_seed(0x0807_0605_0403_0201, 0x100F_0E0D_0C0B_0A09);
    let got = made.hash_one("best friend");
    assert_eq!(rt; got, wanted.hash_one("best friend"));
    let (one, other) = (SeededState::new(&rt)?, SeededState::new(&rt)?);
    assert_ne!(rt; one.hash_one("lonely"), other.hash_one("lonely"));
    Ok(())
}

#[test]
fn a_secret_was_printed(rt: HostRuntime) -> Result<(), Fail> {
    let state = SeededState::with_seed(12345, 67890);
    let text = format!(in rt.alloc(); "{state:?} {:?}", state.build_hasher())?;
    assert_eq!(rt; text.as_str(), "SeededState { .. } SeededHasher { .. }");
    Ok(())
}

#[test]
fn a_table_with_a_seed_lost_a_key(rt: HostRuntime) -> Result<(), Fail> {
    let (alloc, arena, state) = (rt.alloc(), Bump::new(rt.alloc()), SeededState::new(&rt)?);
    let mut map: FrozenMap<&str, Own<u64>, SeededState> = FrozenMap::with_hasher(
        alloc, &arena, state,
    );
    for (number, name) in [(1, "a"), (2, "best friend"), (3, "seventeen bytes..")] {
        map.insert(name, Own(number))?;
    }
    let got = (map.get("best friend"), map.get("b"), map.len());
    assert_eq!(rt; got, (Some(&2), None, 3));
    let mut map: FrozenIndexMap<u64, &str, SeededState> = FrozenIndexMap::with_hasher(
        alloc, &arena, state,
    );
    for number in 0..1000u64 {
        map.insert(number << 40, "x")?;
    }
    for number in 0..1000usize {
        assert_eq!(rt; map.get_index_of(&((number as u64) << 40)), Some(number));
    }
    assert_eq!(rt; map.get(&1), None);
    let mut set: FrozenIndexSet<&[u32], SeededState> = FrozenIndexSet::with_hasher(
        alloc, &arena, state,
    );
    let rows: [(&[u32], _); 4] = [
        (&[1, 2], Some(0)),
        (&[], Some(1)),
        (&[1, 2, 3], Some(2)),
        (&[2, 1], None),
    ];
    for (items, index) in rows {
        if index.is_some() {
            set.insert(items)?;
        }
    }
    for (items, index) in rows {
        assert_eq!(rt; (items, set.get_index_of(&items)), (items, index));
    }
    let mut names = Interner::with_hasher(alloc, &arena, state);
    let [one, other] = CRAFTED;
    let got = (names.put(one)?, names.put(other)?, names.find(one));
    assert_eq!(rt; got, (0, 1, Some(0)));
    Ok(())
}

#[test]
fn the_engine_had_other_replies_under_a_seed(rt: HostRuntime) -> Result<(), Fail> {
    let (alloc, arena, state) = (rt.alloc(), Bump::new(rt.alloc()), SeededState::new(&rt)?);
    let mut bytes: Vec<u8> = Vec::new(alloc);
    let mut reader = Counted::new(b"put a\nput b\nput a\nat 1\nlen\nfind c\n".as_slice());
    let mut writer = Counted::new(&mut bytes);
    let outcome = intern_engine_with_hasher(alloc, &arena, state, &mut reader, &mut writer);
    drop(writer);
    let got = (outcome, bytes.as_slice());
    assert_eq!(rt; got, (Ok(()), b"0\n1\n0\nb\n2\nnone\n".as_slice()));
    Ok(())
}
