//! Keys that all have one hash.
ghost use Rattle.std.specs.Prelude.{[], refl};

use bumpalo::Bump;
use elsa_maps::map::FrozenAppendMap;
use elsa_vec::stable::Own;
use std::hash::{Hash, Hasher};
use std::test::Fail;

// A key whose hash is that of every other key.
#[derive(Clone, Copy, Drop, PartialEq, Eq)]
struct SameHash(u32);

impl Hash for SameHash {
    ghost hash_input = { λ _. [] };

    ghost respects_eq = { λ x y h. refl };

    fn hash<H: Hasher>(&self, _state: &mut H) {}
}

#[test]
fn keys_with_one_hash_are_kept_apart(rt: HostRuntime) -> Result<(), Fail> {
    let arena = Bump::new(rt.alloc());
    for count in [0, 1, 6, 7, 12, 13, 500] {
        let mut map: FrozenAppendMap<'_, SameHash, Own<u32>> = FrozenAppendMap::new(
            rt.alloc(),
            &arena,
        );
        for number in 0..count {
            map.insert(SameHash(number), Own(number))?;
        }
        for number in 0..count {
            assert_eq!(rt; map.get(&SameHash(number)), Some(&number), "{count}");
        }
        assert_eq!(rt; map.get(&SameHash(count)), None, "{count}");
    }
    Ok(())
}
