//! Two insertions of a key, by one handle and by two handles.
ghost use Rattle.std.specs.Prelude.{◌≡◌};

use elsa_lock_free_map::handle::MapHandle;
use elsa_lock_free_map::map::LockFreeFrozenMap;
use std::alloc::AllocError;
use std::sync::Wait;
use std::test::*;

/// Inserts a key twice by one handle, and returns both values.
fn by_one<R: Wait>(
    rt: &R,
    handle: &mut MapHandle<'_, u64, u64>,
    key: u64,
    values: (u64, u64),
) -> Result<(u64, u64), AllocError> {
    let first = handle.insert(rt, key, values.0)?;
    let second = handle.insert(rt, key, values.1)?;
    Ok((first.value, second.value))
}

/// Inserts a key by each of two handles, and returns both values.
fn by_two<R: Wait>(
    rt: &R,
    one: &mut MapHandle<'_, u64, u64>,
    other: &mut MapHandle<'_, u64, u64>,
    key: u64,
    values: (u64, u64),
) -> Result<(u64, u64), AllocError>
    requires same_vector { one.old.vector ≡ other.old.vector }
{
    let first = one.insert(rt, key, values.0)?;
    let second = other.insert(rt, key, values.1)?;
    one.same_index(other);
    Ok((first.value, second.value))
}

#[test]
fn a_second_insertion_returned_another_value(rt: HostRuntime) -> Result<(), Fail> {
    let map = LockFreeFrozenMap::<u64, u64>::new(rt.alloc())?;
    for key in 0..70 {
        assert_eq!(rt; by_one(&rt, &mut map.handle(), key, (key, 7))?, (key, key));
        let values = by_two(&rt, &mut map.handle(), &mut map.handle(), key, (8, 9))?;
        assert_eq!(rt; values, (key, key));
    }
    Ok(())
}
