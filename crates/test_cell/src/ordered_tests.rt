//! The ordered map at many sizes and orders of insertion: each key has its own value, the walk has
//! each entry once and ascends, values are dropped once, and its blocks are at least half full.
use elsa_cell::FrozenBTreeMap;
use std::sync::Arc;
use std::test::*;
use test_alloc::Budget;

/// Returns the key that is inserted as the `n`th of `count`: rising, falling, or in a mixed order
/// in which each occurs once. The count is no multiple of 7919.
pub fn key_of(order: u64, n: u64, count: u64) -> u64 {
    match order {
        0 => n,
        1 => count - n - 1,
        _ => (n * 7919 + 11) % count,
    }
}

#[test]
fn an_ordered_key_had_another_value(rt: HostRuntime) -> Result<(), Fail> {
    for count in [
        0, 1, 2, 4, 16, 255, 256, 257, 258, 512, 513, 1025, 3000, 20_000,
    ] {
        for order in 0..3 {
            let map: FrozenBTreeMap<u64, u64> = FrozenBTreeMap::new(rt.alloc())?;
            for n in 0..count {
                assert!(rt; map.insert_new(key_of(order, n, count), n)?.is_new);
            }
            for n in 0..count {
                let key = key_of(order, n, count);
                assert_eq!(rt; map.get_full(&key), Some((n as usize, &key, &n)));
            }
            let (hold, mut next) = (map.hold()?, 0);
            for entry in hold.ascending() {
                assert_eq!(rt; *entry.key(), next, "{order} {count}");
                next += 1;
            }
            assert_eq!(rt; next, count);
        }
    }
    Ok(())
}

#[test]
fn an_ordered_map_has_more_blocks_than_half_full_ones(rt: HostRuntime) -> Result<(), Fail> {
    for order in 0..3 {
        let (heap, count) = (Budget::new(rt.alloc()), 20_000);
        let map: FrozenBTreeMap<u64, u64, &Budget<_>> = FrozenBTreeMap::new(&heap)?;
        for n in 0..count {
            map.insert(key_of(order, n, count), n)?;
        }
        // Eight buffers for the entries, and the lists of buffers and of blocks.
        let blocks = heap.granted() - heap.given() - 8;
        assert!(rt; blocks <= count / 128 + 8, "{blocks} blocks, order {order}");
    }
    Ok(())
}

#[test]
fn a_text_was_not_found_or_out_of_order(rt: HostRuntime) -> Result<(), Fail> {
    let map: FrozenBTreeMap<String, u64> = FrozenBTreeMap::new(rt.alloc())?;
    for (word, value) in [
        ("pear", 1),
        ("fig", 2),
        ("apple", 3),
        ("figs", 4),
        ("pear", 5),
    ] {
        map.insert(String::from_str(rt.alloc(), word)?, value)?;
    }
    let mut words = String::new(rt.alloc());
    for entry in map.hold()?.ascending() {
        let (index, _, value) = map.get_full(entry.key().as_str()).ok_or("lost")?;
        write!(words, "{} {index} {value}, ", entry.key())?;
    }
    assert_eq!(rt; words.as_str(), "apple 2 3, fig 1 2, figs 3 4, pear 0 1, ");
    Ok(())
}

#[test]
fn a_value_from_inside_an_ordered_map_was_replaced(rt: HostRuntime) -> Result<(), Fail> {
    let map: FrozenBTreeMap<u64, u64> = FrozenBTreeMap::new(rt.alloc())?;
    let mut observed = map.observed();
    let made = map.insert_with_as(&mut observed, 5, || {
        let _inside = map.insert(5, 2).is_ok();
        7
    });
    let inserted = made.ok().ok_or("not inserted")?;
    assert_eq!(rt; (*inserted.value, inserted.is_new), (2, false));
    Ok(())
}

#[test]
fn a_value_of_the_ordered_map_was_not_dropped_once(rt: HostRuntime) -> Result<(), Fail> {
    let counted = Arc::new(rt.alloc(), 0)?;
    let map: FrozenBTreeMap<u64, Arc<i32>> = FrozenBTreeMap::new(rt.alloc())?;
    for key in [2, 1, 2, 3, 1] {
        map.insert(key, counted.clone()?)?;
    }
    assert_eq!(rt; Arc::strong_count(&counted), 4);
    drop(map);
    assert_eq!(rt; Arc::strong_count(&counted), 1);
    Ok(())
}
