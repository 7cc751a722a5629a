//! Callers that prove their own property of the values: a value states it by a ghost field, and
//! each reference that a collection returns has it. They divide by values without a test for zero.
ghost use Rattle.std.specs.Prelude.{◌<◌};

use elsa_cell::{FrozenMap, FrozenVec};
use std::alloc::{AllocError, Global};
use std::test::*;

/// A number above zero.
#[derive(Drop)]
struct Divisor {
    n: u64,
    ghost above: { 0 < n },
}

/// Returns a divisor, with 1 instead of 0.
fn divisor_of(n: u64) -> Divisor {
    if n == 0 {
        Divisor { n: 1 }
    } else {
        Divisor { n }
    }
}

/// Returns the number divided by the value of a text, or `None` if the key is absent.
fn divided(divisors: &FrozenMap<String, Divisor>, key: &str, number: u64) -> Option<u64> {
    let divisor = divisors.get(key)?;
    Some(number / divisor.n)
}

fn divides_by_what_it_finds(alloc: Global) -> Result<bool, AllocError> {
    let divisors: FrozenMap<String, Divisor> = FrozenMap::new(alloc)?;
    for (key, n) in [("three", 3), ("none", 0), ("three", 5)] {
        let key = String::from_str(alloc, key)?;
        let Ok(_kept) = divisors.insert(key, divisor_of(n)) else {
            return Ok(false);
        };
    }
    Ok(
        divided(&divisors, "three", 30) == Some(10)
            && divided(&divisors, "none", 30) == Some(30)
            && divided(&divisors, "six", 30).is_none(),
    )
}

#[test]
fn a_map_returned_a_value_against_its_rule(rt: HostRuntime) -> Result<(), Fail> {
    assert!(rt; divides_by_what_it_finds(rt.alloc())?);
    Ok(())
}

/// Returns a number divided by each value of a list in turn.
fn divided_by_all(divisors: &FrozenVec<Divisor>, number: u64) -> u64 {
    let mut left = number;
    let items = divisors.iter();
    for divisor in items {
        left = left / divisor.n;
    }
    left
}

fn divides_by_a_list(alloc: Global) -> Result<bool, AllocError> {
    let divisors: FrozenVec<Divisor> = FrozenVec::new(alloc)?;
    let is_full = divisors.push(divisor_of(2)).is_ok() && divisors.push(divisor_of(3)).is_ok();
    Ok(is_full && divided_by_all(&divisors, 36) == 6)
}

#[test]
fn a_list_returned_an_item_against_its_rule(rt: HostRuntime) -> Result<(), Fail> {
    assert!(rt; divides_by_a_list(rt.alloc())?);
    Ok(())
}
