//! A table whose rule is that each value is the square of its key: what its calls return is right,
//! without a second look.
ghost use Rattle.std.specs.Prelude.{◌≡◌, ◌*◌, IfOk, IfSome};

use elsa_cell::{EntryRule, Fault, FrozenBTreeMap, FrozenMap};
use std::alloc::Global;
use std::hash::{BuildHasherDefault, FoldHasher};
use std::test::*;

/// Each value is the square of its key. It has no bytes.
struct IsSquare;

impl EntryRule<u32, u64> for IsSquare {
    ghost use Rattle.std.specs.Prelude.{◌≡◌, ◌*◌};

    ghost holds = { λ key value. value ≡ key * key };
}

type Squares = FrozenMap<u32, u64, BuildHasherDefault<FoldHasher>, Global, IsSquare>;

/// Returns the square of a number, from the table or by a multiplication.
///
/// # Errors
/// Fails as an insertion does.
fn square(squares: &Squares, number: u32) -> Result<u64, Fault>
    ensures { IfOk result (λ value. value ≡ number * number) }
{
    if let Some(value) = squares.get(&number) {
        return Ok(*value);
    }
    let value = number as u64 * number as u64;
    Ok(*squares.insert(number, value)?)
}

type SortedSquares = FrozenBTreeMap<u32, u64, Global, IsSquare>;

/// Returns the entry at an index.
fn entry(squares: &Squares, index: usize) -> Option<(u32, u64)>
    ensures { IfSome result (λ e. e.1 ≡ e.0 * e.0) }
{
    let (number, value) = squares.get_index(index)?;
    Some((*number, *value))
}

/// Returns the square of a number, if the table has it.
fn square_there(squares: &SortedSquares, number: u32) -> Option<u64>
    ensures { IfSome result (λ value. value ≡ number * number) }
{
    let value = squares.get(&number)?;
    Some(*value)
}

fn squares_are_right(alloc: Global) -> Result<bool, Fault> {
    let squares = Squares::with_rule(alloc, BuildHasherDefault::default())?;
    for number in [7u32, 3, 65_536, 7] {
        if square(&squares, number)? != number as u64 * number as u64 {
            return Ok(false);
        }
    }
    Ok(squares.len() == 3 && entry(&squares, 2) == Some((65_536, 4_294_967_296)))
}

#[test]
fn a_map_with_a_rule_returned_another_value(rt: HostRuntime) -> Result<(), Fail> {
    assert!(rt; squares_are_right(rt.alloc())?);
    Ok(())
}

fn sorted_squares_are_right(alloc: Global) -> Result<bool, Fault> {
    let squares = SortedSquares::with_rule(alloc)?;
    squares.insert(4, 16)?;
    squares.insert(2, 4)?;
    Ok(square_there(&squares, 2) == Some(4) && square_there(&squares, 3).is_none())
}

#[test]
fn an_ordered_map_with_a_rule_returned_another_value(rt: HostRuntime) -> Result<(), Fail> {
    assert!(rt; sorted_squares_are_right(rt.alloc())?);
    Ok(())
}
