//! The columns of a table in the order in which they first occur, each measured once.
ghost use Rattle.std.specs.Prelude.{◌≡◌, OnErr};

use bumpalo::Bump;
use elsa::{FrozenIndexMap, Own};
use std::alloc::{AllocError, Global};
use std::test::*;

/// Returns the width of a column, which is the length of its first text.
///
/// # Errors
/// Fails if an allocation fails. The columns are then unchanged.
fn width<'a>(
    columns: &mut FrozenIndexMap<'a, u64, Own<usize>>,
    column: u64,
    text: &str,
) -> Result<&'a usize, AllocError>
    ensures { OnErr result (columns.new ≡ columns.old) }
{
    columns.insert_with(column, || Own(text.len()))
}

// Returns the number of columns, and the sum of the widths that three rows get.
fn told(alloc: Global) -> Result<(usize, usize), AllocError> {
    let arena = Bump::new(alloc);
    let mut columns = FrozenIndexMap::new(alloc, &arena);
    let mut sum = 0usize;
    for (column, text) in [(7u64, "name"), (3, "age"), (7, "nickname")] {
        sum = sum.saturating_add(*width(&mut columns, column, text)?);
    }
    Ok((columns.len(), sum))
}

#[test]
fn each_column_is_measured_once(rt: HostRuntime) -> Result<(), Fail> {
    assert!(rt; told(rt.alloc())? == (2, 11));
    Ok(())
}
