//! A memo table under a lock, whose rule is that each entry is right.
ghost use Rattle.std.specs.Prelude.{◌≡◌, IfOk, IfSome};
ghost use Rattle.test_callers.specs.Fibonacci.{fibonacci_at};

use elsa::EntryRule;
use elsa::sync::FrozenMap;
use std::alloc::{AllocError, Global};
use std::hash::{BuildHasherDefault, FoldHasher};
use std::sync::Wait;

/// Each value is the Fibonacci number at its key.
pub struct IsFibonacci;

impl EntryRule<u64, u64> for IsFibonacci {
    ghost use Rattle.std.specs.Prelude.{◌≡◌};
    ghost use Rattle.test_callers.specs.Fibonacci.{fibonacci_at};

    ghost holds = { λ index value. value ≡ fibonacci_at index };
}

/// The memo table: numbers by their indices.
pub type Memo = FrozenMap<u64, u64, BuildHasherDefault<FoldHasher>, Global, IsFibonacci>;

/// Makes an empty table.
pub fn memo(alloc: Global) -> Memo {
    Memo::with_rule(alloc, BuildHasherDefault::new())
}

/// Returns the number at an index, from the table or by the rule, or `None` if it is 2^64 or more.
///
/// # Errors
/// Fails if an allocation fails.
pub fn number<R: Wait>(rt: &R, memo: &Memo, index: u64) -> Result<Option<u64>, AllocError>
    ensures { IfOk result (λ number. IfSome number (λ value. value ≡ fibonacci_at index)) }
{
    if index < 2 {
        return Ok(Some(index));
    }
    if let Some(value) = memo.get_copy(rt, &index) {
        return Ok(Some(value));
    }
    let Some(one) = number(rt, memo, index - 1)? else {
        return Ok(None);
    };
    let Some(two) = number(rt, memo, index - 2)? else {
        return Ok(None);
    };
    let Some(value) = one.checked_add(two) else {
        return Ok(None);
    };
    Ok(Some(memo.get_copy_or_insert(rt, index, value)?))
}
