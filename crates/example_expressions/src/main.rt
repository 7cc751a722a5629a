//! Expressions that share their equal parts, as in a compiler (hash-consing).
//!
//! Each line of standard input names an expression: `area = width * height`. Equal expressions have
//! one number. The program prints it, with the value that the expression has if the value of each
//! input is the length of its name.
//!
//! The key of an expression in a [`FrozenIndexSet`](elsa::FrozenIndexSet) is its operation with the
//! *numbers* of its operands. So a hash reads three words, for an expression of any depth. If the
//! keys had borrows of the operands, a derived `Hash` would walk over the whole expression: 2^20
//! sums for the last line of the sample.
#![tactic(auto)]

mod expressions;

use crate::expressions::{Expressions, Node};
use bumpalo::Bump;
use elsa::{FrozenMap, Own};
use std::alloc::AllocError;
use std::io::{self, BufRead, BufReader};
use thiserror::Error;

/// The reason why a line names no expression.
#[derive(Debug, Clone, Copy, Error)]
enum Fault {
    /// It isn't `NAME = NAME + NAME` or `NAME = NAME * NAME`.
    #[error("not NAME = NAME + NAME")]
    Form,
    /// The name has an expression already.
    #[error("named already")]
    IsNamed,
    /// An allocation failed.
    #[error("no memory")]
    Memory(#[from] AllocError),
}

/// The names that have an expression, with its number.
type Names<'a> = FrozenMap<'a, &'a str, Own<usize>>;

/// Returns the number of a name: that of its expression, or else that of an input.
fn number_of<'a>(
    names: &mut Names<'a>,
    expressions: &mut Expressions<'a>,
    name: &str,
) -> Result<usize, AllocError> {
    if let Some(number) = names.get(name) {
        return Ok(*number);
    }
    let value = name.len() as u64;
    let number = expressions.number(Node::Input(value))?;
    names.insert_text(name, Own(number))?;
    Ok(number)
}

/// Adds the expression of a line, and returns its number.
fn add<'a>(
    names: &mut Names<'a>,
    expressions: &mut Expressions<'a>,
    line: &str,
) -> Result<usize, Fault> {
    let Some((name, text)) = line.split_once(" = ") else {
        return Err(Fault::Form);
    };
    if names.contains_key(name) {
        return Err(Fault::IsNamed);
    }
    let (is_sum, operands) = match text.split_once(" + ") {
        Some(operands) => (true, operands),
        None => match text.split_once(" * ") {
            Some(operands) => (false, operands),
            None => return Err(Fault::Form),
        },
    };
    let left = number_of(names, expressions, operands.0)?;
    let right = number_of(names, expressions, operands.1)?;
    let node = if is_sum {
        Node::Sum(left, right)
    } else {
        Node::Product(left, right)
    };
    let number = expressions.number(node)?;
    names.insert_text(name, Own(number))?;
    Ok(number)
}

fn main(rt: HostRuntime) -> io::Result<()> {
    let alloc = rt.alloc();
    let arena = Bump::new(alloc);
    let mut names = Names::new(alloc, &arena);
    let mut expressions = Expressions::new(alloc, &arena);
    for line in BufReader::new(alloc, rt.reader())?.lines(alloc) {
        let line = line?;
        match add(&mut names, &mut expressions, line.as_str()) {
            Ok(number) => match expressions.value(number) {
                Some(value) => println!(rt; "{line}: expression {number}, {value}")?,
                None => println!(rt; "{line}: expression {number}")?,
            },
            Err(fault) => println!(rt; "{line}: {fault}")?,
        }
    }
    println!(rt; "{} expressions", expressions.len())
}
