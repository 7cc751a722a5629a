//! Expressions by number: equal expressions have one number.
ghost use Rattle.std.specs.Prelude.{◌≡◌, [], OnErr, length};

use bumpalo::Bump;
use elsa::{FrozenIndexSet, Own};
use std::alloc::{AllocError, Global};

/// An expression: an input, or an operation on the expressions with two numbers.
#[derive(Clone, Copy, PartialEq, Eq, Hash)]
pub enum Node {
    /// An input with this value.
    Input(u64),
    /// The sum of two expressions.
    Sum(usize, usize),
    /// The product of two expressions.
    Product(usize, usize),
}

/// Expressions, numbered in the order of their first insertion, and the value of each, modulo 2^64.
#[derive(Drop)]
pub struct Expressions<'a> {
    pub nodes: FrozenIndexSet<'a, Own<Node>>,
    values: Vec<u64>,
}

impl<'a> Expressions<'a> {
    /// Makes a set without expressions. It allocates nothing.
    pub fn new(alloc: Global, arena: &'a Bump) -> Self
        ensures { result.nodes ≡ [] }
    {
        Expressions {
            nodes: FrozenIndexSet::new(alloc, arena),
            values: Vec::new(alloc),
        }
    }

    /// Returns the number of an expression: that of an equal one, or else the next.
    ///
    /// # Errors
    /// Fails if an allocation fails. The expressions are then unchanged.
    ///
    /// # Cost
    /// `O(1)`, for an expression of any depth.
    pub fn number(&mut self, node: Node) -> Result<usize, AllocError>
        ensures refused { OnErr result (self.new.nodes ≡ self.old.nodes) }
    {
        self.values.reserve(1)?;
        let value = self.computed(node);
        let (index, _, is_new) = self.nodes.insert_full_new(Own(node))?;
        if is_new {
            self.values.push(value).unwrap();
        }
        Ok(index)
    }

    /// Computes the value of an expression. An operand whose number no expression has counts as 0.
    fn computed(&self, node: Node) -> u64 {
        let of = |number: usize| self.value(number).unwrap_or(0);
        match node {
            Node::Input(value) => value,
            Node::Sum(left, right) => of(left).wrapping_add(of(right)),
            Node::Product(left, right) => of(left).wrapping_mul(of(right)),
        }
    }

    /// Returns the value of the expression with this number, or `None` if no expression has it.
    ///
    /// # Cost
    /// `O(1)`.
    pub fn value(&self, number: usize) -> Option<u64> {
        self.values.get(number).copied()
    }

    /// Returns the number of expressions.
    pub fn len(&self) -> usize
        ensures { result ≡ length self.now.nodes }
    {
        self.nodes.len()
    }
}
