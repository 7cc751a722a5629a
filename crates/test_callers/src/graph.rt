//! A graph whose edges are added through `&self`, with cycles: each node has a growing list of the
//! indices of nodes, and a list of references to the nodes finds a node by its index.
ghost use Rattle.std.specs.Prelude.{◌≡◌, slice_get};
ghost use Rattle.std.specs.Option.{option_map};

use elsa_arena::{FrozenVec, Observed};
use std::alloc::{AllocError, Global};
use std::test::*;

/// A node: a name, and the indices of the nodes to which its edges lead.
#[derive(Drop)]
struct Node<'g> {
    name: &'g str,
    edges: FrozenVec<usize>,
}

impl<'g> Node<'g> {
    fn new(alloc: Global, name: &'g str) -> Result<Node<'g>, AllocError> {
        let edges = FrozenVec::new(alloc)?;
        Ok(Node { name, edges })
    }

    /// Adds an edge to the node at the index `to`.
    fn link(&self, to: usize) -> bool {
        self.edges.push(to).is_ok()
    }

    /// Returns the index to which the edge `edge` leads.
    fn edge(&self, edge: usize) -> Option<usize> {
        self.edges.get(edge).copied()
    }
}

/// Returns the node at an index, of those that were observed.
fn node_at<'g>(nodes: &Observed<'_, &'g Node<'g>>, index: usize) -> Option<&'g Node<'g>>
    ensures { result ≡ slice_get nodes.now.seen index }
{
    let node = nodes.get(index)?;
    Some(*node)
}

/// Follows the first edges from a node, and returns the name of the node after `steps` edges.
fn name_after<'g>(nodes: &Observed<'_, &'g Node<'g>>, steps: usize) -> Option<&'g str> {
    let mut at = 0;
    for _ in 0..steps {
        at = node_at(nodes, at)?.edge(0)?;
    }
    Some(node_at(nodes, at)?.name)
}

/// Returns whether three nodes in a cycle, linked after they were made, are found in their order.
fn a_cycle_is_followed(alloc: Global) -> Result<bool, AllocError> {
    let (ann, bob, cyd) = (
        Node::new(alloc, "ann")?,
        Node::new(alloc, "bob")?,
        Node::new(alloc, "cyd")?,
    );
    let graph: FrozenVec<&Node<'_>> = FrozenVec::new(alloc)?;
    for node in [&ann, &bob, &cyd] {
        if graph.push(node).is_err() {
            return Ok(false);
        }
    }
    let linked = ann.link(1) && bob.link(2) && cyd.link(0);
    let nodes = graph.observed();
    Ok(
        linked
            && name_after(&nodes, 2) == Some("cyd")
            && name_after(&nodes, 3) == Some("ann")
            && node_at(&nodes, 3).is_none(),
    )
}

#[test]
fn an_edge_led_to_another_node(rt: HostRuntime) -> Result<(), Fail> {
    assert!(rt; a_cycle_is_followed(rt.alloc())?);
    Ok(())
}
