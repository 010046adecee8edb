// Where a node's statement is in the item.
ghost use Rattle.std.specs.Prelude.{◌≡◌, ◌<◌, IfOk, length, nat_eq, reverse};
ghost use Rattle.cfg_build.specs.CfgGraph.Seats.{seat_at, path_of, AreSeated};

use crate::cfg_graph::node::{NodeEntry, Seat};
use c_terms::NoMemory;
use std::alloc::Global;
use std::marker::Model;

/// The path from the item to a node's statement. It is kept as the nodes of the graph and a number, and takes no memory.
/// Contracts see the child numbers.
#[derive(Drop)]
pub struct NodePath<'b> {
    nodes: &'b [NodeEntry<'b>],
    node: usize,
}

impl<'b> Model for NodePath<'b> {
    ghost use Rattle.std.specs.Prelude.{List, ℕ, ◌<◌, length};
    ghost use Rattle.cfg_build.specs.CfgGraph.Seats.{path_of, AreSeated};

    ghost Value = { List ℕ };

    ghost view = { λ p. path_of p.nodes.now p.node };

    ghost invariant = { λ p. (p.node < length p.nodes.now) × AreSeated p.nodes.now };
}

impl<'b> NodePath<'b> {
    /// Returns the path of this node.
    pub(crate) fn of(nodes: &'b [NodeEntry<'b>], node: usize) -> NodePath<'b>
        requires inside { node < length nodes.now }
        requires seated { AreSeated nodes.now }
        ensures { result ≡ path_of nodes.now node }
    {
        NodePath { nodes, node }
    }

    /// Returns the child numbers, from the item downwards. Takes a step and a number for each.
    pub fn steps(&self, alloc: Global) -> Result<Vec<u32>, NoMemory>
        ensures value { IfOk result (λ steps. steps.items ≡ self.now) }
    {
        let mut steps = steps_up(alloc, self.nodes, self.node)?;
        steps.reverse();
        Ok(steps)
    }

    /// Whether the path has exactly one number, as the path of a child of the item does. Takes a step for each number, up to
    /// the second, and no memory.
    pub fn has_one_step(&self) -> bool
        ensures value { result ≡ nat_eq (length self.now) 1 }
    {
        is_one_up(self.nodes, self.node)
    }
}

/// Returns the seat of a node.
fn seat_at(nodes: &[NodeEntry], node: usize) -> Seat
    ensures { result ≡ seat_at nodes.now node }
{
    match nodes.get(node) {
        Some(entry) => entry.seat,
        None => Seat::Item,
    }
}

/// Returns the child numbers of the path of a node, from the node upwards.
fn steps_up(alloc: Global, nodes: &[NodeEntry], node: usize) -> Result<Vec<u32>, NoMemory>
    requires inside { node < length nodes.now }
    requires seated { AreSeated nodes.now }
    ensures { IfOk result (λ steps. reverse steps.items ≡ path_of nodes.now node) }
{
    let mut steps = Vec::new(alloc);
    let mut at = node;
    loop {
        match seat_at(nodes, at) {
            Seat::Item => return Ok(steps),
            Seat::With(holder) => at = holder as usize,
            Seat::Child(holder, i) => {
                steps.push(i)?;
                at = holder as usize;
            }
        }
    }
}

/// Whether the path of a node has exactly one number.
fn is_one_up(nodes: &[NodeEntry], node: usize) -> bool
    requires inside { node < length nodes.now }
    requires seated { AreSeated nodes.now }
    ensures { result ≡ nat_eq (length (path_of nodes.now node)) 1 }
{
    let mut found = false;
    let mut at = node;
    loop {
        match seat_at(nodes, at) {
            Seat::Item => return found,
            Seat::With(holder) => at = holder as usize,
            Seat::Child(holder, _) => {
                if found {
                    return false;
                }
                found = true;
                at = holder as usize;
            }
        }
    }
}
