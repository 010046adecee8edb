// The table in which a formula is built.
ghost use Rattle.std.specs.Prelude.{◌≡◌, ◌<◌, ◌≤◌, ◌+◌, min, true, [], ◌∷◌, ◌++◌, length, slice_get};
ghost use Rattle.std.specs.Prelude.{IfOk, IfSome, OnOk, OnErr};
ghost use Rattle.ctl_formula.specs.Plain.{fits, most_parts, most_around};
ghost use Rattle.ctl_formula.specs.Tables.{at, plain_of, plains, below, Makes, Stands};
ghost use Rattle.ctl_formula.specs.Counted.{counted_size, counted_depth};

use crate::node::key;
use crate::{Node, is_equal_node};
use c_terms::NoMemory;
use std::alloc::Global;
use std::collections::HashMap;
use std::marker::Model;

/// The largest number of subformulas that a formula may have.
pub const MOST_PARTS: u32 = 100_000;

/// The largest number of other subformulas that a subformula may be inside.
pub const MOST_AROUND: u32 = 4_000;

/// A node, and the counts of its formula: a part that occurs twice counts twice. A count above its limit is stored as
/// the limit plus one.
#[derive(Drop)]
struct Part {
    node: Node,
    size: u32,
    depth: u32,
}

/// Nodes, each after its parts. Equal nodes are normally stored once. Contracts see the list of nodes.
#[derive(Drop)]
pub struct Parts {
    parts: Vec<Part>,
    known: HashMap<(u8, usize, usize), usize>,
}

impl Model for Parts {
    ghost use Rattle.std.specs.Coded.{codes};
    ghost use Rattle.c_terms.specs.contracts.tree.Tree as tree;
    ghost use Rattle.std.specs.Prelude.{List};
    ghost use Rattle.ctl_formula.specs.declared.node.Node.{Node as Datum};

    ghost Value = { List Datum };

    ghost coded = { Prim.hlevel (codes, tree.the_row.coded) };

    ghost use Rattle.ctl_formula.specs.Counted.{nodes_of, IsCounted};

    ghost view = { λ t. nodes_of t.parts.items };

    ghost invariant = { λ t. IsCounted t.parts.items };
}

impl Parts {
    /// Returns a table without nodes.
    pub fn new(alloc: Global) -> Parts
        ensures empty { result ≡ [] }
    {
        Parts {
            parts: Vec::new(alloc),
            known: HashMap::new(alloc),
        }
    }

    /// Returns the number of nodes.
    pub fn len(&self) -> usize
        ensures len { result ≡ length self.now }
    {
        self.parts.len()
    }

    /// Returns the node with the given number.
    pub fn node(&self, i: usize) -> &Node
        requires { i < length self.now }
        ensures node { slice_get self.now i ≡ Some result.now }
        ensures is { at (plains self.now) i ≡ plain_of (plains self.now) result.now }
        ensures kids { below i result.now ≡ true }
    {
        &self.parts[i].node
    }

    /// Returns the number of subformulas of a node's formula, or [`MOST_PARTS`] plus one if there are more. Takes
    /// constant time.
    pub fn size(&self, i: usize) -> u32
        requires { i < length self.now }
        ensures size { result ≡ counted_size (at (plains self.now) i) }
        ensures few { result ≤ most_parts + 1 }
    {
        self.parts[i].size
    }

    /// Returns the largest number of other subformulas that a subformula of the node's formula is inside, or
    /// [`MOST_AROUND`] plus one if there are more. Takes constant time.
    pub fn depth(&self, i: usize) -> u32
        requires { i < length self.now }
        ensures depth { result ≡ counted_depth (at (plains self.now) i) }
        ensures few { result ≤ most_around + 1 }
    {
        self.parts[i].depth
    }

    /// Whether a node's formula is within the limits. Takes constant time.
    pub fn fits(&self, i: usize) -> bool
        requires { i < length self.now }
        ensures fits { result ≡ fits (at (plains self.now) i) }
    {
        self.size(i) <= MOST_PARTS && self.depth(i) <= MOST_AROUND
    }

    fn size_of(&self, node: &Node) -> u32
        requires { below (length self.now) node.now ≡ true }
        ensures { result ≡ counted_size (plain_of (plains self.now) node.now) }
    {
        match node {
            Node::True => 1,
            Node::Atom(_) => 1,
            Node::EarlyExit => 1,
            Node::BraceOpen(_, _) => 1,
            Node::BraceClose(_, _) => 1,
            Node::Inside(_) => 1,
            Node::Outside(_) => 1,
            Node::Not(f) => size_of_one(self.size(*f)),
            Node::And(f, g) => size_of_two(self.size(*f), self.size(*g)),
            Node::Or(f, g) => size_of_two(self.size(*f), self.size(*g)),
            Node::AX(f) => size_of_one(self.size(*f)),
            Node::EX(f) => size_of_one(self.size(*f)),
            Node::AU(f, g) => size_of_two(self.size(*f), self.size(*g)),
            Node::EU(f, g) => size_of_two(self.size(*f), self.size(*g)),
            Node::After(f) => size_of_one(self.size(*f)),
            Node::InBranch(_, f) => size_of_one(self.size(*f)),
            Node::Exists(_, f) => size_of_one(self.size(*f)),
        }
    }

    fn depth_of(&self, node: &Node) -> u32
        requires { below (length self.now) node.now ≡ true }
        ensures { result ≡ counted_depth (plain_of (plains self.now) node.now) }
    {
        match node {
            Node::True => 0,
            Node::Atom(_) => 0,
            Node::EarlyExit => 0,
            Node::BraceOpen(_, _) => 0,
            Node::BraceClose(_, _) => 0,
            Node::Inside(_) => 0,
            Node::Outside(_) => 0,
            Node::Not(f) => depth_around(self.depth(*f)),
            Node::And(f, g) => depth_around(self.depth(*f).max(self.depth(*g))),
            Node::Or(f, g) => depth_around(self.depth(*f).max(self.depth(*g))),
            Node::AX(f) => depth_around(self.depth(*f)),
            Node::EX(f) => depth_around(self.depth(*f)),
            Node::AU(f, g) => depth_around(self.depth(*f).max(self.depth(*g))),
            Node::EU(f, g) => depth_around(self.depth(*f).max(self.depth(*g))),
            Node::After(f) => depth_around(self.depth(*f)),
            Node::InBranch(_, f) => depth_around(self.depth(*f)),
            Node::Exists(_, f) => depth_around(self.depth(*f)),
        }
    }

    fn find(&self, node: &Node) -> Option<usize>
        ensures { IfSome result (λ i. Stands self.now i node.now) }
    {
        match self.known.get(&key(node)) {
            Some(i) => self.check(*i, node),
            None => None,
        }
    }

    fn check(&self, i: usize, node: &Node) -> Option<usize>
        ensures { IfSome result (λ j. Stands self.now j node.now) }
    {
        if i < self.parts.len() && is_equal_node(&self.parts[i].node, node) {
            return Some(i);
        }
        None
    }

    /// Makes later look-ups of equal nodes try this number.
    fn remember(&mut self, node: &Node, i: usize) -> Result<(), NoMemory>
        ensures same { self.new ≡ self.old }
    {
        self.known.insert(key(node), i)?;
        Ok(())
    }

    fn put(&mut self, node: Node, count: u32, around: u32) -> Result<(), NoMemory>
        requires below { below (length self.old) node ≡ true }
        requires count { count ≡ counted_size (plain_of (plains self.old) node) }
        requires around { around ≡ counted_depth (plain_of (plains self.old) node) }
        ensures ok { OnOk result (self.new ≡ self.old ++ node ∷ []) }
        ensures err { OnErr result (self.new ≡ self.old) }
    {
        self.parts.push(Part {
            node,
            size: count,
            depth: around,
        })?;
        Ok(())
    }

    /// Returns the number of a node whose formula is this node over its parts, adding it if no equal one is found.
    /// Normally takes constant time. The number of nodes is limited only by memory; when out of memory, the table is
    /// unchanged.
    pub fn push(&mut self, node: Node) -> Result<usize, NoMemory>
        requires { below (length self.old) node ≡ true }
        ensures made { IfOk result (λ i. Makes self.old self.new i (plain_of (plains self.old) node)) }
        ensures kept { OnErr result (self.new ≡ self.old) }
    {
        if let Some(i) = self.find(&node) {
            return Ok(i);
        }
        let size = self.size_of(&node);
        let depth = self.depth_of(&node);
        let i = self.parts.len();
        self.remember(&node, i)?;
        self.put(node, size, depth)?;
        Ok(i)
    }

    /// Returns a table with the same nodes, which are found as they are here. Takes linear time.
    pub fn copy(&self, alloc: Global) -> Result<Parts, NoMemory>
        ensures same { IfOk result (λ copied. copied ≡ self.now) }
    {
        let mut copied = Parts::new(alloc);
        for i in 0..self.len() {
            let node = self.node(i).copy(alloc)?;
            let size = copied.size_of(&node);
            let depth = copied.depth_of(&node);
            copied.remember(&node, i)?;
            copied.put(node, size, depth)?;
        }
        Ok(copied)
    }
}

fn size_of_one(size: u32) -> u32
    requires { size ≤ most_parts + 1 }
    ensures { result ≡ min (1 + size) (most_parts + 1) }
{
    (1 + size).min(MOST_PARTS + 1)
}

fn size_of_two(first: u32, second: u32) -> u32
    requires first { first ≤ most_parts + 1 }
    requires second { second ≤ most_parts + 1 }
    ensures { result ≡ min (1 + first + second) (most_parts + 1) }
{
    (1 + first + second).min(MOST_PARTS + 1)
}

fn depth_around(depth: u32) -> u32
    requires { depth ≤ most_around + 1 }
    ensures { result ≡ min (1 + depth) (most_around + 1) }
{
    (1 + depth).min(MOST_AROUND + 1)
}
