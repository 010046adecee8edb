// The nodes of formulas.
ghost use Rattle.std.specs.Prelude.{◌≡◌, IsTrue, IfOk};

use c_terms::NoMemory;
use smpl_patch::{Pattern, is_equal_pattern};
use smpl_terms::{Var, same_var};
use std::alloc::Global;

/// A formula over the nodes of a graph, whose parts are given by their numbers in a table.
#[derive(Drop)]
pub enum Node {
    /// Holds everywhere.
    True,
    /// The pattern matches at the node.
    Atom(Pattern),
    /// The node begins a body that leaves the function.
    EarlyExit,
    /// The pattern matches at an opening brace, and the variable's value is its place.
    BraceOpen(Pattern, Var),
    /// The pattern matches at a closing brace, and the variable's value is the place of the matching `{`.
    BraceClose(Pattern, Var),
    /// The node is in the block whose `{` is at the variable's place: at that `{` or after it, and before the `}`.
    Inside(Var),
    /// The node is outside that block, and isn't its `}`.
    Outside(Var),
    /// `not f`
    Not(usize),
    /// `f and g`
    And(usize, usize),
    /// `f or g`
    Or(usize, usize),
    /// `f` holds at every next node.
    AX(usize),
    /// `f` holds at some next node.
    EX(usize),
    /// `A[f U g]`: every walk reaches `g`, through nodes with `f`.
    AU(usize, usize),
    /// `E[f U g]`: some walk reaches `g`, through nodes with `f`.
    EU(usize, usize),
    /// `f` holds at the node past the statement.
    After(usize),
    /// `f` holds at the node's body with this number.
    InBranch(usize, usize),
    /// `f` holds under some value of the variable.
    Exists(Var, usize),
}

impl Node {
    /// Returns an equal node, ids included.
    pub fn copy(&self, alloc: Global) -> Result<Node, NoMemory>
        ensures same { IfOk result (λ copied. copied ≡ self.now) }
    {
        match self {
            Node::True => Ok(Node::True),
            Node::Atom(p) => Ok(Node::Atom(p.copy(alloc)?)),
            Node::EarlyExit => Ok(Node::EarlyExit),
            Node::BraceOpen(p, b) => Ok(Node::BraceOpen(p.copy(alloc)?, b.copy(alloc)?)),
            Node::BraceClose(p, b) => Ok(Node::BraceClose(p.copy(alloc)?, b.copy(alloc)?)),
            Node::Inside(b) => Ok(Node::Inside(b.copy(alloc)?)),
            Node::Outside(b) => Ok(Node::Outside(b.copy(alloc)?)),
            Node::Not(f) => Ok(Node::Not(*f)),
            Node::And(f, g) => Ok(Node::And(*f, *g)),
            Node::Or(f, g) => Ok(Node::Or(*f, *g)),
            Node::AX(f) => Ok(Node::AX(*f)),
            Node::EX(f) => Ok(Node::EX(*f)),
            Node::AU(f, g) => Ok(Node::AU(*f, *g)),
            Node::EU(f, g) => Ok(Node::EU(*f, *g)),
            Node::After(f) => Ok(Node::After(*f)),
            Node::InBranch(i, f) => Ok(Node::InBranch(*i, *f)),
            Node::Exists(x, f) => Ok(Node::Exists(x.copy(alloc)?, *f)),
        }
    }
}

/// Whether the two nodes are equal, ids included. Allocates nothing.
pub fn is_equal_node(a: &Node, b: &Node) -> bool
    ensures equal { IsTrue result → a.now ≡ b.now }
    ensures found { a.now ≡ b.now → IsTrue result }
{
    match (a, b) {
        (Node::True, Node::True) => true,
        (Node::EarlyExit, Node::EarlyExit) => true,
        (Node::Atom(p), Node::Atom(q)) => is_equal_pattern(p, q),
        (Node::BraceOpen(p, x), Node::BraceOpen(q, y)) => is_equal_var(x, y)
            && is_equal_pattern(p, q),
        (Node::BraceClose(p, x), Node::BraceClose(q, y)) => is_equal_var(x, y)
            && is_equal_pattern(p, q),
        (Node::Inside(x), Node::Inside(y)) => is_equal_var(x, y),
        (Node::Outside(x), Node::Outside(y)) => is_equal_var(x, y),
        (Node::Not(f), Node::Not(g)) => f == g,
        (Node::And(f, h), Node::And(g, k)) => f == g && h == k,
        (Node::Or(f, h), Node::Or(g, k)) => f == g && h == k,
        (Node::AX(f), Node::AX(g)) => f == g,
        (Node::EX(f), Node::EX(g)) => f == g,
        (Node::AU(f, h), Node::AU(g, k)) => f == g && h == k,
        (Node::EU(f, h), Node::EU(g, k)) => f == g && h == k,
        (Node::After(f), Node::After(g)) => f == g,
        (Node::InBranch(i, f), Node::InBranch(j, g)) => i == j && f == g,
        (Node::Exists(x, f), Node::Exists(y, g)) => f == g && is_equal_var(x, y),
        _ => false,
    }
}

fn is_equal_var(x: &Var, y: &Var) -> bool
    ensures equal { IsTrue result → x.now ≡ y.now }
    ensures found { x.now ≡ y.now → IsTrue result }
{
    same_var(x, y)
}

/// Returns the key under which a table looks for an equal node. Equal nodes have equal keys.
pub fn key(node: &Node) -> (u8, usize, usize) {
    match node {
        Node::True => (0, 0, 0),
        Node::Atom(p) => (1, p.atom as usize, 0),
        Node::EarlyExit => (2, 0, 0),
        Node::BraceOpen(p, _) => (3, p.atom as usize, 0),
        Node::BraceClose(p, _) => (4, p.atom as usize, 0),
        Node::Inside(b) => (5, key_of_var(b), 0),
        Node::Outside(b) => (6, key_of_var(b), 0),
        Node::Not(f) => (7, *f, 0),
        Node::And(f, g) => (8, *f, *g),
        Node::Or(f, g) => (9, *f, *g),
        Node::AX(f) => (10, *f, 0),
        Node::EX(f) => (11, *f, 0),
        Node::AU(f, g) => (12, *f, *g),
        Node::EU(f, g) => (13, *f, *g),
        Node::After(f) => (14, *f, 0),
        Node::InBranch(i, f) => (15, *f, *i),
        Node::Exists(x, f) => (16, *f, key_of_var(x)),
    }
}

/// Variables of one part normally differ by their names.
fn key_of_var(x: &Var) -> usize {
    let mut key = x.rule as usize;
    for b in x.name.as_bytes() {
        key = key.wrapping_mul(31).wrapping_add(*b as usize);
    }
    key
}
