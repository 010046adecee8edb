// What a node is, and which statement it names.
ghost use Rattle.std.specs.Prelude.{◌≡◌};

use crate::cfg_graph::path::NodePath;
use c_terms::Tree;
use std::marker::Model;

/// What a node is.
#[derive(Clone, Copy, Debug, PartialEq, Eq)]
pub enum NodeKind {
    /// The head of a function: `int f(void)`
    FunHead,
    /// `{`
    OpenBrace,
    /// `}`
    CloseBrace,
    /// A statement without a body, or an item that is not a function
    Simple,
    /// The head of a statement that has bodies: `if (c)`
    Head,
    /// `while (c);` after the body of `do`
    DoTail,
    /// Where a function ends
    ExitNode,
}

/// The tree that a node names: a part of the item, or an empty list of statements for the exit. It is borrowed, and contracts
/// see the tree.
#[derive(Drop)]
pub struct NodeTree<'b> {
    lent: &'b Tree,
}

impl<'b> Model for NodeTree<'b> {
    ghost use Rattle.c_terms.specs.declared.tree.Tree.{Tree as Datum};
    ghost use Rattle.std.specs.Coded.{codes};
    ghost use Rattle.c_terms.specs.contracts.tree.Tree as tree;

    ghost Value = { Datum };

    ghost coded = { Prim.hlevel (codes, tree.the_row.coded) };

    ghost view = { λ n. n.lent.now };
}

impl<'b> NodeTree<'b> {
    /// Borrows this tree. Takes no memory.
    pub(crate) fn of(tree: &'b Tree) -> NodeTree<'b>
        ensures value { result ≡ tree.now }
    {
        NodeTree { lent: tree }
    }

    /// Returns the tree. Takes no memory.
    pub fn as_tree(&self) -> &'b Tree
        ensures value { result.now ≡ self.now }
    {
        self.lent
    }
}

/// What a node is, which statement it names, and where that is in the item. It is made from what the graph keeps, and
/// takes no memory.
#[derive(Drop)]
pub struct NodeLabel<'b> {
    pub kind: NodeKind,
    /// The statement or item that begins here. For the head of a function it is the item, for a brace its block, and for a
    /// tail its `do`.
    pub tree: NodeTree<'b>,
    /// The path from the item to that tree.
    pub path: NodePath<'b>,
    /// Whether a body that leaves begins here: `return` or `goto` as the body of an `if` without `else`, or a block that
    /// ends in one.
    pub bail: bool,
    /// For a brace the id of the `{` of its block, and otherwise 0.
    pub brace: u64,
}
