// A node as it is kept.
use crate::cfg_graph::NodeKind;
use c_terms::Tree;

/// Where a node's statement is in the item. It refers to an earlier node whose statement contains it, so that no node
/// keeps a list of numbers itself.
#[derive(Clone, Copy)]
pub enum Seat {
    /// The statement is the item.
    Item,
    /// The statement is that of this earlier node, as for a closing brace or a tail.
    With(u32),
    /// The statement is the child of this number of this earlier node's statement.
    Child(u32, u32),
}

/// A node as it is kept. For an exit, `tree` has no meaning.
#[derive(Clone, Copy)]
pub struct NodeEntry<'a> {
    /// The statement or item that begins here, as a label has it.
    pub tree: &'a Tree,
    /// For a brace the id of the `{` of its block, and otherwise 0.
    pub brace: u64,
    /// Where that statement is.
    pub seat: Seat,
    /// What the node is.
    pub kind: NodeKind,
    /// Whether a body that leaves begins here.
    pub bail: bool,
}
