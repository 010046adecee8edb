// Graphs and their builder.
ghost use Rattle.std.specs.Prelude.{◌≡◌, ◌<◌, ◌≤◌, [], Some, OnOk, IfOk, length, slice_get};
ghost use Rattle.c_types.specs.Tables.{no_types};
ghost use Rattle.cfg_build.specs.CfgGraph.Flow.{Flow, IsSound, count_of, succ_of, past_of, down_of, with_types};
ghost use Rattle.cfg_build.specs.CfgGraph.Seats.{seat_needs};
ghost use Rattle.cfg_build.specs.CfgGraph.Empty.{no_statements};
ghost use Rattle.cfg_build.specs.CfgGraph.Labels.{tree_of, with_node};

use crate::cfg_graph::label::{NodeKind, NodeLabel, NodeTree};
use crate::cfg_graph::link_rows::LinkRows;
use crate::cfg_graph::node::NodeEntry;
use crate::cfg_graph::path::NodePath;
use c_terms::{Label, NoMemory, Tree};
use c_types::{KnownTypes, TypeTable};
use sqlite_items::Items;
use std::alloc::Global;
use std::marker::Model;

/// A graph under construction. Contracts see the four lists of its nodes so far: labels, successors, what is past them, and
/// the entries of branches; and no types.
#[derive(Drop)]
pub struct GraphBuilder<'a> {
    nodes: Vec<NodeEntry<'a>>,
    succ: LinkRows,
    past: Vec<Option<u32>>,
    down: LinkRows,
    // the tree that an exit names, an empty list of statements
    nothing: Tree,
}

impl<'a> Model for GraphBuilder<'a> {
    ghost use Rattle.std.specs.Prelude.{◌≡◌};
    ghost use Rattle.cfg_build.specs.CfgGraph.Empty.{no_statements};
    ghost use Rattle.cfg_build.specs.CfgGraph.Flow.{Flow as Lists};
    ghost use Rattle.cfg_build.specs.CfgGraph.Seats.{AreSeated};
    ghost use Rattle.cfg_build.specs.CfgGraph.Labels.{labels_of};
    ghost use Rattle.c_types.specs.Tables.{no_types};
    ghost use Rattle.std.specs.Coded.{codes};
    ghost use Rattle.c_terms.specs.contracts.tree.Tree as tree;
    ghost use Rattle.c_types.specs.contracts.ty.Ty as ty;

    ghost Value = { Lists };

    ghost coded = { Prim.hlevel (codes, tree.the_row.coded, ty.the_row.coded) };

    ghost view = { λ g. record { labels = labels_of g.nodes.items; succ = g.succ; past = g.past.items; down = g.down; types = no_types } };

    ghost invariant = { λ g. AreSeated g.nodes.items × (g.nothing ≡ no_statements) };
}

impl<'a> GraphBuilder<'a> {
    /// Returns a builder without nodes, with capacity for `room` nodes.
    pub fn new(alloc: Global, room: usize) -> Result<GraphBuilder<'a>, NoMemory>
        ensures none { IfOk result (λ g. g ≡ record { labels = []; succ = []; past = []; down = []; types = no_types }) }
    {
        let nodes = Vec::with_capacity(alloc, room)?;
        let succ = LinkRows::new(alloc, room, room)?;
        let past = Vec::with_capacity(alloc, room)?;
        let down = LinkRows::new(alloc, room, 0)?;
        Ok(GraphBuilder {
            nodes,
            succ,
            past,
            down,
            nothing: Tree::Branch(Label::StmtList, Items::new(alloc)),
        })
    }

    /// Appends a node, whose seat is the item or refers to an earlier node. After NoMemory the builder is of no use.
    pub fn push(
        &mut self,
        node: NodeEntry<'a>,
        succ: &[u32],
        past: Option<u32>,
        down: &[u32],
    ) -> Result<(), NoMemory>
        requires seated { seat_needs node.seat ≤ count_of self.old }
        ensures more { OnOk result (self.new ≡ with_node self.old node.entry succ.now past down.now) }
    {
        self.succ.push(succ)?;
        self.past.push(past)?;
        self.down.push(down)?;
        self.nodes.push(node)?;
        Ok(())
    }

    /// Returns the graph of these nodes. Takes no memory.
    pub fn into_graph(self) -> Graph<'a>
        requires sound { IsSound self }
        ensures same { result ≡ self.entry }
    {
        // seen by its fields, the builder has no types
        let _nothing = &self.nothing;
        Graph {
            rows: self,
            types: None,
        }
    }

    fn label(&self, n: usize) -> NodeLabel<'_>
        requires { n < count_of self.now }
        ensures { slice_get self.now.labels n ≡ Some result }
    {
        let node = self.nodes[n];
        let tree = NodeTree::of(tree_of(node.kind, node.tree, &self.nothing));
        let path = NodePath::of(self.nodes.as_slice(), n);
        NodeLabel {
            kind: node.kind,
            tree,
            path,
            bail: node.bail,
            brace: node.brace,
        }
    }

    fn count(&self) -> usize
        ensures { result ≡ count_of self.now }
    {
        self.nodes.len()
    }
}

/// Returns the tree that a node names.
fn tree_of<'b>(kind: NodeKind, tree: &'b Tree, nothing: &'b Tree) -> &'b Tree
    requires { nothing.now ≡ no_statements }
    ensures { result.now ≡ tree_of kind tree.now }
{
    match kind {
        NodeKind::ExitNode => nothing,
        _ => tree,
    }
}

/// A graph: for each node its label, its successors, what is past its statement, and the entries of its branches.
/// Contracts see the four lists, and what is known of the types of the item's expressions. Each node has a successor, and all
/// numbers are nodes.
#[derive(Drop)]
pub struct Graph<'a> {
    rows: GraphBuilder<'a>,
    types: Option<TypeTable>,
}

impl<'a> Model for Graph<'a> {
    ghost use Rattle.cfg_build.specs.CfgGraph.Flow.{Flow as Lists, IsSound};
    ghost use Rattle.std.specs.Coded.{codes};
    ghost use Rattle.c_terms.specs.contracts.tree.Tree as tree;
    ghost use Rattle.c_types.specs.Tables.{types_or_none};
    ghost use Rattle.c_types.specs.contracts.ty.Ty as ty;

    ghost Value = { Lists };

    ghost coded = { Prim.hlevel (codes, tree.the_row.coded, ty.the_row.coded) };

    ghost view = { λ g. record g.rows { types = types_or_none g.types } };

    ghost invariant = { λ g. IsSound g.rows };
}

impl<'a> Graph<'a> {
    /// Returns the number of nodes. Takes no memory.
    pub fn count(&self) -> u32
        ensures value { result ≡ count_of self.now }
        ensures sound { IsSound self.now }
    {
        self.rows.count() as u32
    }

    /// Returns the successors of a node in increasing order. There is at least one. Takes no memory.
    pub fn succ(&self, n: u32) -> &[u32]
        requires in_range { n < count_of self.now }
        ensures value { result.now ≡ succ_of self.now n }
    {
        self.rows.succ.get(n as usize)
    }

    /// Returns the node past this node's statement: the one that control reaches after running through the statement. An
    /// exit has none. Takes no memory.
    pub fn past(&self, n: u32) -> Option<u32>
        requires in_range { n < count_of self.now }
        ensures value { result ≡ past_of self.now n }
    {
        self.rows.past[n as usize]
    }

    /// Returns the first node of branch `branch` of this node's statement, if it has that branch: 0 is the body, or the
    /// inside of a block; 1 is what follows `else`, or the tail of `do`. Takes no memory.
    pub fn down(&self, n: u32, branch: usize) -> Option<u32>
        requires in_range { n < count_of self.now }
        ensures value { result ≡ slice_get (down_of self.now n) branch }
    {
        self.rows.down.get(n as usize).get(branch).copied()
    }

    /// Returns the label of a node. Takes no memory.
    pub fn label(&self, n: u32) -> NodeLabel<'_>
        requires in_range { n < count_of self.now }
        ensures value { slice_get self.now.labels n ≡ Some result }
    {
        self.rows.label(n as usize)
    }

    /// Returns the same graph with these types. Takes no memory.
    pub fn with_types(self, types: TypeTable) -> Graph<'a>
        ensures value { result ≡ with_types self.entry types }
    {
        let Graph { rows, types: _ } = self;
        Graph {
            rows,
            types: Some(types),
        }
    }

    /// Returns what is known of the types of the item's expressions: nothing, unless the graph was given types. Takes no
    /// memory.
    pub fn types(&self) -> KnownTypes<'_>
        ensures value { result ≡ self.now.types }
    {
        KnownTypes::of(self.types.as_ref())
    }
}
