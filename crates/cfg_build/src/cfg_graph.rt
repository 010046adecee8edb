//! Control-flow graphs: labelled nodes, and the edges between them.
//!
//! - [`Graph`] has for each node its label, its successors, what is past its statement, and the entries of its branches.
//!   A [`GraphBuilder`] makes one from a [`NodeEntry`] for each node.
//! - [`NodeLabel`] says what a node is, which statement it names, as a [`NodeTree`], and where that is, as a [`NodePath`].
//! - [`is_own`] says which children of that statement's tree are the node's own.
//! - [`Links`] are a few numbers of nodes.
//! - [`labels_are_values`] and [`parts_are_values`] are laws: their clauses hold, and their bodies are empty.
//!
//! ```text
//!       0 head ─► 1 {  ─► 2 lock ─► 3 if ─┬─► 4 unlock a ─┐
//!                                         └─► 5 unlock b ─┴─► 6 } ─► 7 exit (goes to itself)
//! ```
//!
//! Here 3 has the successors 4 and 5 and the same two branch entries, and 6 is past 3, 4 and 5.
//!
//! A graph borrows its trees from the item that it was made from, so a label needs no copy of its statement. cfg_build
//! determines which graph an item has.
#![tactic(auto)]

mod graph;
mod label;
mod laws;
mod link_rows;
mod links;
mod node;
mod own;
mod path;

pub use graph::{Graph, GraphBuilder};
pub use label::{NodeKind, NodeLabel, NodeTree};
pub use laws::{labels_are_values, parts_are_values};
pub use links::Links;
pub use node::{NodeEntry, Seat};
pub use own::is_own;
pub use path::NodePath;
