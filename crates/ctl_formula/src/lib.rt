//! Formulas over the nodes of a graph, whose equal parts are stored once.
//!
//! - [`Parts`] is a table: each [`Node`] is a formula whose parts are earlier nodes, named by their numbers.
//! - [`Formula`] is a rule's formula with what its patterns are read with: within the limits, and guarded.
//! - [`parts_of`] counts its subformulas, as if it were a tree.
//!
//! `A[f U g] and E[f U g]` over the atoms f and g is five nodes: f, g, the two untils, and the `and`. As a tree it has
//! seven subformulas.
//!
//! A formula has at most [`MOST_PARTS`] subformulas, each inside at most [`MOST_AROUND`] others. Both numbers are
//! computed without unfolding the table. Nothing here recurses over a formula.
//!
//! Which formula a rule has is up to ctl_translate; where a formula holds is up to the crates that check it on graphs.
#![tactic(auto)]

mod formula;
mod node;
mod parts;

pub use formula::{Formula, parts_of};
pub use node::{Node, is_equal_node};
pub use parts::{MOST_AROUND, MOST_PARTS, Parts};
