//! The control-flow graphs of a file's items, each made once, when it is first requested.
//!
//! [`Graphs::make`] makes the graph of an item unless it is made already, and [`Graphs::get`] lends it. An item that was
//! skipped has no graph. So several rules over one reading of a file build each graph once. A rule requests the graphs of the
//! items in which it may find something; if one of its witnesses has a touch or a bind, `text_after_edits` of rule_chain
//! requests those of all items.
#![tactic(auto)]

mod graphs;
mod reached;

pub use graphs::Graphs;
