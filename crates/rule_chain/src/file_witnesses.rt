//! What a rule finds over the items of one reading of a file: its witnesses under each of its projections, item by item, and
//! the values of exported variables in them.
//!
//! [`witnesses`] returns both. Many jobs match items at a time, and the result is that of one thread: what is found in one item
//! under one environment is a call of [`item_witnesses`](crate::rule_witnesses::item_witnesses), which has no state.
#![tactic(auto)]

mod choice;
mod job;
mod lend;
mod under;
mod whole;
mod worker;

pub use whole::{AllMatches, witnesses};
