//! The witnesses of a rule in one item: the nodes and the values of exported variables under which its formula holds, each with
//! its forest.
//!
//! [`match_item`] computes where the formula holds, once for all environments, and [`item_witnesses`] reads from that what is
//! found under one of them. Neither has a state: their results depend on their parameters alone, so that many calls can run
//! side by side.
#![tactic(auto)]

mod fault;
mod found;
mod job;
mod laws;
mod matched;
mod query;
mod values;

pub use fault::ItemFault;
pub use job::item_witnesses;
pub use laws::ids_make_no_difference;
pub use matched::{SatSets, match_item};
pub use query::ItemQuery;
pub use values::choices;
