//! Forests of witnesses: trees in order, each once.
//!
//! A forest is a set of trees. It is kept as the one list of its trees that is ascending in [`witness_order`]: [`distinct`]
//! makes this list from trees in any order, and two such lists with the same trees have the same elements one by one
//! ([`one_list_a_forest`]). Trees are the same if their terms are, ids aside.
//!
//! ```text
//!       touch 2 0 2.1  <  bind 2 x = a  <  bind 2 x = b  <  touch 5 1 2.3
//! ```
//!
//! [`within`] says whether a forest is larger than a budget, and what is left of the budget. Forests are gathered by
//! `forest` of wit_forest.
#![tactic(auto)]

mod laws;
mod order;
mod sets;
mod sizes;

pub use laws::{equal_where_same, one_list_a_forest, witnesses_are_ordered};
pub use order::{declared_order, witness_order};
pub use sets::distinct;
pub use sizes::within;
