//! Tests of the calls of the C side. The crate has nothing else, and no public items.
//!
//! The tests are here rather than in the tested crates because a crate with tests is proved twice.
#![tactic(auto)]

#[cfg(test)]
mod expressions;
#[cfg(test)]
mod graphs;
#[cfg(test)]
mod statements;
#[cfg(test)]
mod words;
