//! Tests of the calls on sets of environments. The crate has nothing else, and no public items.
//!
//! The tests are here rather than in env_sets because a crate with tests is proved twice.
#![tactic(auto)]

#[cfg(test)]
mod set_sizes;
#[cfg(test)]
mod sets;
