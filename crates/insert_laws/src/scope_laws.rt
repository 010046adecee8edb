//! Where the formulas of rules quantify the variables that their atoms use.
//!
//! - [`atoms_have_their_variables`]: they do so above each atom that may be touched.
//! - [`blocks_are_hidden`]: the variables of blocks have names that no declaration gives.
//!
//! The functions do nothing.
#![tactic(auto)]

mod laws;

pub use laws::{atoms_have_their_variables, blocks_are_hidden};
