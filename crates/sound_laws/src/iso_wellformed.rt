//! Isomorphisms that are read keep sound patches sound.
//!
//! - [`read_isomorphisms_are_fine`]: the isomorphisms of each file are fine, so a sound patch remains sound when its
//!   patterns are given their forms under them.
//!
//! The function does nothing.
#![tactic(auto)]

mod laws;

pub use laws::read_isomorphisms_are_fine;
