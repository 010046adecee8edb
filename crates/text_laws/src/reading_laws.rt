//! Laws of readings: a text with the ids of its tokens has one list of pieces and one of items; and where the tokens of
//! trees are.
//!
//! - [`readings_are_one`]: pieces of one text with the same ids are equal, and are read as the same items.
//! - [`trees_are_sound`]: each token of a tree that is read is a token of C, and doesn't follow a Stray.
//!
//! The functions do nothing.
#![tactic(auto)]

mod laws;

pub use laws::{readings_are_one, trees_are_sound};
