//! Laws of the texts that any edits produce, and of the values of graphs.
//!
//! - [`ids_differ`]: no two tokens of a text have the same id.
//! - [`ids_are_few`]: there are no more ids than bytes, and at most that many new ones.
//! - [`values_are_sound`]: the values of an item's graph are places, or terms of the item's tokens.
//!
//! The functions do nothing.
#![tactic(auto)]

mod laws;

pub use laws::{ids_are_few, ids_differ, values_are_sound};
