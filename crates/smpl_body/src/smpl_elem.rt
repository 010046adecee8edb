//! Reads the trees of patterns as elements of bodies.
//!
//! - [`elements`] returns the elements of a tree: a list of statements is a sequence of them, and anything else is one.
//! - [`count_atoms`] returns the number of their patterns.
//!
//! `if (c) f(); else { ... }` is a compound: its head is `if (c) else`, and its two bodies are the atom `f();` and a block
//! of one gap. What the clauses of dots say comes from [`DotsSource`].
//!
//! Calls recurse once per level of a tree. Which trees are patterns is defined in c_rows.
#![tactic(auto)]

mod count;
mod form;
mod masked;
mod sequence;

pub use count::count_atoms;
pub use form::Form;
pub use sequence::{DotsSource, Numbered, elements};
