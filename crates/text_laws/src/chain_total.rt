//! The rules of a patch over a text come to an end.
//!
//! - [`texts_are_read`]: it is impossible that a text has no items.
//! - [`chains_have_an_end`]: it is impossible that the rules of a patch that is read have no end over a text.
//!
//! The functions do nothing.
#![tactic(auto)]

mod laws;

pub use laws::{chains_have_an_end, texts_are_read};
