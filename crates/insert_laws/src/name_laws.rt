//! The names that a patch declares are words: none begins with `{`, as the hidden variables of blocks do.
//!
//! - [`declared_names_are_words`]: this holds of each patch that bytes spell.
//!
//! The function does nothing.
#![tactic(auto)]

mod laws;

pub use laws::declared_names_are_words;
